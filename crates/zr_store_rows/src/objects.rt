//! A directory in memory: two objects in one leaf and one in another, their blocks, and leaves that are outside their form.
ghost use Rattle.std.specs.Prelude.{IfOk, IfSome};
ghost use Rattle.zr_bptr.specs.Spelling.{IsObject};
ghost use Rattle.zr_tree.specs.Blocks.{FitsAt};

use std::alloc::Global;
use std::test::Fail;
use zr_base::Dva;
use zr_bptr::{Bptr, ObjRec, Ptr, Tree, encode_records};
use zr_objset::{block, frame, look, walk};
use zr_store::{Blocks, MemBlocks, StoreErr};

const NO_TREE: Tree = Tree {
    root: Ptr::Hole,
    height: 0,
};

// A leaf of the directory with records at three places.
fn leaf(
    alloc: Global,
    store: &mut MemBlocks,
    at_2: Option<ObjRec>,
    at_3: Option<ObjRec>,
    at_15: Option<ObjRec>,
) -> Result<Ptr, StoreErr>
    requires third { IfSome at_2 IsObject }
    requires fourth { IfSome at_3 IsObject }
    requires last { IfSome at_15 IsObject }
    ensures { IfOk result (FitsAt 0) }
{
    let records = [
        None, None, at_2, at_3, None, None, None, None, None, None, None, None, None, None, None,
        at_15,
    ];
    let bytes = encode_records(alloc, &records)?;
    let b = store.put(alloc, bytes.as_slice(), 0)?;
    Ok(Ptr::At(b))
}

#[test]
fn finds_objects_and_their_blocks(rt: HostRuntime) -> Result<(), Fail> {
    let alloc = rt.alloc();
    let mut store = MemBlocks::new(alloc, 64);
    let a = store.put(alloc, &[1; 4096], 0)?;
    let b = store.put(alloc, &[2; 8192], 0)?;
    let one = ObjRec {
        units: 1,
        tree: zr_tree::set_all(alloc, &mut store, &NO_TREE, &[(33, Ptr::At(a))])?,
    };
    let two = ObjRec {
        units: 2,
        tree: Tree {
            root: Ptr::At(b),
            height: 0,
        },
    };
    let empty = ObjRec {
        units: 4,
        tree: NO_TREE,
    };
    let low = leaf(alloc, &mut store, Some(one), Some(two), None)?;
    let high = leaf(alloc, &mut store, None, None, Some(empty))?;
    let dir = zr_tree::set_all(alloc, &mut store, &NO_TREE, &[(0, low), (4095, high)])?;
    assert_eq!(rt; dir.height, 3);
    for (id, object) in [
        (0, None),
        (2, Some(one)),
        (3, Some(two)),
        (16, None),
        (18, None),
        (65534, None),
        (65535, Some(empty)),
    ] {
        assert_eq!(rt; look(alloc, &mut store, &dir, id)?, object, "object {id}");
    }
    assert_eq!(rt;
        block(alloc, &mut store, &one, 33)?.as_slice(),
        [1; 4096].as_slice()
    );
    assert_eq!(rt;
        block(alloc, &mut store, &one, 0)?.as_slice(),
        [0; 4096].as_slice()
    );
    assert_eq!(rt;
        block(alloc, &mut store, &two, 0)?.as_slice(),
        [2; 8192].as_slice()
    );
    assert_eq!(rt;
        block(alloc, &mut store, &two, 1)?.as_slice(),
        [0; 8192].as_slice()
    );
    assert_eq!(rt; block(alloc, &mut store, &empty, 7)?.len(), 16384);
    // five tree blocks and two leaves of the directory, then two tree blocks and a leaf, and a leaf
    let all = walk(alloc, &mut store, &dir)?;
    assert_eq!(rt; all.len(), store.kept.len());
    assert_eq!(rt; all.len(), 11);
    let own = zr_tree::walk(alloc, &mut store, &dir)?;
    assert!(rt; all.as_slice().starts_with(own.as_slice()));
    assert_eq!(rt; &all[9..], [a, b].as_slice());
    Ok(())
}

#[test]
fn stores_and_drops_objects(rt: HostRuntime) -> Result<(), Fail> {
    let alloc = rt.alloc();
    let mut store = MemBlocks::new(alloc, 64);
    let b = store.put(alloc, &[2; 8192], 0)?;
    let two = ObjRec {
        units: 2,
        tree: Tree {
            root: Ptr::At(b),
            height: 0,
        },
    };
    let empty = ObjRec {
        units: 4,
        tree: NO_TREE,
    };
    // two leaves, and three blocks above the first beside two above the second
    let first = zr_objset::store(
        alloc,
        &mut store,
        &NO_TREE,
        &[(2, Some(two)), (3, Some(empty)), (65535, Some(empty))],
    )?;
    assert_eq!(rt; (first.height, store.kept.len()), (3, 8));
    // the first leaf goes, and another comes
    let second = zr_objset::store(
        alloc,
        &mut store,
        &first,
        &[(2, None), (3, None), (17, Some(two)), (65534, Some(two))],
    )?;
    assert_eq!(rt; (second.height, store.kept.len()), (3, 8));
    for (id, object) in [
        (2, None),
        (3, None),
        (17, Some(two)),
        (18, None),
        (65534, Some(two)),
        (65535, Some(empty)),
    ] {
        assert_eq!(rt;
            look(alloc, &mut store, &second, id)?,
            object,
            "object {id}"
        );
    }
    let third = zr_objset::store(
        alloc,
        &mut store,
        &second,
        &[(17, None), (65534, None), (65535, None)],
    )?;
    assert_eq!(rt;
        (third.root, third.height, store.kept.len()),
        (Ptr::Hole, 3, 1)
    );
    let next = store.next;
    let same = zr_objset::store(alloc, &mut store, &third, &[(5, None)])?;
    assert_eq!(rt; (same, store.next), (third, next));
    Ok(())
}

#[test]
fn tells_of_a_leaf_outside_its_form(rt: HostRuntime) -> Result<(), Fail> {
    let alloc = rt.alloc();
    let mut store = MemBlocks::new(alloc, 8);
    let b = store.put(alloc, &[1; 4096], 0)?;
    let dir = Tree {
        root: Ptr::At(b),
        height: 0,
    };
    let at = b.at;
    let sum = b.sum;
    let error = Some(StoreErr::Malformed { at, expected: sum });
    assert_eq!(rt; look(alloc, &mut store, &dir, 15).err(), error);
    assert_eq!(rt; walk(alloc, &mut store, &dir).err(), error);
    let stored = zr_objset::store(alloc, &mut store, &dir, &[(15, None)]);
    assert_eq!(rt; stored.err(), error);
    let object = ObjRec {
        units: 2,
        tree: dir,
    };
    assert_eq!(rt; block(alloc, &mut store, &object, 0).err(), error);
    frame();
    Ok(())
}
