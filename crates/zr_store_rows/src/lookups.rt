//! An object of three blocks in a tree, one of them zeros, as a group without changes has it.
ghost use Rattle.std.specs.Prelude.{◌≡◌, IfSome, IfOk};
ghost use Rattle.zr_bptr.specs.Spelling.{IsObject};
ghost use Rattle.zr_lookup.specs.Groups.{IsLawfulGroup};

use std::alloc::Global;
use std::test::Fail;
use zr_bptr::{ObjRec, Ptr, Tree};
use zr_lookup::{
    block_at, block_bytes, blocks_of, leaves_of, pointer_of, read_range, record_of, sum_object,
};
use zr_store::{Blocks, MemBlocks, StoreErr};
use zr_txg::Group;

const NO_TREE: Tree = Tree {
    root: Ptr::Hole,
    height: 0,
};

fn no_changes(alloc: Global) -> Group
    ensures { IsLawfulGroup result }
{
    Group::new(alloc, 7)
}

// Blocks of ones, zeros and twos at the indices 3, 5 and 40.
fn make_object(alloc: Global, store: &mut MemBlocks) -> Result<ObjRec, StoreErr>
    ensures { IfOk result IsObject }
{
    let ones = store.put(alloc, &[1; 4096], 0)?;
    let zeros = store.put(alloc, &[0; 4096], 0)?;
    let twos = store.put(alloc, &[2; 4096], 0)?;
    let changes = [(3, Ptr::At(ones)), (5, Ptr::At(zeros)), (40, Ptr::At(twos))];
    let tree = zr_tree::set_all(alloc, store, &NO_TREE, &changes)?;
    Ok(ObjRec { units: 1, tree })
}

#[test]
fn reads_and_sums_an_object(rt: HostRuntime) -> Result<(), Fail> {
    let alloc = rt.alloc();
    let mut store = MemBlocks::new(alloc, 64);
    let group = no_changes(alloc);
    let rec = make_object(alloc, &mut store)?;
    assert_eq!(rt;
        pointer_of(alloc, &mut store, &group, 9, &rec, 4)?,
        Ptr::Hole
    );
    assert_eq!(rt;
        block_at(alloc, &mut store, &group, 9, &rec, 40)?.as_slice(),
        [2; 4096].as_slice()
    );
    let bytes = read_range(alloc, &mut store, &group, 9, &rec, 163839, 3)?;
    assert_eq!(rt; bytes.as_slice(), [0, 2, 2].as_slice());
    let sum = sum_object(alloc, &mut store, &group, 9, &rec)?;
    assert_eq!(rt; &sum[..4], [0xf8, 0xf5, 0x71, 0x74].as_slice());
    Ok(())
}

#[test]
fn lists_the_blocks_of_an_object(rt: HostRuntime) -> Result<(), Fail> {
    let alloc = rt.alloc();
    let mut store = MemBlocks::new(alloc, 64);
    let group = no_changes(alloc);
    let rec = make_object(alloc, &mut store)?;
    let leaves = leaves_of(alloc, &mut store, &group, 9, &rec)?;
    let mut indices = Vec::new(alloc);
    for leaf in leaves.iter() {
        indices.push(leaf.0)?;
    }
    assert_eq!(rt; indices.as_slice(), [3, 5, 40].as_slice());
    // three leaves and three tree blocks
    let blocks = blocks_of(alloc, &mut store, &group, 9, &rec)?;
    assert_eq!(rt; (blocks.len(), store.kept.len()), (6, 6));
    Ok(())
}

#[test]
fn finds_no_object(rt: HostRuntime) -> Result<(), Fail> {
    let alloc = rt.alloc();
    let mut store = MemBlocks::new(alloc, 64);
    let group = no_changes(alloc);
    for id in [9, 65535, 65536] {
        assert_eq!(rt; record_of(alloc, &mut store, &NO_TREE, &group, id)?, None);
    }
    let rec = ObjRec {
        units: 2,
        tree: make_object(alloc, &mut store)?.tree,
    };
    assert_eq!(rt;
        block_bytes(alloc, &mut store, &rec, &Ptr::Hole)?.len(),
        8192
    );
    assert!(rt; block_at(alloc, &mut store, &group, 9, &rec, 3).is_err());
    Ok(())
}
