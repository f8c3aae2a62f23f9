//! A small object that is written, filled, punched and dropped, and a store that is full.
ghost use Rattle.std.specs.Prelude.{◌<◌, OnOk};
ghost use Rattle.zr_lookup.specs.Groups.{IsLawfulGroup};
ghost use Rattle.zr_change.specs.Edits.{HasLength};

use std::alloc::Global;
use std::test::Fail;
use zr_bptr::{Ptr, is_object};
use zr_change::{
    Bytes, Edit, Planned, blocks_touched, change_object, drop_object, fits_object, frame,
    free_olds, make_object, new_blocks, new_units, olds, plan, puts,
};
use zr_lookup::{block_bytes, pointer_of};
use zr_store::{MemBlocks, StoreErr};
use zr_txg::Group;

// The change of an object that the group has, and how many blocks it put.
fn edited(
    alloc: Global,
    store: &mut MemBlocks,
    group: &mut Group,
    id: u32,
    edit: &Edit<'_>,
) -> Result<u64, StoreErr>
    requires lawful { IsLawfulGroup group.old }
    requires id { id < 65536 }
    requires given { HasLength edit.now.len edit.now.bytes }
    ensures { OnOk result (IsLawfulGroup group.new) }
{
    let Some(Some(rec)) = group.object(id) else {
        return Ok(0);
    };
    if !is_object(&rec) || !fits_object(rec.units, edit.off, edit.len) {
        return Ok(0);
    }
    let planned = plan(alloc, store, group, id, &rec, edit)?;
    change_object(alloc, store, group, id, &rec, planned.as_slice())?;
    Ok(puts(planned.as_slice()))
}

// The bytes of a block of an object that the group has.
fn block(
    alloc: Global,
    store: &mut MemBlocks,
    group: &Group,
    id: u32,
    index: u64,
) -> Result<Vec<u8>, StoreErr>
    requires { IsLawfulGroup group.now }
{
    let Some(Some(rec)) = group.object(id) else {
        return Ok(Vec::new(alloc));
    };
    if !is_object(&rec) {
        return Ok(Vec::new(alloc));
    }
    let p = pointer_of(alloc, store, group, id, &rec, index)?;
    block_bytes(alloc, store, &rec, &p)
}

#[test]
fn writes_fills_punches_and_drops(rt: HostRuntime) -> Result<(), Fail> {
    let alloc = rt.alloc();
    let mut store = MemBlocks::new(alloc, 64);
    let mut group = Group::new(alloc, 1);
    make_object(&mut group, 7, 2)?;
    let across = Edit {
        off: 8190,
        len: 4,
        bytes: Bytes::Given(&[1, 2, 3, 4]),
    };
    assert_eq!(rt; edited(alloc, &mut store, &mut group, 7, &across)?, 2);
    assert_eq!(rt; (group.blocks(), store.kept.len()), (2, 2));
    let whole = Edit {
        off: 8192,
        len: 8192,
        bytes: Bytes::Filled(9),
    };
    assert_eq!(rt; edited(alloc, &mut store, &mut group, 7, &whole)?, 1);
    assert_eq!(rt; (group.blocks(), store.kept.len(), store.next), (2, 2, 6));
    let first = block(alloc, &mut store, &group, 7, 0)?;
    assert_eq!(rt; first.len(), 8192);
    assert_eq!(rt; &first[8188..], [0, 0, 1, 2].as_slice());
    let second = block(alloc, &mut store, &group, 7, 1)?;
    assert_eq!(rt; second.as_slice(), [9; 8192].as_slice());
    let zeros = Edit {
        off: 8190,
        len: 2,
        bytes: Bytes::Filled(0),
    };
    assert_eq!(rt; edited(alloc, &mut store, &mut group, 7, &zeros)?, 0);
    assert_eq!(rt; (group.find(7, 0), store.kept.len()), (Some(Ptr::Hole), 1));
    assert_eq!(rt; new_blocks(&group, 7, 0, 3), 2);
    let Some(Ptr::At(b)) = group.find(7, 1) else {
        return Ok(());
    };
    drop_object(alloc, &mut store, &mut group, 7, &[b])?;
    assert_eq!(rt;
        (group.object(7), group.blocks(), store.kept.len()),
        (Some(None), 0, 0)
    );
    Ok(())
}

#[test]
fn gives_back_what_was_put(rt: HostRuntime) -> Result<(), Fail> {
    let alloc = rt.alloc();
    let mut store = MemBlocks::new(alloc, 5);
    let mut group = Group::new(alloc, 1);
    make_object(&mut group, 7, 2)?;
    let three = Edit {
        off: 0,
        len: 24576,
        bytes: Bytes::Filled(1),
    };
    let refused = edited(alloc, &mut store, &mut group, 7, &three);
    assert_eq!(rt;
        refused,
        Err(StoreErr::NoRun {
            needed: 2,
            longest: 1
        })
    );
    assert_eq!(rt; (group.blocks(), store.kept.len()), (0, 0));
    Ok(())
}

#[test]
fn counts_what_is_planned(rt: HostRuntime) -> Result<(), Fail> {
    let alloc = rt.alloc();
    assert!(rt; fits_object(1, 137_438_953_471, 1));
    assert!(rt; !fits_object(1, 137_438_953_471, 2));
    assert!(rt; !fits_object(32, u64::MAX, u64::MAX));
    assert!(rt; !fits_object(1, 0, 0));
    if fits_object(2, 8190, 4) {
        assert_eq!(rt; blocks_touched(2, 8190, 4), (0, 1));
    }
    frame();
    let one = Vec::from_slice(alloc, &[1; 4096])?;
    let planned = [
        Planned {
            index: 4,
            old: Ptr::Hole,
            new: Some(one),
        },
        Planned {
            index: 5,
            old: Ptr::Hole,
            new: None,
        },
    ];
    assert_eq!(rt; (puts(&planned), new_units(1, &planned)), (1, 1));
    assert_eq!(rt; olds(alloc, &planned)?.len(), 0);
    let mut store = MemBlocks::new(alloc, 5);
    free_olds(alloc, &mut store, &planned)?;
    Ok(())
}
