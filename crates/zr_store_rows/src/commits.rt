//! Commits to a store in memory: a group of two objects and a drop, a log at its bound, a late set, and a head.
ghost use Rattle.std.specs.Prelude.{IsTrue, IfSome, length, ◌<◌};
ghost use Rattle.std.specs.List.{AllByRecursion};
ghost use Rattle.zr_bptr.specs.Spelling.{IsObject};
ghost use Rattle.zr_txg.specs.Tables.{IsRising};
ghost use Rattle.zr_lookup.specs.Groups.{IsBlockChange, IsChangeOf, IsLawfulGroup};
ghost use Rattle.zr_commit.specs.Objects.{entry};

use std::test::Fail;
use zr_base::{CkptPart, DevRow, DevState, Extent, Items};
use zr_bptr::{ObjRec, Ptr, Tree, is_object, is_pointer};
use zr_commit::{
    free_head, free_streams, free_tree, write_anew, write_group, write_head, write_late, write_log,
};
use zr_meta::{Head, Stream, decode_head, is_head};
use zr_objset::{block, look};
use zr_ranges::RangeSet;
use zr_root::{read_root, read_stream, write_stream};
use zr_smap::condensed;
use zr_store::{Blocks, MemBlocks};
use zr_txg::Group;

const NO_TREE: Tree = Tree {
    root: Ptr::Hole,
    height: 0,
};

const NO_WORDS: Stream = Stream {
    words: 0,
    tree: NO_TREE,
};

// A hole, or a leaf, at an index that a tree may have.
fn is_block_change(change: &(u64, Ptr)) -> bool
    ensures { IsTrue result → IsBlockChange change.now }
{
    if change.0 >= 1 << 25 {
        return false;
    }
    match &change.1 {
        Ptr::Hole => true,
        Ptr::At(b) => b.level == 0 && is_pointer(b),
    }
}

fn are_block_changes(changes: &[(u64, Ptr)]) -> bool
    ensures { IsTrue result → AllByRecursion IsBlockChange changes.now }
{
    for change in changes {
        if !is_block_change(change) {
            return false;
        }
    }
    true
}

fn is_record(object: &Option<ObjRec>) -> bool
    ensures { IsTrue result → IfSome object.now IsObject }
{
    match object {
        None => true,
        Some(r) => is_object(r),
    }
}

fn is_change(group: &Group, i: u64) -> bool
    requires rising { IsRising group.now.objects }
    requires within { i < length group.now.objects }
    ensures { IsTrue result → IsChangeOf (entry group.now.objects i) }
{
    let id = group.id_at(i);
    let Some(object) = group.object(id) else {
        unreachable!()
    };
    if id >= 65_536 {
        return false;
    }
    if !is_record(&object) {
        return false;
    }
    are_block_changes(group.changes(id))
}

// Whether each change of a group is one of an object.
fn is_lawful(group: &Group) -> bool
    ensures { IsTrue result → IsLawfulGroup group.now }
{
    for i in 0..group.objects() {
        if !is_change(group, i) {
            return false;
        }
    }
    true
}

fn change(group: &mut Group, id: u32, index: u64, p: Ptr) -> Result<(), Fail> {
    if let Some(Some(_)) = group.object(id) {
        group.change(id, index, p)?;
    }
    Ok(())
}

#[test]
fn a_group_is_written_and_an_object_dropped(rt: HostRuntime) -> Result<(), Fail> {
    let alloc = rt.alloc();
    let mut store = MemBlocks::new(alloc, 64);
    let a = store.put(alloc, &[1; 4096], 0)?;
    let b = store.put(alloc, &[2; 8192], 0)?;
    let one = ObjRec {
        units: 1,
        tree: NO_TREE,
    };
    let two = ObjRec {
        units: 2,
        tree: NO_TREE,
    };
    let mut group = Group::new(alloc, 7);
    group.record_object(2, Some(one))?;
    group.record_object(40, Some(two))?;
    change(&mut group, 2, 33, Ptr::At(a))?;
    change(&mut group, 40, 0, Ptr::At(b))?;
    if !is_lawful(&group) {
        return Err(Fail::new("no lawful group"));
    }
    let dir = write_group(alloc, &mut store, &NO_TREE, &group)?;
    // two blocks above the first object's leaf, two leaves of the directory and a block above them
    assert_eq!(rt; store.kept.len(), 7);
    let Some(first) = look(alloc, &mut store, &dir, 2)? else {
        return Err(Fail::new("no object"));
    };
    assert_eq!(rt; (first.units, first.tree.height), (1, 2));
    assert_eq!(rt;
        block(alloc, &mut store, &first, 33)?.as_slice(),
        [1; 4096].as_slice()
    );
    let Some(second) = look(alloc, &mut store, &dir, 40)? else {
        return Err(Fail::new("no object"));
    };
    assert_eq!(rt;
        block(alloc, &mut store, &second, 0)?.as_slice(),
        [2; 8192].as_slice()
    );
    let mut next = Group::new(alloc, 8);
    next.record_object(2, None)?;
    if !is_lawful(&next) {
        return Err(Fail::new("no lawful group"));
    }
    let after = write_group(alloc, &mut store, &dir, &next)?;
    assert!(rt; look(alloc, &mut store, &after, 2)?.is_none());
    assert_eq!(rt; look(alloc, &mut store, &after, 40)?, Some(second));
    free_tree(alloc, &mut store, &first.tree)?;
    // the second object's leaf, the directory's leaf and the block above it
    assert_eq!(rt; store.kept.len(), 3);
    Ok(())
}

#[test]
fn a_log_is_appended_to_up_to_its_bound(rt: HostRuntime) -> Result<(), Fail> {
    let alloc = rt.alloc();
    let mut store = MemBlocks::new(alloc, 16);
    let mut set = RangeSet::new(alloc);
    set.add(Extent { start: 5, len: 3 })?;
    if condensed(alloc, &set, 1, 0)?.len() > 1 {
        return Err(Fail::new("a long set"));
    }
    let log = write_log(alloc, &mut store, &NO_WORDS, &[327_682], &set, 1, 0)?;
    if log.words > 1 {
        return Err(Fail::new("a long log"));
    }
    assert_eq!(rt;
        read_stream(alloc, &mut store, &log)?.as_slice(),
        [327_682].as_slice()
    );
    let full = write_anew(alloc, &mut store, &log, &[9; 512])?;
    assert_eq!(rt; store.kept.len(), 1);
    let same = write_log(alloc, &mut store, &full, &[], &set, 1, 0)?;
    assert_eq!(rt; same, full);
    // twice the one word of the set and 512 more
    let grown = write_log(alloc, &mut store, &full, &[7, 8], &set, 1, 0)?;
    assert_eq!(rt; (grown.words, store.kept.len()), (514, 3));
    let anew = write_log(alloc, &mut store, &grown, &[7], &set, 1, 0)?;
    if anew.words > 1 {
        return Err(Fail::new("a long log"));
    }
    assert_eq!(rt; store.kept.len(), 1);
    assert_eq!(rt;
        read_stream(alloc, &mut store, &anew)?.as_slice(),
        [327_682].as_slice()
    );
    Ok(())
}

#[test]
fn a_late_set_has_blocks_and_metadata(rt: HostRuntime) -> Result<(), Fail> {
    let alloc = rt.alloc();
    let mut store = MemBlocks::new(alloc, 16);
    let mut blocks = RangeSet::new(alloc);
    blocks.add(Extent { start: 5, len: 3 })?;
    let mut meta = RangeSet::new(alloc);
    meta.add(Extent { start: 9, len: 1 })?;
    if condensed(alloc, &blocks, 1, 0)?.len() > 1 || condensed(alloc, &meta, 1, 0)?.len() > 1 {
        return Err(Fail::new("a long set"));
    }
    let late = write_late(alloc, &mut store, &blocks, &meta, 1, 0)?;
    assert_eq!(rt;
        read_stream(alloc, &mut store, &late)?.as_slice(),
        [327_682, 622_592].as_slice()
    );
    free_streams(alloc, &mut store, &[late])?;
    assert_eq!(rt; store.kept.len(), 0);
    Ok(())
}

#[test]
fn a_head_is_written_read_and_given_back(rt: HostRuntime) -> Result<(), Fail> {
    let alloc = rt.alloc();
    let mut store = MemBlocks::new(alloc, 16);
    let held = write_stream(alloc, &mut store, &[327_682])?;
    let mut streams = Items::new(alloc);
    streams.push(held)?;
    streams.push(NO_WORDS)?;
    streams.push(NO_WORDS)?;
    streams.push(NO_WORDS)?;
    let h = Head {
        form: 2,
        dir: NO_TREE,
        saved: None,
        ckpt: CkptPart::Clear,
        cond: None,
        streams,
    };
    let table = [DevRow {
        state: DevState::On,
        added: 1,
        units: 896,
        gone: 0,
    }];
    if !is_head(&h, &table) {
        return Err(Fail::new("no head"));
    }
    let (root, len) = write_head(alloc, &mut store, &h, &table)?;
    // 20 words, one that says that nothing is condensed, and 17 for each stream
    assert_eq!(rt; len, 712);
    let bytes = read_root(alloc, &mut store, &root, len)?;
    let back = decode_head(alloc, bytes.as_slice(), &table)?;
    assert_eq!(rt; back.dir, h.dir);
    assert_eq!(rt; back.streams.as_slice(), h.streams.as_slice());
    assert_eq!(rt; store.kept.len(), 2);
    free_head(alloc, &mut store, &root, len)?;
    assert_eq!(rt; store.kept.len(), 1);
    Ok(())
}
