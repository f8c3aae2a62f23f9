//! A directory by its leaves: for a walk over all objects, which asks the directory's tree once, and not for each ID.
ghost use Rattle.std.specs.Prelude.{◌≡◌, ◌/◌, ◌<◌, ℕ, IfOk, IfSome, None, slice_index_or};
ghost use Rattle.std.specs.List.{AllByRecursion};
ghost use Rattle.zr_objset.specs.Records.{record_in};
ghost use Rattle.zr_store.specs.Causes.{Costs, HasCause};
ghost use Rattle.zr_store.specs.Store.{Stored};
ghost use Rattle.zr_bptr.specs.Spelling.{IsTree, IsObject};
ghost use Rattle.zr_bptr.specs.declared.Tree.{Tree};
ghost use Rattle.zr_tree.specs.Trees.{own, tree_at, tree_blocks, TellsOf};
ghost use Rattle.zr_objset.specs.Errors.{IsNoLeaf, TellsOfLeaves};
ghost use Rattle.zr_txg.specs.Tables.{IsRising};
ghost use Rattle.zr_lookup.specs.Groups.{IsLawfulGroup};
ghost use Rattle.zr_lookup.specs.Objects.{record_now, HasLeaves};

use crate::overlays::place_of;
use crate::walks::{Walked, walk_tree};
use std::alloc::Global;
use zr_bptr::{Bptr, ObjRec, Tree};
use zr_objset::read_records;
use zr_store::{Blocks, StoreErr};
use zr_txg::Group;

/// The leaves of a tree, each behind its index, by rising index. It reads each tree block once, and no leaf.
pub fn leaves_in<B: Blocks>(
    alloc: Global,
    store: &mut B,
    t: &Tree,
) -> Result<Vec<(u64, Bptr)>, StoreErr>
    requires { IsTree t.now }
    ensures follows { (start : B) → B.follows start store.old → B.follows start store.new }
    ensures costs { Costs 0 0 (B.account store.old) (B.account store.new) }
    ensures cause { HasCause 0 (B.account store.old) (B.account store.new) result }
    ensures same { (s : Stored) → B.holds store.old s → B.holds store.new s }
    ensures errors { (s : Stored) → B.holds store.old s → TellsOf s (tree_blocks s t.now) result }
    ensures rising { IfOk result (λ leaves. IsRising leaves.items) }
    ensures leaves { (s : Stored) → B.holds store.old s → IfOk result (λ leaves. HasLeaves (tree_at s t.now) leaves.items) }
{
    let walked = walk_tree(alloc, store, t)?;
    let Walked { leaves, blocks: _ } = walked;
    Ok(leaves)
}

/// The sixteen records of the leaf of a directory at an index, by the directory's leaves; no record at all where it has no
/// such leaf. It reads that leaf alone. Logarithmic in the leaves.
pub fn records_at<B: Blocks>(
    alloc: Global,
    store: &mut B,
    leaves: &[(u64, Bptr)],
    index: u64,
) -> Result<Vec<Option<ObjRec>>, StoreErr>
    requires { IsRising leaves.now }
    ensures follows { (start : B) → B.follows start store.old → B.follows start store.new }
    ensures costs { Costs 0 0 (B.account store.old) (B.account store.new) }
    ensures cause { HasCause 0 (B.account store.old) (B.account store.new) result }
    ensures same { (s : Stored) → B.holds store.old s → B.holds store.new s }
    ensures errors { (s : Stored) (dir : Tree) → B.holds store.old s → HasLeaves (tree_at s dir) leaves.now → TellsOfLeaves s (own (tree_at s dir index)) (own (tree_at s dir index)) (IsNoLeaf s) result }
    ensures lawful { IfOk result (λ records. AllByRecursion (λ r. IfSome r IsObject) records.items) }
    ensures records { (s : Stored) (dir : Tree) → B.holds store.old s → HasLeaves (tree_at s dir) leaves.now → IfOk result (λ records. (place : ℕ) → slice_index_or records.items place None ≡ record_in s (tree_at s dir index) place) }
{
    match place_of(leaves, index) {
        Ok(place) => read_records(alloc, store, &leaves[place].1),
        Err(_) => Ok(Vec::new(alloc)),
    }
}

/// The record of an object as `record_of` gives it, by the records of its leaf of the directory. It reads nothing.
pub fn record_by(records: &[Option<ObjRec>], group: &Group, id: u32) -> Option<ObjRec>
    requires records { AllByRecursion (λ r. IfSome r IsObject) records.now }
    requires group { IsLawfulGroup group.now }
    requires few { id < 65536 }
    ensures lawful { IfSome result IsObject }
    ensures record { (s : Stored) (dir : Tree) → ((place : ℕ) → slice_index_or records.now place None ≡ record_in s (tree_at s dir (id / 16)) place) → result ≡ record_now s dir group.now id }
{
    if let Some(object) = group.object(id) {
        return object;
    }
    let place = (id % 16) as usize;
    if place < records.len() {
        records[place]
    } else {
        None
    }
}
