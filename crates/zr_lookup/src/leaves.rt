//! The blocks of an object, and the tree blocks that lead to them.
//!
//! A walk over the tree gives its leaves by rising index. The changes of the group, which rise too, then take their places
//! among them.
ghost use Rattle.std.specs.Prelude.{◌≡◌, ◌+◌, ◌^◌, ◌≤◌, ◌++◌, ℕ, All, length, map, IfOk};
ghost use Rattle.zr_store.specs.Causes.{Costs, HasCause};
ghost use Rattle.zr_store.specs.Store.{Stored};
ghost use Rattle.zr_bptr.specs.Spelling.{IsObject, IsPointer};
ghost use Rattle.zr_bptr.specs.declared.Ptr.TheVariants.{At};
ghost use Rattle.zr_tree.specs.Blocks.{FitsAt};
ghost use Rattle.zr_tree.specs.Trees.{tree_blocks, TellsOf};
ghost use Rattle.zr_lookup.specs.Groups.{IsLawfulGroup};
ghost use Rattle.zr_lookup.specs.Objects.{pointer_now, HasLeaves, AreObjectBlocks};

use crate::overlays::overlay;
use crate::walks::{Walked, walk_tree};
use std::alloc::{AllocError, Global};
use zr_bptr::{Bptr, ObjRec};
use zr_store::{Blocks, StoreErr};
use zr_txg::Group;

// The leaves of an object as the group has them, and the tree blocks of its record.
fn walk_object<B: Blocks>(
    alloc: Global,
    store: &mut B,
    group: &Group,
    id: u32,
    rec: &ObjRec,
) -> Result<Walked, StoreErr>
    requires group { IsLawfulGroup group.now }
    requires rec { IsObject rec.now }
    ensures follows { (start : B) → B.follows start store.old → B.follows start store.new }
    ensures costs { Costs 0 0 (B.account store.old) (B.account store.new) }
    ensures cause { HasCause 0 (B.account store.old) (B.account store.new) result }
    ensures same { (s : Stored) → B.holds store.old s → B.holds store.new s }
    ensures errors { (s : Stored) → B.holds store.old s → TellsOf s (tree_blocks s rec.now.tree) result }
    ensures leaves_fit { IfOk result (λ w. All (λ leaf. FitsAt 0 (At leaf.1)) w.leaves.items) }
    ensures blocks_fit { IfOk result (λ w. All IsPointer w.blocks.items) }
    ensures few_leaves { IfOk result (λ w. length w.leaves.items ≤ 2 ^ 25) }
    ensures few_blocks { IfOk result (λ w. length w.blocks.items ≤ 2 ^ 21) }
    ensures leaves { (s : Stored) → B.holds store.old s → IfOk result (λ w. HasLeaves (pointer_now s group.now id rec.now) w.leaves.items) }
    ensures tree_blocks { (s : Stored) → B.holds store.old s → IfOk result (λ w. w.blocks.items ≡ tree_blocks s rec.now.tree) }
{
    let walked = walk_tree(alloc, store, &rec.tree)?;
    let leaves = overlay(alloc, walked.leaves.as_slice(), group.changes(id))?;
    let Walked { leaves: _, blocks } = walked;
    Ok(Walked { leaves, blocks })
}

/// The blocks of an object, each behind its index, by rising index: as the group has them. It reads each tree block once,
/// and no leaf; the work is logarithmic in the leaves for each change of the group, and constant for each leaf.
pub fn leaves_of<B: Blocks>(
    alloc: Global,
    store: &mut B,
    group: &Group,
    id: u32,
    rec: &ObjRec,
) -> Result<Vec<(u64, Bptr)>, StoreErr>
    requires group { IsLawfulGroup group.now }
    requires rec { IsObject rec.now }
    ensures follows { (start : B) → B.follows start store.old → B.follows start store.new }
    ensures costs { Costs 0 0 (B.account store.old) (B.account store.new) }
    ensures cause { HasCause 0 (B.account store.old) (B.account store.new) result }
    ensures same { (s : Stored) → B.holds store.old s → B.holds store.new s }
    ensures errors { (s : Stored) → B.holds store.old s → TellsOf s (tree_blocks s rec.now.tree) result }
    ensures fits { IfOk result (λ leaves. All (λ leaf. FitsAt 0 (At leaf.1)) leaves.items) }
    ensures leaves { (s : Stored) → B.holds store.old s → IfOk result (λ leaves. HasLeaves (pointer_now s group.now id rec.now) leaves.items) }
{
    let Walked { leaves, blocks: _ } = walk_object(alloc, store, group, id, rec)?;
    Ok(leaves)
}

// The pointers without their indices.
fn pointers_of(alloc: Global, leaves: &[(u64, Bptr)]) -> Result<Vec<Bptr>, AllocError>
    ensures { IfOk result (λ v. v.items ≡ map (λ leaf. leaf.1) leaves.now) }
{
    leaves.iter().map(|leaf| leaf.1).collect(alloc)
}

/// What a drop gives back: the blocks of an object as the group has them, by rising index, and then the tree blocks of its
/// record. It reads each tree block once, and no leaf.
pub fn blocks_of<B: Blocks>(
    alloc: Global,
    store: &mut B,
    group: &Group,
    id: u32,
    rec: &ObjRec,
) -> Result<Vec<Bptr>, StoreErr>
    requires group { IsLawfulGroup group.now }
    requires rec { IsObject rec.now }
    ensures follows { (start : B) → B.follows start store.old → B.follows start store.new }
    ensures costs { Costs 0 0 (B.account store.old) (B.account store.new) }
    ensures cause { HasCause 0 (B.account store.old) (B.account store.new) result }
    ensures same { (s : Stored) → B.holds store.old s → B.holds store.new s }
    ensures errors { (s : Stored) → B.holds store.old s → TellsOf s (tree_blocks s rec.now.tree) result }
    ensures lawful { IfOk result (λ blocks. All IsPointer blocks.items) }
    ensures few { IfOk result (λ blocks. length blocks.items ≤ 2 ^ 25 + 2 ^ 21) }
    ensures blocks { (s : Stored) → B.holds store.old s → IfOk result (λ blocks. AreObjectBlocks s group.now id rec.now blocks.items) }
{
    let walked = walk_object(alloc, store, group, id, rec)?;
    let mut blocks = pointers_of(alloc, walked.leaves.as_slice())?;
    blocks.extend_from_slice(walked.blocks.as_slice())?;
    Ok(blocks)
}
