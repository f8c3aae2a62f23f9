//! The walk over all that a directory leads to: its own tree, then the objects by rising ID.
ghost use Rattle.std.specs.Prelude.{◌≡◌, ◌≤◌, ◌++◌, ◌∷◌, [], All, OnOk, IfOk, IfSome};
ghost use Rattle.zr_store.specs.Causes.{Costs, HasCause};
ghost use Rattle.zr_store.specs.Store.{Stored};
ghost use Rattle.zr_bptr.specs.Spelling.{IsTree, IsObject};
ghost use Rattle.zr_tree.specs.Trees.{tree_reach, IsSoundAt, TellsOf};
ghost use Rattle.zr_objset.specs.Records.{object_reach, leaf_reach, all_reach};
ghost use Rattle.zr_objset.specs.Errors.{IsBadLeaf, IsFormed, IsSoundObject, HasSoundObjects, TellsOfLeaves};

use crate::reads::read_records;
use std::alloc::Global;
use zr_bptr::{Bptr, ObjRec, Tree};
use zr_store::{Blocks, StoreErr};

fn walk_object<B: Blocks>(
    alloc: Global,
    store: &mut B,
    object: &Option<ObjRec>,
    out: &mut Vec<Bptr>,
) -> Result<(), StoreErr>
    requires { IfSome object.now IsObject }
    ensures follows { (start : B) → B.follows start store.old → B.follows start store.new }
    ensures costs { Costs 0 0 (B.account store.old) (B.account store.new) }
    ensures cause { HasCause 0 (B.account store.old) (B.account store.new) result }
    ensures same { (s : Stored) → B.holds store.old s → B.holds store.new s }
    ensures errors { (s : Stored) → B.holds store.old s → TellsOf s (object_reach s object.now) result }
    ensures sound { (s : Stored) → B.holds store.old s → OnOk result (IsSoundObject s object.now) }
    ensures reach { (s : Stored) → B.holds store.old s → OnOk result (out.new.items ≡ out.old.items ++ object_reach s object.now) }
{
    let Some(r) = object else {
        return Ok(());
    };
    let reach = zr_tree::walk(alloc, store, &r.tree)?;
    out.extend_from_slice(reach.as_slice())?;
    Ok(())
}

// The objects of a leaf of the directory; nothing for a tree block.
fn walk_leaf<B: Blocks>(
    alloc: Global,
    store: &mut B,
    b: &Bptr,
    out: &mut Vec<Bptr>,
) -> Result<(), StoreErr>
    ensures follows { (start : B) → B.follows start store.old → B.follows start store.new }
    ensures costs { Costs 0 0 (B.account store.old) (B.account store.new) }
    ensures cause { HasCause 0 (B.account store.old) (B.account store.new) result }
    ensures same { (s : Stored) → B.holds store.old s → B.holds store.new s }
    ensures errors { (s : Stored) → B.holds store.old s → TellsOfLeaves s (b.now ∷ leaf_reach s b.now) (b.now ∷ []) (IsBadLeaf s) result }
    ensures formed { (s : Stored) → B.holds store.old s → OnOk result (IsFormed s b.now) }
    ensures objects { (s : Stored) → B.holds store.old s → OnOk result (HasSoundObjects s b.now) }
    ensures reach { (s : Stored) → B.holds store.old s → OnOk result (out.new.items ≡ out.old.items ++ leaf_reach s b.now) }
{
    if b.level != 0 {
        return Ok(());
    }
    let records = read_records(alloc, store, b)?;
    for object in records.iter() {
        walk_object(alloc, store, object, out)?;
    }
    Ok(())
}

/// The tree blocks and leaves of the directory, and then those of its objects by rising ID, each block before what lies
/// below it. It reads each tree block and each leaf of the directory once.
pub fn walk<B: Blocks>(alloc: Global, store: &mut B, dir: &Tree) -> Result<Vec<Bptr>, StoreErr>
    requires dir { IsTree dir.now }
    requires low { dir.now.height ≤ 3 }
    ensures follows { (start : B) → B.follows start store.old → B.follows start store.new }
    ensures costs { Costs 0 0 (B.account store.old) (B.account store.new) }
    ensures cause { HasCause 0 (B.account store.old) (B.account store.new) result }
    ensures same { (s : Stored) → B.holds store.old s → B.holds store.new s }
    ensures errors { (s : Stored) → B.holds store.old s → TellsOfLeaves s (all_reach s dir.now) (tree_reach s dir.now) (IsBadLeaf s) result }
    ensures sound { (s : Stored) → B.holds store.old s → OnOk result (IsSoundAt s dir.now.height dir.now.root) }
    ensures formed { (s : Stored) → B.holds store.old s → OnOk result (All (IsFormed s) (tree_reach s dir.now)) }
    ensures objects { (s : Stored) → B.holds store.old s → OnOk result (All (HasSoundObjects s) (tree_reach s dir.now)) }
    ensures reach { (s : Stored) → B.holds store.old s → IfOk result (λ pointers. pointers.items ≡ all_reach s dir.now) }
{
    let own = zr_tree::walk(alloc, store, dir)?;
    let mut out = Vec::from_slice(alloc, own.as_slice())?;
    for b in own.iter() {
        walk_leaf(alloc, store, b, &mut out)?;
    }
    Ok(out)
}
