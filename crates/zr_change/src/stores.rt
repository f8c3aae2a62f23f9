//! Putting what is planned, and giving back.
//!
//! The blocks are put one after another by rising index. Where one cannot be put, all that were put are given back.
ghost use Rattle.std.specs.Prelude.{◌≡◌, ◌⊎◌, ℕ, ◌+◌, ◌*◌, ◌<◌, ◌≤◌, IsTrue, List, [], length, IfOk, IfErr, OnOk, IsErrOf, vec_capacity};
ghost use Rattle.zr_base.specs.Blocks.{is_block_size};
ghost use Rattle.zr_base.specs.Counts.{HasRisen};
ghost use Rattle.zr_store.specs.declared.StoreErr.TheVariants.{NoMemory, NoRun, Failed};
ghost use Rattle.zr_store.specs.Causes.{Costs, Spends};
ghost use Rattle.zr_store.specs.Store.{Stored, Now, AreStored, Swaps};
ghost use Rattle.zr_tree.specs.Blocks.{FitsAt};
ghost use Rattle.zr_tree.specs.Trees.{own, AreLeaves};
ghost use Rattle.zr_change.specs.Plans.{IsNew, AreNew, IsPointerFor, PutsBlock, PutsPlan, AreChangesFor, IsLacking, IsPutErr, puts_of, olds_of, leaves_of, put_of};

use crate::plans::Planned;
use std::alloc::Global;
use zr_bptr::Ptr;
use zr_store::{Blocks, StoreErr};

/// A leaf of these bytes, or a hole.
fn put_new<B: Blocks>(
    alloc: Global,
    store: &mut B,
    units: u32,
    new: &Option<Vec<u8>>,
) -> Result<Ptr, StoreErr>
    requires units { IsTrue (is_block_size units) }
    requires new { IsNew units new.now }
    ensures follows { (start : B) → B.follows start store.old → B.follows start store.new }
    ensures costs { Spends (units * put_of new.now) (put_of new.now) 0 (B.account store.old) (B.account store.new) }
    ensures failed { IsErrOf result Failed → HasRisen (B.account store.old).faults (B.account store.new).faults }
    ensures no_run { (needed longest : ℕ) → IsErrOf result (NoRun needed longest) → IsLacking units (put_of new.now) (B.account store.old) needed longest }
    ensures errors { IfErr result IsPutErr }
    ensures fits { IfOk result (FitsAt 0) }
    ensures pointer { IfOk result (IsPointerFor new.now) }
    ensures count { IfOk result (λ p. length (own p) ≡ put_of new.now) }
    ensures ok { (s : Stored) → B.holds store.old s → IfOk result (λ p. Now (B.holds store.new) (λ n. PutsBlock units new.now s n p)) }
    ensures err { (s : Stored) → B.holds store.old s → IfErr result (λ e. (e ≡ NoMemory) ⊎ B.holds store.new s) }
{
    match new {
        None => Ok(Ptr::Hole),
        Some(bytes) => {
            let b = store.put(alloc, bytes.as_slice(), 0)?;
            Ok(Ptr::At(b))
        }
    }
}

/// Puts each planned block, and appends its change. There is room for the changes, so that no block is put and then not
/// told. After an error the changes of all that were put are there, and their blocks are held unless memory ran out.
fn put_each<B: Blocks>(
    alloc: Global,
    store: &mut B,
    units: u32,
    plan: &[Planned],
    changes: &mut Vec<(u64, Ptr)>,
) -> Result<(), StoreErr>
    requires units { IsTrue (is_block_size units) }
    requires new { AreNew units plan.now }
    requires empty { changes.old.items ≡ [] }
    requires room { length plan.now ≤ vec_capacity changes.old }
    ensures follows { (start : B) → B.follows start store.old → B.follows start store.new }
    ensures costs { Spends (units * puts_of plan.now) (puts_of plan.now) 0 (B.account store.old) (B.account store.new) }
    ensures failed { IsErrOf result Failed → HasRisen (B.account store.old).faults (B.account store.new).faults }
    ensures no_run { (needed longest : ℕ) → IsErrOf result (NoRun needed longest) → IsLacking units (puts_of plan.now) (B.account store.old) needed longest }
    ensures errors { IfErr result IsPutErr }
    ensures count { length (leaves_of changes.new.items) ≤ puts_of plan.now }
    ensures leaves { AreLeaves changes.new.items }
    ensures changes { OnOk result (AreChangesFor plan.now changes.new.items) }
    ensures ok { (s : Stored) → B.holds store.old s → OnOk result (Now (B.holds store.new) (λ n. PutsPlan units plan.now changes.new.items s n)) }
    ensures err { (s : Stored) → B.holds store.old s → IfErr result (λ e. (e ≡ NoMemory) ⊎ Now (B.holds store.new) (λ n. Swaps s n [] (leaves_of changes.new.items))) }
{
    for p in plan {
        let new = put_new(alloc, store, units, &p.new)?;
        let Ok(()) = changes.push((p.index, new)) else {
            unreachable!()
        };
    }
    Ok(())
}

/// Gives back a block.
fn free_one<B: Blocks>(alloc: Global, store: &mut B, p: &Ptr) -> Result<(), StoreErr>
    ensures follows { (start : B) → B.follows start store.old → B.follows start store.new }
    ensures costs { Costs 0 (length (own p.now)) (B.account store.old) (B.account store.new) }
    ensures memory { IfErr result (λ e. e ≡ NoMemory) }
    ensures swaps { (s : Stored) → B.holds store.old s → AreStored (own p.now) s → OnOk result (Now (B.holds store.new) (λ n. Swaps s n (own p.now) [])) }
{
    match p {
        Ptr::Hole => Ok(()),
        Ptr::At(b) => store.free(alloc, b),
    }
}

/// Gives back the blocks of changes.
fn free_changes<B: Blocks>(
    alloc: Global,
    store: &mut B,
    changes: &[(u64, Ptr)],
) -> Result<(), StoreErr>
    ensures follows { (start : B) → B.follows start store.old → B.follows start store.new }
    ensures costs { Costs 0 (length (leaves_of changes.now)) (B.account store.old) (B.account store.new) }
    ensures memory { IfErr result (λ e. e ≡ NoMemory) }
    ensures swaps { (s : Stored) → B.holds store.old s → AreStored (leaves_of changes.now) s → OnOk result (Now (B.holds store.new) (λ n. Swaps s n (leaves_of changes.now) [])) }
{
    for change in changes {
        free_one(alloc, store, &change.1)?;
    }
    Ok(())
}

/// Puts the planned blocks by rising index, each as a leaf, and answers the index and the new pointer of each, a hole where
/// it is to have zeros alone. Where one cannot be put, all that were put are given back, and what is held is as before,
/// unless memory ran out. At most as many blocks are put, and then given back, as the plan has bytes for.
pub fn put_all<B: Blocks>(
    alloc: Global,
    store: &mut B,
    units: u32,
    plan: &[Planned],
) -> Result<Vec<(u64, Ptr)>, StoreErr>
    requires units { IsTrue (is_block_size units) }
    requires new { AreNew units plan.now }
    ensures follows { (start : B) → B.follows start store.old → B.follows start store.new }
    ensures costs { IfOk result (λ changes. Spends (units * puts_of plan.now) (puts_of plan.now) 0 (B.account store.old) (B.account store.new)) }
    ensures undoing { IfErr result (λ e. Spends (units * puts_of plan.now) (puts_of plan.now) (puts_of plan.now) (B.account store.old) (B.account store.new)) }
    ensures failed { IsErrOf result Failed → HasRisen (B.account store.old).faults (B.account store.new).faults }
    ensures no_run { (needed longest : ℕ) → IsErrOf result (NoRun needed longest) → IsLacking units (puts_of plan.now) (B.account store.old) needed longest }
    ensures errors { IfErr result IsPutErr }
    ensures leaves { IfOk result (λ changes. AreLeaves changes.items) }
    ensures changes { IfOk result (λ changes. AreChangesFor plan.now changes.items) }
    ensures ok { (s : Stored) → B.holds store.old s → IfOk result (λ changes. Now (B.holds store.new) (λ n. PutsPlan units plan.now changes.items s n)) }
    ensures err { (s : Stored) → B.holds store.old s → IfErr result (λ e. (e ≡ NoMemory) ⊎ Now (B.holds store.new) (λ n. Swaps s n [] [])) }
{
    let mut changes = Vec::with_capacity(alloc, plan.len())?;
    match put_each(alloc, store, units, plan, &mut changes) {
        Ok(()) => Ok(changes),
        Err(e) => {
            free_changes(alloc, store, changes.as_slice())?;
            Err(e)
        }
    }
}

/// Gives back the old block of each planned one.
pub fn free_olds<B: Blocks>(alloc: Global, store: &mut B, plan: &[Planned]) -> Result<(), StoreErr>
    ensures follows { (start : B) → B.follows start store.old → B.follows start store.new }
    ensures costs { Costs 0 (length (olds_of plan.now)) (B.account store.old) (B.account store.new) }
    ensures memory { IfErr result (λ e. e ≡ NoMemory) }
    ensures swaps { (s : Stored) → B.holds store.old s → AreStored (olds_of plan.now) s → OnOk result (Now (B.holds store.new) (λ n. Swaps s n (olds_of plan.now) [])) }
{
    for p in plan {
        free_one(alloc, store, &p.old)?;
    }
    Ok(())
}
