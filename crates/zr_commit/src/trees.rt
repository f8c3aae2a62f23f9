//! Giving back all blocks of a tree.
//!
//! The tree is read first, and its blocks are given back when all of it is known.
ghost use Rattle.std.specs.Prelude.{◌≡◌, List, [], ℕ, length, IfErr, OnOk};
ghost use Rattle.zr_bptr.specs.Spelling.{IsTree};
ghost use Rattle.zr_store.specs.declared.StoreErr.TheVariants.{NoMemory};
ghost use Rattle.zr_store.specs.Causes.{Costs, HasCause};
ghost use Rattle.zr_store.specs.Store.{Stored, Now, AreStored, Swaps};
ghost use Rattle.zr_tree.specs.Trees.{tree_reach, tree_blocks, TellsOf};

use std::alloc::Global;
use zr_bptr::{Bptr, Tree};
use zr_store::{Blocks, StoreErr};
use zr_tree::walk;

// Gives back blocks, one after another.
fn free_all<B: Blocks>(alloc: Global, store: &mut B, bs: &[Bptr]) -> Result<(), StoreErr>
    ensures follows { (start : B) → B.follows start store.old → B.follows start store.new }
    ensures costs { Costs 0 (length bs.now) (B.account store.old) (B.account store.new) }
    ensures memory { IfErr result (λ e. e ≡ NoMemory) }
    ensures swaps { (s : Stored) → B.holds store.old s → AreStored bs.now s → OnOk result (Now (B.holds store.new) (λ n. Swaps s n bs.now [])) }
{
    for b in bs {
        store.free(alloc, b)?;
    }
    Ok(())
}

/// Gives back the tree blocks and the leaves of a tree. Each tree block is read, and no leaf. After an error some of the
/// blocks may have been given back.
pub fn free_tree<B: Blocks>(alloc: Global, store: &mut B, t: &Tree) -> Result<(), StoreErr>
    requires { IsTree t.now }
    ensures follows { (start : B) → B.follows start store.old → B.follows start store.new }
    ensures puts { (frees : ℕ) × Costs 0 frees (B.account store.old) (B.account store.new) }
    ensures costs { (s : Stored) → B.holds store.old s → Costs 0 (length (tree_reach s t.now)) (B.account store.old) (B.account store.new) }
    ensures cause { HasCause 0 (B.account store.old) (B.account store.new) result }
    ensures errors { (s : Stored) → B.holds store.old s → TellsOf s (tree_blocks s t.now) result }
    ensures swaps { (s : Stored) → B.holds store.old s → AreStored (tree_reach s t.now) s → OnOk result (Now (B.holds store.new) (λ n. Swaps s n (tree_reach s t.now) [])) }
{
    let bs = walk(alloc, store, t)?;
    free_all(alloc, store, bs.as_slice())
}
