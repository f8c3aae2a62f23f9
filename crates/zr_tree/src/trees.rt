//! Whole trees: a change may make a tree taller, and trees beside it stay.
//!
//! What a change puts and what it takes away are two steps: all new tree blocks are put, row by row from the leaves up,
//! before the first of the old ones is given back. So no block is put and given back by one change, and each old block can
//! be read until the end.
ghost use Rattle.std.specs.Prelude.{◌≡◌, ◌+◌, ◌*◌, ◌-◌, ◌/◌, ◌%◌, ◌^◌, ◌<◌, ◌≤◌, ◌↔◌, List, ℕ, length, All, IfOk, OnOk, IsTrue};
ghost use Rattle.zr_tree.specs.Blocks.{FitsAt};
ghost use Rattle.zr_bptr.specs.declared.Bptr.{Bptr};
ghost use Rattle.zr_bptr.specs.declared.Tree.{Tree};
ghost use Rattle.zr_store.specs.Store.{Stored, Now, AreStored, hits};
ghost use Rattle.zr_store.specs.Causes.{Costs, HasCause};
ghost use Rattle.zr_bptr.specs.Spelling.{IsTree};
ghost use Rattle.zr_tree.specs.Trees.{blocks_over, tree_blocks, AllAt, AreBelow, AreLeaves, AreUnits, IsOneUnit, Rises, HasRoom, Raises, SetsTree, IsHeightFor, KeepsTree, IsTreeWay, most_puts, most_frees, TellsOf};

use crate::reads::place_of;
use crate::rows::{free_all, put_rows};
use crate::sets::{is_hole, run_len};
use std::alloc::Global;
use zr_bptr::{Ptr, Tree};
use zr_store::{Blocks, StoreErr};

fn has_room(level: u32, changes: &[(u64, Ptr)]) -> bool
    requires { level ≤ 5 }
    ensures { IsTrue result ↔ HasRoom level changes.now }
{
    changes.iter().all(|change| is_hole(&change.1) || place_of(change.0, level) == 0)
}

fn height_for(from: u32, changes: &[(u64, Ptr)]) -> u32
    requires from { from ≤ 5 }
    requires below { All (λ change. change.0 < 2 ^ 25) changes.now }
    ensures tall { result ≤ 5 }
    ensures height { IsHeightFor from changes.now result }
{
    let mut height = from;
    while height < 5 && !has_room(height, changes) {
        height += 1;
    }
    height
}

// The pointer for a changed tree, at a level at or above its height.
fn raise<B: Blocks>(
    alloc: Global,
    store: &mut B,
    t: &Tree,
    level: u32,
    changes: &[(u64, Ptr)],
) -> Result<Ptr, StoreErr>
    requires tree { IsTree t.now }
    requires high { t.now.height ≤ level }
    requires tall { level ≤ 5 }
    requires here { AllAt level 0 changes.now }
    requires leaves { AreLeaves changes.now }
    requires rises { Rises changes.now }
    ensures follows { (start : B) → B.follows start store.old → B.follows start store.new }
    ensures costs { Costs (most_puts t.now.height level (length changes.now)) (most_frees t.now.height level (length changes.now)) (B.account store.old) (B.account store.new) }
    ensures cause { HasCause (most_puts t.now.height level (length changes.now)) (B.account store.old) (B.account store.new) result }
    ensures whole { (n : ℕ) → 0 < n → AreBelow n changes.now → Costs (blocks_over level n) (most_frees t.now.height level (length changes.now)) (B.account store.old) (B.account store.new) }
    ensures whole_cause { (n : ℕ) → 0 < n → AreBelow n changes.now → HasCause (blocks_over level n) (B.account store.old) (B.account store.new) result }
    ensures errors { (s : Stored) → B.holds store.old s → AreStored (tree_blocks s t.now) s → TellsOf s (tree_blocks s t.now) result }
    ensures fits { IfOk result (FitsAt level) }
    ensures unit { AreUnits changes.now → 0 < length changes.now → IfOk result IsOneUnit }
    ensures raises { (s : Stored) → B.holds store.old s → AreStored (tree_blocks s t.now) s → IfOk result (λ p. Now (B.holds store.new) (λ n. Raises level changes.now s n t.now p)) }
{
    let mut old = Vec::new(alloc);
    let root = put_rows(alloc, store, 0, t, level, changes, &mut old)?;
    free_all(alloc, store, old.as_slice())?;
    Ok(root)
}

/// Changes leaf pointers. New tree blocks are put level by level, the lowest first and each by rising index, and then the
/// old ones are given back in that order. At most five tree blocks a change are put and given back, and four more are put
/// where the tree grows, also where the answer is an error. No more are put than a tree has of that height and with all
/// leaves up to the last change. Only a leaf makes a tree taller: a hole past its end changes nothing.
pub fn set_all<B: Blocks>(
    alloc: Global,
    store: &mut B,
    t: &Tree,
    changes: &[(u64, Ptr)],
) -> Result<Tree, StoreErr>
    requires tree { IsTree t.now }
    requires below { All (λ change. change.0 < 2 ^ 25) changes.now }
    requires leaves { AreLeaves changes.now }
    requires rises { Rises changes.now }
    ensures follows { (start : B) → B.follows start store.old → B.follows start store.new }
    ensures costs { (height : ℕ) → IsHeightFor t.now.height changes.now height → Costs (most_puts t.now.height height (length changes.now)) (most_frees t.now.height height (length changes.now)) (B.account store.old) (B.account store.new) }
    ensures cause { (height : ℕ) → IsHeightFor t.now.height changes.now height → HasCause (most_puts t.now.height height (length changes.now)) (B.account store.old) (B.account store.new) result }
    ensures whole { (n height : ℕ) → IsHeightFor t.now.height changes.now height → 0 < n → AreBelow n changes.now → Costs (blocks_over height n) (most_frees t.now.height height (length changes.now)) (B.account store.old) (B.account store.new) }
    ensures whole_cause { (n height : ℕ) → IsHeightFor t.now.height changes.now height → 0 < n → AreBelow n changes.now → HasCause (blocks_over height n) (B.account store.old) (B.account store.new) result }
    ensures within { (top : ℕ) → t.now.height ≤ top → HasRoom top changes.now → Costs (top * length changes.now + (top - 1)) (top * length changes.now) (B.account store.old) (B.account store.new) }
    ensures within_cause { (top : ℕ) → t.now.height ≤ top → HasRoom top changes.now → HasCause (top * length changes.now + (top - 1)) (B.account store.old) (B.account store.new) result }
    ensures most { Costs (5 * length changes.now + 4) (5 * length changes.now) (B.account store.old) (B.account store.new) }
    ensures most_cause { HasCause (5 * length changes.now + 4) (B.account store.old) (B.account store.new) result }
    ensures errors { (s : Stored) → B.holds store.old s → AreStored (tree_blocks s t.now) s → TellsOf s (tree_blocks s t.now) result }
    ensures tree { IfOk result IsTree }
    ensures unit { AreUnits changes.now → 0 < length changes.now → IfOk result (λ u. IsOneUnit u.root) }
    ensures height { IfOk result (λ u. IsHeightFor t.now.height changes.now u.height) }
    ensures way { (s : Stored) → B.holds store.old s → AreStored (tree_blocks s t.now) s → IfOk result (λ u. All (λ change. IsTreeWay s t.now change.0) changes.now) }
    ensures sets { (s : Stored) → B.holds store.old s → AreStored (tree_blocks s t.now) s → IfOk result (λ u. Now (B.holds store.new) (λ n. SetsTree changes.now s n t.now u)) }
{
    let height = height_for(t.height, changes);
    let n = run_len(changes, height, 0);
    let root = raise(alloc, store, t, height, &changes[..n])?;
    Ok(Tree { root, height })
}

/// Stores that agree on the blocks of a tree give it one meaning.
pub fn frame()
    ensures { (old new : Stored) (t : Tree) → ((b : Bptr) → 0 < hits (tree_blocks old t) b.at → new.bytes b ≡ old.bytes b) → KeepsTree old new t }
{}
