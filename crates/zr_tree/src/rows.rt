//! Row by row: how a change rises from the leaves to the root.
//!
//! What was put in one row are the changes of the row above. So the rows are put one after another, from the lowest to the
//! root, and each from its first block to its last. What was there before is given back when all is put: until then the
//! store only grows, and each block of the tree as it was can still be read. Where the tree is to grow past its top, what
//! was its root is one more change, at the first place of a row of holes.
ghost use Rattle.std.specs.Prelude.{◌≡◌, ◌≢◌, ◌+◌, ◌*◌, ◌-◌, ◌/◌, ◌^◌, ◌<◌, ◌≤◌, ◌∷◌, List, [], ℕ, suc, length, All, IfOk, OnOk, slice_index_or};
ghost use Rattle.zr_bptr.specs.declared.Bptr.{Bptr};
ghost use Rattle.zr_bptr.specs.declared.Ptr.{Ptr};
ghost use Rattle.zr_bptr.specs.declared.Ptr.TheVariants.{Hole};
ghost use Rattle.zr_tree.specs.Blocks.{FitsAt};
ghost use Rattle.zr_store.specs.Store.{Stored, Now, AreStored, Swaps};
ghost use Rattle.zr_store.specs.Causes.{Costs, HasCause};
ghost use Rattle.zr_tree.specs.Trees.{blocks_over, tree_blocks, AllAt, AreBelow, AreOfLevel, EndsInUnit, IsOneUnit, Rises, HasRoot, PutsTree, TellsOf, row_puts};

use crate::sets::put_row;
use std::alloc::{AllocError, Global};
use zr_bptr::{Bptr, Ptr, Tree};
use zr_store::{Blocks, StoreErr};

// The changes, and in front of them the root at the first place, where they do not set it.
fn with_root(
    alloc: Global,
    root: &Ptr,
    changes: &[(u64, Ptr)],
) -> Result<Vec<(u64, Ptr)>, AllocError>
    ensures { IfOk result (λ all. HasRoot root.now changes.now all.items) }
{
    let mut all = Vec::new(alloc);
    if changes.is_empty() || changes[0].0 != 0 {
        all.push((0, *root))?;
    }
    all.extend_from_slice(changes)?;
    Ok(all)
}

// The pointer for a changed tree at a height. The tree's leaves, which the changes set, are of the level `base`.
pub(crate) fn put_rows<B: Blocks>(
    alloc: Global,
    store: &mut B,
    base: u32,
    t: &Tree,
    height: u32,
    changes: &[(u64, Ptr)],
    old: &mut Vec<Bptr>,
) -> Result<Ptr, StoreErr>
    requires tall { base + height ≤ 5 }
    requires high { t.now.height ≤ height }
    requires fits { FitsAt (base + t.now.height) t.now.root }
    requires leaves { AreOfLevel base changes.now }
    requires here { AllAt height 0 changes.now }
    requires rises { Rises changes.now }
    ensures follows { (start : B) → B.follows start store.old → B.follows start store.new }
    ensures costs { Costs (row_puts t.now.height height (length changes.now)) 0 (B.account store.old) (B.account store.new) }
    ensures cause { HasCause (row_puts t.now.height height (length changes.now)) (B.account store.old) (B.account store.new) result }
    ensures whole { (n : ℕ) → 0 < n → AreBelow n changes.now → Costs (blocks_over height n) 0 (B.account store.old) (B.account store.new) }
    ensures whole_cause { (n : ℕ) → 0 < n → AreBelow n changes.now → HasCause (blocks_over height n) (B.account store.old) (B.account store.new) result }
    ensures errors { (s : Stored) → B.holds store.old s → AreStored (tree_blocks s t.now) s → TellsOf s (tree_blocks s t.now) result }
    ensures fits { IfOk result (FitsAt (base + height)) }
    ensures unit { EndsInUnit changes.now → 0 < length changes.now → IfOk result IsOneUnit }
    ensures count { OnOk result (length old.new.items ≤ length old.old.items + t.now.height * length changes.now) }
    ensures none { t.now.root ≡ Hole → OnOk result (length old.new.items ≤ length old.old.items) }
    ensures puts { (s : Stored) → B.holds store.old s → AreStored (tree_blocks s t.now) s → IfOk result (λ p. Now (B.holds store.new) (λ n. PutsTree height changes.now s n t.now p old.old.items old.new.items)) }
{
    if height == 0 {
        return Ok(last_or(&t.root, changes));
    }
    if t.height == 0 {
        let all = with_root(alloc, &t.root, changes)?;
        let none = Tree {
            root: Ptr::Hole,
            height,
        };
        return put_rows(alloc, store, base, &none, height, all.as_slice(), old);
    }
    let above = Tree {
        root: t.root,
        height: t.height - 1,
    };
    let row = put_row(alloc, store, base, &above, changes, old)?;
    put_rows(
        alloc,
        store,
        base + 1,
        &above,
        height - 1,
        row.as_slice(),
        old,
    )
}

// Gives back blocks, but not those below them.
pub(crate) fn free_all<B: Blocks>(
    alloc: Global,
    store: &mut B,
    old: &[Bptr],
) -> Result<(), StoreErr>
    ensures follows { (start : B) → B.follows start store.old → B.follows start store.new }
    ensures costs { Costs 0 (length old.now) (B.account store.old) (B.account store.new) }
    ensures cause { HasCause 0 (B.account store.old) (B.account store.new) result }
    ensures errors { (s : Stored) → TellsOf s [] result }
    ensures swaps { (s : Stored) → B.holds store.old s → AreStored old.now s → OnOk result (Now (B.holds store.new) (λ n. Swaps s n old.now [])) }
{
    for b in old {
        store.free(alloc, b)?;
    }
    Ok(())
}

// What the last change sets, or the root where there is none.
fn last_or(root: &Ptr, changes: &[(u64, Ptr)]) -> Ptr
    ensures none { length changes.now ≡ 0 → result ≡ root.now }
    ensures last { (d : ℕ × Ptr) (n : ℕ) → length changes.now ≡ suc n → result ≡ (slice_index_or changes.now n d).1 }
{
    if changes.is_empty() {
        return *root;
    }
    changes[changes.len() - 1].1
}
