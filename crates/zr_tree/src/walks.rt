//! Walks over all blocks of a tree, each block before what lies below it.
//!
//! A marked walk asks before it goes below a block, so that a damaged tree that leads back to itself comes to an end.
ghost use Rattle.std.specs.Prelude.{◌≡◌, ◌+◌, ◌-◌, ◌<◌, ◌≤◌, ◌++◌, ◌∷◌, [], List, ℕ, All, OnOk, OnErr, IfOk, IsTrue, false, if◌then◌else◌};
ghost use Rattle.zr_bptr.specs.declared.Bptr.{Bptr};
ghost use Rattle.zr_tree.specs.Blocks.{FitsAt};
ghost use Rattle.zr_store.specs.Causes.{Costs, HasCause};
ghost use Rattle.zr_bptr.specs.Spelling.{IsTree};
ghost use Rattle.zr_store.specs.Store.{Stored};
ghost use Rattle.zr_tree.specs.Trees.{reach, tree_reach, blocks, tree_blocks, IsSoundAt, MarksFront, TellsOf};

use crate::reads::read_block;
use std::alloc::{AllocError, Global};
use zr_bptr::{Bptr, Ptr, Tree};
use zr_store::{Blocks, StoreErr};

fn walk_below<B: Blocks>(
    alloc: Global,
    store: &mut B,
    level: u32,
    p: &Ptr,
    out: &mut Vec<Bptr>,
) -> Result<(), StoreErr>
    requires { level ≤ 5 }
    ensures follows { (start : B) → B.follows start store.old → B.follows start store.new }
    ensures costs { Costs 0 0 (B.account store.old) (B.account store.new) }
    ensures cause { HasCause 0 (B.account store.old) (B.account store.new) result }
    ensures same { (s : Stored) → B.holds store.old s → B.holds store.new s }
    ensures errors { (s : Stored) → B.holds store.old s → FitsAt level p.now → TellsOf s (blocks s level p.now) result }
    ensures reach { (s : Stored) → B.holds store.old s → OnOk result (out.new.items ≡ out.old.items ++ reach s level p.now) }
    ensures sound { (s : Stored) → B.holds store.old s → FitsAt level p.now → OnOk result (IsSoundAt s level p.now) }
{
    match p {
        Ptr::Hole => Ok(()),
        Ptr::At(b) => {
            out.push(*b)?;
            if level == 0 {
                return Ok(());
            }
            let pointers = read_block(alloc, store, level - 1, b)?;
            for next in pointers.iter() {
                walk_below(alloc, store, level - 1, next, out)?;
            }
            Ok(())
        }
    }
}

/// The tree blocks and the leaves, each block before what lies below it.
pub fn walk<B: Blocks>(alloc: Global, store: &mut B, t: &Tree) -> Result<Vec<Bptr>, StoreErr>
    requires { IsTree t.now }
    ensures follows { (start : B) → B.follows start store.old → B.follows start store.new }
    ensures costs { Costs 0 0 (B.account store.old) (B.account store.new) }
    ensures cause { HasCause 0 (B.account store.old) (B.account store.new) result }
    ensures same { (s : Stored) → B.holds store.old s → B.holds store.new s }
    ensures errors { (s : Stored) → B.holds store.old s → TellsOf s (tree_blocks s t.now) result }
    ensures reach { (s : Stored) → B.holds store.old s → IfOk result (λ pointers. pointers.items ≡ tree_reach s t.now) }
    ensures sound { (s : Stored) → B.holds store.old s → OnOk result (IsSoundAt s t.now.height t.now.root) }
{
    let mut out = Vec::new(alloc);
    walk_below(alloc, store, t.height, &t.root, &mut out)?;
    Ok(out)
}

/// Is asked for each pointer of a walk before the walk goes below it.
pub trait Mark {
    /// The pointers for which the answer was true, in order.
    ghost marked: { Self → List Bptr };

    /// How often the answer was false.
    ghost refused: { Self → ℕ };

    fn mark(&mut self, p: &Bptr) -> Result<bool, AllocError>
        ensures ok { IfOk result (λ yes. marked self.new ≡ (if yes then marked self.old ++ p.now ∷ [] else marked self.old)) }
        ensures passed { IfOk result (λ yes. IsTrue yes → refused self.new ≡ refused self.old) }
        ensures refused { IfOk result (λ yes. yes ≡ false → refused self.new ≡ refused self.old + 1) }
        ensures err { OnErr result (marked self.new ≡ marked self.old) };
}

fn walk_marked_below<B: Blocks, M: Mark>(
    alloc: Global,
    store: &mut B,
    level: u32,
    p: &Ptr,
    m: &mut M,
) -> Result<bool, StoreErr>
    requires { level ≤ 5 }
    ensures follows { (start : B) → B.follows start store.old → B.follows start store.new }
    ensures costs { Costs 0 0 (B.account store.old) (B.account store.new) }
    ensures cause { HasCause 0 (B.account store.old) (B.account store.new) result }
    ensures same { (s : Stored) → B.holds store.old s → B.holds store.new s }
    ensures errors { (s : Stored) → B.holds store.old s → FitsAt level p.now → TellsOf s (blocks s level p.now) result }
    ensures front { (s : Stored) → B.holds store.old s → MarksFront (M.marked m.old) (M.marked m.new) (reach s level p.now) }
    ensures all { (s : Stored) → B.holds store.old s → IfOk result (λ yes. IsTrue yes → M.marked m.new ≡ M.marked m.old ++ reach s level p.now) }
    ensures passed { IfOk result (λ yes. IsTrue yes → M.refused m.new ≡ M.refused m.old) }
    ensures refused { IfOk result (λ yes. yes ≡ false → M.refused m.new ≡ M.refused m.old + 1) }
    ensures sound { (s : Stored) → B.holds store.old s → FitsAt level p.now → IfOk result (λ yes. IsTrue yes → IsSoundAt s level p.now) }
{
    let b = match p {
        Ptr::Hole => return Ok(true),
        Ptr::At(b) => b,
    };
    if !m.mark(b)? {
        return Ok(false);
    }
    if level == 0 {
        return Ok(true);
    }
    let pointers = read_block(alloc, store, level - 1, b)?;
    for next in pointers.iter() {
        if !walk_marked_below(alloc, store, level - 1, next, m)? {
            return Ok(false);
        }
    }
    Ok(true)
}

/// Goes through a tree as far as each mark answers true. False is answered at the first mark that answers so, and nowhere
/// else.
pub fn walk_marked<B: Blocks, M: Mark>(
    alloc: Global,
    store: &mut B,
    t: &Tree,
    m: &mut M,
) -> Result<bool, StoreErr>
    requires { IsTree t.now }
    ensures follows { (start : B) → B.follows start store.old → B.follows start store.new }
    ensures costs { Costs 0 0 (B.account store.old) (B.account store.new) }
    ensures cause { HasCause 0 (B.account store.old) (B.account store.new) result }
    ensures same { (s : Stored) → B.holds store.old s → B.holds store.new s }
    ensures errors { (s : Stored) → B.holds store.old s → TellsOf s (tree_blocks s t.now) result }
    ensures front { (s : Stored) → B.holds store.old s → MarksFront (M.marked m.old) (M.marked m.new) (tree_reach s t.now) }
    ensures all { (s : Stored) → B.holds store.old s → IfOk result (λ yes. IsTrue yes → M.marked m.new ≡ M.marked m.old ++ tree_reach s t.now) }
    ensures passed { IfOk result (λ yes. IsTrue yes → M.refused m.new ≡ M.refused m.old) }
    ensures refused { IfOk result (λ yes. yes ≡ false → M.refused m.new ≡ M.refused m.old + 1) }
    ensures sound { (s : Stored) → B.holds store.old s → IfOk result (λ yes. IsTrue yes → IsSoundAt s t.now.height t.now.root) }
{
    walk_marked_below(alloc, store, t.height, &t.root, m)
}
