//! Changing a row: the blocks of one level that lie over changes are put anew.
//!
//! A row is changed from its first block to its last. Each is looked up from the root, so that the tree need only be known
//! by its root, and its level is no concern of the change: to the blocks of a row those of the row below are the leaves. A
//! block of which nothing is left becomes a hole. The blocks that were there are noted, and given back later.
ghost use Rattle.std.specs.Prelude.{◌≡◌, ◌≢◌, ◌+◌, ◌*◌, ◌-◌, ◌/◌, ◌%◌, ◌^◌, ◌<◌, ◌≤◌, ◌↔◌, List, [], ℕ, suc, length, All, IfOk, OnOk, IsTrue, IfSome, take, drop, slice_index_or};
ghost use Rattle.std.specs.Int.{div_ceil};
ghost use Rattle.std.specs.List.{flat_map};
ghost use Rattle.zr_bptr.specs.declared.Bptr.{Bptr};
ghost use Rattle.zr_bptr.specs.declared.Ptr.{Ptr};
ghost use Rattle.zr_bptr.specs.declared.Ptr.TheVariants.{Hole};
ghost use Rattle.zr_tree.specs.Blocks.{FitsAt};
ghost use Rattle.zr_store.specs.Store.{Stored, Now, AreStored, Swaps};
ghost use Rattle.zr_store.specs.Causes.{Costs, HasCause};
ghost use Rattle.zr_tree.specs.Trees.{blocks, own, IsOpen, PutsBlock, SetsPointers, PutsChanged, PutsRow, AllAt, AreBelow, AreOfLevel, AreRows, EndsInUnit, IsOneUnit, IsWholeAt, Rises, TellsOf};
ghost use Rattle.zr_bptr.specs.Spelling.{IsOfLevel};

use crate::blocks::encode_pointers;
use crate::reads::{get_at, place_of, read_block};
use std::alloc::{AllocError, Global};
use zr_bptr::{Bptr, Ptr, Tree};
use zr_store::{Blocks, StoreErr};

pub(crate) fn is_hole(p: &Ptr) -> bool
    ensures { IsTrue result ↔ (p.now ≡ Hole) }
{
    match p {
        Ptr::Hole => true,
        Ptr::At(_) => false,
    }
}

fn are_holes(pointers: &[Ptr]) -> bool
    ensures { IsTrue result ↔ All (λ p. p ≡ Hole) pointers.now }
{
    pointers.iter().all(|p| is_hole(p))
}

fn holes(alloc: Global) -> Result<Vec<Ptr>, AllocError>
    ensures count { IfOk result (λ pointers. length pointers.items ≡ 32) }
    ensures holes { IfOk result (λ pointers. All (λ p. p ≡ Hole) pointers.items) }
{
    Vec::from_slice(alloc, &[Ptr::Hole; 32])
}

// The pointers of a block, or of none.
fn open_block<B: Blocks>(
    alloc: Global,
    store: &mut B,
    below: u32,
    p: &Ptr,
) -> Result<Vec<Ptr>, StoreErr>
    requires { below < 5 }
    ensures follows { (start : B) → B.follows start store.old → B.follows start store.new }
    ensures costs { Costs 0 0 (B.account store.old) (B.account store.new) }
    ensures cause { HasCause 0 (B.account store.old) (B.account store.new) result }
    ensures errors { (s : Stored) → B.holds store.old s → IsOfLevel (below + 1) p.now → TellsOf s (own p.now) result }
    ensures same { (s : Stored) → B.holds store.old s → B.holds store.new s }
    ensures count { IfOk result (λ pointers. length pointers.items ≡ 32) }
    ensures fit { IfOk result (λ pointers. All (FitsAt below) pointers.items) }
    ensures open { (s : Stored) → B.holds store.old s → IfOk result (λ pointers. IsOpen s 0 p.now pointers.items) }
    ensures whole { (s : Stored) → B.holds store.old s → IsOfLevel (below + 1) p.now → IfOk result (λ pointers. IsWholeAt s p.now) }
{
    match p {
        Ptr::Hole => Ok(holes(alloc)?),
        Ptr::At(b) => Ok(read_block(alloc, store, below, b)?),
    }
}

// A block of these pointers, or a hole.
fn put_block<B: Blocks>(
    alloc: Global,
    store: &mut B,
    below: u32,
    pointers: &[Ptr],
) -> Result<Ptr, StoreErr>
    requires low { below < 5 }
    requires count { length pointers.now ≡ 32 }
    requires fit { All (FitsAt below) pointers.now }
    ensures follows { (start : B) → B.follows start store.old → B.follows start store.new }
    ensures costs { Costs 1 0 (B.account store.old) (B.account store.new) }
    ensures cause { HasCause 1 (B.account store.old) (B.account store.new) result }
    ensures errors { (s : Stored) → TellsOf s [] result }
    ensures fits { IfOk result (FitsAt (below + 1)) }
    ensures hole { IfOk result (λ p. p ≡ Hole → All (λ q. q ≡ Hole) pointers.now) }
    ensures puts { (s : Stored) → B.holds store.old s → IfOk result (λ p. Now (B.holds store.new) (λ n. PutsBlock pointers.now s n p)) }
{
    if are_holes(pointers) {
        return Ok(Ptr::Hole);
    }
    let bytes = encode_pointers(alloc, below, pointers)?;
    let b = store.put(alloc, bytes.as_slice(), below as u8 + 1)?;
    Ok(Ptr::At(b))
}

// Makes changes in the pointers of the block that lies over them.
fn change_pointers(pointers: &mut Vec<Ptr>, changes: &[(u64, Ptr)])
    requires { length pointers.old.items ≡ 32 }
    ensures count { length pointers.new.items ≡ 32 }
    ensures fit { (level : ℕ) → All (FitsAt level) pointers.old.items → AreOfLevel level changes.now → All (FitsAt level) pointers.new.items }
    ensures some { EndsInUnit changes.now → 0 < length changes.now → ¬ All (λ p. p ≡ Hole) pointers.new.items }
    ensures sets { (place : ℕ) → AllAt 1 place changes.now → SetsPointers place changes.now pointers.old.items pointers.new.items }
{
    for change in changes {
        pointers[(change.0 % 32) as usize] = change.1;
    }
}

// How many changes from the first on lie at this place.
pub(crate) fn run_len(rest: &[(u64, Ptr)], level: u32, place: u64) -> usize
    requires { level ≤ 5 }
    ensures within { result ≤ length rest.now }
    ensures here { AllAt level place (take result rest.now) }
    ensures some { (d : ℕ × Ptr) → 0 < length rest.now → (slice_index_or rest.now 0 d).0 / 32 ^ level ≡ place → 0 < result }
    ensures past { (d : ℕ × Ptr) → result < length rest.now → (slice_index_or rest.now result d).0 / 32 ^ level ≢ place }
{
    for (i, change) in rest.iter().enumerate() {
        if place_of(change.0, level) != place {
            return i;
        }
    }
    rest.len()
}

// Puts the block at a place of a row, with the changes that lie below it. The row's blocks are the leaves of the tree.
fn put_changed<B: Blocks>(
    alloc: Global,
    store: &mut B,
    below: u32,
    t: &Tree,
    place: u64,
    changes: &[(u64, Ptr)],
    old: &mut Vec<Bptr>,
) -> Result<Ptr, StoreErr>
    requires tall { below + 1 + t.now.height ≤ 5 }
    requires fits { FitsAt (below + 1 + t.now.height) t.now.root }
    requires leaves { AreOfLevel below changes.now }
    requires here { AllAt 1 place changes.now }
    ensures follows { (start : B) → B.follows start store.old → B.follows start store.new }
    ensures costs { Costs 1 0 (B.account store.old) (B.account store.new) }
    ensures cause { HasCause 1 (B.account store.old) (B.account store.new) result }
    ensures errors { (s : Stored) → B.holds store.old s → TellsOf s (blocks s (suc t.now.height) t.now.root) result }
    ensures fits { IfOk result (FitsAt (below + 1)) }
    ensures unit { EndsInUnit changes.now → 0 < length changes.now → IfOk result IsOneUnit }
    ensures count { OnOk result (length old.new.items ≤ length old.old.items + 1) }
    ensures none { t.now.root ≡ Hole → OnOk result (length old.new.items ≤ length old.old.items) }
    ensures puts { (s : Stored) → B.holds store.old s → IfOk result (λ p. Now (B.holds store.new) (λ n. PutsChanged place changes.now s n t.now p old.old.items old.new.items)) }
{
    let was = get_at(alloc, store, below + 1, t, place)?;
    let mut pointers = open_block(alloc, store, below, &was)?;
    change_pointers(&mut pointers, changes);
    let new = put_block(alloc, store, below, pointers.as_slice())?;
    if let Ptr::At(b) = was {
        old.push(b)?;
    }
    Ok(new)
}

// Puts the blocks of a row that lie over changes: the changes of the row above. The row's blocks are the leaves of the
// tree.
pub(crate) fn put_row<B: Blocks>(
    alloc: Global,
    store: &mut B,
    below: u32,
    t: &Tree,
    changes: &[(u64, Ptr)],
    old: &mut Vec<Bptr>,
) -> Result<Vec<(u64, Ptr)>, StoreErr>
    requires tall { below + 1 + t.now.height ≤ 5 }
    requires fits { FitsAt (below + 1 + t.now.height) t.now.root }
    requires leaves { AreOfLevel below changes.now }
    requires rises { Rises changes.now }
    ensures follows { (start : B) → B.follows start store.old → B.follows start store.new }
    ensures costs { (most : ℕ) → AreRows most changes.now → Costs most 0 (B.account store.old) (B.account store.new) }
    ensures cause { (most : ℕ) → AreRows most changes.now → HasCause most (B.account store.old) (B.account store.new) result }
    ensures whole { (n : ℕ) → AreBelow n changes.now → Costs (div_ceil n 32) 0 (B.account store.old) (B.account store.new) }
    ensures whole_cause { (n : ℕ) → AreBelow n changes.now → HasCause (div_ceil n 32) (B.account store.old) (B.account store.new) result }
    ensures errors { (s : Stored) → B.holds store.old s → AreStored (blocks s (suc t.now.height) t.now.root) s → TellsOf s (blocks s (suc t.now.height) t.now.root) result }
    ensures few { (most : ℕ) → AreRows most changes.now → IfOk result (λ row. length row.items ≤ most) }
    ensures rises { IfOk result (λ row. Rises row.items) }
    ensures below { (n : ℕ) → AreBelow n changes.now → IfOk result (λ row. AreBelow (div_ceil n 32) row.items) }
    ensures room { (level : ℕ) → AllAt (suc level) 0 changes.now → IfOk result (λ row. AllAt level 0 row.items) }
    ensures leaves { IfOk result (λ row. AreOfLevel (below + 1) row.items) }
    ensures unit { EndsInUnit changes.now → IfOk result (λ row. EndsInUnit row.items) }
    ensures some { 0 < length changes.now → IfOk result (λ row. 0 < length row.items) }
    ensures count { IfOk result (λ row. length old.new.items ≤ length old.old.items + length row.items) }
    ensures none { t.now.root ≡ Hole → OnOk result (length old.new.items ≤ length old.old.items) }
    ensures puts { (s : Stored) → B.holds store.old s → AreStored (blocks s (suc t.now.height) t.now.root) s → IfOk result (λ row. Now (B.holds store.new) (λ n. PutsRow changes.now row.items s n t.now old.old.items old.new.items)) }
{
    let mut row = Vec::new(alloc);
    let mut from = 0;
    while from < changes.len() {
        let rest = &changes[from..];
        let place = rest[0].0 / 32;
        let n = run_len(rest, 1, place);
        let p = put_changed(alloc, store, below, t, place, &rest[..n], old)?;
        row.push((place, p))?;
        from += n;
    }
    Ok(row)
}
