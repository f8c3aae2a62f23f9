//! Reading the blocks of a tree, level by level from its root down.
//!
//! All pointers of a level are taken into one list and compared with what must stand there: so many blocks, and then
//! holes. The first that differs tells the block that is outside its form.
ghost use Rattle.std.specs.Prelude.{◌≡◌, ◌≢◌, ◌+◌, ◌*◌, ◌-◌, ◌/◌, ◌^◌, ◌<◌, ◌≤◌, ◌↔◌, List, [], ◌∷◌, ℕ, length, All, IfOk, IsTrue, MatchOption};
ghost use Rattle.std.specs.List.{flat_map};
ghost use Rattle.std.specs.Int.{div_ceil};
ghost use Rattle.zr_base.specs.Trees.{IsHeight};
ghost use Rattle.zr_bptr.specs.declared.Bptr.{Bptr};
ghost use Rattle.zr_bptr.specs.declared.Ptr.TheVariants.{Hole, At};
ghost use Rattle.zr_bptr.specs.declared.Tree.{Tree};
ghost use Rattle.zr_store.specs.Causes.{Costs, HasCause};
ghost use Rattle.zr_store.specs.Store.{Stored};
ghost use Rattle.zr_tree.specs.Blocks.{FitsAt};
ghost use Rattle.zr_tree.specs.Trees.{kids, own, tree_blocks, IsWhole};
ghost use Rattle.zr_root.specs.Streams.{IsUnitAt, HasLeaves};
ghost use Rattle.zr_root.specs.Levels.{IsLevel, HavePointers, TellsOfForm, IsUnit, IsCut, ReadsPointers};

use std::alloc::{AllocError, Global};
use zr_bptr::{Bptr, Ptr, decode_block};
use zr_store::{Blocks, StoreErr};

fn is_unit(p: &Ptr) -> bool
    ensures { IsTrue result ↔ IsUnit p.now }
{
    match p {
        Ptr::Hole => false,
        Ptr::At(b) => b.at.len == 1,
    }
}

fn is_hole(p: &Ptr) -> bool
    ensures { IsTrue result ↔ (p.now ≡ Hole) }
{
    match p {
        Ptr::Hole => true,
        Ptr::At(_) => false,
    }
}

/// The first pointer that is not as it must be, where `n` blocks of one unit come first and then holes.
fn first_bad(pointers: &[Ptr], n: usize) -> Option<usize>
    requires { n ≤ length pointers.now }
    ensures within { MatchOption result (Unit {0}) (λ j. j < length pointers.now) }
    ensures cut { MatchOption result (IsCut n pointers.now) (λ j. ¬ IsCut n pointers.now) }
{
    for (i, p) in pointers.iter().enumerate() {
        let fine = if i < n { is_unit(p) } else { is_hole(p) };
        if !fine {
            return Some(i);
        }
    }
    None
}

/// Those that are no holes.
fn blocks_in(alloc: Global, pointers: &[Ptr]) -> Result<Vec<Bptr>, AllocError>
    ensures { IfOk result (λ bs. bs.items ≡ flat_map own pointers.now) }
{
    let mut bs = Vec::new(alloc);
    for p in pointers {
        if let Ptr::At(b) = p {
            bs.push(*b)?;
        }
    }
    Ok(bs)
}

/// The pointers of a tree block.
fn read_group<B: Blocks>(
    alloc: Global,
    store: &mut B,
    below: u32,
    b: &Bptr,
) -> Result<Vec<Ptr>, StoreErr>
    requires low { below < 5 }
    requires fit { IsUnitAt (below + 1) b.now }
    ensures follows { (start : B) → B.follows start store.old → B.follows start store.new }
    ensures costs { Costs 0 0 (B.account store.old) (B.account store.new) }
    ensures cause { HasCause 0 (B.account store.old) (B.account store.new) result }
    ensures same { (s : Stored) → B.holds store.old s → B.holds store.new s }
    ensures errors { (s : Stored) → B.holds store.old s → TellsOfForm s (b.now ∷ []) (λ x. ¬ IsWhole s b.now) result }
    ensures count { IfOk result (λ pointers. length pointers.items ≡ 32) }
    ensures fit { IfOk result (λ pointers. All (FitsAt below) pointers.items) }
    ensures pointers { (s : Stored) → B.holds store.old s → IfOk result (λ pointers. pointers.items ≡ kids s below b.now) }
    ensures whole { (s : Stored) → B.holds store.old s → IfOk result (λ pointers. IsWhole s b.now) }
{
    let bytes = store.get(alloc, b)?;
    match decode_block(alloc, below as u8, b.fill, bytes.as_slice())? {
        None => Err(StoreErr::Malformed {
            at: b.at,
            expected: b.sum,
        }),
        Some(pointers) => Ok(pointers),
    }
}

/// The pointers of tree blocks of one level, one block's behind the other's.
fn read_groups<B: Blocks>(
    alloc: Global,
    store: &mut B,
    below: u32,
    tops: &[Bptr],
) -> Result<Vec<Ptr>, StoreErr>
    requires low { below < 5 }
    requires fit { All (IsUnitAt (below + 1)) tops.now }
    ensures follows { (start : B) → B.follows start store.old → B.follows start store.new }
    ensures costs { Costs 0 0 (B.account store.old) (B.account store.new) }
    ensures cause { HasCause 0 (B.account store.old) (B.account store.new) result }
    ensures same { (s : Stored) → B.holds store.old s → B.holds store.new s }
    ensures errors { (s : Stored) → B.holds store.old s → TellsOfForm s tops.now (λ x. ¬ All (IsWhole s) tops.now) result }
    ensures count { IfOk result (λ pointers. length pointers.items ≡ 32 * length tops.now) }
    ensures fit { IfOk result (λ pointers. All (FitsAt below) pointers.items) }
    ensures reads { (s : Stored) → B.holds store.old s → IfOk result (λ pointers. ReadsPointers s below tops.now pointers.items) }
{
    let mut all = Vec::new(alloc);
    for b in tops {
        let pointers = read_group(alloc, store, below, b)?;
        all.extend_from_slice(pointers.as_slice())?;
    }
    Ok(all)
}

/// The `n` blocks of a level, where `tops` are those of the level above.
fn read_level<B: Blocks>(
    alloc: Global,
    store: &mut B,
    below: u32,
    tops: &[Bptr],
    n: usize,
) -> Result<Vec<Bptr>, StoreErr>
    requires low { below < 5 }
    requires fit { All (IsUnitAt (below + 1)) tops.now }
    requires count { n ≤ 32 * length tops.now }
    ensures follows { (start : B) → B.follows start store.old → B.follows start store.new }
    ensures costs { Costs 0 0 (B.account store.old) (B.account store.new) }
    ensures cause { HasCause 0 (B.account store.old) (B.account store.new) result }
    ensures same { (s : Stored) → B.holds store.old s → B.holds store.new s }
    ensures errors { (s : Stored) → B.holds store.old s → TellsOfForm s tops.now (λ x. (bs : List Bptr) → length bs ≡ n → ¬ HavePointers s below tops.now bs) result }
    ensures count { IfOk result (λ bs. length bs.items ≡ n) }
    ensures units { IfOk result (λ bs. All (IsUnitAt below) bs.items) }
    ensures level { (s : Stored) → B.holds store.old s → IfOk result (λ bs. HavePointers s below tops.now bs.items) }
{
    let pointers = read_groups(alloc, store, below, tops)?;
    if let Some(j) = first_bad(pointers.as_slice(), n) {
        let b = tops[j / 32];
        return Err(StoreErr::Malformed {
            at: b.at,
            expected: b.sum,
        });
    }
    Ok(blocks_in(alloc, pointers.as_slice())?)
}

/// The `n` blocks of a level of the tree with this root.
pub(crate) fn level_of<B: Blocks>(
    alloc: Global,
    store: &mut B,
    root: &Bptr,
    height: u32,
    level: u32,
    n: usize,
) -> Result<Vec<Bptr>, StoreErr>
    requires root { IsUnitAt height root.now }
    requires tall { height ≤ 5 }
    requires within { level ≤ height }
    requires some { 0 < n }
    requires count { IsHeight n (height - level) }
    ensures follows { (start : B) → B.follows start store.old → B.follows start store.new }
    ensures costs { Costs 0 0 (B.account store.old) (B.account store.new) }
    ensures cause { HasCause 0 (B.account store.old) (B.account store.new) result }
    ensures same { (s : Stored) → B.holds store.old s → B.holds store.new s }
    ensures errors { (s : Stored) → B.holds store.old s → let t : Tree = record { root = At root.now; height = height } in TellsOfForm s (tree_blocks s t) (λ x. (leaves : List Bptr) → n ≡ div_ceil (length leaves) (32 ^ level) → ¬ HasLeaves s t leaves) result }
    ensures count { IfOk result (λ bs. length bs.items ≡ n) }
    ensures units { IfOk result (λ bs. All (IsUnitAt level) bs.items) }
    ensures level { (s : Stored) → B.holds store.old s → IfOk result (λ bs. IsLevel s (record { root = At root.now; height = height }) level bs.items) }
{
    if n == 1 {
        let mut bs = Vec::new(alloc);
        bs.push(*root)?;
        return Ok(bs);
    }
    let tops = level_of(alloc, store, root, height, level + 1, n.div_ceil(32))?;
    let bs = read_level(alloc, store, level, tops.as_slice(), n)?;
    Ok(bs)
}
