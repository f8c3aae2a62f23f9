//! Reading: the pointers of a tree block, and the leaf pointer at an index.
//!
//! The time is linear in the height, which is at most 5.
ghost use Rattle.std.specs.Prelude.{◌≡◌, ◌+◌, ◌*◌, ◌-◌, ◌/◌, ◌%◌, ◌^◌, ◌<◌, ◌≤◌, List, [], ◌∷◌, ℕ, length, All, IfOk};
ghost use Rattle.zr_bptr.specs.declared.Ptr.TheVariants.{Hole};
ghost use Rattle.zr_tree.specs.Blocks.{FitsAt};
ghost use Rattle.zr_store.specs.Causes.{Costs, HasCause};
ghost use Rattle.zr_bptr.specs.Spelling.{IsTree};
ghost use Rattle.zr_store.specs.Store.{Stored};
ghost use Rattle.zr_tree.specs.Trees.{kids, leaf_at, tree_at, blocks, tree_blocks, IsWhole, IsWay, IsTreeWay, TellsOf};

use crate::blocks::decode_pointers;
use std::alloc::Global;
use zr_bptr::{Bptr, Ptr, Tree};
use zr_store::{Blocks, StoreErr};

/// The place of an index among the blocks of a level.
pub(crate) fn place_of(index: u64, level: u32) -> u64
    requires { level ≤ 5 }
    ensures { result ≡ index / 32 ^ level }
{
    match level {
        0 => index,
        1 => index / 32,
        2 => index / 1024,
        3 => index / 32768,
        4 => index / 1048576,
        _ => index / 33554432,
    }
}

/// The pointers of a tree block.
pub(crate) fn read_block<B: Blocks>(
    alloc: Global,
    store: &mut B,
    below: u32,
    b: &Bptr,
) -> Result<Vec<Ptr>, StoreErr>
    requires { below < 5 }
    ensures follows { (start : B) → B.follows start store.old → B.follows start store.new }
    ensures costs { Costs 0 0 (B.account store.old) (B.account store.new) }
    ensures cause { HasCause 0 (B.account store.old) (B.account store.new) result }
    ensures same { (s : Stored) → B.holds store.old s → B.holds store.new s }
    ensures errors { (s : Stored) → B.holds store.old s → b.now.level ≡ below + 1 → TellsOf s (b.now ∷ []) result }
    ensures count { IfOk result (λ pointers. length pointers.items ≡ 32) }
    ensures fit { IfOk result (λ pointers. All (FitsAt below) pointers.items) }
    ensures means { (s : Stored) → B.holds store.old s → IfOk result (λ pointers. pointers.items ≡ kids s below b.now) }
    ensures whole { (s : Stored) → B.holds store.old s → b.now.level ≡ below + 1 → IfOk result (λ pointers. IsWhole s b.now) }
{
    let bytes = store.get(alloc, b)?;
    match decode_pointers(alloc, below, b.fill, bytes.as_slice())? {
        None => Err(StoreErr::Malformed {
            at: b.at,
            expected: b.sum,
        }),
        Some(pointers) => Ok(pointers),
    }
}

// The pointer at an index of the leaves, which are of the level `base`, below a pointer so many levels above them.
fn get_below<B: Blocks>(
    alloc: Global,
    store: &mut B,
    base: u32,
    levels: u32,
    p: &Ptr,
    index: u64,
) -> Result<Ptr, StoreErr>
    requires tall { base + levels ≤ 5 }
    requires fits { FitsAt (base + levels) p.now }
    ensures follows { (start : B) → B.follows start store.old → B.follows start store.new }
    ensures costs { Costs 0 0 (B.account store.old) (B.account store.new) }
    ensures cause { HasCause 0 (B.account store.old) (B.account store.new) result }
    ensures same { (s : Stored) → B.holds store.old s → B.holds store.new s }
    ensures errors { (s : Stored) → B.holds store.old s → TellsOf s (blocks s levels p.now) result }
    ensures fits { IfOk result (FitsAt base) }
    ensures hole { p.now ≡ Hole → IfOk result (λ leaf. leaf ≡ Hole) }
    ensures leaf { (s : Stored) → B.holds store.old s → IfOk result (λ leaf. leaf ≡ leaf_at s levels p.now index) }
    ensures way { (s : Stored) → B.holds store.old s → IfOk result (λ leaf. IsWay s levels p.now index) }
{
    if levels == 0 {
        return Ok(*p);
    }
    match p {
        Ptr::Hole => Ok(Ptr::Hole),
        Ptr::At(b) => {
            let below = levels - 1;
            let pointers = read_block(alloc, store, base + below, b)?;
            let next = pointers[(place_of(index, below) % 32) as usize];
            get_below(alloc, store, base, below, &next, index)
        }
    }
}

// The pointer at an index of the leaves of a tree, which are of the level `base`.
pub(crate) fn get_at<B: Blocks>(
    alloc: Global,
    store: &mut B,
    base: u32,
    t: &Tree,
    index: u64,
) -> Result<Ptr, StoreErr>
    requires tall { base + t.now.height ≤ 5 }
    requires fits { FitsAt (base + t.now.height) t.now.root }
    ensures follows { (start : B) → B.follows start store.old → B.follows start store.new }
    ensures costs { Costs 0 0 (B.account store.old) (B.account store.new) }
    ensures cause { HasCause 0 (B.account store.old) (B.account store.new) result }
    ensures same { (s : Stored) → B.holds store.old s → B.holds store.new s }
    ensures errors { (s : Stored) → B.holds store.old s → TellsOf s (tree_blocks s t.now) result }
    ensures fits { IfOk result (FitsAt base) }
    ensures hole { t.now.root ≡ Hole → IfOk result (λ leaf. leaf ≡ Hole) }
    ensures leaf { (s : Stored) → B.holds store.old s → IfOk result (λ leaf. leaf ≡ tree_at s t.now index) }
    ensures way { (s : Stored) → B.holds store.old s → IfOk result (λ leaf. IsTreeWay s t.now index) }
{
    if place_of(index, t.height) != 0 {
        return Ok(Ptr::Hole);
    }
    get_below(alloc, store, base, t.height, &t.root, index)
}

/// The leaf pointer at an index.
pub fn get<B: Blocks>(alloc: Global, store: &mut B, t: &Tree, index: u64) -> Result<Ptr, StoreErr>
    requires tree { IsTree t.now }
    ensures follows { (start : B) → B.follows start store.old → B.follows start store.new }
    ensures costs { Costs 0 0 (B.account store.old) (B.account store.new) }
    ensures cause { HasCause 0 (B.account store.old) (B.account store.new) result }
    ensures same { (s : Stored) → B.holds store.old s → B.holds store.new s }
    ensures errors { (s : Stored) → B.holds store.old s → TellsOf s (tree_blocks s t.now) result }
    ensures fits { IfOk result (FitsAt 0) }
    ensures leaf { (s : Stored) → B.holds store.old s → IfOk result (λ leaf. leaf ≡ tree_at s t.now index) }
    ensures way { (s : Stored) → B.holds store.old s → IfOk result (λ leaf. IsTreeWay s t.now index) }
{
    get_at(alloc, store, 0, t, index)
}
