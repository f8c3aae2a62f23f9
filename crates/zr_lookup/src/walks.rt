//! The walk over an object's tree, which gives its leaves with their indices, and its tree blocks.
ghost use Rattle.std.specs.Prelude.{◌≡◌, ◌+◌, ◌*◌, ◌^◌, ◌<◌, ◌≤◌, ◌++◌, ◌∷◌, [], ℕ, List, All, length, IfOk, IfSome, OnOk, MatchOption};
ghost use Rattle.zr_store.specs.Causes.{Costs, HasCause};
ghost use Rattle.zr_store.specs.Store.{Stored};
ghost use Rattle.zr_bptr.specs.Spelling.{IsTree, IsPointer, SpellsTreeBlock};
ghost use Rattle.zr_bptr.specs.declared.Ptr.TheVariants.{At};
ghost use Rattle.zr_tree.specs.Blocks.{FitsAt, IsNoBlock, pointers_in};
ghost use Rattle.zr_tree.specs.Trees.{kids, blocks, leaf_at, tree_at, tree_blocks, TellsOf};
ghost use Rattle.zr_txg.specs.Tables.{value_at};
ghost use Rattle.zr_lookup.specs.Objects.{block_in};
ghost use Rattle.zr_lookup.specs.Lists.{IsBetween, Fills};

use std::alloc::Global;
use zr_base::NoMemory;
use zr_bptr::{Bptr, Ptr, Tree, decode_block};
use zr_store::{Blocks, StoreErr};

/// The leaves of a tree by rising index, each behind its index, and its tree blocks, each before what lies below it.
#[derive(Drop)]
pub(crate) struct Walked {
    pub(crate) leaves: Vec<(u64, Bptr)>,
    pub(crate) blocks: Vec<Bptr>,
}

// The pointers of a block, None exactly where the bytes are no tree block of that level with so many leaves.
fn decode_pointers(
    alloc: Global,
    below: u32,
    fill: u64,
    bytes: &[u8],
) -> Result<Option<Vec<Ptr>>, NoMemory>
    requires { below < 5 }
    ensures pointers { IfOk result (λ read. MatchOption read (IsNoBlock below fill bytes.now) (λ ps. pointers_in bytes.now ≡ ps.items)) }
    ensures count { IfOk result (λ read. IfSome read (λ ps. length ps.items ≡ 32)) }
    ensures fit { IfOk result (λ read. IfSome read (λ ps. All (FitsAt below) ps.items)) }
{
    let Some(pointers) = decode_block(alloc, below as u8, fill, bytes)? else {
        return Ok(None);
    };
    Ok(Some(pointers))
}

// The pointers of a tree block.
fn read_block<B: Blocks>(
    alloc: Global,
    store: &mut B,
    below: u32,
    b: &Bptr,
) -> Result<Vec<Ptr>, StoreErr>
    requires { below < 5 }
    ensures follows { (start : B) → B.follows start store.old → B.follows start store.new }
    ensures costs { Costs 0 0 (B.account store.old) (B.account store.new) }
    ensures cause { HasCause 0 (B.account store.old) (B.account store.new) result }
    ensures same { (s : Stored) → B.holds store.old s → B.holds store.new s }
    ensures errors { (s : Stored) → B.holds store.old s → b.now.level ≡ below + 1 → TellsOf s (b.now ∷ []) result }
    ensures count { IfOk result (λ pointers. length pointers.items ≡ 32) }
    ensures fit { IfOk result (λ pointers. All (FitsAt below) pointers.items) }
    ensures means { (s : Stored) → B.holds store.old s → IfOk result (λ pointers. pointers.items ≡ kids s below b.now) }
{
    let bytes = store.get(alloc, b)?;
    match decode_pointers(alloc, below, b.fill, bytes.as_slice())? {
        None => Err(StoreErr::Malformed {
            at: b.at,
            expected: b.sum,
        }),
        Some(pointers) => Ok(pointers),
    }
}

// The leaves and the tree blocks from a pointer down, where `place` is its place among those of its level.
fn walk_below<B: Blocks>(
    alloc: Global,
    store: &mut B,
    level: u32,
    p: &Ptr,
    place: u64,
    leaves: &mut Vec<(u64, Bptr)>,
    tree: &mut Vec<Bptr>,
) -> Result<(), StoreErr>
    requires tall { level ≤ 5 }
    requires fits { FitsAt level p.now }
    requires low { (place + 1) * 32 ^ level ≤ 2 ^ 25 }
    requires before { IsBetween 0 (place * 32 ^ level) leaves.old.items }
    requires leaves_fit { All (λ leaf. FitsAt 0 (At leaf.1)) leaves.old.items }
    requires blocks_fit { All IsPointer tree.old.items }
    ensures follows { (start : B) → B.follows start store.old → B.follows start store.new }
    ensures costs { Costs 0 0 (B.account store.old) (B.account store.new) }
    ensures cause { HasCause 0 (B.account store.old) (B.account store.new) result }
    ensures same { (s : Stored) → B.holds store.old s → B.holds store.new s }
    ensures errors { (s : Stored) → B.holds store.old s → TellsOf s (blocks s level p.now) result }
    ensures between { OnOk result (IsBetween 0 ((place + 1) * 32 ^ level) leaves.new.items) }
    ensures leaves_fit { OnOk result (All (λ leaf. FitsAt 0 (At leaf.1)) leaves.new.items) }
    ensures blocks_fit { OnOk result (All IsPointer tree.new.items) }
    ensures few { OnOk result (31 * length tree.new.items + 1 ≤ 31 * length tree.old.items + 32 ^ level) }
    ensures tree_blocks { (s : Stored) → B.holds store.old s → OnOk result (tree.new.items ≡ tree.old.items ++ blocks s level p.now) }
    ensures leaves { (s : Stored) → B.holds store.old s → OnOk result (Fills (place * 32 ^ level) ((place + 1) * 32 ^ level) (λ index. block_in (leaf_at s level p.now index)) leaves.old.items leaves.new.items) }
{
    let b = match p {
        Ptr::Hole => return Ok(()),
        Ptr::At(b) => b,
    };
    if level == 0 {
        leaves.push((place, *b))?;
        return Ok(());
    }
    tree.push(*b)?;
    let pointers = read_block(alloc, store, level - 1, b)?;
    for (i, next) in pointers.iter().enumerate() {
        let at = 32 * place + i as u64;
        walk_below(alloc, store, level - 1, next, at, leaves, tree)?;
    }
    Ok(())
}

/// The walk over a whole tree. It reads each tree block once, and no leaf.
pub(crate) fn walk_tree<B: Blocks>(
    alloc: Global,
    store: &mut B,
    t: &Tree,
) -> Result<Walked, StoreErr>
    requires { IsTree t.now }
    ensures follows { (start : B) → B.follows start store.old → B.follows start store.new }
    ensures costs { Costs 0 0 (B.account store.old) (B.account store.new) }
    ensures cause { HasCause 0 (B.account store.old) (B.account store.new) result }
    ensures same { (s : Stored) → B.holds store.old s → B.holds store.new s }
    ensures errors { (s : Stored) → B.holds store.old s → TellsOf s (tree_blocks s t.now) result }
    ensures between { IfOk result (λ w. IsBetween 0 (2 ^ 25) w.leaves.items) }
    ensures leaves_fit { IfOk result (λ w. All (λ leaf. FitsAt 0 (At leaf.1)) w.leaves.items) }
    ensures blocks_fit { IfOk result (λ w. All IsPointer w.blocks.items) }
    ensures few_blocks { IfOk result (λ w. length w.blocks.items ≤ 2 ^ 21) }
    ensures tree_blocks { (s : Stored) → B.holds store.old s → IfOk result (λ w. w.blocks.items ≡ tree_blocks s t.now) }
    ensures leaves { (s : Stored) → B.holds store.old s → IfOk result (λ w. (index : ℕ) → value_at w.leaves.items index ≡ block_in (tree_at s t.now index)) }
{
    let mut leaves = Vec::new(alloc);
    let mut blocks = Vec::new(alloc);
    walk_below(alloc, store, t.height, &t.root, 0, &mut leaves, &mut blocks)?;
    Ok(Walked { leaves, blocks })
}
