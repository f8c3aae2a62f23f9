//! Writing the blocks of a tree, level by level from its leaves up.
//!
//! The pointers of a level are cut into blocks of 32, and the last block is filled up with holes.
ghost use Rattle.std.specs.Prelude.{◌≡◌, ◌+◌, ◌*◌, ◌-◌, ◌/◌, ◌^◌, ◌<◌, ◌≤◌, ◌++◌, List, [], ◌∷◌, ℕ, length, map, replicate, All, IfOk, OnOk};
ghost use Rattle.std.specs.List.{flat_map};
ghost use Rattle.std.specs.Int.{div_ceil};
ghost use Rattle.zr_base.specs.Trees.{IsHeight, tree_units};
ghost use Rattle.zr_bptr.specs.Spelling.{IsTree, fill_of};
ghost use Rattle.zr_bptr.specs.declared.Ptr.TheVariants.{Hole, At};
ghost use Rattle.zr_store.specs.Causes.{Costs, HasCause};
ghost use Rattle.zr_store.specs.Store.{AreStored, IsPointerTo, IsBlockOf, Stored, Now};
ghost use Rattle.zr_tree.specs.Blocks.{FitsAt, pointers_in};
ghost use Rattle.zr_tree.specs.Trees.{blocks, TellsOf};
ghost use Rattle.zr_root.specs.Streams.{IsUnitAt, IsGroup, PutsBlock, PutsBlocks, Joins};

use std::alloc::{AllocError, Global};
use zr_base::NoMemory;
use zr_bptr::{Bptr, Ptr, Tree, encode_block};
use zr_store::{Blocks, StoreErr};

fn pointers_to(alloc: Global, bs: &[Bptr]) -> Result<Vec<Ptr>, AllocError>
    ensures { IfOk result (λ ps. ps.items ≡ map At bs.now) }
{
    bs.iter().map(|b| Ptr::At(*b)).collect(alloc)
}

/// The pointers to these blocks, and holes up to a multiple of 32.
fn padded(alloc: Global, bs: &[Bptr]) -> Result<Vec<Ptr>, AllocError>
    requires { length bs.now ≤ 2 ^ 25 }
    ensures items { IfOk result (λ ps. ps.items ≡ map At bs.now ++ replicate (32 * div_ceil (length bs.now) 32 - length bs.now) Hole) }
    ensures len { IfOk result (λ ps. length ps.items ≡ 32 * div_ceil (length bs.now) 32) }
{
    let mut pointers = pointers_to(alloc, bs)?;
    let holes = 32 * bs.len().div_ceil(32) - bs.len();
    pointers.extend_from_slice(&[Ptr::Hole; 32][..holes])?;
    Ok(pointers)
}

/// The bytes of a block of these pointers.
fn encode_group(alloc: Global, below: u32, pointers: &[Ptr]) -> Result<Vec<u8>, NoMemory>
    requires low { below < 5 }
    requires count { length pointers.now ≡ 32 }
    requires group { IsGroup below pointers.now }
    ensures size { IfOk result (λ bytes. length bytes.items ≡ 4096) }
    ensures block { IfOk result (λ bytes. IsBlockOf below bytes.items) }
    ensures pointers { IfOk result (λ bytes. pointers_in bytes.items ≡ pointers.now) }
{
    let bytes = encode_block(alloc, below as u8, pointers)?;
    Ok(bytes)
}

/// A block of these pointers.
fn put_group<B: Blocks>(
    alloc: Global,
    store: &mut B,
    below: u32,
    pointers: &[Ptr],
) -> Result<Bptr, StoreErr>
    requires low { below < 5 }
    requires count { length pointers.now ≡ 32 }
    requires group { IsGroup below pointers.now }
    ensures follows { (start : B) → B.follows start store.old → B.follows start store.new }
    ensures adds { (start : B) → B.adds start store.old → OnOk result (B.adds start store.new) }
    ensures costs { Costs 1 0 (B.account store.old) (B.account store.new) }
    ensures cause { HasCause 1 (B.account store.old) (B.account store.new) result }
    ensures errors { (s : Stored) → TellsOf s [] result }
    ensures fits { IfOk result (IsUnitAt (below + 1)) }
    ensures puts { (s : Stored) → B.holds store.old s → IfOk result (λ b. Now (B.holds store.new) (λ n. PutsBlock below pointers.now s n b)) }
{
    let bytes = encode_group(alloc, below, pointers)?;
    let b = store.put(alloc, bytes.as_slice(), below as u8 + 1)?;
    Ok(b)
}

/// A block of each of these groups.
fn put_groups<B: Blocks>(
    alloc: Global,
    store: &mut B,
    below: u32,
    pieces: &[[Ptr; 32]],
) -> Result<Vec<Bptr>, StoreErr>
    requires low { below < 5 }
    requires groups { All (IsGroup below) pieces.now }
    ensures follows { (start : B) → B.follows start store.old → B.follows start store.new }
    ensures adds { (start : B) → B.adds start store.old → OnOk result (B.adds start store.new) }
    ensures costs { Costs (length pieces.now) 0 (B.account store.old) (B.account store.new) }
    ensures cause { HasCause (length pieces.now) (B.account store.old) (B.account store.new) result }
    ensures errors { (s : Stored) → TellsOf s [] result }
    ensures count { IfOk result (λ tops. length tops.items ≡ length pieces.now) }
    ensures fit { IfOk result (λ tops. All (IsUnitAt (below + 1)) tops.items) }
    ensures puts { (s : Stored) → B.holds store.old s → IfOk result (λ tops. Now (B.holds store.new) (λ n. PutsBlocks below pieces.now s n tops.items)) }
{
    let mut tops = Vec::new(alloc);
    for piece in pieces {
        let b = put_group(alloc, store, below, piece)?;
        tops.push(b)?;
    }
    Ok(tops)
}

/// The tree of these blocks of a level, of which none stand beside it.
pub(crate) fn join<B: Blocks>(
    alloc: Global,
    store: &mut B,
    level: u32,
    bs: &[Bptr],
) -> Result<Tree, StoreErr>
    requires tall { level ≤ 5 }
    requires some { 0 < length bs.now }
    requires small { length bs.now ≤ 32 ^ (5 - level) }
    requires fit { All (IsUnitAt level) bs.now }
    ensures follows { (start : B) → B.follows start store.old → B.follows start store.new }
    ensures adds { (start : B) → B.adds start store.old → OnOk result (B.adds start store.new) }
    ensures costs { Costs (tree_units (length bs.now) - length bs.now) 0 (B.account store.old) (B.account store.new) }
    ensures cause { HasCause (tree_units (length bs.now) - length bs.now) (B.account store.old) (B.account store.new) result }
    ensures errors { (s : Stored) → TellsOf s [] result }
    ensures above { IfOk result (λ t. level ≤ t.height) }
    ensures height { IfOk result (λ t. IsHeight (length bs.now) (t.height - level)) }
    ensures root { IfOk result (λ t. (b : Bptr) × (t.root ≡ At b) × IsUnitAt t.height b) }
    ensures joins { (s : Stored) → B.holds store.old s → AreStored (flat_map (blocks s level) (map At bs.now)) s → IfOk result (λ t. Now (B.holds store.new) (λ n. Joins level bs.now s n t)) }
{
    if bs.len() == 1 {
        return Ok(Tree {
            root: Ptr::At(bs[0]),
            height: level,
        });
    }
    let pointers = padded(alloc, bs)?;
    let (pieces, _) = pointers.as_slice().as_chunks::<32>();
    let tops = put_groups(alloc, store, level, pieces)?;
    let t = join(alloc, store, level + 1, tops.as_slice())?;
    Ok(t)
}
