//! Strings of bytes.
//!
//! The time is linear in the bytes.
ghost use Rattle.std.specs.Prelude.{◌≡◌, ◌+◌, ◌*◌, ◌-◌, ◌/◌, ◌^◌, ◌<◌, ◌≤◌, ◌++◌, List, [], ◌∷◌, ℕ, length, map, All, IfOk, OnOk};
ghost use Rattle.std.specs.Int.{div_ceil};
ghost use Rattle.zr_base.specs.Trees.{IsHeight, tree_units};
ghost use Rattle.zr_base.specs.Words.{zeros};
ghost use Rattle.zr_bptr.specs.Spelling.{IsTree};
ghost use Rattle.zr_bptr.specs.declared.Ptr.TheVariants.{Hole, At};
ghost use Rattle.zr_bptr.specs.declared.Bptr.{Bptr};
ghost use Rattle.zr_bptr.specs.declared.Tree.{Tree};
ghost use Rattle.zr_store.specs.Causes.{Costs, HasCause};
ghost use Rattle.sha2.specs.Sha256.{sha256};
ghost use Rattle.zr_store.specs.Store.{Stored, Puts, Now};
ghost use Rattle.zr_meta.specs.Heads.{IsTreeOf};
ghost use Rattle.zr_tree.specs.Trees.{TellsOf};
ghost use Rattle.zr_root.specs.Streams.{IsUnitAt, PutsLeaves, StoresBytes};

use crate::levels::join;
use std::alloc::{AllocError, Global};
use zr_bptr::{Bptr, Ptr, Tree};
use zr_store::{Blocks, StoreErr};

/// The bytes, and zeros up to a multiple of 4,096.
pub(crate) fn padded(alloc: Global, bytes: &[u8]) -> Result<Vec<u8>, AllocError>
    requires { length bytes.now ≤ 2 ^ 37 }
    ensures items { IfOk result (λ all. all.items ≡ bytes.now ++ zeros (4096 * div_ceil (length bytes.now) 4096 - length bytes.now)) }
    ensures len { IfOk result (λ all. length all.items ≡ 4096 * div_ceil (length bytes.now) 4096) }
{
    let mut all = Vec::from_slice(alloc, bytes)?;
    let more = 4096 * bytes.len().div_ceil(4096) - bytes.len();
    all.extend_from_slice(&[0; 4096][..more])?;
    Ok(all)
}

fn put_leaf<B: Blocks>(alloc: Global, store: &mut B, bytes: &[u8; 4096]) -> Result<Bptr, StoreErr>
    ensures follows { (start : B) → B.follows start store.old → B.follows start store.new }
    ensures adds { (start : B) → B.adds start store.old → OnOk result (B.adds start store.new) }
    ensures costs { Costs 1 0 (B.account store.old) (B.account store.new) }
    ensures cause { HasCause 1 (B.account store.old) (B.account store.new) result }
    ensures errors { (s : Stored) → TellsOf s [] result }
    ensures unit { IfOk result (IsUnitAt 0) }
    ensures sum { IfOk result (λ b. b.sum ≡ sha256 bytes.now) }
    ensures puts { (s : Stored) → B.holds store.old s → IfOk result (λ b. Now (B.holds store.new) (Puts s b bytes.now)) }
{
    let b = store.put(alloc, bytes, 0)?;
    Ok(b)
}

/// A leaf of each of these.
pub(crate) fn put_leaves<B: Blocks>(
    alloc: Global,
    store: &mut B,
    pieces: &[[u8; 4096]],
) -> Result<Vec<Bptr>, StoreErr>
    ensures follows { (start : B) → B.follows start store.old → B.follows start store.new }
    ensures adds { (start : B) → B.adds start store.old → OnOk result (B.adds start store.new) }
    ensures costs { Costs (length pieces.now) 0 (B.account store.old) (B.account store.new) }
    ensures cause { HasCause (length pieces.now) (B.account store.old) (B.account store.new) result }
    ensures errors { (s : Stored) → TellsOf s [] result }
    ensures count { IfOk result (λ leaves. length leaves.items ≡ length pieces.now) }
    ensures units { IfOk result (λ leaves. All (IsUnitAt 0) leaves.items) }
    ensures puts { (s : Stored) → B.holds store.old s → IfOk result (λ leaves. Now (B.holds store.new) (λ n. PutsLeaves pieces.now s n leaves.items)) }
{
    let mut leaves = Vec::new(alloc);
    for piece in pieces {
        let b = put_leaf(alloc, store, piece)?;
        leaves.push(b)?;
    }
    Ok(leaves)
}

/// Stores the bytes as a tree, and answers it.
pub fn write_bytes<B: Blocks>(alloc: Global, store: &mut B, bytes: &[u8]) -> Result<Tree, StoreErr>
    requires some { 0 < length bytes.now }
    requires most { length bytes.now ≤ 2 ^ 37 }
    ensures follows { (start : B) → B.follows start store.old → B.follows start store.new }
    ensures adds { (start : B) → B.adds start store.old → OnOk result (B.adds start store.new) }
    ensures costs { Costs (tree_units (div_ceil (length bytes.now) 4096)) 0 (B.account store.old) (B.account store.new) }
    ensures cause { HasCause (tree_units (div_ceil (length bytes.now) 4096)) (B.account store.old) (B.account store.new) result }
    ensures errors { (s : Stored) → TellsOf s [] result }
    ensures height { IfOk result (λ t. IsHeight (div_ceil (length bytes.now) 4096) t.height) }
    ensures root { IfOk result (λ t. (b : Bptr) × (t.root ≡ At b) × IsUnitAt t.height b) }
    ensures stores { (s : Stored) → B.holds store.old s → IfOk result (λ t. Now (B.holds store.new) (λ n. StoresBytes s n t bytes.now)) }
{
    let all = padded(alloc, bytes)?;
    let (pieces, _) = all.as_slice().as_chunks::<4096>();
    let leaves = put_leaves(alloc, store, pieces)?;
    let t = join(alloc, store, 0, leaves.as_slice())?;
    Ok(t)
}

/// Stores the bytes of a head, and answers the root of their tree, whose height follows from their number.
pub fn write_root<B: Blocks>(alloc: Global, store: &mut B, bytes: &[u8]) -> Result<Ptr, StoreErr>
    requires some { 0 < length bytes.now }
    requires most { length bytes.now ≤ 2 ^ 37 }
    ensures follows { (start : B) → B.follows start store.old → B.follows start store.new }
    ensures adds { (start : B) → B.adds start store.old → OnOk result (B.adds start store.new) }
    ensures costs { Costs (tree_units (div_ceil (length bytes.now) 4096)) 0 (B.account store.old) (B.account store.new) }
    ensures cause { HasCause (tree_units (div_ceil (length bytes.now) 4096)) (B.account store.old) (B.account store.new) result }
    ensures errors { (s : Stored) → TellsOf s [] result }
    ensures root { IfOk result (λ root. (height : ℕ) → IsHeight (div_ceil (length bytes.now) 4096) height → (b : Bptr) × (root ≡ At b) × IsUnitAt height b) }
    ensures stores { (s : Stored) → B.holds store.old s → IfOk result (λ root. (height : ℕ) → IsHeight (div_ceil (length bytes.now) 4096) height → Now (B.holds store.new) (λ n. StoresBytes s n (record { root = root; height = height }) bytes.now)) }
{
    let t = write_bytes(alloc, store, bytes)?;
    Ok(t.root)
}
