//! Reading strings of bytes and streams back.
//!
//! Each block is checked: its sum by the store, its place and its form here. A hole within, a leaf of another length
//! and padding that is not zero are refused. The time is linear in the bytes.
ghost use Rattle.std.specs.Prelude.{◌≡◌, ◌≢◌, ◌+◌, ◌*◌, ◌-◌, ◌/◌, ◌^◌, ◌<◌, ◌≤◌, ◌↔◌, List, [], ◌∷◌, ℕ, length, drop, All, IfOk, IsTrue};
ghost use Rattle.std.specs.Int.{div_ceil};
ghost use Rattle.sha2.specs.Sha256.{sha256};
ghost use Rattle.zr_base.specs.Trees.{IsHeight};
ghost use Rattle.zr_base.specs.Words.{words, zeros};
ghost use Rattle.zr_bptr.specs.declared.Bptr.{Bptr};
ghost use Rattle.zr_bptr.specs.declared.Ptr.TheVariants.{At};
ghost use Rattle.zr_store.specs.Causes.{Costs, HasCause};
ghost use Rattle.zr_store.specs.Store.{Stored};
ghost use Rattle.zr_store.specs.declared.StoreErr.TheVariants.{Malformed};
ghost use Rattle.zr_meta.specs.Heads.{IsStream};
ghost use Rattle.zr_tree.specs.Trees.{tree_reach};
ghost use Rattle.zr_root.specs.Streams.{IsUnitAt, IsRootOf, HasBytes, HasWords};
ghost use Rattle.zr_root.specs.Levels.{TellsOfForm, ReadsLeaves};

use crate::down::level_of;
use std::alloc::{AllocError, Global};
use zr_bptr::{Bptr, Ptr, Tree};
use zr_meta::Stream;
use zr_store::{Blocks, StoreErr};

fn are_zeros(bytes: &[u8]) -> bool
    ensures { IsTrue result ↔ (bytes.now ≡ zeros (length bytes.now)) }
{
    bytes.iter().all(|b| *b == 0)
}

/// Whether zeros alone stand behind so many bytes.
pub(crate) fn is_padded(bytes: &[u8], len: usize) -> bool
    requires { len ≤ length bytes.now }
    ensures { IsTrue result ↔ (drop len bytes.now ≡ zeros (length (drop len bytes.now))) }
{
    are_zeros(&bytes[len..])
}

pub(crate) fn malformed(b: &Bptr) -> StoreErr
    ensures { result ≡ Malformed b.now.at b.now.sum }
{
    StoreErr::Malformed {
        at: b.at,
        expected: b.sum,
    }
}

pub(crate) fn read_leaf<B: Blocks>(
    alloc: Global,
    store: &mut B,
    b: &Bptr,
) -> Result<Vec<u8>, StoreErr>
    ensures follows { (start : B) → B.follows start store.old → B.follows start store.new }
    ensures costs { Costs 0 0 (B.account store.old) (B.account store.new) }
    ensures cause { HasCause 0 (B.account store.old) (B.account store.new) result }
    ensures same { (s : Stored) → B.holds store.old s → B.holds store.new s }
    ensures errors { (s : Stored) → B.holds store.old s → TellsOfForm s (b.now ∷ []) (λ x. length (s.bytes b.now) ≢ 4096) result }
    ensures len { IfOk result (λ bytes. length bytes.items ≡ 4096) }
    ensures sum { IfOk result (λ bytes. sha256 bytes.items ≡ b.now.sum) }
    ensures bytes { (s : Stored) → B.holds store.old s → IfOk result (λ bytes. bytes.items ≡ s.bytes b.now) }
{
    let bytes = store.get(alloc, b)?;
    if bytes.len() != 4096 {
        return Err(StoreErr::Malformed {
            at: b.at,
            expected: b.sum,
        });
    }
    Ok(bytes)
}

/// The bytes of leaves of one unit, one leaf's behind the other's.
pub(crate) fn read_leaves<B: Blocks>(
    alloc: Global,
    store: &mut B,
    leaves: &[Bptr],
) -> Result<Vec<u8>, StoreErr>
    ensures follows { (start : B) → B.follows start store.old → B.follows start store.new }
    ensures costs { Costs 0 0 (B.account store.old) (B.account store.new) }
    ensures cause { HasCause 0 (B.account store.old) (B.account store.new) result }
    ensures same { (s : Stored) → B.holds store.old s → B.holds store.new s }
    ensures errors { (s : Stored) → B.holds store.old s → TellsOfForm s leaves.now (λ x. ¬ All (λ b. length (s.bytes b) ≡ 4096) leaves.now) result }
    ensures len { IfOk result (λ bytes. length bytes.items ≡ 4096 * length leaves.now) }
    ensures reads { (s : Stored) → B.holds store.old s → IfOk result (λ bytes. ReadsLeaves s leaves.now bytes.items) }
{
    let mut all = Vec::new(alloc);
    for b in leaves {
        let bytes = read_leaf(alloc, store, b)?;
        all.extend_from_slice(bytes.as_slice())?;
    }
    Ok(all)
}

/// The `len` bytes that stand in a tree.
pub fn read_bytes<B: Blocks>(
    alloc: Global,
    store: &mut B,
    t: &Tree,
    len: u64,
) -> Result<Vec<u8>, StoreErr>
    requires some { 0 < len }
    requires most { len ≤ 2 ^ 37 }
    requires tall { t.now.height ≤ 5 }
    requires height { IsHeight (div_ceil len 4096) t.now.height }
    requires root { IsRootOf t.now.height t.now.root }
    ensures follows { (start : B) → B.follows start store.old → B.follows start store.new }
    ensures costs { Costs 0 0 (B.account store.old) (B.account store.new) }
    ensures cause { HasCause 0 (B.account store.old) (B.account store.new) result }
    ensures same { (s : Stored) → B.holds store.old s → B.holds store.new s }
    ensures errors { (s : Stored) → B.holds store.old s → TellsOfForm s (tree_reach s t.now) (λ b. (bytes : List ℕ) → length bytes ≡ len → ¬ HasBytes s t.now bytes) result }
    ensures len { IfOk result (λ bytes. length bytes.items ≡ len) }
    ensures bytes { (s : Stored) → B.holds store.old s → IfOk result (λ bytes. HasBytes s t.now bytes.items) }
{
    let Ptr::At(root) = &t.root else {
        return Ok(Vec::new(alloc));
    };
    let n = len.div_ceil(4096) as usize;
    let len = len as usize;
    let leaves = level_of(alloc, store, root, t.height, 0, n)?;
    let bs = leaves.as_slice();
    let mut bytes = read_leaves(alloc, store, bs)?;
    if !is_padded(bytes.as_slice(), len) {
        let last = bs[n - 1];
        return Err(malformed(&last));
    }
    bytes.truncate(len);
    Ok(bytes)
}

/// The words of bytes.
fn words_of(alloc: Global, bytes: &[u8]) -> Result<Vec<u64>, AllocError>
    ensures words { (n : ℕ) → length bytes.now ≡ 8 * n → IfOk result (λ ns. (words ns.items ≡ bytes.now) × (length ns.items ≡ n)) }
{
    let (pieces, _) = bytes.as_chunks::<8>();
    let mut ns = Vec::new(alloc);
    for piece in pieces {
        ns.push(u64::from_le_bytes(*piece))?;
    }
    Ok(ns)
}

/// The words of a stream.
pub fn read_stream<B: Blocks>(
    alloc: Global,
    store: &mut B,
    stream: &Stream,
) -> Result<Vec<u64>, StoreErr>
    requires most { stream.now.words ≤ 2 ^ 34 }
    requires stream { IsStream stream.now }
    ensures follows { (start : B) → B.follows start store.old → B.follows start store.new }
    ensures costs { Costs 0 0 (B.account store.old) (B.account store.new) }
    ensures cause { HasCause 0 (B.account store.old) (B.account store.new) result }
    ensures same { (s : Stored) → B.holds store.old s → B.holds store.new s }
    ensures errors { (s : Stored) → B.holds store.old s → TellsOfForm s (tree_reach s stream.now.tree) (λ b. (ns : List ℕ) → ¬ HasWords s stream.now ns) result }
    ensures words { (s : Stored) → B.holds store.old s → IfOk result (λ ns. HasWords s stream.now ns.items) }
{
    if stream.words == 0 {
        return Ok(Vec::new(alloc));
    }
    let bytes = read_bytes(alloc, store, &stream.tree, 8 * stream.words)?;
    let ns = words_of(alloc, bytes.as_slice())?;
    Ok(ns)
}
