//! Appending to a stream.
//!
//! The full leaves stay where they are. What stands in a last leaf that is not full is put anew with the words that
//! come, and so are the tree blocks on the way to the new leaves; the old ones are given back.
ghost use Rattle.std.specs.Prelude.{◌≡◌, ◌+◌, ◌*◌, ◌-◌, ◌/◌, ◌%◌, ◌^◌, ◌<◌, ◌≤◌, ◌++◌, List, [], ◌∷◌, ℕ, length, All, IfOk, OnOk};
ghost use Rattle.std.specs.Int.{div_ceil};
ghost use Rattle.zr_base.specs.Trees.{tree_units};
ghost use Rattle.zr_bptr.specs.declared.Ptr.TheVariants.{Hole};
ghost use Rattle.zr_store.specs.Causes.{Account, Costs, HasCause};
ghost use Rattle.zr_store.specs.Store.{Stored, Now, AreStored, Swaps};
ghost use Rattle.zr_meta.specs.Heads.{IsStream};
ghost use Rattle.zr_tree.specs.Trees.{tree_at, tree_reach, TellsOf, own};
ghost use Rattle.zr_root.specs.Streams.{IsUnitAt, HasWords};
ghost use Rattle.zr_root.specs.Appends.{Appends, IsLastLeaf, IsTail, PutsBytes, TellsOfStream, changes_from, leaves_anew};

use crate::bytes::{padded, put_leaves};
use crate::reads::{is_padded, malformed, read_leaf};
use crate::streams::bytes_of;
use std::alloc::{AllocError, Global};
use zr_bptr::{Bptr, Ptr};
use zr_meta::Stream;
use zr_store::{Blocks, StoreErr};
use zr_tree::{get, set_all};

/// A last leaf that is not full, a hole where there is none, and the bytes of its words.
#[derive(Drop)]
struct Tail {
    leaf: Ptr,
    bytes: Vec<u8>,
}

/// No leaf has the place of the next word. So the last one is full, or a hole stands within the stream.
fn ends_full(stream: &Stream) -> Result<(), StoreErr>
    requires stream { IsStream stream.now }
    ensures cause { (before now : Account) → HasCause 0 before now result }
    ensures errors { (s : Stored) → tree_at s stream.now.tree (stream.now.words / 512) ≡ Hole → TellsOfStream s stream.now result }
    ensures full { OnOk result (stream.now.words % 512 ≡ 0) }
{
    match stream.tree.root {
        Ptr::At(root) if stream.words % 512 != 0 => Err(malformed(&root)),
        _ => Ok(()),
    }
}

/// What stands in a last leaf that is not full.
fn tail_of<B: Blocks>(alloc: Global, store: &mut B, stream: &Stream) -> Result<Tail, StoreErr>
    requires stream { IsStream stream.now }
    ensures follows { (start : B) → B.follows start store.old → B.follows start store.new }
    ensures costs { Costs 0 0 (B.account store.old) (B.account store.new) }
    ensures cause { HasCause 0 (B.account store.old) (B.account store.new) result }
    ensures same { (s : Stored) → B.holds store.old s → B.holds store.new s }
    ensures errors { (s : Stored) → B.holds store.old s → TellsOfStream s stream.now result }
    ensures len { IfOk result (λ tail. length tail.bytes.items ≡ 8 * (stream.now.words % 512)) }
    ensures last { (s : Stored) → B.holds store.old s → IfOk result (λ tail. IsLastLeaf s (8 * (stream.now.words % 512)) (tree_at s stream.now.tree (stream.now.words / 512))) }
    ensures tail { (s : Stored) → B.holds store.old s → (ns : List ℕ) → HasWords s stream.now ns → IfOk result (λ tail. IsTail s stream.now ns tail.leaf tail.bytes.items) }
{
    let leaf = get(alloc, store, &stream.tree, stream.words / 512)?;
    let Ptr::At(b) = leaf else {
        ends_full(stream)?;
        return Ok(Tail {
            leaf,
            bytes: Vec::new(alloc),
        });
    };
    let len = 8 * (stream.words % 512) as usize;
    let mut bytes = read_leaf(alloc, store, &b)?;
    if !is_padded(bytes.as_slice(), len) {
        return Err(malformed(&b));
    }
    bytes.truncate(len);
    Ok(Tail { leaf, bytes })
}

/// The changes that set these leaves, the first one at this index.
fn changes_from(alloc: Global, first: u64, leaves: &[Bptr]) -> Result<Vec<(u64, Ptr)>, AllocError>
    requires { first + length leaves.now ≤ 2 ^ 25 }
    ensures { IfOk result (λ changes. changes.items ≡ changes_from first leaves.now) }
{
    let mut changes = Vec::new(alloc);
    let mut index = first;
    for b in leaves {
        changes.push((index, Ptr::At(*b)))?;
        index += 1;
    }
    Ok(changes)
}

/// Puts bytes as leaves, the last one padded.
fn put_bytes<B: Blocks>(alloc: Global, store: &mut B, bytes: &[u8]) -> Result<Vec<Bptr>, StoreErr>
    requires most { length bytes.now ≤ 2 ^ 37 }
    ensures follows { (start : B) → B.follows start store.old → B.follows start store.new }
    ensures costs { Costs (div_ceil (length bytes.now) 4096) 0 (B.account store.old) (B.account store.new) }
    ensures cause { HasCause (div_ceil (length bytes.now) 4096) (B.account store.old) (B.account store.new) result }
    ensures errors { (s : Stored) → TellsOf s [] result }
    ensures count { IfOk result (λ leaves. length leaves.items ≡ div_ceil (length bytes.now) 4096) }
    ensures units { IfOk result (λ leaves. All (IsUnitAt 0) leaves.items) }
    ensures puts { (s : Stored) → B.holds store.old s → IfOk result (λ leaves. Now (B.holds store.new) (λ n. PutsBytes bytes.now s n leaves.items)) }
{
    let all = padded(alloc, bytes)?;
    let (pieces, _) = all.as_slice().as_chunks::<4096>();
    let leaves = put_leaves(alloc, store, pieces)?;
    Ok(leaves)
}

/// Gives back a leaf, where there is one.
fn free_leaf<B: Blocks>(alloc: Global, store: &mut B, p: &Ptr) -> Result<(), StoreErr>
    ensures follows { (start : B) → B.follows start store.old → B.follows start store.new }
    ensures costs { Costs 0 1 (B.account store.old) (B.account store.new) }
    ensures cause { HasCause 0 (B.account store.old) (B.account store.new) result }
    ensures errors { (s : Stored) → TellsOf s [] result }
    ensures swaps { (s : Stored) → B.holds store.old s → AreStored (own p.now) s → OnOk result (Now (B.holds store.new) (λ n. Swaps s n (own p.now) [])) }
{
    match p {
        Ptr::Hole => Ok(()),
        Ptr::At(b) => store.free(alloc, b),
    }
}

/// Stores words behind those of a stream, also where there are none yet. Each full leaf stays where it is. A last leaf
/// that is not full and the tree blocks on the way are put anew and given back: for w words at most w / 512 + 2 leaves,
/// five tree blocks for each of them and four more, whatever the length of the stream. No more blocks are put than the
/// longer stream has, also where the answer is an error.
///
/// Malformed tells of a stream in which no words stand: padding that is not zeros among it. After an error the old tree
/// is not to be read on, since some of its blocks may have been given back.
pub fn append<B: Blocks>(
    alloc: Global,
    store: &mut B,
    stream: &Stream,
    ns: &[u64],
) -> Result<Stream, StoreErr>
    requires stream { IsStream stream.now }
    requires most { stream.now.words + length ns.now ≤ 2 ^ 34 }
    ensures follows { (start : B) → B.follows start store.old → B.follows start store.new }
    ensures costs { Costs (6 * leaves_anew stream.now.words (length ns.now) + 4) (5 * leaves_anew stream.now.words (length ns.now) + 1) (B.account store.old) (B.account store.new) }
    ensures cause { HasCause (6 * leaves_anew stream.now.words (length ns.now) + 4) (B.account store.old) (B.account store.new) result }
    ensures whole { Costs (tree_units (div_ceil (stream.now.words + length ns.now) 512)) (5 * leaves_anew stream.now.words (length ns.now) + 1) (B.account store.old) (B.account store.new) }
    ensures whole_cause { HasCause (tree_units (div_ceil (stream.now.words + length ns.now) 512)) (B.account store.old) (B.account store.new) result }
    ensures errors { (s : Stored) → B.holds store.old s → AreStored (tree_reach s stream.now.tree) s → TellsOfStream s stream.now result }
    ensures stream { IfOk result IsStream }
    ensures last { (s : Stored) → B.holds store.old s → 0 < length ns.now → IfOk result (λ now. IsLastLeaf s (8 * (stream.now.words % 512)) (tree_at s stream.now.tree (stream.now.words / 512))) }
    ensures count { IfOk result (λ now. now.words ≡ stream.now.words + length ns.now) }
    ensures appends { (s : Stored) → B.holds store.old s → (old : List ℕ) → AreStored (tree_reach s stream.now.tree) s → HasWords s stream.now old → IfOk result (λ now. Now (B.holds store.new) (λ n. Appends s n stream.now now old ns.now)) }
{
    if ns.is_empty() {
        return Ok(*stream);
    }
    let Tail { leaf, mut bytes } = tail_of(alloc, store, stream)?;
    let more = bytes_of(alloc, ns)?;
    bytes.extend_from_slice(more.as_slice())?;
    let leaves = put_bytes(alloc, store, bytes.as_slice())?;
    let changes = changes_from(alloc, stream.words / 512, leaves.as_slice())?;
    let tree = set_all(alloc, store, &stream.tree, changes.as_slice())?;
    free_leaf(alloc, store, &leaf)?;
    Ok(Stream {
        words: stream.words + ns.len() as u64,
        tree,
    })
}
