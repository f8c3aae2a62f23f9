//! Streams of words: a number of words, and the tree of their bytes.
//!
//! A word is eight bytes, the lowest first, so a leaf has 512 words. The time is linear in the words.
ghost use Rattle.std.specs.Prelude.{◌≡◌, ◌+◌, ◌*◌, ◌-◌, ◌/◌, ◌^◌, ◌<◌, ◌≤◌, List, [], ℕ, length, map, IfOk, OnOk};
ghost use Rattle.std.specs.Int.{div_ceil};
ghost use Rattle.zr_base.specs.Trees.{tree_units};
ghost use Rattle.zr_base.specs.Words.{words};
ghost use Rattle.zr_bptr.specs.Spelling.{IsTree};
ghost use Rattle.zr_store.specs.Causes.{Costs, HasCause};
ghost use Rattle.zr_store.specs.Store.{Stored, Now};
ghost use Rattle.zr_meta.specs.Heads.{IsStream};
ghost use Rattle.zr_tree.specs.Trees.{tree_reach, tree_blocks, TellsOf};
ghost use Rattle.zr_root.specs.Streams.{StoresWords};

use crate::bytes::write_bytes;
use std::alloc::{AllocError, Global};
use zr_base::Dva;
use zr_bptr::{Bptr, Ptr, Tree};
use zr_meta::Stream;
use zr_store::{Blocks, StoreErr};
use zr_tree::walk;

/// The bytes of words.
pub(crate) fn bytes_of(alloc: Global, ns: &[u64]) -> Result<Vec<u8>, AllocError>
    ensures bytes { IfOk result (λ bytes. bytes.items ≡ words ns.now) }
    ensures len { IfOk result (λ bytes. length bytes.items ≡ 8 * length ns.now) }
{
    let mut bytes = Vec::new(alloc);
    for n in ns {
        bytes.extend_from_slice(&n.to_le_bytes())?;
    }
    Ok(bytes)
}

/// Stores words as a stream.
pub fn write_stream<B: Blocks>(alloc: Global, store: &mut B, ns: &[u64]) -> Result<Stream, StoreErr>
    requires most { length ns.now ≤ 2 ^ 34 }
    ensures follows { (start : B) → B.follows start store.old → B.follows start store.new }
    ensures adds { (start : B) → B.adds start store.old → OnOk result (B.adds start store.new) }
    ensures costs { Costs (tree_units (div_ceil (length ns.now) 512)) 0 (B.account store.old) (B.account store.new) }
    ensures cause { HasCause (tree_units (div_ceil (length ns.now) 512)) (B.account store.old) (B.account store.new) result }
    ensures errors { (s : Stored) → TellsOf s [] result }
    ensures stream { IfOk result IsStream }
    ensures count { IfOk result (λ stream. stream.words ≡ length ns.now) }
    ensures stores { (s : Stored) → B.holds store.old s → IfOk result (λ stream. Now (B.holds store.new) (λ n. StoresWords s n stream ns.now)) }
{
    if ns.is_empty() {
        return Ok(Stream {
            words: 0,
            tree: Tree {
                root: Ptr::Hole,
                height: 0,
            },
        });
    }
    let bytes = bytes_of(alloc, ns)?;
    let tree = write_bytes(alloc, store, bytes.as_slice())?;
    Ok(Stream {
        words: ns.len() as u64,
        tree,
    })
}

/// The addresses of these blocks.
pub(crate) fn addresses(alloc: Global, bs: &[Bptr]) -> Result<Vec<Dva>, AllocError>
    ensures { IfOk result (λ ats. ats.items ≡ map (λ b. b.at) bs.now) }
{
    bs.iter().map(|b| b.at).collect(alloc)
}

/// The addresses of the blocks of a stream, each block before what lies below it.
pub fn stream_units<B: Blocks>(
    alloc: Global,
    store: &mut B,
    stream: &Stream,
) -> Result<Vec<Dva>, StoreErr>
    requires { IsTree stream.now.tree }
    ensures follows { (start : B) → B.follows start store.old → B.follows start store.new }
    ensures costs { Costs 0 0 (B.account store.old) (B.account store.new) }
    ensures cause { HasCause 0 (B.account store.old) (B.account store.new) result }
    ensures errors { (s : Stored) → B.holds store.old s → TellsOf s (tree_blocks s stream.now.tree) result }
    ensures same { (s : Stored) → B.holds store.old s → B.holds store.new s }
    ensures units { (s : Stored) → B.holds store.old s → IfOk result (λ ats. ats.items ≡ map (λ b. b.at) (tree_reach s stream.now.tree)) }
{
    let bs = walk(alloc, store, &stream.tree)?;
    let ats = addresses(alloc, bs.as_slice())?;
    Ok(ats)
}
