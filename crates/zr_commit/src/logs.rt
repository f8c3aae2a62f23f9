//! Writing the streams of a device: the log of a set, and a late set.
//!
//! A log that grew is appended to, so its full leaves stay where they are. Only when it has become much longer than the
//! set itself needs is the set written anew in its place, so each word is written about twice in all. A late set is short
//! lived and is always written anew.
ghost use Rattle.std.specs.Prelude.{◌≡◌, ◌⊎◌, ◌+◌, ◌*◌, ◌^◌, ◌<◌, ◌≤◌, List, [], ℕ, length, All, IfOk, OnOk};
ghost use Rattle.std.specs.Int.{div_ceil};
ghost use Rattle.zr_base.specs.Trees.{tree_units};
ghost use Rattle.zr_rules.specs.Owed.{set_words};
ghost use Rattle.zr_smap.specs.Cuts.{IsInReach};
ghost use Rattle.zr_store.specs.Causes.{Costs, HasCause};
ghost use Rattle.zr_store.specs.Store.{Stored, Now, AreStored, Swaps};
ghost use Rattle.zr_tree.specs.Trees.{tree_reach, tree_blocks, TellsOf};
ghost use Rattle.zr_meta.specs.Heads.{IsStream};
ghost use Rattle.zr_root.specs.Streams.{HasWords};
ghost use Rattle.zr_root.specs.Appends.{Appends, TellsOfStream};
ghost use Rattle.zr_commit.specs.Logs.{Rewrites, RewritesSet, StoresLate, streams_reach, log_puts, log_frees, log_words};

use crate::trees::free_tree;
use std::alloc::Global;
use zr_meta::{Stream, late_words};
use zr_ranges::RangeSet;
use zr_root::{append, write_stream};
use zr_smap::{condensed, needs_anew};
use zr_store::{Blocks, StoreErr};

/// Gives back the blocks of streams, one stream after another. After an error some of them may have been given back.
pub fn free_streams<B: Blocks>(
    alloc: Global,
    store: &mut B,
    streams: &[Stream],
) -> Result<(), StoreErr>
    requires { All IsStream streams.now }
    ensures follows { (start : B) → B.follows start store.old → B.follows start store.new }
    ensures puts { (frees : ℕ) × Costs 0 frees (B.account store.old) (B.account store.new) }
    ensures costs { (s : Stored) → B.holds store.old s → AreStored (streams_reach s streams.now) s → Costs 0 (length (streams_reach s streams.now)) (B.account store.old) (B.account store.new) }
    ensures cause { HasCause 0 (B.account store.old) (B.account store.new) result }
    ensures errors { (s : Stored) → B.holds store.old s → AreStored (streams_reach s streams.now) s → TellsOf s (streams_reach s streams.now) result }
    ensures swaps { (s : Stored) → B.holds store.old s → AreStored (streams_reach s streams.now) s → OnOk result (Now (B.holds store.new) (λ n. Swaps s n (streams_reach s streams.now) [])) }
{
    for stream in streams {
        free_tree(alloc, store, &stream.tree)?;
    }
    Ok(())
}

/// Stores words as a stream in place of another one, whose blocks are given back first. After an error the old stream is
/// not to be read on, since some of its blocks may have been given back.
pub fn write_anew<B: Blocks>(
    alloc: Global,
    store: &mut B,
    old: &Stream,
    words: &[u64],
) -> Result<Stream, StoreErr>
    requires stream { IsStream old.now }
    requires most { length words.now ≤ 2 ^ 34 }
    ensures follows { (start : B) → B.follows start store.old → B.follows start store.new }
    ensures puts { (frees : ℕ) × Costs (tree_units (div_ceil (length words.now) 512)) frees (B.account store.old) (B.account store.new) }
    ensures costs { (s : Stored) → B.holds store.old s → Costs (tree_units (div_ceil (length words.now) 512)) (length (tree_reach s old.now.tree)) (B.account store.old) (B.account store.new) }
    ensures cause { HasCause (tree_units (div_ceil (length words.now) 512)) (B.account store.old) (B.account store.new) result }
    ensures errors { (s : Stored) → B.holds store.old s → TellsOf s (tree_blocks s old.now.tree) result }
    ensures stream { IfOk result IsStream }
    ensures count { IfOk result (λ stream. stream.words ≡ length words.now) }
    ensures writes { (s : Stored) → B.holds store.old s → AreStored (tree_reach s old.now.tree) s → IfOk result (λ stream. Now (B.holds store.new) (λ n. Rewrites s n old.now stream words.now)) }
{
    free_tree(alloc, store, &old.tree)?;
    write_stream(alloc, store, words)
}

/// Stores the log of a set to which words were added. Where none were, its stream stays. Where the log would have more
/// than twice the words of the set and 512 more, the set is written anew in its place, and the words are appended
/// otherwise. No more blocks are put than the new stream has, also where the answer is an error. After an error the old
/// stream is not to be read on.
pub fn write_log<B: Blocks>(
    alloc: Global,
    store: &mut B,
    old: &Stream,
    added: &[u64],
    set: &RangeSet,
    version: u64,
    dev: u32,
) -> Result<Stream, StoreErr>
    requires version { (version ≡ 1) ⊎ (version ≡ 2) }
    requires dev { dev < 32 }
    requires reach { IsInReach version set.now.extents }
    requires stream { IsStream old.now }
    requires added { length added.now < 2 ^ 40 }
    requires most { 2 * set_words version set.now.extents + 512 ≤ 2 ^ 34 }
    ensures follows { (start : B) → B.follows start store.old → B.follows start store.new }
    ensures puts { (frees : ℕ) × Costs (log_puts old.now.words (length added.now) (set_words version set.now.extents)) frees (B.account store.old) (B.account store.new) }
    ensures costs { (s : Stored) → B.holds store.old s → Costs (log_puts old.now.words (length added.now) (set_words version set.now.extents)) (log_frees old.now.words (length added.now) (set_words version set.now.extents) (length (tree_reach s old.now.tree))) (B.account store.old) (B.account store.new) }
    ensures cause { HasCause (log_puts old.now.words (length added.now) (set_words version set.now.extents)) (B.account store.old) (B.account store.new) result }
    ensures whole { (frees : ℕ) × Costs (tree_units (div_ceil (log_words old.now.words (length added.now) (set_words version set.now.extents)) 512)) frees (B.account store.old) (B.account store.new) }
    ensures whole_cause { HasCause (tree_units (div_ceil (log_words old.now.words (length added.now) (set_words version set.now.extents)) 512)) (B.account store.old) (B.account store.new) result }
    ensures whole_stream { IfOk result (λ stream. (frees : ℕ) × Costs (tree_units (div_ceil stream.words 512)) frees (B.account store.old) (B.account store.new)) }
    ensures errors { (s : Stored) → B.holds store.old s → AreStored (tree_reach s old.now.tree) s → TellsOfStream s old.now result }
    ensures stream { IfOk result IsStream }
    ensures stays { length added.now ≡ 0 → IfOk result (λ stream. stream ≡ old.now) }
    ensures same { (s : Stored) → B.holds store.old s → length added.now ≡ 0 → B.holds store.new s }
    ensures count_anew { 0 < length added.now → 2 * set_words version set.now.extents + 512 < old.now.words + length added.now → IfOk result (λ stream. stream.words ≡ set_words version set.now.extents) }
    ensures count_appended { 0 < length added.now → old.now.words + length added.now ≤ 2 * set_words version set.now.extents + 512 → IfOk result (λ stream. stream.words ≡ old.now.words + length added.now) }
    ensures anew { (s : Stored) → B.holds store.old s → AreStored (tree_reach s old.now.tree) s → 0 < length added.now → 2 * set_words version set.now.extents + 512 < old.now.words + length added.now → IfOk result (λ stream. Now (B.holds store.new) (λ n. RewritesSet version dev set.now.extents s n old.now stream)) }
    ensures appends { (s : Stored) → B.holds store.old s → AreStored (tree_reach s old.now.tree) s → (ns : List ℕ) → HasWords s old.now ns → 0 < length added.now → old.now.words + length added.now ≤ 2 * set_words version set.now.extents + 512 → IfOk result (λ stream. Now (B.holds store.new) (λ n. Appends s n old.now stream ns added.now)) }
{
    if added.is_empty() {
        return Ok(*old);
    }
    let anew = condensed(alloc, set, version, dev)?;
    if needs_anew(old.words, added.len() as u64, anew.len() as u64) {
        return write_anew(alloc, store, old, anew.as_slice());
    }
    append(alloc, store, old, added)
}

/// Stores the late set of a device: the units of blocks that a group freed, and those of metadata. The old late stream is
/// the caller's to give back, which is done for all devices before any late set is written.
pub fn write_late<B: Blocks>(
    alloc: Global,
    store: &mut B,
    blocks: &RangeSet,
    meta: &RangeSet,
    version: u64,
    dev: u32,
) -> Result<Stream, StoreErr>
    requires version { (version ≡ 1) ⊎ (version ≡ 2) }
    requires dev { dev < 32 }
    requires blocks { IsInReach version blocks.now.extents }
    requires meta { IsInReach version meta.now.extents }
    requires most { set_words version blocks.now.extents + set_words version meta.now.extents ≤ 2 ^ 34 }
    ensures follows { (start : B) → B.follows start store.old → B.follows start store.new }
    ensures costs { Costs (tree_units (div_ceil (set_words version blocks.now.extents + set_words version meta.now.extents) 512)) 0 (B.account store.old) (B.account store.new) }
    ensures cause { HasCause (tree_units (div_ceil (set_words version blocks.now.extents + set_words version meta.now.extents) 512)) (B.account store.old) (B.account store.new) result }
    ensures errors { (s : Stored) → TellsOf s [] result }
    ensures stream { IfOk result IsStream }
    ensures count { IfOk result (λ stream. stream.words ≡ set_words version blocks.now.extents + set_words version meta.now.extents) }
    ensures stores { (s : Stored) → B.holds store.old s → IfOk result (λ stream. Now (B.holds store.new) (λ n. StoresLate version dev blocks.now.extents meta.now.extents s n stream)) }
{
    let words = late_words(alloc, blocks, meta, version, dev)?;
    write_stream(alloc, store, words.as_slice())
}
