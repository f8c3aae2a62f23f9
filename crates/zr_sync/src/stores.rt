//! The device calls of a commit, each with a store of its own.
//!
//! A store borrows the space, the disks and the cache. With its end they go on, and what it left alone is said of them.
ghost use Rattle.std.specs.Prelude.{◌≡◌, ℕ, ◌≤◌, ◌*◌, ◌^◌, List, [], ◌++◌, All, length, None, IfOk, OnOk, IsErrOf};
ghost use Rattle.zr_base.specs.Counts.{HasRisen};
ghost use Rattle.zr_bptr.specs.Spelling.{IsTree};
ghost use Rattle.zr_commit.specs.Logs.{Rewrites, streams_reach};
ghost use Rattle.zr_commit.specs.Objects.{blocks_of, WritesGroup};
ghost use Rattle.zr_label.specs.Blocks.{IsMetaRoot};
ghost use Rattle.zr_lookup.specs.Groups.{IsLawfulGroup};
ghost use Rattle.zr_meta.specs.Heads.{IsStream, IsHead, head_words};
ghost use Rattle.zr_root.specs.Streams.{HasWords, StoresWords};
ghost use Rattle.zr_rules.specs.Equation.{devices_in};
ghost use Rattle.zr_store.specs.Store.{AreStored, Now, Stored, Swaps};
ghost use Rattle.zr_store.specs.declared.StoreErr.TheVariants.{Failed};
ghost use Rattle.zr_tree.specs.Trees.{tree_reach};
ghost use Rattle.zr_vdev.specs.Mounts.{AreMounted};
ghost use Rattle.zr_vdev.specs.Runs.{view_of};
ghost use Rattle.zr_commit.specs.Heads.{StoresHead};
ghost use Rattle.zr_vdev.specs.Stores.{Continues, HoldsBlocks, WaitsStill};
ghost use Rattle.zr_vdev.specs.declared.kind.Kind.TheVariants.{Meta};
ghost use Rattle.zr_sync.specs.Anew.{HasCountOf};
ghost use Rattle.zr_sync.specs.Heads.{LiesInMetadata, StandsHead};
ghost use Rattle.zr_sync.specs.Words.{HasRoomFor, words_then};
ghost use Rattle.zr_sync.specs.declared.stop.Stop.TheVariants.{DiskFault};

use crate::stop::Stop;
use crate::words::LogWords;
use std::alloc::Global;
use zr_base::DevRow;
use zr_bptr::{Ptr, Tree};
use zr_cache::Cache;
use zr_commit::{free_streams, free_tree, write_anew, write_group, write_head};
use zr_meta::{Head, Stream};
use zr_root::{append, write_stream};
use zr_shelf::Shelf;
use zr_space::Space;
use zr_store::{Blocks, StoreErr};
use zr_txg::Group;
use zr_vdev::{Mount, Place, Vdev};

/// Writes the trees of a group's changed objects, and then the directory.
pub fn put_group<S: Shelf, P: Place>(
    alloc: Global,
    space: &mut Space,
    shelf: &mut S,
    cache: &mut Cache,
    mount: Mount<P>,
    dir: &Tree,
    changed: &Group,
) -> Result<Tree, Stop>
    requires mounted { AreMounted (S.sizes shelf.old) mount.slots.now (devices_in space.old) }
    requires group { 1 ≤ mount.txg }
    requires dir { IsTree dir.now }
    requires low { dir.now.height ≤ 3 }
    requires changed { IsLawfulGroup changed.now }
    ensures continues { Continues mount.entry.kind mount.entry.slots.now (S.sizes shelf.old) (S.sizes shelf.new) (S.counts shelf.old) (S.counts shelf.new) (S.tells shelf.old) (S.tells shelf.new) (S.world shelf.old) (S.world shelf.new) space.old space.new cache.old cache.new }
    ensures fault { IsErrOf result DiskFault → HasRisen (S.counts shelf.old).disk (S.counts shelf.new).disk }
    ensures tree { IfOk result IsTree }
    ensures low { IfOk result (λ t. t.height ≤ 3) }
    ensures writes { (s : Stored) → HoldsBlocks mount.entry.kind mount.entry.slots.now (S.tells shelf.old) (S.world shelf.old).now.seen space.old None cache.old s → AreStored (blocks_of s changed.now.objects ++ tree_reach s dir.now) s → IfOk result (λ u. Now (HoldsBlocks mount.entry.kind mount.entry.slots.now (S.tells shelf.new) (S.world shelf.new).now.seen space.new None cache.new) (λ n. WritesGroup s n changed.now dir.now u)) }
{
    let mut store = Vdev::new(space, shelf, cache, mount);
    Ok(write_group(alloc, &mut store, dir, changed)?)
}

// Writes what a log becomes.
fn put_log_words<B: Blocks>(
    alloc: Global,
    store: &mut B,
    old: &Stream,
    words: &LogWords,
) -> Result<Stream, StoreErr>
    requires stream { IsStream old.now }
    requires room { HasRoomFor old.now words.now }
    ensures follows { (start : B) → B.follows start store.old → B.follows start store.new }
    ensures failed { IsErrOf result Failed → HasRisen (B.account store.old).faults (B.account store.new).faults }
    ensures stream { IfOk result IsStream }
    ensures count { IfOk result (HasCountOf words.now) }
    ensures writes { (s : Stored) (had : List ℕ) → B.holds store.old s → AreStored (tree_reach s old.now.tree) s → HasWords s old.now had → IfOk result (λ now. Now (B.holds store.new) (λ n. Rewrites s n old.now now (words_then had words.now))) }
{
    match words {
        LogWords::Stays => Ok(*old),
        LogWords::Grows(added) => append(alloc, store, old, added.as_slice()),
        LogWords::Anew(anew) => write_anew(alloc, store, old, anew.as_slice()),
    }
}

/// Writes what a log becomes.
pub fn put_log<S: Shelf, P: Place>(
    alloc: Global,
    space: &mut Space,
    shelf: &mut S,
    cache: &mut Cache,
    mount: Mount<P>,
    old: &Stream,
    words: &LogWords,
) -> Result<Stream, Stop>
    requires mounted { AreMounted (S.sizes shelf.old) mount.slots.now (devices_in space.old) }
    requires group { 1 ≤ mount.txg }
    requires stream { IsStream old.now }
    requires room { HasRoomFor old.now words.now }
    ensures continues { Continues mount.entry.kind mount.entry.slots.now (S.sizes shelf.old) (S.sizes shelf.new) (S.counts shelf.old) (S.counts shelf.new) (S.tells shelf.old) (S.tells shelf.new) (S.world shelf.old) (S.world shelf.new) space.old space.new cache.old cache.new }
    ensures fault { IsErrOf result DiskFault → HasRisen (S.counts shelf.old).disk (S.counts shelf.new).disk }
    ensures stream { IfOk result IsStream }
    ensures count { IfOk result (HasCountOf words.now) }
    ensures writes { (s : Stored) (had : List ℕ) → HoldsBlocks mount.entry.kind mount.entry.slots.now (S.tells shelf.old) (S.world shelf.old).now.seen space.old None cache.old s → AreStored (tree_reach s old.now.tree) s → HasWords s old.now had → IfOk result (λ now. Now (HoldsBlocks mount.entry.kind mount.entry.slots.now (S.tells shelf.new) (S.world shelf.new).now.seen space.new None cache.new) (λ n. Rewrites s n old.now now (words_then had words.now))) }
{
    let mut store = Vdev::new(space, shelf, cache, mount);
    Ok(put_log_words(alloc, &mut store, old, words)?)
}

/// Writes a stream of words.
pub fn put_words<S: Shelf, P: Place>(
    alloc: Global,
    space: &mut Space,
    shelf: &mut S,
    cache: &mut Cache,
    mount: Mount<P>,
    words: &[u64],
) -> Result<Stream, Stop>
    requires mounted { AreMounted (S.sizes shelf.old) mount.slots.now (devices_in space.old) }
    requires group { 1 ≤ mount.txg }
    requires words { length words.now ≤ 2 ^ 34 }
    ensures continues { Continues mount.entry.kind mount.entry.slots.now (S.sizes shelf.old) (S.sizes shelf.new) (S.counts shelf.old) (S.counts shelf.new) (S.tells shelf.old) (S.tells shelf.new) (S.world shelf.old) (S.world shelf.new) space.old space.new cache.old cache.new }
    ensures fault { IsErrOf result DiskFault → HasRisen (S.counts shelf.old).disk (S.counts shelf.new).disk }
    ensures stream { IfOk result IsStream }
    ensures waits { OnOk result (WaitsStill space.old space.new) }
    ensures stores { (s : Stored) → HoldsBlocks mount.entry.kind mount.entry.slots.now (S.tells shelf.old) (S.world shelf.old).now.seen space.old None cache.old s → IfOk result (λ now. Now (HoldsBlocks mount.entry.kind mount.entry.slots.now (S.tells shelf.new) (S.world shelf.new).now.seen space.new None cache.new) (λ n. StoresWords s n now words.now)) }
{
    let mut store = Vdev::new(space, shelf, cache, mount);
    Ok(write_stream(alloc, &mut store, words)?)
}

// Gives back the blocks of a tree.
fn give_blocks<B: Blocks>(alloc: Global, store: &mut B, t: &Tree) -> Result<(), StoreErr>
    requires tree { IsTree t.now }
    ensures follows { (start : B) → B.follows start store.old → B.follows start store.new }
    ensures failed { IsErrOf result Failed → HasRisen (B.account store.old).faults (B.account store.new).faults }
    ensures gives { (s : Stored) → B.holds store.old s → AreStored (tree_reach s t.now) s → OnOk result (Now (B.holds store.new) (λ n. Swaps s n (tree_reach s t.now) [])) }
{
    free_tree(alloc, store, t)
}

/// Gives back the blocks of a tree.
pub fn give_tree<S: Shelf, P: Place>(
    alloc: Global,
    space: &mut Space,
    shelf: &mut S,
    cache: &mut Cache,
    mount: Mount<P>,
    t: &Tree,
) -> Result<(), Stop>
    requires mounted { AreMounted (S.sizes shelf.old) mount.slots.now (devices_in space.old) }
    requires group { 1 ≤ mount.txg }
    requires tree { IsTree t.now }
    ensures continues { Continues mount.entry.kind mount.entry.slots.now (S.sizes shelf.old) (S.sizes shelf.new) (S.counts shelf.old) (S.counts shelf.new) (S.tells shelf.old) (S.tells shelf.new) (S.world shelf.old) (S.world shelf.new) space.old space.new cache.old cache.new }
    ensures fault { IsErrOf result DiskFault → HasRisen (S.counts shelf.old).disk (S.counts shelf.new).disk }
    ensures gives { (s : Stored) → HoldsBlocks mount.entry.kind mount.entry.slots.now (S.tells shelf.old) (S.world shelf.old).now.seen space.old None cache.old s → AreStored (tree_reach s t.now) s → OnOk result (Now (HoldsBlocks mount.entry.kind mount.entry.slots.now (S.tells shelf.new) (S.world shelf.new).now.seen space.new None cache.new) (λ n. Swaps s n (tree_reach s t.now) [])) }
{
    let mut store = Vdev::new(space, shelf, cache, mount);
    Ok(give_blocks(alloc, &mut store, t)?)
}

// Gives back the blocks of streams.
fn give_each<B: Blocks>(alloc: Global, store: &mut B, streams: &[Stream]) -> Result<(), StoreErr>
    requires streams { All IsStream streams.now }
    ensures follows { (start : B) → B.follows start store.old → B.follows start store.new }
    ensures failed { IsErrOf result Failed → HasRisen (B.account store.old).faults (B.account store.new).faults }
    ensures gives { (s : Stored) → B.holds store.old s → AreStored (streams_reach s streams.now) s → OnOk result (Now (B.holds store.new) (λ n. Swaps s n (streams_reach s streams.now) [])) }
{
    free_streams(alloc, store, streams)
}

/// Gives back the blocks of streams.
pub fn give_streams<S: Shelf, P: Place>(
    alloc: Global,
    space: &mut Space,
    shelf: &mut S,
    cache: &mut Cache,
    mount: Mount<P>,
    streams: &[Stream],
) -> Result<(), Stop>
    requires mounted { AreMounted (S.sizes shelf.old) mount.slots.now (devices_in space.old) }
    requires group { 1 ≤ mount.txg }
    requires streams { All IsStream streams.now }
    ensures continues { Continues mount.entry.kind mount.entry.slots.now (S.sizes shelf.old) (S.sizes shelf.new) (S.counts shelf.old) (S.counts shelf.new) (S.tells shelf.old) (S.tells shelf.new) (S.world shelf.old) (S.world shelf.new) space.old space.new cache.old cache.new }
    ensures fault { IsErrOf result DiskFault → HasRisen (S.counts shelf.old).disk (S.counts shelf.new).disk }
    ensures gives { (s : Stored) → HoldsBlocks mount.entry.kind mount.entry.slots.now (S.tells shelf.old) (S.world shelf.old).now.seen space.old None cache.old s → AreStored (streams_reach s streams.now) s → OnOk result (Now (HoldsBlocks mount.entry.kind mount.entry.slots.now (S.tells shelf.new) (S.world shelf.new).now.seen space.new None cache.new) (λ n. Swaps s n (streams_reach s streams.now) [])) }
{
    let mut store = Vdev::new(space, shelf, cache, mount);
    Ok(give_each(alloc, &mut store, streams)?)
}

/// Writes a head. The answer is the root of its tree and its bytes.
pub fn put_head<S: Shelf, P: Place>(
    alloc: Global,
    space: &mut Space,
    shelf: &mut S,
    cache: &mut Cache,
    mount: Mount<P>,
    head: &Head,
    rows: &[DevRow],
) -> Result<(Ptr, u64), Stop>
    requires mounted { AreMounted (S.sizes shelf.old) mount.slots.now (devices_in space.old) }
    requires group { 1 ≤ mount.txg }
    requires head { IsHead rows.now head.now }
    requires rows { length rows.now ≤ 32 }
    ensures continues { Continues mount.entry.kind mount.entry.slots.now (S.sizes shelf.old) (S.sizes shelf.new) (S.counts shelf.old) (S.counts shelf.new) (S.tells shelf.old) (S.tells shelf.new) (S.world shelf.old) (S.world shelf.new) space.old space.new cache.old cache.new }
    ensures fault { IsErrOf result DiskFault → HasRisen (S.counts shelf.old).disk (S.counts shelf.new).disk }
    ensures root { IfOk result (λ head. IsMetaRoot head.0 head.1) }
    ensures len { IfOk result (λ root. root.1 ≡ 8 * head_words head.now) }
    ensures short { IfOk result (λ head. head.1 ≤ 35016) }
    ensures stands { (s : Stored) → HoldsBlocks mount.entry.kind mount.entry.slots.now (S.tells shelf.old) (S.world shelf.old).now.seen space.old None cache.old s → IfOk result (λ root. StandsHead rows.now (view_of (S.world shelf.new).now.seen mount.entry.slots.now space.new) head.now root.0 root.1) }
    ensures safe { mount.entry.kind ≡ Meta → (s : Stored) → HoldsBlocks mount.entry.kind mount.entry.slots.now (S.tells shelf.old) (S.world shelf.old).now.seen space.old None cache.old s → IfOk result (λ root. LiesInMetadata space.new (view_of (S.world shelf.new).now.seen mount.entry.slots.now space.new) root.0 root.1) }
    ensures waits { OnOk result (WaitsStill space.old space.new) }
    ensures stores { (s : Stored) → HoldsBlocks mount.entry.kind mount.entry.slots.now (S.tells shelf.old) (S.world shelf.old).now.seen space.old None cache.old s → IfOk result (λ root. Now (HoldsBlocks mount.entry.kind mount.entry.slots.now (S.tells shelf.new) (S.world shelf.new).now.seen space.new None cache.new) (λ n. StoresHead rows.now s n head.now root.0 root.1)) }
{
    let mut store = Vdev::new(space, shelf, cache, mount);
    Ok(write_head(alloc, &mut store, head, rows)?)
}
