//! The old head and the late sets in a commit.
//!
//! The next root's late sets name all that the open group has freed, the metadata that this very commit gives back among
//! it. So all of that is given back before they are written.
ghost use Rattle.std.specs.Prelude.{◌≡◌, ◌≢◌, ◌<◌, ◌≤◌, ◌^◌, [], length, IsErrOf, IfOk, OnOk};
ghost use Rattle.zr_base.specs.Counts.{HasRisen};
ghost use Rattle.zr_commit.specs.Logs.{streams_reach};
ghost use Rattle.zr_meta.specs.Heads.{IsStream};
ghost use Rattle.zr_root.specs.Streams.{StoresWords};
ghost use Rattle.zr_store.specs.Store.{AreStored, Now, Stored, Swaps};
ghost use Rattle.zr_tree.specs.Trees.{tree_reach};
ghost use Rattle.zr_sync.specs.Anew.{KeepsCounts};
ghost use Rattle.zr_sync.specs.Pools.{IsOpen};
ghost use Rattle.zr_sync.specs.Streams.{HasMeta, HasNoLates, WritesLates, late_streams, streams_at};
ghost use Rattle.zr_sync.specs.Writes.{WritesMetadata};
ghost use Rattle.zr_sync.specs.declared.stop.Stop.TheVariants.{DiskFault};
ghost use Rattle.std.specs.Prelude.{◌+◌, ℕ, List};
ghost use Rattle.zr_beside.specs.Beside.{Standing};
ghost use Rattle.zr_vdev.specs.Stores.{WaitsStill};
ghost use Rattle.zr_sync.specs.Trees.{HasNoLateYet, HoldsStreams, Place, Stage, giving, head_tree, laying};
ghost use Rattle.zr_sync.specs.Trees.Stage.{Written};
ghost use Rattle.zr_sync.specs.declared.mappings.MappingStream.{MappingStream};

use crate::open::{EMPTY, OpenPool};
use crate::stop::Stop;
use crate::stores::{give_streams, give_tree, put_words};
use crate::words::{first_late_words, second_late_words};
use std::alloc::Global;
use zr_meta::Stream;
use zr_shelf::Shelf;
use zr_vdev::{Kind, Mount, Place};

/// Gives back the head of the last root.
pub fn give_head<S: Shelf, P: Place>(
    alloc: Global,
    pool: &mut OpenPool,
    shelf: &mut S,
    pick: &P,
) -> Result<(), Stop>
    requires pool { IsOpen (S.sizes shelf.old) pool.old }
    ensures wrote { WritesMetadata (S.sizes shelf.old) (S.sizes shelf.new) (S.counts shelf.old) (S.counts shelf.new) (S.tells shelf.old) (S.tells shelf.new) (S.world shelf.old) (S.world shelf.new) pool.old pool.new }
    ensures pool { OnOk result (IsOpen (S.sizes shelf.new) pool.new) }
    ensures fault { IsErrOf result DiskFault → HasRisen (S.counts shelf.old).disk (S.counts shelf.new).disk }
    ensures streams { pool.new.streams ≡ pool.old.streams }
    ensures gives { (s : Stored) → HasMeta (S.tells shelf.old) (S.world shelf.old).now.seen pool.old s → AreStored (tree_reach s pool.old.head) s → OnOk result (Now (HasMeta (S.tells shelf.new) (S.world shelf.new).now.seen pool.new) (λ n. Swaps s n (tree_reach s pool.old.head) [])) }
    ensures trees { (stage : ℕ → Place → Stage) (cond : MappingStream → Stage) (bytes : List ℕ) → HasNoLateYet stage → HoldsStreams stage cond (head_tree pool.old.head bytes) (S.tells shelf.old) (S.world shelf.old).now.seen pool.old → OnOk result (HoldsStreams stage cond [] (S.tells shelf.new) (S.world shelf.new).now.seen pool.new) }
{
    let mount = Mount {
        slots: &pool.table.slots,
        pick,
        txg: pool.group.txg(),
        kind: Kind::Meta,
    };
    give_tree(
        alloc,
        &mut pool.space,
        shelf,
        &mut pool.cache,
        mount,
        &pool.head,
    )
}

// Gives back the late sets of a device.
fn give_late<S: Shelf, P: Place>(
    alloc: Global,
    pool: &mut OpenPool,
    shelf: &mut S,
    pick: &P,
    dev: u32,
) -> Result<(), Stop>
    requires pool { IsOpen (S.sizes shelf.old) pool.old }
    requires dev { dev < pool.old.table.count }
    ensures wrote { WritesMetadata (S.sizes shelf.old) (S.sizes shelf.new) (S.counts shelf.old) (S.counts shelf.new) (S.tells shelf.old) (S.tells shelf.new) (S.world shelf.old) (S.world shelf.new) pool.old pool.new }
    ensures pool { OnOk result (IsOpen (S.sizes shelf.new) pool.new) }
    ensures fault { IsErrOf result DiskFault → HasRisen (S.counts shelf.old).disk (S.counts shelf.new).disk }
    ensures gives { (s : Stored) → HasMeta (S.tells shelf.old) (S.world shelf.old).now.seen pool.old s → AreStored (streams_reach s (late_streams (streams_at pool.old dev))) s → OnOk result (Now (HasMeta (S.tells shelf.new) (S.world shelf.new).now.seen pool.new) (λ n. Swaps s n (streams_reach s (late_streams (streams_at pool.old dev))) [])) }
    ensures none { OnOk result (HasNoLates pool.old pool.new dev) }
    ensures trees { (first : Stage) (cond : MappingStream → Stage) (others : List Standing) → first ≢ Written → HoldsStreams (giving first dev) cond others (S.tells shelf.old) (S.world shelf.old).now.seen pool.old → OnOk result (HoldsStreams (giving first (dev + 1)) cond others (S.tells shelf.new) (S.world shelf.new).now.seen pool.new) }
{
    let index = dev as usize;
    let old = pool.streams[index];
    let mount = Mount {
        slots: &pool.table.slots,
        pick,
        txg: pool.group.txg(),
        kind: Kind::Meta,
    };
    give_streams(
        alloc,
        &mut pool.space,
        shelf,
        &mut pool.cache,
        mount,
        &[old.late1, old.late2],
    )?;
    let device = &mut pool.streams[index];
    device.late1 = EMPTY;
    device.late2 = EMPTY;
    Ok(())
}

/// Gives back the late sets of each device.
pub fn give_lates<S: Shelf, P: Place>(
    alloc: Global,
    pool: &mut OpenPool,
    shelf: &mut S,
    pick: &P,
) -> Result<(), Stop>
    requires pool { IsOpen (S.sizes shelf.old) pool.old }
    ensures wrote { WritesMetadata (S.sizes shelf.old) (S.sizes shelf.new) (S.counts shelf.old) (S.counts shelf.new) (S.tells shelf.old) (S.tells shelf.new) (S.world shelf.old) (S.world shelf.new) pool.old pool.new }
    ensures pool { OnOk result (IsOpen (S.sizes shelf.new) pool.new) }
    ensures fault { IsErrOf result DiskFault → HasRisen (S.counts shelf.old).disk (S.counts shelf.new).disk }
    ensures counts { OnOk result (KeepsCounts pool.old pool.new) }
    ensures trees { (first : Stage) (cond : MappingStream → Stage) (others : List Standing) → first ≢ Written → HoldsStreams (giving first 0) cond others (S.tells shelf.old) (S.world shelf.old).now.seen pool.old → OnOk result (HoldsStreams (giving first pool.old.table.count) cond others (S.tells shelf.new) (S.world shelf.new).now.seen pool.new) }
{
    for dev in 0..pool.table.count {
        give_late(alloc, pool, shelf, pick, dev)?;
    }
    Ok(())
}

// Writes both late sets of a device. The old ones were given back.
fn write_late<S: Shelf, P: Place>(
    alloc: Global,
    pool: &mut OpenPool,
    shelf: &mut S,
    pick: &P,
    dev: u32,
) -> Result<(), Stop>
    requires pool { IsOpen (S.sizes shelf.old) pool.old }
    requires dev { dev < pool.old.table.count }
    ensures wrote { WritesMetadata (S.sizes shelf.old) (S.sizes shelf.new) (S.counts shelf.old) (S.counts shelf.new) (S.tells shelf.old) (S.tells shelf.new) (S.world shelf.old) (S.world shelf.new) pool.old pool.new }
    ensures pool { OnOk result (IsOpen (S.sizes shelf.new) pool.new) }
    ensures fault { IsErrOf result DiskFault → HasRisen (S.counts shelf.old).disk (S.counts shelf.new).disk }
    ensures writes { (s : Stored) → HasMeta (S.tells shelf.old) (S.world shelf.old).now.seen pool.old s → OnOk result (Now (HasMeta (S.tells shelf.new) (S.world shelf.new).now.seen pool.new) (λ n. WritesLates s n pool.old pool.new dev)) }
    ensures waits { OnOk result (WaitsStill pool.old.space pool.new.space) }
    ensures trees { (cond : MappingStream → Stage) (others : List Standing) → HoldsStreams (laying dev) cond others (S.tells shelf.old) (S.world shelf.old).now.seen pool.old → OnOk result (HoldsStreams (laying (dev + 1)) cond others (S.tells shelf.new) (S.world shelf.new).now.seen pool.new) }
{
    let first = first_late_words(alloc, &pool.space, dev, pool.version)?;
    let second = second_late_words(alloc, &pool.space, dev, pool.version)?;
    let late1 = write_words(alloc, pool, shelf, pick, first.as_slice())?;
    let late2 = write_words(alloc, pool, shelf, pick, second.as_slice())?;
    let device = &mut pool.streams[dev as usize];
    device.late1 = late1;
    device.late2 = late2;
    Ok(())
}

// Writes words as a stream, which no device has yet.
fn write_words<S: Shelf, P: Place>(
    alloc: Global,
    pool: &mut OpenPool,
    shelf: &mut S,
    pick: &P,
    words: &[u64],
) -> Result<Stream, Stop>
    requires pool { IsOpen (S.sizes shelf.old) pool.old }
    requires words { length words.now ≤ 2 ^ 34 }
    ensures wrote { WritesMetadata (S.sizes shelf.old) (S.sizes shelf.new) (S.counts shelf.old) (S.counts shelf.new) (S.tells shelf.old) (S.tells shelf.new) (S.world shelf.old) (S.world shelf.new) pool.old pool.new }
    ensures pool { OnOk result (IsOpen (S.sizes shelf.new) pool.new) }
    ensures fault { IsErrOf result DiskFault → HasRisen (S.counts shelf.old).disk (S.counts shelf.new).disk }
    ensures stream { IfOk result IsStream }
    ensures same { pool.new.streams ≡ pool.old.streams }
    ensures cond { pool.new.cond ≡ pool.old.cond }
    ensures stores { (s : Stored) → HasMeta (S.tells shelf.old) (S.world shelf.old).now.seen pool.old s → IfOk result (λ now. Now (HasMeta (S.tells shelf.new) (S.world shelf.new).now.seen pool.new) (λ n. StoresWords s n now words.now)) }
    ensures waits { OnOk result (WaitsStill pool.old.space pool.new.space) }
{
    let mount = Mount {
        slots: &pool.table.slots,
        pick,
        txg: pool.group.txg(),
        kind: Kind::Meta,
    };
    put_words(alloc, &mut pool.space, shelf, &mut pool.cache, mount, words)
}

/// Writes the late sets of each device: what the open group has freed, and what the group of the last root did.
pub fn write_lates<S: Shelf, P: Place>(
    alloc: Global,
    pool: &mut OpenPool,
    shelf: &mut S,
    pick: &P,
) -> Result<(), Stop>
    requires pool { IsOpen (S.sizes shelf.old) pool.old }
    ensures wrote { WritesMetadata (S.sizes shelf.old) (S.sizes shelf.new) (S.counts shelf.old) (S.counts shelf.new) (S.tells shelf.old) (S.tells shelf.new) (S.world shelf.old) (S.world shelf.new) pool.old pool.new }
    ensures pool { OnOk result (IsOpen (S.sizes shelf.new) pool.new) }
    ensures fault { IsErrOf result DiskFault → HasRisen (S.counts shelf.old).disk (S.counts shelf.new).disk }
    ensures trees { (cond : MappingStream → Stage) (others : List Standing) → HoldsStreams (laying 0) cond others (S.tells shelf.old) (S.world shelf.old).now.seen pool.old → OnOk result (HoldsStreams (laying pool.old.table.count) cond others (S.tells shelf.new) (S.world shelf.new).now.seen pool.new) }
{
    for dev in 0..pool.table.count {
        write_late(alloc, pool, shelf, pick, dev)?;
    }
    Ok(())
}
