//! The streams of a commit but the late sets: those of each device in order, and those of the condensing behind them.
//!
//! The logs are written whatever the state of the device is: one of an empty set in which nothing changed stays empty.
ghost use Rattle.std.specs.Prelude.{◌≡◌, ◌≢◌, ◌+◌, ◌<◌, ℕ, List, [], Some, true, false, if◌then◌else◌, length, IsErrOf, IfOk, OnOk};
ghost use Rattle.zr_base.specs.Counts.{HasRisen};
ghost use Rattle.zr_base.specs.declared.space.CondPart.{CondPart};
ghost use Rattle.zr_commit.specs.Logs.{streams_reach};
ghost use Rattle.zr_meta.specs.Heads.{IsStream};
ghost use Rattle.zr_root.specs.Streams.{HasWords};
ghost use Rattle.zr_rules.specs.Places.{part_of};
ghost use Rattle.zr_store.specs.Store.{AreStored, Now, Stored, Swaps};
ghost use Rattle.zr_tree.specs.Trees.{tree_reach};
ghost use Rattle.zr_sync.specs.Anew.{AreRenewed, KeepsCounts, RenewsEach};
ghost use Rattle.zr_sync.specs.Empty.{no_cond};
ghost use Rattle.zr_sync.specs.Mappings.{HadFirst, HasFirst, IsSpelled, TurnsMapping, WritesCond, WritesMapping, cond_stream, done_streams, is_turned, mapping_stream, mapping_words, with_cond_stream, with_mapping};
ghost use Rattle.zr_sync.specs.Pools.{AreCondStreams, AreStreams, IsOpen};
ghost use Rattle.zr_sync.specs.Streams.{HasMeta, streams_at};
ghost use Rattle.zr_sync.specs.Words.{HasRoomFor, words_then};
ghost use Rattle.zr_sync.specs.Writes.{WritesMetadata};
ghost use Rattle.zr_sync.specs.declared.stop.Stop.TheVariants.{DiskFault};
ghost use Rattle.zr_beside.specs.Beside.{Standing};
ghost use Rattle.zr_sync.specs.Trees.{HasNoLateYet, HoldsStreams, Place, Stage, WritesPlace, first_stage, one_stage, writing};
ghost use Rattle.zr_sync.specs.Trees.Place.{OfMapping};
ghost use Rattle.zr_sync.specs.Trees.Stage.{Written};
ghost use Rattle.zr_sync.specs.declared.mappings.MappingStream.{MappingStream};

use crate::logs::{Logs, write_log};
use crate::mappings::{MappingStream, cond_grows, mapping_grows};
use crate::open::{CondStreams, DeviceStreams, NO_COND, OpenPool, Turned};
use crate::stop::Stop;
use crate::stores::{give_streams, put_log};
use crate::words::{Log, LogWords};
use std::alloc::Global;
use zr_base::NoMemory;
use zr_meta::Stream;
use zr_shelf::Shelf;
use zr_vdev::{Kind, Mount, Place};

// ---- mappings

// A stream of a device's mapping.
fn stream_of(streams: &DeviceStreams, which: MappingStream) -> Stream
    requires { AreStreams streams.now }
    ensures lawful { IsStream result }
    ensures value { result ≡ mapping_stream which streams.now }
{
    match which {
        MappingStream::Entries => streams.entries,
        MappingStream::Counts => streams.counts,
    }
}

// The streams of a device, of which one of its mapping is another.
fn with_stream(streams: DeviceStreams, which: MappingStream, stream: Stream) -> DeviceStreams
    requires streams { AreStreams streams }
    requires stream { IsStream stream }
    ensures lawful { AreStreams result }
    ensures value { result ≡ with_mapping which streams stream }
{
    match which {
        MappingStream::Entries => DeviceStreams {
            entries: stream,
            ..streams
        },
        MappingStream::Counts => DeviceStreams {
            counts: stream,
            ..streams
        },
    }
}

// Whether the words of a stream changed otherwise than at their end.
fn is_turned(turned: Turned, which: MappingStream) -> bool
    ensures { result ≡ is_turned which turned }
{
    match which {
        MappingStream::Entries => turned.entries,
        MappingStream::Counts => turned.counts,
    }
}

// Whether a stream is written anew, and not appended to.
fn is_anew(logs: Logs, turned: Turned, which: MappingStream) -> bool
    ensures turned { result ≡ false → is_turned which turned ≡ false }
    ensures anew { logs ≡ Logs.Anew → result ≡ true }
{
    logs == Logs::Anew || is_turned(turned, which)
}

// Writes a stream of a device's mapping.
fn write_mapping<S: Shelf, P: Place>(
    alloc: Global,
    pool: &mut OpenPool,
    shelf: &mut S,
    pick: &P,
    dev: u32,
    which: MappingStream,
    logs: Logs,
) -> Result<(), Stop>
    requires pool { IsOpen (S.sizes shelf.old) pool.old }
    requires dev { dev < pool.old.table.count }
    ensures wrote { WritesMetadata (S.sizes shelf.old) (S.sizes shelf.new) (S.counts shelf.old) (S.counts shelf.new) (S.tells shelf.old) (S.tells shelf.new) (S.world shelf.old) (S.world shelf.new) pool.old pool.new }
    ensures pool { OnOk result (IsOpen (S.sizes shelf.new) pool.new) }
    ensures fault { IsErrOf result DiskFault → HasRisen (S.counts shelf.old).disk (S.counts shelf.new).disk }
    ensures streams { OnOk result (TurnsMapping pool.old pool.new dev which) }
    ensures writes { IsSpelled (part_of pool.old.space.parts.devs dev).entries (part_of pool.old.space.parts.devs dev).counts
        → (s : Stored) (had : List ℕ) → HasMeta (S.tells shelf.old) (S.world shelf.old).now.seen pool.old s → AreStored (tree_reach s (mapping_stream which (streams_at pool.old dev)).tree) s → HasWords s (mapping_stream which (streams_at pool.old dev)) had → (logs ≡ Logs.Grow → HadFirst pool.old dev which had)
        → OnOk result (Now (HasMeta (S.tells shelf.new) (S.world shelf.new).now.seen pool.new) (λ n. WritesMapping s n pool.old pool.new dev which)) }
    ensures trees { (stage next : ℕ → Place → Stage) (cond : MappingStream → Stage) (others : List Standing) → WritesPlace (first_stage logs) stage next dev (OfMapping which) → HasNoLateYet stage → HoldsStreams stage cond others (S.tells shelf.old) (S.world shelf.old).now.seen pool.old → OnOk result (HoldsStreams next cond others (S.tells shelf.new) (S.world shelf.new).now.seen pool.new) }
{
    let index = dev as usize;
    let streams = pool.streams[index];
    let old = stream_of(&streams, which);
    let anew = is_anew(logs, pool.turned[index], which);
    let words = mapping_grows(alloc, pool.space.moves(dev), &old, which, anew)?;
    let mount = Mount {
        slots: &pool.table.slots,
        pick,
        txg: pool.group.txg(),
        kind: Kind::Meta,
    };
    let stream = put_log(
        alloc,
        &mut pool.space,
        shelf,
        &mut pool.cache,
        mount,
        &old,
        &words,
    )?;
    pool.streams[index] = with_stream(streams, which, stream);
    Ok(())
}

// Writes the streams of a device that stand before its late sets.
fn write_device<S: Shelf, P: Place>(
    alloc: Global,
    pool: &mut OpenPool,
    shelf: &mut S,
    pick: &P,
    dev: u32,
    logs: Logs,
) -> Result<(), Stop>
    requires pool { IsOpen (S.sizes shelf.old) pool.old }
    requires dev { dev < pool.old.table.count }
    ensures wrote { WritesMetadata (S.sizes shelf.old) (S.sizes shelf.new) (S.counts shelf.old) (S.counts shelf.new) (S.tells shelf.old) (S.tells shelf.new) (S.world shelf.old) (S.world shelf.new) pool.old pool.new }
    ensures pool { OnOk result (IsOpen (S.sizes shelf.new) pool.new) }
    ensures fault { IsErrOf result DiskFault → HasRisen (S.counts shelf.old).disk (S.counts shelf.new).disk }
    ensures anew { logs ≡ Logs.Anew → OnOk result (RenewsEach pool.old pool.new dev) }
    ensures trees { (cond : MappingStream → Stage) (others : List Standing) → HoldsStreams (writing (first_stage logs) dev) cond others (S.tells shelf.old) (S.world shelf.old).now.seen pool.old → OnOk result (HoldsStreams (writing (first_stage logs) (dev + 1)) cond others (S.tells shelf.new) (S.world shelf.new).now.seen pool.new) }
{
    write_log(alloc, pool, shelf, pick, dev, Log::Held, logs)?;
    write_log(alloc, pool, shelf, pick, dev, Log::Kept, logs)?;
    write_mapping(alloc, pool, shelf, pick, dev, MappingStream::Entries, logs)?;
    write_mapping(alloc, pool, shelf, pick, dev, MappingStream::Counts, logs)?;
    write_log(alloc, pool, shelf, pick, dev, Log::Fresh, logs)
}

// ---- the condensing

// A stream of the condensing.
fn cond_of(streams: &CondStreams, which: MappingStream) -> Stream
    requires { AreCondStreams streams.now }
    ensures lawful { IsStream result }
    ensures value { result ≡ cond_stream which streams.now }
{
    match which {
        MappingStream::Entries => streams.entries,
        MappingStream::Counts => streams.counts,
    }
}

// The streams of the condensing, of which one is another.
fn with_cond(streams: CondStreams, which: MappingStream, stream: Stream) -> CondStreams
    requires streams { AreCondStreams streams }
    requires stream { IsStream stream }
    ensures lawful { AreCondStreams result }
    ensures value { result ≡ with_cond_stream which streams stream }
{
    match which {
        MappingStream::Entries => CondStreams {
            entries: stream,
            ..streams
        },
        MappingStream::Counts => CondStreams {
            counts: stream,
            ..streams
        },
    }
}

// Gives back the streams of a condensing that is done.
fn give_done<S: Shelf, P: Place>(
    alloc: Global,
    pool: &mut OpenPool,
    shelf: &mut S,
    pick: &P,
) -> Result<(), Stop>
    requires pool { IsOpen (S.sizes shelf.old) pool.old }
    ensures wrote { WritesMetadata (S.sizes shelf.old) (S.sizes shelf.new) (S.counts shelf.old) (S.counts shelf.new) (S.tells shelf.old) (S.tells shelf.new) (S.world shelf.old) (S.world shelf.new) pool.old pool.new }
    ensures pool { OnOk result (IsOpen (S.sizes shelf.new) pool.new) }
    ensures fault { IsErrOf result DiskFault → HasRisen (S.counts shelf.old).disk (S.counts shelf.new).disk }
    ensures streams { pool.new.streams ≡ pool.old.streams }
    ensures none { OnOk result (pool.new.cond ≡ (if pool.old.cond.done then no_cond else pool.old.cond)) }
    ensures gives { (s : Stored) → HasMeta (S.tells shelf.old) (S.world shelf.old).now.seen pool.old s → AreStored (streams_reach s (done_streams pool.old.cond)) s → OnOk result (Now (HasMeta (S.tells shelf.new) (S.world shelf.new).now.seen pool.new) (λ n. Swaps s n (streams_reach s (done_streams pool.old.cond)) [])) }
    ensures trees { (logs : Logs) (stage : ℕ → Place → Stage) (others : List Standing) → HasNoLateYet stage → HoldsStreams stage (one_stage (first_stage logs)) others (S.tells shelf.old) (S.world shelf.old).now.seen pool.old → OnOk result (HoldsStreams stage (one_stage (first_stage logs)) others (S.tells shelf.new) (S.world shelf.new).now.seen pool.new) }
{
    if !pool.cond.done {
        return Ok(());
    }
    let mount = Mount {
        slots: &pool.table.slots,
        pick,
        txg: pool.group.txg(),
        kind: Kind::Meta,
    };
    give_streams(
        alloc,
        &mut pool.space,
        shelf,
        &mut pool.cache,
        mount,
        &[pool.cond.entries, pool.cond.counts],
    )?;
    pool.cond = NO_COND;
    Ok(())
}

// What becomes of a stream of the condensing. Where none goes on it stays.
fn cond_words(
    alloc: Global,
    pool: &OpenPool,
    old: &Stream,
    which: MappingStream,
    logs: Logs,
) -> Result<LogWords, NoMemory>
    ensures room { IfOk result (HasRoomFor old.now) }
    ensures words { (c : CondPart) → pool.now.space.parts.cond ≡ Some c → IsSpelled c.entries c.counts → (had : List ℕ) → length had ≡ old.now.words → (logs ≡ Logs.Grow → HasFirst which c.entries c.counts had) → IfOk result (λ words. words_then had words ≡ mapping_words which c.entries c.counts) }
{
    match pool.space.condensing() {
        None => Ok(LogWords::Stays),
        Some(cond) => cond_grows(alloc, cond, old, which, logs == Logs::Anew),
    }
}

// Writes a stream of the condensing that goes on.
fn write_cond<S: Shelf, P: Place>(
    alloc: Global,
    pool: &mut OpenPool,
    shelf: &mut S,
    pick: &P,
    which: MappingStream,
    logs: Logs,
) -> Result<(), Stop>
    requires pool { IsOpen (S.sizes shelf.old) pool.old }
    ensures wrote { WritesMetadata (S.sizes shelf.old) (S.sizes shelf.new) (S.counts shelf.old) (S.counts shelf.new) (S.tells shelf.old) (S.tells shelf.new) (S.world shelf.old) (S.world shelf.new) pool.old pool.new }
    ensures pool { OnOk result (IsOpen (S.sizes shelf.new) pool.new) }
    ensures fault { IsErrOf result DiskFault → HasRisen (S.counts shelf.old).disk (S.counts shelf.new).disk }
    ensures streams { OnOk result (pool.new.streams ≡ pool.old.streams) }
    ensures writes { (c : CondPart) → pool.old.space.parts.cond ≡ Some c → IsSpelled c.entries c.counts → (s : Stored) (had : List ℕ) → HasMeta (S.tells shelf.old) (S.world shelf.old).now.seen pool.old s → AreStored (tree_reach s (cond_stream which pool.old.cond).tree) s → HasWords s (cond_stream which pool.old.cond) had → (logs ≡ Logs.Grow → HasFirst which c.entries c.counts had)
        → OnOk result (Now (HasMeta (S.tells shelf.new) (S.world shelf.new).now.seen pool.new) (λ n. WritesCond s n pool.old pool.new c which)) }
    ensures done { OnOk result (pool.new.cond.done ≡ pool.old.cond.done) }
    ensures trees { (stage : ℕ → Place → Stage) (cond next : MappingStream → Stage) (others : List Standing) → cond which ≡ first_stage logs → next which ≡ Written → ((other : MappingStream) → other ≢ which → next other ≡ cond other) → pool.old.cond.done ≡ false → HasNoLateYet stage → HoldsStreams stage cond others (S.tells shelf.old) (S.world shelf.old).now.seen pool.old → OnOk result (HoldsStreams stage next others (S.tells shelf.new) (S.world shelf.new).now.seen pool.new) }
{
    let old = cond_of(&pool.cond, which);
    let words = cond_words(alloc, pool, &old, which, logs)?;
    let mount = Mount {
        slots: &pool.table.slots,
        pick,
        txg: pool.group.txg(),
        kind: Kind::Meta,
    };
    let stream = put_log(
        alloc,
        &mut pool.space,
        shelf,
        &mut pool.cache,
        mount,
        &old,
        &words,
    )?;
    pool.cond = with_cond(pool.cond, which, stream);
    Ok(())
}

// Writes the streams of the condensing that goes on, behind those of one that is done.
fn write_condensing<S: Shelf, P: Place>(
    alloc: Global,
    pool: &mut OpenPool,
    shelf: &mut S,
    pick: &P,
    logs: Logs,
) -> Result<(), Stop>
    requires pool { IsOpen (S.sizes shelf.old) pool.old }
    ensures wrote { WritesMetadata (S.sizes shelf.old) (S.sizes shelf.new) (S.counts shelf.old) (S.counts shelf.new) (S.tells shelf.old) (S.tells shelf.new) (S.world shelf.old) (S.world shelf.new) pool.old pool.new }
    ensures pool { OnOk result (IsOpen (S.sizes shelf.new) pool.new) }
    ensures fault { IsErrOf result DiskFault → HasRisen (S.counts shelf.old).disk (S.counts shelf.new).disk }
    ensures counts { OnOk result (KeepsCounts pool.old pool.new) }
    ensures trees { (stage : ℕ → Place → Stage) (others : List Standing) → HasNoLateYet stage → HoldsStreams stage (one_stage (first_stage logs)) others (S.tells shelf.old) (S.world shelf.old).now.seen pool.old → OnOk result (HoldsStreams stage (one_stage Written) others (S.tells shelf.new) (S.world shelf.new).now.seen pool.new) }
{
    give_done(alloc, pool, shelf, pick)?;
    write_cond(alloc, pool, shelf, pick, MappingStream::Entries, logs)?;
    write_cond(alloc, pool, shelf, pick, MappingStream::Counts, logs)
}

// ---- all of them

// Writes the streams of each device.
fn write_devices<S: Shelf, P: Place>(
    alloc: Global,
    pool: &mut OpenPool,
    shelf: &mut S,
    pick: &P,
    logs: Logs,
) -> Result<(), Stop>
    requires pool { IsOpen (S.sizes shelf.old) pool.old }
    ensures wrote { WritesMetadata (S.sizes shelf.old) (S.sizes shelf.new) (S.counts shelf.old) (S.counts shelf.new) (S.tells shelf.old) (S.tells shelf.new) (S.world shelf.old) (S.world shelf.new) pool.old pool.new }
    ensures pool { OnOk result (IsOpen (S.sizes shelf.new) pool.new) }
    ensures fault { IsErrOf result DiskFault → HasRisen (S.counts shelf.old).disk (S.counts shelf.new).disk }
    ensures anew { logs ≡ Logs.Anew → OnOk result (AreRenewed pool.old.version pool.old.space pool.new.streams.items pool.old.table.count) }
    ensures trees { (cond : MappingStream → Stage) (others : List Standing) → HoldsStreams (writing (first_stage logs) 0) cond others (S.tells shelf.old) (S.world shelf.old).now.seen pool.old → OnOk result (HoldsStreams (writing (first_stage logs) pool.old.table.count) cond others (S.tells shelf.new) (S.world shelf.new).now.seen pool.new) }
{
    for dev in 0..pool.table.count {
        write_device(alloc, pool, shelf, pick, dev, logs)?;
    }
    Ok(())
}

/// Writes the streams of each device but its late sets, and those of the condensing.
pub fn write_streams<S: Shelf, P: Place>(
    alloc: Global,
    pool: &mut OpenPool,
    shelf: &mut S,
    pick: &P,
    logs: Logs,
) -> Result<(), Stop>
    requires pool { IsOpen (S.sizes shelf.old) pool.old }
    ensures wrote { WritesMetadata (S.sizes shelf.old) (S.sizes shelf.new) (S.counts shelf.old) (S.counts shelf.new) (S.tells shelf.old) (S.tells shelf.new) (S.world shelf.old) (S.world shelf.new) pool.old pool.new }
    ensures pool { OnOk result (IsOpen (S.sizes shelf.new) pool.new) }
    ensures fault { IsErrOf result DiskFault → HasRisen (S.counts shelf.old).disk (S.counts shelf.new).disk }
    ensures anew { logs ≡ Logs.Anew → OnOk result (AreRenewed pool.old.version pool.old.space pool.new.streams.items pool.old.table.count) }
    ensures trees { (others : List Standing) → HoldsStreams (writing (first_stage logs) 0) (one_stage (first_stage logs)) others (S.tells shelf.old) (S.world shelf.old).now.seen pool.old → OnOk result (HoldsStreams (writing (first_stage logs) pool.old.table.count) (one_stage Written) others (S.tells shelf.new) (S.world shelf.new).now.seen pool.new) }
{
    write_devices(alloc, pool, shelf, pick, logs)?;
    write_condensing(alloc, pool, shelf, pick, logs)
}
