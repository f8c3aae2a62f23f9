//! The logs of the devices in a commit.
//!
//! There is one for its held units, one for those which only the checkpoint has, and one for obsolete units that its mapping
//! does not count yet. Each is appended to where its set changed, and now and then written anew. Where the streams of the
//! last root are to stay as they are, the next root gets logs of its own.
ghost use Rattle.std.specs.Prelude.{◌≡◌, ◌<◌, ◌+◌, ◌^◌, ℕ, List, length, IsErrOf, IfOk, OnOk};
ghost use Rattle.zr_base.specs.Counts.{HasRisen};
ghost use Rattle.zr_meta.specs.Heads.{IsStream};
ghost use Rattle.zr_root.specs.Streams.{HasWords};
ghost use Rattle.zr_store.specs.Store.{AreStored, Now, Stored};
ghost use Rattle.zr_tree.specs.Trees.{tree_reach};
ghost use Rattle.zr_sync.specs.Anew.{AreAnew, RenewsLog};
ghost use Rattle.zr_sync.specs.Pools.{AreStreams, IsOpen};
ghost use Rattle.zr_sync.specs.Streams.{HasMeta, WritesLog, log_stream, streams_at, with_log};
ghost use Rattle.zr_sync.specs.Words.{HasRoomFor, IsLastLog, IsLogNow, words_then};
ghost use Rattle.zr_sync.specs.Writes.{WritesMetadata};
ghost use Rattle.zr_sync.specs.declared.stop.Stop.TheVariants.{DiskFault};
ghost use Rattle.zr_beside.specs.Beside.{Standing};
ghost use Rattle.zr_sync.specs.Trees.{HasNoLateYet, HoldsStreams, Place, Stage, WritesPlace, first_stage};
ghost use Rattle.zr_sync.specs.Trees.Place.{OfLog};
ghost use Rattle.zr_sync.specs.declared.mappings.MappingStream.{MappingStream};

use crate::open::{DeviceStreams, OpenPool};
use crate::stop::Stop;
use crate::stores::put_log;
use crate::words::{Log, LogWords, anew_words, log_words};
use std::alloc::Global;
use zr_base::NoMemory;
use zr_meta::Stream;
use zr_shelf::Shelf;
use zr_vdev::{Kind, Mount, Place};

/// How a commit writes the streams.
#[derive(Clone, Copy, PartialEq, Eq, Debug)]
pub enum Logs {
    /// What was added is appended. A log that grew long and a mapping that changed otherwise are written anew, and a stream
    /// that gains nothing stays.
    Grow,
    /// Each is written anew.
    Anew,
}

// What becomes of a log.
fn words_for(
    alloc: Global,
    pool: &OpenPool,
    old: &Stream,
    dev: u32,
    log: Log,
    logs: Logs,
) -> Result<LogWords, NoMemory>
    requires pool { (sizes : List ℕ) × IsOpen sizes pool.now }
    requires dev { dev < pool.now.table.count }
    requires stream { IsStream old.now }
    ensures room { IfOk result (HasRoomFor old.now) }
    ensures log { (had : List ℕ) → length had ≡ old.now.words → (logs ≡ Logs.Grow → IsLastLog pool.now.version pool.now.space dev log had) → IfOk result (λ words. IsLogNow pool.now.version pool.now.space dev log (words_then had words)) }
    ensures anew { logs ≡ Logs.Anew → IfOk result (AreAnew pool.now.version pool.now.space dev log) }
{
    match logs {
        Logs::Grow => log_words(alloc, &pool.space, old, dev, log, pool.version),
        Logs::Anew => anew_words(alloc, &pool.space, dev, log, pool.version),
    }
}

// The stream of a log.
fn stream_of(streams: &DeviceStreams, log: Log) -> Stream
    requires { AreStreams streams.now }
    ensures lawful { IsStream result }
    ensures value { result ≡ log_stream log streams.now }
{
    match log {
        Log::Held => streams.held,
        Log::Kept => streams.kept,
        Log::Fresh => streams.fresh,
    }
}

// The streams of a device, of which that of a log is another.
fn with_stream(streams: DeviceStreams, log: Log, stream: Stream) -> DeviceStreams
    requires streams { AreStreams streams }
    requires stream { IsStream stream }
    ensures lawful { AreStreams result }
    ensures value { result ≡ with_log log streams stream }
{
    match log {
        Log::Held => DeviceStreams {
            held: stream,
            ..streams
        },
        Log::Kept => DeviceStreams {
            kept: stream,
            ..streams
        },
        Log::Fresh => DeviceStreams {
            fresh: stream,
            ..streams
        },
    }
}

/// Writes a log of a device.
pub fn write_log<S: Shelf, P: Place>(
    alloc: Global,
    pool: &mut OpenPool,
    shelf: &mut S,
    pick: &P,
    dev: u32,
    log: Log,
    logs: Logs,
) -> Result<(), Stop>
    requires pool { IsOpen (S.sizes shelf.old) pool.old }
    requires dev { dev < pool.old.table.count }
    ensures wrote { WritesMetadata (S.sizes shelf.old) (S.sizes shelf.new) (S.counts shelf.old) (S.counts shelf.new) (S.tells shelf.old) (S.tells shelf.new) (S.world shelf.old) (S.world shelf.new) pool.old pool.new }
    ensures pool { OnOk result (IsOpen (S.sizes shelf.new) pool.new) }
    ensures fault { IsErrOf result DiskFault → HasRisen (S.counts shelf.old).disk (S.counts shelf.new).disk }
    ensures writes { (s : Stored) (had : List ℕ) → HasMeta (S.tells shelf.old) (S.world shelf.old).now.seen pool.old s → AreStored (tree_reach s (log_stream log (streams_at pool.old dev)).tree) s → HasWords s (log_stream log (streams_at pool.old dev)) had → (logs ≡ Logs.Grow → IsLastLog pool.old.version pool.old.space dev log had)
        → OnOk result (Now (HasMeta (S.tells shelf.new) (S.world shelf.new).now.seen pool.new) (λ n. WritesLog s n pool.old pool.new dev log)) }
    ensures trees { (stage next : ℕ → Place → Stage) (cond : MappingStream → Stage) (others : List Standing) → WritesPlace (first_stage logs) stage next dev (OfLog log) → HasNoLateYet stage → HoldsStreams stage cond others (S.tells shelf.old) (S.world shelf.old).now.seen pool.old → OnOk result (HoldsStreams next cond others (S.tells shelf.new) (S.world shelf.new).now.seen pool.new) }
    ensures anew { logs ≡ Logs.Anew → OnOk result (RenewsLog pool.old pool.new dev log) }
{
    let index = dev as usize;
    let streams = pool.streams[index];
    let old = stream_of(&streams, log);
    let words = words_for(alloc, pool, &old, dev, log, logs)?;
    let mount = Mount {
        slots: &pool.table.slots,
        pick,
        txg: pool.group.txg(),
        kind: Kind::Meta,
    };
    let stream = put_log(
        alloc,
        &mut pool.space,
        shelf,
        &mut pool.cache,
        mount,
        &old,
        &words,
    )?;
    pool.streams[index] = with_stream(streams, log, stream);
    Ok(())
}
