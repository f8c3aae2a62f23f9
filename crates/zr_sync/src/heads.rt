//! The head of the next root in a commit.
ghost use Rattle.std.specs.Prelude.{ℕ, List, ◌≡◌, ◌++◌, ◌≤◌, ◌*◌, ◌%◌, [], ◌∷◌, take, IsErrOf, IfOk, OnOk};
ghost use Rattle.std.specs.List.{AllByRecursion};
ghost use Rattle.zr_base.specs.Counts.{HasRisen};
ghost use Rattle.zr_label.specs.Blocks.{IsMetaRoot};
ghost use Rattle.zr_meta.specs.Heads.{IsCond, IsHead, IsStream};
ghost use Rattle.zr_sync.specs.Heads.{HasHead, HasSafeHead, IsSeen, cond_at, cond_streams, head_of, streams_in};
ghost use Rattle.zr_sync.specs.Pools.{AreCondStreams, AreStreams, IsOpen, saved_block};
ghost use Rattle.zr_sync.specs.Writes.{WritesMetadata};
ghost use Rattle.zr_sync.specs.declared.stop.Stop.TheVariants.{DiskFault};
ghost use Rattle.zr_beside.specs.Beside.{Standing, of_tree};
ghost use Rattle.zr_bptr.specs.declared.Tree.{Tree};
ghost use Rattle.zr_root.specs.Streams.{IsTreeFor};
ghost use Rattle.zr_sync.specs.Trees.{HoldsStreams, Place, Stage};
ghost use Rattle.zr_sync.specs.declared.mappings.MappingStream.{MappingStream};

use crate::open::{Checkpoint, CondStreams, DeviceStreams, OpenPool};
use crate::stop::Stop;
use crate::stores::put_head;
use std::alloc::Global;
use zr_base::{Blob, DevState, Items, NoMemory};
use zr_bptr::Ptr;
use zr_meta::{CondAt, Head, Stream};
use zr_shelf::Shelf;
use zr_space::Space;
use zr_vdev::{Kind, Mount, Place};

// Adds the logs of a device that is there.
fn add_logs(streams: &mut Items<Stream>, device: &DeviceStreams) -> Result<(), NoMemory>
    requires lawful { AllByRecursion IsStream streams.old }
    requires device { AreStreams device.now }
    ensures lawful { OnOk result (AllByRecursion IsStream streams.new) }
    ensures added { OnOk result (streams.new ≡ streams.old ++ device.now.held ∷ device.now.kept ∷ []) }
{
    streams.push(device.held)?;
    streams.push(device.kept)
}

// Adds the mapping of a device that is leaving or gone.
fn add_mapping(streams: &mut Items<Stream>, device: &DeviceStreams) -> Result<(), NoMemory>
    requires lawful { AllByRecursion IsStream streams.old }
    requires device { AreStreams device.now }
    ensures lawful { OnOk result (AllByRecursion IsStream streams.new) }
    ensures added { OnOk result (streams.new ≡ streams.old ++ device.now.entries ∷ device.now.counts ∷ device.now.fresh ∷ []) }
{
    streams.push(device.entries)?;
    streams.push(device.counts)?;
    streams.push(device.fresh)
}

// Adds the late sets of a device that is there.
fn add_lates(streams: &mut Items<Stream>, device: &DeviceStreams) -> Result<(), NoMemory>
    requires lawful { AllByRecursion IsStream streams.old }
    requires device { AreStreams device.now }
    ensures lawful { OnOk result (AllByRecursion IsStream streams.new) }
    ensures added { OnOk result (streams.new ≡ streams.old ++ device.now.late1 ∷ device.now.late2 ∷ []) }
{
    streams.push(device.late1)?;
    streams.push(device.late2)
}

// Adds the streams of a device of this state in their order.
fn add_streams(
    streams: &mut Items<Stream>,
    state: DevState,
    device: &DeviceStreams,
) -> Result<(), NoMemory>
    requires lawful { AllByRecursion IsStream streams.old }
    requires device { AreStreams device.now }
    ensures lawful { OnOk result (AllByRecursion IsStream streams.new) }
    ensures added { OnOk result (streams.new ≡ streams.old ++ streams_in state device.now) }
{
    if state != DevState::Gone {
        add_logs(streams, device)?;
    }
    if state != DevState::On {
        add_mapping(streams, device)?;
    }
    if state != DevState::Gone {
        add_lates(streams, device)?;
    }
    Ok(())
}

// A copy of the block of the root that a checkpoint holds.
fn block_of(alloc: Global, saved: &Option<Checkpoint>) -> Result<Option<Blob>, NoMemory>
    ensures { IfOk result (λ block. block ≡ saved_block saved.now) }
{
    match saved {
        None => Ok(None),
        Some(held) => Ok(Some(Blob::copy_of(alloc, held.block.as_slice())?)),
    }
}

// The condensing that goes on, as a head tells it.
fn cond_at(space: &Space) -> Option<CondAt>
    ensures at { result ≡ cond_at space.now.parts.cond }
    ensures fits { IsCond result }
{
    let cond = space.condensing()?;
    Some(CondAt {
        dev: cond.dev(),
        at: cond.at(),
    })
}

// Adds the streams of the condensing that goes on, if one does.
fn add_condensing(
    streams: &mut Items<Stream>,
    at: Option<CondAt>,
    cond: &CondStreams,
) -> Result<(), NoMemory>
    requires lawful { AllByRecursion IsStream streams.old }
    requires cond { AreCondStreams cond.now }
    ensures lawful { OnOk result (AllByRecursion IsStream streams.new) }
    ensures added { OnOk result (streams.new ≡ streams.old ++ cond_streams at cond.now) }
{
    match at {
        None => Ok(()),
        Some(_) => {
            streams.push(cond.entries)?;
            streams.push(cond.counts)
        }
    }
}

// The head of the next root.
fn head_of(alloc: Global, pool: &OpenPool) -> Result<Head, NoMemory>
    requires { (sizes : List ℕ) × IsOpen sizes pool.now }
    ensures lawful { IfOk result (IsHead (take pool.now.table.count pool.now.table.rows)) }
    ensures head { IfOk result (λ head. head ≡ head_of pool.now) }
{
    let mut streams = Items::new(alloc);
    for dev in 0..pool.table.count as usize {
        add_streams(&mut streams, pool.table.rows[dev].state, &pool.streams[dev])?;
    }
    let cond = cond_at(&pool.space);
    add_condensing(&mut streams, cond, &pool.cond)?;
    let saved = block_of(alloc, &pool.saved)?;
    Ok(Head {
        form: 2,
        dir: pool.dir,
        saved,
        ckpt: pool.space.ckpt(),
        cond,
        streams,
    })
}

/// Writes the head. The answer is the root of its tree and its bytes.
pub fn write_head<S: Shelf, P: Place>(
    alloc: Global,
    pool: &mut OpenPool,
    shelf: &mut S,
    pick: &P,
) -> Result<(Ptr, u64), Stop>
    requires pool { IsOpen (S.sizes shelf.old) pool.old }
    ensures wrote { WritesMetadata (S.sizes shelf.old) (S.sizes shelf.new) (S.counts shelf.old) (S.counts shelf.new) (S.tells shelf.old) (S.tells shelf.new) (S.world shelf.old) (S.world shelf.new) pool.old pool.new }
    ensures pool { OnOk result (IsOpen (S.sizes shelf.new) pool.new) }
    ensures fault { IsErrOf result DiskFault → HasRisen (S.counts shelf.old).disk (S.counts shelf.new).disk }
    ensures streams { pool.new.streams ≡ pool.old.streams }
    ensures trees { (stage : ℕ → Place → Stage) (cond : MappingStream → Stage) (others : List Standing) → HoldsStreams stage cond others (S.tells shelf.old) (S.world shelf.old).now.seen pool.old → IfOk result (λ head. (bytes : List ℕ) × ((t : Tree) → IsTreeFor head.1 head.0 t → HoldsStreams stage cond (of_tree t bytes ∷ others) (S.tells shelf.new) (S.world shelf.new).now.seen pool.new)) }
    ensures root { IfOk result (λ head. IsMetaRoot head.0 head.1) }
    ensures whole { IfOk result (λ head. head.1 % 8 ≡ 0) }
    ensures least { IfOk result (λ head. 8 ≤ head.1) }
    ensures short { IfOk result (λ head. head.1 ≤ 35016) }
    ensures stands { IsSeen (S.tells shelf.old) (S.world shelf.old).now.seen pool.old → IfOk result (λ head. HasHead (S.world shelf.new).now.seen pool.new head.0 head.1) }
    ensures safe { IsSeen (S.tells shelf.old) (S.world shelf.old).now.seen pool.old → IfOk result (λ head. HasSafeHead (S.world shelf.new).now.seen pool.new head.0 head.1) }
{
    let head = head_of(alloc, pool)?;
    let mount = Mount {
        slots: &pool.table.slots,
        pick,
        txg: pool.group.txg(),
        kind: Kind::Meta,
    };
    put_head(
        alloc,
        &mut pool.space,
        shelf,
        &mut pool.cache,
        mount,
        &head,
        &pool.table.rows[..pool.table.count as usize],
    )
}
