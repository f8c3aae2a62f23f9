//! Streams that a pool has no more use for.
//!
//! Their blocks are metadata that the last root still has, so they are given back within the open group.
ghost use Rattle.std.specs.Prelude.{◌<◌, List, IsErrOf, OnOk};
ghost use Rattle.zr_base.specs.Counts.{HasRisen};
ghost use Rattle.zr_beside.specs.Beside.{Standing};
ghost use Rattle.zr_sync.specs.Pools.{IsOpen};
ghost use Rattle.zr_sync.specs.Trees.{HoldsStreams, every, one_stage};
ghost use Rattle.zr_sync.specs.Trees.Stage.{Had};
ghost use Rattle.zr_sync.specs.declared.stop.Stop.TheVariants.{DiskFault};
ghost use Rattle.zr_removal.specs.Streams.{GivesStreams};
ghost use Rattle.zr_removal.specs.Trees.{HasNoMapping, HasNoSets, freeing, is_of_mapping, is_of_sets};

use std::alloc::Global;
use zr_choose::Chooser;
use zr_shelf::Shelf;
use zr_sync::{EMPTY, OpenPool, Stop, give_streams};
use zr_vdev::{Kind, Mount};

/// Gives back the streams of a device's mapping: its entries, their counts, and the log of its fresh obsolete units. Where it has
/// no mapping any more, the trees of all streams are then as the last root has them.
pub fn give_mapping<S: Shelf>(
    alloc: Global,
    pool: &mut OpenPool,
    shelf: &mut S,
    pick: &Chooser,
    dev: u32,
) -> Result<(), Stop>
    requires pool { IsOpen (S.sizes shelf.old) pool.old }
    requires dev { dev < pool.old.table.count }
    ensures gave { GivesStreams (S.sizes shelf.old) (S.sizes shelf.new) (S.counts shelf.old) (S.counts shelf.new) (S.tells shelf.old) (S.tells shelf.new) (S.world shelf.old) (S.world shelf.new) pool.old pool.new }
    ensures pool { OnOk result (IsOpen (S.sizes shelf.new) pool.new) }
    ensures fault { IsErrOf result DiskFault → HasRisen (S.counts shelf.old).disk (S.counts shelf.new).disk }
    ensures trees { (others : List Standing) → HasNoMapping pool.old.space dev → HoldsStreams (freeing is_of_mapping dev) (one_stage Had) others (S.tells shelf.old) (S.world shelf.old).now.seen pool.old → OnOk result (HoldsStreams (every Had) (one_stage Had) others (S.tells shelf.new) (S.world shelf.new).now.seen pool.new) }
{
    let index = dev as usize;
    let old = pool.streams[index];
    let mount = Mount {
        slots: &pool.table.slots,
        pick,
        txg: pool.group.txg(),
        kind: Kind::Meta,
    };
    give_streams(
        alloc,
        &mut pool.space,
        shelf,
        &mut pool.cache,
        mount,
        &[old.entries, old.counts, old.fresh],
    )?;
    let device = &mut pool.streams[index];
    device.entries = EMPTY;
    device.counts = EMPTY;
    device.fresh = EMPTY;
    Ok(())
}

/// Gives back the streams of a device's sets: the logs of its held and of its kept units, and its late sets. Where the last root has
/// none of these units, the trees of all streams are then as the last root has them.
pub fn give_sets<S: Shelf>(
    alloc: Global,
    pool: &mut OpenPool,
    shelf: &mut S,
    pick: &Chooser,
    dev: u32,
) -> Result<(), Stop>
    requires pool { IsOpen (S.sizes shelf.old) pool.old }
    requires dev { dev < pool.old.table.count }
    ensures gave { GivesStreams (S.sizes shelf.old) (S.sizes shelf.new) (S.counts shelf.old) (S.counts shelf.new) (S.tells shelf.old) (S.tells shelf.new) (S.world shelf.old) (S.world shelf.new) pool.old pool.new }
    ensures pool { OnOk result (IsOpen (S.sizes shelf.new) pool.new) }
    ensures fault { IsErrOf result DiskFault → HasRisen (S.counts shelf.old).disk (S.counts shelf.new).disk }
    ensures trees { (others : List Standing) → HasNoSets pool.old.space dev → HoldsStreams (freeing is_of_sets dev) (one_stage Had) others (S.tells shelf.old) (S.world shelf.old).now.seen pool.old → OnOk result (HoldsStreams (every Had) (one_stage Had) others (S.tells shelf.new) (S.world shelf.new).now.seen pool.new) }
{
    let index = dev as usize;
    let old = pool.streams[index];
    let mount = Mount {
        slots: &pool.table.slots,
        pick,
        txg: pool.group.txg(),
        kind: Kind::Meta,
    };
    give_streams(
        alloc,
        &mut pool.space,
        shelf,
        &mut pool.cache,
        mount,
        &[old.held, old.kept, old.late1, old.late2],
    )?;
    let device = &mut pool.streams[index];
    device.held = EMPTY;
    device.kept = EMPTY;
    device.late1 = EMPTY;
    device.late2 = EMPTY;
    Ok(())
}
