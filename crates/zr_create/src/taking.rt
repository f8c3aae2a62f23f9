//! Taking slots on as devices of the open group.
//!
//! A slot loses its old roots before it gets a label, and the pool has the device only once its labels are durable.
ghost use Rattle.std.specs.Prelude.{◌≡◌, ◌≢◌, ◌<◌, ◌≤◌, ◌⊎◌, ◌+◌, [], ◌∷◌, ◌++◌, ℕ, All, Option, Some, IsErrOf, IsTrue, OnOk, length, slice_index};
ghost use Rattle.zr_base.specs.Counts.{HasRisen};
ghost use Rattle.zr_label.specs.Blocks.{IsLabel, IsName};
ghost use Rattle.zr_label.specs.Geometry.{is_disk_size, units_of_size};
ghost use Rattle.zr_model.specs.Objects.{Objects};
ghost use Rattle.zr_newest.specs.Newest.{PreparesSlot};
ghost use Rattle.zr_shelf.specs.Counts.{NoneFell};
ghost use Rattle.zr_slots.specs.Checks.{AreNamed};
ghost use Rattle.zr_slots.specs.Phases.{IsPrepared};
ghost use Rattle.zr_sync.specs.Copies.{KeepsCopies};
ghost use Rattle.zr_sync.specs.Empty.{no_streams};
ghost use Rattle.zr_sync.specs.Objects.{HoldsObjects};
ghost use Rattle.zr_sync.specs.Pools.{AreStreams, IsPool, IsOpen};
ghost use Rattle.zr_sync.specs.Trees.{HasTrees};
ghost use Rattle.zr_sync.specs.Trees.Stage.{Had};
ghost use Rattle.zr_sync.specs.Writes.{WorksOnDisks};
ghost use Rattle.zr_sync.specs.declared.stop.Stop.TheVariants.{DiskFault};
ghost use Rattle.zr_view.specs.Views.{slot_of};
ghost use Rattle.zr_create.specs.Adding.{PreparesNext};
ghost use Rattle.zr_create.specs.Blank.{IsBlank};
ghost use Rattle.zr_create.specs.Devices.{TakesOn, HasDevicesIn, HaveDisks, KeepsRest, next_label, with_device};
ghost use Rattle.zr_create.specs.Labelled.{LabelsSlots};
ghost use Rattle.zr_create.specs.Making.{PreparesFirst, PreparesInPart};
ghost use Rattle.zr_create.specs.Names.{AreApart};

use std::alloc::Global;
use zr_base::{DevRow, DevState, NoMemory};
use zr_label::{Label, Name, units_of_size};
use zr_shelf::Shelf;
use zr_slots::prepare_device;
use zr_sync::{DeviceStreams, EMPTY, OpenPool, Stop, Table};

// Puts a device behind the last one.
fn enter(table: &mut Table, slot: u32, row: DevRow)
    requires { table.old.count < 32 }
    ensures { table.new ≡ with_device table.old slot row }
{
    let index = table.count as usize;
    table.rows[index] = row;
    table.slots[index] = Some(slot);
    table.count += 1;
}

// Adds the streams of a device of which nothing is used.
fn push_streams(streams: &mut Vec<DeviceStreams>) -> Result<(), NoMemory>
    requires { All AreStreams streams.old.items }
    ensures lawful { OnOk result (All AreStreams streams.new.items) }
    ensures count { OnOk result (length streams.new.items ≡ length streams.old.items + 1) }
    ensures items { OnOk result (streams.new.items ≡ streams.old.items ++ no_streams ∷ []) }
{
    streams.push(DeviceStreams {
        held: EMPTY,
        kept: EMPTY,
        entries: EMPTY,
        counts: EMPTY,
        fresh: EMPTY,
        late1: EMPTY,
        late2: EMPTY,
    })?;
    Ok(())
}

// The label of a device.
fn label_of(guid: u64, index: u32, added: u64, units: u64, name: Name) -> Label
    requires guid { 0 < guid }
    requires index { index < 32 }
    requires added { 0 < added }
    requires name { IsName name }
    ensures value { result ≡ record { guid = guid; index = index; added = added; units = units; name = name } }
    ensures lawful { IsLabel result }
{
    Label {
        guid,
        index,
        added,
        units,
        name,
    }
}

/// Takes a slot on as the next device, which the open group adds. After an error the pool is not to be used.
pub fn take_on<S: Shelf>(
    alloc: Global,
    pool: &mut OpenPool,
    shelf: &mut S,
    slot: u32,
    units: u64,
) -> Result<(), Stop>
    requires pool { IsPool 0 (S.sizes shelf.old) pool.old }
    requires few { pool.old.table.count < 32 }
    requires exists { slot < length (S.sizes shelf.old) }
    requires units { units_of_size (slice_index (S.sizes shelf.old) slot) pool.old.version ≡ Some units }
    requires free { (d : ℕ) → slot_of pool.old.table.slots d ≢ Some slot }
    ensures sizes { S.sizes shelf.new ≡ S.sizes shelf.old }
    ensures none_fell { NoneFell (S.counts shelf.old) (S.counts shelf.new) }
    ensures told { S.tells shelf.old → S.tells shelf.new }
    ensures disks { S.tells shelf.old → WorksOnDisks (S.world shelf.old) (S.world shelf.new) }
    ensures fault { IsErrOf result DiskFault → HasRisen (S.counts shelf.old).disk (S.counts shelf.new).disk }
    ensures prepared { S.tells shelf.old → OnOk result (IsPrepared (slice_index (S.sizes shelf.old) slot) slot (next_label pool.old units) (S.world shelf.old) (S.world shelf.new)) }
    ensures prepares { S.tells shelf.old → PreparesNext (S.sizes shelf.old) slot units pool.old (S.world shelf.old) (S.world shelf.new) }
    ensures label { IsLabel (next_label pool.old units) }
    ensures disk { IsTrue (is_disk_size 2 (slice_index (S.sizes shelf.old) slot)) }
    ensures labelled { S.tells shelf.old → OnOk result (PreparesSlot (S.world shelf.old).now.seen (S.world shelf.new).now.seen slot (next_label pool.old units)) }
    ensures pool { OnOk result (IsOpen (S.sizes shelf.new) pool.new) }
    ensures taken { OnOk result (TakesOn slot units pool.old pool.new) }
    ensures stays { (objects : Objects) → HoldsObjects (S.tells shelf.old) (S.world shelf.old).now.seen pool.old objects → OnOk result (HoldsObjects (S.tells shelf.new) (S.world shelf.new).now.seen pool.new objects) }
    ensures trees { HasTrees Had (S.tells shelf.old) (S.world shelf.old).now.seen pool.old → OnOk result (HasTrees Had (S.tells shelf.new) (S.world shelf.new).now.seen pool.new) }
    ensures copies { S.tells shelf.old → OnOk result (KeepsCopies (S.world shelf.old) (S.world shelf.new) pool.old pool.new) }
{
    let txg = pool.group.txg();
    let label = label_of(pool.guid, pool.table.count, txg, units, pool.name);
    prepare_device(alloc, shelf, slot, &label)?;
    push_streams(&mut pool.streams)?;
    pool.space.add_dev(units, txg)?;
    let row = DevRow {
        state: DevState::On,
        added: txg,
        units,
        gone: 0,
    };
    enter(&mut pool.table, slot, row);
    Ok(())
}

/// Takes these slots on as the first devices of a pool. After an error the pool is not to be used.
pub fn take_all<S: Shelf>(
    alloc: Global,
    pool: &mut OpenPool,
    shelf: &mut S,
    named: &[u32],
) -> Result<(), Stop>
    requires pool { IsPool 0 (S.sizes shelf.old) pool.old }
    requires blank { IsBlank pool.old }
    requires few { length named.now ≤ 32 }
    requires named { AreNamed (length (S.sizes shelf.old)) named.now }
    requires sized { HaveDisks (S.sizes shelf.old) pool.old.version named.now }
    requires apart { AreApart named.now }
    ensures sizes { S.sizes shelf.new ≡ S.sizes shelf.old }
    ensures none_fell { NoneFell (S.counts shelf.old) (S.counts shelf.new) }
    ensures told { S.tells shelf.old → S.tells shelf.new }
    ensures disks { S.tells shelf.old → WorksOnDisks (S.world shelf.old) (S.world shelf.new) }
    ensures fault { IsErrOf result DiskFault → HasRisen (S.counts shelf.old).disk (S.counts shelf.new).disk }
    ensures pool { OnOk result (IsPool 0 (S.sizes shelf.new) pool.new) }
    ensures devices { OnOk result (HasDevicesIn (S.sizes shelf.old) pool.old.group.txg named.now pool.new) }
    ensures only { OnOk result ((d slot : ℕ) → slot_of pool.new.table.slots d ≡ Some slot → (k : ℕ) × (k < length named.now) × (slice_index named.now k ≡ slot)) }
    ensures labelled { S.tells shelf.old → OnOk result (LabelsSlots (S.world shelf.old).now.seen (S.world shelf.new).now.seen named.now (length named.now) pool.new) }
    ensures prepares { S.tells shelf.old → PreparesInPart (S.sizes shelf.old) named.now (S.world shelf.old) (S.world shelf.new) }
    ensures prepared { S.tells shelf.old → OnOk result (PreparesFirst (S.sizes shelf.old) named.now (length named.now) (S.world shelf.old) (S.world shelf.new)) }
    ensures same { OnOk result (KeepsRest pool.old pool.new) }
    ensures stays { (objects : Objects) → HoldsObjects (S.tells shelf.old) (S.world shelf.old).now.seen pool.old objects → OnOk result (HoldsObjects (S.tells shelf.new) (S.world shelf.new).now.seen pool.new objects) }
    ensures trees { HasTrees Had (S.tells shelf.old) (S.world shelf.old).now.seen pool.old → OnOk result (HasTrees Had (S.tells shelf.new) (S.world shelf.new).now.seen pool.new) }
{
    for i in 0..named.len() {
        let slot = named[i];
        let Some(units) = units_of_size(shelf.size(slot), pool.version) else {
            unreachable!()
        };
        take_on(alloc, pool, shelf, slot, units)?;
    }
    Ok(())
}
