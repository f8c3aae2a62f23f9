//! Making an object.
ghost use Rattle.std.specs.Prelude.{◌≡◌, ◌≤◌, ◌<◌, ◌↔◌, ℕ, List, IsTrue, IsOk, IfErr, IsErrOf, OnOk, Some, None, false, []};
ghost use Rattle.zr_base.specs.Blocks.{is_block_size};
ghost use Rattle.zr_base.specs.Counts.{HasRisen};
ghost use Rattle.zr_base.specs.declared.refusal.Refusal.{Refusal};
ghost use Rattle.zr_base.specs.declared.refusal.Refusal.TheVariants.{Damaged, NoRoom, ObjectExists, OutOfRange};
ghost use Rattle.zr_base.specs.declared.space.Dva.{Dva};
ghost use Rattle.zr_bptr.specs.declared.ObjRec.{ObjRec};
ghost use Rattle.zr_change.specs.Changes.{SetsObject};
ghost use Rattle.zr_sync.specs.Holds.{HasBlocks};
ghost use Rattle.zr_lookup.specs.Groups.{IsLawfulGroup};
ghost use Rattle.zr_lookup.specs.Objects.{record_now};
ghost use Rattle.zr_rules.specs.Columns.{free_units};
ghost use Rattle.zr_shelf.specs.Counts.{NoneFell};
ghost use Rattle.zr_store.specs.Store.{Stored};
ghost use Rattle.zr_sync.specs.Pools.{IsOpen, IsSamePool};
ghost use Rattle.zr_sync.specs.Writes.{WorksOnDisks};
ghost use Rattle.zr_sync.specs.declared.fault.Fault.TheVariants.{No, Stops};
ghost use Rattle.zr_sync.specs.declared.stop.Stop.TheVariants.{DiskFault};
ghost use Rattle.zr_txg.specs.Changes.{IsRecorded, block_count, changes_in};
ghost use Rattle.std.specs.FinMap as map;
ghost use Rattle.zr_held.specs.Steps.{IsObjectOf};
ghost use Rattle.zr_model.specs.Objects.{Objects, blank as blank_object};
ghost use Rattle.zr_sync.specs.Objects.{HoldsObjects};
ghost use Rattle.zr_last.specs.Last.{KeepsLast};
ghost use Rattle.zr_lines.specs.Answers.{IsAnswered, IsMakeRefusal, IsNoRoom};
ghost use Rattle.zr_lines.specs.Damage.{IsRecordDamage};
ghost use Rattle.zr_lines.specs.Groups.{IsReadyGroup, SetsInGroup, blank, can_make};
ghost use Rattle.zr_lines.specs.Room.{LacksRoom, room_for_group, room_to_make};
ghost use Rattle.zr_lines.specs.Stops.{StaysInOneGroup, WritesInOneGroup};

use crate::counts::new_objects;
use crate::record::find;
use crate::way::make_way;
use std::alloc::Global;
use zr_base::{NoMemory, Refusal, is_block_size};
use zr_change::make_object;
use zr_room::{demand, owed_with, slop_now};
use zr_shelf::Shelf;
use zr_sync::{Fault, OpenPool};
use zr_vdev::Place;

// Whether an object may have the ID and the block size.
fn can_make(id: u64, units: u64) -> bool
    ensures { result ≡ can_make id units }
{
    id < 65536 && is_block_size(units)
}

// Refuses an object for which there is no room beside the slop.
fn demand_to_make(pool: &OpenPool, id: u32) -> Result<(), Refusal>
    requires pool { (sizes : List ℕ) × IsOpen sizes pool.now }
    ensures enough { IsOk result ↔ room_to_make pool.now.space pool.now.group id ≤ free_units pool.now.space }
    ensures short { IfErr result (λ r. r ≡ NoRoom (room_to_make pool.now.space pool.now.group id) (free_units pool.now.space)) }
{
    let objects = pool.group.objects() + new_objects(pool, id);
    let owed = owed_with(pool, pool.group.blocks(), objects, 0);
    demand(pool, owed + slop_now(pool))
}

// Records a new object in the open group. After an error nothing is changed.
fn record_new(pool: &mut OpenPool, id: u32, units: u32) -> Result<(), NoMemory>
    requires lawful { IsLawfulGroup pool.old.group }
    requires id { id < 65536 }
    requires units { IsTrue (is_block_size units) }
    requires new { ¬ IsRecorded pool.old.group id }
    ensures rest { pool.new ≡ record pool.old { group = pool.new.group } }
    ensures sets { OnOk result (SetsObject id (Some (blank units)) pool.old.group pool.new.group) }
    ensures no_blocks { OnOk result (changes_in pool.new.group id ≡ []) }
    ensures block_count { OnOk result (block_count pool.new.group.objects ≡ block_count pool.old.group.objects) }
    ensures lawful { IsLawfulGroup pool.new.group }
{
    make_object(&mut pool.group, id, units)
}

// Makes an object that is not there.
fn make_absent<S: Shelf, P: Place>(
    alloc: Global,
    pool: &mut OpenPool,
    shelf: &mut S,
    pick: &P,
    id: u32,
    units: u32,
) -> Result<(), Fault>
    requires pool { IsOpen (S.sizes shelf.old) pool.old }
    requires id { id < 65536 }
    requires units { IsTrue (is_block_size units) }
    requires absent { ¬ IsRecorded pool.old.group id }
    ensures sizes { S.sizes shelf.new ≡ S.sizes shelf.old }
    ensures none_fell { NoneFell (S.counts shelf.old) (S.counts shelf.new) }
    ensures told { S.tells shelf.old → S.tells shelf.new }
    ensures disks { S.tells shelf.old → WorksOnDisks (S.world shelf.old) (S.world shelf.new) }
    ensures fault { IsErrOf result (Stops DiskFault) → HasRisen (S.counts shelf.old).disk (S.counts shelf.new).disk }
    ensures pool { IsAnswered result → IsOpen (S.sizes shelf.new) pool.new }
    ensures same { IsAnswered result → IsSamePool pool.old pool.new }
    ensures shown { S.tells shelf.old → IsAnswered result → KeepsLast (S.world shelf.old) (S.world shelf.new) pool.old pool.new }
    ensures refused { (r : Refusal) → IsErrOf result (No r) → IsNoRoom r }
    ensures objects { (objects : Objects) → HoldsObjects (S.tells shelf.old) (S.world shelf.old).now.seen pool.old objects → (r : Refusal) → IsErrOf result (No r) → HoldsObjects (S.tells shelf.new) (S.world shelf.new).now.seen pool.new objects }
    ensures comes { (objects : Objects) → HoldsObjects (S.tells shelf.old) (S.world shelf.old).now.seen pool.old objects → map.get objects id ≡ None → OnOk result (HoldsObjects (S.tells shelf.new) (S.world shelf.new).now.seen pool.new (map.insert objects id (blank_object units))) }
    ensures lacks { (needed free : ℕ) → IsErrOf result (No (NoRoom needed free)) → LacksRoom pool.new.space (room_to_make pool.new.space pool.new.group id) needed free }
    ensures room { OnOk result (room_for_group pool.new.space pool.new.group ≤ free_units pool.new.space) }
    ensures made { OnOk result (SetsInGroup id (Some (blank units)) pool.old.group pool.new.group) }
    ensures no_blocks { OnOk result (changes_in pool.new.group id ≡ []) }
    ensures group { (r : Refusal) → IsErrOf result (No r) → IsReadyGroup id pool.old.group pool.new.group }
    ensures one_group { (objects : Objects) → HoldsObjects (S.tells shelf.old) (S.world shelf.old).now.seen pool.old objects → IsAnswered result → StaysInOneGroup (S.sizes shelf.old) objects pool.old pool.new (S.world shelf.old) (S.world shelf.new) }
    ensures writes { (objects : Objects) → HoldsObjects (S.tells shelf.old) (S.world shelf.old).now.seen pool.old objects → WritesInOneGroup (S.sizes shelf.old) objects pool.old (S.world shelf.old) (S.world shelf.new) }
{
    let objects = new_objects(pool, id);
    make_way(alloc, pool, shelf, pick, 0, objects)?;
    demand_to_make(pool, id)?;
    record_new(pool, id, units)?;
    Ok(())
}

/// Makes an object whose blocks have so many units. It has no block and no height. Its ID is below 65,536, and a block has
/// 1, 2, 4, 8, 16 or 32 units. Nothing is written for it before the commit.
pub fn make<S: Shelf, P: Place>(
    alloc: Global,
    pool: &mut OpenPool,
    shelf: &mut S,
    pick: &P,
    id: u64,
    units: u64,
) -> Result<(), Fault>
    requires pool { IsOpen (S.sizes shelf.old) pool.old }
    ensures sizes { S.sizes shelf.new ≡ S.sizes shelf.old }
    ensures none_fell { NoneFell (S.counts shelf.old) (S.counts shelf.new) }
    ensures told { S.tells shelf.old → S.tells shelf.new }
    ensures disks { S.tells shelf.old → WorksOnDisks (S.world shelf.old) (S.world shelf.new) }
    ensures fault { IsErrOf result (Stops DiskFault) → HasRisen (S.counts shelf.old).disk (S.counts shelf.new).disk }
    ensures pool { IsAnswered result → IsOpen (S.sizes shelf.new) pool.new }
    ensures same { IsAnswered result → IsSamePool pool.old pool.new }
    ensures shown { S.tells shelf.old → IsAnswered result → KeepsLast (S.world shelf.old) (S.world shelf.new) pool.old pool.new }
    ensures refused { (r : Refusal) → IsErrOf result (No r) → IsMakeRefusal r }
    ensures range { IsErrOf result (No OutOfRange) ↔ (can_make id units ≡ false) }
    ensures there { (s : Stored) → HasBlocks (S.tells shelf.old) (S.world shelf.old).now.seen pool.old s → IsErrOf result (No ObjectExists) → (object : ObjRec) × (record_now s pool.old.dir pool.old.group id ≡ Some object) }
    ensures absent { (s : Stored) → HasBlocks (S.tells shelf.old) (S.world shelf.old).now.seen pool.old s → OnOk result (record_now s pool.old.dir pool.old.group id ≡ None) }
    ensures damaged { (s : Stored) → HasBlocks (S.tells shelf.old) (S.world shelf.old).now.seen pool.old s → (at : Dva) (expected found : List ℕ) → IsErrOf result (No (Damaged at expected found)) → IsRecordDamage s pool.old.dir id at expected found }
    ensures objects { (objects : Objects) → HoldsObjects (S.tells shelf.old) (S.world shelf.old).now.seen pool.old objects → (r : Refusal) → IsErrOf result (No r) → HoldsObjects (S.tells shelf.new) (S.world shelf.new).now.seen pool.new objects }
    ensures exists { (objects : Objects) → HoldsObjects (S.tells shelf.old) (S.world shelf.old).now.seen pool.old objects → IsErrOf result (No ObjectExists) → IsObjectOf objects id (λ o. Unit {0}) }
    ensures comes { (objects : Objects) → HoldsObjects (S.tells shelf.old) (S.world shelf.old).now.seen pool.old objects → OnOk result ((map.get objects id ≡ None) × HoldsObjects (S.tells shelf.new) (S.world shelf.new).now.seen pool.new (map.insert objects id (blank_object units))) }
    ensures lacks { (needed free : ℕ) → IsErrOf result (No (NoRoom needed free)) → LacksRoom pool.new.space (room_to_make pool.new.space pool.new.group id) needed free }
    ensures room { OnOk result (room_for_group pool.new.space pool.new.group ≤ free_units pool.new.space) }
    ensures made { OnOk result (SetsInGroup id (Some (blank units)) pool.old.group pool.new.group) }
    ensures no_blocks { OnOk result (changes_in pool.new.group id ≡ []) }
    ensures group { (r : Refusal) → IsErrOf result (No r) → IsReadyGroup id pool.old.group pool.new.group }
    ensures one_group { (objects : Objects) → HoldsObjects (S.tells shelf.old) (S.world shelf.old).now.seen pool.old objects → IsAnswered result → StaysInOneGroup (S.sizes shelf.old) objects pool.old pool.new (S.world shelf.old) (S.world shelf.new) }
    ensures writes { (objects : Objects) → HoldsObjects (S.tells shelf.old) (S.world shelf.old).now.seen pool.old objects → WritesInOneGroup (S.sizes shelf.old) objects pool.old (S.world shelf.old) (S.world shelf.new) }
{
    if !can_make(id, units) {
        return Err(Fault::No(Refusal::OutOfRange));
    }
    if find(alloc, pool, shelf, pick, id)?.is_some() {
        return Err(Fault::No(Refusal::ObjectExists));
    }
    make_absent(alloc, pool, shelf, pick, id as u32, units as u32)
}
