//! Dropping an object.
//!
//! The object's blocks are found first, and what a free of them touches is asked of the room. Only then are they given
//! back, and the open group records that the object is gone.
ghost use Rattle.std.specs.Prelude.{◌≡◌, ◌≤◌, ◌<◌, ◌+◌, ◌^◌, ◌↔◌, ◌⊎◌, ℕ, List, [], All, length, IsOk, IfErr, IfOk, IsErrOf, OnOk, Ok, Option, None};
ghost use Rattle.zr_base.specs.Counts.{HasRisen};
ghost use Rattle.zr_base.specs.declared.refusal.Refusal.{Refusal};
ghost use Rattle.zr_base.specs.declared.refusal.Refusal.TheVariants.{Damaged, NoRoom, NoSuchObject};
ghost use Rattle.zr_base.specs.declared.space.Dva.{Dva};
ghost use Rattle.zr_bptr.specs.Spelling.{IsPointer, IsTree};
ghost use Rattle.zr_bptr.specs.declared.Bptr.{Bptr};
ghost use Rattle.zr_change.specs.Changes.{SetsObject};
ghost use Rattle.zr_lines.specs.Sought.{CanTake};
ghost use Rattle.zr_sync.specs.Holds.{HasBlocks};
ghost use Rattle.zr_lookup.specs.Groups.{IsLawfulGroup};
ghost use Rattle.zr_lookup.specs.Objects.{record_now};
ghost use Rattle.zr_rules.specs.Columns.{free_units};
ghost use Rattle.zr_rules.specs.Equation.{devices_in};
ghost use Rattle.zr_shelf.specs.Counts.{NoneFell};
ghost use Rattle.zr_store.specs.Store.{Stored, AreStored, Now, Swaps};
ghost use Rattle.zr_sync.specs.Pools.{IsOpen, IsSamePool};
ghost use Rattle.zr_sync.specs.Writes.{WorksOnDisks, WritesBlocks};
ghost use Rattle.zr_sync.specs.declared.fault.Fault.TheVariants.{No, Stops};
ghost use Rattle.zr_sync.specs.declared.open.OpenPool.{OpenPool};
ghost use Rattle.zr_sync.specs.declared.stop.Stop.TheVariants.{DiskFault, NoMemory};
ghost use Rattle.zr_txg.specs.Changes.{block_count, changes_in};
ghost use Rattle.zr_vdev.specs.Mounts.{AreMounted};
ghost use Rattle.zr_vdev.specs.Stores.{Continues, HoldsBlocks};
ghost use Rattle.zr_last.specs.Last.{KeepsLast};
ghost use Rattle.zr_lines.specs.Answers.{IsAnswered, IsDropRefusal, IsSumRefusal};
ghost use Rattle.zr_lines.specs.Counts.{new_object};
ghost use Rattle.std.specs.FinMap as map;
ghost use Rattle.zr_held.specs.Steps.{IsObjectOf};
ghost use Rattle.zr_model.specs.Objects.{Objects};
ghost use Rattle.zr_sync.specs.Objects.{HoldsObjects};
ghost use Rattle.zr_lines.specs.Damage.{FindsDamage, IsDamageOf, IsRecordDamage};
ghost use Rattle.zr_lines.specs.Drops.{AreBlocksOf, AreFoundIn, GivesUp, IsFoundToDrop};
ghost use Rattle.zr_lines.specs.Groups.{IsReadyGroup, SetsInGroup};
ghost use Rattle.zr_lines.specs.Room.{LacksRoom, room_to_drop};
ghost use Rattle.zr_lines.specs.Stops.{StaysInGroup, StaysInOneGroup, WritesInOneGroup};

use crate::counts::{new_objects, pieces_of};
use crate::present::blocks_present;
use crate::record::need;
use crate::way::make_way;
use std::alloc::Global;
use zr_base::Refusal;
use zr_bptr::{Bptr, Tree};
use zr_cache::Cache;
use zr_change::drop_object;
use zr_room::{demand, owed_with};
use zr_shelf::Shelf;
use zr_space::Space;
use zr_sync::{Fault, OpenPool};
use zr_txg::Group;
use zr_vdev::{Kind, Mount, Place, Vdev};

// The blocks of an object, found on a store of their own.
fn read_blocks<S: Shelf, P: Place>(
    alloc: Global,
    space: &mut Space,
    shelf: &mut S,
    cache: &mut Cache,
    mount: Mount<P>,
    dir: &Tree,
    group: &Group,
    id: u64,
) -> Result<Vec<Bptr>, Fault>
    requires mounted { AreMounted (S.sizes shelf.old) mount.slots.now (devices_in space.old) }
    requires txg { 1 ≤ mount.txg }
    requires dir { IsTree dir.now }
    requires low { dir.now.height ≤ 3 }
    requires group { IsLawfulGroup group.now }
    ensures continues { Continues mount.entry.kind mount.entry.slots.now (S.sizes shelf.old) (S.sizes shelf.new) (S.counts shelf.old) (S.counts shelf.new) (S.tells shelf.old) (S.tells shelf.new) (S.world shelf.old) (S.world shelf.new) space.old space.new cache.old cache.new }
    ensures fault { IsErrOf result (Stops DiskFault) → HasRisen (S.counts shelf.old).disk (S.counts shelf.new).disk }
    ensures refused { (r : Refusal) → IsErrOf result (No r) → IsSumRefusal r }
    ensures held { (s : Stored) → HoldsBlocks mount.entry.kind mount.entry.slots.now (S.tells shelf.old) (S.world shelf.old).now.seen space.old None cache.old s → Now (HoldsBlocks mount.entry.kind mount.entry.slots.now (S.tells shelf.new) (S.world shelf.new).now.seen space.new None cache.new) (λ n. Swaps s n [] []) }
    ensures none { (s : Stored) → HoldsBlocks mount.entry.kind mount.entry.slots.now (S.tells shelf.old) (S.world shelf.old).now.seen space.old None cache.old s → IsErrOf result (No NoSuchObject) → record_now s dir.now group.now id ≡ None }
    ensures damaged { (s : Stored) → HoldsBlocks mount.entry.kind mount.entry.slots.now (S.tells shelf.old) (S.world shelf.old).now.seen space.old None cache.old s → (at : Dva) (expected found : List ℕ) → IsErrOf result (No (Damaged at expected found)) → IsDamageOf s dir.now group.now id (λ r index. ⊥) at expected found }
    ensures lawful { IfOk result (λ blocks. All IsPointer blocks.items) }
    ensures count { IfOk result (λ blocks. length blocks.items ≤ 2 ^ 25 + 2 ^ 21) }
    ensures blocks { (s : Stored) → HoldsBlocks mount.entry.kind mount.entry.slots.now (S.tells shelf.old) (S.world shelf.old).now.seen space.old None cache.old s → IfOk result (λ blocks. AreBlocksOf s dir.now group.now id blocks.items) }
{
    let mut store = Vdev::new(space, shelf, cache, mount);
    blocks_present(alloc, &mut store, dir, group, id)
}

// The blocks of an object as the open group has it.
fn object_blocks<S: Shelf, P: Place>(
    alloc: Global,
    pool: &mut OpenPool,
    shelf: &mut S,
    pick: &P,
    id: u32,
) -> Result<Vec<Bptr>, Fault>
    requires pool { IsOpen (S.sizes shelf.old) pool.old }
    ensures wrote { WritesBlocks (S.sizes shelf.old) (S.sizes shelf.new) (S.counts shelf.old) (S.counts shelf.new) (S.tells shelf.old) (S.tells shelf.new) (S.world shelf.old) (S.world shelf.new) pool.old pool.new }
    ensures fault { IsErrOf result (Stops DiskFault) → HasRisen (S.counts shelf.old).disk (S.counts shelf.new).disk }
    ensures group { pool.new.group ≡ pool.old.group }
    ensures pool { IsOpen (S.sizes shelf.new) pool.new }
    ensures refused { (r : Refusal) → IsErrOf result (No r) → IsSumRefusal r }
    ensures held { (s : Stored) → HasBlocks (S.tells shelf.old) (S.world shelf.old).now.seen pool.old s → Now (HasBlocks (S.tells shelf.new) (S.world shelf.new).now.seen pool.new) (λ n. Swaps s n [] []) }
    ensures none { (s : Stored) → HasBlocks (S.tells shelf.old) (S.world shelf.old).now.seen pool.old s → IsErrOf result (No NoSuchObject) → record_now s pool.old.dir pool.old.group id ≡ None }
    ensures damaged { (s : Stored) → HasBlocks (S.tells shelf.old) (S.world shelf.old).now.seen pool.old s → (at : Dva) (expected found : List ℕ) → IsErrOf result (No (Damaged at expected found)) → IsDamageOf s pool.old.dir pool.old.group id (λ r index. ⊥) at expected found }
    ensures lawful { IfOk result (λ blocks. All IsPointer blocks.items) }
    ensures count { IfOk result (λ blocks. length blocks.items ≤ 2 ^ 25 + 2 ^ 21) }
    ensures blocks { (s : Stored) → HasBlocks (S.tells shelf.old) (S.world shelf.old).now.seen pool.old s → IfOk result (λ blocks. AreBlocksOf s pool.old.dir pool.old.group id blocks.items) }
{
    let mount = Mount {
        slots: &pool.table.slots,
        pick,
        txg: pool.group.txg(),
        kind: Kind::Block,
    };
    read_blocks(
        alloc,
        &mut pool.space,
        shelf,
        &mut pool.cache,
        mount,
        &pool.dir,
        &pool.group,
        u64::from(id),
    )
}

// Commits the open group where it cannot take the object, once the object is found.
fn make_way_for<S: Shelf, P: Place>(
    alloc: Global,
    pool: &mut OpenPool,
    shelf: &mut S,
    pick: &P,
    id: u32,
) -> Result<(), Fault>
    requires pool { IsOpen (S.sizes shelf.old) pool.old }
    ensures sizes { S.sizes shelf.new ≡ S.sizes shelf.old }
    ensures objects { (objects : Objects) → HoldsObjects (S.tells shelf.old) (S.world shelf.old).now.seen pool.old objects → IsAnswered result → HoldsObjects (S.tells shelf.new) (S.world shelf.new).now.seen pool.new objects }
    ensures missing { (objects : Objects) → HoldsObjects (S.tells shelf.old) (S.world shelf.old).now.seen pool.old objects → IsErrOf result (No NoSuchObject) → map.get objects id ≡ None }
    ensures none_fell { NoneFell (S.counts shelf.old) (S.counts shelf.new) }
    ensures told { S.tells shelf.old → S.tells shelf.new }
    ensures disks { S.tells shelf.old → WorksOnDisks (S.world shelf.old) (S.world shelf.new) }
    ensures fault { IsErrOf result (Stops DiskFault) → HasRisen (S.counts shelf.old).disk (S.counts shelf.new).disk }
    ensures pool { IsAnswered result → IsOpen (S.sizes shelf.new) pool.new }
    ensures same { IsAnswered result → IsSamePool pool.old pool.new }
    ensures shown { S.tells shelf.old → IsAnswered result → KeepsLast (S.world shelf.old) (S.world shelf.new) pool.old pool.new }
    ensures refused { (r : Refusal) → IsErrOf result (No r) → IsSumRefusal r }
    ensures none { (s : Stored) → HasBlocks (S.tells shelf.old) (S.world shelf.old).now.seen pool.old s → IsErrOf result (No NoSuchObject) → record_now s pool.old.dir pool.old.group id ≡ None }
    ensures damaged { (s : Stored) → HasBlocks (S.tells shelf.old) (S.world shelf.old).now.seen pool.old s → (at : Dva) (expected found : List ℕ) → IsErrOf result (No (Damaged at expected found)) → IsRecordDamage s pool.old.dir id at expected found }
    ensures group { IsAnswered result → IsReadyGroup id pool.old.group pool.new.group }
    ensures takes { OnOk result (CanTake 0 (new_object pool.new.group id) pool.new.group) }
    ensures stays { CanTake 0 (new_object pool.old.group id) pool.old.group → (result ≡ Ok tt) × (pool.new ≡ pool.old) × (shelf.new ≡ shelf.old) }
    ensures one_group { (objects : Objects) → HoldsObjects (S.tells shelf.old) (S.world shelf.old).now.seen pool.old objects → IsAnswered result → StaysInOneGroup (S.sizes shelf.old) objects pool.old pool.new (S.world shelf.old) (S.world shelf.new) }
    ensures writes { (objects : Objects) → HoldsObjects (S.tells shelf.old) (S.world shelf.old).now.seen pool.old objects → WritesInOneGroup (S.sizes shelf.old) objects pool.old (S.world shelf.old) (S.world shelf.new) }
{
    let objects = new_objects(pool, id);
    if pool.group.fits(0, objects) {
        return Ok(());
    }
    need(alloc, pool, shelf, pick, u64::from(id))?;
    make_way(alloc, pool, shelf, pick, 0, objects)?;
    Ok(())
}

// Refuses a drop for which there is no room: what is owed with it may not exceed what is free, the slop included.
fn demand_to_drop(pool: &OpenPool, id: u32, blocks: &[Bptr]) -> Result<(), Refusal>
    requires pool { (sizes : List ℕ) × IsOpen sizes pool.now }
    requires lawful { All IsPointer blocks.now }
    requires count { length blocks.now ≤ 2 ^ 25 + 2 ^ 21 }
    ensures enough { IsOk result ↔ room_to_drop pool.now.space pool.now.group id blocks.now ≤ free_units pool.now.space }
    ensures short { IfErr result (λ r. r ≡ NoRoom (room_to_drop pool.now.space pool.now.group id blocks.now) (free_units pool.now.space)) }
{
    let objects = pool.group.objects() + new_objects(pool, id);
    let changed = pool.group.blocks() - pool.group.changes(id).len() as u64;
    demand(
        pool,
        owed_with(pool, changed, objects, pieces_of(pool, blocks)),
    )
}

// Gives back the blocks of an object on a store of their own, and records that it is gone.
fn free_blocks<S: Shelf, P: Place>(
    alloc: Global,
    space: &mut Space,
    shelf: &mut S,
    cache: &mut Cache,
    mount: Mount<P>,
    group: &mut Group,
    id: u32,
    blocks: &[Bptr],
) -> Result<(), Fault>
    requires mounted { AreMounted (S.sizes shelf.old) mount.slots.now (devices_in space.old) }
    requires txg { 1 ≤ mount.txg }
    requires lawful { IsLawfulGroup group.old }
    requires id { id < 65536 }
    ensures continues { Continues mount.entry.kind mount.entry.slots.now (S.sizes shelf.old) (S.sizes shelf.new) (S.counts shelf.old) (S.counts shelf.new) (S.tells shelf.old) (S.tells shelf.new) (S.world shelf.old) (S.world shelf.new) space.old space.new cache.old cache.new }
    ensures memory { IfErr result (λ e. e ≡ Stops NoMemory) }
    ensures sets { OnOk result (SetsObject id None group.old group.new) }
    ensures block_count { OnOk result (block_count group.new.objects + length (changes_in group.old id) ≡ block_count group.old.objects) }
    ensures lawful { IsLawfulGroup group.new }
    ensures kept { IfErr result (λ e. group.new ≡ group.old) }
    ensures swaps { (s : Stored) → HoldsBlocks mount.entry.kind mount.entry.slots.now (S.tells shelf.old) (S.world shelf.old).now.seen space.old None cache.old s → AreStored blocks.now s → OnOk result (Now (HoldsBlocks mount.entry.kind mount.entry.slots.now (S.tells shelf.new) (S.world shelf.new).now.seen space.new None cache.new) (λ n. Swaps s n blocks.now [])) }
{
    let mut store = Vdev::new(space, shelf, cache, mount);
    Ok(drop_object(alloc, &mut store, group, id, blocks)?)
}

// Gives back the blocks of an object, and records that it is gone.
fn free_object<S: Shelf, P: Place>(
    alloc: Global,
    pool: &mut OpenPool,
    shelf: &mut S,
    pick: &P,
    id: u32,
    blocks: &[Bptr],
) -> Result<(), Fault>
    requires pool { IsOpen (S.sizes shelf.old) pool.old }
    requires id { id < 65536 }
    requires room { CanTake 0 (new_object pool.old.group id) pool.old.group }
    ensures wrote { WritesBlocks (S.sizes shelf.old) (S.sizes shelf.new) (S.counts shelf.old) (S.counts shelf.new) (S.tells shelf.old) (S.tells shelf.new) (S.world shelf.old) (S.world shelf.new) pool.old pool.new }
    ensures memory { IfErr result (λ e. e ≡ Stops NoMemory) }
    ensures pool { OnOk result (IsOpen (S.sizes shelf.new) pool.new) }
    ensures sets { OnOk result (SetsObject id None pool.old.group pool.new.group) }
    ensures gives { OnOk result (GivesUp blocks.now (S.tells shelf.old) (S.world shelf.old).now.seen pool.old (S.tells shelf.new) (S.world shelf.new).now.seen pool.new) }
{
    let mount = Mount {
        slots: &pool.table.slots,
        pick,
        txg: pool.group.txg(),
        kind: Kind::Block,
    };
    free_blocks(
        alloc,
        &mut pool.space,
        shelf,
        &mut pool.cache,
        mount,
        &mut pool.group,
        id,
        blocks,
    )
}

// Drops an object that the open group can take.
fn drop_ready<S: Shelf, P: Place>(
    alloc: Global,
    pool: &mut OpenPool,
    shelf: &mut S,
    pick: &P,
    id: u32,
) -> Result<(), Fault>
    requires pool { IsOpen (S.sizes shelf.old) pool.old }
    requires id { id < 65536 }
    requires takes { CanTake 0 (new_object pool.old.group id) pool.old.group }
    ensures sizes { S.sizes shelf.new ≡ S.sizes shelf.old }
    ensures objects { (objects : Objects) → HoldsObjects (S.tells shelf.old) (S.world shelf.old).now.seen pool.old objects → (r : Refusal) → IsErrOf result (No r) → HoldsObjects (S.tells shelf.new) (S.world shelf.new).now.seen pool.new objects }
    ensures missing { (objects : Objects) → HoldsObjects (S.tells shelf.old) (S.world shelf.old).now.seen pool.old objects → IsErrOf result (No NoSuchObject) → map.get objects id ≡ None }
    ensures gone { (objects : Objects) → HoldsObjects (S.tells shelf.old) (S.world shelf.old).now.seen pool.old objects → OnOk result (IsObjectOf objects id (λ o. HoldsObjects (S.tells shelf.new) (S.world shelf.new).now.seen pool.new (map.remove objects id))) }
    ensures none_fell { NoneFell (S.counts shelf.old) (S.counts shelf.new) }
    ensures told { S.tells shelf.old → S.tells shelf.new }
    ensures disks { S.tells shelf.old → WorksOnDisks (S.world shelf.old) (S.world shelf.new) }
    ensures fault { IsErrOf result (Stops DiskFault) → HasRisen (S.counts shelf.old).disk (S.counts shelf.new).disk }
    ensures pool { IsAnswered result → IsOpen (S.sizes shelf.new) pool.new }
    ensures same { IsSamePool pool.old pool.new }
    ensures shown { S.tells shelf.old → KeepsLast (S.world shelf.old) (S.world shelf.new) pool.old pool.new }
    ensures refused { (r : Refusal) → IsErrOf result (No r) → IsDropRefusal r }
    ensures none { (s : Stored) → HasBlocks (S.tells shelf.old) (S.world shelf.old).now.seen pool.old s → IsErrOf result (No NoSuchObject) → record_now s pool.old.dir pool.old.group id ≡ None }
    ensures damaged { (s : Stored) → HasBlocks (S.tells shelf.old) (S.world shelf.old).now.seen pool.old s → (at : Dva) (expected found : List ℕ) → IsErrOf result (No (Damaged at expected found)) → IsDamageOf s pool.old.dir pool.old.group id (λ r index. ⊥) at expected found }
    ensures lacks { (needed free : ℕ) → IsErrOf result (No (NoRoom needed free)) → (blocks : List Bptr) × AreFoundIn (S.tells shelf.old) (S.world shelf.old).now.seen pool.old id blocks × LacksRoom pool.new.space (room_to_drop pool.new.space pool.new.group id blocks) needed free }
    ensures dropped { OnOk result (SetsObject id None pool.old.group pool.new.group) }
    ensures given { OnOk result ((blocks : List Bptr) × (reached : S) × (found : OpenPool) × AreFoundIn (S.tells shelf.old) (S.world shelf.old).now.seen pool.old id blocks × (CanTake 0 (new_object pool.old.group id) pool.old.group → WritesBlocks (S.sizes shelf.old) (S.sizes reached) (S.counts shelf.old) (S.counts reached) (S.tells shelf.old) (S.tells reached) (S.world shelf.old) (S.world reached) pool.old found) × (room_to_drop found.space found.group id blocks ≤ free_units found.space) × GivesUp blocks (S.tells reached) (S.world reached).now.seen found (S.tells shelf.new) (S.world shelf.new).now.seen pool.new) }
    ensures group { (r : Refusal) → IsErrOf result (No r) → pool.new.group ≡ pool.old.group }
    ensures in_group { S.tells shelf.old → StaysInGroup pool.old pool.new (S.world shelf.old) (S.world shelf.new) }
{
    let blocks = object_blocks(alloc, pool, shelf, pick, id)?;
    demand_to_drop(pool, id, blocks.as_slice())?;
    free_object(alloc, pool, shelf, pick, id, blocks.as_slice())
}

/// Drops an object: its blocks and tree blocks are given back, and its changed blocks no longer count. It reads each of its
/// tree blocks once, and no leaf.
pub fn drop<S: Shelf, P: Place>(
    alloc: Global,
    pool: &mut OpenPool,
    shelf: &mut S,
    pick: &P,
    id: u64,
) -> Result<(), Fault>
    requires pool { IsOpen (S.sizes shelf.old) pool.old }
    ensures sizes { S.sizes shelf.new ≡ S.sizes shelf.old }
    ensures objects { (objects : Objects) → HoldsObjects (S.tells shelf.old) (S.world shelf.old).now.seen pool.old objects → (r : Refusal) → IsErrOf result (No r) → HoldsObjects (S.tells shelf.new) (S.world shelf.new).now.seen pool.new objects }
    ensures missing { (objects : Objects) → HoldsObjects (S.tells shelf.old) (S.world shelf.old).now.seen pool.old objects → IsErrOf result (No NoSuchObject) → map.get objects id ≡ None }
    ensures gone { (objects : Objects) → HoldsObjects (S.tells shelf.old) (S.world shelf.old).now.seen pool.old objects → OnOk result (IsObjectOf objects id (λ o. HoldsObjects (S.tells shelf.new) (S.world shelf.new).now.seen pool.new (map.remove objects id))) }
    ensures none_fell { NoneFell (S.counts shelf.old) (S.counts shelf.new) }
    ensures told { S.tells shelf.old → S.tells shelf.new }
    ensures disks { S.tells shelf.old → WorksOnDisks (S.world shelf.old) (S.world shelf.new) }
    ensures fault { IsErrOf result (Stops DiskFault) → HasRisen (S.counts shelf.old).disk (S.counts shelf.new).disk }
    ensures pool { IsAnswered result → IsOpen (S.sizes shelf.new) pool.new }
    ensures same { IsAnswered result → IsSamePool pool.old pool.new }
    ensures shown { S.tells shelf.old → IsAnswered result → KeepsLast (S.world shelf.old) (S.world shelf.new) pool.old pool.new }
    ensures refused { (r : Refusal) → IsErrOf result (No r) → IsDropRefusal r }
    ensures none { (s : Stored) → HasBlocks (S.tells shelf.old) (S.world shelf.old).now.seen pool.old s → IsErrOf result (No NoSuchObject) → (record_now s pool.old.dir pool.old.group id ≡ None) ⊎ (CanTake 0 (new_object pool.old.group id) pool.old.group → ⊥) }
    ensures damaged { (at : Dva) (expected found : List ℕ) → IsErrOf result (No (Damaged at expected found)) → FindsDamage (S.tells shelf.old) (IsFoundToDrop id pool.old (S.world shelf.old).now.seen) id (λ r index. ⊥) pool.old (S.world shelf.old).now.seen at expected found }
    ensures lacks { (needed free : ℕ) → IsErrOf result (No (NoRoom needed free)) → (blocks : List Bptr) × AreFoundIn (S.tells shelf.old) (S.world shelf.old).now.seen pool.old id blocks × LacksRoom pool.new.space (room_to_drop pool.new.space pool.new.group id blocks) needed free }
    ensures dropped { OnOk result (SetsInGroup id None pool.old.group pool.new.group) }
    ensures given { OnOk result ((blocks : List Bptr) × (reached : S) × (found : OpenPool) × AreFoundIn (S.tells shelf.old) (S.world shelf.old).now.seen pool.old id blocks × (CanTake 0 (new_object pool.old.group id) pool.old.group → WritesBlocks (S.sizes shelf.old) (S.sizes reached) (S.counts shelf.old) (S.counts reached) (S.tells shelf.old) (S.tells reached) (S.world shelf.old) (S.world reached) pool.old found) × (room_to_drop found.space found.group id blocks ≤ free_units found.space) × GivesUp blocks (S.tells reached) (S.world reached).now.seen found (S.tells shelf.new) (S.world shelf.new).now.seen pool.new) }
    ensures group { (r : Refusal) → IsErrOf result (No r) → IsReadyGroup id pool.old.group pool.new.group }
    ensures one_group { (objects : Objects) → HoldsObjects (S.tells shelf.old) (S.world shelf.old).now.seen pool.old objects → IsAnswered result → StaysInOneGroup (S.sizes shelf.old) objects pool.old pool.new (S.world shelf.old) (S.world shelf.new) }
    ensures writes { (objects : Objects) → HoldsObjects (S.tells shelf.old) (S.world shelf.old).now.seen pool.old objects → WritesInOneGroup (S.sizes shelf.old) objects pool.old (S.world shelf.old) (S.world shelf.new) }
{
    if id > 65535 {
        return Err(Fault::No(Refusal::NoSuchObject));
    }
    let id = id as u32;
    make_way_for(alloc, pool, shelf, pick, id)?;
    drop_ready(alloc, pool, shelf, pick, id)
}
