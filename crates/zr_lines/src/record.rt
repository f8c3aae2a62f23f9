//! Objects of an open pool, as the open group has them.
ghost use Rattle.std.specs.Prelude.{◌≡◌, ◌<◌, ◌≤◌, ◌⊎◌, ℕ, List, IfOk, IfSome, IsErrOf, Option, Some, None, []};
ghost use Rattle.zr_base.specs.Counts.{HasRisen};
ghost use Rattle.zr_base.specs.declared.refusal.Refusal.{Refusal};
ghost use Rattle.zr_base.specs.declared.refusal.Refusal.TheVariants.{Damaged, NoSuchObject};
ghost use Rattle.zr_base.specs.declared.space.Dva.{Dva};
ghost use Rattle.zr_bptr.specs.Spelling.{IsObject, IsTree};
ghost use Rattle.zr_bptr.specs.declared.ObjRec.{ObjRec};
ghost use Rattle.zr_lookup.specs.Groups.{IsLawfulGroup};
ghost use Rattle.zr_lookup.specs.Objects.{record_now};
ghost use Rattle.zr_rules.specs.Equation.{devices_in};
ghost use Rattle.zr_store.specs.Store.{Stored, Now, Swaps};
ghost use Rattle.zr_sync.specs.Pools.{IsOpen};
ghost use Rattle.zr_sync.specs.Writes.{WritesBlocks};
ghost use Rattle.zr_sync.specs.declared.fault.Fault.TheVariants.{No, Stops};
ghost use Rattle.zr_sync.specs.declared.stop.Stop.TheVariants.{DiskFault};
ghost use Rattle.zr_txg.specs.Changes.{object_in};
ghost use Rattle.zr_vdev.specs.Mounts.{AreMounted};
ghost use Rattle.zr_vdev.specs.Stores.{Continues, HoldsBlocks};
ghost use Rattle.std.specs.FinMap as map;
ghost use Rattle.zr_held.specs.Steps.{IsObjectOf};
ghost use Rattle.zr_model.specs.Objects.{Objects};
ghost use Rattle.zr_sync.specs.Objects.{HoldsObjects};
ghost use Rattle.zr_lines.specs.Damage.{IsRecordDamage};
ghost use Rattle.zr_lines.specs.Sought.{IsDamaged, IsRecordIn};
ghost use Rattle.zr_sync.specs.Holds.{HasBlocks};

use std::alloc::Global;
use zr_base::Refusal;
use zr_bptr::{ObjRec, Tree};
use zr_cache::Cache;
use zr_lookup::record_of;
use zr_shelf::Shelf;
use zr_space::Space;
use zr_sync::{Fault, OpenPool};
use zr_txg::Group;
use zr_vdev::{Kind, Mount, Place, Vdev};

// The record of an object, read on a store of its own.
fn read_record<S: Shelf, P: Place>(
    alloc: Global,
    space: &mut Space,
    shelf: &mut S,
    cache: &mut Cache,
    mount: Mount<P>,
    dir: &Tree,
    group: &Group,
    id: u64,
) -> Result<Option<ObjRec>, Fault>
    requires mounted { AreMounted (S.sizes shelf.old) mount.slots.now (devices_in space.old) }
    requires txg { 1 ≤ mount.txg }
    requires dir { IsTree dir.now }
    requires low { dir.now.height ≤ 3 }
    requires group { IsLawfulGroup group.now }
    ensures continues { Continues mount.entry.kind mount.entry.slots.now (S.sizes shelf.old) (S.sizes shelf.new) (S.counts shelf.old) (S.counts shelf.new) (S.tells shelf.old) (S.tells shelf.new) (S.world shelf.old) (S.world shelf.new) space.old space.new cache.old cache.new }
    ensures fault { IsErrOf result (Stops DiskFault) → HasRisen (S.counts shelf.old).disk (S.counts shelf.new).disk }
    ensures refused { (r : Refusal) → IsErrOf result (No r) → IsDamaged r }
    ensures lawful { IfOk result (λ r. IfSome r IsObject) }
    ensures few { IfOk result (λ found. IfSome found (λ r. id < 65536)) }
    ensures changed { (r : Option ObjRec) → id < 65536 → object_in group.now id ≡ Some r → IfOk result (λ found. found ≡ r) }
    ensures held { (s : Stored) → HoldsBlocks mount.entry.kind mount.entry.slots.now (S.tells shelf.old) (S.world shelf.old).now.seen space.old None cache.old s → Now (HoldsBlocks mount.entry.kind mount.entry.slots.now (S.tells shelf.new) (S.world shelf.new).now.seen space.new None cache.new) (λ n. Swaps s n [] []) }
    ensures damaged { (s : Stored) → HoldsBlocks mount.entry.kind mount.entry.slots.now (S.tells shelf.old) (S.world shelf.old).now.seen space.old None cache.old s → (at : Dva) (expected found : List ℕ) → IsErrOf result (No (Damaged at expected found)) → IsRecordDamage s dir.now id at expected found }
    ensures record { (s : Stored) → HoldsBlocks mount.entry.kind mount.entry.slots.now (S.tells shelf.old) (S.world shelf.old).now.seen space.old None cache.old s → IfOk result (λ r. r ≡ record_now s dir.now group.now id) }
{
    let mut store = Vdev::new(space, shelf, cache, mount);
    Ok(record_of(alloc, &mut store, dir, group, id)?)
}

/// The record of an object as the open group has it. None where there is no such object.
pub fn find<S: Shelf, P: Place>(
    alloc: Global,
    pool: &mut OpenPool,
    shelf: &mut S,
    pick: &P,
    id: u64,
) -> Result<Option<ObjRec>, Fault>
    requires pool { IsOpen (S.sizes shelf.old) pool.old }
    ensures wrote { WritesBlocks (S.sizes shelf.old) (S.sizes shelf.new) (S.counts shelf.old) (S.counts shelf.new) (S.tells shelf.old) (S.tells shelf.new) (S.world shelf.old) (S.world shelf.new) pool.old pool.new }
    ensures group { pool.new.group ≡ pool.old.group }
    ensures pool { IsOpen (S.sizes shelf.new) pool.new }
    ensures fault { IsErrOf result (Stops DiskFault) → HasRisen (S.counts shelf.old).disk (S.counts shelf.new).disk }
    ensures refused { (r : Refusal) → IsErrOf result (No r) → IsDamaged r }
    ensures lawful { IfOk result (λ r. IfSome r IsObject) }
    ensures few { IfOk result (λ found. IfSome found (λ r. id < 65536)) }
    ensures changed { (r : Option ObjRec) → id < 65536 → object_in pool.old.group id ≡ Some r → IfOk result (λ found. found ≡ r) }
    ensures damaged { (s : Stored) → HasBlocks (S.tells shelf.old) (S.world shelf.old).now.seen pool.old s → (at : Dva) (expected found : List ℕ) → IsErrOf result (No (Damaged at expected found)) → IsRecordDamage s pool.old.dir id at expected found }
    ensures record { (s : Stored) → HasBlocks (S.tells shelf.old) (S.world shelf.old).now.seen pool.old s → IfOk result (λ r. r ≡ record_now s pool.old.dir pool.old.group id) }
    ensures held { (s : Stored) → HasBlocks (S.tells shelf.old) (S.world shelf.old).now.seen pool.old s → Now (HasBlocks (S.tells shelf.new) (S.world shelf.new).now.seen pool.new) (λ n. Swaps s n [] []) }
    ensures stays { (objects : Objects) → HoldsObjects (S.tells shelf.old) (S.world shelf.old).now.seen pool.old objects → HoldsObjects (S.tells shelf.new) (S.world shelf.new).now.seen pool.new objects }
    ensures object { (objects : Objects) → HoldsObjects (S.tells shelf.old) (S.world shelf.old).now.seen pool.old objects → IfOk result (IsRecordIn objects id) }
{
    let mount = Mount {
        slots: &pool.table.slots,
        pick,
        txg: pool.group.txg(),
        kind: Kind::Block,
    };
    read_record(
        alloc,
        &mut pool.space,
        shelf,
        &mut pool.cache,
        mount,
        &pool.dir,
        &pool.group,
        id,
    )
}

/// The record of an object that is there.
pub fn need<S: Shelf, P: Place>(
    alloc: Global,
    pool: &mut OpenPool,
    shelf: &mut S,
    pick: &P,
    id: u64,
) -> Result<ObjRec, Fault>
    requires pool { IsOpen (S.sizes shelf.old) pool.old }
    ensures wrote { WritesBlocks (S.sizes shelf.old) (S.sizes shelf.new) (S.counts shelf.old) (S.counts shelf.new) (S.tells shelf.old) (S.tells shelf.new) (S.world shelf.old) (S.world shelf.new) pool.old pool.new }
    ensures group { pool.new.group ≡ pool.old.group }
    ensures pool { IsOpen (S.sizes shelf.new) pool.new }
    ensures fault { IsErrOf result (Stops DiskFault) → HasRisen (S.counts shelf.old).disk (S.counts shelf.new).disk }
    ensures refused { (r : Refusal) → IsErrOf result (No r) → IsDamaged r ⊎ (r ≡ NoSuchObject) }
    ensures lawful { IfOk result IsObject }
    ensures few { IfOk result (λ r. id < 65536) }
    ensures changed { (r : ObjRec) → id < 65536 → object_in pool.old.group id ≡ Some (Some r) → IfOk result (λ found. found ≡ r) }
    ensures damaged { (s : Stored) → HasBlocks (S.tells shelf.old) (S.world shelf.old).now.seen pool.old s → (at : Dva) (expected found : List ℕ) → IsErrOf result (No (Damaged at expected found)) → IsRecordDamage s pool.old.dir id at expected found }
    ensures record { (s : Stored) → HasBlocks (S.tells shelf.old) (S.world shelf.old).now.seen pool.old s → IfOk result (λ r. record_now s pool.old.dir pool.old.group id ≡ Some r) }
    ensures none { (s : Stored) → HasBlocks (S.tells shelf.old) (S.world shelf.old).now.seen pool.old s → IsErrOf result (No NoSuchObject) → record_now s pool.old.dir pool.old.group id ≡ None }
    ensures held { (s : Stored) → HasBlocks (S.tells shelf.old) (S.world shelf.old).now.seen pool.old s → Now (HasBlocks (S.tells shelf.new) (S.world shelf.new).now.seen pool.new) (λ n. Swaps s n [] []) }
    ensures stays { (objects : Objects) → HoldsObjects (S.tells shelf.old) (S.world shelf.old).now.seen pool.old objects → HoldsObjects (S.tells shelf.new) (S.world shelf.new).now.seen pool.new objects }
    ensures object { (objects : Objects) → HoldsObjects (S.tells shelf.old) (S.world shelf.old).now.seen pool.old objects → IfOk result (λ r. IsObjectOf objects id (λ o. o.units ≡ r.units)) }
    ensures missing { (objects : Objects) → HoldsObjects (S.tells shelf.old) (S.world shelf.old).now.seen pool.old objects → IsErrOf result (No NoSuchObject) → map.get objects id ≡ None }
{
    match find(alloc, pool, shelf, pick, id)? {
        Some(rec) => Ok(rec),
        None => Err(Fault::No(Refusal::NoSuchObject)),
    }
}
