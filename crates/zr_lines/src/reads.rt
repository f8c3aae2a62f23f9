//! Reading an object, and its sum.
ghost use Rattle.std.specs.Prelude.{◌≡◌, ◌≤◌, ℕ, List, IfOk, IsErrOf, None, [], false, length};
ghost use Rattle.zr_base.specs.Counts.{HasRisen};
ghost use Rattle.zr_base.specs.declared.refusal.Refusal.{Refusal};
ghost use Rattle.zr_base.specs.declared.refusal.Refusal.TheVariants.{Damaged, NoSuchObject, OutOfRange};
ghost use Rattle.zr_base.specs.declared.space.Dva.{Dva};
ghost use Rattle.zr_bptr.specs.Spelling.{IsTree};
ghost use Rattle.zr_sync.specs.Holds.{HasBlocks};
ghost use Rattle.zr_lookup.specs.Groups.{IsLawfulGroup};
ghost use Rattle.zr_lookup.specs.Objects.{record_now, IsTouched};
ghost use Rattle.zr_rules.specs.Equation.{devices_in};
ghost use Rattle.zr_store.specs.Store.{Stored, Now, Swaps};
ghost use Rattle.zr_sync.specs.Pools.{IsOpen, IsSamePool};
ghost use Rattle.zr_sync.specs.Writes.{WorksOnDisks, WritesBlocks};
ghost use Rattle.zr_sync.specs.declared.fault.Fault.TheVariants.{No, Stops};
ghost use Rattle.zr_sync.specs.declared.stop.Stop.TheVariants.{DiskFault};
ghost use Rattle.zr_vdev.specs.Mounts.{AreMounted};
ghost use Rattle.zr_vdev.specs.Stores.{Continues, HoldsBlocks};
ghost use Rattle.zr_lines.specs.Answers.{IsReadRefusal, IsSumRefusal};
ghost use Rattle.std.specs.FinMap as map;
ghost use Rattle.zr_held.specs.Steps.{IsObjectOf};
ghost use Rattle.zr_model.specs.Objects.{Objects, has_lost, object_sum};
ghost use Rattle.zr_sync.specs.Objects.{HoldsObjects};
ghost use Rattle.zr_lines.specs.Damage.{IsDamageOf};
ghost use Rattle.zr_lines.specs.Reads.{AreBytesOf, IsOutside, IsSumOf, IsReadOf, can_read};
ghost use Rattle.zr_lines.specs.Stops.{StaysInGroup};

use crate::present::{bytes_present, sum_present};
use std::alloc::Global;
use zr_bptr::Tree;
use zr_cache::Cache;
use zr_shelf::Shelf;
use zr_space::Space;
use zr_sync::{Fault, OpenPool};
use zr_txg::Group;
use zr_vdev::{Kind, Mount, Place, Vdev};

// The bytes of an object, read on a store of its own.
fn read_bytes<S: Shelf, P: Place>(
    alloc: Global,
    space: &mut Space,
    shelf: &mut S,
    cache: &mut Cache,
    mount: Mount<P>,
    dir: &Tree,
    group: &Group,
    id: u64,
    off: u64,
    len: u64,
) -> Result<Vec<u8>, Fault>
    requires mounted { AreMounted (S.sizes shelf.old) mount.slots.now (devices_in space.old) }
    requires txg { 1 ≤ mount.txg }
    requires dir { IsTree dir.now }
    requires low { dir.now.height ≤ 3 }
    requires group { IsLawfulGroup group.now }
    ensures continues { Continues mount.entry.kind mount.entry.slots.now (S.sizes shelf.old) (S.sizes shelf.new) (S.counts shelf.old) (S.counts shelf.new) (S.tells shelf.old) (S.tells shelf.new) (S.world shelf.old) (S.world shelf.new) space.old space.new cache.old cache.new }
    ensures fault { IsErrOf result (Stops DiskFault) → HasRisen (S.counts shelf.old).disk (S.counts shelf.new).disk }
    ensures refused { (r : Refusal) → IsErrOf result (No r) → IsReadRefusal r }
    ensures held { (s : Stored) → HoldsBlocks mount.entry.kind mount.entry.slots.now (S.tells shelf.old) (S.world shelf.old).now.seen space.old None cache.old s → Now (HoldsBlocks mount.entry.kind mount.entry.slots.now (S.tells shelf.new) (S.world shelf.new).now.seen space.new None cache.new) (λ n. Swaps s n [] []) }
    ensures none { (s : Stored) → HoldsBlocks mount.entry.kind mount.entry.slots.now (S.tells shelf.old) (S.world shelf.old).now.seen space.old None cache.old s → IsErrOf result (No NoSuchObject) → record_now s dir.now group.now id ≡ None }
    ensures outside { (s : Stored) → HoldsBlocks mount.entry.kind mount.entry.slots.now (S.tells shelf.old) (S.world shelf.old).now.seen space.old None cache.old s → IsErrOf result (No OutOfRange) → IsOutside s dir.now group.now id off len }
    ensures damaged { (s : Stored) → HoldsBlocks mount.entry.kind mount.entry.slots.now (S.tells shelf.old) (S.world shelf.old).now.seen space.old None cache.old s → (at : Dva) (expected found : List ℕ) → IsErrOf result (No (Damaged at expected found)) → IsDamageOf s dir.now group.now id (λ r. IsTouched r.units off len) at expected found }
    ensures size { IfOk result (λ bytes. length bytes.items ≡ len) }
    ensures short { IfOk result (λ bytes. len ≤ 4096) }
    ensures bytes { (s : Stored) → HoldsBlocks mount.entry.kind mount.entry.slots.now (S.tells shelf.old) (S.world shelf.old).now.seen space.old None cache.old s → IfOk result (λ bytes. AreBytesOf s dir.now group.now id off len bytes.items) }
{
    let mut store = Vdev::new(space, shelf, cache, mount);
    bytes_present(alloc, &mut store, dir, group, id, off, len)
}

/// The bytes of an object from an offset on, in bytes: at most 4,096 of them, as the open group has them. It reads at most
/// two blocks and the tree blocks that lead to them. A group that is full is not committed for it.
pub fn read<S: Shelf, P: Place>(
    alloc: Global,
    pool: &mut OpenPool,
    shelf: &mut S,
    pick: &P,
    id: u64,
    off: u64,
    len: u64,
) -> Result<Vec<u8>, Fault>
    requires pool { IsOpen (S.sizes shelf.old) pool.old }
    ensures wrote { WritesBlocks (S.sizes shelf.old) (S.sizes shelf.new) (S.counts shelf.old) (S.counts shelf.new) (S.tells shelf.old) (S.tells shelf.new) (S.world shelf.old) (S.world shelf.new) pool.old pool.new }
    ensures disks { S.tells shelf.old → WorksOnDisks (S.world shelf.old) (S.world shelf.new) }
    ensures fault { IsErrOf result (Stops DiskFault) → HasRisen (S.counts shelf.old).disk (S.counts shelf.new).disk }
    ensures group { pool.new.group ≡ pool.old.group }
    ensures pool { IsOpen (S.sizes shelf.new) pool.new }
    ensures same { IsSamePool pool.old pool.new }
    ensures refused { (r : Refusal) → IsErrOf result (No r) → IsReadRefusal r }
    ensures stays { (objects : Objects) → HoldsObjects (S.tells shelf.old) (S.world shelf.old).now.seen pool.old objects → HoldsObjects (S.tells shelf.new) (S.world shelf.new).now.seen pool.new objects }
    ensures missing { (objects : Objects) → HoldsObjects (S.tells shelf.old) (S.world shelf.old).now.seen pool.old objects → IsErrOf result (No NoSuchObject) → map.get objects id ≡ None }
    ensures beyond { (objects : Objects) → HoldsObjects (S.tells shelf.old) (S.world shelf.old).now.seen pool.old objects → IsErrOf result (No OutOfRange) → IsObjectOf objects id (λ o. can_read o.units off len ≡ false) }
    ensures object { (objects : Objects) → HoldsObjects (S.tells shelf.old) (S.world shelf.old).now.seen pool.old objects → IfOk result (λ bytes. IsObjectOf objects id (IsReadOf off len bytes.items)) }
    ensures none { (s : Stored) → HasBlocks (S.tells shelf.old) (S.world shelf.old).now.seen pool.old s → IsErrOf result (No NoSuchObject) → record_now s pool.old.dir pool.old.group id ≡ None }
    ensures outside { (s : Stored) → HasBlocks (S.tells shelf.old) (S.world shelf.old).now.seen pool.old s → IsErrOf result (No OutOfRange) → IsOutside s pool.old.dir pool.old.group id off len }
    ensures damaged { (s : Stored) → HasBlocks (S.tells shelf.old) (S.world shelf.old).now.seen pool.old s → (at : Dva) (expected found : List ℕ) → IsErrOf result (No (Damaged at expected found)) → IsDamageOf s pool.old.dir pool.old.group id (λ r. IsTouched r.units off len) at expected found }
    ensures size { IfOk result (λ bytes. length bytes.items ≡ len) }
    ensures short { IfOk result (λ bytes. len ≤ 4096) }
    ensures bytes { (s : Stored) → HasBlocks (S.tells shelf.old) (S.world shelf.old).now.seen pool.old s → IfOk result (λ bytes. AreBytesOf s pool.old.dir pool.old.group id off len bytes.items) }
    ensures in_group { S.tells shelf.old → StaysInGroup pool.old pool.new (S.world shelf.old) (S.world shelf.new) }
{
    let mount = Mount {
        slots: &pool.table.slots,
        pick,
        txg: pool.group.txg(),
        kind: Kind::Block,
    };
    read_bytes(
        alloc,
        &mut pool.space,
        shelf,
        &mut pool.cache,
        mount,
        &pool.dir,
        &pool.group,
        id,
        off,
        len,
    )
}

// The sum of an object, read on a store of its own.
fn read_sum<S: Shelf, P: Place>(
    alloc: Global,
    space: &mut Space,
    shelf: &mut S,
    cache: &mut Cache,
    mount: Mount<P>,
    dir: &Tree,
    group: &Group,
    id: u64,
) -> Result<[u8; 32], Fault>
    requires mounted { AreMounted (S.sizes shelf.old) mount.slots.now (devices_in space.old) }
    requires txg { 1 ≤ mount.txg }
    requires dir { IsTree dir.now }
    requires low { dir.now.height ≤ 3 }
    requires group { IsLawfulGroup group.now }
    ensures continues { Continues mount.entry.kind mount.entry.slots.now (S.sizes shelf.old) (S.sizes shelf.new) (S.counts shelf.old) (S.counts shelf.new) (S.tells shelf.old) (S.tells shelf.new) (S.world shelf.old) (S.world shelf.new) space.old space.new cache.old cache.new }
    ensures fault { IsErrOf result (Stops DiskFault) → HasRisen (S.counts shelf.old).disk (S.counts shelf.new).disk }
    ensures refused { (r : Refusal) → IsErrOf result (No r) → IsSumRefusal r }
    ensures held { (s : Stored) → HoldsBlocks mount.entry.kind mount.entry.slots.now (S.tells shelf.old) (S.world shelf.old).now.seen space.old None cache.old s → Now (HoldsBlocks mount.entry.kind mount.entry.slots.now (S.tells shelf.new) (S.world shelf.new).now.seen space.new None cache.new) (λ n. Swaps s n [] []) }
    ensures none { (s : Stored) → HoldsBlocks mount.entry.kind mount.entry.slots.now (S.tells shelf.old) (S.world shelf.old).now.seen space.old None cache.old s → IsErrOf result (No NoSuchObject) → record_now s dir.now group.now id ≡ None }
    ensures damaged { (s : Stored) → HoldsBlocks mount.entry.kind mount.entry.slots.now (S.tells shelf.old) (S.world shelf.old).now.seen space.old None cache.old s → (at : Dva) (expected found : List ℕ) → IsErrOf result (No (Damaged at expected found)) → IsDamageOf s dir.now group.now id (λ r index. Unit {0}) at expected found }
    ensures sum { (s : Stored) → HoldsBlocks mount.entry.kind mount.entry.slots.now (S.tells shelf.old) (S.world shelf.old).now.seen space.old None cache.old s → IfOk result (λ sum. IsSumOf s dir.now group.now id sum) }
{
    let mut store = Vdev::new(space, shelf, cache, mount);
    sum_present(alloc, &mut store, dir, group, id)
}

/// The sum of an object, as the open group has it: the SHA-256 of its blocks that are not all zeros, each behind its index.
/// It reads each of its blocks and tree blocks once. A group that is full is not committed for it.
pub fn sum<S: Shelf, P: Place>(
    alloc: Global,
    pool: &mut OpenPool,
    shelf: &mut S,
    pick: &P,
    id: u64,
) -> Result<[u8; 32], Fault>
    requires pool { IsOpen (S.sizes shelf.old) pool.old }
    ensures wrote { WritesBlocks (S.sizes shelf.old) (S.sizes shelf.new) (S.counts shelf.old) (S.counts shelf.new) (S.tells shelf.old) (S.tells shelf.new) (S.world shelf.old) (S.world shelf.new) pool.old pool.new }
    ensures disks { S.tells shelf.old → WorksOnDisks (S.world shelf.old) (S.world shelf.new) }
    ensures fault { IsErrOf result (Stops DiskFault) → HasRisen (S.counts shelf.old).disk (S.counts shelf.new).disk }
    ensures group { pool.new.group ≡ pool.old.group }
    ensures pool { IsOpen (S.sizes shelf.new) pool.new }
    ensures same { IsSamePool pool.old pool.new }
    ensures refused { (r : Refusal) → IsErrOf result (No r) → IsSumRefusal r }
    ensures stays { (objects : Objects) → HoldsObjects (S.tells shelf.old) (S.world shelf.old).now.seen pool.old objects → HoldsObjects (S.tells shelf.new) (S.world shelf.new).now.seen pool.new objects }
    ensures missing { (objects : Objects) → HoldsObjects (S.tells shelf.old) (S.world shelf.old).now.seen pool.old objects → IsErrOf result (No NoSuchObject) → map.get objects id ≡ None }
    ensures object { (objects : Objects) → HoldsObjects (S.tells shelf.old) (S.world shelf.old).now.seen pool.old objects → IfOk result (λ sum. IsObjectOf objects id (λ o. (has_lost o ≡ false) × (sum ≡ object_sum o))) }
    ensures none { (s : Stored) → HasBlocks (S.tells shelf.old) (S.world shelf.old).now.seen pool.old s → IsErrOf result (No NoSuchObject) → record_now s pool.old.dir pool.old.group id ≡ None }
    ensures damaged { (s : Stored) → HasBlocks (S.tells shelf.old) (S.world shelf.old).now.seen pool.old s → (at : Dva) (expected found : List ℕ) → IsErrOf result (No (Damaged at expected found)) → IsDamageOf s pool.old.dir pool.old.group id (λ r index. Unit {0}) at expected found }
    ensures sum { (s : Stored) → HasBlocks (S.tells shelf.old) (S.world shelf.old).now.seen pool.old s → IfOk result (λ sum. IsSumOf s pool.old.dir pool.old.group id sum) }
    ensures in_group { S.tells shelf.old → StaysInGroup pool.old pool.new (S.world shelf.old) (S.world shelf.new) }
{
    let mount = Mount {
        slots: &pool.table.slots,
        pick,
        txg: pool.group.txg(),
        kind: Kind::Block,
    };
    read_sum(
        alloc,
        &mut pool.space,
        shelf,
        &mut pool.cache,
        mount,
        &pool.dir,
        &pool.group,
        id,
    )
}
