//! The device calls of a change, each with a store of its own.
//!
//! A store borrows the space, the disks and the cache. With its end they go on, and what it left alone is said of them.
ghost use Rattle.std.specs.Prelude.{◌≡◌, ◌≤◌, ℕ, List, [], None, IfOk, IfSome, OnOk, IsErrOf};
ghost use Rattle.zr_base.specs.Counts.{HasRisen};
ghost use Rattle.zr_base.specs.declared.refusal.Refusal.{Refusal};
ghost use Rattle.zr_base.specs.declared.refusal.Refusal.TheVariants.{Damaged, NoSuchObject, OutOfRange};
ghost use Rattle.zr_base.specs.declared.space.Dva.{Dva};
ghost use Rattle.zr_bptr.specs.Spelling.{IsTree};
ghost use Rattle.zr_change.specs.Edits.{HasLength, IsPart};
ghost use Rattle.zr_change.specs.Plans.{HasRecorded, IsChanged, olds_of, puts_of};
ghost use Rattle.zr_lookup.specs.Groups.{IsLawfulGroup};
ghost use Rattle.zr_lookup.specs.Objects.{record_now};
ghost use Rattle.zr_rules.specs.Columns.{free_units};
ghost use Rattle.zr_rules.specs.Equation.{devices_in};
ghost use Rattle.zr_store.specs.Store.{AreStored, Now, Stored, Swaps};
ghost use Rattle.zr_sync.specs.Pools.{IsInLimits};
ghost use Rattle.zr_sync.specs.declared.fault.Fault.TheVariants.{No, Stops};
ghost use Rattle.zr_sync.specs.declared.stop.Stop.TheVariants.{DiskFault};
ghost use Rattle.zr_vdev.specs.Mounts.{AreMounted};
ghost use Rattle.zr_vdev.specs.Stores.{Continues, HoldsBlocks};
ghost use Rattle.zr_lines.specs.Causes.{IsLookRefusal, IsMissingRun};
ghost use Rattle.zr_lines.specs.Damage.{IsDamageOf};
ghost use Rattle.zr_lines.specs.Intents.{IsIntent, IsFor, IsPlanned, IsOutside, IsFull};

use crate::intent::{Intent, fulfil, look};
use crate::range::Reach;
use std::alloc::Global;
use zr_bptr::Tree;
use zr_cache::Cache;
use zr_change::Edit;
use zr_shelf::Shelf;
use zr_space::Space;
use zr_sync::Fault;
use zr_txg::Group;
use zr_vdev::{Mount, Place, Vdev};

/// What the edit makes of an object. None where the group has no place for it.
pub(crate) fn look_at<S: Shelf, P: Place>(
    alloc: Global,
    space: &mut Space,
    shelf: &mut S,
    cache: &mut Cache,
    mount: Mount<P>,
    dir: &Tree,
    group: &Group,
    id: u64,
    edit: &Edit<'_>,
    reach: Reach,
) -> Result<Option<Intent>, Fault>
    requires mounted { AreMounted (S.sizes shelf.old) mount.slots.now (devices_in space.old) }
    requires txg { 1 ≤ mount.txg }
    requires dir { IsTree dir.now }
    requires low { dir.now.height ≤ 3 }
    requires group { IsLawfulGroup group.now }
    requires given { HasLength edit.now.len edit.now.bytes }
    ensures continues { Continues mount.entry.kind mount.entry.slots.now (S.sizes shelf.old) (S.sizes shelf.new) (S.counts shelf.old) (S.counts shelf.new) (S.tells shelf.old) (S.tells shelf.new) (S.world shelf.old) (S.world shelf.new) space.old space.new cache.old cache.new }
    ensures fault { IsErrOf result (Stops DiskFault) → HasRisen (S.counts shelf.old).disk (S.counts shelf.new).disk }
    ensures refused { (r : Refusal) → IsErrOf result (No r) → IsLookRefusal r }
    ensures held { (s : Stored) → HoldsBlocks mount.entry.kind mount.entry.slots.now (S.tells shelf.old) (S.world shelf.old).now.seen space.old None cache.old s → Now (HoldsBlocks mount.entry.kind mount.entry.slots.now (S.tells shelf.new) (S.world shelf.new).now.seen space.new None cache.new) (λ n. Swaps s n [] []) }
    ensures none { (s : Stored) → HoldsBlocks mount.entry.kind mount.entry.slots.now (S.tells shelf.old) (S.world shelf.old).now.seen space.old None cache.old s → IsErrOf result (No NoSuchObject) → record_now s dir.now group.now id ≡ None }
    ensures outside { (s : Stored) → HoldsBlocks mount.entry.kind mount.entry.slots.now (S.tells shelf.old) (S.world shelf.old).now.seen space.old None cache.old s → IsErrOf result (No OutOfRange) → IsOutside s dir.now group.now id reach edit.now }
    ensures damaged { (s : Stored) → HoldsBlocks mount.entry.kind mount.entry.slots.now (S.tells shelf.old) (S.world shelf.old).now.seen space.old None cache.old s → (at : Dva) (expected found : List ℕ) → IsErrOf result (No (Damaged at expected found)) → IsDamageOf s dir.now group.now id (λ r. IsPart r.units edit.now) at expected found }
    ensures full { IfOk result (λ i. i ≡ None → IsFull reach group.now id edit.now) }
    ensures intent { IfOk result (λ i. IfSome i (IsIntent group.now id)) }
    ensures fits { IfOk result (λ i. IfSome i (IsFor reach edit.now)) }
    ensures planned { (s : Stored) → HoldsBlocks mount.entry.kind mount.entry.slots.now (S.tells shelf.old) (S.world shelf.old).now.seen space.old None cache.old s → IfOk result (λ i. IfSome i (IsPlanned s dir.now group.now id edit.now)) }
{
    let mut store = Vdev::new(space, shelf, cache, mount);
    look(alloc, &mut store, dir, group, id, edit, reach)
}

/// Does what is meant with an object: its new blocks are put, the group records them, and its old ones are freed. Where a
/// block cannot be put, all that were put are freed, and the group is as it was.
pub(crate) fn change_at<S: Shelf, P: Place>(
    alloc: Global,
    space: &mut Space,
    shelf: &mut S,
    cache: &mut Cache,
    mount: Mount<P>,
    group: &mut Group,
    id: u32,
    intent: &Intent,
) -> Result<(), Fault>
    requires mounted { AreMounted (S.sizes shelf.old) mount.slots.now (devices_in space.old) }
    requires txg { 1 ≤ mount.txg }
    requires group { IsLawfulGroup group.old }
    requires intent { IsIntent group.old id intent.now }
    ensures continues { Continues mount.entry.kind mount.entry.slots.now (S.sizes shelf.old) (S.sizes shelf.new) (S.counts shelf.old) (S.counts shelf.new) (S.tells shelf.old) (S.tells shelf.new) (S.world shelf.old) (S.world shelf.new) space.old space.new cache.old cache.new }
    ensures fault { IsErrOf result (Stops DiskFault) → HasRisen (S.counts shelf.old).disk (S.counts shelf.new).disk }
    ensures refused { (r : Refusal) → IsErrOf result (No r) → IsMissingRun intent.now.rec.units (puts_of intent.now.plan.items) (free_units space.old) r }
    ensures kept { (r : Refusal) → IsErrOf result (No r) → group.new ≡ group.old }
    ensures held_no { (s : Stored) → HoldsBlocks mount.entry.kind mount.entry.slots.now (S.tells shelf.old) (S.world shelf.old).now.seen space.old None cache.old s → (r : Refusal) → IsErrOf result (No r) → Now (HoldsBlocks mount.entry.kind mount.entry.slots.now (S.tells shelf.new) (S.world shelf.new).now.seen space.new None cache.new) (λ n. Swaps s n [] []) }
    ensures recorded { OnOk result (HasRecorded id intent.now.rec intent.now.plan.items group.old group.new) }
    ensures lawful { OnOk result (IsLawfulGroup group.new) }
    ensures limits { OnOk result (IsInLimits group.new) }
    ensures changed { (s : Stored) → HoldsBlocks mount.entry.kind mount.entry.slots.now (S.tells shelf.old) (S.world shelf.old).now.seen space.old None cache.old s → AreStored (olds_of intent.now.plan.items) s → OnOk result (Now (HoldsBlocks mount.entry.kind mount.entry.slots.now (S.tells shelf.new) (S.world shelf.new).now.seen space.new None cache.new) (λ n. IsChanged id intent.now.rec intent.now.plan.items s group.old n group.new)) }
{
    let mut store = Vdev::new(space, shelf, cache, mount);
    fulfil(alloc, &mut store, group, id, intent)
}
