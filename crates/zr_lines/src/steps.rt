//! The steps of a change on an open pool.
ghost use Rattle.std.specs.FinMap as map;
ghost use Rattle.std.specs.Prelude.{◌≡◌, ◌⊎◌, ℕ, List, [], false, None, IfOk, IfSome, OnOk, IsErrOf};
ghost use Rattle.zr_base.specs.Counts.{HasRisen};
ghost use Rattle.zr_base.specs.declared.refusal.Refusal.{Refusal};
ghost use Rattle.zr_base.specs.declared.refusal.Refusal.TheVariants.{Damaged, NoSuchObject, OutOfRange};
ghost use Rattle.zr_base.specs.declared.space.Dva.{Dva};
ghost use Rattle.zr_change.specs.Edits.{HasLength, IsPart};
ghost use Rattle.zr_change.specs.Plans.{IsChanged, olds_of};
ghost use Rattle.zr_held.specs.Steps.{IsObjectOf};
ghost use Rattle.zr_model.specs.Objects.{Objects};
ghost use Rattle.zr_sync.specs.Holds.{HasBlocks};
ghost use Rattle.zr_sync.specs.Objects.{HoldsObjects};
ghost use Rattle.zr_lookup.specs.Objects.{record_now};
ghost use Rattle.zr_store.specs.Store.{AreStored, Now, Stored, Swaps};
ghost use Rattle.zr_sync.specs.Pools.{IsOpen};
ghost use Rattle.zr_sync.specs.Writes.{WritesBlocks};
ghost use Rattle.zr_sync.specs.declared.fault.Fault.TheVariants.{No, Stops};
ghost use Rattle.zr_sync.specs.declared.stop.Stop.TheVariants.{DiskFault};
ghost use Rattle.zr_vdev.specs.Stores.{Continues};
ghost use Rattle.zr_vdev.specs.declared.kind.Kind.TheVariants.{Block};
ghost use Rattle.zr_lines.specs.Causes.{IsLookRefusal, IsShort, IsLongRun};
ghost use Rattle.zr_lines.specs.Changes.{HasDone};
ghost use Rattle.zr_lines.specs.Damage.{IsDamageOf};
ghost use Rattle.zr_lines.specs.Intents.{IsIntent, IsFor, IsPlanned, IsOutside, IsFull, IsReadyFor};
ghost use Rattle.zr_lines.specs.Reaches.{is_in_reach};

use crate::intent::Intent;
use crate::range::Reach;
use crate::room::check_room;
use crate::stores::{change_at, look_at};
use std::alloc::Global;
use zr_change::Edit;
use zr_shelf::Shelf;
use zr_sync::{Fault, OpenPool};
use zr_vdev::{Kind, Mount, Place};

/// What the edit makes of an object. None where the group has no place for it.
pub(crate) fn look_over<S: Shelf, P: Place>(
    alloc: Global,
    pool: &mut OpenPool,
    shelf: &mut S,
    pick: &P,
    id: u64,
    edit: &Edit<'_>,
    reach: Reach,
) -> Result<Option<Intent>, Fault>
    requires pool { IsOpen (S.sizes shelf.old) pool.old }
    requires given { HasLength edit.now.len edit.now.bytes }
    ensures wrote { WritesBlocks (S.sizes shelf.old) (S.sizes shelf.new) (S.counts shelf.old) (S.counts shelf.new) (S.tells shelf.old) (S.tells shelf.new) (S.world shelf.old) (S.world shelf.new) pool.old pool.new }
    ensures group { pool.new.group ≡ pool.old.group }
    ensures pool { IsOpen (S.sizes shelf.new) pool.new }
    ensures fault { IsErrOf result (Stops DiskFault) → HasRisen (S.counts shelf.old).disk (S.counts shelf.new).disk }
    ensures refused { (r : Refusal) → IsErrOf result (No r) → IsLookRefusal r }
    ensures none { (s : Stored) → HasBlocks (S.tells shelf.old) (S.world shelf.old).now.seen pool.old s → IsErrOf result (No NoSuchObject) → record_now s pool.old.dir pool.old.group id ≡ None }
    ensures outside { (s : Stored) → HasBlocks (S.tells shelf.old) (S.world shelf.old).now.seen pool.old s → IsErrOf result (No OutOfRange) → IsOutside s pool.old.dir pool.old.group id reach edit.now }
    ensures damaged { (s : Stored) → HasBlocks (S.tells shelf.old) (S.world shelf.old).now.seen pool.old s → (at : Dva) (expected found : List ℕ) → IsErrOf result (No (Damaged at expected found)) → IsDamageOf s pool.old.dir pool.old.group id (λ r. IsPart r.units edit.now) at expected found }
    ensures full { IfOk result (λ i. i ≡ None → IsFull reach pool.old.group id edit.now) }
    ensures intent { IfOk result (λ i. IfSome i (IsIntent pool.old.group id)) }
    ensures fits { IfOk result (λ i. IfSome i (IsFor reach edit.now)) }
    ensures planned { (s : Stored) → HasBlocks (S.tells shelf.old) (S.world shelf.old).now.seen pool.old s → IfOk result (λ i. IfSome i (IsPlanned s pool.old.dir pool.old.group id edit.now)) }
    ensures held { (s : Stored) → HasBlocks (S.tells shelf.old) (S.world shelf.old).now.seen pool.old s → Now (HasBlocks (S.tells shelf.new) (S.world shelf.new).now.seen pool.new) (λ n. Swaps s n [] []) }
    ensures stays { (objects : Objects) → HoldsObjects (S.tells shelf.old) (S.world shelf.old).now.seen pool.old objects → HoldsObjects (S.tells shelf.new) (S.world shelf.new).now.seen pool.new objects }
    ensures absent_object { (objects : Objects) → HoldsObjects (S.tells shelf.old) (S.world shelf.old).now.seen pool.old objects → IsErrOf result (No NoSuchObject) → map.get objects id ≡ None }
    ensures too_far_object { (objects : Objects) → HoldsObjects (S.tells shelf.old) (S.world shelf.old).now.seen pool.old objects → IsErrOf result (No OutOfRange) → IsObjectOf objects id (λ o. is_in_reach reach o.units edit.now ≡ false) }
    ensures ready { (objects : Objects) → HoldsObjects (S.tells shelf.old) (S.world shelf.old).now.seen pool.old objects → IfOk result (λ i. IfSome i (IsReadyFor (S.tells shelf.new) (S.world shelf.new).now.seen pool.new id edit.now objects)) }
{
    let mount = Mount {
        slots: &pool.table.slots,
        pick,
        txg: pool.group.txg(),
        kind: Kind::Block,
    };
    look_at(
        alloc,
        &mut pool.space,
        shelf,
        &mut pool.cache,
        mount,
        &pool.dir,
        &pool.group,
        id,
        edit,
        reach,
    )
}

/// Does what is meant with an object, where there is room for it.
pub(crate) fn carry_out<S: Shelf, P: Place>(
    alloc: Global,
    pool: &mut OpenPool,
    shelf: &mut S,
    pick: &P,
    id: u32,
    intent: &Intent,
    reach: Reach,
) -> Result<(), Fault>
    requires pool { IsOpen (S.sizes shelf.old) pool.old }
    requires intent { IsIntent pool.old.group id intent.now }
    ensures continues { Continues Block pool.old.table.slots (S.sizes shelf.old) (S.sizes shelf.new) (S.counts shelf.old) (S.counts shelf.new) (S.tells shelf.old) (S.tells shelf.new) (S.world shelf.old) (S.world shelf.new) pool.old.space pool.new.space pool.old.cache pool.new.cache }
    ensures fault { IsErrOf result (Stops DiskFault) → HasRisen (S.counts shelf.old).disk (S.counts shelf.new).disk }
    ensures wrote { OnOk result (WritesBlocks (S.sizes shelf.old) (S.sizes shelf.new) (S.counts shelf.old) (S.counts shelf.new) (S.tells shelf.old) (S.tells shelf.new) (S.world shelf.old) (S.world shelf.new) pool.old pool.new) }
    ensures pool { OnOk result (IsOpen (S.sizes shelf.new) pool.new) }
    ensures wrote_no { (r : Refusal) → IsErrOf result (No r) → WritesBlocks (S.sizes shelf.old) (S.sizes shelf.new) (S.counts shelf.old) (S.counts shelf.new) (S.tells shelf.old) (S.tells shelf.new) (S.world shelf.old) (S.world shelf.new) pool.old pool.new }
    ensures group_no { (r : Refusal) → IsErrOf result (No r) → pool.new.group ≡ pool.old.group }
    ensures pool_no { (r : Refusal) → IsErrOf result (No r) → IsOpen (S.sizes shelf.new) pool.new }
    ensures stays_no { (objects : Objects) → HoldsObjects (S.tells shelf.old) (S.world shelf.old).now.seen pool.old objects → (r : Refusal) → IsErrOf result (No r) → HoldsObjects (S.tells shelf.new) (S.world shelf.new).now.seen pool.new objects }
    ensures refused { (r : Refusal) → IsErrOf result (No r) → IsShort reach pool.new.space pool.new.group id intent.now r ⊎ IsLongRun intent.now r }
    ensures changed { (s : Stored) → HasBlocks (S.tells shelf.old) (S.world shelf.old).now.seen pool.old s → AreStored (olds_of intent.now.plan.items) s → OnOk result (Now (HasBlocks (S.tells shelf.new) (S.world shelf.new).now.seen pool.new) (λ n. IsChanged id intent.now.rec intent.now.plan.items s pool.old.group n pool.new.group)) }
    ensures done { OnOk result (HasDone reach id intent.now pool.old.space pool.old.group pool.new.group) }
{
    check_room(alloc, pool, id, intent, reach)?;
    let mount = Mount {
        slots: &pool.table.slots,
        pick,
        txg: pool.group.txg(),
        kind: Kind::Block,
    };
    change_at(
        alloc,
        &mut pool.space,
        shelf,
        &mut pool.cache,
        mount,
        &mut pool.group,
        id,
        intent,
    )
}
