//! What a line means to do, found out before anything is changed.
//!
//! A line looks at its object through one store, from its record to its blocks, so that all that it finds was held at one
//! moment.
ghost use Rattle.std.specs.Prelude.{◌≡◌, ◌≤◌, ◌<◌, ℕ, List, IfOk, IfSome, OnOk, IsErrOf, None, []};
ghost use Rattle.zr_base.specs.Counts.{HasRisen};
ghost use Rattle.zr_base.specs.declared.refusal.Refusal.{Refusal};
ghost use Rattle.zr_base.specs.declared.refusal.Refusal.TheVariants.{Damaged, NoSuchObject, OutOfRange};
ghost use Rattle.zr_base.specs.declared.space.Dva.{Dva};
ghost use Rattle.zr_bptr.specs.Spelling.{IsTree};
ghost use Rattle.zr_change.specs.Edits.{HasLength, IsPart};
ghost use Rattle.zr_change.specs.Plans.{HasRecorded, IsChanged, puts_of, olds_of};
ghost use Rattle.zr_lookup.specs.Groups.{IsLawfulGroup};
ghost use Rattle.zr_lookup.specs.Objects.{record_now};
ghost use Rattle.zr_store.specs.Store.{Stored, Now, AreStored, Swaps};
ghost use Rattle.zr_sync.specs.Pools.{IsInLimits};
ghost use Rattle.zr_sync.specs.declared.fault.Fault.TheVariants.{No, Stops};
ghost use Rattle.zr_sync.specs.declared.stop.Stop.TheVariants.{DiskFault};
ghost use Rattle.zr_lines.specs.Causes.{IsLookRefusal, IsMissingRun};
ghost use Rattle.zr_lines.specs.Damage.{IsDamageOf};
ghost use Rattle.zr_lines.specs.Intents.{IsIntent, IsFor, IsPlanned, IsOutside, IsFull};

use crate::range::{Reach, check_range};
use std::alloc::Global;
use zr_base::Refusal;
use zr_bptr::{ObjRec, Tree};
use zr_change::{Edit, Planned, change_object, new_blocks, plan};
use zr_lookup::record_of;
use zr_store::Blocks;
use zr_sync::Fault;
use zr_txg::Group;

/// What is to become of an object: its record, the first and the last block that are changed, and the plan of each of them.
#[derive(Drop)]
pub(crate) struct Intent {
    pub rec: ObjRec,
    pub first: u64,
    pub last: u64,
    pub plan: Vec<Planned>,
}

/// What the edit makes of an object. None where the group has no place for it, and then no block of the object is read.
pub(crate) fn look<B: Blocks>(
    alloc: Global,
    store: &mut B,
    dir: &Tree,
    group: &Group,
    id: u64,
    edit: &Edit<'_>,
    reach: Reach,
) -> Result<Option<Intent>, Fault>
    requires dir { IsTree dir.now }
    requires low { dir.now.height ≤ 3 }
    requires group { IsLawfulGroup group.now }
    requires given { HasLength edit.now.len edit.now.bytes }
    ensures follows { (start : B) → B.follows start store.old → B.follows start store.new }
    ensures fault { IsErrOf result (Stops DiskFault) → HasRisen (B.account store.old).faults (B.account store.new).faults }
    ensures refused { (r : Refusal) → IsErrOf result (No r) → IsLookRefusal r }
    ensures same { (s : Stored) → B.holds store.old s → B.holds store.new s }
    ensures none { (s : Stored) → B.holds store.old s → IsErrOf result (No NoSuchObject) → record_now s dir.now group.now id ≡ None }
    ensures outside { (s : Stored) → B.holds store.old s → IsErrOf result (No OutOfRange) → IsOutside s dir.now group.now id reach edit.now }
    ensures damaged { (s : Stored) → B.holds store.old s → (at : Dva) (expected found : List ℕ) → IsErrOf result (No (Damaged at expected found)) → IsDamageOf s dir.now group.now id (λ r. IsPart r.units edit.now) at expected found }
    ensures full { IfOk result (λ i. i ≡ None → IsFull reach group.now id edit.now) }
    ensures intent { IfOk result (λ i. IfSome i (IsIntent group.now id)) }
    ensures fits { IfOk result (λ i. IfSome i (IsFor reach edit.now)) }
    ensures planned { (s : Stored) → B.holds store.old s → IfOk result (λ i. IfSome i (IsPlanned s dir.now group.now id edit.now)) }
{
    let Some(rec) = record_of(alloc, store, dir, group, id)? else {
        return Err(Fault::No(Refusal::NoSuchObject));
    };
    let (first, last) = check_range(rec.units, edit, reach)?;
    let id = id as u32;
    let blocks = new_blocks(group, id, first, last);
    let objects = u64::from(group.object(id).is_none());
    if !group.fits(blocks, objects) {
        return Ok(None);
    }
    let plan = plan(alloc, store, group, id, &rec, edit)?;
    Ok(Some(Intent {
        rec,
        first,
        last,
        plan,
    }))
}

/// Does what is meant with an object: its new blocks are put, the group records them, and its old ones are freed. Where a
/// block cannot be put, all that were put are freed, and the group is as it was.
pub(crate) fn fulfil<B: Blocks>(
    alloc: Global,
    store: &mut B,
    group: &mut Group,
    id: u32,
    intent: &Intent,
) -> Result<(), Fault>
    requires group { IsLawfulGroup group.old }
    requires intent { IsIntent group.old id intent.now }
    ensures follows { (start : B) → B.follows start store.old → B.follows start store.new }
    ensures fault { IsErrOf result (Stops DiskFault) → HasRisen (B.account store.old).faults (B.account store.new).faults }
    ensures refused { (r : Refusal) → IsErrOf result (No r) → IsMissingRun intent.now.rec.units (puts_of intent.now.plan.items) (B.account store.old).room r }
    ensures kept { (r : Refusal) → IsErrOf result (No r) → group.new ≡ group.old }
    ensures stays_no { (s : Stored) → B.holds store.old s → (r : Refusal) → IsErrOf result (No r) → Now (B.holds store.new) (λ n. Swaps s n [] []) }
    ensures recorded { OnOk result (HasRecorded id intent.now.rec intent.now.plan.items group.old group.new) }
    ensures lawful { OnOk result (IsLawfulGroup group.new) }
    ensures limits { OnOk result (IsInLimits group.new) }
    ensures changed { (s : Stored) → B.holds store.old s → AreStored (olds_of intent.now.plan.items) s → OnOk result (Now (B.holds store.new) (λ n. IsChanged id intent.now.rec intent.now.plan.items s group.old n group.new)) }
{
    let plan = intent.plan.as_slice();
    Ok(change_object(alloc, store, group, id, &intent.rec, plan)?)
}
