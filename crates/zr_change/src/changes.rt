//! A whole change: the new blocks are put, then recorded, and only then the old ones are given back.
ghost use Rattle.std.specs.Prelude.{◌≡◌, ◌⊎◌, ℕ, ◌+◌, ◌*◌, ◌<◌, is_some, if◌then◌else◌, [], length, map, IfErr, OnOk, IsErrOf, Some, Option};
ghost use Rattle.zr_base.specs.Counts.{HasRisen};
ghost use Rattle.zr_bptr.specs.Spelling.{IsObject};
ghost use Rattle.zr_bptr.specs.declared.ObjRec.{ObjRec};
ghost use Rattle.zr_store.specs.declared.StoreErr.TheVariants.{NoMemory, NoRun, Failed};
ghost use Rattle.zr_store.specs.Causes.{Spends};
ghost use Rattle.zr_store.specs.Store.{Stored, Now, AreStored, Swaps};
ghost use Rattle.zr_txg.specs.Changes.{object_in, block_count};
ghost use Rattle.zr_lookup.specs.Groups.{IsLawfulGroup};
ghost use Rattle.zr_change.specs.Changes.{new_in};
ghost use Rattle.zr_change.specs.Edits.{IsInRow};
ghost use Rattle.zr_change.specs.Plans.{AreNew, IsLacking, IsPutErr, IsChanged, HasRecorded, puts_of, olds_of};

use crate::plans::Planned;
use crate::records::record_change;
use crate::stores::{free_olds, put_all};
use std::alloc::Global;
use zr_bptr::ObjRec;
use zr_store::{Blocks, StoreErr};
use zr_txg::Group;

/// Does what was planned for an object. That there is room is to be tested between the plan and this call. A block whose
/// old pointer is a hole and that is to have zeros alone puts nothing and gives nothing back, but counts as changed. After
/// an error but want of memory the group is as it was, and what is held too.
pub fn change_object<B: Blocks>(
    alloc: Global,
    store: &mut B,
    group: &mut Group,
    id: u32,
    rec: &ObjRec,
    plan: &[Planned],
) -> Result<(), StoreErr>
    requires lawful { IsLawfulGroup group.old }
    requires id { id < 65536 }
    requires object { IsObject rec.now }
    requires known { (r : Option ObjRec) → object_in group.old id ≡ Some r → r ≡ Some rec.now }
    requires row { IsInRow (map (λ p. p.index) plan.now) }
    requires new { AreNew rec.now.units plan.now }
    ensures follows { (start : B) → B.follows start store.old → B.follows start store.new }
    ensures costs { OnOk result (Spends (rec.now.units * puts_of plan.now) (puts_of plan.now) (length (olds_of plan.now)) (B.account store.old) (B.account store.new)) }
    ensures undoing { IfErr result (λ e. Spends (rec.now.units * puts_of plan.now) (puts_of plan.now) (puts_of plan.now + length (olds_of plan.now)) (B.account store.old) (B.account store.new)) }
    ensures failed { IsErrOf result Failed → HasRisen (B.account store.old).faults (B.account store.new).faults }
    ensures no_run { (needed longest : ℕ) → IsErrOf result (NoRun needed longest) → IsLacking rec.now.units (puts_of plan.now) (B.account store.old) needed longest }
    ensures errors { IfErr result IsPutErr }
    ensures records { OnOk result (HasRecorded id rec.now plan.now group.old group.new) }
    ensures block_count { OnOk result (block_count group.new.objects ≡ block_count group.old.objects + new_in group.old id (map (λ p. p.index) plan.now)) }
    ensures object_count { OnOk result (length group.new.objects ≡ length group.old.objects + (if is_some (object_in group.old id) then 0 else 1)) }
    ensures lawful { OnOk result (IsLawfulGroup group.new) }
    ensures kept { IfErr result (λ e. (e ≡ NoMemory) ⊎ (group.new ≡ group.old)) }
    ensures ok { (s : Stored) → B.holds store.old s → AreStored (olds_of plan.now) s → OnOk result (Now (B.holds store.new) (λ n. IsChanged id rec.now plan.now s group.old n group.new)) }
    ensures err { (s : Stored) → B.holds store.old s → IfErr result (λ e. (e ≡ NoMemory) ⊎ Now (B.holds store.new) (λ n. Swaps s n [] [])) }
{
    let changes = put_all(alloc, store, rec.units, plan)?;
    record_change(group, id, rec, changes.as_slice())?;
    free_olds(alloc, store, plan)?;
    Ok(())
}
