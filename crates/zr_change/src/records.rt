//! What the open group records of a change.
ghost use Rattle.std.specs.Prelude.{◌≡◌, ℕ, ◌^◌, ◌<◌, [], length, All, OnOk, OnErr, Some, Option};
ghost use Rattle.std.specs.List.{AllByRecursion};
ghost use Rattle.zr_bptr.specs.Spelling.{IsObject};
ghost use Rattle.zr_bptr.specs.declared.ObjRec.{ObjRec};
ghost use Rattle.zr_tree.specs.Trees.{AreLeaves, Rises};
ghost use Rattle.zr_txg.specs.Changes.{object_in, IsRecorded};
ghost use Rattle.zr_txg.specs.Tables.{IsRising};
ghost use Rattle.zr_lookup.specs.Groups.{IsLawfulGroup};
ghost use Rattle.zr_change.specs.Changes.{Records, RecordsBlocks};

use zr_base::NoMemory;
use zr_bptr::{ObjRec, Ptr};
use zr_txg::Group;

/// Looks at each changed object, so that a proof knows that its changed blocks rise. Linear in the objects.
pub(crate) fn look_over(group: &Group)
    ensures objects { IsRising group.now.objects }
    ensures blocks { AllByRecursion (λ e. IsRising e.1.blocks) group.now.objects }
{
    for i in 0..group.objects() {
        let _ = group.changes(group.id_at(i));
    }
}

/// Records the record of an object that the group has not changed.
fn record_known(group: &mut Group, id: u32, rec: &ObjRec) -> Result<(), NoMemory>
    requires known { (r : Option ObjRec) → object_in group.old id ≡ Some r → r ≡ Some rec.now }
    ensures records { OnOk result (Records id rec.now [] group.old group.new) }
    ensures err { OnErr result (group.new ≡ group.old) }
{
    if group.object(id).is_none() {
        group.record_object(id, Some(*rec))?;
    }
    Ok(())
}

/// Records the change of each block of an object that is recorded.
fn record_blocks(group: &mut Group, id: u32, changes: &[(u64, Ptr)]) -> Result<(), NoMemory>
    requires recorded { IsRecorded group.old id }
    requires rises { Rises changes.now }
    ensures records { OnOk result (RecordsBlocks id changes.now group.old group.new) }
{
    for change in changes {
        group.change(id, change.0, change.1)?;
    }
    Ok(())
}

/// Records an object, where the group has not changed it, and the changes of its blocks.
pub fn record_change(
    group: &mut Group,
    id: u32,
    rec: &ObjRec,
    changes: &[(u64, Ptr)],
) -> Result<(), NoMemory>
    requires lawful { IsLawfulGroup group.old }
    requires id { id < 65536 }
    requires object { IsObject rec.now }
    requires known { (r : Option ObjRec) → object_in group.old id ≡ Some r → r ≡ Some rec.now }
    requires low { All (λ change. change.0 < 2 ^ 25) changes.now }
    requires leaves { AreLeaves changes.now }
    requires rises { Rises changes.now }
    ensures records { OnOk result (Records id rec.now changes.now group.old group.new) }
    ensures lawful { OnOk result (IsLawfulGroup group.new) }
{
    record_known(group, id, rec)?;
    record_blocks(group, id, changes)?;
    look_over(group);
    Ok(())
}
