//! Making and dropping an object.
ghost use Rattle.std.specs.Prelude.{◌≡◌, ℕ, ◌+◌, ◌*◌, ◌<◌, ◌≤◌, IsTrue, length, [], IfErr, OnOk, OnErr, Some, None};
ghost use Rattle.zr_base.specs.Blocks.{is_block_size};
ghost use Rattle.zr_bptr.specs.declared.Ptr.TheVariants.{Hole};
ghost use Rattle.zr_store.specs.Causes.{Costs};
ghost use Rattle.zr_store.specs.Store.{Stored, Now, AreStored, Swaps};
ghost use Rattle.zr_txg.specs.Changes.{changes_in, block_count, IsRecorded};
ghost use Rattle.zr_lookup.specs.Groups.{IsLawfulGroup};
ghost use Rattle.zr_change.specs.Changes.{SetsObject};

use crate::records::look_over;
use std::alloc::Global;
use zr_base::NoMemory;
use zr_bptr::{Bptr, ObjRec, Ptr, Tree};
use zr_store::{Blocks, StoreErr};
use zr_txg::Group;

/// Records a new object, which has no block and no height. After an error nothing is changed.
pub fn make_object(group: &mut Group, id: u32, units: u32) -> Result<(), NoMemory>
    requires lawful { IsLawfulGroup group.old }
    requires id { id < 65536 }
    requires units { IsTrue (is_block_size units) }
    requires new { ¬ IsRecorded group.old id }
    ensures sets { OnOk result (SetsObject id (Some (record { units = units; tree = record { root = Hole; height = 0 } })) group.old group.new) }
    ensures blank { OnOk result (changes_in group.new id ≡ []) }
    ensures block_count { OnOk result (block_count group.new.objects ≡ block_count group.old.objects) }
    ensures lawful { IsLawfulGroup group.new }
    ensures err { OnErr result (group.new ≡ group.old) }
{
    prove!(group.changes(id).is_empty());
    let tree = Tree {
        root: Ptr::Hole,
        height: 0,
    };
    group.record_object(id, Some(ObjRec { units, tree }))?;
    look_over(group);
    Ok(())
}

/// Gives back each of these blocks.
fn free_blocks<B: Blocks>(alloc: Global, store: &mut B, blocks: &[Bptr]) -> Result<(), StoreErr>
    ensures follows { (start : B) → B.follows start store.old → B.follows start store.new }
    ensures costs { Costs 0 (length blocks.now) (B.account store.old) (B.account store.new) }
    ensures memory { IfErr result (λ e. e ≡ StoreErr.NoMemory) }
    ensures swaps { (s : Stored) → B.holds store.old s → AreStored blocks.now s → OnOk result (Now (B.holds store.new) (λ n. Swaps s n blocks.now [])) }
{
    for b in blocks {
        store.free(alloc, b)?;
    }
    Ok(())
}

/// Gives back these blocks, which are to be all of the object's, and records that it is gone; its changed blocks then no
/// longer count. After an error the group is as it was.
pub fn drop_object<B: Blocks>(
    alloc: Global,
    store: &mut B,
    group: &mut Group,
    id: u32,
    blocks: &[Bptr],
) -> Result<(), StoreErr>
    requires lawful { IsLawfulGroup group.old }
    requires id { id < 65536 }
    ensures follows { (start : B) → B.follows start store.old → B.follows start store.new }
    ensures costs { Costs 0 (length blocks.now) (B.account store.old) (B.account store.new) }
    ensures memory { IfErr result (λ e. e ≡ StoreErr.NoMemory) }
    ensures sets { OnOk result (SetsObject id None group.old group.new) }
    ensures block_count { OnOk result (block_count group.new.objects + length (changes_in group.old id) ≡ block_count group.old.objects) }
    ensures lawful { IsLawfulGroup group.new }
    ensures kept { IfErr result (λ e. group.new ≡ group.old) }
    ensures swaps { (s : Stored) → B.holds store.old s → AreStored blocks.now s → OnOk result (Now (B.holds store.new) (λ n. Swaps s n blocks.now [])) }
{
    free_blocks(alloc, store, blocks)?;
    group.record_object(id, None)?;
    look_over(group);
    Ok(())
}
