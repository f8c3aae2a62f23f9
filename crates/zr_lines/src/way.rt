//! Room in the open group.
ghost use Rattle.std.specs.Prelude.{◌≡◌, ◌≤◌, ◌+◌, true, false, [], IfOk, IsErrOf, OnOk, length};
ghost use Rattle.zr_base.specs.Counts.{HasRisen};
ghost use Rattle.zr_base.specs.declared.refusal.Refusal.{Refusal};
ghost use Rattle.zr_shelf.specs.Counts.{NoneFell};
ghost use Rattle.zr_sync.specs.Pools.{IsOpen, IsSamePool};
ghost use Rattle.zr_sync.specs.Writes.{WorksOnDisks};
ghost use Rattle.zr_sync.specs.declared.fault.Fault.TheVariants.{No, Stops};
ghost use Rattle.zr_sync.specs.declared.stop.Stop.TheVariants.{DiskFault};
ghost use Rattle.zr_txg.specs.Changes.{Changes, block_count};
ghost use Rattle.zr_model.specs.Objects.{Objects};
ghost use Rattle.zr_sync.specs.Objects.{HoldsObjects};
ghost use Rattle.zr_last.specs.Last.{KeepsLast};
ghost use Rattle.zr_lines.specs.Sought.{CanTake};
ghost use Rattle.zr_lines.specs.Stops.{StaysInOneGroup, WritesInOneGroup};

use std::alloc::Global;
use zr_shelf::Shelf;
use zr_sync::{Fault, OpenPool, commit};
use zr_vdev::Place;

/// Commits the open group where it cannot take so many more changed blocks and objects, and says whether it did. A group
/// takes at most 64 of each.
pub fn make_way<S: Shelf, P: Place>(
    alloc: Global,
    pool: &mut OpenPool,
    shelf: &mut S,
    pick: &P,
    blocks: u64,
    objects: u64,
) -> Result<bool, Fault>
    requires pool { IsOpen (S.sizes shelf.old) pool.old }
    requires blocks { blocks ≤ 64 }
    requires objects { objects ≤ 64 }
    ensures sizes { S.sizes shelf.new ≡ S.sizes shelf.old }
    ensures none_fell { NoneFell (S.counts shelf.old) (S.counts shelf.new) }
    ensures told { S.tells shelf.old → S.tells shelf.new }
    ensures disks { S.tells shelf.old → WorksOnDisks (S.world shelf.old) (S.world shelf.new) }
    ensures fault { IsErrOf result (Stops DiskFault) → HasRisen (S.counts shelf.old).disk (S.counts shelf.new).disk }
    ensures stops { (r : Refusal) → IsErrOf result (No r) → ⊥ }
    ensures pool { OnOk result (IsOpen (S.sizes shelf.new) pool.new) }
    ensures same { OnOk result (IsSamePool pool.old pool.new) }
    ensures takes { OnOk result (CanTake blocks objects pool.new.group) }
    ensures objects { (held : Objects) → HoldsObjects (S.tells shelf.old) (S.world shelf.old).now.seen pool.old held → OnOk result (HoldsObjects (S.tells shelf.new) (S.world shelf.new).now.seen pool.new held) }
    ensures shown { S.tells shelf.old → OnOk result (KeepsLast (S.world shelf.old) (S.world shelf.new) pool.old pool.new) }
    ensures stays { IfOk result (λ done. done ≡ false → (pool.new ≡ pool.old) × (shelf.new ≡ shelf.old)) }
    ensures due { IfOk result (λ done. done ≡ true → CanTake blocks objects pool.old.group → ⊥) }
    ensures empty { IfOk result (λ done. done ≡ true → pool.new.group.objects ≡ []) }
    ensures txg { IfOk result (λ done. done ≡ true → pool.new.group.txg ≡ pool.old.group.txg + 1) }
    ensures one_group { (held : Objects) → HoldsObjects (S.tells shelf.old) (S.world shelf.old).now.seen pool.old held → OnOk result (StaysInOneGroup (S.sizes shelf.old) held pool.old pool.new (S.world shelf.old) (S.world shelf.new)) }
    ensures writes { (held : Objects) → HoldsObjects (S.tells shelf.old) (S.world shelf.old).now.seen pool.old held → WritesInOneGroup (S.sizes shelf.old) held pool.old (S.world shelf.old) (S.world shelf.new) }
{
    if pool.group.fits(blocks, objects) {
        return Ok(false);
    }
    commit(alloc, pool, shelf, pick, false)?;
    Ok(true)
}
