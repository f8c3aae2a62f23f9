//! Adding a device to an open pool.
ghost use Rattle.std.specs.Prelude.{◌≡◌, ◌<◌, ◌≤◌, ◌+◌, [], IsErrOf, OnOk, Ok, Err, length, IfSome};
ghost use Rattle.zr_base.specs.Counts.{HasRisen};
ghost use Rattle.zr_base.specs.declared.refusal.Refusal.{Refusal};
ghost use Rattle.zr_sync.specs.Copies.{KeepsCopies};
ghost use Rattle.zr_sync.specs.Ends.{LeavesCommitted};
ghost use Rattle.zr_last.specs.Last.{KeepsLast};
ghost use Rattle.zr_model.specs.Objects.{Objects};
ghost use Rattle.zr_shelf.specs.Counts.{NoneFell};
ghost use Rattle.zr_shelf.specs.Moments.{IsStill};
ghost use Rattle.zr_sync.specs.Objects.{HoldsObjects};
ghost use Rattle.zr_sync.specs.Pools.{IsOpen};
ghost use Rattle.zr_sync.specs.Trees.{HasTrees};
ghost use Rattle.zr_sync.specs.Trees.Stage.{Had, Recorded};
ghost use Rattle.zr_sync.specs.Writes.{WorksOnDisks};
ghost use Rattle.zr_sync.specs.declared.fault.Fault.TheVariants.{No, Stops};
ghost use Rattle.zr_sync.specs.declared.stop.Stop.TheVariants.{DiskFault};
ghost use Rattle.zr_sync.specs.Moves.{TellsMoves};
ghost use Rattle.zr_create.specs.Adding.{AddsInPart};
ghost use Rattle.zr_create.specs.Blank.{IsResetAt, NothingWaits};
ghost use Rattle.zr_create.specs.Devices.{Grows};
ghost use Rattle.zr_create.specs.Refusals.{ChecksNext};

use crate::sizes::sizes_of;
use crate::taking::take_on;
use std::alloc::Global;
use zr_label::units_of_size;
use zr_shelf::Shelf;
use zr_slots::{Identity, refuse_add, scan_all};
use zr_sync::{Fault, OpenPool, Stop, commit};
use zr_vdev::Place;

// Looks at all slots, and refuses one that cannot become the next device of the pool.
fn check_next<S: Shelf>(
    alloc: Global,
    pool: &OpenPool,
    shelf: &mut S,
    slot: u32,
) -> Result<(), Fault>
    requires pool { IsOpen (S.sizes shelf.old) pool.now }
    requires exists { slot < length (S.sizes shelf.old) }
    requires slots { length (S.sizes shelf.old) ≤ 32 }
    ensures sizes { S.sizes shelf.new ≡ S.sizes shelf.old }
    ensures none_fell { NoneFell (S.counts shelf.old) (S.counts shelf.new) }
    ensures told { S.tells shelf.old → S.tells shelf.new }
    ensures still { S.tells shelf.old → IsStill (S.world shelf.old) (S.world shelf.new) }
    ensures fault { IsErrOf result (Stops DiskFault) → HasRisen (S.counts shelf.old).disk (S.counts shelf.new).disk }
    ensures refused { (r : Refusal) → IsErrOf result (No r) → ChecksNext (S.sizes shelf.old) (S.tells shelf.old) (S.world shelf.old).now.seen pool.now slot (Err r) }
    ensures allowed { OnOk result (ChecksNext (S.sizes shelf.old) (S.tells shelf.old) (S.world shelf.old).now.seen pool.now slot (Ok tt)) }
{
    let Some(added) = pool.group.txg().checked_add(1) else {
        return Err(Fault::Stops(Stop::NoMemory));
    };
    let sizes = sizes_of(alloc, shelf)?;
    let seen = scan_all(alloc, shelf)?;
    let it = Identity {
        guid: pool.guid,
        index: pool.table.count,
        added,
    };
    refuse_add(
        sizes.as_slice(),
        seen.as_slice(),
        slot,
        &pool.table.slots,
        it,
        pool.version,
    )?;
    Ok(())
}

/// Adds a slot to an open pool as its next device: the group is committed as it is, and then one with the device, which is
/// a reset. The pool holds the objects that it held. Want of memory is also the answer at the last groups of all.
///
/// After a stop the pool is not to be used.
pub fn add<S: Shelf, P: Place>(
    alloc: Global,
    pool: &mut OpenPool,
    shelf: &mut S,
    pick: &P,
    slot: u32,
) -> Result<(), Fault>
    requires pool { IsOpen (S.sizes shelf.old) pool.old }
    requires exists { slot < length (S.sizes shelf.old) }
    requires slots { length (S.sizes shelf.old) ≤ 32 }
    ensures sizes { S.sizes shelf.new ≡ S.sizes shelf.old }
    ensures none_fell { NoneFell (S.counts shelf.old) (S.counts shelf.new) }
    ensures told { S.tells shelf.old → S.tells shelf.new }
    ensures disks { S.tells shelf.old → WorksOnDisks (S.world shelf.old) (S.world shelf.new) }
    ensures fault { IsErrOf result (Stops DiskFault) → HasRisen (S.counts shelf.old).disk (S.counts shelf.new).disk }
    ensures pool { OnOk result (IsOpen (S.sizes shelf.new) pool.new) }
    ensures grown { OnOk result (Grows (S.sizes shelf.old) slot pool.old pool.new) }
    ensures txg { OnOk result (pool.new.group.txg ≡ pool.old.group.txg + 2) }
    ensures empty { OnOk result (pool.new.group.objects ≡ []) }
    ensures root { OnOk result (IsResetAt (pool.old.group.txg + 1) pool.new.last) }
    ensures settled { OnOk result (NothingWaits pool.new.space) }
    ensures shown { S.tells shelf.old → OnOk result (KeepsLast (S.world shelf.old) (S.world shelf.new) pool.old pool.new) }
    ensures ends { (objects : Objects) → HoldsObjects (S.tells shelf.old) (S.world shelf.old).now.seen pool.old objects → OnOk result (LeavesCommitted pool.new (S.world shelf.new).now) }
    ensures objects { (objects : Objects) → HoldsObjects (S.tells shelf.old) (S.world shelf.old).now.seen pool.old objects → OnOk result (HoldsObjects (S.tells shelf.new) (S.world shelf.new).now.seen pool.new objects) }
    ensures trees { HasTrees Had (S.tells shelf.old) (S.world shelf.old).now.seen pool.old → OnOk result (HasTrees Recorded (S.tells shelf.new) (S.world shelf.new).now.seen pool.new) }
    ensures copies { S.tells shelf.old → OnOk result (KeepsCopies (S.world shelf.old) (S.world shelf.new) pool.old pool.new) }
    ensures moves { HasTrees Had (S.tells shelf.old) (S.world shelf.old).now.seen pool.old → OnOk result (IfSome pool.new.last (λ u. TellsMoves (S.world shelf.new).now.seen pool.new u.root u.len)) }
    ensures stops { (objects : Objects) → HoldsObjects (S.tells shelf.old) (S.world shelf.old).now.seen pool.old objects → AddsInPart (S.sizes shelf.old) objects slot pool.old (S.world shelf.old) (S.world shelf.new) }
    ensures refused { (r : Refusal) → IsErrOf result (No r) → ChecksNext (S.sizes shelf.old) (S.tells shelf.old) (S.world shelf.old).now.seen pool.old slot (Err r) }
    ensures allowed { OnOk result (ChecksNext (S.sizes shelf.old) (S.tells shelf.old) (S.world shelf.old).now.seen pool.old slot (Ok tt)) }
    ensures untouched { S.tells shelf.old → (r : Refusal) → IsErrOf result (No r) → IsStill (S.world shelf.old) (S.world shelf.new) }
    ensures unchanged { (r : Refusal) → IsErrOf result (No r) → pool.new ≡ pool.old }
    ensures still_open { (r : Refusal) → IsErrOf result (No r) → IsOpen (S.sizes shelf.new) pool.new }
{
    check_next(alloc, pool, shelf, slot)?;
    let Some(units) = units_of_size(shelf.size(slot), pool.version) else {
        unreachable!()
    };
    commit(alloc, pool, shelf, pick, false)?;
    take_on(alloc, pool, shelf, slot, units)?;
    commit(alloc, pool, shelf, pick, true)?;
    Ok(())
}
