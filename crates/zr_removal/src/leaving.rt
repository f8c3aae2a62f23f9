//! A removal begins: a device leaves the service.
//!
//! From then on it gives out no units. Its commit writes all metadata anew, and so on the devices that stay, and is a reset:
//! what was freed of the device's metadata is free with it. So room is asked for as if the device were leaving already.
ghost use Rattle.std.specs.Prelude.{◌≡◌, ◌<◌, ◌≤◌, ℕ, List, true, false, IfErr, IsErrOf, OnOk};
ghost use Rattle.zr_base.specs.Counts.{HasRisen};
ghost use Rattle.zr_base.specs.declared.refusal.Refusal.{Refusal};
ghost use Rattle.zr_base.specs.declared.space.CkptPart.TheVariants.{Clear};
ghost use Rattle.zr_base.specs.declared.space.DevState.TheVariants.{On};
ghost use Rattle.zr_last.specs.Last.{KeepsLast};
ghost use Rattle.zr_model.specs.Objects.{Objects};
ghost use Rattle.zr_rules.specs.Places.{state_of_dev};
ghost use Rattle.zr_shelf.specs.Counts.{NoneFell};
ghost use Rattle.zr_sync.specs.Copies.{KeepsCopies};
ghost use Rattle.zr_sync.specs.Ends.{LeavesCommitted};
ghost use Rattle.zr_sync.specs.Objects.{HoldsObjects};
ghost use Rattle.zr_sync.specs.Pools.{IsOpen};
ghost use Rattle.zr_sync.specs.Writes.{WorksOnDisks};
ghost use Rattle.zr_sync.specs.declared.fault.Fault.TheVariants.{No, Stops};
ghost use Rattle.zr_sync.specs.declared.stop.Stop.TheVariants.{DiskFault};
ghost use Rattle.zr_removal.specs.Devices.{HasOther, IsOnlyOne};
ghost use Rattle.zr_removal.specs.Refusals.{HasNoRemoval, IsRemoveRefusal, free_beside, removal_needs};
ghost use Rattle.zr_removal.specs.Turns.{BeginsInPart, BeginsRemoval, LeavesPool};

use crate::room::{free_beside, needed};
use crate::rows::set_row;
use std::alloc::Global;
use zr_base::{DevRow, DevState, NoMemory, Refusal};
use zr_choose::Chooser;
use zr_shelf::Shelf;
use zr_sync::{Fault, OpenPool, commit_moving};

// Whether another device than this one is in service.
pub fn has_other(pool: &OpenPool, dev: u32) -> bool
    requires { (sizes : List ℕ) × IsOpen sizes pool.now }
    ensures yes { result ≡ true → HasOther pool.now.space dev }
    ensures no { result ≡ false → IsOnlyOne pool.now.space dev }
{
    for other in 0..pool.space.devices() {
        if other != dev && pool.space.state(other) == DevState::On {
            return true;
        }
    }
    false
}

// Refuses to remove the only device in service, and one without which there is too little room.
fn demand_to_remove(pool: &OpenPool, dev: u32) -> Result<(), Refusal>
    requires pool { (sizes : List ℕ) × IsOpen sizes pool.now }
    requires known { dev < pool.now.table.count }
    ensures other { OnOk result (HasOther pool.now.space dev) }
    ensures enough { OnOk result (removal_needs pool.now dev ≤ free_beside pool.now.space dev) }
    ensures refused { IfErr result (IsRemoveRefusal pool.now dev) }
{
    if !has_other(pool, dev) {
        return Err(Refusal::OnlyDevice);
    }
    let needed = needed(pool, dev);
    let free = free_beside(pool, dev);
    if needed > free {
        return Err(Refusal::NoRoom { needed, free });
    }
    Ok(())
}

// The device is leaving from now on.
//
// Want of memory is also the answer where units of the device are kept, as no pool has them that has no checkpoint.
fn leave(pool: &mut OpenPool, dev: u32) -> Result<(), NoMemory>
    requires pool { (sizes : List ℕ) × IsOpen sizes pool.old }
    requires known { dev < pool.old.table.count }
    requires on { state_of_dev pool.old.space.parts.devs dev ≡ On }
    requires clear { pool.old.space.parts.ckpt ≡ Clear }
    requires alone { HasNoRemoval pool.old.space }
    requires other { HasOther pool.old.space dev }
    ensures leaves { OnOk result (LeavesPool pool.old pool.new dev) }
    ensures pool { (sizes : List ℕ) → IsOpen sizes pool.old → OnOk result (IsOpen sizes pool.new) }
{
    if !pool.space.kept(dev).is_empty() {
        return Err(NoMemory);
    }
    pool.space.begin_removal(dev)?;
    let row = DevRow {
        state: DevState::Leaving,
        ..pool.table.rows[dev as usize]
    };
    set_row(&mut pool.table, dev, row);
    Ok(())
}

/// Takes a device in service out of it, so that what it holds can be copied elsewhere, where there is room for what the
/// commits to come may write beside it. The pool holds the objects that it held: the device is read as before. It goes over the
/// held extents of the device, and writes all metadata anew.
pub fn remove<S: Shelf>(
    alloc: Global,
    pool: &mut OpenPool,
    shelf: &mut S,
    pick: &Chooser,
    dev: u32,
) -> Result<(), Fault>
    requires pool { IsOpen (S.sizes shelf.old) pool.old }
    requires known { dev < pool.old.table.count }
    requires on { state_of_dev pool.old.space.parts.devs dev ≡ On }
    requires clear { pool.old.space.parts.ckpt ≡ Clear }
    requires alone { HasNoRemoval pool.old.space }
    ensures sizes { S.sizes shelf.new ≡ S.sizes shelf.old }
    ensures none_fell { NoneFell (S.counts shelf.old) (S.counts shelf.new) }
    ensures told { S.tells shelf.old → S.tells shelf.new }
    ensures disks { S.tells shelf.old → WorksOnDisks (S.world shelf.old) (S.world shelf.new) }
    ensures fault { IsErrOf result (Stops DiskFault) → HasRisen (S.counts shelf.old).disk (S.counts shelf.new).disk }
    ensures pool { OnOk result (IsOpen (S.sizes shelf.new) pool.new) }
    ensures other { OnOk result (HasOther pool.old.space dev) }
    ensures enough { OnOk result (removal_needs pool.old dev ≤ free_beside pool.old.space dev) }
    ensures begins { OnOk result (BeginsRemoval (S.sizes shelf.old) (S.tells shelf.old) (S.world shelf.new) pool.old pool.new dev) }
    ensures ckpt { OnOk result (pool.new.space.parts.ckpt ≡ pool.old.space.parts.ckpt) }
    ensures shown { S.tells shelf.old → OnOk result (KeepsLast (S.world shelf.old) (S.world shelf.new) pool.old pool.new) }
    ensures ends { (objects : Objects) → HoldsObjects (S.tells shelf.old) (S.world shelf.old).now.seen pool.old objects → OnOk result (LeavesCommitted pool.new (S.world shelf.new).now) }
    ensures objects { (objects : Objects) → HoldsObjects (S.tells shelf.old) (S.world shelf.old).now.seen pool.old objects → OnOk result (HoldsObjects (S.tells shelf.new) (S.world shelf.new).now.seen pool.new objects) }
    ensures copies { S.tells shelf.old → OnOk result (KeepsCopies (S.world shelf.old) (S.world shelf.new) pool.old pool.new) }
    ensures stops { (objects : Objects) → HoldsObjects (S.tells shelf.old) (S.world shelf.old).now.seen pool.old objects → BeginsInPart (S.sizes shelf.old) objects pool.old dev (S.world shelf.old) (S.world shelf.new) }
    ensures refused { (r : Refusal) → IsErrOf result (No r) → IsRemoveRefusal pool.old dev r }
    ensures unchanged { (r : Refusal) → IsErrOf result (No r) → pool.new ≡ pool.old }
    ensures untouched { (r : Refusal) → IsErrOf result (No r) → S.world shelf.new ≡ S.world shelf.old }
{
    demand_to_remove(pool, dev)?;
    leave(pool, dev)?;
    commit_moving(alloc, pool, shelf, pick)?;
    Ok(())
}
