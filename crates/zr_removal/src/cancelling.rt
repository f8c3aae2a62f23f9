//! A removal is given up.
//!
//! The copies are freed and the device is in service again, with what it held. Its commit is a reset. The pool holds the
//! objects that it held: the device is read as before. The trees of its streams stand as the last root has them: those of the
//! mapping that the device had are given back.
ghost use Rattle.std.specs.Prelude.{◌≡◌, ◌<◌, ℕ, List, true, IsErrOf, IfErr, IfOk, OnOk};
ghost use Rattle.zr_base.specs.Counts.{HasRisen};
ghost use Rattle.zr_base.specs.declared.refusal.Refusal.{Refusal};
ghost use Rattle.zr_last.specs.Last.{KeepsLast};
ghost use Rattle.zr_model.specs.Objects.{Objects};
ghost use Rattle.zr_rules.specs.Places.{is_leaving, state_of_dev};
ghost use Rattle.zr_shelf.specs.Counts.{NoneFell};
ghost use Rattle.zr_sync.specs.Copies.{KeepsCopies};
ghost use Rattle.zr_sync.specs.Ends.{LeavesCommitted};
ghost use Rattle.zr_sync.specs.Objects.{HoldsObjects};
ghost use Rattle.zr_sync.specs.Pools.{IsOpen};
ghost use Rattle.zr_sync.specs.Trees.{HasTrees};
ghost use Rattle.zr_sync.specs.Trees.Stage.{Had};
ghost use Rattle.zr_sync.specs.Writes.{WorksOnDisks, WritesIntoFree};
ghost use Rattle.zr_sync.specs.declared.fault.Fault.TheVariants.{No, Stops};
ghost use Rattle.zr_sync.specs.declared.stop.Stop.TheVariants.{DiskFault};
ghost use Rattle.zr_removal.specs.Refusals.{HasRemoval, IsCancelRefusal};
ghost use Rattle.zr_removal.specs.Trees.{ForgetsFresh};
ghost use Rattle.zr_removal.specs.Turns.{CancelsInPart, CancelsRemoval, CancelsSpace, ComesBack};

use crate::rows::set_row;
use crate::streams::give_mapping;
use std::alloc::Global;
use zr_base::{DevRow, DevState, NoMemory, Refusal};
use zr_choose::Chooser;
use zr_shelf::Shelf;
use zr_sync::{Fault, OpenPool, Stop, commit};

// Refuses to give up a removal where there is none.
fn demand_to_cancel(pool: &OpenPool) -> Result<(), Refusal>
    ensures leaving { OnOk result (HasRemoval pool.now.space) }
    ensures refused { IfErr result (IsCancelRefusal pool.now.space) }
{
    match pool.space.leaving() {
        Some(_) => Ok(()),
        None => Err(Refusal::NoRemoval),
    }
}

// The device that was leaving is in service again.
fn return_device(pool: &mut OpenPool) -> Result<u32, NoMemory>
    requires pool { (sizes : List ℕ) × IsOpen sizes pool.old }
    requires leaving { HasRemoval pool.old.space }
    ensures leaving { IfOk result (λ d. is_leaving (state_of_dev pool.old.space.parts.devs d) ≡ true) }
    ensures known { IfOk result (λ d. d < pool.old.table.count) }
    ensures cancels { IfOk result (CancelsSpace pool.old pool.new) }
    ensures root { IfOk result (ForgetsFresh pool.old.space pool.new.space) }
    ensures pool { (sizes : List ℕ) → IsOpen sizes pool.old → OnOk result (IsOpen sizes pool.new) }
{
    let dev = pool.space.cancel()?;
    let row = DevRow {
        state: DevState::On,
        ..pool.table.rows[dev as usize]
    };
    set_row(&mut pool.table, dev, row);
    Ok(dev)
}

// The device is in service again, and the streams of its mapping are given back.
fn come_back<S: Shelf>(
    alloc: Global,
    pool: &mut OpenPool,
    shelf: &mut S,
    pick: &Chooser,
) -> Result<u32, Stop>
    requires pool { IsOpen (S.sizes shelf.old) pool.old }
    requires leaving { HasRemoval pool.old.space }
    ensures sizes { S.sizes shelf.new ≡ S.sizes shelf.old }
    ensures none_fell { NoneFell (S.counts shelf.old) (S.counts shelf.new) }
    ensures told { S.tells shelf.old → S.tells shelf.new }
    ensures disks { S.tells shelf.old → WorksOnDisks (S.world shelf.old) (S.world shelf.new) }
    ensures fault { IsErrOf result DiskFault → HasRisen (S.counts shelf.old).disk (S.counts shelf.new).disk }
    ensures pool { OnOk result (IsOpen (S.sizes shelf.new) pool.new) }
    ensures leaving { IfOk result (λ d. is_leaving (state_of_dev pool.old.space.parts.devs d) ≡ true) }
    ensures comes { IfOk result (ComesBack pool.old pool.new) }
    ensures written { S.tells shelf.old → WritesIntoFree pool.old (S.world shelf.old) (S.world shelf.new) }
    ensures objects { (objects : Objects) → HoldsObjects (S.tells shelf.old) (S.world shelf.old).now.seen pool.old objects → OnOk result (HoldsObjects (S.tells shelf.new) (S.world shelf.new).now.seen pool.new objects) }
    ensures trees { HasTrees Had (S.tells shelf.old) (S.world shelf.old).now.seen pool.old → OnOk result (HasTrees Had (S.tells shelf.new) (S.world shelf.new).now.seen pool.new) }
{
    let dev = return_device(pool)?;
    give_mapping(alloc, pool, shelf, pick, dev)?;
    Ok(dev)
}

/// Gives up the removal that goes on, and answers the device. Errors are those of a commit.
pub fn cancel_removal<S: Shelf>(
    alloc: Global,
    pool: &mut OpenPool,
    shelf: &mut S,
    pick: &Chooser,
) -> Result<u32, Stop>
    requires pool { IsOpen (S.sizes shelf.old) pool.old }
    requires leaving { HasRemoval pool.old.space }
    ensures sizes { S.sizes shelf.new ≡ S.sizes shelf.old }
    ensures none_fell { NoneFell (S.counts shelf.old) (S.counts shelf.new) }
    ensures told { S.tells shelf.old → S.tells shelf.new }
    ensures disks { S.tells shelf.old → WorksOnDisks (S.world shelf.old) (S.world shelf.new) }
    ensures fault { IsErrOf result DiskFault → HasRisen (S.counts shelf.old).disk (S.counts shelf.new).disk }
    ensures pool { OnOk result (IsOpen (S.sizes shelf.new) pool.new) }
    ensures leaving { IfOk result (λ d. is_leaving (state_of_dev pool.old.space.parts.devs d) ≡ true) }
    ensures cancels { IfOk result (CancelsRemoval (S.sizes shelf.old) (S.tells shelf.old) (S.world shelf.new) pool.old pool.new) }
    ensures shown { S.tells shelf.old → OnOk result (KeepsLast (S.world shelf.old) (S.world shelf.new) pool.old pool.new) }
    ensures ends { (objects : Objects) → HoldsObjects (S.tells shelf.old) (S.world shelf.old).now.seen pool.old objects → OnOk result (LeavesCommitted pool.new (S.world shelf.new).now) }
    ensures objects { (objects : Objects) → HoldsObjects (S.tells shelf.old) (S.world shelf.old).now.seen pool.old objects → OnOk result (HoldsObjects (S.tells shelf.new) (S.world shelf.new).now.seen pool.new objects) }
    ensures trees { HasTrees Had (Unit {0}) (S.world shelf.old).now.seen pool.old → S.tells shelf.old → OnOk result (HasTrees Had (Unit {0}) (S.world shelf.new).now.seen pool.new) }
    ensures copies { S.tells shelf.old → OnOk result (KeepsCopies (S.world shelf.old) (S.world shelf.new) pool.old pool.new) }
    ensures stops { (objects : Objects) → HoldsObjects (S.tells shelf.old) (S.world shelf.old).now.seen pool.old objects → CancelsInPart (S.sizes shelf.old) objects pool.old (S.world shelf.old) (S.world shelf.new) }
{
    let dev = come_back(alloc, pool, shelf, pick)?;
    commit(alloc, pool, shelf, pick, true)?;
    Ok(dev)
}

/// Gives up the removal that goes on, where there is one, and answers the device. It goes over the devices, and costs a
/// change of the sets of one for each extent of copies, and a commit.
pub fn cancel<S: Shelf>(
    alloc: Global,
    pool: &mut OpenPool,
    shelf: &mut S,
    pick: &Chooser,
) -> Result<u32, Fault>
    requires pool { IsOpen (S.sizes shelf.old) pool.old }
    ensures sizes { S.sizes shelf.new ≡ S.sizes shelf.old }
    ensures none_fell { NoneFell (S.counts shelf.old) (S.counts shelf.new) }
    ensures told { S.tells shelf.old → S.tells shelf.new }
    ensures disks { S.tells shelf.old → WorksOnDisks (S.world shelf.old) (S.world shelf.new) }
    ensures fault { IsErrOf result (Stops DiskFault) → HasRisen (S.counts shelf.old).disk (S.counts shelf.new).disk }
    ensures pool { OnOk result (IsOpen (S.sizes shelf.new) pool.new) }
    ensures leaving { IfOk result (λ d. is_leaving (state_of_dev pool.old.space.parts.devs d) ≡ true) }
    ensures cancels { IfOk result (CancelsRemoval (S.sizes shelf.old) (S.tells shelf.old) (S.world shelf.new) pool.old pool.new) }
    ensures shown { S.tells shelf.old → OnOk result (KeepsLast (S.world shelf.old) (S.world shelf.new) pool.old pool.new) }
    ensures ends { (objects : Objects) → HoldsObjects (S.tells shelf.old) (S.world shelf.old).now.seen pool.old objects → OnOk result (LeavesCommitted pool.new (S.world shelf.new).now) }
    ensures objects { (objects : Objects) → HoldsObjects (S.tells shelf.old) (S.world shelf.old).now.seen pool.old objects → OnOk result (HoldsObjects (S.tells shelf.new) (S.world shelf.new).now.seen pool.new objects) }
    ensures trees { HasTrees Had (Unit {0}) (S.world shelf.old).now.seen pool.old → S.tells shelf.old → OnOk result (HasTrees Had (Unit {0}) (S.world shelf.new).now.seen pool.new) }
    ensures copies { S.tells shelf.old → OnOk result (KeepsCopies (S.world shelf.old) (S.world shelf.new) pool.old pool.new) }
    ensures stops { (objects : Objects) → HoldsObjects (S.tells shelf.old) (S.world shelf.old).now.seen pool.old objects → CancelsInPart (S.sizes shelf.old) objects pool.old (S.world shelf.old) (S.world shelf.new) }
    ensures refused { (r : Refusal) → IsErrOf result (No r) → IsCancelRefusal pool.old.space r }
    ensures unchanged { (r : Refusal) → IsErrOf result (No r) → pool.new ≡ pool.old }
    ensures untouched { (r : Refusal) → IsErrOf result (No r) → S.world shelf.new ≡ S.world shelf.old }
{
    demand_to_cancel(pool)?;
    let dev = cancel_removal(alloc, pool, shelf, pick)?;
    Ok(dev)
}
