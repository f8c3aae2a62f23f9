//! A step of a removal.
//!
//! Units are copied until none is left, and then the device is gone: its commit, a reset, is the first root of which the
//! device is no part. Where a disk fails in copying, the removal is given up, since what was not copied has to stay.
ghost use Rattle.std.specs.Prelude.{◌≡◌, ◌+◌, ◌<◌, ◌⊎◌, ℕ, List, true, false, IsErrOf, IfErr, IfOk, IfSome, OnOk};
ghost use Rattle.zr_base.specs.Counts.{HasRisen};
ghost use Rattle.zr_beside.specs.Beside.{Standing};
ghost use Rattle.zr_base.specs.declared.refusal.Refusal.{Refusal};
ghost use Rattle.zr_rules.specs.Columns.{uncopied_units};
ghost use Rattle.zr_rules.specs.Frees.{IsSameRoot};
ghost use Rattle.zr_rules.specs.Places.{is_gone, is_leaving, state_of_dev};
ghost use Rattle.zr_rules.specs.Space.{role_at};
ghost use Rattle.zr_shelf.specs.Counts.{NoneFell};
ghost use Rattle.zr_space.specs.Plans.{IsCopied};
ghost use Rattle.zr_last.specs.Last.{KeepsLast};
ghost use Rattle.zr_model.specs.Objects.{Objects};
ghost use Rattle.zr_shelf.specs.Doings.{WritesOnly};
ghost use Rattle.zr_sync.specs.Copies.{HasCopies, KeepsCopies};
ghost use Rattle.zr_sync.specs.Ends.{LeavesCommitted};
ghost use Rattle.zr_sync.specs.Objects.{HoldsObjects};
ghost use Rattle.zr_sync.specs.Trees.{HasTrees, HoldsStreams, every, one_stage};
ghost use Rattle.zr_sync.specs.Trees.Stage.{Had, Recorded};
ghost use Rattle.zr_vdev.specs.Caches.{AreRead};
ghost use Rattle.zr_vdev.specs.Copies.{CopiesUnits, IsWriteIntoFree};
ghost use Rattle.zr_vdev.specs.Stores.{is_open_role};
ghost use Rattle.zr_removal.specs.declared.evacuate.Evacuated.TheVariants as evacuated;
ghost use Rattle.zr_vdev.specs.declared.copy.Copied.TheVariants as copied;
ghost use Rattle.zr_shelf.specs.Moments.{World};
ghost use Rattle.zr_sync.specs.Commits.{EndsGroup, IsNextRoot, IsShownFrom};
ghost use Rattle.zr_sync.specs.Pools.{IsOpen, IsSamePool};
ghost use Rattle.zr_sync.specs.Writes.{WorksOnDisks, WritesIntoFree};
ghost use Rattle.zr_sync.specs.declared.fault.Fault.TheVariants.{No, Stops};
ghost use Rattle.zr_sync.specs.declared.stop.Stop.TheVariants.{DiskFault};
ghost use Rattle.zr_removal.specs.Refusals.{HasRemoval, IsStepRefusal};
ghost use Rattle.zr_removal.specs.Steps.{StepsOn};
ghost use Rattle.zr_removal.specs.Trees.{ForgetsSets, IsClearOfMeta, freeing, is_of_sets};
ghost use Rattle.zr_removal.specs.Turns.{CancelsInPart, EndsRemoval, FinishesSpace, ForgetsSlot, Vanishes};

use crate::cancelling::cancel_removal;
use crate::metadata::give_metadata;
use crate::rows::{are_past, forget_slot, set_row};
use crate::streams::give_sets;
use std::alloc::Global;
use zr_base::{DevRow, DevState, NoMemory, Refusal};
use zr_choose::Chooser;
use zr_shelf::Shelf;
use zr_space::Space;
use zr_sync::{Fault, OpenPool, Stop, commit, commit_anew};
use zr_vdev::{Copied, copy_step};

/// What a step of a removal came to.
#[derive(Clone, Copy, Debug, PartialEq, Eq)]
pub enum Evacuated {
    /// So many units were copied.
    Copied(u64),
    /// Nothing was left to copy, and this device is gone.
    Gone(u32),
    /// A disk failed, and the removal of this device was given up.
    Cancelled(u32),
}

// Refuses a step where no device is leaving.
fn demand_to_step(pool: &OpenPool) -> Result<(), Refusal>
    ensures leaving { OnOk result (HasRemoval pool.now.space) }
    ensures refused { IfErr result (IsStepRefusal pool.now.space) }
{
    match pool.space.leaving() {
        Some(_) => Ok(()),
        None => Err(Refusal::NothingToDo),
    }
}

// The device that was leaving is gone, in the open group. The cache is emptied: what is cached knows the places to which its
// address led, and those on the device are no more.
//
// Want of memory is also the answer where the table tells of a device that came or went in the open group, as none does
// between two commands.
fn retire(pool: &mut OpenPool) -> Result<u32, NoMemory>
    requires pool { (sizes : List ℕ) × IsOpen sizes pool.old }
    requires leaving { HasRemoval pool.old.space }
    requires copied { IsCopied pool.old.space }
    ensures leaving { IfOk result (λ d. is_leaving (state_of_dev pool.old.space.parts.devs d) ≡ true) }
    ensures known { IfOk result (λ d. d < pool.old.table.count) }
    ensures finishes { IfOk result (FinishesSpace pool.old pool.new) }
    ensures pool { (sizes : List ℕ) → IsOpen sizes pool.old → OnOk result (IsOpen sizes pool.new) }
    ensures objects { (disks : List (List ℕ)) (objects : Objects) → HasCopies disks pool.old → HoldsObjects (Unit {0}) disks pool.old objects → OnOk result (HoldsObjects (Unit {0}) disks pool.new objects) }
    ensures root { IsClearOfMeta pool.old.space → IfOk result (ForgetsSets pool.old.space pool.new.space) }
    ensures trees { IsClearOfMeta pool.old.space → (others : List Standing) (disks : List (List ℕ)) → HoldsStreams (every Had) (one_stage Had) others (Unit {0}) disks pool.old → IfOk result (λ dev. HoldsStreams (freeing is_of_sets dev) (one_stage Had) others (Unit {0}) disks pool.new) }
{
    let txg = pool.group.txg();
    if !are_past(&pool.table.rows, txg) {
        return Err(NoMemory);
    }
    let Some(leaving) = pool.space.leaving() else {
        unreachable!()
    };
    give_metadata(&mut pool.space, leaving)?;
    pool.space.one_leaves();
    pool.space.copies_in_order();
    let dev = pool.space.finish(txg)?;
    let row = DevRow {
        state: DevState::Gone,
        gone: txg,
        ..pool.table.rows[dev as usize]
    };
    set_row(&mut pool.table, dev, row);
    pool.cache.clear();
    Ok(dev)
}

// The device is gone, and the streams of its sets are given back.
fn vanish<S: Shelf>(
    alloc: Global,
    pool: &mut OpenPool,
    shelf: &mut S,
    pick: &Chooser,
) -> Result<u32, Stop>
    requires pool { IsOpen (S.sizes shelf.old) pool.old }
    requires leaving { HasRemoval pool.old.space }
    requires copied { IsCopied pool.old.space }
    ensures sizes { S.sizes shelf.new ≡ S.sizes shelf.old }
    ensures none_fell { NoneFell (S.counts shelf.old) (S.counts shelf.new) }
    ensures told { S.tells shelf.old → S.tells shelf.new }
    ensures disks { S.tells shelf.old → WorksOnDisks (S.world shelf.old) (S.world shelf.new) }
    ensures fault { IsErrOf result DiskFault → HasRisen (S.counts shelf.old).disk (S.counts shelf.new).disk }
    ensures pool { OnOk result (IsOpen (S.sizes shelf.new) pool.new) }
    ensures leaving { IfOk result (λ d. is_leaving (state_of_dev pool.old.space.parts.devs d) ≡ true) }
    ensures known { IfOk result (λ d. d < pool.new.table.count) }
    ensures vanishes { IfOk result (Vanishes pool.old pool.new) }
    ensures written { S.tells shelf.old → WritesIntoFree pool.old (S.world shelf.old) (S.world shelf.new) }
    ensures objects { HasCopies (S.world shelf.old).now.seen pool.old → (objects : Objects) → HoldsObjects (S.tells shelf.old) (S.world shelf.old).now.seen pool.old objects → OnOk result (HoldsObjects (S.tells shelf.new) (S.world shelf.new).now.seen pool.new objects) }
    ensures trees { IsClearOfMeta pool.old.space → HasTrees Had (S.tells shelf.old) (S.world shelf.old).now.seen pool.old → OnOk result (HasTrees Had (S.tells shelf.new) (S.world shelf.new).now.seen pool.new) }
{
    let dev = retire(pool)?;
    give_sets(alloc, pool, shelf, pick, dev)?;
    Ok(dev)
}

// The disk of a device that is gone is the pool's no more. No address leads to it, so it is not read.
fn let_go(pool: &mut OpenPool, dev: u32)
    requires pool { (sizes : List ℕ) × IsOpen sizes pool.old }
    requires known { dev < pool.old.table.count }
    requires gone { is_gone (state_of_dev pool.old.space.parts.devs dev) ≡ true }
    ensures forgets { ForgetsSlot pool.old pool.new dev }
    ensures pool { (sizes : List ℕ) → IsOpen sizes pool.old → IsOpen sizes pool.new }
    ensures objects { (disks : List (List ℕ)) (objects : Objects) → HoldsObjects (Unit {0}) disks pool.old objects → HoldsObjects (Unit {0}) disks pool.new objects }
    ensures copies { (disks : List (List ℕ)) → HasCopies disks pool.old → HasCopies disks pool.new }
    ensures trees { (disks : List (List ℕ)) → HasTrees Had (Unit {0}) disks pool.old → HasTrees Had (Unit {0}) disks pool.new }
{
    forget_slot(&mut pool.table, dev);
}

// Copies the next units of the device that is leaving. Where nothing is copied the pool is as it was.
fn copy_next<S: Shelf>(
    alloc: Global,
    pool: &mut OpenPool,
    shelf: &mut S,
    pick: &Chooser,
) -> Result<Copied, NoMemory>
    requires pool { IsOpen (S.sizes shelf.old) pool.old }
    ensures sizes { S.sizes shelf.new ≡ S.sizes shelf.old }
    ensures none_fell { NoneFell (S.counts shelf.old) (S.counts shelf.new) }
    ensures told { S.tells shelf.old → S.tells shelf.new }
    ensures disks { S.tells shelf.old → WorksOnDisks (S.world shelf.old) (S.world shelf.new) }
    ensures pool { OnOk result (IsOpen (S.sizes shelf.new) pool.new) }
    ensures units { IfOk result (λ c. (n : ℕ) → c ≡ copied.Units n → CopiesUnits pick.now.policy pool.old.table.slots (S.tells shelf.old) (S.world shelf.old) (S.world shelf.new) pool.old.space pool.new.space n) }
    ensures nothing { IfOk result (λ c. c ≡ copied.Nothing → IsCopied pool.old.space) }
    ensures fault { IfOk result (λ c. c ≡ copied.Fault → HasRisen (S.counts shelf.old).disk (S.counts shelf.new).disk) }
    ensures same { IfOk result (λ c. (c ≡ copied.Nothing) ⊎ (c ≡ copied.Fault) → pool.new.space ≡ pool.old.space) }
    ensures rest { pool.new ≡ record pool.old { space = pool.new.space; cache = pool.new.cache } }
    ensures root { OnOk result (IsSameRoot pool.old.space pool.new.space) }
    ensures written { S.tells shelf.old → WritesOnly (IsWriteIntoFree pool.old.table.slots pool.old.space) (S.world shelf.old) (S.world shelf.new) }
    ensures read { S.tells shelf.old → AreRead (S.world shelf.old).now.seen pool.old.table.slots pool.old.space pool.old.cache → AreRead (S.world shelf.new).now.seen pool.old.table.slots pool.new.space pool.new.cache }
    ensures copies { S.tells shelf.old → KeepsCopies (S.world shelf.old) (S.world shelf.new) pool.old pool.new }
{
    if pool.space.sizes().uncopied > pool.space.free_units() {
        return Err(NoMemory);
    }
    copy_step(
        alloc,
        &mut pool.space,
        shelf,
        &mut pool.cache,
        &pool.table.slots,
        pick,
    )
}

// Ends the open group by a reset, with all metadata written anew where some was given back that a stream may have.
fn commit_gone<S: Shelf>(
    alloc: Global,
    pool: &mut OpenPool,
    shelf: &mut S,
    pick: &Chooser,
    anew: bool,
) -> Result<(), Stop>
    requires pool { IsOpen (S.sizes shelf.old) pool.old }
    ensures sizes { S.sizes shelf.new ≡ S.sizes shelf.old }
    ensures none_fell { NoneFell (S.counts shelf.old) (S.counts shelf.new) }
    ensures told { S.tells shelf.old → S.tells shelf.new }
    ensures disks { S.tells shelf.old → WorksOnDisks (S.world shelf.old) (S.world shelf.new) }
    ensures fault { IsErrOf result DiskFault → HasRisen (S.counts shelf.old).disk (S.counts shelf.new).disk }
    ensures pool { OnOk result (IsOpen (S.sizes shelf.new) pool.new) }
    ensures same { OnOk result (IsSamePool pool.old pool.new) }
    ensures last { OnOk result (IfSome pool.new.last (IsNextRoot pool.old true)) }
    ensures shown { S.tells shelf.old → OnOk result (IfSome pool.new.last (λ u. (before : World) × IsShownFrom (S.sizes shelf.old) pool.old u before (S.world shelf.new))) }
    ensures written { S.tells shelf.old → OnOk result (IfSome pool.new.last (λ u. (mid : World) × WritesIntoFree pool.old (S.world shelf.old) mid × IsShownFrom (S.sizes shelf.old) pool.old u mid (S.world shelf.new))) }
    ensures txg { OnOk result (pool.new.group.txg ≡ pool.old.group.txg + 1) }
    ensures ends { OnOk result (EndsGroup true pool.old.space pool.new.space) }
    ensures objects { (objects : Objects) → HoldsObjects (S.tells shelf.old) (S.world shelf.old).now.seen pool.old objects → OnOk result (HoldsObjects (S.tells shelf.new) (S.world shelf.new).now.seen pool.new objects) }
    ensures trees { HasTrees Had (S.tells shelf.old) (S.world shelf.old).now.seen pool.old → OnOk result (HasTrees Recorded (S.tells shelf.new) (S.world shelf.new).now.seen pool.new) }
    ensures copies { S.tells shelf.old → OnOk result (KeepsCopies (S.world shelf.old) (S.world shelf.new) pool.old pool.new) }
{
    if anew {
        return commit_anew(alloc, pool, shelf, pick);
    }
    commit(alloc, pool, shelf, pick, true)
}

// Whether metadata lies on the device that is leaving. None does, behind the commit that took it out of service.
fn has_metadata(space: &Space) -> bool {
    match space.leaving() {
        Some(dev) => space.lowest_meta(dev).is_some(),
        None => false,
    }
}

// Ends the removal that goes on, of which nothing is left to copy, and answers the device.
fn finish_removal<S: Shelf>(
    alloc: Global,
    pool: &mut OpenPool,
    shelf: &mut S,
    pick: &Chooser,
) -> Result<u32, Stop>
    requires pool { IsOpen (S.sizes shelf.old) pool.old }
    requires leaving { HasRemoval pool.old.space }
    requires copied { IsCopied pool.old.space }
    ensures sizes { S.sizes shelf.new ≡ S.sizes shelf.old }
    ensures none_fell { NoneFell (S.counts shelf.old) (S.counts shelf.new) }
    ensures told { S.tells shelf.old → S.tells shelf.new }
    ensures disks { S.tells shelf.old → WorksOnDisks (S.world shelf.old) (S.world shelf.new) }
    ensures fault { IsErrOf result DiskFault → HasRisen (S.counts shelf.old).disk (S.counts shelf.new).disk }
    ensures pool { OnOk result (IsOpen (S.sizes shelf.new) pool.new) }
    ensures leaving { IfOk result (λ d. is_leaving (state_of_dev pool.old.space.parts.devs d) ≡ true) }
    ensures ends { IfOk result (EndsRemoval (S.sizes shelf.old) (S.tells shelf.old) (S.world shelf.new) pool.old pool.new) }
    ensures shown { S.tells shelf.old → OnOk result (KeepsLast (S.world shelf.old) (S.world shelf.new) pool.old pool.new) }
    ensures objects { HasCopies (S.world shelf.old).now.seen pool.old → (objects : Objects) → HoldsObjects (S.tells shelf.old) (S.world shelf.old).now.seen pool.old objects → OnOk result (HoldsObjects (S.tells shelf.new) (S.world shelf.new).now.seen pool.new objects) }
    ensures trees { IsClearOfMeta pool.old.space → HasTrees Had (Unit {0}) (S.world shelf.old).now.seen pool.old → S.tells shelf.old → OnOk result (HasTrees Had (Unit {0}) (S.world shelf.new).now.seen pool.new) }
    ensures copies { S.tells shelf.old → OnOk result (KeepsCopies (S.world shelf.old) (S.world shelf.new) pool.old pool.new) }
{
    let anew = has_metadata(&pool.space);
    let dev = vanish(alloc, pool, shelf, pick)?;
    commit_gone(alloc, pool, shelf, pick, anew)?;
    let_go(pool, dev);
    Ok(dev)
}

/// Makes a step of the removal that goes on: copies the next units, at most 256, or ends the removal where none is left.
/// A copy costs one read and one write, and an end costs a commit, and a walk over the mapping and its marks. Behind a copy, and
/// behind a removal that was given up, the pool holds the objects that it held, and the trees of its streams stand as the last
/// root has them. It holds its objects behind the end of a removal too, where each copy has the bytes of its unit: that stays so
/// through every step. The trees stand there too, where no metadata was left on the device and none is kept of a saved root.
/// Whatever a step comes to, the disks show the pool's last root behind it, where they did before. While units are left to
/// copy, and where no device is leaving, it has written, wherever it stops, what the giving up of a removal may have written.
///
/// For now want of memory is also the answer where fewer units are free than are left to copy: the room that is asked for
/// when a removal begins rules that out, and no law says so yet.
pub fn step_evac<S: Shelf>(
    alloc: Global,
    pool: &mut OpenPool,
    shelf: &mut S,
    pick: &Chooser,
) -> Result<Evacuated, Fault>
    requires pool { IsOpen (S.sizes shelf.old) pool.old }
    ensures sizes { S.sizes shelf.new ≡ S.sizes shelf.old }
    ensures none_fell { NoneFell (S.counts shelf.old) (S.counts shelf.new) }
    ensures told { S.tells shelf.old → S.tells shelf.new }
    ensures disks { S.tells shelf.old → WorksOnDisks (S.world shelf.old) (S.world shelf.new) }
    ensures fault { IsErrOf result (Stops DiskFault) → HasRisen (S.counts shelf.old).disk (S.counts shelf.new).disk }
    ensures pool { OnOk result (IsOpen (S.sizes shelf.new) pool.new) }
    ensures leaving { OnOk result (HasRemoval pool.old.space) }
    ensures steps { IfOk result (StepsOn pick.now.policy (S.sizes shelf.old) (S.tells shelf.old) (S.counts shelf.old) (S.counts shelf.new) (S.world shelf.old) (S.world shelf.new) pool.old pool.new) }
    ensures rest { IfOk result (λ done. (n : ℕ) → done ≡ evacuated.Copied n → pool.new ≡ record pool.old { space = pool.new.space; cache = pool.new.cache }) }
    ensures written { S.tells shelf.old → IfOk result (λ done. (n : ℕ) → done ≡ evacuated.Copied n → WritesIntoFree pool.old (S.world shelf.old) (S.world shelf.new)) }
    ensures opens { IfOk result (λ done. (n : ℕ) → done ≡ evacuated.Copied n → (d u : ℕ) → is_open_role (role_at pool.new.space d u) ≡ true → is_open_role (role_at pool.old.space d u) ≡ true) }
    ensures shown { S.tells shelf.old → IfOk result (λ done. (n : ℕ) → done ≡ evacuated.Copied n → KeepsLast (S.world shelf.old) (S.world shelf.new) pool.old pool.new) }
    ensures objects { (objects : Objects) → HoldsObjects (S.tells shelf.old) (S.world shelf.old).now.seen pool.old objects → IfOk result (λ done. (n : ℕ) → done ≡ evacuated.Copied n → HoldsObjects (S.tells shelf.new) (S.world shelf.new).now.seen pool.new objects) }
    ensures trees { HasTrees Had (Unit {0}) (S.world shelf.old).now.seen pool.old → S.tells shelf.old → IfOk result (λ done. (n : ℕ) → done ≡ evacuated.Copied n → HasTrees Had (Unit {0}) (S.world shelf.new).now.seen pool.new) }
    ensures back_shown { S.tells shelf.old → IfOk result (λ done. (d : ℕ) → done ≡ evacuated.Cancelled d → KeepsLast (S.world shelf.old) (S.world shelf.new) pool.old pool.new) }
    ensures back_ends { (objects : Objects) → HoldsObjects (S.tells shelf.old) (S.world shelf.old).now.seen pool.old objects → IfOk result (λ done. (d : ℕ) → done ≡ evacuated.Cancelled d → LeavesCommitted pool.new (S.world shelf.new).now) }
    ensures back_objects { (objects : Objects) → HoldsObjects (S.tells shelf.old) (S.world shelf.old).now.seen pool.old objects → IfOk result (λ done. (d : ℕ) → done ≡ evacuated.Cancelled d → HoldsObjects (S.tells shelf.new) (S.world shelf.new).now.seen pool.new objects) }
    ensures back_trees { HasTrees Had (Unit {0}) (S.world shelf.old).now.seen pool.old → S.tells shelf.old → IfOk result (λ done. (d : ℕ) → done ≡ evacuated.Cancelled d → HasTrees Had (Unit {0}) (S.world shelf.new).now.seen pool.new) }
    ensures back_stops { (objects : Objects) → HoldsObjects (S.tells shelf.old) (S.world shelf.old).now.seen pool.old objects → IfOk result (λ done. (d : ℕ) → done ≡ evacuated.Cancelled d → CancelsInPart (S.sizes shelf.old) objects pool.old (S.world shelf.old) (S.world shelf.new)) }
    ensures gone_shown { S.tells shelf.old → IfOk result (λ done. (d : ℕ) → done ≡ evacuated.Gone d → KeepsLast (S.world shelf.old) (S.world shelf.new) pool.old pool.new) }
    ensures gone_objects { HasCopies (S.world shelf.old).now.seen pool.old → (objects : Objects) → HoldsObjects (S.tells shelf.old) (S.world shelf.old).now.seen pool.old objects → IfOk result (λ done. (d : ℕ) → done ≡ evacuated.Gone d → HoldsObjects (S.tells shelf.new) (S.world shelf.new).now.seen pool.new objects) }
    ensures gone_trees { IsClearOfMeta pool.old.space → HasTrees Had (Unit {0}) (S.world shelf.old).now.seen pool.old → S.tells shelf.old → IfOk result (λ done. (d : ℕ) → done ≡ evacuated.Gone d → HasTrees Had (Unit {0}) (S.world shelf.new).now.seen pool.new) }
    ensures copies { S.tells shelf.old → OnOk result (KeepsCopies (S.world shelf.old) (S.world shelf.new) pool.old pool.new) }
    ensures stops { (HasRemoval pool.old.space → 0 < uncopied_units pool.old.space) → (objects : Objects) → HoldsObjects (S.tells shelf.old) (S.world shelf.old).now.seen pool.old objects → CancelsInPart (S.sizes shelf.old) objects pool.old (S.world shelf.old) (S.world shelf.new) }
    ensures refused { (r : Refusal) → IsErrOf result (No r) → IsStepRefusal pool.old.space r }
    ensures unchanged { (r : Refusal) → IsErrOf result (No r) → pool.new ≡ pool.old }
    ensures untouched { (r : Refusal) → IsErrOf result (No r) → S.world shelf.new ≡ S.world shelf.old }
{
    demand_to_step(pool)?;
    pool.space.copies_in_order();
    match copy_next(alloc, pool, shelf, pick)? {
        Copied::Units(units) => Ok(Evacuated::Copied(units)),
        Copied::Nothing => Ok(Evacuated::Gone(finish_removal(alloc, pool, shelf, pick)?)),
        Copied::Fault => Ok(Evacuated::Cancelled(cancel_removal(alloc, pool, shelf, pick)?)),
    }
}
