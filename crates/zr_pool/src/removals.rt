//! The lines of a removal, and of condensing a mapping.
//!
//! Each goes to its call. A removal that begins or is given up, a step that copies, and one of condensing leave the objects as
//! they are. So does a step that ends a removal, where each copy has the bytes of its unit, and each of these lines leaves the
//! copies so; a line that is refused changes nothing.
ghost use Rattle.std.specs.Prelude.{◌≡◌, ◌≤◌, ◌<◌, ◌*◌, ℕ, Bool, List, Some, true, false, length, IfOk, IfErr, OnOk, IsErrOf};
ghost use Rattle.zr_base.specs.Counts.{HasRisen};
ghost use Rattle.zr_base.specs.declared.refusal.Refusal.{Refusal};
ghost use Rattle.zr_base.specs.declared.refusal.Refusal.TheVariants.{OnlyDevice};
ghost use Rattle.zr_base.specs.declared.space.CkptPart.TheVariants.{Clear};
ghost use Rattle.zr_base.specs.declared.space.DevState.TheVariants.{On};
ghost use Rattle.zr_last.specs.Last.{KeepsLast};
ghost use Rattle.zr_lines.specs.Stops.{OpensNoUnit};
ghost use Rattle.zr_model.specs.State.{PoolState};
ghost use Rattle.zr_create.specs.Names.{slot_named};
ghost use Rattle.zr_removal.specs.Devices.{IsDeviceOn, IsOnlyOne, copy_pieces};
ghost use Rattle.zr_removal.specs.Refusals.{HasNoRemoval};
ghost use Rattle.zr_removal.specs.Turns.{CancelsInPart};
ghost use Rattle.zr_rules.specs.Places.{part_of, state_of_dev};
ghost use Rattle.zr_script.specs.declared.command.Command.TheVariants.{StepCondense};
ghost use Rattle.zr_shelf.specs.Counts.{NoneFell};
ghost use Rattle.zr_shelf.specs.Moments.{IsStill};
ghost use Rattle.zr_sync.specs.Copies.{HasCopies, KeepsCopies};
ghost use Rattle.zr_sync.specs.Pools.{IsOpen};
ghost use Rattle.zr_sync.specs.States.{HasCheckpoint, HoldsState};
ghost use Rattle.zr_sync.specs.Writes.{WorksOnDisks, WritesIntoFree};
ghost use Rattle.zr_sync.specs.declared.fault.Fault.TheVariants.{No, Stops};
ghost use Rattle.zr_sync.specs.declared.stop.Stop.TheVariants.{DiskFault};
ghost use Rattle.zr_pool.specs.Behind.{HasReset, KeepsTrees, StopsInReset, copies_or_returns, ends_no_removal, is_resetting, is_return};
ghost use Rattle.zr_pool.specs.Plain.{IsCheckpointCause, IsDone, IsPlainOf, IsPlainRefusal, is_background, is_of_removal};
ghost use Rattle.zr_pool.specs.Accounts.{IsRemovable, IsRemovalCause, Refuses, Turns};
ghost use Rattle.zr_pool.specs.Replies.{TellsFault, condense_reply, evac_reply};
ghost use Rattle.zr_pool.specs.Turns.{IsOpenAnswer, IsOpenRefusal, IsRemoveRefusal};

use std::alloc::Global;
use zr_base::{Blob, Condensed, Refusal};
use zr_choose::Chooser;
use zr_create::slot_of;
use zr_removal::{
    Evacuated, cancel, device_on, estimate, has_other, may_remove, remove, step_condense, step_evac,
};
use zr_script::{Command, Reply};
use zr_shelf::Shelf;
use zr_sync::{Fault, OpenPool};

/// Whether a line is a step of a removal, or of condensing a mapping.
pub fn is_of_removal(command: &Command) -> bool
    ensures { result ≡ is_of_removal command.now }
{
    matches!(
        command,
        Command::Remove { .. } | Command::Cancel | Command::StepEvac | Command::StepCondense
    )
}

// The device in service that a line names, where a removal may begin.
fn removable(paths: &[Blob], pool: &OpenPool, dev: &Blob) -> Result<u32, Refusal>
    requires pool { (sizes : List ℕ) × IsOpen sizes pool.now }
    requires few { length paths.now ≤ 32 }
    ensures known { IfOk result (λ d. d < pool.now.table.count) }
    ensures on { IfOk result (λ d. state_of_dev pool.now.space.parts.devs d ≡ On) }
    ensures clear { OnOk result (pool.now.space.parts.ckpt ≡ Clear) }
    ensures alone { OnOk result (HasNoRemoval pool.now.space) }
    ensures device { IfOk result (λ d. (slot : ℕ) × (slot_named paths.now dev.now ≡ Some slot) × IsDeviceOn pool.now slot d) }
    ensures why { IfErr result (IsRemovalCause paths.now pool.now dev.now (λ d r. ⊥)) }
    ensures refused { IfErr result IsRemoveRefusal }
    ensures cause { (p : PoolState) → HasCheckpoint pool.now.space.parts.ckpt p.saved p.discarding → IfErr result (IsCheckpointCause p) }
{
    may_remove(pool)?;
    let Some(slot) = slot_of(paths, dev) else {
        return Err(Refusal::NoSuchDevice);
    };
    match device_on(pool, slot) {
        Some(dev) => Ok(dev),
        None => Err(Refusal::NotInService),
    }
}

/// In bytes: what the mapping of a device would take, were it removed.
pub fn estimate_of(paths: &[Blob], pool: &OpenPool, dev: &Blob) -> Result<u64, Refusal>
    requires pool { (sizes : List ℕ) × IsOpen sizes pool.now }
    requires few { length paths.now ≤ 32 }
    ensures estimate { IfOk result (λ bytes. (d : ℕ) × IsRemovable paths.now pool.now dev.now d × (bytes ≡ 24 * copy_pieces (part_of pool.now.space.parts.devs d).held)) }
    ensures why { IfErr result (IsRemovalCause paths.now pool.now dev.now (λ d r. (r ≡ OnlyDevice) × IsOnlyOne pool.now.space d)) }
    ensures refused { IfErr result IsRemoveRefusal }
    ensures cause { (p : PoolState) → HasCheckpoint pool.now.space.parts.ckpt p.saved p.discarding → IfErr result (IsCheckpointCause p) }
{
    let dev = removable(paths, pool, dev)?;
    if !has_other(pool, dev) {
        return Err(Refusal::OnlyDevice);
    }
    Ok(estimate(pool, dev))
}

// The reply to a step of a removal.
fn evac_reply(done: Evacuated) -> Reply
    ensures { result ≡ evac_reply done }
{
    match done {
        Evacuated::Copied(units) => Reply::Copied(units),
        Evacuated::Gone(index) => Reply::Gone(index),
        Evacuated::Cancelled(index) => Reply::Cancelled(index),
    }
}

// The reply to a step of condensing that had work.
fn condense_reply(done: Condensed) -> Reply
    ensures { result ≡ condense_reply done }
{
    match done {
        Condensed::Kept(entries) => Reply::Kept(entries),
        Condensed::Done => Reply::Ended,
        Condensed::Nothing => Reply::Ended,
    }
}

/// A step of a removal of an open pool, or of condensing a mapping.
pub fn removal_line<S: Shelf>(
    alloc: Global,
    paths: &[Blob],
    pool: &mut OpenPool,
    shelf: &mut S,
    pick: &Chooser,
    command: &Command,
) -> Result<Reply, Fault>
    requires pool { IsOpen (S.sizes shelf.old) pool.old }
    requires few { length paths.now ≤ 32 }
    requires line { is_of_removal command.now ≡ true }
    ensures sizes { S.sizes shelf.new ≡ S.sizes shelf.old }
    ensures none_fell { NoneFell (S.counts shelf.old) (S.counts shelf.new) }
    ensures told { S.tells shelf.old → S.tells shelf.new }
    ensures disks { S.tells shelf.old → WorksOnDisks (S.world shelf.old) (S.world shelf.new) }
    ensures fault { IsErrOf result (Stops DiskFault) → HasRisen (S.counts shelf.old).disk (S.counts shelf.new).disk }
    ensures pool { OnOk result (IsOpen (S.sizes shelf.new) pool.new) }
    ensures unchanged { (r : Refusal) → IsErrOf result (No r) → pool.new ≡ pool.old }
    ensures untouched { (r : Refusal) → IsErrOf result (No r) → S.world shelf.new ≡ S.world shelf.old }
    ensures acts { (copies : Bool) → (copies ≡ true → HasCopies (S.world shelf.old).now.seen pool.old) → (p : PoolState) → HoldsState (S.tells shelf.old) (S.world shelf.old).now.seen pool.old p → IfOk result (IsPlainOf copies (HoldsState (S.tells shelf.new) (S.world shelf.new).now.seen pool.new) p command.now) }
    ensures cause { (p : PoolState) → HoldsState (S.tells shelf.old) (S.world shelf.old).now.seen pool.old p → (r : Refusal) → IsErrOf result (No r) → IsPlainRefusal p command.now r }
    ensures shown { S.tells shelf.old → OnOk result (KeepsLast (S.world shelf.old) (S.world shelf.new) pool.old pool.new) }
    ensures background { S.tells shelf.old → IfOk result (λ reply. is_background command.now reply ≡ true → WritesIntoFree pool.old (S.world shelf.old) (S.world shelf.new) × OpensNoUnit pool.old pool.new) }
    ensures trees { S.tells shelf.old → IfOk result (λ reply. copies_or_returns command.now reply ≡ true → KeepsTrees pool.old pool.new (S.world shelf.old) (S.world shelf.new)) }
    ensures copies { S.tells shelf.old → OnOk result (KeepsCopies (S.world shelf.old) (S.world shelf.new) pool.old pool.new) }
    ensures still { command.now ≡ StepCondense → IsStill (S.world shelf.old) (S.world shelf.new) }
    ensures comes_back { (p : PoolState) → HoldsState (S.tells shelf.old) (S.world shelf.old).now.seen pool.old p → IfOk result (λ reply. is_return reply command.now ≡ true → HasReset pool.new (S.world shelf.new).now p.objects) }
    ensures resets { is_resetting command.now ≡ true → (p : PoolState) → HoldsState (S.tells shelf.old) (S.world shelf.old).now.seen pool.old p → OnOk result (HasReset pool.new (S.world shelf.new).now p.objects) }
    ensures stops_reset { is_resetting command.now ≡ true → (p : PoolState) → HoldsState (S.tells shelf.old) (S.world shelf.old).now.seen pool.old p → StopsInReset (S.sizes shelf.old) p.objects command.now pool.old (S.world shelf.old) (S.world shelf.new) }
    ensures stops_back { ends_no_removal (Some pool.old) command.now ≡ true → (p : PoolState) → HoldsState (S.tells shelf.old) (S.world shelf.old).now.seen pool.old p → CancelsInPart (S.sizes shelf.old) p.objects pool.old (S.world shelf.old) (S.world shelf.new) }
    ensures account { S.tells shelf.old → IfOk result (λ reply. Turns paths.now (S.sizes shelf.old) (S.world shelf.old).now.seen pool.old command.now reply (S.world shelf.new).now.seen pool.new) }
    ensures account_no { S.tells shelf.old → (r : Refusal) → IsErrOf result (No r) → Refuses paths.now (S.sizes shelf.old) (S.world shelf.old).now.seen pool.old command.now r pool.new }
    ensures blamed { IfOk result (λ reply. TellsFault command.now reply → HasRisen (S.counts shelf.old).disk (S.counts shelf.new).disk) }
    ensures done { IfOk result IsDone }
    ensures answer { IfOk result (IsOpenAnswer command.now) }
    ensures refused { (r : Refusal) → IsErrOf result (No r) → IsOpenRefusal command.now r }
{
    match command {
        Command::Remove { dev } => {
            let dev = removable(paths, pool, dev)?;
            remove(alloc, pool, shelf, pick, dev)?;
            Ok(Reply::Done)
        }
        Command::Cancel => Ok(Reply::Cancelled(cancel(alloc, pool, shelf, pick)?)),
        Command::StepEvac => Ok(evac_reply(step_evac(alloc, pool, shelf, pick)?)),
        Command::StepCondense => Ok(condense_reply(step_condense(pool)?)),
        _ => unreachable!(),
    }
}
