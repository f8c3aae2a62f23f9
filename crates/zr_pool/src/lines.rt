//! The lines of an open pool, each with its call.
ghost use Rattle.std.specs.Prelude.{◌≡◌, ◌≤◌, ℕ, Bool, List, true, false, IfOk, IsErrOf, OnOk, length, slice_index};
ghost use Rattle.zr_base.specs.Counts.{HasRisen};
ghost use Rattle.zr_base.specs.declared.refusal.Refusal.{Refusal};
ghost use Rattle.zr_change.specs.Edits.{HasLength, byte_put};
ghost use Rattle.zr_script.specs.Grammar.{IsLine};
ghost use Rattle.zr_shelf.specs.Counts.{NoneFell};
ghost use Rattle.zr_sync.specs.Copies.{KeepsCopies};
ghost use Rattle.zr_sync.specs.Pools.{IsOpen};
ghost use Rattle.zr_sync.specs.Writes.{WorksOnDisks};
ghost use Rattle.zr_sync.specs.declared.fault.Fault.TheVariants.{No, Stops};
ghost use Rattle.zr_sync.specs.declared.stop.Stop.TheVariants.{DiskFault};
ghost use Rattle.zr_model.specs.State.{PoolState};
ghost use Rattle.zr_sync.specs.States.{HoldsState};
ghost use Rattle.zr_last.specs.Last.{KeepsLast};
ghost use Rattle.zr_sync.specs.Ends.{EndsCommitted};
ghost use Rattle.zr_lines.specs.Stops.{OpensNoUnit, StaysInGroup, StaysInOneGroup, WritesInOneGroup};
ghost use Rattle.zr_sync.specs.Leads.{CommitsObjects};
ghost use Rattle.zr_sync.specs.Trees.{HasLastTrees};
ghost use Rattle.zr_script.specs.declared.command.Command.TheVariants.{Export, StepDiscard};
ghost use Rattle.zr_shelf.specs.Moments.{IsStill};
ghost use Rattle.zr_pool.specs.Plain.{IsDone, IsPlainOf, IsPlainRefusal};
ghost use Rattle.zr_pool.specs.Behind.{EndsReset, KeepsTrees, StopsInReset, is_commit, is_resetting, spares_copies};
ghost use Rattle.zr_pool.specs.Pools.{IsAtRest};
ghost use Rattle.zr_pool.specs.Accounts.{Refuses, Turns};
ghost use Rattle.zr_pool.specs.Replies.{step_reply};
ghost use Rattle.zr_pool.specs.Turns.{IsOpenAnswer, IsOpenRefusal, is_on_objects, is_on_pool};

use std::alloc::Global;
use zr_base::{Blob, Refusal};
use zr_change::{Bytes, Edit};
use zr_choose::Chooser;
use zr_create::{add, slot_of};
use zr_lines::{Reach, change, drop, give_up, make, read, step, sum, take, upgrade};
use zr_script::{Command, Reply};
use zr_shelf::Shelf;
use zr_sync::{Fault, OpenPool, commit};

/// Whether a line is on an object.
pub fn is_on_objects(command: &Command) -> bool
    ensures { result ≡ is_on_objects command.now }
{
    matches!(
        command,
        Command::Make { .. }
            | Command::Drop { .. }
            | Command::Write { .. }
            | Command::Fill { .. }
            | Command::Punch { .. }
            | Command::Read { .. }
            | Command::Sum { .. }
    )
}

/// Whether a line is on a whole pool that is open.
pub fn is_on_pool(command: &Command) -> bool
    ensures { result ≡ is_on_pool command.now }
{
    matches!(
        command,
        Command::Sync
            | Command::Export
            | Command::Add { .. }
            | Command::Checkpoint
            | Command::Discard
            | Command::StepDiscard
            | Command::Upgrade
    )
}

/// A line on an object of an open pool.
pub fn object_line<S: Shelf>(
    alloc: Global,
    pool: &mut OpenPool,
    shelf: &mut S,
    pick: &Chooser,
    command: &Command,
) -> Result<Reply, Fault>
    requires pool { IsOpen (S.sizes shelf.old) pool.old }
    requires line { is_on_objects command.now ≡ true }
    requires grammar { (line : List ℕ) × IsLine line command.now }
    ensures sizes { S.sizes shelf.new ≡ S.sizes shelf.old }
    ensures none_fell { NoneFell (S.counts shelf.old) (S.counts shelf.new) }
    ensures told { S.tells shelf.old → S.tells shelf.new }
    ensures disks { S.tells shelf.old → WorksOnDisks (S.world shelf.old) (S.world shelf.new) }
    ensures fault { IsErrOf result (Stops DiskFault) → HasRisen (S.counts shelf.old).disk (S.counts shelf.new).disk }
    ensures pool { OnOk result (IsOpen (S.sizes shelf.new) pool.new) }
    ensures pool_no { (r : Refusal) → IsErrOf result (No r) → IsOpen (S.sizes shelf.new) pool.new }
    ensures acts { (copies : Bool) (p : PoolState) → HoldsState (S.tells shelf.old) (S.world shelf.old).now.seen pool.old p → IfOk result (IsPlainOf copies (HoldsState (S.tells shelf.new) (S.world shelf.new).now.seen pool.new) p command.now) }
    ensures stays { (p : PoolState) → HoldsState (S.tells shelf.old) (S.world shelf.old).now.seen pool.old p → (r : Refusal) → IsErrOf result (No r) → HoldsState (S.tells shelf.new) (S.world shelf.new).now.seen pool.new p }
    ensures cause { (p : PoolState) → HoldsState (S.tells shelf.old) (S.world shelf.old).now.seen pool.old p → (r : Refusal) → IsErrOf result (No r) → IsPlainRefusal p command.now r }
    ensures shown { S.tells shelf.old → OnOk result (KeepsLast (S.world shelf.old) (S.world shelf.new) pool.old pool.new) }
    ensures shown_no { S.tells shelf.old → (r : Refusal) → IsErrOf result (No r) → KeepsLast (S.world shelf.old) (S.world shelf.new) pool.old pool.new }
    ensures one_group { (p : PoolState) → HoldsState (S.tells shelf.old) (S.world shelf.old).now.seen pool.old p → OnOk result (StaysInOneGroup (S.sizes shelf.old) p.objects pool.old pool.new (S.world shelf.old) (S.world shelf.new)) }
    ensures one_group_no { (p : PoolState) → HoldsState (S.tells shelf.old) (S.world shelf.old).now.seen pool.old p → (r : Refusal) → IsErrOf result (No r) → StaysInOneGroup (S.sizes shelf.old) p.objects pool.old pool.new (S.world shelf.old) (S.world shelf.new) }
    ensures writes { (p : PoolState) → HoldsState (S.tells shelf.old) (S.world shelf.old).now.seen pool.old p → WritesInOneGroup (S.sizes shelf.old) p.objects pool.old (S.world shelf.old) (S.world shelf.new) }
    ensures account { S.tells shelf.old → (paths : List (List ℕ)) → IfOk result (λ reply. Turns paths (S.sizes shelf.old) (S.world shelf.old).now.seen pool.old command.now reply (S.world shelf.new).now.seen pool.new) }
    ensures account_no { S.tells shelf.old → (paths : List (List ℕ)) → (r : Refusal) → IsErrOf result (No r) → Refuses paths (S.sizes shelf.old) (S.world shelf.old).now.seen pool.old command.now r pool.new }
    ensures done { IfOk result IsDone }
    ensures answer { IfOk result (IsOpenAnswer command.now) }
    ensures refused { (r : Refusal) → IsErrOf result (No r) → IsOpenRefusal command.now r }
{
    match command {
        Command::Make { id, units } => {
            make(alloc, pool, shelf, pick, *id, *units)?;
            Ok(Reply::Done)
        }
        Command::Drop { id } => {
            drop(alloc, pool, shelf, pick, *id)?;
            Ok(Reply::Done)
        }
        Command::Read { id, off, len } => {
            let bytes = read(alloc, pool, shelf, pick, *id, *off, *len)?;
            Ok(Reply::Data(Blob::from_vec(bytes)))
        }
        Command::Sum { id } => Ok(Reply::Sum(sum(alloc, pool, shelf, pick, *id)?)),
        Command::Write { id, off, bytes } => {
            let edit = given(*off, bytes.as_slice());
            change(alloc, pool, shelf, pick, *id, &edit, Reach::Write)?;
            Ok(Reply::Done)
        }
        Command::Fill { id, off, len, byte } => {
            let edit = filled(*off, *len, *byte);
            change(alloc, pool, shelf, pick, *id, &edit, Reach::Fill)?;
            Ok(Reply::Done)
        }
        Command::Punch { id, off, len } => {
            let edit = filled(*off, *len, 0);
            change(alloc, pool, shelf, pick, *id, &edit, Reach::Punch)?;
            Ok(Reply::Done)
        }
        _ => unreachable!(),
    }
}

// These bytes from an offset on.
fn given(off: u64, bytes: &[u8]) -> Edit<'_>
    ensures given { HasLength result.len result.bytes }
    ensures off { result.off ≡ off }
    ensures len { result.len ≡ length bytes.now }
    ensures puts { (k : ℕ) → byte_put result.bytes k ≡ slice_index bytes.now k }
{
    Edit {
        off,
        len: bytes.len() as u64,
        bytes: Bytes::Given(bytes),
    }
}

// Copies of one byte.
fn filled(off: u64, len: u64, byte: u8) -> Edit<'static>
    ensures given { HasLength result.len result.bytes }
    ensures off { result.off ≡ off }
    ensures len { result.len ≡ len }
    ensures puts { (k : ℕ) → byte_put result.bytes k ≡ byte }
{
    Edit {
        off,
        len,
        bytes: Bytes::Filled(byte),
    }
}

// The reply to a step of discarding that gave back so many units.
fn step_reply(units: u64) -> Reply
    ensures { result ≡ step_reply units }
{
    if units == 0 {
        return Reply::Ended;
    }
    Reply::Freed(units)
}

/// A line on a whole pool that is open. The pool is to be closed after an `export` that is done.
pub fn pool_line<S: Shelf>(
    alloc: Global,
    paths: &[Blob],
    pool: &mut OpenPool,
    shelf: &mut S,
    pick: &Chooser,
    command: &Command,
) -> Result<Reply, Fault>
    requires pool { IsOpen (S.sizes shelf.old) pool.old }
    requires slots { length (S.sizes shelf.old) ≡ length paths.now }
    requires few { length paths.now ≤ 32 }
    requires line { is_on_pool command.now ≡ true }
    ensures sizes { S.sizes shelf.new ≡ S.sizes shelf.old }
    ensures none_fell { NoneFell (S.counts shelf.old) (S.counts shelf.new) }
    ensures told { S.tells shelf.old → S.tells shelf.new }
    ensures disks { S.tells shelf.old → WorksOnDisks (S.world shelf.old) (S.world shelf.new) }
    ensures fault { IsErrOf result (Stops DiskFault) → HasRisen (S.counts shelf.old).disk (S.counts shelf.new).disk }
    ensures pool { OnOk result (IsOpen (S.sizes shelf.new) pool.new) }
    ensures pool_no { (r : Refusal) → IsErrOf result (No r) → IsOpen (S.sizes shelf.new) pool.new }
    ensures acts { (copies : Bool) (p : PoolState) → HoldsState (S.tells shelf.old) (S.world shelf.old).now.seen pool.old p → IfOk result (IsPlainOf copies (HoldsState (S.tells shelf.new) (S.world shelf.new).now.seen pool.new) p command.now) }
    ensures stays { (p : PoolState) → HoldsState (S.tells shelf.old) (S.world shelf.old).now.seen pool.old p → (r : Refusal) → IsErrOf result (No r) → HoldsState (S.tells shelf.new) (S.world shelf.new).now.seen pool.new p }
    ensures cause { (p : PoolState) → HoldsState (S.tells shelf.old) (S.world shelf.old).now.seen pool.old p → (r : Refusal) → IsErrOf result (No r) → IsPlainRefusal p command.now r }
    ensures shown { S.tells shelf.old → OnOk result (KeepsLast (S.world shelf.old) (S.world shelf.new) pool.old pool.new) }
    ensures shown_no { S.tells shelf.old → (r : Refusal) → IsErrOf result (No r) → KeepsLast (S.world shelf.old) (S.world shelf.new) pool.old pool.new }
    ensures stays_no { S.tells shelf.old → (r : Refusal) → IsErrOf result (No r) → StaysInGroup pool.old pool.new (S.world shelf.old) (S.world shelf.new) }
    ensures still { command.now ≡ StepDiscard → IsStill (S.world shelf.old) (S.world shelf.new) }
    ensures steps { command.now ≡ StepDiscard → OnOk result (OpensNoUnit pool.old pool.new) }
    ensures step_copies { command.now ≡ StepDiscard → OnOk result (KeepsCopies (S.world shelf.old) (S.world shelf.new) pool.old pool.new) }
    ensures copies { S.tells shelf.old → spares_copies command.now ≡ true → OnOk result (KeepsCopies (S.world shelf.old) (S.world shelf.new) pool.old pool.new) }
    ensures step_trees { command.now ≡ StepDiscard → OnOk result (KeepsTrees pool.old pool.new (S.world shelf.old) (S.world shelf.new)) }
    ensures left { command.now ≡ Export → (p : PoolState) → HoldsState (S.tells shelf.old) (S.world shelf.old).now.seen pool.old p → OnOk result (IsAtRest (S.world shelf.new).now.seen pool.new p) }
    ensures commits { is_commit command.now ≡ true → (p : PoolState) → HoldsState (S.tells shelf.old) (S.world shelf.old).now.seen pool.old p → OnOk result (EndsCommitted (S.sizes shelf.old) false pool.old pool.new p.objects (S.world shelf.old) (S.world shelf.new)) }
    ensures resets { is_resetting command.now ≡ true → (p : PoolState) → HoldsState (S.tells shelf.old) (S.world shelf.old).now.seen pool.old p → OnOk result (EndsReset command.now pool.old pool.new p.objects (S.world shelf.old) (S.world shelf.new)) }
    ensures stops_reset { is_resetting command.now ≡ true → (p : PoolState) → HoldsState (S.tells shelf.old) (S.world shelf.old).now.seen pool.old p → StopsInReset (S.sizes shelf.old) p.objects command.now pool.old (S.world shelf.old) (S.world shelf.new) }
    ensures stops { is_commit command.now ≡ true → (p : PoolState) → HoldsState (S.tells shelf.old) (S.world shelf.old).now.seen pool.old p → CommitsObjects (HasLastTrees (S.world shelf.old).now.seen pool.old) (S.sizes shelf.old) pool.old false p.objects (S.world shelf.old) (S.world shelf.new) }
    ensures account { S.tells shelf.old → IfOk result (λ reply. Turns paths.now (S.sizes shelf.old) (S.world shelf.old).now.seen pool.old command.now reply (S.world shelf.new).now.seen pool.new) }
    ensures account_no { S.tells shelf.old → (r : Refusal) → IsErrOf result (No r) → Refuses paths.now (S.sizes shelf.old) (S.world shelf.old).now.seen pool.old command.now r pool.new }
    ensures done { IfOk result IsDone }
    ensures answer { IfOk result (IsOpenAnswer command.now) }
    ensures refused { (r : Refusal) → IsErrOf result (No r) → IsOpenRefusal command.now r }
{
    match command {
        Command::Sync => {
            let txg = pool.group.txg();
            commit(alloc, pool, shelf, pick, false)?;
            Ok(Reply::Synced(txg))
        }
        Command::Export => {
            commit(alloc, pool, shelf, pick, false)?;
            Ok(Reply::Done)
        }
        Command::Add { dev } => {
            let Some(slot) = slot_of(paths, dev) else {
                return Err(Fault::No(Refusal::NoSuchDevice));
            };
            add(alloc, pool, shelf, pick, slot)?;
            Ok(Reply::Done)
        }
        Command::Checkpoint => {
            take(alloc, pool, shelf, pick)?;
            Ok(Reply::Done)
        }
        Command::Discard => {
            give_up(alloc, pool, shelf, pick)?;
            Ok(Reply::Done)
        }
        Command::StepDiscard => {
            let units = step(pool)?;
            Ok(step_reply(units))
        }
        Command::Upgrade => {
            upgrade(alloc, pool, shelf, pick)?;
            Ok(Reply::Done)
        }
        _ => unreachable!(),
    }
}
