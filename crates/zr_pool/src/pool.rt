//! The pool on the devices of the words, as a run over lines knows it.
ghost use Rattle.std.specs.FinMap as map;
ghost use Rattle.std.specs.Prelude.{◌≡◌, ◌≤◌, ◌||◌, ℕ, Bool, List, Option, Some, None, true, false, is_some, IfOk, IfSome, IfNone, IsErrOf, OnOk, OnErr, length};
ghost use Rattle.zr_base.specs.Counts.{HasRisen};
ghost use Rattle.zr_base.specs.declared.refusal.Refusal.{Refusal};
ghost use Rattle.zr_script.specs.Grammar.{IsLine};
ghost use Rattle.zr_script.specs.declared.reply.Reply.TheVariants.{Done};
ghost use Rattle.zr_shelf.specs.Counts.{NoneFell};
ghost use Rattle.zr_shelf.specs.Moments.{IsStill};
ghost use Rattle.zr_sync.specs.Copies.{HasCopies, KeepsCopies};
ghost use Rattle.zr_sync.specs.Pools.{IsOpen};
ghost use Rattle.zr_sync.specs.Trees.{HasTrees};
ghost use Rattle.zr_sync.specs.Trees.Stage.{Had};
ghost use Rattle.zr_sync.specs.Writes.{WorksOnDisks, WritesIntoFree};
ghost use Rattle.zr_sync.specs.declared.fault.Fault.TheVariants.{No, Stops};
ghost use Rattle.zr_sync.specs.declared.stop.Stop.TheVariants.{DiskFault};
ghost use Rattle.zr_model.specs.State.{PoolState};
ghost use Rattle.zr_pool.specs.Accounts.{Begins, BeginsNone, Refuses, Turns};
ghost use Rattle.zr_last.specs.Last.{KeepsLast, ShowsLast};
ghost use Rattle.zr_sync.specs.Ends.{ComesCommitted, EndsCommitted};
ghost use Rattle.zr_lines.specs.Stops.{OpensNoUnit, StaysInOneGroup, WritesInOneGroup};
ghost use Rattle.zr_script.specs.declared.command.Command.TheVariants.{Export, Import};
ghost use Rattle.zr_open.specs.Left.{IsLeftCommitted};
ghost use Rattle.zr_pool.specs.Plain.{IsDone, IsMade, IsOpeningCause, IsPlainOf, IsPlainRefusal, is_background, is_of_removal, shelf_of};
ghost use Rattle.zr_open.specs.Flushed.{FlushesOnly};
ghost use Rattle.zr_pool.specs.Behind.{EndsReset, HasReset, KeepsTrees, StaysTold, StopsInReset, StopsInOpening, copies_or_returns, ends_no_removal, is_commit, is_create, is_import, is_in_group, is_resetting, is_return, is_silent, spares_copies};
ghost use Rattle.zr_pool.specs.Pools.{IsAtRest, IsOnShelf};
ghost use Rattle.zr_removal.specs.Turns.{CancelsInPart};
ghost use Rattle.zr_pool.specs.Replies.{TellsFault};
ghost use Rattle.zr_sync.specs.States.{HoldsState};
ghost use Rattle.zr_pool.specs.Ends.{is_closing};
ghost use Rattle.zr_pool.specs.Turns.{IsServed, IsTurn, IsClosedRefusal, IsOpenRefusal, IsOpenAnswer, is_opener};

use crate::begin::begin;
use crate::lines::{is_on_objects, is_on_pool, object_line, pool_line};
use crate::removals::{is_of_removal, removal_line};
use crate::replies::answer_of;
use crate::tables::{is_table, table_line};
use std::alloc::Global;
use zr_base::{Blob, Items, NoMemory, Refusal};
use zr_choose::Chooser;
use zr_command::{Pool, Stop};
use zr_model::Actor;
use zr_removal::has_work;
use zr_script::{Command, Reply};
use zr_shelf::Shelf;
use zr_sync::{Fault, OpenPool};

/// The paths of the words, and the pool that is open on their devices.
#[derive(Drop)]
pub struct DevicePool {
    paths: Items<Blob>,
    pool: Option<OpenPool>,
}

/// Whether a line makes a pool or opens one.
fn is_opener(command: &Command) -> bool
    ensures { result ≡ is_opener command.now }
{
    matches!(
        command,
        Command::Create { .. }
            | Command::CreateOld { .. }
            | Command::Import
            | Command::ImportRewind
            | Command::ImportTxg { .. }
    )
}

/// Whether the pool is not open any more: it was exported, or the run stops.
fn is_closing(command: &Command, done: &Result<Option<Reply>, Fault>) -> bool
    ensures { result ≡ is_closing command.now done.now }
{
    match done {
        Ok(_) => matches!(command, Command::Export),
        Err(Fault::Stops(_)) => true,
        Err(Fault::No(_)) => false,
    }
}

// A command to a pool that is open. None where it is not served.
fn open_line<S: Shelf>(
    alloc: Global,
    paths: &[Blob],
    pool: &mut OpenPool,
    shelf: &mut S,
    pick: &Chooser,
    command: &Command,
) -> Result<Option<Reply>, Fault>
    requires pool { IsOpen (S.sizes shelf.old) pool.old }
    requires slots { length (S.sizes shelf.old) ≡ length paths.now }
    requires few { length paths.now ≤ 32 }
    requires grammar { (line : List ℕ) × IsLine line command.now }
    ensures sizes { S.sizes shelf.new ≡ S.sizes shelf.old }
    ensures none_fell { NoneFell (S.counts shelf.old) (S.counts shelf.new) }
    ensures told { S.tells shelf.old → S.tells shelf.new }
    ensures disks { S.tells shelf.old → WorksOnDisks (S.world shelf.old) (S.world shelf.new) }
    ensures fault { IsErrOf result (Stops DiskFault) → HasRisen (S.counts shelf.old).disk (S.counts shelf.new).disk }
    ensures pool { OnOk result (IsOpen (S.sizes shelf.new) pool.new) }
    ensures pool_no { (r : Refusal) → IsErrOf result (No r) → IsOpen (S.sizes shelf.new) pool.new }
    ensures acts { (copies : Bool) → (copies ≡ true → HasCopies (S.world shelf.old).now.seen pool.old) → (p : PoolState) → HoldsState (S.tells shelf.old) (S.world shelf.old).now.seen pool.old p → IfOk result (λ found. IfSome found (IsPlainOf copies (HoldsState (S.tells shelf.new) (S.world shelf.new).now.seen pool.new) p command.now)) }
    ensures stays { (p : PoolState) → HoldsState (S.tells shelf.old) (S.world shelf.old).now.seen pool.old p → (r : Refusal) → IsErrOf result (No r) → HoldsState (S.tells shelf.new) (S.world shelf.new).now.seen pool.new p }
    ensures cause { (p : PoolState) → HoldsState (S.tells shelf.old) (S.world shelf.old).now.seen pool.old p → (r : Refusal) → IsErrOf result (No r) → IsPlainRefusal p command.now r }
    ensures still { S.tells shelf.old → is_silent command.now ≡ true → IsStill (S.world shelf.old) (S.world shelf.new) }
    ensures opens { is_silent command.now ≡ true → (p : PoolState) → HoldsState (S.tells shelf.old) (S.world shelf.old).now.seen pool.old p → OnOk result (OpensNoUnit pool.old pool.new) }
    ensures shown { S.tells shelf.old → OnOk result (KeepsLast (S.world shelf.old) (S.world shelf.new) pool.old pool.new) }
    ensures shown_no { S.tells shelf.old → (r : Refusal) → IsErrOf result (No r) → KeepsLast (S.world shelf.old) (S.world shelf.new) pool.old pool.new }
    ensures left { command.now ≡ Export → (p : PoolState) → HoldsState (S.tells shelf.old) (S.world shelf.old).now.seen pool.old p → OnOk result (IsAtRest (S.world shelf.new).now.seen pool.new p) }
    ensures one_group { is_in_group command.now ≡ true → (p : PoolState) → HoldsState (S.tells shelf.old) (S.world shelf.old).now.seen pool.old p → OnOk result (StaysTold (S.sizes shelf.old) p.objects command.now pool.old pool.new (S.world shelf.old) (S.world shelf.new)) }
    ensures one_group_no { (p : PoolState) → HoldsState (S.tells shelf.old) (S.world shelf.old).now.seen pool.old p → (r : Refusal) → IsErrOf result (No r) → StaysInOneGroup (S.sizes shelf.old) p.objects pool.old pool.new (S.world shelf.old) (S.world shelf.new) }
    ensures writes { is_in_group command.now ≡ true → (p : PoolState) → HoldsState (S.tells shelf.old) (S.world shelf.old).now.seen pool.old p → WritesInOneGroup (S.sizes shelf.old) p.objects pool.old (S.world shelf.old) (S.world shelf.new) }
    ensures commits { is_commit command.now ≡ true → (p : PoolState) → HoldsState (S.tells shelf.old) (S.world shelf.old).now.seen pool.old p → OnOk result (EndsCommitted (S.sizes shelf.old) false pool.old pool.new p.objects (S.world shelf.old) (S.world shelf.new)) }
    ensures comes_back { (p : PoolState) → HoldsState (S.tells shelf.old) (S.world shelf.old).now.seen pool.old p → IfOk result (λ found. IfSome found (λ reply. is_return reply command.now ≡ true → HasReset pool.new (S.world shelf.new).now p.objects)) }
    ensures resets { is_resetting command.now ≡ true → (p : PoolState) → HoldsState (S.tells shelf.old) (S.world shelf.old).now.seen pool.old p → OnOk result (EndsReset command.now pool.old pool.new p.objects (S.world shelf.old) (S.world shelf.new)) }
    ensures background { S.tells shelf.old → IfOk result (λ found. IfSome found (λ reply. is_background command.now reply ≡ true → WritesIntoFree pool.old (S.world shelf.old) (S.world shelf.new) × OpensNoUnit pool.old pool.new)) }
    ensures trees { S.tells shelf.old → IfOk result (λ found. IfSome found (λ reply. copies_or_returns command.now reply ≡ true → KeepsTrees pool.old pool.new (S.world shelf.old) (S.world shelf.new))) }
    ensures copies { S.tells shelf.old → (spares_copies command.now || is_of_removal command.now) ≡ true → OnOk result (KeepsCopies (S.world shelf.old) (S.world shelf.new) pool.old pool.new) }
    ensures stops_reset { is_resetting command.now ≡ true → (p : PoolState) → HoldsState (S.tells shelf.old) (S.world shelf.old).now.seen pool.old p → StopsInReset (S.sizes shelf.old) p.objects command.now pool.old (S.world shelf.old) (S.world shelf.new) }
    ensures stops_back { ends_no_removal (Some pool.old) command.now ≡ true → (p : PoolState) → HoldsState (S.tells shelf.old) (S.world shelf.old).now.seen pool.old p → CancelsInPart (S.sizes shelf.old) p.objects pool.old (S.world shelf.old) (S.world shelf.new) }
    ensures account { S.tells shelf.old → IfOk result (λ found. IfSome found (λ reply. Turns paths.now (S.sizes shelf.old) (S.world shelf.old).now.seen pool.old command.now reply (S.world shelf.new).now.seen pool.new)) }
    ensures account_no { S.tells shelf.old → (r : Refusal) → IsErrOf result (No r) → Refuses paths.now (S.sizes shelf.old) (S.world shelf.old).now.seen pool.old command.now r pool.new }
    ensures blamed { IfOk result (λ found. IfSome found (λ reply. TellsFault command.now reply → HasRisen (S.counts shelf.old).disk (S.counts shelf.new).disk)) }
    ensures done { IfOk result (λ found. IfSome found IsDone) }
    ensures answer { IfOk result (λ found. IfSome found (IsOpenAnswer command.now)) }
    ensures refused { (r : Refusal) → IsErrOf result (No r) → IsOpenRefusal command.now r }
    ensures none { IfOk result (λ found. IfNone found (IsServed command.now → ⊥)) }
{
    if is_on_objects(command) {
        return Ok(Some(object_line(alloc, pool, shelf, pick, command)?));
    }
    if is_table(command) {
        return Ok(Some(table_line(alloc, paths, pool, shelf, command)?));
    }
    if is_on_pool(command) {
        return Ok(Some(pool_line(alloc, paths, pool, shelf, pick, command)?));
    }
    if is_of_removal(command) {
        return Ok(Some(removal_line(alloc, paths, pool, shelf, pick, command)?));
    }
    if is_opener(command) {
        return Err(Fault::No(Refusal::PoolIsOpen));
    }
    Ok(None)
}

impl DevicePool {
    // A command where no pool is open.
    fn closed_line<S: Shelf>(
        &mut self,
        alloc: Global,
        shelf: &mut S,
        pick: &Chooser,
        command: &Command,
    ) -> Result<Option<Reply>, Fault>
        requires closed { self.old.pool ≡ None }
        requires slots { length (S.sizes shelf.old) ≡ length self.old.paths }
        requires few { length self.old.paths ≤ 32 }
        requires grammar { (line : List ℕ) × IsLine line command.now }
        ensures sizes { S.sizes shelf.new ≡ S.sizes shelf.old }
        ensures none_fell { NoneFell (S.counts shelf.old) (S.counts shelf.new) }
        ensures told { S.tells shelf.old → S.tells shelf.new }
        ensures disks { S.tells shelf.old → WorksOnDisks (S.world shelf.old) (S.world shelf.new) }
        ensures fault { IsErrOf result (Stops DiskFault) → HasRisen (S.counts shelf.old).disk (S.counts shelf.new).disk }
        ensures paths { self.new.paths ≡ self.old.paths }
        ensures pool { IfSome self.new.pool (IsOpen (S.sizes shelf.new)) }
        ensures made { S.tells shelf.old → IfSome self.new.pool (λ pool. IsMade (shelf_of (S.world shelf.old).now) (HoldsState (S.tells shelf.new) (S.world shelf.new).now.seen pool) command.now) }
        ensures begins { S.tells shelf.old → IfSome self.new.pool (Begins self.old.paths (S.sizes shelf.old) (S.world shelf.old).now.seen command.now) }
        ensures begins_no { S.tells shelf.old → (r : Refusal) → IsErrOf result (No r) → BeginsNone self.old.paths (S.sizes shelf.old) (S.world shelf.old).now.seen command.now r }
        ensures last { S.tells shelf.old → IfSome self.new.pool (ShowsLast (S.world shelf.new).now.seen) }
        ensures ends { S.tells shelf.old → is_create command.now ≡ true → IfSome self.new.pool (λ pool. ComesCommitted (S.sizes shelf.new) pool map.empty (S.world shelf.new)) }
        ensures trees { S.tells shelf.old → IfSome self.new.pool (HasTrees Had (S.tells shelf.new) (S.world shelf.new).now.seen) }
        ensures leaves { S.tells shelf.old → is_import command.now ≡ true → IfSome self.new.pool (IsLeftCommitted (S.world shelf.new).now) }
        ensures unwritten { S.tells shelf.old → (r : Refusal) → IsErrOf result (No r) → FlushesOnly (S.world shelf.old) (S.world shelf.new) }
        ensures stops { S.tells shelf.old → StopsInOpening (S.sizes shelf.old) command.now (S.world shelf.old) (S.world shelf.new) }
        ensures untouched { S.tells shelf.old → (r : Refusal) → IsErrOf result (No r) → (S.world shelf.new).now.seen ≡ (S.world shelf.old).now.seen }
        ensures turn { IfOk result (λ found. IfSome found (λ reply. IsTurn false command.now reply (is_some self.new.pool))) }
        ensures refused { (r : Refusal) → IsErrOf result (No r) → IsClosedRefusal command.now r }
        ensures done { IfOk result (λ found. IfSome found (λ reply. reply ≡ Done)) }
        ensures cause { S.tells shelf.old → (r : Refusal) → IsErrOf result (No r) → IsOpeningCause (shelf_of (S.world shelf.old).now) command.now r }
        ensures closed { OnErr result (self.new.pool ≡ None) }
        ensures none { IfOk result (λ found. IfNone found (IsServed command.now → ⊥)) }
    {
        match begin(alloc, self.paths.as_slice(), shelf, pick, command)? {
            Some(pool) => {
                self.pool = Some(pool);
                Ok(Some(Reply::Done))
            }
            None => Ok(None),
        }
    }
}

impl Pool for DevicePool {
    ghost use Rattle.zr_pool.specs.Pools.{Stands, IsOnShelf};
    ghost use Rattle.zr_pool.specs.Rests.{stands_rest};
    ghost use Rattle.zr_pool.specs.Turns.{on_devices};

    ghost paths = { λ p. p.paths };

    ghost meaning = { on_devices };

    ghost stands = { λ p disks state. Stands p.pool disks state };

    ghost rests = { λ p stand state named is. stands_rest p.pool stand state is };

    ghost fits = { λ p sizes. IsOnShelf p.paths p.pool sizes };

    fn closed(_alloc: Global, devs: Items<Blob>) -> Result<Self, NoMemory> {
        Ok(DevicePool {
            paths: devs,
            pool: None,
        })
    }

    fn command<S: Shelf>(
        &mut self,
        alloc: Global,
        shelf: &mut S,
        pick: &Chooser,
        command: &Command,
    ) -> Result<Option<Reply>, Stop> {
        let Some(pool) = &mut self.pool else {
            return answer_of(self.closed_line(alloc, shelf, pick, command));
        };
        let done = open_line(alloc, self.paths.as_slice(), pool, shelf, pick, command);
        if is_closing(command, &done) {
            self.pool = None;
        }
        answer_of(done)
    }

    fn has_work(&self, actor: Actor) -> bool {
        match &self.pool {
            Some(pool) => has_work(pool, actor),
            None => false,
        }
    }
}
