//! The lines that tell how an open pool stands: tables, and what a removal would take.
//!
//! None of them changes anything but the cache.
ghost use Rattle.std.specs.Prelude.{◌≡◌, ◌≤◌, ℕ, Bool, List, true, IfOk, IsErrOf, OnOk, length};
ghost use Rattle.zr_base.specs.Counts.{HasRisen};
ghost use Rattle.zr_base.specs.declared.refusal.Refusal.{Refusal};
ghost use Rattle.zr_last.specs.Last.{KeepsLast};
ghost use Rattle.zr_lines.specs.Stops.{StaysInGroup};
ghost use Rattle.zr_model.specs.State.{PoolState};
ghost use Rattle.zr_shelf.specs.Counts.{NoneFell};
ghost use Rattle.zr_shelf.specs.Moments.{IsStill};
ghost use Rattle.zr_sync.specs.Pools.{IsOpen};
ghost use Rattle.zr_sync.specs.States.{HoldsState};
ghost use Rattle.zr_sync.specs.Writes.{WorksOnDisks};
ghost use Rattle.zr_sync.specs.declared.fault.Fault.TheVariants.{No, Stops};
ghost use Rattle.zr_sync.specs.declared.stop.Stop.TheVariants.{DiskFault};
ghost use Rattle.zr_pool.specs.Accounts.{Refuses, Turns};
ghost use Rattle.zr_pool.specs.Plain.{IsDone, IsPlainOf, IsPlainRefusal};
ghost use Rattle.zr_pool.specs.Turns.{IsOpenAnswer, IsOpenRefusal, is_table};

use crate::removals::estimate_of;
use std::alloc::Global;
use zr_base::Blob;
use zr_script::{Command, Reply};
use zr_shelf::Shelf;
use zr_sync::{Fault, OpenPool};
use zr_tables::{audit, list, map_lines, status};

/// Whether a line tells how an open pool stands.
pub fn is_table(command: &Command) -> bool
    ensures { result ≡ is_table command.now }
{
    matches!(
        command,
        Command::List
            | Command::Status
            | Command::Audit
            | Command::Estimate { .. }
            | Command::Map { .. }
    )
}

/// A line that tells how an open pool stands.
pub fn table_line<S: Shelf>(
    alloc: Global,
    paths: &[Blob],
    pool: &mut OpenPool,
    shelf: &mut S,
    command: &Command,
) -> Result<Reply, Fault>
    requires pool { IsOpen (S.sizes shelf.old) pool.old }
    requires few { length paths.now ≤ 32 }
    requires line { is_table command.now ≡ true }
    ensures sizes { S.sizes shelf.new ≡ S.sizes shelf.old }
    ensures none_fell { NoneFell (S.counts shelf.old) (S.counts shelf.new) }
    ensures told { S.tells shelf.old → S.tells shelf.new }
    ensures disks { S.tells shelf.old → WorksOnDisks (S.world shelf.old) (S.world shelf.new) }
    ensures fault { IsErrOf result (Stops DiskFault) → HasRisen (S.counts shelf.old).disk (S.counts shelf.new).disk }
    ensures pool { OnOk result (IsOpen (S.sizes shelf.new) pool.new) }
    ensures pool_no { (r : Refusal) → IsErrOf result (No r) → IsOpen (S.sizes shelf.new) pool.new }
    ensures acts { (copies : Bool) (p : PoolState) → HoldsState (S.tells shelf.old) (S.world shelf.old).now.seen pool.old p → IfOk result (IsPlainOf copies (HoldsState (S.tells shelf.new) (S.world shelf.new).now.seen pool.new) p command.now) }
    ensures stays { (p : PoolState) → HoldsState (S.tells shelf.old) (S.world shelf.old).now.seen pool.old p → (r : Refusal) → IsErrOf result (No r) → HoldsState (S.tells shelf.new) (S.world shelf.new).now.seen pool.new p }
    ensures cause { (p : PoolState) → HoldsState (S.tells shelf.old) (S.world shelf.old).now.seen pool.old p → (r : Refusal) → IsErrOf result (No r) → IsPlainRefusal p command.now r }
    ensures still { S.tells shelf.old → IsStill (S.world shelf.old) (S.world shelf.new) }
    ensures shown { S.tells shelf.old → OnOk result (KeepsLast (S.world shelf.old) (S.world shelf.new) pool.old pool.new) }
    ensures shown_no { S.tells shelf.old → (r : Refusal) → IsErrOf result (No r) → KeepsLast (S.world shelf.old) (S.world shelf.new) pool.old pool.new }
    ensures in_group { (p : PoolState) → HoldsState (S.tells shelf.old) (S.world shelf.old).now.seen pool.old p → StaysInGroup pool.old pool.new (S.world shelf.old) (S.world shelf.new) }
    ensures account { S.tells shelf.old → IfOk result (λ reply. Turns paths.now (S.sizes shelf.old) (S.world shelf.old).now.seen pool.old command.now reply (S.world shelf.new).now.seen pool.new) }
    ensures account_no { S.tells shelf.old → (r : Refusal) → IsErrOf result (No r) → Refuses paths.now (S.sizes shelf.old) (S.world shelf.old).now.seen pool.old command.now r pool.new }
    ensures done { IfOk result IsDone }
    ensures answer { IfOk result (IsOpenAnswer command.now) }
    ensures refused { (r : Refusal) → IsErrOf result (No r) → IsOpenRefusal command.now r }
{
    match command {
        Command::List => Ok(Reply::List(list(alloc, pool, paths)?)),
        Command::Status => Ok(Reply::Status(status(alloc, pool)?)),
        Command::Audit => Ok(Reply::Audit(audit(alloc, pool, shelf)?)),
        Command::Estimate { dev } => Ok(Reply::Estimate(estimate_of(paths, pool, dev)?)),
        Command::Map { index } => Ok(Reply::Map(map_lines(alloc, pool, *index)?)),
        _ => unreachable!(),
    }
}
