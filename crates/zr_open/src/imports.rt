//! An import.
ghost use Rattle.std.specs.Prelude.{◌≡◌, ◌⊎◌, ◌≤◌, ◌^◌, ◌+◌, length, Ok, Err, IfOk, OnOk, IsErrOf};
ghost use Rattle.zr_base.specs.Counts.{HasRisen};
ghost use Rattle.zr_base.specs.declared.refusal.Refusal.{Refusal};
ghost use Rattle.zr_image.specs.Current.{slots_of};
ghost use Rattle.zr_label.specs.declared.root.Uber.{Uber};
ghost use Rattle.zr_last.specs.Last.{ShowsLast};
ghost use Rattle.zr_shelf.specs.Counts.{NoneFell};
ghost use Rattle.zr_scan.specs.declared.error.ScanErr.TheVariants.{Failed};
ghost use Rattle.zr_shelf.specs.Disks.{IsAtRest};
ghost use Rattle.zr_sync.specs.Pools.{IsOpen};
ghost use Rattle.zr_sync.specs.Trees.{HasTrees};
ghost use Rattle.zr_sync.specs.Trees.Stage.{Had};
ghost use Rattle.zr_sync.specs.declared.fault.Fault.TheVariants.{No, Stops};
ghost use Rattle.zr_sync.specs.declared.stop.Stop.TheVariants.{DiskFault};
ghost use Rattle.zr_open.specs.Flushed.{FlushesOnly};
ghost use Rattle.zr_open.specs.Found.{FindsOn};
ghost use Rattle.zr_open.specs.Left.{IsLeftCommitted};
ghost use Rattle.zr_open.specs.Opened.{CoversOwed, IsFresh, IsRefusedRoot, IsRefusedSaved};
ghost use Rattle.zr_open.specs.Roots.{IsOfRoot};
ghost use Rattle.zr_open.specs.Shown.{Shows};
ghost use Rattle.zr_model.specs.State.{PoolState};
ghost use Rattle.zr_sync.specs.States.{HoldsState};

use crate::look::look;
use std::alloc::Global;
use zr_scan::ScanErr;
use zr_shelf::Shelf;
use zr_sync::{Fault, OpenPool};

/// Makes all that was written before durable.
pub fn settle<S: Shelf>(shelf: &mut S) -> Result<(), ScanErr>
    ensures sizes { S.sizes shelf.new ≡ S.sizes shelf.old }
    ensures none_fell { NoneFell (S.counts shelf.old) (S.counts shelf.new) }
    ensures failed { IsErrOf result Failed → HasRisen (S.counts shelf.old).disk (S.counts shelf.new).disk }
    ensures told { S.tells shelf.old → S.tells shelf.new }
    ensures flushes { S.tells shelf.old → FlushesOnly (S.world shelf.old) (S.world shelf.new) }
    ensures rests { S.tells shelf.old → OnOk result (IsAtRest (S.world shelf.new).now) }
{
    shelf.flush()?;
    Ok(())
}

/// Opens the pool that the slots show.
///
/// What was written before may wait to be durable yet, if whoever wrote it was stopped. So all is made durable first: what the
/// pool is taken to be then is what a crash leaves from here on.
///
/// It makes a call on a disk for each ring and each run of a block that it reads, and its time and memory are linear in
/// what it reads; the slots are compared in pairs.
pub fn import<S: Shelf>(alloc: Global, shelf: &mut S) -> Result<OpenPool, Fault>
    requires slots { length (S.sizes shelf.old) ≤ 32 }
    ensures sizes { S.sizes shelf.new ≡ S.sizes shelf.old }
    ensures none_fell { NoneFell (S.counts shelf.old) (S.counts shelf.new) }
    ensures told { S.tells shelf.old → S.tells shelf.new }
    ensures flushes { S.tells shelf.old → FlushesOnly (S.world shelf.old) (S.world shelf.new) }
    ensures reads { S.tells shelf.old → (S.world shelf.new).now.seen ≡ (S.world shelf.old).now.seen }
    ensures rests { S.tells shelf.old → IfOk result (λ pool. IsAtRest (S.world shelf.new).now) }
    ensures fault { IsErrOf result (Stops DiskFault) → HasRisen (S.counts shelf.old).disk (S.counts shelf.new).disk }
    ensures pool { IfOk result (IsOpen (S.sizes shelf.new)) }
    ensures fresh { IfOk result (λ pool. (u : Uber) × FindsOn (S.sizes shelf.old) (S.tells shelf.old) (S.world shelf.old).now.seen (Ok u) × IsFresh u pool) }
    ensures opened { IfOk result (λ pool. (u : Uber) × (at : FindsOn (S.sizes shelf.old) (S.tells shelf.old) (S.world shelf.old).now.seen (Ok u)) × IsOfRoot (S.tells shelf.old) (S.world shelf.old).now.seen (slots_of u at.seen) u pool) }
    ensures objects { S.tells shelf.old → IfOk result (λ pool. (p : PoolState) × Shows (S.world shelf.old).now.paths (S.world shelf.old).now.seen p × HoldsState (S.tells shelf.new) (S.world shelf.new).now.seen pool p) }
    ensures last { S.tells shelf.old → IfOk result (ShowsLast (S.world shelf.new).now.seen) }
    ensures leaves { S.tells shelf.old → IfOk result (IsLeftCommitted (S.world shelf.new).now) }
    ensures trees { S.tells shelf.old → IfOk result (HasTrees Had (S.tells shelf.new) (S.world shelf.new).now.seen) }
    ensures room { IfOk result (λ pool. CoversOwed pool.space) }
    ensures groups { IfOk result (λ pool. pool.group.txg ≤ 2 ^ 63 + 1) }
    ensures refused { (r : Refusal) → IsErrOf result (No r) → FindsOn (S.sizes shelf.old) (S.tells shelf.old) (S.world shelf.old).now.seen (Err r) ⊎ (IsRefusedRoot r ⊎ ((u : Uber) × (at : FindsOn (S.sizes shelf.old) (S.tells shelf.old) (S.world shelf.old).now.seen (Ok u)) × IsRefusedSaved (S.tells shelf.old) (S.world shelf.old).now.seen (slots_of u at.seen) u r)) }
{
    settle(shelf)?;
    let looked = look(alloc, shelf)?;
    Ok(looked.pool)
}
