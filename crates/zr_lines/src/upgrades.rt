//! The call of the line, with what it is refused for.
ghost use Rattle.std.specs.Prelude.{◌≡◌, ℕ, List, IfErr, IsErrOf, OnOk, IfSome};
ghost use Rattle.zr_base.specs.Counts.{HasRisen};
ghost use Rattle.zr_base.specs.declared.refusal.Refusal.{Refusal};
ghost use Rattle.zr_model.specs.Objects.{Objects};
ghost use Rattle.zr_shelf.specs.Counts.{NoneFell};
ghost use Rattle.zr_sync.specs.Copies.{KeepsCopies};
ghost use Rattle.zr_sync.specs.Objects.{HoldsObjects};
ghost use Rattle.zr_sync.specs.Pools.{IsOpen};
ghost use Rattle.zr_sync.specs.Trees.{HasLastTrees, HasTrees};
ghost use Rattle.zr_sync.specs.Trees.Stage.{Had, Recorded};
ghost use Rattle.zr_sync.specs.Writes.{WorksOnDisks};
ghost use Rattle.zr_sync.specs.declared.fault.Fault.TheVariants.{No, Stops};
ghost use Rattle.zr_sync.specs.declared.stop.Stop.TheVariants.{DiskFault};
ghost use Rattle.zr_sync.specs.Ends.{LeavesCommitted};
ghost use Rattle.zr_sync.specs.Moves.{TellsMoves};
ghost use Rattle.zr_last.specs.Last.{KeepsLast};
ghost use Rattle.zr_lines.specs.Stops.{WritesReset};
ghost use Rattle.zr_lines.specs.Upgrades.{IsUpgradeRefusal, Upgrades, renewed};

use std::alloc::Global;
use zr_base::Refusal;
use zr_choose::Chooser;
use zr_shelf::Shelf;
use zr_sync::{Fault, OpenPool, commit_anew};

/// The version that an upgrade makes of a pool.
const NEWEST: u64 = 2;

// Refuses an upgrade of a pool that is of the newest version.
fn demand_old(pool: &OpenPool) -> Result<(), Refusal>
    requires pool { (sizes : List ℕ) × IsOpen sizes pool.now }
    ensures was { OnOk result (pool.now.version ≡ 1) }
    ensures refused { IfErr result (IsUpgradeRefusal pool.now.version) }
{
    if pool.version == NEWEST {
        return Err(Refusal::NothingToDo);
    }
    Ok(())
}

// Makes the pool and its space be of the newest version. Nothing is written yet.
fn renew(pool: &mut OpenPool)
    ensures value { pool.new ≡ renewed pool.old }
    ensures pool { (sizes : List ℕ) → IsOpen sizes pool.old → IsOpen sizes pool.new }
{
    pool.space.upgrade();
    pool.version = NEWEST;
}

/// Makes a pool of the first version one of the second: the open group ends with a reset that writes every stream anew, as
/// this version spells it. The pool holds the objects that it held, and a checkpoint stays as it stands. It costs what
/// such a commit does.
///
/// Want of memory is also the answer where a run of free units is missing within the commit, and at the last group of all.
/// After a stop the pool is not to be used.
pub fn upgrade<S: Shelf>(
    alloc: Global,
    pool: &mut OpenPool,
    shelf: &mut S,
    pick: &Chooser,
) -> Result<(), Fault>
    requires pool { IsOpen (S.sizes shelf.old) pool.old }
    ensures sizes { S.sizes shelf.new ≡ S.sizes shelf.old }
    ensures none_fell { NoneFell (S.counts shelf.old) (S.counts shelf.new) }
    ensures told { S.tells shelf.old → S.tells shelf.new }
    ensures disks { S.tells shelf.old → WorksOnDisks (S.world shelf.old) (S.world shelf.new) }
    ensures fault { IsErrOf result (Stops DiskFault) → HasRisen (S.counts shelf.old).disk (S.counts shelf.new).disk }
    ensures pool { OnOk result (IsOpen (S.sizes shelf.new) pool.new) }
    ensures was { OnOk result (pool.old.version ≡ 1) }
    ensures newest { OnOk result (pool.new.version ≡ 2) }
    ensures ckpt { OnOk result (pool.new.space.parts.ckpt ≡ pool.old.space.parts.ckpt) }
    ensures upgrades { OnOk result (Upgrades (S.sizes shelf.old) (S.tells shelf.old) (S.world shelf.new) pool.old pool.new) }
    ensures shown { S.tells shelf.old → OnOk result (KeepsLast (S.world shelf.old) (S.world shelf.new) pool.old pool.new) }
    ensures stops { (objects : Objects) → HoldsObjects (S.tells shelf.old) (S.world shelf.old).now.seen pool.old objects → WritesReset (HasLastTrees (S.world shelf.old).now.seen pool.old) (S.sizes shelf.old) objects pool.old (S.world shelf.old) (S.world shelf.new) }
    ensures ends { (objects : Objects) → HoldsObjects (S.tells shelf.old) (S.world shelf.old).now.seen pool.old objects → OnOk result (LeavesCommitted pool.new (S.world shelf.new).now) }
    ensures objects { (objects : Objects) → HoldsObjects (S.tells shelf.old) (S.world shelf.old).now.seen pool.old objects → OnOk result (HoldsObjects (S.tells shelf.new) (S.world shelf.new).now.seen pool.new objects) }
    ensures trees { HasTrees Had (S.tells shelf.old) (S.world shelf.old).now.seen pool.old → OnOk result (HasTrees Recorded (S.tells shelf.new) (S.world shelf.new).now.seen pool.new) }
    ensures copies { S.tells shelf.old → OnOk result (KeepsCopies (S.world shelf.old) (S.world shelf.new) pool.old pool.new) }
    ensures moves { HasTrees Had (S.tells shelf.old) (S.world shelf.old).now.seen pool.old → OnOk result (IfSome pool.new.last (λ u. TellsMoves (S.world shelf.new).now.seen pool.new u.root u.len)) }
    ensures refused { (r : Refusal) → IsErrOf result (No r) → IsUpgradeRefusal pool.old.version r }
    ensures unchanged { (r : Refusal) → IsErrOf result (No r) → pool.new ≡ pool.old }
    ensures untouched { (r : Refusal) → IsErrOf result (No r) → S.world shelf.new ≡ S.world shelf.old }
{
    demand_old(pool)?;
    renew(pool);
    commit_anew(alloc, pool, shelf, pick)?;
    Ok(())
}
