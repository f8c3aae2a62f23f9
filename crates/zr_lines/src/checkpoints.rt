//! The calls of the lines on a checkpoint, each with what it is refused for.
ghost use Rattle.std.specs.Prelude.{◌≡◌, ◌+◌, ◌==◌, if◌then◌else◌, ◌≤◌, ℕ, List, IsOk, IfOk, IfErr, IsErrOf, OnOk, IfSome};
ghost use Rattle.zr_base.specs.Counts.{HasRisen};
ghost use Rattle.zr_base.specs.declared.refusal.Refusal.{Refusal};
ghost use Rattle.zr_base.specs.declared.space.CkptPart.TheVariants.{Clear, Held, Discarding};
ghost use Rattle.zr_model.specs.Objects.{Objects};
ghost use Rattle.zr_rules.specs.Columns.{free_units};
ghost use Rattle.zr_rules.specs.Steps.{DiscardsSome};
ghost use Rattle.zr_shelf.specs.Counts.{NoneFell};
ghost use Rattle.zr_sync.specs.Checkpoints.{GivesUpCheckpoint, TakesCheckpoint};
ghost use Rattle.zr_sync.specs.Objects.{HoldsObjects};
ghost use Rattle.zr_sync.specs.Pools.{IsOpen};
ghost use Rattle.zr_sync.specs.Trees.{HasLastTrees, HasTrees};
ghost use Rattle.zr_sync.specs.Trees.Stage.{Had, Recorded};
ghost use Rattle.zr_sync.specs.Writes.{WorksOnDisks};
ghost use Rattle.zr_sync.specs.declared.fault.Fault.TheVariants.{No, Stops};
ghost use Rattle.zr_sync.specs.declared.stop.Stop.TheVariants.{DiskFault};
ghost use Rattle.zr_sync.specs.Ends.{LeavesCommitted};
ghost use Rattle.zr_sync.specs.Moves.{TellsMoves};
ghost use Rattle.zr_last.specs.Last.{KeepsLast, KeepsRoot};
ghost use Rattle.zr_lines.specs.Stops.{WritesReset};
ghost use Rattle.zr_lines.specs.Refusals.{AllStay, IsGiveRefusal, IsRemovalRefusal, IsStepRefusal, IsTakeRefusal, checkpoint_needs};

use std::alloc::Global;
use zr_base::{CkptPart, Refusal};
use zr_choose::Chooser;
use zr_room::{demand, metadata_with, owed_with};
use zr_shelf::Shelf;
use zr_sync::{Fault, OpenPool, checkpoint, discard_some, give_up_checkpoint};

// In units: the room that a checkpoint needs.
fn needed(pool: &OpenPool) -> u64
    requires { (sizes : List ℕ) × IsOpen sizes pool.now }
    ensures { result ≡ checkpoint_needs pool.now }
{
    let blocks = pool.group.blocks();
    let objects = pool.group.objects();
    owed_with(pool, blocks, objects, 0) + metadata_with(pool, blocks, objects)
}

// Refuses what a removal bars, where a device is leaving.
fn demand_to_stay(pool: &OpenPool) -> Result<(), Refusal>
    ensures stays { OnOk result (AllStay pool.now.space) }
    ensures refused { IfErr result (IsRemovalRefusal pool.now.space) }
{
    match pool.space.leaving() {
        Some(_) => Err(Refusal::RemovalInProgress),
        None => Ok(()),
    }
}

// Refuses a checkpoint where a device is leaving, where there is one already, or one is being discarded, or there is no
// room for it.
fn demand_to_take(pool: &OpenPool) -> Result<(), Refusal>
    requires { (sizes : List ℕ) × IsOpen sizes pool.now }
    ensures stays { OnOk result (AllStay pool.now.space) }
    ensures clear { OnOk result (pool.now.space.parts.ckpt ≡ Clear) }
    ensures enough { OnOk result (checkpoint_needs pool.now ≤ free_units pool.now.space) }
    ensures refused { IfErr result (IsTakeRefusal pool.now pool.now.space.parts.ckpt) }
{
    demand_to_stay(pool)?;
    match pool.space.ckpt() {
        CkptPart::Held(_) => Err(Refusal::CheckpointExists),
        CkptPart::Discarding => Err(Refusal::DiscardingCheckpoint),
        CkptPart::Clear => demand(pool, needed(pool)),
    }
}

// Refuses to give up a checkpoint where there is none, or where it is being discarded. No removal begins while one is
// held; that is tested here, since nothing that is known of an open pool says so.
fn demand_to_give(pool: &OpenPool) -> Result<(), Refusal>
    ensures stays { OnOk result (AllStay pool.now.space) }
    ensures refused { IfErr result (IsGiveRefusal pool.now pool.now.space.parts.ckpt) }
{
    match pool.space.ckpt() {
        CkptPart::Clear => Err(Refusal::NoCheckpoint),
        CkptPart::Discarding => Err(Refusal::DiscardingCheckpoint),
        CkptPart::Held(_) => demand_to_stay(pool),
    }
}

// Refuses a step where nothing is being discarded.
fn demand_to_step(pool: &OpenPool) -> Result<(), Refusal>
    ensures discarding { OnOk result (pool.now.space.parts.ckpt ≡ Discarding) }
    ensures refused { IfErr result (IsStepRefusal pool.now.space.parts.ckpt) }
{
    match pool.space.ckpt() {
        CkptPart::Discarding => Ok(()),
        CkptPart::Clear | CkptPart::Held(_) => Err(Refusal::NothingToDo),
    }
}

/// Takes a checkpoint of the pool, where no device is leaving, it has none and there is room for one.
pub fn take<S: Shelf>(
    alloc: Global,
    pool: &mut OpenPool,
    shelf: &mut S,
    pick: &Chooser,
) -> Result<(), Fault>
    requires pool { IsOpen (S.sizes shelf.old) pool.old }
    ensures sizes { S.sizes shelf.new ≡ S.sizes shelf.old }
    ensures none_fell { NoneFell (S.counts shelf.old) (S.counts shelf.new) }
    ensures told { S.tells shelf.old → S.tells shelf.new }
    ensures disks { S.tells shelf.old → WorksOnDisks (S.world shelf.old) (S.world shelf.new) }
    ensures fault { IsErrOf result (Stops DiskFault) → HasRisen (S.counts shelf.old).disk (S.counts shelf.new).disk }
    ensures pool { OnOk result (IsOpen (S.sizes shelf.new) pool.new) }
    ensures remain { OnOk result (AllStay pool.old.space) }
    ensures enough { OnOk result (checkpoint_needs pool.old ≤ free_units pool.old.space) }
    ensures held { OnOk result (pool.new.space.parts.ckpt ≡ Held pool.old.group.txg) }
    ensures takes { OnOk result (TakesCheckpoint (S.sizes shelf.old) (S.tells shelf.old) (S.world shelf.new) pool.old pool.new) }
    ensures shown { S.tells shelf.old → OnOk result (KeepsLast (S.world shelf.old) (S.world shelf.new) pool.old pool.new) }
    ensures stops { (objects : Objects) → HoldsObjects (S.tells shelf.old) (S.world shelf.old).now.seen pool.old objects → WritesReset (HasLastTrees (S.world shelf.old).now.seen pool.old) (S.sizes shelf.old) objects pool.old (S.world shelf.old) (S.world shelf.new) }
    ensures ends { (objects : Objects) → HoldsObjects (S.tells shelf.old) (S.world shelf.old).now.seen pool.old objects → OnOk result (LeavesCommitted pool.new (S.world shelf.new).now) }
    ensures objects { (objects : Objects) → HoldsObjects (S.tells shelf.old) (S.world shelf.old).now.seen pool.old objects → OnOk result (HoldsObjects (S.tells shelf.new) (S.world shelf.new).now.seen pool.new objects) }
    ensures trees { HasTrees Had (S.tells shelf.old) (S.world shelf.old).now.seen pool.old → OnOk result (HasTrees Recorded (S.tells shelf.new) (S.world shelf.new).now.seen pool.new) }
    ensures moves { HasTrees Had (S.tells shelf.old) (S.world shelf.old).now.seen pool.old → OnOk result (IfSome pool.new.last (λ u. TellsMoves (S.world shelf.new).now.seen pool.new u.root u.len)) }
    ensures refused { (r : Refusal) → IsErrOf result (No r) → IsTakeRefusal pool.old pool.old.space.parts.ckpt r }
    ensures unchanged { (r : Refusal) → IsErrOf result (No r) → pool.new ≡ pool.old }
    ensures untouched { (r : Refusal) → IsErrOf result (No r) → S.world shelf.new ≡ S.world shelf.old }
{
    demand_to_take(pool)?;
    checkpoint(alloc, pool, shelf, pick)?;
    Ok(())
}

/// Gives up the checkpoint of the pool, where it has one that is not being discarded.
pub fn give_up<S: Shelf>(
    alloc: Global,
    pool: &mut OpenPool,
    shelf: &mut S,
    pick: &Chooser,
) -> Result<(), Fault>
    requires pool { IsOpen (S.sizes shelf.old) pool.old }
    ensures sizes { S.sizes shelf.new ≡ S.sizes shelf.old }
    ensures none_fell { NoneFell (S.counts shelf.old) (S.counts shelf.new) }
    ensures told { S.tells shelf.old → S.tells shelf.new }
    ensures disks { S.tells shelf.old → WorksOnDisks (S.world shelf.old) (S.world shelf.new) }
    ensures fault { IsErrOf result (Stops DiskFault) → HasRisen (S.counts shelf.old).disk (S.counts shelf.new).disk }
    ensures pool { OnOk result (IsOpen (S.sizes shelf.new) pool.new) }
    ensures discarding { OnOk result (pool.new.space.parts.ckpt ≡ Discarding) }
    ensures gives { OnOk result (GivesUpCheckpoint (S.sizes shelf.old) (S.tells shelf.old) (S.world shelf.new) pool.old pool.new) }
    ensures shown { S.tells shelf.old → OnOk result (KeepsLast (S.world shelf.old) (S.world shelf.new) pool.old pool.new) }
    ensures stops { (objects : Objects) → HoldsObjects (S.tells shelf.old) (S.world shelf.old).now.seen pool.old objects → WritesReset ⊥ (S.sizes shelf.old) objects pool.old (S.world shelf.old) (S.world shelf.new) }
    ensures ends { (objects : Objects) → HoldsObjects (S.tells shelf.old) (S.world shelf.old).now.seen pool.old objects → OnOk result (LeavesCommitted pool.new (S.world shelf.new).now) }
    ensures objects { (objects : Objects) → HoldsObjects (S.tells shelf.old) (S.world shelf.old).now.seen pool.old objects → OnOk result (HoldsObjects (S.tells shelf.new) (S.world shelf.new).now.seen pool.new objects) }
    ensures refused { (r : Refusal) → IsErrOf result (No r) → IsGiveRefusal pool.old pool.old.space.parts.ckpt r }
    ensures unchanged { (r : Refusal) → IsErrOf result (No r) → pool.new ≡ pool.old }
    ensures untouched { (r : Refusal) → IsErrOf result (No r) → S.world shelf.new ≡ S.world shelf.old }
{
    demand_to_give(pool)?;
    give_up_checkpoint(alloc, pool, shelf, pick)?;
    Ok(())
}

/// Gives back some of what a checkpoint kept that is being discarded, and answers how many units: none where the
/// discarding ends.
pub fn step(pool: &mut OpenPool) -> Result<u64, Fault>
    requires pool { (sizes : List ℕ) × IsOpen sizes pool.old }
    ensures was { OnOk result (pool.old.space.parts.ckpt ≡ Discarding) }
    ensures ended { IfOk result (λ units. pool.new.space.parts.ckpt ≡ (if units == 0 then Clear else Discarding)) }
    ensures root { OnOk result (KeepsRoot pool.old pool.new) }
    ensures steps { IfOk result (λ units. DiscardsSome pool.old.space units pool.new.space) }
    ensures pool { (sizes : List ℕ) → IsOpen sizes pool.old → OnOk result (IsOpen sizes pool.new) }
    ensures objects { (disks : List (List ℕ)) (objects : Objects) → HoldsObjects (Unit {0}) disks pool.old objects → OnOk result (HoldsObjects (Unit {0}) disks pool.new objects) }
    ensures trees { (disks : List (List ℕ)) → HasTrees Had (Unit {0}) disks pool.old → OnOk result (HasTrees Had (Unit {0}) disks pool.new) }
    ensures refused { (r : Refusal) → IsErrOf result (No r) → IsStepRefusal pool.old.space.parts.ckpt r }
    ensures unchanged { (r : Refusal) → IsErrOf result (No r) → pool.new ≡ pool.old }
    ensures fault { IsErrOf result (Stops DiskFault) → ⊥ }
{
    demand_to_step(pool)?;
    let units = discard_some(pool)?;
    Ok(units)
}
