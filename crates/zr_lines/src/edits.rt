//! A line that puts bytes into an object of an open pool.
ghost use Rattle.std.specs.FinMap as map;
ghost use Rattle.std.specs.Prelude.{◌≡◌, ◌<◌, ◌≤◌, ◌⊎◌, ℕ, false, true, None, List, length, slice_index, OnOk, IfOk, IsErrOf};
ghost use Rattle.zr_base.specs.Counts.{HasRisen};
ghost use Rattle.zr_base.specs.declared.refusal.Refusal.{Refusal};
ghost use Rattle.zr_base.specs.declared.refusal.Refusal.TheVariants.{Damaged, NoSuchObject, OutOfRange};
ghost use Rattle.zr_base.specs.declared.space.Dva.{Dva};
ghost use Rattle.zr_change.specs.Edits.{HasLength, IsPart, byte_put};
ghost use Rattle.zr_held.specs.Steps.{IsObjectOf};
ghost use Rattle.zr_model.specs.Objects.{Objects, changes_lost, with_bytes};
ghost use Rattle.zr_shelf.specs.Counts.{NoneFell};
ghost use Rattle.zr_sync.specs.Objects.{HoldsObjects};
ghost use Rattle.zr_sync.specs.Pools.{IsOpen, IsSamePool};
ghost use Rattle.zr_sync.specs.Writes.{WorksOnDisks};
ghost use Rattle.zr_sync.specs.declared.fault.Fault.TheVariants.{No, Stops};
ghost use Rattle.zr_sync.specs.declared.stop.Stop.TheVariants.{DiskFault};
ghost use Rattle.zr_last.specs.Last.{KeepsLast};
ghost use Rattle.zr_lines.specs.Causes.{IsLookRefusal, IsAbsent, IsTooFar, IsUndone};
ghost use Rattle.zr_lines.specs.Changes.{IsDone};
ghost use Rattle.zr_lines.specs.Damage.{FindsDamage};
ghost use Rattle.zr_lines.specs.Intents.{IsBehindCommit, IsFound, IsReadyFor, Means};
ghost use Rattle.zr_lines.specs.Reaches.{is_in_reach};
ghost use Rattle.zr_lines.specs.declared.range.Reach.TheVariants.{Write};
ghost use Rattle.zr_lines.specs.Stops.{StaysInOneGroup, WritesInOneGroup};

use crate::intent::Intent;
use crate::range::Reach;
use crate::steps::{carry_out, look_over};
use std::alloc::Global;
use zr_change::Edit;
use zr_shelf::Shelf;
use zr_sync::{Fault, OpenPool, commit};
use zr_vdev::Place;

// What the line means to do, behind a commit where the group has no place for it.
fn mean<S: Shelf, P: Place>(
    alloc: Global,
    pool: &mut OpenPool,
    shelf: &mut S,
    pick: &P,
    id: u64,
    edit: &Edit<'_>,
    reach: Reach,
) -> Result<Intent, Fault>
    requires pool { IsOpen (S.sizes shelf.old) pool.old }
    requires given { HasLength edit.now.len edit.now.bytes }
    requires short { reach ≡ Write → edit.now.len ≤ 8192 }
    ensures sizes { S.sizes shelf.new ≡ S.sizes shelf.old }
    ensures none_fell { NoneFell (S.counts shelf.old) (S.counts shelf.new) }
    ensures told { S.tells shelf.old → S.tells shelf.new }
    ensures disks { S.tells shelf.old → WorksOnDisks (S.world shelf.old) (S.world shelf.new) }
    ensures fault { IsErrOf result (Stops DiskFault) → HasRisen (S.counts shelf.old).disk (S.counts shelf.new).disk }
    ensures pool { OnOk result (IsOpen (S.sizes shelf.new) pool.new) }
    ensures same { OnOk result (IsSamePool pool.old pool.new) }
    ensures pool_no { (r : Refusal) → IsErrOf result (No r) → IsOpen (S.sizes shelf.new) pool.new }
    ensures same_no { (r : Refusal) → IsErrOf result (No r) → IsSamePool pool.old pool.new }
    ensures shown { S.tells shelf.old → OnOk result (KeepsLast (S.world shelf.old) (S.world shelf.new) pool.old pool.new) }
    ensures shown_no { S.tells shelf.old → (r : Refusal) → IsErrOf result (No r) → KeepsLast (S.world shelf.old) (S.world shelf.new) pool.old pool.new }
    ensures refused { (r : Refusal) → IsErrOf result (No r) → IsLookRefusal r }
    ensures absent { IsErrOf result (No NoSuchObject) → IsAbsent (S.tells shelf.old) reach id edit.now pool.old (S.world shelf.old).now.seen }
    ensures too_far { IsErrOf result (No OutOfRange) → IsTooFar (S.tells shelf.old) reach id edit.now pool.old (S.world shelf.old).now.seen }
    ensures damaged { (at : Dva) (expected found : List ℕ) → IsErrOf result (No (Damaged at expected found)) → FindsDamage (S.tells shelf.old) (IsFound reach id edit.now pool.old (S.world shelf.old).now.seen) id (λ r. IsPart r.units edit.now) pool.old (S.world shelf.old).now.seen at expected found }
    ensures kept { (r : Refusal) → IsErrOf result (No r) → (pool.new.group ≡ pool.old.group) ⊎ IsBehindCommit reach id edit.now pool.old pool.new }
    ensures means { IfOk result (λ i. (m : Means (S.tells shelf.old) reach id edit.now pool.old (S.world shelf.old).now.seen i) × (pool.new.group ≡ m.found.pool.group)) }
    ensures stays_no { (objects : Objects) → HoldsObjects (S.tells shelf.old) (S.world shelf.old).now.seen pool.old objects → (r : Refusal) → IsErrOf result (No r) → HoldsObjects (S.tells shelf.new) (S.world shelf.new).now.seen pool.new objects }
    ensures absent_object { (objects : Objects) → HoldsObjects (S.tells shelf.old) (S.world shelf.old).now.seen pool.old objects → IsErrOf result (No NoSuchObject) → map.get objects id ≡ None }
    ensures too_far_object { (objects : Objects) → HoldsObjects (S.tells shelf.old) (S.world shelf.old).now.seen pool.old objects → IsErrOf result (No OutOfRange) → IsObjectOf objects id (λ o. is_in_reach reach o.units edit.now ≡ false) }
    ensures ready { (objects : Objects) → HoldsObjects (S.tells shelf.old) (S.world shelf.old).now.seen pool.old objects → IfOk result (IsReadyFor (S.tells shelf.new) (S.world shelf.new).now.seen pool.new id edit.now objects) }
    ensures one_group { (objects : Objects) → HoldsObjects (S.tells shelf.old) (S.world shelf.old).now.seen pool.old objects → OnOk result (StaysInOneGroup (S.sizes shelf.old) objects pool.old pool.new (S.world shelf.old) (S.world shelf.new)) }
    ensures one_group_no { (objects : Objects) → HoldsObjects (S.tells shelf.old) (S.world shelf.old).now.seen pool.old objects → (r : Refusal) → IsErrOf result (No r) → StaysInOneGroup (S.sizes shelf.old) objects pool.old pool.new (S.world shelf.old) (S.world shelf.new) }
    ensures writes { (objects : Objects) → HoldsObjects (S.tells shelf.old) (S.world shelf.old).now.seen pool.old objects → WritesInOneGroup (S.sizes shelf.old) objects pool.old (S.world shelf.old) (S.world shelf.new) }
{
    if let Some(intent) = look_over(alloc, pool, shelf, pick, id, edit, reach)? {
        return Ok(intent);
    }
    commit(alloc, pool, shelf, pick, false)?;
    match look_over(alloc, pool, shelf, pick, id, edit, reach)? {
        Some(intent) => Ok(intent),
        None => unreachable!(),
    }
}

/// Puts bytes into an object: the line is refused or done as a whole. A group that has no place for the change is
/// committed first, also where the line is then refused.
///
/// After an error that stops the run the pool is not to be used.
pub fn change<S: Shelf, P: Place>(
    alloc: Global,
    pool: &mut OpenPool,
    shelf: &mut S,
    pick: &P,
    id: u64,
    edit: &Edit<'_>,
    reach: Reach,
) -> Result<(), Fault>
    requires pool { IsOpen (S.sizes shelf.old) pool.old }
    requires given { HasLength edit.now.len edit.now.bytes }
    requires short { reach ≡ Write → edit.now.len ≤ 8192 }
    ensures sizes { S.sizes shelf.new ≡ S.sizes shelf.old }
    ensures none_fell { NoneFell (S.counts shelf.old) (S.counts shelf.new) }
    ensures told { S.tells shelf.old → S.tells shelf.new }
    ensures disks { S.tells shelf.old → WorksOnDisks (S.world shelf.old) (S.world shelf.new) }
    ensures fault { IsErrOf result (Stops DiskFault) → HasRisen (S.counts shelf.old).disk (S.counts shelf.new).disk }
    ensures pool { OnOk result (IsOpen (S.sizes shelf.new) pool.new) }
    ensures same { OnOk result (IsSamePool pool.old pool.new) }
    ensures pool_no { (r : Refusal) → IsErrOf result (No r) → IsOpen (S.sizes shelf.new) pool.new }
    ensures same_no { (r : Refusal) → IsErrOf result (No r) → IsSamePool pool.old pool.new }
    ensures shown { S.tells shelf.old → OnOk result (KeepsLast (S.world shelf.old) (S.world shelf.new) pool.old pool.new) }
    ensures shown_no { S.tells shelf.old → (r : Refusal) → IsErrOf result (No r) → KeepsLast (S.world shelf.old) (S.world shelf.new) pool.old pool.new }
    ensures refused { (r : Refusal) → IsErrOf result (No r) → IsLookRefusal r ⊎ IsUndone (S.tells shelf.old) reach id edit.now pool.old (S.world shelf.old).now.seen pool.new r }
    ensures absent { IsErrOf result (No NoSuchObject) → IsAbsent (S.tells shelf.old) reach id edit.now pool.old (S.world shelf.old).now.seen }
    ensures too_far { IsErrOf result (No OutOfRange) → IsTooFar (S.tells shelf.old) reach id edit.now pool.old (S.world shelf.old).now.seen }
    ensures damaged { (at : Dva) (expected found : List ℕ) → IsErrOf result (No (Damaged at expected found)) → FindsDamage (S.tells shelf.old) (IsFound reach id edit.now pool.old (S.world shelf.old).now.seen) id (λ r. IsPart r.units edit.now) pool.old (S.world shelf.old).now.seen at expected found }
    ensures kept { (r : Refusal) → IsErrOf result (No r) → (pool.new.group ≡ pool.old.group) ⊎ IsBehindCommit reach id edit.now pool.old pool.new }
    ensures done { OnOk result (IsDone (S.tells shelf.old) reach id edit.now pool.old (S.world shelf.old).now.seen (S.tells shelf.new) (S.world shelf.new).now.seen pool.new) }
    ensures stays_no { (objects : Objects) → HoldsObjects (S.tells shelf.old) (S.world shelf.old).now.seen pool.old objects → (r : Refusal) → IsErrOf result (No r) → HoldsObjects (S.tells shelf.new) (S.world shelf.new).now.seen pool.new objects }
    ensures absent_object { (objects : Objects) → HoldsObjects (S.tells shelf.old) (S.world shelf.old).now.seen pool.old objects → IsErrOf result (No NoSuchObject) → map.get objects id ≡ None }
    ensures too_far_object { (objects : Objects) → HoldsObjects (S.tells shelf.old) (S.world shelf.old).now.seen pool.old objects → IsErrOf result (No OutOfRange) → IsObjectOf objects id (λ o. is_in_reach reach o.units edit.now ≡ false) }
    ensures edited { (objects : Objects) (bytes : List ℕ) → HoldsObjects (S.tells shelf.old) (S.world shelf.old).now.seen pool.old objects → length bytes ≡ edit.now.len → ((k : ℕ) → k < edit.now.len → slice_index bytes k ≡ byte_put edit.now.bytes k)
        → OnOk result (IsObjectOf objects id (λ o. (is_in_reach reach o.units edit.now ≡ true) × (changes_lost o edit.now.off (length bytes) ≡ false) × HoldsObjects (S.tells shelf.new) (S.world shelf.new).now.seen pool.new (map.insert objects id (with_bytes o edit.now.off bytes)))) }
    ensures one_group { (objects : Objects) → HoldsObjects (S.tells shelf.old) (S.world shelf.old).now.seen pool.old objects → OnOk result (StaysInOneGroup (S.sizes shelf.old) objects pool.old pool.new (S.world shelf.old) (S.world shelf.new)) }
    ensures one_group_no { (objects : Objects) → HoldsObjects (S.tells shelf.old) (S.world shelf.old).now.seen pool.old objects → (r : Refusal) → IsErrOf result (No r) → StaysInOneGroup (S.sizes shelf.old) objects pool.old pool.new (S.world shelf.old) (S.world shelf.new) }
    ensures writes { (objects : Objects) → HoldsObjects (S.tells shelf.old) (S.world shelf.old).now.seen pool.old objects → WritesInOneGroup (S.sizes shelf.old) objects pool.old (S.world shelf.old) (S.world shelf.new) }
{
    let intent = mean(alloc, pool, shelf, pick, id, edit, reach)?;
    carry_out(alloc, pool, shelf, pick, id as u32, &intent, reach)
}
