//! Whether there is room for what a line means to do.
ghost use Rattle.std.specs.Prelude.{◌≡◌, ◌≤◌, ◌<◌, ◌+◌, ◌^◌, ℕ, List, IfOk, OnOk, IsErrOf};
ghost use Rattle.zr_base.specs.declared.refusal.Refusal.{Refusal};
ghost use Rattle.zr_rules.specs.Columns.{free_units};
ghost use Rattle.zr_sync.specs.Pools.{IsOpen};
ghost use Rattle.zr_sync.specs.declared.fault.Fault.TheVariants.{No, Stops};
ghost use Rattle.zr_sync.specs.declared.stop.Stop.TheVariants.{DiskFault};
ghost use Rattle.zr_lines.specs.Causes.{IsShort};
ghost use Rattle.zr_lines.specs.Intents.{IsIntent};
ghost use Rattle.zr_lines.specs.Rooms.{needed_units, owed_after, slop_left};

use crate::counts::{new_objects, pieces_of};
use crate::intent::Intent;
use crate::range::Reach;
use std::alloc::{AllocError, Global};
use zr_change::{new_blocks, new_units, olds, puts};
use zr_room::{demand, owed_with, slop_now};
use zr_sync::{Fault, OpenPool};

// What is owed once the group has the changes.
fn owed_then(alloc: Global, pool: &OpenPool, id: u32, intent: &Intent) -> Result<u64, AllocError>
    requires pool { (sizes : List ℕ) × IsOpen sizes pool.now }
    requires intent { IsIntent pool.now.group id intent.now }
    ensures owed { IfOk result (λ owed. owed ≡ owed_after pool.now.space pool.now.group id intent.now.plan.items) }
    ensures bound { IfOk result (λ owed. owed < 2 ^ 47) }
{
    let plan = intent.plan.as_slice();
    let old = olds(alloc, plan)?;
    let blocks = pool.group.blocks() + new_blocks(&pool.group, id, intent.first, intent.last);
    let objects = pool.group.objects() + new_objects(pool, id);
    let pieces = puts(plan) + pieces_of(pool, old.as_slice());
    Ok(owed_with(pool, blocks, objects, pieces))
}

// What the line leaves free.
fn slop_of(pool: &OpenPool, reach: Reach) -> u64
    requires pool { (sizes : List ℕ) × IsOpen sizes pool.now }
    ensures slop { result ≡ slop_left reach pool.now.space }
    ensures bound { result ≤ 2 ^ 31 }
{
    match reach {
        Reach::Fill | Reach::Write => slop_now(pool),
        Reach::Punch => 0,
    }
}

/// Refuses what needs more units than are free.
pub(crate) fn check_room(
    alloc: Global,
    pool: &OpenPool,
    id: u32,
    intent: &Intent,
    reach: Reach,
) -> Result<(), Fault>
    requires pool { (sizes : List ℕ) × IsOpen sizes pool.now }
    requires intent { IsIntent pool.now.group id intent.now }
    ensures fault { IsErrOf result (Stops DiskFault) → ⊥ }
    ensures enough { OnOk result (needed_units reach pool.now.space pool.now.group id intent.now.rec intent.now.plan.items ≤ free_units pool.now.space) }
    ensures short { (r : Refusal) → IsErrOf result (No r) → IsShort reach pool.now.space pool.now.group id intent.now r }
{
    let owed = owed_then(alloc, pool, id, intent)?;
    let taken = new_units(intent.rec.units, intent.plan.as_slice());
    demand(pool, taken + owed + slop_of(pool, reach))?;
    Ok(())
}
