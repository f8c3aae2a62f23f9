//! A step of a removal: the next units of the device that is leaving are copied.
//!
//! They are read from where they stand and written to free units of another device, one call each, whatever they have: no
//! sum is looked at. Until they are there the space is as it was, and so it stays where a disk fails. What is cached of the
//! units that are written is forgotten before, since it is over from then on, however the write ends.
ghost use Rattle.std.specs.Prelude.{◌≡◌, ◌+◌, ◌*◌, ◌<◌, ◌≤◌, ◌^◌, ◌⊎◌, ℕ, not, filter, length, IsErrOf, OnOk, OnErr, IfOk, IfErr, Ok};
ghost use Rattle.zr_base.specs.Counts.{HasRisen};
ghost use Rattle.zr_shelf.specs.Counts.{NoneFell};
ghost use Rattle.zr_shelf.specs.Doings.{WritesOnly};
ghost use Rattle.zr_chain.specs.Visits.{as_part};
ghost use Rattle.zr_rules.specs.Columns.{free_units, uncopied_units};
ghost use Rattle.zr_rules.specs.Equation.{devices_in};
ghost use Rattle.zr_rules.specs.Frees.{IsSameRoot};
ghost use Rattle.zr_space.specs.Plans.{IsCopied, IsLowestOf};
ghost use Rattle.zr_store.specs.declared.StoreErr.TheVariants as is_store;
ghost use Rattle.zr_view.specs.Runs.{run_bytes, HasDisk, IsOnDisk};
ghost use Rattle.zr_cache.specs.Entries.{capacity, entries, is_in};
ghost use Rattle.zr_vdev.specs.Alike.{CopiesStand};
ghost use Rattle.zr_vdev.specs.Caches.{AreRead};
ghost use Rattle.zr_vdev.specs.Copies.{CopiesUnits, IsWriteIntoFree, run_of};
ghost use Rattle.zr_vdev.specs.Mounts.{AreMounted};
ghost use Rattle.zr_vdev.specs.Puts.{IsWriteOf};
ghost use Rattle.zr_vdev.specs.declared.copy.Copied.TheVariants.{Units, Nothing, Fault};

use crate::cached::run_at;
use crate::reads::read_all;
use crate::writes::write_at;
use std::alloc::Global;
use std::mem;
use zr_base::{Dva, Extent, NoMemory};
use zr_cache::Cache;
use zr_choose::Chooser;
use zr_imap::Piece;
use zr_shelf::Shelf;
use zr_space::Space;
use zr_store::StoreErr;

/// What a step of a removal came to.
#[derive(Clone, Copy, Debug, PartialEq, Eq)]
pub enum Copied {
    /// So many units were copied.
    Units(u64),
    /// Nothing is left to copy.
    Nothing,
    /// A disk failed, and nothing was copied.
    Fault,
}

// The units of a device.
fn run_of(dev: u32, at: Extent) -> Piece
    ensures { result ≡ run_of dev at }
{
    Piece { split: 0, dev, at }
}

// Reads units and writes them elsewhere, with one call each. What is cached of the units that are written is forgotten.
fn carry<S: Shelf>(
    alloc: Global,
    shelf: &mut S,
    cache: &mut Cache,
    slots: &[Option<u32>],
    from: &Piece,
    to: &Dva,
) -> Result<(), StoreErr>
    requires source { IsOnDisk (S.sizes shelf.old) slots.now from.now }
    requires source_small { from.now.at.start < 2 ^ 40 }
    requires place { HasDisk (S.sizes shelf.old) slots.now to.now.dev (to.now.start + to.now.len) }
    requires place_small { to.now.start < 2 ^ 40 }
    requires len { from.now.at.len ≡ to.now.len }
    ensures sizes { S.sizes shelf.new ≡ S.sizes shelf.old }
    ensures none_fell { NoneFell (S.counts shelf.old) (S.counts shelf.new) }
    ensures failed { IsErrOf result is_store.Failed → HasRisen (S.counts shelf.old).disk (S.counts shelf.new).disk }
    ensures errors { IfErr result (λ e. (e ≡ is_store.Failed) ⊎ (e ≡ is_store.NoMemory)) }
    ensures told { S.tells shelf.old → S.tells shelf.new }
    ensures writes { S.tells shelf.old → WritesOnly (IsWriteOf slots.now to.now) (S.world shelf.old) (S.world shelf.new) }
    ensures there { S.tells shelf.old → OnOk result (run_bytes (S.world shelf.new).now.seen slots.now (as_part to.now) ≡ run_bytes (S.world shelf.old).now.seen slots.now from.now) }
    ensures forgotten { entries cache.new ≡ filter (λ e. not (is_in (as_part to.now) e)) (entries cache.old) }
    ensures room { capacity cache.new ≡ capacity cache.old }
{
    let place = run_at(to);
    cache.forget_run(&place);
    let bytes = read_all(alloc, shelf, slots, &[*from], to.len)?;
    write_at(shelf, slots, to, bytes.as_slice())
}

// Copies the front of the lowest extent that is to be copied yet. It gives the space back, as it was where nothing was
// copied.
fn copy_front<S: Shelf>(
    alloc: Global,
    space: Space,
    front: Extent,
    shelf: &mut S,
    cache: &mut Cache,
    slots: &[Option<u32>],
    chooser: &Chooser,
) -> (Space, Result<Copied, NoMemory>)
    requires mounted { AreMounted (S.sizes shelf.old) slots.now (devices_in space) }
    requires lowest { (d : ℕ) × IsLowestOf space d front }
    requires room { uncopied_units space ≤ free_units space }
    ensures sizes { S.sizes shelf.new ≡ S.sizes shelf.old }
    ensures none_fell { NoneFell (S.counts shelf.old) (S.counts shelf.new) }
    ensures mounted { AreMounted (S.sizes shelf.new) slots.now (devices_in result.0) }
    ensures told { S.tells shelf.old → S.tells shelf.new }
    ensures units { IfOk result.1 (λ c. (n : ℕ) → c ≡ Units n → CopiesUnits chooser.now.policy slots.now (S.tells shelf.old) (S.world shelf.old) (S.world shelf.new) space result.0 n) }
    ensures some { IfOk result.1 (λ c. c ≡ Nothing → ⊥) }
    ensures fault { IfOk result.1 (λ c. c ≡ Fault → HasRisen (S.counts shelf.old).disk (S.counts shelf.new).disk) }
    ensures same { IfOk result.1 (λ c. c ≡ Fault → result.0 ≡ space) }
    ensures err { OnErr result.1 (result.0 ≡ space) }
    ensures root { IsSameRoot space result.0 }
    ensures written { S.tells shelf.old → WritesOnly (IsWriteIntoFree slots.now space) (S.world shelf.old) (S.world shelf.new) }
    ensures copies { S.tells shelf.old → CopiesStand (S.world shelf.old).now.seen slots.now space → CopiesStand (S.world shelf.new).now.seen slots.now result.0 }
    ensures cache { S.tells shelf.old → AreRead (S.world shelf.old).now.seen slots.now space cache.old → AreRead (S.world shelf.new).now.seen slots.now result.0 cache.new }
    ensures capacity { capacity cache.new ≡ capacity cache.old }
{
    space.lawful();
    let copying = match space.copy_plan(front, chooser) {
        Ok(copying) => copying,
        Err(before) => return (before, Err(NoMemory)),
    };
    let plan = copying.plan();
    let from = run_of(copying.dev(), plan.from);
    match carry(alloc, shelf, cache, slots, &from, &plan.to) {
        Ok(()) => (copying.done(), Ok(Copied::Units(plan.from.len))),
        Err(StoreErr::Failed) => (copying.failed(), Ok(Copied::Fault)),
        Err(_) => (copying.failed(), Err(NoMemory)),
    }
}

/// Copies the next units of the device that is leaving: the lowest that are to be copied yet, at most 256, or as many as
/// there is a place for. It makes one read and one write, of 1 MiB at most, and looks at no sum. After a fault or want of
/// memory the space is as it was; where nothing is left to copy nothing is done.
pub fn copy_step<S: Shelf>(
    alloc: Global,
    space: &mut Space,
    shelf: &mut S,
    cache: &mut Cache,
    slots: &[Option<u32>],
    chooser: &Chooser,
) -> Result<Copied, NoMemory>
    requires mounted { AreMounted (S.sizes shelf.old) slots.now (devices_in space.old) }
    requires room { uncopied_units space.old ≤ free_units space.old }
    ensures sizes { S.sizes shelf.new ≡ S.sizes shelf.old }
    ensures none_fell { NoneFell (S.counts shelf.old) (S.counts shelf.new) }
    ensures mounted { AreMounted (S.sizes shelf.new) slots.now (devices_in space.new) }
    ensures told { S.tells shelf.old → S.tells shelf.new }
    ensures units { IfOk result (λ c. (n : ℕ) → c ≡ Units n → CopiesUnits chooser.now.policy slots.now (S.tells shelf.old) (S.world shelf.old) (S.world shelf.new) space.old space.new n) }
    ensures nothing { IfOk result (λ c. c ≡ Nothing → IsCopied space.old) }
    ensures left { IsCopied space.old → result ≡ Ok Nothing }
    ensures idle { IsCopied space.old → shelf.new ≡ shelf.old }
    ensures fault { IfOk result (λ c. c ≡ Fault → HasRisen (S.counts shelf.old).disk (S.counts shelf.new).disk) }
    ensures same { IfOk result (λ c. (c ≡ Nothing) ⊎ (c ≡ Fault) → space.new ≡ space.old) }
    ensures err { OnErr result (space.new ≡ space.old) }
    ensures root { IsSameRoot space.old space.new }
    ensures written { S.tells shelf.old → WritesOnly (IsWriteIntoFree slots.now space.old) (S.world shelf.old) (S.world shelf.new) }
    ensures copies { S.tells shelf.old → CopiesStand (S.world shelf.old).now.seen slots.now space.old → CopiesStand (S.world shelf.new).now.seen slots.now space.new }
    ensures cache { S.tells shelf.old → AreRead (S.world shelf.old).now.seen slots.now space.old cache.old → AreRead (S.world shelf.new).now.seen slots.now space.new cache.new }
    ensures capacity { capacity cache.new ≡ capacity cache.old }
{
    let Some(front) = space.next_copy() else {
        return Ok(Copied::Nothing);
    };
    let whole = mem::replace(space, Space::new(alloc, 2));
    let (next, copied) = copy_front(alloc, whole, front, shelf, cache, slots, chooser);
    *space = next;
    copied
}
