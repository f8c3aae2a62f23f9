//! Reading and writing runs of units.
ghost use Rattle.std.specs.Prelude.{◌≡◌, ◌+◌, ◌*◌, ◌<◌, ◌≤◌, ◌^◌, ◌++◌, ℕ, List, length, sum_by, slice_index, IsErrOf, OnOk, IfOk, Some, None};
ghost use Rattle.std.specs.List.{flat_map, AllByRecursion};
ghost use Rattle.zr_base.specs.Counts.{HasRisen};
ghost use Rattle.zr_shelf.specs.Counts.{NoneFell};
ghost use Rattle.zr_shelf.specs.Disks.{disk, part};
ghost use Rattle.zr_shelf.specs.Moments.{IsStill, Writes};
ghost use Rattle.zr_shelf.specs.declared.desk.DeskErr.TheVariants as is_desk;
ghost use Rattle.zr_imap.specs.Searches.{FollowFrom};
ghost use Rattle.zr_label.specs.Geometry.{unit_at};
ghost use Rattle.zr_view.specs.Views.{slot_of};
ghost use Rattle.zr_view.specs.Runs.{run_bytes, IsOnDisk, HasDisk};

use std::alloc::Global;
use zr_base::Extent;
use zr_imap::Piece;
use zr_shelf::{DeskErr, Shelf};

/// The bytes of a unit.
const UNIT: u64 = 4096;

/// The first byte of a unit of a device, behind the labels.
pub fn place_of_unit(u: u64) -> u64
    requires { u < 2 ^ 40 }
    ensures { result ≡ unit_at u }
{
    4194304 + UNIT * u
}

// The slot of a device that has a disk.
fn slot_of(slots: &[Option<u32>], dev: u32) -> u32
    requires { (slot : ℕ) × (slot_of slots.now dev ≡ Some slot) }
    ensures { slot_of slots.now dev ≡ Some result }
{
    match slots.get(dev as usize) {
        Some(Some(slot)) => *slot,
        Some(None) | None => unreachable!(),
    }
}

// Reads a run into the whole of a buffer.
fn read_run<S: Shelf>(
    shelf: &mut S,
    slots: &[Option<u32>],
    run: &Piece,
    out: &mut [u8],
) -> Result<(), DeskErr>
    requires disk { IsOnDisk (S.sizes shelf.old) slots.now run.now }
    requires small { run.now.at.start < 2 ^ 40 }
    requires size { length out.old ≡ 4096 * run.now.at.len }
    ensures sizes { S.sizes shelf.new ≡ S.sizes shelf.old }
    ensures none_fell { NoneFell (S.counts shelf.old) (S.counts shelf.new) }
    ensures failed { IsErrOf result is_desk.Failed → HasRisen (S.counts shelf.old).disk (S.counts shelf.new).disk }
    ensures memory { IsErrOf result is_desk.NoMemory → ⊥ }
    ensures told { S.tells shelf.old → S.tells shelf.new }
    ensures still { S.tells shelf.old → IsStill (S.world shelf.old) (S.world shelf.new) }
    ensures bytes { S.tells shelf.old → OnOk result (out.new ≡ run_bytes (S.world shelf.old).now.seen slots.now run.now) }
{
    let slot = slot_of(slots, run.dev);
    shelf.read(slot, place_of_unit(run.at.start), out)?;
    Ok(())
}

/// Reads runs that follow each other, one after another. Each makes one call on its disk. `out` has the bytes of all, and
/// is not copied.
pub fn read_runs<S: Shelf>(
    shelf: &mut S,
    slots: &[Option<u32>],
    runs: &[Piece],
    out: &mut [u8],
) -> Result<(), DeskErr>
    requires disks { AllByRecursion (IsOnDisk (S.sizes shelf.old) slots.now) runs.now }
    requires small { AllByRecursion (λ (p : Piece). p.at.start < 2 ^ 40) runs.now }
    requires size { length out.old ≡ sum_by (λ (p : Piece). 4096 * p.at.len) runs.now }
    ensures sizes { S.sizes shelf.new ≡ S.sizes shelf.old }
    ensures none_fell { NoneFell (S.counts shelf.old) (S.counts shelf.new) }
    ensures failed { IsErrOf result is_desk.Failed → HasRisen (S.counts shelf.old).disk (S.counts shelf.new).disk }
    ensures memory { IsErrOf result is_desk.NoMemory → ⊥ }
    ensures told { S.tells shelf.old → S.tells shelf.new }
    ensures still { S.tells shelf.old → IsStill (S.world shelf.old) (S.world shelf.new) }
    ensures bytes { S.tells shelf.old → OnOk result (out.new ≡ flat_map (run_bytes (S.world shelf.old).now.seen slots.now) runs.now) }
{
    let Some((run, rest)) = runs.split_first() else {
        return Ok(());
    };
    let (front, back) = out.split_at_mut((4096 * run.at.len) as usize);
    read_run(shelf, slots, run, front)?;
    read_runs(shelf, slots, rest, back)
}

/// Writes the bytes of a run in one call.
pub fn write_run<S: Shelf>(
    shelf: &mut S,
    slots: &[Option<u32>],
    run: &Piece,
    bytes: &[u8],
) -> Result<(), DeskErr>
    requires disk { IsOnDisk (S.sizes shelf.old) slots.now run.now }
    requires small { run.now.at.start < 2 ^ 40 }
    requires size { length bytes.now ≡ 4096 * run.now.at.len }
    ensures sizes { S.sizes shelf.new ≡ S.sizes shelf.old }
    ensures none_fell { NoneFell (S.counts shelf.old) (S.counts shelf.new) }
    ensures failed { IsErrOf result is_desk.Failed → HasRisen (S.counts shelf.old).disk (S.counts shelf.new).disk }
    ensures told { S.tells shelf.old → S.tells shelf.new }
    ensures writes { S.tells shelf.old → (slot : ℕ) → slot_of slots.now run.now.dev ≡ Some slot → Writes (record { slot = slot; at = unit_at run.now.at.start; bytes = bytes.now }) result (S.world shelf.old) (S.world shelf.new) }
    ensures there { S.tells shelf.old → OnOk result (run_bytes (S.world shelf.new).now.seen slots.now run.now ≡ bytes.now) }
{
    let slot = slot_of(slots, run.dev);
    shelf.write(slot, place_of_unit(run.at.start), bytes)
}
