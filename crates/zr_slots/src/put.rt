//! Putting labels and roots so that a crash at any moment leaves one root.
//!
//! A new device gets its label when its old roots are gone, so no crash joins them. Its label blocks are put from the last to
//! the first, each durable before the next, since the first of them that is whole counts: so none that did not count before
//! comes to light behind one that a crash tore. A root goes first to two labels of
//! each device that knows the last root too, and is made durable there before the other two labels change: until then
//! these have the last root.
ghost use Rattle.std.specs.Prelude.{◌≡◌, ◌<◌, ℕ, length, IsTrue, IsErrOf, OnOk, slice_index};
ghost use Rattle.zr_base.specs.Counts.{HasRisen};
ghost use Rattle.zr_shelf.specs.Counts.{NoneFell};
ghost use Rattle.zr_shelf.specs.Disks.{disk, IsAtRest, IsSameOutside};
ghost use Rattle.zr_shelf.specs.Doings.{WritesOnly};
ghost use Rattle.zr_label.specs.Blocks.{IsLabel, IsUber, SpellsLabel, label_block, padding};
ghost use Rattle.zr_label.specs.Geometry.{is_disk_size};
ghost use Rattle.zr_scan.specs.Puts.{puts, label_place};
ghost use Rattle.zr_scan.specs.Scan.{block_of, ring_block};
ghost use Rattle.zr_scan.specs.declared.error.ScanErr.TheVariants.{Failed};
ghost use Rattle.zr_slots.specs.Phases.{AreDisks, IsRootPut, HaveRoot, Publishes, Prepares, PutsLabels, SettlesLabel};

use std::alloc::Global;
use zr_label::{Label, Uber};
use zr_scan::{ScanErr, clear_rings, put_label, put_uber};
use zr_shelf::Shelf;

/// Puts the root into its place of label `first`, and of `first + 2`, of each slot.
fn put_root<S: Shelf>(shelf: &mut S, slots: &[u32], first: u32, u: &Uber) -> Result<(), ScanErr>
    requires disks { AreDisks (S.sizes shelf.old) slots.now }
    requires first { first < 2 }
    requires lawful { IsUber u.now }
    ensures sizes { S.sizes shelf.new ≡ S.sizes shelf.old }
    ensures none_fell { NoneFell (S.counts shelf.old) (S.counts shelf.new) }
    ensures failed { IsErrOf result Failed → HasRisen (S.counts shelf.old).disk (S.counts shelf.new).disk }
    ensures told { S.tells shelf.old → S.tells shelf.new }
    ensures wrote { S.tells shelf.old → WritesOnly (IsRootPut (S.sizes shelf.old) slots.now first u.now) (S.world shelf.old) (S.world shelf.new) }
    ensures there { S.tells shelf.old → OnOk result (HaveRoot (S.sizes shelf.old) slots.now first u.now (S.world shelf.new).now.seen) }
{
    for i in 0..slots.len() {
        put_uber(shelf, slots[i], first, u)?;
    }
    Ok(())
}

/// Publishes a root: a flush, the root in labels 0 and 2 of the slots `both`, a flush, the root in labels 1 and 3 of the
/// slots `all`, a flush. All that was written before is durable before the root, and the root is durable in the first
/// labels before the others change.
pub fn publish<S: Shelf>(
    shelf: &mut S,
    both: &[u32],
    all: &[u32],
    root: &Uber,
) -> Result<(), ScanErr>
    requires both { AreDisks (S.sizes shelf.old) both.now }
    requires all { AreDisks (S.sizes shelf.old) all.now }
    requires lawful { IsUber root.now }
    ensures sizes { S.sizes shelf.new ≡ S.sizes shelf.old }
    ensures none_fell { NoneFell (S.counts shelf.old) (S.counts shelf.new) }
    ensures failed { IsErrOf result Failed → HasRisen (S.counts shelf.old).disk (S.counts shelf.new).disk }
    ensures told { S.tells shelf.old → S.tells shelf.new }
    ensures order { S.tells shelf.old → Publishes (S.sizes shelf.old) both.now all.now root.now result (S.world shelf.old) (S.world shelf.new) }
    ensures rest { S.tells shelf.old → OnOk result (IsAtRest (S.world shelf.new).now) }
{
    shelf.flush()?;
    put_root(shelf, both, 0, root)?;
    shelf.flush()?;
    put_root(shelf, all, 1, root)?;
    shelf.flush()?;
    Ok(())
}

// Puts a label into a label block of a slot, and makes it durable.
fn settle_label<S: Shelf>(shelf: &mut S, slot: u32, n: u32, label: &Label) -> Result<(), ScanErr>
    requires exists { slot < length (S.sizes shelf.old) }
    requires size { IsTrue (is_disk_size 2 (slice_index (S.sizes shelf.old) slot)) }
    requires block { n < 4 }
    requires lawful { IsLabel label.now }
    ensures sizes { S.sizes shelf.new ≡ S.sizes shelf.old }
    ensures none_fell { NoneFell (S.counts shelf.old) (S.counts shelf.new) }
    ensures failed { IsErrOf result Failed → HasRisen (S.counts shelf.old).disk (S.counts shelf.new).disk }
    ensures told { S.tells shelf.old → S.tells shelf.new }
    ensures order { S.tells shelf.old → SettlesLabel (slice_index (S.sizes shelf.old) slot) slot n label.now result (S.world shelf.old) (S.world shelf.new) }
    ensures long { length (label_block label.now) ≡ 4096 }
    ensures rest { S.tells shelf.old → OnOk result (IsSameOutside (puts slot (label_place (slice_index (S.sizes shelf.old) slot) n) (label_block label.now)) (S.world shelf.old).now.seen (S.world shelf.new).now.seen) }
    ensures at_rest { S.tells shelf.old → OnOk result (IsAtRest (S.world shelf.new).now) }
    ensures there { S.tells shelf.old → OnOk result (SpellsLabel (block_of (slice_index (S.sizes shelf.old) slot) (disk (S.world shelf.new).now.seen slot) n) label.now) }
{
    put_label(shelf, slot, n, label)?;
    shelf.flush()?;
    Ok(())
}

// Puts a label into the four label blocks of a slot, from the last to the first.
fn put_labels<S: Shelf>(shelf: &mut S, slot: u32, label: &Label) -> Result<(), ScanErr>
    requires exists { slot < length (S.sizes shelf.old) }
    requires size { IsTrue (is_disk_size 2 (slice_index (S.sizes shelf.old) slot)) }
    requires lawful { IsLabel label.now }
    ensures sizes { S.sizes shelf.new ≡ S.sizes shelf.old }
    ensures none_fell { NoneFell (S.counts shelf.old) (S.counts shelf.new) }
    ensures failed { IsErrOf result Failed → HasRisen (S.counts shelf.old).disk (S.counts shelf.new).disk }
    ensures told { S.tells shelf.old → S.tells shelf.new }
    ensures order { S.tells shelf.old → PutsLabels (slice_index (S.sizes shelf.old) slot) slot label.now result (S.world shelf.old) (S.world shelf.new) }
    ensures at_rest { S.tells shelf.old → OnOk result (IsAtRest (S.world shelf.new).now) }
    ensures labels { S.tells shelf.old → OnOk result ((n : ℕ) → n < 4 → SpellsLabel (block_of (slice_index (S.sizes shelf.old) slot) (disk (S.world shelf.new).now.seen slot) n) label.now) }
    ensures rings { S.tells shelf.old → OnOk result ((n k : ℕ) → n < 4 → k < 32 → ring_block (slice_index (S.sizes shelf.old) slot) (disk (S.world shelf.new).now.seen slot) n k ≡ ring_block (slice_index (S.sizes shelf.old) slot) (disk (S.world shelf.old).now.seen slot) n k) }
{
    for k in 0..4 {
        settle_label(shelf, slot, 3 - k, label)?;
    }
    Ok(())
}

/// Makes a slot a new device: zeros over its rings, a flush, and its labels, each behind the one before by a flush. It takes the
/// memory of one ring, 131,072 bytes.
pub fn prepare_device<S: Shelf>(
    alloc: Global,
    shelf: &mut S,
    slot: u32,
    label: &Label,
) -> Result<(), ScanErr>
    requires exists { slot < length (S.sizes shelf.old) }
    requires size { IsTrue (is_disk_size 2 (slice_index (S.sizes shelf.old) slot)) }
    requires lawful { IsLabel label.now }
    ensures sizes { S.sizes shelf.new ≡ S.sizes shelf.old }
    ensures none_fell { NoneFell (S.counts shelf.old) (S.counts shelf.new) }
    ensures failed { IsErrOf result Failed → HasRisen (S.counts shelf.old).disk (S.counts shelf.new).disk }
    ensures told { S.tells shelf.old → S.tells shelf.new }
    ensures order { S.tells shelf.old → Prepares (slice_index (S.sizes shelf.old) slot) slot label.now result (S.world shelf.old) (S.world shelf.new) }
    ensures rest { S.tells shelf.old → OnOk result (IsAtRest (S.world shelf.new).now) }
    ensures labels { S.tells shelf.old → OnOk result ((n : ℕ) → n < 4 → SpellsLabel (block_of (slice_index (S.sizes shelf.old) slot) (disk (S.world shelf.new).now.seen slot) n) label.now) }
    ensures rings { S.tells shelf.old → OnOk result ((n k : ℕ) → n < 4 → k < 32 → ring_block (slice_index (S.sizes shelf.old) slot) (disk (S.world shelf.new).now.seen slot) n k ≡ padding 4096) }
{
    clear_rings(alloc, shelf, slot)?;
    shelf.flush()?;
    put_labels(shelf, slot, label)
}
