//! Writing labels, roots and cleared rings.
//!
//! Each call puts the same bytes at two or four places that lie apart, so a write that comes later leaves what an
//! earlier one put. The clauses name every write that may have been made, whatever the call answers.
ghost use Rattle.std.specs.Prelude.{◌≡◌, ◌≤◌, ◌<◌, ◌+◌, ℕ, length, IsTrue, IsErrOf, OnOk, Contains, slice_index};
ghost use Rattle.std.specs.List.{AllByRecursion};
ghost use Rattle.zr_base.specs.Counts.{HasRisen};
ghost use Rattle.zr_shelf.specs.Counts.{NoneFell};
ghost use Rattle.zr_shelf.specs.Disks.{disk, part, IsSameOutside};
ghost use Rattle.zr_shelf.specs.Doings.{WritesOnly};
ghost use Rattle.zr_shelf.specs.declared.desk.DeskErr.TheVariants as is_desk;
ghost use Rattle.zr_label.specs.Blocks.{IsLabel, IsUber, SpellsLabel, label_block, uber_block, padding};
ghost use Rattle.zr_label.specs.Geometry.{is_disk_size};
ghost use Rattle.zr_scan.specs.Puts.{puts, AreSpread, label_place, ring_places, root_places};
ghost use Rattle.zr_scan.specs.Scan.{block_of, ring_block, Stands};
ghost use Rattle.zr_scan.specs.declared.error.ScanErr.TheVariants.{Failed};

use crate::error::ScanErr;
use crate::places::{RING_BYTES, label_place, ring_places, root_places};
use crate::rings::zeros;
use std::alloc::Global;
use zr_label::{Label, Uber};
use zr_shelf::{DeskErr, Shelf};

/// Puts the bytes at each of the places.
fn put_each<S: Shelf>(shelf: &mut S, slot: u32, places: &[u64], bytes: &[u8]) -> Result<(), DeskErr>
    requires exists { slot < length (S.sizes shelf.old) }
    requires fits { AllByRecursion (λ at. at + length bytes.now ≤ slice_index (S.sizes shelf.old) slot) places.now }
    requires spread { AreSpread (length bytes.now) places.now }
    ensures sizes { S.sizes shelf.new ≡ S.sizes shelf.old }
    ensures none_fell { NoneFell (S.counts shelf.old) (S.counts shelf.new) }
    ensures failed { IsErrOf result is_desk.Failed → HasRisen (S.counts shelf.old).disk (S.counts shelf.new).disk }
    ensures told { S.tells shelf.old → S.tells shelf.new }
    ensures wrote { S.tells shelf.old → WritesOnly (Contains (puts slot places.now bytes.now)) (S.world shelf.old) (S.world shelf.new) }
    ensures rest { S.tells shelf.old → IsSameOutside (puts slot places.now bytes.now) (S.world shelf.old).now.seen (S.world shelf.new).now.seen }
    ensures there { S.tells shelf.old → OnOk result ((j : ℕ) → j < length places.now → part (disk (S.world shelf.new).now.seen slot) (slice_index places.now j) (length bytes.now) ≡ bytes.now) }
{
    for i in 0..places.len() {
        shelf.write(slot, places[i], bytes)?;
    }
    Ok(())
}

/// Puts a label into label block `n` of a slot, which is below 4.
pub fn put_label<S: Shelf>(shelf: &mut S, slot: u32, n: u32, l: &Label) -> Result<(), ScanErr>
    requires exists { slot < length (S.sizes shelf.old) }
    requires size { IsTrue (is_disk_size 2 (slice_index (S.sizes shelf.old) slot)) }
    requires block { n < 4 }
    requires lawful { IsLabel l.now }
    ensures sizes { S.sizes shelf.new ≡ S.sizes shelf.old }
    ensures none_fell { NoneFell (S.counts shelf.old) (S.counts shelf.new) }
    ensures failed { IsErrOf result Failed → HasRisen (S.counts shelf.old).disk (S.counts shelf.new).disk }
    ensures told { S.tells shelf.old → S.tells shelf.new }
    ensures wrote { S.tells shelf.old → WritesOnly (Contains (puts slot (label_place (slice_index (S.sizes shelf.old) slot) n) (label_block l.now))) (S.world shelf.old) (S.world shelf.new) }
    ensures rest { S.tells shelf.old → IsSameOutside (puts slot (label_place (slice_index (S.sizes shelf.old) slot) n) (label_block l.now)) (S.world shelf.old).now.seen (S.world shelf.new).now.seen }
    ensures long { length (label_block l.now) ≡ 4096 }
    ensures there { S.tells shelf.old → OnOk result (SpellsLabel (block_of (slice_index (S.sizes shelf.old) slot) (disk (S.world shelf.new).now.seen slot) n) l.now) }
{
    let places = label_place(shelf.size(slot), n);
    put_each(shelf, slot, &places, &l.encode())?;
    Ok(())
}

/// Puts a root into its ring slot of label `first`, which is 0 or 1, and of label `first + 2`.
pub fn put_uber<S: Shelf>(shelf: &mut S, slot: u32, first: u32, u: &Uber) -> Result<(), ScanErr>
    requires exists { slot < length (S.sizes shelf.old) }
    requires size { IsTrue (is_disk_size 2 (slice_index (S.sizes shelf.old) slot)) }
    requires first { first < 2 }
    requires lawful { IsUber u.now }
    ensures sizes { S.sizes shelf.new ≡ S.sizes shelf.old }
    ensures none_fell { NoneFell (S.counts shelf.old) (S.counts shelf.new) }
    ensures failed { IsErrOf result Failed → HasRisen (S.counts shelf.old).disk (S.counts shelf.new).disk }
    ensures told { S.tells shelf.old → S.tells shelf.new }
    ensures wrote { S.tells shelf.old → WritesOnly (Contains (puts slot (root_places (slice_index (S.sizes shelf.old) slot) first u.now.txg) (uber_block u.now))) (S.world shelf.old) (S.world shelf.new) }
    ensures rest { S.tells shelf.old → IsSameOutside (puts slot (root_places (slice_index (S.sizes shelf.old) slot) first u.now.txg) (uber_block u.now)) (S.world shelf.old).now.seen (S.world shelf.new).now.seen }
    ensures long { length (uber_block u.now) ≡ 4096 }
    ensures there { S.tells shelf.old → OnOk result (Stands (slice_index (S.sizes shelf.old) slot) (disk (S.world shelf.new).now.seen slot) first u.now) }
    ensures there_too { S.tells shelf.old → OnOk result (Stands (slice_index (S.sizes shelf.old) slot) (disk (S.world shelf.new).now.seen slot) (first + 2) u.now) }
{
    let places = root_places(shelf.size(slot), first, u.txg);
    put_each(shelf, slot, &places, &u.encode())?;
    Ok(())
}

/// Puts zeros over the four rings of a slot. It takes the memory of one ring, 131,072 bytes.
pub fn clear_rings<S: Shelf>(alloc: Global, shelf: &mut S, slot: u32) -> Result<(), ScanErr>
    requires exists { slot < length (S.sizes shelf.old) }
    requires size { IsTrue (is_disk_size 2 (slice_index (S.sizes shelf.old) slot)) }
    ensures sizes { S.sizes shelf.new ≡ S.sizes shelf.old }
    ensures none_fell { NoneFell (S.counts shelf.old) (S.counts shelf.new) }
    ensures failed { IsErrOf result Failed → HasRisen (S.counts shelf.old).disk (S.counts shelf.new).disk }
    ensures told { S.tells shelf.old → S.tells shelf.new }
    ensures wrote { S.tells shelf.old → WritesOnly (Contains (puts slot (ring_places (slice_index (S.sizes shelf.old) slot)) (padding 131072))) (S.world shelf.old) (S.world shelf.new) }
    ensures rest { S.tells shelf.old → IsSameOutside (puts slot (ring_places (slice_index (S.sizes shelf.old) slot)) (padding 131072)) (S.world shelf.old).now.seen (S.world shelf.new).now.seen }
    ensures there { S.tells shelf.old → OnOk result ((n k : ℕ) → n < 4 → k < 32 → ring_block (slice_index (S.sizes shelf.old) slot) (disk (S.world shelf.new).now.seen slot) n k ≡ padding 4096) }
{
    let places = ring_places(shelf.size(slot));
    let zeros = zeros(alloc, RING_BYTES)?;
    put_each(shelf, slot, &places, &zeros)?;
    Ok(())
}
