//! Reading what a slot shows, by at most eight calls on the disk: each label block, and each ring as a whole.
ghost use Rattle.std.specs.Prelude.{◌≡◌, ◌<◌, ◌≤◌, Some, None, [], length, Contains, IsTrue, IsOk, IsErrOf, IfOk, IfSome, OnOk, slice_index};
ghost use Rattle.zr_base.specs.Readers.{Reads};
ghost use Rattle.zr_base.specs.Counts.{HasRisen};
ghost use Rattle.zr_shelf.specs.Counts.{NoneFell};
ghost use Rattle.zr_shelf.specs.Disks.{disk};
ghost use Rattle.zr_shelf.specs.Moments.{IsStill};
ghost use Rattle.zr_shelf.specs.declared.desk.DeskErr.TheVariants as is_desk;
ghost use Rattle.zr_label.specs.declared.root.Uber.{Uber};
ghost use Rattle.zr_label.specs.Geometry.{units_of_size, is_disk_size};
ghost use Rattle.zr_scan.specs.Scan.{Shows, ShowsLabel, ShowsNewer, AreRoots, IsOwnLabel, IsOwnRoot, IsSmallAndLawful};
ghost use Rattle.zr_scan.specs.Rings.{IsLabelWith};
ghost use Rattle.zr_scan.specs.declared.error.ScanErr.TheVariants.{Failed};

use crate::error::ScanErr;
use crate::places::{RING_BYTES, label_block_at, ring_at};
use crate::rings::{add_roots, newest_in, zeros};
use std::alloc::Global;
use zr_base::Items;
use zr_label::{Label, Newer, Seen, Uber, units_of_size};
use zr_shelf::{DeskErr, Shelf};

/// The label that a block spells, if it names so many units.
fn label_of(block: &[u8; 4096], units: u64) -> Option<Label>
    ensures { Reads (IsLabelWith block.now units) result }
{
    let Some(l) = Label::decode(block) else {
        return None;
    };
    if l.units != units {
        return None;
    }
    Some(l)
}

/// The first of the four labels that names so many units.
fn first_label<S: Shelf>(
    shelf: &mut S,
    slot: u32,
    size: u64,
    units: u64,
) -> Result<Option<Label>, DeskErr>
    requires exists { slot < length (S.sizes shelf.old) }
    requires size { size ≡ slice_index (S.sizes shelf.old) slot }
    requires units { units_of_size size 2 ≡ Some units }
    ensures sizes { S.sizes shelf.new ≡ S.sizes shelf.old }
    ensures none_fell { NoneFell (S.counts shelf.old) (S.counts shelf.new) }
    ensures failed { IsErrOf result is_desk.Failed → HasRisen (S.counts shelf.old).disk (S.counts shelf.new).disk }
    ensures told { S.tells shelf.old → S.tells shelf.new }
    ensures still { S.tells shelf.old → IsStill (S.world shelf.old) (S.world shelf.new) }
    ensures own { IfOk result (λ found. IfSome found (IsOwnLabel size)) }
    ensures label { S.tells shelf.old → IfOk result (ShowsLabel size (disk (S.world shelf.old).now.seen slot)) }
{
    for n in 0..4 {
        let mut block = [0; 4096];
        shelf.read(slot, label_block_at(size, n), &mut block)?;
        if let Some(l) = label_of(&block, units) {
            return Ok(Some(l));
        }
    }
    Ok(None)
}

/// Reads the four rings, one after another, into `ring`. It adds the roots for the label, and answers the newest root of
/// an unknown version.
fn look_at_rings<S: Shelf>(
    shelf: &mut S,
    slot: u32,
    size: u64,
    l: &Label,
    ring: &mut [u8],
    roots: &mut Items<Uber>,
) -> Result<Option<Newer>, ScanErr>
    requires exists { slot < length (S.sizes shelf.old) }
    requires size { size ≡ slice_index (S.sizes shelf.old) slot }
    requires used { IsTrue (is_disk_size 2 size) }
    requires ring { length ring.old ≡ 131072 }
    requires none { roots.old ≡ [] }
    ensures sizes { S.sizes shelf.new ≡ S.sizes shelf.old }
    ensures none_fell { NoneFell (S.counts shelf.old) (S.counts shelf.new) }
    ensures failed { IsErrOf result Failed → HasRisen (S.counts shelf.old).disk (S.counts shelf.new).disk }
    ensures told { S.tells shelf.old → S.tells shelf.new }
    ensures still { S.tells shelf.old → IsStill (S.world shelf.old) (S.world shelf.new) }
    ensures own { OnOk result ((u : Uber) → Contains roots.new u → IsOwnRoot l.now u) }
    ensures few { OnOk result (length roots.new ≤ 128) }
    ensures roots { S.tells shelf.old → OnOk result (AreRoots size (disk (S.world shelf.old).now.seen slot) 4 l.now roots.new) }
    ensures newer { S.tells shelf.old → IfOk result (ShowsNewer size (disk (S.world shelf.old).now.seen slot) 4 l.now.guid) }
{
    let mut newer = None;
    for n in 0..4 {
        shelf.read(slot, ring_at(size, n), ring)?;
        add_roots(ring, l, roots)?;
        newer = newest_in(ring, l.guid, newer);
    }
    Ok(newer)
}

/// What the four rings show for a label.
fn seen_in_rings<S: Shelf>(
    alloc: Global,
    shelf: &mut S,
    slot: u32,
    size: u64,
    l: Label,
) -> Result<Seen, ScanErr>
    requires exists { slot < length (S.sizes shelf.old) }
    requires size { size ≡ slice_index (S.sizes shelf.old) slot }
    requires used { IsTrue (is_disk_size 2 size) }
    ensures sizes { S.sizes shelf.new ≡ S.sizes shelf.old }
    ensures none_fell { NoneFell (S.counts shelf.old) (S.counts shelf.new) }
    ensures failed { IsErrOf result Failed → HasRisen (S.counts shelf.old).disk (S.counts shelf.new).disk }
    ensures told { S.tells shelf.old → S.tells shelf.new }
    ensures still { S.tells shelf.old → IsStill (S.world shelf.old) (S.world shelf.new) }
    ensures label { IfOk result (λ seen. seen.label ≡ Some l) }
    ensures own { IfOk result (λ seen. (u : Uber) → Contains seen.ubers u → IsOwnRoot l u) }
    ensures few { IfOk result (λ seen. length seen.ubers ≤ 128) }
    ensures roots { S.tells shelf.old → IfOk result (λ seen. AreRoots size (disk (S.world shelf.old).now.seen slot) 4 l seen.ubers) }
    ensures newer { S.tells shelf.old → IfOk result (λ seen. ShowsNewer size (disk (S.world shelf.old).now.seen slot) 4 l.guid seen.newer) }
{
    let mut ring = zeros(alloc, RING_BYTES)?;
    let mut ubers = Items::new(alloc);
    let newer = look_at_rings(shelf, slot, size, &l, &mut ring, &mut ubers)?;
    Ok(Seen {
        label: Some(l),
        ubers,
        newer,
    })
}

/// A slot that shows nothing.
fn nothing(alloc: Global) -> Seen
    ensures label { result.label ≡ None }
    ensures roots { result.ubers ≡ [] }
    ensures newer { result.newer ≡ None }
{
    Seen {
        label: None,
        ubers: Items::new(alloc),
        newer: None,
    }
}

/// What a slot shows: its label, the roots in its rings that are for this label, and the newest root there of an
/// unknown version. A disk that is too small or too large for every pool shows nothing, and is not read.
///
/// It makes at most eight calls on the disk, and takes the memory of one ring, 131,072 bytes, and of the roots. No sum is
/// computed of a block of zeros, nor of a block of a ring that does not begin as a root.
pub fn scan<S: Shelf>(alloc: Global, shelf: &mut S, slot: u32) -> Result<Seen, ScanErr>
    requires exists { slot < length (S.sizes shelf.old) }
    ensures sizes { S.sizes shelf.new ≡ S.sizes shelf.old }
    ensures none_fell { NoneFell (S.counts shelf.old) (S.counts shelf.new) }
    ensures failed { IsErrOf result Failed → HasRisen (S.counts shelf.old).disk (S.counts shelf.new).disk }
    ensures told { S.tells shelf.old → S.tells shelf.new }
    ensures still { S.tells shelf.old → IsStill (S.world shelf.old) (S.world shelf.new) }
    ensures unread { units_of_size (slice_index (S.sizes shelf.old) slot) 2 ≡ None → shelf.new ≡ shelf.old }
    ensures unused { units_of_size (slice_index (S.sizes shelf.old) slot) 2 ≡ None → IsOk result }
    ensures lawful { IfOk result (IsSmallAndLawful (slice_index (S.sizes shelf.old) slot)) }
    ensures shows { S.tells shelf.old → IfOk result (Shows (slice_index (S.sizes shelf.old) slot) (disk (S.world shelf.old).now.seen slot)) }
{
    let size = shelf.size(slot);
    let Some(units) = units_of_size(size, 2) else {
        return Ok(nothing(alloc));
    };
    let Some(label) = first_label(shelf, slot, size, units)? else {
        return Ok(nothing(alloc));
    };
    seen_in_rings(alloc, shelf, slot, size, label)
}
