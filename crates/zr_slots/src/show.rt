//! What the slots show, and the parts of it that the checks read.
ghost use Rattle.std.specs.Prelude.{◌≡◌, ◌<◌, ◌≤◌, ℕ, length, slice_index, IsErrOf, IfOk};
ghost use Rattle.zr_base.specs.Counts.{HasRisen};
ghost use Rattle.zr_shelf.specs.Counts.{NoneFell};
ghost use Rattle.zr_shelf.specs.Moments.{IsStill};
ghost use Rattle.zr_scan.specs.Scan.{IsSmallAndLawful};
ghost use Rattle.zr_scan.specs.declared.error.ScanErr.TheVariants.{Failed};
ghost use Rattle.zr_image.specs.Current.{ShowsAll, seen_at};
ghost use Rattle.zr_slots.specs.Checks.{AreLawful};

use std::alloc::Global;
use zr_base::Items;
use zr_label::{Label, Newer, Seen, Uber};
use zr_scan::{ScanErr, scan};
use zr_shelf::Shelf;

/// What each slot shows, in order. It makes at most eight calls on each disk, and takes the memory of one ring and of
/// the roots.
pub fn scan_all<S: Shelf>(alloc: Global, shelf: &mut S) -> Result<Items<Seen>, ScanErr>
    ensures sizes { S.sizes shelf.new ≡ S.sizes shelf.old }
    ensures none_fell { NoneFell (S.counts shelf.old) (S.counts shelf.new) }
    ensures failed { IsErrOf result Failed → HasRisen (S.counts shelf.old).disk (S.counts shelf.new).disk }
    ensures told { S.tells shelf.old → S.tells shelf.new }
    ensures still { S.tells shelf.old → IsStill (S.world shelf.old) (S.world shelf.new) }
    ensures count { IfOk result (λ seen. length seen ≡ length (S.sizes shelf.old)) }
    ensures lawful { IfOk result AreLawful }
    ensures sized { IfOk result (λ seen. (slot : ℕ) → slot < length seen → IsSmallAndLawful (slice_index (S.sizes shelf.old) slot) (seen_at seen slot)) }
    ensures shows { S.tells shelf.old → IfOk result (ShowsAll (S.world shelf.old).now.seen) }
{
    let mut seen = Items::new(alloc);
    for slot in 0..shelf.slots() {
        let one = scan(alloc, shelf, slot)?;
        seen.push(one)?;
    }
    Ok(seen)
}

/// The label that a slot shows.
pub fn label_at(seen: &[Seen], slot: u32) -> Option<Label>
    requires { slot < length seen.now }
    ensures { result ≡ (seen_at seen.now slot).label }
{
    seen[slot as usize].label
}

/// The roots that a slot shows.
pub fn roots_at(seen: &[Seen], slot: u32) -> &[Uber]
    requires { slot < length seen.now }
    ensures { result.now ≡ (seen_at seen.now slot).ubers }
{
    seen[slot as usize].ubers.as_slice()
}

/// The newest root of an unknown version that a slot shows.
pub fn newer_at(seen: &[Seen], slot: u32) -> Option<Newer>
    requires { slot < length seen.now }
    ensures { result ≡ (seen_at seen.now slot).newer }
{
    seen[slot as usize].newer
}
