//! The pool that the slots show.
//!
//! A slot is believed only where its label names the units of its own disk. So the slots that are found have the units
//! of their devices, and no slot is that of two, since a label has one index.
ghost use Rattle.std.specs.Prelude.{◌≡◌, ◌≤◌, length, Ok, Err, IfOk, IsErrOf};
ghost use Rattle.zr_base.specs.Counts.{HasRisen};
ghost use Rattle.zr_base.specs.declared.refusal.Refusal.{Refusal};
ghost use Rattle.zr_image.specs.Current.{slots_of};
ghost use Rattle.zr_label.specs.Blocks.{IsUber};
ghost use Rattle.zr_shelf.specs.Counts.{NoneFell};
ghost use Rattle.zr_shelf.specs.Moments.{IsStill};
ghost use Rattle.zr_sync.specs.declared.fault.Fault.TheVariants.{No, Stops};
ghost use Rattle.zr_sync.specs.declared.stop.Stop.TheVariants.{DiskFault};
ghost use Rattle.zr_current.specs.Current.{HasSlots};
ghost use Rattle.zr_roots.specs.Devices.{HasItsDisks};
ghost use Rattle.zr_open.specs.Found.{FindsOn};
ghost use Rattle.zr_open.specs.Scanned.{IsScanned};

use std::alloc::Global;
use zr_base::Items;
use zr_label::Seen;
use zr_shelf::Shelf;
use zr_slots::{Found, find_pool, scan_all};
use zr_sync::Fault;

/// What the slots show, and the pool that is found by it.
#[derive(Drop)]
pub(crate) struct Scanned {
    pub seen: Items<Seen>,
    pub found: Found,
}

/// What the slots show, and the current root, with the slot of each device that is not gone.
pub(crate) fn scan<S: Shelf>(alloc: Global, shelf: &mut S) -> Result<Scanned, Fault>
    requires slots { length (S.sizes shelf.old) ≤ 32 }
    ensures sizes { S.sizes shelf.new ≡ S.sizes shelf.old }
    ensures none_fell { NoneFell (S.counts shelf.old) (S.counts shelf.new) }
    ensures told { S.tells shelf.old → S.tells shelf.new }
    ensures still { S.tells shelf.old → IsStill (S.world shelf.old) (S.world shelf.new) }
    ensures fault { IsErrOf result (Stops DiskFault) → HasRisen (S.counts shelf.old).disk (S.counts shelf.new).disk }
    ensures scanned { IfOk result (IsScanned (S.sizes shelf.old) (S.tells shelf.old) (S.world shelf.old).now.seen) }
    ensures refused { (r : Refusal) → IsErrOf result (No r) → FindsOn (S.sizes shelf.old) (S.tells shelf.old) (S.world shelf.old).now.seen (Err r) }
{
    let seen = scan_all(alloc, shelf)?;
    let found = find_pool(seen.as_slice())?;
    Ok(Scanned { seen, found })
}

/// The current root that the slots show, with the slot of each device that is not gone.
pub(crate) fn find<S: Shelf>(alloc: Global, shelf: &mut S) -> Result<Found, Fault>
    requires slots { length (S.sizes shelf.old) ≤ 32 }
    ensures sizes { S.sizes shelf.new ≡ S.sizes shelf.old }
    ensures none_fell { NoneFell (S.counts shelf.old) (S.counts shelf.new) }
    ensures told { S.tells shelf.old → S.tells shelf.new }
    ensures still { S.tells shelf.old → IsStill (S.world shelf.old) (S.world shelf.new) }
    ensures fault { IsErrOf result (Stops DiskFault) → HasRisen (S.counts shelf.old).disk (S.counts shelf.new).disk }
    ensures found { IfOk result (λ f. (at : FindsOn (S.sizes shelf.old) (S.tells shelf.old) (S.world shelf.old).now.seen (Ok f.root)) × HasSlots (slots_of f.root at.seen) f.slots) }
    ensures refused { (r : Refusal) → IsErrOf result (No r) → FindsOn (S.sizes shelf.old) (S.tells shelf.old) (S.world shelf.old).now.seen (Err r) }
    ensures root { IfOk result (λ f. IsUber f.root) }
    ensures long { IfOk result (λ f. length f.slots ≡ 32) }
    ensures disks { IfOk result (λ f. HasItsDisks (S.sizes shelf.old) f.slots f.root) }
{
    let scanned = scan(alloc, shelf)?;
    Ok(scanned.found)
}
