//! Looking at the pool that the slots show, up to where it could be opened.
ghost use Rattle.std.specs.Prelude.{◌≡◌, ◌⊎◌, ◌≤◌, length, Ok, Err, IfOk, IsErrOf};
ghost use Rattle.zr_base.specs.Counts.{HasRisen};
ghost use Rattle.zr_base.specs.declared.refusal.Refusal.{Refusal};
ghost use Rattle.zr_image.specs.Current.{slots_of};
ghost use Rattle.zr_label.specs.Blocks.{IsUber};
ghost use Rattle.zr_label.specs.declared.root.Uber.{Uber};
ghost use Rattle.zr_shelf.specs.Counts.{NoneFell};
ghost use Rattle.zr_shelf.specs.Moments.{IsStill};
ghost use Rattle.zr_sync.specs.declared.fault.Fault.TheVariants.{No, Stops};
ghost use Rattle.zr_sync.specs.declared.stop.Stop.TheVariants.{DiskFault};
ghost use Rattle.zr_roots.specs.Devices.{HasItsDisks};
ghost use Rattle.zr_open.specs.Found.{FindsOn};
ghost use Rattle.zr_open.specs.Looked.{IsLooked, IsLookedAt};
ghost use Rattle.zr_open.specs.Opened.{IsRefusedRoot, IsRefusedSaved};

use crate::find::find;
use crate::pool::open;
use crate::read::fault_of;
use crate::saved::{SavedRoot, checkpoint_of, read_beside, saved_meta};
use std::alloc::Global;
use zr_import::Root;
use zr_roots::read;
use zr_shelf::Shelf;
use zr_slots::Found;
use zr_sync::{Fault, OpenPool};

/// A pool that was looked at: a root of it, the one that this saved, and the pool itself.
#[derive(Drop)]
pub(crate) struct Looked {
    pub found: Found,
    pub root: Root,
    pub saved: Option<SavedRoot>,
    pub pool: OpenPool,
}

impl Looked {
    /// The saved root, and the rest is let go.
    pub(crate) fn into_saved(self) -> Option<SavedRoot>
        ensures { result ≡ self.saved }
    {
        self.saved
    }
}

/// Looks at the pool by a root.
pub(crate) fn look_at<S: Shelf>(
    alloc: Global,
    shelf: &mut S,
    found: &Found,
) -> Result<Looked, Fault>
    requires uber { IsUber found.now.root }
    requires long { length found.now.slots ≡ 32 }
    requires disks { HasItsDisks (S.sizes shelf.old) found.now.slots found.now.root }
    ensures sizes { S.sizes shelf.new ≡ S.sizes shelf.old }
    ensures none_fell { NoneFell (S.counts shelf.old) (S.counts shelf.new) }
    ensures told { S.tells shelf.old → S.tells shelf.new }
    ensures still { S.tells shelf.old → IsStill (S.world shelf.old) (S.world shelf.new) }
    ensures fault { IsErrOf result (Stops DiskFault) → HasRisen (S.counts shelf.old).disk (S.counts shelf.new).disk }
    ensures found { IfOk result (λ looked. looked.found ≡ found.now) }
    ensures looked { IfOk result (IsLookedAt (S.sizes shelf.old) (S.tells shelf.old) (S.world shelf.old).now.seen) }
    ensures refused { (r : Refusal) → IsErrOf result (No r) → IsRefusedRoot r ⊎ IsRefusedSaved (S.tells shelf.old) (S.world shelf.old).now.seen found.now.slots found.now.root r }
{
    let root = match read(alloc, shelf, found) {
        Ok(root) => root,
        Err(error) => return Err(fault_of(error)),
    };
    let saved = read_beside(alloc, shelf, found, &root)?;
    let checkpoint = checkpoint_of(alloc, &root.head, &saved)?;
    let pool = open(alloc, found, &root, saved_meta(&saved), checkpoint)?;
    Ok(Looked {
        found: *found,
        root,
        saved,
        pool,
    })
}

/// Looks at the pool that the slots show, by its current root.
pub(crate) fn look<S: Shelf>(alloc: Global, shelf: &mut S) -> Result<Looked, Fault>
    requires slots { length (S.sizes shelf.old) ≤ 32 }
    ensures sizes { S.sizes shelf.new ≡ S.sizes shelf.old }
    ensures none_fell { NoneFell (S.counts shelf.old) (S.counts shelf.new) }
    ensures told { S.tells shelf.old → S.tells shelf.new }
    ensures still { S.tells shelf.old → IsStill (S.world shelf.old) (S.world shelf.new) }
    ensures fault { IsErrOf result (Stops DiskFault) → HasRisen (S.counts shelf.old).disk (S.counts shelf.new).disk }
    ensures looked { IfOk result (IsLooked (S.sizes shelf.old) (S.tells shelf.old) (S.world shelf.old).now.seen) }
    ensures refused { (r : Refusal) → IsErrOf result (No r) → FindsOn (S.sizes shelf.old) (S.tells shelf.old) (S.world shelf.old).now.seen (Err r) ⊎ (IsRefusedRoot r ⊎ ((u : Uber) × (at : FindsOn (S.sizes shelf.old) (S.tells shelf.old) (S.world shelf.old).now.seen (Ok u)) × IsRefusedSaved (S.tells shelf.old) (S.world shelf.old).now.seen (slots_of u at.seen) u r)) }
{
    let found = find(alloc, shelf)?;
    look_at(alloc, shelf, &found)
}
