//! The root that a checkpoint saved.
//!
//! It stands on the same disks, among the devices that were there by then. It is read as the current root is, opened by
//! itself to see that it could be, and closed again: of it the open pool needs no more than where its metadata lies.
ghost use Rattle.std.specs.Prelude.{◌≡◌, ◌⊎◌, ℕ, List, [], length, Some, IfOk, IfSome, IsErrOf};
ghost use Rattle.zr_base.specs.Counts.{HasRisen};
ghost use Rattle.zr_base.specs.declared.refusal.Refusal.{Refusal};
ghost use Rattle.zr_base.specs.declared.space.CkptPart.TheVariants.{Clear};
ghost use Rattle.zr_base.specs.declared.refusal.Refusal.TheVariants.{BadRoot};
ghost use Rattle.zr_image.specs.Roots.{rows_of};
ghost use Rattle.zr_label.specs.Blocks.{IsUber};
ghost use Rattle.zr_meta.specs.Heads.{IsHead};
ghost use Rattle.zr_shelf.specs.Counts.{NoneFell};
ghost use Rattle.zr_shelf.specs.Moments.{IsStill};
ghost use Rattle.zr_sync.specs.Pools.{IsCheckpoint, IsOpen, saved_block};
ghost use Rattle.zr_sync.specs.declared.fault.Fault.TheVariants.{No, Stops};
ghost use Rattle.zr_sync.specs.declared.stop.Stop.TheVariants.{DiskFault};
ghost use Rattle.zr_roots.specs.Devices.{HasItsDisks};
ghost use Rattle.zr_open.specs.Opened.{CoversOwed, IsFresh, IsRefusedRoot, as_saved};
ghost use Rattle.zr_open.specs.Roots.{HasParts, HasSaved, IsBeside, IsKept, IsLawfulSaved, meta_of};

use crate::pool::{head_tree, open, streams_of};
use crate::read::{as_saved, fault_of};
use std::alloc::Global;
use zr_base::{Blob, Dva, NoMemory, Refusal};
use zr_import::{Root, saved_uber};
use zr_label::Uber;
use zr_meta::Head;
use zr_roots::{own_slots, read_saved};
use zr_shelf::Shelf;
use zr_slots::Found;
use zr_sync::{Checkpoint, Fault, OpenPool};

/// The root that a checkpoint saved, with what stands in its trees.
#[derive(Drop)]
pub(crate) struct SavedRoot {
    pub uber: Uber,
    pub root: Root,
}

/// The metadata of the saved root, which is none where no checkpoint is held.
pub(crate) fn saved_meta(saved: &Option<SavedRoot>) -> &[Dva]
    ensures { result.now ≡ meta_of saved.now }
{
    match saved {
        None => &[],
        Some(saved) => saved.root.meta.as_slice(),
    }
}

/// The checkpoint that a root holds, none where it holds none: the block of the saved root, and where its metadata lies. It
/// goes over its streams.
pub(crate) fn checkpoint_of(
    alloc: Global,
    current: &Head,
    saved: &Option<SavedRoot>,
) -> Result<Option<Checkpoint>, NoMemory>
    requires there { HasSaved current.now.saved saved.now }
    requires lawful { IfSome saved.now IsLawfulSaved }
    ensures block { IfOk result (λ c. saved_block c ≡ current.now.saved) }
    ensures lawful { IfOk result (λ c. IfSome c IsCheckpoint) }
    ensures kept { IfOk result (IsKept saved.now) }
{
    match (saved, &current.saved) {
        (Some(saved), Some(block)) => {
            let rows = &saved.uber.rows[..saved.uber.count as usize];
            let streams = streams_of(alloc, rows, &saved.root.head)?;
            Ok(Some(Checkpoint {
                block: Blob::copy_of(alloc, block.as_slice())?,
                head: head_tree(&saved.uber),
                streams: streams.devices,
                cond: streams.cond,
            }))
        }
        _ => Ok(None),
    }
}

// The pool of a saved root by itself.
fn open_saved(alloc: Global, found: &Found, saved: &Root) -> Result<OpenPool, Fault>
    requires uber { IsUber found.now.root }
    requires long { length found.now.slots ≡ 32 }
    requires head { IsHead (rows_of found.now.root) saved.now.head }
    requires clear { saved.now.parts.ckpt ≡ Clear }
    ensures open { (sizes : List ℕ) → HasItsDisks sizes found.now.slots found.now.root → IfOk result (IsOpen sizes) }
    ensures fresh { IfOk result (IsFresh found.now.root) }
    ensures parts { IfOk result (HasParts saved.now []) }
    ensures slots { IfOk result (λ pool. pool.table.slots ≡ found.now.slots) }
    ensures room { IfOk result (λ pool. CoversOwed pool.space) }
    ensures refused { (r : Refusal) → IsErrOf result (No r) → IsRefusedRoot r ⊎ (r ≡ BadRoot 8) }
    ensures fault { IsErrOf result (Stops DiskFault) → ⊥ }
{
    match open(alloc, found, saved, &[], None) {
        Ok(pool) => Ok(pool),
        Err(fault) => Err(as_saved(fault)),
    }
}

/// The root that a checkpoint saved, none where no checkpoint is held. Rule 8 is broken where the saved root is not in
/// order. It costs what reading that root costs.
pub(crate) fn read_beside<S: Shelf>(
    alloc: Global,
    shelf: &mut S,
    found: &Found,
    current: &Root,
) -> Result<Option<SavedRoot>, Fault>
    requires root { IsUber found.now.root }
    requires long { length found.now.slots ≡ 32 }
    requires disks { HasItsDisks (S.sizes shelf.old) found.now.slots found.now.root }
    requires head { IsHead (rows_of found.now.root) current.now.head }
    ensures sizes { S.sizes shelf.new ≡ S.sizes shelf.old }
    ensures none_fell { NoneFell (S.counts shelf.old) (S.counts shelf.new) }
    ensures told { S.tells shelf.old → S.tells shelf.new }
    ensures still { S.tells shelf.old → IsStill (S.world shelf.old) (S.world shelf.new) }
    ensures fault { IsErrOf result (Stops DiskFault) → HasRisen (S.counts shelf.old).disk (S.counts shelf.new).disk }
    ensures beside { IfOk result (IsBeside (S.tells shelf.old) (S.world shelf.old).now.seen found.now.slots found.now.root current.now) }
    ensures refused { (r : Refusal) → IsErrOf result (No r) → IsRefusedRoot r ⊎ ((r ≡ BadRoot 8) × ((block : List ℕ) × (current.now.head.saved ≡ Some block))) }
{
    let Some(block) = &current.head.saved else {
        return Ok(None);
    };
    let Some(uber) = saved_uber(&found.root, current.parts.ckpt, block.as_slice()) else {
        return Err(Fault::No(Refusal::BadRoot { rule: 8 }));
    };
    let place = Found {
        root: uber,
        slots: own_slots(&found.slots, &uber),
    };
    let root = match read_saved(alloc, shelf, &place, current) {
        Ok(root) => root,
        Err(error) => return Err(fault_of(error)),
    };
    open_saved(alloc, &place, &root)?;
    Ok(Some(SavedRoot { uber, root }))
}
