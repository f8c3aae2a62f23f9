//! Going back to a checkpoint.
//!
//! The root that a checkpoint saved is written once more, as the current one: in the group behind, and as a reset. So what was
//! allocated since is free, and what was freed since is not. Nothing else is written. A device that was added since is no
//! device of the pool any more, and one that had gone by then is gone.
ghost use Rattle.std.specs.Prelude.{◌≡◌, ◌⊎◌, ◌+◌, ◌≤◌, ◌<◌, ◌^◌, length, Some, None, Ok, Err, IfOk, OnOk, IsErrOf};
ghost use Rattle.zr_base.specs.Counts.{HasRisen};
ghost use Rattle.zr_base.specs.declared.refusal.Refusal.{Refusal};
ghost use Rattle.zr_label.specs.Blocks.{IsUber};
ghost use Rattle.zr_last.specs.Last.{ShowsLast};
ghost use Rattle.zr_shelf.specs.Counts.{NoneFell};
ghost use Rattle.zr_store.specs.Store.{Stored};
ghost use Rattle.zr_sync.specs.Commits.{IsShownFrom, PublishesRoot};
ghost use Rattle.zr_sync.specs.Holds.{HasBlocks};
ghost use Rattle.zr_sync.specs.Pools.{IsOpen};
ghost use Rattle.zr_sync.specs.Trees.{HasTrees};
ghost use Rattle.zr_sync.specs.Trees.Stage.{Had};
ghost use Rattle.zr_sync.specs.Writes.{WorksOnDisks};
ghost use Rattle.zr_sync.specs.declared.fault.Fault.TheVariants.{No, Stops};
ghost use Rattle.zr_sync.specs.declared.stop.Stop.TheVariants.{DiskFault};
ghost use Rattle.zr_base.specs.declared.refusal.Refusal.TheVariants.{NoCheckpoint};
ghost use Rattle.zr_image.specs.Current.{slots_of};
ghost use Rattle.zr_label.specs.declared.root.Uber.{Uber};
ghost use Rattle.zr_open.specs.Flushed.{FlushesOnly};
ghost use Rattle.zr_open.specs.Found.{FindsOn};
ghost use Rattle.zr_open.specs.Going.{RewindsInPart};
ghost use Rattle.zr_open.specs.Left.{IsLeftCommitted};
ghost use Rattle.zr_open.specs.Opened.{CoversOwed, IsRefusedRoot, IsRefusedSaved};
ghost use Rattle.zr_open.specs.Rewound.{HasNoSaved, HoldsSaved, IsRewound, IsShownBehind, ShowsNoSaved, rewound};

use crate::imports::settle;
use crate::look::look;
use crate::pool::open;
use std::alloc::Global;
use zr_base::Refusal;
use zr_label::Uber;
use zr_roots::own_slots;
use zr_shelf::Shelf;
use zr_slots::{Found, publish, slots_in_both};
use zr_sync::{Fault, OpenPool, Stop};

// The saved root in a later group, which is a reset. One of the first form names no reset, and stays of that form.
pub(crate) fn rewound(saved: &Uber, txg: u64) -> Uber
    requires lawful { IsUber saved.now }
    requires later { saved.now.txg ≤ txg }
    ensures is { result ≡ rewound saved.now txg }
    ensures lawful { IsUber result }
{
    let mut root = *saved;
    root.txg = txg;
    root.reset = if saved.reset == 0 { 0 } else { txg };
    root
}

// Publishes the root of a pool in the slots of its devices, first where the current root's devices are too.
pub(crate) fn show<S: Shelf>(
    alloc: Global,
    shelf: &mut S,
    current: &Uber,
    pool: &OpenPool,
    root: &Uber,
) -> Result<(), Stop>
    requires pool { IsOpen (S.sizes shelf.old) pool.now }
    requires lawful { IsUber root.now }
    requires count { root.now.count ≡ pool.now.table.count }
    requires rows { root.now.rows ≡ pool.now.table.rows }
    requires few { current.now.count ≤ 32 }
    ensures sizes { S.sizes shelf.new ≡ S.sizes shelf.old }
    ensures none_fell { NoneFell (S.counts shelf.old) (S.counts shelf.new) }
    ensures told { S.tells shelf.old → S.tells shelf.new }
    ensures disks { S.tells shelf.old → WorksOnDisks (S.world shelf.old) (S.world shelf.new) }
    ensures fault { IsErrOf result DiskFault → HasRisen (S.counts shelf.old).disk (S.counts shelf.new).disk }
    ensures shown { S.tells shelf.old → OnOk result (IsShownFrom (S.sizes shelf.old) (record pool.now { last = Some current.now }) root.now (S.world shelf.old) (S.world shelf.new)) }
    ensures stops { S.tells shelf.old → PublishesRoot (S.sizes shelf.old) (record pool.now { last = Some current.now }) root.now (S.world shelf.old) (S.world shelf.new) }
    ensures keeps { (s : Stored) → HasBlocks (S.tells shelf.old) (S.world shelf.old).now.seen pool.now s → HasBlocks (S.tells shelf.new) (S.world shelf.new).now.seen pool.now s }
{
    let both = slots_in_both(alloc, current, root, &pool.table.slots)?;
    let all = slots_in_both(alloc, root, root, &pool.table.slots)?;
    publish(shelf, both.as_slice(), all.as_slice(), root)?;
    Ok(())
}

/// Goes back to the checkpoint that the pool holds, and opens it.
///
/// It makes all durable first and reads what `import` reads, and then writes the saved root once more, with a flush before,
/// between and behind. What it answers but Ok has written nothing, or stops the run.
pub fn rewind<S: Shelf>(alloc: Global, shelf: &mut S) -> Result<OpenPool, Fault>
    requires slots { length (S.sizes shelf.old) ≤ 32 }
    ensures sizes { S.sizes shelf.new ≡ S.sizes shelf.old }
    ensures none_fell { NoneFell (S.counts shelf.old) (S.counts shelf.new) }
    ensures told { S.tells shelf.old → S.tells shelf.new }
    ensures disks { S.tells shelf.old → WorksOnDisks (S.world shelf.old) (S.world shelf.new) }
    ensures fault { IsErrOf result (Stops DiskFault) → HasRisen (S.counts shelf.old).disk (S.counts shelf.new).disk }
    ensures pool { IfOk result (IsOpen (S.sizes shelf.new)) }
    ensures rewound { IfOk result (λ pool. (u : Uber) × (at : FindsOn (S.sizes shelf.old) (S.tells shelf.old) (S.world shelf.old).now.seen (Ok u)) × IsRewound (S.tells shelf.old) (S.world shelf.old).now.seen (slots_of u at.seen) u pool) }
    ensures shown { S.tells shelf.old → IfOk result (λ pool. (u : Uber) × FindsOn (S.sizes shelf.old) (S.tells shelf.old) (S.world shelf.old).now.seen (Ok u) × IsShownBehind (S.sizes shelf.old) u pool (S.world shelf.old) (S.world shelf.new)) }
    ensures objects { S.tells shelf.old → IfOk result (HoldsSaved (S.world shelf.old).now.paths (S.world shelf.old).now.seen (S.tells shelf.new) (S.world shelf.new).now.seen) }
    ensures last { S.tells shelf.old → IfOk result (ShowsLast (S.world shelf.new).now.seen) }
    ensures leaves { S.tells shelf.old → IfOk result (IsLeftCommitted (S.world shelf.new).now) }
    ensures trees { S.tells shelf.old → IfOk result (HasTrees Had (S.tells shelf.new) (S.world shelf.new).now.seen) }
    ensures room { IfOk result (λ pool. CoversOwed pool.space) }
    ensures groups { IfOk result (λ pool. pool.group.txg ≤ 2 ^ 63 + 1) }
    ensures refused { (r : Refusal) → IsErrOf result (No r) → FindsOn (S.sizes shelf.old) (S.tells shelf.old) (S.world shelf.old).now.seen (Err r) ⊎ (IsRefusedRoot r ⊎ ((u : Uber) × (at : FindsOn (S.sizes shelf.old) (S.tells shelf.old) (S.world shelf.old).now.seen (Ok u)) × (IsRefusedSaved (S.tells shelf.old) (S.world shelf.old).now.seen (slots_of u at.seen) u r ⊎ ((r ≡ NoCheckpoint) × HasNoSaved (S.tells shelf.old) (S.world shelf.old).now.seen (slots_of u at.seen) u)))) }
    ensures unsaved { S.tells shelf.old → IsErrOf result (No NoCheckpoint) → ShowsNoSaved (S.world shelf.old).now.paths (S.world shelf.old).now.seen }
    ensures flushes { S.tells shelf.old → (r : Refusal) → IsErrOf result (No r) → FlushesOnly (S.world shelf.old) (S.world shelf.new) }
    ensures reads { S.tells shelf.old → (r : Refusal) → IsErrOf result (No r) → (S.world shelf.new).now.seen ≡ (S.world shelf.old).now.seen }
    ensures stops { S.tells shelf.old → RewindsInPart (S.sizes shelf.old) (S.world shelf.old) (S.world shelf.new) }
{
    settle(shelf)?;
    let looked = look(alloc, shelf)?;
    let found = looked.found;
    let Some(mut saved) = looked.into_saved() else {
        return Err(Fault::No(Refusal::NoCheckpoint));
    };
    let root = rewound(&saved.uber, found.root.txg + 1);
    let place = Found {
        root,
        slots: own_slots(&found.slots, &root),
    };
    saved.root.reset(alloc)?;
    let pool = open(alloc, &place, &saved.root, &[], None)?;
    show(alloc, shelf, &found.root, &pool, &root)?;
    Ok(pool)
}
