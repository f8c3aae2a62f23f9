//! Going back to a group that is kept.
//!
//! Behind the current root stand those of the groups before it. What such a root has is still there while its group is kept,
//! so it is looked at as the current one is, and written once more in the group behind that, as a reset. Which groups are kept
//! is told by the slots alone; the current root is looked at all the same, since without it there is no pool.
ghost use Rattle.std.specs.Prelude.{◌≡◌, ◌⊎◌, ◌+◌, ◌≤◌, ◌^◌, length, None, Ok, Err, Some, IfOk, IsErrOf};
ghost use Rattle.zr_base.specs.Counts.{HasRisen};
ghost use Rattle.zr_base.specs.declared.refusal.Refusal.{Refusal};
ghost use Rattle.zr_label.specs.declared.root.Uber.{Uber};
ghost use Rattle.zr_last.specs.Last.{ShowsLast};
ghost use Rattle.zr_shelf.specs.Counts.{NoneFell};
ghost use Rattle.zr_shelf.specs.Disks.{IsAtRest};
ghost use Rattle.zr_shelf.specs.Moments.{IsStill};
ghost use Rattle.zr_sync.specs.Commits.{IsShownFrom};
ghost use Rattle.zr_sync.specs.Pools.{IsOpen};
ghost use Rattle.zr_sync.specs.Trees.{HasTrees};
ghost use Rattle.zr_sync.specs.Trees.Stage.{Had};
ghost use Rattle.zr_sync.specs.Writes.{WorksOnDisks};
ghost use Rattle.zr_sync.specs.declared.fault.Fault.TheVariants.{No, Stops};
ghost use Rattle.zr_sync.specs.declared.stop.Stop.TheVariants.{DiskFault};
ghost use Rattle.zr_open.specs.Flushed.{FlushesOnly};
ghost use Rattle.zr_open.specs.Found.{FindsOn};
ghost use Rattle.zr_open.specs.Going.{GoesBackInPart, ResetsInPart};
ghost use Rattle.zr_open.specs.Groups.{HoldsGroup, HoldsRoot, IsBack, IsBackRefusal};
ghost use Rattle.zr_open.specs.Left.{IsLeftCommitted};
ghost use Rattle.zr_open.specs.Looked.{IsLookedAt, WasLookedAt};
ghost use Rattle.zr_open.specs.Opened.{CoversOwed, IsFresh, MayRefuse};
ghost use Rattle.zr_open.specs.Rewound.{rewound};
ghost use Rattle.zr_open.specs.Roots.{meta_of};

use crate::find::{Scanned, scan};
use crate::imports::settle;
use crate::look::{Looked, look_at};
use crate::pool::open;
use crate::rewinds::{rewound, show};
use crate::saved::{checkpoint_of, saved_meta};
use std::alloc::Global;
use zr_label::Uber;
use zr_shelf::Shelf;
use zr_slots::{Found, kept_root};
use zr_sync::{Fault, OpenPool};

// Opens a root that was looked at as the current one: one group above that, and as a reset.
fn reset<S: Shelf>(
    alloc: Global,
    shelf: &mut S,
    current: &Uber,
    then: &mut Looked,
) -> Result<OpenPool, Fault>
    requires looked { WasLookedAt (S.sizes shelf.old) then.old }
    requires below { then.old.found.root.txg ≤ current.now.txg }
    requires room { current.now.txg ≤ 2 ^ 63 }
    requires few { current.now.count ≤ 32 }
    ensures sizes { S.sizes shelf.new ≡ S.sizes shelf.old }
    ensures none_fell { NoneFell (S.counts shelf.old) (S.counts shelf.new) }
    ensures told { S.tells shelf.old → S.tells shelf.new }
    ensures disks { S.tells shelf.old → WorksOnDisks (S.world shelf.old) (S.world shelf.new) }
    ensures fault { IsErrOf result (Stops DiskFault) → HasRisen (S.counts shelf.old).disk (S.counts shelf.new).disk }
    ensures pool { IfOk result (IsOpen (S.sizes shelf.new)) }
    ensures fresh { IfOk result (IsFresh (rewound then.old.found.root (current.now.txg + 1))) }
    ensures shown { S.tells shelf.old → IfOk result (λ pool. IsShownFrom (S.sizes shelf.old) (record pool { last = Some current.now }) (rewound then.old.found.root (current.now.txg + 1)) (S.world shelf.old) (S.world shelf.new)) }
    ensures objects { S.tells shelf.old → IsLookedAt (S.sizes shelf.old) (Unit {0}) (S.world shelf.old).now.seen then.old → IfOk result (HoldsRoot (S.world shelf.old).now.seen (S.tells shelf.new) (S.world shelf.new).now.seen then.old) }
    ensures leaves { S.tells shelf.old → IsLookedAt (S.sizes shelf.old) (Unit {0}) (S.world shelf.old).now.seen then.old → IfOk result (IsLeftCommitted (S.world shelf.new).now) }
    ensures trees { S.tells shelf.old → IsLookedAt (S.sizes shelf.old) (Unit {0}) (S.world shelf.old).now.seen then.old → IfOk result (HasTrees Had (S.tells shelf.new) (S.world shelf.new).now.seen) }
    ensures placed { IfOk result (λ pool. pool.table.slots ≡ then.old.found.slots) }
    ensures room { IfOk result (λ pool. CoversOwed pool.space) }
    ensures groups { IfOk result (λ pool. pool.group.txg ≤ 2 ^ 63 + 1) }
    ensures refused { (r : Refusal) → IsErrOf result (No r) → MayRefuse (meta_of then.old.saved) r }
    ensures untouched { S.tells shelf.old → (r : Refusal) → IsErrOf result (No r) → IsStill (S.world shelf.old) (S.world shelf.new) }
    ensures stops { S.tells shelf.old → IsAtRest (S.world shelf.old).now → IsLookedAt (S.sizes shelf.old) (Unit {0}) (S.world shelf.old).now.seen then.old → ResetsInPart (S.sizes shelf.old) current.now then.old (S.world shelf.old) (S.world shelf.new) }
{
    let place = Found {
        root: rewound(&then.found.root, current.txg + 1),
        slots: then.found.slots,
    };
    let checkpoint = checkpoint_of(alloc, &then.root.head, &then.saved)?;
    then.root.reset(alloc)?;
    let pool = open(
        alloc,
        &place,
        &then.root,
        saved_meta(&then.saved),
        checkpoint,
    )?;
    show(alloc, shelf, current, &pool, &place.root)?;
    Ok(pool)
}

/// Opens the pool as a group that is kept left it. The group of the current root is opened as `import` does; the root of
/// a lower one is written once more, one group above the current one and as a reset.
///
/// It makes all durable first and reads what `import` reads, for a lower group twice. What it answers but Ok has written
/// nothing, or stops the run.
pub fn go_back<S: Shelf>(alloc: Global, shelf: &mut S, txg: u64) -> Result<OpenPool, Fault>
    requires slots { length (S.sizes shelf.old) ≤ 32 }
    ensures sizes { S.sizes shelf.new ≡ S.sizes shelf.old }
    ensures none_fell { NoneFell (S.counts shelf.old) (S.counts shelf.new) }
    ensures told { S.tells shelf.old → S.tells shelf.new }
    ensures disks { S.tells shelf.old → WorksOnDisks (S.world shelf.old) (S.world shelf.new) }
    ensures fault { IsErrOf result (Stops DiskFault) → HasRisen (S.counts shelf.old).disk (S.counts shelf.new).disk }
    ensures pool { IfOk result (IsOpen (S.sizes shelf.new)) }
    ensures back { IfOk result (IsBack (S.sizes shelf.old) (S.tells shelf.old) (S.world shelf.old).now.seen txg) }
    ensures objects { S.tells shelf.old → IfOk result (HoldsGroup (S.world shelf.old).now.paths (S.world shelf.old).now.seen txg (S.tells shelf.new) (S.world shelf.new).now.seen) }
    ensures last { S.tells shelf.old → IfOk result (ShowsLast (S.world shelf.new).now.seen) }
    ensures leaves { S.tells shelf.old → IfOk result (IsLeftCommitted (S.world shelf.new).now) }
    ensures trees { S.tells shelf.old → IfOk result (HasTrees Had (S.tells shelf.new) (S.world shelf.new).now.seen) }
    ensures room { IfOk result (λ pool. CoversOwed pool.space) }
    ensures groups { IfOk result (λ pool. pool.group.txg ≤ 2 ^ 63 + 1) }
    ensures refused { (r : Refusal) → IsErrOf result (No r) → FindsOn (S.sizes shelf.old) (S.tells shelf.old) (S.world shelf.old).now.seen (Err r) ⊎ ((u : Uber) × (at : FindsOn (S.sizes shelf.old) (S.tells shelf.old) (S.world shelf.old).now.seen (Ok u)) × IsBackRefusal (S.tells shelf.old) (S.world shelf.old).now.seen at.seen u txg r) }
    ensures flushes { S.tells shelf.old → (r : Refusal) → IsErrOf result (No r) → FlushesOnly (S.world shelf.old) (S.world shelf.new) }
    ensures reads { S.tells shelf.old → (r : Refusal) → IsErrOf result (No r) → (S.world shelf.new).now.seen ≡ (S.world shelf.old).now.seen }
    ensures stops { S.tells shelf.old → GoesBackInPart (S.sizes shelf.old) txg (S.world shelf.old) (S.world shelf.new) }
{
    settle(shelf)?;
    let Scanned { seen, found } = scan(alloc, shelf)?;
    let now = look_at(alloc, shelf, &found)?;
    let root = kept_root(seen.as_slice(), &found.root, txg)?;
    if txg == found.root.txg {
        return Ok(now.pool);
    }
    drop(now);
    let place = Found {
        root,
        slots: found.slots,
    };
    let mut then = look_at(alloc, shelf, &place)?;
    reset(alloc, shelf, &found.root, &mut then)
}
