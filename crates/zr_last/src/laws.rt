//! The laws, as calls that do nothing: a caller learns them by their contracts.
ghost use Rattle.std.specs.Prelude.{◌≡◌, ℕ, ◌+◌, Bool, List, Option, Ok, IfSome, map, length};
ghost use Rattle.zr_current.specs.Current.{GoesOnFrom, HasSlots};
ghost use Rattle.zr_image.specs.Current.{FindsCurrent, ShowsAll, slots_of};
ghost use Rattle.zr_label.specs.Blocks.{IsUber};
ghost use Rattle.zr_label.specs.declared.root.Seen.{Seen};
ghost use Rattle.zr_label.specs.declared.root.Uber.{Uber};
ghost use Rattle.zr_newest.specs.Newest.{AreAt, HaveLabels, IsAbove, IsNewestOn};
ghost use Rattle.zr_shelf.specs.Moments.{World};
ghost use Rattle.zr_sync.specs.Commits.{IsNextRoot, IsShownFrom};
ghost use Rattle.zr_sync.specs.Pools.{IsOpen};
ghost use Rattle.zr_sync.specs.Writes.{WritesIntoFree};
ghost use Rattle.zr_sync.specs.declared.open.OpenPool.{OpenPool};
ghost use Rattle.zr_last.specs.Last.{KeepsLast, KeepsRoot, ShowsLast};

/// A pool that goes on from the current root that the slots show, with its devices where they show them.
pub fn found_is_last()
    ensures { (disks : List (List ℕ)) (seen : List Seen) (u : Uber) (pool : OpenPool) → ShowsAll disks seen → FindsCurrent seen (Ok u) → GoesOnFrom u pool → HasSlots (slots_of u seen) pool.table.slots → ShowsLast disks pool }
{}

/// Where nothing but units was written, and the pool has its last root and its devices still.
pub fn units_keep_last()
    ensures { (sizes : List ℕ) (old new : OpenPool) (before now : World) → IsOpen sizes old → map length before.now.seen ≡ sizes → WritesIntoFree old before now → KeepsRoot old new → KeepsLast before now old new }
{}

/// Behind a commit, as its clauses tell it, the disks show its root.
pub fn commit_keeps_last()
    ensures { (sizes behind : List ℕ) (old new : OpenPool) (reset : Bool) (before now : World) → IsOpen sizes old → IsOpen behind new → map length before.now.seen ≡ sizes → new.group.txg ≡ old.group.txg + 1 → IfSome new.last (IsNextRoot old reset)
        → IfSome new.last (λ u. (mid : World) × WritesIntoFree old before mid × IsShownFrom sizes old u mid now) → new.guid ≡ old.guid → new.table ≡ old.table → KeepsLast before now old new }
{}

/// A root that is published above all that stand is the newest, whichever root its slots had before, and wherever the labels say that its devices are.
pub fn publishes_newest()
    ensures { (sizes : List ℕ) (pool : OpenPool) (last : Option Uber) (u : Uber) (before now : World) (seen : List Seen) → IsOpen sizes pool → map length before.now.seen ≡ sizes → IsUber u → u.count ≡ pool.table.count → u.rows ≡ pool.table.rows
        → IsShownFrom sizes (record pool { last = last }) u before now → IsAbove before.now.seen u → HaveLabels before.now.seen seen → AreAt pool.table.slots u seen → IsNewestOn now.now.seen u pool.table.slots }
{}
