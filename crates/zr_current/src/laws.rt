//! The laws, as calls that do nothing: a caller learns them by their contracts.
ghost use Rattle.std.specs.Prelude.{◌≡◌, ℕ, Bool, List, length, map, Some, Ok};
ghost use Rattle.zr_image.specs.Current.{FindsCurrent, ShowsAll, slots_of};
ghost use Rattle.zr_label.specs.Blocks.{IsUber};
ghost use Rattle.zr_label.specs.declared.root.Seen.{Seen};
ghost use Rattle.zr_label.specs.declared.root.Uber.{Uber};
ghost use Rattle.zr_shelf.specs.Moments.{World};
ghost use Rattle.zr_sync.specs.Commits.{IsNextRoot, IsShownFrom};
ghost use Rattle.zr_sync.specs.Pools.{IsOpen, IsSamePool};
ghost use Rattle.zr_sync.specs.Writes.{WritesIntoFree};
ghost use Rattle.zr_sync.specs.declared.open.OpenPool.{OpenPool};
ghost use Rattle.zr_current.specs.Current.{GoesOnFrom, HasSlots, IsCurrentOn, IsShownFor};

/// The root that a commit leaves is the one that its pool goes on from.
pub fn commit_goes_on()
    ensures { (old new : OpenPool) (reset : Bool) (u : Uber) → new.last ≡ Some u → IsNextRoot old reset u → IsSamePool old new → GoesOnFrom u new }
{}

/// Behind a commit that leaves the table of devices as it was, its root is the current one whatever is seen of the slots, no
/// other is, and each device is where the pool has it.
pub fn commit_is_current()
    ensures { (sizes : List ℕ) (pool : OpenPool) (reset : Bool) (last u : Uber) (before mid now : World) (seen : List Seen) → IsOpen sizes pool → GoesOnFrom last pool
        → map length before.now.seen ≡ sizes → ShowsAll before.now.seen seen → FindsCurrent seen (Ok last) → HasSlots (slots_of last seen) pool.table.slots
        → IsUber u → IsNextRoot pool reset u → WritesIntoFree pool before mid → IsShownFrom sizes pool u mid now → IsCurrentOn now.now.seen u pool }
{}

/// And something is seen of the slots there: they show that root as the current one.
pub fn commit_is_shown()
    ensures { (sizes : List ℕ) (pool : OpenPool) (reset : Bool) (last u : Uber) (before mid now : World) → IsOpen sizes pool → GoesOnFrom last pool → map length before.now.seen ≡ sizes → IsShownFor before.now.seen last pool
        → IsUber u → IsNextRoot pool reset u → WritesIntoFree pool before mid → IsShownFrom sizes pool u mid now → IsShownFor now.now.seen u pool }
{}

/// Where nothing but units was written, the slots show what they showed: so the current root stays the current one.
pub fn units_are_not_shown()
    ensures { (sizes : List ℕ) (pool : OpenPool) (before now : World) (u : Uber) → IsOpen sizes pool → map length before.now.seen ≡ sizes → WritesIntoFree pool before now → IsShownFor before.now.seen u pool → IsShownFor now.now.seen u pool }
{}
