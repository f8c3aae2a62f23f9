//! What an image of the disks means is what they show, and what they show behind a commit is what the pool held.
//!
//! Which objects there are depends on the directory alone, and on where its pointers lead. So two heads in one tree mean the
//! same objects, whatever else they tell, and it is enough that the slots lead to that tree.
ghost use Rattle.std.specs.Prelude.{◌≡◌, ℕ, Bool, List, [], All, length, map, None, Some, Ok};
ghost use Rattle.zr_base.specs.declared.space.Dva.{Dva};
ghost use Rattle.zr_base.specs.declared.space.SpaceParts.{SpaceParts};
ghost use Rattle.zr_image.specs.Current.{FindsCurrent, ShowsAll, slots_of};
ghost use Rattle.zr_image.specs.Reading.{store_of};
ghost use Rattle.zr_image.specs.Roots.{head_tree, rows_of};
ghost use Rattle.zr_image.specs.StateOf.{AreObjects, StateOf};
ghost use Rattle.zr_import.specs.declared.roots.Root.{Root};
ghost use Rattle.zr_label.specs.Blocks.{IsUber};
ghost use Rattle.zr_label.specs.declared.root.Seen.{Seen};
ghost use Rattle.zr_label.specs.declared.root.Uber.{Uber};
ghost use Rattle.zr_meta.specs.Heads.{IsHead, head_bytes};
ghost use Rattle.zr_model.specs.Objects.{Objects};
ghost use Rattle.zr_model.specs.State.{PoolState, Is};
ghost use Rattle.zr_root.specs.Streams.{HasBytes};
ghost use Rattle.zr_rules.specs.Equation.{devices_in};
ghost use Rattle.zr_shelf.specs.Moments.{World};
ghost use Rattle.zr_sync.specs.Commits.{IsNextRoot, IsShownFrom};
ghost use Rattle.zr_sync.specs.Heads.{HasHead, head_of};
ghost use Rattle.zr_sync.specs.Objects.{HoldsObjects};
ghost use Rattle.zr_sync.specs.Pools.{IsOpen, IsSamePool};
ghost use Rattle.zr_sync.specs.States.{HoldsState};
ghost use Rattle.zr_sync.specs.Trees.{HasTrees};
ghost use Rattle.zr_sync.specs.Trees.Stage.{Had};
ghost use Rattle.zr_sync.specs.Writes.{WritesIntoFree};
ghost use Rattle.zr_sync.specs.declared.open.OpenPool.{OpenPool};
ghost use Rattle.zr_vdev.specs.Runs.{view_of};
ghost use Rattle.zr_current.specs.Current.{GoesOnFrom, HasSlots, IsCurrentOn};
ghost use Rattle.zr_open.specs.Left.{LeavesObjects, LeavesRoot, RecordsDevices, RecordsParts};
ghost use Rattle.zr_roots.specs.Standing.{Stands, image_of};
ghost use Rattle.zr_open.specs.Opened.{IsFresh};
ghost use Rattle.zr_open.specs.Roots.{HasParts};
ghost use Rattle.zr_open.specs.Shown.{Shows};
ghost use Rattle.zr_open.specs.There.{AreThere, IsStillThere};

/// A pool that an image of the disks means, by all checks of an import in their order, is one that they show.
pub fn meant_is_shown()
    ensures { (paths disks : List (List ℕ)) (p : PoolState) → StateOf paths disks (Is p) → Shows paths disks p }
{}

/// The objects that an open pool with an empty group holds are those of its directory as the disks have it.
pub fn held_is_meant()
    ensures { (disks : List (List ℕ)) (pool : OpenPool) (objects : Objects) → pool.group.objects ≡ [] → HoldsObjects (Unit {0}) disks pool objects → AreObjects (store_of (view_of disks pool.table.slots pool.space)) pool.dir objects }
{}

/// The head of an open pool, which stands on the disks as the pool sees them, is the one that an import reads there: the
/// devices of the root are there, so each pointer leads where it leads by the pool's space.
pub fn head_is_read()
    ensures lawful { (disks : List (List ℕ)) (sizes : List ℕ) (u : Uber) (pool : OpenPool) → IsOpen sizes pool → AreThere (devices_in pool.space) → GoesOnFrom u pool → HasHead disks pool u.root u.len → IsHead (rows_of u) (head_of pool) }
    ensures bytes { (disks : List (List ℕ)) (sizes : List ℕ) (u : Uber) (pool : OpenPool) → IsOpen sizes pool → AreThere (devices_in pool.space) → GoesOnFrom u pool → HasHead disks pool u.root u.len → HasBytes (image_of disks pool.table.slots u) (head_tree u) (head_bytes (head_of pool)) }
{}

/// What the disks show is what an open pool of devices that are there holds, where its last root is the current one and leads to its head, and nothing has
/// changed since: so the objects that an import finds there are those that the pool held.
pub fn shown_is_held()
    ensures { (paths disks : List (List ℕ)) (sizes : List ℕ) (u : Uber) (pool : OpenPool) (objects : Objects) (p : PoolState) → IsOpen sizes pool → AreThere (devices_in pool.space) → GoesOnFrom u pool → pool.group.objects ≡ []
        → IsCurrentOn disks u pool → HasHead disks pool u.root u.len → HoldsObjects (Unit {0}) disks pool objects → Shows paths disks p → p.objects ≡ objects }
{}

/// What a commit of a pool of devices that are there left is what is shown: the pool that the disks show behind it, as an import finds it, has the objects that the
/// committed pool holds.
pub fn commit_is_found()
    ensures { (paths : List (List ℕ)) (sizes : List ℕ) (old new : OpenPool) (reset : Bool) (last u : Uber) (before mid now : World) (seen : List Seen) (objects : Objects) (p : PoolState) → IsOpen sizes old → GoesOnFrom last old
        → map length before.now.seen ≡ sizes → ShowsAll before.now.seen seen → FindsCurrent seen (Ok last) → HasSlots (slots_of last seen) old.table.slots
        → WritesIntoFree old before mid → IsShownFrom sizes old u mid now → IsNextRoot old reset u → IsOpen sizes new → AreThere (devices_in new.space) → IsSamePool old new → new.last ≡ Some u → new.group.objects ≡ []
        → HasHead now.now.seen new u.root u.len → HoldsObjects (Unit {0}) now.now.seen new objects → Shows paths now.now.seen p → p.objects ≡ objects }
{}

/// Whatever pool the disks show where an open pool has left its objects has these objects, if no device of what is shown is removed.
pub fn left_is_found()
    ensures { (paths disks : List (List ℕ)) (sizes : List ℕ) (pool : OpenPool) (objects : Objects) (p : PoolState) → IsOpen sizes pool → LeavesObjects disks pool objects → Shows paths disks p → All IsStillThere p.devs → p.objects ≡ objects }
{}

/// Where all devices are in service, nothing is condensed, and the words of each device's streams record a part, those of all
/// streams together record the parts.
pub fn streams_record_parts()
    ensures { (disks : List (List ℕ)) (u : Uber) (pool : OpenPool) (parts : SpaceParts) → GoesOnFrom u pool → pool.space.parts.cond ≡ None → parts.version ≡ u.version → parts.ckpt ≡ pool.space.parts.ckpt → parts.cond ≡ None
        → RecordsDevices (image_of disks pool.table.slots u) u.version pool.space.parts.ckpt 0 (rows_of u) pool.streams.items parts.devs → (h : RecordsParts disks u pool) × (h.parts ≡ parts) }
{}

/// Where the disks have all that an import reads of the last root of an open pool of devices that are there, they show a pool with the objects that it
/// holds, and whose checkpoint stands as its own does.
pub fn left_is_shown()
    ensures { (paths disks : List (List ℕ)) (sizes : List ℕ) (u : Uber) (pool : OpenPool) (objects : Objects) → IsOpen sizes pool → AreThere (devices_in pool.space) → LeavesRoot paths disks u pool → HoldsObjects (Unit {0}) disks pool objects
        → (p : PoolState) × Shows paths disks p × HoldsState (Unit {0}) disks pool p × (p.objects ≡ objects) }
{}

/// A pool that is opened from what stands in the trees of its root has these trees on its disks, as its root has them.
pub fn opened_has_trees()
    ensures { (disks : List (List ℕ)) (sizes : List ℕ) (u : Uber) (pool : OpenPool) (root : Root) (saved : List Dva) → IsUber u → IsOpen sizes pool → IsFresh u pool → IsHead (rows_of u) root.head → HasParts root saved pool → Stands disks pool.table.slots u root
        → HasTrees Had (Unit {0}) disks pool }
{}
