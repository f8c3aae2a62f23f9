//! The laws, as calls that do nothing: a caller learns them by their contracts.
ghost use Rattle.std.specs.Prelude.{◌≡◌, ℕ, ◌<◌, Bool, true, List, [], length, map, None};
ghost use Rattle.zr_beside.specs.Beside.{Standing};
ghost use Rattle.zr_current.specs.Current.{GoesOnFrom, IsShownFor};
ghost use Rattle.zr_label.specs.declared.root.Uber.{Uber};
ghost use Rattle.zr_model.specs.Objects.{Objects};
ghost use Rattle.zr_model.specs.State.{PoolState};
ghost use Rattle.zr_newest.specs.Newest.{IsNewestOn};
ghost use Rattle.zr_open.specs.Left.{RecordsParts};
ghost use Rattle.zr_open.specs.Shown.{Shows};
ghost use Rattle.zr_open.specs.There.{AreThere};
ghost use Rattle.zr_recorded.specs.Crashes.{ShowsPool};
ghost use Rattle.zr_recorded.specs.Found.{StandsFound};
ghost use Rattle.zr_recorded.specs.Service.{AreInService, IsWhole};
ghost use Rattle.zr_root.specs.Streams.{HasWords};
ghost use Rattle.zr_roots.specs.Standing.{image_of};
ghost use Rattle.zr_rules.specs.Equation.{devices_in};
ghost use Rattle.zr_rules.specs.Space.{role_at};
ghost use Rattle.zr_shelf.specs.Disks.{Stand};
ghost use Rattle.zr_shelf.specs.Moments.{Throughout, World};
ghost use Rattle.zr_stops.specs.Behind.{AreSameDisks, StandsBehind};
ghost use Rattle.zr_stops.specs.Last.{IsCommitted};
ghost use Rattle.zr_sync.specs.Ends.{EndsCommitted};
ghost use Rattle.zr_sync.specs.Heads.{HasHead};
ghost use Rattle.zr_sync.specs.Mappings.{cond_stream};
ghost use Rattle.zr_sync.specs.Objects.{HoldsObjects};
ghost use Rattle.zr_sync.specs.Pools.{IsOpen};
ghost use Rattle.zr_sync.specs.States.{HoldsState};
ghost use Rattle.zr_sync.specs.Streams.{streams_at};
ghost use Rattle.zr_sync.specs.Trees.{HasLastTrees, HasTrees, HoldsStreams, Place, Stage, stream_in};
ghost use Rattle.zr_sync.specs.Trees.Stage.{Had, Recorded};
ghost use Rattle.zr_sync.specs.Writes.{WritesIntoFree};
ghost use Rattle.zr_sync.specs.declared.mappings.MappingStream.{MappingStream};
ghost use Rattle.zr_sync.specs.declared.open.OpenPool.{OpenPool};
ghost use Rattle.zr_vdev.specs.Stores.{KeepsOthers, is_open_role};
ghost use Rattle.zr_vdev.specs.declared.kind.Kind.TheVariants.{Block};

use zr_shelf::Shelf;

/// The words of each stream of a pool of devices that are there are read on the bare devices of its last root.
pub fn a_stream_is_read<S: Shelf>()
    ensures { (shelf : S) (disks : List (List ℕ)) (sizes : List ℕ) (u : Uber) (pool : OpenPool) (stage : ℕ → Place → Stage) (cond : MappingStream → Stage) (others : List Standing) → IsOpen sizes pool → AreThere (devices_in pool.space) → GoesOnFrom u pool
        → (h : HoldsStreams stage cond others (S.tells shelf) disks pool) → (dev : ℕ) (place : Place) → dev < pool.table.count → HasWords (image_of disks pool.table.slots u) (stream_in place (streams_at pool dev)) (h.words dev place) }
{}

/// So are those of a condensing.
pub fn a_condensing_is_read<S: Shelf>()
    ensures { (shelf : S) (disks : List (List ℕ)) (sizes : List ℕ) (u : Uber) (pool : OpenPool) (stage : ℕ → Place → Stage) (cond : MappingStream → Stage) (others : List Standing) → IsOpen sizes pool → AreThere (devices_in pool.space) → GoesOnFrom u pool
        → (h : HoldsStreams stage cond others (S.tells shelf) disks pool) → (which : MappingStream) → HasWords (image_of disks pool.table.slots u) (cond_stream which pool.cond) (h.cond which) }
{}

/// Where all devices are in service, the words that a commit has recorded record the parts of the pool's space: what an import
/// of its root finds there.
pub fn recorded_streams_record_parts()
    ensures { (disks : List (List ℕ)) (sizes : List ℕ) (u : Uber) (pool : OpenPool) → IsOpen sizes pool → GoesOnFrom u pool → AreInService u pool → HasTrees Recorded (Unit {0}) disks pool → (r : RecordsParts disks u pool) × (r.parts ≡ pool.space.parts) }
{}

/// So where no root is saved and nothing has changed since the last one, which the slots show and at which the pool's head stands,
/// the disks show a pool with the objects that it holds.
pub fn a_pool_is_shown()
    ensures { (paths disks : List (List ℕ)) (sizes : List ℕ) (u : Uber) (pool : OpenPool) (objects : Objects) → IsOpen sizes pool → GoesOnFrom u pool → AreInService u pool → pool.saved ≡ None → pool.group.objects ≡ []
        → IsShownFor disks u pool → HasHead disks pool u.root u.len → HasTrees Recorded (Unit {0}) disks pool → HoldsObjects (Unit {0}) disks pool objects
        → (p : PoolState) × Shows paths disks p × HoldsState (Unit {0}) disks pool p × (p.objects ≡ objects) }
{}

/// While the group of such a pool is open, whatever a crash leaves at any moment shows a pool with the objects of the last root:
/// after a stop there is a pool to import.
pub fn a_crash_shows_the_pool()
    ensures { (paths : List (List ℕ)) (sizes : List ℕ) (u : Uber) (pool : OpenPool) (objects : Objects) (before now : World) → IsCommitted sizes before.now u pool objects → GoesOnFrom u pool → AreInService u pool → pool.saved ≡ None
        → IsShownFor before.now.seen u pool → HasHead before.now.seen pool u.root u.len → HasTrees Recorded (Unit {0}) before.now.seen pool → WritesIntoFree pool before now
        → Throughout (ShowsPool paths objects) before now }
{}

/// Where the trees of a pool's streams stand on its disks before a commit, as a run tells it, then behind the commit whatever a crash leaves
/// while the next group is open shows a pool with the objects that were committed.
pub fn a_commit_is_shown_after_a_crash()
    ensures { (paths : List (List ℕ)) (sizes : List ℕ) (reset : Bool) (last : Uber) (old new : OpenPool) (objects : Objects) (before after now : World) → IsOpen sizes old → GoesOnFrom last old → map length before.now.seen ≡ sizes → IsNewestOn before.now.seen last old.table.slots
        → IsShownFor before.now.seen last old → HasTrees Had (Unit {0}) before.now.seen old → EndsCommitted sizes reset old new objects before after → IsWhole new → new.saved ≡ None → WritesIntoFree new after now
        → Throughout (ShowsPool paths objects) after now }
{}

/// Behind a commit that an import finds, whatever a crash leaves between two lines shows a pool, with the objects of that commit. The slots show
/// the root that the pool goes on from.
pub fn a_found_commit_is_shown()
    ensures pool { (paths : List (List ℕ)) (sizes : List ℕ) (objects : Objects) (pool : OpenPool) (now : Stand) → StandsFound sizes objects pool now → ShowsPool paths objects now }
    ensures slots { (sizes : List ℕ) (objects : Objects) (u : Uber) (pool : OpenPool) (now : Stand) → StandsFound sizes objects pool now → GoesOnFrom u pool → IsShownFor now.seen u pool }
{}

/// A line that writes into free units, behind which no others may be written, leaves that commit to be found, and whatever a crash leaves at each moment of
/// the line shows a pool with its objects. What is taken of the input, and what is sent, does not matter.
pub fn a_line_keeps_it_found()
    ensures stands { (sizes : List ℕ) (objects : Objects) (old new : OpenPool) (before now : World) → StandsFound sizes objects old before.now → WritesIntoFree old before now
        → ((d u : ℕ) → is_open_role (role_at new.space d u) ≡ true → is_open_role (role_at old.space d u) ≡ true) → new.table ≡ old.table → new.last ≡ old.last → new.guid ≡ old.guid → StandsFound sizes objects new now.now }
    ensures shows { (paths : List (List ℕ)) (sizes : List ℕ) (objects : Objects) (old : OpenPool) (before now : World) → StandsFound sizes objects old before.now → WritesIntoFree old before now → Throughout (ShowsPool paths objects) before now }
    ensures disks { (sizes : List ℕ) (objects : Objects) (pool : OpenPool) (a b : Stand) → AreSameDisks a b → StandsFound sizes objects pool a → StandsFound sizes objects pool b }
{}

/// A commit is found by an import where all that an import reads of it stands there, each device of the pool is in service, and no root is saved. So it is where
/// the trees of the pool's streams stood on its disks before, and the slots showed the last root: the first commit of which that is known, one that ends the group behind
/// some commit, and one that ends the group behind a commit that is found itself. That the slots show its root needs no more than that they showed the last one.
pub fn a_commit_is_found()
    ensures stood { (sizes : List ℕ) (u : Uber) (pool : OpenPool) (objects : Objects) (now : Stand) → IsCommitted sizes now u pool objects → GoesOnFrom u pool → AreInService u pool → pool.saved ≡ None
        → IsShownFor now.seen u pool → HasHead now.seen pool u.root u.len → HasTrees Recorded (Unit {0}) now.seen pool → StandsFound sizes objects pool now }
    ensures first { (sizes : List ℕ) (reset : Bool) (last : Uber) (old new : OpenPool) (objects : Objects) (before now : World) → IsOpen sizes old → GoesOnFrom last old → map length before.now.seen ≡ sizes → IsNewestOn before.now.seen last old.table.slots
        → IsShownFor before.now.seen last old → HasLastTrees before.now.seen old → EndsCommitted sizes reset old new objects before now → IsWhole new → new.saved ≡ None → StandsFound sizes objects new now.now }
    ensures shown { (sizes : List ℕ) (reset : Bool) (last u : Uber) (old new : OpenPool) (objects : Objects) (before now : World) → IsOpen sizes old → GoesOnFrom last old → map length before.now.seen ≡ sizes
        → IsShownFor before.now.seen last old → EndsCommitted sizes reset old new objects before now → GoesOnFrom u new → IsShownFor now.now.seen u new }
    ensures behind { (sizes : List ℕ) (reset : Bool) (before after : Objects) (last : Uber) (old new : OpenPool) (start now : World) → StandsBehind sizes before old start.now → IsOpen sizes old → GoesOnFrom last old
        → IsShownFor start.now.seen last old → HasLastTrees start.now.seen old → EndsCommitted sizes reset old new after start now → IsWhole new → new.saved ≡ None → StandsFound sizes after new now.now }
    ensures next { (sizes : List ℕ) (reset : Bool) (before after : Objects) (old new : OpenPool) (start now : World) → StandsFound sizes before old start.now → IsOpen sizes old
        → HasLastTrees start.now.seen old → EndsCommitted sizes reset old new after start now → IsWhole new → new.saved ≡ None → StandsFound sizes after new now.now }
{}

/// A pool that is whole behind a line that stores and frees blocks was so before it, and one that is so behind a commit was so before that: units that are
/// obsolete, or kept for a checkpoint, stay so. Nothing is said the other way: a free may make units obsolete, or keep them.
pub fn a_whole_pool_was_whole()
    ensures line { (sizes : List ℕ) (old new : OpenPool) → IsOpen sizes old → KeepsOthers Block old.space new.space → new.table ≡ old.table → IsWhole new → IsWhole old }
    ensures commit { (sizes : List ℕ) (reset : Bool) (old new : OpenPool) (objects : Objects) (before now : World) → IsOpen sizes old → EndsCommitted sizes reset old new objects before now → IsWhole new → IsWhole old }
{}

/// A root is saved exactly while a checkpoint is held: so where the account of two pools has the same of checkpoints, as over a line or a commit, and the one has no saved root,
/// the other has none.
pub fn a_saved_root_goes_with_its_checkpoint()
    ensures { (sizes : List ℕ) (old new : OpenPool) → IsOpen sizes old → IsOpen sizes new → new.space.parts.ckpt ≡ old.space.parts.ckpt → new.saved ≡ None → old.saved ≡ None }
{}
