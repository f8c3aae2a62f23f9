//! The laws, as calls that do nothing: a caller learns them by their contracts.
ghost use Rattle.std.specs.Prelude.{◌≡◌, ℕ, Bool, List, ◌∷◌, map, length};
ghost use Rattle.zr_label.specs.declared.root.Uber.{Uber};
ghost use Rattle.zr_model.specs.Objects.{Objects};
ghost use Rattle.zr_model.specs.State.{PoolState};
ghost use Rattle.zr_open.specs.Shown.{Shows};
ghost use Rattle.zr_current.specs.Current.{GoesOnFrom};
ghost use Rattle.zr_newest.specs.Newest.{IsNewestOn};
ghost use Rattle.zr_shelf.specs.Moments.{Throughout, World};
ghost use Rattle.zr_open.specs.There.{WillBeReadable};
ghost use Rattle.zr_sync.specs.Leads.{CommitsObjects};
ghost use Rattle.zr_sync.specs.Pools.{IsOpen};
ghost use Rattle.zr_sync.specs.Trees.{HasLastTrees};
ghost use Rattle.zr_sync.specs.Writes.{WritesIntoFree};
ghost use Rattle.zr_sync.specs.declared.open.OpenPool.{OpenPool};
ghost use Rattle.zr_stops.specs.Either.{CommitsGroup, ShowsEither};
ghost use Rattle.zr_vdev.specs.Stores.{KeepsOthers};
ghost use Rattle.zr_vdev.specs.declared.kind.Kind.TheVariants.{Block};
ghost use Rattle.zr_sync.specs.Ends.{EndsCommitted};
ghost use Rattle.zr_stops.specs.Follows.{Commit, FollowOn, ShowsAmong, Stood, last_of};
ghost use Rattle.zr_stops.specs.Groups.{IsInGroup};
ghost use Rattle.zr_stops.specs.Last.{HasLast, IsCommitted, LeavesLast};

/// A group begins where nothing was done yet.
pub fn a_group_begins()
    ensures { (pool : OpenPool) (now : World) → IsInGroup pool now pool now }
{}

/// What a line writes of blocks lies in units that were free when its group began.
pub fn lines_stay_in_their_group()
    ensures { (first old new : OpenPool) (start before now : World) → IsInGroup first start old before → WritesIntoFree old before now → KeepsOthers Block old.space new.space → new.table ≡ old.table → new.last ≡ old.last → new.guid ≡ old.guid
        → IsInGroup first start new now }
{}

/// Where nothing was written since a commit but units that were free then, whatever a crash leaves at any moment has the root
/// of the commit as the newest one, with its head and its objects.
pub fn a_group_leaves_the_last_root()
    ensures { (sizes : List ℕ) (u : Uber) (pool : OpenPool) (objects : Objects) (before now : World) → IsCommitted sizes before.now u pool objects → WritesIntoFree pool before now → Throughout (LeavesLast u pool objects) before now }
{}

/// Whatever pool an image shows that has the last root of a pool, its objects are those of that root.
pub fn the_last_root_is_shown()
    ensures { (paths image : List (List ℕ)) (sizes : List ℕ) (u : Uber) (pool : OpenPool) (objects : Objects) (p : PoolState) → IsOpen sizes pool → GoesOnFrom u pool
        → HasLast image u pool objects → Shows paths image p → p.objects ≡ objects }
{}

/// At each moment from where a group begins to where its root is published, whatever pool an honest crash shows has the objects
/// from before the group, or those that the group commits.
pub fn a_commit_leaves_one_of_two_states()
    ensures { (sizes : List ℕ) (last u : Uber) (first old new : OpenPool) (before after : Objects) (begin start mid now : World) → CommitsGroup sizes last u first old new before after begin start mid now
        → Throughout (ShowsEither before after) begin now }
{}

/// A commit of a pool whose last root was its newest on the disks, and is told to stay readable, leaves it committed, by what the commit says of its end: so the next group
/// begins as this one did.
pub fn a_commit_leaves_the_pool_committed()
    ensures { (sizes : List ℕ) (reset : Bool) (last : Uber) (old new : OpenPool) (objects : Objects) (before now : World) → IsOpen sizes old → GoesOnFrom last old → map length before.now.seen ≡ sizes → IsNewestOn before.now.seen last old.table.slots
        → WillBeReadable before.now.seen old → EndsCommitted sizes reset old new objects before now → (u : Uber) × GoesOnFrom u new × IsCommitted sizes now.now u new objects }
{}

/// Behind one commit after another, each with the lines of its group before it, the pool stands committed. At each moment from
/// the first of them on, whatever pool an honest crash shows has the objects behind one of them.
pub fn groups_follow()
    ensures stands { (sizes : List ℕ) (first : Commit) (more : List Commit) → Stood sizes first → FollowOn sizes first more → Stood sizes (last_of first more) }
    ensures shows { (sizes : List ℕ) (first : Commit) (more : List Commit) → Stood sizes first → FollowOn sizes first more → Throughout (ShowsAmong (map (λ (c : Commit). c.objects) (first ∷ more))) first.now (last_of first more).now }
{}

/// A commit that stops anywhere, before its root is published or while it is, leaves one of two states too: at each moment from
/// where the group begins, whatever pool an honest crash shows has the objects from before the group, or those that the commit
/// was of.
pub fn a_stopped_commit_leaves_one_of_two_states()
    ensures { (sizes : List ℕ) (reset : Bool) (last : Uber) (first old : OpenPool) (before after : Objects) (begin start now : World) → IsCommitted sizes begin.now last first before → GoesOnFrom last first
        → IsInGroup first begin old start → IsOpen sizes old → WillBeReadable start.now.seen old → CommitsObjects (HasLastTrees start.now.seen old) sizes old reset after start now → Throughout (ShowsEither before after) begin now }
{}
