//! Lines of a group, and the commit that ends it, by how the disks stand before each of them.
ghost use Rattle.std.specs.Prelude.{◌≡◌, ℕ, Bool, true, List, map, length};
ghost use Rattle.std.specs.FinMap as finite;
ghost use Rattle.zr_create.specs.Adding.{AddsInPart};
ghost use Rattle.zr_create.specs.Making.{HasNoRoot, MakesBehind};
ghost use Rattle.zr_current.specs.Current.{GoesOnFrom};
ghost use Rattle.zr_newest.specs.Newest.{IsNewestOn};
ghost use Rattle.zr_label.specs.declared.root.Uber.{Uber};
ghost use Rattle.zr_model.specs.Objects.{Objects};
ghost use Rattle.zr_rules.specs.Equation.{devices_in};
ghost use Rattle.zr_shelf.specs.Disks.{IsAtRest, Stand};
ghost use Rattle.zr_shelf.specs.Moments.{Throughout, World};
ghost use Rattle.zr_open.specs.Going.{PutsBack};
ghost use Rattle.zr_open.specs.There.{AreThere, IsReadable, StaysReadable, WillBeReadable};
ghost use Rattle.zr_stops.specs.Behind.{AreSameDisks, ShowsOnly, StandsBehind};
ghost use Rattle.zr_stops.specs.Either.{ShowsEither};
ghost use Rattle.zr_sync.specs.Ends.{ComesCommitted, EndsCommitted, LeavesCommitted};
ghost use Rattle.zr_last.specs.Last.{KeepsDevices, ShowsLast};
ghost use Rattle.zr_stops.specs.Last.{IsCommitted};
ghost use Rattle.zr_sync.specs.Leads.{CommitsObjects};
ghost use Rattle.zr_sync.specs.Objects.{HoldsObjects};
ghost use Rattle.zr_sync.specs.Pools.{IsOpen};
ghost use Rattle.zr_sync.specs.Trees.{HasLastTrees};
ghost use Rattle.zr_sync.specs.Writes.{WritesIntoFree};
ghost use Rattle.zr_sync.specs.declared.open.OpenPool.{OpenPool};
ghost use Rattle.zr_rules.specs.Space.{role_at};
ghost use Rattle.zr_vdev.specs.Stores.{is_open_role};

/// Behind a commit of a pool a group begins: where it left the pool committed, and where the root before it was the newest and is told to
/// stay readable, or where it was that of a pool that was made. Then whatever an honest crash shows are the objects of the commit. What is taken of the input, and what is
/// sent, does not matter.
pub fn a_commit_begins_a_group()
    ensures stood { (sizes : List ℕ) (u : Uber) (pool : OpenPool) (objects : Objects) (now : Stand) → IsCommitted sizes now u pool objects → GoesOnFrom u pool → StandsBehind sizes objects pool now }
    ensures shown { (sizes : List ℕ) (reset : Bool) (last : Uber) (old new : OpenPool) (objects : Objects) (before now : World) → IsOpen sizes old → GoesOnFrom last old → map length before.now.seen ≡ sizes → IsNewestOn before.now.seen last old.table.slots
        → WillBeReadable before.now.seen old → EndsCommitted sizes reset old new objects before now → StandsBehind sizes objects new now.now }
    ensures made { (sizes : List ℕ) (pool : OpenPool) (objects : Objects) (now : World) → ComesCommitted sizes pool objects now → ShowsLast now.now.seen pool → map length now.now.seen ≡ sizes → AreThere (devices_in pool.space) → StandsBehind sizes objects pool now.now }
    ensures shows { (sizes : List ℕ) (objects : Objects) (pool : OpenPool) (now : Stand) → StandsBehind sizes objects pool now → ShowsOnly objects now }
    ensures disks { (sizes : List ℕ) (objects : Objects) (pool : OpenPool) (a b : Stand) → AreSameDisks a b → StandsBehind sizes objects pool a → StandsBehind sizes objects pool b }
{}

/// A pool that stands as a commit left it begins a group too, where the disks show its last root, and it can be read there:
/// whatever an honest crash shows are the objects that it holds. So does one that was just opened.
pub fn a_pool_that_was_left_begins_a_group()
    ensures { (sizes : List ℕ) (objects : Objects) (pool : OpenPool) (now : Stand) → IsOpen sizes pool → map length now.seen ≡ sizes → ShowsLast now.seen pool → LeavesCommitted pool now → HoldsObjects (Unit {0}) now.seen pool objects → ((u : Uber) → GoesOnFrom u pool → IsReadable now.seen pool u)
        → StandsBehind sizes objects pool now }
{}

/// A line that writes into free units, behind which no others may be written, stays in its group, and whatever an honest crash
/// shows at each moment of it are the objects that were committed last.
pub fn a_line_stays_in_its_group()
    ensures stands { (sizes : List ℕ) (objects : Objects) (old new : OpenPool) (before now : World) → StandsBehind sizes objects old before.now → WritesIntoFree old before now
        → ((d u : ℕ) → is_open_role (role_at new.space d u) ≡ true → is_open_role (role_at old.space d u) ≡ true) → new.table ≡ old.table → new.last ≡ old.last → new.guid ≡ old.guid → StandsBehind sizes objects new now.now }
    ensures shows { (sizes : List ℕ) (objects : Objects) (old : OpenPool) (before now : World) → StandsBehind sizes objects old before.now → WritesIntoFree old before now → Throughout (ShowsOnly objects) before now }
{}

/// At each moment while a device joins a pool, whatever an honest crash shows are the objects that were committed last, or those
/// that the line commits. So it is too while the slot is prepared, whatever labels and roots it had.
pub fn a_device_joins()
    ensures { (sizes : List ℕ) (before after : Objects) (slot : ℕ) (old : OpenPool) (start now : World) → StandsBehind sizes before old start.now → IsOpen sizes old → WillBeReadable start.now.seen old → AddsInPart sizes after slot old start now → Throughout (ShowsEither before after) start now }
{}

/// A commit ends the group and begins the next one. At each moment of it, done or not, whatever an honest crash shows are the
/// objects that were committed last, or those that it commits, where its root is told to be readable. So it is too where the line changed
/// the pool in memory before, and left each device where it was and no other unit to be written.
pub fn a_commit_ends_its_group()
    ensures stands { (sizes : List ℕ) (reset : Bool) (before after : Objects) (old new : OpenPool) (start now : World) → StandsBehind sizes before old start.now → IsOpen sizes old → WillBeReadable start.now.seen old → EndsCommitted sizes reset old new after start now → StandsBehind sizes after new now.now }
    ensures shows { (sizes : List ℕ) (reset : Bool) (before after : Objects) (old new : OpenPool) (start now : World) → StandsBehind sizes before old start.now → IsOpen sizes old → WillBeReadable start.now.seen old → EndsCommitted sizes reset old new after start now → Throughout (ShowsEither before after) start now }
    ensures stops { (sizes : List ℕ) (reset : Bool) (before after : Objects) (old : OpenPool) (start now : World) → StandsBehind sizes before old start.now → IsOpen sizes old → WillBeReadable start.now.seen old → CommitsObjects (HasLastTrees start.now.seen old) sizes old reset after start now → Throughout (ShowsEither before after) start now }
    ensures turns { (told : Bool) (sizes : List ℕ) (reset : Bool) (before after : Objects) (old turned : OpenPool) (start now : World) → StandsBehind sizes before old start.now → KeepsDevices old turned → ((d u : ℕ) → is_open_role (role_at turned.space d u) ≡ true → is_open_role (role_at old.space d u) ≡ true)
        → IsOpen sizes turned → StaysReadable turned ((told ≡ true) × HasLastTrees start.now.seen old) → CommitsObjects ((told ≡ true) × HasLastTrees start.now.seen old) sizes turned reset after start now → Throughout (ShowsEither before after) start now }
{}

/// At each moment while a pool is gone back to, whatever an honest crash shows are the objects of the current root, or those of
/// the root that is put behind it.
pub fn a_pool_goes_back()
    ensures { (sizes : List ℕ) (before after : Objects) (read now : World) (h : PutsBack sizes before after read now) → Throughout (ShowsEither before after) read now }
{}

/// At each moment while a pool is made, on disks that show no root and where nothing was pending, whatever an honest crash shows has no
/// objects. No pool is made where one was committed.
pub fn a_pool_is_made()
    ensures shows { (sizes named : List ℕ) (start now : World) → IsAtRest start.now → map length start.now.seen ≡ sizes → MakesBehind sizes named start now → Throughout (ShowsOnly finite.empty) start now }
    ensures in_the_way { (sizes : List ℕ) (objects : Objects) (pool : OpenPool) (now : Stand) → StandsBehind sizes objects pool now → HasNoRoot now.seen → ⊥ }
{}
