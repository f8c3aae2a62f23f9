//! The laws, as calls that do nothing: a caller learns them by their contracts.
ghost use Rattle.std.specs.Prelude.{◌≡◌, ℕ, List};
ghost use Rattle.zr_base.specs.declared.space.Dva.{Dva};
ghost use Rattle.zr_bptr.specs.declared.Ptr.{Ptr};
ghost use Rattle.zr_current.specs.Current.{GoesOnFrom, HasSlots};
ghost use Rattle.zr_image.specs.Current.{slots_of};
ghost use Rattle.zr_image.specs.Reading.{store_of};
ghost use Rattle.zr_image.specs.StateOf.{AreObjects};
ghost use Rattle.zr_label.specs.declared.root.Uber.{Uber};
ghost use Rattle.zr_model.specs.State.{PoolState};
ghost use Rattle.zr_open.specs.Shown.{Shows};
ghost use Rattle.zr_open.specs.There.{IsReadable};
ghost use Rattle.zr_space.specs.Drops.{IsMeta};
ghost use Rattle.zr_sync.specs.Heads.{HasDirectory};
ghost use Rattle.zr_sync.specs.Moves.{TellsMoves};
ghost use Rattle.zr_sync.specs.Pools.{IsOpen};
ghost use Rattle.zr_sync.specs.declared.open.OpenPool.{OpenPool};
ghost use Rattle.zr_vdev.specs.Runs.{view_of};
ghost use Rattle.zr_view.specs.Views.{address_bytes};

/// Whatever pool the disks show by the root of an open pool, which can be read there and leads to a head with the pool's directory, has the objects of that
/// directory as the pool's own mappings lead to them.
pub fn a_readable_root_means_its_objects()
    ensures { (paths disks : List (List ℕ)) (sizes : List ℕ) (u : Uber) (pool : OpenPool) (p : PoolState) → IsOpen sizes pool → GoesOnFrom u pool → IsReadable disks pool u → HasDirectory disks pool u.root u.len
        → (shows : Shows paths disks p) → shows.root.uber ≡ u → HasSlots (slots_of u shows.seen) pool.table.slots → AreObjects (store_of (view_of disks pool.table.slots pool.space)) pool.dir p.objects }
{}

/// What tells where the units of removed devices have moved stays while the metadata of the pool reads as it did.
pub fn what_tells_moves_stays()
    ensures { (disks image : List (List ℕ)) (pool : OpenPool) (root : Ptr) (len : ℕ) → ((a : Dva) → IsMeta pool.space a → address_bytes (view_of image pool.table.slots pool.space) a ≡ address_bytes (view_of disks pool.table.slots pool.space) a)
        → TellsMoves disks pool root len → TellsMoves image pool root len }
{}
