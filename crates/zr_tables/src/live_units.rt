//! Which units of an open pool are live, by the blocks that its disks hold.
ghost use Rattle.std.specs.Prelude.{◌≡◌, ℕ, List, Option, None, false};
ghost use Rattle.zr_audit.specs.Found.{AreMeta};
ghost use Rattle.zr_base.specs.declared.space.Dva.{Dva};
ghost use Rattle.zr_held.specs.Held.{HasObjects};
ghost use Rattle.zr_model.specs.Objects.{Objects};
ghost use Rattle.zr_rules.specs.Equation.{Adds, devices_in, live_hits};
ghost use Rattle.zr_rules.specs.Places.{is_leaving, one_if, state_of_dev};
ghost use Rattle.zr_rules.specs.Roles.{is_live_role};
ghost use Rattle.zr_rules.specs.Space.{role_at};
ghost use Rattle.zr_store.specs.Store.{Stored};
ghost use Rattle.zr_sync.specs.Holds.{HasBlocks};
ghost use Rattle.zr_sync.specs.Objects.{HoldsObjects, account_of};
ghost use Rattle.zr_sync.specs.declared.open.OpenPool.{OpenPool};
ghost use Rattle.zr_vdev.specs.Stores.{HoldsRead};
ghost use Rattle.zr_tables.specs.Audits.{AddsUp, metadata_of};
ghost use Rattle.zr_tables.specs.Walks.{AreLiveAddresses};

use zr_shelf::Shelf;

/// Where the disks hold the objects of a pool, its live units are those to which the blocks of its directory and of its
/// objects lead, each once: no unit to which nothing leads is taken, and no two blocks share one. So where no device is
/// leaving the units of the live blocks add up, and those of the pool do where its metadata is what is counted as such.
pub fn live_units_are_led_to<S: Shelf>()
    ensures once { (shelf : S) (disks : List (List ℕ)) (pool : OpenPool) (objects : Objects) (s : Stored) → HasBlocks (S.tells shelf) disks pool s → HasObjects s (account_of pool) objects → (live : List Dva) → AreLiveAddresses s pool.dir pool.group live → (d u : ℕ) → live_hits (devices_in pool.space) live d u ≡ one_if (is_live_role (role_at pool.space d u)) }
    ensures adds { (shelf : S) (disks : List (List ℕ)) (pool : OpenPool) (objects : Objects) (s : Stored) → HasBlocks (S.tells shelf) disks pool s → HasObjects s (account_of pool) objects → (live : List Dva) → AreLiveAddresses s pool.dir pool.group live → ((d : ℕ) → is_leaving (state_of_dev pool.space.parts.devs d) ≡ false) → Adds pool.space live None }
    ensures adds_up { (shelf : S) (disks : List (List ℕ)) (pool : OpenPool) (objects : Objects) → HoldsObjects (S.tells shelf) disks pool objects → ((d : ℕ) → is_leaving (state_of_dev pool.space.parts.devs d) ≡ false) → (s : Stored) → HoldsRead pool.table.slots (S.tells shelf) disks pool.space pool.cache s → AreMeta pool.space (metadata_of s pool) → AddsUp s pool }
{}
