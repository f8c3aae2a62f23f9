//! What was stored is stored behind the end of a removal.
//!
//! Once all that a device holds is copied it goes, and each address that led to it leads to the copies. These have the bytes
//! of their units, so each block reads as it did. The copies are units in use like others from then on.
#![tactic(auto)]

ghost use Rattle.std.specs.Prelude.{◌≡◌, ℕ, List, Option, [], None};
ghost use Rattle.zr_base.specs.declared.space.Dva.{Dva};
ghost use Rattle.zr_cache.specs.Entries.{entries};
ghost use Rattle.zr_cache.specs.declared.table.Cache.{Cache};
ghost use Rattle.zr_gone.specs.Order.{MayGo};
ghost use Rattle.zr_rules.specs.Space.{Space};
ghost use Rattle.zr_rules.specs.Steps.{Finishes};
ghost use Rattle.zr_store.specs.Store.{Now, Stored, Swaps};
ghost use Rattle.zr_space.specs.Live.{IsFreeable};
ghost use Rattle.zr_vdev.specs.Alike.{CopiesStand};
ghost use Rattle.zr_vdev.specs.Runs.{view_of};
ghost use Rattle.zr_vdev.specs.Stores.{HoldsBlocks};
ghost use Rattle.zr_vdev.specs.declared.kind.Kind.TheVariants.{Block};
ghost use Rattle.zr_view.specs.Views.{address_bytes};

use zr_shelf::Shelf;

/// An address that may be freed may be freed behind the end of a removal too, and its bytes are the same.
pub fn freeable_behind_the_end()
    ensures used { (old new : Space) (d txg : ℕ) (at : Dva) → MayGo old d txg → Finishes old new d txg → IsFreeable old at → IsFreeable new at }
    ensures bytes { (slots : List (Option ℕ)) (disks : List (List ℕ)) (old new : Space) (d txg : ℕ) (at : Dva) → MayGo old d txg → Finishes old new d txg → CopiesStand disks slots old → IsFreeable old at → address_bytes (view_of disks slots new) at ≡ address_bytes (view_of disks slots old) at }
{}

/// The blocks that are held are held behind the end of a removal, whatever was cached.
pub fn held_behind_the_end<S: Shelf>()
    ensures { (shelf : S) (slots : List (Option ℕ)) (disks : List (List ℕ)) (old new : Space) (d txg : ℕ) (cache empty : Cache) (s : Stored) → MayGo old d txg → Finishes old new d txg → CopiesStand disks slots old → entries empty ≡ [] → HoldsBlocks Block slots (S.tells shelf) disks old None cache s → Now (HoldsBlocks Block slots (S.tells shelf) disks new None empty) (λ n. Swaps s n [] []) }
{}
