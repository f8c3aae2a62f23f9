//! What the devices hold of blocks goes on to the next store over them, what of it is said of units and addresses, which
//! devices are mounted over removals, and over what copies keep the bytes of their units.
ghost use Rattle.std.specs.Prelude.{◌≤◌, ◌≡◌, ◌↔◌, ℕ, Bool, List, [], Option, None, true, false};
ghost use Rattle.zr_base.specs.declared.space.Dva.{Dva};
ghost use Rattle.zr_cache.specs.declared.table.Cache.{Cache};
ghost use Rattle.zr_rules.specs.Equation.{devices_in, Spends};
ghost use Rattle.zr_rules.specs.Places.{address_hits, in_address, is_gone, is_leaving, state_of_dev};
ghost use Rattle.zr_rules.specs.Resolve.{leads_to};
ghost use Rattle.zr_rules.specs.Space.{Space};
ghost use Rattle.zr_rules.specs.Steps.{Cancels, Commits, Finishes, Leaves};
ghost use Rattle.zr_space.specs.Live.{IsLive, IsFreeable};
ghost use Rattle.zr_space.specs.Paths.{AreInService};
ghost use Rattle.zr_store.specs.Store.{Stored, Swaps, Now};
ghost use Rattle.zr_vdev.specs.Alike.{CopiesStand};
ghost use Rattle.zr_vdev.specs.Mounts.{AreMounted};
ghost use Rattle.zr_vdev.specs.Stores.{HoldsBlocks, KeepsOthers, addresses_of};
ghost use Rattle.zr_vdev.specs.declared.kind.Kind.{Kind};
ghost use Rattle.zr_vdev.specs.declared.kind.Kind.TheVariants.{Meta};

use zr_shelf::Shelf;

/// A store that begins over the same devices holds what the one before it held. What is held is held as well on a shelf
/// that is told later of the same disks.
pub fn held_by_the_next<S: Shelf>()
    ensures anew { (shelf : S) (kind : Kind) (slots : List (Option ℕ)) (disks : List (List ℕ)) (space : Space) (lost : Option Dva) (cache : Cache) (s : Stored) → HoldsBlocks kind slots (S.tells shelf) disks space lost cache s → Now (HoldsBlocks kind slots (S.tells shelf) disks space None cache) (λ n. Swaps s n [] []) }
    ensures retold { (before later : S) (kind : Kind) (slots : List (Option ℕ)) (disks : List (List ℕ)) (space : Space) (lost : Option Dva) (cache : Cache) (s : Stored) → S.tells later → HoldsBlocks kind slots (S.tells before) disks space lost cache s → HoldsBlocks kind slots (S.tells later) disks space lost cache s }
{}

/// No unit is in the addresses of two blocks that are held, also where these lead elsewhere.
pub fn held_apart<S: Shelf>()
    ensures { (shelf : S) (kind : Kind) (slots : List (Option ℕ)) (disks : List (List ℕ)) (space : Space) (lost : Option Dva) (cache : Cache) (s : Stored) → HoldsBlocks kind slots (S.tells shelf) disks space lost cache s → (d u : ℕ) → address_hits (addresses_of s.pointers) d u ≤ 1 }
{}

/// Where no device is leaving or gone an address may be freed just where it is live, it leads to its own units, and any
/// addresses spend no more than there is.
pub fn held_in_service()
    ensures used { (space : Space) (at : Dva) → AreInService (devices_in space) → IsFreeable space at ↔ IsLive space at }
    ensures own { (space : Space) (at : Dva) (d u : ℕ) → AreInService (devices_in space) → IsLive space at → leads_to (devices_in space) at d u ≡ true ↔ in_address at d u ≡ true }
    ensures spends { (space : Space) (list : List Dva) → AreInService (devices_in space) → Spends space list }
{}

/// Devices stay mounted while one of them leaves, when its removal is given up, and once it is gone.
pub fn mounted_over_removals()
    ensures leaves { (sizes : List ℕ) (slots : List (Option ℕ)) (old new : Space) (d : ℕ) → is_gone (state_of_dev old.parts.devs d) ≡ false → Leaves old new d → AreMounted sizes slots (devices_in old) → AreMounted sizes slots (devices_in new) }
    ensures cancels { (sizes : List ℕ) (slots : List (Option ℕ)) (old new : Space) (d : ℕ) → is_leaving (state_of_dev old.parts.devs d) ≡ true → Cancels old new d → AreMounted sizes slots (devices_in old) → AreMounted sizes slots (devices_in new) }
    ensures finishes { (sizes : List ℕ) (slots : List (Option ℕ)) (old new : Space) (d txg : ℕ) → Finishes old new d txg → AreMounted sizes slots (devices_in old) → AreMounted sizes slots (devices_in new) }
{}

/// Copies stand while a device's metadata is given back, over the end of a group, and where no device is leaving.
pub fn copies_over_commits()
    ensures metadata { (disks : List (List ℕ)) (slots : List (Option ℕ)) (old new : Space) → KeepsOthers Meta old new → CopiesStand disks slots old → CopiesStand disks slots new }
    ensures commits { (reset : Bool) (disks : List (List ℕ)) (slots : List (Option ℕ)) (old new : Space) → Commits reset old new → CopiesStand disks slots old → CopiesStand disks slots new }
    ensures none { (disks : List (List ℕ)) (slots : List (Option ℕ)) (s : Space) → ((d : ℕ) → is_leaving (state_of_dev s.parts.devs d) ≡ false) → CopiesStand disks slots s }
{}
