//! Blocks that may be freed one after another are held before the first is.
//!
//! Whoever opens a root must know that the pointers that it met lead to units of their own, over removed devices or not. Each
//! pointer that is met is freed in a space that is thrown away: where all of them could be freed, no two led to one unit, no
//! obsolete unit was passed, and no entry was passed by more units than it has. Where then just what only the checkpoint has
//! is held, they led to each unit in use. So the space that the frees began from holds the blocks, and no others.
#![tactic(auto)]

ghost use Rattle.std.specs.Prelude.{ℕ, ◌*◌, List, [], length, map, Option, None, ◌≡◌, true};
ghost use Rattle.zr_base.specs.declared.space.Dva.{Dva};
ghost use Rattle.zr_base.specs.declared.space.SpaceParts.{SpaceParts};
ghost use Rattle.zr_bptr.specs.declared.Bptr.{Bptr};
ghost use Rattle.zr_cache.specs.declared.table.Cache.{Cache};
ghost use Rattle.zr_freed.specs.Chains.{AreInUse, FreesInTurn, HasSingleCopies, LeavesKept};
ghost use Rattle.zr_image.specs.Roots.{without_late};
ghost use Rattle.zr_obsolete.specs.Obsolete.{Fits};
ghost use Rattle.zr_rules.specs.Devices.{Devices};
ghost use Rattle.zr_rules.specs.Equation.{Spends};
ghost use Rattle.zr_rules.specs.Places.{part_of};
ghost use Rattle.zr_rules.specs.Resolve.{is_resolved};
ghost use Rattle.zr_rules.specs.Space.{Space};
ghost use Rattle.zr_space.specs.Opens.{IsOpened};
ghost use Rattle.zr_store.specs.Store.{Stored};
ghost use Rattle.zr_vdev.specs.Caches.{AreRead};
ghost use Rattle.zr_vdev.specs.Mounts.{AreMounted};
ghost use Rattle.zr_vdev.specs.Stores.{HoldsBlocks, LeadsToAll, addresses_of};
ghost use Rattle.zr_vdev.specs.declared.kind.Kind.TheVariants.{Block};
ghost use Rattle.zr_view.specs.Views.{address_bytes};

use zr_shelf::Shelf;

/// Where no entry has more obsolete units than units, no address at all spends more than there is.
pub fn nothing_is_spent()
    ensures { (s : Space) → ((d : ℕ) → Fits (part_of s.parts.devs d).entries (part_of s.parts.devs d).counts (part_of s.parts.devs d).fresh) → Spends s [] }
{}

/// Addresses that were freed one after another are in use where the frees began: each may be freed there by itself, no two
/// lead to one unit, and together they spend no more than there is.
pub fn freed_are_in_use()
    ensures { (birth : ℕ) (old new : Space) (list : List Dva) → Spends old [] → FreesInTurn birth old new list → AreInUse old list }
{}

/// Where no unit has the copies of two, and behind the frees just what was kept is held, they led to all that was in use where
/// they began: to each unit in use by blocks, and each copy was one of such a unit.
pub fn freed_lead_to_all()
    ensures { (birth : ℕ) (old new : Space) (list : List Dva) → HasSingleCopies old → LeavesKept old new → FreesInTurn birth old new list → LeadsToAll old list }
{}

/// So a store over the space where the frees began holds the blocks with these addresses, as its disks have them.
pub fn freed_are_held<S: Shelf>()
    ensures { (birth : ℕ) (shelf : S) (disks : List (List ℕ)) (slots : List (Option ℕ)) (cache : Cache) (old new : Space) (pointers : List Bptr) → S.tells shelf → AreRead disks slots old cache → Spends old [] → HasSingleCopies old → LeavesKept old new → FreesInTurn birth old new (addresses_of pointers)
        → (s : Stored) × HoldsBlocks Block slots (S.tells shelf) disks old None cache s × (s.pointers ≡ pointers) }
{}

/// A root may have several spaces: with other late sets, and beside whatever metadata of the root that it saved. What is in use in
/// one of them, beside nothing, is in use in each.
pub fn in_use_beside()
    ensures { (own parts : SpaceParts) (meta saved : List Dva) (old new : Space) (list : List Dva) → without_late own ≡ without_late parts → IsOpened own meta [] old → IsOpened parts meta saved new → AreInUse old list → AreInUse new list }
{}

/// And where they lead to all that is in use in one of them, they do in each. No unit has the copies of two there if none has here.
pub fn all_beside()
    ensures all { (own parts : SpaceParts) (meta saved : List Dva) (old new : Space) (list : List Dva) → without_late own ≡ without_late parts → IsOpened own meta [] old → IsOpened parts meta saved new → LeadsToAll old list → LeadsToAll new list }
    ensures single { (own parts : SpaceParts) (meta saved : List Dva) (old new : Space) → without_late own ≡ without_late parts → IsOpened own meta [] old → IsOpened parts meta saved new → HasSingleCopies new → HasSingleCopies old }
{}

/// An address that resolves over devices whose units stand on disks has all of its bytes there.
pub fn resolved_is_whole()
    ensures { (disks : List (List ℕ)) (sizes : List ℕ) (slots : List (Option ℕ)) (ds : Devices) (at : Dva) → map length disks ≡ sizes → AreMounted sizes slots ds → is_resolved ds at ≡ true → length (address_bytes (record { disks = disks; slots = slots; devices = ds }) at) ≡ 4096 * at.len }
{}
