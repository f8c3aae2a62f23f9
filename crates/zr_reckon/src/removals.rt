//! What the steps of a removal do to the counts.
ghost use Rattle.std.specs.Prelude.{◌≡◌, ℕ, ◌+◌, ◌<◌, ◌≤◌, length, true};
ghost use Rattle.zr_base.specs.Extents.{unit_count};
ghost use Rattle.zr_base.specs.declared.space.Policy.{Policy};
ghost use Rattle.zr_reckon.specs.Base.{base_words, LeavesAlone};
ghost use Rattle.zr_reckon.specs.Uses.{is_room_role, room, HasLateSets};
ghost use Rattle.zr_rules.specs.Columns.{role_count, sizes};
ghost use Rattle.zr_rules.specs.Places.{is_leaving, is_on, part_of, state_of_dev};
ghost use Rattle.zr_rules.specs.Space.{Space, IsLawful};
ghost use Rattle.zr_rules.specs.Steps.{Cancels, Copies, Finishes, Leaves};

/// A step of copying adds nine words at most: eight for its entry, and one where its units are held. As many units as it
/// copies go from the room, and from those that are yet to be copied.
pub fn a_copy_adds_nine_words()
    ensures words { (policy : Policy) (old new : Space) (d n blocks objects : ℕ) → Copies policy old new d n → IsLawful old → HasLateSets old → HasLateSets new
        → (sizes new blocks objects).words ≤ (sizes old blocks objects).words + 9 }
    ensures room { (policy : Policy) (old new : Space) (d n : ℕ) → Copies policy old new d n → IsLawful old → room new + n ≡ room old }
    ensures uncopied { (policy : Policy) (old new : Space) (d n blocks objects : ℕ) → Copies policy old new d n → IsLawful old → is_leaving (state_of_dev old.parts.devs d) ≡ true
        → (sizes new blocks objects).uncopied + n ≡ (sizes old blocks objects).uncopied }
    ensures others { (policy : Policy) (old new : Space) (d n blocks objects : ℕ) → Copies policy old new d n → IsLawful old
        → sizes new blocks objects ≡ record (sizes old blocks objects) { words = (sizes new blocks objects).words; uncopied = (sizes new blocks objects).uncopied } }
{}

/// A removal begins: the device's three further streams, all that it holds is to be copied, and its units go from the room.
/// No word is added.
pub fn a_removal_begins_with_all_to_copy()
    ensures words { (old new : Space) (d blocks objects : ℕ) → Leaves old new d → IsLawful old → HasLateSets old → HasLateSets new
        → (sizes new blocks objects).words ≤ (sizes old blocks objects).words }
    ensures streams { (old new : Space) (d blocks objects : ℕ) → Leaves old new d → d < length old.parts.devs → is_on (state_of_dev old.parts.devs d) ≡ true
        → (sizes new blocks objects).streams ≡ (sizes old blocks objects).streams + 3 }
    ensures gone { (old new : Space) (d blocks objects : ℕ) → Leaves old new d → is_on (state_of_dev old.parts.devs d) ≡ true
        → (sizes new blocks objects).gone ≡ (sizes old blocks objects).gone }
    ensures uncopied { (old new : Space) (d blocks objects : ℕ) → Leaves old new d → IsLawful old → d < length old.parts.devs → is_on (state_of_dev old.parts.devs d) ≡ true
        → (sizes new blocks objects).uncopied ≡ (sizes old blocks objects).uncopied + unit_count (part_of old.parts.devs d).held }
    ensures room { (old new : Space) (d : ℕ) → Leaves old new d → d < length old.parts.devs → is_on (state_of_dev old.parts.devs d) ≡ true
        → room new + role_count old is_room_role d ≡ room old }
    ensures past { (old new : Space) (d blocks objects : ℕ) → Leaves old new d → IsLawful old → (sizes new blocks objects).past ≡ (sizes old blocks objects).past }
{}

/// A device is gone: four streams fewer, one device more that a free may pass, and no word more. The room stays.
pub fn a_removal_ends_with_fewer_streams()
    ensures words { (old new : Space) (d txg blocks objects : ℕ) → Finishes old new d txg → IsLawful old → HasLateSets old → HasLateSets new
        → (sizes new blocks objects).words ≤ (sizes old blocks objects).words }
    ensures streams { (old new : Space) (d txg blocks objects : ℕ) → Finishes old new d txg → is_leaving (state_of_dev old.parts.devs d) ≡ true
        → (sizes new blocks objects).streams + 4 ≡ (sizes old blocks objects).streams }
    ensures gone { (old new : Space) (d txg blocks objects : ℕ) → Finishes old new d txg → is_leaving (state_of_dev old.parts.devs d) ≡ true
        → (sizes new blocks objects).gone ≡ (sizes old blocks objects).gone + 1 }
    ensures uncopied { (old new : Space) (d txg blocks objects : ℕ) → Finishes old new d txg → IsLawful old
        → (sizes new blocks objects).uncopied ≤ (sizes old blocks objects).uncopied }
    ensures room { (old new : Space) (d txg : ℕ) → Finishes old new d txg → is_leaving (state_of_dev old.parts.devs d) ≡ true → room new ≡ room old }
    ensures past { (old new : Space) (d txg blocks objects : ℕ) → Finishes old new d txg → IsLawful old
        → (sizes new blocks objects).past ≤ (sizes old blocks objects).past }
{}

/// A removal is given up. Its commit is a reset, so the words of what was freed count nowhere behind it; the others are no
/// more: an entry gives up eight words, and a mark its own, for two and one that copies which go may add to what is held.
/// The device has three streams fewer, nothing is left to copy, and units come to the room, or none.
pub fn giving_up_a_removal_adds_no_word()
    ensures words { (old new : Space) (d : ℕ) → Cancels old new d → IsLawful old → LeavesAlone old d → base_words new ≤ base_words old }
    ensures streams { (old new : Space) (d blocks objects : ℕ) → Cancels old new d → IsLawful old → LeavesAlone old d
        → (sizes new blocks objects).streams + 3 ≡ (sizes old blocks objects).streams }
    ensures uncopied { (old new : Space) (d blocks objects : ℕ) → Cancels old new d → IsLawful old → LeavesAlone old d → (sizes new blocks objects).uncopied ≡ 0 }
    ensures room { (old new : Space) (d : ℕ) → Cancels old new d → IsLawful old → LeavesAlone old d → room old ≤ room new }
    ensures past { (old new : Space) (d blocks objects : ℕ) → Cancels old new d → IsLawful old → LeavesAlone old d → (sizes new blocks objects).past ≡ (sizes old blocks objects).past }
{}
