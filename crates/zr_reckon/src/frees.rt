//! What a free of a block does to the counts.
ghost use Rattle.std.specs.Prelude.{◌≡◌, ℕ, ◌+◌, ◌*◌, ◌≤◌, false, true};
ghost use Rattle.zr_base.specs.declared.space.Dva.{Dva};
ghost use Rattle.zr_reckon.specs.Base.{base_words};
ghost use Rattle.zr_reckon.specs.Pieces.{IsFreeable};
ghost use Rattle.zr_reckon.specs.Uses.{room, dropped_units, AreInService, IsWhole};
ghost use Rattle.zr_rules.specs.Columns.{free_units, sizes};
ghost use Rattle.zr_rules.specs.Equation.{devices_in};
ghost use Rattle.zr_rules.specs.Frees.{Frees, marks};
ghost use Rattle.zr_rules.specs.Places.{is_fresh, is_leaving, part_of, state_of_dev};
ghost use Rattle.zr_rules.specs.Resolve.{is_resolved, leads_to, IsRanked};
ghost use Rattle.zr_rules.specs.Mappings.{IsRising};
ghost use Rattle.zr_rules.specs.Roles.{is_live_role};
ghost use Rattle.zr_rules.specs.Space.{Space, role_at, IsLawful};
ghost use Rattle.zr_rules.specs.Steps.{touch};

/// While all devices are in service, a free adds three words at most: two where it cuts what is held, one where it adds to
/// what is deferred; or three for what is kept. Units come to the room, or none, and all other counts stay.
pub fn a_free_in_service_adds_three_words()
    ensures words { (old new : Space) (a : Dva) (birth blocks objects : ℕ) → Frees old new a birth → IsLawful old → AreInService old → IsWhole old a → a.len ≤ 32768
        → (sizes new blocks objects).words ≤ (sizes old blocks objects).words + 3 }
    ensures room { (old new : Space) (a : Dva) (birth : ℕ) → Frees old new a birth → IsLawful old → AreInService old → IsWhole old a → room old ≤ room new }
    ensures others { (old new : Space) (a : Dva) (birth blocks objects : ℕ) → Frees old new a birth → IsLawful old → AreInService old
        → sizes new blocks objects ≡ record (sizes old blocks objects) { words = (sizes new blocks objects).words } }
{}

/// A free adds four words at most for each piece that it touches: for a piece on a device that is leaving two where it cuts
/// what is held, one where it adds to what is deferred, and one for its marks. Units come to the room, or none.
pub fn a_free_adds_four_words_a_piece()
    ensures words { (old new : Space) (a : Dva) (birth blocks objects : ℕ) → Frees old new a birth → IsLawful old → IsFreeable old a → a.len ≤ 32768
        → (sizes new blocks objects).words ≤ (sizes old blocks objects).words + 4 * touch (devices_in old) a }
    ensures uncopied { (old new : Space) (a : Dva) (birth blocks objects : ℕ) → Frees old new a birth → IsLawful old
        → (sizes new blocks objects).uncopied ≤ (sizes old blocks objects).uncopied }
    ensures room { (old new : Space) (a : Dva) (birth : ℕ) → Frees old new a birth → room old ≤ room new }
    ensures free { (old new : Space) (a : Dva) (birth : ℕ) → Frees old new a birth → free_units old ≤ free_units new }
    ensures given { (old new : Space) (a : Dva) (birth : ℕ) → Frees old new a birth → dropped_units new ≤ dropped_units old }
    ensures others { (old new : Space) (a : Dva) (birth blocks objects : ℕ) → Frees old new a birth
        → sizes new blocks objects ≡ record (sizes old blocks objects) { words = (sizes new blocks objects).words; uncopied = (sizes new blocks objects).uncopied } }
{}

/// A free of one unit passes each removed device once at most, and leads to one unit that has one copy at most. So it adds a
/// word for each removed device, four for the unit where its device is leaving, and three for its copy; and where no device
/// is leaving three for the unit alone.
pub fn a_free_of_a_unit_adds_seven_words()
    ensures words { (old new : Space) (a : Dva) (birth blocks objects : ℕ) → Frees old new a birth → IsLawful old → IsFreeable old a → IsRanked (devices_in old) → a.len ≡ 1
        → (sizes new blocks objects).words ≤ (sizes old blocks objects).words + (sizes old blocks objects).gone + 7 }
    ensures base { (old new : Space) (a : Dva) (birth blocks objects : ℕ) → Frees old new a birth → IsLawful old → IsFreeable old a → IsRanked (devices_in old) → a.len ≡ 1
        → base_words new ≤ base_words old + (sizes old blocks objects).gone + 7 }
    ensures there { (old new : Space) (a : Dva) (birth blocks objects : ℕ) → Frees old new a birth → IsLawful old → IsFreeable old a → IsRanked (devices_in old) → a.len ≡ 1
        → ((d : ℕ) → is_leaving (state_of_dev old.parts.devs d) ≡ false) → (sizes new blocks objects).words ≤ (sizes old blocks objects).words + (sizes old blocks objects).gone + 3 }
    ensures base_there { (old new : Space) (a : Dva) (birth blocks objects : ℕ) → Frees old new a birth → IsLawful old → IsFreeable old a → IsRanked (devices_in old) → a.len ≡ 1
        → ((d : ℕ) → is_leaving (state_of_dev old.parts.devs d) ≡ false) → base_words new ≤ base_words old + (sizes old blocks objects).gone + 3 }
{}

/// A block of one unit may be freed where it leads to a unit that is in use, and no unit is marked yet that the free marks:
/// it is one piece everywhere, and so is its copy.
pub fn a_unit_in_use_may_be_freed()
    ensures { (s : Space) (a : Dva) → IsLawful s → IsRanked (devices_in s) → ((d : ℕ) → IsRising (part_of s.parts.devs d).entries) → a.len ≡ 1 → is_resolved (devices_in s) a ≡ true
        → ((d u : ℕ) → leads_to (devices_in s) a d u ≡ true → is_live_role (role_at s d u) ≡ true) → ((d u : ℕ) → marks s a d u ≡ true → is_fresh s.parts.devs d u ≡ false) → IsFreeable s a }
{}
