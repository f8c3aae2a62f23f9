//! The words of a set that is written anew, where units come to it or go.
//!
//! A set has a word for each maximal extent, or more for a long one. Units that come join extents; units that go may cut
//! one in two.
ghost use Rattle.std.specs.Prelude.{◌≡◌, ℕ, ◌+◌, ◌<◌, ◌≤◌, List, length};
ghost use Rattle.zr_base.specs.Extents.{extent_at, unit_count, IsMaximal};
ghost use Rattle.zr_base.specs.declared.space.Extent.{Extent};
ghost use Rattle.zr_rules.specs.Owed.{set_words, extent_words};
ghost use Rattle.zr_reckon.specs.Sets.{IsWith, IsWithout};

/// Units of one extent that come to a set add the words of that extent at most, and so one word where it is short.
pub fn an_extent_more_adds_its_words()
    ensures words { (version : ℕ) (es fs : List Extent) (e : Extent) → IsWith es fs e → set_words version fs ≤ set_words version es + extent_words version e }
    ensures short { (version : ℕ) (es fs : List Extent) (e : Extent) → IsWith es fs e → e.len ≤ 32768 → set_words version fs ≤ set_words version es + 1 }
{}

/// Units of one extent that go from a set add two words at most, and one in the first version.
pub fn an_extent_less_adds_two_words()
    ensures words { (version : ℕ) (es fs : List Extent) (e : Extent) → IsWithout es fs e → set_words version fs ≤ set_words version es + 2 }
    ensures first_form { (es fs : List Extent) (e : Extent) → IsWithout es fs e → set_words 1 fs ≤ set_words 1 es + 1 }
{}

/// A whole extent of a set that goes takes just its words with it.
pub fn a_whole_extent_takes_its_words()
    ensures { (version : ℕ) (es fs : List Extent) (i : ℕ) → i < length es → IsWithout es fs (extent_at es i) → set_words version fs + extent_words version (extent_at es i) ≡ set_words version es }
{}

/// A set has no more words than units.
pub fn a_set_has_no_more_words_than_units()
    ensures { (version : ℕ) (es : List Extent) → IsMaximal es → set_words version es ≤ unit_count es }
{}
