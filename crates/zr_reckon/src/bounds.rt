//! The bounds on words, met: with a smaller number the laws on sets would be false.
ghost use Rattle.std.specs.Prelude.{◌≡◌, ◌+◌, [], ◌∷◌};
ghost use Rattle.zr_reckon.specs.Examples.{run, long_run, both_ends, short_run, short_ends};
ghost use Rattle.zr_reckon.specs.Sets.{IsWith, IsWithout};
ghost use Rattle.zr_rules.specs.Owed.{set_words};

/// A unit that goes from the middle of a long run adds two words, and one in the first version.
pub fn a_cut_in_the_middle_adds_two_words()
    ensures long { IsWithout long_run both_ends (run 40000 1) }
    ensures two { set_words 2 both_ends ≡ set_words 2 long_run + 2 }
    ensures short { IsWithout short_run short_ends (run 6 1) }
    ensures one { set_words 1 short_ends ≡ set_words 1 short_run + 1 }
{}

/// Units that come beside those of a set, and touch none, add a word.
pub fn units_apart_add_a_word()
    ensures apart { IsWith (run 5 1 ∷ []) short_ends (run 7 1) }
    ensures one { set_words 2 short_ends ≡ set_words 2 (run 5 1 ∷ []) + 1 }
{}
