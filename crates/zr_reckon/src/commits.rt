//! What the end of a group does to the counts.
ghost use Rattle.std.specs.Prelude.{◌≡◌, ℕ, ◌+◌, ◌≤◌, Bool, false, true, sum_by};
ghost use Rattle.zr_reckon.specs.Base.{base_words};
ghost use Rattle.zr_reckon.specs.Uses.{room, dropped_units, freed_words, second_late_words, HasLateSets};
ghost use Rattle.zr_rules.specs.Columns.{late1_meta, late2_meta, sizes};
ghost use Rattle.zr_rules.specs.Space.{Space, IsLawful};
ghost use Rattle.zr_rules.specs.Steps.{Commits, HoldsCheckpoint};

/// What the open group freed is the first late set behind a commit, and the first late set is the second. So the words of
/// the second late sets go, and at a reset those of all that was freed. Units come to the room, or none; the metadata that
/// was given back is late, and all other counts stay.
pub fn a_commit_drops_the_second_late_words()
    ensures words { (old new : Space) (blocks objects : ℕ) → Commits false old new → IsLawful old → HasLateSets old → HasLateSets new
        → (sizes new blocks objects).words + second_late_words old ≡ (sizes old blocks objects).words }
    ensures reset { (old new : Space) (blocks objects : ℕ) → Commits true old new → IsLawful old → HasLateSets new
        → (sizes new blocks objects).words + freed_words old ≡ (sizes old blocks objects).words }
    ensures room { (reset : Bool) (old new : Space) → Commits reset old new → IsLawful old → room old ≤ room new }
    ensures first_late { (old new : Space) → Commits false old new → IsLawful old → late1_meta new.parts.devs ≡ dropped_units old }
    ensures second_late { (old new : Space) → Commits false old new → IsLawful old → late2_meta new.parts.devs ≡ late1_meta old.parts.devs }
    ensures none_late { (old new : Space) → Commits true old new → IsLawful old → late1_meta new.parts.devs + late2_meta new.parts.devs ≡ 0 }
    ensures others { (reset : Bool) (old new : Space) (blocks objects : ℕ) → Commits reset old new → IsLawful old
        → sizes new blocks objects
        ≡ record (sizes old blocks objects) { words = (sizes new blocks objects).words; turning = (sizes new blocks objects).turning; past = (sizes new blocks objects).past } }
{}

/// A checkpoint is held from here on: the metadata of the current root goes from the room, and no word is added.
pub fn a_checkpoint_takes_the_metadata_from_the_room()
    ensures words { (old new : Space) (txg blocks objects : ℕ) → HoldsCheckpoint old new txg → IsLawful old → (sizes new blocks objects).words ≡ (sizes old blocks objects).words }
    ensures room { (old new : Space) (txg : ℕ) → HoldsCheckpoint old new txg → IsLawful old → room old ≤ room new + sum_by (λ a. a.len) old.meta }
    ensures past { (old new : Space) (txg blocks objects : ℕ) → HoldsCheckpoint old new txg → (sizes new blocks objects).past ≤ (sizes old blocks objects).past }
    ensures others { (old new : Space) (txg blocks objects : ℕ) → HoldsCheckpoint old new txg → IsLawful old
        → sizes new blocks objects ≡ record (sizes old blocks objects) { turning = (sizes new blocks objects).turning; past = (sizes new blocks objects).past } }
{}

/// The words are those that a reset keeps and those of what was freed, and behind a reset they are the first.
pub fn a_reset_keeps_the_base_words()
    ensures split { (s : Space) (blocks objects : ℕ) → (sizes s blocks objects).words ≡ base_words s + freed_words s }
    ensures reset { (old new : Space) (blocks objects : ℕ) → Commits true old new → IsLawful old → HasLateSets new → (sizes new blocks objects).words ≡ base_words old }
{}
