//! What the steps of a checkpoint's end and of a condensing do to the counts, and a device more.
ghost use Rattle.std.specs.Prelude.{◌≡◌, ℕ, ◌+◌, ◌≤◌};
ghost use Rattle.zr_base.specs.declared.space.Condensed.{Condensed};
ghost use Rattle.zr_reckon.specs.Condensing.{IsUnderway};
ghost use Rattle.zr_reckon.specs.Uses.{room, HasLateSets};
ghost use Rattle.zr_rules.specs.Columns.{sizes};
ghost use Rattle.zr_rules.specs.Space.{Space, IsLawful};
ghost use Rattle.zr_rules.specs.Steps.{AddsDevice, CondensesSome, DiscardsSome};

/// A step of discarding adds no word: a kept extent counts three times, and gives up its words for two that its going may
/// add to what is held, and for its own in what is deferred. The room stays.
pub fn a_discard_adds_no_word()
    ensures words { (old new : Space) (units blocks objects : ℕ) → DiscardsSome old units new → IsLawful old
        → (sizes new blocks objects).words ≤ (sizes old blocks objects).words }
    ensures uncopied { (old new : Space) (units blocks objects : ℕ) → DiscardsSome old units new → IsLawful old
        → (sizes new blocks objects).uncopied ≤ (sizes old blocks objects).uncopied }
    ensures room { (old new : Space) (units : ℕ) → DiscardsSome old units new → IsLawful old → room new ≡ room old }
    ensures others { (old new : Space) (units blocks objects : ℕ) → DiscardsSome old units new → IsLawful old
        → sizes new blocks objects ≡ record (sizes old blocks objects) { words = (sizes new blocks objects).words; uncopied = (sizes new blocks objects).uncopied } }
{}

/// A step of condensing adds no word, and leaves the room and all other counts.
pub fn a_condensing_adds_no_word()
    ensures words { (old new : Space) (outcome : Condensed) (blocks objects : ℕ) → CondensesSome old outcome new → IsLawful old → HasLateSets old → HasLateSets new
        → IsUnderway old → (sizes new blocks objects).words ≤ (sizes old blocks objects).words }
    ensures room { (old new : Space) (outcome : Condensed) → CondensesSome old outcome new → IsUnderway old → room new ≡ room old }
    ensures others { (old new : Space) (outcome : Condensed) (blocks objects : ℕ) → CondensesSome old outcome new → IsLawful old → IsUnderway old
        → sizes new blocks objects ≡ record (sizes old blocks objects) { words = (sizes new blocks objects).words } }
{}

/// A device more adds four streams and its units to the room, and leaves all other counts.
pub fn a_device_adds_four_streams()
    ensures sizes { (old new : Space) (units txg blocks objects : ℕ) → AddsDevice old new units txg → IsLawful old
        → sizes new blocks objects ≡ record (sizes old blocks objects) { streams = (sizes old blocks objects).streams + 4 } }
    ensures room { (old new : Space) (units txg : ℕ) → AddsDevice old new units txg → IsLawful old → room new ≡ room old + units }
{}
