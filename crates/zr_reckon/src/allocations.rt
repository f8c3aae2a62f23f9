//! What an allocation does to the counts.
ghost use Rattle.std.specs.Prelude.{◌≡◌, ℕ, ◌+◌, ◌≤◌, sum_by};
ghost use Rattle.zr_base.specs.declared.space.Dva.{Dva};
ghost use Rattle.zr_base.specs.declared.space.Policy.{Policy};
ghost use Rattle.zr_reckon.specs.Base.{base_words};
ghost use Rattle.zr_reckon.specs.Uses.{room, dropped_units};
ghost use Rattle.zr_rules.specs.Columns.{free_units, sizes};
ghost use Rattle.zr_rules.specs.Frees.{Allocates, AllocatesMeta};
ghost use Rattle.zr_rules.specs.Space.{Space, IsLawful};

/// An allocation for a block adds one word at most, takes its units from those that are free, gives no metadata back, and
/// leaves all other counts.
pub fn an_allocation_adds_a_word()
    ensures words { (policy : Policy) (want : ℕ) (old new : Space) (at : Dva) (blocks objects : ℕ) → Allocates policy want old new at → IsLawful old
        → (sizes new blocks objects).words ≤ (sizes old blocks objects).words + 1 }
    ensures base { (policy : Policy) (want : ℕ) (old new : Space) (at : Dva) → Allocates policy want old new at → IsLawful old → base_words new ≤ base_words old + 1 }
    ensures free { (policy : Policy) (want : ℕ) (old new : Space) (at : Dva) → Allocates policy want old new at → IsLawful old → free_units new + want ≡ free_units old }
    ensures given { (policy : Policy) (want : ℕ) (old new : Space) (at : Dva) → Allocates policy want old new at → IsLawful old → dropped_units new ≡ dropped_units old }
    ensures others { (policy : Policy) (want : ℕ) (old new : Space) (at : Dva) (blocks objects : ℕ) → Allocates policy want old new at → IsLawful old
        → sizes new blocks objects ≡ record (sizes old blocks objects) { words = (sizes new blocks objects).words } }
{}

/// An allocation for metadata adds no word, and leaves the room: its units come back.
pub fn an_allocation_for_metadata_leaves_the_room()
    ensures words { (policy : Policy) (want : ℕ) (old new : Space) (at : Dva) (blocks objects : ℕ) → AllocatesMeta policy want old new at → IsLawful old
        → (sizes new blocks objects).words ≡ (sizes old blocks objects).words }
    ensures base { (policy : Policy) (want : ℕ) (old new : Space) (at : Dva) → AllocatesMeta policy want old new at → IsLawful old → base_words new ≡ base_words old }
    ensures free { (policy : Policy) (want : ℕ) (old new : Space) (at : Dva) → AllocatesMeta policy want old new at → IsLawful old → free_units new + want ≡ free_units old }
    ensures given { (policy : Policy) (want : ℕ) (old new : Space) (at : Dva) → AllocatesMeta policy want old new at → IsLawful old → dropped_units new ≡ dropped_units old }
    ensures room { (policy : Policy) (want : ℕ) (old new : Space) (at : Dva) → AllocatesMeta policy want old new at → IsLawful old → room new ≡ room old }
    ensures metadata { (policy : Policy) (want : ℕ) (old new : Space) (at : Dva) → AllocatesMeta policy want old new at → IsLawful old
        → sum_by (λ a. a.len) new.meta ≡ sum_by (λ a. a.len) old.meta + want }
    ensures others { (policy : Policy) (want : ℕ) (old new : Space) (at : Dva) (blocks objects : ℕ) → AllocatesMeta policy want old new at → IsLawful old
        → sizes new blocks objects ≡ record (sizes old blocks objects) { turning = (sizes new blocks objects).turning; past = (sizes new blocks objects).past } }
{}
