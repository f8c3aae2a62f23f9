//! What the events of a commit do to the counts, so many of them.
ghost use Rattle.std.specs.Prelude.{◌≡◌, ℕ, ◌+◌, List, count_by, false, sum_by};
ghost use Rattle.zr_reserve.specs.Wrote.{Event, Happen, Wrote, is_block_freed, is_block_put, is_meta_put, units_given};
ghost use Rattle.zr_rules.specs.Columns.{sizes};
ghost use Rattle.zr_rules.specs.Equation.{devices_in};
ghost use Rattle.zr_rules.specs.Places.{is_leaving, state_of_dev};
ghost use Rattle.zr_rules.specs.Resolve.{IsRanked};
ghost use Rattle.zr_rules.specs.Space.{Space, IsLawful};

/// Events one after another: each tree block that is put takes one unit and adds one word, each that is freed adds seven and
/// one for each removed device at most, or three and those where no device is leaving; each block of metadata takes a unit
/// that comes back.
pub fn events_are_counted()
    ensures words { (old new : Space) (events : List Event) → Happen events old new → IsLawful old → IsRanked (devices_in old)
        → Wrote old new ((sizes old 0 0).gone + 7) (count_by is_block_put events) (count_by is_block_freed events) (count_by is_meta_put events) (sum_by units_given events) }
    ensures there { (old new : Space) (events : List Event) → Happen events old new → IsLawful old → IsRanked (devices_in old) → ((d : ℕ) → is_leaving (state_of_dev old.parts.devs d) ≡ false)
        → Wrote old new ((sizes old 0 0).gone + 3) (count_by is_block_put events) (count_by is_block_freed events) (count_by is_meta_put events) (sum_by units_given events) }
{}

/// What was written by one moment and from there by a later one adds up.
pub fn what_is_written_adds_up()
    ensures none { (s : Space) (most : ℕ) → IsLawful s → Wrote s s most 0 0 0 0 }
    ensures more { (old mid new : Space) (most blocks frees metadata given more_blocks more_frees more_metadata more_given : ℕ)
        → Wrote old mid most blocks frees metadata given → Wrote mid new most more_blocks more_frees more_metadata more_given
        → Wrote old new most (blocks + more_blocks) (frees + more_frees) (metadata + more_metadata) (given + more_given) }
{}
