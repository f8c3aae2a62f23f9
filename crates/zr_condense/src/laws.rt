//! Condensing changes where no unit leads that is in use.
ghost use Rattle.std.specs.Prelude.{◌≡◌, ℕ, ◌≤◌, ◌<◌, List, length, slice_index_or, true};
ghost use Rattle.zr_base.specs.declared.space.Entry.{Entry};
ghost use Rattle.zr_rules.specs.Condense.{is_used};
ghost use Rattle.zr_rules.specs.Mappings.{IsRising, HasSourceAt, entry_at, target};
ghost use Rattle.zr_base.specs.declared.space.CondPart.{CondPart};
ghost use Rattle.zr_condense.specs.Condensing.{HasWorked};

/// Once all entries are worked through, each unit of an entry with a unit in use leads where it led. A unit that is not
/// obsolete is of such an entry.
pub fn leads_as_before()
    ensures { (entries : List Entry) (counts : List ℕ) (c : CondPart) (i u : ℕ) → IsRising entries → length counts ≡ length entries → HasWorked entries counts c → length entries ≤ c.at
        → i < length entries → HasSourceAt entries i u → is_used (entry_at entries i, slice_index_or counts i 0) ≡ true → target c.entries u ≡ target entries u }
{}
