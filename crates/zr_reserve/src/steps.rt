//! That what is owed stays there at each step of a removal, of a checkpoint's end and of a condensing, and with a device more.
ghost use Rattle.std.specs.Prelude.{◌≡◌, ℕ, ◌*◌, ◌+◌, ◌<◌, ◌≤◌, Bool, true};
ghost use Rattle.zr_base.specs.declared.space.Condensed.{Condensed};
ghost use Rattle.zr_base.specs.declared.space.Policy.{Policy};
ghost use Rattle.zr_reckon.specs.Base.{LeavesAlone};
ghost use Rattle.zr_reckon.specs.Condensing.{IsUnderway};
ghost use Rattle.zr_reckon.specs.Uses.{HasLateSets};
ghost use Rattle.zr_reserve.specs.Covered.{AddsNothing, IsCovered};
ghost use Rattle.zr_rules.specs.Columns.{free_units, sizes};
ghost use Rattle.zr_rules.specs.Places.{is_leaving, state_of_dev};
ghost use Rattle.zr_rules.specs.Space.{Space, IsLawful};
ghost use Rattle.zr_rules.specs.Steps.{AddsDevice, Cancels, CondensesSome, Copies, DiscardsSome, Finishes};

/// A step of copying takes units that were owed for it, and ten words were counted for each, of which it adds nine at most.
pub fn a_copy_keeps_the_room()
    ensures { (policy : Policy) (old new : Space) (d n changed objects : ℕ) → Copies policy old new d n → IsLawful old → HasLateSets old → HasLateSets new
        → is_leaving (state_of_dev old.parts.devs d) ≡ true → IsCovered old changed objects → IsCovered new changed objects }
{}

/// A step of discarding and one of condensing leave what is owed covered.
pub fn a_discard_and_a_condensing_keep_the_room()
    ensures discard { (old new : Space) (units changed objects : ℕ) → DiscardsSome old units new → IsLawful old → IsLawful new → IsCovered old changed objects → IsCovered new changed objects }
    ensures condense { (old new : Space) (outcome : Condensed) (changed objects : ℕ) → CondensesSome old outcome new → IsLawful old → IsLawful new → HasLateSets old → HasLateSets new
        → IsUnderway old → IsCovered old changed objects → IsCovered new changed objects }
{}

/// A device more has four streams, for which 108 units may be owed. It has more.
pub fn a_device_more_keeps_the_room()
    ensures { (old new : Space) (units txg changed objects : ℕ) → AddsDevice old new units txg → IsLawful old → (sizes old 0 0).streams ≤ 136 → 108 ≤ units
        → IsCovered old changed objects → IsCovered new changed objects }
{}

/// The end of a removal adds nothing that the next root has to hold, and giving one up nothing that a reset keeps. So the
/// commit that follows finds room, where what is owed was covered before. Where nothing happens nothing is added.
pub fn a_removal_s_end_adds_nothing()
    ensures none { (reset : Bool) (s : Space) → AddsNothing reset s s }
    ensures done { (reset : Bool) (old new : Space) (d txg : ℕ) → Finishes old new d txg → IsLawful old → HasLateSets old → HasLateSets new
        → is_leaving (state_of_dev old.parts.devs d) ≡ true → AddsNothing reset old new }
    ensures given_up { (old new : Space) (d : ℕ) → Cancels old new d → IsLawful old → LeavesAlone old d → AddsNothing true old new }
{}

/// A new pool of so many devices, each of 896 units at least, covers what is owed for its first root.
pub fn a_new_pool_has_room()
    ensures { (s : Space) (devices : ℕ) → 1 ≤ devices → (sizes s 0 0).streams ≤ 4 * devices + 2 → (sizes s 0 0).words ≡ 0 → (sizes s 0 0).uncopied ≡ 0 → (sizes s 0 0).past ≡ 0
        → 896 * devices ≤ free_units s → IsCovered s 0 0 }
{}
