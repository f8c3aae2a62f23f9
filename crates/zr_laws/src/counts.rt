//! What is counted of the sets of a pool: units by role, and words by extent.
ghost use Rattle.std.specs.Prelude.{◌≡◌, ℕ, ◌+◌, ◌<◌, List, [], ◌∷◌, ◌++◌};
ghost use Rattle.zr_base.specs.Extents.{unit_count};
ghost use Rattle.zr_base.specs.declared.space.Extent.{Extent};
ghost use Rattle.zr_rules.specs.Places.{units_of_dev};
ghost use Rattle.zr_rules.specs.Space.{Space, role_at, opened_of};
ghost use Rattle.zr_rules.specs.Columns.{columns, device_words};
ghost use Rattle.zr_laws.specs.Examples.{run, late_run, freed_on};

/// Where the units of a device have the same roles, its columns are the same, however the sets are written down: a run that
/// is named twice, or in two pieces, counts once.
pub fn columns_count_roles()
    ensures same { (s t : Space) (d : ℕ) → units_of_dev s.parts.devs d ≡ units_of_dev t.parts.devs d → ((u : ℕ) → role_at s d u ≡ role_at t d u) → columns s d ≡ columns t d }
    ensures cut { columns (freed_on 2 (run 5 2 ∷ (run 7 2 ∷ [])) []) 0 ≡ columns (freed_on 2 (run 5 4 ∷ []) []) 0 }
    ensures twice { columns (freed_on 2 (run 5 4 ∷ (run 5 4 ∷ [])) []) 0 ≡ columns (freed_on 2 (run 5 4 ∷ []) []) 0 }
    ensures late_cut { columns (freed_on 2 [] (late_run 5 2 ∷ (late_run 7 2 ∷ []))) 0 ≡ columns (freed_on 2 [] (late_run 5 4 ∷ [])) 0 }
    ensures late_twice { columns (freed_on 2 [] (late_run 5 4 ∷ (late_run 6 1 ∷ []))) 0 ≡ columns (freed_on 2 [] (late_run 5 4 ∷ [])) 0 }
    ensures column { (columns (freed_on 2 (run 5 4 ∷ (run 5 4 ∷ [])) (late_run 10 2 ∷ (late_run 10 2 ∷ []))) 0).deferred ≡ 6 }
    ensures listed { unit_count (run 5 4 ∷ (run 5 4 ∷ [])) ≡ 8 }
{}

/// The words of a device count what the open group has freed: leaving it out is excluded, by any extent that is not empty.
pub fn words_count_what_is_freed()
    ensures none { device_words (freed_on 2 [] []) 0 ≡ 0 }
    ensures one { device_words (freed_on 2 (run 5 4 ∷ []) []) 0 ≡ device_words (freed_on 2 [] []) 0 + 1 }
    ensures long { device_words (freed_on 2 (run 5 32769 ∷ []) []) 0 ≡ device_words (freed_on 2 [] []) 0 + 2 }
    ensures first_form { device_words (freed_on 1 (run 5 65537 ∷ []) []) 0 ≡ device_words (freed_on 1 [] []) 0 + 3 }
    ensures with_late { device_words (freed_on 2 (run 5 4 ∷ []) (late_run 10 2 ∷ [])) 0 ≡ 2 }
    ensures more { (s t : Space) (d : ℕ) (e : Extent) → t.parts ≡ s.parts → (opened_of t d).deferred ≡ e ∷ (opened_of s d).deferred → 0 < e.len → device_words s d < device_words t d }
{}
