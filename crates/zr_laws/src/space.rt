//! The rules on space.
ghost use Rattle.std.specs.Prelude.{◌≡◌, ℕ, ◌<◌, ◌≤◌, ◌^◌, List, [], ◌∷◌, ◌++◌, Some, None, length, take, replicate, true, false};
ghost use Rattle.zr_base.specs.Words.{address};
ghost use Rattle.zr_base.specs.Trees as trees;
ghost use Rattle.zr_rules.specs.Choices.{named_run};
ghost use Rattle.zr_rules.specs.Condense.{folded, condensed};
ghost use Rattle.zr_rules.specs.Devices.{devices_of};
ghost use Rattle.zr_rules.specs.Frontiers.{IsRouted};
ghost use Rattle.zr_rules.specs.Logs.{change_words, entry_words, taken_after};
ghost use Rattle.zr_rules.specs.Owed.{owed, slop};
ghost use Rattle.zr_rules.specs.Resolve.{resolved_units, passed_units, IsRanked};
ghost use Rattle.zr_rules.specs.Steps.{touch};
ghost use Rattle.zr_base.specs.declared.space.Policy.TheVariants as policy;
ghost use Rattle.zr_rules.specs.Placement.{IsPlacement};
ghost use Rattle.zr_base.specs.Extents.{IsMaximal, longest_len};
ghost use Rattle.zr_base.specs.declared.space.Dva.{Dva};
ghost use Rattle.zr_base.specs.declared.space.Extent.{Extent};
ghost use Rattle.zr_laws.specs.Examples.{chain, two_entries, three_entries, ones, free_on_second, on_second, before_copies, after_first, after_second, after_third, after_fourth, after_fifth, after_sixth};

/// A pointer to a device that was removed two removals ago leads to where its bytes are now, in order.
pub fn a_chain_of_two_removals()
    ensures { resolved_units (devices_of (chain 9)) (record { dev = 0; start = 10; len = 3 })
        ≡ Some (2, 100) ∷ (Some (2, 40) ∷ (Some (2, 41) ∷ [])) }
{}

/// It passes a unit of each device on the way.
pub fn the_way_of_a_unit()
    ensures { passed_units (devices_of (chain 9)) 0 10 ≡ (0, 10) ∷ ((1, 7) ∷ []) }
{}

/// A free of it touches a piece of each removed device, and two pieces at the end.
pub fn the_pieces_of_a_free()
    ensures { touch (devices_of (chain 9)) (record { dev = 0; start = 10; len = 3 }) ≡ 4 }
{}

/// An allocation and a free as words of a space map.
pub fn the_words_of_two_changes()
    ensures { change_words 0 (record { free = false; at = record { start = 5; len = 3 } })
        ++ change_words 0 (record { free = true; at = record { start = 6; len = 1 } })
        ≡ 327682 ∷ (425984 ∷ []) }
{}

/// A run of more than 32,768 units as two words, with its device.
pub fn the_words_of_a_long_run()
    ensures { change_words 3 (record { free = false; at = record { start = 100; len = 40000 } })
        ≡ 13835058726354026499 ∷ (100 ∷ []) }
{}

/// The address of three units of device 1 at unit 7, in sectors.
pub fn the_words_of_an_address()
    ensures { address (record { dev = 1; start = 7; len = 3 }) ≡ 4294967320 ∷ (56 ∷ []) }
{}

/// The fresh obsolete units of each entry, and the entries that stay.
pub fn a_mapping_condensed()
    ensures folded { folded three_entries (0 ∷ (0 ∷ (0 ∷ []))) (record { start = 0; len = 7 } ∷ []) ≡ 4 ∷ (3 ∷ (0 ∷ [])) }
    ensures kept { condensed three_entries (4 ∷ (3 ∷ (0 ∷ [])))
        ≡ (record { src = 4; dev = 1; dst = 4; len = 4 }, 3) ∷ ((record { src = 8; dev = 1; dst = 8; len = 4 }, 0) ∷ []) }
{}

/// Of two entries with two obsolete units each, the one of three units stays.
pub fn the_longer_entry_stays()
    ensures { condensed two_entries (2 ∷ (2 ∷ [])) ≡ (record { src = 10; dev = 1; dst = 7; len = 3 }, 2) ∷ [] }
{}

/// Of 64 entries of one unit, 50 of them obsolete, 14 stay.
pub fn fourteen_stay()
    ensures { length (condensed (take 64 ones) (take 64 (folded ones (replicate 100 0) (record { start = 0; len = 50 } ∷ [])))) ≡ 14 }
{}

/// What is owed by a small and by a larger group, and the slop of a device of 15,232 units.
#[tactic(auto, unfolding(zr_base::specs::Trees::tree_units))]
pub fn what_is_owed()
    ensures small { owed (record { blocks = 2; objects = 1; words = 100; streams = 6; gone = 0; uncopied = 0; turning = 1; past = 1; snaps = false }) ≡ 217 }
    ensures large { owed (record { blocks = 64; objects = 64; words = 5000; streams = 23; gone = 2; uncopied = 300; turning = 11; past = 11; snaps = false }) ≡ 2773 }
    ensures kept_free { slop 15232 ≡ 476 }
{}

/// Which of three free runs each policy names, and which of two where little is free.
pub fn the_runs_of_the_policies()
    ensures first { named_run policy.First 2 (record { start = 0; len = 5 } ∷ (record { start = 10; len = 2 } ∷ (record { start = 20; len = 40 } ∷ []))) ≡ Some 0 }
    ensures best { named_run policy.Best 2 (record { start = 0; len = 5 } ∷ (record { start = 10; len = 2 } ∷ (record { start = 20; len = 40 } ∷ []))) ≡ Some 1 }
    ensures dynamic { named_run (policy.Dynamic 32 4) 2 (record { start = 0; len = 5 } ∷ (record { start = 10; len = 2 } ∷ (record { start = 20; len = 40 } ∷ []))) ≡ Some 0 }
    ensures scarce { named_run (policy.Dynamic 32 4) 2 (record { start = 0; len = 5 } ∷ (record { start = 10; len = 2 } ∷ [])) ≡ Some 1 }
    ensures none { named_run policy.First 6 (record { start = 0; len = 5 } ∷ (record { start = 10; len = 2 } ∷ [])) ≡ None }
{}

/// Where the first free run takes the pieces of a copy of 32 units, as little in a row is free: each is as long as the first
/// of what is left and its halves for which there is a place.
pub fn the_places_of_copies()
    ensures first { IsPlacement (free_on_second before_copies) policy.First 4 (on_second 20 4) }
    ensures second { IsPlacement (free_on_second after_first) policy.First 3 (on_second 30 3) }
    ensures third { IsPlacement (free_on_second after_second) policy.First 3 (on_second 40 3) }
    ensures fourth { IsPlacement (free_on_second after_third) policy.First 2 (on_second 10 2) }
    ensures fifth { IsPlacement (free_on_second after_fourth) policy.First 2 (on_second 43 2) }
    ensures sixth { IsPlacement (free_on_second after_fifth) policy.First 1 (on_second 0 1) }
    ensures seventh { IsPlacement (free_on_second after_sixth) policy.First 1 (on_second 24 1) }
{}

/// There is no place for more units than the longest free run has.
pub fn no_place_for_more()
    ensures none { (runs : List Extent) (want : ℕ) (at : Dva) → IsMaximal runs → longest_len runs < want → IsPlacement (free_on_second runs) policy.First want at → ⊥ }
    ensures first { longest_len before_copies ≡ 5 }
    ensures third { longest_len after_second ≡ 5 }
    ensures fourth { longest_len after_third ≡ 2 }
    ensures sixth { longest_len after_fifth ≡ 1 }
{}

/// A freed extent of a leaving device of which 10 units are synced and 10 more in flight is cut into three parts.
pub fn a_freed_extent_is_cut()
    ensures { IsRouted 10 20 (record { start = 5; len = 20 }) (Some (record { start = 5; len = 5 })) (Some (record { start = 10; len = 10 }))
        (Some (record { start = 20; len = 5 })) }
{}

/// A freed extent above the open frontier has one part.
pub fn a_freed_extent_above_the_frontier()
    ensures { IsRouted 10 20 (record { start = 30; len = 2 }) None None (Some (record { start = 30; len = 2 })) }
{}
