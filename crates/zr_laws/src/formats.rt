//! What stands on a disk.
ghost use Rattle.std.specs.Prelude.{◌≡◌, ℕ, List, [], ◌∷◌, Some, None, take, ◌^◌};
ghost use Rattle.zr_base.specs.Words.{address, words};
ghost use Rattle.zr_bptr.specs.Spelling.{properties};
ghost use Rattle.zr_label.specs.Geometry.{label_at, slot_of, unit_at, units_of_size};
ghost use Rattle.zr_base.specs.declared.space.Change.{Change};
ghost use Rattle.zr_base.specs.declared.space.Extent.{Extent};
ghost use Rattle.zr_rules.specs.Logs.{entry_bytes, IsAnew, IsReplay, SpellsChanges};
ghost use Rattle.zr_laws.specs.Examples.{given, leaf_of_one_unit, run, taken};

/// The bytes of what a leaf of one unit says of itself, of the address of three units of device 1 at unit 7, and of the
/// place in an entry that begins at unit 10.
pub fn the_bytes_of_pointers()
    ensures leaf { words (properties leaf_of_one_unit ∷ []) ≡ 7 ∷ (0 ∷ (7 ∷ (0 ∷ (2 ∷ (8 ∷ (0 ∷ (128 ∷ []))))))) }
    ensures address { words (address (record { dev = 1; start = 7; len = 3 }))
        ≡ 24 ∷ (0 ∷ (0 ∷ (0 ∷ (1 ∷ (0 ∷ (0 ∷ (0 ∷ (56 ∷ (0 ∷ (0 ∷ (0 ∷ (0 ∷ (0 ∷ (0 ∷ (0 ∷ []))))))))))))))) }
    ensures entry { take 8 (entry_bytes (record { src = 10; dev = 1; dst = 7; len = 3 })) ≡ 80 ∷ (0 ∷ (0 ∷ (0 ∷ (0 ∷ (0 ∷ (0 ∷ (0 ∷ []))))))) }
{}

/// What the words of a log replay to: units that were taken and not given back. A run of more than 32,768 units is cut in
/// version 1, and has two words in version 2. No log takes a unit twice, and no word of version 1 has the highest bit.
pub fn the_set_of_a_log()
    ensures replayed { IsReplay (taken 5 3 ∷ (given 6 1 ∷ [])) (run 5 1 ∷ (run 7 1 ∷ [])) }
    ensures anew { IsAnew 1 0 (run 5 1 ∷ (run 7 1 ∷ [])) (327680 ∷ (458752 ∷ [])) }
    ensures cut { IsAnew 1 3 (run 100 40000 ∷ []) (6586367 ∷ (2154044479 ∷ [])) }
    ensures long { IsAnew 2 3 (run 100 40000 ∷ []) (13835058726354026499 ∷ (100 ∷ [])) }
    ensures twice { (es : List Extent) → IsReplay (taken 5 3 ∷ (taken 7 1 ∷ [])) es → ⊥ }
    ensures high { (changes : List Change) → SpellsChanges 1 0 (2 ^ 63 ∷ []) changes → ⊥ }
{}

/// Where labels, roots and units stand on the smallest disk, and how many units disks have.
pub fn the_places_on_a_disk()
    ensures smallest { units_of_size 8388608 1 ≡ Some 896 }
    ensures cut { units_of_size 8400000 1 ≡ Some 896 }
    ensures larger { units_of_size 67108864 1 ≡ Some 15232 }
    ensures too_small { units_of_size 8388607 1 ≡ None }
    ensures first { label_at 8388608 0 ≡ 0 }
    ensures second { label_at 8388608 1 ≡ 262144 }
    ensures third { label_at 8388608 2 ≡ 7864320 }
    ensures fourth { label_at 8388608 3 ≡ 8126464 }
    ensures at_the_end { label_at 8400000 3 ≡ 8126464 }
    ensures round { slot_of 32 ≡ 0 }
    ensures next { slot_of 33 ≡ 1 }
    ensures unit { unit_at 7 ≡ 4222976 }
{}
