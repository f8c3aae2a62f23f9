//! What follows from what a slot shows, and what the calls make of a slot together.
ghost use Rattle.std.specs.Prelude.{◌≡◌, ◌<◌, ◌≤◌, ◌+◌, ℕ, List, Some, length, Contains};
ghost use Rattle.zr_shelf.specs.Disks.{disk, IsSameOutside};
ghost use Rattle.zr_label.specs.Blocks.{SpellsLabel, label_block, uber_block, padding};
ghost use Rattle.zr_label.specs.Geometry.{units_of_size};
ghost use Rattle.zr_label.specs.declared.root.Label.{Label};
ghost use Rattle.zr_label.specs.declared.root.Uber.{Uber};
ghost use Rattle.zr_label.specs.declared.root.Seen.{Seen};
ghost use Rattle.zr_scan.specs.Puts.{puts, ring_places, root_places};
ghost use Rattle.zr_scan.specs.Scan.{block_of, ring_block, IsRootFor, Stands, Shows, ShowsJust};

/// A slot shows one label, one set of roots, and one newest root of an unknown version.
pub fn one_answer()
    ensures label { (size : ℕ) (bytes : List ℕ) (a b : Seen) → Shows size bytes a → Shows size bytes b → a.label ≡ b.label }
    ensures roots { (size : ℕ) (bytes : List ℕ) (a b : Seen) (u : Uber) → Shows size bytes a → Shows size bytes b → Contains a.ubers u → Contains b.ubers u }
    ensures newer { (size : ℕ) (bytes : List ℕ) (a b : Seen) → Shows size bytes a → Shows size bytes b → a.newer ≡ b.newer }
{}

/// The least use of a slot: the labels are put, the rings cleared, and a root that lists the device is put. From what
/// these calls ensure when they are done, the slot then shows the label and this root alone.
pub fn a_fresh_slot()
    ensures shown { (size slot first : ℕ) (l : Label) (u : Uber) (a b c : List (List ℕ)) (seen : Seen) →
        units_of_size size 2 ≡ Some l.units → first < 2 → IsRootFor l u → length (uber_block u) ≡ 4096 →
        ((n : ℕ) → n < 4 → SpellsLabel (block_of size (disk a slot) n) l) →
        IsSameOutside (puts slot (ring_places size) (padding 131072)) a b →
        ((n k : ℕ) → n < 4 → k < 32 → ring_block size (disk b slot) n k ≡ padding 4096) →
        IsSameOutside (puts slot (root_places size first u.txg) (uber_block u)) b c →
        Stands size (disk c slot) first u → Stands size (disk c slot) (first + 2) u →
        Shows size (disk c slot) seen → ShowsJust l u seen }
{}
