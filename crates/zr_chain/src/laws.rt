//! The visits of an address, tried on a chain of two removals.
ghost use Rattle.std.specs.Prelude.{◌≡◌, List, [], ◌∷◌};
ghost use Rattle.zr_chain.specs.declared.visit.Visited.{Visited};
ghost use Rattle.zr_chain.specs.declared.visit.Visited.TheVariants.{Hop, Piece};
ghost use Rattle.zr_chain.specs.Visits.{AreVisits, whole};
ghost use Rattle.zr_chain.specs.Examples.{removals, three_units, told, run};

/// A part of each removed device is told before two parts of the device that is there. No visits begin with a part that
/// is there, and none go on past a removed device.
pub fn visits_of_two_removals()
    ensures parts { AreVisits removals (whole three_units) told }
    ensures hop_first { (vs : List Visited) → AreVisits removals (whole three_units) (Piece 0 2 (run 100 1) ∷ vs) → ⊥ }
    ensures whole_chain { (vs : List Visited) → AreVisits removals (whole three_units) (Hop 0 (run 10 3) ∷ (Piece 0 1 (run 7 3) ∷ vs)) → ⊥ }
{}
