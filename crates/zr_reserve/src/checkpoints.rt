//! That a checkpoint leaves room for what is owed.
ghost use Rattle.std.specs.Prelude.{ℕ, ◌+◌, ◌≤◌, Bool};
ghost use Rattle.zr_reserve.specs.Covered.{IsCovered};
ghost use Rattle.zr_reserve.specs.Commits.{CommitsWithin};
ghost use Rattle.zr_rules.specs.Columns.{free_units, sizes};
ghost use Rattle.zr_rules.specs.Owed.{metadata_units, owed};
ghost use Rattle.zr_rules.specs.Space.{Space};
ghost use Rattle.zr_rules.specs.Steps.{HoldsCheckpoint};

/// A checkpoint keeps the metadata of the root that its first commit wrote, which then comes back no more. Where one root's
/// metadata more is free than is owed, the free units cover what is owed when the second commit begins.
pub fn a_checkpoint_leaves_the_room()
    ensures { (reset : Bool) (old mid new held : Space) (changed objects most blocks frees metadata given txg : ℕ)
        → owed (sizes old changed objects) + metadata_units (sizes old changed objects) ≤ free_units old
        → CommitsWithin reset (sizes old changed objects) old mid new most blocks frees metadata given → HoldsCheckpoint new held txg → IsCovered held 0 0 }
{}
