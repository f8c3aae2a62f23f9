//! That a commit finds room, and leaves what is owed.
ghost use Rattle.std.specs.Prelude.{ℕ, ◌+◌, ◌*◌, ◌<◌, ◌≤◌, Bool};
ghost use Rattle.zr_reserve.specs.Covered.{AddsNothing, IsCovered};
ghost use Rattle.zr_reserve.specs.Commits.{CommitsWithin};
ghost use Rattle.zr_reserve.specs.Wrote.{Wrote};
ghost use Rattle.zr_rules.specs.Columns.{free_of, free_units, sizes};
ghost use Rattle.zr_rules.specs.Owed.{metadata_units, tree_blocks};
ghost use Rattle.zr_rules.specs.Placement.{HasNoPlacement};
ghost use Rattle.zr_rules.specs.Space.{Space, IsLawful};

/// A run of one unit is missing only where no unit of a device in service is free.
pub fn a_free_unit_is_found()
    ensures { (s : Space) (longest : ℕ) → 0 < free_units s → ¬ HasNoPlacement (free_of s) 1 longest }
{}

/// Where the free units cover what is owed, they are as many as the tree blocks, the units that are yet to be copied and
/// three roots' metadata take: of six that are owed, three may be metadata that comes back.
pub fn three_roots_fit()
    ensures { (s : Space) (changed objects : ℕ) → IsCovered s changed objects
        → tree_blocks (sizes s changed objects) + (sizes s changed objects).uncopied + 3 * metadata_units (sizes s changed objects) ≤ free_units s }
{}

/// Where the free units cover what is owed, a unit is free at each moment of the commit: behind no more tree blocks than the
/// group's changes take, and no more units of metadata than were owed for the next root. So it is where that was so before
/// a removal ended or was given up, and the commit followed. Beside the tree blocks and what is to be copied there is room
/// for the metadata of three roots.
pub fn a_commit_finds_room()
    ensures now { (old mid : Space) (changed objects most blocks frees metadata given : ℕ) → IsCovered old changed objects → Wrote old mid most blocks frees metadata given
        → blocks ≤ tree_blocks (sizes old changed objects) → metadata ≤ metadata_units (sizes old changed objects) → 0 < free_units mid }
    ensures later { (reset : Bool) (start old mid : Space) (changed objects most blocks frees metadata given : ℕ) → IsLawful start → IsCovered start changed objects
        → AddsNothing reset start old → IsLawful old → Wrote old mid most blocks frees metadata given
        → blocks ≤ tree_blocks (sizes start changed objects) → metadata ≤ metadata_units (sizes start changed objects) → 0 < free_units mid }
    ensures left { (reset : Bool) (start old mid : Space) (changed objects most blocks frees metadata given : ℕ) → IsLawful start → IsCovered start changed objects
        → AddsNothing reset start old → IsLawful old → Wrote old mid most blocks frees metadata given
        → tree_blocks (sizes start changed objects) + (sizes start changed objects).uncopied + 3 * metadata_units (sizes start changed objects) ≤ free_units mid + blocks + metadata }
{}

/// Where the free units cover what is owed when a commit begins, they cover it behind the commit too, a reset or not. So they
/// do where that was so before a removal ended or was given up, and the commit followed.
pub fn a_commit_keeps_the_room()
    ensures now { (reset : Bool) (old mid new : Space) (changed objects most blocks frees metadata given : ℕ) → IsCovered old changed objects
        → CommitsWithin reset (sizes old changed objects) old mid new most blocks frees metadata given → IsCovered new 0 0 }
    ensures later { (reset : Bool) (start old mid new : Space) (changed objects most blocks frees metadata given : ℕ) → IsLawful start → IsCovered start changed objects
        → AddsNothing reset start old → CommitsWithin reset (sizes start changed objects) old mid new most blocks frees metadata given → IsCovered new 0 0 }
{}
