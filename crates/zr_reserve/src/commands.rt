//! That what is owed stays there when a command puts and frees blocks.
ghost use Rattle.std.specs.Prelude.{◌≡◌, ℕ, ◌+◌, ◌≤◌, List, sum_by};
ghost use Rattle.zr_reserve.specs.Commands.{Change, Changes, HasChanged, pieces_touched, units_put, with_pieces};
ghost use Rattle.zr_reserve.specs.Covered.{IsCovered};
ghost use Rattle.zr_rules.specs.Columns.{free_units, sizes};
ghost use Rattle.zr_rules.specs.Frees.{Chain};
ghost use Rattle.zr_rules.specs.Owed.{owed};
ghost use Rattle.zr_rules.specs.Space.{Space, IsLawful};

/// Blocks that are put and freed one after another take their units, and add four words at most for each piece that they
/// touch: one for a block that comes, and those to which one that is freed leads.
pub fn changes_are_counted()
    ensures { (old new : Space) (changes : List Change) → Chain Changes changes old new → IsLawful old → HasChanged old new (sum_by units_put changes) (sum_by pieces_touched changes) }
{}

/// Where the free units cover the new blocks and what will be owed with the pieces that are touched, they cover what is owed
/// behind the command.
pub fn a_command_keeps_the_room()
    ensures { (old new : Space) (units pieces changed objects later_changed later_objects : ℕ) → HasChanged old new units pieces
        → units + owed (with_pieces (sizes old changed objects) pieces) ≤ free_units old → later_changed ≤ changed → later_objects ≤ objects → IsCovered new later_changed later_objects }
{}
