//! That the metadata of a root is what its streams take.
ghost use Rattle.std.specs.Prelude.{ℕ, ◌+◌, ◌≤◌, true};
ghost use Rattle.zr_reserve.specs.Covered.{AddsNothing, HasFewMetadata};
ghost use Rattle.zr_reserve.specs.Commits.{IsBegun};
ghost use Rattle.zr_reserve.specs.Streams.{AreTrees, coming_late_words, first_late_words, no_late_words, second_late_words};
ghost use Rattle.zr_reserve.specs.Wrote.{Wrote, units_of};
ghost use Rattle.zr_rules.specs.Columns.{sizes};
ghost use Rattle.zr_rules.specs.Owed.{metadata_units, tree_blocks};
ghost use Rattle.zr_rules.specs.Space.{Space};

/// Where the units of a root's metadata are those of its streams' trees and of its head, they are few: a log on disk has
/// at most twice its words anew and 512 more, and its tree fewer than twice as many units as leaves.
pub fn what_the_streams_take_is_few()
    ensures { (s : Space) → AreTrees s (first_late_words s) (second_late_words s) (units_of s.meta) → HasFewMetadata s }
{}

/// Within a commit, behind its tree blocks: where the metadata that it puts is no more than the trees of the streams that it
/// writes, it is what was owed for the next root. The first late set that it writes names what the group has freed and given
/// back, and the second what was the first; a reset writes none.
pub fn what_is_put_was_owed()
    ensures plain { (old mid : Space) (changed objects most blocks frees metadata given : ℕ) → IsBegun old → Wrote old mid most blocks frees metadata given
        → most ≤ (sizes old 0 0).gone + 7 → blocks ≤ tree_blocks (sizes old changed objects) → frees ≤ tree_blocks (sizes old changed objects) → given ≤ (sizes old 0 0).past
        → AreTrees mid (coming_late_words mid) (first_late_words mid) metadata → metadata ≤ metadata_units (sizes old changed objects) }
    ensures reset { (start old mid : Space) (changed objects most blocks frees metadata given : ℕ) → AddsNothing true start old → Wrote old mid most blocks frees metadata given
        → most ≤ (sizes start 0 0).gone + 7 → blocks ≤ tree_blocks (sizes start changed objects) → frees ≤ tree_blocks (sizes start changed objects)
        → AreTrees mid no_late_words no_late_words metadata → metadata ≤ metadata_units (sizes start changed objects) }
{}
