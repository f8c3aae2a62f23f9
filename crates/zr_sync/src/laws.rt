//! Laws on the trees of a pool's streams, as calls that do nothing: a caller learns them by their contracts.
//!
//! A commit leaves the words of each stream in its tree, all trees beside each other (`commit`, its clause `trees`). So the
//! next one finds them, since nothing between two commits writes or gives back metadata.
ghost use Rattle.std.specs.Prelude.{ℕ, List};
ghost use Rattle.zr_sync.specs.Pools.{IsOpen};
ghost use Rattle.zr_sync.specs.Trees.{HasJustBegun, HasTrees};
ghost use Rattle.zr_sync.specs.Trees.Stage.{Had, Recorded};
ghost use Rattle.zr_sync.specs.Writes.{WritesBlocks};
ghost use Rattle.zr_sync.specs.declared.open.OpenPool.{OpenPool};

use zr_shelf::Shelf;

/// What a commit has recorded is what the next one is to find, as long as nothing was done in its group.
pub fn a_group_begins_with_what_is_recorded<S: Shelf>()
    ensures { (shelf : S) (disks : List (List ℕ)) (pool : OpenPool) → HasJustBegun pool → HasTrees Recorded (S.tells shelf) disks pool → HasTrees Had (S.tells shelf) disks pool }
{}

/// Blocks of objects that are put and freed leave the streams.
pub fn blocks_leave_the_streams<S: Shelf>()
    ensures { (before after : S) (old new : OpenPool) → IsOpen (S.sizes before) old
        → WritesBlocks (S.sizes before) (S.sizes after) (S.counts before) (S.counts after) (S.tells before) (S.tells after) (S.world before) (S.world after) old new
        → HasTrees Had (S.tells before) (S.world before).now.seen old → HasTrees Had (S.tells after) (S.world after).now.seen new }
{}
