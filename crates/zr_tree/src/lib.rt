//! Trees of blocks that are changed by copies.
//!
//! A tree has a leaf pointer at each index below `32 ^ height`, in tree blocks of 32 pointers. Nothing is written over:
//! a change puts a new block for each block on the way from the changed leaves to the root, level by level from the leaves
//! up and each level by rising index, and gives the old ones back when all are put.
//! What a tree means is a total function of its root and of the bytes that the store has, so that contracts need no
//! premise that the tree is sound; a block that is no tree block is met as `Malformed`. Each error that tells of a block
//! tells of one of the tree's, as it was before the call, and each Ok says that the blocks on its way were whole then.
#![tactic(auto)]

mod blocks;
mod reads;
mod rows;
mod sets;
mod trees;
mod walks;

pub use reads::get;
pub use trees::{frame, set_all};
pub use walks::{Mark, walk, walk_marked};
