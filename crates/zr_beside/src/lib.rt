//! Trees that stand beside each other in one store of blocks.
//!
//! The streams of a pool lie in trees of their own, and a commit rewrites one after another. All their blocks are stored and
//! no block is one of two, so what takes the blocks of one tree out of the store takes no block of another tree. Hence each
//! other tree has its bytes still when one is replaced, when some are given back, and when one comes.
#![tactic(auto)]

mod laws;

pub use laws::{
    a_row_changes, a_stream_comes, a_stream_is_rewritten, a_tree_comes, a_tree_is_replaced,
    another_order, one_of_a_row_stands, one_stands, others_stay, their_blocks_stay, they_stay,
    trees_are_given_back,
};
