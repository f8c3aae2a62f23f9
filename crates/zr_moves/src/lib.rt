//! What the commands do to the disks: the account of an open pool, each move of it, and what a stop leaves.
//!
//! An open pool holds an account beside its disks: its space, and what the open group has changed. Each command moves the
//! account by rules of space alone, and now and then a commit ties it to the disks again. So a stop at any moment leaves
//! the state after a prefix of the commands, with each commit in it that was answered. There is no code.
#![tactic(auto)]

pub mod answers;
pub mod laws;
pub mod program;
pub mod streams;
