//! The blocks that were read or written last, in memory.
//!
//! An entry is a pointer, the bytes of its block, and the runs of units on devices to which its address led. A cache
//! knows no disk. What a layer above keeps true of each entry (that its bytes stand in these units now) stays true here:
//! each call answers just which entries are left and which one came, so a layer that writes units forgets the entries
//! that lie there, and nothing else.
#![tactic(auto)]

mod cache;
mod entry;
mod table;

pub use entry::{Block, Key};
pub use table::Cache;
