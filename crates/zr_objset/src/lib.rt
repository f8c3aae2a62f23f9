//! The directory of objects, and their blocks.
//!
//! The directory is a tree whose leaf at ID / 16 has the records of sixteen objects, and each record leads to the tree of
//! that object's blocks. What a directory means is a total function of its root and of the bytes that the store has.
#![tactic(auto)]

mod laws;
mod reads;
mod stores;
mod walks;

pub use laws::frame;
pub use reads::{block, look, read_records};
pub use stores::store;
pub use walks::walk;
