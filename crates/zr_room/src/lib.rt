//! Whether there is room for a command, beside what the commits to come may take.
//!
//! A command needs the units of its new blocks, what is owed once it is done, and for new blocks the slop too. What is
//! owed is computed from counts (`zr_owed`), and the space of a pool has them; here the two come together.
#![tactic(auto)]

mod room;

pub use room::{demand, metadata_with, owed_with, slop_now};
