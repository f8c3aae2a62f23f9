//! The units of one device, by what they are used for.
//!
//! A unit that a group frees is still needed by the roots before it, so it becomes free two commits later. What is
//! freed therefore stands in three generations, each with its block units and its metadata units apart: what the open
//! group has freed, and the two late sets. What the open group itself allocated was never in a root, and is free at
//! once. Free units are in no set here: the allocator has them, and gets back what is let go of. So a commit moves
//! sets by their names alone and takes no memory.
#![tactic(auto)]

mod changes;
mod freed;
mod parts;
mod units;

pub use changes::merged;
pub use freed::FreedSets;
pub use parts::{Front, uniform_front};
pub use units::Units;
