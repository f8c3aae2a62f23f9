//! What a pool of plain objects answers, without devices, blocks or addresses.
//!
//! The definitions in specs/ are split by how often they change: the objects, the state of a pool, what one command does
//! to it, and the points of a run of commands.
#![tactic(auto)]

mod actor;

pub use actor::Actor;
