//! What each event does to the counts from which the room is computed, as laws.
//!
//! The room is the free units and the metadata units that come back. What is owed is computed from a few counts: the
//! words of the streams if each were written anew, the streams, the units that are yet to be copied. The relations that
//! the calls of a space keep tell the role of each unit before and behind an event, and a set is kept as the one list of
//! its maximal extents. So the counts behind an event follow from those before it, for every space. There is no code:
//! each law is the contract of a function with an empty body.
#![tactic(auto)]

pub mod allocations;
pub mod bounds;
pub mod commits;
pub mod frees;
pub mod groups;
pub mod removals;
pub mod rooms;
pub mod sets;
pub mod steps;
