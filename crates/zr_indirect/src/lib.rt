//! What a device has beside its units while it is given up.
//!
//! A device that leaves has a mapping that grows, and once it is gone its mapping is all that is left of it. Units of it
//! that no pointer needs any more are marked: while it leaves, so that their copies are freed and not read, and once it is
//! gone, so that the mapping can be condensed. A root records these marks as a log, so what came to them and what went from
//! them in the open group stands apart, and the log gains what changed and not the set.
#![tactic(auto)]

mod indirect;
mod leaving;
mod mapping;
mod sets;

pub use mapping::Mapping;
