//! What a walk of all pointers finds, beside what is counted.
//!
//! A pool counts the units of its devices as they change, and never by a walk. An audit checks that: it takes the
//! addresses that a walk has met, follows them over removed devices, and counts the different units to which they lead.
//! One set of units for each device takes them up with the copies on it, so an address that comes twice counts once. Where
//! nothing is leaked, and nothing is used that is counted as free, the two numbers of each device are equal.
#![tactic(auto)]

mod answer;
mod ends;
mod found;
mod walk;

pub use answer::Audit;
pub use walk::audit;
