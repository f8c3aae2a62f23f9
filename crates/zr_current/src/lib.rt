//! Which root is the current one once a commit was done.
//!
//! A commit writes into units and then puts its root into ring slots, so labels and all other roots stay as they were. What is
//! seen of the slots behind it is what was seen and this root, which is one group above all others: so it is the current one.
#![tactic(auto)]

mod laws;

pub use laws::{commit_goes_on, commit_is_current, commit_is_shown, units_are_not_shown};
