//! That the disks show the last root of an open pool.
//!
//! A pool that is open was found there or made there, and from then on it writes units and publishes roots. So its last root
//! is the newest of its pool on the disks at each moment between two calls, and an import behind it finds this root. Each
//! call says so of itself by one clause, and the clauses of calls in a row add up.
#![tactic(auto)]

mod laws;

pub use laws::{commit_keeps_last, found_is_last, publishes_newest, units_keep_last};
