//! Making a pool on some slots, and taking one more device into an open pool.
//!
//! Both look at all slots first, so a refusal leaves the disks and the pool as they were. A device is taken on while its
//! group is open: its labels are durable before a root names it, so a stop in between leaves labels alone.
#![tactic(auto)]

mod adding;
mod blank;
mod making;
mod names;
mod sizes;
mod taking;

pub use adding::add;
pub use blank::{CACHED, empty_pool};
pub use making::create;
pub use names::{slot_of, slots_named};
pub use sizes::sizes_of;
