//! The slots of the shelf: which of them have the pool, which can be taken, and how labels and roots get there.
//!
//! What a slot shows says nothing of the others, so a pool is found by looking at all of them: the newest root counts,
//! and its table says which slots are its devices. A pool is opened only where no slot contradicts it. What is decided
//! here reads no disk; what is written here stands in the order in which a crash at any moment leaves one root.
#![tactic(auto)]

mod copies;
mod kept;
mod lowest;
mod pool;
mod put;
mod refuse;
mod same;
mod show;
mod tables;
mod unknown;

pub use kept::kept_root;
pub use pool::{Found, find_pool};
pub use put::{prepare_device, publish};
pub use refuse::{Identity, refuse_add, refuse_create};
pub use show::scan_all;
pub use tables::slots_in_both;
