//! How a pointer to a device that was removed still finds its bytes.
//!
//! A pointer is never rewritten when its device goes. The mapping of the device says where its units went, and where
//! these were on a device that went later, that one's mapping says where they went then. Each mapping leads to devices
//! that are there or went later, so a chain of mappings comes to an end, and the order of removals is its measure.
#![tactic(auto)]

mod devs;
mod laws;
mod maps;
mod remap;
mod touch;
mod visit;

pub use devs::Devs;
pub use laws::visits_of_two_removals;
pub use maps::Maps;
pub use remap::remap_in;
pub use touch::{begun_before, ended_by, pieces_in};
pub use visit::{ChainErr, Collected, Visit, Visited};
