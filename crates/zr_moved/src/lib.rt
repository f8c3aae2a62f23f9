//! Whoever reads the root of an open pool is led where the pool is, also over removed devices.
//!
//! An open pool follows a block that lay on a removed device by the mappings that it holds in memory. An import has nothing but the
//! disks: it reads the mappings out of the streams of the root that it found. Where these have the words of the pool's own
//! mappings, both lead to the same units, and so to the same objects.
#![tactic(auto)]

mod laws;

pub use laws::{a_readable_root_means_its_objects, what_tells_moves_stays};
