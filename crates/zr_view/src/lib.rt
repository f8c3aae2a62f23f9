//! What an address reads from disks, and how its units are read and written.
//!
//! An address leads to places: a device and a unit of it. Each device that is there has a disk, in a slot of the shelf,
//! and a unit stands at its place behind the labels. The bytes of an address are those of its places in order. Whatever
//! keeps blocks on disks, and whatever says what an image of the disks means, speaks of these bytes.
#![tactic(auto)]

mod runs;

pub use runs::{place_of_unit, read_runs, write_run};
