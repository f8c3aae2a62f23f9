//! A root, read from the disks of its devices.
//!
//! What a root has recorded may have been written by anyone, so nothing of it is believed before it was looked at. Its metadata
//! stands on devices in service, and is read first, through devices of which nothing is known. It tells the mappings of those
//! that are leaving or gone, and the space, over which the directory and the objects are read then.
#![tactic(auto)]

mod base;
mod named;
mod slots;
mod whole;

pub use named::have_rows;
pub use slots::own_slots;
pub use whole::{read, read_saved};
