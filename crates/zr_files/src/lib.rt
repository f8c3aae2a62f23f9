//! The shelf and the desk over files: a device is an open file, the input and the output are those of the program.
//!
//! It is the trusted edge, so it stands by itself: nothing of the pool is known here, and what the system was asked for is
//! counted and kept, so that contracts can speak of it.
#![tactic(auto)]

mod file_desk;

pub use file_desk::{DeviceFile, FileDesk, Opening};
