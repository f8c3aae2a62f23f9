//! The outside of the program: disks, an input and an output.
//!
//! A `Shelf` is a list of disks that are read and written by byte. What a crash may leave of them is said by the whole
//! past as plain data: how the shelf stood at each moment, with the writes since the last flush. Between two flushes
//! a crash may leave any bytes in the ranges that were written, and bytes outside stay. A `Desk` is a shelf that takes
//! disks on, reads an input and sends an output.
//!
//! Desks in memory tell all of this; a desk over files tells only how often its calls have failed. So each clause on
//! content stands under `tells`.
#![tactic(auto)]

mod desk;
mod images;
mod mem_desk;
mod memory;
mod sure_desk;

pub use desk::{Desk, DeskErr, Shelf};
pub use mem_desk::MemDesk;
pub use memory::{Asked, Call, Deed, DiskFile, History, Memory};
pub use sure_desk::SureDesk;
