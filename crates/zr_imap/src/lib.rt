//! The mapping of a device that was evacuated.
//!
//! When a device is removed its units are copied elsewhere, and pointers to it stay as they are for ever. Its mapping
//! says where each run of units went: entries of at most 256 units, sorted by their source, in pages of 170 entries as
//! they are read and written. A mapping only grows, at its end, while the device is evacuated. A look-up is a search by
//! halves over all entries, and its comparisons are counted, so that its bound is part of the contract.
#![tactic(auto)]

mod image;
mod page;
mod pages;
mod sorted;
mod spelling;
mod steps;

pub use image::{Piece, first_gap, gap_in, image_of, pieces};
pub use pages::Imap;
pub use sorted::{Sorted, search};
pub use spelling::{ENTRY_BYTES, decode_entry, encode_entry, is_writable};
pub use steps::Steps;
