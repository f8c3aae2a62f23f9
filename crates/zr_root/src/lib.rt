//! Streams of words and the head, as trees of leaves of one unit.
//!
//! A string of bytes is cut into leaves of 4,096 bytes, and the last one is filled up with zeros. The leaves are put
//! first, then the blocks above them level by level, so that a tree of n leaves takes as many blocks as it must and no
//! block twice. What reads them back refuses a hole within, and padding that is not zero.
#![tactic(auto)]

mod appends;
mod bytes;
mod down;
mod heads;
mod laws;
mod levels;
mod reads;
mod streams;

pub use appends::append;
pub use bytes::{write_bytes, write_root};
pub use heads::{read_root, units_of};
pub use laws::{streams_have_one_value, streams_stand_alone, streams_take_what_they_must};
pub use reads::{read_bytes, read_stream};
pub use streams::{stream_units, write_stream};
