//! Labels and uberblocks: what a device says of itself and of its pool, and where that stands on a disk.
//!
//! A disk has four labels, two at its front and two at its end, so that no single accident takes all of them. A label
//! has a label block, which says which device of which pool the disk is, and a ring of 32 uberblocks, each of which is
//! a root of the pool. A block that is caught in a write has a wrong sum, and a block with a wrong sum is none.
#![tactic(auto)]

mod block;
mod geometry;
mod label;
mod laws;
mod newer;
mod root;
mod rows;
mod uber;

pub use geometry::{LABEL_BYTES, label_at, slot_of, units_of_size, whole};
pub use label::is_name;
pub use laws::one_value;
pub use newer::newer_of;
pub use root::{Label, Name, Newer, Seen, Uber, best};
pub use rows::NO_ROW;
pub use uber::is_uber;
