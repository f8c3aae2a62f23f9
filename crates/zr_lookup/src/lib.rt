//! Objects as the open group has them.
//!
//! A changed block is written at its command, but the trees that lead to it only at the commit. So an object is looked up
//! in the open group first, and in the directory of the current root where the group has not changed it.
#![tactic(auto)]

mod directory;
mod laws;
mod leaves;
mod overlays;
mod ranges;
mod reads;
mod sums;
mod walks;

pub use directory::{leaves_in, record_by, records_at};
pub use laws::changes_over_tree;
pub use leaves::{blocks_of, leaves_of};
pub use ranges::read_range;
pub use reads::{block_at, block_bytes, pointer_of, record_of};
pub use sums::sum_object;
