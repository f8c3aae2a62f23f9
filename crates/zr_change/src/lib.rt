//! A change of an object's bytes, over any store of blocks.
//!
//! A change goes in four steps. First it is planned: each touched block has its old pointer and its new bytes, and nothing
//! is changed yet, so that a caller can test what the change needs against what is free. Then the new blocks are put; where
//! that cannot be done, all that were put are given back. Then the open group records the new pointers, and only then the
//! old blocks are given back. A block of zeros is stored as no block.
#![tactic(auto)]

mod changes;
mod laws;
mod objects;
mod plans;
mod ranges;
mod records;
mod stores;

pub use changes::change_object;
pub use laws::frame;
pub use objects::{drop_object, make_object};
pub use plans::{Planned, new_units, olds, plan, puts};
pub use ranges::{Bytes, Edit, MOST_BLOCKS, blocks_touched, fits_object, new_blocks};
pub use records::record_change;
pub use stores::{free_olds, put_all};
