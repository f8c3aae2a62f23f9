//! Blocks on the disks of a shelf.
//!
//! A block is read where its address leads: the runs of its units, one call a run, and one digest over all of it. What
//! comes back has the sum of its pointer, or the answer says what is wrong. A new block gets free units of a device in
//! service and is written there in one call, so no unit that is in use is ever written.
//!
//! A `Vdev` is a store of blocks over a space, a shelf and a cache that it borrows; a `Reader` is one that is only read,
//! before it is known which units are in use.
#![tactic(auto)]

mod cached;
mod copy;
mod kind;
mod laws;
mod nothing;
mod reader;
mod reads;
mod runs;
mod vdev;
mod writes;

pub use cached::{get_block, put_block};
pub use copy::{Copied, copy_step};
pub use kind::{Kind, Mount, Place};
pub use laws::{
    copies_over_commits, held_apart, held_by_the_next, held_in_service, mounted_over_removals,
};
pub use reader::Reader;
pub use reads::read_block;
pub use runs::resolve;
pub use vdev::Vdev;
pub use writes::{NotPut, write_block};
