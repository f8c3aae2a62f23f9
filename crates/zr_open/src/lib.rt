//! Opening the pool that the slots of a shelf show.
//!
//! An import writes nothing. First it makes durable what was written before, so that no crash leaves another pool than the one
//! that it finds. Then it looks at all slots, since a slot says nothing of the others, and reads the root that is current,
//! through a store that knows of no unit what it is used for; and only a root that keeps all rules
//! becomes an open pool. What the root has recorded may have been written by anyone, so nothing of it is believed
//! before it was looked at.
//!
//! While a checkpoint is held, the root that it saved is read beside the current one, over the devices and the mappings that it
//! had.
//!
//! The laws say what this means for the pool that was there before: behind a commit the slots show its root, and by its head
//! the very objects that the pool held.
#![tactic(auto)]

mod find;
mod groups;
mod imports;
mod laws;
mod look;
mod pool;
mod read;
mod rewinds;
mod room;
mod saved;

pub use groups::go_back;
pub use imports::{import, settle};
pub use laws::{
    commit_is_found, head_is_read, held_is_meant, left_is_found, left_is_shown, meant_is_shown,
    shown_is_held, streams_record_parts,
};
pub use rewinds::rewind;
