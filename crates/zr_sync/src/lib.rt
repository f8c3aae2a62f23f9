//! An open pool on devices, and the commit that ends its group.
//!
//! A commit writes the trees of the changed objects, then what changed of the metadata, and at last a root that leads to
//! all of it. Each of its calls on the devices is a store of blocks of its own over the space, the disks and the cache of
//! the pool, and says what it left alone, so that the next one may follow.
#![tactic(auto)]

mod checkpoints;
mod commits;
mod device_streams;
mod ends;
mod fault;
mod heads;
mod late;
mod laws;
mod logs;
mod mappings;
mod open;
mod roots;
mod stop;
mod stores;
mod trees;
mod words;

pub use checkpoints::{checkpoint, discard_some, give_up_checkpoint};
pub use commits::{commit, commit_anew, commit_moving};
pub use fault::Fault;
pub use laws::{a_group_begins_with_what_is_recorded, blocks_leave_the_streams};
pub use logs::Logs;
pub use mappings::{MappingStream, cond_grows, mapping_grows};
pub use open::{
    Checkpoint, CondStreams, DeviceStreams, EMPTY, NO_COND, NO_STREAMS, NONE_TURNED, OpenPool,
    Table, Turned,
};
pub use stop::Stop;
pub use stores::{give_streams, give_tree, put_group, put_head, put_log, put_words};
pub use words::{Log, LogWords, anew_words, first_late_words, log_words, second_late_words};
