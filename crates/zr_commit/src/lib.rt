//! What a commit writes, over any store of blocks.
//!
//! A commit makes a transaction group whole: the trees of the changed objects and the directory first, then the streams
//! of the metadata that changed, and at last the head that leads to all of them. Each step here writes one of these, and
//! gives back what stood in its place. In which order the steps follow one another is the caller's.
#![tactic(auto)]

mod heads;
mod logs;
mod objects;
mod trees;

pub use heads::{free_head, write_head};
pub use logs::{free_streams, write_anew, write_late, write_log};
pub use objects::write_group;
pub use trees::free_tree;
