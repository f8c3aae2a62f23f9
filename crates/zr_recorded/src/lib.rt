//! What a commit records in the streams of a pool, as an import reads it.
//!
//! An open pool knows of its streams that their trees stand beside each other in the units of metadata, and which words each of
//! them has. An import knows nothing of the units yet: it follows the pointers of the root's head over the bare devices. As
//! long as no device is gone both lead to the same bytes. So the words that a commit wrote are those that an import reads, and
//! they record the very parts of the space that the pool has: the disks show the pool. So does whatever a crash leaves of them, from
//! one line to the next, until the next commit.
#![tactic(auto)]

mod laws;

pub use laws::{
    a_commit_is_found, a_commit_is_shown_after_a_crash, a_condensing_is_read,
    a_crash_shows_the_pool, a_found_commit_is_shown, a_line_keeps_it_found, a_pool_is_shown,
    a_saved_root_goes_with_its_checkpoint, a_stream_is_read, a_whole_pool_was_whole,
    recorded_streams_record_parts,
};
