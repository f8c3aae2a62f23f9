//! What a stop leaves of an open pool.
//!
//! A pool is copy-on-write: while a group is open its lines put blocks into units that were free when the group began, and
//! nothing else is written. So whatever a crash makes of the writes that are pending, what the last root leads to has its
//! bytes, and the slots show that root. A commit writes into free units too, and makes them durable before it puts the next
//! root into ring slots: in the place of that root an honest crash leaves what was there, the root or none. So what is shown
//! at each moment is the state that was committed, or the next one.
#![tactic(auto)]

mod laws;
mod runs;

pub use laws::{
    a_commit_leaves_one_of_two_states, a_commit_leaves_the_pool_committed, a_group_begins,
    a_group_leaves_the_last_root, a_stopped_commit_leaves_one_of_two_states, groups_follow,
    lines_stay_in_their_group, the_last_root_is_shown,
};
pub use runs::{
    a_commit_begins_a_group, a_commit_ends_its_group, a_device_joins, a_line_stays_in_its_group,
    a_pool_goes_back, a_pool_is_made, a_pool_that_was_left_begins_a_group,
};
