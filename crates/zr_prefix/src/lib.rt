//! What a stopped run leaves, and what the run behind it finds.
//!
//! A run says of itself how its disks stand between two lines and at each moment of one. From that follows what its user
//! wants to know: whenever the machine stops, whatever an honest crash leaves shows the objects behind a prefix of the lines
//! that were answered, and no line behind that prefix was answered with a commit. The next run imports just these objects, is
//! stopped in its turn, and so on: each run of a list goes on from a prefix of the one before.
#![tactic(auto)]

mod laws;

pub use laws::{
    a_line_shows_a_prefix, a_pool_is_there, a_rest_shows_a_prefix, a_stopped_run_shows_a_prefix,
    stopped_runs_join, what_is_committed_is_told,
};
