//! How the commands of a run are done.

use zr_choose::Chooser;

/// Which chooser the pool takes, and how many rounds of steps follow each line.
#[derive(Clone, Copy)]
pub struct Course<'a> {
    pub pick: &'a Chooser,
    /// At most 1,000.
    pub rounds: u64,
}
