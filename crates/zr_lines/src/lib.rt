//! The lines that read and change an open pool.
//!
//! A line answers all that can be told without a change first: it finds its object as the open group has it, and reads the
//! blocks that it changes in part. Where the group cannot take what the line changes, it is committed before anything is
//! changed. Only then is the room looked at, since a commit changes what is owed and what is free. The new blocks are put,
//! the group records them, and only then the old ones are freed. So a line that is refused leaves the group as it found it.
//!
//! A line works in one group, the one that is open or the next one behind its commit: it writes nothing but units that were
//! free there, or the group's own. So what a crash shows, wherever a line stops, is told by what it says of its group and of
//! its commit.
//!
//! A checkpoint costs the metadata once more, beside that of the saved root, so there must be room for it beyond what is
//! owed. To give one up takes no room of its own. What is kept is then given back by steps, so that no transaction group
//! has to bear all of it.
//!
//! The versions differ in how long a run one entry of a log may have, so an upgrade writes each stream anew, in one commit
//! that is a reset. A checkpoint stays as it stands, with the version of the root that it saved.
#![tactic(auto)]

mod checkpoints;
mod counts;
mod drops;
mod edits;
mod intent;
mod makes;
mod present;
mod range;
mod reads;
mod record;
mod room;
mod steps;
mod stores;
mod upgrades;
mod way;

pub use checkpoints::{give_up, step, take};
pub use drops::drop;
pub use edits::change;
pub use makes::make;
pub use present::MOST_READ;
pub use range::Reach;
pub use reads::{read, sum};
pub use upgrades::upgrade;
