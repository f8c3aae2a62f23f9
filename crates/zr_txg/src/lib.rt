//! The open group: what was changed since the last commit.
//!
//! Changed blocks are written at their command, but the trees that point to them only at the commit. Until then this is
//! the one place that knows of them. The last change of a block counts and the last record of an object; a drop is a
//! record too, and takes the changes of the object's blocks with it. All is kept by rising ID and index, since a commit
//! goes over it in that order.
#![tactic(auto)]

mod changed;
mod group;

pub use group::{GROUP_LIMIT, Group};
