//! The pool on the devices of the words, and its one call.
//!
//! A command goes to a pool that is open, or makes or opens one. What it does to the pool stands in the crates below; here
//! each line meets its call, and what the call answers becomes a reply.
#![tactic(auto)]

mod begin;
mod lines;
mod names;
mod pool;
mod removals;
mod replies;
mod tables;

pub use pool::DevicePool;
