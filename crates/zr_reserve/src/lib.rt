//! Why a commit finds room, and why what is owed is there again behind it, as laws.
//!
//! A commit puts and frees tree blocks, writes metadata, gives the old metadata back and ends its group. What each of these
//! does to the counts is a law of `zr_reckon`, and that the counts then leave room a law of `zr_owed`; here they are joined,
//! over any number of events. Room is the free units and the metadata that comes back: metadata that turns stays within it
//! all the time, so only tree blocks take from it. There is no code: each law is the contract of a function with an empty
//! body.
#![tactic(auto)]

pub mod checkpoints;
pub mod commands;
pub mod commits;
pub mod events;
pub mod steps;
pub mod streams;
