//! The definitions, tried on examples and against wrong readings.
//!
//! A definition that is wrong proves nothing, however many contracts cite it. So each is computed here on a small
//! example whose value comes from outside, and readings that would be wrong are shown to be excluded. There is no code:
//! each law is the contract of a function with an empty body.
#![tactic(auto)]

pub mod commands;
pub mod counts;
pub mod formats;
pub mod lines;
pub mod space;
pub mod uses;
