//! A long lawful day from a number.
//!
//! A generated run tries the pool for as long as one likes, and can be had again from two numbers. It makes a pool on
//! two devices with sixteen objects in it, and fills, punches and reads them as the draws fall. A quarter of the way a
//! third device comes and the first leaves, half of the way a checkpoint is taken, and after three quarters its
//! discarding begins. zr_script's specs/Generated tells which line stands where, and what is made here is exactly that.
#![tactic(auto)]

mod draws;
mod run;

pub use run::script_of;

#[cfg(test)]
mod tests;
