//! A pool as a run over lines sees it: one call for one command, whatever the pool stands on.
//!
//! What commands mean to a pool is the pool's own to say (`Meaning`). So the loop over lines is proved once, for every kind
//! of pool, and a run says of each what its meaning says.
#![tactic(auto)]

mod pool;

pub use pool::{Pool, Stop};
