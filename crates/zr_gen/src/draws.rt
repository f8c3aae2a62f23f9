//! Draws from a number.
//!
//! A linear congruential generator of 64 bits: each state gives the next, and a draw is the upper 31 bits of the new
//! state, since the lower ones repeat soon.
ghost use Rattle.std.specs.Prelude.{◌≡◌, ◌<◌, ◌%◌};
ghost use Rattle.zr_script.specs.Generated.{next, given};

use std::marker::Model;

const FACTOR: u64 = 6364136223846793005;

const STEP: u64 = 1442695040888963407;

/// A generator, which contracts see as its state.
#[derive(Drop)]
pub struct Draws {
    state: u64,
}

impl Model for Draws {
    ghost use Rattle.std.specs.Prelude.{ℕ};

    ghost Value = { ℕ };

    ghost view = { λ a. a.state };
}

impl Draws {
    /// A generator in this state.
    pub fn new(state: u64) -> Draws
        ensures { result ≡ state }
    {
        Draws { state }
    }

    /// The next draw modulo `bound`.
    pub fn below(&mut self, bound: u64) -> u64
        requires { 0 < bound }
        ensures state { self.new ≡ next self.old }
        ensures value { result ≡ given (next self.old) % bound }
        ensures small { result < bound }
    {
        self.state = self.state.wrapping_mul(FACTOR).wrapping_add(STEP);
        (self.state >> 33) % bound
    }
}
