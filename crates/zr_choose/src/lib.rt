//! A chooser among the free runs of a metaslab, with the fact that holds of its answers.
//!
//! An allocator's policy is a plug-in: a boxed closure that is handed the runs of a metaslab and names one of them.
//! Whoever makes a `Chooser` proves of the closure that it names a run that is long enough wherever there is one, and
//! the run that its policy says. That fact is kept beside the closure, so that the allocator can rest on it without
//! knowing which policy it was handed. `picks` has the functions that such closures call.
#![tactic(auto)]

ghost use Rattle.std.specs.Prelude.{◌≡◌, ℕ, ◌+◌, ◌<◌, ◌≤◌, ◌^◌, List, Option, string_bytes};
ghost use Rattle.std.specs.Borrow.{Bor};
ghost use Rattle.zr_base.specs.declared.space.Extent.{Extent};
ghost use Rattle.zr_base.specs.declared.space.Policy.{Policy};
ghost use Rattle.zr_rules.specs.Choices.{AreRuns, IsPick};

mod picks;

pub use picks::{pick_best, pick_dynamic, pick_first};
use std::alloc::Global;
use zr_base::{Extent, Policy};

type Pick = Box<dyn Fn(u64, &[Extent]) -> Option<usize>>;

/// A closure that picks a run, and the policy that it follows.
#[derive(Drop)]
pub struct Chooser {
    name: String,
    policy: Policy,
    pick: Pick,
    ghost callable: { (want : ℕ) (runs : _) → 0 < want → want < 2 ^ 64 → AreRuns runs.now → Pick.pre pick want runs },
    ghost picks: { (want : ℕ) (runs : _) (r : _) → 0 < want → want < 2 ^ 64 → AreRuns runs.now → Pick.post pick want runs r → IsPick policy want runs.now r },
}

impl Chooser {
    /// The closure may be asked for any want of at least 1 among runs in order, and its answers are the policy's.
    pub fn new(name: String, policy: Policy, pick: Pick) -> Chooser
        requires callable { (want : ℕ) (runs : _) → 0 < want → want < 2 ^ 64 → AreRuns runs.now → Pick.pre pick want runs }
        requires picks { (want : ℕ) (runs : _) (r : _) → 0 < want → want < 2 ^ 64 → AreRuns runs.now → Pick.post pick want runs r → IsPick policy want runs.now r }
        ensures policy { result.policy ≡ policy }
        ensures name { result.name ≡ name }
    {
        Chooser { name, policy, pick }
    }

    /// The word by which the command line names it.
    pub fn name(&self) -> &str
        ensures { result.now ≡ string_bytes self.now.name }
    {
        self.name.as_str()
    }

    pub fn policy(&self) -> Policy
        ensures { result ≡ self.now.policy }
    {
        self.policy
    }

    /// The index of the run that it picks, None where none has `want` units. It takes no memory.
    pub fn pick(&self, want: u64, runs: &[Extent]) -> Option<usize>
        requires some { 0 < want }
        requires runs { AreRuns runs.now }
        ensures { IsPick self.now.policy want runs.now result }
    {
        (self.pick)(want, runs)
    }
}
