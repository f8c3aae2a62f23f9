//! A metaslab: the free runs among 512 units of a device.
//!
//! 512 units have at most 256 maximal runs. A metaslab has room for all of them from the start, about 4 KiB for the
//! 2 MiB that it stands for, so nothing that is given out or given back later takes memory.
ghost use Rattle.std.specs.Prelude.{◌≡◌, ℕ, ◌+◌, ◌<◌, ◌≤◌, ◌^◌, [], IfOk, length};
ghost use Rattle.zr_base.specs.Extents.{HasNone, AddsUnits, longest_len, IsMaximal};
ghost use Rattle.zr_metaslab.specs.Metaslabs.{TakesRun, AreInside};

use std::alloc::Global;
use std::marker::Model;
use zr_base::{Extent, NoMemory};
use zr_choose::Chooser;
use zr_ranges::RangeSet;

#[derive(Drop)]
pub struct Metaslab {
    free: RangeSet,
}

impl Model for Metaslab {
    ghost use Rattle.std.specs.Prelude.{◌≤◌, ◌+◌, List, length};
    ghost use Rattle.zr_base.specs.declared.space.Extent.{Extent};

    ghost Value = { List Extent };

    ghost view = { λ a. a.free.extents };

    ghost invariant = { λ a. 258 ≤ length a.free.extents + a.free.spare };
}

impl Metaslab {
    /// No free units, and room for all runs that there can be.
    pub fn new(alloc: Global) -> Result<Metaslab, NoMemory>
        ensures { IfOk result (λ s. s ≡ []) }
    {
        let mut free = RangeSet::new(alloc);
        free.reserve(258)?;
        Ok(Metaslab { free })
    }

    /// The longest run. It goes over all of them.
    pub fn longest(&self) -> u64
        ensures { result ≡ longest_len self.now }
    {
        self.free.longest()
    }

    /// Gives out the front of the run that the chooser picks.
    #[tactic(auto, using(crate::proofs::Runs::are_runs))]
    pub fn alloc(&mut self, want: u64, chooser: &Chooser) -> Extent
        requires some { 0 < want }
        requires room { want ≤ longest_len self.old }
        ensures { TakesRun self.old self.new chooser.now.policy want result }
    {
        let runs = self.free.extents();
        match chooser.pick(want, runs) {
            None => unreachable!(),
            Some(i) => self.free.take_from(i, want),
        }
    }

    /// Takes back units. The metaslab begins at `base`.
    pub fn release(&mut self, base: u64, e: Extent)
        requires not_empty { 0 < e.len }
        requires from { base ≤ e.start }
        requires to { e.start + e.len ≤ base + 512 }
        requires low { base ≤ 2 ^ 61 }
        requires inside { AreInside base self.old }
        requires apart { HasNone self.old e }
        ensures { AddsUnits self.old self.new e }
    {
        let _runs = self.free.extents();
        self.free.add_reserved(e);
    }
}
