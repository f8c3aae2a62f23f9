//! The free units of a device, by metaslabs.
//!
//! Beside the metaslabs stand the number of free units and a tree of the longest runs. So what is asked in every
//! allocation, how much is free, how long the longest run is and which metaslab is the first that fits, is read or
//! found in logarithmic time; only the one metaslab that changes is gone over.
ghost use Rattle.std.specs.Prelude.{◌≡◌, ℕ, ◌+◌, ◌-◌, ◌*◌, ◌/◌, ◌<◌, ◌≤◌, ◌^◌, ◌&&◌, ◌||◌, not, true, false, nat_le, nat_lt, [], IfOk, length};
ghost use Rattle.zr_base.specs.Extents.{has_unit, unit_count, IsMaximal};
ghost use Rattle.zr_metaslab.specs.Metaslabs.{longest_of, free_count, is_free, slab_at, TakesFirst, LosesUnits, GainsUnits, HasNoneFree};
ghost use Rattle.zr_metaslab.specs.Devices.{IsSound, no_device};

use crate::{Finder, Metaslab};
use std::alloc::Global;
use std::marker::Model;
use zr_base::{Extent, NoMemory};
use zr_choose::Chooser;

/// The units of a metaslab.
const SLAB: u64 = 512;

#[derive(Drop)]
pub struct Device {
    on: bool,
    units: u64,
    free: u64,
    longest: Finder,
    slabs: Vec<Metaslab>,
}

impl Model for Device {
    ghost use Rattle.zr_metaslab.specs.Metaslabs.{IsDevice};
    ghost use Rattle.zr_metaslab.specs.Devices.{DeviceFree};

    ghost Value = { DeviceFree };

    ghost view = { λ a. record { on = a.on; units = a.units; slabs = a.slabs.items } };

    ghost invariant = { λ a. IsDevice a.units a.free a.longest a.slabs.items };
}

impl Device {
    /// A device that is not there. It takes no memory.
    pub fn none(alloc: Global) -> Device
        ensures device { result ≡ no_device }
        ensures sound { IsSound result }
    {
        Device {
            on: false,
            units: 0,
            free: 0,
            longest: Finder::none(alloc),
            slabs: Vec::new(alloc),
        }
    }

    /// A device in service of which nothing is free.
    pub fn full(alloc: Global, units: u64) -> Result<Device, NoMemory>
        requires { units < 2 ^ 40 }
        ensures units { IfOk result (λ d. d.units ≡ units) }
        ensures on { IfOk result (λ d. d.on ≡ true) }
        ensures none { IfOk result (λ d. (u : ℕ) → is_free d.slabs u ≡ false) }
        ensures count { IfOk result (λ d. free_count d.slabs ≡ 0) }
        ensures sound { IfOk result IsSound }
    {
        let count = units.div_ceil(SLAB) as usize;
        let longest = Finder::new(alloc, count)?;
        let slabs = full_slabs(alloc, count)?;
        Ok(Device {
            on: true,
            units,
            free: 0,
            longest,
            slabs,
        })
    }

    /// A device in service of which all units are free that are not used. It costs `release` for each gap.
    pub fn new(alloc: Global, units: u64, used: &[Extent]) -> Result<Device, NoMemory>
        requires small { units < 2 ^ 40 }
        requires maximal { IsMaximal used.now }
        requires within { (u : ℕ) → has_unit used.now u ≡ true → u < units }
        ensures units { IfOk result (λ d. d.units ≡ units) }
        ensures on { IfOk result (λ d. d.on ≡ true) }
        ensures free { IfOk result (λ d. (u : ℕ) → is_free d.slabs u ≡ (nat_lt u units && not (has_unit used.now u))) }
        ensures count { IfOk result (λ d. free_count d.slabs + unit_count used.now ≡ units) }
        ensures sound { IfOk result IsSound }
    {
        let mut device = Device::full(alloc, units)?;
        let mut at = 0;
        for run in used {
            device.release_to(at, run.start);
            at = run.start + run.len;
        }
        device.release_to(at, units);
        Ok(device)
    }

    // Takes back the units from one up to another, which may be none.
    fn release_to(&mut self, from: u64, to: u64)
        requires ordered { from ≤ to }
        requires within { to ≤ self.old.units }
        requires apart { (u : ℕ) → from ≤ u → is_free self.old.slabs u ≡ false }
        requires sound { IsSound self.old }
        ensures free { (u : ℕ) → is_free self.new.slabs u ≡ (is_free self.old.slabs u || nat_le from u && nat_lt u to) }
        ensures count { free_count self.new.slabs + from ≡ free_count self.old.slabs + to }
        ensures device { self.new ≡ record self.old { slabs = self.new.slabs } }
        ensures sound { IsSound self.new }
    {
        if from < to {
            self.release(Extent {
                start: from,
                len: to - from,
            });
        }
    }

    pub fn is_on(&self) -> bool
        ensures { result ≡ self.now.on }
    {
        self.on
    }

    pub fn units(&self) -> u64
        ensures { result ≡ self.now.units }
    {
        self.units
    }

    pub fn free_units(&self) -> u64
        ensures { result ≡ free_count self.now.slabs }
    {
        self.free
    }

    pub fn turn(&mut self, on: bool)
        requires { IsSound self.old }
        ensures device { self.new ≡ record self.old { on = on } }
        ensures sound { IsSound self.new }
    {
        self.on = on;
    }

    /// The longest run in a metaslab.
    pub fn longest(&self) -> u64
        ensures { result ≡ longest_of self.now.slabs }
    {
        self.longest.greatest()
    }

    /// Gives out the front of the run that the chooser picks in the first metaslab that has one. Logarithmic in the
    /// metaslabs, and linear in the runs of the one.
    #[tactic(auto, using(crate::proofs::Places::slab_below))]
    pub fn alloc(&mut self, want: u64, chooser: &Chooser) -> Extent
        requires some { 0 < want }
        requires room { want ≤ longest_of self.old.slabs }
        ensures taken { TakesFirst self.old.slabs self.new.slabs chooser.now.policy want result }
        ensures loses { LosesUnits self.old.slabs self.new.slabs result }
        ensures within { result.start + result.len ≤ self.old.units }
        ensures device { self.new ≡ record self.old { slabs = self.new.slabs } }
        ensures sound { IsSound self.new }
    {
        let Some(k) = self.longest.first(want) else {
            unreachable!()
        };
        let slab = &mut self.slabs[k];
        let e = slab.alloc(want, chooser);
        let longest = slab.longest();
        self.longest.set(k, longest);
        self.free -= want;
        e
    }

    /// Takes back units. The cost is that of `alloc` for each metaslab that they meet.
    #[tactic(auto, using(crate::proofs::Places::count_within))]
    pub fn release(&mut self, e: Extent)
        requires not_empty { 0 < e.len }
        requires within { e.start + e.len ≤ self.old.units }
        requires apart { HasNoneFree self.old.slabs e }
        requires sound { IsSound self.old }
        ensures gains { GainsUnits self.old.slabs self.new.slabs e }
        ensures within { free_count self.new.slabs ≤ self.new.units }
        ensures device { self.new ≡ record self.old { slabs = self.new.slabs } }
        ensures sound { IsSound self.new }
    {
        let end = e.start + e.len;
        let mut at = e.start;
        while at < end {
            let k = at / SLAB;
            let stop = end.min(SLAB * (k + 1));
            let piece = Extent {
                start: at,
                len: stop - at,
            };
            self.release_in(k as usize, piece);
            at = stop;
        }
    }

    // Takes back units of one metaslab.
    fn release_in(&mut self, k: usize, e: Extent)
        requires not_empty { 0 < e.len }
        requires from { 512 * k ≤ e.start }
        requires to { e.start + e.len ≤ 512 * k + 512 }
        requires within { e.start + e.len ≤ self.old.units }
        requires apart { HasNoneFree self.old.slabs e }
        ensures gains { GainsUnits self.old.slabs self.new.slabs e }
        ensures device { self.new ≡ record self.old { slabs = self.new.slabs } }
        ensures sound { IsSound self.new }
    {
        let slab = &mut self.slabs[k];
        slab.release(SLAB * (k as u64), e);
        let longest = slab.longest();
        self.longest.set(k, longest);
        self.free += e.len;
    }
}

// So many metaslabs without free units.
fn full_slabs(alloc: Global, count: usize) -> Result<Vec<Metaslab>, NoMemory>
    ensures length { IfOk result (λ v. length v.items ≡ count) }
    ensures none { IfOk result (λ v. (k : ℕ) → slab_at v.items k ≡ []) }
    ensures count { IfOk result (λ v. free_count v.items ≡ 0) }
{
    let mut slabs = Vec::new(alloc);
    for _ in 0..count {
        slabs.push(Metaslab::new(alloc)?)?;
    }
    Ok(slabs)
}
