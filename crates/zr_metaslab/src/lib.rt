//! The allocator: what is free on each device, and where a want is placed.
//!
//! A device is cut into metaslabs of 512 units, and a run never crosses one. The device with the most free units is
//! tried first, on it the lowest metaslab that has a run of the want, and there a chooser picks among the free runs.
//! Each metaslab has room for all runs that it can have from the start, so that only `add_dev` takes memory: what was
//! accepted can always be given out, and what is freed can always be taken back.
#![tactic(auto)]

ghost use Rattle.std.specs.Prelude.{◌≡◌, ℕ, ◌+◌, ◌-◌, ◌<◌, ◌≤◌, ◌^◌, true, false, IfOk, IfErr, IfSome, IfNone, OnOk, OnErr, length, [], ◌∷◌, ◌++◌, vec_len};
ghost use Rattle.std.specs.Vec.{vec_capacity};
ghost use Rattle.zr_base.specs.Extents.{has_unit, in_extent};
ghost use Rattle.zr_rules.specs.Placement.{IsPlacement, HasNoPlacement, HasRunSomewhere};
ghost use Rattle.zr_metaslab.specs.Devices.{free_at, count_at, units_at, serves_at, free_of, device_at, AreSound, Takes, Gives, AddsDevice, Turns, Forgets, extent_of};

mod device;
mod finder;
mod maxima;
mod metaslab;
mod order;
mod reserved;

use device::Device;
use finder::Finder;
use maxima::Maxima;
use metaslab::Metaslab;
use order::{first_device, longest_on};
use std::alloc::Global;
use std::marker::Model;
use zr_base::{Dva, Extent, NoMemory};
use zr_choose::Chooser;
use zr_ranges::RangeSet;

/// No device in service has `needed` units in a row within a metaslab; `longest` are the most there.
#[derive(Clone, Copy, PartialEq, Eq, Debug)]
pub struct NoRun {
    pub needed: u64,
    pub longest: u64,
}

/// The free units of all devices.
#[derive(Drop)]
pub struct Slabs {
    alloc: Global,
    devs: Vec<Device>,
}

impl Model for Slabs {
    ghost use Rattle.zr_metaslab.specs.Devices.{Devices, IsAllocator};

    ghost Value = { Devices };

    ghost view = { λ a. a.devs.items };

    ghost invariant = { λ a. IsAllocator a.devs.items };
}

#[tactic(auto, unfolding(crate::specs::Devices::free_at, crate::specs::Devices::count_at, crate::specs::Devices::units_at, crate::specs::Devices::serves_at))]
impl Slabs {
    /// No devices. It takes no memory.
    pub fn new(alloc: Global) -> Slabs
        ensures devs { length result ≡ 0 }
        ensures serves { (d : ℕ) → serves_at result d ≡ false }
        ensures free { (d u : ℕ) → free_at result d u ≡ false }
        ensures count { (d : ℕ) → count_at result d ≡ 0 }
        ensures units { (d : ℕ) → units_at result d ≡ 0 }
    {
        Slabs {
            alloc,
            devs: Vec::new(alloc),
        }
    }

    /// Adds a device in service, with all units free that are not used, or puts it in the place of the one with this
    /// index. It goes over all metaslabs and the used extents.
    pub fn add_dev(&mut self, dev: u32, units: u64, used: &RangeSet) -> Result<(), NoMemory>
        requires small { units < 2 ^ 40 }
        requires within { (u : ℕ) → has_unit used.now.extents u ≡ true → u < units }
        ensures ok { OnOk result (AddsDevice self.old self.new dev units used.now.extents) }
        ensures err { OnErr result (self.new ≡ self.old) }
    {
        let d = dev as usize;
        let device = Device::new(self.alloc, units, used.extents())?;
        if d < self.devs.len() {
            self.devs[d] = device;
            return Ok(());
        }
        self.devs.reserve(d - self.devs.len() + 1)?;
        fill(&mut self.devs, self.alloc, d);
        push_reserved(&mut self.devs, device);
        Ok(())
    }

    /// Forgets a device and its free units.
    pub fn forget(&mut self, dev: u32)
        requires { dev < length self.old }
        ensures { Forgets self.old self.new dev }
    {
        self.devs[dev as usize] = Device::none(self.alloc);
    }

    /// The free units of a device.
    pub fn free_units(&self, dev: u32) -> u64
        requires { dev < length self.now }
        ensures { result ≡ count_at self.now dev }
    {
        self.devs[dev as usize].free_units()
    }

    /// Takes a device out of service: nothing is given out on it, and what comes back is kept.
    pub fn off(&mut self, dev: u32)
        requires { dev < length self.old }
        ensures { Turns self.old self.new dev false }
    {
        let device = &mut self.devs[dev as usize];
        device.turn(false);
    }

    /// Takes a device into service again.
    pub fn on(&mut self, dev: u32)
        requires { dev < length self.old }
        ensures { Turns self.old self.new dev true }
    {
        let device = &mut self.devs[dev as usize];
        device.turn(true);
    }

    /// The most units that follow each other within a metaslab of a device in service, or 0.
    #[tactic(auto, using(crate::proofs::Fits::longest_somewhere, crate::proofs::Fits::none_longer))]
    pub fn longest(&self) -> u64
        ensures some { 0 < result → HasRunSomewhere (free_of self.now) result }
        ensures most { ¬ HasRunSomewhere (free_of self.now) (result + 1) }
    {
        longest_on(self.devs.as_slice())
    }

    /// Gives out the front of the run that the chooser picks in the first metaslab that has one, of the first device
    /// that has one. It takes no memory, and goes over the devices, logarithmically over the metaslabs of the one, and
    /// over the runs of that metaslab.
    pub fn alloc(&mut self, want: u64, chooser: &Chooser) -> Result<Dva, NoRun>
        requires some { 0 < want }
        requires few { want ≤ 256 }
        ensures placed { IfOk result (IsPlacement (free_of self.old) chooser.now.policy want) }
        ensures taken { IfOk result (λ at. Takes self.old self.new at.dev (extent_of at)) }
        ensures in_range { IfOk result (λ at. at.start + at.len < 2 ^ 40) }
        ensures needed { IfErr result (λ e. e.needed ≡ want) }
        ensures shorter { IfErr result (λ e. e.longest < want) }
        ensures none { IfErr result (λ e. HasNoPlacement (free_of self.old) want e.longest) }
        ensures unchanged { OnErr result (self.new ≡ self.old) }
    {
        let Some(d) = first_device(self.devs.as_slice(), want) else {
            let longest = longest_on(self.devs.as_slice());
            return Err(NoRun {
                needed: want,
                longest,
            });
        };
        let device = &mut self.devs[d];
        let e = device.alloc(want, chooser);
        Ok(Dva {
            dev: d as u32,
            start: e.start,
            len: want as u32,
        })
    }

    /// Takes back units that were given out or used. It takes no memory. The cost for each metaslab that they meet is
    /// logarithmic in those of the device and linear in the runs of the one.
    pub fn release(&mut self, dev: u32, e: Extent)
        requires not_empty { 0 < e.len }
        requires within { e.start + e.len ≤ units_at self.old dev }
        requires apart { (u : ℕ) → in_extent e u ≡ true → free_at self.old dev u ≡ false }
        ensures { Gives self.old self.new dev e }
    {
        let device = &mut self.devs[dev as usize];
        device.release(e);
    }
}

// Adds devices that are not there, up to an index. It takes no memory.
fn fill(devs: &mut Vec<Device>, alloc: Global, d: usize)
    requires below { length devs.old.items ≤ d }
    requires room { d < vec_capacity devs.old }
    requires sound { AreSound devs.old.items }
    ensures len { length devs.new.items ≡ d }
    ensures capacity { d < vec_capacity devs.new }
    ensures same { (j : ℕ) → device_at devs.new.items j ≡ device_at devs.old.items j }
    ensures sound { AreSound devs.new.items }
{
    while devs.len() < d {
        push_reserved(devs, Device::none(alloc));
    }
}

// Adds a device where there is room for it.
fn push_reserved(devs: &mut Vec<Device>, device: Device)
    requires { vec_len devs.old < vec_capacity devs.old }
    ensures items { devs.new.items ≡ devs.old.items ++ device ∷ [] }
    ensures capacity { vec_capacity devs.old ≤ vec_capacity devs.new }
{
    match devs.push(device) {
        Ok(()) => {}
        Err(_) => unreachable!(),
    }
}
