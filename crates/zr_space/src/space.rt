//! The space of an open pool, and what happens to it.
ghost use Rattle.std.specs.Prelude.{◌≡◌, ℕ, ◌+◌, ◌^◌, ◌<◌, ◌≤◌, [], IfOk, IfErr, OnOk, OnErr, length, vec_len, ◌∷◌, ◌++◌, true, false, None};
ghost use Rattle.std.specs.Vec.{vec_capacity};
ghost use Rattle.zr_base.specs.declared.space.Dva.{Dva};
ghost use Rattle.zr_rules.specs.Columns.{columns};
ghost use Rattle.zr_rules.specs.Places.{state_of_dev, units_of_dev};
ghost use Rattle.zr_space.specs.Drops.{IsMeta, KeepsParts};
ghost use Rattle.zr_rules.specs.Frees.{Allocates, AllocatesMeta, DropsMeta};
ghost use Rattle.zr_rules.specs.Steps.{AddsDevice, Commits};
ghost use Rattle.zr_rules.specs.Space.{opened_of};
ghost use Rattle.zr_space.specs.Turning.{TurnsParts};
ghost use Rattle.zr_space.specs.Live.{IsLive};
ghost use Rattle.zr_metaslab.specs.Devices.{extent_of};
ghost use Rattle.zr_space.specs.Views.{space_of, serving, fresh_device};
ghost use Rattle.zr_space.specs.Causes.{HasCause};

use crate::device::Device;
use crate::whole::Whole;
use std::alloc::Global;
use std::marker::Model;
use zr_base::{CkptPart, Columns, DevRow, DevState, Dva, Extent, NoMemory};
use zr_choose::Chooser;
use zr_indirect::Mapping;
use zr_metaslab::{NoRun, Slabs};
use zr_ranges::RangeSet;
use zr_units::Units;

/// Why a call of a space was not done.
#[derive(Clone, Copy, Debug, PartialEq, Eq)]
pub enum SpaceErr {
    /// In units: no device in service has `needed` free units in a row within one metaslab.
    NoRun { needed: u64, longest: u64 },
    /// Memory ran out.
    NoMemory,
}

/// The space of an open pool.
#[derive(Drop)]
pub struct Space {
    pub(crate) alloc: Global,
    pub(crate) whole: Whole,
    pub(crate) slabs: Slabs,
    pub(crate) devs: Vec<Device>,
}

impl Model for Space {
    ghost use Rattle.zr_rules.specs.Space as account;
    ghost use Rattle.zr_space.specs.Views.{space_of, IsSpace};

    ghost Value = { account.Space };

    ghost view = { λ a. space_of a.whole a.devs.items };

    ghost invariant = { λ a. IsSpace a.whole a.slabs a.devs.items };
}

// The units of an address.
pub(crate) fn extent_of(at: &Dva) -> Extent
    ensures { result ≡ extent_of at.now }
{
    Extent {
        start: at.start,
        len: u64::from(at.len),
    }
}

/// A device in service with these units.
pub(crate) fn serving(row: DevRow, units: Units) -> Device
    ensures { result ≡ serving row units }
{
    Device {
        row,
        units,
        moves: Mapping::in_service(),
    }
}

// A device in service of which no unit is used.
fn new_device(alloc: Global, units: u64, txg: u64) -> Device
    ensures { result ≡ fresh_device units txg result.uses.spare }
{
    let row = DevRow {
        state: DevState::On,
        added: txg,
        units,
        gone: 0,
    };
    serving(row, Units::new(alloc, units))
}

/// Adds a device where there is room for it.
pub fn push_reserved(devs: &mut Vec<Device>, device: Device)
    requires { vec_len devs.old < vec_capacity devs.old }
    ensures { devs.new.items ≡ devs.old.items ++ device ∷ [] }
{
    match devs.push(device) {
        Ok(()) => {}
        Err(_) => unreachable!(),
    }
}

impl Space {
    /// The space of a pool without devices. It takes no memory.
    pub fn new(alloc: Global, version: u64) -> Space
        ensures { result ≡ space_of (record { version = version; ckpt = CkptPart.Clear; cond = None }) [] }
    {
        Space {
            alloc,
            whole: Whole {
                version,
                ckpt: CkptPart::Clear,
                cond: None,
            },
            slabs: Slabs::new(alloc),
            devs: Vec::new(alloc),
        }
    }

    /// Adds a device in service with so many units, all free. It answers its index. It goes over its metaslabs.
    pub fn add_dev(&mut self, units: u64, txg: u64) -> Result<u32, NoMemory>
        requires few { length self.old.parts.devs < 32 }
        requires small { units < 2 ^ 40 }
        ensures index { IfOk result (λ d. d ≡ length self.old.parts.devs) }
        ensures ok { OnOk result (AddsDevice self.old self.new units txg) }
        ensures opened { OnOk result ((d : ℕ) → opened_of self.new d ≡ opened_of self.old d) }
        ensures err { OnErr result (self.new ≡ self.old) }
    {
        let dev = self.devs.len() as u32;
        self.devs.reserve(1)?;
        let none = RangeSet::new(self.alloc);
        self.slabs.add_dev(dev, units, &none)?;
        push_reserved(&mut self.devs, new_device(self.alloc, units, txg));
        Ok(dev)
    }

    /// Takes units for a block of the open group. It costs what the allocator costs, and is logarithmic in the extents
    /// of the device.
    pub fn alloc(&mut self, want: u64, chooser: &Chooser) -> Result<Dva, SpaceErr>
        requires some { 0 < want }
        requires few { want ≤ 256 }
        ensures ok { IfOk result (Allocates chooser.now.policy want self.old self.new) }
        ensures live { IfOk result (IsLive self.new) }
        ensures cause { IfErr result (HasCause self.old want) }
        ensures err { OnErr result (self.new ≡ self.old) }
    {
        let at = match self.slabs.alloc(want, chooser) {
            Ok(at) => at,
            Err(NoRun { needed, longest }) => return Err(SpaceErr::NoRun { needed, longest }),
        };
        let e = extent_of(&at);
        let device = &mut self.devs[at.dev as usize];
        match device.units.hold(e) {
            Ok(()) => Ok(at),
            Err(_) => {
                self.slabs.release(at.dev, e);
                Err(SpaceErr::NoMemory)
            }
        }
    }

    /// Takes units for metadata, which no space map has. It costs what the allocator costs.
    pub fn alloc_meta(&mut self, want: u64, chooser: &Chooser) -> Result<Dva, SpaceErr>
        requires some { 0 < want }
        requires few { want ≤ 256 }
        ensures ok { IfOk result (AllocatesMeta chooser.now.policy want self.old self.new) }
        ensures meta { IfOk result (IsMeta self.new) }
        ensures cause { IfErr result (HasCause self.old want) }
        ensures err { OnErr result (self.new ≡ self.old) }
    {
        let at = match self.slabs.alloc(want, chooser) {
            Ok(at) => at,
            Err(NoRun { needed, longest }) => return Err(SpaceErr::NoRun { needed, longest }),
        };
        let e = extent_of(&at);
        let device = &mut self.devs[at.dev as usize];
        match device.units.hold_meta(e) {
            Ok(()) => Ok(at),
            Err(_) => {
                self.slabs.release(at.dev, e);
                Err(SpaceErr::NoMemory)
            }
        }
    }

    /// Gives back metadata of the current or of the saved root. It is free two commits later. Logarithmic in the extents
    /// of the device.
    pub fn drop_meta(&mut self, a: Dva) -> Result<(), NoMemory>
        requires meta { IsMeta self.old a }
        ensures ok { OnOk result (DropsMeta self.old self.new (a ∷ [])) }
        ensures parts { OnOk result (KeepsParts self.old self.new) }
        ensures err { OnErr result (self.new ≡ self.old) }
    {
        let e = extent_of(&a);
        let device = &mut self.devs[a.dev as usize];
        if device.units.meta().covers(e) {
            device.units.drop_meta(e)?;
            return Ok(());
        }
        device.units.drop_saved(e)?;
        Ok(())
    }

    /// The units of a device by use. Counts are kept, and nothing is counted anew.
    pub fn columns(&self, dev: u32) -> Columns
        requires { dev < length self.now.parts.devs }
        ensures { result ≡ columns self.now dev }
    {
        let device = &self.devs[dev as usize];
        let kept = device.units.kept().units();
        Columns {
            allocated: device.units.in_use() - kept,
            checkpointed: kept,
            deferred: device.units.waiting(),
            free: self.slabs.free_units(dev),
        }
    }

    /// The state of a device.
    pub fn state(&self, dev: u32) -> DevState
        requires { dev < length self.now.parts.devs }
        ensures { result ≡ state_of_dev self.now.parts.devs dev }
    {
        self.devs[dev as usize].row.state
    }

    /// How many units a device has.
    pub fn units_of(&self, dev: u32) -> u64
        requires { dev < length self.now.parts.devs }
        ensures { result ≡ units_of_dev self.now.parts.devs dev }
    {
        self.devs[dev as usize].row.units
    }

    /// How many devices there are.
    pub fn devices(&self) -> u32
        ensures { result ≡ length self.now.parts.devs }
    {
        self.devs.len() as u32
    }

    /// Ends the transaction group: what it allocated is settled, and what the group two before it freed is free. At a
    /// reset all that was freed is free. The entries of a device that is leaving are synced. It takes no memory, and costs
    /// a release for each extent that becomes free.
    pub fn commit_done(&mut self, reset: bool)
        ensures commits { Commits reset self.old self.new }
        ensures parts { TurnsParts reset self.old self.new }
        ensures live { (a : Dva) → IsLive self.old a → IsLive self.new a }
        ensures metadata { (a : Dva) → IsMeta self.old a → IsMeta self.new a }
        ensures meta { self.new.meta ≡ self.old.meta }
        ensures saved { self.new.saved_meta ≡ self.old.saved_meta }
    {
        for dev in 0..self.devs.len() {
            let device = &mut self.devs[dev];
            device.moves.age();
            if reset {
                device.units.reset(&mut self.slabs, dev as u32);
                continue;
            }
            device.units.age(&mut self.slabs, dev as u32);
        }
    }
}
