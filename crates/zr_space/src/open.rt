//! The space of a root.
//!
//! A space is lawful at every moment, by its type. What a root records may be anything that its words spell. So the devices
//! are read one by one, each tested by itself with the metadata that lies on it, and the allocator gets what has no use. Then
//! it is tested that they go together, and only then they are a space.
ghost use Rattle.std.specs.Prelude.{◌≡◌, ◌↔◌, ◌<◌, ◌≤◌, ◌^◌, ◌++◌, ◌∷◌, [], ℕ, Bool, true, false, length, IsTrue, IfOk, IfSome, IfNone, OnOk};
ghost use Rattle.zr_base.specs.Extents.{has_unit};
ghost use Rattle.zr_rules.specs.Places.{address_hits, is_on};
ghost use Rattle.zr_space.specs.Opens.{AddsAs, ArePlaced, AreReadFrom, CanOpen, CanReadAll, HasAdded, IsOpened, ReadsNext};
ghost use Rattle.zr_space.specs.Reads.{AreSetsOf, CanReadPart, HasMeta};
ghost use Rattle.zr_space.specs.Views.{space_of, IsSpace};

use crate::device::Device;
use crate::moves::read_mapping;
use crate::reads::read_part;
use crate::resume::{are_ranked, resume_cond, resume_copies};
use crate::space::{Space, push_reserved};
use crate::whole::Whole;
use std::alloc::Global;
use zr_base::{DevPart, DevRow, DevState, Dva, NoMemory, SpaceParts};
use zr_metaslab::Slabs;
use zr_ranges::RangeSet;
use zr_units::Units;

// Whether all units of the addresses lie on the first so many devices.
fn are_known(meta: &[Dva], devices: usize) -> bool
    ensures { IsTrue result ↔ ((d u : ℕ) → devices ≤ d → address_hits meta.now d u ≡ 0) }
{
    for a in meta {
        if a.len > 0 && a.dev as usize >= devices {
            return false;
        }
    }
    true
}

// Whether there are at most 32 devices, and all metadata lies on them.
fn are_placed(devices: usize, meta: &[Dva], saved: &[Dva]) -> bool
    ensures { IsTrue result ↔ ArePlaced devices meta.now saved.now }
{
    if devices > 32 {
        return false;
    }
    if !are_known(meta, devices) {
        return false;
    }
    are_known(saved, devices)
}

// Gives a device to the allocator, in service or not. Those of its units are free that are not used.
fn add_units(
    slabs: &mut Slabs,
    dev: u32,
    units: u64,
    used: &RangeSet,
    on: bool,
) -> Result<(), NoMemory>
    requires small { units < 2 ^ 40 }
    requires within { (u : ℕ) → has_unit used.now.extents u ≡ true → u < units }
    ensures { OnOk result (AddsAs slabs.old slabs.new dev units on used.now.extents) }
{
    slabs.add_dev(dev, units, used)?;
    if !on {
        slabs.off(dev);
    }
    Ok(())
}

// Whether a device is in service.
fn serves(row: DevRow) -> bool
    ensures { result ≡ is_on row.state }
{
    match row.state {
        DevState::On => true,
        DevState::Leaving | DevState::Gone => false,
    }
}

// Reads the units of a device at this index, with its metadata, and gives them to the allocator. None only where they cannot
// be read.
fn read_units(
    alloc: Global,
    slabs: &mut Slabs,
    part: &DevPart,
    dev: u32,
    meta: &[Dva],
    saved: &[Dva],
) -> Result<Option<Units>, NoMemory>
    ensures sets { IfOk result (λ o. IfSome o (AreSetsOf part.now)) }
    ensures meta { IfOk result (λ o. IfSome o (λ x. HasMeta meta.now dev x.meta)) }
    ensures saved { IfOk result (λ o. IfSome o (λ x. HasMeta saved.now dev x.saved)) }
    ensures added { IfOk result (λ o. IfSome o (HasAdded slabs.old slabs.new dev part.now.row)) }
    ensures none { IfOk result (λ o. IfNone o (¬ CanReadPart part.now meta.now saved.now dev)) }
{
    let Some(read) = read_part(alloc, part, dev, meta, saved)? else {
        return Ok(None);
    };
    add_units(slabs, dev, read.units.units(), &read.used, serves(part.row))?;
    Ok(Some(read.into_units()))
}

// The devices of a root that are read, and the allocator with their units.
#[derive(Drop)]
struct ReadDevices {
    slabs: Slabs,
    devs: Vec<Device>,
}

impl ReadDevices {
    // Reads the next device. False only where it cannot be read.
    fn add(
        &mut self,
        alloc: Global,
        part: &DevPart,
        meta: &[Dva],
        saved: &[Dva],
    ) -> Result<bool, NoMemory>
        requires { length self.old.devs.items < 32 }
        ensures yes { IfOk result (λ b. b ≡ true → ReadsNext self.old.slabs self.new.slabs self.old.devs.items self.new.devs.items part.now meta.now saved.now) }
        ensures no { IfOk result (λ b. b ≡ false → ¬ CanReadPart part.now meta.now saved.now (length self.old.devs.items)) }
    {
        let dev = self.devs.len() as u32;
        self.devs.reserve(1)?;
        let Some(units) = read_units(alloc, &mut self.slabs, part, dev, meta, saved)? else {
            return Ok(false);
        };
        let Some(moves) = read_mapping(alloc, part, dev, units.held())? else {
            return Ok(false);
        };
        push_reserved(&mut self.devs, Device::new(part.row, units, moves));
        Ok(true)
    }
}

// Reads all devices of a root, whose mappings must lead to devices that are there or went later.
fn read_all(
    alloc: Global,
    parts: &[DevPart],
    meta: &[Dva],
    saved: &[Dva],
) -> Result<Option<ReadDevices>, NoMemory>
    requires { length parts.now ≤ 32 }
    ensures read { IfOk result (λ o. IfSome o (λ r. AreReadFrom parts.now meta.now saved.now r.slabs r.devs.items)) }
    ensures none { IfOk result (λ o. IfNone o (¬ CanReadAll parts.now meta.now saved.now)) }
{
    let mut read = ReadDevices {
        slabs: Slabs::new(alloc),
        devs: Vec::new(alloc),
    };
    for part in parts {
        if !read.add(alloc, part, meta, saved)? {
            return Ok(None);
        }
    }
    Ok(Some(read))
}

// The space of devices that go together.
fn assemble(alloc: Global, whole: Whole, slabs: Slabs, devs: Vec<Device>) -> Space
    requires { IsSpace whole slabs devs.items }
    ensures { result ≡ space_of whole devs.items }
{
    Space {
        alloc,
        whole,
        slabs,
        devs,
    }
}

impl Space {
    /// The space of a root that records these parts and has this metadata, beside that of the root that a checkpoint
    /// saved. A removal goes on at the end of the last entry, and a condensing where it is. The sets of the devices, the
    /// mappings and the metadata are gone over, these once for each device. None exactly where no space can have them.
    pub fn from_parts(
        alloc: Global,
        parts: &SpaceParts,
        meta: &[Dva],
        saved: &[Dva],
    ) -> Result<Option<Space>, NoMemory>
        ensures some { IfOk result (λ o. IfSome o (IsOpened parts.now meta.now saved.now)) }
        ensures none { IfOk result (λ o. IfNone o (¬ CanOpen parts.now meta.now saved.now)) }
    {
        let all = parts.devs.as_slice();
        if !are_placed(all.len(), meta, saved) {
            return Ok(None);
        }
        let Some(read) = read_all(alloc, all, meta, saved)? else {
            return Ok(None);
        };
        let ReadDevices { slabs, mut devs } = read;
        if !are_ranked(alloc, all)? {
            return Ok(None);
        }
        if !resume_copies(alloc, &mut devs, parts.ckpt)? {
            return Ok(None);
        }
        let Some(cond) = resume_cond(alloc, devs.as_slice(), &parts.cond)? else {
            return Ok(None);
        };
        let whole = Whole {
            version: parts.version,
            ckpt: parts.ckpt,
            cond,
        };
        Ok(Some(assemble(alloc, whole, slabs, devs)))
    }
}
