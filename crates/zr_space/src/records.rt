//! What the next root records of the space.
//!
//! A root records each set of units as a log of changes, and what was freed in two late sets. The open group keeps apart
//! what it changed in the held set, so what its log gains costs what changed, and not the set.
ghost use Rattle.std.specs.Prelude.{◌≡◌, ◌<◌, ◌++◌, ◌∷◌, length, map, IfOk, OnOk};
ghost use Rattle.zr_base.specs.declared.space.LateRun.{LateRun};
ghost use Rattle.zr_rules.specs.Places.{part_of};
ghost use Rattle.zr_rules.specs.Space.{opened_of};
ghost use Rattle.zr_space.specs.Records.{Gains};
ghost use Rattle.zr_space.specs.Views.{late_runs, part_in};

use crate::device::Device;
use crate::space::Space;
use crate::whole::Whole;
use std::alloc::Global;
use zr_base::{Change, CondPart, DevPart, Extent, Items, LateRun, NoMemory, SpaceParts};
use zr_paged::UnitSet;
use zr_units::FreedSets;

/// The sets of a device that a root records as logs: the held units, those that only the checkpoint has, and the obsolete
/// units that are not counted yet.
#[derive(Clone, Copy, PartialEq, Eq, Debug)]
pub enum SetKind {
    Held,
    Kept,
    Fresh,
}

// Adds the runs of one kind to a late set.
fn put_runs(runs: &mut Items<LateRun>, extents: &[Extent], meta: bool) -> Result<(), NoMemory>
    ensures { OnOk result (runs.new ≡ runs.old ++ map (λ e. record { at = e; meta = meta }) extents.now) }
{
    for e in extents {
        runs.push(LateRun { at: *e, meta })?;
    }
    Ok(())
}

// A late set, blocks first.
fn late_of(alloc: Global, freed: &FreedSets) -> Result<Items<LateRun>, NoMemory>
    ensures { IfOk result (λ runs. runs ≡ late_runs freed.now.sets) }
{
    let mut runs = Items::new(alloc);
    let blocks = freed.blocks().to_set()?;
    let meta = freed.meta().to_set()?;
    put_runs(&mut runs, blocks.extents(), false)?;
    put_runs(&mut runs, meta.extents(), true)?;
    Ok(runs)
}

// The extents of a set.
fn copy_of(alloc: Global, set: &UnitSet) -> Result<Items<Extent>, NoMemory>
    ensures { IfOk result (λ es. es ≡ set.now.extents) }
{
    let runs = set.to_set()?;
    let copy = Vec::from_slice(alloc, runs.extents())?;
    Ok(Items::from_vec(copy))
}

// What a root records of a device.
fn part_of(alloc: Global, device: &Device) -> Result<DevPart, NoMemory>
    ensures { IfOk result (λ p. p ≡ part_in device.now) }
{
    let held = copy_of(alloc, device.units.held())?;
    let kept = copy_of(alloc, device.units.kept())?;
    let late1 = late_of(alloc, device.units.late1())?;
    let late2 = late_of(alloc, device.units.late2())?;
    let entries = device.moves.entries(alloc)?;
    let counts = device.moves.counts(alloc)?;
    let fresh = device.moves.fresh(alloc)?;
    Ok(DevPart {
        row: device.row,
        held,
        kept,
        entries,
        counts,
        fresh,
        late1,
        late2,
    })
}

// What a root records of devices.
fn parts_of(alloc: Global, devs: &[Device]) -> Result<Items<DevPart>, NoMemory>
    ensures { IfOk result (λ ps. ps ≡ map part_in devs.now) }
{
    let mut parts = Items::new(alloc);
    for device in devs {
        parts.push(part_of(alloc, device)?)?;
    }
    Ok(parts)
}

// What a root records of the condensing that goes on.
fn cond_of(whole: &Whole) -> Result<Option<CondPart>, NoMemory>
    ensures { IfOk result (λ cond. cond ≡ whole.now.cond) }
{
    match &whole.cond {
        None => Ok(None),
        Some(cond) => Ok(Some(cond.part()?)),
    }
}

impl Space {
    /// The held units of a device. It costs nothing.
    pub fn held(&self, dev: u32) -> &UnitSet
        requires { dev < length self.now.parts.devs }
        ensures { result.now.extents ≡ (part_of self.now.parts.devs dev).held }
    {
        self.devs[dev as usize].units.held()
    }

    /// The units of a device that only the checkpoint has. It costs nothing.
    pub fn kept(&self, dev: u32) -> &UnitSet
        requires { dev < length self.now.parts.devs }
        ensures { result.now.extents ≡ (part_of self.now.parts.devs dev).kept }
    {
        self.devs[dev as usize].units.kept()
    }

    /// What the open group has freed on a device of earlier groups' units, which is the next root's first late set. At a
    /// reset the next root has none. It costs nothing.
    pub fn freed(&self, dev: u32) -> &FreedSets
        requires { dev < length self.now.parts.devs }
        ensures blocks { result.now.sets.blocks ≡ (opened_of self.now dev).deferred }
        ensures meta { result.now.sets.meta ≡ (opened_of self.now dev).dropped }
    {
        self.devs[dev as usize].units.freed()
    }

    /// The first late set of the current root on a device, which is the next root's second. At a reset the next root has
    /// none. It costs nothing.
    pub fn late1(&self, dev: u32) -> &FreedSets
        requires { dev < length self.now.parts.devs }
        ensures { late_runs result.now.sets ≡ (part_of self.now.parts.devs dev).late1 }
    {
        self.devs[dev as usize].units.late1()
    }

    /// What the log of a set of a device gains over what the current root records: the units that came and those that
    /// went, as maximal extents by rising place. It goes over what changed, and not over the set.
    pub fn changes(&self, dev: u32, set: SetKind) -> Result<Vec<Change>, NoMemory>
        requires { dev < length self.now.parts.devs }
        ensures { IfOk result (λ cs. Gains self.now dev set cs.items) }
    {
        match set {
            SetKind::Held => self.devs[dev as usize].units.changes(self.alloc),
            SetKind::Kept => self.devs[dev as usize].units.kept_changes(self.alloc),
            SetKind::Fresh => self.devs[dev as usize].moves.changes(self.alloc),
        }
    }

    /// What the next root records of the space as it stands. It goes over all sets.
    pub fn parts(&self) -> Result<SpaceParts, NoMemory>
        ensures { IfOk result (λ p. p ≡ self.now.parts) }
    {
        let devs = parts_of(self.alloc, self.devs.as_slice())?;
        Ok(SpaceParts {
            version: self.whole.version,
            devs,
            cond: cond_of(&self.whole)?,
            ckpt: self.whole.ckpt,
        })
    }
}
