//! A removal and a condensing that go on where a root has them.
//!
//! What goes on concerns several devices: the copies of a device that is leaving lie on others, which hold them, and each
//! mapping leads to other devices. So it is tested once all devices are read. The copies are not recorded: they are where the
//! entries lead, without the marked units, and are entered from there.
ghost use Rattle.std.specs.Prelude.{◌≡◌, ◌↔◌, ◌+◌, ◌<◌, ◌≤◌, ◌^◌, ℕ, true, false, length, All, IsTrue, IfOk, IfSome, IfNone};
ghost use Rattle.zr_base.specs.declared.space.DevPart.{DevPart};
ghost use Rattle.zr_evac.specs.Evacuations.{AreLawful};
ghost use Rattle.zr_rules.specs.Devices.{devices_of};
ghost use Rattle.zr_rules.specs.Mappings.{IsRising};
ghost use Rattle.zr_rules.specs.Resolve.{IsRanked};
ghost use Rattle.zr_space.specs.Views.{kept_of, IsCondensing};
ghost use Rattle.zr_space.specs.Resuming.{AreMoved, CanCondense, CanEnter, CanEnterAll, CanResume, Enters, EntersAll, HaveNoCopies, IsLeavingAlone, IsSingle, Resumes};

use crate::device::Device;
use crate::moves::are_copied;
use std::alloc::Global;
use zr_base::{CkptPart, CondPart, DevPart, Entry, Extent, NoMemory};
use zr_chain::Devs;
use zr_condense::Condense;

/// Whether each mapping leads to devices that are there or went later. It takes a look at each entry.
pub fn are_ranked(alloc: Global, parts: &[DevPart]) -> Result<bool, NoMemory>
    requires { All (λ (p : DevPart). IsRising p.entries) parts.now }
    ensures { IfOk result (λ b. IsTrue b ↔ IsRanked (devices_of parts.now)) }
{
    let devs = Devs::new(alloc, parts)?;
    Ok(devs.ranked())
}

// The device that is leaving, if there is one. None exactly where there are two.
fn leaving_in(devs: &[Device]) -> Option<Option<u32>>
    requires { length devs.now ≤ 32 }
    ensures some { IfSome result (IsLeavingAlone devs.now) }
    ensures none { IfNone result (¬ IsSingle devs.now) }
{
    let mut found = None;
    for dev in 0..devs.len() {
        if !devs[dev].is_leaving() {
            continue;
        }
        if let Some(_other) = found {
            return None;
        }
        found = Some(dev as u32);
    }
    Some(found)
}

// Whether no checkpoint is held or discarded.
fn is_clear(ckpt: CkptPart) -> bool
    ensures { IsTrue result ↔ (ckpt ≡ CkptPart.Clear) }
{
    match ckpt {
        CkptPart::Clear => true,
        CkptPart::Held(_) | CkptPart::Discarding => false,
    }
}

// Held units of a device are copies from now on. False exactly where they are not held there, are kept, or are copies already.
fn enter(devs: &mut Vec<Device>, dev: u32, e: Extent) -> Result<bool, NoMemory>
    requires some { 0 < e.len }
    requires in_range { e.start + e.len ≤ 2 ^ 62 }
    ensures yes { IfOk result (λ b. b ≡ true → Enters devs.old.items devs.new.items dev e) }
    ensures no { IfOk result (λ b. b ≡ false → ¬ CanEnter (kept_of devs.old.items dev) e) }
{
    let place = dev as usize;
    if place >= devs.len() {
        return Ok(false);
    }
    let units = &mut devs[place].units;
    if !units.held().covers(e) || !units.kept().is_apart(e) || !units.copies().is_apart(e) {
        return Ok(false);
    }
    units.reserve(1)?;
    units.turn_copies(e);
    Ok(true)
}

// Held units of devices are copies from now on. False exactly where not each of them is held and not kept, or one is there
// twice; then some may have been entered.
fn enter_all(devs: &mut Vec<Device>, places: &[(u32, Extent)]) -> Result<bool, NoMemory>
    requires lawful { AreLawful places.now }
    requires none { HaveNoCopies devs.old.items }
    ensures yes { IfOk result (λ b. b ≡ true → EntersAll devs.old.items devs.new.items places.now) }
    ensures no { IfOk result (λ b. b ≡ false → ¬ CanEnterAll devs.old.items places.now) }
{
    let mut rest = places;
    while let Some((first, tail)) = rest.split_first() {
        let (dev, e) = *first;
        if !enter(devs, dev, e)? {
            return Ok(false);
        }
        rest = tail;
    }
    Ok(true)
}

/// A removal goes on, if one has begun: its copies are entered. It goes over the entries and over what the device that is
/// leaving holds. False exactly where it cannot go on; then some copies may have been entered.
pub fn resume_copies(
    alloc: Global,
    devs: &mut Vec<Device>,
    ckpt: CkptPart,
) -> Result<bool, NoMemory>
    requires few { length devs.old.items ≤ 32 }
    requires moved { AreMoved devs.old.items }
    requires none { HaveNoCopies devs.old.items }
    ensures yes { IfOk result (λ b. b ≡ true → Resumes ckpt devs.old.items devs.new.items) }
    ensures no { IfOk result (λ b. b ≡ false → ¬ CanResume ckpt devs.old.items) }
{
    let Some(found) = leaving_in(devs.as_slice()) else {
        return Ok(false);
    };
    let Some(dev) = found else {
        return Ok(true);
    };
    let device = &devs[dev as usize];
    if !is_clear(ckpt) || !device.units.kept().is_empty() {
        return Ok(false);
    }
    let held = device.units.held().to_set()?;
    if !are_copied(alloc, &device.moves, &held)? {
        return Ok(false);
    }
    let places = device.moves.cancelled()?;
    let entered = enter_all(devs, places.as_slice())?;
    Ok(entered)
}

// Whether two lists of entries are the same.
#[tactic(auto, using(crate::proofs::Resuming::same_entries))]
fn are_same_entries(a: &[Entry], b: &[Entry]) -> bool
    ensures { IsTrue result ↔ (a.now ≡ b.now) }
{
    if a.len() != b.len() {
        return false;
    }
    for i in 0..a.len() {
        if a[i] != b[i] {
            return false;
        }
    }
    true
}

// Whether two lists of counts are the same.
fn are_same_counts(a: &[u32], b: &[u32]) -> bool
    ensures { IsTrue result ↔ (a.now ≡ b.now) }
{
    a == b
}

// Whether two records of a condensing are the same.
fn is_same(a: &CondPart, b: &CondPart) -> bool
    ensures { IsTrue result ↔ (a.now ≡ b.now) }
{
    if a.dev != b.dev || a.at != b.at {
        return false;
    }
    if !are_same_entries(a.entries.as_slice(), b.entries.as_slice()) {
        return false;
    }
    are_same_counts(a.counts.as_slice(), b.counts.as_slice())
}

// A condensing that goes on: it is worked again as far as the record says, and must have come to the same. None exactly
// where it has not.
fn resume_part(
    alloc: Global,
    devs: &[Device],
    part: &CondPart,
) -> Result<Option<Condense>, NoMemory>
    requires { AreMoved devs.now }
    ensures is { IfOk result (λ o. IfSome o (λ cond. cond ≡ part.now)) }
    ensures some { IfOk result (λ o. IfSome o (λ cond. IsCondensing part.now (kept_of devs.now part.now.dev))) }
    ensures none { IfOk result (λ o. IfNone o (¬ IsCondensing part.now (kept_of devs.now part.now.dev))) }
{
    let dev = part.dev as usize;
    if dev >= devs.len() {
        return Ok(None);
    }
    let device = &devs[dev];
    if !device.is_gone() {
        return Ok(None);
    }
    let moves = &device.moves;
    moves.lawful();
    let Some(map) = moves.map() else {
        unreachable!()
    };
    if part.at > map.len() as u64 {
        return Ok(None);
    }
    let mut cond = Condense::begin(alloc, part.dev);
    cond.step(map, moves.gone_counts(), part.at as usize)?;
    if !is_same(&cond.part()?, part) {
        return Ok(None);
    }
    Ok(Some(cond))
}

/// A condensing goes on, if one has begun. It goes over the entries that are worked through. None exactly where it cannot
/// have come to what is recorded of it.
pub fn resume_cond(
    alloc: Global,
    devs: &[Device],
    cond: &Option<CondPart>,
) -> Result<Option<Option<Condense>>, NoMemory>
    requires { AreMoved devs.now }
    ensures is { IfOk result (λ o. IfSome o (λ c. c ≡ cond.now)) }
    ensures some { IfOk result (λ o. IfSome o (λ c. CanCondense cond.now devs.now)) }
    ensures none { IfOk result (λ o. IfNone o (¬ CanCondense cond.now devs.now)) }
{
    let Some(part) = cond else {
        return Ok(Some(None));
    };
    match resume_part(alloc, devs, part)? {
        Some(cond) => Ok(Some(Some(cond))),
        None => Ok(None),
    }
}
