//! The whole way of a device out of service.
ghost use Rattle.std.specs.Prelude.{◌≡◌, ℕ, ◌+◌, ◌<◌, ◌≤◌, ◌^◌, ◌∷◌, [], true, IfOk};
ghost use Rattle.zr_base.specs.declared.space.Extent.{Extent};
ghost use Rattle.zr_base.specs.Extents.{has_unit};
ghost use Rattle.zr_indirect.specs.Changes.{IsCopiedOrLeft};

use std::alloc::Global;
use std::test::Fail;
use zr_base::{DevState, Entry, Extent, NoMemory};
use zr_imap::Imap;
use zr_indirect::Mapping;
use zr_paged::UnitSet;
use zr_ranges::RangeSet;

fn run(start: u64, len: u64) -> Extent
    ensures { result ≡ record { start = start; len = len } }
{
    Extent { start, len }
}

// A device that leaves, with its first units in use.
fn leaving(alloc: Global, units: u64) -> Result<Mapping, NoMemory>
    requires some { 0 < units }
    requires few { units ≤ 2 ^ 40 }
    ensures leaving { IfOk result (λ device. device.state ≡ DevState.Leaving) }
    ensures left { IfOk result (λ device. (u : ℕ) → u < units → has_unit device.left u ≡ true) }
{
    let mut held = RangeSet::new(alloc);
    held.add(run(0, units))?;
    let (map, marks) = (Imap::new(alloc), RangeSet::new(alloc));
    Mapping::leaving(alloc, 0, map, marks, &held)
}

// Copies at most so many units of the next piece to device 1.
fn copy(device: &mut Mapping, n: u64, dst: u64) -> Result<(), NoMemory>
    requires leaving { device.old.state ≡ DevState.Leaving }
    requires some { 0 < n }
    requires place { dst ≤ 2 ^ 40 }
    ensures leaving { device.new.state ≡ DevState.Leaving }
    ensures there { (e : Extent) → IsCopiedOrLeft device.old e → IsCopiedOrLeft device.new e }
{
    device.reserve(1)?;
    let Some(piece) = device.next() else {
        return Ok(());
    };
    device.copied(run(piece.start, piece.len.min(n)), 1, dst);
    Ok(())
}

// Frees units, unless some are marked.
fn free(device: &mut Mapping, e: Extent) -> Result<(), NoMemory>
    requires leaving { device.old.state ≡ DevState.Leaving }
    requires some { 0 < e.len }
    requires there { IsCopiedOrLeft device.old e }
    ensures { device.new.state ≡ DevState.Leaving }
{
    device.reserve(1)?;
    if device.is_unmarked(e) {
        device.freed(e);
    }
    Ok(())
}

// A device that is gone, with one entry of which three units are fresh.
fn gone(alloc: Global) -> Result<Mapping, NoMemory>
    ensures gone { IfOk result (λ device. device.state ≡ DevState.Gone) }
    ensures entries { IfOk result (λ device. device.entries ≡ record { src = 0; dev = 1; dst = 100; len = 10 } ∷ []) }
    ensures counts { IfOk result (λ device. device.counts ≡ 0 ∷ []) }
{
    let mut map = Imap::new(alloc);
    map.push(Entry {
        src: 0,
        dev: 1,
        dst: 100,
        len: 10,
    })?;
    let counts = Vec::from_array(alloc, [0])?;
    let mut fresh = UnitSet::new(alloc);
    fresh.add(run(0, 3))?;
    Ok(Mapping::gone(alloc, map, counts, fresh))
}

// The same with more units marked.
fn marked(alloc: Global, e: Extent) -> Result<Mapping, NoMemory>
    requires some { 0 < e.len }
    requires within { e.start + e.len ≤ 10 }
    ensures { IfOk result (λ device. device.state ≡ DevState.Gone) }
{
    let mut device = gone(alloc)?;
    device.reserve(10)?;
    if device.is_unmarked(e) {
        device.mark(e);
    }
    Ok(device)
}

// All is copied and the device is gone, or something is left to copy.
fn finished(alloc: Global, units: u64) -> Result<Mapping, NoMemory>
    requires some { 0 < units }
    requires few { units ≤ 2 ^ 40 }
{
    let mut device = leaving(alloc, units)?;
    copy(&mut device, 10, 100)?;
    match device.next() {
        Some(_) => {}
        None => device.finish(alloc)?,
    }
    Ok(device)
}

// The same once the marks are counted.
fn counted(alloc: Global) -> Result<Mapping, NoMemory> {
    let mut device = marked(alloc, run(3, 4))?;
    device.fold()?;
    Ok(device)
}

// A device that is gone, and the last of its entries with it.
fn emptied(alloc: Global) -> Result<Mapping, NoMemory> {
    let mut device = gone(alloc)?;
    device.fold()?;
    device.replace(Imap::new(alloc), Vec::new(alloc));
    Ok(device)
}

// Of 30 units ten are copied and synced and ten copied, and then some of each kind are freed.
fn freed_beside_the_frontiers(alloc: Global) -> Result<Mapping, NoMemory>
    ensures { IfOk result (λ device. device.state ≡ DevState.Leaving) }
{
    let mut device = leaving(alloc, 30)?;
    copy(&mut device, 10, 100)?;
    device.age();
    copy(&mut device, 10, 200)?;
    free(&mut device, run(5, 20))?;
    Ok(device)
}

// The copies that are freed where the removal is given up.
fn copies_of(device: &Mapping) -> Result<Vec<(u32, Extent)>, NoMemory> {
    match device.state() {
        DevState::Leaving => device.cancelled(),
        DevState::On | DevState::Gone => Err(NoMemory),
    }
}

// The fresh units are one run, and what the log gains is one too, or nothing.
fn shows(
    alloc: Global,
    device: &Mapping,
    fresh: Extent,
    gained: Option<(bool, Extent)>,
) -> Result<bool, NoMemory> {
    let first = first_change(alloc, device)?;
    Ok(device.fresh(alloc)?.as_slice() == [fresh].as_slice() && first == gained)
}

// The first of what the log gains.
fn first_change(alloc: Global, device: &Mapping) -> Result<Option<(bool, Extent)>, NoMemory> {
    let changes = device.changes(alloc)?;
    Ok(changes.first().map(|change| (change.free, change.at)))
}

#[test]
fn what_was_copied_is_marked_as_it_is_freed(rt: HostRuntime) -> Result<(), Fail> {
    let alloc = rt.alloc();
    let device = freed_beside_the_frontiers(alloc)?;
    let came = Some((false, run(5, 15)));
    assert!(rt; shows(alloc, &device, run(5, 15), came)?);
    Ok(())
}

#[test]
fn copies_of_marked_units_are_freed_already(rt: HostRuntime) -> Result<(), Fail> {
    let alloc = rt.alloc();
    let device = freed_beside_the_frontiers(alloc)?;
    assert_eq!(rt; device.left(), 5);
    let copies = copies_of(&device)?;
    assert_eq!(rt; copies.as_slice(), [(1, run(100, 5))].as_slice());
    Ok(())
}

#[test]
fn device_is_gone_once_all_is_copied(rt: HostRuntime) -> Result<(), Fail> {
    let device = finished(rt.alloc(), 10)?;
    assert_eq!(rt; device.state(), DevState::Gone);
    assert!(rt; device.map().is_some());
    Ok(())
}

#[test]
fn marks_come_to_the_log(rt: HostRuntime) -> Result<(), Fail> {
    let alloc = rt.alloc();
    let device = marked(alloc, run(3, 4))?;
    let came = Some((false, run(3, 4)));
    assert!(rt; shows(alloc, &device, run(0, 7), came)?);
    Ok(())
}

#[test]
fn marks_of_earlier_groups_go_from_the_log(rt: HostRuntime) -> Result<(), Fail> {
    let alloc = rt.alloc();
    let device = counted(alloc)?;
    let went = first_change(alloc, &device)?;
    assert_eq!(rt; went, Some((true, run(0, 3))));
    Ok(())
}

#[test]
fn marks_are_counted(rt: HostRuntime) -> Result<(), Fail> {
    let alloc = rt.alloc();
    let device = counted(alloc)?;
    let counts = device.counts(alloc)?;
    assert_eq!(rt; counts.as_slice(), [7].as_slice());
    Ok(())
}

#[test]
fn mapping_is_replaced(rt: HostRuntime) -> Result<(), Fail> {
    let alloc = rt.alloc();
    let device = emptied(alloc)?;
    assert_eq!(rt; device.entries(alloc)?.len(), 0);
    Ok(())
}

#[test]
fn device_in_service_has_nothing(rt: HostRuntime) -> Result<(), Fail> {
    let device = Mapping::in_service();
    assert_eq!(rt; device.state(), DevState::On);
    assert!(rt; device.map().is_none());
    assert!(rt; !device.is_due());
    Ok(())
}
