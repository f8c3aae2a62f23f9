//! Where addresses lead: the parts of devices that are there.
//!
//! An address is followed as a whole. Where a unit of it leads nowhere, none of its parts are taken over, and each of its
//! units is followed by itself.
ghost use Rattle.std.specs.Prelude.{◌≡◌, ◌+◌, ◌≤◌, ◌^◌, ℕ, true, false, None, IfOk, OnOk};
ghost use Rattle.zr_rules.specs.Equation.{devices_in};
ghost use Rattle.zr_rules.specs.Resolve.{resolved};
ghost use Rattle.zr_audit.specs.Found.{AreEnds, HasLoose, LeadsOn, front_of};

use std::alloc::Global;
use zr_base::{DevState, Dva, NoMemory};
use zr_chain::{ChainErr, Collected, Visited};
use zr_space::Space;

// No unit lies at this one or above.
const END: u64 = 1 << 62;

// A unit of a device from which on none leads anywhere.
fn end_of(space: &Space, dev: u32) -> u64
    ensures past { (u : ℕ) → result ≤ u → resolved (devices_in space.now) dev u ≡ None }
    ensures in_range { result ≤ 2 ^ 62 }
{
    space.lawful();
    if dev >= space.devices() {
        return 0;
    }
    match space.state(dev) {
        DevState::On | DevState::Leaving => space.units_of(dev),
        DevState::Gone => END,
    }
}

// The units of an address below one.
fn front_of(a: Dva, end: u64) -> Dva
    ensures front { result ≡ front_of a end }
    ensures in_range { result.start + result.len ≤ end }
{
    if a.start >= end {
        return Dva {
            dev: a.dev,
            start: 0,
            len: 0,
        };
    }
    Dva {
        dev: a.dev,
        start: a.start,
        len: u64::from(a.len).min(end - a.start) as u32,
    }
}

// Follows an address and puts what is visited behind other visits. Where a unit of it leads nowhere, the answer is no and
// nothing is put.
fn follow_whole(
    alloc: Global,
    space: &Space,
    a: Dva,
    met: &mut Vec<Visited>,
) -> Result<bool, NoMemory>
    ensures yes { IfOk result (λ whole. whole ≡ true → LeadsOn (devices_in space.now) a met.old.items met.new.items) }
    ensures no { IfOk result (λ whole. whole ≡ false → HasLoose (devices_in space.now) a × (met.new.items ≡ met.old.items)) }
{
    let mut told = Collected::new(alloc);
    match space.remap(a, &mut told) {
        Ok(()) => {
            met.extend_from_slice(told.list.as_slice())?;
            Ok(true)
        }
        Err(ChainErr::NoEntry { .. }) => Ok(false),
        Err(ChainErr::NoMemory) => Err(NoMemory),
    }
}

// Follows each unit of an address by itself.
fn follow_units(
    alloc: Global,
    space: &Space,
    a: Dva,
    met: &mut Vec<Visited>,
) -> Result<(), NoMemory>
    requires { a.start + a.len ≤ 2 ^ 62 }
    ensures { OnOk result (LeadsOn (devices_in space.now) a met.old.items met.new.items) }
{
    for k in 0..a.len {
        let unit = Dva {
            dev: a.dev,
            start: a.start + u64::from(k),
            len: 1,
        };
        follow_whole(alloc, space, unit, met)?;
    }
    Ok(())
}

// Follows an address, wherever its units lead: those past the end of its device lead nowhere.
fn follow(alloc: Global, space: &Space, a: Dva, met: &mut Vec<Visited>) -> Result<(), NoMemory>
    ensures { OnOk result (LeadsOn (devices_in space.now) a met.old.items met.new.items) }
{
    let a = front_of(a, end_of(space, a.dev));
    if follow_whole(alloc, space, a, met)? {
        return Ok(());
    }
    follow_units(alloc, space, a, met)
}

/// The visits of addresses in their order. It follows each address once, and one with a unit that leads nowhere unit by
/// unit.
pub fn ends_of(alloc: Global, space: &Space, list: &[Dva]) -> Result<Vec<Visited>, NoMemory>
    ensures { IfOk result (λ met. AreEnds (devices_in space.now) list.now met.items) }
{
    let mut met = Vec::new(alloc);
    for a in list {
        follow(alloc, space, *a, &mut met)?;
    }
    Ok(met)
}
