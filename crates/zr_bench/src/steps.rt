//! The work that goes on a few extents at a time: the discarding of a checkpoint, the copying of a removal, and the
//! marking of units of it that are freed.
//!
//! The first two take the lowest extents first and move none of those that stay, so what an extent costs is not to grow
//! with how many there are. Units are freed in any order, so the third marks units that are scattered.
ghost use Rattle.std.specs.Prelude.{◌≡◌, ℕ, ◌+◌, ◌*◌, ◌<◌, ◌≤◌, ◌^◌, false, IfOk};
ghost use Rattle.zr_base.specs.Extents.{has_unit};

use anyhow::Context;
use std::alloc::Global;
use std::time::{Duration, Instant};
use zr_base::{Extent, NoMemory};
use zr_evac::Evac;
use zr_imap::Imap;
use zr_paged::PagedSet;
use zr_ranges::RangeSet;

/// How many extents were given, and the time that this took.
#[derive(Drop)]
pub struct Timed {
    pub given: u64,
    pub spent: Duration,
}

/// Discards so many kept extents, 64 at a step.
pub fn time_discarding(rt: &HostRuntime, extents: u64) -> anyhow::Result<Timed>
    requires { extents < 2 ^ 32 }
{
    let mut kept = each_second(rt.alloc(), extents)
        .ok()
        .context("out of memory")?;
    let start = Instant::now(rt)?;
    let given = discard_all(&mut kept, extents);
    let spent = start.elapsed(rt)?;
    Ok(Timed { given, spent })
}

/// Copies so many extents that are left.
pub fn time_copying(rt: &HostRuntime, extents: u64) -> anyhow::Result<Timed>
    requires { extents < 2 ^ 32 }
{
    let mut evac = leave_each_second(rt.alloc(), extents)
        .ok()
        .context("out of memory")?;
    let start = Instant::now(rt)?;
    let given = copy_all(&mut evac, extents).ok().context("out of memory")?;
    let spent = start.elapsed(rt)?;
    Ok(Timed { given, spent })
}

/// Marks so many units that do not touch, one here and one there.
pub fn time_marking(rt: &HostRuntime, extents: u64) -> anyhow::Result<Timed>
    requires { extents < 2 ^ 32 }
{
    let mut marks = PagedSet::new(rt.alloc());
    let start = Instant::now(rt)?;
    let given = mark_scattered(&mut marks, extents)
        .ok()
        .context("out of memory")?;
    let spent = start.elapsed(rt)?;
    Ok(Timed { given, spent })
}

/// How many kept extents a step discards at most.
const STEP: usize = 64;

/// Takes the lowest kept extents, a step's at a time, until nothing is kept. It answers how many they were.
fn discard_all(kept: &mut RangeSet, most: u64) -> u64 {
    let mut given: u64 = 0;
    for _ in 0..most {
        let taken = kept.extents().len().min(STEP);
        if taken == 0 {
            break;
        }
        kept.drop_front(taken);
        given = given.saturating_add(taken as u64);
    }
    given
}

/// Each second unit, so many.
fn each_second(alloc: Global, extents: u64) -> Result<RangeSet, NoMemory>
    requires { extents < 2 ^ 32 }
{
    let mut units = RangeSet::new(alloc);
    for k in 0..extents {
        units.add(Extent {
            start: 2 * k,
            len: 1,
        })?;
    }
    Ok(units)
}

/// An evacuation of each second unit, so many.
fn leave_each_second(alloc: Global, extents: u64) -> Result<Evac, NoMemory>
    requires { extents < 2 ^ 32 }
{
    let held = each_second(alloc, extents)?;
    let map = Imap::new(alloc);
    let marks = RangeSet::new(alloc);
    let evac = Evac::begin(alloc, 0, &held, map, marks)?;
    Ok(evac)
}

/// Copies each piece to where it stands on another device. It answers how many there were.
fn copy_all(evac: &mut Evac, most: u64) -> Result<u64, NoMemory>
    ensures { IfOk result (λ made. made ≤ most) }
{
    for made in 0..most {
        evac.reserve(1)?;
        let Some(piece) = evac.next() else {
            return Ok(made);
        };
        evac.copied(piece, 1, piece.start);
    }
    Ok(most)
}

/// How far the next unit to mark lies from the last, as an index among so many.
const STRIDE: u64 = 7_919;

/// Marks each second unit, so many, a stride apart. It answers how many were not marked before.
fn mark_scattered(marks: &mut PagedSet, extents: u64) -> Result<u64, NoMemory>
    requires { extents < 2 ^ 32 }
{
    let mut given: u64 = 0;
    for k in 0..extents {
        let unit = Extent {
            start: 2 * (k * STRIDE % extents),
            len: 1,
        };
        if mark(marks, unit)? {
            given = given.saturating_add(1);
        }
    }
    Ok(given)
}

/// Marks a unit, and answers whether it was not marked before.
fn mark(marks: &mut PagedSet, unit: Extent) -> Result<bool, NoMemory>
    requires one { unit.len ≡ 1 }
    requires in_range { unit.start + unit.len ≤ 2 ^ 62 }
{
    marks.reserve(1)?;
    if let Some(part) = marks.first_from(unit.start) {
        if part.start == unit.start {
            return Ok(false);
        }
    }
    marks.add_reserved(unit);
    Ok(true)
}
