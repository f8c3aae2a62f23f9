//! `zr_bench UNITS FULL ROUNDS` times the allocator: so many times it makes a device of so many units, empty or, where
//! FULL is 1, with 95 of 100 units used, and hands out all that is free, unit by unit. It prints how many units it handed
//! out and the nanoseconds that this took, without those of making the devices.
//!
//! `zr_bench EXTENTS` times the work that goes on a few extents at a time: it discards so many kept extents, copies so
//! many that are left, and marks so many units. It prints how many each gave, and the nanoseconds of each.
//!
//! `zr_bench EXTENTS COUNT` frees so many blocks of a pool of so many extents, and takes another one for each. It prints how
//! many they were, and the nanoseconds that this took, without those of making the pool.
//!
//! With no words it does each work once on little, and prints how much each gave.
#![tactic(auto)]

mod pools;
mod steps;

ghost use Rattle.std.specs.Prelude.{◌≡◌, ℕ, ◌+◌, ◌*◌, ◌<◌, ◌≤◌, ◌^◌, true, false, IfOk};
ghost use Rattle.zr_base.specs.declared.space.Policy.{Policy};
ghost use Rattle.zr_base.specs.Extents.{has_unit};
ghost use Rattle.zr_rules.specs.Choices.{AreRuns, IsPick};

use anyhow::Context;
use pools::time_pool;
use std::alloc::Global;
use std::env;
use std::time::{Duration, Instant};
use steps::{time_copying, time_discarding, time_marking};
use zr_base::{Extent, NoMemory, Policy};
use zr_choose::{Chooser, pick_first};
use zr_metaslab::Slabs;
use zr_ranges::RangeSet;

/// Of so many units in a row two are free on a device that is nearly full.
const PERIOD: u64 = 40;

/// The first 38 of every 40 units.
fn scattered(alloc: Global, units: u64) -> Result<RangeSet, NoMemory>
    requires { units < 2 ^ 40 }
    ensures within { IfOk result (λ s. (u : ℕ) → units ≤ u → has_unit s.extents u ≡ false) }
{
    let mut used = RangeSet::new(alloc);
    for k in 0..units / PERIOD {
        used.add(Extent {
            start: PERIOD * k,
            len: PERIOD - 2,
        })?;
    }
    Ok(used)
}

/// Hands out single units until none is left, or so many. It answers how many.
fn hand_out(slabs: &mut Slabs, most: u64, chooser: &Chooser) -> u64
    ensures { result ≤ most }
{
    for made in 0..most {
        if slabs.alloc(1, chooser).is_err() {
            return made;
        }
    }
    most
}

/// So many rounds on a device. It answers the units that were handed out, and the time.
fn rounds(
    rt: &HostRuntime,
    units: u64,
    used: &RangeSet,
    rounds: u64,
    chooser: &Chooser,
) -> anyhow::Result<(u64, Duration)>
    requires small { units < 2 ^ 40 }
    requires within { (u : ℕ) → units ≤ u → has_unit used.now.extents u ≡ false }
{
    let mut slabs = Slabs::new(rt.alloc());
    let mut made = 0;
    let mut spent = Duration::ZERO;
    for _ in 0..rounds {
        slabs.add_dev(0, units, used).ok().context("out of memory")?;
        let start = Instant::now(rt)?;
        made = hand_out(&mut slabs, units, chooser).saturating_add(made);
        spent = spent.saturating_add(start.elapsed(rt)?);
    }
    Ok((made, spent))
}

/// Times the allocator on a device that is empty or, where `full` is 1, nearly full.
fn time_allocator(
    rt: &HostRuntime,
    units: u64,
    full: u64,
    count: u64,
    chooser: &Chooser,
) -> anyhow::Result<()> {
    if units >= 1 << 40 || count >= 1 << 20 {
        println!(rt; "too much")?;
        return Ok(());
    }
    let alloc = rt.alloc();
    let used = if full == 1 {
        scattered(alloc, units).ok().context("out of memory")?
    } else {
        RangeSet::new(alloc)
    };
    let (made, spent) = rounds(rt, units, &used, count, chooser)?;
    println!(rt; "{made} {}", spent.as_nanos())?;
    Ok(())
}

/// Times the discarding, the copying and the marking of so many extents.
fn time_steps(rt: &HostRuntime, extents: u64) -> anyhow::Result<()> {
    if extents >= 1 << 32 {
        println!(rt; "too much")?;
        return Ok(());
    }
    let discarded = time_discarding(rt, extents)?;
    let copied = time_copying(rt, extents)?;
    let marked = time_marking(rt, extents)?;
    println!(rt; "{} {} {}", discarded.given, copied.given, marked.given)?;
    println!(rt;
        "{} {} {}",
        discarded.spent.as_nanos(),
        copied.spent.as_nanos(),
        marked.spent.as_nanos()
    )?;
    Ok(())
}

/// Times so many frees and allocations on a pool of so many extents.
fn time_replacing(
    rt: &HostRuntime,
    extents: u64,
    count: u64,
    chooser: &Chooser,
) -> anyhow::Result<()> {
    if extents >= 1 << 32 {
        println!(rt; "too much")?;
        return Ok(());
    }
    let replaced = time_pool(rt, extents, count, chooser)?;
    println!(rt; "{} {}", replaced.given, replaced.spent.as_nanos())?;
    Ok(())
}

/// Does each work once on little, and prints how much it gave.
fn try_each(rt: &HostRuntime, chooser: &Chooser) -> anyhow::Result<()> {
    let none = RangeSet::new(rt.alloc());
    let (made, _) = rounds(rt, 600, &none, 1, chooser)?;
    println!(rt; "{made} units were handed out")?;
    let discarded = time_discarding(rt, 1000)?;
    let copied = time_copying(rt, 1000)?;
    let marked = time_marking(rt, 1000)?;
    println!(rt;
        "{} extents were discarded, {} copied and {} marked",
        discarded.given, copied.given, marked.given
    )?;
    let replaced = time_pool(rt, 1000, 1000, chooser)?;
    println!(rt; "{} blocks were freed and taken anew", replaced.given)?;
    Ok(())
}

fn main(rt: HostRuntime) -> anyhow::Result<()> {
    let alloc = rt.alloc();
    let first = Chooser::new(
        String::from_str(alloc, "first")?,
        Policy::First,
        Box::new(
            alloc,
            |want: u64, runs: &[Extent]| -> Option<usize>
                requires { (0 < want) × AreRuns runs.now }
                ensures { IsPick Policy.First want runs.entry.now result }
            { pick_first(want, runs) },
        )?,
    );
    let mut numbers: Vec<u64> = Vec::new(alloc);
    for word in env::args(&rt)?.skip(1) {
        numbers.push(word.parse::<u64>()?)?;
    }
    match numbers.as_slice() {
        [units, full, count] => time_allocator(&rt, *units, *full, *count, &first),
        [extents, count] => time_replacing(&rt, *extents, *count, &first),
        [extents] => time_steps(&rt, *extents),
        _ => try_each(&rt, &first),
    }
}
