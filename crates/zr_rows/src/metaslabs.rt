//! Where wants are placed, and that what comes back is free again.
ghost use Rattle.std.specs.Prelude.{◌≡◌, ◌<◌, ◌≤◌, ◌^◌};
ghost use Rattle.zr_rules.specs.Choices.{AreRuns, IsPick};
ghost use Rattle.zr_metaslab.specs.Devices.{extent_of};

use std::alloc::Global;
use std::test::Fail;
use zr_base::{Dva, Extent, Policy};
use zr_choose::{Chooser, pick_best, pick_dynamic, pick_first};
use zr_metaslab::{NoRun, Slabs};
use zr_ranges::RangeSet;

// Where a device of so many units places a want, if 5+5 and 12+48 are used.
fn placed(
    alloc: Global,
    units: u64,
    want: u64,
    chooser: &Chooser,
) -> Result<Result<Dva, NoRun>, Fail>
    requires units { 60 ≤ units }
    requires small { units < 2 ^ 40 }
    requires some { 0 < want }
    requires few { want ≤ 256 }
{
    let mut used = RangeSet::new(alloc);
    used.add(Extent { start: 5, len: 5 })?;
    used.add(Extent { start: 12, len: 48 })?;
    let mut slabs = Slabs::new(alloc);
    slabs.add_dev(0, units, &used)?;
    Ok(slabs.alloc(want, chooser))
}

fn at(start: u64, len: u32) -> Result<Dva, NoRun> {
    Ok(Dva { dev: 0, start, len })
}

#[test]
fn each_policy_has_its_place(rt: HostRuntime) -> Result<(), Fail> {
    let alloc = rt.alloc();
    let first = Chooser::new(
        String::from_str(alloc, "first")?,
        Policy::First,
        Box::new(
            alloc,
            |want: u64, runs: &[Extent]| -> Option<usize>
                requires { (0 < want) × AreRuns runs.now }
                ensures { IsPick Policy.First want runs.entry.now result }
            { pick_first(want, runs) },
        )?,
    );
    let best = Chooser::new(
        String::from_str(alloc, "best")?,
        Policy::Best,
        Box::new(
            alloc,
            |want: u64, runs: &[Extent]| -> Option<usize>
                requires { (0 < want) × AreRuns runs.now }
                ensures { IsPick Policy.Best want runs.entry.now result }
            { pick_best(want, runs) },
        )?,
    );
    let dynamic = Chooser::new(
        String::from_str(alloc, "dynamic")?,
        Policy::Dynamic {
            short: 32,
            percent: 4,
        },
        Box::new(
            alloc,
            |want: u64, runs: &[Extent]| -> Option<usize>
                requires { (0 < want) × AreRuns runs.now }
                ensures { IsPick (Policy.Dynamic 32 4) want runs.entry.now result }
            { pick_dynamic(32, 4, want, runs) },
        )?,
    );
    assert_eq!(rt; placed(alloc, 100, 2, &first)?, at(0, 2));
    assert_eq!(rt; placed(alloc, 100, 2, &best)?, at(10, 2));
    assert_eq!(rt; placed(alloc, 100, 2, &dynamic)?, at(0, 2));
    assert_eq!(rt; placed(alloc, 60, 2, &first)?, at(0, 2));
    assert_eq!(rt; placed(alloc, 60, 2, &best)?, at(10, 2));
    assert_eq!(rt; placed(alloc, 60, 2, &dynamic)?, at(10, 2));
    let none = Err(NoRun {
        needed: 6,
        longest: 5,
    });
    assert_eq!(rt; placed(alloc, 60, 6, &first)?, none);
    assert_eq!(rt; placed(alloc, 60, 6, &best)?, none);
    assert_eq!(rt; placed(alloc, 60, 6, &dynamic)?, none);
    Ok(())
}

fn extent(at: Dva) -> Extent
    ensures { result ≡ extent_of at }
{
    Extent {
        start: at.start,
        len: at.len as u64,
    }
}

#[test]
fn runs_stay_within_metaslabs_and_come_back(rt: HostRuntime) -> Result<(), Fail> {
    let alloc = rt.alloc();
    let first = Chooser::new(
        String::from_str(alloc, "first")?,
        Policy::First,
        Box::new(
            alloc,
            |want: u64, runs: &[Extent]| -> Option<usize>
                requires { (0 < want) × AreRuns runs.now }
                ensures { IsPick Policy.First want runs.entry.now result }
            { pick_first(want, runs) },
        )?,
    );
    let mut used = RangeSet::new(alloc);
    used.add(Extent { start: 0, len: 500 })?;
    let mut slabs = Slabs::new(alloc);
    slabs.add_dev(0, 600, &used)?;
    let Ok(high) = slabs.alloc(20, &first) else {
        panic!(rt; "no run of 20")
    };
    assert_eq!(rt;
        high,
        Dva {
            dev: 0,
            start: 512,
            len: 20
        }
    );
    assert_eq!(rt;
        slabs.alloc(200, &first),
        Err(NoRun {
            needed: 200,
            longest: 68
        })
    );
    slabs.release(high.dev, extent(high));
    assert_eq!(rt; slabs.longest(), 88);
    slabs.reserve(1)?;
    let Ok(low) = slabs.alloc(10, &first) else {
        panic!(rt; "no run of 10")
    };
    assert_eq!(rt;
        low,
        Dva {
            dev: 0,
            start: 500,
            len: 10
        }
    );
    slabs.release_reserved(low.dev, extent(low));
    assert_eq!(rt; slabs.free_units(0), 100);
    slabs.off(0);
    assert_eq!(rt; slabs.longest(), 0);
    slabs.on(0);
    assert_eq!(rt; slabs.longest(), 88);
    slabs.forget(0);
    assert_eq!(rt; slabs.free_units(0), 0);
    Ok(())
}
