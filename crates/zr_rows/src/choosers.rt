//! What the three policies pick among the same runs.
ghost use Rattle.std.specs.Prelude.{◌<◌};
ghost use Rattle.zr_base.specs.declared.space.Policy.{Policy};
ghost use Rattle.zr_rules.specs.Choices.{AreRuns, IsPick};

use std::alloc::Global;
use std::test::Fail;
use zr_base::{Extent, Policy};
use zr_choose::{Chooser, pick_best, pick_dynamic, pick_first};

// What the choosers of the three policies pick among the same runs.
fn picks(alloc: Global, want: u64, runs: &[Extent]) -> Result<[Option<usize>; 3], Fail>
    requires some { 0 < want }
    requires runs { AreRuns runs.now }
{
    let first = Chooser::new(
        String::from_str(alloc, "first")?,
        Policy::First,
        Box::new(
            alloc,
            |want: u64, runs: &[Extent]| -> Option<usize>
                requires { (0 < want) × AreRuns runs.now }
                ensures { IsPick Policy.First want runs.entry.now result }
            { pick_first(want, runs) },
        )?,
    );
    let best = Chooser::new(
        String::from_str(alloc, "best")?,
        Policy::Best,
        Box::new(
            alloc,
            |want: u64, runs: &[Extent]| -> Option<usize>
                requires { (0 < want) × AreRuns runs.now }
                ensures { IsPick Policy.Best want runs.entry.now result }
            { pick_best(want, runs) },
        )?,
    );
    let dynamic = Chooser::new(
        String::from_str(alloc, "dynamic")?,
        Policy::Dynamic {
            short: 32,
            percent: 4,
        },
        Box::new(
            alloc,
            |want: u64, runs: &[Extent]| -> Option<usize>
                requires { (0 < want) × AreRuns runs.now }
                ensures { IsPick (Policy.Dynamic 32 4) want runs.entry.now result }
            { pick_dynamic(32, 4, want, runs) },
        )?,
    );
    Ok([
        first.pick(want, runs),
        best.pick(want, runs),
        dynamic.pick(want, runs),
    ])
}

#[test]
fn each_policy_names_its_run(rt: HostRuntime) -> Result<(), Fail> {
    let plenty = [
        Extent { start: 0, len: 5 },
        Extent { start: 10, len: 2 },
        Extent { start: 20, len: 40 },
    ];
    let scarce = [Extent { start: 0, len: 5 }, Extent { start: 10, len: 2 }];
    assert_eq!(rt; picks(rt.alloc(), 2, &plenty)?, [Some(0), Some(1), Some(0)]);
    assert_eq!(rt; picks(rt.alloc(), 2, &scarce)?, [Some(0), Some(1), Some(1)]);
    assert_eq!(rt; picks(rt.alloc(), 6, &scarce)?, [None, None, None]);
    Ok(())
}
