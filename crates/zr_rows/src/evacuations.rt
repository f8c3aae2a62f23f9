//! A device that is evacuated into the free runs of another one, piece by piece.
ghost use Rattle.std.specs.Prelude.{◌≡◌, ◌<◌};
ghost use Rattle.zr_base.specs.declared.space.Policy.{Policy};
ghost use Rattle.zr_rules.specs.Choices.{AreRuns, IsPick};

use std::alloc::{AllocError, Global};
use std::test::Fail;
use zr_base::{
    CkptPart, DevPart, DevRow, DevState, Dva, Extent, Items, NoMemory, Policy, SpaceParts,
};
use zr_choose::{Chooser, pick_first};
use zr_space::{Plan, Space};

fn first_fit(alloc: Global) -> Result<Chooser, AllocError> {
    Ok(Chooser::new(
        String::from_str(alloc, "first")?,
        Policy::First,
        Box::new(
            alloc,
            |want: u64, runs: &[Extent]| -> Option<usize>
                requires { (0 < want) × AreRuns runs.now }
                ensures { IsPick Policy.First want runs.entry.now result }
            { pick_first(want, runs) },
        )?,
    ))
}

// A device in service that holds these units.
fn device(alloc: Global, units: u64, held: &[Extent]) -> Result<DevPart, NoMemory> {
    Ok(DevPart {
        row: DevRow {
            state: DevState::On,
            added: 1,
            units,
            gone: 0,
        },
        held: Items::from_vec(Vec::from_slice(alloc, held)?),
        kept: Items::new(alloc),
        entries: Items::new(alloc),
        counts: Items::new(alloc),
        fresh: Items::new(alloc),
        late1: Items::new(alloc),
        late2: Items::new(alloc),
    })
}

fn run(start: u64, len: u64) -> Extent {
    Extent { start, len }
}

// What is held where the runs 0+1, 10+2, 20+5, 30+3 and 40+5 are free, and of the units from 500 to 579 each second one.
fn between(alloc: Global) -> Result<Vec<Extent>, NoMemory> {
    let low = [run(1, 9), run(12, 8), run(25, 5), run(33, 7), run(45, 455)];
    let mut held = Vec::from_slice(alloc, &low)?;
    for k in 0..39 {
        held.push(run(501 + 2 * k, 1))?;
    }
    held.push(run(579, 21))?;
    Ok(held)
}

// Device 0 holds 32 units in a row, and device 1 has short free runs.
fn short_runs(alloc: Global) -> Result<SpaceParts, NoMemory> {
    let mut devs = Items::new(alloc);
    devs.push(device(alloc, 32, &[run(0, 32)])?)?;
    devs.push(device(alloc, 600, between(alloc)?.as_slice())?)?;
    Ok(SpaceParts {
        version: 2,
        devs,
        cond: None,
        ckpt: CkptPart::Clear,
    })
}

// Begins the removal of device 0 where nothing forbids it, and answers whether it did.
fn leave(space: &mut Space) -> Result<bool, NoMemory> {
    if space.devices() == 0 || space.state(0) != DevState::On || space.ckpt() != CkptPart::Clear {
        return Ok(false);
    }
    if space.leaving().is_some() || !space.kept(0).is_empty() {
        return Ok(false);
    }
    space.begin_removal(0)?;
    Ok(true)
}

// Copies the next units where there is room for all that is left. It gives the space back, and answers the plan.
fn copy(space: Space, pick: &Chooser) -> (Space, Option<Plan>) {
    let Some(front) = space.next_copy() else {
        return (space, None);
    };
    if space.sizes().uncopied > space.free_units() {
        return (space, None);
    }
    match space.copy_plan(front, pick) {
        Ok(copying) => {
            let plan = copying.plan();
            (copying.done(), Some(plan))
        }
        Err(before) => (before, None),
    }
}

// The plans of so many copies at most.
fn copy_all(
    alloc: Global,
    space: Space,
    pick: &Chooser,
    most: u64,
) -> Result<Vec<Plan>, AllocError> {
    let mut plans = Vec::new(alloc);
    let mut space = space;
    for _ in 0..most {
        let (next, copied) = copy(space, pick);
        space = next;
        if let Some(plan) = copied {
            plans.push(plan)?;
        }
    }
    Ok(plans)
}

// A plan to copy units of device 0 to device 1.
fn plan(start: u64, len: u32, to: u64) -> Plan {
    Plan {
        from: run(start, u64::from(len)),
        to: Dva {
            dev: 1,
            start: to,
            len,
        },
    }
}

// The plans for 32 units in a row.
fn expected(alloc: Global) -> Result<Vec<Plan>, AllocError> {
    let first = [
        plan(0, 4, 20),
        plan(4, 3, 30),
        plan(7, 3, 40),
        plan(10, 2, 10),
        plan(12, 2, 43),
        plan(14, 1, 0),
        plan(15, 1, 24),
    ];
    let mut plans = Vec::from_slice(alloc, &first)?;
    for k in 0..16 {
        plans.push(plan(16 + k, 1, 500 + 2 * k))?;
    }
    Ok(plans)
}

#[test]
fn units_in_a_row_go_into_short_runs(rt: HostRuntime) -> Result<(), Fail> {
    let alloc = rt.alloc();
    let first = first_fit(alloc)?;
    let Some(mut space) = Space::from_parts(alloc, &short_runs(alloc)?, &[], &[])? else {
        return Err(Fail::new("no space"));
    };
    assert!(rt; leave(&mut space)?);
    let plans = copy_all(alloc, space, &first, 40)?;
    assert_eq!(rt; plans.as_slice(), expected(alloc)?.as_slice());
    Ok(())
}
