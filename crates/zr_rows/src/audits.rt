//! Addresses that come twice, meet, go past their device, and lead over removed ones.
ghost use Rattle.std.specs.Prelude.{◌<◌};
ghost use Rattle.zr_base.specs.declared.space.Policy.{Policy};
ghost use Rattle.zr_rules.specs.Choices.{AreRuns, IsPick};

use std::alloc::Global;
use std::test::Fail;
use zr_audit::audit;
use zr_base::{
    CkptPart, DevPart, DevRow, DevState, Dva, Entry, Extent, Items, NoMemory, Policy, SpaceParts,
};
use zr_choose::{Chooser, pick_first};
use zr_space::Space;

#[test]
fn each_unit_counts_once(rt: HostRuntime) -> Result<(), Fail> {
    let alloc = rt.alloc();
    let first = Chooser::new(
        String::from_str(alloc, "first")?,
        Policy::First,
        Box::new(
            alloc,
            |want: u64, runs: &[Extent]| -> Option<usize>
                requires { (0 < want) × AreRuns runs.now }
                ensures { IsPick Policy.First want runs.entry.now result }
            { pick_first(want, runs) },
        )?,
    );
    let mut space = Space::new(alloc, 2);
    space.add_dev(1000, 1)?;
    let block = space.alloc(20, &first)?;
    space.add_dev(500, 1)?;
    let past = address(1, 490, 20);
    let unknown = address(2, 0, 1);
    let meta = [address(0, 15, 10), address(0, 40, 5)];
    let counts = audit(alloc, &space, &[block, past, block, unknown], &meta)?;
    assert_eq!(rt; counts.walked.as_slice(), [30, 10].as_slice());
    assert_eq!(rt; counts.allocated.as_slice(), [20, 0].as_slice());
    Ok(())
}

fn address(dev: u32, start: u64, len: u32) -> Dva {
    Dva { dev, start, len }
}

fn run(start: u64, len: u64) -> Extent {
    Extent { start, len }
}

fn entry(src: u64, dev: u32, dst: u64, len: u32) -> Entry {
    Entry { src, dev, dst, len }
}

// A device with these held units and this mapping, of which nothing is counted as obsolete.
fn part(
    alloc: Global,
    state: DevState,
    gone: u64,
    held: Option<Extent>,
    entry: Option<Entry>,
) -> Result<DevPart, NoMemory> {
    let mut part = DevPart {
        row: DevRow {
            state,
            added: 1,
            units: 1000,
            gone,
        },
        held: Items::new(alloc),
        kept: Items::new(alloc),
        entries: Items::new(alloc),
        counts: Items::new(alloc),
        fresh: Items::new(alloc),
        late1: Items::new(alloc),
        late2: Items::new(alloc),
    };
    if let Some(e) = held {
        part.held.push(e)?;
    }
    if let Some(e) = entry {
        part.entries.push(e)?;
        part.counts.push(0)?;
    }
    Ok(part)
}

// Device 0 went to device 1, which is leaving: of its units the first ten are copied to device 2.
fn removals(alloc: Global) -> Result<SpaceParts, NoMemory> {
    let mut devs = Items::new(alloc);
    devs.push(part(alloc, DevState::Gone, 5, None, Some(entry(40, 1, 0, 20)))?)?;
    devs.push(part(
        alloc,
        DevState::Leaving,
        0,
        Some(run(0, 20)),
        Some(entry(0, 2, 300, 10)),
    )?)?;
    devs.push(part(alloc, DevState::On, 0, Some(run(300, 10)), None)?)?;
    Ok(SpaceParts {
        version: 2,
        devs,
        cond: None,
        ckpt: CkptPart::Clear,
    })
}

#[test]
fn addresses_lead_over_removed_devices(rt: HostRuntime) -> Result<(), Fail> {
    let alloc = rt.alloc();
    let Some(space) = Space::from_parts(alloc, &removals(alloc)?, &[], &[])? else {
        panic!(rt; "no space");
    };
    let block = address(0, 40, 20);
    let counts = audit(alloc, &space, &[block], &[])?;
    assert_eq!(rt; counts.walked.as_slice(), [0, 20, 10].as_slice());
    assert_eq!(rt; counts.allocated.as_slice(), [0, 20, 10].as_slice());
    let loose = address(0, 30, 20);
    let counts = audit(alloc, &space, &[loose, address(1, 5, 2)], &[block])?;
    assert_eq!(rt; counts.walked.as_slice(), [0, 20, 10].as_slice());
    let counts = audit(alloc, &space, &[loose], &[])?;
    assert_eq!(rt; counts.walked.as_slice(), [0, 10, 10].as_slice());
    Ok(())
}
