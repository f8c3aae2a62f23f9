//! A chain of two removals.
ghost use Rattle.std.specs.Prelude.{◌≡◌, ◌<◌, length, IfOk};
ghost use Rattle.zr_rules.specs.Mappings.{IsRising};
ghost use Rattle.zr_rules.specs.Resolve.{IsRanked};
ghost use Rattle.zr_chain.specs.Chains.{devices_in};

use std::alloc::Global;
use std::test::Fail;
use zr_base::{DevPart, DevRow, DevState, Dva, Entry, Extent, Items, NoMemory};
use zr_chain::{ChainErr, Collected, Devs, Visited};

fn hop(dev: u32, start: u64, len: u64) -> Visited {
    let at = Extent { start, len };
    Visited::Hop { dev, at }
}

fn piece(split: u64, dev: u32, start: u64, len: u64) -> Visited {
    let at = Extent { start, len };
    Visited::Piece { split, dev, at }
}

fn part(alloc: Global, state: DevState, gone: u64, entries: Items<Entry>) -> DevPart
    ensures { result.entries ≡ entries }
{
    let row = DevRow {
        state,
        added: 1,
        units: 896,
        gone,
    };
    DevPart {
        row,
        held: Items::new(alloc),
        kept: Items::new(alloc),
        entries,
        counts: Items::new(alloc),
        fresh: Items::new(alloc),
        late1: Items::new(alloc),
        late2: Items::new(alloc),
    }
}

/// A device of 896 units, whose mapping has these entries.
fn device(alloc: Global, state: DevState, gone: u64, entries: &[Entry]) -> Result<DevPart, NoMemory>
    ensures { IfOk result (λ p. p.entries ≡ entries.now) }
{
    let entries = Items::from_vec(Vec::from_slice(alloc, entries)?);
    Ok(part(alloc, state, gone, entries))
}

fn first_entries() -> [Entry; 1]
    ensures { IsRising result }
{
    [Entry {
        src: 10,
        dev: 1,
        dst: 7,
        len: 3,
    }]
}

fn second_entries() -> [Entry; 2]
    ensures { IsRising result }
{
    [
        Entry {
            src: 7,
            dev: 2,
            dst: 100,
            len: 1,
        },
        Entry {
            src: 8,
            dev: 2,
            dst: 40,
            len: 2,
        },
    ]
}

/// Device 0 went to device 1 or is going there, and device 1 went to device 2.
fn chain(alloc: Global, first: DevState, second: u64) -> Result<Devs, NoMemory> {
    let parts = Vec::from_array(
        alloc,
        [
            device(alloc, first, 5, &first_entries())?,
            device(alloc, DevState::Gone, second, &second_entries())?,
            device(alloc, DevState::On, 0, &[])?,
        ],
    )?;
    Devs::new(alloc, parts.as_slice())
}

fn log_of(alloc: Global, devs: &Devs, d: Dva) -> Result<Vec<Visited>, ChainErr>
    requires ranked { IsRanked (devices_in devs.now) }
    requires known { d.dev < length devs.now }
{
    let mut log = Collected::new(alloc);
    devs.remap(alloc, d, &mut log)?;
    Ok(log.list)
}

fn of_first(start: u64, len: u32) -> Dva
    ensures { result.dev ≡ 0 }
{
    Dva { dev: 0, start, len }
}

#[test]
fn parts_of_two_removals(rt: HostRuntime) -> Result<(), Fail> {
    let alloc = rt.alloc();
    let devs = chain(alloc, DevState::Gone, 9)?;
    assert!(rt; devs.ranked());
    assert_eq!(rt; devs.len(), 3);
    assert!(rt; !devs.is_empty());
    let told = log_of(alloc, &devs, of_first(10, 3)).ok().ok_or("a walk")?;
    let expected = [
        hop(0, 10, 3),
        hop(1, 7, 3),
        piece(0, 2, 100, 1),
        piece(1, 2, 40, 2),
    ];
    assert_eq!(rt; told.as_slice(), expected.as_slice());
    Ok(())
}

#[test]
fn units_without_entries(rt: HostRuntime) -> Result<(), Fail> {
    let alloc = rt.alloc();
    let devs = chain(alloc, DevState::Gone, 9)?;
    assert!(rt; devs.ranked());
    assert_eq!(rt; devs.len(), 3);
    for (start, unit) in [(9, 9), (12, 13)] {
        let gap = log_of(alloc, &devs, of_first(start, 2)).err();
        assert_eq!(rt; gap, Some(ChainErr::NoEntry { dev: 0, unit }));
    }
    Ok(())
}

#[test]
fn ranks_of_removals(rt: HostRuntime) -> Result<(), Fail> {
    let alloc = rt.alloc();
    let rows = [
        (DevState::Gone, 9, true),
        (DevState::Gone, 5, false),
        (DevState::Gone, 4, false),
        (DevState::Leaving, 9, false),
    ];
    for (first, second, ranked) in rows {
        let devs = chain(alloc, first, second)?;
        assert_eq!(rt; devs.ranked(), ranked);
    }
    Ok(())
}
