//! A mapping that is searched, and one that is counted and condensed.
ghost use Rattle.std.specs.Prelude.{◌≡◌, ◌*◌, ◌^◌, ◌<◌, ◌≤◌, length, IfOk};

use std::alloc::Global;
use std::marker::Brand;
use std::sync::ledger::{Blank, Ledger};
use std::test::Fail;
use zr_base::{Entry, Extent, NoMemory};
use zr_condense::Condense;
use zr_imap::{Imap, Steps};
use zr_obsolete::Obsolete;
use zr_paged::UnitSet;

// A mapping of so many entries of one unit, at every other unit from 0 on.
fn every_other(alloc: Global, entries: u64) -> Result<Imap, NoMemory>
    requires { entries ≤ 2 ^ 30 }
{
    let mut map = Imap::new(alloc);
    for i in 0..entries {
        map.push(Entry {
            src: 2 * i,
            dev: 1,
            dst: i,
            len: 1,
        })?;
    }
    Ok(map)
}

fn find<L: Ledger>(map: &Imap, u: u64, blank: Blank) -> Option<usize>
    requires name { blank.name ≡ L.name }
    requires parts { blank.parts ≡ L.parts }
    requires some { 0 < L.parts }
{
    let mut steps: Steps<L> = Steps::open(blank);
    map.find(u, &mut steps)
}

#[test]
fn an_entry_is_found_over_pages(rt: HostRuntime) -> Result<(), Fail> {
    let map = every_other(rt.alloc(), 341)?;
    assert_eq!(rt; map.len(), 341);
    assert_eq!(rt; find::<Brand>(&map, 680, Blank::new(1)), Some(340));
    assert_eq!(rt; find::<Brand>(&map, 1, Blank::new(1)), None);
    Ok(())
}

fn four_units(src: u64) -> Entry
    ensures { result ≡ record { src = src; dev = 1; dst = src; len = 4 } }
{
    Entry {
        src,
        dev: 1,
        dst: src,
        len: 4,
    }
}

#[test]
fn an_entry_without_a_unit_in_use_goes(rt: HostRuntime) -> Result<(), Fail> {
    let alloc = rt.alloc();
    let mut map = Imap::new(alloc);
    map.push(four_units(0))?;
    map.push(four_units(4))?;
    map.push(four_units(8))?;
    let counts = vec![in alloc; 0u32, 0, 0]?;
    let mut obsolete = Obsolete::new(UnitSet::new(alloc), counts);
    obsolete.mark(Extent { start: 0, len: 7 })?;
    obsolete.fold(&map);
    let counts = [4u32, 3, 0];
    assert_eq!(rt; obsolete.counts(), counts.as_slice());
    let mut condense = Condense::begin(alloc, 0);
    assert_eq!(rt; condense.step(&map, counts.as_slice(), 64)?, 2);
    assert!(rt; condense.done(&map));
    let (kept, left) = condense.finish();
    assert_eq!(rt; kept.len(), 2);
    assert_eq!(rt; left.as_slice(), [3, 0].as_slice());
    Ok(())
}

// One-unit entries at the units from 0 on, to another device's units from 1,000 on.
fn hundred(alloc: Global) -> Result<Imap, NoMemory>
    ensures { IfOk result (λ map. length map.entries ≡ 100) }
{
    let mut map = Imap::new(alloc);
    for i in 0..100 {
        map.push(Entry {
            src: i,
            dev: 1,
            dst: 1000 + i,
            len: 1,
        })?;
    }
    Ok(map)
}

#[test]
fn a_mark_between_two_steps_waits_for_the_next_condensing(rt: HostRuntime) -> Result<(), Fail> {
    let alloc = rt.alloc();
    let map = hundred(alloc)?;
    let counts = vec![in alloc; 0u32; 100]?;
    let mut obsolete = Obsolete::new(UnitSet::new(alloc), counts);
    obsolete.mark(Extent { start: 0, len: 50 })?;
    obsolete.fold(&map);
    let mut condense = Condense::begin(alloc, 0);
    assert_eq!(rt; condense.step(&map, obsolete.counts(), 64)?, 14);
    obsolete.mark(Extent { start: 70, len: 1 })?;
    assert_eq!(rt; condense.step(&map, obsolete.counts(), 64)?, 36);
    assert!(rt; condense.done(&map));
    let (kept, left) = condense.finish();
    assert_eq!(rt; (kept.len(), left.len()), (50, 50));
    let fresh = [Extent { start: 70, len: 1 }];
    let left = obsolete.fresh().to_set()?;
    assert_eq!(rt; left.extents(), fresh.as_slice());
    Ok(())
}
