//! What a log gains: the units that came to a set and those that went, by rising place.
ghost use Rattle.std.specs.Prelude.{◌≡◌, ◌++◌, ◌<◌, ◌≤◌, map, IfOk, OnOk};
ghost use Rattle.zr_base.specs.Extents.{IsMaximal};
ghost use Rattle.zr_units.specs.Apart.{AreSetsApart};
ghost use Rattle.zr_units.specs.Differences.{IsMerged, PutsBelow, StartsFrom};

use std::alloc::Global;
use zr_base::{Change, Extent, NoMemory};

// Adds those extents that start below a unit, as given back. It answers the others.
fn put_below<'a>(
    changes: &mut Vec<Change>,
    went: &'a [Extent],
    below: u64,
) -> Result<&'a [Extent], NoMemory>
    ensures puts { IfOk result (λ rest. PutsBelow changes.old.items changes.new.items went.now rest.now below) }
    ensures all { IfOk result (λ rest. StartsFrom below rest.now) }
{
    let mut rest = went;
    while let Some((e, tail)) = rest.split_first() {
        if e.start >= below {
            break;
        }
        changes.push(Change { free: true, at: *e })?;
        rest = tail;
    }
    Ok(rest)
}

/// The extents that came, as taken, and those that went, as given back, by rising place. It goes over both.
pub fn merged(alloc: Global, came: &[Extent], went: &[Extent]) -> Result<Vec<Change>, NoMemory>
    requires came { IsMaximal came.now }
    requires went { IsMaximal went.now }
    requires apart { AreSetsApart came.now went.now }
    ensures { IfOk result (λ cs. IsMerged came.now went.now cs.items) }
{
    let mut changes = Vec::new(alloc);
    let mut rest = went;
    for e in came {
        rest = put_below(&mut changes, rest, e.start)?;
        changes.push(Change {
            free: false,
            at: *e,
        })?;
    }
    put_below(&mut changes, rest, u64::MAX)?;
    Ok(changes)
}
