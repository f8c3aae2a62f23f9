//! The devices of a root before it is known what their units are used for, and before any mapping is.
ghost use Rattle.std.specs.Prelude.{◌≡◌, ◌≤◌, ◌<◌, ◌^◌, length, map, All, IfOk};
ghost use Rattle.zr_judge.specs.Blank.{blank_part, blank_parts};

use std::alloc::Global;
use zr_base::{CkptPart, DevPart, DevRow, DevState, Items, NoMemory, SpaceParts};
use zr_space::Space;

// A device of which no unit is used, without a mapping. While it is leaving it is there as any other.
fn blank_part(alloc: Global, row: &DevRow) -> DevPart
    ensures { result ≡ blank_part row.now }
{
    let state = match row.state {
        DevState::On | DevState::Leaving => DevState::On,
        DevState::Gone => DevState::Gone,
    };
    DevPart {
        row: DevRow {
            state,
            added: row.added,
            units: row.units,
            gone: row.gone,
        },
        held: Items::new(alloc),
        kept: Items::new(alloc),
        entries: Items::new(alloc),
        counts: Items::new(alloc),
        fresh: Items::new(alloc),
        late1: Items::new(alloc),
        late2: Items::new(alloc),
    }
}

fn blank_devs(alloc: Global, rows: &[DevRow]) -> Result<Items<DevPart>, NoMemory>
    ensures { IfOk result (λ devs. devs ≡ map blank_part rows.now) }
{
    let mut devs = Items::new(alloc);
    for row in rows {
        devs.push(blank_part(alloc, row))?;
    }
    Ok(devs)
}

/// A space of devices with these rows of which nothing is known to be used. A device that is leaving is there as any other, and
/// of one that is gone no unit leads anywhere.
pub fn blank_space(alloc: Global, version: u64, rows: &[DevRow]) -> Result<Space, NoMemory>
    requires few { length rows.now ≤ 32 }
    requires small { All (λ r. r.units < 2 ^ 40) rows.now }
    ensures { IfOk result (λ space. space.parts ≡ blank_parts version rows.now) }
{
    let parts = SpaceParts {
        version,
        devs: blank_devs(alloc, rows)?,
        cond: None,
        ckpt: CkptPart::Clear,
    };
    let Some(space) = Space::from_parts(alloc, &parts, &[], &[])? else {
        unreachable!()
    };
    Ok(space)
}
