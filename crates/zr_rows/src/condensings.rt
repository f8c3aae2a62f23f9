//! A removed device whose mapping is condensed within its space.
ghost use Rattle.std.specs.Prelude.{◌<◌};

use std::alloc::Global;
use std::test::Fail;
use zr_base::{
    CkptPart, Condensed, DevPart, DevRow, DevState, Dva, Entry, Extent, Items, NoMemory, SpaceParts,
};
use zr_space::Space;

// A device without a unit in use.
fn device(alloc: Global, state: DevState, units: u64, gone: u64) -> DevPart {
    DevPart {
        row: DevRow {
            state,
            added: 1,
            units,
            gone,
        },
        held: Items::new(alloc),
        kept: Items::new(alloc),
        entries: Items::new(alloc),
        counts: Items::new(alloc),
        fresh: Items::new(alloc),
        late1: Items::new(alloc),
        late2: Items::new(alloc),
    }
}

// Device 0 is gone, with so many entries of so many units each, one behind another, to device 1 from a unit on. The first
// units of it are obsolete. Of device 1 the last units of the copies are held.
fn condensable(
    alloc: Global,
    entries: u64,
    len: u32,
    to: u64,
    fresh: u64,
) -> Result<SpaceParts, NoMemory> {
    let mut old = device(alloc, DevState::Gone, 1000, 5);
    for i in 0..entries {
        let src = i.saturating_mul(u64::from(len));
        let dst = to.saturating_add(src);
        old.entries.push(Entry {
            src,
            dev: 1,
            dst,
            len,
        })?;
        old.counts.push(0)?;
    }
    old.fresh.push(Extent {
        start: 0,
        len: fresh,
    })?;
    let mut new = device(alloc, DevState::On, 2944, 0);
    let mapped = entries.saturating_mul(u64::from(len));
    new.held.push(Extent {
        start: to.saturating_add(fresh),
        len: mapped.saturating_sub(fresh),
    })?;
    let mut devs = Items::new(alloc);
    devs.push(old)?;
    devs.push(new)?;
    Ok(SpaceParts {
        version: 2,
        devs,
        cond: None,
        ckpt: CkptPart::Clear,
    })
}

// Frees a block that may be freed, and answers whether it did.
fn free(space: &mut Space, block: Dva) -> Result<bool, NoMemory> {
    if !space.is_freeable(block)? {
        return Ok(false);
    }
    space.free(block, 1)?;
    Ok(true)
}

// How many entries a device has, how many obsolete units they count, and where the first entry begins.
fn told(part: &DevPart) -> (usize, u64, Option<u64>) {
    let mut counted: u64 = 0;
    for count in part.counts.as_slice() {
        counted = counted.saturating_add(u64::from(*count));
    }
    let entries = part.entries.as_slice();
    (entries.len(), counted, entries.first().map(|e| e.src))
}

#[test]
fn a_unit_freed_between_two_steps_waits(rt: HostRuntime) -> Result<(), Fail> {
    let alloc = rt.alloc();
    let parts = condensable(alloc, 100, 1, 1000, 50)?;
    let Some(mut space) = Space::from_parts(alloc, &parts, &[], &[])? else {
        return Err(Fail::new("no space"));
    };
    let block = Dva {
        dev: 0,
        start: 70,
        len: 1,
    };
    assert_eq!(rt; space.condense_step()?, Condensed::Kept(14));
    assert!(rt; free(&mut space, block)?);
    assert_eq!(rt; space.condense_step()?, Condensed::Done);
    let parts = space.parts()?;
    let Some(part) = parts.devs.as_slice().first() else {
        return Err(Fail::new("no device"));
    };
    assert_eq!(rt; told(part), (50, 0, Some(50)));
    let fresh = [Extent { start: 70, len: 1 }];
    assert_eq!(rt; part.fresh.as_slice(), fresh.as_slice());
    assert_eq!(rt; space.condense_step()?, Condensed::Nothing);
    Ok(())
}

fn four_units(src: u64) -> Entry
    requires { src < 1000 }
{
    Entry {
        src,
        dev: 1,
        dst: 100 + src,
        len: 4,
    }
}

#[test]
fn the_entry_without_a_unit_in_use_goes(rt: HostRuntime) -> Result<(), Fail> {
    let alloc = rt.alloc();
    let parts = condensable(alloc, 3, 4, 100, 7)?;
    let Some(mut space) = Space::from_parts(alloc, &parts, &[], &[])? else {
        return Err(Fail::new("no space"));
    };
    assert_eq!(rt; space.condense_step()?, Condensed::Done);
    let parts = space.parts()?;
    let Some(part) = parts.devs.as_slice().first() else {
        return Err(Fail::new("no device"));
    };
    let left = [four_units(4), four_units(8)];
    assert_eq!(rt; part.entries.as_slice(), left.as_slice());
    assert_eq!(rt; part.counts.as_slice(), [3, 0].as_slice());
    assert_eq!(rt; part.fresh.as_slice().len(), 0);
    Ok(())
}
