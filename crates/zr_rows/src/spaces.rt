//! A block's and a metadata unit's way: allocated, freed, and free again after the third commit; a block's that a
//! checkpoint has: kept, and given back once the checkpoint is discarded; and what a device that begins to leave still has.
ghost use Rattle.std.specs.Prelude.{◌≡◌, ◌<◌};
ghost use Rattle.zr_base.specs.declared.space.Policy.{Policy};
ghost use Rattle.zr_rules.specs.Choices.{AreRuns, IsPick};

use std::alloc::{AllocError, Global};
use std::test::Fail;
use zr_base::{CkptPart, Columns, DevState, Dva, Extent, NoMemory, Policy};
use zr_choose::{Chooser, pick_first};
use zr_space::{Space, SpaceErr};

fn row(allocated: u64, deferred: u64, free: u64) -> Columns {
    kept_row(allocated, 0, deferred, free)
}

fn first_fit(alloc: Global) -> Result<Chooser, AllocError> {
    Ok(Chooser::new(
        String::from_str(alloc, "first")?,
        Policy::First,
        Box::new(
            alloc,
            |want: u64, runs: &[Extent]| -> Option<usize>
                requires { (0 < want) × AreRuns runs.now }
                ensures { IsPick Policy.First want runs.entry.now result }
            { pick_first(want, runs) },
        )?,
    ))
}

// The units of device 0 by use.
fn told(space: &Space) -> Option<Columns> {
    if space.devices() == 0 {
        return None;
    }
    Some(space.columns(0))
}

// Frees a block that may be freed, and answers whether it did.
fn free(space: &mut Space, block: Dva, birth: u64) -> Result<bool, NoMemory> {
    if !space.is_freeable(block)? {
        return Ok(false);
    }
    space.free(block, birth)?;
    Ok(true)
}

// Gives back metadata that is some, and answers whether it did.
fn give_back(space: &mut Space, meta: Dva) -> Result<bool, NoMemory> {
    if !space.is_meta(meta) {
        return Ok(false);
    }
    space.drop_meta(meta)?;
    Ok(true)
}

// Gives up the checkpoint where no device is leaving.
fn give_up(space: &mut Space) -> bool {
    if space.leaving().is_some() {
        return false;
    }
    space.discard();
    true
}

#[test]
fn units_come_and_go(rt: HostRuntime) -> Result<(), Fail> {
    let alloc = rt.alloc();
    let first = first_fit(alloc)?;
    let mut space = Space::new(alloc, 2);
    space.add_dev(1000, 1)?;
    let block = space.alloc(20, &first)?;
    assert_eq!(rt; (block.start, block.len), (0, 20));
    space.commit_done(false);
    assert!(rt; free(&mut space, block, 1)?);
    assert_eq!(rt; told(&space), Some(row(0, 20, 980)));
    let meta = space.alloc_meta(1, &first)?;
    assert_eq!(rt; (meta.start, meta.len), (20, 1));
    assert!(rt; give_back(&mut space, meta)?);
    assert_eq!(rt; told(&space), Some(row(0, 21, 979)));
    space.commit_done(false);
    space.commit_done(false);
    assert_eq!(rt; told(&space), Some(row(0, 21, 979)));
    space.commit_done(false);
    assert_eq!(rt; told(&space), Some(row(0, 0, 1000)));
    Ok(())
}

#[test]
fn what_the_open_group_frees_is_free_at_once(rt: HostRuntime) -> Result<(), Fail> {
    let alloc = rt.alloc();
    let first = first_fit(alloc)?;
    let mut space = Space::new(alloc, 2);
    space.add_dev(1000, 1)?;
    let short = space.alloc(20, &first)?;
    assert!(rt; free(&mut space, short, 5)?);
    assert!(rt; !free(&mut space, short, 5)?);
    assert_eq!(rt; told(&space), Some(row(0, 0, 1000)));
    space.commit_done(true);
    assert_eq!(rt; told(&space), Some(row(0, 0, 1000)));
    Ok(())
}

#[test]
fn a_missing_run_is_told_with_the_longest(rt: HostRuntime) -> Result<(), Fail> {
    let alloc = rt.alloc();
    let first = first_fit(alloc)?;
    let mut small = Space::new(alloc, 2);
    small.add_dev(10, 1)?;
    let none = small.alloc(11, &first);
    assert_eq!(rt;
        none,
        Err(SpaceErr::NoRun {
            needed: 11,
            longest: 10
        })
    );
    Ok(())
}

fn kept_row(allocated: u64, checkpointed: u64, deferred: u64, free: u64) -> Columns {
    Columns {
        allocated,
        checkpointed,
        deferred,
        free,
    }
}

#[test]
fn what_a_checkpoint_has_is_kept(rt: HostRuntime) -> Result<(), Fail> {
    let alloc = rt.alloc();
    let first = first_fit(alloc)?;
    let mut space = Space::new(alloc, 2);
    space.add_dev(1000, 1)?;
    let block = space.alloc(20, &first)?;
    space.commit_done(false);
    space.hold(1);
    assert_eq!(rt; space.ckpt(), CkptPart::Held(1));
    assert!(rt; free(&mut space, block, 1)?);
    assert_eq!(rt; told(&space), Some(kept_row(0, 20, 0, 980)));
    let young = space.alloc(5, &first)?;
    assert!(rt; free(&mut space, young, 2)?);
    assert_eq!(rt; told(&space), Some(kept_row(0, 20, 0, 980)));
    assert!(rt; give_up(&mut space));
    assert_eq!(rt; space.discard_step()?, 20);
    assert_eq!(rt; told(&space), Some(kept_row(0, 0, 20, 980)));
    assert_eq!(rt; space.discard_step()?, 0);
    assert_eq!(rt; space.ckpt(), CkptPart::Clear);
    Ok(())
}

// Begins the removal of device 0 where nothing forbids it, and answers whether it did.
fn leave(space: &mut Space) -> Result<bool, NoMemory> {
    if space.devices() == 0 || space.state(0) != DevState::On || space.ckpt() != CkptPart::Clear {
        return Ok(false);
    }
    if space.leaving().is_some() || !space.kept(0).is_empty() {
        return Ok(false);
    }
    space.begin_removal(0)?;
    Ok(true)
}

#[test]
fn a_device_that_leaves_gives_out_no_units(rt: HostRuntime) -> Result<(), Fail> {
    let alloc = rt.alloc();
    let first = first_fit(alloc)?;
    let mut space = Space::new(alloc, 2);
    space.add_dev(1000, 1)?;
    space.add_dev(500, 1)?;
    let block = space.alloc(20, &first)?;
    assert_eq!(rt; (block.dev, block.start), (0, 0));
    assert!(rt; space.is_in_service());
    assert!(rt;
        leave(&mut space)?,
        "the device is in service, and no checkpoint is held"
    );
    assert_eq!(rt; space.leaving(), Some(0));
    assert_eq!(rt; space.state(0), DevState::Leaving);
    assert!(rt; !space.is_in_service());
    assert_eq!(rt; space.columns(0), row(20, 0, 980));
    assert_eq!(rt; space.free_units(), 500);
    let other = space.alloc(20, &first)?;
    assert_eq!(rt; (other.dev, other.start), (1, 0));
    Ok(())
}

// The space of what a root would record of this one.
fn read_back(alloc: Global, space: &Space) -> Result<Option<Space>, NoMemory> {
    let parts = space.parts()?;
    Space::from_parts(alloc, &parts, &[], &[])
}

#[test]
fn a_removal_goes_on_where_a_root_has_it(rt: HostRuntime) -> Result<(), Fail> {
    let alloc = rt.alloc();
    let first = first_fit(alloc)?;
    let mut space = Space::new(alloc, 2);
    space.add_dev(1000, 1)?;
    space.add_dev(500, 1)?;
    space.alloc(20, &first)?;
    assert!(rt; leave(&mut space)?);
    let Some(read) = read_back(alloc, &space)? else {
        return Err(Fail::new("what a space records is no space"));
    };
    assert_eq!(rt; read.leaving(), Some(0));
    assert_eq!(rt; read.sizes().uncopied, 20);
    assert_eq!(rt; read.free_units(), 500);
    Ok(())
}
