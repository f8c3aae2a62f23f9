//! A device that leaves: its units are copied to another one, a step at a time, and a block on it reads as before. A step
//! that a disk fails leaves the space as it was, and the next one goes on.
ghost use Rattle.std.specs.Prelude.{◌≡◌, ◌≤◌, ◌<◌, ◌∷◌, ◌++◌, [], ℕ, List, length, OnOk, IfOk, Some};
ghost use Rattle.zr_base.specs.declared.space.Policy.{Policy};
ghost use Rattle.zr_rules.specs.Choices.{AreRuns, IsPick};
ghost use Rattle.zr_rules.specs.Equation.{devices_in};
ghost use Rattle.zr_vdev.specs.Mounts.{AreMounted};

use std::alloc::{AllocError, Global};
use std::test::Fail;
use zr_base::{CkptPart, DevState, Dva, Extent, NoMemory, Policy};
use zr_bptr::Bptr;
use zr_cache::Cache;
use zr_choose::{Chooser, pick_first};
use zr_shelf::{Desk, MemDesk, Shelf};
use zr_space::Space;
use zr_store::StoreErr;
use zr_vdev::{Copied, Kind, Mount, copy_step, get_block, mounted_over_removals, put_block};

fn first_fit(alloc: Global) -> Result<Chooser, AllocError> {
    Ok(Chooser::new(
        String::from_str(alloc, "first")?,
        Policy::First,
        Box::new(
            alloc,
            |want: u64, runs: &[Extent]| -> Option<usize>
                requires { (0 < want) × AreRuns runs.now }
                ensures { IsPick Policy.First want runs.entry.now result }
            { pick_first(want, runs) },
        )?,
    ))
}

// Makes a file for a device.
fn add_disk<D: Desk>(desk: &mut D, path: &str) -> Result<(), Fail>
    ensures { OnOk result ((size : ℕ) × (D.Shelf.sizes desk.new ≡ D.Shelf.sizes desk.old ++ size ∷ []) × (8388608 ≤ size)) }
{
    let slot = desk.attach(path, Some(8388608))?;
    if slot >= desk.slots() || desk.size(slot) < 8388608 {
        return Err(Fail::new("a small disk"));
    }
    Ok(())
}

// Two devices, each with a disk of its own.
fn two_devices<D: Desk>(alloc: Global, desk: &mut D) -> Result<Space, Fail>
    requires { D.Shelf.sizes desk.old ≡ [] }
    ensures { IfOk result (λ space. AreMounted (D.Shelf.sizes desk.new) (Some 0 ∷ Some 1 ∷ []) (devices_in space)) }
{
    add_disk(desk, "a")?;
    add_disk(desk, "b")?;
    let mut space = Space::new(alloc, 2);
    space.add_dev(896, 1)?;
    space.add_dev(896, 1)?;
    Ok(space)
}

// Begins the removal of device 0 where nothing forbids it, and answers whether it did.
fn leave(space: &mut Space, slots: &[Option<u32>]) -> Result<bool, NoMemory>
    ensures { (sizes : List ℕ) → AreMounted sizes slots.now (devices_in space.old) → AreMounted sizes slots.now (devices_in space.new) }
{
    if space.devices() == 0 || space.state(0) != DevState::On || space.ckpt() != CkptPart::Clear {
        return Ok(false);
    }
    if space.leaving().is_some() || !space.kept(0).is_empty() {
        return Ok(false);
    }
    mounted_over_removals();
    space.begin_removal(0)?;
    Ok(true)
}

// Copies where there is room for all that is left.
fn step<S: Shelf>(
    alloc: Global,
    space: &mut Space,
    shelf: &mut S,
    cache: &mut Cache,
    slots: &[Option<u32>],
    pick: &Chooser,
) -> Result<Option<Copied>, NoMemory>
    requires { AreMounted (S.sizes shelf.old) slots.now (devices_in space.old) }
    ensures sizes { S.sizes shelf.new ≡ S.sizes shelf.old }
    ensures mounted { AreMounted (S.sizes shelf.new) slots.now (devices_in space.new) }
{
    if space.sizes().uncopied > space.free_units() {
        return Ok(None);
    }
    let copied = copy_step(alloc, space, shelf, cache, slots, pick)?;
    Ok(Some(copied))
}

// Puts a block of two units for the second group.
fn put<S: Shelf>(
    alloc: Global,
    space: &mut Space,
    shelf: &mut S,
    slots: &[Option<u32>],
    pick: &Chooser,
    bytes: &[u8; 8192],
) -> Result<Option<Bptr>, NoMemory>
    requires { AreMounted (S.sizes shelf.old) slots.now (devices_in space.old) }
    ensures sizes { S.sizes shelf.new ≡ S.sizes shelf.old }
    ensures mounted { AreMounted (S.sizes shelf.new) slots.now (devices_in space.new) }
{
    let mut cache = Cache::new(alloc, 1)?;
    let mount = Mount {
        slots,
        pick,
        txg: 2,
        kind: Kind::Block,
    };
    match put_block(alloc, space, shelf, &mut cache, &mount, bytes, 0) {
        Ok(b) => Ok(Some(b)),
        Err(_) => Ok(None),
    }
}

// Whether the block reads as it was put, from the disks.
fn reads<S: Shelf>(
    alloc: Global,
    space: &Space,
    shelf: &mut S,
    slots: &[Option<u32>],
    b: &Bptr,
) -> Result<bool, StoreErr>
    requires { AreMounted (S.sizes shelf.old) slots.now (devices_in space.now) }
    ensures { S.sizes shelf.new ≡ S.sizes shelf.old }
{
    let mut cache = Cache::new(alloc, 1)?;
    let bytes = get_block(alloc, space, shelf, &mut cache, slots, b)?;
    Ok(bytes.as_slice() == [5; 8192].as_slice())
}

// Puts a block on device 0, which then begins to leave. None where that is not so.
fn put_and_leave<S: Shelf>(
    alloc: Global,
    space: &mut Space,
    shelf: &mut S,
    slots: &[Option<u32>],
    pick: &Chooser,
) -> Result<Option<Bptr>, NoMemory>
    requires { AreMounted (S.sizes shelf.old) slots.now (devices_in space.old) }
    ensures { AreMounted (S.sizes shelf.new) slots.now (devices_in space.new) }
{
    let Some(b) = put(alloc, space, shelf, slots, pick, &[5; 8192])? else {
        return Ok(None);
    };
    if b.at.dev != 0 {
        return Ok(None);
    }
    let left = leave(space, slots)?;
    Ok(if left { Some(b) } else { None })
}

// Whether a step copies the two units and the next one finds nothing to copy, and the block then reads as it was put, also
// where it was copied to.
fn copies_all<S: Shelf>(
    alloc: Global,
    space: &mut Space,
    shelf: &mut S,
    slots: &[Option<u32>],
    pick: &Chooser,
    b: &Bptr,
) -> Result<bool, StoreErr>
    requires { AreMounted (S.sizes shelf.old) slots.now (devices_in space.old) }
{
    let mut cache = Cache::new(alloc, 1)?;
    let copied = step(alloc, space, shelf, &mut cache, slots, pick)?;
    let more = step(alloc, space, shelf, &mut cache, slots, pick)?;
    if copied != Some(Copied::Units(2)) || more != Some(Copied::Nothing) {
        return Ok(false);
    }
    let there = Bptr {
        at: Dva {
            dev: 1,
            start: 0,
            len: 2,
        },
        ..*b
    };
    Ok(reads(alloc, space, shelf, slots, b)? && reads(alloc, space, shelf, slots, &there)?)
}

// Whether a step is told of a fault, and nothing of the space is changed by it.
fn fails_once<S: Shelf>(
    alloc: Global,
    space: &mut Space,
    shelf: &mut S,
    slots: &[Option<u32>],
    pick: &Chooser,
) -> Result<bool, NoMemory>
    requires { AreMounted (S.sizes shelf.old) slots.now (devices_in space.old) }
    ensures { AreMounted (S.sizes shelf.new) slots.now (devices_in space.new) }
{
    let mut cache = Cache::new(alloc, 1)?;
    let before = (space.sizes(), space.next_copy());
    let failed = step(alloc, space, shelf, &mut cache, slots, pick)?;
    Ok(failed == Some(Copied::Fault) && (space.sizes(), space.next_copy()) == before)
}

#[test]
fn a_block_reads_as_before_where_it_is_copied(rt: HostRuntime) -> Result<(), Fail> {
    let alloc = rt.alloc();
    let pick = first_fit(alloc)?;
    let slots = [Some(0), Some(1)];
    let mut desk = MemDesk::new(alloc, Vec::new(alloc), Vec::new(alloc));
    let mut space = two_devices(alloc, &mut desk)?;
    let Some(b) = put_and_leave(alloc, &mut space, &mut desk, &slots, &pick)? else {
        return Err(Fail::new("no block on a device that leaves"));
    };
    assert!(rt; copies_all(alloc, &mut space, &mut desk, &slots, &pick, &b)?);
    Ok(())
}

#[test]
fn a_step_that_fails_leaves_the_space(rt: HostRuntime) -> Result<(), Fail> {
    let alloc = rt.alloc();
    let pick = first_fit(alloc)?;
    let slots = [Some(0), Some(1)];
    let mut desk = MemDesk::new(alloc, Vec::new(alloc), Vec::from_slice(alloc, &[5])?);
    let mut space = two_devices(alloc, &mut desk)?;
    let Some(b) = put_and_leave(alloc, &mut space, &mut desk, &slots, &pick)? else {
        return Err(Fail::new("no block on a device that leaves"));
    };
    assert!(rt; fails_once(alloc, &mut space, &mut desk, &slots, &pick)?);
    assert!(rt; copies_all(alloc, &mut space, &mut desk, &slots, &pick, &b)?);
    Ok(())
}
