//! Calls of a space, each only where its contract allows it, by what the space tells.
ghost use Rattle.std.specs.Prelude.{◌≡◌, ℕ, ◌<◌, ◌≤◌, ◌&&◌, true, false, nat_le, length, IsTrue};
ghost use Rattle.zr_rules.specs.Places.{is_gone, part_of, state_of_dev};

use zr_base::{CkptPart, DevState, Dva, NoMemory};
use zr_chain::Maps;
use zr_choose::Chooser;
use zr_space::{Plan, Space, SpaceErr};

/// Adds a device, and answers its index. None where there are too many, or it has too many units.
pub fn add(space: &mut Space, units: u64, txg: u64) -> Result<Option<u32>, NoMemory> {
    if space.devices() >= 32 || units >= 1 << 40 {
        return Ok(None);
    }
    Ok(Some(space.add_dev(units, txg)?))
}

/// What an allocation came to.
#[derive(Clone, Copy, Debug, PartialEq, Eq)]
pub enum Taken {
    /// These units were taken.
    At(Dva),
    /// No run is so long, and the longest has so many units.
    NoRun(u64),
    /// So many units may not be asked for.
    No,
}

// What came of an allocation, unless memory ran out.
fn taken_of(at: Result<Dva, SpaceErr>) -> Result<Taken, NoMemory> {
    match at {
        Ok(at) => Ok(Taken::At(at)),
        Err(SpaceErr::NoRun { longest, .. }) => Ok(Taken::NoRun(longest)),
        Err(SpaceErr::NoMemory) => Err(NoMemory),
    }
}

/// Takes units for a block.
pub fn alloc(space: &mut Space, units: u64, pick: &Chooser) -> Result<Taken, NoMemory> {
    if units == 0 || units > 256 {
        return Ok(Taken::No);
    }
    taken_of(space.alloc(units, pick))
}

/// Takes units for metadata.
pub fn alloc_meta(space: &mut Space, units: u64, pick: &Chooser) -> Result<Taken, NoMemory> {
    if units == 0 || units > 256 {
        return Ok(Taken::No);
    }
    taken_of(space.alloc_meta(units, pick))
}

/// Frees a block that may be freed, and answers whether it did.
pub fn free(space: &mut Space, block: Dva, birth: u64) -> Result<bool, NoMemory> {
    if !space.is_freeable(block)? {
        return Ok(false);
    }
    space.free(block, birth)?;
    Ok(true)
}

/// Gives back metadata that is some, and answers whether it did.
pub fn give_back(space: &mut Space, meta: Dva) -> Result<bool, NoMemory> {
    if !space.is_meta(meta) {
        return Ok(false);
    }
    space.drop_meta(meta)?;
    Ok(true)
}

/// Begins the removal of a device where nothing forbids it, and answers whether it did.
pub fn leave(space: &mut Space, dev: u32) -> Result<bool, NoMemory> {
    if dev >= space.devices() || space.state(dev) != DevState::On {
        return Ok(false);
    }
    if space.ckpt() != CkptPart::Clear || !space.kept(dev).is_empty() {
        return Ok(false);
    }
    if space.leaving().is_some() {
        return Ok(false);
    }
    space.begin_removal(dev)?;
    Ok(true)
}

/// What a step of a removal came to.
#[derive(Clone, Copy, Debug, PartialEq, Eq)]
pub enum Copied {
    /// These units are copied, or their copy failed.
    Planned(Plan),
    /// Nothing is left to copy.
    Nothing,
    /// Fewer units are free than are left to copy.
    Full,
}

/// Plans the next units to be copied, and ends the copy: done, or failed. It gives the space back.
pub fn copy(space: Space, pick: &Chooser, done: bool) -> (Space, Result<Copied, NoMemory>) {
    let Some(front) = space.next_copy() else {
        return (space, Ok(Copied::Nothing));
    };
    if space.sizes().uncopied > space.free_units() {
        return (space, Ok(Copied::Full));
    }
    let copying = match space.copy_plan(front, pick) {
        Ok(copying) => copying,
        Err(before) => return (before, Err(NoMemory)),
    };
    let plan = copying.plan();
    let space = if done {
        copying.done()
    } else {
        copying.failed()
    };
    (space, Ok(Copied::Planned(plan)))
}

/// Gives up the removal, and answers the device. None where there is no removal.
pub fn cancel(space: &mut Space) -> Result<Option<u32>, NoMemory> {
    if space.leaving().is_none() {
        return Ok(None);
    }
    Ok(Some(space.cancel()?))
}

// Whether a device is gone, and did not go before a transaction group.
fn went_late(space: &Space, dev: u32, txg: u64) -> bool
    requires { dev < length space.now.parts.devs }
    ensures { result ≡ (is_gone (state_of_dev space.now.parts.devs dev) && nat_le txg (part_of space.now.parts.devs dev).row.gone) }
{
    let row = space.row(dev);
    match row.state {
        DevState::Gone => txg <= row.gone,
        DevState::On | DevState::Leaving => false,
    }
}

// Whether each device that is gone went before a transaction group.
fn went_before(space: &Space, txg: u64) -> bool
    ensures { IsTrue result → (d : ℕ) → (is_gone (state_of_dev space.now.parts.devs d) && nat_le txg (part_of space.now.parts.devs d).row.gone) ≡ false }
{
    for dev in 0..space.devices() {
        if went_late(space, dev, txg) {
            return false;
        }
    }
    true
}

// Whether metadata lies on a device, or a saved root has some.
fn has_metadata(space: &Space, dev: u32) -> bool {
    dev >= space.devices() || space.lowest_meta(dev).is_some() || space.lowest_saved().is_some()
}

/// Ends the removal where all is copied and no metadata is in its way, and answers the device. None where that is not so.
pub fn finish(space: &mut Space, txg: u64) -> Result<Option<u32>, NoMemory> {
    let Some(dev) = space.leaving() else {
        return Ok(None);
    };
    if has_metadata(space, dev) || !went_before(space, txg) || space.next_copy().is_some() {
        return Ok(None);
    }
    if space.drop_saved()? || space.drop_meta_on(dev)? {
        return Ok(None);
    }
    space.one_leaves();
    Ok(Some(space.finish(txg)?))
}

/// Holds the root of a transaction group where nothing forbids it, and answers whether it did.
pub fn hold(space: &mut Space, txg: u64) -> bool {
    if space.leaving().is_some() || space.lowest_saved().is_some() {
        return false;
    }
    space.hold(txg);
    true
}

/// Gives up the checkpoint where no device is leaving, and answers whether it did.
pub fn discard(space: &mut Space) -> bool {
    if space.leaving().is_some() {
        return false;
    }
    space.discard();
    true
}
