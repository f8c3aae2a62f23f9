//! The blocks of objects, freed one after another.
//!
//! An address of a block may lead over devices that are gone to several places, and units that it passes there must not be
//! obsolete. Whether it may lead where it does is just what a space tests before it frees a block. So a walk over the objects
//! of a root frees each block that it meets of a space of that root, which is let go then. A block may be marked where it may
//! be freed, and behind the walk no unit may be held but those that a checkpoint keeps.
//!
//! While a checkpoint is held, a second space loses the blocks alone that were born behind it. Behind the walk it holds
//! just what the saved root has.
ghost use Rattle.std.specs.Prelude.{◌≡◌, ◌↔◌, ◌<◌, ◌≤◌, ℕ, [], IfOk, IfSome, IfNone, OnOk, IsTrue};
ghost use Rattle.zr_base.specs.declared.space.CkptPart.TheVariants.{Held};
ghost use Rattle.zr_rules.specs.Places.{part_of};
ghost use Rattle.zr_space.specs.Live.{IsFreeable};
ghost use Rattle.zr_space.specs.Opens.{CanOpen, IsOpened};
ghost use Rattle.zr_import.specs.Spending.{HaveHeld, HaveKept, MaySpend, Spends, SpendsBlock};

use crate::mark::Mark;
use std::alloc::Global;
use zr_base::{CkptPart, DevPart, Dva, Extent, NoMemory, SpaceParts};
use zr_bptr::Bptr;
use zr_ranges::RangeSet;
use zr_space::Space;

/// What is left of the space of a root behind the blocks that were met, and what is left of it behind those of them that are
/// young: they were born behind the group `since`, that of the checkpoint that is held.
#[derive(Drop)]
pub struct Spent {
    pub left: Space,
    pub since: u64,
    pub older: Space,
}

/// The group behind which the blocks of a root are young: that of the checkpoint that it holds.
fn since_of(ckpt: CkptPart) -> u64
    ensures { (txg : ℕ) → ckpt ≡ Held txg → result ≡ txg }
{
    match ckpt {
        CkptPart::Held(txg) => txg,
        CkptPart::Clear => u64::MAX,
        CkptPart::Discarding => u64::MAX,
    }
}

/// The space that older blocks may have, while a checkpoint is held: that of the root.
fn first_older(alloc: Global, parts: &SpaceParts, meta: &[Dva]) -> Result<Option<Space>, NoMemory>
    ensures some { IfOk result (λ o. IfSome o (λ older. (txg : ℕ) → parts.now.ckpt ≡ Held txg → IsOpened parts.now meta.now [] older)) }
    ensures none { IfOk result (λ o. IfNone o (¬ CanOpen parts.now meta.now [])) }
{
    match parts.ckpt {
        CkptPart::Held(_) => Space::from_parts(alloc, parts, meta, &[]),
        CkptPart::Clear => Ok(Some(Space::new(alloc, parts.version))),
        CkptPart::Discarding => Ok(Some(Space::new(alloc, parts.version))),
    }
}

/// The held units of the device with this index.
fn held_in(alloc: Global, space: &Space, dev: usize) -> Result<RangeSet, NoMemory>
    ensures { IfOk result (λ set. set.extents ≡ (part_of space.now.parts.devs dev).held) }
{
    if dev >= space.devices() as usize {
        return Ok(RangeSet::new(alloc));
    }
    space.held(dev as u32).to_set()
}

/// The held units of the device with this index in a root.
fn held_at(parts: &[DevPart], dev: usize) -> &[Extent]
    ensures { result.now ≡ (part_of parts.now dev).held }
{
    if dev >= parts.len() {
        return &[];
    }
    parts[dev].held.as_slice()
}

/// The units of the device with this index that only the checkpoint has.
fn kept_at(parts: &[DevPart], dev: usize) -> &[Extent]
    ensures { result.now ≡ (part_of parts.now dev).kept }
{
    if dev >= parts.len() {
        return &[];
    }
    parts[dev].kept.as_slice()
}

fn are_same(one: &[Extent], other: &[Extent]) -> bool
    ensures { IsTrue result ↔ (one.now ≡ other.now) }
{
    one == other
}

/// Whether just the kept units of the devices are held. It goes over the extents.
pub(crate) fn have_kept(alloc: Global, space: &Space, parts: &[DevPart]) -> Result<bool, NoMemory>
    ensures { IfOk result (λ yes. IsTrue yes ↔ HaveKept space.now parts.now) }
{
    let devices = (space.devices() as usize).max(parts.len());
    for dev in 0..devices {
        let held = held_in(alloc, space, dev)?;
        if !are_same(held.extents(), kept_at(parts, dev)) {
            return Ok(false);
        }
    }
    Ok(true)
}

/// Whether just the held units of the devices are held. It goes over the extents.
pub(crate) fn have_held(alloc: Global, space: &Space, parts: &[DevPart]) -> Result<bool, NoMemory>
    ensures { IfOk result (λ yes. IsTrue yes ↔ HaveHeld space.now parts.now) }
{
    let devices = (space.devices() as usize).max(parts.len());
    for dev in 0..devices {
        let held = held_in(alloc, space, dev)?;
        if !are_same(held.extents(), held_at(parts, dev)) {
            return Ok(false);
        }
    }
    Ok(true)
}

impl Spent {
    /// The space of a root with these parts and this metadata, before a block is met. None exactly where no space can have
    /// them. It costs what `Space::from_parts` does, twice while a checkpoint is held.
    pub fn from_parts(
        alloc: Global,
        parts: &SpaceParts,
        meta: &[Dva],
    ) -> Result<Option<Spent>, NoMemory>
        ensures left { IfOk result (λ o. IfSome o (λ spent. IsOpened parts.now meta.now [] spent.left)) }
        ensures since { IfOk result (λ o. IfSome o (λ spent. (txg : ℕ) → parts.now.ckpt ≡ Held txg → spent.since ≡ txg)) }
        ensures older { IfOk result (λ o. IfSome o (λ spent. (txg : ℕ) → parts.now.ckpt ≡ Held txg → IsOpened parts.now meta.now [] spent.older)) }
        ensures none { IfOk result (λ o. IfNone o (¬ CanOpen parts.now meta.now [])) }
    {
        let Some(left) = Space::from_parts(alloc, parts, meta, &[])? else {
            return Ok(None);
        };
        let Some(older) = first_older(alloc, parts, meta)? else {
            return Ok(None);
        };
        Ok(Some(Spent {
            left,
            since: since_of(parts.ckpt),
            older,
        }))
    }

    /// Whether a young block may be freed of the older units.
    fn may_spend_older(&self, b: &Bptr) -> Result<bool, NoMemory>
        ensures { IfOk result (λ yes. IsTrue yes ↔ (self.now.since < b.now.birth → IsFreeable self.now.older b.now.at)) }
    {
        if b.birth <= self.since {
            return Ok(true);
        }
        self.older.is_freeable(b.at)
    }

    /// Whether a block may be freed.
    fn may_spend(&self, b: &Bptr) -> Result<bool, NoMemory>
        ensures { IfOk result (λ yes. IsTrue yes ↔ MaySpend self.now b.now) }
    {
        if !self.left.is_freeable(b.at)? {
            return Ok(false);
        }
        self.may_spend_older(b)
    }

    /// Frees a block. Where memory runs out, it may be freed of one of the two.
    fn spend(&mut self, b: &Bptr) -> Result<(), NoMemory>
        requires { MaySpend self.old b.now }
        ensures { OnOk result (Spends self.old self.new b.now) }
    {
        self.left.free(b.at, u64::MAX)?;
        if b.birth > self.since {
            self.older.free(b.at, u64::MAX)?;
        }
        Ok(())
    }
}

impl Mark for Spent {
    ghost use Rattle.zr_import.specs.Spending.{MaySpend, Spends};

    ghost may = { MaySpend };

    ghost marks = { Spends };

    fn mark(&mut self, b: &Bptr) -> Result<bool, NoMemory> {
        if !self.may_spend(b)? {
            return Ok(false);
        }
        self.spend(b)?;
        Ok(true)
    }
}
