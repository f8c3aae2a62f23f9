//! What keeps a slot from being taken by a new pool or by a new device.
ghost use Rattle.std.specs.Prelude.{◌≡◌, ◌<◌, ◌≤◌, ◌∷◌, [], ℕ, Some, length, IsTrue, IsFalse, Contains, List, slice_index};
ghost use Rattle.std.specs.List.{AllByRecursion};
ghost use Rattle.zr_image.specs.Checks.{Excludes};
ghost use Rattle.zr_base.specs.declared.refusal.Refusal.TheVariants.{DeviceInUse};
ghost use Rattle.zr_image.specs.Current.{IsLowest};
ghost use Rattle.zr_slots.specs.Checks.{HaveSizes, MayCreateOn, MayAddOn, IsTakenBy, HasItsLabelAt, IsIdentity, AreNamed};

use crate::lowest::{Has, lowest};
use crate::show::label_at;
use crate::unknown::is_in_use;
use zr_base::Refusal;
use zr_label::{Seen, units_of_size};

/// Refuses the first of the slots whose disk a pool of the version cannot have.
fn have_sizes(sizes: &[u64], version: u64, named: &[u32]) -> Result<(), Refusal>
    requires least { 1 ≤ version }
    requires most { version ≤ 2 }
    requires named { AreNamed (length sizes.now) named.now }
    ensures { HaveSizes sizes.now version named.now result }
{
    for i in 0..named.len() {
        let size = sizes[named[i] as usize];
        if units_of_size(size, version).is_none() {
            return Err(Refusal::DeviceSize { size });
        }
    }
    Ok(())
}

fn contains(slots: &[u32], slot: u32) -> bool
    ensures yes { IsTrue result → Contains slots.now slot }
    ensures no { IsFalse result → ¬ Contains slots.now slot }
{
    slots.contains(&slot)
}

/// The slots that a new pool on the named ones must not meet.
#[derive(Drop)]
struct InTheWay<'a> {
    seen: &'a [Seen],
    guid: u64,
    named: &'a [u32],
}

impl Has for InTheWay<'_> {
    ghost use Rattle.std.specs.Prelude.{◌<◌, length};
    ghost use Rattle.zr_slots.specs.Checks.{IsInTheWay};

    ghost has = { λ s. IsInTheWay s.seen.now s.guid s.named.now };

    ghost asks = { λ s slot. slot < length s.seen.now };

    fn is_had(&self, slot: u32) -> bool {
        if is_in_use(self.seen, slot) {
            return true;
        }
        let Some(label) = label_at(self.seen, slot) else {
            return false;
        };
        label.guid == self.guid && !contains(self.named, slot)
    }
}

/// Why a new pool of this identity and version cannot be made on the named slots: the size of a disk, or a slot that is
/// in use or has a label of the identity.
pub fn refuse_create(
    sizes: &[u64],
    seen: &[Seen],
    named: &[u32],
    guid: u64,
    version: u64,
) -> Result<(), Refusal>
    requires least { 1 ≤ version }
    requires most { version ≤ 2 }
    requires named { AreNamed (length sizes.now) named.now }
    requires few { length seen.now < 4294967296 }
    ensures { MayCreateOn sizes.now seen.now version guid named.now result }
{
    have_sizes(sizes, version, named)?;
    match lowest(&InTheWay { seen, guid, named }, seen.len() as u32) {
        Some(slot) => Err(Refusal::DeviceInUse { slot }),
        None => Ok(()),
    }
}

/// Whether one of the devices of a pool has the slot.
fn is_mine(mine: &[Option<u32>], slot: u32) -> bool
    ensures yes { IsTrue result → Contains mine.now (Some slot) }
    ensures no { IsFalse result → ¬ Contains mine.now (Some slot) }
{
    for m in mine {
        if *m == Some(slot) {
            return true;
        }
    }
    false
}

/// Whether a slot is a device of this pool, or in use by another.
fn is_taken(seen: &[Seen], mine: &[Option<u32>], guid: u64, slot: u32) -> bool
    requires { slot < length seen.now }
    ensures yes { IsTrue result → IsTakenBy seen.now mine.now guid slot slot }
    ensures no { IsFalse result → ¬ IsTakenBy seen.now mine.now guid slot slot }
{
    if is_mine(mine, slot) {
        return true;
    }
    let Some(label) = label_at(seen, slot) else {
        return false;
    };
    label.guid != guid && is_in_use(seen, slot)
}

/// The device that is to be added: its pool, its index, and the group that adds it.
#[derive(Clone, Copy, PartialEq, Eq, Debug)]
pub struct Identity {
    pub guid: u64,
    pub index: u32,
    pub added: u64,
}

/// The slots other than its own that have the label of a new device.
#[derive(Drop)]
struct ItsLabel<'a> {
    seen: &'a [Seen],
    slot: u32,
    it: Identity,
}

impl Has for ItsLabel<'_> {
    ghost use Rattle.std.specs.Prelude.{◌<◌, length};
    ghost use Rattle.zr_slots.specs.Checks.{HasItsLabelAt, IsIdentity};

    ghost has = { λ s. HasItsLabelAt s.seen.now (IsIdentity s.it.guid s.it.index s.it.added) s.slot };

    ghost asks = { λ s slot. slot < length s.seen.now };

    fn is_had(&self, slot: u32) -> bool {
        if slot == self.slot {
            return false;
        }
        let Some(label) = label_at(self.seen, slot) else {
            return false;
        };
        label.guid == self.it.guid && label.index == self.it.index && label.added == self.it.added
    }
}

/// Refuses the lowest slot that has the label of a new device and is not its own.
fn is_alone(seen: &[Seen], slot: u32, it: Identity) -> Result<(), Refusal>
    requires few { length seen.now < 4294967296 }
    ensures { Excludes (HasItsLabelAt seen.now (IsIdentity it.guid it.index it.added) slot) (IsLowest (HasItsLabelAt seen.now (IsIdentity it.guid it.index it.added) slot)) DeviceInUse result }
{
    match lowest(&ItsLabel { seen, slot, it }, seen.len() as u32) {
        Some(slot) => Err(Refusal::DeviceInUse { slot }),
        None => Ok(()),
    }
}

/// Why a slot cannot become a device of an open pool: the size of its disk, its use, another slot with the label that
/// the device would have, or that all 32 indices were given out. `mine` has the slots of the pool's devices.
pub fn refuse_add(
    sizes: &[u64],
    seen: &[Seen],
    slot: u32,
    mine: &[Option<u32>],
    it: Identity,
    version: u64,
) -> Result<(), Refusal>
    requires least { 1 ≤ version }
    requires most { version ≤ 2 }
    requires exists { slot < length seen.now }
    requires sized { length sizes.now ≡ length seen.now }
    requires few { length seen.now < 4294967296 }
    ensures { MayAddOn sizes.now seen.now version slot mine.now it.guid it.index it.added result }
{
    have_sizes(sizes, version, &[slot])?;
    if is_taken(seen, mine, it.guid, slot) {
        return Err(Refusal::DeviceInUse { slot });
    }
    is_alone(seen, slot, it)?;
    if it.index >= 32 {
        return Err(Refusal::TooMany { limit: 32 });
    }
    Ok(())
}
