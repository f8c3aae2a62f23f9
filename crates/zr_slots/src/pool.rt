//! The pool that the slots show: its current root, and the slot of each of its devices.
ghost use Rattle.std.specs.Prelude.{◌≡◌, ◌<◌, ◌≤◌, ◌^◌, ℕ, None, length, IfOk, IfSome, IfNone, slice_index_or, take, IsTrue};
ghost use Rattle.zr_base.specs.declared.refusal.Refusal.TheVariants.{NoPoolOnDevices};
ghost use Rattle.zr_label.specs.Blocks.{IsUber};
ghost use Rattle.zr_label.specs.declared.root.Uber.{Uber};
ghost use Rattle.zr_image.specs.Checks.{Finds};
ghost use Rattle.zr_image.specs.Current.{FindsCurrent, IsCurrent, IsShown, HasDevices, row_at, is_device, slot_of_device, slots_of, is_missing, missing_device};
ghost use Rattle.zr_slots.specs.Checks.{AreLawful, IsHigher};
ghost use Rattle.zr_slots.specs.Found.{root_in};

use crate::copies::one_pool;
use crate::unknown::known;
use zr_base::{DevRow, DevState, Refusal};
use zr_label::{Label, Seen, Uber, best};

/// A pool that can be read: its current root, and the slot of each device that is in service or leaving, by the
/// device's index.
#[derive(Clone, Copy, PartialEq, Eq, Debug)]
pub struct Found {
    pub root: Uber,
    pub slots: [Option<u32>; 32],
}

/// The one of two roots whose group is higher, the first where they are equal.
fn higher(old: Option<Uber>, new: Option<Uber>) -> Option<Uber>
    ensures { IsHigher old new result }
{
    match (old, new) {
        (None, _) => new,
        (Some(_), None) => old,
        (Some(a), Some(b)) => { if a.txg < b.txg { new } else { old } }
    }
}

/// One of the roots of the highest group that is shown.
fn current(seen: &[Seen]) -> Result<Uber, Refusal>
    ensures { Finds (IsCurrent seen.now) NoPoolOnDevices result }
{
    let mut found = None;
    for slot in 0..seen.len() {
        found = higher(found, best(seen[slot].ubers.as_slice()));
    }
    match found {
        Some(u) => Ok(u),
        None => Err(Refusal::NoPoolOnDevices),
    }
}

/// What a root records of a device.
pub fn row_at(u: &Uber, index: u32) -> DevRow
    requires { index < 32 }
    ensures { result ≡ row_at u.now index }
{
    u.rows[index as usize]
}

/// Whether a label names this device of the root, and its units.
fn is_device(u: &Uber, index: u32, label: Option<Label>) -> bool
    requires { index < 32 }
    ensures { result ≡ is_device u.now index label }
{
    let Some(l) = label else {
        return false;
    };
    let row = row_at(u, index);
    l.guid == u.guid && l.index == index && l.added == row.added && l.units == row.units
}

/// The lowest slot whose label names the device, None where the device is gone.
fn slot_of_device(u: &Uber, seen: &[Seen], index: u32) -> Option<u32>
    requires index { index < 32 }
    requires few { length seen.now < 2 ^ 32 }
    ensures { result ≡ slot_of_device u.now seen.now index }
{
    if row_at(u, index).state == DevState::Gone {
        return None;
    }
    for slot in 0..seen.len() {
        if is_device(u, index, seen[slot].label) {
            return Some(slot as u32);
        }
    }
    None
}

/// Whether a device is in service or leaving, and has no slot.
fn is_missing(u: &Uber, seen: &[Seen], index: u32) -> bool
    requires index { index < 32 }
    requires few { length seen.now < 2 ^ 32 }
    ensures { result ≡ is_missing u.now seen.now index }
{
    row_at(u, index).state != DevState::Gone && slot_of_device(u, seen, index).is_none()
}

/// Refuses a root of which a device has no slot, with the lowest such device.
fn have_devices(seen: &[Seen], u: &Uber) -> Result<(), Refusal>
    requires devices { u.now.count ≤ 32 }
    requires few { length seen.now < 2 ^ 32 }
    ensures { HasDevices seen.now u.now result }
{
    for index in 0..u.count {
        if is_missing(u, seen, index) {
            return Err(Refusal::MissingDevice {
                index,
                added: row_at(u, index).added,
            });
        }
    }
    Ok(())
}

/// The slot of each device of a root.
fn slots_of(u: &Uber, seen: &[Seen]) -> [Option<u32>; 32]
    requires devices { u.now.count ≤ 32 }
    requires few { length seen.now < 2 ^ 32 }
    ensures slots { take u.now.count result ≡ slots_of u.now seen.now }
    ensures rest { (index : ℕ) → u.now.count ≤ index → slice_index_or result index None ≡ None }
{
    let mut slots = [None; 32];
    for index in 0..u.count {
        slots[index as usize] = slot_of_device(u, seen, index);
    }
    slots
}

/// The pool that the slots show, or why they show none: the first refusal among an unknown version, no pool, two pools
/// or two copies, and a device that is missing. It reads no disk and takes no memory; the time is quadratic in the slots.
pub fn find_pool(seen: &[Seen]) -> Result<Found, Refusal>
    requires few { length seen.now < 2 ^ 32 }
    requires lawful { AreLawful seen.now }
    ensures finds { FindsCurrent seen.now (root_in result) }
    ensures slots { IfOk result (λ found. take found.root.count found.slots ≡ slots_of found.root seen.now) }
    ensures rest { IfOk result (λ found. (index : ℕ) → found.root.count ≤ index → slice_index_or found.slots index None ≡ None) }
    ensures root { IfOk result (λ found. IsUber found.root) }
{
    let slots = seen.len() as u32;
    known(seen, slots)?;
    let root = current(seen)?;
    one_pool(seen, &root, slots)?;
    have_devices(seen, &root)?;
    let slots = slots_of(&root, seen);
    Ok(Found { root, slots })
}
