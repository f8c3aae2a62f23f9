//! The slots of the devices of two tables.
ghost use Rattle.std.specs.Prelude.{◌≡◌, ◌≤◌, ◌<◌, ℕ, Some, IfOk, IfSome, IfNone, Contains};
ghost use Rattle.zr_slots.specs.Tables.{IsSlotAt, IsSlotInBoth, is_concrete_in};

use crate::pool::row_at;
use std::alloc::Global;
use zr_base::{DevState, Items, NoMemory};
use zr_label::Uber;

/// Whether a device is in service or leaving in the table of a root.
fn is_concrete(u: &Uber, index: u32) -> bool
    requires { u.now.count ≤ 32 }
    ensures { result ≡ is_concrete_in u.now index }
{
    index < u.count && row_at(u, index).state != DevState::Gone
}

/// The slot of a device that is in service or leaving in both tables.
fn slot_in_both(last: &Uber, root: &Uber, slots: &[Option<u32>; 32], index: u32) -> Option<u32>
    requires last { last.now.count ≤ 32 }
    requires root { root.now.count ≤ 32 }
    requires index { index < 32 }
    ensures some { IfSome result (IsSlotAt last.now root.now slots.now index) }
    ensures none { IfNone result ((slot : ℕ) → ¬ IsSlotAt last.now root.now slots.now index slot) }
{
    if is_concrete(last, index) && is_concrete(root, index) {
        slots[index as usize]
    } else {
        None
    }
}

/// The slots of the devices that are in service or leaving in both tables, each device once and by rising index. With
/// the same table twice these are the slots of all its devices. `slots` has the slot of each device by its index.
pub fn slots_in_both(
    alloc: Global,
    last: &Uber,
    root: &Uber,
    slots: &[Option<u32>; 32],
) -> Result<Items<u32>, NoMemory>
    requires last { last.now.count ≤ 32 }
    requires root { root.now.count ≤ 32 }
    ensures each { IfOk result (λ found. (slot : ℕ) → Contains found slot → IsSlotInBoth last.now root.now slots.now slot) }
    ensures all { IfOk result (λ found. (slot : ℕ) → IsSlotInBoth last.now root.now slots.now slot → Contains found slot) }
{
    let mut found = Items::new(alloc);
    for index in 0..32 {
        if let Some(slot) = slot_in_both(last, root, slots, index) {
            found.push(slot)?;
        }
    }
    Ok(found)
}
