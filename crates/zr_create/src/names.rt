//! The slots of the devices that a line names by their paths.
ghost use Rattle.std.specs.Prelude.{◌≡◌, ◌≤◌, IsErrOf, IfOk, IsTrue, length};
ghost use Rattle.std.specs.Str.{bytes_eq};
ghost use Rattle.zr_base.specs.declared.refusal.Refusal.{Refusal};
ghost use Rattle.zr_base.specs.declared.refusal.Refusal.TheVariants.{NoSuchDevice};
ghost use Rattle.zr_script.specs.Words.{are_different};
ghost use Rattle.zr_slots.specs.Checks.{AreNamed};
ghost use Rattle.zr_sync.specs.declared.fault.Fault.TheVariants.{No, Stops};
ghost use Rattle.zr_sync.specs.declared.stop.Stop.{Stop};
ghost use Rattle.zr_sync.specs.declared.stop.Stop.TheVariants as stop;
ghost use Rattle.zr_create.specs.Names.{slot_named, AreSlotsOf, AreApart, IsSlotMissing};

use std::alloc::Global;
use zr_base::{Blob, NoMemory, Refusal};
use zr_sync::Fault;

// Whether a device is named by its path.
fn is_path(dev: &Blob, path: &Blob) -> bool
    ensures { result ≡ bytes_eq dev.now path.now }
{
    dev.as_slice() == path.as_slice()
}

/// The slot of a path, where the paths stand in the order of the slots. Linear in the bytes of the paths.
pub fn slot_of(paths: &[Blob], dev: &Blob) -> Option<u32>
    requires few { length paths.now ≤ 32 }
    ensures { result ≡ slot_named paths.now dev.now }
{
    for slot in 0..paths.len() {
        if is_path(dev, &paths[slot]) {
            return Some(slot as u32);
        }
    }
    None
}

/// The slots of some paths, in their order.
pub fn slots_named(alloc: Global, paths: &[Blob], devs: &[Blob]) -> Result<Vec<u32>, Fault>
    requires few { length paths.now ≤ 32 }
    ensures slots { IfOk result (λ slots. AreSlotsOf paths.now devs.now slots.items) }
    ensures named { IfOk result (λ slots. AreNamed (length paths.now) slots.items) }
    ensures apart { IsTrue (are_different devs.now) → IfOk result (λ slots. AreApart slots.items) }
    ensures refused { (r : Refusal) → IsErrOf result (No r) → (r ≡ NoSuchDevice) × IsSlotMissing paths.now devs.now }
    ensures stops { (s : Stop) → IsErrOf result (Stops s) → s ≡ stop.NoMemory }
{
    let mut slots = Vec::new(alloc);
    for i in 0..devs.len() {
        let Some(slot) = slot_of(paths, &devs[i]) else {
            return Err(Fault::No(Refusal::NoSuchDevice));
        };
        slots.push(slot).map_err(NoMemory::from)?;
    }
    Ok(slots)
}
