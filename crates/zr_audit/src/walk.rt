//! The audit of a space.
ghost use Rattle.std.specs.Prelude.{◌≡◌, ℕ, ◌<◌, length, IfOk, Option};
ghost use Rattle.zr_base.specs.Extents.{has_unit};
ghost use Rattle.zr_rules.specs.Equation.{SavedRoot, Adds, walked};
ghost use Rattle.zr_rules.specs.Roles.{is_copy_role};
ghost use Rattle.zr_rules.specs.Space.{role_at};
ghost use Rattle.zr_audit.specs.Found.{found, allocated_units, AreMeta, for_each_device};

use crate::answer::Audit;
use crate::ends::ends_of;
use crate::found::count_found;
use std::alloc::Global;
use zr_base::{Dva, Items, NoMemory};
use zr_ranges::RangeSet;
use zr_space::Space;

// The copies on a device, in one array. It goes over them.
fn copies_on(space: &Space, dev: u32) -> Result<RangeSet, NoMemory>
    requires { dev < length space.now.parts.devs }
    ensures { IfOk result (λ set. (u : ℕ) → has_unit set.extents u ≡ is_copy_role (role_at space.now dev u)) }
{
    space.copies(dev).to_set()
}

/// The units that the addresses of a walk lead to, and copies, beside those that are counted, one number for each device.
/// `live` are the addresses of the live pointers, and `meta` those of metadata. Units that come twice count once, and one
/// that leads nowhere does not count. On a device that is gone nothing is found. It follows each address once, goes over
/// the parts that are met once for each device, and each part is logarithmic in the extents that were found before.
pub fn audit(alloc: Global, space: &Space, live: &[Dva], meta: &[Dva]) -> Result<Audit, NoMemory>
    ensures found { IfOk result (λ a. a.walked ≡ for_each_device space.now (found space.now live.now meta.now)) }
    ensures walked { IfOk result (λ a. AreMeta space.now meta.now → a.walked ≡ for_each_device space.now (walked space.now live.now)) }
    ensures allocated { IfOk result (λ a. a.allocated ≡ for_each_device space.now (allocated_units space.now)) }

    // Where the units add up, the two numbers are equal.
    ensures equal { IfOk result (λ a. (saved : Option SavedRoot) → Adds space.now live.now saved → AreMeta space.now meta.now → a.walked ≡ a.allocated) }
{
    space.lawful();
    let live_ends = ends_of(alloc, space, live)?;
    let meta_ends = ends_of(alloc, space, meta)?;
    let mut walked = Items::new(alloc);
    let mut allocated = Items::new(alloc);
    for dev in 0..space.devices() {
        let copies = copies_on(space, dev)?;
        let units = count_found(
            alloc,
            live_ends.as_slice(),
            &copies,
            meta_ends.as_slice(),
            dev,
            space.units_of(dev),
        )?;
        walked.push(units)?;
        allocated.push(space.columns(dev).allocated)?;
    }
    Ok(Audit { walked, allocated })
}
