//! The sets of a device as a root records them: extents that are maximal, in order and within the device.
ghost use Rattle.std.specs.Prelude.{◌≡◌, ◌↔◌, ◌+◌, ◌<◌, ◌≤◌, ◌^◌, IsTrue, IfOk, IfSome, IfNone};
ghost use Rattle.zr_space.specs.Reads.{CanRead, Marks};

use std::alloc::Global;
use zr_base::{Extent, NoMemory};
use zr_ranges::RangeSet;

// Whether an extent has units, all from `low` on and below `units`.
fn is_next(e: Extent, low: u64, units: u64) -> bool
    ensures { IsTrue result ↔ ((low ≤ e.start) × (0 < e.len) × (e.start + e.len ≤ units)) }
{
    low <= e.start && 0 < e.len && e.len <= units && e.start <= units - e.len
}

/// The set of a device of so many units whose extents these are. Its units are added to those that are used. None exactly
/// where they are not maximal, in order and within the device, or one of their units is used; then some may have been
/// added.
pub(crate) fn read_set(
    alloc: Global,
    used: &mut RangeSet,
    extents: &[Extent],
    units: u64,
) -> Result<Option<RangeSet>, NoMemory>
    requires { units < 2 ^ 40 }
    ensures set { IfOk result (λ o. IfSome o (λ set. set.extents ≡ extents.now)) }
    ensures some { IfOk result (λ o. IfSome o (λ set. CanRead extents.now used.old.extents units)) }
    ensures used { IfOk result (λ o. IfSome o (λ set. Marks extents.now used.old.extents used.new.extents)) }
    ensures none { IfOk result (λ o. IfNone o (¬ CanRead extents.now used.old.extents units)) }
{
    let mut set = RangeSet::new(alloc);
    let mut low = 0;
    for e in extents {
        if !is_next(*e, low, units) {
            return Ok(None);
        }
        if !used.is_apart(*e) {
            return Ok(None);
        }
        set.add(*e)?;
        used.add(*e)?;
        low = e.start + e.len + 1;
    }
    Ok(Some(set))
}
