//! The units of one device that are found, each once.
//!
//! The set has some units of a part already where they were met before. So a part is put in by its gaps: from its first
//! unit on, either the set has the next units, or it lacks those up to the next one that it has.
ghost use Rattle.std.specs.Prelude.{◌≡◌, ◌≤◌, ◌<◌, ◌+◌, ◌^◌, ◌&&◌, ◌||◌, nat_lt, ℕ, IfOk, OnOk};
ghost use Rattle.zr_base.specs.Extents.{has_unit, in_extent};
ghost use Rattle.zr_rules.specs.Places.{count_below};
ghost use Rattle.zr_units.specs.Apart.{IsWithin};
ghost use Rattle.zr_audit.specs.Found.{IsUnion, IsUnionTo, ends_at, is_end_at};

use std::alloc::Global;
use zr_base::{Extent, NoMemory};
use zr_chain::Visited;
use zr_ranges::RangeSet;

// Puts the first units from `at` on into the set, up to a unit that is answered. It has them already, or gets all up to
// the next one that it has.
fn put_first(set: &mut RangeSet, at: u64, end: u64) -> Result<u64, NoMemory>
    requires some { at < end }
    requires in_range { end ≤ 2 ^ 62 }
    ensures more { IfOk result (λ next. at < next) }
    ensures within { IfOk result (λ next. next ≤ end) }
    ensures units { IfOk result (λ next. IsUnionTo set.old.extents set.new.extents at next) }
{
    let Some(part) = set.first_from(at) else {
        set.add(Extent {
            start: at,
            len: end - at,
        })?;
        return Ok(end);
    };
    if part.start == at {
        return Ok(at + part.len.min(end - at));
    }
    let next = part.start.min(end);
    set.add(Extent {
        start: at,
        len: next - at,
    })?;
    Ok(next)
}

// Puts units into a set that may have some of them.
fn put(set: &mut RangeSet, e: Extent) -> Result<(), NoMemory>
    requires { e.start + e.len ≤ 2 ^ 62 }
    ensures { OnOk result (IsUnion set.old.extents set.new.extents e) }
{
    let end = e.start + e.len;
    let mut at = e.start;
    while at < end {
        at = put_first(set, at, end)?;
    }
    Ok(())
}

// The units of an extent below a bound.
fn below(e: Extent, units: u64) -> Extent
    ensures units { (u : ℕ) → in_extent result u ≡ (in_extent e u && nat_lt u units) }
    ensures within { result.start + result.len ≤ units }
{
    if e.start >= units {
        return Extent { start: 0, len: 0 };
    }
    Extent {
        start: e.start,
        len: e.len.min(units - e.start),
    }
}

// The units that a visit has of a device, where it is a part that is there.
fn end_on(v: Visited, dev: u32, units: u64) -> Extent
    ensures units { (u : ℕ) → in_extent result u ≡ (is_end_at dev u v && nat_lt u units) }
    ensures within { result.start + result.len ≤ units }
{
    match v {
        Visited::Piece { dev: d, at, .. } if d == dev => below(at, units),
        Visited::Hop { .. } | Visited::Piece { .. } => Extent { start: 0, len: 0 },
    }
}

// Puts the units of the parts that a device has into a set.
fn put_ends(set: &mut RangeSet, visits: &[Visited], dev: u32, units: u64) -> Result<(), NoMemory>
    requires { units < 2 ^ 40 }
    ensures { OnOk result ((u : ℕ) → has_unit set.new.extents u ≡ (has_unit set.old.extents u || (ends_at visits.now dev u && nat_lt u units))) }
{
    for v in visits {
        put(set, end_on(*v, dev, units))?;
    }
    Ok(())
}

// Puts the units below a bound of a set into another.
fn put_units(set: &mut RangeSet, other: &[Extent], units: u64) -> Result<(), NoMemory>
    requires { units < 2 ^ 40 }
    ensures { OnOk result ((u : ℕ) → has_unit set.new.extents u ≡ (has_unit set.old.extents u || (has_unit other.now u && nat_lt u units))) }
{
    for e in other {
        put(set, below(*e, units))?;
    }
    Ok(())
}

// How many units a set has, all of them below `units`.
fn count(set: &RangeSet, units: u64) -> u64
    requires within { IsWithin set.now.extents units }
    requires small { units < 2 ^ 40 }
    ensures { result ≡ count_below units (has_unit set.now.extents) }
{
    let _extents = set.extents();
    set.units()
}

/// How many different units of a device the parts and the copies have. It goes over them, and for each part is logarithmic
/// in the extents that were found before.
pub fn count_found(
    alloc: Global,
    live: &[Visited],
    copies: &RangeSet,
    meta: &[Visited],
    dev: u32,
    units: u64,
) -> Result<u64, NoMemory>
    requires { units < 2 ^ 40 }
    ensures { IfOk result (λ n. n ≡ count_below units (λ u. (ends_at live.now dev u || has_unit copies.now.extents u) || ends_at meta.now dev u)) }
{
    let mut set = RangeSet::new(alloc);
    put_ends(&mut set, live, dev, units)?;
    put_units(&mut set, copies.extents(), units)?;
    put_ends(&mut set, meta, dev, units)?;
    Ok(count(&set, units))
}
