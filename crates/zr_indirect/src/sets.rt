//! Changes of plain sets.
ghost use Rattle.std.specs.Prelude.{◌≡◌, ℕ, ◌+◌, ◌<◌, ◌≤◌, ◌^◌, ◌||◌, ◌&&◌, not, nat_le, nat_lt, ◌*◌, [], length, IfOk, IsTrue, ◌↔◌};
ghost use Rattle.zr_base.specs.Extents.{HasNone, HasAll, has_unit, in_extent, IsMaximal};
ghost use Rattle.zr_indirect.specs.Mapped.{IsPart};
ghost use Rattle.zr_units.specs.Apart.{AreSetsApart};

use std::alloc::Global;
use zr_base::{Extent, Items, NoMemory};
use zr_evac::part_below;
use zr_paged::{PagedSet, UnitSet};
use zr_ranges::RangeSet;
use zr_units::uniform_front;

/// The extents of a set.
pub fn copy_of(alloc: Global, set: &RangeSet) -> Result<Items<Extent>, NoMemory>
    ensures { IfOk result (λ es. es ≡ set.now.extents) }
{
    let copy = Vec::from_slice(alloc, set.extents())?;
    Ok(Items::from_vec(copy))
}

/// Whether a set in pages has no unit of the extent.
pub fn is_apart(set: &PagedSet, e: Extent) -> bool
    ensures { IsTrue result ↔ HasNone set.now.extents e }
{
    match set.first_from(e.start) {
        None => true,
        Some(part) => e.len <= part.start - e.start,
    }
}

/// Adds the units of an extent below a unit.
pub fn add_below(set: &mut UnitSet, e: Extent, at: u64)
    requires apart { HasNone set.old.extents e }
    requires bound { at ≤ 2 ^ 62 }
    requires room { 0 < set.old.spare }
    ensures units { (u : ℕ) → has_unit set.new.extents u ≡ (has_unit set.old.extents u || (in_extent e u && nat_lt u at)) }
    ensures spare { set.old.spare ≤ set.new.spare + 1 }
{
    if let Some(part) = part_below(e, at) {
        set.add_reserved(part);
    }
}

/// Notes that units came to a set: where they went from it they did not, after all.
pub fn note_came(came: &mut UnitSet, went: &mut UnitSet, e: Extent)
    requires in_range { e.start + e.len ≤ 2 ^ 62 }
    requires apart { HasNone came.old.extents e }
    requires came_room { e.len ≤ came.old.spare }
    requires went_room { e.len ≤ went.old.spare }
    ensures came { (u : ℕ) → has_unit came.new.extents u ≡ (has_unit came.old.extents u || (in_extent e u && not (has_unit went.old.extents u))) }
    ensures went { (u : ℕ) → has_unit went.new.extents u ≡ (has_unit went.old.extents u && not (in_extent e u)) }
    ensures came_spare { came.old.spare ≤ came.new.spare + e.len }
    ensures went_spare { went.old.spare ≤ went.new.spare + e.len }
{
    let end = e.start + e.len;
    let mut at = e.start;
    while at < end {
        let rest = Extent {
            start: at,
            len: end - at,
        };
        let front = uniform_front(went, rest);
        at += front.at.len;
        if front.inside {
            went.remove_reserved(front.at);
            continue;
        }
        came.add_reserved(front.at);
    }
}

/// Takes all units of one set out of another, and leaves none in the one.
pub fn take_out(set: &mut RangeSet, part: &mut RangeSet)
    requires there { IsPart part.old.extents set.old.extents }
    requires room { length part.old.extents ≤ set.old.spare }
    ensures units { (u : ℕ) → has_unit set.new.extents u ≡ (has_unit set.old.extents u && not (has_unit part.old.extents u)) }
    ensures none { part.new.extents ≡ [] }
    ensures growth { length set.new.extents ≤ length set.old.extents + length part.old.extents }
{
    while !part.extents().is_empty() {
        let e = part.take_front(u64::MAX);
        set.remove_reserved(e);
    }
}

/// Puts all units of one set into another, and leaves none in the one.
pub fn put_in(set: &mut RangeSet, part: &mut RangeSet)
    requires apart { AreSetsApart part.old.extents set.old.extents }
    requires room { length part.old.extents ≤ set.old.spare }
    ensures units { (u : ℕ) → has_unit set.new.extents u ≡ (has_unit set.old.extents u || has_unit part.old.extents u) }
    ensures none { part.new.extents ≡ [] }
{
    while !part.extents().is_empty() {
        let e = part.take_front(u64::MAX);
        set.add_reserved(e);
    }
}

/// How many extents a set has.
pub fn count_of(set: &RangeSet) -> usize
    ensures count { result ≡ length set.now.extents }
    ensures bound { result ≤ 2 ^ 62 }
{
    let _units = set.units();
    set.extents().len()
}

/// Whether a quarter of so many mapped units is fresh.
pub fn is_due(fresh: u64, mapped: u64) -> bool
    ensures { result ≡ (nat_lt 0 fresh && nat_le (25 * mapped) (100 * fresh)) }
{
    fresh > 0 && 25 * u128::from(mapped) <= 100 * u128::from(fresh)
}
