//! Changes of plain sets.
ghost use Rattle.std.specs.Prelude.{◌≡◌, ℕ, ◌+◌, ◌^◌, ◌<◌, ◌≤◌, ◌||◌, ◌&&◌, not, true, false, [], length};
ghost use Rattle.zr_base.specs.Extents.{HasAll, HasNone, has_unit, in_extent, unit_count, IsMaximal};
ghost use Rattle.zr_metaslab.specs.Devices.{free_at, units_at, count_at};
ghost use Rattle.zr_units.specs.Apart.{AreApart, AreSetsApart, IsWithin, IsUniform};
ghost use Rattle.zr_units.specs.Changes.{TakesBack, FreesBorn, GivesUpSet, KeepsBorn};

use zr_base::Extent;
use zr_metaslab::Slabs;
use zr_paged::UnitSet;

/// A front of an extent that is in a set, or apart from it.
#[derive(Drop)]
pub struct Front {
    pub inside: bool,
    pub at: Extent,
}

/// The longest front of an extent that is all in the set or apart from it. Logarithmic in the set's extents.
pub fn uniform_front(set: &UnitSet, e: Extent) -> Front
    requires not_empty { 0 < e.len }
    requires in_range { e.start + e.len ≤ 2 ^ 62 }
    ensures start { result.at.start ≡ e.start }
    ensures not_empty { 0 < result.at.len }
    ensures within { result.at.len ≤ e.len }
    ensures uniform { IsUniform set.now.extents result.at result.inside }
{
    let Some(part) = set.first_from(e.start) else {
        return Front {
            inside: false,
            at: e,
        };
    };
    if part.start > e.start {
        let len = e.len.min(part.start - e.start);
        let at = Extent {
            start: e.start,
            len,
        };
        return Front { inside: false, at };
    }
    let len = e.len.min(part.len);
    let at = Extent {
        start: e.start,
        len,
    };
    Front { inside: true, at }
}

/// Lets units of a block go: those that the open group allocated to the allocator, the others to what is deferred.
pub fn free_parts(
    born: &mut UnitSet,
    deferred: &mut UnitSet,
    slabs: &mut Slabs,
    dev: u32,
    e: Extent,
)
    requires device { dev < length slabs.old }
    requires in_range { e.start + e.len ≤ units_at slabs.old dev }
    requires small { units_at slabs.old dev < 2 ^ 40 }
    requires born_room { e.len ≤ born.old.spare }
    requires deferred_room { e.len ≤ deferred.old.spare }
    requires apart { HasNone deferred.old.extents e }
    requires not_free { (u : ℕ) → in_extent e u ≡ true → free_at slabs.old dev u ≡ false }
    requires born_maximal { IsMaximal born.old.extents }
    requires deferred_maximal { IsMaximal deferred.old.extents }
    ensures frees { FreesBorn born.old.extents born.new.extents deferred.old.extents deferred.new.extents slabs.old slabs.new dev e }
    ensures born_spare { born.old.spare ≤ born.new.spare + e.len }
    ensures deferred_spare { deferred.old.spare ≤ deferred.new.spare + e.len }
{
    let end = e.start + e.len;
    let mut at = e.start;
    while at < end {
        let rest = Extent {
            start: at,
            len: end - at,
        };
        let front = uniform_front(born, rest);
        at += front.at.len;
        if front.inside {
            born.remove_reserved(front.at);
            slabs.release(dev, front.at);
            continue;
        }
        deferred.add_reserved(front.at);
    }
}

/// Lets all units of a set of copies go, which are then held no more: those that the open group made to the allocator, the
/// others to what is deferred. It takes no memory, and costs a change of each set for each extent.
pub fn give_up_parts(
    copies: &mut UnitSet,
    held: &mut UnitSet,
    born: &mut UnitSet,
    deferred: &mut UnitSet,
    slabs: &mut Slabs,
    dev: u32,
)
    requires device { dev < length slabs.old }
    requires small { units_at slabs.old dev < 2 ^ 40 }
    requires within { IsWithin copies.old.extents (units_at slabs.old dev) }
    requires there { (u : ℕ) → has_unit copies.old.extents u ≡ true → has_unit held.old.extents u ≡ true }
    requires held_room { unit_count copies.old.extents ≤ held.old.spare }
    requires born_room { unit_count copies.old.extents ≤ born.old.spare }
    requires deferred_room { unit_count copies.old.extents ≤ deferred.old.spare }
    requires apart { AreSetsApart copies.old.extents deferred.old.extents }
    requires not_free { AreApart copies.old.extents (free_at slabs.old dev) }
    requires held_maximal { IsMaximal held.old.extents }
    requires born_maximal { IsMaximal born.old.extents }
    requires deferred_maximal { IsMaximal deferred.old.extents }
    ensures empty { copies.new.extents ≡ [] }
    ensures held { (u : ℕ) → has_unit held.new.extents u ≡ (has_unit held.old.extents u && not (has_unit copies.old.extents u)) }
    ensures born { (u : ℕ) → has_unit born.new.extents u ≡ (has_unit born.old.extents u && not (has_unit copies.old.extents u)) }
    ensures deferred { (u : ℕ) → has_unit deferred.new.extents u ≡ (has_unit deferred.old.extents u || (has_unit copies.old.extents u && not (has_unit born.old.extents u))) }
    ensures count { unit_count held.new.extents + unit_count copies.old.extents ≡ unit_count held.old.extents }
    ensures held_maximal { IsMaximal held.new.extents }
    ensures born_maximal { IsMaximal born.new.extents }
    ensures deferred_maximal { IsMaximal deferred.new.extents }
    ensures given { GivesUpSet copies.old.extents born.old.extents deferred.old.extents deferred.new.extents slabs.old slabs.new dev }
{
    while !copies.is_empty() {
        let e = copies.take_front(u64::MAX);
        held.remove_reserved(e);
        free_parts(born, deferred, slabs, dev, e);
    }
}

/// Keeps units of a block that the checkpoint may have, which are then no longer in use by a block: those that the open
/// group allocated go to the allocator, and the others are kept.
pub fn keep_parts(
    held: &mut UnitSet,
    born: &mut UnitSet,
    kept: &mut UnitSet,
    came: &mut UnitSet,
    slabs: &mut Slabs,
    dev: u32,
    e: Extent,
)
    requires device { dev < length slabs.old }
    requires in_range { e.start + e.len ≤ units_at slabs.old dev }
    requires small { units_at slabs.old dev < 2 ^ 40 }
    requires held_room { e.len ≤ held.old.spare }
    requires born_room { e.len ≤ born.old.spare }
    requires kept_room { e.len ≤ kept.old.spare }
    requires came_room { e.len ≤ came.old.spare }
    requires there { HasAll held.old.extents e }
    requires unkept { HasNone kept.old.extents e }
    requires new { HasNone came.old.extents e }
    requires not_free { (u : ℕ) → in_extent e u ≡ true → free_at slabs.old dev u ≡ false }
    requires held_maximal { IsMaximal held.old.extents }
    requires born_maximal { IsMaximal born.old.extents }
    requires kept_maximal { IsMaximal kept.old.extents }
    requires came_maximal { IsMaximal came.old.extents }
    ensures keeps { KeepsBorn held.old.extents held.new.extents born.old.extents born.new.extents kept.old.extents kept.new.extents came.old.extents came.new.extents slabs.old slabs.new dev e }
    ensures held_spare { held.old.spare ≤ held.new.spare + e.len }
    ensures born_spare { born.old.spare ≤ born.new.spare + e.len }
    ensures kept_spare { kept.old.spare ≤ kept.new.spare + e.len }
    ensures came_spare { came.old.spare ≤ came.new.spare + e.len }
{
    let end = e.start + e.len;
    let mut at = e.start;
    while at < end {
        let rest = Extent {
            start: at,
            len: end - at,
        };
        let front = uniform_front(born, rest);
        at += front.at.len;
        if front.inside {
            held.remove_reserved(front.at);
            born.remove_reserved(front.at);
            slabs.release(dev, front.at);
            continue;
        }
        kept.add_reserved(front.at);
        came.add_reserved(front.at);
    }
}

/// Gives all units of a set back to the allocator. It takes no memory, and costs a release for each extent.
pub fn let_go(set: &mut UnitSet, slabs: &mut Slabs, dev: u32)
    requires device { dev < length slabs.old }
    requires within { IsWithin set.old.extents (units_at slabs.old dev) }
    requires apart { AreApart set.old.extents (free_at slabs.old dev) }
    ensures empty { set.new.extents ≡ [] }
    ensures taken { TakesBack slabs.old slabs.new dev (has_unit set.old.extents) (unit_count set.old.extents) }
{
    while !set.is_empty() {
        let e = set.take_front(u64::MAX);
        slabs.release(dev, e);
    }
}
