//! The sets of a device as a root records them.
//!
//! What a root records may be anything that its words spell. So each set is tested while it is read: its extents must be
//! maximal, in order and within the device, and no unit may have two uses. All units that have a use are gathered in one
//! set, from which the allocator then gets the others.
ghost use Rattle.std.specs.Prelude.{◌≡◌, ◌↔◌, ◌+◌, ◌<◌, ◌≤◌, ◌^◌, ◌++◌, [], true, false, ℕ, List, IsTrue, IfOk, IfSome, IfNone};
ghost use Rattle.zr_base.specs.Extents.{HasNone};
ghost use Rattle.zr_base.specs.declared.space.Dva.{Dva};
ghost use Rattle.zr_units.specs.Uses.{Freed, unused};
ghost use Rattle.zr_space.specs.Reads.{AreSetsOf, CanRead, Marks, CanReadLate, MarksLate, IsListed, CanReadMeta, ReadsMeta, IsRead, CanReadPart, IsAmong, CanKeep, HasMeta};
ghost use Rattle.zr_space.specs.Views.{units_there};

use std::alloc::Global;
use zr_base::{DevPart, DevRow, DevState, Dva, Extent, LateRun, NoMemory};
use zr_paged::UnitSet;
use zr_ranges::RangeSet;
use zr_units::{FreedSets, Units};

// Whether an extent has units, all from `low` on and below `units`.
fn is_next(e: Extent, low: u64, units: u64) -> bool
    ensures { IsTrue result ↔ ((low ≤ e.start) × (0 < e.len) × (e.start + e.len ≤ units)) }
{
    low <= e.start && 0 < e.len && e.len <= units && e.start <= units - e.len
}

/// The set of a device of so many units whose extents these are. Its units are added to those that are used. None exactly
/// where they are not maximal, in order and within the device, or one of their units is used; then some may have been
/// added.
pub fn read_set(
    alloc: Global,
    used: &mut RangeSet,
    extents: &[Extent],
    units: u64,
) -> Result<Option<RangeSet>, NoMemory>
    requires { units < 2 ^ 40 }
    ensures set { IfOk result (λ o. IfSome o (λ set. set.extents ≡ extents.now)) }
    ensures some { IfOk result (λ o. IfSome o (λ set. CanRead extents.now used.old.extents units)) }
    ensures used { IfOk result (λ o. IfSome o (λ set. Marks extents.now used.old.extents used.new.extents)) }
    ensures none { IfOk result (λ o. IfNone o (¬ CanRead extents.now used.old.extents units)) }
{
    let mut set = RangeSet::new(alloc);
    let mut low = 0;
    for e in extents {
        if !is_next(*e, low, units) {
            return Ok(None);
        }
        if !used.is_apart(*e) {
            return Ok(None);
        }
        set.add(*e)?;
        used.add(*e)?;
        low = e.start + e.len + 1;
    }
    Ok(Some(set))
}

// The extents of blocks and those of metadata of a late set.
#[derive(Drop)]
struct Kinds {
    blocks: Vec<Extent>,
    meta: Vec<Extent>,
}

// The extents of a late set by their kind, None exactly where one of blocks comes behind one of metadata.
fn kinds_of(alloc: Global, runs: &[LateRun]) -> Result<Option<Kinds>, NoMemory>
    ensures some { IfOk result (λ o. IfSome o (λ k. IsListed runs.now (record { blocks = k.blocks.items; meta = k.meta.items }))) }
    ensures none { IfOk result (λ o. IfNone o ((f : Freed) → ¬ IsListed runs.now f)) }
{
    let mut blocks = Vec::new(alloc);
    let mut meta = Vec::new(alloc);
    for run in runs {
        if run.meta {
            meta.push(run.at)?;
            continue;
        }
        if !meta.is_empty() {
            return Ok(None);
        }
        blocks.push(run.at)?;
    }
    Ok(Some(Kinds { blocks, meta }))
}

/// The late set of a device of so many units that the runs list. Its units are added to those that are used. None exactly
/// where they list none, or one whose units are not the device's or have another use; then some may have been added.
pub fn read_late(
    alloc: Global,
    used: &mut RangeSet,
    runs: &[LateRun],
    units: u64,
) -> Result<Option<FreedSets>, NoMemory>
    requires { units < 2 ^ 40 }
    ensures listed { IfOk result (λ o. IfSome o (λ f. IsListed runs.now f.sets)) }
    ensures some { IfOk result (λ o. IfSome o (λ f. CanReadLate f.sets used.old.extents units)) }
    ensures used { IfOk result (λ o. IfSome o (λ f. MarksLate f.sets used.old.extents used.new.extents)) }
    ensures none { IfOk result (λ o. IfNone o ((f : Freed) → IsListed runs.now f → ¬ CanReadLate f used.old.extents units)) }
{
    let Some(kinds) = kinds_of(alloc, runs)? else {
        return Ok(None);
    };
    let Some(blocks) = read_set(alloc, used, kinds.blocks.as_slice(), units)? else {
        return Ok(None);
    };
    let Some(meta) = read_set(alloc, used, kinds.meta.as_slice(), units)? else {
        return Ok(None);
    };
    let blocks = UnitSet::of(alloc, &blocks)?;
    let meta = UnitSet::of(alloc, &meta)?;
    Ok(Some(FreedSets::of_sets(blocks, meta)))
}

/// Reads the metadata that lies on a device. Its units are added to those that are used. False exactly where a unit of it
/// is not the device's, is there twice or has another use; then some may have been added.
pub fn read_meta(
    units: &mut Units,
    used: &mut RangeSet,
    dev: u32,
    meta: &[Dva],
) -> Result<bool, NoMemory>
    requires small { units.old.units < 2 ^ 40 }
    requires none { units.old.meta ≡ [] }
    ensures yes { IfOk result (λ b. b ≡ true → ReadsMeta meta.now dev units.old units.new used.old.extents used.new.extents) }
    ensures no { IfOk result (λ b. b ≡ false → ¬ CanReadMeta meta.now dev used.old.extents units.old.units) }
{
    let room = units.units();
    for a in meta {
        let e = Extent {
            start: a.start,
            len: u64::from(a.len),
        };
        if a.dev != dev || e.len == 0 {
            continue;
        }
        if !is_next(e, 0, room) {
            return Ok(false);
        }
        if !used.is_apart(e) {
            return Ok(false);
        }
        units.hold_meta(e)?;
        used.add(e)?;
    }
    Ok(true)
}

// How many units there are of a device: those of its row, and none once it is gone.
fn units_there(row: DevRow) -> u64
    ensures units { result ≡ units_there row }
    ensures few { result ≤ row.units }
{
    match row.state {
        DevState::On | DevState::Leaving => row.units,
        DevState::Gone => 0,
    }
}

// Whether each unit of a set is in another one. A search for each extent of the first.
fn is_among(set: &RangeSet, all: &RangeSet) -> bool
    ensures { IsTrue result ↔ IsAmong set.now.extents all.now.extents }
{
    let extents = set.extents();
    for e in extents {
        if !all.covers(*e) {
            return false;
        }
    }
    true
}

// The kept units of a device as a root records them. None exactly where the extents are not those of a set of held units.
fn read_kept(
    alloc: Global,
    extents: &[Extent],
    held: &RangeSet,
    units: u64,
) -> Result<Option<RangeSet>, NoMemory>
    requires { units < 2 ^ 40 }
    ensures set { IfOk result (λ o. IfSome o (λ set. set.extents ≡ extents.now)) }
    ensures some { IfOk result (λ o. IfSome o (λ set. CanKeep extents.now held.now.extents units)) }
    ensures none { IfOk result (λ o. IfNone o (¬ CanKeep extents.now held.now.extents units)) }
{
    let mut seen = RangeSet::new(alloc);
    let Some(kept) = read_set(alloc, &mut seen, extents, units)? else {
        return Ok(None);
    };
    if !is_among(&kept, held) {
        return Ok(None);
    }
    Ok(Some(kept))
}

// So many units with these uses. The held and the kept ones go into pages.
fn units_of(
    alloc: Global,
    units: u64,
    held: &RangeSet,
    kept: &RangeSet,
    late1: FreedSets,
    late2: FreedSets,
) -> Result<Units, NoMemory>
    ensures { IfOk result (λ x. x ≡ record (unused units) { held = held.now.extents; kept = kept.now.extents; late1 = late1.sets; late2 = late2.sets; spare = x.spare }) }
{
    let held = UnitSet::of(alloc, held)?;
    let kept = UnitSet::of(alloc, kept)?;
    Ok(Units::of_sets(alloc, units, held, kept, late1, late2))
}

// The units of a device as a root records them, without metadata. They are added to those that are used, of which there are
// none. None where the device is too large, a set is not kept as its maximal extents or leaves the device, or a unit has two
// uses.
fn read_device(
    alloc: Global,
    part: &DevPart,
    used: &mut RangeSet,
) -> Result<Option<Units>, NoMemory>
    requires { used.old.extents ≡ [] }
    ensures sets { IfOk result (λ o. IfSome o (λ x. AreSetsOf part.now x)) }
    ensures meta { IfOk result (λ o. IfSome o (λ x. x.meta ≡ [])) }
    ensures some { IfOk result (λ o. IfSome o (λ x. IsRead part.now.row x used.new.extents)) }
    ensures saved { IfOk result (λ o. IfSome o (λ x. x.saved ≡ [])) }
    ensures none { IfOk result (λ o. IfNone o ((meta saved : List Dva) (dev : ℕ) → ¬ CanReadPart part.now meta saved dev)) }
{
    if part.row.units >= 1 << 40 {
        return Ok(None);
    }
    let units = units_there(part.row);
    let Some(held) = read_set(alloc, used, part.held.as_slice(), units)? else {
        return Ok(None);
    };
    let Some(kept) = read_kept(alloc, part.kept.as_slice(), &held, units)? else {
        return Ok(None);
    };
    let Some(late1) = read_late(alloc, used, part.late1.as_slice(), units)? else {
        return Ok(None);
    };
    let Some(late2) = read_late(alloc, used, part.late2.as_slice(), units)? else {
        return Ok(None);
    };
    let read = units_of(alloc, units, &held, &kept, late1, late2)?;
    Ok(Some(read))
}

/// The units of a device by use, and all of them that have a use.
#[derive(Drop)]
pub struct Gathered {
    pub units: Units,
    pub used: RangeSet,
}

impl Gathered {
    /// The units by use alone.
    pub fn into_units(self) -> Units
        ensures { result ≡ self.units }
    {
        self.units
    }
}

/// Reads the units of a device with this index, and the metadata of the current and of the saved root that lies on it. None
/// only where the device cannot be read with it: a set is not as a root records it, or a unit has two uses.
pub fn read_part(
    alloc: Global,
    part: &DevPart,
    dev: u32,
    meta: &[Dva],
    saved: &[Dva],
) -> Result<Option<Gathered>, NoMemory>
    ensures sets { IfOk result (λ o. IfSome o (λ g. AreSetsOf part.now g.units)) }
    ensures read { IfOk result (λ o. IfSome o (λ g. IsRead part.now.row g.units g.used.extents)) }
    ensures meta { IfOk result (λ o. IfSome o (λ g. HasMeta meta.now dev g.units.meta)) }
    ensures saved { IfOk result (λ o. IfSome o (λ g. HasMeta saved.now dev g.units.saved)) }
    ensures none { IfOk result (λ o. IfNone o (¬ CanReadPart part.now meta.now saved.now dev)) }
{
    let mut used = RangeSet::new(alloc);
    let Some(mut units) = read_device(alloc, part, &mut used)? else {
        return Ok(None);
    };
    if !read_meta(&mut units, &mut used, dev, saved)? {
        return Ok(None);
    }
    units.save();
    if !read_meta(&mut units, &mut used, dev, meta)? {
        return Ok(None);
    }
    Ok(Some(Gathered { units, used }))
}
