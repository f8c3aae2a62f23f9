//! The mapping of each device: its entries rise within it, each has its count, and none has more obsolete units than units.
ghost use Rattle.std.specs.Prelude.{◌≡◌, ◌↔◌, ◌<◌, ◌≤◌, ◌+◌, ◌^◌, [], IfOk, IfSome, IfNone, IsTrue, All, length};
ghost use Rattle.zr_indirect.specs.Mapped.{HasEntries};
ghost use Rattle.zr_judge.specs.Parts.{GoesTogether};
ghost use Rattle.zr_obsolete.specs.Obsolete.{Fits, LiesIn};
ghost use Rattle.zr_rules.specs.Mappings.{IsEntry};
ghost use Rattle.zr_space.specs.Reads.{AreEntries, CanRead};

use crate::sets::read_set;
use std::alloc::Global;
use zr_base::{DevPart, Entry, Extent, NoMemory};
use zr_imap::{Imap, image_of};
use zr_obsolete::fresh_in;
use zr_paged::UnitSet;
use zr_ranges::RangeSet;

// No device has so many units.
const UNITS: u64 = 1 << 40;

// Whether an entry is lawful, and its source lies from `low` on and below `units`.
fn is_next(e: Entry, low: u64, units: u64) -> bool
    requires { units < 2 ^ 40 }
    ensures { IsTrue result ↔ ((low ≤ e.src) × IsEntry e × (e.src + e.len ≤ units)) }
{
    let len = u64::from(e.len);
    low <= e.src
        && 0 < len
        && len <= 256
        && len <= units
        && e.src <= units - len
        && e.dst <= (1 << 62) - len
}

// Whether entries rise, and their sources lie within so many units.
fn are_entries(entries: &[Entry], units: u64) -> bool
    requires { units < 2 ^ 40 }
    ensures { IsTrue result ↔ AreEntries units entries.now }
{
    let mut rest = entries;
    let mut low = 0;
    while let Some((first, tail)) = rest.split_first() {
        let e = *first;
        if !is_next(e, low, units) {
            return false;
        }
        low = e.src + u64::from(e.len);
        rest = tail;
    }
    true
}

/// Whether each unit of an extent has an entry. It takes a search, and a step for each entry that has some of them.
pub(crate) fn has_entries(alloc: Global, map: &Imap, e: Extent) -> Result<bool, NoMemory>
    ensures { IfOk result (λ b. IsTrue b ↔ HasEntries map.now.entries e) }
{
    let _count = map.len();
    let Some(_parts) = image_of(alloc, map, e)? else {
        return Ok(false);
    };
    Ok(true)
}

// Whether each unit of a set has an entry. It takes a search for each extent.
fn lies_in(alloc: Global, set: &RangeSet, map: &Imap) -> Result<bool, NoMemory>
    ensures { IfOk result (λ b. IsTrue b ↔ LiesIn set.now.extents map.now.entries) }
{
    let mut rest = set.extents();
    while let Some((first, tail)) = rest.split_first() {
        if !has_entries(alloc, map, *first)? {
            return Ok(false);
        }
        rest = tail;
    }
    Ok(true)
}

// Whether no entry has more obsolete units than units, counted or fresh.
fn are_fitting(counts: &[u32], map: &Imap, fresh: &UnitSet) -> bool
    requires { length counts.now ≡ length map.now.entries }
    ensures { IsTrue result ↔ Fits map.now.entries counts.now fresh.now.extents }
{
    for i in 0..counts.len() {
        let entry = map.entry(i);
        let counted = u64::from(counts[i]);
        if counted + u64::from(fresh_in(fresh, entry)) > u64::from(entry.len) {
            return false;
        }
    }
    true
}

// The obsolete units of a device that are not counted, where they are a set within it.
fn fresh_of(alloc: Global, part: &DevPart) -> Result<Option<RangeSet>, NoMemory>
    requires { part.now.row.units < 2 ^ 40 }
    ensures set { IfOk result (λ o. IfSome o (λ set. set.extents ≡ part.now.fresh)) }
    ensures some { IfOk result (λ o. IfSome o (λ set. CanRead part.now.fresh [] part.now.row.units)) }
    ensures none { IfOk result (λ o. IfNone o (CanRead part.now.fresh [] part.now.row.units → ⊥)) }
{
    let mut seen = RangeSet::new(alloc);
    read_set(alloc, &mut seen, part.fresh.as_slice(), part.row.units)
}

// Whether the mapping of a device goes together.
fn is_mapped(alloc: Global, part: &DevPart) -> Result<bool, NoMemory>
    ensures { IfOk result (λ yes. IsTrue yes ↔ GoesTogether part.now) }
{
    if part.row.units >= UNITS {
        return Ok(false);
    }
    let Some(fresh) = fresh_of(alloc, part)? else {
        return Ok(false);
    };
    let counts = part.counts.as_slice();
    if !are_entries(part.entries.as_slice(), part.row.units) {
        return Ok(false);
    }
    let map = Imap::from_entries(alloc, part.entries.as_slice())?;
    if counts.len() != map.len() || !lies_in(alloc, &fresh, &map)? {
        return Ok(false);
    }
    let fresh = UnitSet::of(alloc, &fresh)?;
    Ok(are_fitting(counts, &map, &fresh))
}

/// Whether the mapping of each device goes together.
pub(crate) fn are_mapped(alloc: Global, parts: &[DevPart]) -> Result<bool, NoMemory>
    ensures { IfOk result (λ yes. IsTrue yes ↔ All GoesTogether parts.now) }
{
    for part in parts {
        if !is_mapped(alloc, part)? {
            return Ok(false);
        }
    }
    Ok(true)
}
