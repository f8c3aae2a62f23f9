//! A removal: one device leaves, and what it has copied is what it holds below the end of its last entry.
ghost use Rattle.std.specs.Prelude.{◌≡◌, ◌↔◌, ◌<◌, ◌^◌, ◌||◌, ℕ, [], true, All, IfOk, IfSome, IfNone, IsTrue};
ghost use Rattle.std.specs.List.{AllByRecursion};
ghost use Rattle.zr_base.specs.Extents.{has_unit};
ghost use Rattle.zr_judge.specs.Parts.{HasCopied, HasMapping, MayLeave};
ghost use Rattle.zr_rules.specs.Mappings.{end_of_last, has_source};
ghost use Rattle.zr_space.specs.Reads.{CanRead};

use crate::mappings::has_entries;
use crate::sets::read_set;
use std::alloc::Global;
use zr_base::{CkptPart, DevPart, DevState, Entry, Extent, NoMemory};
use zr_evac::part_below;
use zr_imap::Imap;
use zr_ranges::RangeSet;

// The end of the last entry.
#[tactic(auto, using(zr_evac::proofs::Frontiers::last_end))]
fn end_of(map: &Imap) -> u64
    ensures { result ≡ end_of_last map.now.entries }
{
    let count = map.len();
    if count == 0 {
        return 0;
    }
    let last = map.entry(count - 1);
    last.src + u64::from(last.len)
}

// Whether nothing is counted.
fn are_zero(counts: &[u32]) -> bool
    ensures { IsTrue result ↔ AllByRecursion (λ n. n ≡ 0) counts.now }
{
    let mut rest = counts;
    while let Some((first, tail)) = rest.split_first() {
        if *first != 0 {
            return false;
        }
        rest = tail;
    }
    true
}

// Whether each unit of each entry is one of these.
fn are_entries_in(entries: &[Entry], units: &RangeSet) -> bool
    ensures { IsTrue result ↔ ((u : ℕ) → has_source entries.now u ≡ true → has_unit units.now.extents u ≡ true) }
{
    let mut rest = entries;
    while let Some((first, tail)) = rest.split_first() {
        let source = Extent {
            start: first.src,
            len: u64::from(first.len),
        };
        if !units.covers(source) {
            return false;
        }
        rest = tail;
    }
    true
}

// Whether each unit of the extents below the end has an entry.
fn are_copied(alloc: Global, map: &Imap, extents: &[Extent], end: u64) -> Result<bool, NoMemory>
    ensures { IfOk result (λ yes. IsTrue yes ↔ ((u : ℕ) → has_unit extents.now u ≡ true → u < end → has_source map.now.entries u ≡ true)) }
{
    let mut rest = extents;
    while let Some((first, tail)) = rest.split_first() {
        if let Some(below) = part_below(*first, end) {
            if !has_entries(alloc, map, below)? {
                return Ok(false);
            }
        }
        rest = tail;
    }
    Ok(true)
}

// The units that are held or marked, where each is a set within the device and none is both.
fn units_in_use(alloc: Global, part: &DevPart) -> Result<Option<RangeSet>, NoMemory>
    requires { part.now.row.units < 2 ^ 40 }
    ensures units { IfOk result (λ o. IfSome o (λ used. (u : ℕ) → has_unit used.extents u ≡ (has_unit part.now.held u || has_unit part.now.fresh u))) }
    ensures held { IfOk result (λ o. IfSome o (λ used. CanRead part.now.held [] part.now.row.units)) }
    ensures marks { IfOk result (λ o. IfSome o (λ used. CanRead part.now.fresh part.now.held part.now.row.units)) }
    ensures none { IfOk result (λ o. IfNone o (CanRead part.now.held [] part.now.row.units → CanRead part.now.fresh part.now.held part.now.row.units → ⊥)) }
{
    let mut used = RangeSet::new(alloc);
    if read_set(alloc, &mut used, part.held.as_slice(), part.row.units)?.is_none() {
        return Ok(None);
    }
    if read_set(alloc, &mut used, part.fresh.as_slice(), part.row.units)?.is_none() {
        return Ok(None);
    }
    Ok(Some(used))
}

// Whether a device may be leaving: nothing is counted, no unit is held and marked, what is held below the end of the last entry
// is copied, and of what is copied each unit is held or marked.
fn is_evacuated(alloc: Global, part: &DevPart) -> Result<bool, NoMemory>
    requires { HasMapping part.now }
    ensures { IfOk result (λ yes. IsTrue yes ↔ HasCopied part.now) }
{
    if !are_zero(part.counts.as_slice()) {
        return Ok(false);
    }
    let Some(used) = units_in_use(alloc, part)? else {
        return Ok(false);
    };
    let entries = part.entries.as_slice();
    if !are_entries_in(entries, &used) {
        return Ok(false);
    }
    let map = Imap::from_entries(alloc, entries)?;
    are_copied(alloc, &map, part.held.as_slice(), end_of(&map))
}

/// Whether no device is leaving, or one that may while no checkpoint is there.
pub(crate) fn may_leave(alloc: Global, parts: &[DevPart], ckpt: CkptPart) -> Result<bool, NoMemory>
    requires { All HasMapping parts.now }
    ensures { IfOk result (λ yes. IsTrue yes ↔ MayLeave parts.now ckpt) }
{
    let mut met = false;
    for part in parts {
        if part.row.state == DevState::Leaving {
            if met || ckpt != CkptPart::Clear || !is_evacuated(alloc, part)? {
                return Ok(false);
            }
            met = true;
        }
    }
    Ok(true)
}
