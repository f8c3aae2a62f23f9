//! The mapping of a device as a root records it.
//!
//! A device in service has none. One that is leaving or gone has entries, a count for each, and obsolete units that are not
//! counted: marks, while it leaves. What a root records may be anything that its words spell, so each of these is tested
//! while it is read, and that they go together.
ghost use Rattle.std.specs.Prelude.{◌≡◌, ◌↔◌, ◌+◌, ◌<◌, ◌≤◌, ◌^◌, [], ℕ, false, replicate, length, IsTrue, IfOk, IfSome, IfNone};
ghost use Rattle.zr_base.specs.declared.space.DevState.TheVariants.{Leaving as IsOut};
ghost use Rattle.zr_indirect.specs.Mapped.{HasCounts, HasEntries};
ghost use Rattle.zr_obsolete.specs.Obsolete.{Fits, LiesIn};
ghost use Rattle.zr_rules.specs.Mappings.{IsEntry};
ghost use Rattle.zr_rules.specs.Places.{is_on};
ghost use Rattle.zr_rules.specs.Space.{IsSet};
ghost use Rattle.zr_space.specs.Reads.{AreCopied, AreEntries, IsMapped, IsReadMapping};

use crate::reads::read_set;
use std::alloc::Global;
use zr_base::{DevPart, DevState, Entry, Extent, NoMemory};
use zr_evac::part_below;
use zr_imap::{Imap, image_of};
use zr_indirect::Mapping;
use zr_obsolete::fresh_in;
use zr_paged::UnitSet;
use zr_ranges::RangeSet;

// Whether an entry is lawful, and its source lies from `low` on and below `units`.
fn is_next(e: Entry, low: u64, units: u64) -> bool
    requires { units < 2 ^ 40 }
    ensures { IsTrue result ↔ ((low ≤ e.src) × IsEntry e × (e.src + e.len ≤ units)) }
{
    let len = u64::from(e.len);
    low <= e.src
        && 0 < len
        && len <= 256
        && len <= units
        && e.src <= units - len
        && e.dst <= (1 << 62) - len
}

// Whether entries rise, and their sources lie within so many units.
fn are_entries(entries: &[Entry], units: u64) -> bool
    requires { units < 2 ^ 40 }
    ensures { IsTrue result ↔ AreEntries units entries.now }
{
    let mut rest = entries;
    let mut low = 0;
    while let Some((first, tail)) = rest.split_first() {
        let e = *first;
        if !is_next(e, low, units) {
            return false;
        }
        low = e.src + u64::from(e.len);
        rest = tail;
    }
    true
}

// Whether each unit of an extent has an entry. It takes a search, and a step for each entry that has some of them.
fn has_entries(alloc: Global, map: &Imap, e: Extent) -> Result<bool, NoMemory>
    ensures { IfOk result (λ b. IsTrue b ↔ HasEntries map.now.entries e) }
{
    let _count = map.len();
    let Some(_parts) = image_of(alloc, map, e)? else {
        return Ok(false);
    };
    Ok(true)
}

// Whether each unit of a set has an entry. It takes a search for each extent.
fn lies_in(alloc: Global, set: &RangeSet, map: &Imap) -> Result<bool, NoMemory>
    ensures { IfOk result (λ b. IsTrue b ↔ LiesIn set.now.extents map.now.entries) }
{
    let mut rest = set.extents();
    while let Some((first, tail)) = rest.split_first() {
        if !has_entries(alloc, map, *first)? {
            return Ok(false);
        }
        rest = tail;
    }
    Ok(true)
}

// Whether no entry has more obsolete units than units, counted or fresh.
fn are_fitting(counts: &[u32], map: &Imap, fresh: &UnitSet) -> bool
    requires { length counts.now ≡ length map.now.entries }
    ensures { IsTrue result ↔ Fits map.now.entries counts.now fresh.now.extents }
{
    for i in 0..counts.len() {
        let entry = map.entry(i);
        let counted = u64::from(counts[i]);
        if counted + u64::from(fresh_in(fresh, entry)) > u64::from(entry.len) {
            return false;
        }
    }
    true
}

// Whether no unit is counted.
fn are_zero(counts: &[u32]) -> bool
    ensures { IsTrue result ↔ (counts.now ≡ replicate (length counts.now) 0) }
{
    let mut rest = counts;
    while let Some((first, tail)) = rest.split_first() {
        if *first != 0 {
            return false;
        }
        rest = tail;
    }
    true
}

// A mapping, and the obsolete units that are not counted.
#[derive(Drop)]
struct Marked {
    map: Imap,
    fresh: UnitSet,
}

// The entries that a root records of a device, and its obsolete units. None exactly where they and the counts do not go
// together.
fn read_marked(alloc: Global, part: &DevPart) -> Result<Option<Marked>, NoMemory>
    requires { part.now.row.units < 2 ^ 40 }
    ensures entries { IfOk result (λ o. IfSome o (λ m. m.map.entries ≡ part.now.entries)) }
    ensures fresh { IfOk result (λ o. IfSome o (λ m. m.fresh.extents ≡ part.now.fresh)) }
    ensures set { IfOk result (λ o. IfSome o (λ m. IsSet part.now.row.units part.now.fresh)) }
    ensures rising { IfOk result (λ o. IfSome o (λ m. AreEntries part.now.row.units part.now.entries)) }
    ensures counts { IfOk result (λ o. IfSome o (λ m. HasCounts part.now.entries part.now.counts part.now.fresh)) }
    ensures none { IfOk result (λ o. IfNone o (IsMapped part.now → ¬ IsSet part.now.row.units part.now.fresh)) }
{
    let units = part.row.units;
    let counts = part.counts.as_slice();
    let mut seen = RangeSet::new(alloc);
    let Some(fresh) = read_set(alloc, &mut seen, part.fresh.as_slice(), units)? else {
        return Ok(None);
    };
    if !are_entries(part.entries.as_slice(), units) {
        return Ok(None);
    }
    let map = Imap::from_entries(alloc, part.entries.as_slice())?;
    if !lies_in(alloc, &fresh, &map)? || counts.len() != map.len() {
        return Ok(None);
    }
    let fresh = UnitSet::of(alloc, &fresh)?;
    if !are_fitting(counts, &map, &fresh) {
        return Ok(None);
    }
    Ok(Some(Marked { map, fresh }))
}

/// What a device with this index has beside its units, as a root records it. It goes over the entries, the counts and the
/// marks, and where the device is leaving over what it holds. None exactly where these do not go together.
pub fn read_mapping(
    alloc: Global,
    part: &DevPart,
    dev: u32,
    held: &UnitSet,
) -> Result<Option<Mapping>, NoMemory>
    requires small { part.now.row.units < 2 ^ 40 }
    requires held { held.now.extents ≡ part.now.held }
    ensures some { IfOk result (λ o. IfSome o (IsReadMapping part.now)) }
    ensures none { IfOk result (λ o. IfNone o (IsMapped part.now → ¬ IsSet part.now.row.units part.now.fresh)) }
{
    let Some(Marked { map, fresh }) = read_marked(alloc, part)? else {
        return Ok(None);
    };
    let moves = match part.row.state {
        DevState::On => {
            if map.len() > 0 {
                return Ok(None);
            }
            Mapping::in_service()
        }
        DevState::Leaving => {
            if !are_zero(part.counts.as_slice()) {
                return Ok(None);
            }
            let held = held.to_set()?;
            let marks = fresh.to_set()?;
            Mapping::leaving(alloc, dev, map, marks, &held)?
        }
        DevState::Gone => {
            let counts = Vec::from_slice(alloc, part.counts.as_slice())?;
            Mapping::gone(alloc, map, counts, fresh)
        }
    };
    moves.lawful();
    Ok(Some(moves))
}

// Whether each unit of an extent has an entry in a mapping.
fn is_mapped(alloc: Global, moves: &Mapping, e: Extent) -> Result<bool, NoMemory>
    requires { is_on moves.now.state ≡ false }
    ensures { IfOk result (λ b. IsTrue b ↔ HasEntries moves.now.entries e) }
{
    match moves.map() {
        Some(map) => has_entries(alloc, map, e),
        None => unreachable!(),
    }
}

/// Whether each unit that a device holds below the frontier has an entry, and no mark. It takes two searches for each
/// extent.
pub fn are_copied(alloc: Global, moves: &Mapping, held: &RangeSet) -> Result<bool, NoMemory>
    requires { is_on moves.now.state ≡ false }
    ensures { IfOk result (λ b. IsTrue b ↔ AreCopied moves.now.entries moves.now.fresh held.now.extents moves.now.opened) }
{
    let opened = moves.opened();
    let mut rest = held.extents();
    while let Some((first, tail)) = rest.split_first() {
        if let Some(below) = part_below(*first, opened) {
            if !is_mapped(alloc, moves, below)? || !moves.is_unmarked(below) {
                return Ok(false);
            }
        }
        rest = tail;
    }
    Ok(true)
}
