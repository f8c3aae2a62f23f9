//! Frees on a device that is leaving.
//!
//! A unit of it that was copied has its copy on another device, which is freed with it: then the unit is marked, so that its
//! copy is not looked for any more. What was not copied yet is copied no more. Of each extent the entries are visited that
//! have units of it, and no list of copies is made, so it takes no memory.
ghost use Rattle.std.specs.Prelude.{◌≡◌, ℕ, ◌+◌, ◌-◌, ◌≤◌, ◌<◌, ◌^◌, ◌==◌, ◌&&◌, true, false, length};
ghost use Rattle.zr_base.specs.Extents.{HasAll, HasNone, in_extent};
ghost use Rattle.zr_base.specs.declared.space.DevState.TheVariants.{Leaving as IsOut};
ghost use Rattle.zr_rules.specs.Mappings.{IsEntry, entry_at};
ghost use Rattle.zr_rules.specs.Places.{is_leaving, is_on};
ghost use Rattle.zr_chain.specs.Touches.{Splits, begins_before, ends_by};
ghost use Rattle.zr_chain.specs.declared.visit.Visited.TheVariants.{Piece};
ghost use Rattle.zr_metaslab.specs.Devices.{free_at, count_at, units_at};
ghost use Rattle.zr_indirect.specs.Changes.{IsCopiedOrLeft};
ghost use Rattle.zr_units.specs.Uses.{IsAccount};
ghost use Rattle.zr_space.specs.Freeing.{IsInUse};
ghost use Rattle.zr_space.specs.Views.{kept_of, space_of, IsSpace};
ghost use Rattle.zr_space.specs.FreeVisits.{FreesCopiesOn, FreesImages, FreesVisit, HaveSpare, MarksCopied, is_image, is_image_by, overlap};

use crate::device::Device;
use crate::visits::free_units;
use crate::whole::Whole;
use zr_base::{Entry, Extent};
use zr_chain::{begun_before, ended_by};
use zr_indirect::Mapping;
use zr_metaslab::Slabs;

// From which entry up to which a mapping has units of an extent.
fn entries_in(moves: &Mapping, e: Extent) -> (usize, usize)
    requires { is_on moves.now.state ≡ false }
    ensures first { Splits (ends_by e.start) moves.now.entries result.0 }
    ensures end { Splits (begins_before e.start e.len) moves.now.entries result.1 }
{
    match moves.map() {
        Some(map) => (ended_by(map, e.start), begun_before(map, e)),
        None => unreachable!(),
    }
}

// An entry of a mapping.
fn entry_of(moves: &Mapping, i: usize) -> Entry
    requires off { is_on moves.now.state ≡ false }
    requires index { i < length moves.now.entries }
    ensures value { result ≡ entry_at moves.now.entries i }
    ensures lawful { IsEntry result }
{
    match moves.map() {
        Some(map) => map.entry(i),
        None => unreachable!(),
    }
}

// Where an entry has put the units of an extent.
fn copy_by(entry: Entry, e: Extent) -> Extent
    requires lawful { IsEntry entry }
    requires ends { e.start < entry.src + entry.len }
    requires begins { entry.src < e.start + e.len }
    requires in_range { e.start + e.len ≤ 2 ^ 62 }
    requires some { 0 < e.len }
    ensures units { (d u : ℕ) → is_image_by e d u entry ≡ ((entry.dev == d) && in_extent result u) }
    ensures some { 0 < result.len }
    ensures few { result.len ≤ overlap e entry }
{
    let from = entry.src.max(e.start);
    let end = entry.src + u64::from(entry.len);
    Extent {
        start: entry.dst + (from - entry.src),
        len: (end - from).min(e.start + e.len - from),
    }
}

// Frees copies on a device.
fn free_copies(devs: &mut Vec<Device>, slabs: &mut Slabs, dev: u32, e: Extent)
    requires known { dev < length devs.old.items }
    requires device { dev < length slabs.old }
    requires units { units_at slabs.old dev ≡ (kept_of devs.old.items dev).uses.units }
    requires not_empty { 0 < e.len }
    requires copies { HasAll (kept_of devs.old.items dev).uses.copies e }
    requires room { e.len ≤ (kept_of devs.old.items dev).uses.spare }
    requires account { IsAccount (free_at slabs.old dev) (count_at slabs.old dev) (kept_of devs.old.items dev).uses }
    ensures { FreesCopiesOn slabs.old slabs.new devs.old.items devs.new.items dev e }
{
    let device = &mut devs[dev as usize];
    device.units.free_copies(slabs, dev, e);
}

// Marks what was copied of units that are freed.
fn mark_copied(devs: &mut Vec<Device>, dev: u32, e: Extent)
    requires known { dev < length devs.old.items }
    requires leaving { (kept_of devs.old.items dev).moves.state ≡ IsOut }
    requires not_empty { 0 < e.len }
    requires unmarked { HasNone (kept_of devs.old.items dev).moves.fresh e }
    requires there { IsCopiedOrLeft (kept_of devs.old.items dev).moves e }
    requires room { 0 < (kept_of devs.old.items dev).moves.spare }
    ensures { MarksCopied devs.old.items devs.new.items dev e }
{
    let device = &mut devs[dev as usize];
    device.moves.freed(e);
    device.moves.lawful();
}

// Frees the copies of units of a device that is leaving.
fn free_images(_whole: &Whole, devs: &mut Vec<Device>, slabs: &mut Slabs, dev: u32, e: Extent)
    requires space { IsSpace _whole.now slabs.old devs.old.items }
    requires known { dev < length devs.old.items }
    requires leaving { is_leaving (kept_of devs.old.items dev).row.state ≡ true }
    requires some { 0 < e.len }
    requires used { IsInUse (space_of _whole.now devs.old.items) dev e }
    requires in_range { e.start + e.len ≤ 2 ^ 62 }
    requires room { HaveSpare devs.old.items e.len }
    ensures frees { FreesImages slabs.old slabs.new devs.old.items devs.new.items (is_image (kept_of devs.old.items dev).moves.entries e) }
    ensures source { kept_of devs.new.items dev ≡ kept_of devs.old.items dev }
    ensures spare { (d : ℕ) → (kept_of devs.old.items d).uses.spare ≤ (kept_of devs.new.items d).uses.spare + e.len }
{
    let (first, end) = entries_in(&devs[dev as usize].moves, e);
    for i in first..end {
        let entry = entry_of(&devs[dev as usize].moves, i);
        free_copies(devs, slabs, entry.dev, copy_by(entry, e));
    }
}

/// Frees units of a device that is leaving, with the copies of those that were copied.
pub fn free_leaving(whole: &Whole, devs: &mut Vec<Device>, slabs: &mut Slabs, dev: u32, e: Extent)
    requires space { IsSpace whole.now slabs.old devs.old.items }
    requires known { dev < length devs.old.items }
    requires leaving { is_leaving (kept_of devs.old.items dev).row.state ≡ true }
    requires some { 0 < e.len }
    requires used { IsInUse (space_of whole.now devs.old.items) dev e }
    requires in_range { e.start + e.len ≤ 2 ^ 62 }
    requires room { HaveSpare devs.old.items e.len }
    ensures space { IsSpace whole.now slabs.new devs.new.items }
    ensures frees { (split : ℕ) → FreesVisit false (space_of whole.now devs.old.items) (space_of whole.now devs.new.items) (Piece split dev e) }
    ensures room { (n : ℕ) → HaveSpare devs.old.items (e.len + n) → HaveSpare devs.new.items n }
    ensures rows { (d : ℕ) → (kept_of devs.new.items d).row ≡ (kept_of devs.old.items d).row }
{
    free_images(whole, devs, slabs, dev, e);
    free_units(devs, slabs, dev, e);
    mark_copied(devs, dev, e);
}
