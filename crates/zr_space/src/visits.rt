//! What a free does at each visit of its address.
//!
//! A hop is on a device that is gone: its units are obsolete from then on. A part that is there is in use by a block, which
//! goes: its units are free at once where the open group allocated them, and else deferred, or kept where a checkpoint may
//! have them. On a device that is leaving their copies go with them. The room for all of it is made before, so no step takes
//! memory or fails.
ghost use Rattle.std.specs.Prelude.{◌≡◌, ℕ, ◌+◌, ◌≤◌, ◌<◌, ◌^◌, ◌∷◌, [], true, false, length, IfOk};
ghost use Rattle.zr_base.specs.Extents.{HasAll, HasNone};
ghost use Rattle.zr_base.specs.declared.space.DevState.TheVariants.{Gone};
ghost use Rattle.zr_rules.specs.Places.{is_leaving};
ghost use Rattle.zr_metaslab.specs.Devices.{free_at, count_at, units_at};
ghost use Rattle.zr_obsolete.specs.Obsolete.{Fits};
ghost use Rattle.zr_indirect.specs.Mapped.{HasEntries};
ghost use Rattle.zr_units.specs.Uses.{IsAccount};
ghost use Rattle.zr_chain.specs.declared.visit.Visited.TheVariants.{Piece};
ghost use Rattle.zr_space.specs.Freeing.{IsInUse};
ghost use Rattle.zr_space.specs.Views.{kept_of, space_of, IsSpace};
ghost use Rattle.zr_space.specs.FreeVisits.{CanFree, FreesOn, FreesVisit, FreesVisits, HaveSpare, KeepsOn, MarksOn, all_units, units_in};

use crate::device::Device;
use crate::images::free_leaving;
use crate::whole::Whole;
use zr_base::{Extent, NoMemory};
use zr_chain::Visited;
use zr_metaslab::Slabs;

// How many units a visit has.
fn units_in(v: Visited) -> u64
    ensures { result ≡ units_in v }
{
    match v {
        Visited::Hop { at, .. } | Visited::Piece { at, .. } => at.len,
    }
}

/// How many units all visits have: so many changes are made of each device at most. Memory has no room for more changes
/// than a number can say.
pub fn all_units(visits: &[Visited]) -> Result<usize, NoMemory>
    ensures { IfOk result (λ n. n ≡ all_units visits.now) }
{
    let mut rest = visits;
    let mut count = 0u64;
    while let Some((first, tail)) = rest.split_first() {
        match count.checked_add(units_in(*first)) {
            Some(more) => count = more,
            None => return Err(NoMemory),
        }
        rest = tail;
    }
    Ok(count as usize)
}

// Marks units of a device that is gone as obsolete.
fn mark(devs: &mut Vec<Device>, dev: u32, e: Extent)
    requires known { dev < length devs.old.items }
    requires gone { (kept_of devs.old.items dev).moves.state ≡ Gone }
    requires not_empty { 0 < e.len }
    requires in_range { e.start + e.len ≤ 2 ^ 62 }
    requires unmarked { HasNone (kept_of devs.old.items dev).moves.fresh e }
    requires entries { HasEntries (kept_of devs.old.items dev).moves.entries e }
    requires fits { Fits (kept_of devs.old.items dev).moves.entries (kept_of devs.old.items dev).moves.counts (e ∷ (kept_of devs.old.items dev).moves.fresh) }
    requires room { e.len ≤ (kept_of devs.old.items dev).moves.spare }
    ensures { MarksOn devs.old.items devs.new.items dev e }
{
    let device = &mut devs[dev as usize];
    device.moves.mark(e);
    device.moves.lawful();
}

/// Frees units of a device.
pub fn free_units(devs: &mut Vec<Device>, slabs: &mut Slabs, dev: u32, e: Extent)
    requires known { dev < length devs.old.items }
    requires device { dev < length slabs.old }
    requires units { units_at slabs.old dev ≡ (kept_of devs.old.items dev).uses.units }
    requires not_empty { 0 < e.len }
    requires held { HasAll (kept_of devs.old.items dev).uses.held e }
    requires room { e.len ≤ (kept_of devs.old.items dev).uses.spare }
    requires account { IsAccount (free_at slabs.old dev) (count_at slabs.old dev) (kept_of devs.old.items dev).uses }
    ensures { FreesOn slabs.old slabs.new devs.old.items devs.new.items dev e }
{
    let device = &mut devs[dev as usize];
    device.units.free_reserved(slabs, dev, e);
}

// Frees units of a device that the checkpoint may have.
fn keep_units(devs: &mut Vec<Device>, slabs: &mut Slabs, dev: u32, e: Extent)
    requires known { dev < length devs.old.items }
    requires device { dev < length slabs.old }
    requires units { units_at slabs.old dev ≡ (kept_of devs.old.items dev).uses.units }
    requires not_empty { 0 < e.len }
    requires held { HasAll (kept_of devs.old.items dev).uses.held e }
    requires unkept { HasNone (kept_of devs.old.items dev).uses.kept e }
    requires room { e.len ≤ (kept_of devs.old.items dev).uses.spare }
    requires account { IsAccount (free_at slabs.old dev) (count_at slabs.old dev) (kept_of devs.old.items dev).uses }
    ensures { KeepsOn slabs.old slabs.new devs.old.items devs.new.items dev e }
{
    let device = &mut devs[dev as usize];
    device.units.keep_reserved(slabs, dev, e);
}

// Frees units in use of a device that is there, with their copies where it is leaving.
fn free_piece(whole: &Whole, devs: &mut Vec<Device>, slabs: &mut Slabs, dev: u32, e: Extent)
    requires space { IsSpace whole.now slabs.old devs.old.items }
    requires known { dev < length devs.old.items }
    requires some { 0 < e.len }
    requires used { IsInUse (space_of whole.now devs.old.items) dev e }
    requires room { HaveSpare devs.old.items e.len }
    ensures space { IsSpace whole.now slabs.new devs.new.items }
    ensures frees { (split : ℕ) → FreesVisit false (space_of whole.now devs.old.items) (space_of whole.now devs.new.items) (Piece split dev e) }
    ensures room { (n : ℕ) → HaveSpare devs.old.items (e.len + n) → HaveSpare devs.new.items n }
    ensures rows { (d : ℕ) → (kept_of devs.new.items d).row ≡ (kept_of devs.old.items d).row }
{
    if devs[dev as usize].is_leaving() {
        free_leaving(whole, devs, slabs, dev, e);
    } else {
        free_units(devs, slabs, dev, e);
    }
}

// Does what a free does at one visit.
fn free_visit(whole: &Whole, devs: &mut Vec<Device>, slabs: &mut Slabs, v: Visited, kept: bool)
    requires space { IsSpace whole.now slabs.old devs.old.items }
    requires can { CanFree (space_of whole.now devs.old.items) (v ∷ []) }
    requires room { HaveSpare devs.old.items (units_in v) }
    requires stays { kept ≡ true → (d : ℕ) → is_leaving (kept_of devs.old.items d).row.state ≡ false }
    ensures space { IsSpace whole.now slabs.new devs.new.items }
    ensures frees { FreesVisit kept (space_of whole.now devs.old.items) (space_of whole.now devs.new.items) v }
    ensures room { (n : ℕ) → HaveSpare devs.old.items (units_in v + n) → HaveSpare devs.new.items n }
    ensures rows { (d : ℕ) → (kept_of devs.new.items d).row ≡ (kept_of devs.old.items d).row }
{
    match v {
        Visited::Hop { dev, at } => mark(devs, dev, at),
        Visited::Piece { dev, at, .. } => {
            if kept {
                keep_units(devs, slabs, dev, at);
            } else {
                free_piece(whole, devs, slabs, dev, at);
            }
        }
    }
}

/// Does what a free does at all visits of its address, for which there is room.
pub fn free_visits(
    whole: &Whole,
    devs: &mut Vec<Device>,
    slabs: &mut Slabs,
    visits: &[Visited],
    kept: bool,
)
    requires space { IsSpace whole.now slabs.old devs.old.items }
    requires can { CanFree (space_of whole.now devs.old.items) visits.now }
    requires room { HaveSpare devs.old.items (all_units visits.now) }
    requires stays { kept ≡ true → (d : ℕ) → is_leaving (kept_of devs.old.items d).row.state ≡ false }
    ensures space { IsSpace whole.now slabs.new devs.new.items }
    ensures frees { FreesVisits kept (space_of whole.now devs.old.items) (space_of whole.now devs.new.items) visits.now }
{
    let mut rest = visits;
    while let Some((first, tail)) = rest.split_first() {
        free_visit(whole, devs, slabs, *first, kept);
        rest = tail;
    }
}
