//! The units to which a pointer of the metadata may still lead.
//!
//! Metadata stands on devices in service alone, so its addresses are its units. A unit that was met is taken out, and a
//! pointer may be marked where all its units are there. Each pointer takes some units out of the middle of a set, so the
//! sets are in pages.
ghost use Rattle.std.specs.Prelude.{◌≡◌, ◌↔◌, ◌<◌, ◌≤◌, ◌^◌, ℕ, length, map, false, IsTrue, IfOk, OnErr, All};
ghost use Rattle.zr_base.specs.Extents.{HasAll, HasNone, IsMaximal};
ghost use Rattle.zr_ranges.specs.Ranges.{Ranges};
ghost use Rattle.zr_import.specs.Units.{units_at, extent_of, serving_units, Has, Takes, HasMaximal};

use crate::mark::Mark;
use std::alloc::Global;
use std::marker::Model;
use zr_base::{DevPart, DevRow, DevState, Dva, Extent, NoMemory};
use zr_bptr::Bptr;
use zr_paged::PagedSet;

/// The units of each device to which a pointer may still lead.
#[derive(Drop)]
pub(crate) struct Marks {
    left: Vec<PagedSet>,
}

impl Model for Marks {
    ghost use Rattle.std.specs.Prelude.{List};
    ghost use Rattle.zr_ranges.specs.Ranges.{Ranges};

    ghost Value = { List Ranges };

    ghost view = { λ a. a.left.items };
}

/// The units of an address.
pub(crate) fn extent_of(at: &Dva) -> Extent
    ensures { result ≡ extent_of at.now }
{
    Extent {
        start: at.start,
        len: u64::from(at.len),
    }
}

/// A set of these extents.
fn set_of(alloc: Global, extents: &[Extent]) -> Result<PagedSet, NoMemory>
    requires { IsMaximal extents.now }
    ensures { IfOk result (λ set. set.extents ≡ extents.now) }
{
    let mut set = PagedSet::new(alloc);
    let mut count = extents.len();
    while count > 0 {
        count -= 1;
        set.push_first(extents[count])?;
    }
    Ok(set)
}

/// Whether the set has each unit of the extent, which has some. Logarithmic in the extents.
fn covers(set: &PagedSet, e: Extent) -> bool
    requires { 0 < e.len }
    ensures { IsTrue result ↔ HasAll set.now.extents e }
{
    match set.first_from(e.start) {
        Some(part) => part.start == e.start && e.len <= part.len,
        None => false,
    }
}

/// Whether the set has no unit of the extent. Logarithmic in the extents.
fn is_apart(set: &PagedSet, e: Extent) -> bool
    ensures { IsTrue result ↔ HasNone set.now.extents e }
{
    match set.first_from(e.start) {
        Some(part) => e.len <= part.start - e.start,
        None => true,
    }
}

/// All units of a device in service, and none of another.
fn row_set(alloc: Global, row: &DevRow) -> Result<PagedSet, NoMemory>
    requires { row.now.units ≤ 2 ^ 36 }
    ensures { IfOk result (λ set. set.extents ≡ serving_units row.now) }
{
    let mut set = PagedSet::new(alloc);
    if row.state == DevState::On && row.units > 0 {
        set.push_first(Extent {
            start: 0,
            len: row.units,
        })?;
    }
    Ok(set)
}

impl Marks {
    /// All units of the devices in service.
    pub fn of_rows(alloc: Global, rows: &[DevRow]) -> Result<Marks, NoMemory>
        requires { All (λ r. r.units ≤ 2 ^ 36) rows.now }
        ensures { IfOk result (λ marks. map (λ (s : Ranges). s.extents) marks ≡ map serving_units rows.now) }
    {
        let mut left = Vec::new(alloc);
        for row in rows {
            left.push(row_set(alloc, row)?)?;
        }
        Ok(Marks { left })
    }

    /// The held units of each device.
    pub fn of_held(alloc: Global, parts: &[DevPart]) -> Result<Marks, NoMemory>
        requires { All HasMaximal parts.now }
        ensures { IfOk result (λ marks. map (λ (s : Ranges). s.extents) marks ≡ map (λ p. p.held) parts.now) }
    {
        let mut left = Vec::new(alloc);
        for part in parts {
            left.push(set_of(alloc, part.held.as_slice())?)?;
        }
        Ok(Marks { left })
    }

    /// Takes out units, where all of them are there. It costs a search among the extents, and the move of one page.
    pub fn take(&mut self, dev: u32, e: Extent) -> Result<bool, NoMemory>
        ensures fits { IfOk result (λ yes. IsTrue yes ↔ Has self.old dev e) }
        ensures takes { IfOk result (λ yes. IsTrue yes → Takes self.old self.new dev e) }
        ensures same { IfOk result (λ yes. yes ≡ false → self.new ≡ self.old) }
        ensures err { OnErr result ((d : ℕ) → units_at self.new d ≡ units_at self.old d) }
    {
        let dev = dev as usize;
        if e.len == 0 {
            return Ok(false);
        }
        if dev >= self.left.len() {
            return Ok(false);
        }
        let set = &mut self.left[dev];
        if !covers(set, e) {
            return Ok(false);
        }
        set.reserve(1)?;
        set.remove_reserved(e);
        Ok(true)
    }

    /// Whether none of the units is there.
    pub fn is_apart(&self, dev: u32, e: Extent) -> bool
        ensures { IsTrue result ↔ HasNone (units_at self.now dev) e }
    {
        let dev = dev as usize;
        dev >= self.left.len() || is_apart(&self.left[dev], e)
    }
}

impl Mark for Marks {
    ghost use Rattle.zr_import.specs.Units.{MayMeet, Meets};

    ghost may = { MayMeet };

    ghost marks = { Meets };

    fn mark(&mut self, b: &Bptr) -> Result<bool, NoMemory> {
        self.take(b.at.dev, extent_of(&b.at))
    }
}
