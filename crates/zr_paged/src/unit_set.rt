//! A set that is in pages but for the time of very many changes.
//!
//! A change of a set in pages needs a page that stands ready, and one of a set in one array no more than one extent of
//! room. So a set for which room is made for more than 8,192 changes goes over into one array: that many pages are what the
//! units of one block need at most, with all devices that its address may lead over. It goes back into pages where it is
//! renewed.
ghost use Rattle.std.specs.Prelude.{◌≡◌, ◌+◌, ◌^◌, ◌<◌, ◌≤◌, [], length, min, IsTrue, ◌↔◌, IsOk, IfOk, IfSome, IfNone, OnOk, OnErr};
ghost use Rattle.zr_rules.specs.Owed.{set_words};
ghost use Rattle.zr_base.specs.Extents.{IsMaximal, HasAll, HasNone, HasNoneFrom, IsFirstPart, AddsUnits, RemovesUnits, unit_count, extent_at};
ghost use Rattle.zr_paged.specs.Forms.{set_in};

use crate::PagedSet;
use std::alloc::Global;
use std::marker::Model;
use zr_base::{Extent, NoMemory};
use zr_ranges::RangeSet;

/// For how many changes a set has pages that stand ready.
const MANY: usize = 8_192;

/// A set of units below 2^62, of any number of extents, for any number of changes.
#[derive(Drop)]
pub struct UnitSet {
    alloc: Global,
    form: Form,
}

// In pages, or in one array.
#[derive(Drop)]
enum Form {
    Paged(PagedSet),
    Flat(RangeSet),
}

impl Model for UnitSet {
    ghost use Rattle.zr_ranges.specs.Ranges.{Ranges};
    ghost use Rattle.zr_paged.specs.Forms.{set_in};

    ghost Value = { Ranges };

    ghost view = { λ a. set_in a.form };
}

impl UnitSet {
    /// No units. It takes no memory.
    pub fn new(alloc: Global) -> UnitSet
        ensures { result.extents ≡ [] }
    {
        UnitSet {
            alloc,
            form: Form::Paged(PagedSet::new(alloc)),
        }
    }

    /// The units of a set in one array. It goes over its extents.
    pub fn of(alloc: Global, set: &RangeSet) -> Result<UnitSet, NoMemory>
        ensures { IfOk result (λ units. units.extents ≡ set.now.extents) }
    {
        let paged = PagedSet::of(alloc, set)?;
        Ok(UnitSet {
            alloc,
            form: Form::Paged(paged),
        })
    }

    /// The units as a set in one array. It goes over all extents.
    pub fn to_set(&self) -> Result<RangeSet, NoMemory>
        ensures { IfOk result (λ set. set.extents ≡ self.now.extents) }
    {
        match &self.form {
            Form::Paged(paged) => paged.to_set(),
            Form::Flat(flat) => copy_of(self.alloc, flat),
        }
    }

    // Goes over into one array with room for `n` changes, if it is in pages.
    fn flatten(&mut self, n: usize) -> Result<(), NoMemory>
        ensures extents { self.new.extents ≡ self.old.extents }
        ensures spare { self.old.spare ≤ self.new.spare }
    {
        if let Form::Paged(paged) = &self.form {
            let mut flat = paged.to_set()?;
            flat.reserve(n.max(paged.spare()))?;
            self.form = Form::Flat(flat);
        }
        Ok(())
    }

    /// Makes room for `n` changes that take no memory. Where that room is there it costs nothing, and else a page for each
    /// change, of about a kilobyte. For more than 8,192 changes it goes over all extents, and is an extent for each.
    pub fn reserve(&mut self, n: usize) -> Result<(), NoMemory>
        ensures ok { OnOk result (n ≤ self.new.spare) }
        ensures extents { self.new.extents ≡ self.old.extents }
        ensures spare { self.old.spare ≤ self.new.spare }
    {
        if n > MANY {
            self.flatten(n)?;
        }
        match &mut self.form {
            Form::Paged(paged) => paged.reserve(n),
            Form::Flat(flat) => flat.reserve(n),
        }
    }

    /// Makes room for one change. Where the set is in one array it goes over into pages, and has no other room.
    pub fn renew(&mut self) -> Result<(), NoMemory>
        ensures ok { OnOk result (0 < self.new.spare) }
        ensures extents { self.new.extents ≡ self.old.extents }
    {
        if let Form::Flat(flat) = &self.form {
            let paged = PagedSet::of(self.alloc, flat)?;
            self.form = Form::Paged(paged);
        }
        self.reserve(1)
    }

    /// Puts in the units of an extent that has none in the set. It costs what `add_reserved` does.
    pub fn add(&mut self, e: Extent) -> Result<(), NoMemory>
        requires not_empty { 0 < e.len }
        requires in_range { e.start + e.len ≤ 2 ^ 62 }
        requires apart { HasNone self.old.extents e }
        ensures ok { OnOk result (AddsUnits self.old.extents self.new.extents e) }
        ensures err { OnErr result (self.new.extents ≡ self.old.extents) }

        // Memory runs out only where nothing is spare.
        ensures room { 0 < self.old.spare → IsOk result }
        ensures spare { self.old.spare ≤ self.new.spare + 1 }
    {
        match &mut self.form {
            Form::Paged(paged) => {
                paged.reserve(1)?;
                paged.add_reserved(e);
                Ok(())
            }
            Form::Flat(flat) => flat.add(e),
        }
    }

    /// Has the units of a set in one array from now on, and no others. It goes over its extents.
    pub fn refill(&mut self, set: &RangeSet) -> Result<(), NoMemory>
        ensures ok { OnOk result (self.new.extents ≡ set.now.extents) }
        ensures err { OnErr result (self.new.extents ≡ self.old.extents) }
    {
        let paged = PagedSet::of(self.alloc, set)?;
        self.form = Form::Paged(paged);
        Ok(())
    }

    /// Puts in the units of an extent that has none in the set. It takes no memory, and is logarithmic in the extents where
    /// they are in pages.
    pub fn add_reserved(&mut self, e: Extent)
        requires not_empty { 0 < e.len }
        requires in_range { e.start + e.len ≤ 2 ^ 62 }
        requires apart { HasNone self.old.extents e }
        requires room { 0 < self.old.spare }
        ensures added { AddsUnits self.old.extents self.new.extents e }
        ensures spare { self.old.spare ≤ self.new.spare + 1 }
    {
        match &mut self.form {
            Form::Paged(paged) => paged.add_reserved(e),
            Form::Flat(flat) => flat.add_reserved(e),
        }
    }

    /// Takes out the units of an extent that has all in the set. It takes no memory, and is logarithmic in the extents where
    /// they are in pages.
    pub fn remove_reserved(&mut self, e: Extent)
        requires not_empty { 0 < e.len }
        requires covered { HasAll self.old.extents e }
        requires room { 0 < self.old.spare }
        ensures removed { RemovesUnits self.old.extents self.new.extents e }
        ensures spare { self.old.spare ≤ self.new.spare + 1 }
    {
        match &mut self.form {
            Form::Paged(paged) => paged.remove_reserved(e),
            Form::Flat(flat) => flat.remove_reserved(e),
        }
    }

    /// Takes out the lowest units, `n` or, where the lowest extent has fewer, that extent. It takes no memory and moves no
    /// extent, whatever the set has.
    pub fn take_front(&mut self, n: u64) -> Extent
        requires not_empty { 0 < length self.old.extents }
        requires some { 0 < n }
        ensures start { result.start ≡ (extent_at self.old.extents 0).start }
        ensures len { result.len ≡ min n (extent_at self.old.extents 0).len }
        ensures not_empty { 0 < result.len }
        ensures in_range { result.start + result.len ≤ 2 ^ 62 }
        ensures covered { HasAll self.old.extents result }
        ensures removed { RemovesUnits self.old.extents self.new.extents result }
        ensures spare { self.old.spare ≤ self.new.spare }
    {
        match &mut self.form {
            Form::Paged(paged) => paged.take_front(n),
            Form::Flat(flat) => flat.take_front(n),
        }
    }

    /// Takes out all units, and keeps the room for changes. It costs the set's pages, or nothing where it is in one array.
    pub fn clear(&mut self)
        ensures empty { self.new.extents ≡ [] }
        ensures spare { self.old.spare ≤ self.new.spare }
    {
        match &mut self.form {
            Form::Paged(paged) => paged.clear(),
            Form::Flat(flat) => flat.clear(),
        }
    }

    /// The lowest extent. It costs the same whatever the set has.
    pub fn first(&self) -> Option<Extent>
        ensures some { IfSome result (λ e. (0 < length self.now.extents) × (e ≡ extent_at self.now.extents 0)) }
        ensures not_empty { IfSome result (λ e. 0 < e.len) }
        ensures in_range { IfSome result (λ e. e.start + e.len ≤ 2 ^ 62) }
        ensures none { IfNone result (self.now.extents ≡ []) }
        ensures maximal { IsMaximal self.now.extents }
    {
        match &self.form {
            Form::Paged(paged) => paged.first(),
            Form::Flat(flat) => first_of(flat),
        }
    }

    /// Whether the set has no units.
    pub fn is_empty(&self) -> bool
        ensures { IsTrue result ↔ (self.now.extents ≡ []) }
    {
        match self.first() {
            Some(_) => false,
            None => true,
        }
    }

    /// The part at or above `u` of the lowest extent that ends above `u`. Logarithmic in the extents.
    pub fn first_from(&self, u: u64) -> Option<Extent>
        ensures some { IfSome result (IsFirstPart self.now.extents u) }
        ensures none { IfNone result (HasNoneFrom self.now.extents u) }
    {
        match &self.form {
            Form::Paged(paged) => paged.first_from(u),
            Form::Flat(flat) => flat.first_from(u),
        }
    }

    /// Whether the set has each unit of the extent. Logarithmic in the extents.
    pub fn covers(&self, e: Extent) -> bool
        ensures { IsTrue result ↔ HasAll self.now.extents e }
    {
        match &self.form {
            Form::Paged(paged) => paged.covers(e),
            Form::Flat(flat) => flat.covers(e),
        }
    }

    /// Whether the set has no unit of the extent. Logarithmic in the extents.
    pub fn is_apart(&self, e: Extent) -> bool
        ensures { IsTrue result ↔ HasNone self.now.extents e }
    {
        match &self.form {
            Form::Paged(paged) => paged.is_apart(e),
            Form::Flat(flat) => flat.is_apart(e),
        }
    }

    /// The words of the set, were it written anew in the form that this version of the format has. They are kept, not
    /// counted.
    pub fn words(&self, version: u64) -> u64
        ensures words { result ≡ set_words version self.now.extents }
        ensures few { result ≤ unit_count self.now.extents }
    {
        match &self.form {
            Form::Paged(paged) => paged.words(version),
            Form::Flat(flat) => flat.words(version),
        }
    }

    /// How many units the set has. It is kept, not counted.
    pub fn units(&self) -> u64
        ensures units { result ≡ unit_count self.now.extents }
        ensures bound { result ≤ 2 ^ 62 }
    {
        match &self.form {
            Form::Paged(paged) => paged.units(),
            Form::Flat(flat) => flat.units(),
        }
    }
}

// A copy of a set in one array.
fn copy_of(alloc: Global, flat: &RangeSet) -> Result<RangeSet, NoMemory>
    ensures { IfOk result (λ set. set.extents ≡ flat.now.extents) }
{
    let paged = PagedSet::of(alloc, flat)?;
    paged.to_set()
}

// The lowest extent of a set in one array.
fn first_of(flat: &RangeSet) -> Option<Extent>
    ensures some { IfSome result (λ e. (0 < length flat.now.extents) × (e ≡ extent_at flat.now.extents 0)) }
    ensures not_empty { IfSome result (λ e. 0 < e.len) }
    ensures in_range { IfSome result (λ e. e.start + e.len ≤ 2 ^ 62) }
    ensures none { IfNone result (flat.now.extents ≡ []) }
    ensures maximal { IsMaximal flat.now.extents }
{
    let runs = flat.extents();
    if runs.len() == 0 {
        return None;
    }
    Some(runs[0])
}
