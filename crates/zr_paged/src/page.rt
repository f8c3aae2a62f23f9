//! A page of a set: at most 65 extents, for which it has room from the start.
//!
//! A set keeps at most 64 in a page. With one more it is cut in half, so each change of a page has room. A page keeps its
//! first unit and its end beside its extents, so that a search among pages reads none of them.
ghost use Rattle.std.specs.Prelude.{◌≡◌, ◌+◌, ◌^◌, ◌<◌, ◌≤◌, ◌∷◌, ◌++◌, [], length, min, vec_len, IfOk, IfSome, IfNone, OnOk};
ghost use Rattle.zr_base.specs.Extents.{IsMaximal, HasAll, HasNone, HasNoneFrom, IsFirstPart, AddsUnits, RemovesUnits, extent_at};
ghost use Rattle.zr_ranges.specs.Words.{run_of};
ghost use Rattle.zr_paged.specs.Runs.{start_of, stop_of};

use std::alloc::Global;
use std::marker::Model;
use zr_base::{Extent, NoMemory};
use zr_ranges::RangeSet;

/// How many extents a page has at most between two changes.
pub const PAGE: usize = 64;

/// Extents in order. A page takes all its memory when it is made.
#[derive(Drop)]
pub struct Page {
    runs: RangeSet,
    ends: Ends,
}

// Where extents begin and end. Of none both are 0.
#[derive(Clone, Copy)]
struct Ends {
    start: u64,
    stop: u64,
}

impl Model for Page {
    ghost use Rattle.std.specs.Prelude.{List, ◌≡◌, ◌+◌, ◌≤◌, length};
    ghost use Rattle.zr_base.specs.declared.space.Extent.{Extent};
    ghost use Rattle.zr_paged.specs.Runs.{start_of, stop_of};

    ghost Value = { List Extent };

    ghost view = { λ p. p.runs.extents };

    ghost invariant = { λ p. (65 ≤ length p.runs.extents + p.runs.spare) × (p.ends.start ≡ start_of p.runs.extents) × (p.ends.stop ≡ stop_of p.runs.extents) };
}

impl Page {
    pub fn new(alloc: Global) -> Result<Page, NoMemory>
        ensures { IfOk result (λ page. page ≡ []) }
    {
        let mut runs = RangeSet::new(alloc);
        runs.reserve(PAGE + 1)?;
        let ends = ends_of(runs.extents());
        Ok(Page { runs, ends })
    }

    pub fn len(&self) -> usize
        ensures { result ≡ length self.now }
    {
        self.runs.extents().len()
    }

    /// The first unit.
    pub fn start(&self) -> u64
        ensures { result ≡ start_of self.now }
    {
        self.ends.start
    }

    /// One past the last unit.
    pub fn stop(&self) -> u64
        ensures { result ≡ stop_of self.now }
    {
        self.ends.stop
    }

    /// The first extent.
    pub fn first(&self) -> Extent
        requires { 0 < length self.now }
        ensures value { result ≡ extent_at self.now 0 }
        ensures not_empty { 0 < result.len }
        ensures in_range { result.start + result.len ≤ 2 ^ 62 }
    {
        let runs = self.runs.extents();
        runs[0]
    }

    /// The extents in order.
    pub fn extents(&self) -> &[Extent]
        ensures { result.now ≡ self.now }
    {
        self.runs.extents()
    }

    /// The part at or above `u` of the lowest extent that ends above `u`.
    pub fn first_from(&self, u: u64) -> Option<Extent>
        ensures some { IfSome result (IsFirstPart self.now u) }
        ensures none { IfNone result (HasNoneFrom self.now u) }
    {
        self.runs.first_from(u)
    }

    /// The extent that has a unit.
    pub fn run_with(&self, u: u64) -> Option<Extent>
        ensures { result ≡ run_of u self.now }
    {
        self.runs.run_with(u)
    }

    /// Puts in the units of an extent that has none in the page.
    pub fn add(&mut self, e: Extent)
        requires not_empty { 0 < e.len }
        requires in_range { e.start + e.len ≤ 2 ^ 62 }
        requires apart { HasNone self.old e }
        requires short { length self.old ≤ 64 }
        ensures added { AddsUnits self.old self.new e }
        ensures growth { length self.new ≤ length self.old + 1 }
    {
        self.runs.add_reserved(e);
        self.ends = ends_of(self.runs.extents());
    }

    /// Takes out the units of an extent that has all in the page.
    pub fn remove(&mut self, e: Extent)
        requires not_empty { 0 < e.len }
        requires covered { HasAll self.old e }
        requires short { length self.old ≤ 64 }
        ensures removed { RemovesUnits self.old self.new e }
        ensures growth { length self.new ≤ length self.old + 1 }
    {
        self.runs.remove_reserved(e);
        self.ends = ends_of(self.runs.extents());
    }

    /// Takes out the lowest units, `n` or, where the lowest extent has fewer, that extent.
    pub fn take_front(&mut self, n: u64) -> Extent
        requires not_empty { 0 < length self.old }
        requires some { 0 < n }
        ensures start { result.start ≡ (extent_at self.old 0).start }
        ensures len { result.len ≡ min n (extent_at self.old 0).len }
        ensures not_empty { 0 < result.len }
        ensures in_range { result.start + result.len ≤ 2 ^ 62 }
        ensures covered { HasAll self.old result }
        ensures removed { RemovesUnits self.old self.new result }
        ensures growth { length self.new ≤ length self.old }
    {
        let taken = self.runs.take_front(n);
        self.ends = ends_of(self.runs.extents());
        taken
    }

    /// Takes out the first extent.
    pub fn take_first(&mut self) -> Extent
        requires { 0 < length self.old }
        ensures first { self.old ≡ result ∷ self.new }
        ensures not_empty { 0 < result.len }
        ensures in_range { result.start + result.len ≤ 2 ^ 62 }
        ensures covered { HasAll self.old result }
        ensures removed { RemovesUnits self.old self.new result }
    {
        let taken = self.runs.take_front(u64::MAX);
        self.ends = ends_of(self.runs.extents());
        taken
    }

    /// Adds an extent at the end.
    pub fn push_last(&mut self, e: Extent)
        requires maximal { IsMaximal (self.old ++ e ∷ []) }
        requires short { length self.old ≤ 64 }
        ensures { self.new ≡ self.old ++ e ∷ [] }
    {
        let _runs = self.runs.extents();
        self.runs.add_reserved(e);
        self.ends = ends_of(self.runs.extents());
    }

    /// Adds an extent at the beginning.
    pub fn push_first(&mut self, e: Extent)
        requires maximal { IsMaximal (e ∷ self.old) }
        requires short { length self.old ≤ 64 }
        ensures { self.new ≡ e ∷ self.old }
    {
        let _runs = self.runs.extents();
        self.runs.add_reserved(e);
        self.ends = ends_of(self.runs.extents());
    }

    /// Takes all extents out. The page keeps its memory.
    pub fn clear(&mut self)
        ensures { self.new ≡ [] }
    {
        self.runs.clear();
        self.ends = ends_of(self.runs.extents());
    }
}

/// Adds the extents of a page to a set, above all that it has.
pub fn append_page(page: &Page, set: &mut RangeSet) -> Result<(), NoMemory>
    requires { IsMaximal (set.old.extents ++ page.now) }
    ensures { OnOk result (set.new.extents ≡ set.old.extents ++ page.now) }
{
    let runs = page.runs.extents();
    for i in 0..runs.len() {
        append_run(set, runs[i])?;
    }
    Ok(())
}

// Adds an extent to a set, above all that it has.
fn append_run(set: &mut RangeSet, e: Extent) -> Result<(), NoMemory>
    requires { IsMaximal (set.old.extents ++ e ∷ []) }
    ensures { OnOk result (set.new.extents ≡ set.old.extents ++ e ∷ []) }
{
    set.add(e)?;
    Ok(())
}

// Where maximal extents begin and end.
fn ends_of(runs: &[Extent]) -> Ends
    requires { IsMaximal runs.now }
    ensures start { result.start ≡ start_of runs.now }
    ensures stop { result.stop ≡ stop_of runs.now }
{
    let count = runs.len();
    if count == 0 {
        return Ends { start: 0, stop: 0 };
    }
    let last = runs[count - 1];
    Ends {
        start: runs[0].start,
        stop: last.start + last.len,
    }
}
