//! A set of units, kept as its maximal extents in pages.
//!
//! In one array of extents a change moves all that stand above it. Here they stand in pages of at most 64, and the pages in
//! the nodes of a balanced tree. So a change is a way from the top of the tree to a page, a move of at most 64 extents
//! within it, and the same way back, on which a few links are moved at each node: no array grows with the set. A page that
//! grows longer is cut in half, into one of a node that stands ready, so a change that was reserved takes no memory. The
//! lowest page stands apart from the tree, so what is emptied from its lowest unit up goes down the tree once for a page.
//!
//! The units of a set and the words that it takes where it is written anew are kept as it changes.
#![tactic(auto)]

ghost use Rattle.std.specs.Prelude.{◌≡◌, ℕ, ◌+◌, ◌-◌, ◌^◌, ◌<◌, ◌≤◌, ◌∷◌, [], length, min, IsTrue, IsOk, ◌↔◌, IfOk, IfSome, IfNone, OnOk, OnErr};
ghost use Rattle.zr_rules.specs.Owed.{set_words};
ghost use Rattle.zr_base.specs.Extents.{IsMaximal, HasAll, HasNone, HasNoneFrom, IsFirstPart, AddsUnits, RemovesUnits, unit_count, extent_at};

mod change;
mod find;
mod front;
mod page;
mod tree;
mod unit_set;

use find::{append_tree, part_from, run_around};
use front::{add_in, lowest, make_ready, push_in, remove_in, take_in};
use std::alloc::Global;
use std::marker::Model;
use tree::{Node, Tree};
pub use unit_set::UnitSet;
use zr_base::{Extent, NoMemory};
use zr_ranges::{RangeSet, Words};

/// A set of units below 2^62, of any number of extents.
#[derive(Drop)]
pub struct PagedSet {
    alloc: Global,
    front: Tree,
    units: u64,
    words: Words,
    ready: Vec<Box<Node>>,
}

impl Model for PagedSet {
    ghost use Rattle.std.specs.Prelude.{vec_len};
    ghost use Rattle.zr_ranges.specs.Ranges.{Ranges};
    ghost use Rattle.zr_paged.specs.Pages.{IsPaged, all_of, pages_in};

    ghost Value = { Ranges };

    ghost view = { λ a. record { extents = all_of (pages_in a.front); spare = vec_len a.ready } };

    ghost invariant = { λ a. IsPaged a.front a.units a.words };
}

impl PagedSet {
    /// No units. It takes no memory.
    pub fn new(alloc: Global) -> PagedSet
        ensures { result.extents ≡ [] }
    {
        PagedSet {
            alloc,
            front: Tree::Empty,
            units: 0,
            words: Words::none(),
            ready: Vec::new(alloc),
        }
    }

    /// The units of a set in one array. It goes over its extents.
    pub fn of(alloc: Global, set: &RangeSet) -> Result<PagedSet, NoMemory>
        ensures { IfOk result (λ paged. paged.extents ≡ set.now.extents) }
    {
        let runs = set.extents();
        let mut paged = PagedSet::new(alloc);
        let mut count = runs.len();
        while count > 0 {
            count -= 1;
            paged.push_first(runs[count])?;
        }
        Ok(paged)
    }

    /// The units as a set in one array. It goes over all extents.
    pub fn to_set(&self) -> Result<RangeSet, NoMemory>
        ensures { IfOk result (λ set. set.extents ≡ self.now.extents) }
    {
        let mut set = RangeSet::new(self.alloc);
        append_tree(&self.front, &mut set)?;
        Ok(set)
    }

    /// Puts in an extent below all others. It costs the move of one page, and a way down the tree for each 64 extents.
    pub fn push_first(&mut self, e: Extent) -> Result<(), NoMemory>
        requires { IsMaximal (e ∷ self.old.extents) }
        ensures ok { OnOk result (self.new.extents ≡ e ∷ self.old.extents) }
        ensures err { OnErr result (self.new.extents ≡ self.old.extents) }
    {
        push_in(self.alloc, &mut self.front, e)?;
        self.units += e.len;
        self.words = self.words.joined(e, e);
        Ok(())
    }

    /// Makes room for `n` changes that take no memory, a page for each. Where that room is there it costs nothing.
    pub fn reserve(&mut self, n: usize) -> Result<(), NoMemory>
        ensures ok { OnOk result (n ≤ self.new.spare) }
        ensures room { n ≤ self.old.spare → IsOk result }
        ensures extents { self.new.extents ≡ self.old.extents }
        ensures spare { self.old.spare ≤ self.new.spare }
    {
        make_ready(self.alloc, &mut self.ready, n)
    }

    /// Puts in the units of an extent that has none in the set. It takes no memory. It costs a search, and what
    /// `remove_reserved` does, or twice that where it meets the first extent of a page.
    pub fn add_reserved(&mut self, e: Extent)
        requires not_empty { 0 < e.len }
        requires in_range { e.start + e.len ≤ 2 ^ 62 }
        requires apart { HasNone self.old.extents e }
        requires room { 0 < self.old.spare }
        ensures added { AddsUnits self.old.extents self.new.extents e }
        ensures spare { self.old.spare ≤ self.new.spare + 1 }
    {
        add_in(&mut self.front, &mut self.ready, e);
        self.units += e.len;
        self.words = self.words.joined(run_around(&self.front, e), e);
    }

    /// Takes out the units of an extent that has all in the set. It takes no memory. It is logarithmic in the extents: a way
    /// down the tree and back, and the move of a page's extents.
    pub fn remove_reserved(&mut self, e: Extent)
        requires not_empty { 0 < e.len }
        requires covered { HasAll self.old.extents e }
        requires room { 0 < self.old.spare }
        ensures removed { RemovesUnits self.old.extents self.new.extents e }
        ensures spare { self.old.spare ≤ self.new.spare + 1 }
    {
        let run = run_around(&self.front, e);
        remove_in(&mut self.front, &mut self.ready, e);
        self.units -= e.len;
        self.words = self.words.cut(run, e);
    }

    /// Takes out the lowest units, `n` or, where the lowest extent has fewer, that extent. It takes no memory and moves no
    /// extent, whatever the set has. Where its page has no other, the next one is searched in the tree.
    pub fn take_front(&mut self, n: u64) -> Extent
        requires not_empty { 0 < length self.old.extents }
        requires some { 0 < n }
        ensures start { result.start ≡ (extent_at self.old.extents 0).start }
        ensures len { result.len ≡ min n (extent_at self.old.extents 0).len }
        ensures not_empty { 0 < result.len }
        ensures in_range { result.start + result.len ≤ 2 ^ 62 }
        ensures covered { HasAll self.old.extents result }
        ensures removed { RemovesUnits self.old.extents self.new.extents result }
        ensures spare { self.old.spare ≤ self.new.spare }
    {
        let Some(run) = lowest(&self.front) else {
            unreachable!();
        };
        let taken = take_in(&mut self.front, n);
        self.units -= taken.len;
        self.words = self.words.cut(run, taken);
        taken
    }

    /// Takes out all units. What stands ready for changes stays so. It costs the set's pages.
    pub fn clear(&mut self)
        ensures empty { self.new.extents ≡ [] }
        ensures spare { self.old.spare ≤ self.new.spare }
    {
        self.front = Tree::Empty;
        self.units = 0;
        self.words = Words::none();
    }

    /// The lowest extent. It costs the same whatever the set has.
    pub fn first(&self) -> Option<Extent>
        ensures some { IfSome result (λ e. (0 < length self.now.extents) × (e ≡ extent_at self.now.extents 0)) }
        ensures not_empty { IfSome result (λ e. 0 < e.len) }
        ensures in_range { IfSome result (λ e. e.start + e.len ≤ 2 ^ 62) }
        ensures none { IfNone result (self.now.extents ≡ []) }
        ensures maximal { IsMaximal self.now.extents }
    {
        lowest(&self.front)
    }

    /// The part at or above `u` of the lowest extent that ends above `u`. Logarithmic in the extents.
    pub fn first_from(&self, u: u64) -> Option<Extent>
        ensures some { IfSome result (IsFirstPart self.now.extents u) }
        ensures none { IfNone result (HasNoneFrom self.now.extents u) }
    {
        part_from(&self.front, u)
    }

    /// Whether the set has each unit of the extent. Logarithmic in the extents.
    pub fn covers(&self, e: Extent) -> bool
        ensures { IsTrue result ↔ HasAll self.now.extents e }
    {
        if e.len == 0 {
            return true;
        }
        match self.first_from(e.start) {
            Some(part) => part.start == e.start && e.len <= part.len,
            None => false,
        }
    }

    /// Whether the set has no unit of the extent. Logarithmic in the extents.
    pub fn is_apart(&self, e: Extent) -> bool
        ensures { IsTrue result ↔ HasNone self.now.extents e }
    {
        match self.first_from(e.start) {
            Some(part) => e.len <= part.start - e.start,
            None => true,
        }
    }

    /// The words of the set, were it written anew in the form that this version of the format has. They are kept, not
    /// counted.
    pub fn words(&self, version: u64) -> u64
        ensures words { result ≡ set_words version self.now.extents }
        ensures few { result ≤ unit_count self.now.extents }
    {
        self.words.of(version)
    }

    /// How many changes take no memory.
    pub fn spare(&self) -> usize
        ensures { result ≡ self.now.spare }
    {
        self.ready.len()
    }

    /// How many units the set has. It is kept, not counted.
    pub fn units(&self) -> u64
        ensures units { result ≡ unit_count self.now.extents }
        ensures bound { result ≤ 2 ^ 62 }
    {
        self.units
    }
}
