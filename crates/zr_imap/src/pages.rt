//! The entries of a mapping in pages.
//!
//! All pages but the last are full, so entry `i` is found by one division. A mapping grows by one entry at a time and no
//! entry ever moves. Room for more is made as empty pages that stand ready, so that an entry for units that were
//! already copied can't be refused for want of memory.
ghost use Rattle.std.specs.Prelude.{◌^◌, ◌≡◌, ℕ, ◌+◌, ◌-◌, ◌<◌, ◌≤◌, ◌++◌, ◌∷◌, [], length, false, MatchOption, IfOk, OnOk, OnErr, IsOk, vec_len, vec_capacity};
ghost use Rattle.zr_rules.specs.Mappings.{IsRising, IsAfterAll, IsEntry, entry_at, has_source, HasSourceAt, mapped_units};
ghost use Rattle.zr_imap.specs.Searches.{IsLogarithmic};
ghost use Rattle.zr_imap.specs.Pages.{ArePages, HasSpace, all_of, spare_of};

use crate::page::{PAGE, Page, are_full, make_ready, open_page, push_last};
use crate::sorted::{Sorted, search};
use crate::steps::Steps;
use std::alloc::Global;
use std::cmp::Ordering;
use std::marker::Model;
use std::sync::ledger::Ledger;
use zr_base::{Entry, Items, NoMemory};

/// The mapping of a device, whose entries rise by source and do not overlap.
#[derive(Drop)]
pub struct Imap {
    alloc: Global,
    pages: Vec<Page>,
    count: usize,
    mapped: u64,
    ready: Vec<Page>,
}

impl Model for Imap {
    ghost use Rattle.std.specs.Prelude.{◌-◌, vec_len, vec_capacity};
    ghost use Rattle.zr_imap.specs.Pages.{Mapping, IsMapping, all_of, spare_of};

    ghost Value = { Mapping };

    ghost view = { λ a. record { entries = all_of a.pages.items; spare = spare_of (vec_len a.pages) a.count (vec_len a.ready) (vec_capacity a.pages - vec_len a.pages) } };

    ghost invariant = { λ a. IsMapping a.pages.items a.count a.mapped };
}

impl Imap {
    /// No entries. It takes no memory.
    pub fn new(alloc: Global) -> Imap
        ensures { result.entries ≡ [] }
    {
        Imap {
            alloc,
            pages: Vec::new(alloc),
            count: 0,
            mapped: 0,
            ready: Vec::new(alloc),
        }
    }

    /// A mapping of these entries, in their order.
    pub fn from_entries(alloc: Global, entries: &[Entry]) -> Result<Imap, NoMemory>
        requires { IsRising entries.now }
        ensures { IfOk result (λ map. map.entries ≡ entries.now) }
    {
        let mut map = Imap::new(alloc);
        for entry in entries {
            map.push(*entry)?;
        }
        Ok(map)
    }

    /// All entries, in order.
    pub fn to_entries(&self, alloc: Global) -> Result<Items<Entry>, NoMemory>
        ensures { IfOk result (λ entries. entries ≡ self.now.entries) }
    {
        let mut entries = Items::new(alloc);
        for i in 0..self.len() {
            entries.push(self.entry(i))?;
        }
        Ok(entries)
    }

    /// How many entries there are. They rise and do not overlap.
    pub fn len(&self) -> usize
        ensures count { result ≡ length self.now.entries }
        ensures rising { IsRising self.now.entries }
    {
        self.count
    }

    /// How many units have an entry. It is kept, and not counted.
    pub fn units(&self) -> u64
        ensures units { result ≡ mapped_units self.now.entries }
        ensures bound { result ≤ 2 ^ 62 }
        ensures rising { IsRising self.now.entries }
    {
        self.mapped
    }

    /// Entry `i`.
    pub fn entry(&self, i: usize) -> Entry
        requires { i < length self.now.entries }
        ensures value { result ≡ entry_at self.now.entries i }
        ensures lawful { IsEntry result }
        ensures rising { IsRising self.now.entries }
    {
        entry_in(self.pages.as_slice(), i)
    }

    /// Adds an entry at the end.
    pub fn push(&mut self, e: Entry) -> Result<(), NoMemory>
        requires entry { IsEntry e }
        requires after { IsAfterAll self.old.entries e }
        ensures ok { OnOk result (self.new.entries ≡ self.old.entries ++ e ∷ []) }
        ensures err { OnErr result (self.new.entries ≡ self.old.entries) }
        ensures room { 0 < self.old.spare → IsOk result }
        ensures spare { self.old.spare ≤ self.new.spare + 1 }
    {
        push_in(self.alloc, &mut self.pages, &mut self.ready, e)?;
        self.count += 1;
        self.mapped += e.len as u64;
        Ok(())
    }

    /// Makes room, so that the next `n` entries take no memory.
    pub fn reserve(&mut self, n: usize) -> Result<(), NoMemory>
        ensures ok { OnOk result (n ≤ self.new.spare) }
        ensures entries { self.new.entries ≡ self.old.entries }
        ensures spare { self.old.spare ≤ self.new.spare }
    {
        let wanted = n / PAGE + 1;
        self.pages.reserve(wanted)?;
        make_ready(self.alloc, &mut self.ready, wanted)
    }

    /// Adds an entry at the end, for which there is room.
    pub fn push_reserved(&mut self, e: Entry)
        requires entry { IsEntry e }
        requires after { IsAfterAll self.old.entries e }
        requires room { 0 < self.old.spare }
        ensures pushed { self.new.entries ≡ self.old.entries ++ e ∷ [] }
        ensures spare { self.old.spare ≤ self.new.spare + 1 }
    {
        match self.push(e) {
            Ok(()) => {}
            Err(_) => unreachable!(),
        }
    }

    /// The index of the entry whose source has the unit. It takes s comparisons with 2^s at most 2n + 1.
    pub fn find<L: Ledger>(&self, u: u64, steps: &mut Steps<L>) -> Option<usize>
        ensures found { MatchOption result (has_source self.now.entries u ≡ false) (λ i. (i < length self.now.entries) × HasSourceAt self.now.entries i u) }
        ensures cost { IsLogarithmic (steps.new - steps.old) (length self.now.entries) }
    {
        let _pages = &self.pages;
        search(self, u, steps)
    }
}

/// The entry at an index of all pages.
fn entry_in(pages: &[Page], i: usize) -> Entry
    requires pages { ArePages pages.now }
    requires rising { IsRising (all_of pages.now) }
    requires index { i < length (all_of pages.now) }
    ensures value { result ≡ entry_at (all_of pages.now) i }
    ensures lawful { IsEntry result }
{
    pages[i / PAGE].as_slice()[i % PAGE]
}

/// Makes room in the last page, which is a new one where the last is full.
fn make_room(alloc: Global, pages: &mut Vec<Page>, ready: &mut Vec<Page>) -> Result<(), NoMemory>
    requires pages { ArePages pages.old.items }
    ensures pages { ArePages pages.new.items }
    ensures all { all_of pages.new.items ≡ all_of pages.old.items }
    ensures last { OnOk result (HasSpace pages.new.items (vec_len pages.new)) }
    ensures room { 0 < spare_of (vec_len pages.old) (length (all_of pages.old.items)) (vec_len ready.old) (vec_capacity pages.old - vec_len pages.old) → IsOk result }
    ensures spare { spare_of (vec_len pages.old) (length (all_of pages.old.items)) (vec_len ready.old) (vec_capacity pages.old - vec_len pages.old)
        ≤ spare_of (vec_len pages.new) (length (all_of pages.new.items)) (vec_len ready.new) (vec_capacity pages.new - vec_len pages.new) }
{
    if !are_full(pages) {
        return Ok(());
    }
    open_page(alloc, pages, ready)?;
    Ok(())
}

/// Adds an entry to the last page, or to a new one where that is full.
fn push_in(
    alloc: Global,
    pages: &mut Vec<Page>,
    ready: &mut Vec<Page>,
    e: Entry,
) -> Result<(), NoMemory>
    requires pages { ArePages pages.old.items }
    ensures pages { ArePages pages.new.items }
    ensures ok { OnOk result (all_of pages.new.items ≡ all_of pages.old.items ++ e ∷ []) }
    ensures err { OnErr result (all_of pages.new.items ≡ all_of pages.old.items) }
    ensures room { 0 < spare_of (vec_len pages.old) (length (all_of pages.old.items)) (vec_len ready.old) (vec_capacity pages.old - vec_len pages.old) → IsOk result }
    ensures spare { spare_of (vec_len pages.old) (length (all_of pages.old.items)) (vec_len ready.old) (vec_capacity pages.old - vec_len pages.old)
        ≤ spare_of (vec_len pages.new) (length (all_of pages.new.items)) (vec_len ready.new) (vec_capacity pages.new - vec_len pages.new) + 1 }
{
    make_room(alloc, pages, ready)?;
    push_last(pages, e);
    Ok(())
}

impl Sorted for Imap {
    ghost entries = { λ map. map.entries };

    fn len(&self) -> usize {
        self.count
    }

    fn compare<L: Ledger>(&self, i: usize, u: u64, steps: &mut Steps<L>) -> Ordering {
        let e = self.item(i, steps);
        if u < e.src {
            Ordering::Greater
        } else if u - e.src < e.len as u64 {
            Ordering::Equal
        } else {
            Ordering::Less
        }
    }

    fn item<L: Ledger>(&self, i: usize, steps: &mut Steps<L>) -> Entry {
        steps.tick();
        self.entry(i)
    }
}
