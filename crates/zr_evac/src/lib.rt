//! The evacuation of a device that is being removed.
//!
//! What the device holds is copied elsewhere from its lowest unit up, at most 256 units at a time, and each copy is an
//! entry of the mapping. Two frontiers say how far that has come: below the open one all is copied, and below the synced
//! one a root on disk has the entries. A unit that is freed meanwhile is treated by where it lies: below the synced
//! frontier and between the two it has a copy, so it is marked and its copy is freed; above it is copied no more.
#![tactic(auto)]

ghost use Rattle.std.specs.Prelude.{◌≡◌, ℕ, ◌+◌, ◌-◌, ◌^◌, ◌<◌, ◌≤◌, ◌&&◌, ◌||◌, ◌++◌, ◌∷◌, [], true, false, not, nat_le, nat_lt, min, IfOk, IfSome, IfNone, OnOk};
ghost use Rattle.zr_base.specs.Extents.{HasAll, HasNone, IsMaximal, IsMaximalFrom, RemovesUnits, has_unit, in_extent, unit_count};
ghost use Rattle.zr_rules.specs.Mappings.{IsEntry, end_of_last};
ghost use Rattle.zr_rules.specs.Places.{one_if};
ghost use Rattle.zr_rules.specs.Frontiers.{IsRouted, in_part, IsFull};
ghost use Rattle.zr_evac.specs.Evacuations.{EntriesEndBy, IsEvacuation, IsFront, IsThere, FreesUnits, AreLawful, copies_at, hits_at, is_at, is_copy_in, next_of};

mod cuts;

pub use cuts::part_below;
use cuts::part_from;
use std::alloc::Global;
use std::marker::Model;
use zr_base::{Entry, Extent, NoMemory};
use zr_imap::Imap;
use zr_paged::PagedSet;
use zr_ranges::RangeSet;

/// An evacuation: the mapping so far, its marked units, what is left to copy, and the two frontiers.
#[derive(Drop)]
pub struct Evac {
    alloc: Global,
    dev: u32,
    map: Imap,
    marks: PagedSet,
    left: PagedSet,
    synced: u64,
    opened: u64,
}

impl Model for Evac {
    ghost use Rattle.std.specs.Prelude.{min};
    ghost use Rattle.zr_evac.specs.Evacuations.{Evacuation, IsEvacuation};

    ghost Value = { Evacuation };

    ghost view = { λ a. record { dev = a.dev; entries = a.map.entries; marks = a.marks.extents; left = a.left.extents; synced = a.synced; opened = a.opened; spare = min a.map.spare (min a.marks.spare a.left.spare) } };

    ghost invariant = { λ a. IsEvacuation a.map.entries a.left.extents a.synced a.opened };
}

/// A freed extent by the two frontiers. No part is empty.
#[derive(Clone, Copy, PartialEq, Eq, Debug)]
pub struct Routed {
    pub below: Option<Extent>,
    pub flying: Option<Extent>,
    pub above: Option<Extent>,
}

impl Evac {
    /// Goes on at the end of the last entry of a mapping, where both frontiers then are. What is left to copy is what
    /// the device holds from there on. It goes over the held and the marked extents.
    pub fn begin(
        alloc: Global,
        dev: u32,
        held: &RangeSet,
        map: Imap,
        marks: RangeSet,
    ) -> Result<Evac, NoMemory>
        ensures dev { IfOk result (λ s. s.dev ≡ dev) }
        ensures entries { IfOk result (λ s. s.entries ≡ map.entries) }
        ensures marks { IfOk result (λ s. s.marks ≡ marks.extents) }
        ensures synced { IfOk result (λ s. s.synced ≡ end_of_last map.entries) }
        ensures opened { IfOk result (λ s. s.opened ≡ end_of_last map.entries) }
        ensures left { IfOk result (λ s. (u : ℕ) → has_unit s.left u ≡ (has_unit held.now.extents u && nat_le (end_of_last map.entries) u)) }
    {
        let from = end_of_map(&map);
        let left = rest_from(alloc, held, from)?;
        let marks = PagedSet::of(alloc, &marks)?;
        Ok(Evac {
            alloc,
            dev,
            map,
            marks,
            left,
            synced: from,
            opened: from,
        })
    }

    /// The device.
    pub fn dev(&self) -> u32
        ensures { result ≡ self.now.dev }
    {
        self.dev
    }

    /// The next piece to copy: the front of the lowest extent that is left, 256 units at most. It costs the same however
    /// much is left.
    pub fn next(&self) -> Option<Extent>
        ensures value { result ≡ next_of self.now.left }
        ensures front { IfSome result (IsFront self.now.left) }
        ensures not_empty { IfSome result (λ e. 0 < e.len) }
        ensures in_range { IfSome result (λ e. e.start + e.len ≤ 2 ^ 62) }
        ensures none { IfNone result (self.now.left ≡ []) }
        ensures maximal { IsMaximal self.now.left }
    {
        next_piece(&self.left)
    }

    /// Makes room, so that the next `n` calls of `copied` and `freed` take no memory. Where that room is there it costs
    /// nothing.
    pub fn reserve(&mut self, n: usize) -> Result<(), NoMemory>
        ensures ok { OnOk result (n ≤ self.new.spare) }
        ensures same { self.new ≡ record self.old { spare = self.new.spare } }
        ensures spare { self.old.spare ≤ self.new.spare }
    {
        self.map.reserve(n)?;
        self.marks.reserve(n)?;
        self.left.reserve(n)
    }

    /// A front of the next piece was copied to a device from `dst` on. It takes no memory, and costs the same however much
    /// is left and however many entries there are.
    pub fn copied(&mut self, e: Extent, dev: u32, dst: u64)
        requires not_empty { 0 < e.len }
        requires front { IsFront self.old.left e }
        requires destination { dst + e.len ≤ 2 ^ 62 }
        requires room { 0 < self.old.spare }
        ensures entries { self.new.entries ≡ self.old.entries ++ record { src = e.start; dev = dev; dst = dst; len = e.len } ∷ [] }
        ensures left { RemovesUnits self.old.left self.new.left e }
        ensures opened { self.new.opened ≡ e.start + e.len }
        ensures synced { self.new.synced ≡ self.old.synced }
        ensures marks { self.new.marks ≡ self.old.marks }
        ensures dev { self.new.dev ≡ self.old.dev }
        ensures spare { self.old.spare ≤ self.new.spare + 1 }
    {
        let end = take_piece(&mut self.left, e, self.opened);
        self.map.push_reserved(Entry {
            src: e.start,
            dev,
            dst,
            len: e.len as u32,
        });
        self.opened = end;
    }

    /// The parts of an extent below the synced frontier, from there to the open one, and above that. It costs the same
    /// whatever there is.
    pub fn route(&self, e: Extent) -> Routed
        ensures { IsRouted self.now.synced self.now.opened e result.below result.flying result.above }
    {
        Routed {
            below: part_below(e, self.synced),
            flying: part_between(e, self.synced, self.opened),
            above: part_from(e, self.opened),
        }
    }

    /// Units are freed that were copied or are left to copy: what was copied is marked, and the rest is left no more. It
    /// takes no memory. It costs a change of the marks and one of what is left, each a search and the move of a page or
    /// two, however much there is.
    pub fn freed(&mut self, e: Extent)
        requires not_empty { 0 < e.len }
        requires unmarked { HasNone self.old.marks e }
        requires there { IsThere self.old e }
        requires room { 0 < self.old.spare }
        ensures freed { FreesUnits self.old self.new e }
        ensures spare { self.old.spare ≤ self.new.spare + 1 }
    {
        let opened = self.opened;
        mark_below(&mut self.marks, e, opened);
        drop_above(&mut self.left, e, opened);
    }

    /// A root has all entries: the synced frontier is where the open one is.
    pub fn on_sync(&mut self)
        ensures { self.new ≡ record self.old { synced = self.old.opened } }
    {
        self.synced = self.opened;
    }

    /// The unit below which all is copied.
    pub fn opened(&self) -> u64
        ensures opened { result ≡ self.now.opened }
        ensures lawful { IsEvacuation self.now.entries self.now.left self.now.synced self.now.opened }
    {
        self.opened
    }

    /// The unit below which a root on disk has the entries.
    pub fn synced(&self) -> u64
        ensures { result ≡ self.now.synced }
    {
        self.synced
    }

    /// How many units are left to copy. It is kept, not counted.
    pub fn left(&self) -> u64
        ensures units { result ≡ unit_count self.now.left }
        ensures bound { result ≤ 2 ^ 62 }
    {
        self.left.units()
    }

    /// The mapping so far.
    pub fn map(&self) -> &Imap
        ensures { result.now.entries ≡ self.now.entries }
    {
        &self.map
    }

    /// The units that were copied and then freed. `to_set` gives them in one array.
    pub fn marks(&self) -> &PagedSet
        ensures { result.now.extents ≡ self.now.marks }
    {
        &self.marks
    }

    /// The destinations of all entries without the copies of marked units, each unit once: what is freed when the
    /// removal is given up. It goes over the entries, with a search in the marks for each of their parts.
    pub fn cancelled(&self) -> Result<Vec<(u32, Extent)>, NoMemory>
        ensures copies { IfOk result (λ list. (d u : ℕ) → hits_at list.items d u ≡ copies_at self.now.marks self.now.entries d u) }
        ensures lawful { IfOk result (λ list. AreLawful list.items) }
    {
        let mut list = Vec::new(self.alloc);
        for i in 0..self.map.len() {
            push_unmarked(&mut list, self.map.entry(i), &self.marks)?;
        }
        Ok(list)
    }

    /// The mapping and the marks.
    pub fn end(self) -> (Imap, PagedSet)
        ensures map { result.0.entries ≡ self.entries }
        ensures marks { result.1.extents ≡ self.marks }
    {
        (self.map, self.marks)
    }
}

// Adds the destination of an entry without the copies of marked units.
fn push_unmarked(
    list: &mut Vec<(u32, Extent)>,
    entry: Entry,
    marks: &PagedSet,
) -> Result<(), NoMemory>
    requires { IsEntry entry }
    ensures hits { OnOk result ((d u : ℕ) → hits_at list.new.items d u ≡ hits_at list.old.items d u + one_if (is_copy_in marks.now.extents entry entry.len d u)) }
    ensures lawful { AreLawful list.old.items → OnOk result (AreLawful list.new.items) }
{
    let end = entry.src + entry.len as u64;
    let mut at = entry.src;
    while at < end {
        let marked = next_marked(marks, at, end);
        let gap = Extent {
            start: entry.dst + (at - entry.src),
            len: marked.start - at,
        };
        push_full(list, entry.dev, gap)?;
        at = marked.start + marked.len;
    }
    Ok(())
}

// Adds an extent that has units.
fn push_full(list: &mut Vec<(u32, Extent)>, dev: u32, e: Extent) -> Result<(), NoMemory>
    requires { e.start + e.len ≤ 2 ^ 62 }
    ensures hits { OnOk result ((d u : ℕ) → hits_at list.new.items d u ≡ hits_at list.old.items d u + one_if (is_at (dev, e) d u)) }
    ensures lawful { AreLawful list.old.items → OnOk result (AreLawful list.new.items) }
{
    if e.len == 0 {
        return Ok(());
    }
    list.push((dev, e))?;
    Ok(())
}

// The first marked units from one unit to below another that follow each other, or none at its end.
fn next_marked(marks: &PagedSet, at: u64, end: u64) -> Extent
    requires { at < end }
    ensures from { at ≤ result.start }
    ensures more { at < result.start + result.len }
    ensures to { result.start + result.len ≤ end }
    ensures gap { (u : ℕ) → at ≤ u → u < result.start → has_unit marks.now.extents u ≡ false }
    ensures marked { HasAll marks.now.extents result }
{
    let Some(part) = marks.first_from(at) else {
        return Extent { start: end, len: 0 };
    };
    if part.start >= end {
        return Extent { start: end, len: 0 };
    }
    Extent {
        start: part.start,
        len: part.len.min(end - part.start),
    }
}

// The end of the last entry of a mapping.
fn end_of_map(map: &Imap) -> u64
    ensures end { result ≡ end_of_last map.now.entries }
    ensures bound { result ≤ 2 ^ 62 }
    ensures all { EntriesEndBy result map.now.entries }
{
    let count = map.len();
    if count == 0 {
        return 0;
    }
    let last = map.entry(count - 1);
    last.src + last.len as u64
}

// The units of a set from a unit on.
fn rest_from(alloc: Global, held: &RangeSet, from: u64) -> Result<PagedSet, NoMemory>
    ensures { IfOk result (λ rest. (u : ℕ) → has_unit rest.extents u ≡ (has_unit held.now.extents u && nat_le from u)) }
{
    let runs = held.extents();
    let mut rest = PagedSet::new(alloc);
    let mut count = runs.len();
    while count > 0 {
        count -= 1;
        push_part(&mut rest, runs[count], from)?;
    }
    Ok(rest)
}

// Puts in the units of an extent from a unit on, below all others.
fn push_part(rest: &mut PagedSet, run: Extent, from: u64) -> Result<(), NoMemory>
    requires not_empty { 0 < run.len }
    requires in_range { run.start + run.len ≤ 2 ^ 62 }
    requires below { IsMaximalFrom (run.start + run.len + 1) rest.old.extents }
    ensures units { OnOk result ((u : ℕ) → has_unit rest.new.extents u ≡ (has_unit rest.old.extents u || (in_extent run u && nat_le from u))) }
    ensures maximal { IsMaximal rest.new.extents }
{
    let _rest = rest.first();
    if let Some(part) = part_from(run, from) {
        rest.push_first(part)?;
    }
    Ok(())
}

// The front of the first extent.
fn next_piece(left: &PagedSet) -> Option<Extent>
    ensures value { result ≡ next_of left.now.extents }
    ensures front { IfSome result (IsFront left.now.extents) }
    ensures not_empty { IfSome result (λ e. 0 < e.len) }
    ensures in_range { IfSome result (λ e. e.start + e.len ≤ 2 ^ 62) }
    ensures none { IfNone result (left.now.extents ≡ []) }
    ensures maximal { IsMaximal left.now.extents }
{
    let first = left.first()?;
    Some(Extent {
        start: first.start,
        len: first.len.min(256),
    })
}

// Takes out a front of the first extent, and answers where it ends.
fn take_piece(left: &mut PagedSet, e: Extent, opened: u64) -> u64
    requires not_empty { 0 < e.len }
    requires front { IsFront left.old.extents e }
    requires uncopied { (u : ℕ) → u < opened → has_unit left.old.extents u ≡ false }
    ensures end { result ≡ e.start + e.len }
    ensures bound { result ≤ 2 ^ 62 }
    ensures opened { opened ≤ e.start }
    ensures taken { RemovesUnits left.old.extents left.new.extents e }
    ensures uncopied { (u : ℕ) → u < result → has_unit left.new.extents u ≡ false }
    ensures spare { left.old.spare ≤ left.new.spare }
{
    let _left = left.first();
    let piece = left.take_front(e.len);
    piece.start + piece.len
}

// The units of an extent from one unit to below another.
fn part_between(e: Extent, from: u64, to: u64) -> Option<Extent>
    ensures units { (u : ℕ) → in_part result u ≡ (in_extent e u && (nat_le from u && nat_lt u to)) }
    ensures full { IsFull result }
{
    part_below(part_from(e, from)?, to)
}

// Marks the units of an extent below a unit.
fn mark_below(marks: &mut PagedSet, e: Extent, at: u64)
    requires unmarked { HasNone marks.old.extents e }
    requires bound { at ≤ 2 ^ 62 }
    requires room { 0 < marks.old.spare }
    ensures units { (u : ℕ) → has_unit marks.new.extents u ≡ (has_unit marks.old.extents u || (in_extent e u && nat_lt u at)) }
    ensures count { unit_count marks.new.extents ≡ unit_count marks.old.extents + min e.len (at - e.start) }
    ensures spare { marks.old.spare ≤ marks.new.spare + 1 }
{
    if let Some(part) = part_below(e, at) {
        marks.add_reserved(part);
    }
}

// Takes out the units of an extent from a unit on.
fn drop_above(left: &mut PagedSet, e: Extent, at: u64)
    requires there { (u : ℕ) → in_extent e u ≡ true → at ≤ u → has_unit left.old.extents u ≡ true }
    requires room { 0 < left.old.spare }
    ensures units { (u : ℕ) → has_unit left.new.extents u ≡ (has_unit left.old.extents u && not (in_extent e u && nat_le at u)) }
    ensures count { unit_count left.new.extents + (e.len - (at - e.start)) ≡ unit_count left.old.extents }
    ensures spare { left.old.spare ≤ left.new.spare + 1 }
{
    if let Some(part) = part_from(e, at) {
        left.remove_reserved(part);
    }
}

#[cfg(test)]
mod tests {
    use super::*;
    use std::test::Fail;

    #[test]
    fn frees_are_cut_at_the_frontiers(rt: HostRuntime) -> Result<(), Fail> {
        let mut held = RangeSet::new(rt.alloc());
        held.add(Extent { start: 0, len: 30 })?;
        let map = Imap::new(rt.alloc());
        let marks = RangeSet::new(rt.alloc());
        let mut evac = Evac::begin(rt.alloc(), 0, &held, map, marks)?;
        assert!(rt; evac.dev() == 0);
        evac.reserve(3)?;
        assert_eq!(rt; evac.next(), Some(Extent { start: 0, len: 30 }));
        evac.copied(Extent { start: 0, len: 10 }, 1, 100);
        evac.on_sync();
        assert_eq!(rt; evac.next(), Some(Extent { start: 10, len: 20 }));
        evac.copied(Extent { start: 10, len: 10 }, 1, 200);
        let routed = evac.route(Extent { start: 5, len: 20 });
        assert_eq!(rt; routed.below, Some(Extent { start: 5, len: 5 }));
        assert_eq!(rt; routed.flying, Some(Extent { start: 10, len: 10 }));
        assert_eq!(rt; routed.above, Some(Extent { start: 20, len: 5 }));
        evac.freed(Extent { start: 5, len: 20 });
        assert_eq!(rt; evac.next(), Some(Extent { start: 25, len: 5 }));
        assert_eq!(rt; evac.left(), 5);
        let copies = evac.cancelled()?;
        assert_eq!(rt;
            copies.as_slice(),
            [(1, Extent { start: 100, len: 5 })].as_slice()
        );
        assert!(rt; evac.map().len() == 2);
        assert!(rt; evac.marks().units() == 15);
        let (map, marks) = evac.end();
        assert!(rt; map.len() == 2);
        let marks = marks.to_set()?;
        assert_eq!(rt; marks.extents(), [Extent { start: 5, len: 15 }].as_slice());
        Ok(())
    }
}
