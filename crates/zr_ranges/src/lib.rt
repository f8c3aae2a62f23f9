//! A set of units, kept as its maximal extents in order.
//!
//! Every account of space above is made of such sets: what is free, what is held, what is deferred. A set is a sorted
//! array of runs between which at least one unit is missing, so it has one spelling, a search halves the array, and a
//! neighbour that is met is joined at once. A change costs a search and the move of the runs above it. Each change
//! makes at most one run more, so `reserve(n)` is room for n changes that take no memory: what must not fail after a
//! command was accepted goes through the calls that end in `_reserved`.
//!
//! A set is often emptied from its lowest unit up. So the runs begin at an index, and to take out the first ones only
//! raises it. The room below it is spare like that behind the last run, and the first other change moves all runs down
//! over it, once.
//!
//! The units of a set and the words that it takes where it is written anew are kept as it changes.
#![tactic(auto)]

ghost use Rattle.std.specs.Prelude.{◌≡◌, ℕ, ◌+◌, ◌-◌, ◌^◌, ◌<◌, ◌≤◌, ◌↔◌, ◌∷◌, [], take, remove, length, min, drop, IsTrue, IsOk, IfSome, IfNone, OnOk, OnErr, vec_len, Some};
ghost use Rattle.std.specs.Vec.{vec_capacity};
ghost use Rattle.zr_ranges.specs.Ranges.{HasRunOf};
ghost use Rattle.zr_ranges.specs.Words.{run_of};
ghost use Rattle.zr_rules.specs.Owed.{set_words};
ghost use Rattle.zr_base.specs.Extents.{IsMaximal, HasAll, HasNone, AddsUnits, RemovesUnits, unit_count, longest_len, first_part_from, end_of, extent_at, EndsBy, IsFirstPart, HasNoneFrom};

mod front;
mod words;

use front::{count_units, live, settle, take_first};
use std::alloc::{AllocError, Global};
use std::marker::Model;
pub use words::Words;
use zr_base::{Extent, NoMemory};

/// A set of units below 2^62.
#[derive(Drop)]
pub struct RangeSet {
    runs: Vec<Extent>,
    from: usize,
    units: u64,
    words: Words,
}

impl Model for RangeSet {
    ghost use Rattle.std.specs.Prelude.{◌-◌, vec_len, drop};
    ghost use Rattle.std.specs.Vec.{vec_capacity};
    ghost use Rattle.zr_ranges.specs.Ranges.{Ranges, IsKept};

    ghost Value = { Ranges };

    ghost view = { λ a. record { extents = drop a.from a.runs.items; spare = vec_capacity a.runs - (vec_len a.runs - a.from) } };

    ghost invariant = { λ a. IsKept a.runs.items a.from a.units a.words };
}

impl RangeSet {
    /// No units. It takes no memory.
    pub fn new(alloc: Global) -> RangeSet
        ensures { result.extents ≡ [] }
    {
        RangeSet {
            runs: Vec::new(alloc),
            from: 0,
            units: 0,
            words: Words::none(),
        }
    }

    /// Puts in the units of an extent that has none in the set. Logarithmic in the extents, and the move of those above
    /// it where one comes or goes, or of all where the lowest were taken out before.
    #[tactic(auto, using(crate::proofs::Edits::count_bound))]
    pub fn add(&mut self, e: Extent) -> Result<(), NoMemory>
        requires not_empty { 0 < e.len }
        requires in_range { e.start + e.len ≤ 2 ^ 62 }
        requires apart { HasNone self.old.extents e }

        ensures ok { OnOk result (AddsUnits self.old.extents self.new.extents e) }
        ensures err { OnErr result (self.new.extents ≡ self.old.extents) }

        // Memory runs out only where nothing is spare.
        ensures room { 0 < self.old.spare → IsOk result }
        ensures spare { self.old.spare ≤ self.new.spare + 1 }
        ensures capacity { length self.old.extents + self.old.spare ≤ length self.new.extents + self.new.spare }
        ensures growth { length self.new.extents ≤ length self.old.extents + 1 }
    {
        settle(&mut self.runs, &mut self.from);
        add_run(&mut self.runs, e)?;
        self.units += e.len;
        self.words = self.words.joined(run_around(self.runs.as_slice(), e), e);
        Ok(())
    }

    /// Takes out the units of an extent that has all in the set. It costs what `add` does.
    pub fn remove(&mut self, e: Extent) -> Result<(), NoMemory>
        requires not_empty { 0 < e.len }
        requires covered { HasAll self.old.extents e }

        ensures ok { OnOk result (RemovesUnits self.old.extents self.new.extents e) }
        ensures err { OnErr result (self.new.extents ≡ self.old.extents) }

        // Memory runs out only where nothing is spare.
        ensures room { 0 < self.old.spare → IsOk result }
        ensures spare { self.old.spare ≤ self.new.spare + 1 }
        ensures capacity { length self.old.extents + self.old.spare ≤ length self.new.extents + self.new.spare }
        ensures growth { length self.new.extents ≤ length self.old.extents + 1 }
    {
        settle(&mut self.runs, &mut self.from);
        let run = run_around(self.runs.as_slice(), e);
        remove_run(&mut self.runs, e)?;
        self.units -= e.len;
        self.words = self.words.cut(run, e);
        Ok(())
    }

    /// Whether the set has each unit of the extent. Logarithmic in the extents.
    pub fn covers(&self, e: Extent) -> bool
        ensures { IsTrue result ↔ HasAll self.now.extents e }
    {
        has_all(live(&self.runs, self.from), e)
    }

    /// Whether the set has no unit of the extent. Logarithmic in the extents.
    pub fn is_apart(&self, e: Extent) -> bool
        ensures { IsTrue result ↔ HasNone self.now.extents e }
    {
        has_none(live(&self.runs, self.from), e)
    }

    /// How many units the set has. It is kept, not counted.
    #[tactic(auto, using(crate::proofs::Edits::count_bound))]
    pub fn units(&self) -> u64
        ensures units { result ≡ unit_count self.now.extents }
        ensures bound { result ≤ 2 ^ 62 }
    {
        self.units
    }

    /// The words of the set, were it written anew in the form that this version of the format has. They are kept, not
    /// counted.
    pub fn words(&self, version: u64) -> u64
        ensures words { result ≡ set_words version self.now.extents }
        ensures few { result ≤ unit_count self.now.extents }
    {
        self.words.of(version)
    }

    /// The extent that has a unit. Logarithmic in the extents.
    pub fn run_with(&self, u: u64) -> Option<Extent>
        ensures { result ≡ run_of u self.now.extents }
    {
        run_with(live(&self.runs, self.from), u)
    }

    /// The most units that follow each other in the set, or 0. It goes over all extents, so a caller keeps it.
    #[tactic(auto, using(crate::proofs::Longest::longest_above, crate::proofs::Longest::longest_there, crate::proofs::Longest::longest_bound))]
    pub fn longest(&self) -> u64
        ensures longest { result ≡ longest_len self.now.extents }
        ensures none_longer { (i : ℕ) → i < length self.now.extents → (extent_at self.now.extents i).len ≤ result }
        ensures one_as_long { 0 < result → HasRunOf self.now.extents result }
        ensures bound { result ≤ unit_count self.now.extents }
    {
        longest_run(live(&self.runs, self.from))
    }

    /// The part at or above `u` of the lowest extent that ends above `u`. Logarithmic in the extents.
    pub fn first_from(&self, u: u64) -> Option<Extent>
        ensures value { result ≡ first_part_from u self.now.extents }
        ensures some { IfSome result (IsFirstPart self.now.extents u) }
        ensures none { IfNone result (HasNoneFrom self.now.extents u) }
    {
        first_part(live(&self.runs, self.from), u)
    }

    /// The maximal extents in order. It costs nothing.
    pub fn extents(&self) -> &[Extent]
        ensures extents { result.now ≡ self.now.extents }
        ensures maximal { IsMaximal self.now.extents }
    {
        live(&self.runs, self.from)
    }

    /// Takes out the lowest units, `n` or, where the lowest extent has fewer, that extent. It takes no memory and moves
    /// nothing, whatever the set has.
    pub fn take_front(&mut self, n: u64) -> Extent
        requires not_empty { 0 < length self.old.extents }
        requires some { 0 < n }

        ensures start { result.start ≡ (extent_at self.old.extents 0).start }
        ensures len { result.len ≡ min n (extent_at self.old.extents 0).len }
        ensures not_empty { 0 < result.len }
        ensures in_range { result.start + result.len ≤ 2 ^ 62 }
        ensures covered { HasAll self.old.extents result }
        ensures removed { RemovesUnits self.old.extents self.new.extents result }

        // Where fewer units came out, it was the first extent, and the others stay.
        ensures whole { result.len < n → self.old.extents ≡ result ∷ self.new.extents }
        ensures shorter { result.len < n → length self.new.extents + 1 ≡ length self.old.extents }
        ensures growth { length self.new.extents ≤ length self.old.extents }
        ensures spare { self.old.spare ≤ self.new.spare }
        ensures capacity { length self.old.extents + self.old.spare ≤ length self.new.extents + self.new.spare }
    {
        let run = run_at(live(&self.runs, self.from), 0);
        let (taken, from) = take_first(&mut self.runs, self.from, n);
        self.from = from;
        self.units -= taken.len;
        self.words = self.words.cut(run, taken);
        taken
    }

    /// Takes out the lowest `n` extents, or all where there are fewer. It reads those that it takes out, to count their
    /// units, and moves nothing.
    #[tactic(auto, using(crate::proofs::Parts::maximal_take, crate::proofs::Parts::count_split))]
    pub fn drop_front(&mut self, n: usize)
        ensures left { self.new.extents ≡ drop n self.old.extents }
        ensures spare { self.old.spare ≤ self.new.spare }
        ensures capacity { length self.old.extents + self.old.spare ≤ length self.new.extents + self.new.spare }
    {
        let runs = live(&self.runs, self.from);
        let count = n.min(runs.len());
        self.units -= count_units(&runs[..count]);
        self.words = self.words.without(&runs[..count]);
        self.from += count;
    }

    /// Takes out the front of the extent at `i`: `n` units or, where it has fewer, all of it. No extent is split, so
    /// it takes no memory. At 0 it moves nothing. Elsewhere it moves what `remove` does.
    pub fn take_from(&mut self, i: usize, n: u64) -> Extent
        requires index { i < length self.old.extents }
        requires some { 0 < n }

        ensures start { result.start ≡ (extent_at self.old.extents i).start }
        ensures len { result.len ≡ min n (extent_at self.old.extents i).len }
        ensures not_empty { 0 < result.len }
        ensures in_range { result.start + result.len ≤ 2 ^ 62 }
        ensures covered { HasAll self.old.extents result }
        ensures removed { RemovesUnits self.old.extents self.new.extents result }
        ensures whole { result.len < n → self.new.extents ≡ remove self.old.extents i }
        ensures shorter { result.len < n → length self.new.extents + 1 ≡ length self.old.extents }
        ensures growth { length self.new.extents ≤ length self.old.extents }
        ensures spare { self.old.spare ≤ self.new.spare }
        ensures capacity { length self.old.extents + self.old.spare ≤ length self.new.extents + self.new.spare }
    {
        if i == 0 {
            return self.take_front(n);
        }
        settle(&mut self.runs, &mut self.from);
        let run = run_at(self.runs.as_slice(), i);
        let taken = take_run(&mut self.runs, i, n);
        self.units -= taken.len;
        self.words = self.words.cut(run, taken);
        taken
    }

    /// Takes out all units, and keeps the memory.
    pub fn clear(&mut self)
        ensures empty { self.new.extents ≡ [] }
        ensures spare { self.old.spare ≤ self.new.spare }
        ensures capacity { length self.old.extents + self.old.spare ≤ length self.new.extents + self.new.spare }
    {
        self.runs.clear();
        self.from = 0;
        self.units = 0;
        self.words = Words::none();
    }

    /// Makes room for `n` changes that take no memory. Where that room is there it costs nothing.
    pub fn reserve(&mut self, n: usize) -> Result<(), NoMemory>
        ensures ok { OnOk result (n ≤ self.new.spare) }
        ensures extents { self.new.extents ≡ self.old.extents }
        ensures spare { self.old.spare ≤ self.new.spare }
        ensures capacity { length self.old.extents + self.old.spare ≤ length self.new.extents + self.new.spare }
    {
        if n <= self.runs.capacity() - (self.runs.len() - self.from) {
            return Ok(());
        }
        settle(&mut self.runs, &mut self.from);
        self.runs.reserve(n)?;
        Ok(())
    }

    /// As `add`, where something is spare.
    pub fn add_reserved(&mut self, e: Extent)
        requires not_empty { 0 < e.len }
        requires in_range { e.start + e.len ≤ 2 ^ 62 }
        requires apart { HasNone self.old.extents e }
        requires room { 0 < self.old.spare }

        ensures added { AddsUnits self.old.extents self.new.extents e }
        ensures spare { self.old.spare ≤ self.new.spare + 1 }
        ensures capacity { length self.old.extents + self.old.spare ≤ length self.new.extents + self.new.spare }
        ensures growth { length self.new.extents ≤ length self.old.extents + 1 }
    {
        match self.add(e) {
            Ok(()) => {}
            Err(_) => unreachable!(),
        }
    }

    /// As `remove`, where something is spare.
    pub fn remove_reserved(&mut self, e: Extent)
        requires not_empty { 0 < e.len }
        requires covered { HasAll self.old.extents e }
        requires room { 0 < self.old.spare }

        ensures removed { RemovesUnits self.old.extents self.new.extents e }
        ensures spare { self.old.spare ≤ self.new.spare + 1 }
        ensures capacity { length self.old.extents + self.old.spare ≤ length self.new.extents + self.new.spare }
        ensures growth { length self.new.extents ≤ length self.old.extents + 1 }
    {
        match self.remove(e) {
            Ok(()) => {}
            Err(_) => unreachable!(),
        }
    }
}

// The place of the first extent that ends above `u`.
fn first_above(runs: &[Extent], u: u64) -> usize
    requires { IsMaximal runs.now }
    ensures within { result ≤ length runs.now }
    ensures below { EndsBy u (take result runs.now) }
    ensures above { result < length runs.now → u < end_of (extent_at runs.now result) }
{
    let mut low = 0;
    let mut high = runs.len();
    while low < high {
        let middle = low + (high - low) / 2;
        let run = runs[middle];
        if run.start + run.len <= u {
            low = middle + 1;
        } else {
            high = middle;
        }
    }
    low
}

fn has_all(runs: &[Extent], e: Extent) -> bool
    requires { IsMaximal runs.now }
    ensures { IsTrue result ↔ HasAll runs.now e }
{
    if e.len == 0 {
        return true;
    }
    let i = first_above(runs, e.start);
    if i < runs.len() {
        let run = runs[i];
        run.start <= e.start && e.len <= run.start + run.len - e.start
    } else {
        false
    }
}

fn has_none(runs: &[Extent], e: Extent) -> bool
    requires { IsMaximal runs.now }
    ensures { IsTrue result ↔ HasNone runs.now e }
{
    match first_part(runs, e.start) {
        None => true,
        Some(part) => e.len <= part.start - e.start,
    }
}

fn first_part(runs: &[Extent], u: u64) -> Option<Extent>
    requires { IsMaximal runs.now }
    ensures value { result ≡ first_part_from u runs.now }
    ensures some { IfSome result (IsFirstPart runs.now u) }
    ensures none { IfNone result (HasNoneFrom runs.now u) }
{
    let i = first_above(runs, u);
    if i < runs.len() {
        let run = runs[i];
        if u <= run.start {
            Some(run)
        } else {
            Some(Extent {
                start: u,
                len: run.start + run.len - u,
            })
        }
    } else {
        None
    }
}

fn run_with(runs: &[Extent], u: u64) -> Option<Extent>
    requires { IsMaximal runs.now }
    ensures { result ≡ run_of u runs.now }
{
    let i = first_above(runs, u);
    if i < runs.len() && runs[i].start <= u {
        Some(runs[i])
    } else {
        None
    }
}

fn longest_run(runs: &[Extent]) -> u64
    ensures { result ≡ longest_len runs.now }
{
    let mut longest = 0;
    for run in runs {
        longest = longest.max(run.len);
    }
    longest
}

fn take_run(runs: &mut Vec<Extent>, i: usize, n: u64) -> Extent
    requires maximal { IsMaximal runs.old.items }
    requires index { i < length runs.old.items }
    requires some { 0 < n }

    ensures start { result.start ≡ (extent_at runs.old.items i).start }
    ensures len { result.len ≡ min n (extent_at runs.old.items i).len }
    ensures not_empty { 0 < result.len }
    ensures in_range { result.start + result.len ≤ 2 ^ 62 }
    ensures covered { HasAll runs.old.items result }
    ensures removed { RemovesUnits runs.old.items runs.new.items result }
    ensures whole { result.len < n → runs.new.items ≡ remove runs.old.items i }
    ensures shorter { result.len < n → length runs.new.items + 1 ≡ length runs.old.items }
    ensures capacity { vec_capacity runs.old ≤ vec_capacity runs.new }
    ensures not_longer { vec_len runs.new ≤ vec_len runs.old }
{
    let run = run_at(runs.as_slice(), i);
    if run.len <= n {
        runs.remove(i);
        run
    } else {
        runs[i] = Extent {
            start: run.start + n,
            len: run.len - n,
        };
        Extent {
            start: run.start,
            len: n,
        }
    }
}

fn add_run(runs: &mut Vec<Extent>, e: Extent) -> Result<(), NoMemory>
    requires maximal { IsMaximal runs.old.items }
    requires not_empty { 0 < e.len }
    requires in_range { e.start + e.len ≤ 2 ^ 62 }
    requires apart { HasNone runs.old.items e }

    ensures ok { OnOk result (AddsUnits runs.old.items runs.new.items e) }
    ensures err { OnErr result (runs.new.items ≡ runs.old.items) }
    ensures room { vec_len runs.old < vec_capacity runs.old → IsOk result }
    ensures capacity { vec_capacity runs.old ≤ vec_capacity runs.new }
    ensures len { vec_len runs.new ≤ vec_len runs.old + 1 }
{
    let i = first_above(runs.as_slice(), e.start);
    let joins_left = ends_at(runs.as_slice(), i, e.start);
    let joins_right = starts_at(runs.as_slice(), i, e.start + e.len);
    if joins_left {
        let left = run_at(runs.as_slice(), i - 1);
        if joins_right {
            let right = run_at(runs.as_slice(), i);
            runs[i - 1] = Extent {
                start: left.start,
                len: left.len + e.len + right.len,
            };
            runs.remove(i);
        } else {
            runs[i - 1] = Extent {
                start: left.start,
                len: left.len + e.len,
            };
        }
    } else if joins_right {
        let right = run_at(runs.as_slice(), i);
        runs[i] = Extent {
            start: e.start,
            len: e.len + right.len,
        };
    } else {
        runs.insert(i, e)?;
    }
    Ok(())
}

fn remove_run(runs: &mut Vec<Extent>, e: Extent) -> Result<(), NoMemory>
    requires maximal { IsMaximal runs.old.items }
    requires not_empty { 0 < e.len }
    requires covered { HasAll runs.old.items e }

    ensures ok { OnOk result (RemovesUnits runs.old.items runs.new.items e) }
    ensures err { OnErr result (runs.new.items ≡ runs.old.items) }
    ensures room { vec_len runs.old < vec_capacity runs.old → IsOk result }
    ensures capacity { vec_capacity runs.old ≤ vec_capacity runs.new }
    ensures len { vec_len runs.new ≤ vec_len runs.old + 1 }
{
    let i = holder(runs.as_slice(), e);
    let run = run_at(runs.as_slice(), i);
    let end = e.start + e.len;
    let left = Extent {
        start: run.start,
        len: e.start - run.start,
    };
    let right = Extent {
        start: end,
        len: run.start + run.len - end,
    };
    if left.len == 0 {
        if right.len == 0 {
            runs.remove(i);
        } else {
            runs[i] = right;
        }
    } else if right.len == 0 {
        runs[i] = left;
    } else {
        runs.insert(i + 1, right)?;
        runs[i] = left;
    }
    Ok(())
}

// The place of the extent that has all units of another.
fn holder(runs: &[Extent], e: Extent) -> usize
    requires maximal { IsMaximal runs.now }
    requires not_empty { 0 < e.len }
    requires covered { HasAll runs.now e }
    ensures index { result < length runs.now }
    ensures starts { (extent_at runs.now result).start ≤ e.start }
    ensures ends { e.start + e.len ≤ end_of (extent_at runs.now result) }
{
    first_above(runs, e.start)
}

// The extent that has all units of another.
fn run_around(runs: &[Extent], e: Extent) -> Extent
    requires maximal { IsMaximal runs.now }
    requires not_empty { 0 < e.len }
    requires covered { HasAll runs.now e }
    ensures run { run_of e.start runs.now ≡ Some result }
    ensures inside { end_of e ≤ end_of result }
{
    run_at(runs, holder(runs, e))
}

fn run_at(runs: &[Extent], i: usize) -> Extent
    requires maximal { IsMaximal runs.now }
    requires index { i < length runs.now }
    ensures value { extent_at runs.now i ≡ result }
    ensures not_empty { 0 < result.len }
    ensures fits { result.start + result.len ≤ 2 ^ 62 }
{
    runs[i]
}

// Whether the extent before `i` ends at the unit.
fn ends_at(runs: &[Extent], i: usize, u: u64) -> bool
    requires maximal { IsMaximal runs.now }
    requires index { i ≤ length runs.now }
    ensures { IsTrue result ↔ ((0 < i) × (end_of (extent_at runs.now (i - 1)) ≡ u)) }
{
    if i == 0 {
        return false;
    }
    let run = run_at(runs, i - 1);
    run.start + run.len == u
}

// Whether there is an extent at `i` and it starts at the unit.
fn starts_at(runs: &[Extent], i: usize, u: u64) -> bool
    ensures { IsTrue result ↔ ((i < length runs.now) × ((extent_at runs.now i).start ≡ u)) }
{
    i < runs.len() && runs[i].start == u
}
