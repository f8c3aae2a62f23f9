//! How many words a set takes that is written anew.
//!
//! A run of at most 32,768 units is one word. A longer one is a word for each 32,768 units, or two words in the second form
//! of a space map. Units that come to a set or go from it change one extent alone: before, or after, it has all of them, and
//! beside them is what it has, or had, without them. So the words are kept from change to change, and no set is gone over.
ghost use Rattle.std.specs.Prelude.{◌≡◌, ◌+◌, ◌-◌, ◌^◌, ◌<◌, ◌≤◌, List, []};
ghost use Rattle.zr_base.specs.declared.space.Extent.{Extent};
ghost use Rattle.zr_base.specs.Extents.{IsMaximal, end_of, unit_count};
ghost use Rattle.zr_rules.specs.Owed.{extent_words, set_words};
ghost use Rattle.zr_ranges.specs.Words.{AreSetWords, TakesFromRun, beside_words, part_words};

use zr_base::Extent;

/// The longest run, in units, that is one word.
const SHORT: u64 = 32_768;

/// The words of an extent.
pub fn extent_words(e: Extent, version: u64) -> u64
    ensures words { result ≡ extent_words version e }
    ensures few { 0 < e.len → result ≤ e.len }
{
    if version == 1 {
        return e.len.div_ceil(SHORT);
    }
    if e.len <= SHORT { 1 } else { 2 }
}

/// The words of extents, each of which is gone over.
pub fn words_of(extents: &[Extent], version: u64) -> u64
    requires { IsMaximal extents.now }
    ensures words { result ≡ set_words version extents.now }
    ensures few { result ≤ unit_count extents.now }
{
    let mut words = 0;
    for e in extents {
        words += extent_words(*e, version);
    }
    words
}

// The words of so many units that follow each other.
fn part_words(len: u64, version: u64) -> u64
    ensures words { result ≡ part_words version len }
    ensures few { result ≤ len }
{
    if len == 0 {
        return 0;
    }
    extent_words(Extent { start: 0, len }, version)
}

// The words of what is left of a run beside an extent of it.
fn beside_words(run: Extent, e: Extent, version: u64) -> u64
    requires starts { run.start ≤ e.start }
    requires ends { end_of e ≤ end_of run }
    requires fits { end_of run ≤ 2 ^ 62 }
    ensures words { result ≡ beside_words version run e }
    ensures few { result ≤ 2 ^ 62 }
{
    let left = e.start - run.start;
    let right = run.start + run.len - (e.start + e.len);
    part_words(left, version) + part_words(right, version)
}

/// The words of a set in the first form of a space map and in the second.
#[derive(Clone, Copy)]
pub struct Words {
    pub first: u64,
    pub second: u64,
}

impl Words {
    /// Those of no units.
    pub fn none() -> Words
        ensures { AreSetWords result [] }
    {
        Words {
            first: 0,
            second: 0,
        }
    }

    /// Those of a set to which the units of an extent came, which is now in the run.
    pub fn joined(self, run: Extent, e: Extent) -> Words
        requires { (with : List Extent) × (without : List Extent) × AreSetWords self without × TakesFromRun with without run e }
        ensures { (with without : List Extent) → AreSetWords self without → TakesFromRun with without run e → AreSetWords result with }
    {
        Words {
            first: self.first + extent_words(run, 1) - beside_words(run, e, 1),
            second: self.second + extent_words(run, 2) - beside_words(run, e, 2),
        }
    }

    /// Those of a set from which the units of an extent went, which was in the run.
    pub fn cut(self, run: Extent, e: Extent) -> Words
        requires { (with : List Extent) × (without : List Extent) × AreSetWords self with × TakesFromRun with without run e }
        ensures { (with without : List Extent) → AreSetWords self with → TakesFromRun with without run e → AreSetWords result without }
    {
        Words {
            first: self.first + beside_words(run, e, 1) - extent_words(run, 1),
            second: self.second + beside_words(run, e, 2) - extent_words(run, 2),
        }
    }

    /// Those of a set without the extents, which are some of its extents.
    pub fn without(self, runs: &[Extent]) -> Words
        requires maximal { IsMaximal runs.now }
        requires first { set_words 1 runs.now ≤ self.first }
        requires second { set_words 2 runs.now ≤ self.second }
        ensures first { result.first ≡ self.first - set_words 1 runs.now }
        ensures second { result.second ≡ self.second - set_words 2 runs.now }
    {
        Words {
            first: self.first - words_of(runs, 1),
            second: self.second - words_of(runs, 2),
        }
    }

    /// How many words, by the version of the format.
    pub fn of(self, version: u64) -> u64
        ensures { (es : List Extent) → AreSetWords self es → result ≡ set_words version es }
    {
        if version == 1 {
            self.first
        } else {
            self.second
        }
    }
}
