//! A device that is gone, of which the mapping is left.
//!
//! A unit of it that no pointer passes any more is obsolete. Such units are fresh first, in a set whose log a root keeps,
//! and are folded into a count for each entry when the mapping is condensed. A unit that comes and is folded in one group
//! was never in a root's set, and one that is folded and then marked again never left it.
ghost use Rattle.std.specs.Prelude.{◌≡◌, ℕ, ◌+◌, ◌<◌, ◌≤◌, ◌^◌, ◌∷◌, [], length, slice_index, IfOk, OnOk, OnErr, ◌*◌};
ghost use Rattle.zr_rules.specs.Condense.{fresh_units};
ghost use Rattle.zr_rules.specs.Mappings.{entry_at};
ghost use Rattle.zr_base.specs.Extents.{HasNone, unit_count};
ghost use Rattle.zr_obsolete.specs.Obsolete.{Fits};
ghost use Rattle.zr_indirect.specs.Mapped.{HasCounts, HasEntries, IsGone, IsPart, gone_of, is_mapping_due, mapped_words};
ghost use Rattle.zr_indirect.specs.Changes.{MarksUnits, FoldsFresh, GainsFresh, KeepsRoot};

use crate::sets::{count_of, is_due, note_came, put_in, take_out};
use std::alloc::Global;
use std::marker::Model;
use zr_base::{Change, Extent, NoMemory};
use zr_imap::Imap;
use zr_obsolete::{fold_counts, fresh_in};
use zr_paged::UnitSet;
use zr_units::merged;

/// A mapping with a count for each entry, the fresh obsolete units, and what came to these in the open group and what went
/// from them.
#[derive(Drop)]
pub struct Indirect {
    map: Imap,
    counts: Vec<u32>,
    fresh: UnitSet,
    came: UnitSet,
    went: UnitSet,
}

impl Model for Indirect {
    ghost use Rattle.zr_indirect.specs.Mapped.{Mapped, HasCounts, IsTurned, gone_of};

    ghost Value = { Mapped };

    ghost view = { λ a. gone_of a.map.entries a.counts.items a.fresh a.came a.went };

    ghost invariant = { λ a. HasCounts a.map.entries a.counts.items a.fresh.extents × IsTurned a.fresh.extents a.came.extents a.went.extents };
}

impl Indirect {
    /// A mapping with its counts and its fresh units, of which some came in the open group.
    pub fn new(
        alloc: Global,
        map: Imap,
        counts: Vec<u32>,
        fresh: UnitSet,
        came: UnitSet,
    ) -> Indirect
        requires counts { HasCounts map.entries counts.items fresh.extents }
        requires came { IsPart came.extents fresh.extents }
        ensures { result ≡ record (gone_of map.entries counts.items fresh came fresh) { went = []; spare = result.spare } }
    {
        Indirect {
            map,
            counts,
            fresh,
            came,
            went: UnitSet::new(alloc),
        }
    }

    /// What holds of each. It does nothing.
    pub fn lawful(&self)
        ensures { IsGone self.now }
    {
        let _count = self.map.len();
        let _fresh = self.fresh.first();
        let _came = self.came.first();
        let _went = self.went.first();
    }

    /// Units that are not fresh become so.
    pub fn mark(&mut self, e: Extent)
        requires not_empty { 0 < e.len }
        requires in_range { e.start + e.len ≤ 2 ^ 62 }
        requires unmarked { HasNone self.old.fresh e }
        requires entries { HasEntries self.old.entries e }
        requires fits { Fits self.old.entries self.old.counts (e ∷ self.old.fresh) }
        requires room { e.len ≤ self.old.spare }
        ensures marked { MarksUnits self.old self.new e }
        ensures root { KeepsRoot self.old self.new }
        ensures spare { self.old.spare ≤ self.new.spare + e.len }
    {
        self.fresh.add_reserved(e);
        note_came(&mut self.came, &mut self.went, e);
    }

    /// Folds the fresh units into the counts. Those that a root has went from its set.
    pub fn fold(&mut self) -> Result<(), NoMemory>
        ensures ok { OnOk result (FoldsFresh self.old self.new) }
        ensures root { OnOk result (KeepsRoot self.old self.new) }
        ensures err { OnErr result (self.new ≡ record self.old { spare = self.new.spare }) }
    {
        let mut came = self.came.to_set()?;
        let mut synced = self.fresh.to_set()?;
        let mut went = self.went.to_set()?;
        let count = count_of(&came);
        went.reserve(count_of(&synced) + count)?;
        synced.reserve(count)?;
        take_out(&mut synced, &mut came);
        put_in(&mut went, &mut synced);
        self.went.refill(&went)?;
        fold_counts(&mut self.counts, &self.fresh, &self.map);
        self.fresh.clear();
        self.came.clear();
        Ok(())
    }

    /// Another mapping with its counts takes the old one's place.
    pub fn replace(&mut self, map: Imap, counts: Vec<u32>)
        requires { HasCounts map.entries counts.items self.old.fresh }
        ensures { self.new ≡ record self.old { entries = map.entries; counts = counts.items; spare = self.new.spare } }
    {
        self.map = map;
        self.counts = counts;
    }

    /// The mapping.
    pub fn map(&self) -> &Imap
        ensures { result.now.entries ≡ self.now.entries }
    {
        &self.map
    }

    /// The count of each entry, in order.
    pub fn counts(&self) -> &[u32]
        ensures { result.now ≡ self.now.counts }
    {
        self.counts.as_slice()
    }

    /// The words of the entries and of the fresh units, were they written anew. They are kept, not counted.
    pub fn words(&self, version: u64) -> u64
        requires small { unit_count self.now.fresh < 2 ^ 40 }
        requires few { length self.now.entries < 2 ^ 40 }
        ensures words { result ≡ mapped_words version self.now }
        ensures bound { result ≤ 8 * length self.now.entries + unit_count self.now.fresh }
    {
        8 * self.map.len() as u64 + self.fresh.words(version)
    }

    /// The obsolete units that are not counted yet.
    pub fn fresh(&self) -> &UnitSet
        ensures { result.now.extents ≡ self.now.fresh }
    {
        &self.fresh
    }

    /// How many units of entry `i` are obsolete, counted or not.
    pub fn obsolete_in(&self, i: usize) -> u32
        requires { i < length self.now.entries }
        ensures units { result ≡ slice_index self.now.counts i + fresh_units self.now.fresh (entry_at self.now.entries i) }
        ensures few { result ≤ (entry_at self.now.entries i).len }
    {
        self.counts[i] + fresh_in(&self.fresh, self.map.entry(i))
    }

    /// What the log of the fresh units gains, by rising place.
    #[tactic(auto, using(crate::proofs::Rooted::gains))]
    pub fn changes(&self, alloc: Global) -> Result<Vec<Change>, NoMemory>
        ensures { IfOk result (λ cs. GainsFresh self.now cs.items) }
    {
        let came = self.came.to_set()?;
        let went = self.went.to_set()?;
        merged(alloc, came.extents(), went.extents())
    }

    /// Whether a quarter of the mapping is fresh.
    pub fn is_due(&self) -> bool
        ensures { result ≡ is_mapping_due self.now }
    {
        is_due(self.fresh.units(), self.map.units())
    }

    /// Makes room for marks of `n` units.
    pub fn reserve(&mut self, n: usize) -> Result<(), NoMemory>
        ensures ok { OnOk result (n ≤ self.new.spare) }
        ensures same { self.new ≡ record self.old { spare = self.new.spare } }
        ensures spare { self.old.spare ≤ self.new.spare }
    {
        self.fresh.reserve(n)?;
        self.came.reserve(n)?;
        self.went.reserve(n)
    }

    /// A root has the fresh units as they are.
    pub fn age(&mut self)
        ensures aged { self.new ≡ record self.old { came = []; went = []; synced = self.old.opened; spare = self.new.spare } }
        ensures spare { self.old.spare ≤ self.new.spare }
    {
        self.came.clear();
        self.went.clear();
    }
}
