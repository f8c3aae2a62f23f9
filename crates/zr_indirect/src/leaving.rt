//! A device that is being evacuated.
//!
//! Its units are copied from the lowest up, and what is freed meanwhile is told apart by where it lies (zr_evac). Here is
//! beside it what the open group has marked, which the log of the marks gains at the next root.
ghost use Rattle.std.specs.Prelude.{◌≡◌, ℕ, ◌+◌, ◌*◌, ◌<◌, ◌≤◌, ◌^◌, IfOk, IfSome, IfNone, OnOk, [], IsTrue, ◌↔◌, replicate, length};
ghost use Rattle.zr_base.specs.Extents.{HasNone, IsMaximal, unit_count};
ghost use Rattle.zr_rules.specs.Mappings.{end_of_last};
ghost use Rattle.zr_evac.specs.Evacuations.{AreLawful, IsFront, copies_at, hits_at, next_of};
ghost use Rattle.zr_obsolete.specs.Obsolete.{LiesIn};
ghost use Rattle.zr_rules.specs.Owed.{set_words};
ghost use Rattle.zr_indirect.specs.Mapped.{IsLeaving, is_mapping_due, mapped_words};
ghost use Rattle.zr_indirect.specs.Changes.{GoesOn, CopiesFront, FreesCopied, GainsFresh, IsCopiedOrLeft, KeepsRoot};

use crate::indirect::Indirect;
use crate::sets::{add_below, is_apart, is_due};
use std::alloc::Global;
use std::marker::Model;
use zr_base::{Change, DevState, Extent, NoMemory};
use zr_evac::Evac;
use zr_imap::Imap;
use zr_paged::UnitSet;
use zr_ranges::RangeSet;
use zr_units::merged;

/// An evacuation, and the units that the open group has marked.
#[derive(Drop)]
pub struct Leaving {
    evac: Evac,
    came: UnitSet,
}

impl Model for Leaving {
    ghost use Rattle.zr_indirect.specs.Mapped.{Mapped, HasMarks, leaving_of};

    ghost Value = { Mapped };

    ghost view = { λ a. leaving_of a.evac a.came };

    ghost invariant = { λ a. HasMarks a.evac.entries a.evac.marks a.came.extents a.evac.opened };
}

impl Leaving {
    /// Goes on at the end of the last entry of a mapping.
    pub fn begin(
        alloc: Global,
        dev: u32,
        map: Imap,
        marks: RangeSet,
        held: &RangeSet,
    ) -> Result<Leaving, NoMemory>
        requires { LiesIn marks.extents map.entries }
        ensures { IfOk result (GoesOn map.entries marks.extents held.now.extents) }
    {
        let evac = Evac::begin(alloc, dev, held, map, marks)?;
        Ok(Leaving {
            evac,
            came: UnitSet::new(alloc),
        })
    }

    /// What holds of each. It does nothing.
    pub fn lawful(&self)
        ensures { IsLeaving self.now }
    {
        let _opened = self.evac.opened();
        let _count = self.evac.map().len();
        let _next = self.evac.next();
        let _mark = self.evac.marks().first();
        let _came = self.came.first();
    }

    /// A front of what is left was copied to a device from `dst` on.
    pub fn copied(&mut self, e: Extent, dev: u32, dst: u64)
        requires not_empty { 0 < e.len }
        requires front { IsFront self.old.left e }
        requires destination { dst + e.len ≤ 2 ^ 62 }
        requires room { 0 < self.old.spare }
        ensures copied { CopiesFront self.old self.new e dev dst }
        ensures spare { self.old.spare ≤ self.new.spare + 1 }
    {
        self.evac.copied(e, dev, dst);
    }

    /// Units are freed that were copied or are left to copy.
    pub fn freed(&mut self, e: Extent)
        requires not_empty { 0 < e.len }
        requires unmarked { HasNone self.old.fresh e }
        requires there { IsCopiedOrLeft self.old e }
        requires room { 0 < self.old.spare }
        ensures freed { FreesCopied self.old self.new e }
        ensures root { KeepsRoot self.old self.new }
        ensures spare { self.old.spare ≤ self.new.spare + 1 }
    {
        let opened = self.evac.opened();
        add_below(&mut self.came, e, opened);
        self.evac.freed(e);
    }

    /// The mapping so far.
    pub fn map(&self) -> &Imap
        ensures { result.now.entries ≡ self.now.entries }
    {
        self.evac.map()
    }

    /// The marks, in one array.
    pub fn marks(&self) -> Result<RangeSet, NoMemory>
        ensures { IfOk result (λ set. set.extents ≡ self.now.fresh) }
    {
        self.evac.marks().to_set()
    }

    /// A count for each entry, which is 0.
    pub fn counts(&self, alloc: Global) -> Result<Vec<u32>, NoMemory>
        ensures { IfOk result (λ counts. counts.items ≡ self.now.counts) }
    {
        let counts = vec![in alloc; 0u32; self.evac.map().len()]?;
        Ok(counts)
    }

    /// The words of the entries and of the marks, were they written anew. They are kept, not counted.
    pub fn words(&self, version: u64) -> u64
        requires small { unit_count self.now.fresh < 2 ^ 40 }
        requires few { length self.now.entries < 2 ^ 40 }
        ensures words { result ≡ mapped_words version self.now }
        ensures bound { result ≤ 8 * length self.now.entries + unit_count self.now.fresh }
    {
        8 * self.evac.map().len() as u64 + self.evac.marks().words(version)
    }

    /// The words of the marks, were they written anew. They are kept, not counted.
    pub fn mark_words(&self, version: u64) -> u64
        ensures { result ≡ set_words version self.now.fresh }
    {
        let marks = self.evac.marks();
        marks.words(version)
    }

    /// How many units are left to copy.
    pub fn left(&self) -> u64
        ensures units { result ≡ unit_count self.now.left }
        ensures bound { result ≤ 2 ^ 62 }
    {
        self.evac.left()
    }

    /// The next piece to copy.
    pub fn next(&self) -> Option<Extent>
        ensures value { result ≡ next_of self.now.left }
        ensures front { IfSome result (IsFront self.now.left) }
        ensures not_empty { IfSome result (λ e. 0 < e.len) }
        ensures in_range { IfSome result (λ e. e.start + e.len ≤ 2 ^ 62) }
        ensures none { IfNone result (self.now.left ≡ []) }
    {
        self.evac.next()
    }

    /// The unit below which all is copied.
    pub fn opened(&self) -> u64
        ensures { result ≡ self.now.opened }
    {
        self.evac.opened()
    }

    /// The unit below which a root on disk has the entries.
    pub fn synced(&self) -> u64
        ensures { result ≡ self.now.synced }
    {
        self.evac.synced()
    }

    /// What the log of the marks gains, by rising place.
    #[tactic(auto, using(crate::proofs::Rooted::gains))]
    pub fn changes(&self, alloc: Global) -> Result<Vec<Change>, NoMemory>
        ensures { IfOk result (λ cs. GainsFresh self.now cs.items) }
    {
        let came = self.came.to_set()?;
        merged(alloc, came.extents(), &[])
    }

    /// Whether no unit of the extent is marked.
    pub fn is_unmarked(&self, e: Extent) -> bool
        ensures { IsTrue result ↔ HasNone self.now.fresh e }
    {
        is_apart(self.evac.marks(), e)
    }

    /// Whether a quarter of the mapping is marked.
    pub fn is_due(&self) -> bool
        ensures { result ≡ is_mapping_due self.now }
    {
        is_due(self.evac.marks().units(), self.evac.map().units())
    }

    /// Makes room for `n` calls of `copied` and `freed`.
    pub fn reserve(&mut self, n: usize) -> Result<(), NoMemory>
        ensures ok { OnOk result (n ≤ self.new.spare) }
        ensures same { self.new ≡ record self.old { spare = self.new.spare } }
        ensures spare { self.old.spare ≤ self.new.spare }
    {
        self.came.reserve(n)?;
        self.evac.reserve(n)
    }

    /// The destinations of all entries without the copies of marked units.
    pub fn cancelled(&self) -> Result<Vec<(u32, Extent)>, NoMemory>
        ensures copies { IfOk result (λ list. (d u : ℕ) → hits_at list.items d u ≡ copies_at self.now.fresh self.now.entries d u) }
        ensures lawful { IfOk result (λ list. AreLawful list.items) }
    {
        self.evac.cancelled()
    }

    /// A root has all entries and marks.
    pub fn age(&mut self)
        ensures aged { self.new ≡ record self.old { came = []; went = []; synced = self.old.opened; spare = self.new.spare } }
        ensures spare { self.old.spare ≤ self.new.spare }
    {
        self.evac.on_sync();
        self.came.clear();
    }

    /// All is copied, and the device is gone. The counts and the marks are its own.
    pub fn end(self, alloc: Global, counts: Vec<u32>, marks: UnitSet) -> Indirect
        requires none { self.left ≡ [] }
        requires counts { counts.items ≡ self.counts }
        requires marks { marks.extents ≡ self.fresh }
        ensures { result ≡ record self { state = DevState.Gone; synced = 0; opened = 0; spare = result.spare } }
    {
        let (map, _) = self.evac.end();
        Indirect::new(alloc, map, counts, marks, self.came)
    }
}
