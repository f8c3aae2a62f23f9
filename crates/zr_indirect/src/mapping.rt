//! A device on its way out: in service, leaving, or gone.
//!
//! What it has is seen as one value in all three states, so that whoever keeps a device reads it without telling the states
//! apart. A change belongs to one of the states, and requires it.
ghost use Rattle.std.specs.Prelude.{◌≡◌, ℕ, ◌+◌, ◌<◌, ◌≤◌, ◌^◌, ◌∷◌, [], false, length, slice_index, IfOk, IfSome, IfNone, OnOk, OnErr, MatchOption, IsTrue, ◌↔◌, ◌*◌};
ghost use Rattle.zr_base.specs.Extents.{HasNone, unit_count};
ghost use Rattle.zr_rules.specs.Places.{is_on};
ghost use Rattle.zr_rules.specs.Condense.{fresh_units};
ghost use Rattle.zr_rules.specs.Mappings.{entry_at};
ghost use Rattle.zr_evac.specs.Evacuations.{AreLawful, IsFront, copies_at, hits_at, next_of};
ghost use Rattle.zr_obsolete.specs.Obsolete.{Fits, LiesIn};
ghost use Rattle.zr_rules.specs.Owed.{set_words};
ghost use Rattle.zr_indirect.specs.Mapped.{HasCounts, HasEntries, IsGone, IsLeaving, in_service, is_mapping_due, mapped_words};
ghost use Rattle.zr_indirect.specs.Stages.{IsStage, mapped_in};
ghost use Rattle.zr_indirect.specs.Changes.{CopiesFront, FoldsFresh, FreesCopied, GainsFresh, GoesOn, IsCopiedOrLeft, KeepsRoot, MarksUnits};

use crate::indirect::Indirect;
use crate::leaving::Leaving;
use crate::sets::copy_of;
use std::alloc::Global;
use std::marker::Model;
use std::mem;
use zr_base::{Change, DevState, Entry, Extent, Items, NoMemory};
use zr_imap::Imap;
use zr_paged::UnitSet;
use zr_ranges::RangeSet;

/// What a device has beside its units.
#[derive(Drop)]
pub struct Mapping {
    stage: Stage,
}

/// How far a device has come.
#[derive(Drop)]
enum Stage {
    InService,
    Leaving(Leaving),
    Gone(Indirect),
}

impl Model for Mapping {
    ghost use Rattle.zr_indirect.specs.Mapped.{Mapped};

    ghost Value = { Mapped };

    ghost use Rattle.zr_indirect.specs.Stages.{IsStage, mapped_in};

    ghost view = { λ a. mapped_in a.stage };

    ghost invariant = { λ a. IsStage a.stage };
}

impl Mapping {
    /// What a device in service has: nothing. It takes no memory.
    pub fn in_service() -> Mapping
        ensures { result ≡ in_service }
    {
        Mapping {
            stage: Stage::InService,
        }
    }

    /// A device is being evacuated, from the end of the last entry of a mapping on: from the beginning where it has none. It
    /// goes over the held and the marked extents.
    pub fn leaving(
        alloc: Global,
        dev: u32,
        map: Imap,
        marks: RangeSet,
        held: &RangeSet,
    ) -> Result<Mapping, NoMemory>
        requires { LiesIn marks.extents map.entries }
        ensures { IfOk result (GoesOn map.entries marks.extents held.now.extents) }
    {
        let leaving = Leaving::begin(alloc, dev, map, marks, held)?;
        Ok(Mapping {
            stage: Stage::Leaving(leaving),
        })
    }

    /// A device is gone, with its mapping, a count for each entry, and the obsolete units that are not counted yet. It takes
    /// no memory.
    pub fn gone(alloc: Global, map: Imap, counts: Vec<u32>, fresh: UnitSet) -> Mapping
        requires { HasCounts map.entries counts.items fresh.extents }
        ensures { result ≡ record in_service { state = DevState.Gone; entries = map.entries; counts = counts.items; fresh = fresh.extents; spare = result.spare } }
    {
        let indirect = Indirect::new(alloc, map, counts, fresh, UnitSet::new(alloc));
        Mapping {
            stage: Stage::Gone(indirect),
        }
    }

    /// What holds of each. It does nothing: a caller learns these facts by it.
    pub fn lawful(&self)
        ensures service { self.now.state ≡ DevState.On → self.now ≡ in_service }
        ensures leaving { self.now.state ≡ DevState.Leaving → IsLeaving self.now }
        ensures gone { self.now.state ≡ DevState.Gone → IsGone self.now }
    {
        match &self.stage {
            Stage::InService => {}
            Stage::Leaving(leaving) => leaving.lawful(),
            Stage::Gone(indirect) => indirect.lawful(),
        }
    }

    pub fn state(&self) -> DevState
        ensures { result ≡ self.now.state }
    {
        match &self.stage {
            Stage::InService => DevState::On,
            Stage::Leaving(_) => DevState::Leaving,
            Stage::Gone(_) => DevState::Gone,
        }
    }

    /// The mapping, which a device in service has not.
    pub fn map(&self) -> Option<&Imap>
        ensures { MatchOption result (self.now.state ≡ DevState.On) (λ map. (map.now.entries ≡ self.now.entries) × (is_on self.now.state ≡ false)) }
    {
        match &self.stage {
            Stage::InService => None,
            Stage::Leaving(leaving) => Some(leaving.map()),
            Stage::Gone(indirect) => Some(indirect.map()),
        }
    }

    /// All entries, in order. It goes over them.
    pub fn entries(&self, alloc: Global) -> Result<Items<Entry>, NoMemory>
        ensures { IfOk result (λ entries. entries ≡ self.now.entries) }
    {
        match &self.stage {
            Stage::InService => Ok(Items::new(alloc)),
            Stage::Leaving(leaving) => leaving.map().to_entries(alloc),
            Stage::Gone(indirect) => indirect.map().to_entries(alloc),
        }
    }

    /// The count of each entry, in order. It goes over them.
    pub fn counts(&self, alloc: Global) -> Result<Items<u32>, NoMemory>
        ensures { IfOk result (λ counts. counts ≡ self.now.counts) }
    {
        let counts = match &self.stage {
            Stage::InService => Vec::new(alloc),
            Stage::Leaving(leaving) => leaving.counts(alloc)?,
            Stage::Gone(indirect) => Vec::from_slice(alloc, indirect.counts())?,
        };
        Ok(Items::from_vec(counts))
    }

    /// The count of each entry of a device that is gone, as they are kept. It costs nothing.
    pub fn gone_counts(&self) -> &[u32]
        requires { self.now.state ≡ DevState.Gone }
        ensures { result.now ≡ self.now.counts }
    {
        match &self.stage {
            Stage::Gone(indirect) => indirect.counts(),
            Stage::InService | Stage::Leaving(_) => unreachable!(),
        }
    }

    /// The words of the entries and of the marks or the fresh units, were they written anew: eight for each entry. They are
    /// kept, not counted.
    pub fn words(&self, version: u64) -> u64
        requires small { unit_count self.now.fresh < 2 ^ 40 }
        requires few { length self.now.entries < 2 ^ 40 }
        ensures words { result ≡ mapped_words version self.now }
        ensures bound { result ≤ 8 * length self.now.entries + unit_count self.now.fresh }
    {
        match &self.stage {
            Stage::InService => 0,
            Stage::Leaving(leaving) => leaving.words(version),
            Stage::Gone(indirect) => indirect.words(version),
        }
    }

    /// The words of the marks or the fresh obsolete units, were they written anew. They are kept, not counted.
    pub fn fresh_words(&self, version: u64) -> u64
        ensures { result ≡ set_words version self.now.fresh }
    {
        match &self.stage {
            Stage::InService => 0,
            Stage::Leaving(leaving) => leaving.mark_words(version),
            Stage::Gone(indirect) => indirect.fresh().words(version),
        }
    }

    /// The marks or the fresh obsolete units, as maximal extents in order. It goes over them.
    pub fn fresh(&self, alloc: Global) -> Result<Items<Extent>, NoMemory>
        ensures { IfOk result (λ fresh. fresh ≡ self.now.fresh) }
    {
        match &self.stage {
            Stage::InService => Ok(Items::new(alloc)),
            Stage::Leaving(leaving) => copy_of(alloc, &leaving.marks()?),
            Stage::Gone(indirect) => copy_of(alloc, &indirect.fresh().to_set()?),
        }
    }

    /// How many units of entry `i` of a device that is gone are obsolete, counted or not. It takes a search in the fresh
    /// extents for each of them that the entry has.
    pub fn obsolete_in(&self, i: usize) -> u32
        requires gone { self.now.state ≡ DevState.Gone }
        requires index { i < length self.now.entries }
        ensures units { result ≡ slice_index self.now.counts i + fresh_units self.now.fresh (entry_at self.now.entries i) }
        ensures few { result ≤ (entry_at self.now.entries i).len }
    {
        match &self.stage {
            Stage::Gone(indirect) => indirect.obsolete_in(i),
            Stage::InService | Stage::Leaving(_) => unreachable!(),
        }
    }

    /// What the log of the fresh units gains over what the current root records: the units that came and those that went,
    /// as maximal extents by rising place. It goes over what changed, and not over the set.
    #[tactic(auto, using(crate::proofs::Rooted::gains))]
    pub fn changes(&self, alloc: Global) -> Result<Vec<Change>, NoMemory>
        ensures { IfOk result (λ cs. GainsFresh self.now cs.items) }
    {
        match &self.stage {
            Stage::InService => Ok(Vec::new(alloc)),
            Stage::Leaving(leaving) => leaving.changes(alloc),
            Stage::Gone(indirect) => indirect.changes(alloc),
        }
    }

    /// Whether no unit of the extent is marked or fresh. Logarithmic in their extents.
    pub fn is_unmarked(&self, e: Extent) -> bool
        ensures { IsTrue result ↔ HasNone self.now.fresh e }
    {
        match &self.stage {
            Stage::InService => true,
            Stage::Leaving(leaving) => leaving.is_unmarked(e),
            Stage::Gone(indirect) => indirect.fresh().is_apart(e),
        }
    }

    /// Whether a quarter of the mapping is marked or fresh. It costs nothing.
    pub fn is_due(&self) -> bool
        ensures { result ≡ is_mapping_due self.now }
    {
        match &self.stage {
            Stage::InService => false,
            Stage::Leaving(leaving) => leaving.is_due(),
            Stage::Gone(indirect) => indirect.is_due(),
        }
    }

    /// How many units are left to copy. It is kept, not counted.
    pub fn left(&self) -> u64
        ensures units { result ≡ unit_count self.now.left }
        ensures bound { result ≤ 2 ^ 62 }
    {
        match &self.stage {
            Stage::Leaving(leaving) => leaving.left(),
            Stage::InService | Stage::Gone(_) => 0,
        }
    }

    /// The next piece to copy: the front of the lowest extent that is left, 256 units at most. It costs the same however
    /// much is left.
    pub fn next(&self) -> Option<Extent>
        ensures value { result ≡ next_of self.now.left }
        ensures front { IfSome result (IsFront self.now.left) }
        ensures not_empty { IfSome result (λ e. 0 < e.len) }
        ensures in_range { IfSome result (λ e. e.start + e.len ≤ 2 ^ 62) }
        ensures none { IfNone result (self.now.left ≡ []) }
    {
        match &self.stage {
            Stage::Leaving(leaving) => leaving.next(),
            Stage::InService | Stage::Gone(_) => None,
        }
    }

    /// The unit below which all of a device that leaves is copied.
    pub fn opened(&self) -> u64
        ensures { result ≡ self.now.opened }
    {
        match &self.stage {
            Stage::Leaving(leaving) => leaving.opened(),
            Stage::InService | Stage::Gone(_) => 0,
        }
    }

    /// The unit below which a root on disk has the entries of a device that leaves.
    pub fn synced(&self) -> u64
        ensures { result ≡ self.now.synced }
    {
        match &self.stage {
            Stage::Leaving(leaving) => leaving.synced(),
            Stage::InService | Stage::Gone(_) => 0,
        }
    }

    /// Makes room, so that the next `n` calls of `copied` and `freed`, or of `mark` for as many units, take no memory. Where
    /// that room is there it costs nothing.
    pub fn reserve(&mut self, n: usize) -> Result<(), NoMemory>
        ensures ok { is_on self.old.state ≡ false → OnOk result (n ≤ self.new.spare) }
        ensures same { self.new ≡ record self.old { spare = self.new.spare } }
        ensures spare { self.old.spare ≤ self.new.spare }
    {
        match &mut self.stage {
            Stage::InService => Ok(()),
            Stage::Leaving(leaving) => leaving.reserve(n),
            Stage::Gone(indirect) => indirect.reserve(n),
        }
    }

    /// A front of the next piece was copied to a device from `dst` on. It takes no memory, and costs the same however much
    /// is left and however many entries there are.
    pub fn copied(&mut self, e: Extent, dev: u32, dst: u64)
        requires leaving { self.old.state ≡ DevState.Leaving }
        requires not_empty { 0 < e.len }
        requires front { IsFront self.old.left e }
        requires destination { dst + e.len ≤ 2 ^ 62 }
        requires room { 0 < self.old.spare }
        ensures copied { CopiesFront self.old self.new e dev dst }
        ensures spare { self.old.spare ≤ self.new.spare + 1 }
    {
        match &mut self.stage {
            Stage::Leaving(leaving) => leaving.copied(e, dev, dst),
            Stage::InService | Stage::Gone(_) => unreachable!(),
        }
    }

    /// Units of a device that leaves are freed, which were copied or are left to copy: what was copied is marked, and the
    /// rest is left no more. It takes no memory. It costs a search in the marks and one in what is left, and the move of what
    /// the open group has marked above them.
    pub fn freed(&mut self, e: Extent)
        requires leaving { self.old.state ≡ DevState.Leaving }
        requires not_empty { 0 < e.len }
        requires unmarked { HasNone self.old.fresh e }
        requires there { IsCopiedOrLeft self.old e }
        requires room { 0 < self.old.spare }
        ensures freed { FreesCopied self.old self.new e }
        ensures root { KeepsRoot self.old self.new }
        ensures spare { self.old.spare ≤ self.new.spare + 1 }
    {
        match &mut self.stage {
            Stage::Leaving(leaving) => leaving.freed(e),
            Stage::InService | Stage::Gone(_) => unreachable!(),
        }
    }

    /// The destinations of all entries without the copies of marked units, each unit once: what is freed when the removal
    /// is given up. It goes over the entries, with a search in the marks for each of their parts.
    pub fn cancelled(&self) -> Result<Vec<(u32, Extent)>, NoMemory>
        requires { self.now.state ≡ DevState.Leaving }
        ensures copies { IfOk result (λ list. (d u : ℕ) → hits_at list.items d u ≡ copies_at self.now.fresh self.now.entries d u) }
        ensures lawful { IfOk result (λ list. AreLawful list.items) }
    {
        match &self.stage {
            Stage::Leaving(leaving) => leaving.cancelled(),
            Stage::InService | Stage::Gone(_) => unreachable!(),
        }
    }

    /// All of a device that leaves is copied, and it is gone: its marks are the fresh obsolete units, and no unit is counted
    /// yet. It goes over the entries and the marks.
    pub fn finish(&mut self, alloc: Global) -> Result<(), NoMemory>
        requires leaving { self.old.state ≡ DevState.Leaving }
        requires none { self.old.left ≡ [] }
        ensures ok { OnOk result (self.new ≡ record self.old { state = DevState.Gone; synced = 0; opened = 0; spare = self.new.spare }) }
        ensures err { OnErr result (self.new ≡ self.old) }
    {
        let (counts, marks) = self.obsolete(alloc)?;
        let stage = mem::replace(&mut self.stage, Stage::InService);
        self.stage = Stage::Gone(end(stage, alloc, counts, marks));
        Ok(())
    }

    // The counts and the marks of a device that leaves.
    fn obsolete(&self, alloc: Global) -> Result<(Vec<u32>, UnitSet), NoMemory>
        requires { self.now.state ≡ DevState.Leaving }
        ensures counts { IfOk result (λ parts. parts.0.items ≡ self.now.counts) }
        ensures marks { IfOk result (λ parts. parts.1.extents ≡ self.now.fresh) }
    {
        match &self.stage {
            Stage::Leaving(leaving) => {
                let counts = leaving.counts(alloc)?;
                let marks = leaving.marks()?;
                Ok((counts, UnitSet::of(alloc, &marks)?))
            }
            Stage::InService | Stage::Gone(_) => unreachable!(),
        }
    }

    /// Units of a device that is gone are passed no more: they become fresh. It takes no memory. It costs a search and a
    /// change for each run of them that went from the fresh units in the open group, or did not.
    pub fn mark(&mut self, e: Extent)
        requires gone { self.old.state ≡ DevState.Gone }
        requires not_empty { 0 < e.len }
        requires in_range { e.start + e.len ≤ 2 ^ 62 }
        requires unmarked { HasNone self.old.fresh e }
        requires entries { HasEntries self.old.entries e }
        requires fits { Fits self.old.entries self.old.counts (e ∷ self.old.fresh) }
        requires room { e.len ≤ self.old.spare }
        ensures marked { MarksUnits self.old self.new e }
        ensures root { KeepsRoot self.old self.new }
        ensures spare { self.old.spare ≤ self.new.spare + e.len }
    {
        match &mut self.stage {
            Stage::Gone(indirect) => indirect.mark(e),
            Stage::InService | Stage::Leaving(_) => unreachable!(),
        }
    }

    /// Counts the fresh units of a device that is gone, as a condensing begins. It goes over the entries and the fresh
    /// units.
    pub fn fold(&mut self) -> Result<(), NoMemory>
        requires { self.old.state ≡ DevState.Gone }
        ensures ok { OnOk result (FoldsFresh self.old self.new) }
        ensures root { OnOk result (KeepsRoot self.old self.new) }
        ensures err { OnErr result (self.new ≡ record self.old { spare = self.new.spare }) }
    {
        match &mut self.stage {
            Stage::Gone(indirect) => indirect.fold(),
            Stage::InService | Stage::Leaving(_) => unreachable!(),
        }
    }

    /// Another mapping with its counts takes the place of that of a device that is gone, as a condensing ends.
    pub fn replace(&mut self, map: Imap, counts: Vec<u32>)
        requires gone { self.old.state ≡ DevState.Gone }
        requires counts { HasCounts map.entries counts.items self.old.fresh }
        ensures { self.new ≡ record self.old { entries = map.entries; counts = counts.items; spare = self.new.spare } }
    {
        match &mut self.stage {
            Stage::Gone(indirect) => indirect.replace(map, counts),
            Stage::InService | Stage::Leaving(_) => unreachable!(),
        }
    }

    /// A root has all that there is: nothing came or went since, and all entries are synced.
    pub fn age(&mut self)
        ensures aged { self.new ≡ record self.old { came = []; went = []; synced = self.old.opened; spare = self.new.spare } }
        ensures spare { self.old.spare ≤ self.new.spare }
    {
        match &mut self.stage {
            Stage::InService => {}
            Stage::Leaving(leaving) => leaving.age(),
            Stage::Gone(indirect) => indirect.age(),
        }
    }
}

// What a device that leaves has once it is gone.
fn end(stage: Stage, alloc: Global, counts: Vec<u32>, marks: UnitSet) -> Indirect
    requires leaving { (mapped_in stage).state ≡ DevState.Leaving }
    requires stage { IsStage stage }
    requires none { (mapped_in stage).left ≡ [] }
    requires counts { counts.items ≡ (mapped_in stage).counts }
    requires marks { marks.extents ≡ (mapped_in stage).fresh }
    ensures { result ≡ record (mapped_in stage) { state = DevState.Gone; synced = 0; opened = 0; spare = result.spare } }
{
    match stage {
        Stage::Leaving(leaving) => leaving.end(alloc, counts, marks),
        Stage::InService | Stage::Gone(_) => unreachable!(),
    }
}
