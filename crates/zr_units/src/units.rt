//! The sets of one device, and what happens to them.
ghost use Rattle.std.specs.Prelude.{◌≡◌, ℕ, ◌+◌, ◌*◌, ◌^◌, ◌<◌, ◌≤◌, ◌||◌, true, false, OnOk, OnErr, IfOk, length, []};
ghost use Rattle.zr_base.specs.Extents.{HasAll, HasNone, in_extent, has_unit, unit_count};
ghost use Rattle.zr_metaslab.specs.Devices.{Devices, free_at, count_at, units_at};
ghost use Rattle.zr_units.specs.Uses.{IsAccount, IsKeeping, IsSameUses, unused, use_count, freed_count};
ghost use Rattle.zr_units.specs.Apart.{AreSetsApart};
ghost use Rattle.zr_units.specs.Differences.{IsMerged};
ghost use Rattle.zr_units.specs.Words.{use_words};
ghost use Rattle.zr_units.specs.Changes.{Holds, HoldsCopy, TurnsCopies, GivesUpCopies, GivesUpSet, HoldsMeta, DropsMeta, DropsSaved, FreesUnits, FreesCopies, KeepsUnits, KeepsBorn, DiscardsUnits, DiscardsFront, TakesBack, FreesBorn, aged_uses, cleared_uses, saved_uses, taken_uses, has_freed};

use crate::changes::merged;
use crate::freed::FreedSets;
use crate::parts::{free_parts, give_up_parts, keep_parts, uniform_front};
use std::alloc::Global;
use std::marker::Model;
use std::mem;
use zr_base::{Change, Extent, NoMemory};
use zr_metaslab::Slabs;
use zr_paged::UnitSet;
use zr_ranges::RangeSet;

/// The units of a device by their use, but for the free ones. Counts of units are kept and not counted anew.
#[derive(Drop)]
pub struct Units {
    units: u64,
    held: UnitSet,
    born: UnitSet,
    kept: UnitSet,
    came: UnitSet,
    went: UnitSet,
    copies: UnitSet,
    freed: FreedSets,
    late1: FreedSets,
    late2: FreedSets,
    meta: RangeSet,
    saved: RangeSet,
}

impl Model for Units {
    ghost use Rattle.std.specs.Prelude.{min};
    ghost use Rattle.zr_units.specs.Uses.{Uses};

    ghost Value = { Uses };

    ghost view = { λ a. record { units = a.units; held = a.held.extents; born = a.born.extents; kept = a.kept.extents; came = a.came.extents; went = a.went.extents; copies = a.copies.extents; freed = a.freed.sets; late1 = a.late1.sets; late2 = a.late2.sets; meta = a.meta.extents; saved = a.saved.extents; spare = min a.held.spare (min a.born.spare (min a.kept.spare (min a.came.spare (min a.copies.spare a.freed.spare)))) } };
}

impl Units {
    /// So many units of which none is used. It takes no memory.
    pub fn new(alloc: Global, units: u64) -> Units
        ensures { IsSameUses (unused units) result }
    {
        Units {
            units,
            held: UnitSet::new(alloc),
            born: UnitSet::new(alloc),
            kept: UnitSet::new(alloc),
            came: UnitSet::new(alloc),
            went: UnitSet::new(alloc),
            copies: UnitSet::new(alloc),
            freed: FreedSets::new(alloc),
            late1: FreedSets::new(alloc),
            late2: FreedSets::new(alloc),
            meta: RangeSet::new(alloc),
            saved: RangeSet::new(alloc),
        }
    }

    /// The units of a device as a root records them, of which the open group has changed none. It has no metadata yet.
    pub fn of_sets(
        alloc: Global,
        units: u64,
        held: UnitSet,
        kept: UnitSet,
        late1: FreedSets,
        late2: FreedSets,
    ) -> Units
        ensures { result ≡ record (unused units) { held = held.extents; kept = kept.extents; late1 = late1.sets; late2 = late2.sets; spare = result.spare } }
    {
        Units {
            units,
            held,
            born: UnitSet::new(alloc),
            kept,
            came: UnitSet::new(alloc),
            went: UnitSet::new(alloc),
            copies: UnitSet::new(alloc),
            freed: FreedSets::new(alloc),
            late1,
            late2,
            meta: RangeSet::new(alloc),
            saved: RangeSet::new(alloc),
        }
    }

    /// How many units the device has.
    pub fn units(&self) -> u64
        ensures { result ≡ self.now.units }
    {
        self.units
    }

    /// The held units.
    pub fn held(&self) -> &UnitSet
        ensures { result.now.extents ≡ self.now.held }
    {
        &self.held
    }

    /// The held units that the open group allocated.
    pub fn born(&self) -> &UnitSet
        ensures { result.now.extents ≡ self.now.born }
    {
        &self.born
    }

    /// The held units that only the checkpoint has.
    pub fn kept(&self) -> &UnitSet
        ensures { result.now.extents ≡ self.now.kept }
    {
        &self.kept
    }

    /// The held units that have copies of a device that is leaving.
    pub fn copies(&self) -> &UnitSet
        ensures { result.now.extents ≡ self.now.copies }
    {
        &self.copies
    }

    /// The metadata units of the current root.
    pub fn meta(&self) -> &RangeSet
        ensures { result.now.extents ≡ self.now.meta }
    {
        &self.meta
    }

    /// The metadata units of the saved root.
    pub fn saved(&self) -> &RangeSet
        ensures { result.now.extents ≡ self.now.saved }
    {
        &self.saved
    }

    /// What the open group has freed of earlier groups' units.
    pub fn freed(&self) -> &FreedSets
        ensures { result.now.sets ≡ self.now.freed }
    {
        &self.freed
    }

    /// What the last group freed.
    pub fn late1(&self) -> &FreedSets
        ensures { result.now.sets ≡ self.now.late1 }
    {
        &self.late1
    }

    /// What the group before the last freed.
    pub fn late2(&self) -> &FreedSets
        ensures { result.now.sets ≡ self.now.late2 }
    {
        &self.late2
    }

    /// The words of the sets that a space map or a late set records, were each written anew: the held units, the kept
    /// ones three times, and the block units that are freed and not free yet. They are kept, not counted.
    pub fn words(&self, version: u64) -> u64
        requires small { use_count self.now < 2 ^ 40 }
        requires kept { unit_count self.now.kept < 2 ^ 40 }
        ensures words { result ≡ use_words version self.now }
        ensures few { result ≤ use_count self.now + 3 * unit_count self.now.kept }
    {
        self.held.words(version)
            + 3 * self.kept.words(version)
            + self.freed.blocks.words(version)
            + self.late1.blocks.words(version)
            + self.late2.blocks.words(version)
    }

    /// What the open group changed in the held set, as changes by rising place: what it allocated and still has, and what
    /// it freed of earlier groups' blocks. It goes over these, and not over the set.
    pub fn changes(&self, alloc: Global) -> Result<Vec<Change>, NoMemory>
        requires { AreSetsApart self.now.born self.now.freed.blocks }
        ensures { IfOk result (λ cs. IsMerged self.now.born self.now.freed.blocks cs.items) }
    {
        let came = self.born.to_set()?;
        let went = self.freed.blocks.to_set()?;
        merged(alloc, came.extents(), went.extents())
    }

    /// What the open group changed in the kept set, as changes by rising place. It goes over what changed alone.
    pub fn kept_changes(&self, alloc: Global) -> Result<Vec<Change>, NoMemory>
        requires { AreSetsApart self.now.came self.now.went }
        ensures { IfOk result (λ cs. IsMerged self.now.came self.now.went cs.items) }
    {
        let came = self.came.to_set()?;
        let went = self.went.to_set()?;
        merged(alloc, came.extents(), went.extents())
    }

    /// How many units are in use: held, or of metadata.
    pub fn in_use(&self) -> u64
        requires { unit_count self.now.held + unit_count self.now.meta + unit_count self.now.saved ≤ 2 ^ 62 }
        ensures { result ≡ unit_count self.now.held + unit_count self.now.meta + unit_count self.now.saved }
    {
        self.held.units() + self.meta.units() + self.saved.units()
    }

    /// How many units are freed and not free yet.
    pub fn waiting(&self) -> u64
        requires { freed_count self.now.freed + freed_count self.now.late1 + freed_count self.now.late2 ≤ 2 ^ 62 }
        ensures { result ≡ freed_count self.now.freed + freed_count self.now.late1 + freed_count self.now.late2 }
    {
        self.freed.units() + self.late1.units() + self.late2.units()
    }

    /// Makes room, so that frees of `n` units, or so many changes of the sets of blocks, take no memory.
    pub fn reserve(&mut self, n: usize) -> Result<(), NoMemory>
        ensures ok { OnOk result (n ≤ self.new.spare) }
        ensures same { IsSameUses self.old self.new }
        ensures spare { self.old.spare ≤ self.new.spare }
    {
        self.held.reserve(n)?;
        self.born.reserve(n)?;
        self.kept.reserve(n)?;
        self.came.reserve(n)?;
        self.copies.reserve(n)?;
        self.freed.blocks.reserve(n)
    }

    /// Holds units for a block of the open group.
    pub fn hold(&mut self, e: Extent) -> Result<(), NoMemory>
        requires not_empty { 0 < e.len }
        requires in_range { e.start + e.len ≤ 2 ^ 62 }
        requires held { HasNone self.old.held e }
        requires born { HasNone self.old.born e }
        ensures ok { OnOk result (Holds self.old self.new e) }
        ensures err { OnErr result (IsSameUses self.old self.new) }
    {
        self.held.renew()?;
        self.kept.renew()?;
        self.born.renew()?;
        self.came.renew()?;
        self.freed.blocks.renew()?;
        self.held.add_reserved(e);
        self.born.add_reserved(e);
        Ok(())
    }

    /// Holds units for a copy of the open group, for which there is room. It takes no memory.
    pub fn hold_copy(&mut self, e: Extent)
        requires not_empty { 0 < e.len }
        requires in_range { e.start + e.len ≤ 2 ^ 62 }
        requires held { HasNone self.old.held e }
        requires born { HasNone self.old.born e }
        requires copies { HasNone self.old.copies e }
        requires room { 0 < self.old.spare }
        ensures { HoldsCopy self.old self.new e }
    {
        self.held.add_reserved(e);
        self.born.add_reserved(e);
        self.copies.add_reserved(e);
    }

    /// Has units for metadata.
    pub fn hold_meta(&mut self, e: Extent) -> Result<(), NoMemory>
        requires not_empty { 0 < e.len }
        requires in_range { e.start + e.len ≤ 2 ^ 62 }
        requires apart { HasNone self.old.meta e }
        ensures ok { OnOk result (HoldsMeta self.old self.new e) }
        ensures err { OnErr result (IsSameUses self.old self.new) }
    {
        self.meta.add(e)
    }

    /// Gives back metadata of the current root. It is free two commits later.
    pub fn drop_meta(&mut self, e: Extent) -> Result<(), NoMemory>
        requires not_empty { 0 < e.len }
        requires in_range { e.start + e.len ≤ 2 ^ 62 }
        requires there { HasAll self.old.meta e }
        requires apart { HasNone self.old.freed.meta e }
        ensures ok { OnOk result (DropsMeta self.old self.new e) }
        ensures err { OnErr result (IsSameUses self.old self.new) }
    {
        self.freed.meta.reserve(1)?;
        self.meta.remove(e)?;
        self.freed.meta.add_reserved(e);
        Ok(())
    }

    /// Gives back metadata of the saved root.
    pub fn drop_saved(&mut self, e: Extent) -> Result<(), NoMemory>
        requires not_empty { 0 < e.len }
        requires in_range { e.start + e.len ≤ 2 ^ 62 }
        requires there { HasAll self.old.saved e }
        requires apart { HasNone self.old.freed.meta e }
        ensures ok { OnOk result (DropsSaved self.old self.new e) }
        ensures err { OnErr result (IsSameUses self.old self.new) }
    {
        self.freed.meta.reserve(1)?;
        self.saved.remove(e)?;
        self.freed.meta.add_reserved(e);
        Ok(())
    }

    /// Frees held units: those that the open group allocated go back to the allocator, and the others are deferred. The
    /// memory is taken first.
    pub fn free(&mut self, slabs: &mut Slabs, dev: u32, e: Extent) -> Result<(), NoMemory>
        requires device { dev < length slabs.old }
        requires units { units_at slabs.old dev ≡ self.old.units }
        requires not_empty { 0 < e.len }
        requires held { HasAll self.old.held e }
        requires account { IsAccount (free_at slabs.old dev) (count_at slabs.old dev) self.old }
        ensures ok { OnOk result (FreesUnits self.old self.new e) }
        ensures given { OnOk result (FreesBorn self.old.born self.new.born self.old.freed.blocks self.new.freed.blocks slabs.old slabs.new dev e) }
        ensures err { OnErr result (IsSameUses self.old self.new) }
        ensures err_slabs { OnErr result (slabs.new ≡ slabs.old) }
    {
        self.reserve(e.len as usize)?;
        self.free_reserved(slabs, dev, e);
        Ok(())
    }

    /// Frees held units for which there is room. It takes no memory.
    pub fn free_reserved(&mut self, slabs: &mut Slabs, dev: u32, e: Extent)
        requires device { dev < length slabs.old }
        requires units { units_at slabs.old dev ≡ self.old.units }
        requires not_empty { 0 < e.len }
        requires held { HasAll self.old.held e }
        requires room { e.len ≤ self.old.spare }
        requires account { IsAccount (free_at slabs.old dev) (count_at slabs.old dev) self.old }
        ensures frees { FreesUnits self.old self.new e }
        ensures given { FreesBorn self.old.born self.new.born self.old.freed.blocks self.new.freed.blocks slabs.old slabs.new dev e }
        ensures spare { self.old.spare ≤ self.new.spare + e.len }
    {
        self.held.remove_reserved(e);
        free_parts(&mut self.born, &mut self.freed.blocks, slabs, dev, e);
    }

    /// Frees copies for which there is room, as other held units. It takes no memory.
    pub fn free_copies(&mut self, slabs: &mut Slabs, dev: u32, e: Extent)
        requires device { dev < length slabs.old }
        requires units { units_at slabs.old dev ≡ self.old.units }
        requires not_empty { 0 < e.len }
        requires copies { HasAll self.old.copies e }
        requires room { e.len ≤ self.old.spare }
        requires account { IsAccount (free_at slabs.old dev) (count_at slabs.old dev) self.old }
        ensures frees { FreesCopies self.old self.new e }
        ensures given { FreesBorn self.old.born self.new.born self.old.freed.blocks self.new.freed.blocks slabs.old slabs.new dev e }
        ensures spare { self.old.spare ≤ self.new.spare + e.len }
    {
        self.held.remove_reserved(e);
        self.copies.remove_reserved(e);
        free_parts(&mut self.born, &mut self.freed.blocks, slabs, dev, e);
    }

    /// Units that the open group has for a block are for a copy from now on. It takes no memory.
    pub fn turn_copies(&mut self, e: Extent)
        requires not_empty { 0 < e.len }
        requires in_range { e.start + e.len ≤ 2 ^ 62 }
        requires apart { HasNone self.old.copies e }
        requires room { 0 < self.old.spare }
        ensures turns { TurnsCopies self.old self.new e }
    {
        self.copies.add_reserved(e);
    }

    /// Gives up all copies, for which there is room. It takes no memory.
    pub fn give_up_copies(&mut self, slabs: &mut Slabs, dev: u32)
        requires device { dev < length slabs.old }
        requires units { units_at slabs.old dev ≡ self.old.units }
        requires room { unit_count self.old.copies ≤ self.old.spare }
        requires account { IsAccount (free_at slabs.old dev) (count_at slabs.old dev) self.old }
        ensures gives { GivesUpCopies self.old self.new }
        ensures given { GivesUpSet self.old.copies self.old.born self.old.freed.blocks self.new.freed.blocks slabs.old slabs.new dev }
    {
        give_up_parts(
            &mut self.copies,
            &mut self.held,
            &mut self.born,
            &mut self.freed.blocks,
            slabs,
            dev,
        );
    }

    /// Copies are units of blocks like others from now on.
    pub fn take_over(&mut self)
        ensures { IsSameUses (taken_uses self.old) self.new }
    {
        self.copies.clear();
    }

    /// Frees held units of a block that the checkpoint may have: those that the open group allocated go back to the
    /// allocator, and the others are kept. The memory is taken first.
    pub fn keep(&mut self, slabs: &mut Slabs, dev: u32, e: Extent) -> Result<(), NoMemory>
        requires device { dev < length slabs.old }
        requires units { units_at slabs.old dev ≡ self.old.units }
        requires not_empty { 0 < e.len }
        requires held { HasAll self.old.held e }
        requires unkept { HasNone self.old.kept e }
        requires account { IsAccount (free_at slabs.old dev) (count_at slabs.old dev) self.old }
        ensures ok { OnOk result (KeepsUnits self.old self.new e) }
        ensures given { OnOk result (KeepsBorn self.old.held self.new.held self.old.born self.new.born self.old.kept self.new.kept self.old.came self.new.came slabs.old slabs.new dev e) }
        ensures err { OnErr result (IsSameUses self.old self.new) }
        ensures err_slabs { OnErr result (slabs.new ≡ slabs.old) }
    {
        self.reserve(e.len as usize)?;
        self.keep_reserved(slabs, dev, e);
        Ok(())
    }

    /// Frees held units of a block that the checkpoint may have, where there is room for it. It takes no memory.
    pub fn keep_reserved(&mut self, slabs: &mut Slabs, dev: u32, e: Extent)
        requires device { dev < length slabs.old }
        requires units { units_at slabs.old dev ≡ self.old.units }
        requires not_empty { 0 < e.len }
        requires held { HasAll self.old.held e }
        requires unkept { HasNone self.old.kept e }
        requires room { e.len ≤ self.old.spare }
        requires account { IsAccount (free_at slabs.old dev) (count_at slabs.old dev) self.old }
        ensures keeps { KeepsUnits self.old self.new e }
        ensures given { KeepsBorn self.old.held self.new.held self.old.born self.new.born self.old.kept self.new.kept self.old.came self.new.came slabs.old slabs.new dev e }
        ensures spare { self.old.spare ≤ self.new.spare + e.len }
    {
        keep_parts(
            &mut self.held,
            &mut self.born,
            &mut self.kept,
            &mut self.came,
            slabs,
            dev,
            e,
        );
    }

    // Gives up a front of kept units: those that came to them in the open group, or those that did not. It answers how
    // many. An error leaves all as it was.
    fn discard_front(&mut self, e: Extent) -> Result<u64, NoMemory>
        requires not_empty { 0 < e.len }
        requires in_range { e.start + e.len ≤ 2 ^ 62 }
        requires kept { HasAll self.old.kept e }
        requires keeping { IsKeeping self.old }
        requires apart { AreSetsApart self.old.held self.old.freed.blocks }
        ensures ok { IfOk result (λ n. DiscardsUnits self.old self.new (record { start = e.start; len = n })) }
        ensures some { IfOk result (λ n. 0 < n) }
        ensures most { IfOk result (λ n. n ≤ e.len) }
        ensures err { OnErr result (IsSameUses self.old self.new) }
    {
        self.held.reserve(1)?;
        self.kept.reserve(1)?;
        self.came.reserve(1)?;
        self.went.reserve(1)?;
        self.freed.blocks.reserve(1)?;
        let front = uniform_front(&self.came, e);
        self.held.remove_reserved(front.at);
        self.kept.remove_reserved(front.at);
        self.freed.blocks.add_reserved(front.at);
        if front.inside {
            self.came.remove_reserved(front.at);
        } else {
            self.went.add_reserved(front.at);
        }
        Ok(front.at.len)
    }

    /// Gives up kept units: they are deferred, and free two commits later. It takes a change of each set for each run of
    /// them that came to the kept ones in the open group, or did not. After an `Err` some may have been given up.
    pub fn discard(&mut self, e: Extent) -> Result<(), NoMemory>
        requires not_empty { 0 < e.len }
        requires in_range { e.start + e.len ≤ 2 ^ 62 }
        requires kept { HasAll self.old.kept e }
        requires keeping { IsKeeping self.old }
        requires apart { AreSetsApart self.old.held self.old.freed.blocks }
        ensures ok { OnOk result (DiscardsUnits self.old self.new e) }
        ensures err { OnErr result (DiscardsFront self.old self.new e) }
    {
        let end = e.start + e.len;
        let mut at = e.start;
        while at < end {
            let rest = Extent {
                start: at,
                len: end - at,
            };
            at += self.discard_front(rest)?;
        }
        Ok(())
    }

    /// Ages what is freed by one commit. What was late twice goes back to the allocator.
    pub fn age(&mut self, slabs: &mut Slabs, dev: u32)
        requires device { dev < length slabs.old }
        requires units { units_at slabs.old dev ≡ self.old.units }
        requires account { IsAccount (free_at slabs.old dev) (count_at slabs.old dev) self.old }
        ensures aged { IsSameUses (aged_uses self.old) self.new }
        ensures taken { TakesBack slabs.old slabs.new dev (has_freed self.old.late2) (freed_count self.old.late2) }
    {
        self.born.clear();
        self.came.clear();
        self.went.clear();
        self.late2.let_go(slabs, dev);
        mem::swap(&mut self.late2, &mut self.late1);
        mem::swap(&mut self.late1, &mut self.freed);
    }

    /// Lets all that is freed go back to the allocator.
    pub fn reset(&mut self, slabs: &mut Slabs, dev: u32)
        requires device { dev < length slabs.old }
        requires units { units_at slabs.old dev ≡ self.old.units }
        requires account { IsAccount (free_at slabs.old dev) (count_at slabs.old dev) self.old }
        ensures cleared { IsSameUses (cleared_uses self.old) self.new }
        ensures taken { TakesBack slabs.old slabs.new dev (λ u. has_freed self.old.freed u || (has_freed self.old.late1 u || has_freed self.old.late2 u)) (freed_count self.old.freed + freed_count self.old.late1 + freed_count self.old.late2) }
    {
        self.born.clear();
        self.came.clear();
        self.went.clear();
        self.late2.let_go(slabs, dev);
        self.late1.let_go(slabs, dev);
        self.freed.let_go(slabs, dev);
    }

    /// The metadata of the current root is the saved root's from now on. There was no saved root.
    pub fn save(&mut self)
        requires { self.old.saved ≡ [] }
        ensures { IsSameUses (saved_uses self.old) self.new }
    {
        mem::swap(&mut self.meta, &mut self.saved);
    }
}
