//! The obsolete units of a removed device.
//!
//! When a pointer to a removed device is freed, the units that it passed are obsolete: no pointer passes them any more.
//! Marking must be cheap, so new marks go into a set, the fresh obsolete units. When a mapping is condensed they are
//! folded into a count for each entry, and an entry whose count is its length can be left out for good.
#![tactic(auto)]

ghost use Rattle.std.specs.Prelude.{◌≡◌, ℕ, ◌+◌, ◌*◌, ◌/◌, ◌^◌, ◌<◌, ◌≤◌, [], length, true, OnOk, OnErr, IsOk, slice_index};
ghost use Rattle.zr_base.specs.Extents.{AddsUnits, HasNone, has_unit, unit_count};
ghost use Rattle.zr_rules.specs.Mappings.{entry_at, has_source, mapped_units};
ghost use Rattle.zr_rules.specs.Condense.{folded, fresh_units};
ghost use Rattle.zr_obsolete.specs.Obsolete.{LiesIn, Fits, percent_of};

use std::alloc::Global;
use std::marker::Model;
use zr_base::{Entry, Extent, NoMemory};
use zr_imap::Imap;
use zr_paged::UnitSet;

/// The fresh obsolete units of a device, and how many units of each entry of its mapping were counted as obsolete.
#[derive(Drop)]
pub struct Obsolete {
    fresh: UnitSet,
    counts: Vec<u32>,
}

impl Model for Obsolete {
    ghost use Rattle.zr_obsolete.specs.Obsolete.{Marks};

    ghost Value = { Marks };

    ghost view = { λ o. record { fresh = o.fresh.extents; spare = o.fresh.spare; counts = o.counts.items } };
}

impl Obsolete {
    /// Of these fresh units and counts.
    pub fn new(fresh: UnitSet, counts: Vec<u32>) -> Obsolete
        ensures fresh { result.fresh ≡ fresh.extents }
        ensures counts { result.counts ≡ counts.items }
    {
        Obsolete { fresh, counts }
    }

    /// The fresh obsolete units.
    pub fn fresh(&self) -> &UnitSet
        ensures { result.now.extents ≡ self.now.fresh }
    {
        &self.fresh
    }

    /// The count of each entry, in order.
    pub fn counts(&self) -> &[u32]
        ensures { result.now ≡ self.now.counts }
    {
        self.counts.as_slice()
    }

    /// Marks units that are not fresh. Logarithmic in the extents.
    pub fn mark(&mut self, e: Extent) -> Result<(), NoMemory>
        requires not_empty { 0 < e.len }
        requires in_range { e.start + e.len ≤ 2 ^ 62 }
        requires apart { HasNone self.old.fresh e }
        ensures ok { OnOk result (AddsUnits self.old.fresh self.new.fresh e) }
        ensures err { OnErr result (self.new.fresh ≡ self.old.fresh) }
        ensures counts { self.new.counts ≡ self.old.counts }
        ensures room { 0 < self.old.spare → IsOk result }
        ensures spare { self.old.spare ≤ self.new.spare + 1 }
    {
        self.fresh.add(e)
    }

    /// Makes room, so that the next `n` marks take no memory.
    pub fn reserve(&mut self, n: usize) -> Result<(), NoMemory>
        ensures ok { OnOk result (n ≤ self.new.spare) }
        ensures fresh { self.new.fresh ≡ self.old.fresh }
        ensures counts { self.new.counts ≡ self.old.counts }
        ensures spare { self.old.spare ≤ self.new.spare }
    {
        self.fresh.reserve(n)
    }

    /// Marks units for which there is room. It takes no memory.
    pub fn mark_reserved(&mut self, e: Extent)
        requires not_empty { 0 < e.len }
        requires in_range { e.start + e.len ≤ 2 ^ 62 }
        requires apart { HasNone self.old.fresh e }
        requires room { 0 < self.old.spare }
        ensures marked { AddsUnits self.old.fresh self.new.fresh e }
        ensures counts { self.new.counts ≡ self.old.counts }
        ensures spare { self.old.spare ≤ self.new.spare + 1 }
    {
        self.fresh.add_reserved(e);
    }

    /// Folds the fresh units into the counts. It takes no memory, and a look-up for each entry and for each fresh extent.
    pub fn fold(&mut self, map: &Imap)
        requires count { length self.old.counts ≡ length map.now.entries }
        requires fits { Fits map.now.entries self.old.counts self.old.fresh }
        ensures counts { self.new.counts ≡ folded map.now.entries self.old.counts self.old.fresh }
        ensures fresh { self.new.fresh ≡ [] }
    {
        fold_counts(&mut self.counts, &self.fresh, map);
        self.fresh.clear();
    }

    /// 100 times the fresh units by the units of the mapping, rounded down, and 0 for an empty mapping.
    pub fn percent(&self, map: &Imap) -> u64
        requires within { LiesIn self.now.fresh map.now.entries }
        ensures { result ≡ percent_of map.now.entries self.now.fresh }
    {
        let mapped = map.units();
        if mapped == 0 {
            return 0;
        }
        let _first = self.fresh.first();
        let fresh = self.fresh.units() as u128;
        (100 * fresh / mapped as u128) as u64
    }
}

/// Adds to each count the fresh units of its entry. It takes no memory, and a look-up for each entry and for each fresh
/// extent.
pub fn fold_counts(counts: &mut Vec<u32>, fresh: &UnitSet, map: &Imap)
    requires count { length counts.old.items ≡ length map.now.entries }
    requires fits { Fits map.now.entries counts.old.items fresh.now.extents }
    ensures { counts.new.items ≡ folded map.now.entries counts.old.items fresh.now.extents }
{
    for i in 0..map.len() {
        let added = fresh_in(fresh, map.entry(i));
        counts[i] += added;
    }
}

/// How many fresh units the source of an entry has. It takes a look-up for each extent of them.
pub fn fresh_in(fresh: &UnitSet, e: Entry) -> u32
    requires { e.src + e.len ≤ 2 ^ 62 }
    ensures units { result ≡ fresh_units fresh.now.extents e }
{
    let end = e.src + e.len as u64;
    let mut at = e.src;
    let mut count = 0;
    while at < end {
        let Some(part) = fresh.first_from(at) else {
            return count;
        };
        if part.start >= end {
            return count;
        }
        let n = part.len.min(end - part.start);
        count += n as u32;
        at = part.start + n;
    }
    count
}

#[cfg(test)]
mod tests {
    use super::*;
    use std::test::Fail;

    #[test]
    fn two_of_five_units(rt: HostRuntime) -> Result<(), Fail> {
        let mut map = Imap::new(rt.alloc());
        map.push(Entry {
            src: 10,
            dev: 1,
            dst: 7,
            len: 3,
        })?;
        map.push(Entry {
            src: 13,
            dev: 2,
            dst: 0,
            len: 2,
        })?;
        let counts = vec![in rt.alloc(); 0u32, 0]?;
        let mut obsolete = Obsolete::new(UnitSet::new(rt.alloc()), counts);
        obsolete.mark(Extent { start: 10, len: 2 })?;
        assert_eq!(rt; obsolete.percent(&map), 40);
        obsolete.fold(&map);
        assert_eq!(rt; obsolete.counts(), [2, 0].as_slice());
        assert!(rt; obsolete.fresh().is_empty());
        Ok(())
    }
}
