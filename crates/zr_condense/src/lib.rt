//! Condensing a mapping.
//!
//! The mapping of a removed device stays as long as the pool, but entries of which every unit is obsolete are of no use
//! any more. Condensing works through the entries in order, some at each step, and keeps those that still have a unit
//! in use. At its end the kept entries are the new mapping. Beside the old mapping it holds no more than what it keeps,
//! and what it has kept can be recorded at any commit and taken up again.
#![tactic(auto)]

ghost use Rattle.std.specs.Prelude.{◌≡◌, ℕ, ◌+◌, ◌≤◌, ◌<◌, ◌↔◌, [], length, map, min, take, IfOk, OnOk, OnErr, IsTrue};
ghost use Rattle.std.specs.List.{zip};
ghost use Rattle.zr_rules.specs.Condense.{condensed};
ghost use Rattle.zr_rules.specs.Mappings.{IsRising};
ghost use Rattle.zr_rules.specs.Steps.{next_kept, worked};
ghost use Rattle.zr_condense.specs.Condensing.{HasWorked};

mod laws;

pub use laws::leads_as_before;
use std::alloc::Global;
use std::marker::Model;
use zr_base::{CondPart, Entry, Items, NoMemory};
use zr_imap::Imap;

/// A condensing that goes on: its device, the entries worked through, and those kept with their counts.
#[derive(Drop)]
pub struct Condense {
    alloc: Global,
    dev: u32,
    at: usize,
    kept: Imap,
    counts: Vec<u32>,
}

impl Model for Condense {
    ghost use Rattle.zr_base.specs.declared.space.CondPart.{CondPart};
    ghost use Rattle.std.specs.Prelude.{◌≡◌, length};

    ghost Value = { CondPart };

    ghost view = { λ c. record { dev = c.dev; at = c.at; entries = c.kept.entries; counts = c.counts.items } };

    ghost invariant = { λ c. length c.counts.items ≡ length c.kept.entries };
}

impl Condense {
    /// Nothing worked through yet. It takes no memory.
    pub fn begin(alloc: Global, dev: u32) -> Condense
        ensures { result ≡ record { dev = dev; at = 0; entries = []; counts = [] } }
    {
        Condense {
            alloc,
            dev,
            at: 0,
            kept: Imap::new(alloc),
            counts: Vec::new(alloc),
        }
    }

    /// Goes on from a record.
    pub fn resume(alloc: Global, part: &CondPart) -> Result<Condense, NoMemory>
        requires rising { IsRising part.now.entries }
        requires each { length part.now.counts ≡ length part.now.entries }
        ensures { IfOk result (λ c. c ≡ part.now) }
    {
        let kept = Imap::from_entries(alloc, part.entries.as_slice())?;
        let counts = Vec::from_slice(alloc, part.counts.as_slice())?;
        Ok(Condense {
            alloc,
            dev: part.dev,
            at: part.at as usize,
            kept,
            counts,
        })
    }

    /// The record from which it can go on.
    pub fn part(&self) -> Result<CondPart, NoMemory>
        ensures { IfOk result (λ part. part ≡ self.now) }
    {
        let entries = self.kept.to_entries(self.alloc)?;
        let counts = Vec::from_slice(self.alloc, self.counts.as_slice())?;
        Ok(CondPart {
            dev: self.dev,
            at: self.at as u64,
            entries,
            counts: Items::from_vec(counts),
        })
    }

    /// How many entries are worked through.
    pub fn at(&self) -> u64
        ensures { result ≡ self.now.at }
    {
        self.at as u64
    }

    /// The device whose mapping is condensed.
    pub fn dev(&self) -> u32
        ensures { result ≡ self.now.dev }
    {
        self.dev
    }

    /// Whether all entries of the mapping are worked through.
    pub fn done(&self, map: &Imap) -> bool
        ensures { IsTrue result ↔ (length map.now.entries ≤ self.now.at) }
    {
        self.at >= map.len()
    }

    /// Works through the next `n` entries, or all that are left, and answers how many of them it kept. An entry whose
    /// count is its length is left out. After an `Err` it serves for nothing more.
    pub fn step(&mut self, map: &Imap, counts: &[u32], n: usize) -> Result<usize, NoMemory>
        requires count { length counts.now ≡ length map.now.entries }
        requires worked { HasWorked map.now.entries counts.now self.old }
        ensures worked { OnOk result (HasWorked map.now.entries counts.now self.new) }
        ensures at { OnOk result (self.new.at ≡ min (self.old.at + n) (length map.now.entries)) }
        ensures kept { IfOk result (λ kept. length self.new.entries ≡ length self.old.entries + kept) }
        ensures next { n ≡ 64 → OnOk result (self.new ≡ worked map.now.entries counts.now self.old) }
        ensures stay { n ≡ 64 → IfOk result (λ kept. kept ≡ length (next_kept map.now.entries counts.now self.old)) }
        ensures dev { self.new.dev ≡ self.old.dev }
    {
        let left = map.len() - self.at;
        let end = self.at + n.min(left);
        let mut kept = 0;
        while self.at < end {
            if self.work(map, counts)? {
                kept += 1;
            }
        }
        Ok(kept)
    }

    /// Works through one entry, and answers whether it was kept.
    fn work(&mut self, map: &Imap, counts: &[u32]) -> Result<bool, NoMemory>
        requires count { length counts.now ≡ length map.now.entries }
        requires worked { HasWorked map.now.entries counts.now self.old }
        requires more { self.old.at < length map.now.entries }
        ensures worked { OnOk result (HasWorked map.now.entries counts.now self.new) }
        ensures at { OnOk result (self.new.at ≡ self.old.at + 1) }
        ensures kept { IfOk result (λ kept. IsTrue kept → length self.new.entries ≡ length self.old.entries + 1) }
        ensures left_out { IfOk result (λ kept. (IsTrue kept → ⊥) → length self.new.entries ≡ length self.old.entries) }
        ensures dev { self.new.dev ≡ self.old.dev }
    {
        let entry = map.entry(self.at);
        let count = counts[self.at];
        if count == entry.len {
            self.at += 1;
            return Ok(false);
        }
        self.counts.reserve(1)?;
        self.kept.push(entry)?;
        match self.counts.push(count) {
            Ok(()) => {}
            Err(_) => unreachable!(),
        }
        self.at += 1;
        Ok(true)
    }

    /// The kept entries as the new mapping, and their counts.
    pub fn finish(self) -> (Imap, Vec<u32>)
        ensures entries { result.0.entries ≡ self.entries }
        ensures counts { result.1.items ≡ self.counts }
    {
        (self.kept, self.counts)
    }
}

#[cfg(test)]
mod tests {
    use super::*;
    use std::test::Fail;

    const FIRST: Entry = Entry {
        src: 10,
        dev: 1,
        dst: 7,
        len: 3,
    };

    const SECOND: Entry = Entry {
        src: 13,
        dev: 2,
        dst: 0,
        len: 2,
    };

    #[test]
    fn one_of_two_is_kept(rt: HostRuntime) -> Result<(), Fail> {
        let map = Imap::from_entries(rt.alloc(), [FIRST, SECOND].as_slice())?;
        let counts = [2u32, 2];
        let mut condense = Condense::begin(rt.alloc(), 0);
        assert_eq!(rt; condense.step(&map, counts.as_slice(), 64)?, 1);
        assert!(rt; condense.done(&map));
        let (kept, left) = condense.finish();
        assert_eq!(rt; kept.len(), 1);
        assert_eq!(rt; left.as_slice(), [2].as_slice());
        Ok(())
    }

    #[test]
    fn what_was_kept_is_taken_up_again(rt: HostRuntime) -> Result<(), Fail> {
        let map = Imap::from_entries(rt.alloc(), [FIRST, SECOND].as_slice())?;
        let mut entries = Items::new(rt.alloc());
        entries.push(FIRST)?;
        let mut kept = Items::new(rt.alloc());
        kept.push(2u32)?;
        let part = CondPart {
            dev: 0,
            at: 1,
            entries,
            counts: kept,
        };
        let counts = [2u32, 2];
        let mut condense = Condense::resume(rt.alloc(), &part)?;
        assert_eq!(rt; condense.at(), 1);
        let again = condense.part()?;
        assert_eq!(rt; again.entries.as_slice(), [FIRST].as_slice());
        assert_eq!(rt;
            (again.dev, again.at, again.counts.as_slice()),
            (0, 1, [2].as_slice())
        );
        assert_eq!(rt; condense.step(&map, counts.as_slice(), 64)?, 0);
        assert!(rt; condense.done(&map));
        Ok(())
    }
}
