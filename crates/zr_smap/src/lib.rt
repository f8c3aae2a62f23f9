//! Space maps: sets of units as logs of words.
//!
//! A set that changes a little in every transaction group is recorded as a log of changes, each a run of units that is
//! taken or given back. A change of up to 32,768 units is one word; from version 2 on a longer one is two, as in
//! OpenZFS. To read a set is to replay its log. When a log has grown to much more than the set itself needs, the set is
//! written anew: its extents alone, cut into the longest runs that the version spells.
#![tactic(auto)]

ghost use Rattle.std.specs.Prelude.{◌≡◌, ◌⊎◌, ℕ, ◌+◌, ◌*◌, ◌<◌, ◌≤◌, ◌^◌, ◌↔◌, ◌++◌, ◌∷◌, [], List, true, false, length, IsTrue, IfOk, IfSome, IfNone, OnOk};
ghost use Rattle.std.specs.List.{AllByRecursion};
ghost use Rattle.zr_base.specs.declared.space.Change.{Change};
ghost use Rattle.zr_base.specs.Extents.{has_unit, IsMaximal};
ghost use Rattle.zr_rules.specs.Logs.{change_words, IsChange, SpellsChanges, IsReplay, IsInTurn, IsAnew, longest_run};
ghost use Rattle.zr_rules.specs.Owed.{set_words};
ghost use Rattle.zr_smap.specs.Spellings.{SpellsNothing, IsRun};
ghost use Rattle.zr_smap.specs.Cuts.{IsInReach, PutsRun, AreCutWords};

mod laws;

pub use laws::{a_set_can_be_written_anew, a_set_written_anew_replays, words_of_a_changed_set};
use std::alloc::Global;
use zr_base::{Change, Extent, NoMemory};
use zr_ranges::RangeSet;

/// The longest run, in units, that one word has.
const SHORT: u64 = 32_768;

/// The least word that is one of two.
const LONG: u64 = 1 << 63;

/// The words of changes, for the map of a device.
pub fn words_of(
    alloc: Global,
    changes: &[Change],
    version: u64,
    dev: u32,
) -> Result<Vec<u64>, NoMemory>
    requires version { (version ≡ 1) ⊎ (version ≡ 2) }
    requires dev { dev < 32 }
    requires lawful { AllByRecursion (IsChange version) changes.now }
    ensures { IfOk result (λ w. SpellsChanges version dev w.items changes.now) }
{
    let mut words = Vec::new(alloc);
    let mut rest = changes;
    while let Some((change, tail)) = rest.split_first() {
        put_change(&mut words, *change, dev)?;
        rest = tail;
    }
    Ok(words)
}

// Adds the words of a change.
fn put_change(words: &mut Vec<u64>, change: Change, dev: u32) -> Result<(), NoMemory>
    requires dev { dev < 32 }
    requires some { 1 ≤ change.at.len }
    requires most { change.at.len ≤ 2 ^ 36 }
    requires place { change.at.start < 2 ^ 47 }
    ensures { OnOk result (words.new.items ≡ words.old.items ++ change_words dev change) }
{
    let run = change.at.len - 1;
    let free = if change.free { 1 } else { 0 };
    if change.at.len <= SHORT {
        words.push((change.at.start << 16) + (free << 15) + run)?;
    } else {
        words.push((3 << 62) + (run << 24) + dev as u64)?;
        words.push((free << 63) + change.at.start)?;
    }
    Ok(())
}

/// The changes that words spell, None exactly where a word is no entry.
pub fn changes_of(
    alloc: Global,
    words: &[u64],
    version: u64,
    dev: u32,
) -> Result<Option<Vec<Change>>, NoMemory>
    requires version { (version ≡ 1) ⊎ (version ≡ 2) }
    requires dev { dev < 32 }
    ensures some { IfOk result (λ o. IfSome o (λ cs. SpellsChanges version dev words.now cs.items)) }
    ensures none { IfOk result (λ o. IfNone o (SpellsNothing version dev words.now)) }
{
    let mut changes = Vec::new(alloc);
    let mut rest = words;
    while let Some((word, tail)) = rest.split_first() {
        if *word < LONG {
            changes.push(short_change(*word))?;
            rest = tail;
            continue;
        }
        if version == 1 {
            return Ok(None);
        }
        let Some((second, after)) = tail.split_first() else {
            return Ok(None);
        };
        let Some(change) = long_change(*word, *second, dev) else {
            return Ok(None);
        };
        changes.push(change)?;
        rest = after;
    }
    Ok(Some(changes))
}

// The change of one word.
fn short_change(word: u64) -> Change
    requires { word < 2 ^ 63 }
    ensures words { (dev : ℕ) → change_words dev result ≡ word ∷ [] }
    ensures lawful { (version : ℕ) → (version ≡ 1) ⊎ (version ≡ 2) → IsChange version result }
{
    Change {
        free: word / SHORT % 2 == 1,
        at: Extent {
            start: word / (2 * SHORT),
            len: word % SHORT + 1,
        },
    }
}

// The change of two words, of which the first is no short one.
fn long_change(word: u64, second: u64, dev: u32) -> Option<Change>
    requires dev { dev < 32 }
    requires long { 2 ^ 63 ≤ word }
    ensures words { IfSome result (λ c. change_words dev c ≡ word ∷ second ∷ []) }
    ensures lawful { IfSome result (IsChange 2) }
    ensures none { IfNone result ((c : Change) → IsChange 2 c → change_words dev c ≡ word ∷ second ∷ [] → ⊥) }
{
    let run = word % (1 << 60) >> 24;
    let start = second % LONG;
    if word >> 60 != 12 {
        return None;
    }
    if word % (1 << 24) != dev as u64 {
        return None;
    }
    if run < SHORT {
        return None;
    }
    if start >= 1 << 47 {
        return None;
    }
    Some(Change {
        free: second >= LONG,
        at: Extent {
            start,
            len: run + 1,
        },
    })
}

/// The set that changes leave. None exactly where one takes a unit that is taken, or gives back one that is not. Each
/// change costs a search in the set, and the move of the extents above it.
pub fn replay(alloc: Global, changes: &[Change]) -> Result<Option<RangeSet>, NoMemory>
    requires { AllByRecursion IsRun changes.now }
    ensures some { IfOk result (λ o. IfSome o (λ s. IsReplay changes.now s.extents)) }
    ensures none { IfOk result (λ o. IfNone o (((u : ℕ) → IsInTurn false changes.now u) → ⊥)) }
{
    let mut set = RangeSet::new(alloc);
    let mut rest = changes;
    while let Some((change, tail)) = rest.split_first() {
        let at = change.at;
        rest = tail;
        if change.free {
            if !set.covers(at) {
                return Ok(None);
            }
            set.remove(at)?;
            continue;
        }
        if !set.is_apart(at) {
            return Ok(None);
        }
        set.add(at)?;
    }
    Ok(Some(set))
}

/// The words of a set that is written anew, for the map of a device.
pub fn condensed(
    alloc: Global,
    set: &RangeSet,
    version: u64,
    dev: u32,
) -> Result<Vec<u64>, NoMemory>
    requires version { (version ≡ 1) ⊎ (version ≡ 2) }
    requires dev { dev < 32 }
    requires reach { IsInReach version set.now.extents }
    ensures anew { IfOk result (λ w. IsAnew version dev set.now.extents w.items) }
    ensures words { IfOk result (λ w. length w.items ≡ set_words version set.now.extents) }
{
    cut_words(alloc, set.extents(), longest(version), dev)
}

// The longest run that the version spells as one change.
fn longest(version: u64) -> u64
    ensures value { result ≡ longest_run version }
    ensures some { 0 < result }
    ensures most { result ≤ 2 ^ 36 }
{
    if version == 1 { SHORT } else { 1 << 36 }
}

// The words of extents, each cut from its front.
fn cut_words(alloc: Global, extents: &[Extent], most: u64, dev: u32) -> Result<Vec<u64>, NoMemory>
    requires dev { dev < 32 }
    requires some { 0 < most }
    requires most { most ≤ 2 ^ 36 }
    requires maximal { IsMaximal extents.now }
    requires reach { (u : ℕ) → has_unit extents.now u ≡ true → u < 2 ^ 47 }
    ensures { IfOk result (λ w. AreCutWords most dev extents.now w.items) }
{
    let mut words = Vec::new(alloc);
    let mut rest = extents;
    while let Some((extent, tail)) = rest.split_first() {
        put_run(&mut words, *extent, most, dev)?;
        rest = tail;
    }
    Ok(words)
}

// Adds the words of an extent, cut from its front.
fn put_run(words: &mut Vec<u64>, run: Extent, most: u64, dev: u32) -> Result<(), NoMemory>
    requires dev { dev < 32 }
    requires some { 0 < most }
    requires most { most ≤ 2 ^ 36 }
    requires place { run.start + run.len ≤ 2 ^ 47 }
    ensures { OnOk result (PutsRun words.old.items words.new.items most dev run) }
{
    let end = run.start + run.len;
    let mut at = run.start;
    while at < end {
        let piece = Extent {
            start: at,
            len: most.min(end - at),
        };
        let change = Change {
            free: false,
            at: piece,
        };
        put_change(words, change, dev)?;
        at += piece.len;
    }
    Ok(())
}

/// Whether a log of `old` words is written anew, with `anew` words, rather than that `added` words are appended.
pub fn needs_anew(old: u64, added: u64, anew: u64) -> bool
    requires old { old < 2 ^ 40 }
    requires added { added < 2 ^ 40 }
    requires anew { anew < 2 ^ 40 }
    ensures { IsTrue result ↔ (2 * anew + 512 < old + added) }
{
    old + added > 2 * anew + 512
}
