//! The words that a commit writes: what a log gains, and the late sets.
//!
//! The space tells its changes as maximal extents. A version may have no word for so long a run, so each is cut from its
//! front first.
ghost use Rattle.std.specs.Prelude.{◌≡◌, ◌⊎◌, ◌+◌, ◌^◌, ◌<◌, ◌≤◌, ℕ, List, length, IfOk, OnOk};
ghost use Rattle.std.specs.List.{AllByRecursion};
ghost use Rattle.zr_commit.specs.Logs.{is_long};
ghost use Rattle.zr_meta.specs.Heads.{IsStream};
ghost use Rattle.zr_meta.specs.Streams.{late_list};
ghost use Rattle.zr_meta.specs.declared.Stream.{Stream};
ghost use Rattle.zr_base.specs.Extents.{IsMaximal};
ghost use Rattle.zr_base.specs.declared.space.Change.{Change};
ghost use Rattle.zr_rules.specs.Logs.{IsAnew, IsChange, IsLate, longest_run};
ghost use Rattle.zr_rules.specs.Owed.{set_words};
ghost use Rattle.zr_rules.specs.Places.{part_of, units_of_dev};
ghost use Rattle.zr_rules.specs.Space.{IsLawful, opened_of};
ghost use Rattle.zr_units.specs.Differences.{Replays};
ghost use Rattle.zr_sync.specs.Anew.{AreAnew};
ghost use Rattle.zr_sync.specs.Words.{AddsCut, HasRoomFor, IsLastLog, IsLogNow, IsRun, AreFreed, ReplaysAs, log_has, log_set, log_was, words_then};

use std::alloc::Global;
use zr_base::{Change, Extent, NoMemory};
use zr_meta::{Stream, late_words};
use zr_ranges::RangeSet;
use zr_smap::{condensed, words_of};
use zr_space::{FreedSets, SetKind, Space};

/// The logs of a device: that of its held units, that of those which only the checkpoint has, and that of the obsolete
/// units which are not counted in its mapping yet. A set that the device has not is empty.
#[derive(Clone, Copy, PartialEq, Eq, Debug)]
pub enum Log {
    Held,
    Kept,
    Fresh,
}

/// What becomes of a log.
#[derive(Drop)]
pub enum LogWords {
    /// Nothing was added, and it stays.
    Stays,
    /// These words are appended.
    Grows(Vec<u64>),
    /// Its set is written anew.
    Anew(Vec<u64>),
}

// The longest run, in units, that the version spells as one change.
fn longest(version: u64) -> u64
    ensures value { result ≡ longest_run version }
    ensures some { 0 < result }
{
    if version == 1 { 32_768 } else { 1 << 36 }
}

// Adds a change, cut from its front into runs of at most so many units.
fn put_cut(cut: &mut Vec<Change>, change: &Change, version: u64) -> Result<(), NoMemory>
    requires run { IsRun change.now.at }
    requires lawful { AllByRecursion (IsChange version) cut.old.items }
    ensures lawful { AllByRecursion (IsChange version) cut.new.items }
    ensures cut { OnOk result (AddsCut cut.old.items cut.new.items change.now) }
{
    let most = longest(version);
    let end = change.at.start + change.at.len;
    let mut start = change.at.start;
    while start < end {
        let len = most.min(end - start);
        cut.push(Change {
            free: change.free,
            at: Extent { start, len },
        })?;
        start += len;
    }
    Ok(())
}

// The changes, each cut from its front.
fn cut_changes(alloc: Global, changes: &[Change], version: u64) -> Result<Vec<Change>, NoMemory>
    requires { AllByRecursion (λ (c : Change). IsRun c.at) changes.now }
    ensures lawful { IfOk result (λ cut. AllByRecursion (IsChange version) cut.items) }
    ensures replays { IfOk result (λ cut. ReplaysAs changes.now cut.items) }
{
    let mut cut = Vec::new(alloc);
    let mut rest = changes;
    while let Some((change, tail)) = rest.split_first() {
        put_cut(&mut cut, change, version)?;
        rest = tail;
    }
    Ok(cut)
}

// Whether a log is written anew, with so many words, rather than that words are added.
fn is_long(words: u64, added: usize, anew: u64) -> bool
    requires words { words ≤ 2 ^ 34 }
    requires added { added < 2 ^ 63 }
    requires anew { anew ≤ 2 ^ 34 }
    ensures { result ≡ is_long words added anew }
{
    2 * anew + 512 < words + added as u64
}

// The set of these extents.
fn set_from(alloc: Global, extents: &[Extent]) -> Result<RangeSet, NoMemory>
    requires { IsMaximal extents.now }
    ensures { IfOk result (λ set. set.extents ≡ extents.now) }
{
    let mut set = RangeSet::new(alloc);
    for e in extents {
        set.add(*e)?;
    }
    Ok(set)
}

// The obsolete units of a device that are not counted yet.
fn fresh_set(alloc: Global, space: &Space, dev: u32) -> Result<RangeSet, NoMemory>
    requires dev { dev < length space.now.parts.devs }
    requires lawful { IsLawful space.now }
    ensures { IfOk result (λ set. set.extents ≡ (part_of space.now.parts.devs dev).fresh) }
{
    let extents = space.moves(dev).fresh(alloc)?;
    set_from(alloc, extents.as_slice())
}

// The held units of a device, in one array.
fn held_set(space: &Space, dev: u32) -> Result<RangeSet, NoMemory>
    requires { dev < length space.now.parts.devs }
    ensures { IfOk result (λ set. set.extents ≡ (part_of space.now.parts.devs dev).held) }
{
    space.held(dev).to_set()
}

// The kept units of a device, in one array.
fn kept_set(space: &Space, dev: u32) -> Result<RangeSet, NoMemory>
    requires { dev < length space.now.parts.devs }
    ensures { IfOk result (λ set. set.extents ≡ (part_of space.now.parts.devs dev).kept) }
{
    space.kept(dev).to_set()
}

// The words of the set of a log, were it written anew. It goes over the set.
fn anew_of(
    alloc: Global,
    space: &Space,
    dev: u32,
    log: Log,
    version: u64,
) -> Result<Vec<u64>, NoMemory>
    requires dev { dev < length space.now.parts.devs }
    requires few { length space.now.parts.devs ≤ 32 }
    requires version { (version ≡ 1) ⊎ (version ≡ 2) }
    requires lawful { IsLawful space.now }
    requires small { units_of_dev space.now.parts.devs dev ≤ 2 ^ 26 }
    ensures anew { IfOk result (λ words. IsAnew version dev (log_set log (part_of space.now.parts.devs dev)) words.items) }
    ensures words { IfOk result (λ words. length words.items ≡ set_words version (log_set log (part_of space.now.parts.devs dev))) }
    ensures few { IfOk result (λ words. length words.items ≤ 2 ^ 26) }
{
    match log {
        Log::Held => {
            let held = held_set(space, dev)?;
            condensed(alloc, &held, version, dev)
        }
        Log::Kept => {
            let kept = kept_set(space, dev)?;
            condensed(alloc, &kept, version, dev)
        }
        Log::Fresh => {
            let fresh = fresh_set(alloc, space, dev)?;
            condensed(alloc, &fresh, version, dev)
        }
    }
}

// How many words the set of a log has, were it written anew. They are kept, and no set is gone over.
fn anew_len(space: &Space, dev: u32, log: Log, version: u64) -> u64
    requires { dev < length space.now.parts.devs }
    ensures { result ≡ set_words version (log_set log (part_of space.now.parts.devs dev)) }
{
    match log {
        Log::Held => space.held(dev).words(version),
        Log::Kept => space.kept(dev).words(version),
        Log::Fresh => space.moves(dev).fresh_words(version),
    }
}

// What a log gains.
fn changes_of(space: &Space, dev: u32, log: Log) -> Result<Vec<Change>, NoMemory>
    requires dev { dev < length space.now.parts.devs }
    requires lawful { IsLawful space.now }
    requires small { units_of_dev space.now.parts.devs dev ≤ 2 ^ 26 }
    ensures runs { IfOk result (λ changes. AllByRecursion (λ (c : Change). IsRun c.at) changes.items) }
    ensures replays { IfOk result (λ changes. Replays (log_was log space.now dev) (log_has log space.now dev) changes.items) }
{
    match log {
        Log::Held => space.changes(dev, SetKind::Held),
        Log::Kept => space.changes(dev, SetKind::Kept),
        Log::Fresh => space.changes(dev, SetKind::Fresh),
    }
}

/// What the open group makes of a log of a device. It goes over what changed, and over the set where that is written anew.
pub fn log_words(
    alloc: Global,
    space: &Space,
    old: &Stream,
    dev: u32,
    log: Log,
    version: u64,
) -> Result<LogWords, NoMemory>
    requires dev { dev < length space.now.parts.devs }
    requires few { length space.now.parts.devs ≤ 32 }
    requires version { (version ≡ 1) ⊎ (version ≡ 2) }
    requires lawful { IsLawful space.now }
    requires small { units_of_dev space.now.parts.devs dev ≤ 2 ^ 26 }
    requires stream { IsStream old.now }
    ensures room { IfOk result (HasRoomFor old.now) }
    ensures log { (had : List ℕ) → length had ≡ old.now.words → IsLastLog version space.now dev log had → IfOk result (λ words. IsLogNow version space.now dev log (words_then had words)) }
{
    let changes = changes_of(space, dev, log)?;
    let cut = cut_changes(alloc, changes.as_slice(), version)?;
    let added = words_of(alloc, cut.as_slice(), version, dev)?;
    if added.is_empty() {
        return Ok(LogWords::Stays);
    }
    let anew = anew_len(space, dev, log, version);
    if is_long(old.words, added.len(), anew) {
        let words = anew_of(alloc, space, dev, log, version)?;
        return Ok(LogWords::Anew(words));
    }
    Ok(LogWords::Grows(added))
}

/// What becomes of a log whose set is written anew, whatever changed. It goes over the set.
pub fn anew_words(
    alloc: Global,
    space: &Space,
    dev: u32,
    log: Log,
    version: u64,
) -> Result<LogWords, NoMemory>
    requires dev { dev < length space.now.parts.devs }
    requires few { length space.now.parts.devs ≤ 32 }
    requires version { (version ≡ 1) ⊎ (version ≡ 2) }
    requires lawful { IsLawful space.now }
    requires small { units_of_dev space.now.parts.devs dev ≤ 2 ^ 26 }
    ensures room { (old : Stream) → IfOk result (HasRoomFor old) }
    ensures log { (had : List ℕ) → IfOk result (λ words. IsLogNow version space.now dev log (words_then had words)) }
    ensures anew { IfOk result (AreAnew version space.now dev log) }
{
    let anew = anew_of(alloc, space, dev, log, version)?;
    Ok(LogWords::Anew(anew))
}

// The words of a late set.
fn words_of_late(
    alloc: Global,
    freed: &FreedSets,
    dev: u32,
    version: u64,
) -> Result<Vec<u64>, NoMemory>
    requires dev { dev < 32 }
    requires version { (version ≡ 1) ⊎ (version ≡ 2) }
    requires freed { AreFreed freed.now.sets }
    ensures few { IfOk result (λ words. length words.items ≤ 2 ^ 34) }
    ensures late { IfOk result (λ words. IsLate version dev words.items (late_list freed.now.sets.blocks freed.now.sets.meta)) }
{
    let blocks = freed.blocks().to_set()?;
    let meta = freed.meta().to_set()?;
    let _blocks = blocks.extents();
    let _meta = meta.extents();
    late_words(alloc, &blocks, &meta, version, dev)
}

/// The words of the next root's first late set of a device: what the open group freed.
pub fn first_late_words(
    alloc: Global,
    space: &Space,
    dev: u32,
    version: u64,
) -> Result<Vec<u64>, NoMemory>
    requires dev { dev < length space.now.parts.devs }
    requires few { length space.now.parts.devs ≤ 32 }
    requires version { (version ≡ 1) ⊎ (version ≡ 2) }
    requires lawful { IsLawful space.now }
    requires small { units_of_dev space.now.parts.devs dev ≤ 2 ^ 26 }
    ensures few { IfOk result (λ words. length words.items ≤ 2 ^ 34) }
    ensures late { IfOk result (λ words. IsLate version dev words.items (late_list (opened_of space.now dev).deferred (opened_of space.now dev).dropped)) }
{
    words_of_late(alloc, space.freed(dev), dev, version)
}

/// The words of the next root's second late set of a device: what the group of the last root freed.
pub fn second_late_words(
    alloc: Global,
    space: &Space,
    dev: u32,
    version: u64,
) -> Result<Vec<u64>, NoMemory>
    requires dev { dev < length space.now.parts.devs }
    requires few { length space.now.parts.devs ≤ 32 }
    requires version { (version ≡ 1) ⊎ (version ≡ 2) }
    requires lawful { IsLawful space.now }
    requires small { units_of_dev space.now.parts.devs dev ≤ 2 ^ 26 }
    ensures few { IfOk result (λ words. length words.items ≤ 2 ^ 34) }
    ensures late { IfOk result (λ words. IsLate version dev words.items (part_of space.now.parts.devs dev).late1) }
{
    words_of_late(alloc, space.late1(dev), dev, version)
}
