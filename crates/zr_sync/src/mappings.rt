//! The words of a mapping, which a commit writes as two streams: that of its entries and that of their counts.
//!
//! A mapping mostly grows at its end, so what was written before stays and the words of the new entries are appended.
//! Where something else of it changed, its streams are written anew.
ghost use Rattle.std.specs.Prelude.{◌≡◌, ◌++◌, ◌+◌, ◌-◌, ◌*◌, ◌≤◌, ◌^◌, ℕ, List, drop, false, true, length, IfOk};
ghost use Rattle.std.specs.List.{AllByRecursion, flat_map};
ghost use Rattle.zr_meta.specs.Heads.{IsStream};
ghost use Rattle.zr_rules.specs.Logs.{IsStorable, entry_words};
ghost use Rattle.zr_sync.specs.Mappings.{HasFirst, IsEnd, IsSpelled, count_in, mapping_words, words_for};
ghost use Rattle.zr_sync.specs.Words.{HasRoomFor, words_then};

use crate::words::LogWords;
use std::alloc::Global;
use zr_base::{CondPart, DevState, Entry, NoMemory};
use zr_condense::Condense;
use zr_indirect::Mapping;
use zr_meta::Stream;

/// The two streams of a mapping: its entries, and how many units of each are obsolete.
#[derive(Clone, Copy, PartialEq, Eq, Debug)]
pub enum MappingStream {
    Entries,
    Counts,
}

/// The most entries whose words a stream can have: more than any device has units.
const MOST_ENTRIES: usize = 1 << 32;

// The words of an entry, where it can be spelled.
fn entry_words(e: &Entry) -> [u64; 3]
    ensures { IsStorable e.now → result ≡ entry_words e.now }
{
    let length = 8 * u64::from(e.len);
    let address = length.wrapping_add((1 << 32) * u64::from(e.dev));
    [8u64.wrapping_mul(e.src), address, 8u64.wrapping_mul(e.dst)]
}

// The words of entries, one behind the other.
fn words_of_entries(alloc: Global, entries: &[Entry]) -> Result<Vec<u64>, NoMemory>
    ensures count { IfOk result (λ words. length words.items ≡ 3 * length entries.now) }
    ensures words { AllByRecursion IsStorable entries.now → IfOk result (λ words. words.items ≡ flat_map entry_words entries.now) }
{
    let mut words = Vec::new(alloc);
    for entry in entries {
        words.extend_from_slice(&entry_words(entry))?;
    }
    Ok(words)
}

// The words of counts.
fn words_of_counts(alloc: Global, counts: &[u32]) -> Result<Vec<u64>, NoMemory>
    ensures { IfOk result (λ words. words.items ≡ counts.now) }
{
    let mut words = Vec::new(alloc);
    for count in counts {
        words.push(u64::from(*count))?;
    }
    Ok(words)
}

// The entries of a mapping from an index on. It costs what it answers.
fn entries_from(alloc: Global, moves: &Mapping, from: usize) -> Result<Vec<Entry>, NoMemory>
    requires { from ≤ length moves.now.entries }
    ensures { IfOk result (λ tail. tail.items ≡ drop from moves.now.entries) }
{
    moves.lawful();
    let mut tail = Vec::new(alloc);
    let Some(map) = moves.map() else {
        return Ok(tail);
    };
    for i in from..map.len() {
        tail.push(map.entry(i))?;
    }
    Ok(tail)
}

// Their counts, which are 0 until the device is gone. It costs what it answers.
fn counts_from(alloc: Global, moves: &Mapping, from: usize) -> Result<Vec<u32>, NoMemory>
    requires { from ≤ length moves.now.entries }
    ensures tail { IfOk result (λ tail. tail.items ≡ drop from moves.now.counts) }
    ensures each { length moves.now.counts ≡ length moves.now.entries }
{
    moves.lawful();
    if moves.state() == DevState::Gone {
        let tail = Vec::from_slice(alloc, &moves.gone_counts()[from..])?;
        return Ok(tail);
    }
    let entries = match moves.map() {
        None => 0,
        Some(map) => map.len(),
    };
    let tail = vec![in alloc; 0; entries - from]?;
    Ok(tail)
}

// How many entries a mapping has.
fn entry_count(moves: &Mapping) -> usize
    ensures { result ≡ length moves.now.entries }
{
    moves.lawful();
    match moves.map() {
        None => 0,
        Some(map) => map.len(),
    }
}

// The entry from which on the words of a stream are written, and whether it is written anew.
#[derive(Clone, Copy)]
struct Plan {
    anew: bool,
    from: usize,
}

// How a stream comes to have the words of so many entries. One that has more words than these is written anew too. Where
// there are more entries than any device has units, no stream could have their words.
fn plan_of(old: &Stream, which: MappingStream, entries: usize, anew: bool) -> Result<Plan, NoMemory>
    ensures few { IfOk result (λ plan. entries ≤ 2 ^ 32) }
    ensures within { IfOk result (λ plan. plan.from ≤ entries) }
    ensures anew { IfOk result (λ plan. plan.anew ≡ true → plan.from ≡ 0) }
    ensures grows { IfOk result (λ plan. plan.anew ≡ false → (anew ≡ false) × IsEnd which old.now.words plan.from) }
{
    if entries > MOST_ENTRIES {
        return Err(NoMemory);
    }
    let had = match which {
        MappingStream::Entries => old.words / 3,
        MappingStream::Counts => old.words,
    };
    if anew || had > entries as u64 {
        return Ok(Plan {
            anew: true,
            from: 0,
        });
    }
    Ok(Plan {
        anew: false,
        from: had as usize,
    })
}

// What becomes of a stream to which these words come.
fn becomes(anew: bool, words: Vec<u64>) -> LogWords
    ensures anew { anew ≡ true → result ≡ LogWords.Anew words }
    ensures grows { anew ≡ false → (had : List ℕ) → words_then had result ≡ had ++ words.items }
    ensures room { (old : Stream) → (anew ≡ false → old.words + length words.items ≤ 2 ^ 34) → length words.items ≤ 2 ^ 34 → HasRoomFor old result }
{
    if anew {
        return LogWords::Anew(words);
    }
    if words.is_empty() {
        return LogWords::Stays;
    }
    LogWords::Grows(words)
}

// The words of a stream of a mapping from an entry on. It costs what it answers.
fn words_from(
    alloc: Global,
    moves: &Mapping,
    which: MappingStream,
    from: usize,
) -> Result<Vec<u64>, NoMemory>
    requires { from ≤ length moves.now.entries }
    ensures count { IfOk result (λ words. length words.items ≡ words_for which (length moves.now.entries - from)) }
    ensures words { IsSpelled moves.now.entries moves.now.counts → IfOk result (λ words. words.items ≡ mapping_words which (drop from moves.now.entries) (drop from moves.now.counts)) }
{
    match which {
        MappingStream::Entries => {
            let entries = entries_from(alloc, moves, from)?;
            words_of_entries(alloc, entries.as_slice())
        }
        MappingStream::Counts => {
            let counts = counts_from(alloc, moves, from)?;
            words_of_counts(alloc, counts.as_slice())
        }
    }
}

/// What becomes of a stream of a device's mapping. It costs the entries that are new, or all of them where the stream is
/// written anew.
pub fn mapping_grows(
    alloc: Global,
    moves: &Mapping,
    old: &Stream,
    which: MappingStream,
    anew: bool,
) -> Result<LogWords, NoMemory>
    ensures room { IfOk result (HasRoomFor old.now) }
    ensures words { IsSpelled moves.now.entries moves.now.counts → (had : List ℕ) → length had ≡ old.now.words → (anew ≡ false → HasFirst which moves.now.entries moves.now.counts had) → IfOk result (λ words. words_then had words ≡ mapping_words which moves.now.entries moves.now.counts) }
{
    let plan = plan_of(old, which, entry_count(moves), anew)?;
    let words = words_from(alloc, moves, which, plan.from)?;
    Ok(becomes(plan.anew, words))
}

// How many entries or counts a condensing has kept.
fn count_in(part: &CondPart, which: MappingStream) -> usize
    ensures { result ≡ count_in which part.now.entries part.now.counts }
{
    match which {
        MappingStream::Entries => part.entries.len(),
        MappingStream::Counts => part.counts.len(),
    }
}

// The words of a stream of a condensing from an entry on.
fn part_words(
    alloc: Global,
    part: &CondPart,
    which: MappingStream,
    from: usize,
) -> Result<Vec<u64>, NoMemory>
    requires { from ≤ count_in which part.now.entries part.now.counts }
    ensures count { IfOk result (λ words. length words.items ≡ words_for which (count_in which part.now.entries part.now.counts - from)) }
    ensures words { IsSpelled part.now.entries part.now.counts → IfOk result (λ words. words.items ≡ mapping_words which (drop from part.now.entries) (drop from part.now.counts)) }
{
    match which {
        MappingStream::Entries => words_of_entries(alloc, &part.entries.as_slice()[from..]),
        MappingStream::Counts => words_of_counts(alloc, &part.counts.as_slice()[from..]),
    }
}

/// What becomes of a stream of a condensing. It goes over all that the condensing has kept.
pub fn cond_grows(
    alloc: Global,
    cond: &Condense,
    old: &Stream,
    which: MappingStream,
    anew: bool,
) -> Result<LogWords, NoMemory>
    ensures room { IfOk result (HasRoomFor old.now) }
    ensures words { IsSpelled cond.now.entries cond.now.counts → (had : List ℕ) → length had ≡ old.now.words → (anew ≡ false → HasFirst which cond.now.entries cond.now.counts had) → IfOk result (λ words. words_then had words ≡ mapping_words which cond.now.entries cond.now.counts) }
{
    let part = cond.part()?;
    let plan = plan_of(old, which, count_in(&part, which), anew)?;
    let words = part_words(alloc, &part, which, plan.from)?;
    Ok(becomes(plan.anew, words))
}
