//! The words of a mapping: three for each entry, and one for each count.
//!
//! The order of the entries, and whether a count fits its entry, are for who checks the root: here a word is only told
//! from what is none.
ghost use Rattle.std.specs.Prelude.{◌≡◌, ◌↔◌, ◌≤◌, IsTrue, IfOk, length};
ghost use Rattle.zr_base.specs.Readers.{Reads};
ghost use Rattle.zr_rules.specs.Logs.{IsStorable, SpellsCounts, SpellsEntries, entry_words};
ghost use Rattle.zr_meta.specs.Streams.{SpellsEntry, SpellsEachEntry, SpellsMapping};

use std::alloc::Global;
use zr_base::{Entry, Items, NoMemory};

/// A mapping: its entries, and how many units of each are obsolete.
#[derive(Drop)]
pub struct Mapping {
    pub entries: Items<Entry>,
    pub counts: Items<u32>,
}

fn is_storable(e: Entry) -> bool
    ensures { IsTrue result ↔ IsStorable e }
{
    e.src < 1 << 60 && 0 < e.len && e.len < 1 << 21 && e.dev < 1 << 24 && e.dst < 1 << 60
}

/// The words of an entry.
fn entry_words(e: Entry) -> [u64; 3]
    requires { IsStorable e }
    ensures { result ≡ entry_words e }
{
    let address = 8 * u64::from(e.len) + (1 << 32) * u64::from(e.dev);
    [8 * e.src, address, 8 * e.dst]
}

/// The entry that three words spell, None exactly where they spell none.
fn entry_of(piece: &[u64; 3]) -> Option<Entry>
    ensures { Reads (SpellsEntry piece.now) result }
{
    let e = Entry {
        src: piece[0] / 8,
        dev: (piece[1] / (1 << 32)) as u32,
        dst: piece[2] / 8,
        len: (piece[1] % (1 << 32) / 8) as u32,
    };
    if !is_storable(e) {
        return None;
    }
    if entry_words(e) != *piece {
        return None;
    }
    Some(e)
}

fn each_of(alloc: Global, pieces: &[[u64; 3]]) -> Result<Option<Items<Entry>>, NoMemory>
    ensures { IfOk result (Reads (SpellsEachEntry pieces.now)) }
{
    let mut entries = Items::new(alloc);
    for piece in pieces {
        let Some(e) = entry_of(piece) else {
            return Ok(None);
        };
        entries.push(e)?;
    }
    Ok(Some(entries))
}

/// The entries that the words of a stream spell, None exactly where they spell none.
pub fn entries_of(alloc: Global, words: &[u64]) -> Result<Option<Items<Entry>>, NoMemory>
    ensures { IfOk result (Reads (SpellsEntries words.now)) }
{
    if words.len() % 3 != 0 {
        return Ok(None);
    }
    let (pieces, _) = words.as_chunks::<3>();
    let found = each_of(alloc, pieces)?;
    Ok(found)
}

/// The counts that the words of a stream spell, None exactly where a word is none.
pub fn counts_of(alloc: Global, words: &[u64]) -> Result<Option<Items<u32>>, NoMemory>
    ensures { IfOk result (Reads (SpellsCounts words.now)) }
{
    let mut counts = Items::new(alloc);
    for word in words {
        if *word >= 1 << 32 {
            return Ok(None);
        }
        counts.push(*word as u32)?;
    }
    Ok(Some(counts))
}

/// The mapping that the words of its two streams spell, None exactly where they spell none or there are not as many
/// counts as entries.
pub fn mapping_of(
    alloc: Global,
    entries: &[u64],
    counts: &[u64],
) -> Result<Option<Mapping>, NoMemory>
    ensures { IfOk result (Reads (SpellsMapping entries.now counts.now)) }
{
    let Some(entries) = entries_of(alloc, entries)? else {
        return Ok(None);
    };
    let Some(counts) = counts_of(alloc, counts)? else {
        return Ok(None);
    };
    if entries.len() != counts.len() {
        return Ok(None);
    }
    Ok(Some(Mapping { entries, counts }))
}
