//! What a root records of its space, out of the words of all its streams.
//!
//! The words are first dealt out to the devices, by the streams that the state of each has. Mappings are read before
//! logs: a mapping that is not in its form is told first, on whatever device it is.
ghost use Rattle.std.specs.Prelude.{◌≡◌, ◌⊎◌, ℕ, List, ◌<◌, ◌≤◌, ◌^◌, ◌↔◌, IsTrue, IfOk, IfErr, sum_by, length};
ghost use Rattle.std.specs.List.{AllByRecursion};
ghost use Rattle.zr_base.specs.Readers.{Reads};
ghost use Rattle.zr_meta.specs.Heads.{IsHead, stream_count};
ghost use Rattle.zr_meta.specs.Parts.{AreParts, HasMapping, IsCondPart, IsPartsFault, SpellsParts, device_words, devices_words, piece, pieces};

use crate::form::stream_count;
use crate::map::mapping_of;
use crate::part::{DevWords, PartsErr, part_of};
use crate::{CondAt, Head, Stream};
use std::alloc::Global;
use zr_base::{CkptPart, CondPart, DevPart, DevRow, DevState, Items, NoMemory, SpaceParts};

fn copy_words(alloc: Global, words: &[u64]) -> Result<Items<u64>, NoMemory>
    ensures { IfOk result (λ w. w ≡ words.now) }
{
    let copy = Vec::from_slice(alloc, words)?;
    Ok(Items::from_vec(copy))
}

/// The words of each stream.
fn pieces_of(
    alloc: Global,
    streams: &[Stream],
    words: &[u64],
) -> Result<Items<Items<u64>>, NoMemory>
    requires { sum_by (λ s. s.words) streams.now ≤ length words.now }
    ensures { IfOk result (λ ps. ps ≡ pieces streams.now words.now) }
{
    let mut found = Items::new(alloc);
    let mut rest = words;
    let mut left = streams;
    while let Some((s, more)) = left.split_first() {
        let (own, behind) = rest.split_at(s.words as usize);
        found.push(copy_words(alloc, own)?)?;
        rest = behind;
        left = more;
    }
    Ok(found)
}

/// The words of a stream of a device, none where it has no such stream.
fn piece(alloc: Global, pieces: &[Items<u64>], i: usize) -> Result<Items<u64>, NoMemory>
    ensures { IfOk result (λ w. w ≡ piece pieces.now i) }
{
    if i < pieces.len() {
        let words = copy_words(alloc, pieces[i].as_slice())?;
        Ok(words)
    } else {
        Ok(Items::new(alloc))
    }
}

fn device_words(alloc: Global, row: DevRow, own: &[Items<u64>]) -> Result<DevWords, NoMemory>
    ensures { IfOk result (λ w. w ≡ device_words row row.state own.now) }
{
    match row.state {
        DevState::On => Ok(DevWords {
            row,
            held: piece(alloc, own, 0)?,
            kept: piece(alloc, own, 1)?,
            entries: Items::new(alloc),
            counts: Items::new(alloc),
            fresh: Items::new(alloc),
            late1: piece(alloc, own, 2)?,
            late2: piece(alloc, own, 3)?,
        }),
        DevState::Leaving => Ok(DevWords {
            row,
            held: piece(alloc, own, 0)?,
            kept: piece(alloc, own, 1)?,
            entries: piece(alloc, own, 2)?,
            counts: piece(alloc, own, 3)?,
            fresh: piece(alloc, own, 4)?,
            late1: piece(alloc, own, 5)?,
            late2: piece(alloc, own, 6)?,
        }),
        DevState::Gone => Ok(DevWords {
            row,
            held: Items::new(alloc),
            kept: Items::new(alloc),
            entries: piece(alloc, own, 0)?,
            counts: piece(alloc, own, 1)?,
            fresh: piece(alloc, own, 2)?,
            late1: Items::new(alloc),
            late2: Items::new(alloc),
        }),
    }
}

fn devices_words(
    alloc: Global,
    form: u64,
    table: &[DevRow],
    pieces: &[Items<u64>],
) -> Result<Items<DevWords>, NoMemory>
    requires { sum_by (λ r. stream_count form r.state) table.now ≤ length pieces.now }
    ensures { IfOk result (λ ws. ws ≡ devices_words form table.now pieces.now) }
{
    let mut found = Items::new(alloc);
    let mut rest = pieces;
    let mut left = table;
    while let Some((row, rows)) = left.split_first() {
        let (own, behind) = rest.split_at(stream_count(form, row.state));
        found.push(device_words(alloc, *row, own)?)?;
        rest = behind;
        left = rows;
    }
    Ok(found)
}

/// Whether the mapping of each device is in its form.
fn are_mappings(alloc: Global, words: &[DevWords]) -> Result<bool, NoMemory>
    ensures { IfOk result (λ all. IsTrue all ↔ AllByRecursion HasMapping words.now) }
{
    for w in words {
        let found = mapping_of(alloc, w.entries.as_slice(), w.counts.as_slice())?;
        if found.is_none() {
            return Ok(false);
        }
    }
    Ok(true)
}

/// What the words of the devices record of them, None exactly where those of one are in no form.
fn device_parts(
    alloc: Global,
    words: &[DevWords],
    ckpt: CkptPart,
    version: u64,
) -> Result<Option<Items<DevPart>>, NoMemory>
    requires version { (version ≡ 1) ⊎ (version ≡ 2) }
    requires few { length words.now ≤ 32 }
    requires units { AllByRecursion (λ w. w.row.units ≤ 2 ^ 36) words.now }
    ensures { IfOk result (Reads (AreParts version ckpt 0 words.now)) }
{
    let mut parts = Items::new(alloc);
    for (dev, w) in words.iter().enumerate() {
        match part_of(alloc, w, ckpt, version, dev as u32) {
            Ok(p) => parts.push(p)?,
            Err(PartsErr::Rule(_)) => return Ok(None),
            Err(PartsErr::NoMemory) => return Err(NoMemory),
        }
    }
    Ok(Some(parts))
}

/// What the words of the last two streams record of what is condensed, None exactly where they are in no form.
fn cond_part(
    alloc: Global,
    cond: Option<CondAt>,
    pieces: &[Items<u64>],
) -> Result<Option<Option<CondPart>>, NoMemory>
    ensures { IfOk result (Reads (IsCondPart cond pieces.now)) }
{
    let Some(at) = cond else {
        return Ok(Some(None));
    };
    let entries = piece(alloc, pieces, pieces.len().saturating_sub(2))?;
    let counts = piece(alloc, pieces, pieces.len().saturating_sub(1))?;
    let Some(m) = mapping_of(alloc, entries.as_slice(), counts.as_slice())? else {
        return Ok(None);
    };
    Ok(Some(Some(CondPart {
        dev: at.dev,
        at: at.at,
        entries: m.entries,
        counts: m.counts,
    })))
}

/// What a head and the words of its streams, in their order, record of the space of a pool of a version. Rule 1 is
/// broken where entries or counts are not in their form, and else rule 2 where a log or a late set is not in its form or
/// goes past its device, a kept unit is not held, or one is kept without a checkpoint. The time is that of replaying the
/// logs, and the words are held twice meanwhile.
pub fn parts_of(
    alloc: Global,
    h: &Head,
    table: &[DevRow],
    words: &[u64],
    version: u64,
) -> Result<SpaceParts, PartsErr>
    requires head { IsHead table.now h.now }
    requires version { (version ≡ 1) ⊎ (version ≡ 2) }
    requires count { length words.now ≡ sum_by (λ s. s.words) h.now.streams }
    requires few { length table.now ≤ 32 }
    requires units { AllByRecursion (λ r. r.units ≤ 2 ^ 36) table.now }
    ensures parts { IfOk result (SpellsParts version table.now h.now words.now) }
    ensures fault { IfErr result (IsPartsFault version table.now h.now words.now) }
{
    let pieces = pieces_of(alloc, h.streams.as_slice(), words)?;
    let devices = devices_words(alloc, h.form, table, pieces.as_slice())?;
    if !are_mappings(alloc, devices.as_slice())? {
        return Err(PartsErr::Rule(1));
    }
    let Some(cond) = cond_part(alloc, h.cond, pieces.as_slice())? else {
        return Err(PartsErr::Rule(1));
    };
    let Some(devs) = device_parts(alloc, devices.as_slice(), h.ckpt, version)? else {
        return Err(PartsErr::Rule(2));
    };
    Ok(SpaceParts {
        version,
        devs,
        cond,
        ckpt: h.ckpt,
    })
}
