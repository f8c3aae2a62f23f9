//! From a line of a script to its command.
//!
//! Every reader here answers None exactly where the words behind its keyword are outside the grammar. The words are
//! parts of the line itself: only what a command keeps, its names, paths and bytes, is copied, once.
ghost use Rattle.std.specs.Prelude.{◌≡◌, ◌∷◌, [], IfOk, IsTrue, map, codes};
ghost use Rattle.zr_base.specs.Readers.{Reads};
ghost use Rattle.zr_script.specs.Words.{is_path};
ghost use Rattle.zr_script.specs.Grammar.{IsLine, IsCommand, IsArguments, IsCreate, IsCreateOld, IsCreateNew, IsPool, IsImport, IsMake, IsDrop, IsWrite, IsFill, IsPunch, IsRead, IsSum, IsAdd, IsRemove, IsCheckpoint, IsStep, IsMap, IsAlone, keyword_of, pool_keyword_of, step_keyword_of, words_of};

use crate::command::{Command, Keyword};
use crate::words::{are_paths, is_name, is_path, parse_byte, parse_guid, parse_hex, parse_number};
use std::alloc::Global;
use zr_base::{Blob, Items, NoMemory};

/// The most bytes of a line, without its line feed.
pub const MAX_LINE: usize = 16384;

/// Reads a line without its line feed. It answers None exactly where the line is outside the grammar. The time is
/// linear in the bytes of the line.
pub fn parse_line(alloc: Global, line: &[u8]) -> Result<Option<Command>, NoMemory>
    ensures { IfOk result (Reads (IsLine line.now)) }
{
    if line.len() > MAX_LINE {
        return Ok(None);
    }
    let words = split_words(alloc, line)?;
    parse_words(alloc, words.as_slice())
}

fn split_words(alloc: Global, line: &[u8]) -> Result<Vec<&[u8]>, NoMemory>
    ensures { IfOk result (λ words. map (λ w. w.now) words.items ≡ words_of line.now) }
{
    let words = line.split(|byte| *byte == b' ').collect(alloc)?;
    Ok(words)
}

fn parse_words(alloc: Global, words: &[&[u8]]) -> Result<Option<Command>, NoMemory>
    ensures { IfOk result (Reads (IsCommand (map (λ w. w.now) words.now))) }
{
    let Some((first, others)) = words.split_first() else {
        return Ok(None);
    };
    parse_arguments(alloc, keyword(first), others)
}

fn parse_arguments(
    alloc: Global,
    keyword: Option<Keyword>,
    others: &[&[u8]],
) -> Result<Option<Command>, NoMemory>
    ensures { IfOk result (Reads (IsArguments keyword (map (λ w. w.now) others.now))) }
{
    match keyword {
        None => Ok(None),
        Some(Keyword::CreateWord) => parse_create(alloc, others),
        Some(Keyword::ImportWord) => Ok(parse_import(others)),
        Some(Keyword::ExportWord) => Ok(parse_alone(others, Command::Export)),
        Some(Keyword::MakeWord) => Ok(parse_make(others)),
        Some(Keyword::DropWord) => Ok(parse_drop(others)),
        Some(Keyword::WriteWord) => parse_write(alloc, others),
        Some(Keyword::FillWord) => Ok(parse_fill(others)),
        Some(Keyword::PunchWord) => Ok(parse_punch(others)),
        Some(Keyword::ReadWord) => Ok(parse_read(others)),
        Some(Keyword::SumWord) => Ok(parse_sum(others)),
        Some(Keyword::SyncWord) => Ok(parse_alone(others, Command::Sync)),
        Some(Keyword::AddWord) => parse_add(alloc, others),
        Some(Keyword::RemoveWord) => parse_remove(alloc, others),
        Some(Keyword::CheckpointWord) => Ok(parse_checkpoint(others)),
        Some(Keyword::StepWord) => Ok(parse_step(others)),
        Some(Keyword::ListWord) => Ok(parse_alone(others, Command::List)),
        Some(Keyword::StatusWord) => Ok(parse_alone(others, Command::Status)),
        Some(Keyword::MapWord) => Ok(parse_map(others)),
        Some(Keyword::AuditWord) => Ok(parse_alone(others, Command::Audit)),
        Some(Keyword::UpgradeWord) => Ok(parse_alone(others, Command::Upgrade)),
        Some(Keyword::QuitWord) => Ok(parse_alone(others, Command::Quit)),
    }
}

/// The keyword that a word is.
#[tactic(auto, unfolding(crate::specs::Grammar::keyword_of))]
fn keyword(word: &[u8]) -> Option<Keyword>
    ensures { result ≡ keyword_of word.now }
{
    if word == b"make".as_slice() {
        Some(Keyword::MakeWord)
    } else if word == b"drop".as_slice() {
        Some(Keyword::DropWord)
    } else if word == b"write".as_slice() {
        Some(Keyword::WriteWord)
    } else if word == b"fill".as_slice() {
        Some(Keyword::FillWord)
    } else if word == b"punch".as_slice() {
        Some(Keyword::PunchWord)
    } else if word == b"read".as_slice() {
        Some(Keyword::ReadWord)
    } else if word == b"sum".as_slice() {
        Some(Keyword::SumWord)
    } else {
        pool_keyword(word)
    }
}

/// The keyword that a word is, where it begins no line on objects.
#[tactic(auto, unfolding(crate::specs::Grammar::pool_keyword_of))]
fn pool_keyword(word: &[u8]) -> Option<Keyword>
    ensures { result ≡ pool_keyword_of word.now }
{
    if word == b"create".as_slice() {
        Some(Keyword::CreateWord)
    } else if word == b"import".as_slice() {
        Some(Keyword::ImportWord)
    } else if word == b"export".as_slice() {
        Some(Keyword::ExportWord)
    } else if word == b"sync".as_slice() {
        Some(Keyword::SyncWord)
    } else if word == b"add".as_slice() {
        Some(Keyword::AddWord)
    } else if word == b"remove".as_slice() {
        Some(Keyword::RemoveWord)
    } else if word == b"checkpoint".as_slice() {
        Some(Keyword::CheckpointWord)
    } else {
        step_keyword(word)
    }
}

/// The keyword that a word is, where it begins no line on objects, devices or roots.
#[tactic(auto, unfolding(crate::specs::Grammar::step_keyword_of))]
fn step_keyword(word: &[u8]) -> Option<Keyword>
    ensures { result ≡ step_keyword_of word.now }
{
    if word == b"step".as_slice() {
        Some(Keyword::StepWord)
    } else if word == b"list".as_slice() {
        Some(Keyword::ListWord)
    } else if word == b"status".as_slice() {
        Some(Keyword::StatusWord)
    } else if word == b"map".as_slice() {
        Some(Keyword::MapWord)
    } else if word == b"audit".as_slice() {
        Some(Keyword::AuditWord)
    } else if word == b"upgrade".as_slice() {
        Some(Keyword::UpgradeWord)
    } else if word == b"quit".as_slice() {
        Some(Keyword::QuitWord)
    } else {
        None
    }
}

/// Reads a line that has its keyword alone.
fn parse_alone(words: &[&[u8]], command: Command) -> Option<Command>
    ensures { Reads (IsAlone command (map (λ w. w.now) words.now)) result }
{
    if words.is_empty() {
        Some(command)
    } else {
        None
    }
}

/// What `create` says of the new pool.
#[derive(Drop)]
struct NewPool {
    name: Blob,
    guid: u64,
    devs: Items<Blob>,
}

fn parse_pool(alloc: Global, words: &[&[u8]]) -> Result<Option<NewPool>, NoMemory>
    ensures { IfOk result (Reads (λ p. IsPool (map (λ w. w.now) words.now) p.name p.guid p.devs)) }
{
    let [name, number, devs @ ..] = words else {
        return Ok(None);
    };
    if !is_name(name) || !are_paths(devs) {
        return Ok(None);
    }
    let Some(guid) = parse_guid(number) else {
        return Ok(None);
    };
    let name = Blob::copy_of(alloc, name)?;
    let devs = copy_all(alloc, devs)?;
    Ok(Some(NewPool { name, guid, devs }))
}

fn copy_all(alloc: Global, words: &[&[u8]]) -> Result<Items<Blob>, NoMemory>
    ensures { IfOk result (λ blobs. blobs ≡ map (λ w. w.now) words.now) }
{
    let mut blobs = Items::new(alloc);
    for word in words {
        blobs.push(Blob::copy_of(alloc, word)?)?;
    }
    Ok(blobs)
}

fn parse_create(alloc: Global, words: &[&[u8]]) -> Result<Option<Command>, NoMemory>
    ensures { IfOk result (Reads (IsCreate (map (λ w. w.now) words.now))) }
{
    let Some((first, others)) = words.split_first() else {
        return Ok(None);
    };
    if *first == b"-1".as_slice() {
        parse_create_old(alloc, others)
    } else {
        parse_create_new(alloc, words)
    }
}

/// Reads what stands behind `create -1`.
fn parse_create_old(alloc: Global, words: &[&[u8]]) -> Result<Option<Command>, NoMemory>
    ensures { IfOk result (Reads (IsCreateOld (map (λ w. w.now) words.now))) }
{
    let Some(pool) = parse_pool(alloc, words)? else {
        return Ok(None);
    };
    Ok(Some(Command::CreateOld {
        name: pool.name,
        guid: pool.guid,
        devs: pool.devs,
    }))
}

/// Reads what stands behind `create` where that is not `-1`.
fn parse_create_new(alloc: Global, words: &[&[u8]]) -> Result<Option<Command>, NoMemory>
    ensures { IfOk result (Reads (IsCreateNew (map (λ w. w.now) words.now))) }
{
    let Some(pool) = parse_pool(alloc, words)? else {
        return Ok(None);
    };
    Ok(Some(Command::Create {
        name: pool.name,
        guid: pool.guid,
        devs: pool.devs,
    }))
}

fn parse_import(words: &[&[u8]]) -> Option<Command>
    ensures { Reads (IsImport (map (λ w. w.now) words.now)) result }
{
    match words {
        [] => Some(Command::Import),
        [word] => {
            if *word == b"rewind".as_slice() {
                Some(Command::ImportRewind)
            } else {
                None
            }
        }
        [word, txg] => {
            if *word == b"txg".as_slice() {
                parse_import_txg(txg)
            } else {
                None
            }
        }
        _ => None,
    }
}

/// Reads the one word behind `import txg`.
fn parse_import_txg(word: &[u8]) -> Option<Command>
    ensures { Reads (IsImport (codes "txg" ∷ word.now ∷ [])) result }
{
    let Some(txg) = parse_number(word) else {
        return None;
    };
    Some(Command::ImportTxg { txg })
}

fn parse_make(words: &[&[u8]]) -> Option<Command>
    ensures { Reads (IsMake (map (λ w. w.now) words.now)) result }
{
    let [id, units] = words else {
        return None;
    };
    let Some(id) = parse_number(id) else {
        return None;
    };
    let Some(units) = parse_number(units) else {
        return None;
    };
    Some(Command::Make { id, units })
}

fn parse_drop(words: &[&[u8]]) -> Option<Command>
    ensures { Reads (IsDrop (map (λ w. w.now) words.now)) result }
{
    let [id] = words else {
        return None;
    };
    let Some(id) = parse_number(id) else {
        return None;
    };
    Some(Command::Drop { id })
}

fn parse_write(alloc: Global, words: &[&[u8]]) -> Result<Option<Command>, NoMemory>
    ensures { IfOk result (Reads (IsWrite (map (λ w. w.now) words.now))) }
{
    let [id, off, bytes] = words else {
        return Ok(None);
    };
    let Some(id) = parse_number(id) else {
        return Ok(None);
    };
    let Some(off) = parse_number(off) else {
        return Ok(None);
    };
    let Some(bytes) = parse_hex(alloc, bytes)? else {
        return Ok(None);
    };
    Ok(Some(Command::Write { id, off, bytes }))
}

fn parse_fill(words: &[&[u8]]) -> Option<Command>
    ensures { Reads (IsFill (map (λ w. w.now) words.now)) result }
{
    let [id, off, len, byte] = words else {
        return None;
    };
    let Some(id) = parse_number(id) else {
        return None;
    };
    let Some(off) = parse_number(off) else {
        return None;
    };
    let Some(len) = parse_number(len) else {
        return None;
    };
    let Some(byte) = parse_byte(byte) else {
        return None;
    };
    Some(Command::Fill { id, off, len, byte })
}

fn parse_punch(words: &[&[u8]]) -> Option<Command>
    ensures { Reads (IsPunch (map (λ w. w.now) words.now)) result }
{
    let [id, off, len] = words else {
        return None;
    };
    let Some(id) = parse_number(id) else {
        return None;
    };
    let Some(off) = parse_number(off) else {
        return None;
    };
    let Some(len) = parse_number(len) else {
        return None;
    };
    Some(Command::Punch { id, off, len })
}

fn parse_read(words: &[&[u8]]) -> Option<Command>
    ensures { Reads (IsRead (map (λ w. w.now) words.now)) result }
{
    let [id, off, len] = words else {
        return None;
    };
    let Some(id) = parse_number(id) else {
        return None;
    };
    let Some(off) = parse_number(off) else {
        return None;
    };
    let Some(len) = parse_number(len) else {
        return None;
    };
    Some(Command::Read { id, off, len })
}

fn parse_sum(words: &[&[u8]]) -> Option<Command>
    ensures { Reads (IsSum (map (λ w. w.now) words.now)) result }
{
    let [id] = words else {
        return None;
    };
    let Some(id) = parse_number(id) else {
        return None;
    };
    Some(Command::Sum { id })
}

fn parse_add(alloc: Global, words: &[&[u8]]) -> Result<Option<Command>, NoMemory>
    ensures { IfOk result (Reads (IsAdd (map (λ w. w.now) words.now))) }
{
    let [word] = words else {
        return Ok(None);
    };
    let Some(dev) = parse_path(alloc, word)? else {
        return Ok(None);
    };
    Ok(Some(Command::Add { dev }))
}

fn parse_remove(alloc: Global, words: &[&[u8]]) -> Result<Option<Command>, NoMemory>
    ensures { IfOk result (Reads (IsRemove (map (λ w. w.now) words.now))) }
{
    match words {
        [word] => parse_remove_one(alloc, word),
        [word, path] => {
            if *word == b"-n".as_slice() {
                parse_estimate(alloc, path)
            } else {
                Ok(None)
            }
        }
        _ => Ok(None),
    }
}

/// Reads the one word behind `remove`, a device or `-s`.
fn parse_remove_one(alloc: Global, word: &[u8]) -> Result<Option<Command>, NoMemory>
    ensures { IfOk result (Reads (IsRemove (word.now ∷ []))) }
{
    if word == b"-s".as_slice() {
        return Ok(Some(Command::Cancel));
    }
    let Some(dev) = parse_path(alloc, word)? else {
        return Ok(None);
    };
    Ok(Some(Command::Remove { dev }))
}

/// Reads the one word behind `remove -n`.
fn parse_estimate(alloc: Global, word: &[u8]) -> Result<Option<Command>, NoMemory>
    ensures { IfOk result (Reads (IsRemove (codes "-n" ∷ word.now ∷ []))) }
{
    let Some(dev) = parse_path(alloc, word)? else {
        return Ok(None);
    };
    Ok(Some(Command::Estimate { dev }))
}

fn parse_checkpoint(words: &[&[u8]]) -> Option<Command>
    ensures { Reads (IsCheckpoint (map (λ w. w.now) words.now)) result }
{
    match words {
        [] => Some(Command::Checkpoint),
        [word] => {
            if *word == b"-d".as_slice() {
                Some(Command::Discard)
            } else {
                None
            }
        }
        _ => None,
    }
}

fn parse_step(words: &[&[u8]]) -> Option<Command>
    ensures { Reads (IsStep (map (λ w. w.now) words.now)) result }
{
    let [word] = words else {
        return None;
    };
    if *word == b"evac".as_slice() {
        Some(Command::StepEvac)
    } else if *word == b"discard".as_slice() {
        Some(Command::StepDiscard)
    } else if *word == b"condense".as_slice() {
        Some(Command::StepCondense)
    } else {
        None
    }
}

fn parse_map(words: &[&[u8]]) -> Option<Command>
    ensures { Reads (IsMap (map (λ w. w.now) words.now)) result }
{
    let [index] = words else {
        return None;
    };
    let Some(index) = parse_number(index) else {
        return None;
    };
    Some(Command::Map { index })
}

/// Reads a path and copies it.
fn parse_path(alloc: Global, word: &[u8]) -> Result<Option<Blob>, NoMemory>
    ensures { IfOk result (Reads (λ path. (word.now ≡ path) × IsTrue (is_path word.now))) }
{
    if !is_path(word) {
        return Ok(None);
    }
    let path = Blob::copy_of(alloc, word)?;
    Ok(Some(path))
}
