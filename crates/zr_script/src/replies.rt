//! The text of a reply.
//!
//! Each line of a reply is a list of words with single spaces between them, so each kind of line says which words it
//! has, and one function writes them. Numbers are in decimal digits, and bytes in lower case hexadecimal digits.
ghost use Rattle.std.specs.Prelude.{◌≡◌, ◌++◌, ◌∷◌, [], IfOk, OnOk, map, decimal, codes};
ghost use Rattle.std.specs.List.{flat_map};
ghost use Rattle.hex.specs.Hex.{encode_lower};
ghost use Rattle.zr_base.specs.Refusals.{number_of};
ghost use Rattle.zr_script.specs.ReplyText.{word_text, with_spaces, line, field, refusal_text, refusal_fields, refusal_words, reply_text};

use crate::reply::Reply;
use crate::tables::{put_audit, put_list, put_map, put_status};
use itoa::Buffer;
use std::alloc::Global;
use zr_base::{NoMemory, Refusal};

/// A word of a line: a text, a number, or bytes that are printed in hexadecimal digits.
#[derive(Clone, Copy)]
pub enum Word<'a> {
    Text(&'a [u8]),
    Number(u64),
    Hex(&'a [u8]),
}

/// Adds a word at the end of a text. It copies each byte once, and those of `Hex` twice.
fn put_word(alloc: Global, text: &mut Vec<u8>, word: &Word) -> Result<(), NoMemory>
    ensures { OnOk result (text.new.items ≡ text.old.items ++ word_text word.now) }
{
    match word {
        Word::Text(bytes) => text.extend_from_slice(bytes)?,
        Word::Number(n) => {
            let mut buffer = Buffer::new();
            text.extend_from_slice(buffer.format(*n).as_bytes())?;
        }
        Word::Hex(bytes) => {
            let digits = hex::encode(alloc, *bytes)?;
            text.extend_from_slice(digits.as_bytes())?;
        }
    }
    Ok(())
}

/// Adds words at the end of a text, a space before each.
fn put_words(alloc: Global, text: &mut Vec<u8>, words: &[Word]) -> Result<(), NoMemory>
    ensures { OnOk result (text.new.items ≡ text.old.items ++ with_spaces (map word_text words.now)) }
{
    for word in words {
        text.push(b' ')?;
        put_word(alloc, text, word)?;
    }
    Ok(())
}

/// Adds a line of these words at the end of a text. Where memory runs out, a part of the line may stand there.
pub fn put_line(alloc: Global, text: &mut Vec<u8>, words: &[Word]) -> Result<(), NoMemory>
    ensures { OnOk result (text.new.items ≡ text.old.items ++ line (map word_text words.now)) }
{
    if let Some((first, others)) = words.split_first() {
        put_word(alloc, text, first)?;
        put_words(alloc, text, others)?;
    }
    text.push(b'\n')?;
    Ok(())
}

fn refusal_text(refusal: &Refusal) -> &'static [u8]
    ensures { result.now ≡ refusal_text refusal.now }
{
    match refusal {
        Refusal::NoPoolOpen => b"no pool open",
        Refusal::PoolIsOpen => b"pool is open",
        Refusal::NoSuchObject => b"no such object",
        Refusal::ObjectExists => b"object exists",
        Refusal::OutOfRange => b"out of range",
        Refusal::NoRun { .. } => b"no run",
        Refusal::NoRoom { .. } => b"no room",
        Refusal::NoSuchDevice => b"no such device",
        Refusal::NotInService => b"device not in service",
        Refusal::OnlyDevice => b"only device",
        Refusal::RemovalInProgress => b"removal in progress",
        Refusal::NoRemoval => b"no removal",
        Refusal::CheckpointExists => b"checkpoint exists",
        Refusal::DiscardingCheckpoint => b"discarding checkpoint",
        Refusal::NoCheckpoint => b"no checkpoint",
        Refusal::TooMany { .. } => b"too many",
        Refusal::DeviceInUse { .. } => b"device in use",
        Refusal::DeviceSize { .. } => b"device size",
        Refusal::NothingToDo => b"nothing to do",
        Refusal::Damaged { .. } => b"damaged",
        Refusal::MissingDevice { .. } => b"missing device",
        Refusal::NoPoolOnDevices => b"no pool on the devices",
        Refusal::TwoPools { .. } => b"two pools or two copies",
        Refusal::BadRoot { .. } => b"bad root",
        Refusal::GroupNotKept { .. } => b"group not kept",
        Refusal::UnknownVersion { .. } => b"version",
    }
}

/// Adds the names and values that a refusal tells at the end of a text, a space before each.
fn put_fields(alloc: Global, text: &mut Vec<u8>, refusal: &Refusal) -> Result<(), NoMemory>
    ensures { OnOk result (text.new.items ≡ text.old.items ++ with_spaces (refusal_fields refusal.now)) }
{
    match refusal {
        Refusal::NoRun { needed, longest } => {
            put_two(alloc, text, b"needed", *needed, b"longest", *longest)
        }
        Refusal::NoRoom { needed, free } => put_two(
            alloc, text, b"needed", *needed, b"free", *free,
        ),
        Refusal::TooMany { limit } => put_one(alloc, text, b"limit", *limit),
        Refusal::DeviceInUse { slot } => put_one(alloc, text, b"slot", u64::from(*slot)),
        Refusal::DeviceSize { size } => put_one(alloc, text, b"size", *size),
        Refusal::Damaged {
            at,
            expected,
            found,
        } => {
            put_two(alloc, text, b"device", u64::from(at.dev), b"unit", at.start)?;
            put_sums(alloc, text, expected, found)
        }
        Refusal::MissingDevice { index, added } => {
            put_two(alloc, text, b"index", u64::from(*index), b"txg", *added)
        }
        Refusal::TwoPools { first, second } => put_two(
            alloc,
            text,
            b"slot",
            u64::from(*first),
            b"slot",
            u64::from(*second),
        ),
        Refusal::BadRoot { rule } => put_one(alloc, text, b"rule", u64::from(*rule)),
        Refusal::GroupNotKept { oldest } => put_one(alloc, text, b"oldest", *oldest),
        Refusal::UnknownVersion { found } => put_one(alloc, text, b"found", *found),
        _ => Ok(()),
    }
}

fn put_one(alloc: Global, text: &mut Vec<u8>, name: &[u8], n: u64) -> Result<(), NoMemory>
    ensures { OnOk result (text.new.items ≡ text.old.items ++ with_spaces (field name.now n)) }
{
    put_words(alloc, text, &[Word::Text(name), Word::Number(n)])
}

fn put_two<'a>(
    alloc: Global,
    text: &mut Vec<u8>,
    name: &'a [u8],
    n: u64,
    other: &'a [u8],
    m: u64,
) -> Result<(), NoMemory>
    ensures { OnOk result (text.new.items ≡ text.old.items ++ with_spaces (field name.now n ++ field other.now m)) }
{
    put_words(
        alloc,
        text,
        &[
            Word::Text(name),
            Word::Number(n),
            Word::Text(other),
            Word::Number(m),
        ],
    )
}

fn put_sums<'a>(
    alloc: Global,
    text: &mut Vec<u8>,
    expected: &'a [u8; 32],
    found: &'a [u8; 32],
) -> Result<(), NoMemory>
    ensures { OnOk result (text.new.items ≡ text.old.items ++ with_spaces (codes "expected" ∷ encode_lower expected.now ∷ codes "found" ∷ encode_lower found.now ∷ [])) }
{
    put_words(
        alloc,
        text,
        &[
            Word::Text(b"expected"),
            Word::Hex(expected),
            Word::Text(b"found"),
            Word::Hex(found),
        ],
    )
}

fn put_refusal(alloc: Global, text: &mut Vec<u8>, refusal: &Refusal) -> Result<(), NoMemory>
    ensures { OnOk result (text.new.items ≡ text.old.items ++ line (codes "refused" ∷ decimal (number_of refusal.now) ∷ refusal_words refusal.now)) }
{
    put_word(alloc, text, &Word::Text(b"refused"))?;
    put_words(
        alloc,
        text,
        &[
            Word::Number(u64::from(refusal.number())),
            Word::Text(refusal_text(refusal)),
        ],
    )?;
    put_fields(alloc, text, refusal)?;
    text.push(b'\n')?;
    Ok(())
}

fn put_named<'a>(
    alloc: Global,
    text: &mut Vec<u8>,
    name: &'a [u8],
    value: &Word<'a>,
) -> Result<(), NoMemory>
    ensures { OnOk result (text.new.items ≡ text.old.items ++ line (name.now ∷ word_text value.now ∷ [])) }
{
    put_line(alloc, text, &[Word::Text(name), *value])
}

/// The bytes that a reply sends: one line, or the lines of a table and `end`. The time is linear in the bytes.
pub fn reply_bytes(alloc: Global, reply: &Reply) -> Result<Vec<u8>, NoMemory>
    ensures { IfOk result (λ bytes. bytes.items ≡ reply_text reply.now) }
{
    let mut text = Vec::new(alloc);
    put_reply(alloc, &mut text, reply)?;
    Ok(text)
}

fn put_reply(alloc: Global, text: &mut Vec<u8>, reply: &Reply) -> Result<(), NoMemory>
    ensures { OnOk result (text.new.items ≡ text.old.items ++ reply_text reply.now) }
{
    match reply {
        Reply::Done => put_line(alloc, text, &[Word::Text(b"ok")]),
        Reply::Data(bytes) => put_named(alloc, text, b"data", &Word::Hex(bytes.as_slice())),
        Reply::Sum(sum) => put_named(alloc, text, b"sum", &Word::Hex(sum)),
        Reply::Synced(txg) => put_named(alloc, text, b"synced", &Word::Number(*txg)),
        Reply::Estimate(n) => put_named(alloc, text, b"estimate", &Word::Number(*n)),
        Reply::Cancelled(index) => {
            put_named(alloc, text, b"cancelled", &Word::Number(u64::from(*index)))
        }
        Reply::Copied(n) => put_named(alloc, text, b"copied", &Word::Number(*n)),
        Reply::Gone(index) => put_named(alloc, text, b"gone", &Word::Number(u64::from(*index))),
        Reply::Freed(n) => put_named(alloc, text, b"freed", &Word::Number(*n)),
        Reply::Kept(n) => put_named(alloc, text, b"kept", &Word::Number(*n)),
        Reply::Ended => put_line(alloc, text, &[Word::Text(b"done")]),
        Reply::List(lines) => put_list(alloc, text, lines.as_slice()),
        Reply::Status(lines) => put_status(alloc, text, lines),
        Reply::Map(lines) => put_map(alloc, text, lines.as_slice()),
        Reply::Audit(lines) => put_audit(alloc, text, lines.as_slice()),
        Reply::No(refusal) => put_refusal(alloc, text, refusal),
    }
}
