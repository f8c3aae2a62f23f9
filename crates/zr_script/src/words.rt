//! The words of a line and of the command line.
//!
//! Each reader answers the value that a word stands for, or None exactly where it stands for no value. A number has
//! one spelling: the digits that printing it gives. So a number is read by std, printed back and compared, which
//! leaves out signs and leading zeros.
ghost use Rattle.std.specs.Prelude.{◌≡◌, IfOk, map, not};
ghost use Rattle.std.specs.Str.{bytes_eq};
ghost use Rattle.std.specs.List.{list_all};
ghost use Rattle.zr_base.specs.Readers.{Reads};
ghost use Rattle.zr_script.specs.Words.{IsNumber, IsGuid, IsByte, IsHex, is_letter, is_digit, is_name_byte, is_path_byte, is_name, is_path, are_different, are_paths};

use hex::FromHexError;
use itoa::Buffer;
use std::alloc::Global;
use std::str;
use zr_base::{Blob, NoMemory};

/// The most bytes that a word of hexadecimal digits stands for.
const MAX_BYTES: usize = 4096;

/// Reads a number below 2^64 in decimal digits. It takes no memory.
pub fn parse_number(word: &[u8]) -> Option<u64>
    ensures { Reads (IsNumber word.now) result }
{
    let Ok(text) = str::from_utf8(word) else {
        return None;
    };
    let Ok(number) = text.parse::<u64>() else {
        return None;
    };
    let mut buffer = Buffer::new();
    if buffer.format(number).as_bytes() != word {
        return None;
    }
    Some(number)
}

/// Reads a number from 1. It takes no memory.
pub fn parse_guid(word: &[u8]) -> Option<u64>
    ensures { Reads (IsGuid word.now) result }
{
    let Some(number) = parse_number(word) else {
        return None;
    };
    if number == 0 {
        return None;
    }
    Some(number)
}

/// Reads a number to 255. It takes no memory.
pub fn parse_byte(word: &[u8]) -> Option<u8>
    ensures { Reads (IsByte word.now) result }
{
    let Some(number) = parse_number(word) else {
        return None;
    };
    if number > 255 {
        return None;
    }
    Some(number as u8)
}

/// Reads 1 to 4,096 bytes in hexadecimal digits of either case.
pub fn parse_hex(alloc: Global, word: &[u8]) -> Result<Option<Blob>, NoMemory>
    ensures { IfOk result (Reads (IsHex word.now)) }
{
    match hex::decode(alloc, word) {
        Ok(bytes) => {
            if bytes.is_empty() || bytes.len() > MAX_BYTES {
                Ok(None)
            } else {
                Ok(Some(Blob::from_vec(bytes)))
            }
        }
        Err(FromHexError::OutOfMemory) => Err(NoMemory),
        Err(_) => Ok(None),
    }
}

#[tactic(auto, unfolding(crate::specs::Words::is_letter))]
fn is_letter(byte: u8) -> bool
    ensures { result ≡ is_letter byte }
{
    (65 <= byte && byte <= 90) || (97 <= byte && byte <= 122)
}

#[tactic(auto, unfolding(crate::specs::Words::is_digit))]
fn is_digit(byte: u8) -> bool
    ensures { result ≡ is_digit byte }
{
    48 <= byte && byte <= 57
}

#[tactic(auto, unfolding(crate::specs::Words::is_name_byte))]
fn is_name_byte(byte: u8) -> bool
    ensures { result ≡ is_name_byte byte }
{
    is_letter(byte) || is_digit(byte) || byte == b'_' || byte == b'-' || byte == b'.'
}

#[tactic(auto, unfolding(crate::specs::Words::is_path_byte))]
fn is_path_byte(byte: u8) -> bool
    ensures { result ≡ is_path_byte byte }
{
    is_letter(byte)
        || is_digit(byte)
        || byte == b'/'
        || byte == b'.'
        || byte == b'_'
        || byte == b'-'
}

/// Whether the word is a name: 1 to 63 letters, digits, `_`, `-` and `.`, the first of them a letter.
pub fn is_name(word: &[u8]) -> bool
    ensures { result ≡ is_name word.now }
{
    word.len() > 0 && word.len() <= 63 && is_letter(word[0]) && are_name_bytes(word)
}

fn are_name_bytes(word: &[u8]) -> bool
    ensures { result ≡ list_all is_name_byte word.now }
{
    word.iter().all(|byte| is_name_byte(*byte))
}

/// Whether the word is a path: 1 to 255 letters, digits, `/`, `.`, `_` and `-`, the first of them no `-`.
pub fn is_path(word: &[u8]) -> bool
    ensures { result ≡ is_path word.now }
{
    word.len() > 0 && word.len() <= 255 && word[0] != b'-' && are_path_bytes(word)
}

fn are_path_bytes(word: &[u8]) -> bool
    ensures { result ≡ list_all is_path_byte word.now }
{
    word.iter().all(|byte| is_path_byte(*byte))
}

/// Whether no word stands twice. Each pair is compared: it is asked for at most 32 words.
fn are_different(words: &[&[u8]]) -> bool
    ensures { result ≡ are_different (map (λ w. w.now) words.now) }
{
    match words.split_first() {
        None => true,
        Some((word, others)) => is_none_of(word, others) && are_different(others),
    }
}

fn is_none_of(word: &[u8], others: &[&[u8]]) -> bool
    ensures { result ≡ list_all (λ other. not (bytes_eq other word.now)) (map (λ w. w.now) others.now) }
{
    others.iter().all(|other| *other != word)
}

/// Whether these are 1 to 32 different paths.
pub fn are_paths(words: &[&[u8]]) -> bool
    ensures { result ≡ are_paths (map (λ w. w.now) words.now) }
{
    words.len() > 0 && words.len() <= 32 && all_are_paths(words) && are_different(words)
}

fn all_are_paths(words: &[&[u8]]) -> bool
    ensures { result ≡ list_all is_path (map (λ w. w.now) words.now) }
{
    words.iter().all(|word| is_path(word))
}
