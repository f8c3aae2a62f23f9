//! From the words to the command line.
ghost use Rattle.std.specs.Prelude.{◌≡◌, IfNone, IfSome, IfOk, map};
ghost use Rattle.std.specs.String.{string_bytes};
ghost use Rattle.clap.specs.Words.{found_of, rows_of};
ghost use Rattle.zr_script.specs.CommandLine.{CommandLine as Line, IsCommandLine};
ghost use Rattle.zr_words.specs.Views.{line_of};
ghost use Rattle.zr_words.specs.Reading.{HasPaths, Means, Spells, raw_of};

use crate::command::zr_command;
use crate::device::parse_each;
use crate::line::CommandLine;
use crate::value::{parse_generate, parse_policy, parse_rounds};
use clap::ArgMatches;
use clap::error::ErrorKind;
use std::alloc::Global;
use zr_base::NoMemory;

/// Reads the words behind the program's name. It answers None exactly where they are no command line, and what it
/// answers borrows from them. Words that `clap` refuses cost the memory for the text of an error, which is let go.
pub fn parse_words<'a>(
    alloc: Global,
    words: &'a [String],
) -> Result<Option<CommandLine<'a>>, NoMemory>
    ensures some { IfOk result (λ found. IfSome found (λ line. IsCommandLine (map string_bytes words.now) (line_of line))) }
    ensures none { IfOk result (λ found. IfNone found ((line : Line) → IsCommandLine (map string_bytes words.now) line → ⊥)) }
    // The words are the line that is answered, and no other.
    ensures only { IfOk result (λ found. IfSome found (λ line. (other : Line) → IsCommandLine (map string_bytes words.now) other → other ≡ line_of line)) }
    // Each device has a path that is one.
    ensures paths { IfOk result (λ found. IfSome found (λ line. HasPaths (line_of line))) }
{
    let Some(line) = read_words(alloc, words)? else {
        return Ok(None);
    };
    if !line.is_whole(alloc)? {
        return Ok(None);
    }
    Ok(Some(line))
}

/// Reads all words, whether or not the line is whole.
fn read_words<'a>(alloc: Global, words: &'a [String]) -> Result<Option<CommandLine<'a>>, NoMemory>
    ensures none { IfOk result (λ found. IfNone found ((line : Line) → Spells (map string_bytes words.now) line → ⊥)) }
    ensures some { IfOk result (λ found. IfSome found (λ line. Spells (map string_bytes words.now) (line_of line))) }
    ensures only { IfOk result (λ found. IfSome found (λ line. (other : Line) → Spells (map string_bytes words.now) other → other ≡ line_of line)) }
    ensures paths { IfOk result (λ found. IfSome found (λ line. HasPaths (line_of line))) }
{
    let command = zr_command(alloc)?;
    match command.try_get_matches_from(words) {
        Ok(matches) => line_from(alloc, &matches),
        Err(error) => match error.kind() {
            ErrorKind::OutOfMemory => Err(NoMemory),
            _ => Ok(None),
        },
    }
}

/// The line that the values and the devices say. None where one of them says nothing.
fn line_from<'a>(
    alloc: Global,
    matches: &ArgMatches<'a>,
) -> Result<Option<CommandLine<'a>>, NoMemory>
    ensures none { IfOk result (λ found. IfNone found ((line : Line) → Means (raw_of (rows_of (found_of matches.now))) line → ⊥)) }
    ensures some { IfOk result (λ found. IfSome found (λ line. Means (raw_of (rows_of (found_of matches.now))) (line_of line))) }
{
    let Some(policy) = parse_policy(matches.get_str("policy")) else {
        return Ok(None);
    };
    let Some(auto) = parse_rounds(matches.get_str("auto")) else {
        return Ok(None);
    };
    let Some(generate) = parse_generate(matches.get_str("gen")) else {
        return Ok(None);
    };
    let words = matches.get_strs("devs").unwrap_or(&[]);
    let Some(devices) = parse_each(alloc, words)? else {
        return Ok(None);
    };
    Ok(Some(CommandLine {
        policy,
        auto,
        generate,
        devices,
    }))
}
