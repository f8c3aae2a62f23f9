//! The values of options.
ghost use Rattle.std.specs.Prelude.{◌≡◌, ℕ, List, Option, ◌∷◌, false, IfNone, IfSome, IsTrue, option_map};
ghost use Rattle.zr_base.specs.Readers.{Reads};
ghost use Rattle.zr_words.specs.Reading.{Gives, IsCount, IsGenerate, IsPolicy, IsRounds};

use zr_script::parse_number;

/// The most rounds behind each line.
const MAX_ROUNDS: u64 = 1000;

/// The fewest lines of a generated script.
const MIN_COUNT: u64 = 1;

/// The most lines of a generated script.
const MAX_COUNT: u64 = 1_000_000;

/// The name of the chooser, where it is given. None where the value is none.
pub fn parse_policy<'a>(value: Option<&'a str>) -> Option<Option<&'a str>>
    ensures none { IfNone result ((name : Option (List ℕ)) → Gives IsPolicy (option_map (λ text. text.now) value.entry) name → ⊥) }
    ensures some { IfSome result (λ name. Gives IsPolicy (option_map (λ text. text.now) value.entry) (option_map (λ text. text.now) name)) }
{
    let Some(name) = value else {
        return Some(None);
    };
    if begins_with_dash(name.as_bytes()) {
        return None;
    }
    Some(Some(name))
}

fn begins_with_dash(word: &[u8]) -> bool
    ensures dash { IsTrue result → (rest : List ℕ) × (word.now ≡ 45 ∷ rest) }
    ensures other { result ≡ false → (rest : List ℕ) → word.now ≡ 45 ∷ rest → ⊥ }
{
    word.len() > 0 && word[0] == b'-'
}

/// The rounds behind each line, where they are given. None where the value is none.
pub fn parse_rounds(value: Option<&str>) -> Option<Option<u64>>
    ensures none { IfNone result ((rounds : Option ℕ) → Gives IsRounds (option_map (λ text. text.now) value.entry) rounds → ⊥) }
    ensures some { IfSome result (λ rounds. Gives IsRounds (option_map (λ text. text.now) value.entry) rounds) }
{
    let Some(digits) = value else {
        return Some(None);
    };
    let Some(rounds) = parse_number(digits.as_bytes()) else {
        return None;
    };
    if rounds > MAX_ROUNDS {
        return None;
    }
    Some(Some(rounds))
}

/// The number and the count of a generated script, where they are given. None where the value is none.
pub fn parse_generate(value: Option<&str>) -> Option<Option<(u64, u32)>>
    ensures none { IfNone result ((generate : Option (ℕ × ℕ)) → Gives IsGenerate (option_map (λ text. text.now) value.entry) generate → ⊥) }
    ensures some { IfSome result (λ generate. Gives IsGenerate (option_map (λ text. text.now) value.entry) generate) }
{
    let Some(text) = value else {
        return Some(None);
    };
    let Some(pair) = parse_pair(text) else {
        return None;
    };
    Some(Some(pair))
}

/// A number and a count, with a colon between them.
fn parse_pair(text: &str) -> Option<(u64, u32)>
    ensures { Reads (IsGenerate text.now) result }
{
    let Some((number, count)) = text.split_once(':') else {
        return None;
    };
    let Some(number) = parse_number(number.as_bytes()) else {
        return None;
    };
    let Some(count) = parse_count(count.as_bytes()) else {
        return None;
    };
    Some((number, count))
}

fn parse_count(digits: &[u8]) -> Option<u32>
    ensures { Reads (IsCount digits.now) result }
{
    let Some(count) = parse_number(digits) else {
        return None;
    };
    if count < MIN_COUNT || count > MAX_COUNT {
        return None;
    }
    Some(count as u32)
}
