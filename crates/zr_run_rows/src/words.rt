//! Command lines and what they mean, and which chooser they name.
ghost use Rattle.std.specs.Prelude.{◌<◌};
ghost use Rattle.zr_base.specs.declared.space.Policy.{Policy};
ghost use Rattle.zr_rules.specs.Choices.{AreRuns, IsPick};

use std::alloc::Global;
use std::test::Fail;
use zr_base::{Extent, Policy};
use zr_choose::{Chooser, pick_best, pick_first};
use zr_words::{CommandLine, chooser_named, parse_words};

/// The words of a text, at its single spaces.
fn words_of(alloc: Global, text: &str) -> Result<Vec<String>, Fail> {
    let mut words = Vec::new(alloc);
    for word in text.split(' ') {
        words.push(String::from_str(alloc, word)?)?;
    }
    Ok(words)
}

/// What a line says: policy, rounds, generated script and devices, `-` for what is not there.
fn shown(alloc: Global, line: &CommandLine) -> Result<String, Fail> {
    let mut text = String::from_str(alloc, line.policy.unwrap_or("-"))?;
    match line.auto {
        None => text.push_str(" -")?,
        Some(rounds) => text.push_str(format!(in alloc; " {rounds}")?.as_str())?,
    }
    match line.generate {
        None => text.push_str(" -")?,
        Some((number, count)) => text.push_str(format!(in alloc; " {number}:{count}")?.as_str())?,
    }
    for device in line.devices.iter() {
        text.push_str(" ")?;
        text.push_str(device.path)?;
        if let Some(size) = device.make {
            text.push_str(format!(in alloc; ":{size}")?.as_str())?;
        }
    }
    Ok(text)
}

/// What words say, `none` where they are no command line.
fn meaning(alloc: Global, text: &str) -> Result<String, Fail> {
    let words = words_of(alloc, text)?;
    match parse_words(alloc, words.as_slice())? {
        Some(line) => shown(alloc, &line),
        None => Ok(String::from_str(alloc, "none")?),
    }
}

/// Words with the name of a chooser.
const POLICIES: [(&str, &str); 23] = [
    ("--policy first a", "first - - a"),
    ("--policy=first a", "first - - a"),
    ("a --policy first", "first - - a"),
    // the value is all that follows the first `=`
    ("a --policy=b=c", "b=c - - a"),
    // a value is no device
    ("--policy a a", "a - - a"),
    ("--policy first -- a", "first - - a"),
    // the empty name is a word like others, which no chooser has
    ("--policy= a", " - - a"),
    ("--policy  a", " - - a"),
    // without the signs at the front it is a path
    ("policy first a", "- - - policy first a"),
    ("--policy first", "none"),
    ("--policy first --", "none"),
    ("a --policy", "none"),
    // a name does not begin with `-`
    ("--policy - a", "none"),
    ("--policy=-x a", "none"),
    ("--policy -- a", "none"),
    ("--policy --auto 3 a", "none"),
    // once at most
    ("--policy a --policy a c", "none"),
    ("--policy=a --policy b c", "none"),
    // in full, and in small letters
    ("--polic first a", "none"),
    ("--policyfirst a", "none"),
    ("-policy first a", "none"),
    ("--Policy first a", "none"),
    ("--policy:first a", "none"),
];

/// Words with rounds: a number up to 1,000.
const ROUNDS: [(&str, &str); 30] = [
    ("--auto 3 a", "- 3 - a"),
    ("--auto=3 a", "- 3 - a"),
    ("a --auto=0", "- 0 - a"),
    ("a --auto 0 b", "- 0 - a b"),
    ("--auto 1000 a", "- 1000 - a"),
    ("--auto=1000 a", "- 1000 - a"),
    ("--auto 1001 a", "none"),
    ("--auto=1001 a", "none"),
    // of these the last 10 bits, 32 or 64 would be a number of rounds
    ("--auto 1024 a", "none"),
    ("--auto 4294967297 a", "none"),
    ("--auto 18446744073709551617 a", "none"),
    // a number has digits alone, and no 0 before them
    ("--auto 03 a", "none"),
    ("--auto=00 a", "none"),
    ("--auto -1 a", "none"),
    ("--auto=+1 a", "none"),
    ("--auto 1.0 a", "none"),
    ("--auto 0x1 a", "none"),
    ("--auto= a", "none"),
    ("--auto  3 a", "none"),
    ("--auto=3=4 a", "none"),
    ("--auto a", "none"),
    ("a --auto", "none"),
    ("--auto 3", "none"),
    ("--auto 1 --auto 1 a", "none"),
    ("--auto=1 a --auto=2", "none"),
    ("--au 3 a", "none"),
    ("--autos 3 a", "none"),
    ("--auto3 a", "none"),
    ("-auto 3 a", "none"),
    ("--AUTO 3 a", "none"),
];

/// Words with a generated script: a number, and how many lines.
const GENERATED: [(&str, &str); 30] = [
    ("--gen 1:1 a b c", "- - 1:1 a b c"),
    (
        "--gen=18446744073709551615:1000000 a b c",
        "- - 18446744073709551615:1000000 a b c",
    ),
    ("a b c d --gen 0:5", "- - 0:5 a b c d"),
    (
        "a --gen 0:5 b --auto 2 c:9 --policy best",
        "best 2 0:5 a b c:9",
    ),
    ("a b --gen=1:1 -- c", "- - 1:1 a b c"),
    // at least three devices, of different paths
    ("--gen 1:1 a b", "none"),
    ("--gen 1:1 a b a", "none"),
    ("--gen 1:1 a b b:5", "none"),
    ("--gen 1:1", "none"),
    // a count from 1 to 1,000,000; of the last two the last 32 or 64 bits would be one
    ("--gen 1:0 a b c", "none"),
    ("--gen 1:1000001 a b c", "none"),
    ("--gen 1:4294967297 a b c", "none"),
    ("--gen 1:18446744073709551617 a b c", "none"),
    // a number below 2^64
    ("--gen 18446744073709551616:1 a b c", "none"),
    // both, with one colon between
    ("--gen 1 a b c", "none"),
    ("--gen 1 1 a b c", "none"),
    ("--gen 1: a b c", "none"),
    ("--gen :1 a b c", "none"),
    ("--gen : a b c", "none"),
    ("--gen= a b c", "none"),
    ("--gen 1:1:1 a b c", "none"),
    ("--gen 1-1 a b c", "none"),
    ("--gen 01:1 a b c", "none"),
    ("--gen 1:01 a b c", "none"),
    ("--gen=-1:1 a b c", "none"),
    ("--gen 1:-1 a b c", "none"),
    ("--gen 1:+1 a b c", "none"),
    ("--gen a:1 a b c", "none"),
    ("--gen 1:1 --gen=1:1 a b c", "none"),
    ("a b c --gen", "none"),
];

/// Words with devices alone: a path, and up to 137,438,953,472 bytes. Letters, digits and `/ . _ -` are allowed in a path.
const DEVICES: [(&str, &str); 46] = [
    ("a", "- - - a"),
    ("b a", "- - - b a"),
    ("/dev/a ./b_c-d.e", "- - - /dev/a ./b_c-d.e"),
    ("/ . .. _ 0 Z9 a- a--", "- - - / . .. _ 0 Z9 a- a--"),
    // paths are compared as they are written
    ("a A ./a a/ a//", "- - - a A ./a a/ a//"),
    ("disk:8388608", "- - - disk:8388608"),
    ("a:0 b", "- - - a:0 b"),
    ("a:137438953472", "- - - a:137438953472"),
    ("", "none"),
    ("-", "none"),
    ("-a", "none"),
    ("-1", "none"),
    ("-a:5", "none"),
    ("a  b", "none"),
    ("a ", "none"),
    // no path twice, of whatever sizes
    ("a a", "none"),
    ("a b a", "none"),
    ("a a:5", "none"),
    ("a:5 a", "none"),
    ("a:5 a:6", "none"),
    ("a:", "none"),
    (":", "none"),
    (":5", "none"),
    ("a:1:2", "none"),
    ("a:05", "none"),
    ("a:00", "none"),
    ("a:-5", "none"),
    ("a:+5", "none"),
    ("a:5k", "none"),
    ("a:0x10", "none"),
    // of the last three the last 64 bits would be a size
    ("a:137438953473", "none"),
    ("a:18446744073709551615", "none"),
    ("a:18446744073709551616", "none"),
    ("a:18446744073709551621", "none"),
    ("a:36893488147427491840", "none"),
    ("a+b", "none"),
    ("a=b", "none"),
    ("a,b", "none"),
    ("a~", "none"),
    ("a@b", "none"),
    ("a%b", "none"),
    ("a*", "none"),
    ("a\\b", "none"),
    ("a;b", "none"),
    ("a\tb", "none"),
    ("é", "none"),
];

/// Options and devices in any order, `--`, and other words.
const JOINED: [(&str, &str); 23] = [
    ("-- a b", "- - - a b"),
    ("a -- b", "- - - a b"),
    ("a --auto 1 --", "- 1 - a"),
    ("--auto=1 a --policy=best b -- c:5", "best 1 - a b c:5"),
    ("--", "none"),
    ("-- -- a", "none"),
    ("a -- --", "none"),
    // behind `--` there are no options
    ("a -- --auto 3", "none"),
    ("a -- --policy=first", "none"),
    ("-- a -b", "none"),
    ("a -- a", "none"),
    ("a -- a:5", "none"),
    // there are no others
    ("-h", "none"),
    ("--help", "none"),
    ("-h a", "none"),
    ("--help a", "none"),
    ("a --help", "none"),
    ("--frob a", "none"),
    ("--frob=1 a", "none"),
    ("--version a", "none"),
    ("-v a", "none"),
    ("--=1 a", "none"),
    ("---auto 3 a", "none"),
];

#[test]
fn each_command_line_says_what_it_should(rt: HostRuntime) -> Result<(), Fail> {
    let tables: [&[(&str, &str)]; 5] = [&POLICIES, &ROUNDS, &GENERATED, &DEVICES, &JOINED];
    for table in tables {
        for (words, want) in table {
            assert_eq!(rt; meaning(rt.alloc(), words)?.as_str(), *want, "{words}");
        }
    }
    Ok(())
}

// A path of so many bytes.
fn path_of(alloc: Global, length: usize) -> Result<String, Fail> {
    let mut path = String::new(alloc);
    for _ in 0..length {
        path.push_str("p")?;
    }
    Ok(path)
}

#[test]
fn a_path_has_up_to_255_bytes(rt: HostRuntime) -> Result<(), Fail> {
    let alloc = rt.alloc();
    for (length, behind, is) in [
        (1, "", true),
        (255, "", true),
        (256, "", false),
        (255, ":137438953472", true),
        (256, ":0", false),
        (100_000, "", false),
    ] {
        let path = path_of(alloc, length)?;
        let word = format!(in alloc; "{}{behind}", path.as_str())?;
        let says = meaning(alloc, word.as_str())?;
        assert!(rt; (says.as_str() != "none") == is, "{length} {behind}");
    }
    Ok(())
}

fn is_line(alloc: Global, words: &[String]) -> Result<bool, Fail> {
    Ok(parse_words(alloc, words)?.is_some())
}

// Whether words are a command line for 1 to 32 devices behind them, and for no others.
fn takes_32(alloc: Global, text: &str) -> Result<bool, Fail> {
    let mut words = words_of(alloc, text)?;
    let mut takes = true;
    for n in 0..34u64 {
        takes = takes && is_line(alloc, words.as_slice())? == (1 <= n && n <= 32);
        words.push(format!(in alloc; "d{n}")?)?;
    }
    Ok(takes)
}

#[test]
fn up_to_32_devices(rt: HostRuntime) -> Result<(), Fail> {
    assert!(rt; !is_line(rt.alloc(), &[])?);
    for text in ["--auto=3", "--policy first --", "--"] {
        assert!(rt; takes_32(rt.alloc(), text)?, "{text}");
    }
    Ok(())
}

fn choosers(alloc: Global) -> Result<[Chooser; 3], Fail> {
    Ok([
        Chooser::new(
            String::from_str(alloc, "first")?,
            Policy::First,
            Box::new(
                alloc,
                |want: u64, runs: &[Extent]| -> Option<usize>
                    requires { (0 < want) × AreRuns runs.now }
                    ensures { IsPick Policy.First want runs.entry.now result }
                { pick_first(want, runs) },
            )?,
        ),
        Chooser::new(
            String::from_str(alloc, "best")?,
            Policy::Best,
            Box::new(
                alloc,
                |want: u64, runs: &[Extent]| -> Option<usize>
                    requires { (0 < want) × AreRuns runs.now }
                    ensures { IsPick Policy.Best want runs.entry.now result }
                { pick_best(want, runs) },
            )?,
        ),
        Chooser::new(
            String::from_str(alloc, "best")?,
            Policy::First,
            Box::new(
                alloc,
                |want: u64, runs: &[Extent]| -> Option<usize>
                    requires { (0 < want) × AreRuns runs.now }
                    ensures { IsPick Policy.First want runs.entry.now result }
                { pick_first(want, runs) },
            )?,
        ),
    ])
}

#[test]
fn the_first_chooser_of_the_name(rt: HostRuntime) -> Result<(), Fail> {
    let alloc = rt.alloc();
    let all = choosers(alloc)?;
    for (text, want) in [
        ("a", Some(Policy::First)),
        ("--policy first a", Some(Policy::First)),
        ("--policy best a", Some(Policy::Best)),
        ("--policy worst a", None),
        ("--policy= a", None),
        ("--policy firs a", None),
        ("--policy First a", None),
    ] {
        let words = words_of(alloc, text)?;
        let Some(line) = parse_words(alloc, words.as_slice())? else {
            return Err(Fail::new("no command line"));
        };
        let policy = chooser_named(&all, &line).map(|chooser| chooser.policy());
        assert!(rt; policy == want, "{text}");
        assert!(rt; chooser_named(&[], &line).is_none(), "{text}");
    }
    Ok(())
}
