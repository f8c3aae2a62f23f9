//! The cases of an input.
//!
//! A case is one or more runs, and a line of four `=` ends it. A run is a line with the program's words and the lines of its
//! script, and a line of four `-` ends it and begins the next. Before its first run a case may say by a line that begins with
//! `@` what is asked of it instead. Before the words of a run there may be lines `! PATH OFFSET HEX`: they put bytes
//! into a file that the run before left, for images that no script makes.

use anyhow::{Context, bail};
use std::alloc::Global;

/// What is asked of a case.
#[derive(Clone, Copy, Debug, PartialEq, Eq)]
pub enum Kind {
    /// What its runs are answered, one behind another, and the sums of their devices.
    Plain,
    /// `@answers`: what its runs are answered alone.
    Answers,
    /// `@stops N`: what is shown where its last run but one is stopped from its line N on, counted from 1. A run before that
    /// leaves the files on which it begins.
    Stops(usize),
    /// `@faults`: what comes where a call of its first run fails.
    Faults,
    /// `@reads`: whether its run reads of a device that is gone.
    Reads,
    /// `@copies`: whether each removal of its run takes no more steps than units were left to copy.
    Copies,
    /// `@zeros N`: what its run is answered where each read from its line N on gives zeros, counted from 1.
    Zeros(usize),
}

/// Bytes that are put into a file, and the place in bytes.
#[derive(Drop)]
pub struct Edit {
    pub path: String,
    pub at: u64,
    pub bytes: Vec<u8>,
}

/// A run of the program, and what is put into the files before it.
#[derive(Drop)]
pub struct Run {
    pub edits: Vec<Edit>,
    pub words: Vec<String>,
    pub script: Vec<u8>,
}

/// A case.
#[derive(Drop)]
pub struct Case {
    pub kind: Kind,
    pub runs: Vec<Run>,
}

impl Case {
    fn new(alloc: Global) -> Case {
        Case {
            kind: Kind::Plain,
            runs: Vec::new(alloc),
        }
    }
}

// The words of a line.
fn words_of(alloc: Global, line: &[u8]) -> anyhow::Result<Vec<String>> {
    let mut words = Vec::new(alloc);
    for word in line.split(|b| *b == b' ') {
        words.push(String::from_str(alloc, std::str::from_utf8(word)?)?)?;
    }
    Ok(words)
}

// The number of a line.
fn number_in(digits: &[u8]) -> anyhow::Result<usize> {
    Ok(std::str::from_utf8(digits)?.parse::<usize>()?)
}

// What a line that begins with `@` asks.
fn kind_of(line: &[u8]) -> anyhow::Result<Kind> {
    if let Some(number) = line.strip_prefix(b"@stops ") {
        return Ok(Kind::Stops(number_in(number)?));
    }
    if let Some(number) = line.strip_prefix(b"@zeros ") {
        return Ok(Kind::Zeros(number_in(number)?));
    }
    match line {
        b"@answers" => Ok(Kind::Answers),
        b"@faults" => Ok(Kind::Faults),
        b"@reads" => Ok(Kind::Reads),
        b"@copies" => Ok(Kind::Copies),
        _ => bail!("no such table"),
    }
}

// What a line that begins with `!` puts into a file.
fn edit_of(alloc: Global, line: &[u8]) -> anyhow::Result<Edit> {
    let words = words_of(alloc, line)?;
    match words.as_slice() {
        [_, path, at, bytes] => Ok(Edit {
            path: String::from_str(alloc, path.as_str())?,
            at: at.as_str().parse::<u64>()?,
            bytes: hex::decode(alloc, bytes.as_str())?,
        }),
        _ => bail!("an edit has a path, an offset and bytes"),
    }
}

// What was read of an input: whole cases, the runs of the next, and of its next run what has come.
#[derive(Drop)]
struct Reader {
    alloc: Global,
    cases: Vec<Case>,
    case: Case,
    edits: Vec<Edit>,
    run: Option<Run>,
}

impl Reader {
    fn end_run(&mut self) -> anyhow::Result<()> {
        if let Some(run) = self.run.take() {
            self.case.runs.push(run)?;
        }
        Ok(())
    }

    fn end_case(&mut self) -> anyhow::Result<()> {
        self.end_run()?;
        let next = Case::new(self.alloc);
        self.cases.push(std::mem::replace(&mut self.case, next))?;
        Ok(())
    }

    // Begins the run of these words.
    fn begin(&mut self, line: &[u8]) -> anyhow::Result<()> {
        let none = Vec::new(self.alloc);
        self.run = Some(Run {
            edits: std::mem::replace(&mut self.edits, none),
            words: words_of(self.alloc, line)?,
            script: Vec::new(self.alloc),
        });
        Ok(())
    }

    fn line(&mut self, line: &[u8]) -> anyhow::Result<()> {
        match (line, &mut self.run) {
            (b"====", _) => self.end_case()?,
            (b"----", _) => self.end_run()?,
            (_, Some(run)) => {
                run.script.extend_from_slice(line)?;
                run.script.push(b'\n')?;
            }
            (_, None) if line.starts_with(b"@") => self.case.kind = kind_of(line)?,
            (_, None) if line.starts_with(b"! ") => {
                let edit = edit_of(self.alloc, line)?;
                self.edits.push(edit)?;
            }
            (_, None) => self.begin(line)?,
        }
        Ok(())
    }
}

/// The cases of an input. What follows the last line of four `=` is none.
pub fn cases_of(alloc: Global, text: &[u8]) -> anyhow::Result<Vec<Case>> {
    let mut reader = Reader {
        alloc,
        cases: Vec::new(alloc),
        case: Case::new(alloc),
        edits: Vec::new(alloc),
        run: None,
    };
    for line in text.split(|b| *b == b'\n') {
        reader.line(line)?;
    }
    Ok(reader.cases)
}
