//! What is shown where a run is stopped.
//!
//! From the line on that is asked, each moment of the run is tried, with each of these choices of what came of the writes that
//! no flush followed: none, all, the first half of each, and of one of them alone all, the first half, or nothing while the
//! others came. A probe runs over each image.
//!
//! The calls of the run are made again once, on files that hold what is sure to stay, and an image is laid over them and taken
//! off again. Two images that differ only where the probe did not read are one to it: so of a probe is kept what came of each
//! write that it read of, and its answer serves each image of which the same came.
ghost use Rattle.std.specs.Prelude.{◌≤◌};

use crate::cases::Run;
use crate::lent_desk::{Reading, Trouble};
use crate::patch::{Patch, take_out};
use crate::runs::{copies_of, lend, print_run, status_of, text_of};
use crate::states::{Reached, Shown, lines_of, states_of};
use std::alloc::{AllocError, Global};
use zr_shelf::{Asked, Call, Deed, DiskFile, MemDesk};

/// How many wrong images are printed.
const PRINTED: u64 = 10;

/// What came of a write.
#[derive(Clone, Copy, Debug, PartialEq, Eq)]
enum Came {
    Old,
    New,
    /// Its first half.
    Torn,
}

impl Came {
    // How many bytes of so many came.
    fn bytes(self, len: usize) -> usize
        ensures { result ≤ len }
    {
        match self {
            Came::Old => 0,
            Came::New => len,
            Came::Torn => len / 2,
        }
    }

    fn digit(self) -> u8 {
        match self {
            Came::Old => b'0',
            Came::New => b'1',
            Came::Torn => b'2',
        }
    }
}

/// What came of each pending write: one thing of the write at `place`, and another of all others.
#[derive(Clone, Copy)]
struct Choice {
    place: usize,
    alone: Came,
    others: Came,
}

impl Choice {
    fn all(came: Came) -> Choice {
        Choice {
            place: 0,
            alone: came,
            others: came,
        }
    }

    fn came(self, place: usize) -> Came {
        if place == self.place {
            self.alone
        } else {
            self.others
        }
    }

    // A digit for each of so many writes: 0 where it is old, 1 where it is new, 2 where it is torn.
    fn digits(self, alloc: Global, count: usize) -> Result<Vec<u8>, AllocError> {
        let mut digits = Vec::new(alloc);
        for place in 0..count {
            digits.push(self.came(place).digit())?;
        }
        Ok(digits)
    }
}

// The choices of what came of so many pending writes, each once.
fn choices(alloc: Global, count: usize) -> Result<Vec<Choice>, AllocError> {
    let mut all = Vec::new(alloc);
    all.push(Choice::all(Came::Old))?;
    if count > 0 {
        all.push(Choice::all(Came::New))?;
        all.push(Choice::all(Came::Torn))?;
    }
    for (alone, others, least) in [
        (Came::New, Came::Old, 2),
        (Came::Torn, Came::Old, 2),
        (Came::Old, Came::New, 3),
    ] {
        push_each(
            &mut all,
            alone,
            others,
            if count < least { 0 } else { count },
        )?;
    }
    Ok(all)
}

// A choice for each of so many places.
fn push_each(
    all: &mut Vec<Choice>,
    alone: Came,
    others: Came,
    count: usize,
) -> Result<(), AllocError> {
    for place in 0..count {
        all.push(Choice {
            place,
            alone,
            others,
        })?;
    }
    Ok(())
}

/// What a probe answered: the places that it read, of each pending write that it read of what came, and the answer.
#[derive(Drop)]
struct Known {
    reads: Vec<Reading>,
    came: Vec<(usize, Came)>,
    text: Vec<u8>,
}

impl Known {
    // Whether a probe over this image would read the same.
    fn serves(&self, choice: Choice) -> bool {
        self.came
            .as_slice()
            .iter()
            .all(|(place, came)| choice.came(*place) == *came)
    }

    // One pending write more, at that place.
    fn notice(&mut self, place: usize, asked: &Asked, came: Came) -> Result<(), AllocError> {
        let reads = self.reads.as_slice();
        if reads.iter().any(|reading| is_of(reading, asked)) {
            self.came.push((place, came))?;
        }
        Ok(())
    }
}

// Whether a place that was read has a byte of a write.
fn is_of(reading: &Reading, asked: &Asked) -> bool {
    reading.file == asked.slot as usize
        && reading.at < asked.at.saturating_add(asked.bytes.len() as u64)
        && asked.at < reading.at.saturating_add(reading.len)
}

// Lays an image over the files, and answers how to take it off again.
fn lay(
    alloc: Global,
    files: &mut Vec<DiskFile>,
    pending: &[&Asked],
    choice: Choice,
) -> Result<Vec<Patch>, AllocError> {
    let mut laid = Vec::new(alloc);
    for (place, asked) in pending.iter().enumerate() {
        let bytes = asked.bytes.as_slice();
        let front = &bytes[..choice.came(place).bytes(bytes.len())];
        let mut patch = Patch::of(alloc, asked.slot as usize, asked.at, front)?;
        patch.swap(files);
        laid.push(patch)?;
    }
    Ok(laid)
}

/// A run that is made again, call by call.
#[derive(Drop)]
struct Walk<'a> {
    alloc: Global,
    probe: &'a Run,
    lines: &'a [&'a [u8]],
    /// The files of the disks, by slot, as they are sure to stay.
    files: Vec<DiskFile>,
    /// The writes since the last flush.
    pending: Vec<&'a Asked>,
    /// The probes since the last flush.
    known: Vec<Known>,
    reached: Reached,
    shown: Shown,
}

impl<'a> Walk<'a> {
    // Runs the probe over an image.
    fn try_image(&mut self, choice: Choice) -> Result<Known, AllocError> {
        let alloc = self.alloc;
        let laid = lay(alloc, &mut self.files, self.pending.as_slice(), choice)?;
        let files = std::mem::replace(&mut self.files, Vec::new(alloc));
        let script = self.probe.script.as_slice().to_vec(alloc)?;
        let words = self.probe.words.as_slice();
        let played = lend(alloc, files, words, script, Trouble::None)?;
        let text = text_of(alloc, &played)?;
        self.files = played.files;
        take_out(&mut self.files, played.patches);
        take_out(&mut self.files, laid);
        let mut known = Known {
            reads: played.reads,
            came: Vec::new(alloc),
            text,
        };
        for (place, asked) in self.pending.as_slice().iter().enumerate() {
            known.notice(place, asked, choice.came(place))?;
        }
        Ok(known)
    }

    // The number of a probe that serves for an image. Where there is none, it is made.
    fn probe_for(&mut self, choice: Choice) -> Result<usize, AllocError> {
        let known = self.known.as_slice();
        if let Some(number) = known.iter().position(|known| known.serves(choice)) {
            return Ok(number);
        }
        let number = self.known.len();
        let known = self.try_image(choice)?;
        self.known.push(known)?;
        Ok(number)
    }

    // Tries each image of this moment.
    fn look(&mut self, rt: &HostRuntime, moment: u64) -> anyhow::Result<()> {
        let count = self.pending.len();
        for choice in choices(self.alloc, count)? {
            let number = self.probe_for(choice)?;
            let Some(known) = self.known.get(number) else {
                continue;
            };
            let text = known.text.as_slice();
            if !self.shown.take(text, self.reached) && self.shown.wrong <= PRINTED {
                let digits = choice.digits(self.alloc, count)?;
                let digits = std::str::from_utf8(digits.as_slice())?;
                let text = std::str::from_utf8(text)?;
                println!(rt; "moment {moment} choice {digits}: {text}")?;
            }
        }
        Ok(())
    }

    // One pending write more.
    fn write(&mut self, asked: &'a Asked) -> Result<(), AllocError> {
        let place = self.pending.len();
        for known in self.known.as_mut_slice() {
            known.notice(place, asked, Came::Old)?;
        }
        self.pending.push(asked)?;
        Ok(())
    }

    // What is pending is sure to stay.
    fn flush(&mut self) -> Result<(), AllocError> {
        let all = Choice::all(Came::New);
        lay(self.alloc, &mut self.files, self.pending.as_slice(), all)?;
        self.pending.clear();
        self.known.clear();
        Ok(())
    }

    // Makes a call again. It answers whether a line is under way or answered after it.
    fn step(&mut self, deed: &'a Deed) -> Result<bool, AllocError> {
        match deed {
            Deed::Attached(file, _make) => {
                let path = String::from_str(self.alloc, file.path.as_str())?;
                let bytes = file.bytes.as_slice().to_vec(self.alloc)?;
                self.files.push(DiskFile { path, bytes })?;
                return Ok(false);
            }
            Deed::Wrote(asked) => self.write(asked)?,
            Deed::Flushed => self.flush()?,
            Deed::Sent(reply) => self.reached.answer(self.lines, reply.as_slice()),
        }
        Ok(true)
    }

    // Makes the calls again, and tries the images of each moment from the line of that number on.
    fn follow(&mut self, rt: &HostRuntime, calls: &'a [Call], line: usize) -> anyhow::Result<()> {
        for call in calls {
            let begun = self.step(&call.deed)?;
            if begun && line <= self.reached.sent.saturating_add(1) {
                self.look(rt, call.moment)?;
            }
        }
        Ok(())
    }
}

// Follows the calls of a run, and answers what its images showed.
fn shown_by(
    rt: &HostRuntime,
    calls: &[Call],
    line: usize,
    lines: &[&[u8]],
    probe: &Run,
    shown: Shown,
) -> anyhow::Result<Shown> {
    let alloc = rt.alloc();
    let mut walk = Walk {
        alloc,
        probe,
        lines,
        files: Vec::new(alloc),
        pending: Vec::new(alloc),
        known: Vec::new(alloc),
        reached: Reached { sent: 0, kept: 0 },
        shown,
    };
    walk.follow(rt, calls, line)?;
    Ok(walk.shown)
}

/// Stops the run at each moment from its line of that number on, and prints what it is answered whole, whether each image
/// shows a state that may be shown, and which states those are. The run begins on these files.
pub fn stops(
    rt: &HostRuntime,
    line: usize,
    files: Vec<DiskFile>,
    run: &Run,
    probe: &Run,
) -> anyhow::Result<()> {
    let alloc = rt.alloc();
    let script = run.script.as_slice().to_vec(alloc)?;
    let Ok(mut desk) = MemDesk::reopen(alloc, copies_of(alloc, files.as_slice())?, script) else {
        anyhow::bail!("no memory for a desk");
    };
    let status = status_of(alloc, run.words.as_slice(), &mut desk)?;
    print_run(rt, desk.sent(), status)?;
    let lines = lines_of(alloc, run.script.as_slice())?;
    let shown = Shown::new(alloc, states_of(alloc, files, run, probe)?)?;
    let calls = desk.memory.history.calls.as_slice();
    let shown = shown_by(rt, calls, line, lines.as_slice(), probe, shown)?;
    if shown.wrong == 0 {
        println!(rt; "stopped: every image shows a state that may be shown")?;
    }
    shown.print(rt)
}
