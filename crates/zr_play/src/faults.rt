//! What comes where a call of a run fails.
//!
//! The run is made once whole, and then once for each of its calls, which fails. Up to the fault it must be answered as it was
//! whole, and then it ends and tells the fault by its status, or a step of a removal is answered `cancelled` and the run goes
//! on. A probe over what it leaves must show a state that may be shown.

use crate::cases::Run;
use crate::lent_desk::{Played, Trouble};
use crate::patch::take_out;
use crate::runs::{lend, play_lent, text_of};
use crate::states::{Reached, Shown, lines_of, states_of};
use std::alloc::{AllocError, Global};
use zr_shelf::DiskFile;

/// How many faults that break the rule are printed.
const PRINTED: u64 = 10;

/// What is sent where a device failed.
const STOPPED: &[u8] = b"stopped disk fault\n";

// How many first replies of two runs are the same.
fn same_front(one: &[Vec<u8>], other: &[Vec<u8>]) -> usize {
    one.iter()
        .zip(other)
        .take_while(|(a, b)| a.as_slice() == b.as_slice())
        .count()
}

// Whether the reply at that place says that a removal was cancelled.
fn is_cancelled(replies: &[Vec<u8>], place: usize) -> bool {
    replies
        .get(place)
        .is_some_and(|reply| reply.as_slice().starts_with(b"cancelled "))
}

// Whether a run in which a call failed ends as it may.
fn ends_well(whole: &[Vec<u8>], tried: &Played) -> bool {
    let replies = tried.replies.as_slice();
    let same = same_front(whole, replies);
    match tried.status {
        0 => is_cancelled(replies, same)
            && !is_cancelled(whole, same)
            && replies.len() == whole.len(),
        2 | 3 | 7 => same == replies.len(),
        4 => replies.get(same..).is_some_and(|rest| rest.len() == 1
            && rest.iter().all(|it| it.as_slice() == STOPPED)),
        _ => false,
    }
}

// How far the run came.
fn reached(lines: &[&[u8]], replies: &[Vec<u8>]) -> Reached {
    let mut reached = Reached { sent: 0, kept: 0 };
    for reply in replies {
        if reply.as_slice() != STOPPED {
            reached.answer(lines, reply.as_slice());
        }
    }
    reached
}

/// What the tries share.
#[derive(Drop)]
struct Tries<'a> {
    alloc: Global,
    run: &'a Run,
    probe: &'a Run,
    lines: &'a [&'a [u8]],
    /// The replies of the run with no fault.
    whole: Vec<Vec<u8>>,
    files: Vec<DiskFile>,
    shown: Shown,
    wrong: u64,
    cancelled: bool,
}

impl Tries<'_> {
    // Makes the run with a fault at that call, and the probe. It answers the run, and what the probe answered.
    fn play(&mut self, call: u64) -> Result<(Played, Vec<u8>), AllocError> {
        let alloc = self.alloc;
        let files = std::mem::replace(&mut self.files, Vec::new(alloc));
        let script = self.run.script.as_slice().to_vec(alloc)?;
        let trouble = Trouble::Fails(call);
        let mut tried = lend(alloc, files, self.run.words.as_slice(), script, trouble)?;
        let files = std::mem::replace(&mut tried.files, Vec::new(alloc));
        let script = self.probe.script.as_slice().to_vec(alloc)?;
        let words = self.probe.words.as_slice();
        let after = lend(alloc, files, words, script, Trouble::None)?;
        let text = text_of(alloc, &after)?;
        self.files = after.files;
        take_out(&mut self.files, after.patches);
        let patches = std::mem::replace(&mut tried.patches, Vec::new(alloc));
        take_out(&mut self.files, patches);
        Ok((tried, text))
    }

    // Tries a fault at that call.
    fn fail(&mut self, rt: &HostRuntime, call: u64) -> anyhow::Result<()> {
        let (tried, text) = self.play(call)?;
        let replies = tried.replies.as_slice();
        let shows = self
            .shown
            .take(text.as_slice(), reached(self.lines, replies));
        let same = same_front(self.whole.as_slice(), replies);
        self.cancelled = self.cancelled || is_cancelled(replies, same);
        if shows && ends_well(self.whole.as_slice(), &tried) {
            return Ok(());
        }
        self.wrong = self.wrong.saturating_add(1);
        if self.wrong <= PRINTED {
            let told = text_of(self.alloc, &tried)?;
            let told = std::str::from_utf8(told.as_slice())?;
            println!(rt;
                "call {call}: {told} // {}",
                std::str::from_utf8(text.as_slice())?
            )?;
        }
        Ok(())
    }
}

// Makes each call of a run fail in turn, and prints what came of it. The run was made whole on the files, and is taken out.
fn fail_each(
    rt: &HostRuntime,
    run: &Run,
    probe: &Run,
    lines: &[&[u8]],
    whole: Played,
) -> anyhow::Result<()> {
    let alloc = rt.alloc();
    let mut files = whole.files;
    take_out(&mut files, whole.patches);
    let mut tries = Tries {
        alloc,
        run,
        probe,
        lines,
        whole: whole.replies,
        files,
        shown: Shown::new(alloc, states_of(alloc, Vec::new(alloc), run, probe)?)?,
        wrong: 0,
        cancelled: false,
    };
    for call in 0..whole.calls {
        tries.fail(rt, call.saturating_add(1))?;
    }
    if tries.wrong == 0 {
        println!(rt; "faults: every call may fail")?;
    }
    println!(rt; "cancelled: {}", if tries.cancelled { "yes" } else { "no" })?;
    tries.shown.print(rt)
}

/// Makes each call of the run fail in turn, and prints what it is answered whole, whether each call may fail, whether a
/// removal was cancelled by a fault, and which states were shown.
pub fn faults(rt: &HostRuntime, run: &Run, probe: &Run) -> anyhow::Result<()> {
    let whole = play_lent(rt, run, Trouble::None)?;
    let lines = lines_of(rt.alloc(), run.script.as_slice())?;
    fail_each(rt, run, probe, lines.as_slice(), whole)
}
