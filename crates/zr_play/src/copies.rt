//! Whether a removal takes no more steps than units were left to copy.
//!
//! Each step that copies takes a unit at least. So as many of them as units were left when the removal began, or when its pool
//! was imported, are enough, whatever is freed or written meanwhile; and no step is refused for want of room. Behind each
//! `remove` and each `import` the run has a `status`, which tells what was left. The words of the run have no rounds behind
//! each line, so that each line has one reply.

use crate::cases::Run;
use crate::lent_desk::Trouble;
use crate::runs::play_lent;
use crate::states::lines_of;
use std::alloc::{AllocError, Global};

/// What came behind a `remove` or an `import` that was done.
#[derive(Clone, Copy)]
struct Removal {
    /// The units that were left to copy; none where no device is leaving.
    left: Option<u64>,
    /// How many steps copied some.
    copied: u64,
    /// How many steps were refused for want of room.
    refused: u64,
}

impl Removal {
    // Takes the reply to a line.
    fn answer(&mut self, line: &[u8], reply: &[u8]) {
        match line {
            b"status" if self.left.is_none() => self.left = left_in(reply),
            b"step evac" => self.step(reply),
            _ => {}
        }
    }

    // One step more.
    fn step(&mut self, reply: &[u8]) {
        if reply.starts_with(b"copied ") {
            self.copied = self.copied.saturating_add(1);
        }
        if reply.starts_with(b"refused 6 ") || reply.starts_with(b"refused 7 ") {
            self.refused = self.refused.saturating_add(1);
        }
    }

    // Whether a device is leaving.
    fn is_one(&self) -> bool {
        self.left.is_some() || self.copied > 0
    }

    // Whether the steps are no more than the units that were left.
    fn is_within(&self) -> bool {
        self.copied <= self.left.unwrap_or(0) && self.refused == 0
    }
}

// Whether a line that is answered so leaves a pool in which a device may be leaving anew.
fn begins(line: &[u8], reply: &[u8]) -> bool {
    let removes = line.starts_with(b"remove ") && !line.starts_with(b"remove -");
    reply == b"ok\n".as_slice() && (removes || line.starts_with(b"import"))
}

// The units that are left to copy, as a `status` tells; none where no device is leaving.
fn left_in(status: &[u8]) -> Option<u64> {
    let mut lines = status.split(|b| *b == b'\n');
    let line = lines.find(|line| line.starts_with(b"removal "))?;
    let left = line.split(|b| *b == b' ').last()?;
    std::str::from_utf8(left).ok()?.parse::<u64>().ok()
}

// What came behind each `remove` and each `import` that was done.
fn removals_in(
    alloc: Global,
    lines: &[&[u8]],
    replies: &[Vec<u8>],
) -> Result<Vec<Removal>, AllocError> {
    let mut removals = Vec::new(alloc);
    for (line, reply) in lines.iter().zip(replies) {
        let reply = reply.as_slice();
        if begins(line, reply) {
            removals.push(Removal {
                left: None,
                copied: 0,
                refused: 0,
            })?;
        } else if let Some(removal) = removals.last_mut() {
            removal.answer(line, reply);
        }
    }
    Ok(removals)
}

/// Makes the run, and prints what it is answered, and how many of its removals take no more steps than units were left.
pub fn copies(rt: &HostRuntime, run: &Run) -> anyhow::Result<()> {
    let alloc = rt.alloc();
    let played = play_lent(rt, run, Trouble::None)?;
    let lines = lines_of(alloc, run.script.as_slice())?;
    let removals = removals_in(alloc, lines.as_slice(), played.replies.as_slice())?;
    let removals = removals.as_slice();
    let all = removals.iter().filter(|it| it.is_one()).count();
    let within = removals
        .iter()
        .filter(|it| it.is_one() && it.is_within())
        .count();
    println!(rt; "copies: {within} of {all} removals take no more steps than units were left")?;
    Ok(())
}
