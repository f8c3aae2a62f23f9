//! Whether a run reads of a device that is gone.
//!
//! Once a device is gone, its file may be taken away: so nothing of it is read any more, unless a later line takes the file on
//! anew. The lines that look for a pool or for labels in use look at each slot of the shelf, and read its labels. The words of
//! the run have no rounds behind each line, so that each line has one reply.

use crate::cases::Run;
use crate::lent_desk::{Played, Reading, Trouble};
use crate::patch::number_of;
use crate::runs::play_lent;
use crate::states::lines_of;
use std::alloc::{AllocError, Global};

/// The first byte of the units of a device. Two labels come before it.
const FIRST_UNIT: u64 = 4_194_304;

/// The bytes of the two labels at the end of a device.
const LAST_LABELS: u64 = 524_288;

/// A device that is gone: the number of its file, how many replies told of it by then, and how many there were when a line
/// took the file on anew.
#[derive(Clone, Copy)]
struct Gone {
    file: usize,
    told: usize,
    anew: usize,
}

// Whether a line that was done takes the file of that path into a pool.
fn takes_on(line: &[u8], reply: &[u8], path: &[u8]) -> bool {
    reply == b"ok\n".as_slice()
        && (line.starts_with(b"add ") || line.starts_with(b"create "))
        && line.split(|b| *b == b' ').any(|word| word == path)
}

// The path of the device that leaves while that many replies are sent: the last that a `remove` named which was done.
fn leaving_at<'a>(lines: &[&'a [u8]], replies: &[Vec<u8>], sent: usize) -> &'a [u8] {
    let mut path = b"".as_slice();
    for (line, reply) in lines.iter().zip(replies).take(sent) {
        match line.strip_prefix(b"remove ") {
            Some(named) if reply.as_slice() == b"ok\n".as_slice() => path = named,
            _ => {}
        }
    }
    path
}

// The device of that path, which is gone since that reply.
fn gone_from(played: &Played, lines: &[&[u8]], path: &[u8], place: usize) -> Option<Gone> {
    let replies = played.replies.as_slice();
    let path = std::str::from_utf8(path).ok()?;
    let file = number_of(played.files.as_slice(), path)?;
    let told = place.saturating_add(1);
    let mut anew = usize::MAX;
    for (at, (line, reply)) in lines.iter().zip(replies).enumerate().skip(told) {
        if takes_on(line, reply.as_slice(), path.as_bytes()) {
            anew = anew.min(at);
        }
    }
    Some(Gone { file, told, anew })
}

// The devices that replies say are gone.
fn gone_in(alloc: Global, played: &Played, lines: &[&[u8]]) -> Result<Vec<Gone>, AllocError> {
    let mut all = Vec::new(alloc);
    let replies = played.replies.as_slice();
    for (place, reply) in replies.iter().enumerate() {
        if reply.as_slice().starts_with(b"gone ") {
            let path = leaving_at(lines, replies, place);
            if let Some(gone) = gone_from(played, lines, path, place) {
                all.push(gone)?;
            }
        }
    }
    Ok(all)
}

// Whether a line looks at the labels of each slot.
fn is_search(line: &[u8]) -> bool {
    line.starts_with(b"create ") || line.starts_with(b"import") || line.starts_with(b"add ")
}

// Whether a place that was read is in the labels of its file.
fn is_label(played: &Played, reading: &Reading) -> bool {
    let bytes = played
        .files
        .get(reading.file)
        .map_or(0, |file| file.bytes.len() as u64);
    reading.at.saturating_add(reading.len) <= FIRST_UNIT
        || bytes.saturating_sub(LAST_LABELS) <= reading.at
}

// Whether a place was read that is of this device, while it was gone, and that no search reads.
fn is_wrong(played: &Played, lines: &[&[u8]], gone: Gone, reading: &Reading) -> bool {
    let line = lines
        .get(reading.replies)
        .copied()
        .unwrap_or(b"".as_slice());
    let is_gone = gone.told <= reading.replies && reading.replies <= gone.anew;
    is_gone && reading.file == gone.file && !(is_search(line) && is_label(played, reading))
}

/// Makes the run, and prints what it is answered and whether it reads of a device that is gone.
pub fn reads(rt: &HostRuntime, run: &Run) -> anyhow::Result<()> {
    let alloc = rt.alloc();
    let played = play_lent(rt, run, Trouble::None)?;
    let lines = lines_of(alloc, run.script.as_slice())?;
    let mut wrong: usize = 0;
    for gone in gone_in(alloc, &played, lines.as_slice())? {
        for reading in played.reads.as_slice() {
            if is_wrong(&played, lines.as_slice(), gone, reading) {
                wrong = wrong.saturating_add(1);
            }
        }
    }
    match wrong {
        0 => println!(rt; "reads: none on a device that is gone")?,
        _ => println!(rt; "reads: {wrong} on a device that is gone")?,
    }
    Ok(())
}
