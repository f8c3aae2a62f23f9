//! Runs of the program, and what is printed of them.

ghost use Rattle.std.specs.Prelude.{◌≡◌, ◌<◌, []};
ghost use Rattle.zr_base.specs.declared.space.Policy.{Policy};
ghost use Rattle.zr_rules.specs.Choices.{AreRuns, IsPick};

use crate::cases::{Edit, Run};
use crate::lent_desk::{LentDesk, Played, Trouble};
use crate::patch::{Patch, number_of};
use sha2::{Digest, Sha256};
use std::alloc::{AllocError, Global};
use zr_base::{Extent, Policy};
use zr_choose::{Chooser, pick_best, pick_first};
use zr_run::run;
use zr_shelf::{Desk, DiskFile, MemDesk};

/// Runs the program over a desk, with the policies `first` and `best`, and answers its status.
pub fn status_of<D: Desk>(alloc: Global, words: &[String], desk: &mut D) -> Result<u8, AllocError>
    requires { D.sizes desk.old ≡ [] }
{
    let first = Chooser::new(
        String::from_str(alloc, "first")?,
        Policy::First,
        Box::new(
            alloc,
            |want: u64, runs: &[Extent]| -> Option<usize>
                requires { (0 < want) × AreRuns runs.now }
                ensures { IsPick Policy.First want runs.entry.now result }
            { pick_first(want, runs) },
        )?,
    );
    let best = Chooser::new(
        String::from_str(alloc, "best")?,
        Policy::Best,
        Box::new(
            alloc,
            |want: u64, runs: &[Extent]| -> Option<usize>
                requires { (0 < want) × AreRuns runs.now }
                ensures { IsPick Policy.Best want runs.entry.now result }
            { pick_best(want, runs) },
        )?,
    );
    Ok(run(alloc, words, desk, &[first, best]))
}

/// Runs the program over lent files.
pub fn lend(
    alloc: Global,
    files: Vec<DiskFile>,
    words: &[String],
    script: Vec<u8>,
    trouble: Trouble,
) -> Result<Played, AllocError> {
    let mut desk = LentDesk::over(alloc, files, script, trouble);
    let status = status_of(alloc, words, &mut desk)?;
    desk.end(status)
}

/// All that a run sent.
pub fn sent_of(alloc: Global, replies: &[Vec<u8>]) -> Result<Vec<u8>, AllocError> {
    let mut sent = Vec::new(alloc);
    for reply in replies {
        sent.extend_from_slice(reply.as_slice())?;
    }
    Ok(sent)
}

/// What a run came to in one line: the lines that it sent and, unless it is 0, its status.
pub fn text_of(alloc: Global, played: &Played) -> Result<Vec<u8>, AllocError> {
    let mut sent = sent_of(alloc, played.replies.as_slice())?;
    if played.status != 0 {
        let status = played.status;
        sent.extend_from_slice(format!(in alloc; "status {status}")?.as_bytes())?;
    }
    let mut text = Vec::new(alloc);
    for line in sent.as_slice().split(|b| *b == b'\n') {
        if !text.is_empty() && !line.is_empty() {
            text.extend_from_slice(b" / ")?;
        }
        text.extend_from_slice(line)?;
    }
    Ok(text)
}

// Prints the sum of each device.
fn print_sums(rt: &HostRuntime, files: &[DiskFile]) -> anyhow::Result<()> {
    for file in files {
        let sum = Sha256::digest(file.bytes.as_slice());
        println!(rt;
            "{} {}",
            file.path,
            hex::encode(rt.alloc(), sum.as_slice())?
        )?;
    }
    Ok(())
}

/// Prints what a run sent, and its status.
pub fn print_run(rt: &HostRuntime, sent: &[u8], status: u8) -> anyhow::Result<()> {
    print!(rt; "{}", std::str::from_utf8(sent)?)?;
    println!(rt; "status {status}")?;
    Ok(())
}

/// Makes a run on lent files that are new, and prints what it is answered.
pub fn play_lent(rt: &HostRuntime, run: &Run, trouble: Trouble) -> anyhow::Result<Played> {
    let alloc = rt.alloc();
    let script = run.script.as_slice().to_vec(alloc)?;
    let words = run.words.as_slice();
    let played = lend(alloc, Vec::new(alloc), words, script, trouble)?;
    let sent = sent_of(alloc, played.replies.as_slice())?;
    print_run(rt, sent.as_slice(), played.status)?;
    Ok(played)
}

/// Makes a run whose reads give zeros from its line of that number on, counted from 1, and prints what it is answered.
pub fn play_blank(rt: &HostRuntime, run: &Run, line: usize) -> anyhow::Result<()> {
    play_lent(rt, run, Trouble::Zeros(line.saturating_sub(1)))?;
    Ok(())
}

// The disks, and the files of the folder that none of them is.
fn joined(mut disks: Vec<DiskFile>, folder: Vec<DiskFile>) -> Result<Vec<DiskFile>, AllocError> {
    let attached = disks.len();
    for file in folder {
        let path = file.path.as_str();
        if !disks
            .iter()
            .take(attached)
            .any(|disk| disk.path.as_str() == path)
        {
            disks.push(file)?;
        }
    }
    Ok(disks)
}

// Puts the bytes of the edits into the files.
fn edit(alloc: Global, files: &mut Vec<DiskFile>, edits: &[Edit]) -> anyhow::Result<()> {
    for edit in edits {
        let number = number_of(files.as_slice(), edit.path.as_str()).unwrap_or(usize::MAX);
        let mut patch = Patch::of(alloc, number, edit.at, edit.bytes.as_slice())?;
        anyhow::ensure!(patch.swap(files), "no such place to edit");
    }
    Ok(())
}

// Runs the program over the files that the run before left, and answers those that it leaves.
fn play(rt: &HostRuntime, mut files: Vec<DiskFile>, run: &Run) -> anyhow::Result<Vec<DiskFile>> {
    let alloc = rt.alloc();
    edit(alloc, &mut files, run.edits.as_slice())?;
    let script = run.script.as_slice().to_vec(alloc)?;
    let Ok(mut desk) = MemDesk::reopen(alloc, files, script) else {
        anyhow::bail!("no memory for a desk");
    };
    let status = status_of(alloc, run.words.as_slice(), &mut desk)?;
    let memory = desk.memory;
    let files = joined(memory.disks, memory.folder)?;
    print_run(rt, memory.sent.as_slice(), status)?;
    Ok(files)
}

/// The files on which the second run begins: those that the first one leaves, with the edits of the second.
pub fn left_for(rt: &HostRuntime, first: &Run, second: &Run) -> anyhow::Result<Vec<DiskFile>> {
    let mut files = play(rt, Vec::new(rt.alloc()), first)?;
    edit(rt.alloc(), &mut files, second.edits.as_slice())?;
    Ok(files)
}

/// Copies of files.
pub fn copies_of(alloc: Global, files: &[DiskFile]) -> Result<Vec<DiskFile>, AllocError> {
    let mut copies = Vec::new(alloc);
    for file in files {
        let path = String::from_str(alloc, file.path.as_str())?;
        let bytes = file.bytes.as_slice().to_vec(alloc)?;
        copies.push(DiskFile { path, bytes })?;
    }
    Ok(copies)
}

/// Runs of a case, each over the files that the one before left. The sums of the devices are printed where they are wanted.
pub fn play_all(rt: &HostRuntime, runs: &[Run], sums: bool) -> anyhow::Result<()> {
    let mut files = Vec::new(rt.alloc());
    for run in runs {
        files = play(rt, files, run)?;
        if sums {
            print_sums(rt, files.as_slice())?;
        }
    }
    Ok(())
}
