//! A short run in full, and lines of a longer one.
use super::*;
use crate::draws::Draws;
use std::alloc::Global;
use std::test::Fail;
use zr_base::{Blob, Items, NoMemory};
use zr_script::Command;

fn run_of(alloc: Global, number: u64, count: u32) -> Result<Items<Command>, NoMemory> {
    let devs = [
        Blob::copy_of(alloc, b"d0")?,
        Blob::copy_of(alloc, b"d1")?,
        Blob::copy_of(alloc, b"d2")?,
    ];
    script_of(alloc, number, count, &devs)
}

/// The line of a command, without the paths of its devices.
fn text_of(alloc: Global, command: &Command) -> Result<String, NoMemory> {
    let text = match command {
        Command::Create { guid, .. } => format!(in alloc; "create {guid}")?,
        Command::Make { id, units } => format!(in alloc; "make {id} {units}")?,
        Command::Fill { id, off, len, byte } => format!(in alloc; "fill {id} {off} {len} {byte}")?,
        Command::Punch { id, off, len } => format!(in alloc; "punch {id} {off} {len}")?,
        Command::Read { id, off, len } => format!(in alloc; "read {id} {off} {len}")?,
        Command::Sum { id } => format!(in alloc; "sum {id}")?,
        Command::Sync => String::from_str(alloc, "sync")?,
        Command::Add { .. } => String::from_str(alloc, "add")?,
        Command::Remove { .. } => String::from_str(alloc, "remove")?,
        Command::Checkpoint => String::from_str(alloc, "checkpoint")?,
        Command::Discard => String::from_str(alloc, "checkpoint -d")?,
        Command::StepEvac => String::from_str(alloc, "step evac")?,
        Command::StepDiscard => String::from_str(alloc, "step discard")?,
        Command::StepCondense => String::from_str(alloc, "step condense")?,
        Command::Audit => String::from_str(alloc, "audit")?,
        Command::Export => String::from_str(alloc, "export")?,
        _ => String::from_str(alloc, "another")?,
    };
    Ok(text)
}

#[test]
fn the_first_draw(rt: HostRuntime) -> Result<(), Fail> {
    let mut draws = Draws::new(0);
    assert_eq!(rt; draws.below(2147483648), 167951807);
    Ok(())
}

#[test]
fn lines_of_runs(rt: HostRuntime) -> Result<(), Fail> {
    let alloc = rt.alloc();
    let short = run_of(alloc, 0, 1)?;
    let long = run_of(alloc, 7, 20)?;
    assert_eq!(rt; short.len(), 40);
    assert_eq!(rt; long.len(), 59);
    let cases = [
        (&short, 0, "create 1"),
        (&short, 1, "make 0 1"),
        (&short, 16, "make 15 1"),
        (&short, 17, "add"),
        (&short, 18, "remove"),
        (&short, 19, "checkpoint"),
        (&short, 20, "checkpoint -d"),
        (&short, 21, "step condense"),
        (&short, 22, "sum 0"),
        (&short, 37, "sum 15"),
        (&short, 38, "audit"),
        (&short, 39, "export"),
        (&long, 17, "step discard"),
        (&long, 19, "fill 1 119296 2308 110"),
        (&long, 22, "add"),
        (&long, 26, "punch 5 450560 6121"),
        (&long, 27, "step evac"),
        (&long, 29, "checkpoint"),
        (&long, 30, "read 4 184320 64"),
        (&long, 35, "checkpoint -d"),
        (&long, 37, "sync"),
        (&long, 40, "fill 11 463360 3797 144"),
    ];
    for (run, index, want) in cases {
        if let Some(command) = run.as_slice().get(index) {
            let text = text_of(alloc, command)?;
            assert_eq!(rt; text.as_str(), want, "{index}");
        }
    }
    Ok(())
}
