//! Scripts over devices in memory, and what they are answered.
//!
//! The input has cases one behind another, of which `cases` says the form. For each run its replies are printed, then its
//! status and the SHA-256 of each device. Four tables ask something else of a case: what is shown where its run is stopped at
//! any moment, what comes where a call fails, whether it reads of a device that is gone, and whether its removals take no more
//! steps than units were left to copy. Behind the replies and the status they print what they found. And a case may have
//! devices that read as zeros from some line on.
#![tactic(auto)]

mod cases;
mod copies;
mod faults;
mod lent_desk;
mod patch;
mod reads;
mod runs;
mod states;
mod stops;

use crate::cases::{Case, Kind, cases_of};
use std::io::Read;

// Prints what is asked of a case.
fn play_case(rt: &HostRuntime, case: &Case) -> anyhow::Result<()> {
    match (case.kind, case.runs.as_slice()) {
        (Kind::Plain, runs) => runs::play_all(rt, runs, true),
        (Kind::Answers, runs) => runs::play_all(rt, runs, false),
        (Kind::Stops(line), [run, probe]) => {
            stops::stops(rt, line, Vec::new(rt.alloc()), run, probe)
        }
        (Kind::Stops(line), [before, run, probe]) => {
            stops::stops(rt, line, runs::left_for(rt, before, run)?, run, probe)
        }
        (Kind::Faults, [run, probe]) => faults::faults(rt, run, probe),
        (Kind::Reads, [run]) => reads::reads(rt, run),
        (Kind::Copies, [run]) => copies::copies(rt, run),
        (Kind::Zeros(line), [run]) => runs::play_blank(rt, run, line),
        _ => anyhow::bail!(
            "a case has a run, stops and faults a probe too, and stops may have a run before"
        ),
    }
}

fn main(rt: HostRuntime) -> anyhow::Result<()> {
    let alloc = rt.alloc();
    let mut text = Vec::new(alloc);
    rt.stdin().read_to_end(&mut text)?;
    for case in cases_of(alloc, text.as_slice())?.as_slice() {
        play_case(&rt, case)?;
    }
    Ok(())
}
