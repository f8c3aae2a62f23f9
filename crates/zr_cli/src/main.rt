//! `zr [--policy NAME] [--auto N] [--gen NUMBER:COUNT] DEV..` answers the script on standard input, or does a generated run,
//! over the device files that are named.
//!
//! `main` makes the words and the desk over files, and exits with the status. `answer` adds the choosers, over any desk:
//! a desk over files tells no content, so what its status means is said where it is told. All else is `run`'s.
#![tactic(auto)]

ghost use Rattle.std.specs.Prelude.{◌≡◌, ◌⊎◌, [], ◌<◌, ◌≤◌, map, IfOk, OnErr};
ghost use Rattle.zr_base.specs.declared.space.Policy.{Policy};
ghost use Rattle.zr_rules.specs.Choices.{AreRuns, IsPick};
ghost use Rattle.std.specs.String.{string_bytes};
ghost use Rattle.zr_session.specs.Headline.{IsNoCommandLine};
ghost use Rattle.zr_cli.specs.Statuses.{chooser_names, ComesTo, TellsFaults};

use std::alloc::Global;
use std::env;
use std::process::ExitCode;
use zr_base::{Extent, NoMemory, Policy};
use zr_choose::{Chooser, pick_best, pick_dynamic, pick_first};
use zr_files::FileDesk;
use zr_run::run;
use zr_shelf::Desk;

/// The status for words that are no command line.
const BAD_WORDS: u8 = 1;

/// The status for want of memory.
const NO_MEMORY: u8 = 9;

/// In units: a longest free run below this is short.
const SHORT: u64 = 32;

/// Of a hundred: a metaslab of which fewer units are free is nearly full.
const PERCENT: u64 = 4;

/// Makes the choosers, and runs over the desk. It answers the status. The first chooser is used where no other is asked for.
fn answer<D: Desk>(alloc: Global, words: &[String], desk: &mut D) -> Result<u8, NoMemory>
    requires { D.sizes desk.old ≡ [] }
    ensures known { IfOk result (λ status. status ≤ 9) }
    ensures bad_words { IfOk result (λ status. status ≡ 1 → IsNoCommandLine chooser_names (map string_bytes words.now) × (desk.new ≡ desk.old)) }
    ensures words { IsNoCommandLine chooser_names (map string_bytes words.now) → IfOk result (λ status. (status ≡ 1) ⊎ (status ≡ 9)) }
    // What was attached, taken and sent is what the status says.
    ensures comes_to { D.tells desk.old → IfOk result (λ status. ComesTo chooser_names (map string_bytes words.now) status (D.world desk.old).now (D.world desk.new).now) }
    ensures faults { IfOk result (λ status. TellsFaults status (D.counts desk.old) (D.counts desk.new)) }
    ensures memory { OnErr result (desk.new ≡ desk.old) }
{
    let first = Chooser::new(
        String::from_str(alloc, "first")?,
        Policy::First,
        Box::new(
            alloc,
            |want: u64, runs: &[Extent]| -> Option<usize>
                requires { (0 < want) × AreRuns runs.now }
                ensures { IsPick Policy.First want runs.entry.now result }
            { pick_first(want, runs) },
        )?,
    );
    let best = Chooser::new(
        String::from_str(alloc, "best")?,
        Policy::Best,
        Box::new(
            alloc,
            |want: u64, runs: &[Extent]| -> Option<usize>
                requires { (0 < want) × AreRuns runs.now }
                ensures { IsPick Policy.Best want runs.entry.now result }
            { pick_best(want, runs) },
        )?,
    );
    let dynamic = Chooser::new(
        String::from_str(alloc, "dynamic")?,
        Policy::Dynamic {
            short: SHORT,
            percent: PERCENT,
        },
        Box::new(
            alloc,
            |want: u64, runs: &[Extent]| -> Option<usize>
                requires { (0 < want) × AreRuns runs.now }
                ensures { IsPick (Policy.Dynamic 32 4) want runs.entry.now result }
            { pick_dynamic(SHORT, PERCENT, want, runs) },
        )?,
    );
    let choosers = [dynamic, first, best];
    Ok(run(alloc, words, desk, &choosers))
}

fn main(rt: HostRuntime) -> ExitCode {
    let alloc = rt.alloc();
    let Ok(all) = env::args(&rt) else {
        return ExitCode::from(BAD_WORDS);
    };
    let Ok(words) = all.skip(1).collect::<Vec<String>>(alloc) else {
        return ExitCode::from(NO_MEMORY);
    };
    let mut desk = FileDesk::new(rt);
    match answer(alloc, words.as_slice(), &mut desk) {
        Ok(status) => ExitCode::from(status),
        Err(NoMemory) => ExitCode::from(NO_MEMORY),
    }
}
