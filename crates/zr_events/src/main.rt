//! Events over a space, and what the space is after each.
//!
//! The input has an event a line. For each a line is printed: what it is answered, the units of each device by use, and a sum
//! of all that the space tells of its devices and of each block's address. With the word `full` the text of which the sum is
//! taken is printed below it.
//!
//! bench/events.py makes the events, lawful ones from numbers, and what is to be answered, from a model of its own that has for
//! each unit what it is used for.
#![tactic(auto)]

mod calls;
mod events;
mod game;
mod tell;

ghost use Rattle.std.specs.Prelude.{◌≡◌, ◌<◌};
ghost use Rattle.zr_base.specs.declared.space.Policy.{Policy};
ghost use Rattle.zr_rules.specs.Choices.{AreRuns, IsPick};

use crate::events::event_of;
use crate::game::Game;
use crate::tell::{columns_of, sum_of, text_of};
use std::alloc::Global;
use std::env;
use std::io::Read;
use zr_base::{Extent, Policy};
use zr_choose::{Chooser, pick_best, pick_first};

// Prints what an event is answered and what is then told of the space.
fn print_event(rt: &HostRuntime, game: &Game, answer: &str, full: bool) -> anyhow::Result<()> {
    let alloc = rt.alloc();
    let Ok(columns) = columns_of(alloc, &game.space) else {
        anyhow::bail!("no memory for the columns");
    };
    let Ok(text) = text_of(alloc, &game.space, game.live.as_slice()) else {
        anyhow::bail!("no memory for the text");
    };
    println!(rt; "{answer}{columns} | {:x}", sum_of(text.as_bytes()))?;
    if full {
        print!(rt; "{text}")?;
    }
    Ok(())
}

// Plays the events of an input, with the policies `first` and `best`.
fn play_all(rt: &HostRuntime, input: &[u8], full: bool) -> anyhow::Result<()> {
    let alloc = rt.alloc();
    let first = Chooser::new(
        String::from_str(alloc, "first")?,
        Policy::First,
        Box::new(
            alloc,
            |want: u64, runs: &[Extent]| -> Option<usize>
                requires { (0 < want) × AreRuns runs.now }
                ensures { IsPick Policy.First want runs.entry.now result }
            { pick_first(want, runs) },
        )?,
    );
    let best = Chooser::new(
        String::from_str(alloc, "best")?,
        Policy::Best,
        Box::new(
            alloc,
            |want: u64, runs: &[Extent]| -> Option<usize>
                requires { (0 < want) × AreRuns runs.now }
                ensures { IsPick Policy.Best want runs.entry.now result }
            { pick_best(want, runs) },
        )?,
    );
    play_by(rt, input, full, &first, &best)
}

// Plays the events of an input with these choosers.
fn play_by(
    rt: &HostRuntime,
    input: &[u8],
    full: bool,
    first: &Chooser,
    best: &Chooser,
) -> anyhow::Result<()> {
    let alloc = rt.alloc();
    let mut game = Game::new(alloc, Policy::First);
    for line in input.split(|b| *b == b'\n') {
        if line.is_empty() {
            continue;
        }
        let event = event_of(alloc, line)?;
        let pick = if game.policy == Policy::Best {
            best
        } else {
            first
        };
        let Ok(answer) = game.play(event, pick) else {
            anyhow::bail!("no memory for an event");
        };
        print_event(rt, &game, answer.as_str(), full)?;
    }
    Ok(())
}

// The whole input.
fn input_of(alloc: Global, rt: &HostRuntime) -> anyhow::Result<Vec<u8>> {
    let mut input = Vec::new(alloc);
    rt.stdin().read_to_end(&mut input)?;
    Ok(input)
}

fn main(rt: HostRuntime) -> anyhow::Result<()> {
    let full = env::args(&rt)?.skip(1).any(|word| word.as_str() == "full");
    let input = input_of(rt.alloc(), &rt)?;
    play_all(&rt, input.as_slice(), full)
}
