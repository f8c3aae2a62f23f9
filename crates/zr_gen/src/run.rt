//! The commands of a generated run.
//!
//! Each part of the run is added behind the parts before it. The drawn lines pass the state of the draws from one to
//! the next, so that a line depends on the number and on the lines before it alone.
ghost use Rattle.std.specs.Prelude.{◌≡◌, ◌≤◌, ◌<◌, ◌++◌, ◌∷◌, [], ◌+◌, ◌%◌, ◌==◌, if◌then◌else◌, IfOk, OnOk, length, map, codes, IsTrue};
ghost use Rattle.std.specs.List.{range_with_len, list_all, AllByRecursion};
ghost use Rattle.zr_script.specs.Words.{is_path, are_different};
ghost use Rattle.zr_gen.specs.Spelled.{HasLine};
ghost use Rattle.zr_script.specs.declared.command.Command.TheVariants as cmd;
ghost use Rattle.zr_script.specs.Generated.{drawn, before_line, drawn_lines, makes, first_two, script_of};

use crate::draws::Draws;
use std::alloc::Global;
use zr_base::{Blob, Items, NoMemory};
use zr_script::Command;

/// The objects of a run, with the identities from 0 on.
const OBJECTS: u64 = 16;

/// All commands of the run of `number` with `count` drawn lines: `count` and 39 of them, where `count` is not 0. The
/// pool is made on the first two devices, the third is added and the first is removed. It takes memory and time linear
/// in `count`. Where the devices have different paths each command is one that some line asks for.
pub fn script_of(
    alloc: Global,
    number: u64,
    count: u32,
    devs: &[Blob],
) -> Result<Items<Command>, NoMemory>
    requires { 3 ≤ length devs.now }
    ensures commands { IfOk result (λ commands. commands ≡ script_of number count devs.now) }
    ensures length { IfOk result (λ commands. 0 < count → length commands ≡ count + 39) }
    ensures lines { IsTrue (list_all is_path devs.now) → IsTrue (are_different devs.now) → IfOk result (λ commands. AllByRecursion HasLine commands) }
{
    let mut commands = Items::new(alloc);
    commands.push(create_line(alloc, devs)?)?;
    put_makes(&mut commands)?;
    put_drawn(alloc, &mut commands, number, u64::from(count), devs)?;
    put_sums(&mut commands)?;
    commands.push(Command::Audit)?;
    commands.push(Command::Export)?;
    Ok(commands)
}

/// The line that makes the pool, on the first two devices.
fn create_line(alloc: Global, devs: &[Blob]) -> Result<Command, NoMemory>
    requires { 2 ≤ length devs.now }
    ensures { IfOk result (λ command. command ≡ cmd.Create (codes "gen") 1 (first_two devs.now)) }
{
    let name = Blob::copy_of(alloc, b"gen")?;
    let mut pool = Items::new(alloc);
    pool.push(Blob::copy_of(alloc, devs[0].as_slice())?)?;
    pool.push(Blob::copy_of(alloc, devs[1].as_slice())?)?;
    Ok(Command::Create {
        name,
        guid: 1,
        devs: pool,
    })
}

/// Adds the lines that make the objects, with blocks of 1, 2 and 4 units in turn.
fn put_makes(commands: &mut Items<Command>) -> Result<(), NoMemory>
    ensures { OnOk result (commands.new ≡ commands.old ++ makes) }
{
    for id in 0..OBJECTS {
        let units = units_of(id);
        commands.push(Command::Make { id, units })?;
    }
    Ok(())
}

/// The units of the blocks of an object.
fn units_of(id: u64) -> u64
    ensures { result ≡ (if id % 3 == 0 then 1 else (if id % 3 == 1 then 2 else 4)) }
{
    match id % 3 {
        0 => 1,
        1 => 2,
        _ => 4,
    }
}

/// Adds the drawn lines, with what stands before each.
fn put_drawn(
    alloc: Global,
    commands: &mut Items<Command>,
    number: u64,
    count: u64,
    devs: &[Blob],
) -> Result<(), NoMemory>
    requires devices { 3 ≤ length devs.now }
    requires count { count < 4294967296 }
    ensures { OnOk result (commands.new ≡ commands.old ++ drawn_lines devs.now count count 1 number) }
{
    let mut draws = Draws::new(number);
    for done in 0..count {
        put_before(alloc, commands, count, done + 1, devs)?;
        commands.push(drawn_line(&mut draws))?;
    }
    Ok(())
}

/// Adds what stands before the drawn line number `line`, counted from 1, of `count`.
fn put_before(
    alloc: Global,
    commands: &mut Items<Command>,
    count: u64,
    line: u64,
    devs: &[Blob],
) -> Result<(), NoMemory>
    requires devices { 3 ≤ length devs.now }
    requires count { count < 4294967296 }
    ensures { OnOk result (commands.new ≡ commands.old ++ before_line devs.now count line) }
{
    if line == count / 4 + 1 {
        let dev = Blob::copy_of(alloc, devs[2].as_slice())?;
        commands.push(Command::Add { dev })?;
        let dev = Blob::copy_of(alloc, devs[0].as_slice())?;
        commands.push(Command::Remove { dev })?;
    }
    if line == count / 2 + 1 {
        commands.push(Command::Checkpoint)?;
    }
    if line == 3 * count / 4 + 1 {
        commands.push(Command::Discard)?;
    }
    Ok(())
}

/// The line that the next draws give: one draw for its kind, then those of its object and range, if it has one.
fn drawn_line(draws: &mut Draws) -> Command
    ensures { drawn draws.old ≡ (result, draws.new) }
{
    let kind = draws.below(16);
    match kind {
        12 => return Command::Sync,
        13 => return Command::StepEvac,
        14 => return Command::StepDiscard,
        15 => return Command::StepCondense,
        _ => {}
    }
    let id = draws.below(OBJECTS);
    let off = 512 * draws.below(1024);
    if kind < 8 {
        let len = 1 + draws.below(4096);
        let byte = 1 + draws.below(255) as u8;
        Command::Fill { id, off, len, byte }
    } else if kind < 11 {
        let len = 1 + draws.below(8192);
        Command::Punch { id, off, len }
    } else {
        Command::Read { id, off, len: 64 }
    }
}

/// Adds the lines that ask for the sums of the objects.
fn put_sums(commands: &mut Items<Command>) -> Result<(), NoMemory>
    ensures { OnOk result (commands.new ≡ commands.old ++ map cmd.Sum (range_with_len 0 16)) }
{
    for id in 0..OBJECTS {
        commands.push(Command::Sum { id })?;
    }
    Ok(())
}
