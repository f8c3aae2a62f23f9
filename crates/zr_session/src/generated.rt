//! A run of commands that two numbers give.
//!
//! No input is taken and no reply is sent: the replies are counted, and one line at the end tells what they came to.
//! Behind each command the same rounds follow as behind a line.
ghost use Rattle.std.specs.Prelude.{◌≡◌, ◌≤◌, ℕ, List, length, map, IfOk, IfErr, OnOk, IsTrue};
ghost use Rattle.std.specs.List.{AllByRecursion, list_all};
ghost use Rattle.zr_shelf.specs.Counts.{NoneFell};
ghost use Rattle.zr_shelf.specs.Moments.{Throughout};
ghost use Rattle.zr_script.specs.Words.{is_path, are_different};
ghost use Rattle.zr_script.specs.declared.command.Command.{Command};
ghost use Rattle.zr_command.specs.Meanings.{Disks, disks_of, MayBeDamaged};
ghost use Rattle.zr_gen.specs.Spelled.{HasLine};
ghost use Rattle.zr_session.specs.Agenda.{agenda, IsGiven};
ghost use Rattle.zr_session.specs.Ends.{HasCause, GeneratesAs};
ghost use Rattle.zr_session.specs.Lines.{StandsForOne};
ghost use Rattle.zr_session.specs.Moments.{IsMomentOf, IsGeneratedMoment};
ghost use Rattle.zr_session.specs.declared.replies.Replies.TheVariants.{Kept};
ghost use Rattle.zr_session.specs.Tallied.{DoesCommands, StopsAmong};
ghost use Rattle.zr_words.specs.Views.{path_of};

use crate::command::{do_command, tell};
use crate::course::Course;
use crate::end::End;
use crate::program::paths_of;
use crate::replies::Replies;
use crate::rounds::do_rounds;
use crate::tally::Tally;
use std::alloc::Global;
use zr_command::Pool;
use zr_gen::script_of;
use zr_script::Command;
use zr_shelf::Desk;
use zr_words::Device;

/// Does the commands, with rounds behind each, and counts their replies.
fn do_commands<P: Pool, D: Desk>(
    alloc: Global,
    commands: &[Command],
    course: &Course,
    pool: &mut P,
    desk: &mut D,
) -> Result<Tally, End>
    requires fits { P.fits pool.old (D.sizes desk.old) }
    requires lines { AllByRecursion HasLine commands.now }
    ensures done { D.tells desk.old → (D.world desk.old).now.paths ≡ P.paths pool.old → (before : P.meaning.State) → P.stands pool.old (disks_of (D.world desk.old).now) before → IfOk result (λ tally. StandsForOne (P.stands pool.new) (D.world desk.new).now (λ after. DoesCommands P.meaning (agenda course.now.rounds commands.now) tally before after (D.world desk.old).now (D.world desk.new).now)) }
    ensures stopped { D.tells desk.old → (D.world desk.old).now.paths ≡ P.paths pool.old → (before : P.meaning.State) → P.stands pool.old (disks_of (D.world desk.old).now) before → IfErr result (StopsAmong P.meaning (agenda course.now.rounds commands.now) before (D.world desk.old).now (D.world desk.new).now) }
    ensures moments { D.tells desk.old → (D.world desk.old).now.paths ≡ P.paths pool.old → (before : P.meaning.State) → P.stands pool.old (disks_of (D.world desk.old).now) before → Throughout (IsMomentOf Command P.meaning IsGiven Kept (agenda course.now.rounds commands.now) before (D.world desk.old).now) (D.world desk.old) (D.world desk.new) }
    ensures named { D.tells desk.old → OnOk result ((D.world desk.new).now.paths ≡ (D.world desk.old).now.paths) }
    ensures paths { OnOk result (P.paths pool.new ≡ P.paths pool.old) }
    ensures cause { IfErr result (HasCause (MayBeDamaged P.meaning) (D.counts desk.old) (D.counts desk.new)) }
    ensures none_fell { NoneFell (D.counts desk.old) (D.counts desk.new) }
    ensures told { D.tells desk.old → D.tells desk.new }
{
    let mut tally = Tally::new(alloc);
    for index in 0..commands.len() {
        let command = &commands[index];
        let number = index as u64 + 1;
        let reply = do_command(
            alloc,
            command,
            number,
            course.pick,
            Replies::Kept,
            pool,
            desk,
        )?;
        tally.add(alloc, command, &reply)?;
        do_rounds(alloc, number, course, Replies::Kept, pool, desk)?;
    }
    Ok(tally)
}

/// Does the run of `number` with `count` drawn lines on the devices, of which there are at least three, and sends its
/// line. It takes memory linear in `count` for the commands.
pub fn generate<P: Pool, D: Desk>(
    alloc: Global,
    number: u64,
    count: u32,
    devices: &[Device],
    course: &Course,
    pool: &mut P,
    desk: &mut D,
) -> End
    requires fits { P.fits pool.old (D.sizes desk.old) }
    requires closed { (disks : Disks) → P.stands pool.old disks (P.meaning.none disks) }
    requires enough { 3 ≤ length devices.now }
    requires paths { IsTrue (list_all is_path (map path_of devices.now)) }
    requires different { IsTrue (are_different (map path_of devices.now)) }
    ensures ends { D.tells desk.old → (D.world desk.old).now.paths ≡ P.paths pool.old → GeneratesAs P.meaning (record { number = number; count = count; devs = map path_of devices.now; rounds = course.now.rounds }) result (D.world desk.old).now (D.world desk.new).now }
    ensures moments { D.tells desk.old → (D.world desk.old).now.paths ≡ P.paths pool.old → Throughout (IsGeneratedMoment P.meaning (record { number = number; count = count; devs = map path_of devices.now; rounds = course.now.rounds }) (D.world desk.old).now) (D.world desk.old) (D.world desk.new) }
    ensures cause { HasCause (MayBeDamaged P.meaning) (D.counts desk.old) (D.counts desk.new) result }
    ensures none_fell { NoneFell (D.counts desk.old) (D.counts desk.new) }
    ensures told { D.tells desk.old → D.tells desk.new }
{
    let Ok(paths) = paths_of(alloc, devices) else {
        return End::NoMemory;
    };
    let Ok(commands) = script_of(alloc, number, count, paths.as_slice()) else {
        return End::NoMemory;
    };
    let tally = match do_commands(alloc, commands.as_slice(), course, pool, desk) {
        Ok(tally) => tally,
        Err(end) => return end,
    };
    let Ok(line) = tally.line(alloc, number, count) else {
        return End::NoMemory;
    };
    tell(desk, line.as_slice(), End::Answered)
}
