//! The program: words, devices, the run, a status.
//!
//! The words say which chooser the pool takes, how many rounds of steps follow each line, which devices are attached, and
//! whether the lines are those of the input or generated commands stand in their place.
//! `run_on` is the program over a pool of any kind, and says what such a pool says of its commands. `run_in_memory` is the
//! program over the pool in memory, whose commands mean what they mean to plain objects.
ghost use Rattle.std.specs.Prelude.{◌≡◌, ◌≢◌, ◌⊎◌, [], ◌+◌, ◌≤◌, ℕ, List, length, map, IfOk, OnOk, IfErr, IsErrOf};
ghost use Rattle.std.specs.String.{string_bytes};
ghost use Rattle.zr_base.specs.Counts.{HasRisen};
ghost use Rattle.zr_shelf.specs.Counts.{NoneFell};
ghost use Rattle.zr_shelf.specs.Moments.{Throughout};
ghost use Rattle.zr_shelf.specs.declared.desk.DeskErr.TheVariants.{Failed};
ghost use Rattle.zr_command.specs.Meanings.{MayBeDamaged, plain};
ghost use Rattle.zr_session.specs.Answers.{IsAttached, IsPartlyAttached, IsDone, TellsBadLine, TellsLimit, TellsFault, TellsDamage, AnswersTaken, AnswersFront, AnswersPartly};
ghost use Rattle.zr_session.specs.Ends.{HasCause, EndsBy, IsOpenedTo};
ghost use Rattle.zr_session.specs.Generated.{TellsTally, TellsPartly, TellsFaultThere, TellsUnserved, TellsDamageThere, TellsNothing, Never};
ghost use Rattle.zr_session.specs.Moments.{IsAttaching, IsSessionMoment, IsProgramMoment};
ghost use Rattle.zr_session.specs.Started.{RunsTo, StopsAtDevice};
ghost use Rattle.zr_session.specs.Headline.{NoneRose, IsNoCommandLine};
ghost use Rattle.zr_script.specs.CommandLine.{IsCommandLine};
ghost use Rattle.zr_words.specs.Reading.{HasPaths};
ghost use Rattle.zr_words.specs.Views.{path_of, device_of, line_of};

use crate::course::Course;
use crate::end::End;
use crate::generated::generate;
use crate::memory::MemoryPool;
use crate::session::serve;
use std::alloc::Global;
use zr_base::{Blob, Items, NoMemory};
use zr_choose::Chooser;
use zr_command::Pool;
use zr_shelf::{Desk, DeskErr};
use zr_words::{CommandLine, Device, chooser_named, parse_words};

/// The paths of the devices.
pub fn paths_of(alloc: Global, devices: &[Device]) -> Result<Items<Blob>, NoMemory>
    ensures { IfOk result (λ paths. paths ≡ map path_of devices.now) }
{
    let mut paths = Items::new(alloc);
    for device in devices {
        paths.push(Blob::copy_of(alloc, device.path.as_bytes())?)?;
    }
    Ok(paths)
}

/// Attaches the devices in order, each to be made with its size were it not there. Those before one that was not
/// attached stay.
fn attach_all<D: Desk>(devices: &[Device], desk: &mut D) -> Result<(), DeskErr>
    ensures done { D.tells desk.old → OnOk result (IsAttached (map device_of devices.now) (D.world desk.old).now (D.world desk.new).now) }
    ensures partly { D.tells desk.old → IfErr result (λ e. IsPartlyAttached (map device_of devices.now) (D.world desk.old).now (D.world desk.new).now) }
    ensures moments { D.tells desk.old → Throughout (IsAttaching (map device_of devices.now) (D.world desk.old).now) (D.world desk.old) (D.world desk.new) }
    ensures sizes { OnOk result (length (D.sizes desk.new) ≡ length (D.sizes desk.old) + length devices.now) }
    ensures failed { IsErrOf result Failed → HasRisen (D.counts desk.old).attach (D.counts desk.new).attach }
    ensures none_fell { NoneFell (D.counts desk.old) (D.counts desk.new) }
    ensures told { D.tells desk.old → D.tells desk.new }
{
    for device in devices {
        desk.attach(device.path, device.make)?;
    }
    Ok(())
}

/// Attaches the devices, and answers the input or does the generated run.
fn open_session<P: Pool + Drop, D: Desk>(
    alloc: Global,
    line: &CommandLine,
    pick: &Chooser,
    desk: &mut D,
) -> End
    requires none { D.sizes desk.old ≡ [] }
    requires line { (words : List (List ℕ)) × IsCommandLine words (line_of line.now) }
    requires paths { HasPaths (line_of line.now) }
    ensures ends { D.tells desk.old → IsOpenedTo (EndsBy P.meaning (line_of line.now)) result (line_of line.now).devs (D.world desk.old).now (D.world desk.new).now }
    ensures moments { D.tells desk.old → Throughout (IsSessionMoment P.meaning (line_of line.now) (D.world desk.old).now) (D.world desk.old) (D.world desk.new) }
    ensures cause { HasCause (MayBeDamaged P.meaning) (D.counts desk.old) (D.counts desk.new) result }
    ensures told { D.tells desk.old → D.tells desk.new }
{
    let devices = line.devices.as_slice();
    let course = Course {
        pick,
        rounds: line.auto.unwrap_or(0),
    };
    let Ok(paths) = paths_of(alloc, devices) else {
        return End::NoMemory;
    };
    let Ok(mut pool) = P::closed(alloc, paths) else {
        return End::NoMemory;
    };
    match attach_all(devices, desk) {
        Ok(()) => {}
        Err(DeskErr::Failed) => return End::AttachFault,
        Err(DeskErr::NoMemory) => return End::NoMemory,
    }
    match line.generate {
        Some((number, count)) => generate(alloc, number, count, devices, &course, &mut pool, desk),
        None => serve(alloc, &course, &mut pool, desk),
    }
}

/// Runs the program over a pool of the kind `P`: reads the words, attaches the devices in order and answers the input
/// line by line. It answers the status.
///
/// The words are options and 1 to 32 devices, of which no path stands twice. The pool's is the first chooser of the
/// name that `--policy` has, without it the first of all. With `--auto N` there follow N rounds behind each line: a step
/// of each actor that has work then. Input is taken in pieces of at most 65,536 bytes.
///
/// With `--gen NUMBER:COUNT` no input is taken: the commands of that generated run are done, with the same rounds behind
/// each, and in the place of their replies one line is sent that tells how many were accepted and refused, and the
/// SHA-256 of the replies to its sums. It takes memory linear in COUNT.
pub fn run_on<P: Pool + Drop, D: Desk>(
    alloc: Global,
    words: &[String],
    desk: &mut D,
    choosers: &[Chooser],
) -> u8
    requires { D.sizes desk.old ≡ [] }
    // The program ends with one of these statuses.
    ensures known { result ≤ 9 }
    // At status 0 what was sent are the answers of such a pool to all lines, or to those before a `quit`; with `--gen` it is the one line that tells what the answers to all commands came to.
    ensures done { D.tells desk.old → result ≡ 0 → RunsTo (IsDone P.meaning) (TellsTally P.meaning) (map (λ c. string_bytes c.name) choosers.now) (map string_bytes words.now) (D.world desk.old).now (D.world desk.new).now }
    // At status 1 the words are no command line, and nothing was done at all.
    ensures bad_words { result ≡ 1 → IsNoCommandLine (map (λ c. string_bytes c.name) choosers.now) (map string_bytes words.now) × (desk.new ≡ desk.old) }
    // Where the words are no command line, no other status comes, unless memory ran out.
    ensures words { IsNoCommandLine (map (λ c. string_bytes c.name) choosers.now) (map string_bytes words.now) → (result ≡ 1) ⊎ (result ≡ 9) }
    // At status 2 a call that takes of the input failed. All lines that were taken whole are answered. With `--gen` it does not come.
    ensures input_fault { result ≡ 2 → HasRisen (D.counts desk.old).input (D.counts desk.new).input }
    ensures taken { D.tells desk.old → result ≡ 2 → RunsTo (AnswersTaken P.meaning) Never (map (λ c. string_bytes c.name) choosers.now) (map string_bytes words.now) (D.world desk.old).now (D.world desk.new).now }
    // At status 3 a call that sends failed. A front of the answers was sent, or with `--gen` of its line.
    ensures output_fault { result ≡ 3 → HasRisen (D.counts desk.old).output (D.counts desk.new).output }
    ensures partly { D.tells desk.old → result ≡ 3 → RunsTo (AnswersPartly P.meaning) (TellsPartly P.meaning) (map (λ c. string_bytes c.name) choosers.now) (map string_bytes words.now) (D.world desk.old).now (D.world desk.new).now }
    // At status 4 a device failed within a command, and that is told.
    ensures disk_fault { result ≡ 4 → HasRisen (D.counts desk.old).disk (D.counts desk.new).disk }
    ensures stopped { D.tells desk.old → result ≡ 4 → RunsTo (TellsFault P.meaning) (TellsFaultThere P.meaning) (map (λ c. string_bytes c.name) choosers.now) (map string_bytes words.now) (D.world desk.old).now (D.world desk.new).now }
    // At status 5 all lines before a bad one are answered, and that one is told with its number. With `--gen` it is a command that the pool does not serve.
    ensures bad_line { D.tells desk.old → result ≡ 5 → RunsTo (TellsBadLine P.meaning) (TellsUnserved P.meaning) (map (λ c. string_bytes c.name) choosers.now) (map string_bytes words.now) (D.world desk.old).now (D.world desk.new).now }
    // At status 6 a command met damage, and that is told.
    ensures may_be { result ≡ 6 → MayBeDamaged P.meaning }
    ensures damaged { D.tells desk.old → result ≡ 6 → RunsTo (TellsDamage P.meaning) (TellsDamageThere P.meaning) (map (λ c. string_bytes c.name) choosers.now) (map string_bytes words.now) (D.world desk.old).now (D.world desk.new).now }
    // At status 7 a device was not attached, those before it are, and nothing else was done.
    ensures attach_fault { result ≡ 7 → HasRisen (D.counts desk.old).attach (D.counts desk.new).attach }
    ensures unattached { D.tells desk.old → result ≡ 7 → StopsAtDevice (map (λ c. string_bytes c.name) choosers.now) (map string_bytes words.now) (D.world desk.old).now (D.world desk.new).now }
    // At status 8 2^32 bytes were taken and no end came, all their whole lines are answered, and that is told. With `--gen` it does not come.
    ensures limit { D.tells desk.old → result ≡ 8 → RunsTo (TellsLimit P.meaning) Never (map (λ c. string_bytes c.name) choosers.now) (map string_bytes words.now) (D.world desk.old).now (D.world desk.new).now }
    // At status 9 memory ran out. All that was sent are the answers to first lines, and with `--gen` nothing.
    ensures memory { D.tells desk.old → result ≡ 9 → ((D.world desk.new).now ≡ (D.world desk.old).now) ⊎ StopsAtDevice (map (λ c. string_bytes c.name) choosers.now) (map string_bytes words.now) (D.world desk.old).now (D.world desk.new).now ⊎ RunsTo (AnswersFront P.meaning) (TellsNothing P.meaning) (map (λ c. string_bytes c.name) choosers.now) (map string_bytes words.now) (D.world desk.old).now (D.world desk.new).now }
    // At each moment what was sent are the replies to first commands and no more than a front of the next text, and the disks stand as such a pool says of the commands that are done, or of the one that is begun.
    ensures moments { D.tells desk.old → Throughout (IsProgramMoment P.meaning (map (λ c. string_bytes c.name) choosers.now) (map string_bytes words.now) (D.world desk.old).now) (D.world desk.old) (D.world desk.new) }
    // Where no call failed, no damage was met and no line is a bad one, the whole input is answered, unless it is too long or memory ran out.
    ensures complete { NoneRose (D.counts desk.old) (D.counts desk.new) → (result ≡ 0) ⊎ (result ≡ 1) ⊎ (result ≡ 5) ⊎ (result ≡ 6) ⊎ (result ≡ 8) ⊎ (result ≡ 9) }
{
    match parse_words(alloc, words) {
        Ok(Some(line)) => {
            let Some(pick) = chooser_named(choosers, &line) else {
                return End::BadWords.status();
            };
            open_session::<P, D>(alloc, &line, pick, desk).status()
        }
        Ok(None) => End::BadWords.status(),
        Err(NoMemory) => End::NoMemory.status(),
    }
}

/// Runs the program over a pool in memory.
///
/// The words are options and 1 to 32 devices, of which no path stands twice, and one of the choosers has the name that
/// they ask for. Input is taken in pieces of at most 65,536 bytes.
pub fn run_in_memory<D: Desk>(
    alloc: Global,
    words: &[String],
    desk: &mut D,
    choosers: &[Chooser],
) -> u8
    requires { D.sizes desk.old ≡ [] }
    // The program ends with one of these statuses: damage is met by no pool in memory.
    ensures known { (result ≤ 9) × (result ≢ 6) }
    // At status 0 what was sent are the answers of a pool of plain objects to all lines, or to those before a `quit`; with `--gen` it is the one line that tells what the answers to all commands came to.
    ensures done { D.tells desk.old → result ≡ 0 → RunsTo (IsDone plain) (TellsTally plain) (map (λ c. string_bytes c.name) choosers.now) (map string_bytes words.now) (D.world desk.old).now (D.world desk.new).now }
    // At status 1 the words are no command line, and nothing was done at all.
    ensures bad_words { result ≡ 1 → IsNoCommandLine (map (λ c. string_bytes c.name) choosers.now) (map string_bytes words.now) × (desk.new ≡ desk.old) }
    // Where the words are no command line, no other status comes, unless memory ran out.
    ensures words { IsNoCommandLine (map (λ c. string_bytes c.name) choosers.now) (map string_bytes words.now) → (result ≡ 1) ⊎ (result ≡ 9) }
    // At status 2 a call that takes of the input failed. All lines that were taken whole are answered. With `--gen` it does not come.
    ensures input_fault { result ≡ 2 → HasRisen (D.counts desk.old).input (D.counts desk.new).input }
    ensures taken { D.tells desk.old → result ≡ 2 → RunsTo (AnswersTaken plain) Never (map (λ c. string_bytes c.name) choosers.now) (map string_bytes words.now) (D.world desk.old).now (D.world desk.new).now }
    // At status 3 a call that sends failed. A front of the answers was sent, or with `--gen` of its line.
    ensures output_fault { result ≡ 3 → HasRisen (D.counts desk.old).output (D.counts desk.new).output }
    ensures partly { D.tells desk.old → result ≡ 3 → RunsTo (AnswersPartly plain) (TellsPartly plain) (map (λ c. string_bytes c.name) choosers.now) (map string_bytes words.now) (D.world desk.old).now (D.world desk.new).now }
    // At status 4 a device failed within a command, and that is told.
    ensures disk_fault { result ≡ 4 → HasRisen (D.counts desk.old).disk (D.counts desk.new).disk }
    ensures stopped { D.tells desk.old → result ≡ 4 → RunsTo (TellsFault plain) (TellsFaultThere plain) (map (λ c. string_bytes c.name) choosers.now) (map string_bytes words.now) (D.world desk.old).now (D.world desk.new).now }
    // At status 5 all lines before a bad one are answered, and that one is told with its number. With `--gen` it is a command that the pool does not serve.
    ensures bad_line { D.tells desk.old → result ≡ 5 → RunsTo (TellsBadLine plain) (TellsUnserved plain) (map (λ c. string_bytes c.name) choosers.now) (map string_bytes words.now) (D.world desk.old).now (D.world desk.new).now }
    // At status 7 a device was not attached, those before it are, and nothing else was done.
    ensures attach_fault { result ≡ 7 → HasRisen (D.counts desk.old).attach (D.counts desk.new).attach }
    ensures unattached { D.tells desk.old → result ≡ 7 → StopsAtDevice (map (λ c. string_bytes c.name) choosers.now) (map string_bytes words.now) (D.world desk.old).now (D.world desk.new).now }
    // At status 8 2^32 bytes were taken and no end came, all their whole lines are answered, and that is told. With `--gen` it does not come.
    ensures limit { D.tells desk.old → result ≡ 8 → RunsTo (TellsLimit plain) Never (map (λ c. string_bytes c.name) choosers.now) (map string_bytes words.now) (D.world desk.old).now (D.world desk.new).now }
    // At status 9 memory ran out. All that was sent are the answers to first lines, and with `--gen` nothing.
    ensures memory { D.tells desk.old → result ≡ 9 → ((D.world desk.new).now ≡ (D.world desk.old).now) ⊎ StopsAtDevice (map (λ c. string_bytes c.name) choosers.now) (map string_bytes words.now) (D.world desk.old).now (D.world desk.new).now ⊎ RunsTo (AnswersFront plain) (TellsNothing plain) (map (λ c. string_bytes c.name) choosers.now) (map string_bytes words.now) (D.world desk.old).now (D.world desk.new).now }
    // At each moment what was sent are the replies to first commands and no more than a front of the next text, and the disks read as when all devices were attached.
    ensures moments { D.tells desk.old → Throughout (IsProgramMoment plain (map (λ c. string_bytes c.name) choosers.now) (map string_bytes words.now) (D.world desk.old).now) (D.world desk.old) (D.world desk.new) }
    // Where no call failed and no line is a bad one, the whole input is answered, unless it is too long or memory ran out.
    ensures complete { NoneRose (D.counts desk.old) (D.counts desk.new) → (result ≡ 0) ⊎ (result ≡ 1) ⊎ (result ≡ 5) ⊎ (result ≡ 8) ⊎ (result ≡ 9) }
{
    run_on::<MemoryPool, D>(alloc, words, desk, choosers)
}
