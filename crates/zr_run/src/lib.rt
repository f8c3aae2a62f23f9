//! The program over the pool on devices.
//!
//! This is what `zr` does with its words, its devices and its input. What a line means to the pool on devices is said by
//! `on_devices` of zr_pool: its answer is one to the line, the pool is open where it should be, and its objects are those
//! of a pool of plain objects, from what the disks show where it is imported.
#![tactic(auto)]

ghost use Rattle.std.specs.Prelude.{◌≡◌, ◌⊎◌, [], ◌≤◌, map};
ghost use Rattle.std.specs.String.{string_bytes};
ghost use Rattle.zr_base.specs.Counts.{HasRisen};
ghost use Rattle.zr_command.specs.Meanings.{MayBeDamaged};
ghost use Rattle.zr_session.specs.Answers.{IsDone, TellsBadLine, TellsLimit, TellsFault, TellsDamage, AnswersTaken, AnswersFront, AnswersPartly};
ghost use Rattle.zr_session.specs.Generated.{TellsTally, TellsPartly, TellsFaultThere, TellsUnserved, TellsDamageThere, TellsNothing, Never};
ghost use Rattle.zr_session.specs.Started.{RunsTo, StopsAtDevice};
ghost use Rattle.zr_session.specs.Headline.{NoneRose, IsNoCommandLine};
ghost use Rattle.zr_session.specs.Moments.{IsProgramMoment};
ghost use Rattle.zr_shelf.specs.Moments.{Throughout};
ghost use Rattle.zr_pool.specs.Turns.{on_devices};

use std::alloc::Global;
use zr_choose::Chooser;
use zr_pool::DevicePool;
use zr_session::run_on;
use zr_shelf::Desk;

/// Runs the program: reads the words, attaches the devices in order and answers the input
/// line by line. It answers the status.
///
/// The words are options and 1 to 32 devices, of which no path stands twice. The pool's is the first chooser of the
/// name that `--policy` has, without it the first of all. With `--auto N` there follow N rounds behind each line: a step
/// of each actor that has work then. Input is taken in pieces of at most 65,536 bytes.
///
/// With `--gen NUMBER:COUNT` no input is taken: the commands of that generated run are done, with the same rounds behind
/// each, and in the place of their replies one line is sent that tells how many were accepted and refused, and the
/// SHA-256 of the replies to its sums. It takes memory linear in COUNT.
pub fn run<D: Desk>(alloc: Global, words: &[String], desk: &mut D, choosers: &[Chooser]) -> u8
    requires { D.sizes desk.old ≡ [] }
    // The program ends with one of these statuses.
    ensures known { result ≤ 9 }
    // At status 0 what was sent are the answers of a pool on devices to all lines, or to those before a `quit`; with `--gen` it is the one line that tells what the answers to all commands came to.
    ensures done { D.tells desk.old → result ≡ 0 → RunsTo (IsDone on_devices) (TellsTally on_devices) (map (λ c. string_bytes c.name) choosers.now) (map string_bytes words.now) (D.world desk.old).now (D.world desk.new).now }
    // At status 1 the words are no command line, and nothing was done at all.
    ensures bad_words { result ≡ 1 → IsNoCommandLine (map (λ c. string_bytes c.name) choosers.now) (map string_bytes words.now) × (desk.new ≡ desk.old) }
    // Where the words are no command line, no other status comes, unless memory ran out.
    ensures words { IsNoCommandLine (map (λ c. string_bytes c.name) choosers.now) (map string_bytes words.now) → (result ≡ 1) ⊎ (result ≡ 9) }
    // At status 2 a call that takes of the input failed. All lines that were taken whole are answered. With `--gen` it does not come.
    ensures input_fault { result ≡ 2 → HasRisen (D.counts desk.old).input (D.counts desk.new).input }
    ensures taken { D.tells desk.old → result ≡ 2 → RunsTo (AnswersTaken on_devices) Never (map (λ c. string_bytes c.name) choosers.now) (map string_bytes words.now) (D.world desk.old).now (D.world desk.new).now }
    // At status 3 a call that sends failed. A front of the answers was sent, or with `--gen` of its line.
    ensures output_fault { result ≡ 3 → HasRisen (D.counts desk.old).output (D.counts desk.new).output }
    ensures partly { D.tells desk.old → result ≡ 3 → RunsTo (AnswersPartly on_devices) (TellsPartly on_devices) (map (λ c. string_bytes c.name) choosers.now) (map string_bytes words.now) (D.world desk.old).now (D.world desk.new).now }
    // At status 4 a device failed within a command, and that is told.
    ensures disk_fault { result ≡ 4 → HasRisen (D.counts desk.old).disk (D.counts desk.new).disk }
    ensures stopped { D.tells desk.old → result ≡ 4 → RunsTo (TellsFault on_devices) (TellsFaultThere on_devices) (map (λ c. string_bytes c.name) choosers.now) (map string_bytes words.now) (D.world desk.old).now (D.world desk.new).now }
    // At status 5 all lines before a bad one are answered, and that one is told with its number. With `--gen` it is a command that the pool does not serve.
    ensures bad_line { D.tells desk.old → result ≡ 5 → RunsTo (TellsBadLine on_devices) (TellsUnserved on_devices) (map (λ c. string_bytes c.name) choosers.now) (map string_bytes words.now) (D.world desk.old).now (D.world desk.new).now }
    // At status 6 a command met damage, and that is told.
    ensures may_be { result ≡ 6 → MayBeDamaged on_devices }
    ensures damaged { D.tells desk.old → result ≡ 6 → RunsTo (TellsDamage on_devices) (TellsDamageThere on_devices) (map (λ c. string_bytes c.name) choosers.now) (map string_bytes words.now) (D.world desk.old).now (D.world desk.new).now }
    // At status 7 a device was not attached, those before it are, and nothing else was done.
    ensures attach_fault { result ≡ 7 → HasRisen (D.counts desk.old).attach (D.counts desk.new).attach }
    ensures unattached { D.tells desk.old → result ≡ 7 → StopsAtDevice (map (λ c. string_bytes c.name) choosers.now) (map string_bytes words.now) (D.world desk.old).now (D.world desk.new).now }
    // At status 8 2^32 bytes were taken and no end came, all their whole lines are answered, and that is told. With `--gen` it does not come.
    ensures limit { D.tells desk.old → result ≡ 8 → RunsTo (TellsLimit on_devices) Never (map (λ c. string_bytes c.name) choosers.now) (map string_bytes words.now) (D.world desk.old).now (D.world desk.new).now }
    // At status 9 memory ran out. All that was sent are the answers to first lines, and with `--gen` nothing.
    ensures memory { D.tells desk.old → result ≡ 9 → ((D.world desk.new).now ≡ (D.world desk.old).now) ⊎ StopsAtDevice (map (λ c. string_bytes c.name) choosers.now) (map string_bytes words.now) (D.world desk.old).now (D.world desk.new).now ⊎ RunsTo (AnswersFront on_devices) (TellsNothing on_devices) (map (λ c. string_bytes c.name) choosers.now) (map string_bytes words.now) (D.world desk.old).now (D.world desk.new).now }
    // At each moment first devices are attached, or first commands are done and no reply to any other is sent; no more than the next one is begun, and the disks stand as they may then.
    ensures moments { D.tells desk.old → Throughout (IsProgramMoment on_devices (map (λ c. string_bytes c.name) choosers.now) (map string_bytes words.now) (D.world desk.old).now) (D.world desk.old) (D.world desk.new) }
    // Where no call failed, no damage was met and no line is a bad one, the whole input is answered, unless it is too long or memory ran out.
    ensures complete { NoneRose (D.counts desk.old) (D.counts desk.new) → (result ≡ 0) ⊎ (result ≡ 1) ⊎ (result ≡ 5) ⊎ (result ≡ 6) ⊎ (result ≡ 8) ⊎ (result ≡ 9) }
{
    run_on::<DevicePool, D>(alloc, words, desk, choosers)
}
