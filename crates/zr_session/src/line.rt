//! Lines within a piece of the input, and what is done for one.
ghost use Rattle.std.specs.Prelude.{◌≡◌, ◌≢◌, true, false, ◌∷◌, ◌++◌, ℕ, List, IfNone, IfSome, IfErr, OnOk};
ghost use Rattle.zr_shelf.specs.Counts.{NoneFell};
ghost use Rattle.zr_shelf.specs.Moments.{Throughout};
ghost use Rattle.zr_session.specs.Answers.{IsOpenLine};
ghost use Rattle.zr_script.specs.declared.command.Command.TheVariants.{Quit};
ghost use Rattle.zr_command.specs.Meanings.{disks_of, MayBeDamaged};
ghost use Rattle.zr_session.specs.Ends.{HasCause};
ghost use Rattle.zr_session.specs.Lines.{StandsForOne, AnswersLine, StopsAtLine};
ghost use Rattle.zr_session.specs.Moments.{IsLineMoment};

use crate::command::{do_command, refuse_line};
use crate::course::Course;
use crate::end::End;
use crate::replies::Replies;
use crate::rounds::do_rounds;
use memchr::memchr;
use std::alloc::Global;
use zr_command::Pool;
use zr_script::{Command, parse_line};
use zr_shelf::Desk;

const LINE_FEED: u8 = b'\n';

/// The first line of the bytes, without its line feed, and what stands behind that. None where there is no line feed.
pub fn split_line(bytes: &[u8]) -> Option<(&[u8], &[u8])>
    ensures none { IfNone result (IsOpenLine bytes.now) }
    ensures some { IfSome result (λ parts. (bytes.now ≡ parts.0.now ++ 10 ∷ parts.1.now) × IsOpenLine parts.0.now) }
{
    let at = memchr(LINE_FEED, bytes)?;
    let (line, more) = bytes.split_at(at);
    Some((line, &more[1..]))
}

// Whether the command ends the script.
fn is_quit(command: &Command) -> bool
    ensures yes { result ≡ true → command.now ≡ Quit }
    ensures no { result ≡ false → command.now ≢ Quit }
{
    matches!(command, Command::Quit)
}

/// Answers a line, the `number`th of the script from 1, and does the rounds behind it.
pub fn answer_line<P: Pool, D: Desk>(
    alloc: Global,
    line: &[u8],
    number: u64,
    course: &Course,
    pool: &mut P,
    desk: &mut D,
) -> Result<(), End>
    requires fits { P.fits pool.old (D.sizes desk.old) }
    ensures answered { D.tells desk.old → (D.world desk.old).now.paths ≡ P.paths pool.old → (before : P.meaning.State) → P.stands pool.old (disks_of (D.world desk.old).now) before → OnOk result (StandsForOne (P.stands pool.new) (D.world desk.new).now (λ after. AnswersLine P.meaning course.now.rounds line.now before after (D.world desk.old).now (D.world desk.new).now)) }
    ensures stopped { D.tells desk.old → (D.world desk.old).now.paths ≡ P.paths pool.old → (before : P.meaning.State) → P.stands pool.old (disks_of (D.world desk.old).now) before → IfErr result (StopsAtLine P.meaning course.now.rounds line.now number before (D.world desk.old).now (D.world desk.new).now) }
    ensures moments { D.tells desk.old → (D.world desk.old).now.paths ≡ P.paths pool.old → (before : P.meaning.State) → P.stands pool.old (disks_of (D.world desk.old).now) before → Throughout (IsLineMoment P.meaning course.now.rounds line.now before (D.world desk.old).now) (D.world desk.old) (D.world desk.new) }
    ensures named { D.tells desk.old → OnOk result ((D.world desk.new).now.paths ≡ (D.world desk.old).now.paths) }
    ensures cause { IfErr result (HasCause (MayBeDamaged P.meaning) (D.counts desk.old) (D.counts desk.new)) }
    ensures fits { P.fits pool.new (D.sizes desk.new) }
    ensures paths { P.paths pool.new ≡ P.paths pool.old }
    ensures sizes { D.sizes desk.new ≡ D.sizes desk.old }
    ensures none_fell { NoneFell (D.counts desk.old) (D.counts desk.new) }
    ensures told { D.tells desk.old → D.tells desk.new }
{
    let Some(command) = parse_line(alloc, line)? else {
        return Err(refuse_line(alloc, number, desk));
    };
    if is_quit(&command) {
        return Err(End::Answered);
    }
    do_command(
        alloc,
        &command,
        number,
        course.pick,
        Replies::Sent,
        pool,
        desk,
    )?;
    do_rounds(alloc, number, course, Replies::Sent, pool, desk)
}
