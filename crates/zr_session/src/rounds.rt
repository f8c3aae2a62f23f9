//! The steps of the actors that are put in behind a line.
//!
//! A round makes one step of each actor, in a fixed order, and only where that actor has work. A step is a command like
//! any other, and the run may stop at it. Its reply is sent where replies are.
ghost use Rattle.std.specs.Prelude.{◌≡◌, ◌∷◌, [], ℕ, List, map, IfErr, OnOk};
ghost use Rattle.zr_shelf.specs.Counts.{NoneFell};
ghost use Rattle.zr_shelf.specs.Moments.{Throughout};
ghost use Rattle.zr_command.specs.Meanings.{disks_of, MayBeDamaged, step_of};
ghost use Rattle.zr_session.specs.Agenda.{Inserted, rounds_of};
ghost use Rattle.zr_session.specs.Ends.{HasCause};
ghost use Rattle.zr_session.specs.Lines.{StandsForOne, DoesSteps, StopsWithinSteps};
ghost use Rattle.zr_session.specs.Moments.{IsStepsMoment};

use crate::command::do_command;
use crate::course::Course;
use crate::end::End;
use crate::replies::Replies;
use std::alloc::Global;
use zr_command::Pool;
use zr_model::Actor;
use zr_script::Command;
use zr_shelf::Desk;

/// The actors of a round.
const ROUND: [Actor; 3] = [Actor::Evac, Actor::Discard, Actor::Condense];

/// The command that makes a step of the actor.
fn step_of(actor: Actor) -> Command
    ensures { result ≡ step_of actor }
{
    match actor {
        Actor::Evac => Command::StepEvac,
        Actor::Discard => Command::StepDiscard,
        Actor::Condense => Command::StepCondense,
    }
}

/// Makes a step of the actor, where it has work.
fn do_step<P: Pool, D: Desk>(
    alloc: Global,
    actor: Actor,
    number: u64,
    course: &Course,
    replies: Replies,
    pool: &mut P,
    desk: &mut D,
) -> Result<(), End>
    requires fits { P.fits pool.old (D.sizes desk.old) }
    ensures done { D.tells desk.old → (D.world desk.old).now.paths ≡ P.paths pool.old → (before : P.meaning.State) → P.stands pool.old (disks_of (D.world desk.old).now) before → OnOk result (StandsForOne (P.stands pool.new) (D.world desk.new).now (λ after. DoesSteps P.meaning replies (Inserted actor ∷ []) before after (D.world desk.old).now (D.world desk.new).now)) }
    ensures stopped { D.tells desk.old → (D.world desk.old).now.paths ≡ P.paths pool.old → (before : P.meaning.State) → P.stands pool.old (disks_of (D.world desk.old).now) before → IfErr result (StopsWithinSteps P.meaning replies (Inserted actor ∷ []) number before (D.world desk.old).now (D.world desk.new).now) }
    ensures moments { D.tells desk.old → (D.world desk.old).now.paths ≡ P.paths pool.old → (before : P.meaning.State) → P.stands pool.old (disks_of (D.world desk.old).now) before → Throughout (IsStepsMoment P.meaning replies (Inserted actor ∷ []) before (D.world desk.old).now) (D.world desk.old) (D.world desk.new) }
    ensures named { D.tells desk.old → OnOk result ((D.world desk.new).now.paths ≡ (D.world desk.old).now.paths) }
    ensures cause { IfErr result (HasCause (MayBeDamaged P.meaning) (D.counts desk.old) (D.counts desk.new)) }
    ensures fits { P.fits pool.new (D.sizes desk.new) }
    ensures paths { P.paths pool.new ≡ P.paths pool.old }
    ensures sizes { D.sizes desk.new ≡ D.sizes desk.old }
    ensures none_fell { NoneFell (D.counts desk.old) (D.counts desk.new) }
    ensures told { D.tells desk.old → D.tells desk.new }
{
    if !pool.has_work(actor) {
        return Ok(());
    }
    do_command(
        alloc,
        &step_of(actor),
        number,
        course.pick,
        replies,
        pool,
        desk,
    )?;
    Ok(())
}

/// Makes a step of each of the actors that has work when it is its turn.
fn do_steps<P: Pool, D: Desk>(
    alloc: Global,
    actors: &[Actor],
    number: u64,
    course: &Course,
    replies: Replies,
    pool: &mut P,
    desk: &mut D,
) -> Result<(), End>
    requires fits { P.fits pool.old (D.sizes desk.old) }
    ensures done { D.tells desk.old → (D.world desk.old).now.paths ≡ P.paths pool.old → (before : P.meaning.State) → P.stands pool.old (disks_of (D.world desk.old).now) before → OnOk result (StandsForOne (P.stands pool.new) (D.world desk.new).now (λ after. DoesSteps P.meaning replies (map Inserted actors.now) before after (D.world desk.old).now (D.world desk.new).now)) }
    ensures stopped { D.tells desk.old → (D.world desk.old).now.paths ≡ P.paths pool.old → (before : P.meaning.State) → P.stands pool.old (disks_of (D.world desk.old).now) before → IfErr result (StopsWithinSteps P.meaning replies (map Inserted actors.now) number before (D.world desk.old).now (D.world desk.new).now) }
    ensures moments { D.tells desk.old → (D.world desk.old).now.paths ≡ P.paths pool.old → (before : P.meaning.State) → P.stands pool.old (disks_of (D.world desk.old).now) before → Throughout (IsStepsMoment P.meaning replies (map Inserted actors.now) before (D.world desk.old).now) (D.world desk.old) (D.world desk.new) }
    ensures named { D.tells desk.old → OnOk result ((D.world desk.new).now.paths ≡ (D.world desk.old).now.paths) }
    ensures cause { IfErr result (HasCause (MayBeDamaged P.meaning) (D.counts desk.old) (D.counts desk.new)) }
    ensures fits { P.fits pool.new (D.sizes desk.new) }
    ensures paths { P.paths pool.new ≡ P.paths pool.old }
    ensures sizes { D.sizes desk.new ≡ D.sizes desk.old }
    ensures none_fell { NoneFell (D.counts desk.old) (D.counts desk.new) }
    ensures told { D.tells desk.old → D.tells desk.new }
{
    for actor in actors {
        do_step(alloc, *actor, number, course, replies, pool, desk)?;
    }
    Ok(())
}

/// Does the rounds behind the line or command with this number.
pub fn do_rounds<P: Pool, D: Desk>(
    alloc: Global,
    number: u64,
    course: &Course,
    replies: Replies,
    pool: &mut P,
    desk: &mut D,
) -> Result<(), End>
    requires fits { P.fits pool.old (D.sizes desk.old) }
    ensures done { D.tells desk.old → (D.world desk.old).now.paths ≡ P.paths pool.old → (before : P.meaning.State) → P.stands pool.old (disks_of (D.world desk.old).now) before → OnOk result (StandsForOne (P.stands pool.new) (D.world desk.new).now (λ after. DoesSteps P.meaning replies (rounds_of course.now.rounds) before after (D.world desk.old).now (D.world desk.new).now)) }
    ensures stopped { D.tells desk.old → (D.world desk.old).now.paths ≡ P.paths pool.old → (before : P.meaning.State) → P.stands pool.old (disks_of (D.world desk.old).now) before → IfErr result (StopsWithinSteps P.meaning replies (rounds_of course.now.rounds) number before (D.world desk.old).now (D.world desk.new).now) }
    ensures moments { D.tells desk.old → (D.world desk.old).now.paths ≡ P.paths pool.old → (before : P.meaning.State) → P.stands pool.old (disks_of (D.world desk.old).now) before → Throughout (IsStepsMoment P.meaning replies (rounds_of course.now.rounds) before (D.world desk.old).now) (D.world desk.old) (D.world desk.new) }
    ensures named { D.tells desk.old → OnOk result ((D.world desk.new).now.paths ≡ (D.world desk.old).now.paths) }
    ensures cause { IfErr result (HasCause (MayBeDamaged P.meaning) (D.counts desk.old) (D.counts desk.new)) }
    ensures fits { P.fits pool.new (D.sizes desk.new) }
    ensures paths { P.paths pool.new ≡ P.paths pool.old }
    ensures sizes { D.sizes desk.new ≡ D.sizes desk.old }
    ensures none_fell { NoneFell (D.counts desk.old) (D.counts desk.new) }
    ensures told { D.tells desk.old → D.tells desk.new }
{
    for _done in 0..course.rounds {
        do_steps(alloc, &ROUND, number, course, replies, pool, desk)?;
    }
    Ok(())
}
