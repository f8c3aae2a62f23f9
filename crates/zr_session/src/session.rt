//! The loop over pieces of the input, for a pool of any kind.
//!
//! A run takes at most 2^32 bytes. It ends by itself where the input does, at a `quit`, or at the first line or call
//! that does not let it go on.
ghost use Rattle.std.specs.Prelude.{◌≡◌, [], ◌+◌, ◌<◌, ◌≤◌, ◌^◌, ℕ, List, length, IfOk, IfErr, OnOk};
ghost use Rattle.zr_shelf.specs.Counts.{NoneFell};
ghost use Rattle.zr_shelf.specs.Disks.{Stand};
ghost use Rattle.zr_shelf.specs.Moments.{Throughout};
ghost use Rattle.zr_command.specs.Meanings.{Disks, MayBeDamaged};
ghost use Rattle.zr_session.specs.Ends.{HasCause, EndsAs};
ghost use Rattle.zr_session.specs.Moments.{IsMoment};
ghost use Rattle.zr_session.specs.Progress.{StandsAt};

use crate::command::tell;
use crate::course::Course;
use crate::end::End;
use crate::script::Script;
use std::alloc::Global;
use zr_command::Pool;
use zr_shelf::{Desk, DeskErr};

/// The most bytes that are taken at a time.
const PIECE: usize = 65536;

/// The most bytes of an input.
const MAX_INPUT: u64 = 4_294_967_296;

/// Takes a piece of the input into `room`, and answers its lines. It answers how many bytes the piece has.
fn take_piece<P: Pool, D: Desk>(
    alloc: Global,
    room: &mut [u8],
    script: &mut Script,
    course: &Course,
    pool: &mut P,
    desk: &mut D,
) -> Result<usize, End>
    requires room { 0 < length room.old }
    requires piece { length room.old ≤ 65536 }
    requires lines { script.old.lines + length room.old + 1 < 2 ^ 64 }
    requires short { length script.old.line.items ≤ 16384 }
    requires fits { P.fits pool.old (D.sizes desk.old) }
    ensures count { IfOk result (λ n. (0 < n) × (n ≤ length room.old)) }
    ensures at { D.tells desk.old → (D.world desk.old).now.paths ≡ P.paths pool.old → IfOk result (λ n. (opening : Stand) (taken : ℕ) → taken + length room.old ≤ 2 ^ 32
        → StandsAt P.meaning course.now.rounds (P.stands pool.old) opening (D.world desk.old).now [] script.old.line.items script.old.lines taken
        → StandsAt P.meaning course.now.rounds (P.stands pool.new) opening (D.world desk.new).now [] script.new.line.items script.new.lines (taken + n)) }
    ensures ends { D.tells desk.old → (D.world desk.old).now.paths ≡ P.paths pool.old → IfErr result (λ end. (opening : Stand) (taken : ℕ) → taken + length room.old ≤ 2 ^ 32
        → StandsAt P.meaning course.now.rounds (P.stands pool.old) opening (D.world desk.old).now [] script.old.line.items script.old.lines taken
        → EndsAs P.meaning course.now.rounds end opening (D.world desk.new).now) }
    ensures moments { D.tells desk.old → (D.world desk.old).now.paths ≡ P.paths pool.old → (opening : Stand) (taken : ℕ) → taken + length room.old ≤ 2 ^ 32
        → StandsAt P.meaning course.now.rounds (P.stands pool.old) opening (D.world desk.old).now [] script.old.line.items script.old.lines taken
        → Throughout (IsMoment P.meaning course.now.rounds opening) (D.world desk.old) (D.world desk.new) }
    ensures named { D.tells desk.old → OnOk result ((D.world desk.new).now.paths ≡ (D.world desk.old).now.paths) }
    ensures lines { IfOk result (λ n. script.new.lines ≤ script.old.lines + n) }
    ensures short { OnOk result (length script.new.line.items ≤ 16384) }
    ensures cause { IfErr result (HasCause (MayBeDamaged P.meaning) (D.counts desk.old) (D.counts desk.new)) }
    ensures fits { P.fits pool.new (D.sizes desk.new) }
    ensures paths { P.paths pool.new ≡ P.paths pool.old }
    ensures sizes { D.sizes desk.new ≡ D.sizes desk.old }
    ensures none_fell { NoneFell (D.counts desk.old) (D.counts desk.new) }
    ensures told { D.tells desk.old → D.tells desk.new }
{
    let count = match desk.take(room) {
        Ok(count) => count,
        Err(DeskErr::Failed) => return Err(End::InputFault),
        Err(DeskErr::NoMemory) => return Err(End::NoMemory),
    };
    if count == 0 {
        return Err(script.finish(alloc, course, pool, desk));
    }
    script.take_up(alloc, &room[..count], course, pool, desk)?;
    Ok(count)
}

/// Answers the whole input.
pub fn serve<P: Pool, D: Desk>(alloc: Global, course: &Course, pool: &mut P, desk: &mut D) -> End
    requires fits { P.fits pool.old (D.sizes desk.old) }
    requires closed { (disks : Disks) → P.stands pool.old disks (P.meaning.none disks) }
    ensures ends { D.tells desk.old → (D.world desk.old).now.paths ≡ P.paths pool.old → EndsAs P.meaning course.now.rounds result (D.world desk.old).now (D.world desk.new).now }
    ensures moments { D.tells desk.old → (D.world desk.old).now.paths ≡ P.paths pool.old → Throughout (IsMoment P.meaning course.now.rounds (D.world desk.old).now) (D.world desk.old) (D.world desk.new) }
    ensures cause { HasCause (MayBeDamaged P.meaning) (D.counts desk.old) (D.counts desk.new) result }
    ensures none_fell { NoneFell (D.counts desk.old) (D.counts desk.new) }
    ensures told { D.tells desk.old → D.tells desk.new }
{
    let mut script = Script::new(alloc);
    let mut piece = [0u8; PIECE];
    let mut taken = 0;
    while taken < MAX_INPUT {
        let most = (MAX_INPUT - taken).min(PIECE as u64) as usize;
        match take_piece(alloc, &mut piece[..most], &mut script, course, pool, desk) {
            Ok(count) => taken += count as u64,
            Err(end) => return end,
        }
    }
    tell(desk, b"stopped input limit\n", End::InputLimit)
}
