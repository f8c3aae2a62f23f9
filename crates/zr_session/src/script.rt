//! The script as far as it was taken.
//!
//! A piece of the input is cut at its line feeds, and each line is answered where it lies. The bytes behind the last
//! line feed are copied, and the first line feed of the next piece ends them. So at most one line of a piece is copied.
ghost use Rattle.std.specs.Prelude.{◌≡◌, ◌≢◌, ◌∷◌, ◌++◌, [], ◌+◌, ◌<◌, ◌≤◌, ◌^◌, ℕ, List, length, IfOk, IfErr, OnOk};
ghost use Rattle.zr_shelf.specs.Counts.{NoneFell};
ghost use Rattle.zr_shelf.specs.Disks.{Stand};
ghost use Rattle.zr_shelf.specs.Moments.{Throughout};
ghost use Rattle.zr_script.specs.ReplyText.{last_line, BadLine};
ghost use Rattle.zr_session.specs.Answers.{IsOpenLine};
ghost use Rattle.zr_command.specs.Meanings.{disks_of, MayBeDamaged};
ghost use Rattle.zr_session.specs.Ends.{HasCause, EndsAs};
ghost use Rattle.zr_session.specs.Lines.{StandsForOne, AnswersLine, StopsAtLine, StopsAtRest};
ghost use Rattle.zr_session.specs.Moments.{IsSending, IsLineMoment, IsMoment};
ghost use Rattle.zr_session.specs.Progress.{StandsAt};

use crate::command::refuse_line;
use crate::course::Course;
use crate::end::End;
use crate::line::{answer_line, split_line};
use std::alloc::{AllocError, Global};
use zr_command::Pool;
use zr_script::MAX_LINE;
use zr_shelf::{Desk, DeskErr};

/// The bytes behind the last line feed, and how many lines were ended.
#[derive(Drop)]
pub struct Script {
    pub line: Vec<u8>,
    pub lines: u64,
}

impl Script {
    pub fn new(alloc: Global) -> Script
        ensures line { result.line.items ≡ [] }
        ensures lines { result.lines ≡ 0 }
    {
        Script {
            line: Vec::new(alloc),
            lines: 0,
        }
    }

    /// Answers the line that this part ends.
    fn end_line<P: Pool, D: Desk>(
        &mut self,
        alloc: Global,
        part: &[u8],
        course: &Course,
        pool: &mut P,
        desk: &mut D,
    ) -> Result<(), End>
        requires lines { self.old.lines + 1 < 2 ^ 64 }
        requires fits { P.fits pool.old (D.sizes desk.old) }
        ensures answered { D.tells desk.old → (D.world desk.old).now.paths ≡ P.paths pool.old → (before : P.meaning.State) → P.stands pool.old (disks_of (D.world desk.old).now) before → OnOk result (StandsForOne (P.stands pool.new) (D.world desk.new).now (λ after. AnswersLine P.meaning course.now.rounds (self.old.line.items ++ part.now) before after (D.world desk.old).now (D.world desk.new).now)) }
        ensures stopped { D.tells desk.old → (D.world desk.old).now.paths ≡ P.paths pool.old → (before : P.meaning.State) → P.stands pool.old (disks_of (D.world desk.old).now) before → IfErr result (StopsAtLine P.meaning course.now.rounds (self.old.line.items ++ part.now) (self.old.lines + 1) before (D.world desk.old).now (D.world desk.new).now) }
        ensures moments { D.tells desk.old → (D.world desk.old).now.paths ≡ P.paths pool.old → (before : P.meaning.State) → P.stands pool.old (disks_of (D.world desk.old).now) before → Throughout (IsLineMoment P.meaning course.now.rounds (self.old.line.items ++ part.now) before (D.world desk.old).now) (D.world desk.old) (D.world desk.new) }
        ensures named { D.tells desk.old → OnOk result ((D.world desk.new).now.paths ≡ (D.world desk.old).now.paths) }
        ensures line { OnOk result (self.new.line.items ≡ []) }
        ensures lines { OnOk result (self.new.lines ≡ self.old.lines + 1) }
        ensures cause { IfErr result (HasCause (MayBeDamaged P.meaning) (D.counts desk.old) (D.counts desk.new)) }
        ensures fits { P.fits pool.new (D.sizes desk.new) }
        ensures paths { P.paths pool.new ≡ P.paths pool.old }
        ensures sizes { D.sizes desk.new ≡ D.sizes desk.old }
        ensures none_fell { NoneFell (D.counts desk.old) (D.counts desk.new) }
        ensures told { D.tells desk.old → D.tells desk.new }
    {
        self.lines += 1;
        if self.line.is_empty() {
            return answer_line(alloc, part, self.lines, course, pool, desk);
        }
        self.line.extend_from_slice(part).map_err(AllocError::from)?;
        answer_line(alloc, self.line.as_slice(), self.lines, course, pool, desk)?;
        self.line.clear();
        Ok(())
    }

    /// Carries over bytes that no line feed ends yet. A line that has become too long is a bad one.
    fn carry_over<D: Desk>(&mut self, alloc: Global, rest: &[u8], desk: &mut D) -> Result<(), End>
        requires lines { self.old.lines + 1 < 2 ^ 64 }
        requires short { length self.old.line.items ≤ 16384 }
        ensures line { OnOk result (self.new.line.items ≡ self.old.line.items ++ rest.now) }
        ensures short { OnOk result (length self.new.line.items ≤ 16384) }
        ensures stopped { D.tells desk.old → IfErr result (StopsAtRest (self.old.line.items ++ rest.now) (self.old.lines + 1) (D.world desk.old).now (D.world desk.new).now) }
        ensures moments { D.tells desk.old → Throughout (IsSending (last_line (BadLine (self.old.lines + 1))) (D.world desk.old).now) (D.world desk.old) (D.world desk.new) }
        ensures lines { self.new.lines ≡ self.old.lines }
        ensures same { OnOk result (desk.new ≡ desk.old) }
        ensures cause { IfErr result (HasCause ⊥ (D.counts desk.old) (D.counts desk.new)) }
        ensures sizes { D.sizes desk.new ≡ D.sizes desk.old }
        ensures none_fell { NoneFell (D.counts desk.old) (D.counts desk.new) }
        ensures told { D.tells desk.old → D.tells desk.new }
    {
        if rest.len() > MAX_LINE - self.line.len() {
            return Err(refuse_line(alloc, self.lines + 1, desk));
        }
        self.line.extend_from_slice(rest).map_err(AllocError::from)?;
        Ok(())
    }

    /// Takes up a piece of the input.
    pub fn take_up<P: Pool, D: Desk>(
        &mut self,
        alloc: Global,
        piece: &[u8],
        course: &Course,
        pool: &mut P,
        desk: &mut D,
    ) -> Result<(), End>
        requires lines { self.old.lines + length piece.now + 1 < 2 ^ 64 }
        requires short { length self.old.line.items ≤ 16384 }
        requires fits { P.fits pool.old (D.sizes desk.old) }
        ensures at { D.tells desk.old → (D.world desk.old).now.paths ≡ P.paths pool.old → OnOk result ((opening : Stand) (taken : ℕ)
            → StandsAt P.meaning course.now.rounds (P.stands pool.old) opening (D.world desk.old).now piece.now self.old.line.items self.old.lines taken
            → StandsAt P.meaning course.now.rounds (P.stands pool.new) opening (D.world desk.new).now [] self.new.line.items self.new.lines taken) }
        ensures ends { D.tells desk.old → (D.world desk.old).now.paths ≡ P.paths pool.old → IfErr result (λ end. (opening : Stand) (taken : ℕ)
            → StandsAt P.meaning course.now.rounds (P.stands pool.old) opening (D.world desk.old).now piece.now self.old.line.items self.old.lines taken
            → EndsAs P.meaning course.now.rounds end opening (D.world desk.new).now) }
        ensures moments { D.tells desk.old → (D.world desk.old).now.paths ≡ P.paths pool.old → (opening : Stand) (taken : ℕ)
            → StandsAt P.meaning course.now.rounds (P.stands pool.old) opening (D.world desk.old).now piece.now self.old.line.items self.old.lines taken
            → Throughout (IsMoment P.meaning course.now.rounds opening) (D.world desk.old) (D.world desk.new) }
        ensures named { D.tells desk.old → OnOk result ((D.world desk.new).now.paths ≡ (D.world desk.old).now.paths) }
        ensures lines { OnOk result (self.new.lines ≤ self.old.lines + length piece.now) }
        ensures short { OnOk result (length self.new.line.items ≤ 16384) }
        ensures cause { IfErr result (HasCause (MayBeDamaged P.meaning) (D.counts desk.old) (D.counts desk.new)) }
        ensures fits { P.fits pool.new (D.sizes desk.new) }
        ensures paths { P.paths pool.new ≡ P.paths pool.old }
        ensures sizes { D.sizes desk.new ≡ D.sizes desk.old }
        ensures none_fell { NoneFell (D.counts desk.old) (D.counts desk.new) }
        ensures told { D.tells desk.old → D.tells desk.new }
    {
        let mut rest = piece;
        while let Some((part, more)) = split_line(rest) {
            self.end_line(alloc, part, course, pool, desk)?;
            rest = more;
        }
        self.carry_over(alloc, rest, desk)
    }

    /// Answers a last line that no line feed ends, where the input has ended.
    pub fn finish<P: Pool, D: Desk>(
        &self,
        alloc: Global,
        course: &Course,
        pool: &mut P,
        desk: &mut D,
    ) -> End
        requires lines { self.now.lines + 1 < 2 ^ 64 }
        requires fits { P.fits pool.old (D.sizes desk.old) }
        ensures ends { D.tells desk.old → (D.world desk.old).now.paths ≡ P.paths pool.old → (D.world desk.old).now.left ≡ [] → (opening : Stand) (taken : ℕ) → taken < 2 ^ 32
            → StandsAt P.meaning course.now.rounds (P.stands pool.old) opening (D.world desk.old).now [] self.now.line.items self.now.lines taken
            → EndsAs P.meaning course.now.rounds result opening (D.world desk.new).now }
        ensures moments { D.tells desk.old → (D.world desk.old).now.paths ≡ P.paths pool.old → (D.world desk.old).now.left ≡ [] → (opening : Stand) (taken : ℕ)
            → StandsAt P.meaning course.now.rounds (P.stands pool.old) opening (D.world desk.old).now [] self.now.line.items self.now.lines taken
            → Throughout (IsMoment P.meaning course.now.rounds opening) (D.world desk.old) (D.world desk.new) }
        ensures cause { HasCause (MayBeDamaged P.meaning) (D.counts desk.old) (D.counts desk.new) result }
        ensures fits { P.fits pool.new (D.sizes desk.new) }
        ensures paths { P.paths pool.new ≡ P.paths pool.old }
        ensures sizes { D.sizes desk.new ≡ D.sizes desk.old }
        ensures none_fell { NoneFell (D.counts desk.old) (D.counts desk.new) }
        ensures told { D.tells desk.old → D.tells desk.new }
    {
        let line = self.line.as_slice();
        if line.is_empty() {
            return End::Answered;
        }
        match answer_line(alloc, line, self.lines + 1, course, pool, desk) {
            Ok(()) => End::Answered,
            Err(end) => end,
        }
    }
}
