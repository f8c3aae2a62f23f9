//! A command to the pool, and what is sent for it.
ghost use Rattle.std.specs.Prelude.{◌≡◌, ◌⊎◌, ℕ, List, IfOk, IfErr, OnOk};
ghost use Rattle.zr_shelf.specs.Counts.{NoneFell};
ghost use Rattle.zr_shelf.specs.Disks.{sent_more};
ghost use Rattle.zr_shelf.specs.Moments.{Throughout};
ghost use Rattle.zr_base.specs.declared.refusal.Refusal.TheVariants as refusal;
ghost use Rattle.zr_script.specs.Grammar.{IsLine};
ghost use Rattle.zr_script.specs.ReplyText.{last_line, BadLine, Damage};
ghost use Rattle.zr_command.specs.Meanings.{disks_of, MayBeDamaged};
ghost use Rattle.zr_session.specs.Ends.{HasCause};
ghost use Rattle.zr_session.specs.Lines.{StandsForOne, DoesCommand, StopsAtCommand, SendsPartly, SendsReplyPartly, Tells, told_for};
ghost use Rattle.zr_session.specs.Moments.{IsSending, IsCommandMoment};
ghost use Rattle.zr_session.specs.declared.end.End.TheVariants as is_end;

use crate::end::End;
use crate::replies::Replies;
use std::alloc::Global;
use zr_base::{Dva, NoMemory};
use zr_choose::Chooser;
use zr_command::{Pool, Stop};
use zr_script::{Command, Reply, Word, put_line, reply_bytes};
use zr_shelf::{Desk, DeskErr};

/// Sends all the bytes.
fn send<D: Desk>(desk: &mut D, bytes: &[u8]) -> Result<(), End>
    ensures sent { D.tells desk.old → OnOk result ((D.world desk.new).now ≡ sent_more (D.world desk.old).now bytes.now) }
    ensures partly { D.tells desk.old → IfErr result (SendsPartly bytes.now (D.world desk.old).now (D.world desk.new).now) }
    ensures moments { D.tells desk.old → Throughout (IsSending bytes.now (D.world desk.old).now) (D.world desk.old) (D.world desk.new) }
    ensures cause { IfErr result (HasCause ⊥ (D.counts desk.old) (D.counts desk.new)) }
    ensures sizes { D.sizes desk.new ≡ D.sizes desk.old }
    ensures none_fell { NoneFell (D.counts desk.old) (D.counts desk.new) }
    ensures told { D.tells desk.old → D.tells desk.new }
{
    match desk.give(bytes) {
        Ok(()) => Ok(()),
        Err(DeskErr::Failed) => Err(End::OutputFault),
        Err(DeskErr::NoMemory) => Err(End::NoMemory),
    }
}

/// Sends the last line of a run, which then ends as said, unless that was not sent.
pub fn tell<D: Desk>(desk: &mut D, text: &[u8], end: End) -> End
    ensures told_it { D.tells desk.old → Tells end text.now result (D.world desk.old).now (D.world desk.new).now }
    ensures moments { D.tells desk.old → Throughout (IsSending text.now (D.world desk.old).now) (D.world desk.old) (D.world desk.new) }
    ensures cause { (result ≡ end) ⊎ HasCause ⊥ (D.counts desk.old) (D.counts desk.new) result }
    ensures sizes { D.sizes desk.new ≡ D.sizes desk.old }
    ensures none_fell { NoneFell (D.counts desk.old) (D.counts desk.new) }
    ensures told { D.tells desk.old → D.tells desk.new }
{
    match send(desk, text) {
        Ok(()) => end,
        Err(other) => other,
    }
}

/// Tells that a line is a bad one.
pub fn refuse_line<D: Desk>(alloc: Global, number: u64, desk: &mut D) -> End
    ensures told_it { D.tells desk.old → Tells is_end.BadLine (last_line (BadLine number)) result (D.world desk.old).now (D.world desk.new).now }
    ensures moments { D.tells desk.old → Throughout (IsSending (last_line (BadLine number)) (D.world desk.old).now) (D.world desk.old) (D.world desk.new) }
    ensures cause { HasCause ⊥ (D.counts desk.old) (D.counts desk.new) result }
    ensures sizes { D.sizes desk.new ≡ D.sizes desk.old }
    ensures none_fell { NoneFell (D.counts desk.old) (D.counts desk.new) }
    ensures told { D.tells desk.old → D.tells desk.new }
{
    let Ok(text) = format!(in alloc; "bad line {number}\n") else {
        return End::NoMemory;
    };
    tell(desk, text.as_bytes(), End::BadLine)
}

/// The last line where damage was met, with the sum that the block should have and the one that it has.
fn damage_text<'a>(
    alloc: Global,
    at: &Dva,
    expected: &'a [u8; 32],
    found: &'a [u8; 32],
) -> Result<Vec<u8>, NoMemory>
    ensures { IfOk result (λ text. text.items ≡ last_line (Damage (refusal.Damaged at.now expected.now found.now))) }
{
    let mut text = Vec::new(alloc);
    put_line(
        alloc,
        &mut text,
        &[
            Word::Text(b"stopped"),
            Word::Text(b"damaged"),
            Word::Text(b"device"),
            Word::Number(u64::from(at.dev)),
            Word::Text(b"unit"),
            Word::Number(at.start),
            Word::Text(b"expected"),
            Word::Hex(expected),
            Word::Text(b"found"),
            Word::Hex(found),
        ],
    )?;
    Ok(text)
}

/// Tells that damage was met.
fn tell_damage<'a, D: Desk>(
    alloc: Global,
    at: &Dva,
    expected: &'a [u8; 32],
    found: &'a [u8; 32],
    desk: &mut D,
) -> End
    ensures told_it { D.tells desk.old → Tells is_end.Damaged (last_line (Damage (refusal.Damaged at.now expected.now found.now))) result (D.world desk.old).now (D.world desk.new).now }
    ensures moments { D.tells desk.old → Throughout (IsSending (last_line (Damage (refusal.Damaged at.now expected.now found.now))) (D.world desk.old).now) (D.world desk.old) (D.world desk.new) }
    ensures cause { (result ≡ is_end.Damaged) ⊎ HasCause ⊥ (D.counts desk.old) (D.counts desk.new) result }
    ensures sizes { D.sizes desk.new ≡ D.sizes desk.old }
    ensures none_fell { NoneFell (D.counts desk.old) (D.counts desk.new) }
    ensures told { D.tells desk.old → D.tells desk.new }
{
    let Ok(text) = damage_text(alloc, at, expected, found) else {
        return End::NoMemory;
    };
    tell(desk, text.as_slice(), End::Damaged)
}

/// Sends a reply, where replies are sent.
fn hand_on<D: Desk>(alloc: Global, reply: &Reply, replies: Replies, desk: &mut D) -> Result<(), End>
    ensures sent { D.tells desk.old → OnOk result ((D.world desk.new).now ≡ sent_more (D.world desk.old).now (told_for replies reply.now)) }
    ensures partly { D.tells desk.old → IfErr result (SendsReplyPartly replies reply.now (D.world desk.old).now (D.world desk.new).now) }
    ensures moments { D.tells desk.old → Throughout (IsSending (told_for replies reply.now) (D.world desk.old).now) (D.world desk.old) (D.world desk.new) }
    ensures cause { IfErr result (HasCause ⊥ (D.counts desk.old) (D.counts desk.new)) }
    ensures sizes { D.sizes desk.new ≡ D.sizes desk.old }
    ensures none_fell { NoneFell (D.counts desk.old) (D.counts desk.new) }
    ensures told { D.tells desk.old → D.tells desk.new }
{
    match replies {
        Replies::Sent => {
            let text = reply_bytes(alloc, reply)?;
            send(desk, text.as_slice())
        }
        Replies::Kept => Ok(()),
    }
}

/// Has the pool do a command, and hands its reply on. Where a device failed or damage was met, that is told.
pub fn do_command<P: Pool, D: Desk>(
    alloc: Global,
    command: &Command,
    number: u64,
    pick: &Chooser,
    replies: Replies,
    pool: &mut P,
    desk: &mut D,
) -> Result<Reply, End>
    requires fits { P.fits pool.old (D.sizes desk.old) }
    requires grammar { (line : List ℕ) × IsLine line command.now }
    ensures done { D.tells desk.old → (D.world desk.old).now.paths ≡ P.paths pool.old → (before : P.meaning.State) → P.stands pool.old (disks_of (D.world desk.old).now) before → IfOk result (λ reply. StandsForOne (P.stands pool.new) (D.world desk.new).now (λ after. DoesCommand P.meaning replies command.now reply before after (D.world desk.old).now (D.world desk.new).now)) }
    ensures stopped { D.tells desk.old → (D.world desk.old).now.paths ≡ P.paths pool.old → (before : P.meaning.State) → P.stands pool.old (disks_of (D.world desk.old).now) before → IfErr result (StopsAtCommand P.meaning replies command.now number before (D.world desk.old).now (D.world desk.new).now) }
    ensures named { D.tells desk.old → OnOk result ((D.world desk.new).now.paths ≡ (D.world desk.old).now.paths) }
    ensures moments { D.tells desk.old → (D.world desk.old).now.paths ≡ P.paths pool.old → (before : P.meaning.State) → P.stands pool.old (disks_of (D.world desk.old).now) before → Throughout (IsCommandMoment P.meaning replies command.now before (D.world desk.old).now) (D.world desk.old) (D.world desk.new) }
    ensures cause { IfErr result (HasCause (MayBeDamaged P.meaning) (D.counts desk.old) (D.counts desk.new)) }
    ensures fits { P.fits pool.new (D.sizes desk.new) }
    ensures paths { P.paths pool.new ≡ P.paths pool.old }
    ensures sizes { D.sizes desk.new ≡ D.sizes desk.old }
    ensures none_fell { NoneFell (D.counts desk.old) (D.counts desk.new) }
    ensures told { D.tells desk.old → D.tells desk.new }
{
    match pool.command(alloc, desk, pick, command) {
        Ok(Some(reply)) => {
            hand_on(alloc, &reply, replies, desk)?;
            Ok(reply)
        }
        Ok(None) => Err(refuse_line(alloc, number, desk)),
        Err(Stop::DiskFault) => Err(tell(desk, b"stopped disk fault\n", End::DiskFault)),
        Err(
            Stop::Damaged {
                at,
                expected,
                found,
            },
        ) => Err(tell_damage(alloc, &at, &expected, &found, desk)),
        Err(Stop::NoMemory) => Err(End::NoMemory),
    }
}
