//! A pool as a run over lines sees it.
//!
//! A run takes a line, hands its command to the pool and sends the reply. What a command means is the pool's own to say,
//! between the shelf and the state before and after, and what a state is: to plain objects it is their step (`plain`).
//! Objects may lie on the disks, so a pool stands for a state together with what the disks hold (`stands`). A pool works on
//! the desk as a shelf alone, so it takes nothing of the input and sends nothing.
//! What a stop leaves is the pool's to say as well: how the disks may stand between two commands (`rests`) and at each moment of one.
ghost use Rattle.std.specs.Prelude.{◌≡◌, ◌∷◌, ◌≤◌, List, ℕ, length, IfOk, IfSome, IfNone, IsErrOf, IsTrue};
ghost use Rattle.zr_base.specs.Counts.{HasRisen};
ghost use Rattle.zr_base.specs.declared.refusal.Refusal.TheVariants as refusal;
ghost use Rattle.zr_base.specs.declared.space.Dva.{Dva};
ghost use Rattle.zr_script.specs.Grammar.{IsLine};
ghost use Rattle.zr_shelf.specs.Counts.{NoneFell};
ghost use Rattle.zr_shelf.specs.Disks.{Stand};
ghost use Rattle.zr_shelf.specs.Moments.{Throughout};
ghost use Rattle.zr_command.specs.Meanings.{Meaning, Disks, disks_of, TurnsTo, MayBeDamaged, step_of};
ghost use Rattle.zr_model.specs.Runs.{point, KeepsOutside};
ghost use Rattle.zr_command.specs.declared.pool.Stop.TheVariants.{DiskFault, Damaged};

use std::alloc::{AllocError, Global};
use zr_base::{Blob, Dva, Items, NoMemory};
use zr_choose::Chooser;
use zr_model::Actor;
use zr_script::{Command, Reply};
use zr_shelf::Shelf;

/// Why a command ended the run. The pool is not open after it, and what it had not committed is lost.
#[derive(Clone, Copy, Debug, PartialEq, Eq)]
pub enum Stop {
    /// A device failed in a way that no reply tells of.
    DiskFault,
    /// A block whose bytes have another sum than its pointer says, or that is no spelling of what should stand there.
    Damaged {
        at: Dva,
        expected: [u8; 32],
        found: [u8; 32],
    },
    NoMemory,
}

impl From<NoMemory> for Stop {
    ghost use Rattle.std.specs.Prelude.{◌≡◌};
    ghost use Rattle.zr_command.specs.declared.pool.Stop.TheVariants as stop;

    ghost from_gives = { λ _ e. e ≡ stop.NoMemory };

    fn from(_error: NoMemory) -> Stop {
        Stop::NoMemory
    }
}

impl From<AllocError> for Stop {
    ghost use Rattle.std.specs.Prelude.{◌≡◌};
    ghost use Rattle.zr_command.specs.declared.pool.Stop.TheVariants as stop;

    ghost from_gives = { λ _ e. e ≡ stop.NoMemory };

    fn from(_error: AllocError) -> Stop {
        Stop::NoMemory
    }
}

/// A pool on the devices of the words.
pub trait Pool {
    /// The paths of the words, one for each slot.
    ghost paths: { Self → List (List ℕ) };

    /// What commands mean to a pool of this kind, and what its states are.
    ghost meaning: { Meaning };

    /// The state for which the pool stands: of what its disks hold, with what is pending, together with what it keeps of
    /// them in memory.
    ghost stands: { Self → Disks → meaning.State → Type 0 };

    /// Where the pool stands for a state, the disks may stand so between two commands.
    ghost rests: { (pool : Self) (stand : Stand) (state : meaning.State) → stand.paths ≡ paths pool → stands pool (disks_of stand) state → meaning.rests (point stand state) (disks_of stand) };

    /// The pool is one on disks of these sizes.
    ghost fits: { Self → List ℕ → Type 0 };

    /// No pool yet, on devices with these paths.
    fn closed(alloc: Global, devs: Items<Blob>) -> Result<Self, NoMemory>
        requires few { length devs ≤ 32 }
        ensures paths { IfOk result (λ pool. paths pool ≡ devs) }
        ensures fits { (sizes : List ℕ) → length sizes ≡ length devs → IfOk result (λ pool. fits pool sizes) }
        ensures stands { (disks : Disks) → IfOk result (λ pool. stands pool disks (meaning.none disks)) };

    /// Does a command, with a chooser of free runs. None where it may not stand here. The command is that of a line: its
    /// names, paths and bytes are as a line may have them.
    fn command<S: Shelf>(
        &mut self,
        alloc: Global,
        shelf: &mut S,
        pick: &Chooser,
        command: &Command,
    ) -> Result<Option<Reply>, Stop>
        requires fits { fits self.old (S.sizes shelf.old) }
        requires grammar { (line : List ℕ) × IsLine line command.now }
        ensures step { S.tells shelf.old → (S.world shelf.old).now.paths ≡ paths self.old → (before : meaning.State) → stands self.old (disks_of (S.world shelf.old).now) before → IfOk result (λ found. IfSome found (λ reply.
            TurnsTo meaning (stands self.new) before (S.world shelf.old).now command.now reply (S.world shelf.new).now)) }
        ensures none { (disks : Disks) (before : meaning.State) → stands self.old disks before → IfOk result (λ found. IfNone found (meaning.serves (paths self.old) before command.now → ⊥)) }
        // An answer that tells of a failed device comes only where a call on one failed.
        ensures blamed { IfOk result (λ found. IfSome found (λ reply. meaning.blames command.now reply → HasRisen (S.counts shelf.old).disk (S.counts shelf.new).disk)) }
        ensures failed { IsErrOf result DiskFault → HasRisen (S.counts shelf.old).disk (S.counts shelf.new).disk }
        ensures damaged { S.tells shelf.old → (before : meaning.State) → stands self.old (disks_of (S.world shelf.old).now) before → (at : Dva) (expected found : List ℕ) → IsErrOf result (Damaged at expected found) → meaning.damages (point (S.world shelf.old).now before) command.now (refusal.Damaged at expected found) }
        ensures may_damage { (at : Dva) (expected found : List ℕ) → IsErrOf result (Damaged at expected found) → MayBeDamaged meaning }
        // How the disks stand at each moment of it, whatever the result is.
        ensures moments { S.tells shelf.old → (S.world shelf.old).now.paths ≡ paths self.old → (before : meaning.State) → stands self.old (disks_of (S.world shelf.old).now) before
            → Throughout (λ stand. meaning.within (point (S.world shelf.old).now before) command.now (disks_of stand)) (S.world shelf.old) (S.world shelf.new) }
        ensures fits { fits self.new (S.sizes shelf.new) }
        ensures paths { paths self.new ≡ paths self.old }
        ensures sizes { S.sizes shelf.new ≡ S.sizes shelf.old }
        ensures none_fell { NoneFell (S.counts shelf.old) (S.counts shelf.new) }
        ensures told { S.tells shelf.old → S.tells shelf.new }
        ensures outside { S.tells shelf.old → KeepsOutside (S.world shelf.old) (S.world shelf.new) };

    /// Whether a step of this actor has work to do, so that it is not refused for want of it. A step that has is served.
    fn has_work(&self, actor: Actor) -> bool
        ensures works { (disks : Disks) (state : meaning.State) → stands self.now disks state → result ≡ meaning.works state actor }
        ensures served { (disks : Disks) (state : meaning.State) → stands self.now disks state → IsTrue result → meaning.serves (paths self.now) state (step_of actor) };
}
