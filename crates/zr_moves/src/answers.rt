//! What a command is answered: the order of its refusals, what a refusal leaves, lost blocks, and the way back.
ghost use Rattle.std.specs.Prelude.{◌≡◌, ◌≢◌, ℕ, List, Bool, true, false, None, Some, Contains, Result, Err};
ghost use Rattle.zr_base.specs.declared.refusal.Refusal.{Refusal};
ghost use Rattle.zr_base.specs.declared.refusal.Refusal.TheVariants as refusal;
ghost use Rattle.zr_script.specs.declared.command.Command.{Command};
ghost use Rattle.zr_script.specs.declared.command.Command.TheVariants as cmd;
ghost use Rattle.zr_script.specs.declared.reply.Reply.TheVariants as reply;
ghost use Rattle.zr_model.specs.Objects.{Object, reads_lost, changes_lost};
ghost use Rattle.zr_model.specs.State.{Leaving, Saved, PoolState, ShelfPart, Empty, Is, State, no_work, opened};
ghost use Rattle.zr_model.specs.Runs.{Shelf};
ghost use Rattle.zr_moves.specs.Refusals.{Slots, AdmitsOpen, AdmitsClosed};
ghost use Rattle.zr_moves.specs.Answers.{Answers, needs_lost};
ghost use Rattle.zr_moves.specs.Examples.{HasLostFirst};

/// Where several refusals hold, the first in the order of the command is the answer: a removal asks for the checkpoint first,
/// and a checkpoint for the removal.
pub fn refusals_come_in_their_order()
    ensures make { (s : Slots) (p : PoolState) (result : Result (Unit {0}) Refusal) → AdmitsOpen s p (cmd.Make 65536 1) result → result ≡ Err refusal.OutOfRange }
    ensures remove { (s : Slots) (p : PoolState) (own dev : List ℕ) (result : Result (Unit {0}) Refusal) → p.saved ≢ None → Contains p.devs (Leaving own)
        → AdmitsOpen s p (cmd.Remove dev) result → result ≡ Err refusal.CheckpointExists }
    ensures checkpoint { (s : Slots) (p : PoolState) (own : List ℕ) (result : Result (Unit {0}) Refusal) → p.saved ≢ None → Contains p.devs (Leaving own)
        → AdmitsOpen s p cmd.Checkpoint result → result ≡ Err refusal.RemovalInProgress }
    ensures rewind { (s : Slots) (result : Result (Unit {0}) Refusal) → AdmitsClosed s Empty cmd.ImportRewind result → result ≡ Err refusal.NoPoolOnDevices }
    ensures closed { (s : Slots) (part : ShelfPart) (result : Result (Unit {0}) Refusal) → AdmitsClosed s part cmd.Sync result → result ≡ Err refusal.NoPoolOpen }
{}

/// A refusal of an open pool changes nothing.
pub fn a_refusal_changes_nothing()
    ensures { (s : Shelf) (p : PoolState) (command : Command) (r : Refusal) (new : State) → Answers s (opened p) command (reply.No r) new → new ≡ opened p }
{}

/// A block that is lost is never read as bytes. A change needs it where it changes a part of it.
pub fn a_lost_block_is_not_read()
    ensures read { (s : Shelf) (p : PoolState) (id off len : ℕ) (bytes : List ℕ) (new : State) → needs_lost p (cmd.Read id off len) ≡ true
        → Answers s (opened p) (cmd.Read id off len) (reply.Data bytes) new → ⊥ }
    ensures part { (o : Object) → HasLostFirst o → changes_lost o 0 4095 ≡ true }
    ensures whole { (o : Object) → HasLostFirst o → changes_lost o 0 4096 ≡ false }
    ensures here { (o : Object) → HasLostFirst o → reads_lost o 4095 1 ≡ true }
    ensures next { (o : Object) → HasLostFirst o → reads_lost o 4096 1 ≡ false }
{}

/// The way back leads to the objects and devices of the checkpoint, and there is no checkpoint then.
pub fn a_rewind_is_exact()
    ensures { (s : Shelf) (p : PoolState) (saved : Saved) (new : State) → p.saved ≡ Some saved → Answers s (record { is_open = false; shelf = Is p; work = no_work }) cmd.ImportRewind reply.Done new
        → (q : PoolState) × (new ≡ opened q) × (q.objects ≡ saved.objects) × (q.devs ≡ saved.devs) × (q.saved ≡ None) × (q.name ≡ p.name) × (q.guid ≡ p.guid) }
{}
