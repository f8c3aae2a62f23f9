//! The definitions, tried on examples and against wrong readings.
ghost use Rattle.std.specs.Prelude.{◌≡◌, ◌≢◌, ℕ, ◌+◌, ◌<◌, ◌≤◌, List, [], ◌∷◌, ◌++◌, length, Bool, true, false, None, Some, Option, Contains, codes};
ghost use Rattle.zr_base.specs.declared.space.Policy.{Policy};
ghost use Rattle.zr_base.specs.declared.refusal.Refusal.{Refusal};
ghost use Rattle.zr_base.specs.declared.refusal.Refusal.TheVariants as refusal;
ghost use Rattle.zr_script.specs.declared.command.Command.{Command};
ghost use Rattle.zr_script.specs.declared.command.Command.TheVariants as cmd;
ghost use Rattle.zr_script.specs.declared.reply.Reply.{Reply};
ghost use Rattle.zr_script.specs.declared.reply.Reply.TheVariants as reply;
ghost use Rattle.zr_model.specs.State.{PoolState, ShelfPart, Is, State};
ghost use Rattle.zr_model.specs.Runs.{Shelf, Point, Turn};
ghost use Rattle.zr_moves.specs.Account.{Account};
ghost use Rattle.zr_moves.specs.Prefix.{Now, IsLastCommit, CommittedAt, HasSent, MeansPrefix, KeepsPrefix, IsNoLater};
ghost use Rattle.zr_bptr.specs.declared.Bptr.{Bptr};
ghost use Rattle.zr_rules.specs.Space.{Space};
ghost use Rattle.zr_moves.specs.Commits.{Commits, KeepsRoots, WritesTree, by_level};
ghost use Rattle.zr_moves.specs.Moves.{AddsDevice, Course, FitsFirst, HoldsCheckpoint, Moves, Stays, fits, has_part, discard_reply};
ghost use Rattle.zr_moves.specs.Move.{Move, MovesClosed};
ghost use Rattle.zr_moves.specs.Examples.{nothing, idle, one_turn, block_at};

/// A `sync` that was answered is a commit, and a refusal or a reading is none. The last commit among the first commands is
/// no earlier than any of them, so no image that is allowed loses one.
pub fn no_answered_commit_is_lost()
    ensures synced { CommittedAt nothing (idle cmd.Sync (reply.Synced 2) ∷ []) 1 }
    ensures refused { CommittedAt nothing (idle cmd.Sync (reply.No refusal.NoPoolOpen) ∷ []) 1 → ⊥ }
    ensures read { CommittedAt nothing (idle (cmd.Read 1 0 1) (reply.Data []) ∷ []) 1 → ⊥ }
    ensures copied { CommittedAt nothing (idle cmd.StepEvac (reply.Copied 3) ∷ []) 1 → ⊥ }
    ensures gone { CommittedAt nothing (idle cmd.StepEvac (reply.Gone 0) ∷ []) 1 }
    ensures last { (p : Point State) (turns : List (Turn State)) (r s j : ℕ) → IsLastCommit p turns r s → CommittedAt p turns j → j ≤ r → j ≤ s }
    ensures kept { (now : Now) (paths : List (List ℕ)) (r s j : ℕ) (image : List (List ℕ)) → IsLastCommit now.start now.turns r s → CommittedAt now.start now.turns j → j ≤ r
        → (means : MeansPrefix ⊥ now paths s r image) → j ≤ means.k }
{}

/// A reply counts as sent when its last byte is sent, and then it does count.
pub fn a_reply_counts_when_it_is_whole()
    ensures part { HasSent (one_turn cmd.Sync reply.Done) 0 (codes "o") }
    ensures not_yet { HasSent (one_turn cmd.Sync reply.Done) 1 (codes "o") → ⊥ }
    ensures whole { HasSent (one_turn cmd.Sync reply.Done) 1 (codes "ok" ++ 10 ∷ []) }
    ensures then { HasSent (one_turn cmd.Sync reply.Done) 0 (codes "ok" ++ 10 ∷ []) → ⊥ }
{}

/// A group from before the run comes before those of the run, and never after one.
pub fn older_groups_come_first()
    ensures first { IsNoLater None (Some 0) }
    ensures after { IsNoLater (Some 0) None → ⊥ }
    ensures falls { IsNoLater (Some 2) (Some 1) → ⊥ }
{}

/// A commit has the next group. A reset tells its own group as that of the last reset, and every other commit the one before.
pub fn a_commit_tells_its_reset()
    ensures next { (policy : Policy) (is_reset : Bool) (before after : Shelf) (old new : Account) → (c : Commits policy is_reset before after old new) → c.root.uber.txg ≡ c.last.txg + 1 }
    ensures reset { (policy : Policy) (before after : Shelf) (old new : Account) → (c : Commits policy true before after old new) → c.root.uber.reset ≡ c.root.uber.txg }
    ensures other { (policy : Policy) (before after : Shelf) (old new : Account) → (c : Commits policy false before after old new) → c.root.uber.reset ≡ c.last.reset }
    ensures ended { (policy : Policy) (is_reset : Bool) (before after : Shelf) (old new : Account) → Commits policy is_reset before after old new → new.changes.objects ≡ [] }
{}

/// Blocks are stored by rising level; 64 changed blocks fit a group and 65 do not; a range that has all of a block needs none of it.
pub fn the_numbers_of_groups_and_blocks()
    ensures order { by_level (block_at 1 7 ∷ (block_at 0 9 ∷ (block_at 0 8 ∷ []))) ≡ block_at 0 9 ∷ (block_at 0 8 ∷ (block_at 1 7 ∷ [])) }
    ensures fit { fits 64 64 ≡ true }
    ensures too_many { fits 65 1 ≡ false }
    ensures all { has_part 4096 0 4096 0 ≡ false }
    ensures front { has_part 4096 0 4095 0 ≡ true }
    ensures back { has_part 4096 1 8191 0 ≡ true }
    ensures next { has_part 4096 1 8191 1 ≡ false }
    ensures none { discard_reply 0 ≡ reply.Ended }
{}

/// A table leaves the roots of the disks and is never refused for room, a reading leaves the account, and a refused import opens nothing.
pub fn what_does_not_commit()
    ensures room { (c : Course) (p : PoolState) (old : Account) (new : Option Account) (needed free : ℕ) → Move c (Is p) (Some old) cmd.List (reply.No (refusal.NoRoom needed free)) new → ⊥ }
    ensures roots { (c : Course) (p : PoolState) (old new : Account) (answer : Reply) → Moves c p old cmd.List answer new → KeepsRoots c.before c.after }
    ensures read { (c : Course) (p : PoolState) (old new : Account) (id off len : ℕ) (answer : Reply) → Moves c p old (cmd.Read id off len) answer new → new ≡ old }
    ensures opened { (c : Course) (r : Refusal) (new : Account) → MovesClosed c cmd.Import (reply.No r) (Some new) → ⊥ }
    ensures synced { (c : Course) (p : PoolState) (old new : Account) → Moves c p old cmd.Sync reply.Done new → ⊥ }
{}

/// A commit within a command is one that the disks went through at a moment of it.
pub fn a_commit_within_a_command_is_one_of_its_moments()
    ensures full { (c : Course) (old mid : Account) (blocks objects : ℕ) (between : Shelf) → fits blocks objects ≡ false → FitsFirst c old blocks objects between mid → Contains c.moments between }
    ensures added { (c : Course) (path : List ℕ) (old new : Account) → (a : AddsDevice c path old new) → Contains c.moments a.committed }
    ensures held { (c : Course) (old new : Account) → (a : HoldsCheckpoint c old new) → Contains c.moments a.committed }
{}

/// A commit frees no block that the tree still has, and none that it had not.
pub fn a_commit_frees_what_a_tree_has_no_more()
    ensures kept { (policy : Policy) (txg : ℕ) (had has : List Bptr) (old new : Space) (b : Bptr) → (w : WritesTree policy txg had has old new) → Contains has b → Contains w.gone b → ⊥ }
    ensures had { (policy : Policy) (txg : ℕ) (had has : List Bptr) (old new : Space) (b : Bptr) → (w : WritesTree policy txg had has old new) → Contains w.gone b → Contains had b }
    ensures gone { (policy : Policy) (txg : ℕ) (had has : List Bptr) (old new : Space) (b : Bptr) → (w : WritesTree policy txg had has old new) → Contains had b → (Contains has b → ⊥) → Contains w.gone b }
{}
