//! The laws, as calls that do nothing: a caller learns them by their contracts.
ghost use Rattle.std.specs.Prelude.{◌≡◌, ℕ, true, List, Option, Some, None};
ghost use Rattle.zr_command.specs.Meanings.{Disks, Run, disks_of};
ghost use Rattle.zr_image.specs.Honest.{IsLeft};
ghost use Rattle.zr_model.specs.Objects.{Objects};
ghost use Rattle.zr_model.specs.Runs.{Asks, Point, Turn, end_of, point};
ghost use Rattle.zr_model.specs.State.{PoolState};
ghost use Rattle.zr_open.specs.Shown.{Shows};
ghost use Rattle.zr_pool.specs.Pools.{DeviceState, no_device_state, stand_of};
ghost use Rattle.zr_pool.specs.Turns.{IsWithin, RestsOn, on_devices};
ghost use Rattle.zr_recorded.specs.Service.{IsWhole};
ghost use Rattle.zr_script.specs.declared.command.Command.{Command};
ghost use Rattle.zr_script.specs.Lines.{lines_of};
ghost use Rattle.zr_session.specs.Agenda.{IsDue, IsGiven, agenda};
ghost use Rattle.zr_session.specs.Generated.{Task, due_in};
ghost use Rattle.zr_session.specs.Moments.{IsMoment, IsMomentOf};
ghost use Rattle.zr_session.specs.declared.replies.Replies.TheVariants.{Kept, Sent};
ghost use Rattle.zr_shelf.specs.Disks.{Stand};
ghost use Rattle.zr_sync.specs.declared.open.OpenPool.{OpenPool};
ghost use Rattle.zr_prefix.specs.Prefix.{IsCovered, IsOfPrefix, IsTold, ShowsPrefix};
ghost use Rattle.zr_prefix.specs.Joined.{AreJoined, FollowOn, IsStoppedAt, StoppedRun, StopsTold};

/// Behind the lines of a run the objects that are told to be committed last are those behind a prefix of them, and a stop may
/// lose each line behind that: none of these was answered with a commit.
pub fn what_is_committed_is_told()
    ensures { (p : Point DeviceState) (turns : List (Turn DeviceState)) (objects : Objects) → p.state.behind ≡ None → Run on_devices p turns → (end_of p turns).state.behind ≡ Some objects → IsOfPrefix p turns objects }
{}

/// Between two lines whatever an honest crash leaves shows the objects of such a prefix, where they are told; and where nothing was
/// written yet, what it would have shown when the run began.
pub fn a_rest_shows_a_prefix()
    ensures { (p : Point DeviceState) (turns : List (Turn DeviceState)) (disks : Disks) → p.state.behind ≡ None → Run on_devices p turns → IsTold (end_of p turns) → RestsOn (end_of p turns) disks → (due : Option Command) → ShowsPrefix p turns due disks }
{}

/// So it does at each moment of a line behind them that works in the group that is open or commits it, and ends no removal, and of one
/// where no pool is open: while a pool is made, or gone back to, it may show that pool too.
pub fn a_line_shows_a_prefix()
    ensures { (p : Point DeviceState) (turns : List (Turn DeviceState)) (command : Command) (disks : Disks) → p.state.behind ≡ None → Run on_devices p turns → IsTold (end_of p turns) → IsCovered (end_of p turns) command → IsWithin (end_of p turns) command disks → ShowsPrefix p turns (Some command) disks }
{}

/// Where an import is told to find what was committed last, and each device of the open pool is in service and no root is saved, whatever an honest
/// crash leaves between two lines does show a pool, and it has the objects of such a prefix.
pub fn a_pool_is_there()
    ensures { (p : Point DeviceState) (turns : List (Turn DeviceState)) (disks : Disks) (x : OpenPool) (objects : Objects) → p.state.behind ≡ None → Run on_devices p turns → RestsOn (end_of p turns) disks → (end_of p turns).state.found ≡ true → (end_of p turns).state.account ≡ Some x → (end_of p turns).state.behind ≡ Some objects → IsWhole x → x.saved ≡ None
        → (image : List (List ℕ)) → IsLeft (stand_of disks) image → (paths : List (List ℕ)) → (q : PoolState) × Shows paths image q × (q.objects ≡ objects) × IsOfPrefix p turns objects }
{}

/// At a moment of a run at which it is told what was committed, or that nothing was written yet, over the lines of an input or
/// generated ones, whatever an honest crash leaves comes of the lines that are answered by then, or of these and the one that was due.
pub fn a_stopped_run_shows_a_prefix()
    ensures given { (rounds : ℕ) (opening stand : Stand) (m : IsMoment on_devices rounds opening stand) → StopsTold (List ℕ) Asks Sent (agenda rounds (lines_of opening.left)) opening stand m → IsStoppedAt opening stand m.turns (IsDue on_devices Asks m.rest (end_of (point opening (no_device_state (disks_of opening))) m.turns)) }
    ensures generated { (task : Task) (opening stand : Stand) (m : IsMomentOf Command on_devices IsGiven Kept (due_in task) (no_device_state (disks_of opening)) opening stand) → StopsTold Command IsGiven Kept (due_in task) opening stand m → IsStoppedAt opening stand m.turns (IsDue on_devices IsGiven m.rest (end_of (point opening (no_device_state (disks_of opening))) m.turns)) }
{}

/// Runs of which each begins on an image that an honest crash left of the one before, and imports the pool: each finds the
/// objects that come of the lines of the one before.
pub fn stopped_runs_join()
    ensures { (first : StoppedRun) (more : List StoppedRun) → FollowOn first more → AreJoined first more }
{}
