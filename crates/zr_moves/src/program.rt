//! What a run of the program is, tried against programs that do less: one that drops lines, that goes on behind the last
//! reply, or that gives out again what a kept group has.
ghost use Rattle.std.specs.Prelude.{◌≡◌, ◌⊎◌, ℕ, ◌++◌, List, [], ◌∷◌, Option, None, Some};
ghost use Rattle.zr_base.specs.declared.space.Policy.{Policy};
ghost use Rattle.zr_base.specs.declared.refusal.Refusal.TheVariants as refusal;
ghost use Rattle.zr_shelf.specs.Moments.{World};
ghost use Rattle.zr_script.specs.declared.command.Command.{Command};
ghost use Rattle.zr_script.specs.declared.command.Command.TheVariants as cmd;
ghost use Rattle.zr_script.specs.declared.reply.Reply.TheVariants as reply;
ghost use Rattle.zr_script.specs.Grammar.{IsLine};
ghost use Rattle.zr_script.specs.Lines.{lines_of};
ghost use Rattle.zr_script.specs.ReplyText.{Answered, DiskFault, NoMemory, NoOutput, last_line, reply_text};
ghost use Rattle.zr_model.specs.Runs.{Asks};
ghost use Rattle.zr_rules.specs.Roles.Role.{Free, Live, Late1Block, Late2Block};
ghost use Rattle.zr_moves.specs.Examples.{idle};
ghost use Rattle.zr_moves.specs.Runs.{Standing, Act, IsDue};
ghost use Rattle.zr_moves.specs.Premises.{IsStillThere};
ghost use Rattle.zr_moves.specs.Program.{AnswersScript, IsAttaching, EndsEarly, TellsDamage, IsGeneratedText, sum_text};

/// A run that ends well has answered each line before a `quit`: with no answer there was no line.
pub fn no_line_is_dropped()
    ensures { (policy : Policy) (rounds : ℕ) (start : Standing) (input taken sent : List ℕ) (stopped : Option Command) → AnswersScript policy rounds start input taken Answered [] stopped sent
        → (lines_of input ≡ []) ⊎ ((quit : List ℕ) × (more : List (List ℕ)) × (lines_of input ≡ quit ∷ more) × IsLine quit cmd.Quit) }
{}

/// While devices are attached nothing is taken and nothing sent, also where memory ran out then.
pub fn attaching_answers_nothing()
    ensures left { (old new : World) → IsAttaching old new → new.now.left ≡ old.now.left }
    ensures sent { (old new : World) → IsAttaching old new → new.now.sent ≡ old.now.sent }
    ensures early { (old new : World) → EndsEarly old new NoMemory → new.now.sent ≡ old.now.sent }
    ensures done { (old new : World) → EndsEarly old new Answered → ⊥ }
{}

/// Behind the last line nothing is done, nor where the output failed.
pub fn nothing_is_done_behind_the_last_line()
    ensures output { (policy : Policy) (rounds : ℕ) (start : Standing) (input taken sent : List ℕ) (acts : List Act) (stopped : Option Command) → AnswersScript policy rounds start input taken NoOutput acts stopped sent → stopped ≡ None }
    ensures due { (s : Standing) (command : Command) → IsDue Asks [] s (Some command) → ⊥ }
{}

/// The line of a generated run counts the texts of refused sums too, and a stop of it sends its own line. A run stops for
/// damage alone with the line that tells of it.
pub fn what_ends_a_run()
    ensures refused_sum { sum_text (idle (cmd.Sum 1) (reply.No refusal.NoSuchObject)) ≡ reply_text (reply.No refusal.NoSuchObject) }
    ensures other { sum_text (idle (cmd.Read 1 0 1) (reply.No refusal.NoSuchObject)) ≡ [] }
    ensures stopped { (text sent : List ℕ) → IsGeneratedText DiskFault text sent → sent ≡ last_line DiskFault }
    ensures damage { TellsDamage refusal.NoPoolOpen → ⊥ }
{}

/// A unit of a kept group is not given out again: it is late where a later group freed it.
pub fn a_kept_group_has_its_units()
    ensures free { IsStillThere 5 4 Free → ⊥ }
    ensures live { IsStillThere 5 4 Live }
    ensures own { IsStillThere 5 4 Late1Block }
    ensures before { IsStillThere 5 4 Late2Block → ⊥ }
    ensures older { IsStillThere 5 3 Late2Block }
{}
