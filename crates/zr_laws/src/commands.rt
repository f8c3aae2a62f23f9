//! Lines of a script, and the commands that they spell.
ghost use Rattle.std.specs.Prelude.{◌≡◌, ℕ, [], ◌∷◌, codes};
ghost use Rattle.zr_script.specs.declared.command.Command.{Command};
ghost use Rattle.zr_script.specs.declared.command.Command.TheVariants as cmd;
ghost use Rattle.zr_script.specs.Grammar.{IsLine};

/// Lines and what they ask for.
pub fn the_commands_of_lines()
    ensures create { IsLine (codes "create p 1 a") (cmd.Create (codes "p") 1 (codes "a" ∷ [])) }
    ensures rewind { IsLine (codes "import rewind") cmd.ImportRewind }
    ensures group { IsLine (codes "import txg 3") (cmd.ImportTxg 3) }
    ensures make { IsLine (codes "make 1 1") (cmd.Make 1 1) }
    ensures write { IsLine (codes "write 1 0 616263") (cmd.Write 1 0 (97 ∷ (98 ∷ (99 ∷ [])))) }
    ensures read { IsLine (codes "read 1 0 3") (cmd.Read 1 0 3) }
    ensures sync { IsLine (codes "sync") cmd.Sync }
    ensures estimate { IsLine (codes "remove -n b") (cmd.Estimate (codes "b")) }
    ensures cancel { IsLine (codes "remove -s") cmd.Cancel }
    ensures step { IsLine (codes "step evac") cmd.StepEvac }
{}

/// Lines that ask for nothing: no words, a keyword in capitals, a word too many, two spaces.
pub fn lines_that_are_none()
    ensures empty { (command : Command) → IsLine [] command → ⊥ }
    ensures capitals { (command : Command) → IsLine (codes "SYNC") command → ⊥ }
    ensures more { (command : Command) → IsLine (codes "sync 1") command → ⊥ }
    ensures spaces { IsLine (codes "step  evac") cmd.StepEvac → ⊥ }
{}
