//! The command as `clap` reads it.
ghost use Rattle.std.specs.Prelude.{◌≡◌, IfOk};
ghost use Rattle.clap.specs.Words.{app_of};
ghost use Rattle.zr_words.specs.App.{zr};

use clap::{Arg, ArgAction, Command};
use std::alloc::{AllocError, Global};

/// Three options with a value each, and devices. There is no flag for help, and the words hold no name of the program.
pub fn zr_command<'a>(alloc: Global) -> Result<Command<'a>, AllocError>
    ensures { IfOk result (λ command. app_of command ≡ zr) }
{
    let policy = Arg::new(alloc, "policy").long("policy");
    let auto = Arg::new(alloc, "auto").long("auto");
    let generate = Arg::new(alloc, "gen").long("gen");
    let devices = Arg::new(alloc, "devs").action(ArgAction::Append);
    Command::new(alloc, "zr")
        .no_binary_name(true)
        .disable_help_flag(true)
        .arg(policy)?
        .arg(auto)?
        .arg(generate)?
        .arg(devices)
}
