//! The chooser that the command line names.
ghost use Rattle.std.specs.Prelude.{◌≡◌, option_map, string_bytes};
ghost use Rattle.std.specs.List.{find};
ghost use Rattle.std.specs.Str.{bytes_eq};
ghost use Rattle.zr_words.specs.Views.{line_of};
ghost use Rattle.zr_words.specs.Choosing.{chosen};

use crate::line::CommandLine;
use zr_choose::Chooser;

/// The first chooser of the name that the line has; without a name the first of all. None where there is none.
pub fn chooser_named<'a>(choosers: &'a [Chooser], line: &CommandLine) -> Option<&'a Chooser>
    ensures { option_map (λ chooser. chooser.now) result ≡ chosen (λ chooser. string_bytes chooser.name) (line_of line.now).policy choosers.now }
{
    match line.policy {
        None => choosers.first(),
        Some(name) => first_named(choosers, name),
    }
}

/// The first chooser of this name.
fn first_named<'a>(choosers: &'a [Chooser], name: &str) -> Option<&'a Chooser>
    ensures { option_map (λ chooser. chooser.now) result ≡ find (λ chooser. bytes_eq (string_bytes chooser.name) name.now) choosers.now }
{
    for chooser in choosers {
        if chooser.name() == name {
            return Some(chooser);
        }
    }
    None
}
