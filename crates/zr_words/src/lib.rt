//! The words with which the program is started.
//!
//! `clap` finds the values of the options and the words of the devices; what each of them says is read here. Options and
//! devices come in any order, and behind `--` stand devices alone. What a line must have as a whole (1 to 32
//! devices, no path twice, three devices to generate a script) is looked at when all words are read.
//!
//! A further option is an argument of the command, a field of `CommandLine` and a function that reads its value, and the
//! same in the definitions.
#![tactic(auto)]

mod choose;
mod command;
mod device;
mod line;
mod value;
mod words;

pub use choose::chooser_named;
pub use device::Device;
pub use line::CommandLine;
pub use words::parse_words;
