//! A run of the program, from the words and the script to the replies and the status.
//!
//! The input is taken in pieces. Each line is cut out of its piece where it lies, and only a line that a piece does not
//! end is carried over. A line goes to the pool as a command, and its reply is sent before the next line is taken up.
//! Behind each line rounds of steps are put in, where the words ask for them and there is work.
//! Where the words ask for it, commands are generated in the place of lines, and one line tells what the replies were.
//! The loop over lines knows no command but `quit`: what a command means is between the script and the pool.
#![tactic(auto)]

mod command;
mod course;
mod end;
mod generated;
mod line;
mod memory;
mod object;
mod program;
mod replies;
mod rounds;
mod script;
mod session;
mod table;
mod tally;

pub use program::{run_in_memory, run_on};
