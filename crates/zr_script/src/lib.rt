//! The lines of a script, and the text of the replies to them.
//!
//! A line is split at its single spaces, its first word says what kind of line it is, and a reader of that kind reads
//! the words behind it. So a further kind of line is a variant of `Command`, a few lines of specs/Grammar, one reader
//! and one arm. Each value has one spelling, but for the digits of `write`, which may be of either case. A reply is
//! one line, or a table with a last line `end`.
#![tactic(auto)]

mod command;
mod lines;
mod replies;
mod reply;
mod tables;
mod words;

pub use command::{Argument, Command, Keyword};
pub use lines::{MAX_LINE, parse_line};
pub use replies::{Word, put_line, reply_bytes};
pub use reply::{AuditLine, CkptLine, ListLine, MapLine, Reply, StatusLines};
pub use words::{are_paths, is_name, is_path, parse_byte, parse_guid, parse_hex, parse_number};
