//! The labels and roots of a slot: what they show, and how they are written.
//!
//! A slot shows the first of its four labels that names its own size, and the roots in its four rings that list the
//! label's device. Blocks that were cut off in a write, stand in a wrong place or are of another pool show nothing. The
//! writing calls say exactly which writes they made; none of them flushes, since only the caller knows what must be
//! durable before what.
#![tactic(auto)]

mod error;
mod laws;
mod places;
mod puts;
mod rings;
mod slots;

pub use error::ScanErr;
pub use laws::{a_fresh_slot, one_answer};
pub use puts::{clear_rings, put_label, put_uber};
pub use slots::scan;
