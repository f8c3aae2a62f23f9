//! The plain values that every other crate speaks of.
//!
//! A pool stands on devices, and a device is counted in units of 4,096 bytes. What the crates above hand to each
//! other are runs of units (`Extent`), addresses (`Dva`), entries of an indirect mapping (`Entry`), and what a root
//! records of a device (`DevPart`). They are plain data, so that a contract can compare them as they stand. The rules
//! that they obey are definitions in specs/ here and in zr_rules.
#![tactic(auto)]

ghost use Rattle.std.specs.Prelude.{◌≡◌, ◌≤◌, IsTrue};
ghost use Rattle.zr_base.specs.Blocks.{is_block_size};

mod lists;
mod refusal;
mod space;

pub use lists::{Blob, Items};
pub use refusal::Refusal;
pub use space::{
    Change, CkptPart, Columns, CondPart, Condensed, DevPart, DevRow, DevState, Dva, Entry, Extent,
    LateRun, Policy, Sizes, SpaceParts,
};
use std::alloc::{AllocError, AllocFailed};

/// The bytes of a unit.
pub const UNIT: u64 = 4096;

/// Whether a block may have this many units.
pub fn is_block_size(units: u64) -> bool
    ensures value { result ≡ is_block_size units }
    ensures small { IsTrue result → units ≤ 32 }
{
    units == 1 || units == 2 || units == 4 || units == 8 || units == 16 || units == 32
}

/// Memory ran out.
#[derive(Debug, Drop)]
pub struct NoMemory;

impl From<AllocError> for NoMemory {
    fn from(_error: AllocError) -> NoMemory {
        NoMemory
    }
}

impl<T: Drop> From<AllocFailed<T>> for NoMemory {
    fn from(_failed: AllocFailed<T>) -> NoMemory {
        NoMemory
    }
}
