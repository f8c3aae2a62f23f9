//! Why a call was not done.
//!
//! Want of memory may come at any call. `Failed` comes only where the shelf counted a fault of a disk.
ghost use Rattle.std.specs.Prelude.{◌≡◌};
ghost use Rattle.zr_scan.specs.declared.error.ScanErr.TheVariants.{NoMemory};
ghost use Rattle.zr_scan.specs.Rings.{error_of};

use std::alloc::{AllocError, AllocFailed};
use zr_shelf::DeskErr;

/// Why a call was not done. Some of its writes may have been made.
#[derive(Clone, Copy, Debug, PartialEq, Eq)]
pub enum ScanErr {
    /// A call on the disk failed.
    Failed,
    /// Memory ran out.
    NoMemory,
}

impl From<DeskErr> for ScanErr {
    ghost from_gives = { λ d e. e ≡ error_of d };

    fn from(error: DeskErr) -> ScanErr {
        match error {
            DeskErr::Failed => ScanErr::Failed,
            DeskErr::NoMemory => ScanErr::NoMemory,
        }
    }
}

impl From<AllocError> for ScanErr {
    ghost from_gives = { λ _ e. e ≡ NoMemory };

    fn from(_error: AllocError) -> ScanErr {
        ScanErr::NoMemory
    }
}

impl<T: Drop> From<AllocFailed<T>> for ScanErr {
    ghost from_gives = { λ _ e. e ≡ NoMemory };

    fn from(_failed: AllocFailed<T>) -> ScanErr {
        ScanErr::NoMemory
    }
}

impl From<zr_base::NoMemory> for ScanErr {
    ghost from_gives = { λ _ e. e ≡ NoMemory };

    fn from(_error: zr_base::NoMemory) -> ScanErr {
        ScanErr::NoMemory
    }
}
