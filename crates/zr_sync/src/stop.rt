//! Why a commit ends the run.
ghost use Rattle.std.specs.Prelude.{◌≡◌};
ghost use Rattle.zr_sync.specs.Stops.{stop_of, stop_of_scan};
ghost use Rattle.zr_sync.specs.declared.stop.Stop.TheVariants.{NoMemory};

use std::alloc::AllocError;
use zr_base::Dva;
use zr_scan::ScanErr;
use zr_store::StoreErr;

/// Why a commit was not done. The pool is not to be used after it, and what it had not committed is lost.
#[derive(Clone, Copy, Debug, PartialEq, Eq)]
pub enum Stop {
    /// A call on a device failed, and the count of its faults rose.
    DiskFault,
    /// A block whose bytes have another sum than its pointer says; or, with the same sum twice, one that does not resolve
    /// or is no spelling of what should stand there.
    Damaged {
        at: Dva,
        expected: [u8; 32],
        found: [u8; 32],
    },
    /// Memory ran out. For now also: a run of free units is missing within a commit, or the group is the last of all.
    NoMemory,
}

impl From<StoreErr> for Stop {
    ghost from_gives = { λ e s. s ≡ stop_of e };

    fn from(error: StoreErr) -> Stop {
        match error {
            StoreErr::Failed => Stop::DiskFault,
            StoreErr::Damaged {
                at,
                expected,
                found,
            } => Stop::Damaged {
                at,
                expected,
                found,
            },
            StoreErr::Unresolved { at, expected } | StoreErr::Malformed { at, expected } =>
                Stop::Damaged {
                    at,
                    expected,
                    found: expected,
                },
            StoreErr::NoRun { .. } | StoreErr::NoMemory => Stop::NoMemory,
        }
    }
}

impl From<ScanErr> for Stop {
    ghost from_gives = { λ e s. s ≡ stop_of_scan e };

    fn from(error: ScanErr) -> Stop {
        match error {
            ScanErr::Failed => Stop::DiskFault,
            ScanErr::NoMemory => Stop::NoMemory,
        }
    }
}

impl From<AllocError> for Stop {
    ghost from_gives = { λ _ s. s ≡ NoMemory };

    fn from(_error: AllocError) -> Stop {
        Stop::NoMemory
    }
}

impl From<zr_base::NoMemory> for Stop {
    ghost from_gives = { λ _ s. s ≡ NoMemory };

    fn from(_error: zr_base::NoMemory) -> Stop {
        Stop::NoMemory
    }
}
