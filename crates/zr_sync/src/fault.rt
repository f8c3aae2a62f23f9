//! Why a command is not done.
ghost use Rattle.std.specs.Prelude.{◌≡◌};
ghost use Rattle.zr_sync.specs.Stops.{fault_of, stop_of_scan};
ghost use Rattle.zr_sync.specs.declared.fault.Fault.TheVariants.{No, Stops};
ghost use Rattle.zr_sync.specs.declared.stop.Stop.TheVariants.{NoMemory};

use crate::stop::Stop;
use std::alloc::AllocError;
use zr_base::Refusal;
use zr_scan::ScanErr;
use zr_store::StoreErr;

/// Why a command is not done: it is refused, which is an answer, or the run stops.
#[derive(Clone, Copy, Debug, PartialEq, Eq)]
pub enum Fault {
    No(Refusal),
    Stops(Stop),
}

impl From<Refusal> for Fault {
    ghost from_gives = { λ r f. f ≡ No r };

    fn from(refusal: Refusal) -> Fault {
        Fault::No(refusal)
    }
}

impl From<Stop> for Fault {
    ghost from_gives = { λ s f. f ≡ Stops s };

    fn from(stop: Stop) -> Fault {
        Fault::Stops(stop)
    }
}

impl From<StoreErr> for Fault {
    ghost from_gives = { λ e f. f ≡ fault_of e };

    fn from(error: StoreErr) -> Fault {
        match error {
            StoreErr::Failed => Fault::Stops(Stop::DiskFault),
            StoreErr::Damaged {
                at,
                expected,
                found,
            } => Fault::No(Refusal::Damaged {
                at,
                expected,
                found,
            }),
            StoreErr::Unresolved { at, expected } | StoreErr::Malformed { at, expected } =>
                Fault::No(Refusal::Damaged {
                    at,
                    expected,
                    found: expected,
                }),
            StoreErr::NoRun { needed, longest } => Fault::No(Refusal::NoRun { needed, longest }),
            StoreErr::NoMemory => Fault::Stops(Stop::NoMemory),
        }
    }
}

impl From<ScanErr> for Fault {
    ghost from_gives = { λ e f. f ≡ Stops (stop_of_scan e) };

    fn from(error: ScanErr) -> Fault {
        Fault::Stops(Stop::from(error))
    }
}

impl From<AllocError> for Fault {
    ghost from_gives = { λ _ f. f ≡ Stops NoMemory };

    fn from(_error: AllocError) -> Fault {
        Fault::Stops(Stop::NoMemory)
    }
}

impl From<zr_base::NoMemory> for Fault {
    ghost from_gives = { λ _ f. f ≡ Stops NoMemory };

    fn from(_error: zr_base::NoMemory) -> Fault {
        Fault::Stops(Stop::NoMemory)
    }
}
