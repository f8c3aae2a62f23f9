//! What it means for an import that a root is not read.
ghost use Rattle.std.specs.Prelude.{◌≡◌};
ghost use Rattle.zr_open.specs.Opened.{as_saved, fault_of};

use zr_base::Refusal;
use zr_import::ImportErr;
use zr_sync::{Fault, Stop};

/// What a root that is not read means for an import.
pub(crate) fn fault_of(error: ImportErr) -> Fault
    ensures { result ≡ fault_of error }
{
    match error {
        ImportErr::Rule(rule) => Fault::No(Refusal::BadRoot { rule }),
        ImportErr::Damaged {
            at,
            expected,
            found,
        } => Fault::No(Refusal::Damaged {
            at,
            expected,
            found,
        }),
        ImportErr::Failed => Fault::Stops(Stop::DiskFault),
        ImportErr::NoMemory => Fault::Stops(Stop::NoMemory),
    }
}

/// The fault of a root whose saved root is not in order.
pub(crate) fn as_saved(fault: Fault) -> Fault
    ensures { result ≡ as_saved fault }
{
    match fault {
        Fault::No(Refusal::BadRoot { .. }) => Fault::No(Refusal::BadRoot { rule: 8 }),
        other => other,
    }
}
