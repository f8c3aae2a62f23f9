//! Why a root is not read.
ghost use Rattle.std.specs.Prelude.{◌≡◌, ℕ};
ghost use Rattle.zr_import.specs.Causes.{told_of};
ghost use Rattle.zr_store.specs.declared.StoreErr.TheVariants.{NoRun};

use std::alloc::{AllocError, AllocFailed};
use zr_base::Dva;
use zr_store::StoreErr;

/// Why a root is not read.
#[derive(Clone, Copy, Debug, PartialEq, Eq)]
pub enum ImportErr {
    /// The number of the rule of a root that is broken: 1, 2, 5, 7 or 8.
    Rule(u8),
    /// What was read at the address has another SHA-256 than its pointer says.
    Damaged {
        at: Dva,
        expected: [u8; 32],
        found: [u8; 32],
    },
    /// A call on a device failed.
    Failed,
    /// Memory ran out.
    NoMemory,
}

impl From<AllocError> for ImportErr {
    ghost use Rattle.std.specs.Prelude.{◌≡◌};
    ghost use Rattle.zr_import.specs.declared.errors.ImportErr.TheVariants as error;

    ghost from_gives = { λ _ e. e ≡ error.NoMemory };

    fn from(_: AllocError) -> Self {
        ImportErr::NoMemory
    }
}

impl<T: Drop> From<AllocFailed<T>> for ImportErr {
    ghost use Rattle.std.specs.Prelude.{◌≡◌};
    ghost use Rattle.zr_import.specs.declared.errors.ImportErr.TheVariants as error;

    ghost from_gives = { λ _ e. e ≡ error.NoMemory };

    fn from(_: AllocFailed<T>) -> Self {
        ImportErr::NoMemory
    }
}

impl From<zr_base::NoMemory> for ImportErr {
    ghost use Rattle.std.specs.Prelude.{◌≡◌};
    ghost use Rattle.zr_import.specs.declared.errors.ImportErr.TheVariants as error;

    ghost from_gives = { λ _ e. e ≡ error.NoMemory };

    fn from(_: zr_base::NoMemory) -> Self {
        ImportErr::NoMemory
    }
}

/// What a store's answer to a read says of the root.
pub(crate) fn told(e: &StoreErr) -> ImportErr
    requires { (needed longest : ℕ) → ¬ e.now ≡ NoRun needed longest }
    ensures { result ≡ told_of e.now }
{
    match e {
        StoreErr::NoRun { .. } => unreachable!(),
        StoreErr::Damaged {
            at,
            expected,
            found,
        } => ImportErr::Damaged {
            at: *at,
            expected: *expected,
            found: *found,
        },
        StoreErr::Unresolved { .. } => ImportErr::Rule(7),
        StoreErr::Malformed { .. } => ImportErr::Rule(1),
        StoreErr::Failed => ImportErr::Failed,
        StoreErr::NoMemory => ImportErr::NoMemory,
    }
}
