//! How a run ends.
ghost use Rattle.std.specs.Prelude.{◌≡◌};

use std::alloc::AllocError;
use zr_base::NoMemory;

/// How a run ends.
#[derive(Clone, Copy, Debug, PartialEq, Eq)]
pub enum End {
    /// The input ended, or a `quit` came.
    Answered,
    BadWords,
    InputFault,
    OutputFault,
    DiskFault,
    BadLine,
    Damaged,
    AttachFault,
    InputLimit,
    NoMemory,
}

impl From<NoMemory> for End {
    ghost use Rattle.std.specs.Prelude.{◌≡◌};
    ghost use Rattle.zr_session.specs.declared.end.End.TheVariants as is_end;

    ghost from_gives = { λ _ e. e ≡ is_end.NoMemory };

    fn from(_error: NoMemory) -> End {
        End::NoMemory
    }
}

impl From<AllocError> for End {
    ghost use Rattle.std.specs.Prelude.{◌≡◌};
    ghost use Rattle.zr_session.specs.declared.end.End.TheVariants as is_end;

    ghost from_gives = { λ _ e. e ≡ is_end.NoMemory };

    fn from(_error: AllocError) -> End {
        End::NoMemory
    }
}

impl End {
    ghost use Rattle.zr_session.specs.Ends.{status_of};

    /// The status with which the program exits.
    pub fn status(self) -> u8
        ensures { result ≡ status_of self }
    {
        match self {
            End::Answered => 0,
            End::BadWords => 1,
            End::InputFault => 2,
            End::OutputFault => 3,
            End::DiskFault => 4,
            End::BadLine => 5,
            End::Damaged => 6,
            End::AttachFault => 7,
            End::InputLimit => 8,
            End::NoMemory => 9,
        }
    }
}
