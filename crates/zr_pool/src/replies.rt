//! What a command that was done, refused or stopped is answered.
ghost use Rattle.std.specs.Prelude.{◌≡◌};
ghost use Rattle.zr_pool.specs.Ends.{answer_of, stop_of};

use zr_base::Refusal;
use zr_command as model;
use zr_script::Reply;
use zr_sync::{Fault, Stop};

/// Why the run stops, as the run knows it.
fn stop_of(stop: Stop) -> model::Stop
    ensures { result ≡ stop_of stop }
{
    match stop {
        Stop::DiskFault => model::Stop::DiskFault,
        Stop::Damaged {
            at,
            expected,
            found,
        } => model::Stop::Damaged {
            at,
            expected,
            found,
        },
        Stop::NoMemory => model::Stop::NoMemory,
    }
}

/// The reply to a command: a refusal is one too.
pub fn answer_of(done: Result<Option<Reply>, Fault>) -> Result<Option<Reply>, model::Stop>
    ensures { result ≡ answer_of done }
{
    match done {
        Ok(found) => Ok(found),
        Err(Fault::No(refusal)) => Ok(Some(Reply::No(refusal))),
        Err(Fault::Stops(stop)) => Err(stop_of(stop)),
    }
}
