//! Whether there is background work on an open pool.
ghost use Rattle.std.specs.Prelude.{◌↔◌, IsTrue};
ghost use Rattle.zr_removal.specs.Refusals.{HasWork};

use zr_base::CkptPart;
use zr_model::Actor;
use zr_sync::OpenPool;

/// Whether an actor has work: a device is leaving, what a checkpoint kept is being discarded, or a mapping is condensed or
/// due. It goes over the devices.
pub fn has_work(pool: &OpenPool, actor: Actor) -> bool
    ensures { IsTrue result ↔ HasWork pool.now.space actor }
{
    match actor {
        Actor::Evac => pool.space.leaving().is_some(),
        Actor::Discard => pool.space.ckpt() == CkptPart::Discarding,
        Actor::Condense => pool.space.condense_due(),
    }
}
