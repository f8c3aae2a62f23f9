//! What a space has beside its devices.
use zr_base::CkptPart;
use zr_condense::Condense;

/// The version of the pool's format, whether a checkpoint is held or being discarded, and the condensing of a mapping that
/// goes on.
#[derive(Drop)]
pub struct Whole {
    pub version: u64,
    pub ckpt: CkptPart,
    pub cond: Option<Condense>,
}
