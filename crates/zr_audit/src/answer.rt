//! What an audit answers.
use zr_base::Items;

/// In units, for each device index: how many different units of the device a walk finds, and how many are counted as
/// allocated.
#[derive(Drop)]
pub struct Audit {
    pub walked: Items<u64>,
    pub allocated: Items<u64>,
}
