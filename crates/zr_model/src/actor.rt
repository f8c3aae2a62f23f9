//! Who works on an open pool beside the lines.

/// What works on an open pool in the background, a step at a time, after zpool-remove(8) and zpool-checkpoint(8).
#[derive(Clone, Copy, Debug, PartialEq, Eq)]
pub enum Actor {
    /// Copies what a device that is leaving still has.
    Evac,
    /// Gives back what a checkpoint kept that is being discarded.
    Discard,
    /// Condenses the mapping of a removed device.
    Condense,
}
