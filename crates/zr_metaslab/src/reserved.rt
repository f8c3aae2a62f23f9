//! What must come back after a command was accepted.
//!
//! A caller that may not fail later makes room first, and then gives back without a word of memory. Here the room of each
//! metaslab is there since its device was added, so to make room costs nothing, and how many releases it is good for has
//! no bound: no number of what is spare is kept.
ghost use Rattle.std.specs.Prelude.{◌≡◌, ℕ, ◌+◌, ◌<◌, ◌≤◌, true, false, IsOk};
ghost use Rattle.zr_base.specs.Extents.{in_extent};
ghost use Rattle.zr_metaslab.specs.Devices.{free_at, units_at, Gives};

use crate::Slabs;
use zr_base::{Extent, NoMemory};

impl Slabs {
    /// Makes room for releases that meet `n` metaslabs together. It is there, whatever `n` is.
    pub fn reserve(&mut self, _n: u64) -> Result<(), NoMemory>
        ensures ok { IsOk result }
        ensures same { self.new ≡ self.old }
    {
        Ok(())
    }

    /// As `release`, for what a caller has made room for. It takes no memory, and needs no room that was not there.
    pub fn release_reserved(&mut self, dev: u32, e: Extent)
        requires not_empty { 0 < e.len }
        requires within { e.start + e.len ≤ units_at self.old dev }
        requires apart { (u : ℕ) → in_extent e u ≡ true → free_at self.old dev u ≡ false }
        ensures { Gives self.old self.new dev e }
    {
        self.release(dev, e);
    }
}
