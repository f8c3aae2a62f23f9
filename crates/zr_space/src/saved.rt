//! The metadata of the root that a checkpoint saved.
//!
//! Once no root is saved any more, nothing uses it. It is given back a run at a time, as the metadata of the current root
//! is: it is free two commits later, or at the next reset.
ghost use Rattle.std.specs.Prelude.{◌≡◌, ◌<◌, ◌≤◌, [], true, false, IfOk, IfSome, IfNone, OnOk, OnErr};
ghost use Rattle.zr_space.specs.Saved.{IsSavedMeta, GivesSaved};

use crate::space::{Space, extent_of};
use zr_base::{Dva, Extent, NoMemory};

// The front of an extent of a device, as long as an address may be.
pub(crate) fn front_of(dev: u32, e: Extent) -> Dva
    ensures dev { result.dev ≡ dev }
    ensures start { result.start ≡ e.start }
    ensures some { 0 < e.len → 0 < result.len }
    ensures most { result.len ≤ e.len }
{
    Dva {
        dev,
        start: e.start,
        len: e.len.min(u64::from(u32::MAX)) as u32,
    }
}

impl Space {
    /// A run of the saved root's metadata, the lowest of the lowest device that has any. It goes over the devices.
    pub fn lowest_saved(&self) -> Option<Dva>
        ensures some { IfSome result (IsSavedMeta self.now) }
        ensures none { IfNone result (self.now.saved_meta ≡ []) }
    {
        for dev in 0..self.devs.len() {
            let device = &self.devs[dev];
            if let Some((e, _rest)) = device.units.saved().extents().split_first() {
                return Some(front_of(dev as u32, *e));
            }
        }
        None
    }

    /// Gives back the lowest run of the saved root's metadata, and answers whether there was one. It goes over the
    /// devices, and is logarithmic in the extents of one.
    pub fn drop_saved(&mut self) -> Result<bool, NoMemory>
        ensures yes { IfOk result (λ b. b ≡ true → GivesSaved self.old self.new) }
        ensures no { IfOk result (λ b. b ≡ false → (self.new ≡ self.old) × (self.old.saved_meta ≡ [])) }
        ensures err { OnErr result (self.new ≡ self.old) }
    {
        let Some(at) = self.lowest_saved() else {
            return Ok(false);
        };
        self.drop_run(at)?;
        Ok(true)
    }

    // Gives back a run of the saved root's metadata.
    fn drop_run(&mut self, a: Dva) -> Result<(), NoMemory>
        requires saved { IsSavedMeta self.old a }
        ensures ok { OnOk result (GivesSaved self.old self.new) }
        ensures err { OnErr result (self.new ≡ self.old) }
    {
        let e = extent_of(&a);
        let device = &mut self.devs[a.dev as usize];
        device.units.drop_saved(e)?;
        Ok(())
    }
}
