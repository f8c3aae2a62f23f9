//! Which addresses are in use, as one may ask before it gives them back.
ghost use Rattle.std.specs.Prelude.{IsTrue, ◌↔◌};
ghost use Rattle.zr_rules.specs.Equation.{devices_in};
ghost use Rattle.zr_space.specs.Live.{IsLive};
ghost use Rattle.zr_space.specs.Paths.{AreInService};
ghost use Rattle.zr_space.specs.Drops.{IsMeta};

use crate::space::{Space, extent_of};
use zr_base::Dva;

impl Space {
    /// Whether each unit of an address is in use by a block, and neither for the checkpoint alone nor for a copy, so that it may be freed. Logarithmic in the extents of the
    /// device.
    pub fn live(&self, a: Dva) -> bool
        requires { AreInService (devices_in self.now) }
        ensures { IsTrue result ↔ IsLive self.now a }
    {
        if a.dev >= self.devices() || a.len == 0 {
            return false;
        }
        let device = &self.devs[a.dev as usize];
        let e = extent_of(&a);
        if !device.units.held().covers(e) {
            return false;
        }
        if !device.units.kept().is_apart(e) {
            return false;
        }
        device.units.copies().is_apart(e)
    }

    /// Whether an address has metadata of the current root alone, or of the saved one, so that it may be given back.
    /// Logarithmic in the extents of the device.
    pub fn is_meta(&self, a: Dva) -> bool
        ensures { IsTrue result ↔ IsMeta self.now a }
    {
        if a.dev >= self.devices() || a.len == 0 {
            return false;
        }
        let device = &self.devs[a.dev as usize];
        let e = extent_of(&a);
        if device.units.meta().covers(e) {
            return true;
        }
        device.units.saved().covers(e)
    }
}
