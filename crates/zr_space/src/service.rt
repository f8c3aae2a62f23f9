//! What holds of every space, for the crates above, and whether all of it is in service.
ghost use Rattle.std.specs.Prelude.{◌≡◌, ◌↔◌, ℕ, ◌<◌, ◌≤◌, ◌^◌, true, IsTrue, length};
ghost use Rattle.zr_rules.specs.Equation.{devices_in};
ghost use Rattle.zr_base.specs.Extents.{IsMaximal};
ghost use Rattle.zr_rules.specs.Columns.{late_blocks};
ghost use Rattle.zr_rules.specs.Places.{is_on, part_of, units_of_dev};
ghost use Rattle.zr_rules.specs.Mappings.{IsRising};
ghost use Rattle.zr_rules.specs.Resolve.{IsRanked};
ghost use Rattle.zr_rules.specs.Space.{IsLawful};
ghost use Rattle.zr_base.specs.declared.space.Dva.{Dva};
ghost use Rattle.zr_space.specs.Live.{IsLive, IsFreeable};
ghost use Rattle.zr_space.specs.Paths.{AreInService, HasNoMapping};

use crate::space::Space;

impl Space {
    /// A space is lawful, each mapping rises and leads to devices that are there or went later, there are at most 32
    /// devices, and each has less than 2^40 units, so its units can be put into a set. The blocks of its late sets are kept as
    /// their maximal extents. A device in service has no mapping. It does nothing: a caller learns these facts by it.
    pub fn lawful(&self)
        ensures lawful { IsLawful self.now }
        ensures ranked { IsRanked (devices_in self.now) }
        ensures rising { (d : ℕ) → IsRising ((devices_in self.now).entries d) }
        ensures few { length self.now.parts.devs ≤ 32 }
        ensures small { (d : ℕ) → units_of_dev self.now.parts.devs d < 2 ^ 40 }
        ensures first_late { (d : ℕ) → IsMaximal (late_blocks (part_of self.now.parts.devs d).late1) }
        ensures unmapped { (d : ℕ) → is_on (part_of self.now.parts.devs d).row.state ≡ true → HasNoMapping (part_of self.now.parts.devs d) }
        ensures second_late { (d : ℕ) → IsMaximal (late_blocks (part_of self.now.parts.devs d).late2) }
    {
        let _devs = &self.devs;
    }

    /// Where no device is leaving or gone, an address may be freed just where it is live. It does nothing: a caller learns
    /// this by it.
    pub fn freeable_in_service(&self)
        requires { AreInService (devices_in self.now) }
        ensures freeable { (a : Dva) → IsLive self.now a → IsFreeable self.now a }
        ensures live { (a : Dva) → IsFreeable self.now a → IsLive self.now a }
    {
        let _devs = &self.devs;
    }

    /// Whether no device is leaving or gone. It goes over the devices.
    pub fn is_in_service(&self) -> bool
        ensures { IsTrue result ↔ AreInService (devices_in self.now) }
    {
        for dev in 0..self.devs.len() {
            if !self.devs[dev].is_on() {
                return false;
            }
        }
        true
    }
}
