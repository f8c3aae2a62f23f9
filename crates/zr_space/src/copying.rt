//! The removal of a device: units that are being copied.
//!
//! Until they are there their place is only kept from the allocator, and the space is as it was: where they are not copied
//! the place goes back, and nothing has happened. The room for the copy is made with the plan, so neither end of it takes
//! memory.
ghost use Rattle.std.specs.Prelude.{◌≡◌};
ghost use Rattle.zr_rules.specs.Frees.{IsSameRoot};
ghost use Rattle.zr_space.specs.Plans.{IsPlan, MakesCopy};

use crate::copy::Plan;
use crate::device::Device;
use crate::space::{Space, extent_of};
use crate::whole::Whole;
use std::alloc::Global;
use std::marker::Model;
use zr_metaslab::Slabs;

/// A space of which the units of a plan are being copied.
#[derive(Drop)]
pub struct Copying {
    pub(crate) alloc: Global,
    pub(crate) whole: Whole,
    pub(crate) slabs: Slabs,
    pub(crate) devs: Vec<Device>,
    pub(crate) dev: u32,
    pub(crate) plan: Plan,
}

impl Model for Copying {
    ghost use Rattle.zr_space.specs.Views.{space_of};
    ghost use Rattle.zr_space.specs.Copying.{Underway, IsUnderway};

    ghost Value = { Underway };

    ghost view = { λ a. record { before = space_of a.whole a.devs.items; dev = a.dev; plan = a.plan } };

    ghost invariant = { λ a. IsUnderway a.whole a.slabs a.devs.items a.dev a.plan };
}

impl Copying {
    /// The device that is leaving.
    pub fn dev(&self) -> u32
        ensures dev { result ≡ self.now.dev }
        ensures plan { IsPlan self.now.before self.now.dev self.now.plan }
    {
        self.dev
    }

    /// Which units are copied, and which are to have them.
    pub fn plan(&self) -> Plan
        ensures { result ≡ self.now.plan }
    {
        self.plan
    }

    /// The units are there: the entry for them is made. It takes no memory.
    pub fn done(self) -> Space
        ensures made { MakesCopy self.before result self.dev self.plan }
        ensures root { IsSameRoot self.before result }
    {
        let Copying {
            alloc,
            whole,
            slabs,
            mut devs,
            dev,
            plan,
        } = self;
        let place = &mut devs[plan.to.dev as usize];
        place.units.hold_copy(extent_of(&plan.to));
        let source = &mut devs[dev as usize];
        source.moves.copied(plan.from, plan.to.dev, plan.to.start);
        source.moves.lawful();
        Space {
            alloc,
            whole,
            slabs,
            devs,
        }
    }

    /// The units were not copied: the space is as it was before the plan. It takes no memory.
    pub fn failed(self) -> Space
        ensures { result ≡ self.before }
    {
        let Copying {
            alloc,
            whole,
            mut slabs,
            devs,
            dev: _,
            plan,
        } = self;
        slabs.release(plan.to.dev, extent_of(&plan.to));
        Space {
            alloc,
            whole,
            slabs,
            devs,
        }
    }
}
