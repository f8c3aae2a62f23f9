//! The removal of a device: how the next units to be copied are planned.
//!
//! Pieces are copied from the lowest unit up, each at most 256 units long. A piece goes to one place: where there is none
//! so long, half of it is copied, or half of that, down to one unit. With the plan the space is handed on: nothing else
//! happens to it until the units are there, or are not copied after all.
ghost use Rattle.std.specs.Prelude.{◌≡◌, ℕ, ◌≤◌, ◌<◌, IfOk, IfErr, IfSome, IfNone};
ghost use Rattle.zr_rules.specs.Columns.{free_units, uncopied_units};
ghost use Rattle.zr_rules.specs.Placement.{HasRunSomewhere};
ghost use Rattle.zr_metaslab.specs.Devices.{free_of};
ghost use Rattle.zr_space.specs.Plans.{IsCopied, IsLowestOf, Plans};
ghost use Rattle.zr_space.specs.Copying.{TakesHalf};

use crate::copying::Copying;
use crate::each::make_room;
use crate::space::Space;
use zr_base::{Dva, Extent};
use zr_choose::Chooser;
use zr_metaslab::Slabs;

/// How many units are copied at once at most.
const MOST: u64 = 256;

/// Units of the device that is leaving, and the units of another that are to have them.
#[derive(Clone, Copy, Debug, PartialEq, Eq)]
pub struct Plan {
    pub from: Extent,
    pub to: Dva,
}

// Takes so many units from the allocator, or half as many, or half of that, as soon as there is a place for them. None
// where not even one unit has a place.
fn take_half(slabs: &mut Slabs, most: u64, chooser: &Chooser) -> Option<Dva>
    requires some { 0 < most }
    requires few { most ≤ 256 }
    ensures some { IfSome result (TakesHalf chooser.now.policy most slabs.old slabs.new) }
    ensures none { IfNone result (¬ HasRunSomewhere (free_of slabs.old) 1) }
{
    let mut want = most;
    while want > 0 {
        if let Ok(at) = slabs.alloc(want, chooser) {
            return Some(at);
        }
        want /= 2;
    }
    None
}

impl Space {
    /// The lowest extent that is to be copied yet. None exactly where nothing is left to copy. It goes over the devices.
    pub fn next_copy(&self) -> Option<Extent>
        ensures some { IfSome result (λ front. (d : ℕ) × IsLowestOf self.now d front) }
        ensures none { IfNone result (IsCopied self.now) }
    {
        let dev = self.leaving()?;
        let device = &self.devs[dev as usize];
        device.units.held().first_from(device.moves.opened())
    }

    /// Plans the next copy: of the lowest extent that is to be copied yet, at most 256 units, or as many as its halves
    /// have for which there is a place. It goes over the devices, and asks the allocator once for each half. Where memory
    /// runs out it gives the space back as it was.
    pub fn copy_plan(self, front: Extent, chooser: &Chooser) -> Result<Copying, Space>
        requires lowest { (d : ℕ) × IsLowestOf self d front }
        requires room { uncopied_units self ≤ free_units self }
        ensures plan { IfOk result (λ c. Plans chooser.now.policy self c.dev c.plan) }
        ensures before { IfOk result (λ c. c.before ≡ self) }
        ensures err { IfErr result (λ space. space ≡ self) }
    {
        self.lawful();
        let Some(dev) = self.leaving() else {
            unreachable!()
        };
        let Space {
            alloc,
            whole,
            mut slabs,
            mut devs,
        } = self;
        if let Err(_) = make_room(&mut devs, 1) {
            return Err(Space {
                alloc,
                whole,
                slabs,
                devs,
            });
        }
        let Some(to) = take_half(&mut slabs, MOST.min(front.len), chooser) else {
            unreachable!()
        };
        let from = Extent {
            start: front.start,
            len: u64::from(to.len),
        };
        Ok(Copying {
            alloc,
            whole,
            slabs,
            devs,
            dev,
            plan: Plan { from, to },
        })
    }
}
