//! What is done to each device of a space.
//!
//! Where a removal goes on or ends, each device may have a part in it: room is made on all of them before anything is
//! changed, and the copies that lie on any of them are given up, or become blocks like others.
ghost use Rattle.std.specs.Prelude.{◌≡◌, ℕ, ◌≤◌, ◌<◌, false, length, OnOk};
ghost use Rattle.zr_base.specs.Extents.{unit_count};
ghost use Rattle.zr_metaslab.specs.Devices.{free_at, count_at, units_at};
ghost use Rattle.zr_rules.specs.Places.{is_on};
ghost use Rattle.zr_units.specs.Uses.{IsAccount};
ghost use Rattle.zr_space.specs.Views.{kept_of, AreTurned};
ghost use Rattle.zr_space.specs.Leavings.{GivesUpAll, without_copies};

use crate::device::Device;
use zr_base::NoMemory;
use zr_metaslab::Slabs;

/// Makes room on each device for so many changes of its units, and of what it has beside them where it is not in service. Where the room is there it costs nothing but a look at each device.
pub fn make_room(devs: &mut Vec<Device>, changes: usize) -> Result<(), NoMemory>
    ensures same { AreTurned (λ k. k) devs.old.items devs.new.items }
    ensures changes { OnOk result ((d : ℕ) → d < length devs.old.items → changes ≤ (kept_of devs.new.items d).uses.spare) }
    ensures moves { OnOk result ((d : ℕ) → d < length devs.old.items → is_on (kept_of devs.new.items d).moves.state ≡ false → changes ≤ (kept_of devs.new.items d).moves.spare) }
{
    for dev in 0..devs.len() {
        let device = &mut devs[dev];
        device.make_room(changes)?;
    }
    Ok(())
}

/// Makes room on each device for giving up its copies.
pub fn make_way(devs: &mut Vec<Device>) -> Result<(), NoMemory>
    ensures same { AreTurned (λ k. k) devs.old.items devs.new.items }
    ensures copies { OnOk result ((d : ℕ) → d < length devs.old.items → unit_count (kept_of devs.new.items d).uses.copies ≤ (kept_of devs.new.items d).uses.spare) }
{
    for dev in 0..devs.len() {
        let device = &mut devs[dev];
        device.make_way()?;
    }
    Ok(())
}

/// The copies on each device are blocks like others from now on. It takes no memory.
pub fn take_over(devs: &mut Vec<Device>)
    ensures { AreTurned without_copies devs.old.items devs.new.items }
{
    for dev in 0..devs.len() {
        let device = &mut devs[dev];
        device.units.take_over();
    }
}

/// Gives up the copies on each device, for which there is room. It takes no memory.
pub fn give_up(devs: &mut Vec<Device>, slabs: &mut Slabs)
    requires devices { length slabs.old ≡ length devs.old.items }
    requires few { length devs.old.items ≤ 32 }
    requires units { (d : ℕ) → units_at slabs.old d ≡ (kept_of devs.old.items d).uses.units }
    requires accounts { (d : ℕ) → IsAccount (free_at slabs.old d) (count_at slabs.old d) (kept_of devs.old.items d).uses }
    requires room { (d : ℕ) → d < length devs.old.items → unit_count (kept_of devs.old.items d).uses.copies ≤ (kept_of devs.old.items d).uses.spare }
    ensures { GivesUpAll slabs.old slabs.new devs.old.items devs.new.items }
{
    for dev in 0..devs.len() {
        let device = &mut devs[dev];
        device.units.give_up_copies(slabs, dev as u32);
    }
}
