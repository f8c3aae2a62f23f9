//! The device that is tried first.
ghost use Rattle.std.specs.Prelude.{◌≡◌, ℕ, ◌<◌, ◌≤◌, true, false, IfSome, IfNone};
ghost use Rattle.zr_metaslab.specs.Devices.{device_at};
ghost use Rattle.zr_metaslab.specs.Metaslabs.{longest_of};
ghost use Rattle.zr_metaslab.specs.Order.{IsFirstDevice, has_run, HasLongest};

use crate::Device;

/// Of the devices in service that have a run of so many units the one with the most free units, the lowest among
/// equals. It goes over the devices alone.
pub fn first_device(devs: &[Device], want: u64) -> Option<usize>
    requires { 0 < want }
    ensures some { IfSome result (IsFirstDevice devs.now want) }
    ensures none { IfNone result ((d : ℕ) → has_run devs.now want d ≡ false) }
{
    let mut best: Option<usize> = None;
    for d in 0..devs.len() {
        let dev = &devs[d];
        if !dev.is_on() {
            continue;
        }
        if dev.longest() < want {
            continue;
        }
        if let Some(b) = best {
            if dev.free_units() <= devs[b].free_units() {
                continue;
            }
        }
        best = Some(d);
    }
    best
}

/// The longest run of a device in service, or 0.
pub fn longest_on(devs: &[Device]) -> u64
    ensures most { (d : ℕ) → (device_at devs.now d).on ≡ true → longest_of (device_at devs.now d).slabs ≤ result }
    ensures some { 0 < result → HasLongest devs.now result }
{
    let mut longest = 0;
    for d in 0..devs.len() {
        let dev = &devs[d];
        if !dev.is_on() || dev.longest() <= longest {
            continue;
        }
        longest = dev.longest();
    }
    longest
}
