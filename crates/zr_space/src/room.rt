//! The counts from which the room that is owed is computed, without a walk over units.
//!
//! Each set of a device counts its units as it changes, so a sum over the devices is all that is left to do.
ghost use Rattle.std.specs.Prelude.{◌≡◌, ◌+◌, ◌*◌, ◌<◌, ◌≤◌, ◌^◌, false, length, max, sum_by};
ghost use Rattle.zr_rules.specs.Columns.{free_units, on_units, sizes, device_streams};
ghost use Rattle.zr_rules.specs.Equation.{devices_in};
ghost use Rattle.zr_rules.specs.Steps.{touch};
ghost use Rattle.zr_space.specs.Paths.{AreInService};
ghost use Rattle.zr_space.specs.Totals.{AreFew, HasWords, words_in, total_by, serving_by, serving_units, all_units, units_ever, kept_in, kept_units, current_meta, late1_meta, late2_meta, all_words, all_streams, all_gone, all_left};

use crate::device::Device;
use crate::space::{Space, extent_of};
use zr_base::{DevState, Dva, Sizes};
use zr_chain::pieces_in;

// The metadata units of all devices: of the current root, and of both late sets.
#[derive(Clone, Copy)]
struct MetaUnits {
    current: u64,
    late1: u64,
    late2: u64,
}

// Adds up the metadata of the devices.
fn meta_units(devs: &[Device]) -> MetaUnits
    requires { AreFew devs.now }
    ensures current { result.current ≡ total_by current_meta devs.now }
    ensures late1 { result.late1 ≡ total_by late1_meta devs.now }
    ensures late2 { result.late2 ≡ total_by late2_meta devs.now }
    ensures small { result.current + result.late1 + result.late2 < 2 ^ 46 }
    ensures few { result.current + result.late1 + result.late2 ≤ total_by (λ x. x.units) devs.now }
{
    let mut meta = MetaUnits {
        current: 0,
        late1: 0,
        late2: 0,
    };
    for device in devs {
        meta.current += device.units.meta().units();
        meta.late1 += device.units.late1().meta().units();
        meta.late2 += device.units.late2().meta().units();
    }
    meta
}

// The same of the devices in service.
fn serving_meta(devs: &[Device]) -> MetaUnits
    requires { AreFew devs.now }
    ensures current { result.current ≡ serving_by current_meta devs.now }
    ensures late1 { result.late1 ≡ serving_by late1_meta devs.now }
    ensures late2 { result.late2 ≡ serving_by late2_meta devs.now }
    ensures small { result.current + result.late1 + result.late2 < 2 ^ 46 }
{
    let mut meta = MetaUnits {
        current: 0,
        late1: 0,
        late2: 0,
    };
    for device in devs {
        if !device.is_on() {
            continue;
        }
        meta.current += device.units.meta().units();
        meta.late1 += device.units.late1().meta().units();
        meta.late2 += device.units.late2().meta().units();
    }
    meta
}

// Adds up the words of the devices' sets and mappings.
fn words(devs: &[Device], version: u64) -> u64
    requires { AreFew devs.now }
    ensures words { result ≡ all_words version devs.now }
    ensures few { result ≤ 13 * all_units devs.now }
{
    let mut words = 0;
    for device in devs {
        words += words_of(device, version);
    }
    words
}

// The words of a device's sets and of its mapping.
fn words_of(device: &Device, version: u64) -> u64
    requires { HasWords device.now }
    ensures words { result ≡ words_in version device.now }
    ensures few { result ≤ 13 * device.now.row.units }
{
    device.units.words(version) + device.moves.words(version)
}

// How far the devices have come on their way out, taken together: their streams, how many are gone, and in units what is
// left to copy.
#[derive(Clone, Copy)]
struct ByState {
    streams: u64,
    gone: u64,
    left: u64,
}

// Adds this up for the devices.
fn count_states(devs: &[Device]) -> ByState
    requires { AreFew devs.now }
    ensures streams { result.streams ≡ all_streams devs.now }
    ensures gone { result.gone ≡ all_gone devs.now }
    ensures left { result.left ≡ all_left devs.now }
    ensures few_streams { result.streams ≤ 224 }
    ensures few_gone { result.gone ≤ 32 }
    ensures few_left { result.left ≤ all_units devs.now }
{
    let mut all = ByState {
        streams: 0,
        gone: 0,
        left: 0,
    };
    for device in devs {
        all.streams += streams_of(device.row.state);
        all.gone += u64::from(device.row.state == DevState::Gone);
        all.left += device.moves.left();
    }
    all
}

// How many streams a root has of a device.
fn streams_of(state: DevState) -> u64
    ensures streams { result ≡ device_streams state }
    ensures few { result ≤ 7 }
{
    match state {
        DevState::On => 4,
        DevState::Leaving => 7,
        DevState::Gone => 3,
    }
}

// Adds up the kept units of the devices.
fn kept(devs: &[Device]) -> u64
    requires { AreFew devs.now }
    ensures { result ≡ total_by kept_in devs.now }
{
    let mut kept = 0;
    for device in devs {
        kept += device.units.kept().units();
    }
    kept
}

// Adds up the units of the devices in service.
fn units(devs: &[Device]) -> u64
    requires { AreFew devs.now }
    ensures units { result ≡ serving_units devs.now }
    ensures bound { result ≤ 2 ^ 45 }
{
    let mut units = 0;
    for device in devs {
        if !device.is_on() {
            continue;
        }
        units += device.units.units();
    }
    units
}

impl Space {
    /// The free units of the devices in service. It goes over the devices.
    pub fn free_units(&self) -> u64
        ensures free { result ≡ free_units self.now }
        ensures bound { free_units self.now ≤ on_units self.now }
    {
        let mut free = 0;
        for dev in 0..self.devs.len() {
            let device = &self.devs[dev];
            if !device.is_on() {
                continue;
            }
            free += self.slabs.free_units(dev as u32);
        }
        free
    }

    /// All units of the devices in service. It goes over the devices.
    pub fn on_units(&self) -> u64
        ensures units { result ≡ on_units self.now }
        ensures bound { result ≤ 2 ^ 45 }
    {
        units(self.devs.as_slice())
    }

    /// The units that only the checkpoint has. It goes over the devices.
    pub fn kept_units(&self) -> u64
        ensures { result ≡ kept_units self.now }
    {
        kept(self.devs.as_slice())
    }

    /// How many pieces a free of an address touches, wherever the address leads: each part of a removed device on the way,
    /// each part that is there, and on a device that is leaving one more for each entry that meets it. For each part of a
    /// removed device it takes two searches by halves of its mapping, and a step for each part that it leads to.
    pub fn touch(&self, a: Dva) -> u64
        ensures pieces { result ≡ touch (devices_in self.now) a }
        ensures few { result ≤ 33 * max 1 a.len }
    {
        if a.dev >= self.devices() {
            return 1;
        }
        self.lawful();
        pieces_in(self, self.devs.len(), a.dev, extent_of(&a))
    }

    /// The counts from which the room is computed, with no changed block or object. It goes over the devices alone.
    pub fn sizes(&self) -> Sizes
        ensures sizes { result ≡ sizes self.now 0 0 }
        ensures words { result.words ≤ 13 * units_ever self.now }
        ensures past { result.past ≤ units_ever self.now }
        ensures turning { result.turning ≤ 3 * result.past }
        ensures streams { result.streams ≤ 226 }
        ensures gone { result.gone ≤ 32 }
        ensures uncopied { result.uncopied ≤ units_ever self.now }
        ensures snaps { result.snaps ≡ false }
        ensures service { AreInService (devices_in self.now) → units_ever self.now ≡ on_units self.now }
    {
        let devs = self.devs.as_slice();
        let meta = meta_units(devs);
        let serving = serving_meta(devs);
        let states = count_states(devs);
        Sizes {
            blocks: 0,
            objects: 0,
            words: words(devs, self.whole.version),
            streams: 2 + states.streams,
            gone: states.gone,
            uncopied: states.left,
            turning: serving.current + serving.late1 + serving.late2,
            past: meta.current.max(meta.late1.max(meta.late2)),
            snaps: false,
        }
    }
}
