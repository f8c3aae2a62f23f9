//! Where the units of an address are.
//!
//! A space knows the rows and the mappings of its devices, so the walk over removed devices (zr_chain) goes over it. An entry
//! of a mapping never leads past the end of a device, so only the address itself is to be tested.
ghost use Rattle.std.specs.Prelude.{◌≡◌, ◌<◌, true, OnOk, OnErr, IfErr, IfSome, IfNone};
ghost use Rattle.zr_chain.specs.Visits.{Visits, Begins, whole};
ghost use Rattle.zr_chain.specs.declared.visit.ChainErr.TheVariants.{NoEntry};
ghost use Rattle.zr_rules.specs.Equation.{devices_in};
ghost use Rattle.zr_rules.specs.Places.{is_gone};
ghost use Rattle.zr_rules.specs.Resolve.{is_resolved};
ghost use Rattle.zr_space.specs.Paths.{LeadsNowhere, StandsWithin};

use crate::space::Space;
use zr_base::{DevRow, DevState, Dva};
use zr_chain::{ChainErr, Maps, Visit, remap_in};
use zr_imap::Imap;

impl Maps for Space {
    ghost devices = { devices_in };

    fn row(&self, dev: u32) -> DevRow {
        self.devs[dev as usize].row
    }

    fn map(&self, dev: u32) -> &Imap {
        let device = &self.devs[dev as usize];
        match device.moves.map() {
            Some(map) => map,
            None => unreachable!(),
        }
    }
}

// Whether a device with this row is gone.
fn is_gone(row: DevRow) -> bool
    ensures { result ≡ is_gone row.state }
{
    match row.state {
        DevState::Gone => true,
        DevState::On | DevState::Leaving => false,
    }
}

impl Space {
    /// Visits the parts of an address in the order of its units, each part of a removed device before the parts that it
    /// leads to. An address that goes past its device, or names none, has none. For each part of a removed device it takes a
    /// search by halves of its mapping, and a step for each part that it leads to. After an error a front of them was
    /// visited.
    pub fn remap<V: Visit>(&self, d: Dva, v: &mut V) -> Result<(), ChainErr>
        ensures visits { OnOk result (Visits (devices_in self.now) d (V.visited v.old) (V.visited v.new)) }
        ensures resolved { OnOk result (is_resolved (devices_in self.now) d ≡ true) }
        ensures nowhere { IfErr result (LeadsNowhere (devices_in self.now) d) }
        ensures front { OnErr result (Begins (devices_in self.now) (whole d) (V.visited v.old) (V.visited v.new)) }
    {
        if d.len == 0 {
            return Ok(());
        }
        self.lawful();
        match self.past_end(d) {
            Some(unit) => Err(ChainErr::NoEntry { dev: d.dev, unit }),
            None => remap_in(self.alloc, self, d, v),
        }
    }

    // The first unit of an address that is on no device, or past the end of one that is not gone.
    fn past_end(&self, d: Dva) -> Option<u64>
        requires { 0 < d.len }
        ensures past { IfSome result (λ unit. LeadsNowhere (devices_in self.now) d (NoEntry d.dev unit)) }
        ensures within { IfNone result (StandsWithin (devices_in self.now) d) }
    {
        if d.dev >= self.devices() {
            return Some(d.start);
        }
        let row = self.row(d.dev);
        if is_gone(row) {
            return None;
        }
        let units = row.units;
        if d.start >= units {
            return Some(d.start);
        }
        if u64::from(d.len) > units - d.start {
            return Some(units);
        }
        None
    }
}
