//! The devices of a pool as a pointer sees them.
//!
//! Devices are ranked where each mapping leads to devices that are there or went later. One that is leaving counts as
//! going after all that are gone.
ghost use Rattle.std.specs.Prelude.{◌≡◌, ◌<◌, ◌⊎◌, ◌↔◌, List, length, map, All, IfOk, OnOk, OnErr, IfErr, IsTrue, true, false};
ghost use Rattle.zr_base.specs.declared.space.DevPart.{DevPart};
ghost use Rattle.zr_rules.specs.Places.{is_gone};
ghost use Rattle.zr_rules.specs.Mappings.{IsRising, IsEntry};
ghost use Rattle.zr_rules.specs.Devices.{devices_of};
ghost use Rattle.zr_rules.specs.Resolve.{IsRanked, IsDestination};
ghost use Rattle.zr_chain.specs.Chains.{devices_in, recorded};
ghost use Rattle.zr_chain.specs.Visits.{Begins, Visits, HasGap, whole};

use crate::maps::Maps;
use crate::remap::remap_in;
use crate::visit::{ChainErr, Visit};
use std::alloc::Global;
use std::marker::Model;
use zr_base::{DevPart, DevRow, DevState, Dva, Entry, NoMemory};
use zr_imap::Imap;

/// A device's row and its mapping.
#[derive(Drop)]
pub struct Dev {
    row: DevRow,
    map: Imap,
}

impl Model for Dev {
    ghost use Rattle.zr_chain.specs.Chains.{DevMap};

    ghost Value = { DevMap };

    ghost view = { λ a. record { row = a.row; entries = a.map.entries } };
}

impl Dev {
    fn new(row: DevRow, map: Imap) -> Dev
        ensures { result ≡ record { row = row; entries = map.entries } }
    {
        Dev { row, map }
    }

    pub fn row(&self) -> DevRow
        ensures { result ≡ self.now.row }
    {
        self.row
    }

    pub fn map(&self) -> &Imap
        ensures { result.now.entries ≡ self.now.entries }
    {
        &self.map
    }
}

/// The rows and the mappings of all devices, by their indices.
#[derive(Drop)]
pub struct Devs {
    devs: Vec<Dev>,
}

impl Model for Devs {
    ghost use Rattle.std.specs.Prelude.{List};
    ghost use Rattle.zr_chain.specs.Chains.{DevMap};

    ghost Value = { List DevMap };

    ghost view = { λ a. a.devs.items };
}

impl Devs {
    /// The devices that a root records.
    pub fn new(alloc: Global, parts: &[DevPart]) -> Result<Devs, NoMemory>
        requires { All (λ (p : DevPart). IsRising p.entries) parts.now }
        ensures parts { IfOk result (λ devs. devs ≡ map recorded parts.now) }
        ensures devices { IfOk result (λ devs. devices_in devs ≡ devices_of parts.now) }
    {
        let devs = devs_of(alloc, parts)?;
        Ok(Devs { devs })
    }

    /// How many devices there are, gone or not.
    pub fn len(&self) -> usize
        ensures { result ≡ length self.now }
    {
        self.devs.len()
    }

    /// Whether there is no device.
    pub fn is_empty(&self) -> bool
        ensures { IsTrue result ↔ (length self.now ≡ 0) }
    {
        self.devs.is_empty()
    }

    /// Whether each entry leads to known units of another device that is there or went later. It takes a look at each
    /// entry.
    pub fn ranked(&self) -> bool
        ensures { IsTrue result ↔ IsRanked (devices_in self.now) }
    {
        are_ranked(self.devs.as_slice())
    }

    /// Visits the parts of an address in the order of its units, each part of a removed device before the parts that it
    /// leads to. For each part of a removed device it takes a search by halves of its mapping, and a step for each part
    /// that it leads to. After an error a front of them was visited.
    pub fn remap<V: Visit>(&self, alloc: Global, d: Dva, v: &mut V) -> Result<(), ChainErr>
        requires ranked { IsRanked (devices_in self.now) }
        requires known { d.dev < length self.now }
        ensures visits { OnOk result (Visits (devices_in self.now) d (V.visited v.old) (V.visited v.new)) }
        ensures gap { IfErr result (HasGap (devices_in self.now) d) }
        ensures front { OnErr result (Begins (devices_in self.now) (whole d) (V.visited v.old) (V.visited v.new)) }
    {
        remap_in(alloc, self, d, v)
    }
}

impl Maps for Devs {
    ghost devices = { devices_in };

    fn row(&self, dev: u32) -> DevRow {
        self.devs[dev as usize].row()
    }

    fn map(&self, dev: u32) -> &Imap {
        self.devs[dev as usize].map()
    }
}

fn devs_of(alloc: Global, parts: &[DevPart]) -> Result<Vec<Dev>, NoMemory>
    requires { All (λ (p : DevPart). IsRising p.entries) parts.now }
    ensures { IfOk result (λ devs. devs.items ≡ map recorded parts.now) }
{
    let mut devs = Vec::with_capacity(alloc, parts.len())?;
    for part in parts {
        let map = Imap::from_entries(alloc, part.entries.as_slice())?;
        devs.push(Dev::new(part.row, map))?;
    }
    Ok(devs)
}

pub fn is_gone(row: DevRow) -> bool
    ensures { result ≡ is_gone row.state }
{
    match row.state {
        DevState::Gone => true,
        DevState::On | DevState::Leaving => false,
    }
}

fn are_ranked(devs: &[Dev]) -> bool
    ensures { IsTrue result ↔ IsRanked (devices_in devs.now) }
{
    for d in 0..devs.len() {
        if !is_dev_ranked(devs, d) {
            return false;
        }
    }
    true
}

fn is_dev_ranked(devs: &[Dev], d: usize) -> bool
    requires { d < length devs.now }
    ensures { IsTrue result ↔ All (IsDestination (devices_in devs.now) d) ((devices_in devs.now).entries d) }
{
    let map = devs[d].map();
    for i in 0..map.len() {
        if !is_destination(devs, d, map.entry(i)) {
            return false;
        }
    }
    true
}

fn is_destination(devs: &[Dev], d: usize, e: Entry) -> bool
    requires known { d < length devs.now }
    requires lawful { IsEntry e }
    ensures { IsTrue result ↔ IsDestination (devices_in devs.now) d e }
{
    let to = e.dev as usize;
    if to >= devs.len() {
        return false;
    }
    if to == d {
        return false;
    }
    let row = devs[to].row();
    if e.dst + e.len as u64 > row.units {
        return false;
    }
    may_lead_to(devs[d].row(), row)
}

/// Whether the second device is there, or went after the first.
fn may_lead_to(from: DevRow, to: DevRow) -> bool
    ensures { IsTrue result ↔ ((is_gone to.state ≡ false) ⊎ ((is_gone from.state ≡ true) × (from.gone < to.gone))) }
{
    !is_gone(to) || is_gone(from) && from.gone < to.gone
}
