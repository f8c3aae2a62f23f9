//! What is kept of a device.
ghost use Rattle.std.specs.Prelude.{◌≡◌, ◌≤◌, ◌<◌, false, OnOk};
ghost use Rattle.zr_base.specs.Extents.{unit_count};
ghost use Rattle.zr_rules.specs.Places.{is_on, is_leaving, is_gone};
ghost use Rattle.zr_space.specs.Leavings.{back_in_service, gone_device};
ghost use Rattle.zr_space.specs.Views.{IsSameKept};

use std::alloc::Global;
use std::marker::Model;
use zr_base::{DevRow, DevState, NoMemory};
use zr_indirect::Mapping;
use zr_units::Units;

/// A device's row, its units by use, and what it has beside them while it is given up.
#[derive(Drop)]
pub struct Device {
    pub row: DevRow,
    pub units: Units,
    pub moves: Mapping,
}

impl Model for Device {
    ghost use Rattle.zr_space.specs.Views.{Kept};

    ghost Value = { Kept };

    ghost view = { λ a. record { row = a.row; uses = a.units; moves = a.moves } };
}

impl Device {
    /// A device of these.
    pub fn new(row: DevRow, units: Units, moves: Mapping) -> Device
        ensures { result ≡ record { row = row; uses = units; moves = moves } }
    {
        Device { row, units, moves }
    }

    /// Whether it is in service.
    pub fn is_on(&self) -> bool
        ensures { result ≡ is_on self.now.row.state }
    {
        match self.row.state {
            DevState::On => true,
            DevState::Leaving | DevState::Gone => false,
        }
    }

    /// Whether it is leaving.
    pub fn is_leaving(&self) -> bool
        ensures { result ≡ is_leaving self.now.row.state }
    {
        match self.row.state {
            DevState::Leaving => true,
            DevState::On | DevState::Gone => false,
        }
    }

    /// Whether it is gone.
    pub fn is_gone(&self) -> bool
        ensures { result ≡ is_gone self.now.row.state }
    {
        match self.row.state {
            DevState::Gone => true,
            DevState::On | DevState::Leaving => false,
        }
    }

    /// Is leaving from now on, and has this beside its units.
    pub fn leave(&mut self, moves: Mapping)
        ensures { self.new ≡ record self.old { row = record self.old.row { state = DevState.Leaving }; moves = moves } }
    {
        self.row.state = DevState::Leaving;
        self.moves = moves;
    }

    /// Makes room for so many changes of its units, and of what it has beside them where it is not in service.
    pub fn make_room(&mut self, changes: usize) -> Result<(), NoMemory>
        ensures same { IsSameKept self.old self.new }
        ensures changes { OnOk result (changes ≤ self.new.uses.spare) }
        ensures moves { is_on self.old.moves.state ≡ false → OnOk result (changes ≤ self.new.moves.spare) }
    {
        self.units.reserve(changes)?;
        self.moves.reserve(changes)
    }

    /// Makes room for giving up its copies.
    pub fn make_way(&mut self) -> Result<(), NoMemory>
        ensures same { IsSameKept self.old self.new }
        ensures copies { OnOk result (unit_count self.new.uses.copies ≤ self.new.uses.spare) }
    {
        let copies = self.units.copies().units() as usize;
        self.units.reserve(copies)
    }

    /// Is gone from now on, in this transaction group. Nothing but what it has beside its units is left of it.
    pub fn vanish(&mut self, alloc: Global, txg: u64)
        ensures { self.new ≡ gone_device self.old.row txg self.new.uses.spare self.old.moves }
    {
        self.row.state = DevState::Gone;
        self.row.gone = txg;
        self.units = Units::new(alloc, 0);
    }

    /// Is in service again, with no mapping.
    pub fn come_back(&mut self)
        ensures { self.new ≡ back_in_service self.old }
    {
        self.row.state = DevState::On;
        self.moves = Mapping::in_service();
    }
}
