//! Why a command is not done.
//!
//! A refusal is an answer: nothing has changed, and its cause holds. Each has a number that scripts can rely on, and
//! carries what the reply prints of it. docs/SCRIPT.md says what to do about each.
ghost use Rattle.std.specs.Prelude.{◌≡◌};

use crate::Dva;

/// Why a command is not done, with what the reply prints of it.
#[derive(Clone, Copy, PartialEq, Eq, Debug)]
pub enum Refusal {
    NoPoolOpen,
    PoolIsOpen,
    NoSuchObject,
    ObjectExists,
    OutOfRange,
    /// In units: no device in service has `needed` free units in a row within one metaslab.
    NoRun {
        needed: u64,
        longest: u64,
    },
    /// In units.
    NoRoom {
        needed: u64,
        free: u64,
    },
    NoSuchDevice,
    NotInService,
    OnlyDevice,
    RemovalInProgress,
    NoRemoval,
    CheckpointExists,
    DiscardingCheckpoint,
    NoCheckpoint,
    TooMany {
        limit: u64,
    },
    DeviceInUse {
        slot: u32,
    },
    /// In bytes.
    DeviceSize {
        size: u64,
    },
    NothingToDo,
    /// What was read at the address does not have the sum of its pointer.
    Damaged {
        at: Dva,
        expected: [u8; 32],
        found: [u8; 32],
    },
    MissingDevice {
        index: u32,
        added: u64,
    },
    NoPoolOnDevices,
    TwoPools {
        first: u32,
        second: u32,
    },
    BadRoot {
        rule: u8,
    },
    GroupNotKept {
        oldest: u64,
    },
    UnknownVersion {
        found: u64,
    },
}

impl Refusal {
    ghost use Rattle.zr_base.specs.Refusals.{number_of};

    /// The number that the reply prints, from 1.
    pub fn number(&self) -> u8
        ensures { result ≡ number_of self.now }
    {
        match self {
            Refusal::NoPoolOpen => 1,
            Refusal::PoolIsOpen => 2,
            Refusal::NoSuchObject => 3,
            Refusal::ObjectExists => 4,
            Refusal::OutOfRange => 5,
            Refusal::NoRun { .. } => 6,
            Refusal::NoRoom { .. } => 7,
            Refusal::NoSuchDevice => 8,
            Refusal::NotInService => 9,
            Refusal::OnlyDevice => 10,
            Refusal::RemovalInProgress => 11,
            Refusal::NoRemoval => 12,
            Refusal::CheckpointExists => 13,
            Refusal::DiscardingCheckpoint => 14,
            Refusal::NoCheckpoint => 15,
            Refusal::TooMany { .. } => 16,
            Refusal::DeviceInUse { .. } => 17,
            Refusal::DeviceSize { .. } => 18,
            Refusal::NothingToDo => 19,
            Refusal::Damaged { .. } => 20,
            Refusal::MissingDevice { .. } => 21,
            Refusal::NoPoolOnDevices => 22,
            Refusal::TwoPools { .. } => 23,
            Refusal::BadRoot { .. } => 24,
            Refusal::GroupNotKept { .. } => 25,
            Refusal::UnknownVersion { .. } => 26,
        }
    }
}
