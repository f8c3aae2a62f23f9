//! What a line of a script asks, and what a word of the command line is for.
//!
//! A command is plain data: two spellings of the same bytes, in either case of their digits, are one command.
use zr_base::{Blob, Items};

/// One line of a script. Places and lengths in an object are in bytes, the `units` of an object's blocks in units of
/// 4,096 bytes, and a device is named by its path. A number may be any below 2^64 here: what it may be for the pool at
/// hand is told by a refusal.
#[derive(Drop)]
pub enum Command {
    Create {
        name: Blob,
        guid: u64,
        devs: Items<Blob>,
    },
    /// `create -1`, which makes a pool of version 1.
    CreateOld {
        name: Blob,
        guid: u64,
        devs: Items<Blob>,
    },
    Import,
    ImportRewind,
    ImportTxg {
        txg: u64,
    },
    Export,
    Make {
        id: u64,
        units: u64,
    },
    Drop {
        id: u64,
    },
    /// 1 to 4,096 bytes.
    Write {
        id: u64,
        off: u64,
        bytes: Blob,
    },
    Fill {
        id: u64,
        off: u64,
        len: u64,
        byte: u8,
    },
    Punch {
        id: u64,
        off: u64,
        len: u64,
    },
    Read {
        id: u64,
        off: u64,
        len: u64,
    },
    Sum {
        id: u64,
    },
    Sync,
    Add {
        dev: Blob,
    },
    Remove {
        dev: Blob,
    },
    /// `remove -n`.
    Estimate {
        dev: Blob,
    },
    /// `remove -s`.
    Cancel,
    Checkpoint,
    /// `checkpoint -d`.
    Discard,
    StepEvac,
    StepDiscard,
    StepCondense,
    List,
    Status,
    Map {
        index: u64,
    },
    Audit,
    Upgrade,
    Quit,
}

/// The first word of a line. It says how the words behind it are read.
pub enum Keyword {
    CreateWord,
    ImportWord,
    ExportWord,
    MakeWord,
    DropWord,
    WriteWord,
    FillWord,
    PunchWord,
    ReadWord,
    SumWord,
    SyncWord,
    AddWord,
    RemoveWord,
    CheckpointWord,
    StepWord,
    ListWord,
    StatusWord,
    MapWord,
    AuditWord,
    UpgradeWord,
    QuitWord,
}

/// One option of the command line, or one device with the bytes of the file that is made where there is none.
#[derive(Drop)]
pub enum Argument {
    Policy { name: Blob },
    Auto { rounds: u64 },
    Generate { number: u64, count: u64 },
    Device { path: Blob, make: Option<u64> },
}
