//! Units, devices and what a root records of them.
//!
//! Every set of units is kept and recorded as its maximal extents in rising order, so a set has one spelling. A device
//! has an index that is never used again: pointers to a device that was removed go through its mapping for ever.
use crate::Items;

/// The units from `start` on, `len` of them.
#[derive(Clone, Copy, PartialEq, Eq, Debug)]
pub struct Extent {
    pub start: u64,
    pub len: u64,
}

/// A data virtual address: `len` units of the device from `start` on.
#[derive(Clone, Copy, PartialEq, Eq, Debug)]
pub struct Dva {
    pub dev: u32,
    pub start: u64,
    pub len: u32,
}

/// An entry of an indirect mapping: `len` units from `src` on stand on `dev` from `dst` on.
#[derive(Clone, Copy, PartialEq, Eq, Debug)]
pub struct Entry {
    pub src: u64,
    pub dev: u32,
    pub dst: u64,
    pub len: u32,
}

/// In service, being evacuated, or removed. A device that is not gone is called concrete.
#[derive(Clone, Copy, PartialEq, Eq, Debug)]
pub enum DevState {
    On,
    Leaving,
    Gone,
}

/// A device's row in a root: its state, the transaction group that added it, its units, and the group that removed it
/// or 0.
#[derive(Clone, Copy, PartialEq, Eq, Debug)]
pub struct DevRow {
    pub state: DevState,
    pub added: u64,
    pub units: u64,
    pub gone: u64,
}

/// Units of a late set: of metadata where `meta` holds, or else of blocks.
#[derive(Clone, Copy, PartialEq, Eq, Debug)]
pub struct LateRun {
    pub at: Extent,
    pub meta: bool,
}

/// What a root records of a device. `held` are its allocated units and `kept` those of them that only the checkpoint
/// has. Of a device that is leaving or gone, `entries` is its mapping, `counts` how many units of each entry are
/// obsolete, and `fresh` the obsolete units that are not counted yet. `late1` is what the root's own group freed and
/// `late2` what the group before freed.
#[derive(Drop)]
pub struct DevPart {
    pub row: DevRow,
    pub held: Items<Extent>,
    pub kept: Items<Extent>,
    pub entries: Items<Entry>,
    pub counts: Items<u32>,
    pub fresh: Items<Extent>,
    pub late1: Items<LateRun>,
    pub late2: Items<LateRun>,
}

/// How far the condensing of a mapping has come: the entries worked through, and of these the entries that stay, each
/// with its count.
#[derive(Drop)]
pub struct CondPart {
    pub dev: u32,
    pub at: u64,
    pub entries: Items<Entry>,
    pub counts: Items<u32>,
}

/// Whether a checkpoint is held, and of which transaction group, or is being discarded.
#[derive(Clone, Copy, PartialEq, Eq, Debug)]
pub enum CkptPart {
    Clear,
    Held(u64),
    Discarding,
}

/// What a root records of its space. The version is 1 or 2 and says how its space maps are spelled.
#[derive(Drop)]
pub struct SpaceParts {
    pub version: u64,
    pub devs: Items<DevPart>,
    pub cond: Option<CondPart>,
    pub ckpt: CkptPart,
}

/// The units of a device by what they are used for.
#[derive(Clone, Copy, PartialEq, Eq, Debug)]
pub struct Columns {
    pub allocated: u64,
    pub checkpointed: u64,
    pub deferred: u64,
    pub free: u64,
}

/// The counts from which the room that is owed is computed: changed blocks and objects of the open group, words of
/// the streams written anew, streams, removed devices, units left to copy, metadata units that come back, and the
/// largest metadata so far. `snaps` is false.
#[derive(Clone, Copy, PartialEq, Eq, Debug)]
pub struct Sizes {
    pub blocks: u64,
    pub objects: u64,
    pub words: u64,
    pub streams: u64,
    pub gone: u64,
    pub uncopied: u64,
    pub turning: u64,
    pub past: u64,
    pub snaps: bool,
}

/// Which of the fitting runs a chooser picks: any, the lowest, the shortest, or as the shortest where little is free.
/// Then `short` is in units, and `percent` is of a metaslab.
#[derive(Clone, Copy, PartialEq, Eq, Debug)]
pub enum Policy {
    Any,
    First,
    Best,
    Dynamic { short: u64, percent: u64 },
}

/// Units that are taken or given back, as a space map records it.
#[derive(Clone, Copy, PartialEq, Eq, Debug)]
pub struct Change {
    pub free: bool,
    pub at: Extent,
}

/// What a step of condensing came to: the entries that it kept, its end, or no work.
#[derive(Clone, Copy, PartialEq, Eq, Debug)]
pub enum Condensed {
    Kept(u64),
    Done,
    Nothing,
}
