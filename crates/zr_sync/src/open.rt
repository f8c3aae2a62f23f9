//! What an open pool holds beside its disks.
use zr_base::{Blob, DevRow};
use zr_bptr::{Ptr, Tree};
use zr_cache::Cache;
use zr_label::{Name, Uber};
use zr_meta::Stream;
use zr_space::Space;
use zr_txg::Group;

/// The streams of a device. While it is there these are the logs of its held and of its kept units, and its two late
/// sets. Once it is leaving it has the entries of its mapping too, their counts, and the log of its fresh obsolete units:
/// behind its going it has these three alone. A stream that it has not is `EMPTY`.
#[derive(Clone, Copy, PartialEq, Eq, Debug)]
pub struct DeviceStreams {
    pub held: Stream,
    pub kept: Stream,
    pub entries: Stream,
    pub counts: Stream,
    pub fresh: Stream,
    pub late1: Stream,
    pub late2: Stream,
}

/// The devices of a pool by index: how many there are, their rows, and the slot of each.
#[derive(Clone, Copy, PartialEq, Eq, Debug)]
pub struct Table {
    pub count: u32,
    pub rows: [DevRow; 32],
    pub slots: [Option<u32>; 32],
}

/// The streams of a condensing: the entries that it has kept, and their counts. Where none goes on both are `EMPTY`, or it
/// is `done` and the last root still has them: then the next commit gives them back.
#[derive(Clone, Copy, PartialEq, Eq, Debug)]
pub struct CondStreams {
    pub entries: Stream,
    pub counts: Stream,
    pub done: bool,
}

/// Which streams of a mapping the next commit has to write anew, since their words changed otherwise than at their end.
#[derive(Clone, Copy, PartialEq, Eq, Debug)]
pub struct Turned {
    pub entries: bool,
    pub counts: bool,
}

/// The root that a checkpoint holds: its block, as each later head has it, and where its metadata stands, which are the
/// tree of its head, the streams of each device that it had, and those of its condensing.
#[derive(Drop)]
pub struct Checkpoint {
    pub block: Blob,
    pub head: Tree,
    pub streams: Vec<DeviceStreams>,
    pub cond: CondStreams,
}

/// An open pool. `last` is the root that was committed last, none before the first. `dir`, `head`, `streams` and `cond`
/// are its directory, the tree of its head, the streams of each device, and those of a condensing. `saved`
/// is the root that a checkpoint holds, none where no checkpoint is held. `group` is what was changed since, and `turned`
/// tells of each device which streams of its mapping no longer begin with the words that they have.
#[derive(Drop)]
pub struct OpenPool {
    pub name: Name,
    pub guid: u64,
    pub version: u64,
    pub last: Option<Uber>,
    pub table: Table,
    pub space: Space,
    pub cache: Cache,
    pub dir: Tree,
    pub head: Tree,
    pub streams: Vec<DeviceStreams>,
    pub cond: CondStreams,
    pub saved: Option<Checkpoint>,
    pub group: Group,
    pub turned: [Turned; 32],
}

/// A stream without words.
pub const EMPTY: Stream = Stream {
    words: 0,
    tree: Tree {
        root: Ptr::Hole,
        height: 0,
    },
};

/// Streams without words.
pub const NO_STREAMS: DeviceStreams = DeviceStreams {
    held: EMPTY,
    kept: EMPTY,
    entries: EMPTY,
    counts: EMPTY,
    fresh: EMPTY,
    late1: EMPTY,
    late2: EMPTY,
};

/// The streams of no condensing.
pub const NO_COND: CondStreams = CondStreams {
    entries: EMPTY,
    counts: EMPTY,
    done: false,
};

/// Mappings that changed at their end alone.
pub const NONE_TURNED: [Turned; 32] = [Turned {
    entries: false,
    counts: false,
}; 32];
