//! The open pool of a root that was read.
ghost use Rattle.std.specs.Prelude.{◌≡◌, ℕ, ◌≤◌, ◌^◌, ◌+◌, List, length, take, All, IsTrue, IfOk, IfSome, IsErrOf};
ghost use Rattle.std.specs.List.{AllByRecursion};
ghost use Rattle.zr_base.specs.declared.refusal.Refusal.{Refusal};
ghost use Rattle.zr_bptr.specs.Spelling.{IsTree};
ghost use Rattle.zr_image.specs.Roots.{head_tree, rows_of};
ghost use Rattle.zr_label.specs.Blocks.{IsUber};
ghost use Rattle.zr_meta.specs.Heads.{IsHead, IsSaved, IsStream, cond_count, stream_count};
ghost use Rattle.zr_roots.specs.Devices.{HasItsDisks};
ghost use Rattle.zr_space.specs.Opens.{IsOpened};
ghost use Rattle.zr_sync.specs.Heads.{cond_at, cond_streams, told_in};
ghost use Rattle.zr_sync.specs.Pools.{AreCondStreams, AreStreams, IsCheckpoint, IsOpen, saved_block};
ghost use Rattle.zr_sync.specs.declared.fault.Fault.TheVariants.{No, Stops};
ghost use Rattle.zr_sync.specs.declared.stop.Stop.TheVariants.{DiskFault};
ghost use Rattle.zr_open.specs.Opened.{CoversOwed, IsAsTold, IsFresh, IsSpaceOf, MayRefuse};
ghost use Rattle.zr_open.specs.Roots.{HasParts};
ghost use Rattle.zr_open.specs.Streams.{HasNoLate, HasStreams, untold_cond, untold_in};

use crate::room::{has_groups, has_room};
use std::alloc::{AllocError, Global};
use zr_base::{CondPart, DevRow, DevState, Dva, NoMemory, Refusal};
use zr_bptr::{Ptr, Tree};
use zr_cache::Cache;
use zr_import::Root;
use zr_label::Uber;
use zr_meta::{CondAt, Head, Stream};
use zr_roots::have_rows;
use zr_slots::Found;
use zr_space::Space;
use zr_sync::{
    Checkpoint, CondStreams, DeviceStreams, Fault, NO_COND, NO_STREAMS, NONE_TURNED, OpenPool,
    Table,
};
use zr_txg::Group;

// How many blocks are cached.
const CACHED: usize = 256;

// Where a condensing is, as a head tells it.
fn cond_at(cond: &Option<CondPart>) -> Option<CondAt>
    ensures { result ≡ cond_at cond.now }
{
    match cond {
        None => None,
        Some(part) => Some(CondAt {
            dev: part.dev,
            at: part.at,
        }),
    }
}

// Whether what a root records stands as its head tells it.
fn is_as_told(root: &Root) -> bool
    ensures { IsTrue result → IsAsTold root.now }
{
    root.parts.ckpt == root.head.ckpt && cond_at(&root.parts.cond) == root.head.cond
}

// The space of a root, beside the metadata of the one that it saved.
fn space_of(alloc: Global, u: &Uber, root: &Root, saved: &[Dva]) -> Result<Space, Fault>
    requires { IsUber u.now }
    ensures space { IfOk result (IsSpaceOf u.now) }
    ensures opened { IfOk result (IsOpened root.now.parts root.now.meta saved.now) }
    ensures ckpt { IfOk result (λ s. s.parts.ckpt ≡ root.now.head.ckpt) }
    ensures cond { IfOk result (λ s. cond_at s.parts.cond ≡ root.now.head.cond) }
    ensures refused { (r : Refusal) → IsErrOf result (No r) → MayRefuse saved.now r }
    ensures fault { IsErrOf result (Stops DiskFault) → ⊥ }
{
    if root.parts.version != u.version || !have_rows(&root.parts, u) {
        return Err(Fault::No(Refusal::BadRoot { rule: 1 }));
    }
    if !is_as_told(root) {
        return Err(Fault::No(Refusal::BadRoot { rule: 1 }));
    }
    let Some(space) = Space::from_parts(alloc, &root.parts, root.meta.as_slice(), saved)? else {
        let rule = if saved.is_empty() { 7 } else { 8 };
        return Err(Fault::No(Refusal::BadRoot { rule }));
    };
    space.lawful();
    Ok(space)
}

// How many streams a head of this form has of a device of this state.
fn stream_count(form: u64, state: DevState) -> usize
    ensures { result ≡ stream_count form state }
{
    match state {
        DevState::On => { if form == 1 { 2 } else { 4 } }
        DevState::Leaving => { if form == 1 { 5 } else { 7 } }
        DevState::Gone => 3,
    }
}

// The streams of a device of this state, in their order, as the first form has them: without those of its late sets.
fn first_streams(state: DevState, own: &[Stream]) -> DeviceStreams
    requires lawful { AllByRecursion IsStream own.now }
    requires count { length own.now ≡ stream_count 1 state }
    ensures lawful { AreStreams result }
    ensures are { told_in 1 state result ≡ own.now }
    ensures late { HasNoLate result }
    ensures untold { untold_in state result ≡ 0 }
{
    match state {
        DevState::On => DeviceStreams {
            held: own[0],
            kept: own[1],
            ..NO_STREAMS
        },
        DevState::Leaving => DeviceStreams {
            held: own[0],
            kept: own[1],
            entries: own[2],
            counts: own[3],
            fresh: own[4],
            ..NO_STREAMS
        },
        DevState::Gone => DeviceStreams {
            entries: own[0],
            counts: own[1],
            fresh: own[2],
            ..NO_STREAMS
        },
    }
}

// The streams of a device of this state, as a head of this form has them. Those of its late sets come last; they are not there
// in the first form, nor where the device is gone.
fn device_streams(form: u64, state: DevState, own: &[Stream]) -> DeviceStreams
    requires lawful { AllByRecursion IsStream own.now }
    requires count { length own.now ≡ stream_count form state }
    ensures lawful { AreStreams result }
    ensures are { told_in form state result ≡ own.now }
    ensures late { form ≡ 1 → HasNoLate result }
    ensures untold { untold_in state result ≡ 0 }
{
    let (first, late) = own.split_at(stream_count(1, state));
    let streams = first_streams(state, first);
    if form == 1 || state == DevState::Gone {
        return streams;
    }
    DeviceStreams {
        late1: late[0],
        late2: late[1],
        ..streams
    }
}

/// The streams of a root: those of its devices, and those of what is condensed.
#[derive(Drop)]
pub(crate) struct Streams {
    pub devices: Vec<DeviceStreams>,
    pub cond: CondStreams,
}

// The streams of what is condensed, if anything is.
fn cond_streams(cond: &Option<CondAt>, rest: &[Stream]) -> CondStreams
    requires lawful { AllByRecursion IsStream rest.now }
    requires count { length rest.now ≡ cond_count cond.now }
    ensures lawful { AreCondStreams result }
    ensures are { cond_streams cond.now result ≡ rest.now }
    ensures untold { untold_cond cond.now result ≡ 0 }
{
    match cond {
        None => NO_COND,
        Some(_) => CondStreams {
            entries: rest[0],
            counts: rest[1],
            done: false,
        },
    }
}

/// The streams of a head of devices with these rows: those of each, and then those of what is condensed.
pub(crate) fn streams_of(alloc: Global, rows: &[DevRow], head: &Head) -> Result<Streams, AllocError>
    requires head { IsHead rows.now head.now }
    ensures count { IfOk result (λ all. length all.devices.items ≡ length rows.now) }
    ensures lawful { IfOk result (λ all. All AreStreams all.devices.items) }
    ensures cond { IfOk result (λ all. AreCondStreams all.cond) }
    ensures has { IfOk result (λ all. HasStreams rows.now head.now all.devices.items all.cond) }
{
    let mut rest = head.streams.as_slice();
    let mut devices = Vec::new(alloc);
    for row in rows {
        let (own, others) = rest.split_at(stream_count(head.form, row.state));
        devices.push(device_streams(head.form, row.state, own))?;
        rest = others;
    }
    Ok(Streams {
        devices,
        cond: cond_streams(&head.cond, rest),
    })
}

/// The tree of the head of a root.
pub(crate) fn head_tree(u: &Uber) -> Tree
    requires { IsUber u.now }
    ensures tree { result ≡ head_tree u.now }
    ensures lawful { IsTree result }
{
    let height = match u.root {
        Ptr::Hole => 0,
        Ptr::At(block) => u32::from(block.level),
    };
    Tree {
        root: u.root,
        height,
    }
}

// The pool of a root with this head and space, in the group behind it.
fn pool_of(
    alloc: Global,
    found: &Found,
    head: &Head,
    space: Space,
    checkpoint: Option<Checkpoint>,
) -> Result<OpenPool, NoMemory>
    requires root { IsUber found.now.root }
    requires long { length found.now.slots ≡ 32 }
    requires head { IsHead (rows_of found.now.root) head.now }
    requires space { IsSpaceOf found.now.root space }
    requires cond { cond_at space.parts.cond ≡ head.now.cond }
    requires saved { IsSaved space.parts.ckpt (saved_block checkpoint) }
    requires checkpoint { IfSome checkpoint IsCheckpoint }
    requires groups { found.now.root.txg ≤ 2 ^ 63 }
    ensures open { (sizes : List ℕ) → HasItsDisks sizes found.now.slots found.now.root → IfOk result (IsOpen sizes) }
    ensures fresh { IfOk result (IsFresh found.now.root) }
    ensures same { IfOk result (λ pool. pool.space ≡ space) }
    ensures slots { IfOk result (λ pool. pool.table.slots ≡ found.now.slots) }
    ensures dir { IfOk result (λ pool. pool.dir ≡ head.now.dir) }
    ensures streams { IfOk result (λ pool. HasStreams (take pool.table.count pool.table.rows) head.now pool.streams.items pool.cond) }
    ensures saved { IfOk result (λ pool. pool.saved ≡ checkpoint) }
{
    let u = &found.root;
    let streams = streams_of(alloc, &u.rows[..u.count as usize], head)?;
    Ok(OpenPool {
        name: u.name,
        guid: u.guid,
        version: u.version,
        last: Some(*u),
        table: Table {
            count: u.count,
            rows: u.rows,
            slots: found.slots,
        },
        space,
        cache: Cache::new(alloc, CACHED)?,
        dir: head.dir,
        head: head_tree(u),
        streams: streams.devices,
        cond: streams.cond,
        turned: NONE_TURNED,
        saved: checkpoint,
        group: Group::new(alloc, u.txg + 1),
    })
}

/// The pool of a root that was read, in the group behind it, with the metadata of the root that it saved, and where that
/// lies. Rule 7 is broken
/// where no space can have what the root records, rule 8 where it cannot have the saved metadata besides, and rule 9 where
/// less is free than is owed, or too few groups are left.
pub(crate) fn open(
    alloc: Global,
    found: &Found,
    root: &Root,
    saved: &[Dva],
    checkpoint: Option<Checkpoint>,
) -> Result<OpenPool, Fault>
    requires uber { IsUber found.now.root }
    requires long { length found.now.slots ≡ 32 }
    requires head { IsHead (rows_of found.now.root) root.now.head }
    requires saved { root.now.parts.ckpt ≡ root.now.head.ckpt → IsSaved root.now.head.ckpt (saved_block checkpoint) }
    requires checkpoint { IfSome checkpoint IsCheckpoint }
    ensures open { (sizes : List ℕ) → HasItsDisks sizes found.now.slots found.now.root → IfOk result (IsOpen sizes) }
    ensures fresh { IfOk result (IsFresh found.now.root) }
    ensures parts { IfOk result (HasParts root.now saved.now) }
    ensures slots { IfOk result (λ pool. pool.table.slots ≡ found.now.slots) }
    ensures kept { IfOk result (λ pool. pool.saved ≡ checkpoint) }
    ensures room { IfOk result (λ pool. CoversOwed pool.space) }
    ensures groups { IfOk result (λ pool. pool.group.txg ≤ 2 ^ 63 + 1) }
    ensures refused { (r : Refusal) → IsErrOf result (No r) → MayRefuse saved.now r }
    ensures fault { IsErrOf result (Stops DiskFault) → ⊥ }
{
    let space = space_of(alloc, &found.root, root, saved)?;
    has_room(&space)?;
    has_groups(&found.root)?;
    Ok(pool_of(alloc, found, &root.head, space, checkpoint)?)
}
