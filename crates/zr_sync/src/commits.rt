//! A commit: the trees, the metadata, and the root that leads to them.
//!
//! Nothing that the last root leads to is written over, so until the new root is durable a crash finds the last one whole.
//! What the metadata says of the space is said behind the last block that is given back, so the old head and the old late
//! sets go before the new ones are written.
ghost use Rattle.std.specs.Prelude.{◌≡◌, ◌<◌, ◌≤◌, ◌+◌, ◌%◌, ℕ, List, [], true, length, false, IfSome, IsErrOf, IfOk, OnOk};
ghost use Rattle.zr_base.specs.Counts.{HasRisen};
ghost use Rattle.zr_label.specs.Blocks.{IsMetaRoot};
ghost use Rattle.zr_rules.specs.Space.{Space};
ghost use Rattle.zr_rules.specs.Steps.{Commits};
ghost use Rattle.zr_shelf.specs.Counts.{NoneFell};
ghost use Rattle.zr_shelf.specs.Moments.{World};
ghost use Rattle.zr_space.specs.Metadata.{HasNoMeta};
ghost use Rattle.zr_store.specs.Store.{Stored};
ghost use Rattle.zr_vdev.specs.Stores.{KeepsOthers};
ghost use Rattle.zr_vdev.specs.declared.kind.Kind.TheVariants.{Meta};
ghost use Rattle.zr_sync.specs.Anew.{AreRenewed, RenewsLogs};
ghost use Rattle.zr_sync.specs.Copies.{KeepsCopies};
ghost use Rattle.zr_sync.specs.Commits.{EndsGroup, IsNextRoot, IsShownFrom, WritesRoot};
ghost use Rattle.zr_model.specs.Objects.{Objects};
ghost use Rattle.zr_sync.specs.Objects.{HoldsObjects};
ghost use Rattle.zr_sync.specs.Heads.{HasHead, HasSafeHead, IsSeen};
ghost use Rattle.zr_sync.specs.Holds.{AreTreesStored, HasBlocks, HasWritten};
ghost use Rattle.zr_sync.specs.Leads.{CommitsObjects};
ghost use Rattle.zr_sync.specs.Moves.{TellsMoves};
ghost use Rattle.zr_sync.specs.Pools.{IsOpen, IsSamePool, none_turned};
ghost use Rattle.zr_sync.specs.Writes.{WorksOnDisks, WritesAll, WritesIntoFree, WritesMetadata};
ghost use Rattle.zr_sync.specs.declared.logs.Logs.TheVariants.{Anew};
ghost use Rattle.zr_sync.specs.declared.stop.Stop.TheVariants.{DiskFault};
ghost use Rattle.zr_beside.specs.Beside.{Standing};
ghost use Rattle.zr_bptr.specs.declared.Tree.{Tree};
ghost use Rattle.zr_root.specs.Streams.{IsTreeFor};
ghost use Rattle.zr_sync.specs.Trees.{HasLastTrees, HasTrees, HoldsStreams, Place, Stage, first_stage, giving, head_tree, one_stage, settling, writing};
ghost use Rattle.zr_sync.specs.Trees.Stage.{Had, Recorded, Untold, Written};
ghost use Rattle.zr_sync.specs.declared.mappings.MappingStream.{MappingStream};

use crate::device_streams::write_streams;
use crate::ends::end_group;
use crate::heads::write_head;
use crate::late::{give_head, give_lates, write_lates};
use crate::logs::Logs;
use crate::open::OpenPool;
use crate::roots::{next_root, publish_root};
use crate::stop::Stop;
use crate::trees::write_trees;
use std::alloc::Global;
use zr_base::{DevState, NoMemory};
use zr_bptr::Ptr;
use zr_shelf::Shelf;
use zr_space::Space;
use zr_vdev::Place;

// Writes the late sets, which a reset has none of.
fn write_late_sets<S: Shelf, P: Place>(
    alloc: Global,
    pool: &mut OpenPool,
    shelf: &mut S,
    pick: &P,
    reset: bool,
) -> Result<(), Stop>
    requires pool { IsOpen (S.sizes shelf.old) pool.old }
    ensures wrote { WritesMetadata (S.sizes shelf.old) (S.sizes shelf.new) (S.counts shelf.old) (S.counts shelf.new) (S.tells shelf.old) (S.tells shelf.new) (S.world shelf.old) (S.world shelf.new) pool.old pool.new }
    ensures pool { OnOk result (IsOpen (S.sizes shelf.new) pool.new) }
    ensures fault { IsErrOf result DiskFault → HasRisen (S.counts shelf.old).disk (S.counts shelf.new).disk }
    ensures none { reset ≡ true → pool.new.streams ≡ pool.old.streams }
    ensures trees { (first : Stage) (cond : MappingStream → Stage) (others : List Standing) → HoldsStreams (giving first pool.old.table.count) cond others (S.tells shelf.old) (S.world shelf.old).now.seen pool.old → OnOk result (HoldsStreams (settling first reset pool.old.table.count) cond others (S.tells shelf.new) (S.world shelf.new).now.seen pool.new) }
{
    if reset {
        return Ok(());
    }
    write_lates(alloc, pool, shelf, pick)
}

// Writes the logs and gives back the old head and late sets.
fn turn_metadata<S: Shelf, P: Place>(
    alloc: Global,
    pool: &mut OpenPool,
    shelf: &mut S,
    pick: &P,
    logs: Logs,
) -> Result<(), Stop>
    requires pool { IsOpen (S.sizes shelf.old) pool.old }
    ensures wrote { WritesMetadata (S.sizes shelf.old) (S.sizes shelf.new) (S.counts shelf.old) (S.counts shelf.new) (S.tells shelf.old) (S.tells shelf.new) (S.world shelf.old) (S.world shelf.new) pool.old pool.new }
    ensures pool { OnOk result (IsOpen (S.sizes shelf.new) pool.new) }
    ensures fault { IsErrOf result DiskFault → HasRisen (S.counts shelf.old).disk (S.counts shelf.new).disk }
    ensures trees { (bytes : List ℕ) → HoldsStreams (writing (first_stage logs) 0) (one_stage (first_stage logs)) (head_tree pool.old.head bytes) (S.tells shelf.old) (S.world shelf.old).now.seen pool.old → OnOk result (HoldsStreams (giving (first_stage logs) pool.old.table.count) (one_stage Written) [] (S.tells shelf.new) (S.world shelf.new).now.seen pool.new) }
    ensures anew { logs ≡ Anew → OnOk result (AreRenewed pool.old.version pool.old.space pool.new.streams.items pool.old.table.count) }
{
    write_streams(alloc, pool, shelf, pick, logs)?;
    give_head(alloc, pool, shelf, pick)?;
    give_lates(alloc, pool, shelf, pick)
}

// Gives back all metadata of the current root on a device.
fn leave_device(space: &mut Space, dev: u32) -> Result<(), NoMemory>
    requires { dev < length space.old.parts.devs }
    ensures others { KeepsOthers Meta space.old space.new }
    ensures none { OnOk result (HasNoMeta space.new dev) }
{
    let mut more = true;
    while more {
        more = space.drop_meta_on(dev)?;
    }
    Ok(())
}

// Gives back what metadata of the current root is left on devices that are leaving, where they are to be left.
fn leave_devices(pool: &mut OpenPool, moving: bool) -> Result<(), NoMemory>
    requires pool { (sizes : List ℕ) × IsOpen sizes pool.old }
    ensures others { KeepsOthers Meta pool.old.space pool.new.space }
    ensures rest { pool.new ≡ record pool.old { space = pool.new.space } }
    ensures stays { moving ≡ false → pool.new ≡ pool.old }
{
    if !moving {
        return Ok(());
    }
    for dev in 0..pool.table.count {
        if pool.table.rows[dev as usize].state == DevState::Leaving {
            leave_device(&mut pool.space, dev)?;
        }
    }
    Ok(())
}

// Writes the metadata of the next root, and answers the root of its head and the head's bytes.
fn write_metadata<S: Shelf, P: Place>(
    alloc: Global,
    pool: &mut OpenPool,
    shelf: &mut S,
    pick: &P,
    reset: bool,
    logs: Logs,
    moving: bool,
) -> Result<(Ptr, u64), Stop>
    requires pool { IsOpen (S.sizes shelf.old) pool.old }
    ensures wrote { WritesMetadata (S.sizes shelf.old) (S.sizes shelf.new) (S.counts shelf.old) (S.counts shelf.new) (S.tells shelf.old) (S.tells shelf.new) (S.world shelf.old) (S.world shelf.new) pool.old pool.new }
    ensures pool { OnOk result (IsOpen (S.sizes shelf.new) pool.new) }
    ensures fault { IsErrOf result DiskFault → HasRisen (S.counts shelf.old).disk (S.counts shelf.new).disk }
    ensures root { IfOk result (λ head. IsMetaRoot head.0 head.1) }
    ensures whole { IfOk result (λ head. head.1 % 8 ≡ 0) }
    ensures least { IfOk result (λ head. 8 ≤ head.1) }
    ensures short { IfOk result (λ head. head.1 ≤ 35016) }
    ensures stands { IsSeen (S.tells shelf.old) (S.world shelf.old).now.seen pool.old → IfOk result (λ head. HasHead (S.world shelf.new).now.seen pool.new head.0 head.1) }
    ensures safe { IsSeen (S.tells shelf.old) (S.world shelf.old).now.seen pool.old → IfOk result (λ head. HasSafeHead (S.world shelf.new).now.seen pool.new head.0 head.1) }
    ensures trees { moving ≡ false → (bytes : List ℕ) → HoldsStreams (writing (first_stage logs) 0) (one_stage (first_stage logs)) (head_tree pool.old.head bytes) (S.tells shelf.old) (S.world shelf.old).now.seen pool.old → IfOk result (λ head. (next : List ℕ) × ((t : Tree) → IsTreeFor head.1 head.0 t → HoldsStreams (settling (first_stage logs) reset pool.old.table.count) (one_stage Written) (head_tree t next) (S.tells shelf.new) (S.world shelf.new).now.seen pool.new)) }
    ensures anew { reset ≡ true → logs ≡ Anew → OnOk result (AreRenewed pool.old.version pool.old.space pool.new.streams.items pool.old.table.count) }
{
    turn_metadata(alloc, pool, shelf, pick, logs)?;
    leave_devices(pool, moving)?;
    write_late_sets(alloc, pool, shelf, pick, reset)?;
    write_head(alloc, pool, shelf, pick)
}

// Writes all blocks of the next root, and answers the root of its head and the head's bytes.
fn write_all<S: Shelf, P: Place>(
    alloc: Global,
    pool: &mut OpenPool,
    shelf: &mut S,
    pick: &P,
    reset: bool,
    logs: Logs,
    moving: bool,
) -> Result<(Ptr, u64), Stop>
    requires pool { IsOpen (S.sizes shelf.old) pool.old }
    ensures wrote { WritesAll (S.sizes shelf.old) (S.sizes shelf.new) (S.counts shelf.old) (S.counts shelf.new) (S.tells shelf.old) (S.tells shelf.new) (S.world shelf.old) (S.world shelf.new) pool.old pool.new }
    ensures pool { OnOk result (IsOpen (S.sizes shelf.new) pool.new) }
    ensures fault { IsErrOf result DiskFault → HasRisen (S.counts shelf.old).disk (S.counts shelf.new).disk }
    ensures root { IfOk result (λ head. IsMetaRoot head.0 head.1) }
    ensures whole { IfOk result (λ head. head.1 % 8 ≡ 0) }
    ensures least { IfOk result (λ head. 8 ≤ head.1) }
    ensures short { IfOk result (λ head. head.1 ≤ 35016) }
    ensures stands { IsSeen (S.tells shelf.old) (S.world shelf.old).now.seen pool.old → IfOk result (λ head. HasHead (S.world shelf.new).now.seen pool.new head.0 head.1) }
    ensures safe { IsSeen (S.tells shelf.old) (S.world shelf.old).now.seen pool.old → IfOk result (λ head. HasSafeHead (S.world shelf.new).now.seen pool.new head.0 head.1) }
    ensures trees { moving ≡ false → (bytes : List ℕ) → HoldsStreams (writing (first_stage logs) 0) (one_stage (first_stage logs)) (head_tree pool.old.head bytes) (S.tells shelf.old) (S.world shelf.old).now.seen pool.old → IfOk result (λ head. (next : List ℕ) × ((t : Tree) → IsTreeFor head.1 head.0 t → HoldsStreams (settling (first_stage logs) reset pool.old.table.count) (one_stage Written) (head_tree t next) (S.tells shelf.new) (S.world shelf.new).now.seen pool.new)) }
    ensures seen { IsSeen (S.tells shelf.old) (S.world shelf.old).now.seen pool.old → OnOk result (IsSeen (S.tells shelf.new) (S.world shelf.new).now.seen pool.new) }
    ensures objects { (s : Stored) → HasBlocks (S.tells shelf.old) (S.world shelf.old).now.seen pool.old s → AreTreesStored pool.old s → OnOk result (HasWritten (S.tells shelf.new) (S.world shelf.new).now.seen pool.old pool.new s) }
    ensures anew { reset ≡ true → logs ≡ Anew → OnOk result (RenewsLogs pool.old pool.new) }
{
    write_trees(alloc, pool, shelf, pick)?;
    write_metadata(alloc, pool, shelf, pick, reset, logs, moving)
}

// Ends the open group, its logs written as is told.
fn commit_with<S: Shelf, P: Place>(
    alloc: Global,
    pool: &mut OpenPool,
    shelf: &mut S,
    pick: &P,
    reset: bool,
    logs: Logs,
    moving: bool,
) -> Result<(), Stop>
    requires pool { IsOpen (S.sizes shelf.old) pool.old }
    ensures sizes { S.sizes shelf.new ≡ S.sizes shelf.old }
    ensures none_fell { NoneFell (S.counts shelf.old) (S.counts shelf.new) }
    ensures told { S.tells shelf.old → S.tells shelf.new }
    ensures disks { S.tells shelf.old → WorksOnDisks (S.world shelf.old) (S.world shelf.new) }
    ensures fault { IsErrOf result DiskFault → HasRisen (S.counts shelf.old).disk (S.counts shelf.new).disk }
    ensures pool { OnOk result (IsOpen (S.sizes shelf.new) pool.new) }
    ensures saved { OnOk result (pool.new.saved ≡ pool.old.saved) }
    ensures same { OnOk result (IsSamePool pool.old pool.new) }
    ensures last { OnOk result (IfSome pool.new.last (IsNextRoot pool.old reset)) }
    ensures head { OnOk result (IfSome pool.new.last (λ u. pool.new.head.root ≡ u.root)) }
    ensures stands { IsSeen (S.tells shelf.old) (S.world shelf.old).now.seen pool.old → OnOk result (IfSome pool.new.last (λ u. HasHead (S.world shelf.new).now.seen pool.new u.root u.len)) }
    ensures safe { IsSeen (S.tells shelf.old) (S.world shelf.old).now.seen pool.old → OnOk result (IfSome pool.new.last (λ u. HasSafeHead (S.world shelf.new).now.seen pool.new u.root u.len)) }
    ensures seen { IsSeen (S.tells shelf.old) (S.world shelf.old).now.seen pool.old → OnOk result (IsSeen (S.tells shelf.new) (S.world shelf.new).now.seen pool.new) }
    ensures shown { S.tells shelf.old → OnOk result (IfSome pool.new.last (λ u. (before : World) × IsShownFrom (S.sizes shelf.old) pool.old u before (S.world shelf.new))) }
    ensures written { S.tells shelf.old → OnOk result (IfSome pool.new.last (λ u. (mid : World) × WritesIntoFree pool.old (S.world shelf.old) mid × IsShownFrom (S.sizes shelf.old) pool.old u mid (S.world shelf.new))) }
    ensures order { S.tells shelf.old → WritesRoot (S.sizes shelf.old) pool.old reset (S.world shelf.old) (S.world shelf.new) }
    ensures leads { (objects : Objects) → HoldsObjects (S.tells shelf.old) (S.world shelf.old).now.seen pool.old objects → CommitsObjects ((moving ≡ false) × HasTrees (first_stage logs) (Unit {0}) (S.world shelf.old).now.seen pool.old) (S.sizes shelf.old) pool.old reset objects (S.world shelf.old) (S.world shelf.new) }
    ensures space { OnOk result ((before : Space) × Commits reset before pool.new.space) }
    ensures ends { OnOk result (EndsGroup reset pool.old.space pool.new.space) }
    ensures anew { reset ≡ true → logs ≡ Anew → OnOk result (RenewsLogs pool.old pool.new) }
    ensures copies { S.tells shelf.old → OnOk result (KeepsCopies (S.world shelf.old) (S.world shelf.new) pool.old pool.new) }
    ensures empty { OnOk result (pool.new.group.objects ≡ []) }
    ensures trees { moving ≡ false → HasTrees (first_stage logs) (S.tells shelf.old) (S.world shelf.old).now.seen pool.old → OnOk result (HasTrees Recorded (S.tells shelf.new) (S.world shelf.new).now.seen pool.new) }
    ensures moves { moving ≡ false → HasTrees (first_stage logs) (S.tells shelf.old) (S.world shelf.old).now.seen pool.old → OnOk result (IfSome pool.new.last (λ u. TellsMoves (S.world shelf.new).now.seen pool.new u.root u.len)) }
    ensures turned { OnOk result (pool.new.turned ≡ none_turned) }
    ensures txg { OnOk result (pool.new.group.txg ≡ pool.old.group.txg + 1) }
    ensures objects { (s : Stored) → HasBlocks (S.tells shelf.old) (S.world shelf.old).now.seen pool.old s → AreTreesStored pool.old s → OnOk result (HasWritten (S.tells shelf.new) (S.world shelf.new).now.seen pool.old pool.new s) }
    ensures stays { (objects : Objects) → HoldsObjects (S.tells shelf.old) (S.world shelf.old).now.seen pool.old objects → OnOk result (HoldsObjects (S.tells shelf.new) (S.world shelf.new).now.seen pool.new objects) }
{
    if pool.group.txg() == u64::MAX {
        return Err(Stop::NoMemory);
    }
    pool.group.is_in_order();
    let (root, len) = write_all(alloc, pool, shelf, pick, reset, logs, moving)?;
    let next = next_root(pool, root, len, reset);
    publish_root(alloc, pool, shelf, &next)?;
    end_group(alloc, pool, next, reset);
    Ok(())
}

/// Ends the open group: all that it changed is in the root that the shelf has from now on. A reset has no late sets, and
/// all that was freed is free behind it.
///
/// Want of memory is also the answer where a run of free units is missing within the commit, and at the last group of all.
/// After an error the pool is not to be used.
pub fn commit<S: Shelf, P: Place>(
    alloc: Global,
    pool: &mut OpenPool,
    shelf: &mut S,
    pick: &P,
    reset: bool,
) -> Result<(), Stop>
    requires pool { IsOpen (S.sizes shelf.old) pool.old }
    ensures sizes { S.sizes shelf.new ≡ S.sizes shelf.old }
    ensures none_fell { NoneFell (S.counts shelf.old) (S.counts shelf.new) }
    ensures told { S.tells shelf.old → S.tells shelf.new }
    ensures disks { S.tells shelf.old → WorksOnDisks (S.world shelf.old) (S.world shelf.new) }
    ensures fault { IsErrOf result DiskFault → HasRisen (S.counts shelf.old).disk (S.counts shelf.new).disk }
    ensures pool { OnOk result (IsOpen (S.sizes shelf.new) pool.new) }
    ensures saved { OnOk result (pool.new.saved ≡ pool.old.saved) }
    ensures same { OnOk result (IsSamePool pool.old pool.new) }
    ensures last { OnOk result (IfSome pool.new.last (IsNextRoot pool.old reset)) }
    ensures head { OnOk result (IfSome pool.new.last (λ u. pool.new.head.root ≡ u.root)) }
    ensures stands { IsSeen (S.tells shelf.old) (S.world shelf.old).now.seen pool.old → OnOk result (IfSome pool.new.last (λ u. HasHead (S.world shelf.new).now.seen pool.new u.root u.len)) }
    ensures safe { IsSeen (S.tells shelf.old) (S.world shelf.old).now.seen pool.old → OnOk result (IfSome pool.new.last (λ u. HasSafeHead (S.world shelf.new).now.seen pool.new u.root u.len)) }
    ensures seen { IsSeen (S.tells shelf.old) (S.world shelf.old).now.seen pool.old → OnOk result (IsSeen (S.tells shelf.new) (S.world shelf.new).now.seen pool.new) }
    ensures shown { S.tells shelf.old → OnOk result (IfSome pool.new.last (λ u. (before : World) × IsShownFrom (S.sizes shelf.old) pool.old u before (S.world shelf.new))) }
    ensures written { S.tells shelf.old → OnOk result (IfSome pool.new.last (λ u. (mid : World) × WritesIntoFree pool.old (S.world shelf.old) mid × IsShownFrom (S.sizes shelf.old) pool.old u mid (S.world shelf.new))) }
    ensures order { S.tells shelf.old → WritesRoot (S.sizes shelf.old) pool.old reset (S.world shelf.old) (S.world shelf.new) }
    ensures leads { (objects : Objects) → HoldsObjects (S.tells shelf.old) (S.world shelf.old).now.seen pool.old objects → CommitsObjects (HasLastTrees (S.world shelf.old).now.seen pool.old) (S.sizes shelf.old) pool.old reset objects (S.world shelf.old) (S.world shelf.new) }
    ensures space { OnOk result ((before : Space) × Commits reset before pool.new.space) }
    ensures ends { OnOk result (EndsGroup reset pool.old.space pool.new.space) }
    ensures copies { S.tells shelf.old → OnOk result (KeepsCopies (S.world shelf.old) (S.world shelf.new) pool.old pool.new) }
    ensures empty { OnOk result (pool.new.group.objects ≡ []) }
    ensures trees { HasTrees Had (S.tells shelf.old) (S.world shelf.old).now.seen pool.old → OnOk result (HasTrees Recorded (S.tells shelf.new) (S.world shelf.new).now.seen pool.new) }
    ensures moves { HasTrees Had (S.tells shelf.old) (S.world shelf.old).now.seen pool.old → OnOk result (IfSome pool.new.last (λ u. TellsMoves (S.world shelf.new).now.seen pool.new u.root u.len)) }
    ensures turned { OnOk result (pool.new.turned ≡ none_turned) }
    ensures txg { OnOk result (pool.new.group.txg ≡ pool.old.group.txg + 1) }
    ensures objects { (s : Stored) → HasBlocks (S.tells shelf.old) (S.world shelf.old).now.seen pool.old s → AreTreesStored pool.old s → OnOk result (HasWritten (S.tells shelf.new) (S.world shelf.new).now.seen pool.old pool.new s) }
    ensures stays { (objects : Objects) → HoldsObjects (S.tells shelf.old) (S.world shelf.old).now.seen pool.old objects → OnOk result (HoldsObjects (S.tells shelf.new) (S.world shelf.new).now.seen pool.new objects) }
{
    commit_with(alloc, pool, shelf, pick, reset, Logs::Grow, false)
}

/// Ends the open group by a reset that writes every stream anew. Each costs its set or its mapping, whatever changed. Errors are
/// those of `commit`.
pub fn commit_anew<S: Shelf, P: Place>(
    alloc: Global,
    pool: &mut OpenPool,
    shelf: &mut S,
    pick: &P,
) -> Result<(), Stop>
    requires pool { IsOpen (S.sizes shelf.old) pool.old }
    ensures sizes { S.sizes shelf.new ≡ S.sizes shelf.old }
    ensures none_fell { NoneFell (S.counts shelf.old) (S.counts shelf.new) }
    ensures told { S.tells shelf.old → S.tells shelf.new }
    ensures disks { S.tells shelf.old → WorksOnDisks (S.world shelf.old) (S.world shelf.new) }
    ensures fault { IsErrOf result DiskFault → HasRisen (S.counts shelf.old).disk (S.counts shelf.new).disk }
    ensures pool { OnOk result (IsOpen (S.sizes shelf.new) pool.new) }
    ensures saved { OnOk result (pool.new.saved ≡ pool.old.saved) }
    ensures same { OnOk result (IsSamePool pool.old pool.new) }
    ensures last { OnOk result (IfSome pool.new.last (IsNextRoot pool.old true)) }
    ensures head { OnOk result (IfSome pool.new.last (λ u. pool.new.head.root ≡ u.root)) }
    ensures stands { IsSeen (S.tells shelf.old) (S.world shelf.old).now.seen pool.old → OnOk result (IfSome pool.new.last (λ u. HasHead (S.world shelf.new).now.seen pool.new u.root u.len)) }
    ensures safe { IsSeen (S.tells shelf.old) (S.world shelf.old).now.seen pool.old → OnOk result (IfSome pool.new.last (λ u. HasSafeHead (S.world shelf.new).now.seen pool.new u.root u.len)) }
    ensures seen { IsSeen (S.tells shelf.old) (S.world shelf.old).now.seen pool.old → OnOk result (IsSeen (S.tells shelf.new) (S.world shelf.new).now.seen pool.new) }
    ensures shown { S.tells shelf.old → OnOk result (IfSome pool.new.last (λ u. (before : World) × IsShownFrom (S.sizes shelf.old) pool.old u before (S.world shelf.new))) }
    ensures written { S.tells shelf.old → OnOk result (IfSome pool.new.last (λ u. (mid : World) × WritesIntoFree pool.old (S.world shelf.old) mid × IsShownFrom (S.sizes shelf.old) pool.old u mid (S.world shelf.new))) }
    ensures order { S.tells shelf.old → WritesRoot (S.sizes shelf.old) pool.old true (S.world shelf.old) (S.world shelf.new) }
    ensures leads { (objects : Objects) → HoldsObjects (S.tells shelf.old) (S.world shelf.old).now.seen pool.old objects → CommitsObjects (HasTrees Untold (Unit {0}) (S.world shelf.old).now.seen pool.old) (S.sizes shelf.old) pool.old true objects (S.world shelf.old) (S.world shelf.new) }
    ensures space { OnOk result ((before : Space) × Commits true before pool.new.space) }
    ensures ends { OnOk result (EndsGroup true pool.old.space pool.new.space) }
    ensures anew { OnOk result (RenewsLogs pool.old pool.new) }
    ensures copies { S.tells shelf.old → OnOk result (KeepsCopies (S.world shelf.old) (S.world shelf.new) pool.old pool.new) }
    ensures empty { OnOk result (pool.new.group.objects ≡ []) }
    ensures trees { HasTrees Untold (S.tells shelf.old) (S.world shelf.old).now.seen pool.old → OnOk result (HasTrees Recorded (S.tells shelf.new) (S.world shelf.new).now.seen pool.new) }
    ensures moves { HasTrees Untold (S.tells shelf.old) (S.world shelf.old).now.seen pool.old → OnOk result (IfSome pool.new.last (λ u. TellsMoves (S.world shelf.new).now.seen pool.new u.root u.len)) }
    ensures turned { OnOk result (pool.new.turned ≡ none_turned) }
    ensures txg { OnOk result (pool.new.group.txg ≡ pool.old.group.txg + 1) }
    ensures objects { (s : Stored) → HasBlocks (S.tells shelf.old) (S.world shelf.old).now.seen pool.old s → AreTreesStored pool.old s → OnOk result (HasWritten (S.tells shelf.new) (S.world shelf.new).now.seen pool.old pool.new s) }
    ensures stays { (objects : Objects) → HoldsObjects (S.tells shelf.old) (S.world shelf.old).now.seen pool.old objects → OnOk result (HoldsObjects (S.tells shelf.new) (S.world shelf.new).now.seen pool.new objects) }
{
    commit_with(alloc, pool, shelf, pick, true, Logs::Anew, false)
}

/// The same for a pool of which a device is leaving: all metadata moves off it, so that it holds no more than what its mapping
/// will lead to. It costs what `commit_anew` does, and a step for each run of metadata that is left there. Errors are those
/// of `commit`.
pub fn commit_moving<S: Shelf, P: Place>(
    alloc: Global,
    pool: &mut OpenPool,
    shelf: &mut S,
    pick: &P,
) -> Result<(), Stop>
    requires pool { IsOpen (S.sizes shelf.old) pool.old }
    ensures sizes { S.sizes shelf.new ≡ S.sizes shelf.old }
    ensures none_fell { NoneFell (S.counts shelf.old) (S.counts shelf.new) }
    ensures told { S.tells shelf.old → S.tells shelf.new }
    ensures disks { S.tells shelf.old → WorksOnDisks (S.world shelf.old) (S.world shelf.new) }
    ensures fault { IsErrOf result DiskFault → HasRisen (S.counts shelf.old).disk (S.counts shelf.new).disk }
    ensures pool { OnOk result (IsOpen (S.sizes shelf.new) pool.new) }
    ensures saved { OnOk result (pool.new.saved ≡ pool.old.saved) }
    ensures same { OnOk result (IsSamePool pool.old pool.new) }
    ensures last { OnOk result (IfSome pool.new.last (IsNextRoot pool.old true)) }
    ensures head { OnOk result (IfSome pool.new.last (λ u. pool.new.head.root ≡ u.root)) }
    ensures stands { IsSeen (S.tells shelf.old) (S.world shelf.old).now.seen pool.old → OnOk result (IfSome pool.new.last (λ u. HasHead (S.world shelf.new).now.seen pool.new u.root u.len)) }
    ensures safe { IsSeen (S.tells shelf.old) (S.world shelf.old).now.seen pool.old → OnOk result (IfSome pool.new.last (λ u. HasSafeHead (S.world shelf.new).now.seen pool.new u.root u.len)) }
    ensures seen { IsSeen (S.tells shelf.old) (S.world shelf.old).now.seen pool.old → OnOk result (IsSeen (S.tells shelf.new) (S.world shelf.new).now.seen pool.new) }
    ensures shown { S.tells shelf.old → OnOk result (IfSome pool.new.last (λ u. (before : World) × IsShownFrom (S.sizes shelf.old) pool.old u before (S.world shelf.new))) }
    ensures written { S.tells shelf.old → OnOk result (IfSome pool.new.last (λ u. (mid : World) × WritesIntoFree pool.old (S.world shelf.old) mid × IsShownFrom (S.sizes shelf.old) pool.old u mid (S.world shelf.new))) }
    ensures order { S.tells shelf.old → WritesRoot (S.sizes shelf.old) pool.old true (S.world shelf.old) (S.world shelf.new) }
    ensures leads { (objects : Objects) → HoldsObjects (S.tells shelf.old) (S.world shelf.old).now.seen pool.old objects → CommitsObjects ⊥ (S.sizes shelf.old) pool.old true objects (S.world shelf.old) (S.world shelf.new) }
    ensures space { OnOk result ((before : Space) × Commits true before pool.new.space) }
    ensures ends { OnOk result (EndsGroup true pool.old.space pool.new.space) }
    ensures anew { OnOk result (RenewsLogs pool.old pool.new) }
    ensures copies { S.tells shelf.old → OnOk result (KeepsCopies (S.world shelf.old) (S.world shelf.new) pool.old pool.new) }
    ensures empty { OnOk result (pool.new.group.objects ≡ []) }
    ensures turned { OnOk result (pool.new.turned ≡ none_turned) }
    ensures txg { OnOk result (pool.new.group.txg ≡ pool.old.group.txg + 1) }
    ensures objects { (s : Stored) → HasBlocks (S.tells shelf.old) (S.world shelf.old).now.seen pool.old s → AreTreesStored pool.old s → OnOk result (HasWritten (S.tells shelf.new) (S.world shelf.new).now.seen pool.old pool.new s) }
    ensures stays { (objects : Objects) → HoldsObjects (S.tells shelf.old) (S.world shelf.old).now.seen pool.old objects → OnOk result (HoldsObjects (S.tells shelf.new) (S.world shelf.new).now.seen pool.new objects) }
{
    commit_with(alloc, pool, shelf, pick, true, Logs::Anew, true)
}
