//! Taking a checkpoint, and giving it up.
//!
//! A checkpoint is a root to which one may go back. So its blocks and its metadata must stay as they are: the root is
//! committed, and then a second one beside it, which stores the first one's uberblock and has metadata of its own. When
//! the checkpoint is given up, the next root stores none, and the saved root's metadata is free behind it. The blocks
//! that were kept for it are given back by steps, since there may be many.
ghost use Rattle.std.specs.Prelude.{◌≡◌, ◌+◌, ◌<◌, ◌==◌, if◌then◌else◌, false, ℕ, List, [], All, Some, None, length, IfSome, IsErrOf, IfOk, OnOk};
ghost use Rattle.zr_base.specs.Counts.{HasRisen};
ghost use Rattle.zr_base.specs.declared.space.CkptPart.TheVariants.{Clear, Held, Discarding};
ghost use Rattle.zr_label.specs.Blocks.{IsUber};
ghost use Rattle.zr_model.specs.Objects.{Objects};
ghost use Rattle.zr_rules.specs.Places.{is_leaving, state_of_dev};
ghost use Rattle.zr_rules.specs.Steps.{DiscardsSome};
ghost use Rattle.zr_shelf.specs.Counts.{NoneFell};
ghost use Rattle.zr_sync.specs.Checkpoints.{CommitsTwice, CommitsWithout, DropsRoot, GivesSavedMeta, GivesUpCheckpoint, GivesUpInPart, SavesRoot, TakesCheckpoint, TakesInPart};
ghost use Rattle.zr_sync.specs.Empty.{no_streams};
ghost use Rattle.zr_sync.specs.Heads.{HasHead, HasSafeHead, IsSeen};
ghost use Rattle.zr_sync.specs.Objects.{HoldsObjects};
ghost use Rattle.zr_sync.specs.Trees.{HasTrees};
ghost use Rattle.zr_sync.specs.Trees.Stage.{Had};
ghost use Rattle.zr_sync.specs.Pools.{IsOpen, IsSameIdentity};
ghost use Rattle.zr_sync.specs.Trees.{HasTrees};
ghost use Rattle.zr_sync.specs.Trees.Stage.{Had, Recorded};
ghost use Rattle.zr_sync.specs.Writes.{WorksOnDisks};
ghost use Rattle.zr_sync.specs.declared.open.DeviceStreams.{DeviceStreams};
ghost use Rattle.zr_sync.specs.declared.stop.Stop.TheVariants.{DiskFault};
ghost use Rattle.zr_sync.specs.Moves.{TellsMoves};

use crate::commits::{commit, commit_anew};
use crate::open::{Checkpoint, DeviceStreams, EMPTY, NO_COND, NO_STREAMS, OpenPool};
use crate::stop::Stop;
use std::alloc::Global;
use std::mem;
use zr_base::{Blob, NoMemory};
use zr_label::Uber;
use zr_shelf::Shelf;
use zr_space::Space;
use zr_vdev::Place;

// Gives back all metadata of the saved root.
fn give_saved(space: &mut Space) -> Result<(), NoMemory>
    ensures gives { OnOk result (GivesSavedMeta space.old space.new) }
    ensures none { OnOk result (space.new.saved_meta ≡ []) }
{
    let mut more = true;
    while more {
        more = space.drop_saved()?;
    }
    Ok(())
}

// The last root of a pool that has one.
fn last_root(pool: &OpenPool) -> Uber
    requires pool { (sizes : List ℕ) × IsOpen sizes pool.now }
    requires some { 1 < pool.now.group.txg }
    ensures last { pool.now.last ≡ Some result }
    ensures lawful { IsUber result }
{
    match pool.last {
        Some(root) => root,
        None => unreachable!(),
    }
}

// Streams of no words for so many devices.
fn cleared(alloc: Global, devices: usize) -> Result<Vec<DeviceStreams>, NoMemory>
    ensures count { IfOk result (λ all. length all.items ≡ devices) }
    ensures clear { IfOk result (λ all. All (λ (s : DeviceStreams). s ≡ no_streams) all.items) }
{
    let all = vec![in alloc; NO_STREAMS; devices]?;
    Ok(all)
}

// Saves the last root of a pool whose group has changed nothing yet.
fn save_root(alloc: Global, pool: &mut OpenPool) -> Result<(), NoMemory>
    requires pool { (sizes : List ℕ) × IsOpen sizes pool.old }
    requires some { 1 < pool.old.group.txg }
    requires stays { (d : ℕ) → is_leaving (state_of_dev pool.old.space.parts.devs d) ≡ false }
    ensures saves { OnOk result (SavesRoot pool.old pool.new) }
    ensures pool { (sizes : List ℕ) → IsOpen sizes pool.old → OnOk result (IsOpen sizes pool.new) }
{
    let root = last_root(pool);
    let block = Blob::copy_of(alloc, &root.encode())?;
    let none = cleared(alloc, pool.streams.as_slice().len())?;
    give_saved(&mut pool.space)?;
    pool.space.hold(root.txg);
    let streams = mem::replace(&mut pool.streams, none);
    pool.saved = Some(Checkpoint {
        block,
        head: pool.head,
        streams,
        cond: pool.cond,
    });
    pool.head = EMPTY.tree;
    pool.cond = NO_COND;
    Ok(())
}

// Saves no root any more.
fn drop_root(pool: &mut OpenPool) -> Result<(), NoMemory>
    requires pool { (sizes : List ℕ) × IsOpen sizes pool.old }
    requires stays { (d : ℕ) → is_leaving (state_of_dev pool.old.space.parts.devs d) ≡ false }
    ensures drops { OnOk result (DropsRoot pool.old pool.new) }
    ensures pool { (sizes : List ℕ) → IsOpen sizes pool.old → OnOk result (IsOpen sizes pool.new) }
{
    pool.space.discard();
    pool.saved = None;
    give_saved(&mut pool.space)?;
    Ok(())
}

/// Takes a checkpoint of a pool that has none, and of which no device is leaving: ends the open group, saves the root that it leaves, and commits a root
/// that tells so, with all its metadata written anew. Errors are those of two commits.
pub fn checkpoint<S: Shelf, P: Place>(
    alloc: Global,
    pool: &mut OpenPool,
    shelf: &mut S,
    pick: &P,
) -> Result<(), Stop>
    requires pool { IsOpen (S.sizes shelf.old) pool.old }
    requires clear { pool.old.space.parts.ckpt ≡ Clear }
    requires stays { (d : ℕ) → is_leaving (state_of_dev pool.old.space.parts.devs d) ≡ false }
    ensures sizes { S.sizes shelf.new ≡ S.sizes shelf.old }
    ensures none_fell { NoneFell (S.counts shelf.old) (S.counts shelf.new) }
    ensures told { S.tells shelf.old → S.tells shelf.new }
    ensures disks { S.tells shelf.old → WorksOnDisks (S.world shelf.old) (S.world shelf.new) }
    ensures fault { IsErrOf result DiskFault → HasRisen (S.counts shelf.old).disk (S.counts shelf.new).disk }
    ensures pool { OnOk result (IsOpen (S.sizes shelf.new) pool.new) }
    ensures same { OnOk result (IsSameIdentity pool.old pool.new) }
    ensures held { OnOk result (pool.new.space.parts.ckpt ≡ Held pool.old.group.txg) }
    ensures takes { OnOk result (TakesCheckpoint (S.sizes shelf.old) (S.tells shelf.old) (S.world shelf.new) pool.old pool.new) }
    ensures commits { S.tells shelf.old → OnOk result (CommitsTwice (S.sizes shelf.old) (S.world shelf.old) (S.world shelf.new) pool.old pool.new) }
    ensures leads { (objects : Objects) → HoldsObjects (S.tells shelf.old) (S.world shelf.old).now.seen pool.old objects → TakesInPart (S.sizes shelf.old) objects pool.old (S.world shelf.old) (S.world shelf.new) }
    ensures stands { IsSeen (S.tells shelf.old) (S.world shelf.old).now.seen pool.old → OnOk result (IfSome pool.new.last (λ u. HasHead (S.world shelf.new).now.seen pool.new u.root u.len)) }
    ensures safe { IsSeen (S.tells shelf.old) (S.world shelf.old).now.seen pool.old → OnOk result (IfSome pool.new.last (λ u. HasSafeHead (S.world shelf.new).now.seen pool.new u.root u.len)) }
    ensures seen { IsSeen (S.tells shelf.old) (S.world shelf.old).now.seen pool.old → OnOk result (IsSeen (S.tells shelf.new) (S.world shelf.new).now.seen pool.new) }
    ensures empty { OnOk result (pool.new.group.objects ≡ []) }
    ensures trees { HasTrees Had (S.tells shelf.old) (S.world shelf.old).now.seen pool.old → OnOk result (HasTrees Recorded (S.tells shelf.new) (S.world shelf.new).now.seen pool.new) }
    ensures moves { HasTrees Had (S.tells shelf.old) (S.world shelf.old).now.seen pool.old → OnOk result (IfSome pool.new.last (λ u. TellsMoves (S.world shelf.new).now.seen pool.new u.root u.len)) }
    ensures txg { OnOk result (pool.new.group.txg ≡ pool.old.group.txg + 2) }
    ensures stays { (objects : Objects) → HoldsObjects (S.tells shelf.old) (S.world shelf.old).now.seen pool.old objects → OnOk result (HoldsObjects (S.tells shelf.new) (S.world shelf.new).now.seen pool.new objects) }
{
    commit(alloc, pool, shelf, pick, false)?;
    save_root(alloc, pool)?;
    commit_anew(alloc, pool, shelf, pick)?;
    Ok(())
}

/// Gives up the checkpoint, while no device is leaving: the next root saves none, and the saved root's metadata is free behind it. What is kept is
/// given back by steps from then on. Errors are those of a commit.
pub fn give_up_checkpoint<S: Shelf, P: Place>(
    alloc: Global,
    pool: &mut OpenPool,
    shelf: &mut S,
    pick: &P,
) -> Result<(), Stop>
    requires pool { IsOpen (S.sizes shelf.old) pool.old }
    requires stays { (d : ℕ) → is_leaving (state_of_dev pool.old.space.parts.devs d) ≡ false }
    ensures sizes { S.sizes shelf.new ≡ S.sizes shelf.old }
    ensures none_fell { NoneFell (S.counts shelf.old) (S.counts shelf.new) }
    ensures told { S.tells shelf.old → S.tells shelf.new }
    ensures disks { S.tells shelf.old → WorksOnDisks (S.world shelf.old) (S.world shelf.new) }
    ensures fault { IsErrOf result DiskFault → HasRisen (S.counts shelf.old).disk (S.counts shelf.new).disk }
    ensures pool { OnOk result (IsOpen (S.sizes shelf.new) pool.new) }
    ensures same { OnOk result (IsSameIdentity pool.old pool.new) }
    ensures discarding { OnOk result (pool.new.space.parts.ckpt ≡ Discarding) }
    ensures gives { OnOk result (GivesUpCheckpoint (S.sizes shelf.old) (S.tells shelf.old) (S.world shelf.new) pool.old pool.new) }
    ensures commits { S.tells shelf.old → OnOk result (CommitsWithout (S.sizes shelf.old) (S.world shelf.old) (S.world shelf.new) pool.old pool.new) }
    ensures leads { (objects : Objects) → HoldsObjects (S.tells shelf.old) (S.world shelf.old).now.seen pool.old objects → GivesUpInPart (S.sizes shelf.old) objects pool.old (S.world shelf.old) (S.world shelf.new) }
    ensures stands { IsSeen (S.tells shelf.old) (S.world shelf.old).now.seen pool.old → OnOk result (IfSome pool.new.last (λ u. HasHead (S.world shelf.new).now.seen pool.new u.root u.len)) }
    ensures safe { IsSeen (S.tells shelf.old) (S.world shelf.old).now.seen pool.old → OnOk result (IfSome pool.new.last (λ u. HasSafeHead (S.world shelf.new).now.seen pool.new u.root u.len)) }
    ensures seen { IsSeen (S.tells shelf.old) (S.world shelf.old).now.seen pool.old → OnOk result (IsSeen (S.tells shelf.new) (S.world shelf.new).now.seen pool.new) }
    ensures empty { OnOk result (pool.new.group.objects ≡ []) }
    ensures txg { OnOk result (pool.new.group.txg ≡ pool.old.group.txg + 1) }
    ensures stays { (objects : Objects) → HoldsObjects (S.tells shelf.old) (S.world shelf.old).now.seen pool.old objects → OnOk result (HoldsObjects (S.tells shelf.new) (S.world shelf.new).now.seen pool.new objects) }
{
    drop_root(pool)?;
    commit(alloc, pool, shelf, pick, true)?;
    Ok(())
}

/// Gives back some of what was kept for a checkpoint that was given up, the lowest first, and answers how many units. It
/// is 0 where nothing was left, and then the discarding has ended. It costs what `Space::discard_step` does. After an error
/// the pool is not to be used.
pub fn discard_some(pool: &mut OpenPool) -> Result<u64, NoMemory>
    requires pool { (sizes : List ℕ) × IsOpen sizes pool.old }
    requires discarding { pool.old.space.parts.ckpt ≡ Discarding }
    ensures discards { IfOk result (λ units. DiscardsSome pool.old.space units pool.new.space) }
    ensures rest { pool.new ≡ record pool.old { space = pool.new.space } }
    ensures ended { IfOk result (λ units. pool.new.space.parts.ckpt ≡ (if units == 0 then Clear else Discarding)) }
    ensures pool { (sizes : List ℕ) → IsOpen sizes pool.old → OnOk result (IsOpen sizes pool.new) }
    ensures stays { (disks : List (List ℕ)) (objects : Objects) → HoldsObjects (Unit {0}) disks pool.old objects → OnOk result (HoldsObjects (Unit {0}) disks pool.new objects) }
    ensures trees { (disks : List (List ℕ)) → HasTrees Had (Unit {0}) disks pool.old → OnOk result (HasTrees Had (Unit {0}) disks pool.new) }
{
    pool.space.discard_step()
}
