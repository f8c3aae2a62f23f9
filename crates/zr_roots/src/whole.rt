//! A whole root, and the one that a checkpoint saved.
ghost use Rattle.std.specs.Prelude.{◌≡◌, All, IfOk, OnOk, IsErrOf};
ghost use Rattle.zr_base.specs.Counts.{HasRisen};
ghost use Rattle.zr_base.specs.declared.space.CkptPart.TheVariants.{Clear};
ghost use Rattle.zr_image.specs.Roots.{rows_of};
ghost use Rattle.zr_import.specs.Spending.{HaveHeld};
ghost use Rattle.zr_import.specs.declared.errors.ImportErr.TheVariants.{Failed};
ghost use Rattle.zr_judge.specs.Parts.{HasMapping};
ghost use Rattle.zr_label.specs.Blocks.{IsUber};
ghost use Rattle.zr_meta.specs.Heads.{IsHead};
ghost use Rattle.zr_roots.specs.Causes.{IsUnread, IsSavedUnread};
ghost use Rattle.zr_roots.specs.Devices.{HasItsDisks};
ghost use Rattle.zr_bptr.specs.Spelling.{IsTree};
ghost use Rattle.zr_roots.specs.Standing.{IsRootOf, StandBlocks, Stands};
ghost use Rattle.zr_rules.specs.Equation.{devices_in};
ghost use Rattle.zr_vdev.specs.Mounts.{AreMounted};
ghost use Rattle.zr_shelf.specs.Counts.{NoneFell};
ghost use Rattle.zr_shelf.specs.Moments.{IsStill};

use crate::base::{Base, CACHED, read_base, read_saved_base};
use std::alloc::Global;
use zr_cache::Cache;
use zr_import::{ImportErr, Meta, Root, read_root, read_saved as read_saved_root};
use zr_shelf::Shelf;
use zr_slots::Found;
use zr_space::Space;
use zr_vdev::Reader;

// The directory and the objects of a root with this metadata, read over the space that it tells.
fn read_blocks<S: Shelf>(
    alloc: Global,
    shelf: &mut S,
    found: &Found,
    space: &Space,
    meta: Meta,
) -> Result<Root, ImportErr>
    requires mounted { AreMounted (S.sizes shelf.old) found.now.slots (devices_in space.now) }
    requires parts { space.now.parts ≡ meta.parts }
    requires dir { IsTree meta.head.dir }
    ensures sizes { S.sizes shelf.new ≡ S.sizes shelf.old }
    ensures none_fell { NoneFell (S.counts shelf.old) (S.counts shelf.new) }
    ensures told { S.tells shelf.old → S.tells shelf.new }
    ensures still { S.tells shelf.old → IsStill (S.world shelf.old) (S.world shelf.new) }
    ensures fault { IsErrOf result Failed → HasRisen (S.counts shelf.old).disk (S.counts shelf.new).disk }
    ensures root { IfOk result (IsRootOf meta) }
    ensures stand { S.tells shelf.old → IfOk result (StandBlocks (S.world shelf.old).now.seen found.now.slots found.now.root.txg) }
    ensures unread { IsUnread result }
{
    let mut cache = Cache::new(alloc, CACHED)?;
    let mut store = Reader::new(space, shelf, &mut cache, &found.slots);
    read_root(alloc, &mut store, meta, found.root.txg)
}

/// Reads the root that was found. It makes a call on a disk for each run of a block, and takes the memory of the
/// metadata, of the spaces that it tells, and of one object's way.
pub fn read<S: Shelf>(alloc: Global, shelf: &mut S, found: &Found) -> Result<Root, ImportErr>
    requires root { IsUber found.now.root }
    requires disks { HasItsDisks (S.sizes shelf.old) found.now.slots found.now.root }
    ensures sizes { S.sizes shelf.new ≡ S.sizes shelf.old }
    ensures none_fell { NoneFell (S.counts shelf.old) (S.counts shelf.new) }
    ensures told { S.tells shelf.old → S.tells shelf.new }
    ensures still { S.tells shelf.old → IsStill (S.world shelf.old) (S.world shelf.new) }
    ensures fault { IsErrOf result Failed → HasRisen (S.counts shelf.old).disk (S.counts shelf.new).disk }
    ensures head { IfOk result (λ root. IsHead (rows_of found.now.root) root.head) }
    ensures mapped { IfOk result (λ root. All HasMapping root.parts.devs) }
    ensures stands { S.tells shelf.old → IfOk result (Stands (S.world shelf.old).now.seen found.now.slots found.now.root) }
    ensures unread { IsUnread result }
{
    let base = read_base(alloc, shelf, found)?;
    let Base { meta, space } = base;
    read_blocks(alloc, shelf, found, &space, meta)
}

// The directory and the objects of a saved root, beside the current one.
fn read_saved_blocks<S: Shelf>(
    alloc: Global,
    shelf: &mut S,
    found: &Found,
    space: &Space,
    meta: Meta,
    current: &Root,
) -> Result<Root, ImportErr>
    requires mounted { AreMounted (S.sizes shelf.old) found.now.slots (devices_in space.now) }
    requires parts { space.now.parts ≡ meta.parts }
    requires dir { IsTree meta.head.dir }
    ensures sizes { S.sizes shelf.new ≡ S.sizes shelf.old }
    ensures none_fell { NoneFell (S.counts shelf.old) (S.counts shelf.new) }
    ensures told { S.tells shelf.old → S.tells shelf.new }
    ensures still { S.tells shelf.old → IsStill (S.world shelf.old) (S.world shelf.new) }
    ensures fault { IsErrOf result Failed → HasRisen (S.counts shelf.old).disk (S.counts shelf.new).disk }
    ensures root { IfOk result (IsRootOf meta) }
    ensures stand { S.tells shelf.old → IfOk result (StandBlocks (S.world shelf.old).now.seen found.now.slots found.now.root.txg) }
    ensures clear { OnOk result (meta.parts.ckpt ≡ Clear) }
    ensures fits { OnOk result (HaveHeld current.now.older meta.parts.devs) }
    ensures unread { IsSavedUnread result }
{
    let mut cache = Cache::new(alloc, CACHED)?;
    let mut store = Reader::new(space, shelf, &mut cache, &found.slots);
    read_saved_root(alloc, &mut store, current, meta, found.root.txg)
}

/// Reads the saved root that was found, beside the current one. It costs what `read` does.
pub fn read_saved<S: Shelf>(
    alloc: Global,
    shelf: &mut S,
    found: &Found,
    current: &Root,
) -> Result<Root, ImportErr>
    requires root { IsUber found.now.root }
    requires disks { HasItsDisks (S.sizes shelf.old) found.now.slots found.now.root }
    ensures sizes { S.sizes shelf.new ≡ S.sizes shelf.old }
    ensures none_fell { NoneFell (S.counts shelf.old) (S.counts shelf.new) }
    ensures told { S.tells shelf.old → S.tells shelf.new }
    ensures still { S.tells shelf.old → IsStill (S.world shelf.old) (S.world shelf.new) }
    ensures fault { IsErrOf result Failed → HasRisen (S.counts shelf.old).disk (S.counts shelf.new).disk }
    ensures head { IfOk result (λ saved. IsHead (rows_of found.now.root) saved.head) }
    ensures mapped { IfOk result (λ saved. All HasMapping saved.parts.devs) }
    ensures stands { S.tells shelf.old → IfOk result (Stands (S.world shelf.old).now.seen found.now.slots found.now.root) }
    ensures clear { IfOk result (λ saved. saved.parts.ckpt ≡ Clear) }
    ensures fits { IfOk result (λ saved. HaveHeld current.now.older saved.parts.devs) }
    ensures unread { IsSavedUnread result }
{
    let base = read_saved_base(alloc, shelf, found)?;
    let Base { meta, space } = base;
    read_saved_blocks(alloc, shelf, found, &space, meta, current)
}
