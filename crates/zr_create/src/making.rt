//! Making a pool on some slots.
ghost use Rattle.std.specs.Prelude.{◌≡◌, ◌<◌, ◌≤◌, ◌⊎◌, [], IsErrOf, IfOk, OnOk, Ok, Err, length};
ghost use Rattle.std.specs.FinMap as map;
ghost use Rattle.zr_base.specs.Counts.{HasRisen};
ghost use Rattle.zr_base.specs.declared.space.CkptPart.TheVariants.{Clear};
ghost use Rattle.zr_base.specs.declared.refusal.Refusal.{Refusal};
ghost use Rattle.zr_label.specs.Blocks.{IsName};
ghost use Rattle.zr_sync.specs.Ends.{ComesCommitted};
ghost use Rattle.zr_last.specs.Last.{ShowsLast};
ghost use Rattle.zr_shelf.specs.Counts.{NoneFell};
ghost use Rattle.zr_shelf.specs.Moments.{IsStill};
ghost use Rattle.zr_slots.specs.Checks.{AreNamed};
ghost use Rattle.zr_sync.specs.Objects.{HoldsObjects};
ghost use Rattle.zr_sync.specs.Pools.{IsOpen};
ghost use Rattle.zr_sync.specs.Trees.{HasTrees};
ghost use Rattle.zr_sync.specs.Trees.Stage.{Had, Recorded};
ghost use Rattle.zr_sync.specs.Writes.{WorksOnDisks};
ghost use Rattle.zr_sync.specs.declared.fault.Fault.TheVariants.{No, Stops};
ghost use Rattle.zr_sync.specs.declared.stop.Stop.TheVariants.{DiskFault};
ghost use Rattle.zr_create.specs.Blank.{IsNamed, IsResetAt, NothingWaits};
ghost use Rattle.zr_create.specs.Devices.{HasDevicesIn};
ghost use Rattle.zr_create.specs.Making.{MakesInPart};
ghost use Rattle.zr_create.specs.Names.{AreApart};
ghost use Rattle.zr_create.specs.Refusals.{ChecksNew};

use crate::blank::empty_pool;
use crate::sizes::sizes_of;
use crate::taking::take_all;
use std::alloc::Global;
use zr_label::Name;
use zr_shelf::Shelf;
use zr_slots::{refuse_create, scan_all};
use zr_sync::{Fault, OpenPool, commit};
use zr_vdev::Place;

// Looks at all slots, and refuses a pool that cannot be made on the named ones.
fn check_new<S: Shelf>(
    alloc: Global,
    shelf: &mut S,
    guid: u64,
    named: &[u32],
    version: u64,
) -> Result<(), Fault>
    requires version { (version ≡ 1) ⊎ (version ≡ 2) }
    requires named { AreNamed (length (S.sizes shelf.old)) named.now }
    requires slots { length (S.sizes shelf.old) ≤ 32 }
    ensures sizes { S.sizes shelf.new ≡ S.sizes shelf.old }
    ensures none_fell { NoneFell (S.counts shelf.old) (S.counts shelf.new) }
    ensures told { S.tells shelf.old → S.tells shelf.new }
    ensures still { S.tells shelf.old → IsStill (S.world shelf.old) (S.world shelf.new) }
    ensures fault { IsErrOf result (Stops DiskFault) → HasRisen (S.counts shelf.old).disk (S.counts shelf.new).disk }
    ensures refused { (r : Refusal) → IsErrOf result (No r) → ChecksNew (S.sizes shelf.old) (S.tells shelf.old) (S.world shelf.old).now.seen version guid named.now (Err r) }
    ensures allowed { OnOk result (ChecksNew (S.sizes shelf.old) (S.tells shelf.old) (S.world shelf.old).now.seen version guid named.now (Ok tt)) }
{
    let sizes = sizes_of(alloc, shelf)?;
    let seen = scan_all(alloc, shelf)?;
    refuse_create(sizes.as_slice(), seen.as_slice(), named, guid, version)?;
    Ok(())
}

/// Makes a pool on the named slots, and commits its first group, which is a reset. After a stop some of the slots may have
/// labels of the pool, and no root.
pub fn create<S: Shelf, P: Place>(
    alloc: Global,
    shelf: &mut S,
    pick: &P,
    name: Name,
    guid: u64,
    named: &[u32],
    version: u64,
) -> Result<OpenPool, Fault>
    requires name { IsName name }
    requires guid { 0 < guid }
    requires version { (version ≡ 1) ⊎ (version ≡ 2) }
    requires some { 1 ≤ length named.now }
    requires few { length named.now ≤ 32 }
    requires named { AreNamed (length (S.sizes shelf.old)) named.now }
    requires apart { AreApart named.now }
    requires slots { length (S.sizes shelf.old) ≤ 32 }
    ensures sizes { S.sizes shelf.new ≡ S.sizes shelf.old }
    ensures none_fell { NoneFell (S.counts shelf.old) (S.counts shelf.new) }
    ensures told { S.tells shelf.old → S.tells shelf.new }
    ensures disks { S.tells shelf.old → WorksOnDisks (S.world shelf.old) (S.world shelf.new) }
    ensures fault { IsErrOf result (Stops DiskFault) → HasRisen (S.counts shelf.old).disk (S.counts shelf.new).disk }
    ensures pool { IfOk result (IsOpen (S.sizes shelf.new)) }
    ensures named { IfOk result (IsNamed name guid version) }
    ensures clear { IfOk result (λ pool. pool.space.parts.ckpt ≡ Clear) }
    ensures devices { IfOk result (HasDevicesIn (S.sizes shelf.old) 1 named.now) }
    ensures txg { IfOk result (λ pool. pool.group.txg ≡ 2) }
    ensures empty { IfOk result (λ pool. pool.group.objects ≡ []) }
    ensures root { IfOk result (λ pool. IsResetAt 1 pool.last) }
    ensures settled { IfOk result (λ pool. NothingWaits pool.space) }
    ensures last { S.tells shelf.old → IfOk result (ShowsLast (S.world shelf.new).now.seen) }
    // It came with the commit of its first root.
    ensures ends { S.tells shelf.old → IfOk result (λ pool. ComesCommitted (S.sizes shelf.new) pool map.empty (S.world shelf.new)) }
    ensures stops { S.tells shelf.old → MakesInPart (S.sizes shelf.old) named.now (S.world shelf.old) (S.world shelf.new) }
    ensures objects { S.tells shelf.old → IfOk result (λ pool. HoldsObjects (S.tells shelf.new) (S.world shelf.new).now.seen pool map.empty) }
    ensures trees { S.tells shelf.old → IfOk result (λ pool. HasTrees Had (S.tells shelf.new) (S.world shelf.new).now.seen pool) }
    ensures recorded { S.tells shelf.old → IfOk result (λ pool. HasTrees Recorded (S.tells shelf.new) (S.world shelf.new).now.seen pool) }
    ensures refused { (r : Refusal) → IsErrOf result (No r) → ChecksNew (S.sizes shelf.old) (S.tells shelf.old) (S.world shelf.old).now.seen version guid named.now (Err r) }
    ensures allowed { OnOk result (ChecksNew (S.sizes shelf.old) (S.tells shelf.old) (S.world shelf.old).now.seen version guid named.now (Ok tt)) }
    ensures untouched { S.tells shelf.old → (r : Refusal) → IsErrOf result (No r) → IsStill (S.world shelf.old) (S.world shelf.new) }
{
    check_new(alloc, shelf, guid, named, version)?;
    let mut pool = empty_pool(alloc, name, guid, version)?;
    take_all(alloc, &mut pool, shelf, named)?;
    commit(alloc, &mut pool, shelf, pick, true)?;
    Ok(pool)
}
