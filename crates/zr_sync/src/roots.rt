//! The root of a commit, and its publishing.
ghost use Rattle.std.specs.Prelude.{◌≡◌, ◌≤◌, ◌%◌, ℕ, List, Bool, if◌then◌else◌, IsErrOf, OnOk};
ghost use Rattle.zr_base.specs.Counts.{HasRisen};
ghost use Rattle.zr_base.specs.declared.space.Dva.{Dva};
ghost use Rattle.zr_label.specs.Blocks.{IsMetaRoot, IsUber};
ghost use Rattle.zr_shelf.specs.Counts.{NoneFell};
ghost use Rattle.zr_store.specs.Store.{Stored};
ghost use Rattle.zr_vdev.specs.Runs.{view_of};
ghost use Rattle.zr_view.specs.Views.{address_bytes};
ghost use Rattle.zr_sync.specs.Copies.{KeepsCopies};
ghost use Rattle.zr_sync.specs.Commits.{IsNextRoot, IsShownFrom, PublishesRoot, last_reset};
ghost use Rattle.zr_sync.specs.Holds.{HasBlocks};
ghost use Rattle.zr_sync.specs.Pools.{IsOpen};
ghost use Rattle.zr_sync.specs.Writes.{WorksOnDisks};
ghost use Rattle.zr_sync.specs.declared.stop.Stop.TheVariants.{DiskFault};

use crate::open::OpenPool;
use crate::stop::Stop;
use std::alloc::Global;
use zr_bptr::Ptr;
use zr_label::Uber;
use zr_shelf::Shelf;
use zr_slots::{publish, slots_in_both};

// The group of the last reset, where this one is none.
fn last_reset(last: &Option<Uber>, txg: u64) -> u64
    ensures { result ≡ last_reset last.now txg }
{
    match last {
        None => txg,
        Some(u) => { if u.reset == 0 { u.txg } else { u.reset } }
    }
}

// The group of the last reset, as the next root names it.
fn next_reset(pool: &OpenPool, reset: bool) -> u64
    ensures { result ≡ (if reset then pool.now.group.txg else last_reset pool.now.last pool.now.group.txg) }
{
    let txg = pool.group.txg();
    if reset {
        txg
    } else {
        last_reset(&pool.last, txg)
    }
}

// The identity of a pool.
fn identity(pool: &OpenPool) -> u64
    ensures { result ≡ pool.now.guid }
{
    pool.guid
}

/// The root of the open group, with a head of so many bytes.
pub fn next_root(pool: &OpenPool, root: Ptr, len: u64, reset: bool) -> Uber
    requires pool { (sizes : List ℕ) × IsOpen sizes pool.now }
    requires root { IsMetaRoot root len }
    requires whole { len % 8 ≡ 0 }
    requires least { 8 ≤ len }
    requires short { len ≤ 35016 }
    ensures next { IsNextRoot pool.now reset result }
    ensures lawful { IsUber result }
    ensures root_is { result.root ≡ root }
    ensures len_is { result.len ≡ len }
{
    Uber {
        version: pool.version,
        txg: pool.group.txg(),
        guid: identity(pool),
        len,
        count: pool.table.count,
        reset: next_reset(pool, reset),
        root,
        rows: pool.table.rows,
        name: pool.name,
    }
}

/// Publishes a root in the slots of its devices, first where the last root's devices are too.
pub fn publish_root<S: Shelf>(
    alloc: Global,
    pool: &OpenPool,
    shelf: &mut S,
    root: &Uber,
) -> Result<(), Stop>
    requires pool { IsOpen (S.sizes shelf.old) pool.now }
    requires next { (reset : Bool) × IsNextRoot pool.now reset root.now }
    requires lawful { IsUber root.now }
    ensures sizes { S.sizes shelf.new ≡ S.sizes shelf.old }
    ensures none_fell { NoneFell (S.counts shelf.old) (S.counts shelf.new) }
    ensures told { S.tells shelf.old → S.tells shelf.new }
    ensures disks { S.tells shelf.old → WorksOnDisks (S.world shelf.old) (S.world shelf.new) }
    ensures fault { IsErrOf result DiskFault → HasRisen (S.counts shelf.old).disk (S.counts shelf.new).disk }
    ensures order { S.tells shelf.old → PublishesRoot (S.sizes shelf.old) pool.now root.now (S.world shelf.old) (S.world shelf.new) }
    ensures shown { S.tells shelf.old → OnOk result (IsShownFrom (S.sizes shelf.old) pool.now root.now (S.world shelf.old) (S.world shelf.new)) }
    ensures blocks { (s : Stored) → HasBlocks (S.tells shelf.old) (S.world shelf.old).now.seen pool.now s → HasBlocks (S.tells shelf.new) (S.world shelf.new).now.seen pool.now s }
    ensures copies { S.tells shelf.old → KeepsCopies (S.world shelf.old) (S.world shelf.new) pool.now pool.now }
    ensures bytes { S.tells shelf.old → (a : Dva) → address_bytes (view_of (S.world shelf.new).now.seen pool.now.table.slots pool.now.space) a ≡ address_bytes (view_of (S.world shelf.old).now.seen pool.now.table.slots pool.now.space) a }
{
    let last = pool.last.unwrap_or(*root);
    let both = slots_in_both(alloc, &last, root, &pool.table.slots)?;
    let all = slots_in_both(alloc, root, root, &pool.table.slots)?;
    publish(shelf, both.as_slice(), all.as_slice(), root)?;
    Ok(())
}
