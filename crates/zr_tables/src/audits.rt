//! The units that a walk over an open pool finds, beside those that are counted.
ghost use Rattle.std.specs.Prelude.{◌≡◌, ◌<◌, ◌≤◌, ◌++◌, ℕ, List, All, IfOk, IfSome, IsErrOf, None, length, map, false};
ghost use Rattle.zr_audit.specs.Found.{AreMeta, allocated_units};
ghost use Rattle.zr_base.specs.Counts.{HasRisen};
ghost use Rattle.zr_base.specs.declared.refusal.Refusal.{Refusal};
ghost use Rattle.zr_base.specs.declared.refusal.Refusal.TheVariants.{Damaged};
ghost use Rattle.zr_base.specs.declared.space.Dva.{Dva};
ghost use Rattle.zr_bptr.specs.Spelling.{IsTree};
ghost use Rattle.zr_lookup.specs.Groups.{IsLawfulGroup};
ghost use Rattle.zr_rules.specs.Places.{is_gone, is_leaving, state_of_dev};
ghost use Rattle.zr_rules.specs.Roles.Role.{SavedMeta};
ghost use Rattle.zr_rules.specs.Space.{role_at};
ghost use Rattle.zr_shelf.specs.Counts.{NoneFell};
ghost use Rattle.zr_shelf.specs.Moments.{IsStill};
ghost use Rattle.zr_store.specs.Causes.{Costs, HasCause};
ghost use Rattle.zr_store.specs.Store.{Stored};
ghost use Rattle.zr_sync.specs.Pools.{AreCondStreams, AreStreams, IsCheckpoint, IsOpen};
ghost use Rattle.zr_sync.specs.Trees.{HasTrees};
ghost use Rattle.zr_sync.specs.Trees.Stage.{Had};
ghost use Rattle.zr_sync.specs.Writes.{WorksOnDisks};
ghost use Rattle.zr_sync.specs.declared.fault.Fault.TheVariants.{No, Stops};
ghost use Rattle.zr_sync.specs.declared.stop.Stop.TheVariants.{DiskFault};
ghost use Rattle.zr_vdev.specs.Stores.{HoldsRead, GoesOnReading, addresses_of};
ghost use Rattle.zr_model.specs.Objects.{Objects};
ghost use Rattle.zr_sync.specs.Objects.{HoldsObjects};
ghost use Rattle.zr_tables.specs.Audits.{IsWalk, AddsUp, concrete, lines_from, metadata_of};
ghost use Rattle.zr_tables.specs.Walks.{AreLiveAddresses, metadata_reach, saved_reach};

use crate::live::live_addresses;
use crate::metadata::metadata_addresses;
use std::alloc::Global;
use zr_audit::Audit;
use zr_base::{DevState, Dva, Items, NoMemory};
use zr_bptr::Tree;
use zr_script::AuditLine;
use zr_shelf::Shelf;
use zr_space::Space;
use zr_store::{Blocks, StoreErr};
use zr_sync::{Checkpoint, CondStreams, DeviceStreams, Fault, OpenPool};
use zr_txg::Group;
use zr_vdev::Reader;

/// The addresses that a walk has met: of live pointers, and of metadata.
#[derive(Drop)]
struct Met {
    live: Vec<Dva>,
    meta: Vec<Dva>,
}

// Walks over the objects of a directory and a group, and then over the metadata.
fn meet<B: Blocks>(
    alloc: Global,
    store: &mut B,
    dir: &Tree,
    group: &Group,
    head: &Tree,
    streams: &[DeviceStreams],
    cond: &CondStreams,
    saved: &Option<Checkpoint>,
) -> Result<Met, StoreErr>
    requires dir { IsTree dir.now }
    requires low { dir.now.height ≤ 3 }
    requires group { IsLawfulGroup group.now }
    requires head { IsTree head.now }
    requires streams { All AreStreams streams.now }
    requires cond { AreCondStreams cond.now }
    requires saved { IfSome saved.now IsCheckpoint }
    ensures follows { (start : B) → B.follows start store.old → B.follows start store.new }
    ensures costs { Costs 0 0 (B.account store.old) (B.account store.new) }
    ensures cause { HasCause 0 (B.account store.old) (B.account store.new) result }
    ensures same { (s : Stored) → B.holds store.old s → B.holds store.new s }
    ensures live { (s : Stored) → B.holds store.old s → IfOk result (λ met. AreLiveAddresses s dir.now group.now met.live.items) }
    ensures metadata { (s : Stored) → B.holds store.old s → IfOk result (λ met. met.meta.items ≡ addresses_of (metadata_reach s head.now streams.now cond.now) ++ addresses_of (saved_reach s saved.now)) }
{
    let live = live_addresses(alloc, store, dir, group)?;
    let meta = metadata_addresses(alloc, store, head, streams, cond, saved)?;
    Ok(Met { live, meta })
}

// Walks over an open pool.
fn meet_all<S: Shelf>(alloc: Global, pool: &mut OpenPool, shelf: &mut S) -> Result<Met, Fault>
    requires pool { IsOpen (S.sizes shelf.old) pool.old }
    ensures reads { GoesOnReading pool.old.table.slots pool.old.space (S.sizes shelf.old) (S.sizes shelf.new) (S.counts shelf.old) (S.counts shelf.new) (S.tells shelf.old) (S.tells shelf.new) (S.world shelf.old) (S.world shelf.new) pool.old.cache pool.new.cache }
    ensures same { pool.new ≡ record pool.old { cache = pool.new.cache } }
    ensures fault { IsErrOf result (Stops DiskFault) → HasRisen (S.counts shelf.old).disk (S.counts shelf.new).disk }
    ensures refused { (r : Refusal) → IsErrOf result (No r) → (at : Dva) × (expected found : List ℕ) × (r ≡ Damaged at expected found) }
    ensures live { (s : Stored) → HoldsRead pool.old.table.slots (S.tells shelf.old) (S.world shelf.old).now.seen pool.old.space pool.old.cache s → IfOk result (λ met. AreLiveAddresses s pool.old.dir pool.old.group met.live.items) }
    ensures metadata { (s : Stored) → HoldsRead pool.old.table.slots (S.tells shelf.old) (S.world shelf.old).now.seen pool.old.space pool.old.cache s → IfOk result (λ met. met.meta.items ≡ metadata_of s pool.old) }
{
    let mut store = Reader::new(&pool.space, shelf, &mut pool.cache, &pool.table.slots);
    Ok(meet(
        alloc,
        &mut store,
        &pool.dir,
        &pool.group,
        &pool.head,
        pool.streams.as_slice(),
        &pool.cond,
        &pool.saved,
    )?)
}

// Whether a device is gone.
fn is_gone(space: &Space, dev: u32) -> bool
    requires { dev < length space.now.parts.devs }
    ensures { result ≡ is_gone (state_of_dev space.now.parts.devs dev) }
{
    match space.state(dev) {
        DevState::Gone => true,
        DevState::On | DevState::Leaving => false,
    }
}

// The lines of an audit: none for a device that is gone.
fn lines_of(alloc: Global, space: &Space, counted: &Audit) -> Result<Items<AuditLine>, NoMemory>
    requires walked { length counted.now.walked ≡ length space.now.parts.devs }
    requires allocated { length counted.now.allocated ≡ length space.now.parts.devs }
    ensures lines { IfOk result (λ lines. lines ≡ lines_from space.now counted.now.walked counted.now.allocated) }
{
    let walked = counted.walked.as_slice();
    let allocated = counted.allocated.as_slice();
    let mut lines = Items::new(alloc);
    for index in 0..space.devices() {
        if is_gone(space, index) {
            continue;
        }
        lines.push(AuditLine {
            index,
            walked: walked[index as usize],
            allocated: allocated[index as usize],
        })?;
    }
    Ok(lines)
}

/// A line for each device that is not gone, by its index, in units: how many different units of it a walk meets, and how
/// many are counted as allocated. On a pool whose units add up the two are equal, also in the middle of a group and of a
/// removal. It reads each tree block, and changes nothing but the cache.
pub fn audit<S: Shelf>(
    alloc: Global,
    pool: &mut OpenPool,
    shelf: &mut S,
) -> Result<Items<AuditLine>, Fault>
    requires pool { IsOpen (S.sizes shelf.old) pool.old }
    ensures sizes { S.sizes shelf.new ≡ S.sizes shelf.old }
    ensures none_fell { NoneFell (S.counts shelf.old) (S.counts shelf.new) }
    ensures told { S.tells shelf.old → S.tells shelf.new }
    ensures disks { S.tells shelf.old → WorksOnDisks (S.world shelf.old) (S.world shelf.new) }
    ensures still { S.tells shelf.old → IsStill (S.world shelf.old) (S.world shelf.new) }
    ensures fault { IsErrOf result (Stops DiskFault) → HasRisen (S.counts shelf.old).disk (S.counts shelf.new).disk }
    ensures refused { (r : Refusal) → IsErrOf result (No r) → (at : Dva) × (expected found : List ℕ) × (r ≡ Damaged at expected found) }
    ensures pool { IsOpen (S.sizes shelf.new) pool.new }
    ensures same { pool.new ≡ record pool.old { cache = pool.new.cache } }
    ensures stays { (objects : Objects) → HoldsObjects (S.tells shelf.old) (S.world shelf.old).now.seen pool.old objects → HoldsObjects (S.tells shelf.new) (S.world shelf.new).now.seen pool.new objects }
    ensures indices { IfOk result (λ lines. map (λ l. l.index) lines ≡ concrete pool.old.space) }
    ensures allocated { IfOk result (λ lines. map (λ l. l.allocated) lines ≡ map (allocated_units pool.old.space) (concrete pool.old.space)) }
    ensures walked { (s : Stored) → HoldsRead pool.old.table.slots (S.tells shelf.old) (S.world shelf.old).now.seen pool.old.space pool.old.cache s → IfOk result (λ lines. IsWalk s pool.old (map (λ l. l.walked) lines)) }

    // Where the units add up, the two numbers are equal.
    ensures equal { (s : Stored) → HoldsRead pool.old.table.slots (S.tells shelf.old) (S.world shelf.old).now.seen pool.old.space pool.old.cache s → AddsUp s pool.old → IfOk result (λ lines. map (λ l. l.walked) lines ≡ map (λ l. l.allocated) lines) }

    // So they are where the disks hold the pool's objects, no device is leaving, and the metadata is what is counted as such.
    ensures whole { (objects : Objects) → HoldsObjects (S.tells shelf.old) (S.world shelf.old).now.seen pool.old objects → ((d : ℕ) → is_leaving (state_of_dev pool.old.space.parts.devs d) ≡ false) → (s : Stored) → HoldsRead pool.old.table.slots (S.tells shelf.old) (S.world shelf.old).now.seen pool.old.space pool.old.cache s → AreMeta pool.old.space (metadata_of s pool.old) → IfOk result (λ lines. map (λ l. l.walked) lines ≡ map (λ l. l.allocated) lines) }

    // It is, where the trees of the pool's streams stand there and no unit has metadata of a saved root.
    ensures standing { (objects : Objects) → HoldsObjects (S.tells shelf.old) (S.world shelf.old).now.seen pool.old objects → ((d : ℕ) → is_leaving (state_of_dev pool.old.space.parts.devs d) ≡ false) → HasTrees Had (S.tells shelf.old) (S.world shelf.old).now.seen pool.old → pool.old.saved ≡ None → ((d u : ℕ) → role_at pool.old.space d u ≡ SavedMeta → ⊥) → (s : Stored) → HoldsRead pool.old.table.slots (S.tells shelf.old) (S.world shelf.old).now.seen pool.old.space pool.old.cache s → IfOk result (λ lines. map (λ l. l.walked) lines ≡ map (λ l. l.allocated) lines) }
{
    let met = meet_all(alloc, pool, shelf)?;
    let counted = zr_audit::audit(alloc, &pool.space, met.live.as_slice(), met.meta.as_slice())?;
    Ok(lines_of(alloc, &pool.space, &counted)?)
}
