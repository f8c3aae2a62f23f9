//! Blocks through the cache.
ghost use Rattle.std.specs.Prelude.{◌≡◌, ◌≢◌, ◌+◌, ◌-◌, ◌*◌, ◌/◌, ◌<◌, ◌≤◌, ◌⊎◌, ◌∷◌, [], ℕ, List, true, length, IsErrOf, OnOk, OnErr, IfOk, IfErr, IfSome, Some};
ghost use Rattle.sha2.specs.Sha256.{sha256};
ghost use Rattle.zr_base.specs.Counts.{HasRisen};
ghost use Rattle.zr_base.specs.declared.space.Dva.{Dva};
ghost use Rattle.zr_shelf.specs.Counts.{NoneFell};
ghost use Rattle.zr_shelf.specs.Moments.{IsStill};
ghost use Rattle.zr_shelf.specs.Doings.{WritesOnly};
ghost use Rattle.zr_chain.specs.Visits.{as_part};
ghost use Rattle.zr_rules.specs.Equation.{devices_in};
ghost use Rattle.zr_store.specs.declared.StoreErr.TheVariants.{NoMemory, Malformed, NoRun, Failed, Unresolved, Damaged};
ghost use Rattle.zr_store.specs.Causes.{HasCause, IsOf};
ghost use Rattle.zr_store.specs.Store.{IsPointerTo, IsBlockOf, is_size};
ghost use Rattle.zr_view.specs.Views.{address_bytes};
ghost use Rattle.zr_cache.specs.Entries.{bytes_in, capacity, entries, is_key, is_recent};
ghost use Rattle.std.specs.Map.{remove_entry};
ghost use Rattle.zr_vdev.specs.Mounts.{AreMounted};
ghost use Rattle.zr_rules.specs.Columns.{free_of};
ghost use Rattle.zr_rules.specs.Placement.{HasNoPlacement};
ghost use Rattle.zr_rules.specs.Places.{units_of_dev};
ghost use Rattle.zr_vdev.specs.Stores.{IsInUse};
ghost use Rattle.zr_vdev.specs.Puts.{GivesBack, Takes, MayTake, MayPut, IsWriteOf};
ghost use Rattle.zr_vdev.specs.Runs.{view_of, account_of, AreRunsOf};
ghost use Rattle.zr_vdev.specs.Caches.{AreRead, KeepsBlock};

use crate::kind::{Kind, Mount, Place};
use crate::reads::read_block;
use crate::vdev::give_back;
use crate::writes::{NotPut, write_block};
use std::alloc::Global;
use zr_base::{Dva, Extent};
use zr_bptr::Bptr;
use zr_cache::{Block, Cache};
use zr_imap::Piece;
use zr_shelf::Shelf;
use zr_space::Space;
use zr_store::StoreErr;

/// The bytes of a block. One that is cached makes no call on a disk, and costs a copy; another is cached, and one whose sum is
/// wrong is not.
pub fn get_block<S: Shelf>(
    alloc: Global,
    space: &Space,
    shelf: &mut S,
    cache: &mut Cache,
    slots: &[Option<u32>],
    b: &Bptr,
) -> Result<Vec<u8>, StoreErr>
    requires mounted { AreMounted (S.sizes shelf.old) slots.now (devices_in space.now) }
    ensures sizes { S.sizes shelf.new ≡ S.sizes shelf.old }
    ensures none_fell { NoneFell (S.counts shelf.old) (S.counts shelf.new) }
    ensures told { S.tells shelf.old → S.tells shelf.new }
    ensures still { S.tells shelf.old → IsStill (S.world shelf.old) (S.world shelf.new) }
    ensures cause { HasCause 0 (account_of (S.counts shelf.old).disk space.now) (account_of (S.counts shelf.new).disk space.now) result }
    ensures unresolved { (at : Dva) (expected : List ℕ) → IsErrOf result (Unresolved at expected) → IsOf b.now at expected }
    ensures damaged { (at : Dva) (expected found : List ℕ) → IsErrOf result (Damaged at expected found) → IsOf b.now at expected }
    ensures found { S.tells shelf.old → (at : Dva) (expected found : List ℕ) → IsErrOf result (Damaged at expected found) → found ≡ sha256 (address_bytes (view_of (S.world shelf.old).now.seen slots.now space.now) b.now.at) }
    ensures formed { (at : Dva) (expected : List ℕ) → IsErrOf result (Malformed at expected) → ⊥ }
    ensures sum { IfOk result (λ bytes. sha256 bytes.items ≡ b.now.sum) }
    ensures bytes { S.tells shelf.old → AreRead (S.world shelf.old).now.seen slots.now space.now cache.old → IfOk result (λ bytes. bytes.items ≡ address_bytes (view_of (S.world shelf.old).now.seen slots.now space.now) b.now.at) }
    ensures cache { S.tells shelf.old → AreRead (S.world shelf.old).now.seen slots.now space.now cache.old → AreRead (S.world shelf.new).now.seen slots.now space.now cache.new }
    ensures cached { (bytes : List ℕ) → bytes_in cache.old b.now ≡ Some bytes → shelf.new ≡ shelf.old }
    ensures recent { OnOk result (is_recent cache.new b.now ≡ true) }
    ensures room { capacity cache.new ≡ capacity cache.old }
{
    if let Some(bytes) = cache.get(alloc, b)? {
        return Ok(bytes);
    }
    let Block { bytes, runs } = read_block(alloc, space, shelf, slots, b)?;
    let copy = Vec::from_slice(alloc, bytes.as_slice())?;
    cache.put(b, copy, runs)?;
    Ok(bytes)
}

// The units of an address that stand where it says.
pub(crate) fn run_at(at: &Dva) -> Piece
    ensures { result ≡ as_part at.now }
{
    Piece {
        split: 0,
        dev: at.dev,
        at: Extent {
            start: at.start,
            len: u64::from(at.len),
        },
    }
}

// Caches a new block in place of whatever stood in its units.
fn keep_block(
    alloc: Global,
    cache: &mut Cache,
    b: &Bptr,
    bytes: &[u8],
) -> Result<(), zr_base::NoMemory>
    requires { b.now.sum ≡ sha256 bytes.now }
    ensures kept { KeepsBlock cache.old cache.new b.now bytes.now }
    ensures recent { OnOk result (is_recent cache.new b.now ≡ true) }
    ensures room { capacity cache.new ≡ capacity cache.old }
{
    let run = run_at(&b.at);
    cache.forget_run(&run);
    let copy = Vec::from_slice(alloc, bytes)?;
    let runs = Vec::from_slice(alloc, &[run])?;
    cache.put(b, copy, runs)?;
    Ok(())
}

/// Stores a new block, and caches it. After an error nothing was done, or the units that it names stay taken.
pub fn put_block<S: Shelf, P: Place>(
    alloc: Global,
    space: &mut Space,
    shelf: &mut S,
    cache: &mut Cache,
    mount: &Mount<P>,
    bytes: &[u8],
    level: u8,
) -> Result<Bptr, NotPut>
    requires mounted { AreMounted (S.sizes shelf.old) mount.now.slots.now (devices_in space.old) }
    requires group { 1 ≤ mount.now.txg }
    requires level { level ≤ 5 }
    requires size { is_size (length bytes.now) ≡ true }
    requires one_unit { 0 < level → length bytes.now ≡ 4096 }
    requires block { 0 < level → IsBlockOf (level - 1) bytes.now }
    ensures sizes { S.sizes shelf.new ≡ S.sizes shelf.old }
    ensures none_fell { NoneFell (S.counts shelf.old) (S.counts shelf.new) }
    ensures mounted { AreMounted (S.sizes shelf.new) mount.now.slots.now (devices_in space.new) }
    ensures told { S.tells shelf.old → S.tells shelf.new }
    ensures failed { IfErr result (λ e. e.error ≡ Failed → HasRisen (S.counts shelf.old).disk (S.counts shelf.new).disk) }
    ensures no_run { IfErr result (λ e. (needed longest : ℕ) → e.error ≡ NoRun needed longest → (needed ≡ length bytes.now / 4096) × HasNoPlacement (free_of space.old) (length bytes.now / 4096) longest) }
    ensures errors { IfErr result (λ e. (e.error ≡ Failed) ⊎ ((e.error ≡ NoMemory) ⊎ ((needed longest : ℕ) × (e.error ≡ NoRun needed longest)))) }
    ensures pointer { IfOk result (IsPointerTo level bytes.now) }
    ensures birth { IfOk result (λ b. b.birth ≡ mount.now.txg) }
    ensures taken { IfOk result (λ b. Takes mount.now.kind (P.policy mount.now.pick.now) (length bytes.now / 4096) space.old space.new b.at) }
    ensures within { IfOk result (λ b. b.at.start + b.at.len ≤ units_of_dev space.new.parts.devs b.at.dev) }
    ensures within_taken { IfErr result (λ e. IfSome e.taken (λ at. at.start + at.len ≤ units_of_dev space.new.parts.devs at.dev)) }
    ensures run { IfOk result (λ b. AreRunsOf (devices_in space.new) b.at (as_part b.at ∷ [])) }
    ensures written { S.tells shelf.old → IfOk result (λ b. WritesOnly (IsWriteOf mount.now.slots.now b.at) (S.world shelf.old) (S.world shelf.new)) }
    ensures there { S.tells shelf.old → IfOk result (λ b. address_bytes (view_of (S.world shelf.new).now.seen mount.now.slots.now space.new) b.at ≡ bytes.now) }
    ensures kept { IfErr result (λ e. MayTake mount.now.kind (P.policy mount.now.pick.now) (length bytes.now / 4096) space.old space.new e.taken) }
    ensures err { S.tells shelf.old → IfErr result (λ e. MayPut mount.now.kind (P.policy mount.now.pick.now) (length bytes.now / 4096) mount.now.slots.now space.old space.new (S.world shelf.old) (S.world shelf.new) e.taken) }
    ensures cache { S.tells shelf.old → AreRead (S.world shelf.old).now.seen mount.now.slots.now space.old cache.old → AreRead (S.world shelf.new).now.seen mount.now.slots.now space.new cache.new }
    ensures recent { IfOk result (λ b. is_recent cache.new b ≡ true) }
    ensures room { capacity cache.new ≡ capacity cache.old }
{
    match write_block(alloc, space, shelf, mount, bytes, level) {
        Ok(b) => match keep_block(alloc, cache, &b, bytes) {
            Ok(()) => Ok(b),
            Err(_) => Err(NotPut {
                error: StoreErr::NoMemory,
                taken: Some(b.at),
            }),
        },
        Err(error) => {
            cache.clear();
            Err(error)
        }
    }
}

/// Gives back the address of a block, which is not cached any more: its units may have other bytes from then on. After an
/// error nothing was done.
pub fn free_block(
    space: &mut Space,
    cache: &mut Cache,
    kind: Kind,
    b: &Bptr,
) -> Result<(), zr_base::NoMemory>
    requires { IsInUse kind space.old b.now.at }
    ensures ok { OnOk result (GivesBack kind space.old space.new b.now.at b.now.birth) }
    ensures devices { devices_in space.new ≡ devices_in space.old }
    ensures entries { OnOk result (entries cache.new ≡ remove_entry (is_key b.now) (entries cache.old)) }
    ensures room { capacity cache.new ≡ capacity cache.old }
    ensures err { OnErr result ((space.new ≡ space.old) × (cache.new ≡ cache.old)) }
{
    give_back(space, kind, b.at, b.birth)?;
    cache.forget(b);
    Ok(())
}
