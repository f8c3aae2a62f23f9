//! Writing a new block.
ghost use Rattle.std.specs.Prelude.{◌≡◌, ◌+◌, ◌-◌, ◌*◌, ◌/◌, ◌<◌, ◌≤◌, ◌^◌, ◌⊎◌, ◌∷◌, [], ℕ, List, true, length, IsErrOf, OnOk, OnErr, IfOk, IfErr, IfSome, IsTrue};
ghost use Rattle.zr_base.specs.Blocks.{is_block_size};
ghost use Rattle.zr_base.specs.Counts.{HasRisen};
ghost use Rattle.zr_base.specs.declared.space.Dva.{Dva};
ghost use Rattle.zr_bptr.specs.declared.Ptr.{Ptr};
ghost use Rattle.zr_bptr.specs.Spelling.{SpellsTreeBlock};
ghost use Rattle.zr_shelf.specs.Counts.{NoneFell};
ghost use Rattle.zr_shelf.specs.Doings.{WritesOnly};
ghost use Rattle.zr_chain.specs.Visits.{as_part};
ghost use Rattle.zr_rules.specs.Columns.{free_of};
ghost use Rattle.zr_rules.specs.Equation.{devices_in};
ghost use Rattle.zr_rules.specs.Places.{units_of_dev};
ghost use Rattle.zr_rules.specs.Placement.{HasNoPlacement};
ghost use Rattle.zr_store.specs.declared.StoreErr.TheVariants.{NoMemory, NoRun, Failed};
ghost use Rattle.zr_store.specs.Store.{IsPointerTo, IsBlockOf, is_size};
ghost use Rattle.zr_view.specs.Views.{address_bytes};
ghost use Rattle.zr_view.specs.Runs.{run_bytes, HasDisk};
ghost use Rattle.zr_vdev.specs.Mounts.{AreMounted};
ghost use Rattle.zr_vdev.specs.Runs.{view_of, AreRunsOf};
ghost use Rattle.zr_vdev.specs.Puts.{Takes, MayTake, MayPut, IsWriteOf};
ghost use Rattle.zr_vdev.specs.Fails.{not_put};

use crate::kind::{Kind, Mount, Place};
use std::alloc::Global;
use zr_base::{Dva, Extent};
use zr_bptr::{Bptr, leaves_in, sum_of};
use zr_imap::Piece;
use zr_shelf::{DeskErr, Shelf};
use zr_space::{Space, SpaceErr};
use zr_store::StoreErr;
use zr_view::write_run;

/// Why a block was not put, and the units that it took all the same.
#[derive(Clone, Copy, Debug, PartialEq, Eq)]
pub struct NotPut {
    pub error: StoreErr,
    pub taken: Option<Dva>,
}

impl From<zr_base::NoMemory> for NotPut {
    ghost from_gives = { λ _ e. e ≡ not_put NoMemory };

    fn from(_: zr_base::NoMemory) -> Self {
        not_put(StoreErr::NoMemory)
    }
}

// No units were taken.
fn not_put(error: StoreErr) -> NotPut
    ensures { result ≡ not_put error }
{
    NotPut { error, taken: None }
}

// The units of a block.
fn units_of(size: usize) -> u32
    requires { is_size size ≡ true }
    ensures length { IsTrue (is_block_size result) }
    ensures units { 4096 * result ≡ size }
    ensures some { 0 < result }
    ensures small { result ≤ 32 }
{
    (size / 4096) as u32
}

// Takes units of the kind.
fn take_units<P: Place>(space: &mut Space, mount: &Mount<P>, want: u64) -> Result<Dva, StoreErr>
    requires some { 0 < want }
    requires few { want ≤ 256 }
    ensures ok { IfOk result (Takes mount.now.kind (P.policy mount.now.pick.now) want space.old space.new) }
    ensures within { IfOk result (λ at. at.start + at.len ≤ units_of_dev space.new.parts.devs at.dev) }
    ensures no_run { (needed longest : ℕ) → IsErrOf result (NoRun needed longest) → (needed ≡ want) × HasNoPlacement (free_of space.old) want longest }
    ensures errors { IfErr result (λ e. (e ≡ NoMemory) ⊎ ((needed longest : ℕ) × (e ≡ NoRun needed longest))) }
    ensures err { OnErr result (space.new ≡ space.old) }
{
    let taken = match mount.kind {
        Kind::Block => mount.pick.take(space, want),
        Kind::Meta => mount.pick.take_meta(space, want),
    };
    match taken {
        Ok(at) => Ok(at),
        Err(SpaceErr::NoRun { needed, longest }) => Err(StoreErr::NoRun { needed, longest }),
        Err(SpaceErr::NoMemory) => Err(StoreErr::NoMemory),
    }
}

// The leaves of a block: one of a leaf.
fn leaves_of_bytes(alloc: Global, bytes: &[u8], level: u8) -> Result<u64, zr_base::NoMemory>
    requires size { 0 < level → length bytes.now ≡ 4096 }
    ensures leaf { level ≡ 0 → IfOk result (λ leaves. leaves ≡ 1) }
    ensures leaves { IfOk result (λ leaves. (fill : ℕ) (pointers : List Ptr) → 0 < level → SpellsTreeBlock bytes.now (level - 1) fill pointers → leaves ≡ fill) }
{
    if level == 0 {
        return Ok(1);
    }
    leaves_in(alloc, level - 1, bytes)
}

// Writes the bytes of an address that lies on one device.
pub(crate) fn write_at<S: Shelf>(
    shelf: &mut S,
    slots: &[Option<u32>],
    at: &Dva,
    bytes: &[u8],
) -> Result<(), StoreErr>
    requires disk { HasDisk (S.sizes shelf.old) slots.now at.now.dev (at.now.start + at.now.len) }
    requires small { at.now.start < 2 ^ 40 }
    requires size { length bytes.now ≡ 4096 * at.now.len }
    ensures sizes { S.sizes shelf.new ≡ S.sizes shelf.old }
    ensures none_fell { NoneFell (S.counts shelf.old) (S.counts shelf.new) }
    ensures failed { IsErrOf result Failed → HasRisen (S.counts shelf.old).disk (S.counts shelf.new).disk }
    ensures errors { IfErr result (λ e. (e ≡ Failed) ⊎ (e ≡ NoMemory)) }
    ensures told { S.tells shelf.old → S.tells shelf.new }
    ensures writes { S.tells shelf.old → WritesOnly (IsWriteOf slots.now at.now) (S.world shelf.old) (S.world shelf.new) }
    ensures there { S.tells shelf.old → OnOk result (run_bytes (S.world shelf.new).now.seen slots.now (as_part at.now) ≡ bytes.now) }
{
    let run = Piece {
        split: 0,
        dev: at.dev,
        at: Extent {
            start: at.start,
            len: u64::from(at.len),
        },
    };
    match write_run(shelf, slots, &run, bytes) {
        Ok(()) => Ok(()),
        Err(DeskErr::Failed) => Err(StoreErr::Failed),
        Err(DeskErr::NoMemory) => Err(StoreErr::NoMemory),
    }
}

/// Stores a new block: it takes units, and writes them in one call. After an error nothing was done, or the units that
/// it names stay taken. A level above 0 takes the bytes of one tree block.
pub fn write_block<S: Shelf, P: Place>(
    alloc: Global,
    space: &mut Space,
    shelf: &mut S,
    mount: &Mount<P>,
    bytes: &[u8],
    level: u8,
) -> Result<Bptr, NotPut>
    requires mounted { AreMounted (S.sizes shelf.old) mount.now.slots.now (devices_in space.old) }
    requires group { 1 ≤ mount.now.txg }
    requires level { level ≤ 5 }
    requires size { is_size (length bytes.now) ≡ true }
    requires one_unit { 0 < level → length bytes.now ≡ 4096 }
    requires block { 0 < level → IsBlockOf (level - 1) bytes.now }
    ensures sizes { S.sizes shelf.new ≡ S.sizes shelf.old }
    ensures none_fell { NoneFell (S.counts shelf.old) (S.counts shelf.new) }
    ensures mounted { AreMounted (S.sizes shelf.new) mount.now.slots.now (devices_in space.new) }
    ensures told { S.tells shelf.old → S.tells shelf.new }
    ensures failed { IfErr result (λ e. e.error ≡ Failed → HasRisen (S.counts shelf.old).disk (S.counts shelf.new).disk) }
    ensures no_run { IfErr result (λ e. (needed longest : ℕ) → e.error ≡ NoRun needed longest → (needed ≡ length bytes.now / 4096) × HasNoPlacement (free_of space.old) (length bytes.now / 4096) longest) }
    ensures no_run_same { IfErr result (λ e. (needed longest : ℕ) → e.error ≡ NoRun needed longest → space.new ≡ space.old) }
    ensures errors { IfErr result (λ e. (e.error ≡ Failed) ⊎ ((e.error ≡ NoMemory) ⊎ ((needed longest : ℕ) × (e.error ≡ NoRun needed longest)))) }
    ensures pointer { IfOk result (IsPointerTo level bytes.now) }
    ensures birth { IfOk result (λ b. b.birth ≡ mount.now.txg) }
    ensures taken { IfOk result (λ b. Takes mount.now.kind (P.policy mount.now.pick.now) (length bytes.now / 4096) space.old space.new b.at) }
    ensures within { IfOk result (λ b. b.at.start + b.at.len ≤ units_of_dev space.new.parts.devs b.at.dev) }
    ensures within_taken { IfErr result (λ e. IfSome e.taken (λ at. at.start + at.len ≤ units_of_dev space.new.parts.devs at.dev)) }
    ensures run { IfOk result (λ b. AreRunsOf (devices_in space.new) b.at (as_part b.at ∷ [])) }
    ensures written { S.tells shelf.old → IfOk result (λ b. WritesOnly (IsWriteOf mount.now.slots.now b.at) (S.world shelf.old) (S.world shelf.new)) }
    ensures there { S.tells shelf.old → IfOk result (λ b. address_bytes (view_of (S.world shelf.new).now.seen mount.now.slots.now space.new) b.at ≡ bytes.now) }
    ensures kept { IfErr result (λ e. MayTake mount.now.kind (P.policy mount.now.pick.now) (length bytes.now / 4096) space.old space.new e.taken) }
    ensures err { S.tells shelf.old → IfErr result (λ e. MayPut mount.now.kind (P.policy mount.now.pick.now) (length bytes.now / 4096) mount.now.slots.now space.old space.new (S.world shelf.old) (S.world shelf.new) e.taken) }
{
    let birth = mount.txg;
    let units = units_of(bytes.len());
    let fill = leaves_of_bytes(alloc, bytes, level)?;
    let at = match take_units(space, mount, u64::from(units)) {
        Ok(at) => at,
        Err(error) => return Err(not_put(error)),
    };
    match write_at(shelf, mount.slots, &at, bytes) {
        Ok(()) => Ok(Bptr {
            at,
            level,
            birth,
            fill,
            sum: sum_of(bytes),
        }),
        Err(error) => Err(NotPut {
            error,
            taken: Some(at),
        }),
    }
}
