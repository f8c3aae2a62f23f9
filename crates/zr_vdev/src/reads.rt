//! Reading a block.
ghost use Rattle.std.specs.Prelude.{◌≡◌, ◌≢◌, ◌*◌, ◌<◌, ◌^◌, ◌⊎◌, ℕ, List, false, length, sum_by, IsErrOf, OnOk, IfOk, IfErr};
ghost use Rattle.std.specs.List.{flat_map, AllByRecursion};
ghost use Rattle.sha2.specs.Sha256.{sha256};
ghost use Rattle.zr_base.specs.Counts.{HasRisen};
ghost use Rattle.zr_base.specs.declared.space.Dva.{Dva};
ghost use Rattle.zr_shelf.specs.Counts.{NoneFell};
ghost use Rattle.zr_shelf.specs.Moments.{IsStill};
ghost use Rattle.zr_rules.specs.Equation.{devices_in};
ghost use Rattle.zr_rules.specs.Resolve.{is_resolved};
ghost use Rattle.zr_store.specs.declared.StoreErr.TheVariants.{NoMemory, Malformed, NoRun, Failed, Unresolved, Damaged};
ghost use Rattle.zr_store.specs.Causes.{HasCause, IsOf};
ghost use Rattle.zr_view.specs.Views.{address_bytes};
ghost use Rattle.zr_view.specs.Runs.{run_bytes, IsOnDisk};
ghost use Rattle.zr_vdev.specs.Mounts.{AreMounted};
ghost use Rattle.zr_vdev.specs.Runs.{AreRunsOf, view_of, account_of};

use crate::runs::resolve;
use std::alloc::Global;
use zr_bptr::{Bptr, sum_of};
use zr_cache::Block;
use zr_chain::ChainErr;
use zr_imap::Piece;
use zr_shelf::{DeskErr, Shelf};
use zr_space::Space;
use zr_store::StoreErr;
use zr_view::read_runs;

// Reads the runs of an address.
pub(crate) fn read_all<S: Shelf>(
    alloc: Global,
    shelf: &mut S,
    slots: &[Option<u32>],
    runs: &[Piece],
    units: u32,
) -> Result<Vec<u8>, StoreErr>
    requires disks { AllByRecursion (IsOnDisk (S.sizes shelf.old) slots.now) runs.now }
    requires small { AllByRecursion (λ (p : Piece). p.at.start < 2 ^ 40) runs.now }
    requires size { sum_by (λ (p : Piece). 4096 * p.at.len) runs.now ≡ 4096 * units }
    ensures sizes { S.sizes shelf.new ≡ S.sizes shelf.old }
    ensures none_fell { NoneFell (S.counts shelf.old) (S.counts shelf.new) }
    ensures failed { IsErrOf result Failed → HasRisen (S.counts shelf.old).disk (S.counts shelf.new).disk }
    ensures errors { IfErr result (λ e. (e ≡ Failed) ⊎ (e ≡ NoMemory)) }
    ensures told { S.tells shelf.old → S.tells shelf.new }
    ensures still { S.tells shelf.old → IsStill (S.world shelf.old) (S.world shelf.new) }
    ensures length { IfOk result (λ bytes. length bytes.items ≡ 4096 * units) }
    ensures bytes { S.tells shelf.old → IfOk result (λ bytes. bytes.items ≡ flat_map (run_bytes (S.world shelf.old).now.seen slots.now) runs.now) }
{
    let mut bytes = vec![in alloc; 0u8; 4096 * units as usize]?;
    match read_runs(shelf, slots, runs, bytes.as_mut_slice()) {
        Ok(()) => Ok(bytes),
        Err(DeskErr::Failed) => Err(StoreErr::Failed),
        Err(DeskErr::NoMemory) => Err(StoreErr::NoMemory),
    }
}

// The runs of a pointer's address.
pub(crate) fn runs_of(alloc: Global, space: &Space, b: &Bptr) -> Result<Vec<Piece>, StoreErr>
    ensures runs { IfOk result (λ runs. AreRunsOf (devices_in space.now) b.now.at runs.items) }
    ensures unresolved { (at : Dva) (expected : List ℕ) → IsErrOf result (Unresolved at expected) → IsOf b.now at expected }
    ensures nowhere { (at : Dva) (expected : List ℕ) → IsErrOf result (Unresolved at expected) → is_resolved (devices_in space.now) at ≡ false }
    ensures errors { IfErr result (λ e. (e ≡ NoMemory) ⊎ ((at : Dva) × (expected : List ℕ) × (e ≡ Unresolved at expected))) }
{
    match resolve(alloc, space, b.at) {
        Ok(runs) => Ok(runs),
        Err(ChainErr::NoEntry { .. }) => Err(StoreErr::Unresolved {
            at: b.at,
            expected: b.sum,
        }),
        Err(ChainErr::NoMemory) => Err(StoreErr::NoMemory),
    }
}

/// The bytes of a block and the runs of units that have them. It makes one call on a disk for each run, and goes over the
/// bytes once more for their sum.
pub fn read_block<S: Shelf>(
    alloc: Global,
    space: &Space,
    shelf: &mut S,
    slots: &[Option<u32>],
    b: &Bptr,
) -> Result<Block, StoreErr>
    requires mounted { AreMounted (S.sizes shelf.old) slots.now (devices_in space.now) }
    ensures sizes { S.sizes shelf.new ≡ S.sizes shelf.old }
    ensures none_fell { NoneFell (S.counts shelf.old) (S.counts shelf.new) }
    ensures told { S.tells shelf.old → S.tells shelf.new }
    ensures still { S.tells shelf.old → IsStill (S.world shelf.old) (S.world shelf.new) }
    ensures cause { HasCause 0 (account_of (S.counts shelf.old).disk space.now) (account_of (S.counts shelf.new).disk space.now) result }
    ensures unresolved { (at : Dva) (expected : List ℕ) → IsErrOf result (Unresolved at expected) → IsOf b.now at expected }
    ensures damaged { (at : Dva) (expected found : List ℕ) → IsErrOf result (Damaged at expected found) → IsOf b.now at expected }
    ensures found { S.tells shelf.old → (at : Dva) (expected found : List ℕ) → IsErrOf result (Damaged at expected found) → found ≡ sha256 (address_bytes (view_of (S.world shelf.old).now.seen slots.now space.now) b.now.at) }
    ensures formed { (at : Dva) (expected : List ℕ) → IsErrOf result (Malformed at expected) → ⊥ }
    ensures nowhere { is_resolved (devices_in space.now) b.now.at ≡ false → IfErr result (λ e. (e ≡ NoMemory) ⊎ (e ≡ Unresolved b.now.at b.now.sum)) }
    ensures runs { IfOk result (λ x. AreRunsOf (devices_in space.now) b.now.at x.runs.items) }
    ensures sum { IfOk result (λ x. sha256 x.bytes.items ≡ b.now.sum) }
    ensures bytes { S.tells shelf.old → IfOk result (λ x. x.bytes.items ≡ address_bytes (view_of (S.world shelf.old).now.seen slots.now space.now) b.now.at) }
{
    let runs = runs_of(alloc, space, b)?;
    let bytes = read_all(alloc, shelf, slots, runs.as_slice(), b.at.len)?;
    let found = sum_of(bytes.as_slice());
    if found != b.sum {
        return Err(StoreErr::Damaged {
            at: b.at,
            expected: b.sum,
            found,
        });
    }
    Ok(Block { bytes, runs })
}
