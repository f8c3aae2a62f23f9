//! Stores of blocks, and what a call does to what they hold.
//!
//! What a store holds is a list of pointers and a function from pointers to bytes. What a call did is one equation: the
//! pointers before, without those that left and with those that came. It is said for every weight of pointers, so that a
//! layer above may count whatever it counts: blocks, units on a device, leaves.
//!
//! A store over a device has no list of its pointers: it knows units. So holding is a relation between a store and a
//! list, and each call leads from what was held before it to something that is held after it.
#![tactic(auto)]

ghost use Rattle.std.specs.Prelude.{◌≡◌, ◌+◌, ◌*◌, ◌-◌, ◌/◌, ◌<◌, ◌≤◌, ◌⊎◌, List, [], ◌∷◌, ℕ, length, OnErr, OnOk, IsErrOf, IfOk, IfErr, true, MatchResult};
ghost use Rattle.zr_base.specs.declared.space.Dva.{Dva};
ghost use Rattle.zr_bptr.specs.declared.Bptr.{Bptr};
ghost use Rattle.zr_bptr.specs.declared.Ptr.{Ptr};
ghost use Rattle.zr_bptr.specs.Spelling.{SpellsTreeBlock};
ghost use Rattle.zr_store.specs.declared.StoreErr.TheVariants.{NoMemory, Malformed, NoRun, Failed, Unresolved, Damaged};
ghost use Rattle.zr_store.specs.Store.{Stored, Swaps, Puts, Now, AreStored, IsPointerTo, IsOnce, IsBlockOf, hits, is_size};
ghost use Rattle.zr_store.specs.Causes.{Account, Costs, Spends, HasCause, IsNoRun, IsOf};
ghost use Rattle.zr_base.specs.Counts.{HasRisen};
ghost use Rattle.sha2.specs.Sha256.{sha256};

use std::alloc::{AllocError, AllocFailed, Global};
use zr_base::Dva;
use zr_bptr::Bptr;

mod mem_blocks;
mod memory;

pub use memory::{Kept, MemBlocks};

/// Why a call of a store was not done.
#[derive(Clone, Copy, Debug, PartialEq, Eq)]
pub enum StoreErr {
    /// In units: no device in service has `needed` free units in a row within one metaslab.
    NoRun {
        needed: u64,
        longest: u64,
    },
    /// What was read at the address has another SHA-256 than its pointer says.
    Damaged {
        at: Dva,
        expected: [u8; 32],
        found: [u8; 32],
    },
    /// The address goes past its device, or does not resolve.
    Unresolved {
        at: Dva,
        expected: [u8; 32],
    },
    /// The block has its sum, and is no spelling of what should stand there.
    Malformed {
        at: Dva,
        expected: [u8; 32],
    },
    /// A call on a device failed.
    Failed,
    /// Memory ran out.
    NoMemory,
}

impl From<AllocError> for StoreErr {
    ghost from_gives = { λ _ e. e ≡ NoMemory };

    fn from(_: AllocError) -> Self {
        StoreErr::NoMemory
    }
}

impl<T: Drop> From<AllocFailed<T>> for StoreErr {
    ghost from_gives = { λ _ e. e ≡ NoMemory };

    fn from(_: AllocFailed<T>) -> Self {
        StoreErr::NoMemory
    }
}

impl From<zr_base::NoMemory> for StoreErr {
    ghost from_gives = { λ _ e. e ≡ NoMemory };

    fn from(_: zr_base::NoMemory) -> Self {
        StoreErr::NoMemory
    }
}

/// A store of blocks. A clause that names what is held says nothing of a store that does not tell; the account and the
/// errors' causes hold everywhere.
pub trait Blocks {
    /// What it reckons with.
    ghost account: { Self → Account };

    /// Whether it holds just these blocks. A store that does not tell holds nothing that can be named.
    ghost holds: { Self → Stored → Type 0 };

    /// What calls do to it besides, one after another: which writes they make, and what they leave alone. A clause says
    /// it of all that was done since some start, so that calls in a row add up by themselves.
    ghost follows: { Self → Self → Type 0 };

    /// What puts do to it besides that were all done, one after another: they give nothing back.
    ghost adds: { Self → Self → Type 0 };

    /// Stores a block, and answers its pointer. A level above 0 takes the bytes of one tree block of pointers of the
    /// level below. After an error what is held is as before, unless memory ran out: then units may stay taken.
    fn put(&mut self, alloc: Global, bytes: &[u8], level: u8) -> Result<Bptr, StoreErr>
        requires level { level ≤ 5 }
        requires size { is_size (length bytes.now) ≡ true }
        requires one_unit { 0 < level → length bytes.now ≡ 4096 }
        requires block { 0 < level → IsBlockOf (level - 1) bytes.now }
        ensures follows { (start : Self) → follows start self.old → follows start self.new }
        ensures adds { (start : Self) → adds start self.old → OnOk result (adds start self.new) }
        ensures costs { Spends (length bytes.now / 4096) 1 0 (account self.old) (account self.new) }
        ensures failed { IsErrOf result Failed → HasRisen (account self.old).faults (account self.new).faults }
        ensures no_run { (needed longest : ℕ) → IsErrOf result (NoRun needed longest) → IsNoRun (length bytes.now / 4096) (account self.old) needed longest }
        ensures errors { IfErr result (λ e. (e ≡ Failed) ⊎ ((e ≡ NoMemory) ⊎ ((needed longest : ℕ) × (e ≡ NoRun needed longest)))) }
        ensures pointer { IfOk result (IsPointerTo level bytes.now) }
        ensures ok { (s : Stored) → holds self.old s → IfOk result (λ b. Now (holds self.new) (Puts s b bytes.now)) }
        ensures err { (s : Stored) → holds self.old s → IfErr result (λ e. (e ≡ NoMemory) ⊎ holds self.new s) };

    /// The bytes of a block. Nothing that is held changes, also where the answer is an error.
    fn get(&mut self, alloc: Global, b: &Bptr) -> Result<Vec<u8>, StoreErr>
        ensures follows { (start : Self) → follows start self.old → follows start self.new }
        ensures costs { Costs 0 0 (account self.old) (account self.new) }
        ensures cause { HasCause 0 (account self.old) (account self.new) result }
        ensures unresolved { (at : Dva) (expected : List ℕ) → IsErrOf result (Unresolved at expected) → IsOf b.now at expected }
        ensures damaged { (at : Dva) (expected found : List ℕ) → IsErrOf result (Damaged at expected found) → IsOf b.now at expected }
        ensures found { (s : Stored) → holds self.old s → (at : Dva) (expected found : List ℕ) → IsErrOf result (Damaged at expected found) → found ≡ sha256 (s.bytes b.now) }
        ensures formed { (at : Dva) (expected : List ℕ) → IsErrOf result (Malformed at expected) → ⊥ }
        ensures sum { IfOk result (λ bytes. sha256 bytes.items ≡ b.now.sum) }
        ensures bytes { (s : Stored) → holds self.old s → IfOk result (λ bytes. bytes.items ≡ s.bytes b.now) }
        ensures same { (s : Stored) → holds self.old s → holds self.new s };

    /// Gives back a block that is stored.
    fn free(&mut self, alloc: Global, b: &Bptr) -> Result<(), StoreErr>
        ensures follows { (start : Self) → follows start self.old → follows start self.new }
        ensures costs { Costs 0 1 (account self.old) (account self.new) }
        ensures memory { IfErr result (λ e. e ≡ NoMemory) }
        ensures ok { (s : Stored) → holds self.old s → AreStored (b.now ∷ []) s → OnOk result (Now (holds self.new) (λ n. Swaps s n (b.now ∷ []) [])) }
        ensures err { (s : Stored) → holds self.old s → OnErr result (holds self.new s) };

    /// No address is stored twice.
    ghost once: { (store : Self) (s : Stored) → holds store s → IsOnce s };

    /// An address at which a block is stored leads to units.
    ghost resolved: { (store : Self) (s : Stored) → holds store s → (at : Dva) → 0 < hits s.pointers at → (account store).resolves at ≡ true };
}
