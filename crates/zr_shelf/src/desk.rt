//! The traits of the outside, with all that their callers may rely on.
//!
//! Each call says which of its own faults it counted, how the shelf stands after it, and that nothing else changed. A
//! call that takes `&mut self` makes one moment more. Contracts above never name a moment's number: they speak of every
//! stand between two points of a run (specs/Moments).
ghost use Rattle.std.specs.Prelude.{◌≡◌, ◌+◌, ◌++◌, ◌∷◌, [], ◌<◌, ◌≤◌, List, ℕ, length, map, IfOk, OnOk, OnErr, slice_index, IsErrOf};
ghost use Rattle.zr_shelf.specs.declared.desk.DeskErr.TheVariants.{Failed, NoMemory};
ghost use Rattle.zr_shelf.specs.Disks.{disk, part, IsSound};
ghost use Rattle.zr_base.specs.Counts.{HasRisen};
ghost use Rattle.zr_shelf.specs.Counts.{Counts, NoneFell};
ghost use Rattle.zr_shelf.specs.Moments.{World, IsStill, Writes, Flushes, Attaches, Takes, Gives};

use std::alloc::{AllocError, AllocFailed};

/// Why a call of a desk was not done.
#[derive(Clone, Copy, Debug, PartialEq, Eq)]
pub enum DeskErr {
    /// The device, the input or the output failed, and the count of its faults rose.
    Failed,
    /// Memory ran out. Nothing has changed but the moment.
    NoMemory,
}

impl From<AllocError> for DeskErr {
    ghost from_gives = { λ _ e. e ≡ NoMemory };

    fn from(_error: AllocError) -> DeskErr {
        DeskErr::NoMemory
    }
}

impl<T: Drop> From<AllocFailed<T>> for DeskErr {
    ghost from_gives = { λ _ e. e ≡ NoMemory };

    fn from(_failed: AllocFailed<T>) -> DeskErr {
        DeskErr::NoMemory
    }
}

impl From<zr_base::NoMemory> for DeskErr {
    ghost from_gives = { λ _ e. e ≡ NoMemory };

    fn from(_error: zr_base::NoMemory) -> DeskErr {
        DeskErr::NoMemory
    }
}

/// Disks, which are named by slot: 0, 1 and so on in the order in which they were attached. Places and lengths are in
/// bytes.
pub trait Shelf {
    /// How large each disk is. It never changes.
    ghost sizes: { Self → List ℕ };

    /// How often a call of each kind has failed. Counts are always told.
    ghost counts: { Self → Counts };

    /// Holds where what stands on the disks is told, as in memory.
    ghost tells: { Self → Type 0 };

    /// How many calls were made, where it is told.
    ghost moment: { Self → ℕ };

    /// How the shelf stood at each moment, where it is told.
    ghost world: { Self → World };

    /// What is read is of the sizes that are told, and a crash may leave it.
    ghost sound: { (s : Self) → tells s → IsSound (sizes s) (world s).now };

    /// How many slots there are.
    fn slots(&self) -> u32
        ensures { result ≡ length (sizes self.now) };

    /// How many bytes a disk has.
    fn size(&self, slot: u32) -> u64
        requires { slot < length (sizes self.now) }
        ensures { result ≡ slice_index (sizes self.now) slot };

    /// Reads `out.len()` bytes from `at` on. After an `Err` `out` has any bytes.
    fn read(&mut self, slot: u32, at: u64, out: &mut [u8]) -> Result<(), DeskErr>
        requires exists { slot < length (sizes self.old) }
        requires fits { at + length out.old ≤ slice_index (sizes self.old) slot }
        ensures sizes { sizes self.new ≡ sizes self.old }
        ensures none_fell { NoneFell (counts self.old) (counts self.new) }
        ensures failed { IsErrOf result Failed → HasRisen (counts self.old).disk (counts self.new).disk }
        ensures memory { IsErrOf result NoMemory → ⊥ }
        ensures told { tells self.old → tells self.new }
        ensures moment { tells self.old → HasRisen (moment self.old) (moment self.new) }
        ensures bytes { tells self.old → OnOk result (out.new ≡ part (disk (world self.old).now.seen slot) at (length out.old)) }
        ensures world { tells self.old → IsStill (world self.old) (world self.new) };

    /// Writes the bytes at `at`. Until a flush that succeeds, a crash may leave any bytes in this range, also where the
    /// write failed.
    fn write(&mut self, slot: u32, at: u64, bytes: &[u8]) -> Result<(), DeskErr>
        requires exists { slot < length (sizes self.old) }
        requires fits { at + length bytes.now ≤ slice_index (sizes self.old) slot }
        ensures sizes { sizes self.new ≡ sizes self.old }
        ensures none_fell { NoneFell (counts self.old) (counts self.new) }
        ensures failed { IsErrOf result Failed → HasRisen (counts self.old).disk (counts self.new).disk }
        ensures told { tells self.old → tells self.new }
        ensures moment { tells self.old → HasRisen (moment self.old) (moment self.new) }
        ensures world { tells self.old → Writes (record { slot = slot; at = at; bytes = bytes.now }) result (world self.old) (world self.new) };

    /// Makes all that was written last: after it, a crash leaves what a read returns. One that fails promises nothing
    /// new.
    fn flush(&mut self) -> Result<(), DeskErr>
        ensures sizes { sizes self.new ≡ sizes self.old }
        ensures none_fell { NoneFell (counts self.old) (counts self.new) }
        ensures failed { IsErrOf result Failed → HasRisen (counts self.old).disk (counts self.new).disk }
        ensures told { tells self.old → tells self.new }
        ensures moment { tells self.old → HasRisen (moment self.old) (moment self.new) }
        ensures world { tells self.old → Flushes result (world self.old) (world self.new) };
}

/// A shelf that takes disks on, reads an input and sends an output.
pub trait Desk: Shelf {
    /// Opens a device file, and answers its slot. Where there is no file and `make` has a size in bytes, it makes one
    /// of so many zeros; one that is there is taken as it is.
    fn attach(&mut self, path: &str, make: Option<u64>) -> Result<u32, DeskErr>
        ensures slot { IfOk result (λ slot. slot ≡ length (Self.sizes self.old)) }
        ensures sizes { IfOk result (λ slot. (size : ℕ) × (Self.sizes self.new ≡ Self.sizes self.old ++ size ∷ [])) }
        ensures err { OnErr result (Self.sizes self.new ≡ Self.sizes self.old) }
        ensures none_fell { NoneFell (Self.counts self.old) (Self.counts self.new) }
        ensures failed { IsErrOf result Failed → HasRisen (Self.counts self.old).attach (Self.counts self.new).attach }
        ensures told { Self.tells self.old → Self.tells self.new }
        ensures moment { Self.tells self.old → HasRisen (Self.moment self.old) (Self.moment self.new) }
        ensures world { Self.tells self.old → Attaches path.now make result (Self.world self.old) (Self.world self.new) };

    /// Puts bytes of the input in front of `out`, and answers how many. None at its end alone, unless `out` is empty.
    fn take(&mut self, out: &mut [u8]) -> Result<usize, DeskErr>
        ensures count { IfOk result (λ n. n ≤ length out.old) }
        ensures end { Self.tells self.old → IfOk result (λ n. n ≡ 0 → 0 < length out.old → (Self.world self.old).now.left ≡ []) }
        ensures sizes { Self.sizes self.new ≡ Self.sizes self.old }
        ensures none_fell { NoneFell (Self.counts self.old) (Self.counts self.new) }
        ensures failed { IsErrOf result Failed → HasRisen (Self.counts self.old).input (Self.counts self.new).input }
        ensures memory { IsErrOf result NoMemory → ⊥ }
        ensures told { Self.tells self.old → Self.tells self.new }
        ensures moment { Self.tells self.old → HasRisen (Self.moment self.old) (Self.moment self.new) }
        ensures world { Self.tells self.old → Takes out.new result (Self.world self.old) (Self.world self.new) };

    /// Sends all the bytes. A fault may leave a front of them sent.
    fn give(&mut self, bytes: &[u8]) -> Result<(), DeskErr>
        ensures sizes { Self.sizes self.new ≡ Self.sizes self.old }
        ensures none_fell { NoneFell (Self.counts self.old) (Self.counts self.new) }
        ensures failed { IsErrOf result Failed → HasRisen (Self.counts self.old).output (Self.counts self.new).output }
        ensures told { Self.tells self.old → Self.tells self.new }
        ensures moment { Self.tells self.old → HasRisen (Self.moment self.old) (Self.moment self.new) }
        ensures world { Self.tells self.old → Gives bytes.now result (Self.world self.old) (Self.world self.new) };
}
