//! The sum of an object.
ghost use Rattle.std.specs.Prelude.{◌≡◌, ◌++◌, ◌==◌, not, ℕ, List, IfOk};
ghost use Rattle.zr_store.specs.Causes.{Costs, HasCause};
ghost use Rattle.zr_store.specs.Store.{Stored};
ghost use Rattle.zr_bptr.specs.Spelling.{IsObject};
ghost use Rattle.std.specs.List.{list_any};
ghost use Rattle.sha2.specs.Hashers.{Holds256};
ghost use Rattle.zr_lookup.specs.Groups.{IsLawfulGroup};
ghost use Rattle.zr_lookup.specs.Objects.{pointer_now, summed, IsObjectSum};
ghost use Rattle.zr_lookup.specs.Errors.{IsSoundPointer, TellsOfObject};

use crate::leaves::leaves_of;
use crate::reads::leaf_bytes;
use sha2::{Digest, Sha256};
use std::alloc::Global;
use zr_bptr::ObjRec;
use zr_store::{Blocks, StoreErr};
use zr_txg::Group;

// Whether some byte is not 0.
fn has_bytes(bytes: &[u8]) -> bool
    ensures { result ≡ list_any (λ b. not (b == 0)) bytes.now }
{
    bytes.iter().any(|b| *b != 0)
}

// Takes a block into the sum: its index and its bytes, and nothing where all are 0.
fn add_block(digest: &mut Sha256, index: u64, bytes: &[u8])
    ensures { (m : List ℕ) → Holds256 digest.old m → Holds256 digest.new (m ++ summed index bytes.now) }
{
    if has_bytes(bytes) {
        digest.update(&index.to_le_bytes());
        digest.update(bytes);
    }
}

/// The SHA-256 of the blocks of an object that are not all zeros, by rising index: of each its index as 8 bytes, the
/// lowest first, and its bytes. It reads each tree block and each block once, and holds one block at a time.
pub fn sum_object<B: Blocks>(
    alloc: Global,
    store: &mut B,
    group: &Group,
    id: u32,
    rec: &ObjRec,
) -> Result<[u8; 32], StoreErr>
    requires group { IsLawfulGroup group.now }
    requires rec { IsObject rec.now }
    ensures follows { (start : B) → B.follows start store.old → B.follows start store.new }
    ensures costs { Costs 0 0 (B.account store.old) (B.account store.new) }
    ensures cause { HasCause 0 (B.account store.old) (B.account store.new) result }
    ensures same { (s : Stored) → B.holds store.old s → B.holds store.new s }
    ensures errors { (s : Stored) → B.holds store.old s → TellsOfObject s (pointer_now s group.now id rec.now) rec.now (λ _. Unit {0}) result }
    ensures sound { (s : Stored) → B.holds store.old s → IfOk result (λ sum. (index : ℕ) → IsSoundPointer s rec.now.units (pointer_now s group.now id rec.now index)) }
    ensures sum { (s : Stored) → B.holds store.old s → IfOk result (λ sum. IsObjectSum s group.now id rec.now sum) }
{
    let leaves = leaves_of(alloc, store, group, id, rec)?;
    let mut digest = Sha256::new();
    for (index, b) in leaves.iter() {
        let bytes = leaf_bytes(alloc, store, rec.units, b)?;
        add_block(&mut digest, *index, bytes.as_slice());
    }
    Ok(digest.finalize())
}
