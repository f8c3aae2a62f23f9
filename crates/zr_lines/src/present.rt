//! Objects over any store of blocks.
//!
//! A line looks at its object through one store, from its record to its blocks, so that all that it finds was held at one
//! moment.
ghost use Rattle.std.specs.Prelude.{◌≡◌, ◌+◌, ◌<◌, ◌≤◌, ◌^◌, ℕ, List, All, IfOk, IsErrOf, length, Some, None};
ghost use Rattle.zr_base.specs.Counts.{HasRisen};
ghost use Rattle.zr_base.specs.declared.refusal.Refusal.{Refusal};
ghost use Rattle.zr_base.specs.declared.refusal.Refusal.TheVariants.{Damaged, NoSuchObject, OutOfRange};
ghost use Rattle.zr_base.specs.declared.space.Dva.{Dva};
ghost use Rattle.zr_bptr.specs.Spelling.{IsObject, IsPointer, IsTree};
ghost use Rattle.zr_lookup.specs.Groups.{IsLawfulGroup};
ghost use Rattle.zr_lookup.specs.Objects.{record_now, IsTouched};
ghost use Rattle.zr_store.specs.Store.{Stored};
ghost use Rattle.zr_sync.specs.declared.fault.Fault.TheVariants.{No, Stops};
ghost use Rattle.zr_sync.specs.declared.stop.Stop.TheVariants.{DiskFault};
ghost use Rattle.zr_lines.specs.Answers.{IsReadRefusal, IsSumRefusal};
ghost use Rattle.zr_lines.specs.Damage.{IsDamageOf, IsRecordDamage};
ghost use Rattle.zr_lines.specs.Drops.{AreBlocksOf};
ghost use Rattle.zr_lines.specs.Reads.{AreBytesOf, IsOutside, IsSumOf};

use std::alloc::Global;
use zr_base::Refusal;
use zr_bptr::{Bptr, ObjRec, Tree};
use zr_change::fits_object;
use zr_lookup::{blocks_of, read_range, record_of, sum_object};
use zr_store::Blocks;
use zr_sync::Fault;
use zr_txg::Group;

/// The most bytes that one line reads.
pub const MOST_READ: u64 = 4096;

/// The record of an object that is there.
pub(crate) fn record_present<B: Blocks>(
    alloc: Global,
    store: &mut B,
    dir: &Tree,
    group: &Group,
    id: u64,
) -> Result<ObjRec, Fault>
    requires dir { IsTree dir.now }
    requires low { dir.now.height ≤ 3 }
    requires group { IsLawfulGroup group.now }
    ensures follows { (start : B) → B.follows start store.old → B.follows start store.new }
    ensures fault { IsErrOf result (Stops DiskFault) → HasRisen (B.account store.old).faults (B.account store.new).faults }
    ensures rises { (B.account store.old).faults ≤ (B.account store.new).faults }
    ensures same { (s : Stored) → B.holds store.old s → B.holds store.new s }
    ensures refused { (r : Refusal) → IsErrOf result (No r) → IsSumRefusal r }
    ensures lawful { IfOk result IsObject }
    ensures few { IfOk result (λ r. id < 65536) }
    ensures found { (s : Stored) → B.holds store.old s → IfOk result (λ r. record_now s dir.now group.now id ≡ Some r) }
    ensures none { (s : Stored) → B.holds store.old s → IsErrOf result (No NoSuchObject) → record_now s dir.now group.now id ≡ None }
    ensures damaged { (s : Stored) → B.holds store.old s → (at : Dva) (expected found : List ℕ) → IsErrOf result (No (Damaged at expected found)) → IsRecordDamage s dir.now id at expected found }
{
    match record_of(alloc, store, dir, group, id)? {
        Some(rec) => Ok(rec),
        None => Err(Fault::No(Refusal::NoSuchObject)),
    }
}

/// The bytes of an object that is there, from an offset on.
pub(crate) fn bytes_present<B: Blocks>(
    alloc: Global,
    store: &mut B,
    dir: &Tree,
    group: &Group,
    id: u64,
    off: u64,
    len: u64,
) -> Result<Vec<u8>, Fault>
    requires dir { IsTree dir.now }
    requires low { dir.now.height ≤ 3 }
    requires group { IsLawfulGroup group.now }
    ensures follows { (start : B) → B.follows start store.old → B.follows start store.new }
    ensures same { (s : Stored) → B.holds store.old s → B.holds store.new s }
    ensures fault { IsErrOf result (Stops DiskFault) → HasRisen (B.account store.old).faults (B.account store.new).faults }
    ensures refused { (r : Refusal) → IsErrOf result (No r) → IsReadRefusal r }
    ensures none { (s : Stored) → B.holds store.old s → IsErrOf result (No NoSuchObject) → record_now s dir.now group.now id ≡ None }
    ensures outside { (s : Stored) → B.holds store.old s → IsErrOf result (No OutOfRange) → IsOutside s dir.now group.now id off len }
    ensures damaged { (s : Stored) → B.holds store.old s → (at : Dva) (expected found : List ℕ) → IsErrOf result (No (Damaged at expected found)) → IsDamageOf s dir.now group.now id (λ r. IsTouched r.units off len) at expected found }
    ensures size { IfOk result (λ bytes. length bytes.items ≡ len) }
    ensures short { IfOk result (λ bytes. len ≤ 4096) }
    ensures bytes { (s : Stored) → B.holds store.old s → IfOk result (λ bytes. AreBytesOf s dir.now group.now id off len bytes.items) }
{
    let rec = record_present(alloc, store, dir, group, id)?;
    if len > MOST_READ || !fits_object(rec.units, off, len) {
        return Err(Fault::No(Refusal::OutOfRange));
    }
    Ok(read_range(alloc, store, group, id as u32, &rec, off, len)?)
}

/// The sum of an object that is there.
pub(crate) fn sum_present<B: Blocks>(
    alloc: Global,
    store: &mut B,
    dir: &Tree,
    group: &Group,
    id: u64,
) -> Result<[u8; 32], Fault>
    requires dir { IsTree dir.now }
    requires low { dir.now.height ≤ 3 }
    requires group { IsLawfulGroup group.now }
    ensures follows { (start : B) → B.follows start store.old → B.follows start store.new }
    ensures same { (s : Stored) → B.holds store.old s → B.holds store.new s }
    ensures fault { IsErrOf result (Stops DiskFault) → HasRisen (B.account store.old).faults (B.account store.new).faults }
    ensures refused { (r : Refusal) → IsErrOf result (No r) → IsSumRefusal r }
    ensures none { (s : Stored) → B.holds store.old s → IsErrOf result (No NoSuchObject) → record_now s dir.now group.now id ≡ None }
    ensures damaged { (s : Stored) → B.holds store.old s → (at : Dva) (expected found : List ℕ) → IsErrOf result (No (Damaged at expected found)) → IsDamageOf s dir.now group.now id (λ r index. Unit {0}) at expected found }
    ensures sum { (s : Stored) → B.holds store.old s → IfOk result (λ sum. IsSumOf s dir.now group.now id sum) }
{
    let rec = record_present(alloc, store, dir, group, id)?;
    Ok(sum_object(alloc, store, group, id as u32, &rec)?)
}

/// What a drop of an object that is there gives back: its blocks, and the tree blocks of its record.
pub(crate) fn blocks_present<B: Blocks>(
    alloc: Global,
    store: &mut B,
    dir: &Tree,
    group: &Group,
    id: u64,
) -> Result<Vec<Bptr>, Fault>
    requires dir { IsTree dir.now }
    requires low { dir.now.height ≤ 3 }
    requires group { IsLawfulGroup group.now }
    ensures follows { (start : B) → B.follows start store.old → B.follows start store.new }
    ensures same { (s : Stored) → B.holds store.old s → B.holds store.new s }
    ensures fault { IsErrOf result (Stops DiskFault) → HasRisen (B.account store.old).faults (B.account store.new).faults }
    ensures refused { (r : Refusal) → IsErrOf result (No r) → IsSumRefusal r }
    ensures none { (s : Stored) → B.holds store.old s → IsErrOf result (No NoSuchObject) → record_now s dir.now group.now id ≡ None }
    ensures damaged { (s : Stored) → B.holds store.old s → (at : Dva) (expected found : List ℕ) → IsErrOf result (No (Damaged at expected found)) → IsDamageOf s dir.now group.now id (λ r index. ⊥) at expected found }
    ensures lawful { IfOk result (λ blocks. All IsPointer blocks.items) }
    ensures count { IfOk result (λ blocks. length blocks.items ≤ 2 ^ 25 + 2 ^ 21) }
    ensures blocks { (s : Stored) → B.holds store.old s → IfOk result (λ blocks. AreBlocksOf s dir.now group.now id blocks.items) }
{
    let rec = record_present(alloc, store, dir, group, id)?;
    Ok(blocks_of(alloc, store, group, id as u32, &rec)?)
}
