//! Reading a range of an object's bytes. A range of a command has at most 4,096 bytes, so it lies in two blocks at most.
ghost use Rattle.std.specs.Prelude.{◌≡◌, ◌+◌, ◌*◌, ◌^◌, ◌<◌, ◌≤◌, ℕ, length, take, drop, slice_index, IfOk};
ghost use Rattle.zr_store.specs.Causes.{Costs, HasCause};
ghost use Rattle.zr_store.specs.Store.{Stored};
ghost use Rattle.zr_bptr.specs.Spelling.{IsObject};
ghost use Rattle.zr_lookup.specs.Groups.{IsLawfulGroup};
ghost use Rattle.zr_lookup.specs.Objects.{pointer_now, block_now, byte_now, IsTouched};
ghost use Rattle.zr_lookup.specs.Errors.{IsSoundPointer, TellsOfObject};

use crate::reads::block_at;
use std::alloc::Global;
use zr_bptr::ObjRec;
use zr_store::{Blocks, StoreErr};
use zr_txg::Group;

// So many bytes of a block from a place on.
fn part_of<B: Blocks>(
    alloc: Global,
    store: &mut B,
    group: &Group,
    id: u32,
    rec: &ObjRec,
    index: u64,
    from: u64,
    len: u64,
) -> Result<Vec<u8>, StoreErr>
    requires group { IsLawfulGroup group.now }
    requires rec { IsObject rec.now }
    requires within { from + len ≤ 4096 * rec.now.units }
    ensures follows { (start : B) → B.follows start store.old → B.follows start store.new }
    ensures costs { Costs 0 0 (B.account store.old) (B.account store.new) }
    ensures cause { HasCause 0 (B.account store.old) (B.account store.new) result }
    ensures same { (s : Stored) → B.holds store.old s → B.holds store.new s }
    ensures errors { (s : Stored) → B.holds store.old s → TellsOfObject s (pointer_now s group.now id rec.now) rec.now (λ k. k ≡ index) result }
    ensures size { IfOk result (λ bytes. length bytes.items ≡ len) }
    ensures sound { (s : Stored) → B.holds store.old s → IfOk result (λ bytes. IsSoundPointer s rec.now.units (pointer_now s group.now id rec.now index)) }
    ensures bytes { (s : Stored) → B.holds store.old s → IfOk result (λ bytes. bytes.items ≡ take len (drop from (block_now s group.now id rec.now index))) }
{
    let bytes = block_at(alloc, store, group, id, rec, index)?;
    let from = from as usize;
    let part = Vec::from_slice(alloc, &bytes[from..from + len as usize])?;
    Ok(part)
}

/// The bytes of a range, by rising offset, each block read once. It reads at most two blocks and the tree blocks that
/// lead to them.
pub fn read_range<B: Blocks>(
    alloc: Global,
    store: &mut B,
    group: &Group,
    id: u32,
    rec: &ObjRec,
    off: u64,
    len: u64,
) -> Result<Vec<u8>, StoreErr>
    requires group { IsLawfulGroup group.now }
    requires rec { IsObject rec.now }
    requires some { 1 ≤ len }
    requires short { len ≤ 4096 }
    requires within { off + len ≤ 2 ^ 25 * (4096 * rec.now.units) }
    ensures follows { (start : B) → B.follows start store.old → B.follows start store.new }
    ensures costs { Costs 0 0 (B.account store.old) (B.account store.new) }
    ensures cause { HasCause 0 (B.account store.old) (B.account store.new) result }
    ensures same { (s : Stored) → B.holds store.old s → B.holds store.new s }
    ensures errors { (s : Stored) → B.holds store.old s → TellsOfObject s (pointer_now s group.now id rec.now) rec.now (IsTouched rec.now.units off len) result }
    ensures size { IfOk result (λ bytes. length bytes.items ≡ len) }
    ensures sound { (s : Stored) → B.holds store.old s → IfOk result (λ bytes. (index : ℕ) → IsTouched rec.now.units off len index → IsSoundPointer s rec.now.units (pointer_now s group.now id rec.now index)) }
    ensures bytes { (s : Stored) → B.holds store.old s → IfOk result (λ bytes. (k : ℕ) → k < len → slice_index bytes.items k ≡ byte_now s group.now id rec.now (off + k)) }
{
    let size = 4096 * u64::from(rec.units);
    let index = off / size;
    let from = off % size;
    let first = len.min(size - from);
    let mut bytes = part_of(alloc, store, group, id, rec, index, from, first)?;
    if first == len {
        return Ok(bytes);
    }
    let rest = part_of(alloc, store, group, id, rec, index + 1, 0, len - first)?;
    bytes.extend_from_slice(rest.as_slice())?;
    Ok(bytes)
}
