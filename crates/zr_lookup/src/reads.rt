//! Look-ups: the record of an object, the pointer to a block, and a block's bytes.
//!
//! What the group has changed is found in it without a read.
ghost use Rattle.std.specs.Prelude.{◌≡◌, ◌*◌, ◌/◌, ◌<◌, ◌≤◌, ◌∷◌, [], ℕ, length, replicate, IfOk, IfSome, Option, Some};
ghost use Rattle.zr_bptr.specs.declared.ObjRec.{ObjRec};
ghost use Rattle.zr_txg.specs.Changes.{object_in};
ghost use Rattle.zr_store.specs.Causes.{Costs, HasCause};
ghost use Rattle.zr_store.specs.Store.{Stored};
ghost use Rattle.zr_bptr.specs.Spelling.{IsTree, IsObject};
ghost use Rattle.zr_tree.specs.Blocks.{FitsAt};
ghost use Rattle.zr_tree.specs.Trees.{own, tree_at, tree_reach, tree_blocks, TellsOf};
ghost use Rattle.zr_objset.specs.Records.{bytes_of};
ghost use Rattle.zr_objset.specs.Errors.{IsNoLeaf, TellsOfLeaves};
ghost use Rattle.zr_lookup.specs.Groups.{IsLawfulGroup};
ghost use Rattle.zr_lookup.specs.Objects.{record_now, pointer_now, block_now};
ghost use Rattle.zr_lookup.specs.Errors.{IsOtherBlock, IsSoundBlock, IsSoundPointer, TellsOfObject};

use std::alloc::{AllocError, Global};
use zr_bptr::{Bptr, ObjRec, Ptr, Tree};
use zr_objset::look;
use zr_store::{Blocks, StoreErr};
use zr_tree::get;
use zr_txg::Group;

/// The record of an object, None where there is no such object; an ID above 65,535 has none. It reads at most 4 blocks,
/// and none where the group has changed the object.
pub fn record_of<B: Blocks>(
    alloc: Global,
    store: &mut B,
    dir: &Tree,
    group: &Group,
    id: u64,
) -> Result<Option<ObjRec>, StoreErr>
    requires dir { IsTree dir.now }
    requires low { dir.now.height ≤ 3 }
    requires group { IsLawfulGroup group.now }
    ensures follows { (start : B) → B.follows start store.old → B.follows start store.new }
    ensures costs { Costs 0 0 (B.account store.old) (B.account store.new) }
    ensures cause { HasCause 0 (B.account store.old) (B.account store.new) result }
    ensures same { (s : Stored) → B.holds store.old s → B.holds store.new s }
    ensures errors { (s : Stored) → B.holds store.old s → TellsOfLeaves s (tree_reach s dir.now) (own (tree_at s dir.now (id / 16))) (IsNoLeaf s) result }
    ensures lawful { IfOk result (λ r. IfSome r IsObject) }
    ensures few { IfOk result (λ found. IfSome found (λ r. id < 65536)) }
    ensures changed { (r : Option ObjRec) → id < 65536 → object_in group.now id ≡ Some r → IfOk result (λ found. found ≡ r) }
    ensures record { (s : Stored) → B.holds store.old s → IfOk result (λ r. r ≡ record_now s dir.now group.now id) }
{
    if id > 65535 {
        return Ok(None);
    }
    let id = id as u32;
    match group.object(id) {
        Some(object) => Ok(object),
        None => look(alloc, store, dir, id),
    }
}

/// The pointer to an object's block. It reads at most 5 blocks, and none where the group has changed the block.
pub fn pointer_of<B: Blocks>(
    alloc: Global,
    store: &mut B,
    group: &Group,
    id: u32,
    rec: &ObjRec,
    index: u64,
) -> Result<Ptr, StoreErr>
    requires group { IsLawfulGroup group.now }
    requires rec { IsObject rec.now }
    ensures follows { (start : B) → B.follows start store.old → B.follows start store.new }
    ensures costs { Costs 0 0 (B.account store.old) (B.account store.new) }
    ensures cause { HasCause 0 (B.account store.old) (B.account store.new) result }
    ensures same { (s : Stored) → B.holds store.old s → B.holds store.new s }
    ensures errors { (s : Stored) → B.holds store.old s → TellsOf s (tree_blocks s rec.now.tree) result }
    ensures fits { IfOk result (FitsAt 0) }
    ensures pointer { (s : Stored) → B.holds store.old s → IfOk result (λ p. p ≡ pointer_now s group.now id rec.now index) }
{
    match group.find(id, index) {
        Some(p) => Ok(p),
        None => get(alloc, store, &rec.tree, index),
    }
}

fn zeros(alloc: Global, units: u32) -> Result<Vec<u8>, AllocError>
    requires { units ≤ 32 }
    ensures bytes { IfOk result (λ bytes. bytes.items ≡ replicate (4096 * units) 0) }
    ensures size { IfOk result (λ bytes. length bytes.items ≡ 4096 * units) }
{
    vec![in alloc; 0; 4096 * units as usize]
}

/// The bytes of a block of so many units.
pub(crate) fn leaf_bytes<B: Blocks>(
    alloc: Global,
    store: &mut B,
    units: u32,
    b: &Bptr,
) -> Result<Vec<u8>, StoreErr>
    requires { units ≤ 32 }
    ensures follows { (start : B) → B.follows start store.old → B.follows start store.new }
    ensures costs { Costs 0 0 (B.account store.old) (B.account store.new) }
    ensures cause { HasCause 0 (B.account store.old) (B.account store.new) result }
    ensures same { (s : Stored) → B.holds store.old s → B.holds store.new s }
    ensures errors { (s : Stored) → B.holds store.old s → TellsOfLeaves s (b.now ∷ []) (b.now ∷ []) (IsOtherBlock s units) result }
    ensures size { IfOk result (λ bytes. length bytes.items ≡ 4096 * units) }
    ensures sound { (s : Stored) → B.holds store.old s → IfOk result (λ bytes. IsSoundBlock s units b.now) }
    ensures bytes { (s : Stored) → B.holds store.old s → IfOk result (λ bytes. bytes.items ≡ s.bytes b.now) }
{
    let bad = StoreErr::Malformed {
        at: b.at,
        expected: b.sum,
    };
    if b.at.len != units {
        return Err(bad);
    }
    let bytes = store.get(alloc, b)?;
    if bytes.len() != 4096 * units as usize {
        return Err(bad);
    }
    Ok(bytes)
}

/// The bytes of a block of an object by its pointer: zeros for a hole. A leaf of another length than the object's blocks
/// is malformed. It reads at most that block.
pub fn block_bytes<B: Blocks>(
    alloc: Global,
    store: &mut B,
    rec: &ObjRec,
    p: &Ptr,
) -> Result<Vec<u8>, StoreErr>
    requires { IsObject rec.now }
    ensures follows { (start : B) → B.follows start store.old → B.follows start store.new }
    ensures costs { Costs 0 0 (B.account store.old) (B.account store.new) }
    ensures cause { HasCause 0 (B.account store.old) (B.account store.new) result }
    ensures same { (s : Stored) → B.holds store.old s → B.holds store.new s }
    ensures errors { (s : Stored) → B.holds store.old s → TellsOfLeaves s (own p.now) (own p.now) (IsOtherBlock s rec.now.units) result }
    ensures size { IfOk result (λ bytes. length bytes.items ≡ 4096 * rec.now.units) }
    ensures sound { (s : Stored) → B.holds store.old s → IfOk result (λ bytes. IsSoundPointer s rec.now.units p.now) }
    ensures bytes { (s : Stored) → B.holds store.old s → IfOk result (λ bytes. bytes.items ≡ bytes_of s rec.now.units p.now) }
{
    match p {
        Ptr::Hole => Ok(zeros(alloc, rec.units)?),
        Ptr::At(b) => leaf_bytes(alloc, store, rec.units, b),
    }
}

/// The bytes of an object's block. It reads at most 6 blocks.
pub fn block_at<B: Blocks>(
    alloc: Global,
    store: &mut B,
    group: &Group,
    id: u32,
    rec: &ObjRec,
    index: u64,
) -> Result<Vec<u8>, StoreErr>
    requires group { IsLawfulGroup group.now }
    requires rec { IsObject rec.now }
    ensures follows { (start : B) → B.follows start store.old → B.follows start store.new }
    ensures costs { Costs 0 0 (B.account store.old) (B.account store.new) }
    ensures cause { HasCause 0 (B.account store.old) (B.account store.new) result }
    ensures same { (s : Stored) → B.holds store.old s → B.holds store.new s }
    ensures errors { (s : Stored) → B.holds store.old s → TellsOfObject s (pointer_now s group.now id rec.now) rec.now (λ k. k ≡ index) result }
    ensures size { IfOk result (λ bytes. length bytes.items ≡ 4096 * rec.now.units) }
    ensures sound { (s : Stored) → B.holds store.old s → IfOk result (λ bytes. IsSoundPointer s rec.now.units (pointer_now s group.now id rec.now index)) }
    ensures bytes { (s : Stored) → B.holds store.old s → IfOk result (λ bytes. bytes.items ≡ block_now s group.now id rec.now index) }
{
    let p = pointer_of(alloc, store, group, id, rec, index)?;
    block_bytes(alloc, store, rec, &p)
}
