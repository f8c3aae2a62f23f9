//! What a change is to make of each block that it touches.
//!
//! A block that is written over whole is not read. A block that would have zeros alone is stored as no block.
ghost use Rattle.std.specs.Prelude.{◌≡◌, ℕ, ◌+◌, ◌-◌, ◌*◌, ◌/◌, ◌^◌, ◌<◌, ◌≤◌, ◌↔◌, IsTrue, length, map, replicate, take, drop, All, IfOk, IfErr, slice_index, true, false, OnOk, ◌++◌};
ghost use Rattle.std.specs.List.{range_with_len};
ghost use Rattle.zr_base.specs.Blocks.{is_block_size};
ghost use Rattle.zr_bptr.specs.declared.Ptr.{Ptr};
ghost use Rattle.zr_bptr.specs.Spelling.{IsObject};
ghost use Rattle.zr_store.specs.declared.StoreErr.TheVariants.{NoMemory};
ghost use Rattle.zr_store.specs.Causes.{Costs, HasCause};
ghost use Rattle.zr_store.specs.Store.{Stored};
ghost use Rattle.zr_tree.specs.Blocks.{FitsAt};
ghost use Rattle.zr_tree.specs.Trees.{own};
ghost use Rattle.zr_objset.specs.Records.{bytes_of};
ghost use Rattle.zr_objset.specs.Errors.{TellsOfLeaves};
ghost use Rattle.zr_lookup.specs.Groups.{IsLawfulGroup};
ghost use Rattle.zr_lookup.specs.Objects.{pointer_now, IsTouched};
ghost use Rattle.zr_lookup.specs.Errors.{IsOtherBlock, IsSoundPointer, TellsOfObject};
ghost use Rattle.zr_change.specs.Edits.{byte_after, IsEdit, HasLength, IsEdited, IsCovered, IsPart, IsInRow, touched};
ghost use Rattle.zr_change.specs.Plans.{IsNew, AreNew, IsPlannedFor, bytes_of_new, puts_of, olds_of};

use crate::ranges::{Bytes, Edit, blocks_touched};
use std::alloc::{AllocError, Global};
use zr_bptr::{Bptr, ObjRec, Ptr};
use zr_lookup::{block_bytes, pointer_of};
use zr_store::{Blocks, StoreErr};
use zr_txg::Group;

/// A block that is changed: its old pointer, and the bytes that it is to have, none where these are zeros alone.
#[derive(Drop)]
pub struct Planned {
    pub index: u64,
    pub old: Ptr,
    pub new: Option<Vec<u8>>,
}

/// Puts bytes into a block in place of those from `from` on.
fn put_given(block: &mut [u8], from: usize, bytes: &[u8])
    requires { from + length bytes.now ≤ length block.old }
    ensures { block.new ≡ take from block.old ++ bytes.now ++ drop (from + length bytes.now) block.old }
{
    block[from..from + bytes.len()].copy_from_slice(bytes);
}

/// Puts one byte into a block in place of each of those.
fn put_filled(block: &mut [u8], from: usize, to: usize, byte: u8)
    requires order { from ≤ to }
    requires within { to ≤ length block.old }
    ensures { block.new ≡ take from block.old ++ replicate (to - from) byte ++ drop to block.old }
{
    block[from..to].fill(byte);
}

/// Puts into a block, whose first byte has the offset `at`, what the edit puts there.
fn put_part(block: &mut [u8], at: u64, edit: &Edit<'_>)
    requires low { at + length block.old < 2 ^ 64 }
    requires fits { edit.now.off + edit.now.len < 2 ^ 64 }
    requires given { HasLength edit.now.len edit.now.bytes }
    ensures len { length block.new ≡ length block.old }
    ensures bytes { (k : ℕ) → k < length block.old → slice_index block.new k ≡ byte_after edit.now (at + k) (slice_index block.old k) }
{
    let from = at.max(edit.off);
    let to = (at + block.len() as u64).min(edit.off + edit.len);
    if from >= to {
        return;
    }
    let (first, last) = ((from - at) as usize, (to - at) as usize);
    match edit.bytes {
        Bytes::Given(bytes) => put_given(
            block,
            first,
            &bytes[(from - edit.off) as usize..(to - edit.off) as usize],
        ),
        Bytes::Filled(byte) => put_filled(block, first, last, byte),
    }
}

/// Whether the edit puts each byte of the block.
fn covers(edit: &Edit<'_>, at: u64, size: u64) -> bool
    requires low { at + size < 2 ^ 64 }
    requires fits { edit.now.off + edit.now.len < 2 ^ 64 }
    ensures { IsTrue result ↔ ((edit.now.off ≤ at) × (at + size ≤ edit.now.off + edit.now.len)) }
{
    edit.off <= at && at + size <= edit.off + edit.len
}

fn zeros(alloc: Global, units: u32) -> Result<Vec<u8>, AllocError>
    requires { units ≤ 32 }
    ensures { IfOk result (λ bytes. bytes.items ≡ replicate (4096 * units) 0) }
{
    vec![in alloc; 0; 4096 * units as usize]
}

/// The bytes that stay around what is put: none are read where all are put.
fn base_of<B: Blocks>(
    alloc: Global,
    store: &mut B,
    rec: &ObjRec,
    old: &Ptr,
    whole: bool,
) -> Result<Vec<u8>, StoreErr>
    requires { IsObject rec.now }
    ensures follows { (start : B) → B.follows start store.old → B.follows start store.new }
    ensures costs { Costs 0 0 (B.account store.old) (B.account store.new) }
    ensures cause { HasCause 0 (B.account store.old) (B.account store.new) result }
    ensures same { (s : Stored) → B.holds store.old s → B.holds store.new s }
    ensures errors { (s : Stored) → B.holds store.old s → TellsOfLeaves s (own old.now) (own old.now) (IsOtherBlock s rec.now.units) result }
    ensures unread { whole ≡ true → IfErr result (λ e. e ≡ NoMemory) }
    ensures size { IfOk result (λ bytes. length bytes.items ≡ 4096 * rec.now.units) }
    ensures bytes { (s : Stored) → B.holds store.old s → whole ≡ false → IfOk result (λ bytes. bytes.items ≡ bytes_of s rec.now.units old.now) }
    ensures sound { (s : Stored) → B.holds store.old s → whole ≡ false → IfOk result (λ bytes. IsSoundPointer s rec.now.units old.now) }
{
    if whole {
        return Ok(zeros(alloc, rec.units)?);
    }
    block_bytes(alloc, store, rec, old)
}

/// The bytes, none where they are zeros alone.
fn stored(bytes: Vec<u8>) -> Option<Vec<u8>>
    ensures new { (units : ℕ) → length bytes.items ≡ 4096 * units → IsNew units result }
    ensures bytes { (units : ℕ) → length bytes.items ≡ 4096 * units → bytes_of_new units result ≡ bytes.items }
{
    if bytes.iter().all(|byte| *byte == 0) {
        return None;
    }
    Some(bytes)
}

/// What a block is to have after the edit.
fn changed_block<B: Blocks>(
    alloc: Global,
    store: &mut B,
    rec: &ObjRec,
    old: &Ptr,
    index: u64,
    edit: &Edit<'_>,
) -> Result<Option<Vec<u8>>, StoreErr>
    requires object { IsObject rec.now }
    requires low { index < 2 ^ 25 }
    requires edit { IsEdit rec.now.units edit.now }
    ensures follows { (start : B) → B.follows start store.old → B.follows start store.new }
    ensures costs { Costs 0 0 (B.account store.old) (B.account store.new) }
    ensures cause { HasCause 0 (B.account store.old) (B.account store.new) result }
    ensures same { (s : Stored) → B.holds store.old s → B.holds store.new s }
    ensures errors { (s : Stored) → B.holds store.old s → TellsOfLeaves s (own old.now) (own old.now) (IsOtherBlock s rec.now.units) result }
    ensures unread { IsCovered rec.now.units edit.now index → IfErr result (λ e. e ≡ NoMemory) }
    ensures new { IfOk result (IsNew rec.now.units) }
    ensures bytes { (s : Stored) → B.holds store.old s → IfOk result (λ new. IsEdited edit.now rec.now.units index (bytes_of s rec.now.units old.now) (bytes_of_new rec.now.units new)) }
    ensures sound { (s : Stored) → B.holds store.old s → ¬ IsCovered rec.now.units edit.now index → IfOk result (λ new. IsSoundPointer s rec.now.units old.now) }
{
    let size = 4096 * u64::from(rec.units);
    let at = size * index;
    let whole = covers(edit, at, size);
    let mut bytes = base_of(alloc, store, rec, old, whole)?;
    put_part(bytes.as_mut_slice(), at, edit);
    Ok(stored(bytes))
}

/// What the edit makes of one block of the object.
fn plan_one<B: Blocks>(
    alloc: Global,
    store: &mut B,
    group: &Group,
    id: u32,
    rec: &ObjRec,
    index: u64,
    edit: &Edit<'_>,
) -> Result<Planned, StoreErr>
    requires group { IsLawfulGroup group.now }
    requires object { IsObject rec.now }
    requires low { index < 2 ^ 25 }
    requires edit { IsEdit rec.now.units edit.now }
    requires touched { IsTouched rec.now.units edit.now.off edit.now.len index }
    ensures follows { (start : B) → B.follows start store.old → B.follows start store.new }
    ensures costs { Costs 0 0 (B.account store.old) (B.account store.new) }
    ensures cause { HasCause 0 (B.account store.old) (B.account store.new) result }
    ensures same { (s : Stored) → B.holds store.old s → B.holds store.new s }
    ensures errors { (s : Stored) → B.holds store.old s → TellsOfObject s (pointer_now s group.now id rec.now) rec.now (IsPart rec.now.units edit.now) result }
    ensures index { IfOk result (λ p. p.index ≡ index) }
    ensures old { IfOk result (λ p. FitsAt 0 p.old) }
    ensures new { IfOk result (λ p. IsNew rec.now.units p.new) }
    ensures plans { (s : Stored) → B.holds store.old s → IfOk result (IsPlannedFor s group.now id rec.now edit.now) }
{
    let old = pointer_of(alloc, store, group, id, rec, index)?;
    let new = changed_block(alloc, store, rec, &old, index, edit)?;
    Ok(Planned { index, old, new })
}

/// What the edit is to make of each block that it touches, by rising index. Nothing is changed yet. A block that it covers
/// is not read, and each other is read once; at most 5 tree blocks are read for each.
pub fn plan<B: Blocks>(
    alloc: Global,
    store: &mut B,
    group: &Group,
    id: u32,
    rec: &ObjRec,
    edit: &Edit<'_>,
) -> Result<Vec<Planned>, StoreErr>
    requires group { IsLawfulGroup group.now }
    requires object { IsObject rec.now }
    requires edit { IsEdit rec.now.units edit.now }
    ensures follows { (start : B) → B.follows start store.old → B.follows start store.new }
    ensures costs { Costs 0 0 (B.account store.old) (B.account store.new) }
    ensures cause { HasCause 0 (B.account store.old) (B.account store.new) result }
    ensures same { (s : Stored) → B.holds store.old s → B.holds store.new s }
    ensures errors { (s : Stored) → B.holds store.old s → TellsOfObject s (pointer_now s group.now id rec.now) rec.now (IsPart rec.now.units edit.now) result }
    ensures indices { IfOk result (λ plan. map (λ p. p.index) plan.items ≡ touched rec.now.units edit.now) }
    ensures row { IfOk result (λ plan. IsInRow (map (λ p. p.index) plan.items)) }
    ensures short { IfOk result (λ plan. length plan.items ≤ 2 ^ 25) }
    ensures olds { IfOk result (λ plan. All (λ p. FitsAt 0 p.old) plan.items) }
    ensures new { IfOk result (λ plan. AreNew rec.now.units plan.items) }
    ensures plans { (s : Stored) → B.holds store.old s → IfOk result (λ plan. All (IsPlannedFor s group.now id rec.now edit.now) plan.items) }
{
    let (first, last) = blocks_touched(rec.units, edit.off, edit.len);
    let mut plan = Vec::new(alloc);
    for index in first..last + 1 {
        let planned = plan_one(alloc, store, group, id, rec, index, edit)?;
        plan.push(planned)?;
    }
    Ok(plan)
}

/// How many blocks are to be put. Linear in the plan.
pub fn puts(plan: &[Planned]) -> u64
    ensures puts { result ≡ puts_of plan.now }
    ensures most { result ≤ length plan.now }
{
    let mut puts = 0;
    for p in plan {
        if p.new.is_some() {
            puts += 1;
        }
    }
    puts
}

/// How many units are to be put, where a block has so many. Linear in the plan.
pub fn new_units(units: u32, plan: &[Planned]) -> u64
    requires units { units ≤ 32 }
    requires short { length plan.now ≤ 2 ^ 25 }
    ensures { result ≡ units * puts_of plan.now }
{
    u64::from(units) * puts(plan)
}

/// Appends the block of a pointer, nothing for a hole.
fn push_block(blocks: &mut Vec<Bptr>, p: &Ptr) -> Result<(), AllocError>
    ensures { OnOk result (blocks.new.items ≡ blocks.old.items ++ own p.now) }
{
    if let Ptr::At(b) = p {
        blocks.push(*b)?;
    }
    Ok(())
}

/// The old blocks, by rising index.
pub fn olds(alloc: Global, plan: &[Planned]) -> Result<Vec<Bptr>, AllocError>
    ensures { IfOk result (λ olds. olds.items ≡ olds_of plan.now) }
{
    let mut olds = Vec::new(alloc);
    for p in plan {
        push_block(&mut olds, &p.old)?;
    }
    Ok(olds)
}
