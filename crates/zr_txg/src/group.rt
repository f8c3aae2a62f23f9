//! The changes of a group.
ghost use Rattle.std.specs.Prelude.{◌≡◌, ℕ, ◌+◌, ◌<◌, ◌≤◌, ◌↔◌, ◌==◌, ◌&&◌, [], length, is_some, not, if◌then◌else◌, slice_index_or, IsTrue, IsOk, IfOk, OnOk, OnErr, Some, None};
ghost use Rattle.std.specs.List.{AllByRecursion};
ghost use Rattle.zr_txg.specs.Tables.{IsRising, value_at, count_below, put_value};
ghost use Rattle.zr_txg.specs.Changes.{IsGroup, ObjectChange, IsChange, IsRecorded, object_in, changes_in, change_in, block_count, blocks_of, with_block, with_record};

use crate::changed::{Changed, place_of_block, place_of_object};
use std::alloc::Global;
use std::marker::Model;
use zr_base::NoMemory;
use zr_bptr::{ObjRec, Ptr};

/// The most changed blocks of a group, and the most changed objects.
pub const GROUP_LIMIT: u64 = 64;

/// The changes of one group.
#[derive(Drop)]
pub struct Group {
    alloc: Global,
    txg: u64,
    objects: Vec<(u32, Changed)>,
    blocks: u64,
}

impl Model for Group {
    ghost use Rattle.zr_txg.specs.Changes.{Changes, IsGroup};

    ghost Value = { Changes };

    ghost view = { λ g. record { txg = g.txg; objects = g.objects.items } };

    ghost invariant = { λ g. IsGroup g.objects.items g.blocks };
}

impl Group {
    /// The group of this number, with no changes. It takes no memory.
    pub fn new(alloc: Global, txg: u64) -> Group
        ensures txg { result.txg ≡ txg }
        ensures empty { result.objects ≡ [] }
    {
        Group {
            alloc,
            txg,
            objects: Vec::new(alloc),
            blocks: 0,
        }
    }

    /// The group's number.
    pub fn txg(&self) -> u64
        ensures { result ≡ self.now.txg }
    {
        self.txg
    }

    /// Whether so many more changed blocks and objects keep the group within 64 of each. What the group has changed
    /// already counts once, so a caller counts the new ones alone. Constant, and it takes no memory.
    pub fn fits(&self, blocks: u64, objects: u64) -> bool
        ensures { IsTrue result ↔ (block_count self.now.objects + blocks ≤ 64) × (length self.now.objects + objects ≤ 64) }
    {
        let changed = self.objects();
        self.blocks <= GROUP_LIMIT
            && blocks <= GROUP_LIMIT - self.blocks
            && changed <= GROUP_LIMIT
            && objects <= GROUP_LIMIT - changed
    }

    /// Puts the last change of a block of an object that is recorded and not dropped. A group of 2^64 - 1 blocks takes
    /// no more, as if memory ran out. Logarithmic in the objects and blocks, and the move of the object's blocks above it
    /// where the block had no change. After an error nothing is changed.
    pub fn change(&mut self, id: u32, index: u64, p: Ptr) -> Result<(), NoMemory>
        requires { IsRecorded self.old id }
        ensures blocks { OnOk result ((i k : ℕ) → change_in self.new i k ≡ (if id == i && index == k then Some p else change_in self.old i k)) }
        ensures objects { OnOk result ((i : ℕ) → object_in self.new i ≡ object_in self.old i) }
        ensures block_count { OnOk result (block_count self.new.objects ≡ block_count self.old.objects + (if is_some (change_in self.old id index) then 0 else 1)) }
        ensures object_count { OnOk result (length self.new.objects ≡ length self.old.objects) }
        ensures txg { self.new.txg ≡ self.old.txg }
        ensures err { OnErr result (self.new ≡ self.old) }
    {
        if self.blocks == u64::MAX {
            return Err(NoMemory);
        }
        let added = change_object(&mut self.objects, id, index, p)?;
        self.blocks += u64::from(added);
        Ok(())
    }

    /// Puts the last record of an object, None where it is dropped; then the changes of its blocks are gone. Logarithmic
    /// in the objects, and the move of those above it where the object had no change. It takes no memory where the
    /// object is changed already. After an error nothing is changed.
    pub fn record_object(&mut self, id: u32, r: Option<ObjRec>) -> Result<(), NoMemory>
        ensures blocks { OnOk result ((i k : ℕ) → change_in self.new i k ≡ (if id == i && not (is_some r) then None else change_in self.old i k)) }
        ensures objects { OnOk result ((i : ℕ) → object_in self.new i ≡ (if id == i then Some r else object_in self.old i)) }
        ensures block_count { OnOk result (block_count self.new.objects + (if is_some r then 0 else length (changes_in self.old id)) ≡ block_count self.old.objects) }
        ensures object_count { OnOk result (length self.new.objects ≡ length self.old.objects + (if is_some (object_in self.old id) then 0 else 1)) }
        ensures txg { self.new.txg ≡ self.old.txg }
        ensures known { IsTrue (is_some (object_in self.old id)) → IsOk result }
        ensures err { OnErr result (self.new ≡ self.old) }
    {
        let taken = set_object(self.alloc, &mut self.objects, id, r)?;
        self.blocks -= taken;
        Ok(())
    }

    /// The last change of a block, None exactly where the group has not changed it. Logarithmic in the objects and
    /// blocks. It takes no memory.
    pub fn find(&self, id: u32, index: u64) -> Option<Ptr>
        ensures { result ≡ change_in self.now id index }
    {
        let blocks = self.changes(id);
        match place_of_block(blocks, index) {
            Ok(i) => Some(blocks[i].1),
            Err(_) => None,
        }
    }

    /// The last record of an object, `Some(None)` where it was dropped, and None exactly where the group has not changed
    /// it. Logarithmic in the objects.
    pub fn object(&self, id: u32) -> Option<Option<ObjRec>>
        ensures { result ≡ object_in self.now id }
    {
        match place_of_object(self.objects.as_slice(), id) {
            Ok(i) => Some(self.objects[i].1.object()),
            Err(_) => None,
        }
    }

    /// How many blocks are changed. It is kept, not counted.
    pub fn blocks(&self) -> u64
        ensures { result ≡ block_count self.now.objects }
    {
        self.blocks
    }

    /// How many objects are changed, dropped ones among them. Constant.
    pub fn objects(&self) -> u64
        ensures count { result ≡ length self.now.objects }
        ensures rising { IsRising self.now.objects }
    {
        self.objects.len() as u64
    }

    /// The changed IDs rise, and so do the changed blocks of each object, of which a dropped one has none. It does nothing but
    /// to say so to a proof.
    pub fn is_in_order(&self)
        ensures { IsGroup self.now.objects (block_count self.now.objects) }
    {
        let _ = &self.objects;
    }

    /// The changed ID that has `i` lower ones, where `i` is below `objects()`. Constant.
    pub fn id_at(&self, i: u64) -> u32
        requires { i < length self.now.objects }
        ensures changed { IsTrue (is_some (object_in self.now result)) }
        ensures lower { count_below self.now.objects result ≡ i }
        ensures entry { (e : ℕ × ObjectChange) → (slice_index_or self.now.objects i e).0 ≡ result }
    {
        self.objects[i as usize].0
    }

    /// The changed blocks of an object by rising index, none where there are none. Logarithmic in the objects.
    pub fn changes(&self, id: u32) -> &[(u64, Ptr)]
        ensures changes { result.now ≡ changes_in self.now id }
        ensures rising { IsRising result.now }
        ensures recorded { 0 < length result.now → IsRecorded self.now id }
    {
        match place_of_object(self.objects.as_slice(), id) {
            Ok(i) => self.objects[i].1.blocks(),
            Err(_) => &[],
        }
    }

    /// Takes out all changes, and keeps the number. Linear in the objects.
    pub fn clear(&mut self)
        ensures txg { self.new.txg ≡ self.old.txg }
        ensures empty { self.new.objects ≡ [] }
    {
        self.objects.clear();
        self.blocks = 0;
    }
}

/// Puts the change of a block of a changed object, and tells whether the block had none.
fn change_object(
    objects: &mut Vec<(u32, Changed)>,
    id: u32,
    index: u64,
    p: Ptr,
) -> Result<bool, NoMemory>
    requires rising { IsRising objects.old.items }
    requires each { AllByRecursion (λ e. IsChange e.1) objects.old.items }
    requires changed { IsTrue (is_some (value_at objects.old.items id)) }
    ensures put { OnOk result ((c : ObjectChange) → value_at objects.old.items id ≡ Some c → objects.new.items ≡ put_value objects.old.items id (with_block c index p)) }
    ensures added { IfOk result (λ added. (c : ObjectChange) → value_at objects.old.items id ≡ Some c → added ≡ not (is_some (value_at c.blocks index))) }
    ensures err { OnErr result (objects.new.items ≡ objects.old.items) }
{
    match place_of_object(objects.as_slice(), id) {
        Ok(i) => {
            let added = objects[i].1.put(index, p)?;
            Ok(added)
        }
        Err(_) => unreachable!(),
    }
}

/// Puts the record of an object, and tells how many changed blocks came out.
fn set_object(
    alloc: Global,
    objects: &mut Vec<(u32, Changed)>,
    id: u32,
    r: Option<ObjRec>,
) -> Result<u64, NoMemory>
    requires rising { IsRising objects.old.items }
    ensures put { OnOk result (objects.new.items ≡ put_value objects.old.items id (with_record (value_at objects.old.items id) r)) }
    ensures taken { IfOk result (λ taken. taken ≡ (if is_some r then 0 else length (blocks_of (value_at objects.old.items id)))) }
    ensures known { IsTrue (is_some (value_at objects.old.items id)) → IsOk result }
    ensures err { OnErr result (objects.new.items ≡ objects.old.items) }
{
    match place_of_object(objects.as_slice(), id) {
        Ok(i) => Ok(objects[i].1.set_object(r)),
        Err(i) => {
            objects.insert(i, (id, Changed::new(alloc, r)))?;
            Ok(0)
        }
    }
}
