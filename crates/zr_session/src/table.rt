//! The objects of the open pool, in memory.
ghost use Rattle.std.specs.Prelude.{◌≡◌, ◌≤◌, ◌+◌, ◌<◌, ◌^◌, ℕ, IfOk, OnOk, is_some, length, IsTrue};
ghost use Rattle.std.specs.Option.{option_copied};
ghost use Rattle.std.specs.FinMap as map;
ghost use Rattle.zr_base.specs.Blocks.{is_block_size};
ghost use Rattle.zr_model.specs.State.{PoolState, opened, with_objects};
ghost use Rattle.zr_model.specs.Step.{AnswersOpen};
ghost use Rattle.zr_session.specs.Memory.{IsChanged};
ghost use Rattle.zr_script.specs.declared.command.Command.TheVariants.{Make, Write, Read};

use crate::object::StoredObject;
use std::alloc::Global;
use std::collections::BTreeMap;
use std::marker::Model;
use zr_base::{Blob, NoMemory, Refusal, is_block_size};
use zr_script::Reply;

/// The greatest ID of an object.
const MAX_ID: u64 = 65535;

/// The most bytes of one read.
const MAX_READ: u64 = 4096;

/// Objects by ID.
#[derive(Drop)]
pub struct ObjectTable {
    objects: BTreeMap<u64, StoredObject>,
}

impl Model for ObjectTable {
    ghost use Rattle.std.specs.FinMap as map;
    ghost use Rattle.zr_model.specs.Objects.{Objects, objects_code};

    ghost Value = { Objects };

    ghost coded = { objects_code };

    ghost view = { λ t. map.from_entries t.objects.entries };
}

impl ObjectTable {
    pub fn new(alloc: Global) -> ObjectTable
        ensures { result ≡ map.empty }
    {
        ObjectTable {
            objects: BTreeMap::new(alloc),
        }
    }

    fn get(&self, id: u64) -> Option<&StoredObject>
        ensures { option_copied result ≡ map.get self.now id }
    {
        self.objects.get(&id)
    }

    fn contains(&self, id: u64) -> bool
        ensures { result ≡ is_some (map.get self.now id) }
    {
        self.objects.contains_key(&id)
    }

    fn insert(&mut self, id: u64, object: StoredObject) -> Result<(), NoMemory>
        ensures { OnOk result (self.new ≡ map.insert self.old id object) }
    {
        self.objects.insert(id, object)?;
        Ok(())
    }

    /// Writes into an object, if there is one.
    fn change(&mut self, id: u64, off: u64, bytes: &[u8]) -> Result<(), NoMemory>
        requires { off + length bytes.now < 2 ^ 64 }
        ensures { OnOk result (IsChanged self.old id off bytes.now self.new) }
    {
        if let Some(object) = self.objects.get_mut(&id) {
            object.write(off, bytes)?;
        }
        Ok(())
    }

    /// Makes an object whose blocks have so many units.
    pub fn make(&mut self, alloc: Global, id: u64, units: u64) -> Result<Reply, NoMemory>
        ensures { IfOk result (λ reply. (p : PoolState) → AnswersOpen (with_objects p self.old) (Make id units) reply (opened (with_objects p self.new))) }
    {
        if id > MAX_ID || !is_block_size(units) {
            return Ok(Reply::No(Refusal::OutOfRange));
        }
        if self.contains(id) {
            return Ok(Reply::No(Refusal::ObjectExists));
        }
        self.insert(id, StoredObject::new(alloc, units))?;
        Ok(Reply::Done)
    }

    /// Puts bytes into an object.
    pub fn write(&mut self, id: u64, off: u64, bytes: &[u8]) -> Result<Reply, NoMemory>
        ensures { IfOk result (λ reply. (p : PoolState) → AnswersOpen (with_objects p self.old) (Write id off bytes.now) reply (opened (with_objects p self.new))) }
    {
        let Some(object) = self.get(id) else {
            return Ok(Reply::No(Refusal::NoSuchObject));
        };
        if !object.covers(off, bytes.len() as u64) {
            return Ok(Reply::No(Refusal::OutOfRange));
        }
        self.change(id, off, bytes)?;
        Ok(Reply::Done)
    }

    /// The bytes of a range of an object, at most 4,096 of them.
    pub fn read(&self, alloc: Global, id: u64, off: u64, len: u64) -> Result<Reply, NoMemory>
        ensures { IfOk result (λ reply. (p : PoolState) → AnswersOpen (with_objects p self.now) (Read id off len) reply (opened (with_objects p self.now))) }
    {
        let Some(object) = self.get(id) else {
            return Ok(Reply::No(Refusal::NoSuchObject));
        };
        if len > MAX_READ || !object.covers(off, len) {
            return Ok(Reply::No(Refusal::OutOfRange));
        }
        let bytes = object.read(alloc, off, len)?;
        Ok(Reply::Data(Blob::from_vec(bytes)))
    }
}
