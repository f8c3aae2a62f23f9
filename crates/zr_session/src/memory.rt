//! The pool whose objects are in memory. Nothing of it is on the devices.
ghost use Rattle.std.specs.Prelude.{◌≡◌, ◌↔◌, ℕ, true, List, length, None, IsTrue, IfOk, IfSome, IfNone, OnOk};
ghost use Rattle.zr_model.specs.State.{State, PoolState, opened, with_objects};
ghost use Rattle.zr_model.specs.Step.{Step, AnswersOpen, IsServed};
ghost use Rattle.zr_script.specs.declared.command.Command.TheVariants.{Create};
ghost use Rattle.zr_session.specs.Memory.{state_in};

use crate::table::ObjectTable;
use std::alloc::Global;
use zr_base::{Blob, Items, NoMemory};
use zr_choose::Chooser;
use zr_command::{Pool, Stop};
use zr_model::Actor;
use zr_script::{Command, Reply};
use zr_shelf::Shelf;

/// A pool that is open: its name, its identity and its objects.
#[derive(Drop)]
pub struct OpenPool {
    name: Blob,
    guid: u64,
    objects: ObjectTable,
}

/// The paths of the words, and the pool once it was made.
#[derive(Drop)]
pub struct MemoryPool {
    paths: Items<Blob>,
    pool: Option<OpenPool>,
}

/// Whether two lists of paths are equal.
fn are_same(left: &[Blob], right: &[Blob]) -> bool
    ensures { IsTrue result ↔ (left.now ≡ right.now) }
{
    match (left.split_first(), right.split_first()) {
        (None, None) => true,
        (Some((first, left)), Some((second, right))) => {
            first.as_slice() == second.as_slice() && are_same(left, right)
        }
        _ => false,
    }
}

impl OpenPool {
    /// Does a command to the objects. None where it is not one to them.
    fn act(&mut self, alloc: Global, command: &Command) -> Result<Option<Reply>, NoMemory>
        ensures done { IfOk result (λ found. IfSome found (λ reply. (p : PoolState) → AnswersOpen (with_objects p self.old.objects) command.now reply (opened (with_objects p self.new.objects)))) }
        ensures none { IfOk result (λ found. IfNone found ((paths : List (List ℕ)) (state : State) → state.is_open ≡ true → IsServed paths state command.now → ⊥)) }
        ensures name { self.new.name ≡ self.old.name }
        ensures guid { self.new.guid ≡ self.old.guid }
    {
        match command {
            Command::Make { id, units } => Ok(Some(self.objects.make(alloc, *id, *units)?)),
            Command::Write { id, off, bytes } => {
                Ok(Some(self.objects.write(*id, *off, bytes.as_slice())?))
            }
            Command::Read { id, off, len } => Ok(Some(self.objects.read(alloc, *id, *off, *len)?)),
            _ => Ok(None),
        }
    }
}

impl MemoryPool {
    /// No pool yet.
    fn new(paths: Items<Blob>) -> MemoryPool
        ensures paths { result.paths ≡ paths }
        ensures pool { result.pool ≡ None }
    {
        MemoryPool { paths, pool: None }
    }

    fn create(
        &mut self,
        alloc: Global,
        name: &Blob,
        guid: u64,
        devs: &Items<Blob>,
    ) -> Result<Option<Reply>, NoMemory>
        ensures done { IfOk result (λ found. IfSome found (λ reply. Step self.old.paths (state_in self.old.paths self.old.pool) (Create name.now guid devs.now) reply (state_in self.new.paths self.new.pool))) }
        ensures none { IfOk result (λ found. IfNone found (IsServed self.old.paths (state_in self.old.paths self.old.pool) (Create name.now guid devs.now) → ⊥)) }
        ensures paths { self.new.paths ≡ self.old.paths }
    {
        if self.pool.is_some() || !are_same(devs.as_slice(), self.paths.as_slice()) {
            return Ok(None);
        }
        let name = Blob::copy_of(alloc, name.as_slice())?;
        self.pool = Some(OpenPool {
            name,
            guid,
            objects: ObjectTable::new(alloc),
        });
        Ok(Some(Reply::Done))
    }

    /// Does a command. None where it may not stand here.
    fn act(&mut self, alloc: Global, command: &Command) -> Result<Option<Reply>, NoMemory>
        ensures done { IfOk result (λ found. IfSome found (λ reply. Step self.old.paths (state_in self.old.paths self.old.pool) command.now reply (state_in self.new.paths self.new.pool))) }
        ensures none { IfOk result (λ found. IfNone found (IsServed self.old.paths (state_in self.old.paths self.old.pool) command.now → ⊥)) }
        ensures paths { self.new.paths ≡ self.old.paths }
    {
        if let Some(pool) = &mut self.pool {
            return pool.act(alloc, command);
        }
        let Command::Create { name, guid, devs } = command else {
            return Ok(None);
        };
        self.create(alloc, name, *guid, devs)
    }
}

impl Pool for MemoryPool {
    ghost use Rattle.std.specs.Prelude.{◌≡◌, length};
    ghost use Rattle.std.proofs.Common.{refl};
    ghost use Rattle.zr_command.specs.Meanings.{plain};
    ghost use Rattle.zr_session.specs.Memory.{state_in};

    ghost paths = { λ p. p.paths };

    ghost meaning = { plain };

    ghost stands = { λ p disks state. state ≡ state_in p.paths p.pool };

    ghost rests = { λ p stand state named is. refl };

    ghost fits = { λ p sizes. length sizes ≡ length p.paths };

    fn closed(_alloc: Global, devs: Items<Blob>) -> Result<MemoryPool, NoMemory> {
        Ok(MemoryPool::new(devs))
    }

    fn command<S: Shelf>(
        &mut self,
        alloc: Global,
        _shelf: &mut S,
        _pick: &Chooser,
        command: &Command,
    ) -> Result<Option<Reply>, Stop> {
        Ok(self.act(alloc, command)?)
    }

    fn has_work(&self, _actor: Actor) -> bool {
        false
    }
}
