//! A desk in memory that fails at the calls that it is told.
ghost use Rattle.std.specs.Prelude.{◌≡◌, ◌++◌, ◌∷◌, [], OnOk, OnErr, IfOk, string_bytes, min, ◌+◌, ◌-◌, ◌^◌};
ghost use Rattle.zr_shelf.specs.Memory.{world_of, start, stand_at, IsImage};
ghost use Rattle.zr_shelf.specs.Choices.{IsChosen, HasOthers};
ghost use Rattle.zr_shelf.specs.Faultless.{HasNoFault};

use crate::desk::{Desk, DeskErr, Shelf};
use crate::memory::{DiskFile, Memory};
use std::alloc::Global;
use zr_base::NoMemory;

/// Files, an input and an output in memory. Calls of `read`, `write`, `flush`, `attach`, `take` and `give` are counted
/// from 1, and those with the numbers that it was given fail.
#[derive(Drop)]
pub struct MemDesk {
    pub memory: Memory,
    pub fails: Vec<u64>,
    pub disk_faults: u64,
    pub attach_faults: u64,
    pub input_faults: u64,
    pub output_faults: u64,
}

impl MemDesk {
    /// A desk with this input and no file. The calls of these numbers fail; they come in any order.
    pub fn new(alloc: Global, input: Vec<u8>, fails: Vec<u64>) -> MemDesk
        ensures world { world_of result.memory.history ≡ start input.items }
        ensures disks { result.memory.disks.items ≡ [] }
        ensures folder { result.memory.folder.items ≡ [] }
        ensures moment { result.memory.made ≡ 0 }
        ensures fails { result.fails ≡ fails }
        ensures faults { HasNoFault result }
    {
        MemDesk::over(Memory::new(alloc, input, Vec::new(alloc)), fails)
    }

    fn over(memory: Memory, fails: Vec<u64>) -> MemDesk
        ensures memory { result.memory ≡ memory }
        ensures fails { result.fails ≡ fails }
        ensures faults { HasNoFault result }
    {
        MemDesk {
            memory,
            fails,
            disk_faults: 0,
            attach_faults: 0,
            input_faults: 0,
            output_faults: 0,
        }
    }

    /// A new desk whose files are an image. Nothing of them is pending, and no call fails.
    pub fn reopen(alloc: Global, image: Vec<DiskFile>, input: Vec<u8>) -> Result<MemDesk, NoMemory>
        ensures world { IfOk result (λ desk. world_of desk.memory.history ≡ start input.items) }
        ensures disks { IfOk result (λ desk. desk.memory.disks.items ≡ []) }
        ensures folder { IfOk result (λ desk. desk.memory.folder ≡ image) }
        ensures fails { IfOk result (λ desk. desk.fails.items ≡ []) }
        ensures faults { IfOk result HasNoFault }
    {
        Ok(MemDesk::over(Memory::new(alloc, input, image), Vec::new(alloc)))
    }

    /// Adds a file that `attach` finds.
    pub fn put_disk(&mut self, path: &str, bytes: Vec<u8>) -> Result<(), NoMemory>
        ensures folder { OnOk result ((file : DiskFile) × (string_bytes file.path ≡ path.now) × (file.bytes ≡ bytes) × (self.new.memory.folder.items ≡ self.old.memory.folder.items ++ file ∷ [])) }
        ensures err { OnErr result (self.new.memory.folder.items ≡ self.old.memory.folder.items) }
        ensures rest { self.new ≡ record self.old { memory = record self.old.memory { folder = self.new.memory.folder } } }
    {
        self.memory.put_disk(path, bytes)
    }

    /// The bytes that were sent so far.
    pub fn sent(&self) -> &[u8]
        ensures { result.now ≡ (world_of self.now.memory.history).now.sent }
    {
        self.memory.sent()
    }

    /// One image of a crash at that moment. The numbers of the choice say of each pending write in order whether it is
    /// old (0), new (1), or new in its first half and old in the rest (2); one that is missing or above 2 counts as 0.
    /// The disks that were attached by then come first, by slot, and then the files that were not.
    pub fn image_at(&self, moment: u64, choice: &[u8]) -> Result<Vec<DiskFile>, NoMemory>
        ensures image { IfOk result (λ image. IsImage (stand_at self.now.memory.history moment) image.items) }
        ensures chosen { IfOk result (λ image. IsChosen choice.now (stand_at self.now.memory.history moment) image.items) }
        ensures others { IfOk result (λ image. HasOthers (stand_at self.now.memory.history moment) self.now.memory.folder.items image.items) }
    {
        self.memory.image_at(moment, choice)
    }

    /// How many calls were made so far.
    pub fn moment(&self) -> u64
        ensures { result ≡ self.now.memory.made }
    {
        self.memory.made
    }

    // Counts a call, and answers whether it is to fail.
    fn is_due(&mut self) -> bool
        ensures { self.new ≡ record self.old { memory = record self.old.memory { made = min (self.old.memory.made + 1) (2 ^ 64 - 1) } } }
    {
        let number = self.memory.count();
        self.fails.contains(&number)
    }
}

impl Shelf for MemDesk {
    ghost use Rattle.zr_shelf.specs.Counts.{Counts};
    ghost use Rattle.zr_shelf.specs.Memory.{sizes_of};

    ghost sizes = { λ d. sizes_of d.memory.disks.items };

    ghost counts = { λ d. record { disk = d.disk_faults; attach = d.attach_faults; input = d.input_faults; output = d.output_faults } };

    ghost tells = { λ d. Unit {0} };

    ghost moment = { λ d. d.memory.made };

    ghost world = { λ d. world_of d.memory.history };

    ghost sound = { λ d told. d.memory.sound };

    fn slots(&self) -> u32 {
        self.memory.slots()
    }

    fn size(&self, slot: u32) -> u64 {
        self.memory.size(slot)
    }

    fn read(&mut self, slot: u32, at: u64, out: &mut [u8]) -> Result<(), DeskErr> {
        if self.is_due() {
            self.disk_faults = self.disk_faults.saturating_add(1);
            return Err(DeskErr::Failed);
        }
        self.memory.read(slot, at, out);
        Ok(())
    }

    fn write(&mut self, slot: u32, at: u64, bytes: &[u8]) -> Result<(), DeskErr> {
        if self.is_due() {
            self.memory.write(slot, at, bytes, false)?;
            self.disk_faults = self.disk_faults.saturating_add(1);
            return Err(DeskErr::Failed);
        }
        Ok(self.memory.write(slot, at, bytes, true)?)
    }

    fn flush(&mut self) -> Result<(), DeskErr> {
        if self.is_due() {
            self.disk_faults = self.disk_faults.saturating_add(1);
            return Err(DeskErr::Failed);
        }
        Ok(self.memory.flush()?)
    }
}

impl Desk for MemDesk {
    ghost use Rattle.std.specs.Prelude.{ℕ, length, IsErrOf};
    ghost use Rattle.zr_base.specs.Counts.{HasRisen};
    ghost use Rattle.zr_shelf.specs.Counts.{NoneFell};
    ghost use Rattle.zr_shelf.specs.Moments.{Attaches};
    ghost use Rattle.zr_shelf.specs.Memory.{IsAttached, sizes_of};
    ghost use Rattle.zr_shelf.specs.declared.desk.DeskErr.TheVariants.{Failed};

    // It also fails where the path has no file and `make` is None.
    fn attach(&mut self, path: &str, make: Option<u64>) -> Result<u32, DeskErr>
        ensures slot { IfOk result (λ slot. slot ≡ length (sizes_of self.old.memory.disks.items)) }
        ensures sizes { IfOk result (λ slot. (size : ℕ) × (sizes_of self.new.memory.disks.items ≡ sizes_of self.old.memory.disks.items ++ size ∷ [])) }
        ensures err { OnErr result (sizes_of self.new.memory.disks.items ≡ sizes_of self.old.memory.disks.items) }
        ensures none_fell { NoneFell (record { disk = self.old.disk_faults; attach = self.old.attach_faults; input = self.old.input_faults; output = self.old.output_faults }) (record { disk = self.new.disk_faults; attach = self.new.attach_faults; input = self.new.input_faults; output = self.new.output_faults }) }
        ensures failed { IsErrOf result Failed → HasRisen self.old.attach_faults self.new.attach_faults }
        ensures told { Unit {0} → Unit {0} }
        ensures moment { Unit {0} → HasRisen self.old.memory.made self.new.memory.made }
        ensures world { Unit {0} → Attaches path.now make result (world_of self.old.memory.history) (world_of self.new.memory.history) }
        // What is attached is the file of that path, as it is, or so many zeros as were asked for where there is none.
        ensures file { OnOk result (IsAttached self.old.memory.folder.items path.now make (world_of self.old.memory.history).now (world_of self.new.memory.history).now) }
        ensures folder { self.new.memory.folder ≡ self.old.memory.folder }
    {
        let due = self.is_due();
        if due || (make.is_none() && !self.memory.has_file(path)) {
            self.attach_faults = self.attach_faults.saturating_add(1);
            return Err(DeskErr::Failed);
        }
        Ok(self.memory.attach(path, make)?)
    }

    fn take(&mut self, out: &mut [u8]) -> Result<usize, DeskErr> {
        if self.is_due() {
            self.input_faults = self.input_faults.saturating_add(1);
            return Err(DeskErr::Failed);
        }
        Ok(self.memory.take(out))
    }

    fn give(&mut self, bytes: &[u8]) -> Result<(), DeskErr> {
        if self.is_due() {
            self.output_faults = self.output_faults.saturating_add(1);
            return Err(DeskErr::Failed);
        }
        Ok(self.memory.give(bytes)?)
    }
}
