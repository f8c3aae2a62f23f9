//! A desk in memory that never fails.
ghost use Rattle.std.specs.Prelude.{◌≡◌, ◌++◌, ◌∷◌, [], OnOk, OnErr, IfOk, string_bytes};
ghost use Rattle.zr_shelf.specs.Memory.{world_of, start, stand_at, IsImage};
ghost use Rattle.zr_shelf.specs.Choices.{IsChosen, HasOthers};

use crate::desk::{Desk, DeskErr, Shelf};
use crate::memory::{DiskFile, Memory};
use std::alloc::Global;
use zr_base::NoMemory;

/// Files, an input and an output in memory, of which no call fails but for want of memory.
#[derive(Drop)]
pub struct SureDesk {
    pub memory: Memory,
}

impl SureDesk {
    /// A desk with this input and no file.
    pub fn new(alloc: Global, input: Vec<u8>) -> SureDesk
        ensures world { world_of result.memory.history ≡ start input.items }
        ensures disks { result.memory.disks.items ≡ [] }
        ensures folder { result.memory.folder.items ≡ [] }
        ensures moment { result.memory.made ≡ 0 }
    {
        SureDesk {
            memory: Memory::new(alloc, input, Vec::new(alloc)),
        }
    }

    /// A new desk whose files are an image. Nothing of them is pending.
    pub fn reopen(alloc: Global, image: Vec<DiskFile>, input: Vec<u8>) -> Result<SureDesk, NoMemory>
        ensures world { IfOk result (λ desk. world_of desk.memory.history ≡ start input.items) }
        ensures disks { IfOk result (λ desk. desk.memory.disks.items ≡ []) }
        ensures folder { IfOk result (λ desk. desk.memory.folder ≡ image) }
    {
        Ok(SureDesk {
            memory: Memory::new(alloc, input, image),
        })
    }

    /// Adds a file that `attach` finds.
    pub fn put_disk(&mut self, path: &str, bytes: Vec<u8>) -> Result<(), NoMemory>
        ensures folder { OnOk result ((file : DiskFile) × (string_bytes file.path ≡ path.now) × (file.bytes ≡ bytes) × (self.new.memory.folder.items ≡ self.old.memory.folder.items ++ file ∷ [])) }
        ensures err { OnErr result (self.new.memory.folder.items ≡ self.old.memory.folder.items) }
        ensures rest { self.new ≡ record self.old { memory = record self.old.memory { folder = self.new.memory.folder } } }
    {
        self.memory.put_disk(path, bytes)
    }

    /// The bytes that were sent so far.
    pub fn sent(&self) -> &[u8]
        ensures { result.now ≡ (world_of self.now.memory.history).now.sent }
    {
        self.memory.sent()
    }

    /// One image of a crash at that moment. The numbers of the choice say of each pending write in order whether it is
    /// old (0), new (1), or new in its first half and old in the rest (2); one that is missing or above 2 counts as 0.
    /// The disks that were attached by then come first, by slot, and then the files that were not.
    pub fn image_at(&self, moment: u64, choice: &[u8]) -> Result<Vec<DiskFile>, NoMemory>
        ensures image { IfOk result (λ image. IsImage (stand_at self.now.memory.history moment) image.items) }
        ensures chosen { IfOk result (λ image. IsChosen choice.now (stand_at self.now.memory.history moment) image.items) }
        ensures others { IfOk result (λ image. HasOthers (stand_at self.now.memory.history moment) self.now.memory.folder.items image.items) }
    {
        self.memory.image_at(moment, choice)
    }

    /// How many calls were made so far.
    pub fn moment(&self) -> u64
        ensures { result ≡ self.now.memory.made }
    {
        self.memory.made
    }
}

impl Shelf for SureDesk {
    ghost use Rattle.zr_shelf.specs.Counts.{Counts};
    ghost use Rattle.zr_shelf.specs.Memory.{sizes_of};

    ghost sizes = { λ d. sizes_of d.memory.disks.items };

    ghost counts = { λ d. record { disk = 0; attach = 0; input = 0; output = 0 } };

    ghost tells = { λ d. Unit {0} };

    ghost moment = { λ d. d.memory.made };

    ghost world = { λ d. world_of d.memory.history };

    ghost sound = { λ d told. d.memory.sound };

    fn slots(&self) -> u32 {
        self.memory.slots()
    }

    fn size(&self, slot: u32) -> u64 {
        self.memory.size(slot)
    }

    fn read(&mut self, slot: u32, at: u64, out: &mut [u8]) -> Result<(), DeskErr> {
        self.memory.count();
        self.memory.read(slot, at, out);
        Ok(())
    }

    fn write(&mut self, slot: u32, at: u64, bytes: &[u8]) -> Result<(), DeskErr> {
        self.memory.count();
        Ok(self.memory.write(slot, at, bytes, true)?)
    }

    fn flush(&mut self) -> Result<(), DeskErr> {
        self.memory.count();
        Ok(self.memory.flush()?)
    }
}

impl Desk for SureDesk {
    ghost use Rattle.std.specs.Prelude.{ℕ, length, IsErrOf};
    ghost use Rattle.zr_base.specs.Counts.{HasRisen};
    ghost use Rattle.zr_shelf.specs.Counts.{NoneFell};
    ghost use Rattle.zr_shelf.specs.Moments.{Attaches};
    ghost use Rattle.zr_shelf.specs.Memory.{IsAttached, sizes_of};
    ghost use Rattle.zr_shelf.specs.declared.desk.DeskErr.TheVariants.{Failed};

    // It makes an empty disk where the path has no file and `make` is None.
    fn attach(&mut self, path: &str, make: Option<u64>) -> Result<u32, DeskErr>
        ensures slot { IfOk result (λ slot. slot ≡ length (sizes_of self.old.memory.disks.items)) }
        ensures sizes { IfOk result (λ slot. (size : ℕ) × (sizes_of self.new.memory.disks.items ≡ sizes_of self.old.memory.disks.items ++ size ∷ [])) }
        ensures err { OnErr result (sizes_of self.new.memory.disks.items ≡ sizes_of self.old.memory.disks.items) }
        ensures none_fell { NoneFell (record { disk = 0; attach = 0; input = 0; output = 0 }) (record { disk = 0; attach = 0; input = 0; output = 0 }) }
        ensures failed { IsErrOf result Failed → HasRisen 0 0 }
        ensures told { Unit {0} → Unit {0} }
        ensures moment { Unit {0} → HasRisen self.old.memory.made self.new.memory.made }
        ensures world { Unit {0} → Attaches path.now make result (world_of self.old.memory.history) (world_of self.new.memory.history) }
        // What is attached is the file of that path, as it is, or so many zeros as were asked for where there is none.
        ensures file { OnOk result (IsAttached self.old.memory.folder.items path.now make (world_of self.old.memory.history).now (world_of self.new.memory.history).now) }
        ensures folder { self.new.memory.folder ≡ self.old.memory.folder }
    {
        self.memory.count();
        Ok(self.memory.attach(path, make)?)
    }

    fn take(&mut self, out: &mut [u8]) -> Result<usize, DeskErr> {
        self.memory.count();
        Ok(self.memory.take(out))
    }

    fn give(&mut self, bytes: &[u8]) -> Result<(), DeskErr> {
        self.memory.count();
        Ok(self.memory.give(bytes)?)
    }
}
