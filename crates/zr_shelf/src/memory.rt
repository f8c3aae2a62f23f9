//! Disks, an input and an output in memory, which remember each call that changed something.
//!
//! What the disks read as, what a crash may leave of them at any moment, and how much of the input is left, are all
//! functions of that record. A call that takes a part of the input needs no memory: a call keeps how many bytes were
//! taken since the one before it.
ghost use Rattle.std.specs.Prelude.{◌≡◌, ◌+◌, ◌-◌, ◌<◌, ◌≤◌, ◌^◌, min, List, ℕ, length, map, OnOk, OnErr, IfOk, slice_index, [], ◌∷◌, ◌++◌, take, drop, IsTrue, MatchOption, ◌↔◌, string_bytes};
ghost use Rattle.zr_shelf.specs.Disks.{disk, part, IsSound, flushed, sent_more};
ghost use Rattle.zr_shelf.specs.Moments.{Steps, IsTaken};
ghost use Rattle.zr_shelf.specs.Memory.{bytes_of, paths_of, sizes_of, after_write, WritesAs, start, world_of, run, IsLawful, lawful_prop, IsAttached, IsFileOf, NoneHasPath, HasPathAt, IsImage, stand_at};
ghost use Rattle.zr_shelf.specs.Choices.{IsChosen, HasOthers};

use crate::images::{add_others, image_after};
use std::alloc::{AllocError, Global};
use zr_base::NoMemory;

/// A file of a desk in memory.
#[derive(Drop)]
pub struct DiskFile {
    pub path: String,
    pub bytes: Vec<u8>,
}

/// A write that was asked for, and whether it was done.
#[derive(Drop)]
pub struct Asked {
    pub slot: u32,
    pub at: u64,
    pub bytes: Vec<u8>,
    pub done: bool,
}

/// What a call changed.
#[derive(Drop)]
pub enum Deed {
    /// A file, and the size in bytes with which it was to be made, were it not there.
    Attached(DiskFile, Option<u64>),
    Wrote(Asked),
    Flushed,
    Sent(Vec<u8>),
}

/// A call that changed something, with its number and the bytes of the input that were taken since the one before.
#[derive(Drop)]
pub struct Call {
    pub moment: u64,
    pub since: usize,
    pub deed: Deed,
}

/// The input, and each call so far that changed something.
#[derive(Drop)]
pub struct History {
    pub input: Vec<u8>,
    pub calls: Vec<Call>,
    /// The bytes of the input that were taken since the last of these calls.
    pub since: usize,
}

/// What the desks in memory share: files, the disks that were attached, the input and what was sent.
#[derive(Drop)]
pub struct Memory {
    alloc: Global,
    pub folder: Vec<DiskFile>,
    pub disks: Vec<DiskFile>,
    pub history: History,
    pub taken: usize,
    pub sent: Vec<u8>,
    pub made: u64,
    ghost few: { length disks.items < 2 ^ 32 },
    ghost in_input: { taken ≤ length history.input.items },
    ghost since_start: { history.since ≤ taken },
    ghost left: { drop taken history.input.items ≡ (world_of history).now.left },
    ghost gave: { sent.items ≡ (world_of history).now.sent },
    ghost seen: { bytes_of disks.items ≡ (world_of history).now.seen },
    ghost paths: { paths_of disks.items ≡ (world_of history).now.paths },
    ghost sound: { IsSound (sizes_of disks.items) (world_of history).now },
    ghost lawful: { IsLawful (start history.input.items) history.calls.items } by { lawful_prop (start history.input.items) history.calls.items },
}

impl Memory {
    /// No disk yet.
    pub(crate) fn new(alloc: Global, input: Vec<u8>, folder: Vec<DiskFile>) -> Memory
        ensures disks { result.disks.items ≡ [] }
        ensures folder { result.folder ≡ folder }
        ensures input { result.history.input ≡ input }
        ensures world { world_of result.history ≡ start input.items }
        ensures made { result.made ≡ 0 }
    {
        Memory {
            alloc,
            folder,
            disks: Vec::new(alloc),
            history: History {
                input,
                calls: Vec::new(alloc),
                since: 0,
            },
            taken: 0,
            sent: Vec::new(alloc),
            made: 0,
        }
    }

    /// Counts a call, and answers its number.
    pub(crate) fn count(&mut self) -> u64
        ensures number { result ≡ self.new.made }
        ensures rises { self.new.made ≡ min (self.old.made + 1) (2 ^ 64 - 1) }
        ensures rest { self.new ≡ record self.old { made = self.new.made } }
    {
        self.made = self.made.saturating_add(1);
        self.made
    }

    /// Adds a file to the folder.
    pub(crate) fn put_disk(&mut self, path: &str, bytes: Vec<u8>) -> Result<(), NoMemory>
        ensures folder { OnOk result ((file : DiskFile) × (string_bytes file.path ≡ path.now) × (file.bytes ≡ bytes) × (self.new.folder.items ≡ self.old.folder.items ++ file ∷ [])) }
        ensures err { OnErr result (self.new.folder.items ≡ self.old.folder.items) }
        ensures rest { self.new ≡ record self.old { folder = self.new.folder } }
    {
        let path = String::from_str(self.alloc, path)?;
        self.folder.push(DiskFile { path, bytes })?;
        Ok(())
    }

    /// The bytes that were sent so far.
    pub(crate) fn sent(&self) -> &[u8]
        ensures { result.now ≡ (world_of self.now.history).now.sent }
    {
        self.sent.as_slice()
    }

    /// One image of a crash at that moment: what each pending write left, in order, by the numbers of the choice. The
    /// disks that were attached by then come first, and then the files that were not.
    pub(crate) fn image_at(&self, moment: u64, choice: &[u8]) -> Result<Vec<DiskFile>, NoMemory>
        ensures image { IfOk result (λ image. IsImage (stand_at self.now.history moment) image.items) }
        ensures chosen { IfOk result (λ image. IsChosen choice.now (stand_at self.now.history moment) image.items) }
        ensures others { IfOk result (λ image. HasOthers (stand_at self.now.history moment) self.now.folder.items image.items) }
    {
        let mut image = image_after(self.alloc, &self.history, moment, choice)?;
        add_others(self.alloc, &mut image, &self.folder)?;
        Ok(image)
    }

    /// How many disks there are.
    pub(crate) fn slots(&self) -> u32
        ensures { result ≡ length (sizes_of self.now.disks.items) }
    {
        self.disks.len() as u32
    }

    /// How many bytes a disk has.
    pub(crate) fn size(&self, slot: u32) -> u64
        requires { slot < length (sizes_of self.now.disks.items) }
        ensures { result ≡ slice_index (sizes_of self.now.disks.items) slot }
    {
        self.disks[slot as usize].bytes.len() as u64
    }

    /// The bytes of a disk from an offset on.
    pub(crate) fn read(&self, slot: u32, at: u64, out: &mut [u8])
        requires exists { slot < length (sizes_of self.now.disks.items) }
        requires fits { at + length out.old ≤ slice_index (sizes_of self.now.disks.items) slot }
        ensures { out.new ≡ part (disk (bytes_of self.now.disks.items) slot) at (length out.old) }
    {
        take_part(&self.disks, slot as usize, at as usize, out);
    }

    /// Writes. Where it is not done, the disks read as before.
    pub(crate) fn write(
        &mut self,
        slot: u32,
        at: u64,
        bytes: &[u8],
        done: bool,
    ) -> Result<(), NoMemory>
        requires exists { slot < length (sizes_of self.old.disks.items) }
        requires fits { at + length bytes.now ≤ slice_index (sizes_of self.old.disks.items) slot }
        ensures ok { OnOk result (Steps (WritesAs (record { slot = slot; at = at; bytes = bytes.now }) done) (world_of self.old.history) (world_of self.new.history)) }
        ensures err { OnErr result (world_of self.new.history ≡ world_of self.old.history) }
        ensures sizes { sizes_of self.new.disks.items ≡ sizes_of self.old.disks.items }
        ensures made { self.new.made ≡ self.old.made }
    {
        let kept = bytes.to_vec(self.alloc)?;
        let asked = Asked {
            slot,
            at,
            bytes: kept,
            done,
        };
        let (moment, since) = (self.made, self.history.since);
        self.history.calls.push(Call {
            moment,
            since,
            deed: Deed::Wrote(asked),
        })?;
        self.history.since = 0;
        if done {
            put(&mut self.disks, slot as usize, at as usize, bytes);
        }
        Ok(())
    }

    /// Whether the folder has a file of that path.
    pub(crate) fn has_file(&self, path: &str) -> bool
        ensures { IsTrue result ↔ (¬ NoneHasPath self.now.folder.items path.now (length self.now.folder.items)) }
    {
        find(&self.folder, path).is_some()
    }

    /// Takes on the folder's file of that path, as it is, or a disk of so many zeros where there is none. Without a size
    /// that disk is empty.
    pub(crate) fn attach(&mut self, path: &str, make: Option<u64>) -> Result<u32, NoMemory>
        ensures slot { IfOk result (λ slot. slot ≡ length self.old.disks.items) }
        ensures sizes { IfOk result (λ slot. (size : ℕ) × (sizes_of self.new.disks.items ≡ sizes_of self.old.disks.items ++ size ∷ [])) }
        ensures ok { OnOk result (Steps (IsAttached self.old.folder.items path.now make) (world_of self.old.history) (world_of self.new.history)) }
        ensures err { OnErr result (world_of self.new.history ≡ world_of self.old.history) }
        ensures err_sizes { OnErr result (self.new.disks.items ≡ self.old.disks.items) }
        ensures folder { self.new.folder ≡ self.old.folder }
        ensures made { self.new.made ≡ self.old.made }
    {
        if self.disks.len() >= u32::MAX as usize {
            return Err(NoMemory);
        }
        let size = make.unwrap_or(0) as usize;
        let bytes = bytes_for(self.alloc, &self.folder, path, size)?;
        let kept = DiskFile {
            path: String::from_str(self.alloc, path)?,
            bytes: bytes.to_vec(self.alloc)?,
        };
        let disk = DiskFile {
            path: String::from_str(self.alloc, path)?,
            bytes,
        };
        self.disks.reserve(1)?;
        let (moment, since) = (self.made, self.history.since);
        self.history.calls.push(Call {
            moment,
            since,
            deed: Deed::Attached(kept, make),
        })?;
        self.history.since = 0;
        let slot = self.disks.len() as u32;
        self.disks.push_reserved(disk);
        Ok(slot)
    }

    /// What is read is durable.
    pub(crate) fn flush(&mut self) -> Result<(), NoMemory>
        ensures ok { OnOk result (Steps (λ old new. new ≡ flushed old) (world_of self.old.history) (world_of self.new.history)) }
        ensures err { OnErr result (world_of self.new.history ≡ world_of self.old.history) }
        ensures disks { self.new.disks ≡ self.old.disks }
        ensures made { self.new.made ≡ self.old.made }
    {
        let (moment, since) = (self.made, self.history.since);
        self.history.calls.push(Call {
            moment,
            since,
            deed: Deed::Flushed,
        })?;
        self.history.since = 0;
        Ok(())
    }

    /// Sends the bytes.
    pub(crate) fn give(&mut self, bytes: &[u8]) -> Result<(), NoMemory>
        ensures ok { OnOk result (Steps (λ old new. new ≡ sent_more old bytes.now) (world_of self.old.history) (world_of self.new.history)) }
        ensures err { OnErr result (world_of self.new.history ≡ world_of self.old.history) }
        ensures disks { self.new.disks ≡ self.old.disks }
        ensures made { self.new.made ≡ self.old.made }
    {
        let kept = bytes.to_vec(self.alloc)?;
        let before = self.sent.len();
        self.sent.extend_from_slice(bytes)?;
        let (moment, since) = (self.made, self.history.since);
        if self
            .history
            .calls
            .push(Call {
                moment,
                since,
                deed: Deed::Sent(kept),
            })
            .is_err()
        {
            self.sent.truncate(before);
            return Err(NoMemory);
        }
        self.history.since = 0;
        Ok(())
    }

    /// Puts what comes next of the input in front of `out`, and answers how many bytes: as many as there is room for,
    /// or as are left.
    pub(crate) fn take(&mut self, out: &mut [u8]) -> usize
        ensures count { result ≡ min (length out.old) (length (world_of self.old.history).now.left) }
        ensures world { IsTaken (take result out.new) (world_of self.old.history) (world_of self.new.history) }
        ensures disks { self.new.disks ≡ self.old.disks }
        ensures made { self.new.made ≡ self.old.made }
    {
        let rest = &self.history.input[self.taken..];
        let count = out.len().min(rest.len());
        out[..count].copy_from_slice(&rest[..count]);
        self.taken += count;
        self.history.since += count;
        count
    }
}

/// The place of the first file of that path.
pub(crate) fn find(folder: &[DiskFile], path: &str) -> Option<usize>
    ensures { MatchOption result (NoneHasPath folder.now path.now (length folder.now)) (λ k. (k < length folder.now) × HasPathAt folder.now path.now k) }
{
    for i in 0..folder.len() {
        if folder[i].path.as_str() == path {
            return Some(i);
        }
    }
    None
}

/// The bytes of the first file of that path, or so many zeros.
fn bytes_for(
    alloc: Global,
    folder: &[DiskFile],
    path: &str,
    size: usize,
) -> Result<Vec<u8>, AllocError>
    ensures { IfOk result (λ v. IsFileOf folder.now path.now size v.items) }
{
    match find(folder, path) {
        Some(i) => folder[i].bytes.to_vec(alloc),
        None => vec![in alloc; 0; size],
    }
}

/// The bytes of a disk from an offset on.
fn take_part(disks: &[DiskFile], slot: usize, at: usize, out: &mut [u8])
    requires exists { slot < length (sizes_of disks.now) }
    requires fits { at + length out.old ≤ slice_index (sizes_of disks.now) slot }
    ensures { out.new ≡ part (disk (bytes_of disks.now) slot) at (length out.old) }
{
    let disk = &disks[slot].bytes;
    out.copy_from_slice(&disk[at..at + out.len()]);
}

/// Puts bytes in place of others.
fn put_part(disk: &mut [u8], at: usize, bytes: &[u8])
    requires { at + length bytes.now ≤ length disk.old }
    ensures { disk.new ≡ take at disk.old ++ bytes.now ++ drop (at + length bytes.now) disk.old }
{
    disk[at..at + bytes.len()].copy_from_slice(bytes);
}

/// Puts bytes into a disk.
pub(crate) fn put(disks: &mut Vec<DiskFile>, slot: usize, at: usize, bytes: &[u8])
    requires exists { slot < length disks.old.items }
    requires fits { at + length bytes.now ≤ length (disk (bytes_of disks.old.items) slot) }
    ensures bytes { bytes_of disks.new.items ≡ after_write (bytes_of disks.old.items) (record { slot = slot; at = at; bytes = bytes.now }) }
    ensures paths { paths_of disks.new.items ≡ paths_of disks.old.items }
{
    let disk = &mut disks[slot].bytes;
    put_part(disk, at, bytes);
}
