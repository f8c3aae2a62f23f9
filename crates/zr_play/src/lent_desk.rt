//! A desk over files that are lent to it, for runs that are made again and again.
//!
//! It keeps what each write replaced, so that the files can be given back as they were, and which places were read. One call
//! can be told to fail. A write that failed is not read back, but may have come: it is put into the files at the end, unless
//! a flush followed it. Or all reads can be told to give zeros from some reply on.
//!
//! As a desk over the files of a system does, it tells no content. So what is shown with it is shown by trying.
ghost use Rattle.std.specs.Prelude.{◌≡◌, [], ◌<◌, ◌≤◌, ◌^◌, length};

use crate::patch::{Patch, number_of};
use std::alloc::{AllocError, Global};
use zr_shelf::{Desk, DeskErr, DiskFile, Shelf};

/// A place that was read, in bytes of a file that is given by its number, and how many replies were sent by then.
#[derive(Clone, Copy)]
pub struct Reading {
    pub file: usize,
    pub at: u64,
    pub len: u64,
    pub replies: usize,
}

/// What goes wrong with a desk.
#[derive(Clone, Copy, Debug, PartialEq, Eq)]
pub enum Trouble {
    None,
    /// The call of that number fails, counted from 1.
    Fails(u64),
    /// Each read gives zeros once that many replies were sent.
    Zeros(usize),
}

/// Files that are lent, an input and the replies.
#[derive(Drop)]
pub struct LentDesk {
    alloc: Global,
    files: Vec<DiskFile>,
    /// The number of the file of each slot.
    places: Vec<usize>,
    /// How many bytes each slot has.
    lengths: Vec<u64>,
    input: Vec<u8>,
    taken: usize,
    replies: Vec<Vec<u8>>,
    reads: Vec<Reading>,
    patches: Vec<Patch>,
    late: Vec<Patch>,
    calls: u64,
    trouble: Trouble,
    disk_faults: u64,
    attach_faults: u64,
    input_faults: u64,
    output_faults: u64,
    ghost few: { length lengths.items < 2 ^ 32 },
}

/// What a run over lent files came to.
#[derive(Drop)]
pub struct Played {
    pub status: u8,
    /// What each call sent.
    pub replies: Vec<Vec<u8>>,
    pub reads: Vec<Reading>,
    /// How many calls were made.
    pub calls: u64,
    /// The files as the run left them. Those that it made come last.
    pub files: Vec<DiskFile>,
    /// What was written, to be taken out again.
    pub patches: Vec<Patch>,
}

impl LentDesk {
    /// A desk with these files, of which none is attached.
    pub fn over(alloc: Global, files: Vec<DiskFile>, input: Vec<u8>, trouble: Trouble) -> LentDesk
        ensures { result.lengths.items ≡ [] }
    {
        LentDesk {
            alloc,
            files,
            places: Vec::new(alloc),
            lengths: Vec::new(alloc),
            input,
            taken: 0,
            replies: Vec::new(alloc),
            reads: Vec::new(alloc),
            patches: Vec::new(alloc),
            late: Vec::new(alloc),
            calls: 0,
            trouble,
            disk_faults: 0,
            attach_faults: 0,
            input_faults: 0,
            output_faults: 0,
        }
    }

    /// What the run came to that ended with this status. Writes that failed and that no flush followed come now.
    pub fn end(self, status: u8) -> Result<Played, AllocError> {
        let (mut files, mut patches) = (self.files, self.patches);
        put_late(&mut files, self.late, &mut patches)?;
        Ok(Played {
            status,
            replies: self.replies,
            reads: self.reads,
            calls: self.calls,
            files,
            patches,
        })
    }

    // Counts a call, and answers whether it is to fail.
    fn is_due(&mut self) -> bool
        ensures { self.new ≡ record self.old { calls = self.new.calls } }
    {
        self.calls = self.calls.saturating_add(1);
        self.trouble == Trouble::Fails(self.calls)
    }

    // Whether reads give zeros by now.
    fn is_blank(&self) -> bool {
        match self.trouble {
            Trouble::Zeros(sent) => sent <= self.replies.len(),
            Trouble::None | Trouble::Fails(_) => false,
        }
    }
}

// Puts each into its file, and keeps what stood there.
fn put_late(
    files: &mut Vec<DiskFile>,
    late: Vec<Patch>,
    patches: &mut Vec<Patch>,
) -> Result<(), AllocError> {
    for mut patch in late {
        patch.swap(files);
        patches.push(patch)?;
    }
    Ok(())
}

// The number and the length of the file of that path. Where there is none and a size is given, it is made of zeros.
fn file_for(
    alloc: Global,
    files: &mut Vec<DiskFile>,
    path: &str,
    make: Option<u64>,
) -> Result<Option<(usize, u64)>, AllocError> {
    if let Some(number) = number_of(files.as_slice(), path) {
        let length = files.get(number).map_or(0, |file| file.bytes.len());
        return Ok(Some((number, length as u64)));
    }
    let Some(size) = make else {
        return Ok(None);
    };
    let bytes = vec![in alloc; 0; size as usize]?;
    let path = String::from_str(alloc, path)?;
    let number = files.len();
    files.push(DiskFile { path, bytes })?;
    Ok(Some((number, size)))
}

// The bytes of a file from a place on. It answers false where the file has no such place.
fn read_out(files: &[DiskFile], number: usize, at: u64, out: &mut [u8]) -> bool {
    let Some(file) = files.get(number) else {
        return false;
    };
    let at = at as usize;
    let end = at.saturating_add(out.len());
    let Some(place) = file.bytes.as_slice().get(at..end) else {
        return false;
    };
    if place.len() != out.len() {
        return false;
    }
    out.copy_from_slice(place);
    true
}

// Puts what is left of the input in front of `out`, and answers how many bytes.
fn take_part(input: &[u8], taken: usize, out: &mut [u8]) -> usize
    ensures { result ≤ length out.old }
{
    let Some(rest) = input.get(taken..) else {
        return 0;
    };
    let count = out.len().min(rest.len());
    out[..count].copy_from_slice(&rest[..count]);
    count
}

impl Shelf for LentDesk {
    ghost use Rattle.zr_shelf.specs.Counts.{Counts};

    ghost sizes = { λ d. d.lengths.items };

    ghost counts = { λ d. record { disk = d.disk_faults; attach = d.attach_faults; input = d.input_faults; output = d.output_faults } };

    ghost tells = { λ d. ⊥ };

    ghost moment = { λ d. 0 };

    ghost world = { λ d. record { now = record { paths = []; makes = []; durable = []; writes = []; seen = []; left = []; sent = [] }; past = [] } };

    ghost sound = { λ d told. absurd told };

    fn slots(&self) -> u32 {
        self.lengths.len() as u32
    }

    fn size(&self, slot: u32) -> u64 {
        self.lengths[slot as usize]
    }

    fn read(&mut self, slot: u32, at: u64, out: &mut [u8]) -> Result<(), DeskErr> {
        let due = self.is_due();
        let file = self
            .places
            .get(slot as usize)
            .copied()
            .unwrap_or(usize::MAX);
        let reading = Reading {
            file,
            at,
            len: out.len() as u64,
            replies: self.replies.len(),
        };
        if due
            || !read_out(self.files.as_slice(), file, at, out)
            || self.reads.push(reading).is_err()
        {
            self.disk_faults = self.disk_faults.saturating_add(1);
            return Err(DeskErr::Failed);
        }
        if self.is_blank() {
            out.fill(0);
        }
        Ok(())
    }

    fn write(&mut self, slot: u32, at: u64, bytes: &[u8]) -> Result<(), DeskErr> {
        let due = self.is_due();
        let file = self
            .places
            .get(slot as usize)
            .copied()
            .unwrap_or(usize::MAX);
        let mut patch = Patch::of(self.alloc, file, at, bytes)?;
        if due {
            self.late.push(patch)?;
        } else if patch.swap(&mut self.files) {
            self.patches.push(patch)?;
            return Ok(());
        }
        self.disk_faults = self.disk_faults.saturating_add(1);
        Err(DeskErr::Failed)
    }

    fn flush(&mut self) -> Result<(), DeskErr> {
        if self.is_due() {
            self.disk_faults = self.disk_faults.saturating_add(1);
            return Err(DeskErr::Failed);
        }
        self.late.clear();
        Ok(())
    }
}

impl Desk for LentDesk {
    fn attach(&mut self, path: &str, make: Option<u64>) -> Result<u32, DeskErr> {
        let due = self.is_due();
        let slot = self.slots();
        if slot == u32::MAX {
            return Err(DeskErr::NoMemory);
        }
        self.lengths.reserve(1)?;
        match file_for(self.alloc, &mut self.files, path, make)? {
            Some((file, length)) if !due => {
                self.places.push(file)?;
                self.lengths.push_reserved(length);
                Ok(slot)
            }
            _ => {
                self.attach_faults = self.attach_faults.saturating_add(1);
                Err(DeskErr::Failed)
            }
        }
    }

    fn take(&mut self, out: &mut [u8]) -> Result<usize, DeskErr> {
        if self.is_due() {
            self.input_faults = self.input_faults.saturating_add(1);
            return Err(DeskErr::Failed);
        }
        let count = take_part(self.input.as_slice(), self.taken, out);
        self.taken = self.taken.saturating_add(count);
        Ok(count)
    }

    fn give(&mut self, bytes: &[u8]) -> Result<(), DeskErr> {
        if self.is_due() {
            self.output_faults = self.output_faults.saturating_add(1);
            return Err(DeskErr::Failed);
        }
        self.replies.push(bytes.to_vec(self.alloc)?)?;
        Ok(())
    }
}
