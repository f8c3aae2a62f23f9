//! Bytes that are put into files, and taken out again.
//!
//! A patch changes places with the bytes of its file: put in once it holds what stood there, and put in again it leaves the
//! file as it was. So a file is tried in many states and never copied.

use std::alloc::{AllocError, Global};
use zr_shelf::DiskFile;

/// Bytes for a place of a file, or those that stood there. The file is given by its number, the place in bytes.
#[derive(Drop)]
pub struct Patch {
    pub file: usize,
    pub at: u64,
    pub bytes: Vec<u8>,
}

impl Patch {
    /// A patch of these bytes.
    pub fn of(alloc: Global, file: usize, at: u64, bytes: &[u8]) -> Result<Patch, AllocError> {
        let bytes = bytes.to_vec(alloc)?;
        Ok(Patch { file, at, bytes })
    }

    /// Changes places with the bytes of its file. It answers false, and changes nothing, where the file has no such place.
    pub fn swap(&mut self, files: &mut Vec<DiskFile>) -> bool {
        let Some(file) = files.get_mut(self.file) else {
            return false;
        };
        let at = self.at as usize;
        let end = at.saturating_add(self.bytes.len());
        let Some(place) = file.bytes.as_mut_slice().get_mut(at..end) else {
            return false;
        };
        if place.len() != self.bytes.len() {
            return false;
        }
        place.swap_with_slice(self.bytes.as_mut_slice());
        true
    }
}

/// The number of the file of that path.
pub fn number_of(files: &[DiskFile], path: &str) -> Option<usize> {
    files.iter().position(|file| file.path.as_str() == path)
}

/// Takes the patches out again, the last first.
pub fn take_out(files: &mut Vec<DiskFile>, mut patches: Vec<Patch>) {
    for _ in 0..patches.len() {
        if let Some(mut patch) = patches.pop() {
            patch.swap(files);
        }
    }
}
