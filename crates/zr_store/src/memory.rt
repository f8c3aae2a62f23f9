//! A store that is kept in memory.
use zr_bptr::Bptr;

/// A block and its pointer.
#[derive(Drop)]
pub struct Kept {
    pub at: Bptr,
    pub bytes: Vec<u8>,
}

/// A store in memory of so many units of 4,096 bytes. Each block gets the units after those of the block before, on
/// device 0; units that were given back are not given out again. A call is linear in the blocks.
#[derive(Drop)]
pub struct MemBlocks {
    pub kept: Vec<Kept>,
    pub next: u32,
    pub units: u32,
}
