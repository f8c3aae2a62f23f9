//! Tree blocks: 32 pointers of one level, or holes.
//!
//! A pointer tells how many leaves are below it, so a block whose pointers have another number of leaves between them
//! than its own pointer tells is refused, although its sum is right.
ghost use Rattle.std.specs.Prelude.{◌≡◌, ◌≤◌, ◌<◌, ◌*◌, List, ℕ, length, sum_by, IfOk, option_map};
ghost use Rattle.std.specs.List.{AllByRecursion};
ghost use Rattle.zr_base.specs.Readers.{Reads};
ghost use Rattle.zr_bptr.specs.declared.Ptr.{Ptr};
ghost use Rattle.zr_bptr.specs.Spelling.{IsLawful, IsOfLevel, SpellsBelow, SpellsEach, SpellsTreeBlock, fill_of};

use crate::Ptr;
use crate::pointer::{decode, encode};
use std::alloc::Global;
use zr_base::NoMemory;

/// The bytes of a tree block and of a leaf of the directory.
pub const BLOCK_BYTES: usize = 4096;

/// The pointers of a tree block.
pub const FAN_OUT: usize = 32;

/// The leaves below a pointer, 0 below a hole.
pub fn fill_of(p: &Ptr) -> u64
    ensures { result ≡ fill_of p.now }
{
    match p {
        Ptr::Hole => 0,
        Ptr::At(b) => b.fill,
    }
}

/// The leaves below the pointers of a block.
pub fn leaves_of(pointers: &[Ptr]) -> u64
    requires count { length pointers.now ≡ 32 }
    requires lawful { AllByRecursion IsLawful pointers.now }
    ensures { result ≡ sum_by fill_of pointers.now }
{
    let mut leaves = 0;
    for p in pointers {
        leaves += fill_of(p);
    }
    leaves
}

/// The bytes of a tree block of these pointers, which are all of the level `below` or holes.
pub fn encode_block(alloc: Global, below: u8, pointers: &[Ptr]) -> Result<Vec<u8>, NoMemory>
    requires count { length pointers.now ≡ 32 }
    requires lawful { AllByRecursion IsLawful pointers.now }
    requires levels { AllByRecursion (IsOfLevel below) pointers.now }
    requires some { 0 < sum_by fill_of pointers.now }
    ensures spelling { IfOk result (λ bytes. SpellsTreeBlock bytes.items below (sum_by fill_of pointers.now) pointers.now) }
    ensures size { IfOk result (λ bytes. length bytes.items ≡ 4096) }
{
    let mut bytes = Vec::with_capacity(alloc, BLOCK_BYTES)?;
    for p in pointers {
        bytes.extend_from_slice(&encode(p))?;
    }
    Ok(bytes)
}

/// The pointer of a level that the bytes spell, None exactly where they spell none.
fn decode_below(below: u8, bytes: &[u8; 128]) -> Option<Ptr>
    ensures { Reads (SpellsBelow below bytes.now) result }
{
    let p = decode(bytes)?;
    if let Ptr::At(b) = &p {
        if b.level != below {
            return None;
        }
    }
    Some(p)
}

fn decode_each(alloc: Global, below: u8, pieces: &[[u8; 128]]) -> Result<Option<Vec<Ptr>>, NoMemory>
    ensures { IfOk result (λ read. Reads (SpellsEach below pieces.now) (option_map (λ ps. ps.items) read)) }
{
    let mut pointers = Vec::with_capacity(alloc, pieces.len())?;
    for piece in pieces {
        let Some(p) = decode_below(below, piece) else {
            return Ok(None);
        };
        pointers.push(p)?;
    }
    Ok(Some(pointers))
}

/// The pointers of a tree block, where `below` is their level and `fill` the leaves that the block's own pointer
/// tells. It answers None exactly where the bytes are no such block.
pub fn decode_block(
    alloc: Global,
    below: u8,
    fill: u64,
    bytes: &[u8],
) -> Result<Option<Vec<Ptr>>, NoMemory>
    ensures { IfOk result (λ read. Reads (SpellsTreeBlock bytes.now below fill) (option_map (λ ps. ps.items) read)) }
{
    if bytes.len() != BLOCK_BYTES {
        return Ok(None);
    }
    let (pieces, _) = bytes.as_chunks::<128>();
    let Some(pointers) = decode_each(alloc, below, pieces)? else {
        return Ok(None);
    };
    let leaves = leaves_of(pointers.as_slice());
    if leaves == 0 {
        return Ok(None);
    }
    if leaves != fill {
        return Ok(None);
    }
    Ok(Some(pointers))
}

/// The leaves below a tree block, where the bytes are one whose pointers are of the level `below`.
pub fn leaves_in(alloc: Global, below: u8, bytes: &[u8]) -> Result<u64, NoMemory>
    requires { length bytes.now ≡ 4096 }
    ensures { IfOk result (λ leaves. (fill : ℕ) (pointers : List Ptr) → SpellsTreeBlock bytes.now below fill pointers → leaves ≡ fill) }
{
    let (pieces, _) = bytes.as_chunks::<128>();
    let Some(pointers) = decode_each(alloc, below, pieces)? else {
        return Ok(0);
    };
    Ok(leaves_of(pointers.as_slice()))
}
