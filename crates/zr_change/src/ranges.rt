//! Ranges of an object's bytes, and the blocks that they touch.
//!
//! An object has at most 2^25 blocks. A range comes from a script, so that its end may exceed 2^64: it is tested without a
//! sum.
ghost use Rattle.std.specs.Prelude.{◌≡◌, ℕ, ◌+◌, ◌-◌, ◌*◌, ◌/◌, ◌^◌, ◌<◌, ◌≤◌, IsTrue};
ghost use Rattle.std.specs.List.{range_with_len};
ghost use Rattle.zr_base.specs.Blocks.{is_block_size};
ghost use Rattle.zr_model.specs.Objects.{is_within};
ghost use Rattle.zr_change.specs.Changes.{new_in};

use zr_txg::Group;

/// The most blocks of an object.
pub const MOST_BLOCKS: u64 = 33_554_432;

/// What is put from an offset on.
#[derive(Clone, Copy)]
pub enum Bytes<'a> {
    /// These bytes.
    Given(&'a [u8]),
    /// This byte, as often as the range is long.
    Filled(u8),
}

/// A range of an object in bytes, and what is put there.
#[derive(Clone, Copy)]
pub struct Edit<'a> {
    pub off: u64,
    pub len: u64,
    pub bytes: Bytes<'a>,
}

/// Whether the range has a byte and lies within the 2^25 blocks of an object whose blocks have so many units. Constant.
pub fn fits_object(units: u32, off: u64, len: u64) -> bool
    requires { units ≤ 32 }
    ensures { result ≡ is_within units off len }
{
    let most = MOST_BLOCKS * (4096 * u64::from(units));
    len > 0 && len <= most && off <= most - len
}

/// The first and the last block that the range touches. Constant.
pub fn blocks_touched(units: u32, off: u64, len: u64) -> (u64, u64)
    requires units { IsTrue (is_block_size units) }
    requires within { IsTrue (is_within units off len) }
    ensures first { result.0 ≡ off / (4096 * units) }
    ensures last { result.1 ≡ (off + len - 1) / (4096 * units) }
    ensures order { result.0 ≤ result.1 }
    ensures low { result.1 < 2 ^ 25 }
{
    let size = 4096 * u64::from(units);
    (off / size, (off + len - 1) / size)
}

/// How many of these blocks the group has not changed yet: as many more changed blocks it has after a change of them all.
/// Linear in the blocks, and logarithmic in the group's.
pub fn new_blocks(group: &Group, id: u32, first: u64, last: u64) -> u64
    requires order { first ≤ last }
    requires low { last < 2 ^ 25 }
    ensures new { result ≡ new_in group.now id (range_with_len first (last + 1 - first)) }
    ensures most { result ≤ last + 1 - first }
{
    let mut new = 0;
    for index in first..last + 1 {
        if group.find(id, index).is_none() {
            new += 1;
        }
    }
    new
}
