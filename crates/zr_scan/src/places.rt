//! The places of label blocks, rings and roots, in bytes from the front of a disk.
ghost use Rattle.std.specs.Prelude.{◌≡◌, ◌≤◌, ◌<◌, ◌+◌, IsTrue};
ghost use Rattle.zr_label.specs.Geometry.{is_disk_size, label_block_at};
ghost use Rattle.zr_scan.specs.Puts.{label_place, ring_at, ring_places, root_places};

use zr_label::{label_at, slot_of};

/// The bytes of a ring.
pub const RING_BYTES: usize = 131072;

/// The first byte of the block of a label.
pub fn label_block_at(size: u64, n: u32) -> u64
    requires size { IsTrue (is_disk_size 2 size) }
    requires label { n < 4 }
    ensures place { result ≡ label_block_at size n }
    ensures fits { result + 4096 ≤ size }
{
    label_at(size, n) + 16384
}

/// The first byte of the ring of a label.
pub fn ring_at(size: u64, n: u32) -> u64
    requires size { IsTrue (is_disk_size 2 size) }
    requires label { n < 4 }
    ensures place { result ≡ ring_at size n }
    ensures fits { result + 131072 ≤ size }
{
    label_at(size, n) + 131072
}

/// The place of a label block.
pub fn label_place(size: u64, n: u32) -> [u64; 1]
    requires size { IsTrue (is_disk_size 2 size) }
    requires label { n < 4 }
    ensures { result ≡ label_place size n }
{
    [label_block_at(size, n)]
}

pub fn ring_places(size: u64) -> [u64; 4]
    requires size { IsTrue (is_disk_size 2 size) }
    ensures { result ≡ ring_places size }
{
    [
        ring_at(size, 0),
        ring_at(size, 1),
        ring_at(size, 2),
        ring_at(size, 3),
    ]
}

/// The places of the root of a group in the rings of two labels, `first` and the second next to it.
pub fn root_places(size: u64, first: u32, txg: u64) -> [u64; 2]
    requires size { IsTrue (is_disk_size 2 size) }
    requires label { first < 2 }
    ensures { result ≡ root_places size first txg }
{
    let at = 4096 * u64::from(slot_of(txg));
    [ring_at(size, first) + at, ring_at(size, first + 2) + at]
}
