//! Where things lie on a disk, in bytes. A disk is used up to a multiple of 262,144 bytes, the size of a label.
ghost use Rattle.std.specs.Prelude.{◌≡◌, ◌≤◌, ◌<◌, IsTrue};
ghost use Rattle.zr_label.specs.Geometry.{whole, units_of_size, is_disk_size, label_at, slot_of};

/// The bytes of a label.
pub const LABEL_BYTES: u64 = 262144;

/// The bytes of a disk that are used.
pub fn whole(size: u64) -> u64
    ensures { result ≡ whole size }
{
    size / LABEL_BYTES * LABEL_BYTES
}

/// The units of a disk, None exactly where it is too small or too large for a pool of the version, which is 1 or 2.
pub fn units_of_size(size: u64, version: u64) -> Option<u64>
    requires least { 1 ≤ version }
    requires most { version ≤ 2 }
    ensures { result ≡ units_of_size size version }
{
    let largest = if version == 1 {
        17179869184
    } else {
        137438953472
    };
    let used = whole(size);
    if 8388608 <= used && used <= largest {
        Some((used - 4718592) / 4096)
    } else {
        None
    }
}

/// The first byte of a label, 0 to 3, of a disk that is neither too small nor too large for a pool of version 2.
pub fn label_at(size: u64, n: u32) -> u64
    requires size { IsTrue (is_disk_size 2 size) }
    requires label { n < 4 }
    ensures { result ≡ label_at size n }
{
    let n = u64::from(n);
    if n <= 1 {
        LABEL_BYTES * n
    } else {
        whole(size) - LABEL_BYTES * (4 - n)
    }
}

/// The slot of a ring that has the root of a group.
pub fn slot_of(txg: u64) -> u32
    ensures { result ≡ slot_of txg }
{
    (txg % 32) as u32
}
