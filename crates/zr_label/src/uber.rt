//! The uberblock: a root of the pool.
//!
//! As with a label, reading reads the fields from their places, refuses what is not lawful, spells the rest again and
//! compares. So at most one sum is computed, and none for a block of zeros.
ghost use Rattle.std.specs.Prelude.{◌≡◌, ◌≤◌, ◌+◌, ◌^◌, ◌↔◌, ◌++◌, ℕ, List, IsTrue, length, take, drop};
ghost use Rattle.std.specs.List.{flat_map, list_all, list_any};
ghost use Rattle.std.specs.Int.{div_ceil};
ghost use Rattle.zr_base.specs.Readers.{Reads};
ghost use Rattle.zr_base.specs.Trees.{IsHeight};
ghost use Rattle.zr_label.specs.Blocks.{IsFilled, IsHead, IsMetaRoot, IsTable, IsUber, SpellsUber, uber_words, row_bytes, is_row, is_no_row};
ghost use Rattle.zr_rules.specs.Places.{is_on};
ghost use Rattle.zr_label.specs.Fields.{uber_fields};

use crate::block::{put, seal, zero_block};
use crate::label::{is_name, name_at, name_field};
use crate::root::Uber;
use crate::rows::{are_devices, are_no_rows, is_one_on, row_bytes, rows_at};
use byteorder::{ByteOrder, LittleEndian};
use zr_base::DevRow;
use zr_bptr::{Ptr, decode, encode, is_pointer, word_at};
use zr_owed::height;

fn is_head(u: &Uber) -> bool
    ensures { IsTrue result ↔ IsHead u.now }
{
    let _value = *u;
    1 <= u.version
        && u.version <= 2
        && 0 < u.txg
        && 0 < u.guid
        && u.len % 8 == 0
        && 8 <= u.len
        && u.len <= 1 << 37
        && 1 <= u.count
        && u.count <= 32
        && u.reset <= u.txg
}

/// Whether a level is the height of a tree of so many bytes.
fn is_height_of(level: u8, len: u64) -> bool
    requires { len ≤ 2 ^ 37 }
    ensures { IsTrue result ↔ IsHeight (div_ceil len 4096) level }
{
    u32::from(level) == height(len.div_ceil(4096))
}

fn is_meta_root(root: &Ptr, len: u64) -> bool
    requires { len ≤ 2 ^ 37 }
    ensures { IsTrue result ↔ IsMetaRoot root.now len }
{
    match root {
        Ptr::Hole => false,
        Ptr::At(b) => is_pointer(b) && b.at.len == 1 && is_height_of(b.level, len),
    }
}

fn is_table(version: u64, txg: u64, count: usize, rows: &[DevRow]) -> bool
    requires fits { count ≤ length rows.now }
    requires size { length rows.now ≡ 32 }
    ensures { IsTrue result ↔ IsTable version txg count rows.now }
{
    let devices = &rows[..count];
    are_devices(version, txg, devices) && is_one_on(devices) && are_no_rows(&rows[count..])
}

/// Whether the fields of a root are lawful. The time is linear in the rows.
pub fn is_uber(u: &Uber) -> bool
    ensures { IsTrue result ↔ IsUber u.now }
{
    if !is_head(u) {
        return false;
    }
    if !is_meta_root(&u.root, u.len) {
        return false;
    }
    if !is_table(u.version, u.txg, u.count as usize, &u.rows) {
        return false;
    }
    is_name(&u.name)
}

fn uber_words(u: &Uber) -> [u8; 128]
    requires { IsUber u.now }
    ensures { result ≡ uber_words u.now }
{
    let count = u64::from(u.count);
    let words = [
        u.version, u.txg, u.guid, u.len, count, u.reset, 0, 0, 0, 0, 0, 0, 0, 0, 0,
    ];
    let mut bytes = [0; 128];
    bytes[..8].copy_from_slice(b"zr-uber1");
    LittleEndian::write_u64_into(&words, &mut bytes[8..]);
    bytes
}

fn put_rows(block: &mut [u8; 4096], rows: &[DevRow; 32])
    ensures { (done : List ℕ) → length done ≡ 256 → IsFilled block.old done → IsFilled block.new (done ++ flat_map row_bytes rows.now) }
{
    for (i, r) in rows.iter().enumerate() {
        put(block, 256 + 32 * i, &row_bytes(r));
    }
}

/// What stands in the place of the pointer.
fn root_at(block: &[u8]) -> [u8; 128]
    requires { length block.now ≡ 4096 }
    ensures { result ≡ take 128 (drop 128 block.now) }
{
    let mut root = [0; 128];
    root.copy_from_slice(&block[128..256]);
    root
}

/// What stands in the places of a root with this pointer.
#[tactic(auto, unfolding(crate::specs::Fields::uber_fields))]
fn uber_fields(block: &[u8], root: Ptr) -> Uber
    requires { length block.now ≡ 4096 }
    ensures { result ≡ uber_fields block.now root }
{
    Uber {
        version: word_at(block, 8),
        txg: word_at(block, 16),
        guid: word_at(block, 24),
        len: word_at(block, 32),
        count: (word_at(block, 40) % (1 << 32)) as u32,
        reset: word_at(block, 48),
        root,
        rows: rows_at(&block[256..1280]),
        name: name_at(block, 1280),
    }
}

impl Uber {
    /// The block of a root. It takes no memory, and computes one sum.
    pub fn encode(&self) -> [u8; 4096]
        requires { IsUber self.now }
        ensures spelling { SpellsUber result self.now }
        ensures size { length result ≡ 4096 }
    {
        let mut block = zero_block();
        put(&mut block, 0, &uber_words(self));
        put(&mut block, 128, &encode(&self.root));
        put_rows(&mut block, &self.rows);
        put(&mut block, 1280, &name_field(&self.name));
        seal(&mut block);
        block
    }

    /// The root that a block spells, None exactly where it spells none. It takes no memory, and computes at most one
    /// sum.
    pub fn decode(block: &[u8; 4096]) -> Option<Uber>
        ensures { Reads (SpellsUber block.now) result }
    {
        let Some(root) = decode(&root_at(block)) else {
            return None;
        };
        let u = uber_fields(block, root);
        if !is_uber(&u) {
            return None;
        }
        if u.encode() != *block {
            return None;
        }
        Some(u)
    }
}
