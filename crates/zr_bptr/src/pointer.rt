//! The 128 bytes of a pointer.
ghost use Rattle.std.specs.Prelude.{◌≡◌, ◌≤◌, ◌+◌, ◌^◌, ◌↔◌, IsTrue, length, drop};
ghost use Rattle.sha2.specs.Sha256.{sha256};
ghost use Rattle.zr_base.specs.Readers.{Reads};
ghost use Rattle.zr_base.specs.Words.{IsAddress};
ghost use Rattle.zr_bptr.specs.declared.Ptr.TheVariants.{At};
ghost use Rattle.zr_bptr.specs.Spelling.{IsPointer, IsLawful, SpellsPointer, pointer_bytes, properties};
ghost use Rattle.zr_bptr.specs.Fields.{fields_of, word_at};

use crate::{Bptr, Ptr};
use byteorder::{ByteOrder, LittleEndian};
use sha2::{Digest, Sha256};
use zr_base::{Dva, is_block_size};

/// The bytes of a pointer.
pub const POINTER_BYTES: usize = 128;

/// The SHA-256 of some bytes. The time is linear in them.
pub fn sum_of(bytes: &[u8]) -> [u8; 32]
    ensures sum { result ≡ sha256 bytes.now }
    ensures size { length result ≡ 32 }
{
    Sha256::digest(bytes)
}

fn is_address(at: &Dva) -> bool
    ensures { IsTrue result ↔ IsAddress at.now }
{
    0 < at.len && at.len < 1 << 21 && at.dev < 1 << 24 && at.start < 1 << 60
}

/// Whether the fields of a pointer are lawful.
pub fn is_pointer(b: &Bptr) -> bool
    ensures { IsTrue result ↔ IsPointer b.now }
{
    let _value = *b;
    is_address(&b.at)
        && is_block_size(u64::from(b.at.len))
        && b.level <= 5
        && (b.level == 0 || b.at.len == 1)
        && 1 <= b.birth
        && 1 <= b.fill
        && b.fill <= leaves_below(b.level)
}

/// The most leaves below a pointer of a level.
fn leaves_below(level: u8) -> u64
    requires { level ≤ 5 }
    ensures { result ≡ 32 ^ level }
{
    32u64.pow(u32::from(level))
}

fn properties(b: &Bptr) -> u64
    requires { IsPointer b.now }
    ensures { result ≡ properties b.now }
{
    let sectors = 8 * u64::from(b.at.len) - 1;
    let level = u64::from(b.level) * (1 << 56);
    sectors * (1 + (1 << 16)) + 2 * (1 << 32) + 8 * (1 << 40) + level + (1 << 63)
}

fn spell(b: &Bptr) -> [u8; 128]
    requires { IsPointer b.now }
    ensures { result ≡ pointer_bytes (At b.now) }
{
    let len = 8 * u64::from(b.at.len);
    let address = len + (1 << 32) * u64::from(b.at.dev);
    let words = [
        address,
        8 * b.at.start,
        0,
        0,
        0,
        0,
        properties(b),
        0,
        0,
        0,
        b.birth,
        b.fill,
    ];
    let mut bytes = [0; 128];
    LittleEndian::write_u64_into(&words, &mut bytes[..96]);
    bytes[96..].copy_from_slice(&b.sum);
    bytes
}

/// The word at a place.
pub fn word_at(bytes: &[u8], at: usize) -> u64
    requires { at + 8 ≤ length bytes.now }
    ensures { result ≡ word_at bytes.now at }
{
    LittleEndian::read_u64(&bytes[at..])
}

/// What stands in the place of the sum.
fn sum_at(bytes: &[u8]) -> [u8; 32]
    requires { length bytes.now ≡ 128 }
    ensures { result ≡ drop 96 bytes.now }
{
    let mut sum = [0; 32];
    sum.copy_from_slice(&bytes[96..]);
    sum
}

/// What stands in the places of the fields.
#[tactic(auto, unfolding(crate::specs::Fields::fields_of))]
fn fields(bytes: &[u8]) -> Bptr
    requires { length bytes.now ≡ 128 }
    ensures { result ≡ fields_of bytes.now }
{
    let address = word_at(bytes, 0);
    Bptr {
        at: Dva {
            dev: (address / (1 << 32)) as u32,
            start: word_at(bytes, 8) / 8,
            len: (address % (1 << 32) / 8) as u32,
        },
        level: (word_at(bytes, 48) / (1 << 56) % (1 << 7)) as u8,
        birth: word_at(bytes, 80),
        fill: word_at(bytes, 88),
        sum: sum_at(bytes),
    }
}

/// The bytes of a pointer. It takes no memory.
pub fn encode(p: &Ptr) -> [u8; 128]
    requires { IsLawful p.now }
    ensures { SpellsPointer result p.now }
{
    match p {
        Ptr::Hole => [0; 128],
        Ptr::At(b) => spell(b),
    }
}

/// The pointer that the bytes spell, None exactly where they spell none. It takes no memory.
pub fn decode(bytes: &[u8; 128]) -> Option<Ptr>
    ensures { Reads (SpellsPointer bytes.now) result }
{
    if *bytes == [0; 128] {
        return Some(Ptr::Hole);
    }
    let b = fields(bytes);
    if !is_pointer(&b) {
        return None;
    }
    if spell(&b) != *bytes {
        return None;
    }
    Some(Ptr::At(b))
}
