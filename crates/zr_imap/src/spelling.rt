//! The 24 bytes of an entry.
//!
//! An entry has one spelling, and bytes that are not exactly the spelling of a lawful entry are refused: the reader
//! reads the fields, spells them again, and compares. Addresses are in sectors of 512 bytes, of which a unit has eight.
ghost use Rattle.std.specs.Prelude.{◌≡◌, ◌+◌, ◌≤◌, ◌↔◌, IsTrue, length};
ghost use Rattle.zr_base.specs.Readers.{Reads};
ghost use Rattle.zr_imap.specs.Spelling.{IsWritable, SpellsEntry, fields_of, word_at};

use byteorder::{ByteOrder, LittleEndian};
use zr_base::Entry;

/// The bytes of an entry.
pub const ENTRY_BYTES: usize = 24;

/// Whether the source of an entry is below 2^63 sectors and its destination is an address.
pub fn is_writable(e: &Entry) -> bool
    ensures { IsTrue result ↔ IsWritable e.now }
{
    e.src < 1 << 60 && 0 < e.len && e.len < 1 << 21 && e.dev < 1 << 24 && e.dst < 1 << 60
}

/// The bytes of an entry. It takes no memory.
pub fn encode_entry(e: &Entry) -> [u8; 24]
    requires { IsWritable e.now }
    ensures { SpellsEntry result e.now }
{
    let address = 8 * u64::from(e.len) + (1 << 32) * u64::from(e.dev);
    let words = [8 * e.src, address, 8 * e.dst];
    let mut bytes = [0; 24];
    LittleEndian::write_u64_into(&words, &mut bytes);
    bytes
}

fn word_at(bytes: &[u8], at: usize) -> u64
    requires { at + 8 ≤ length bytes.now }
    ensures { result ≡ word_at bytes.now at }
{
    LittleEndian::read_u64(&bytes[at..])
}

/// What stands in the places of the fields.
#[tactic(auto, unfolding(crate::specs::Spelling::fields_of))]
fn fields(bytes: &[u8]) -> Entry
    requires { length bytes.now ≡ 24 }
    ensures { result ≡ fields_of bytes.now }
{
    let address = word_at(bytes, 8);
    Entry {
        src: word_at(bytes, 0) / 8,
        dev: (address / (1 << 32)) as u32,
        dst: word_at(bytes, 16) / 8,
        len: (address % (1 << 32) / 8) as u32,
    }
}

/// The entry that 24 bytes spell, None exactly where they spell none. It takes no memory.
pub fn decode_entry(bytes: &[u8]) -> Option<Entry>
    requires { length bytes.now ≡ 24 }
    ensures { Reads (SpellsEntry bytes.now) result }
{
    let e = fields(bytes);
    if !is_writable(&e) {
        return None;
    }
    if encode_entry(&e).as_slice() != bytes {
        return None;
    }
    Some(e)
}
