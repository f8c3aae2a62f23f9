//! The label block.
//!
//! Reading a block reads the fields from their places, refuses what is not lawful, spells the rest again and compares.
//! A block of zeros has no identity, so it is refused before a sum is computed.
ghost use Rattle.std.specs.Prelude.{◌≡◌, ◌≤◌, ◌+◌, ◌↔◌, ◌==◌, IsTrue, length, drop};
ghost use Rattle.std.specs.List.{list_all};
ghost use Rattle.zr_base.specs.Readers.{Reads};
ghost use Rattle.zr_label.specs.Blocks.{IsName, IsLabel, SpellsLabel, name_field, label_words};
ghost use Rattle.zr_label.specs.Fields.{name_at, label_fields};

use crate::block::{put, seal, zero_block};
use crate::root::{Label, Name};
use byteorder::{ByteOrder, LittleEndian};
use zr_bptr::word_at;

/// Whether what follows the length of a name is a name, and then zeros.
pub fn is_name(n: &Name) -> bool
    ensures { IsTrue result ↔ IsName n.now }
{
    if n.len > 63 {
        return false;
    }
    are_zeros_from(&n.bytes, usize::from(n.len))
}

/// Whether all bytes from a place on are zeros.
fn are_zeros_from(bytes: &[u8], at: usize) -> bool
    requires { at ≤ length bytes.now }
    ensures { result ≡ list_all (λ b. b == 0) (drop at bytes.now) }
{
    are_zeros(&bytes[at..])
}

fn are_zeros(bytes: &[u8]) -> bool
    ensures { result ≡ list_all (λ b. b == 0) bytes.now }
{
    bytes.iter().all(|b| *b == 0)
}

pub fn name_field(n: &Name) -> [u8; 64]
    requires { IsName n.now }
    ensures { result ≡ name_field n.now }
{
    let mut field = [0; 64];
    field[0] = n.len;
    field[1..].copy_from_slice(&n.bytes);
    field
}

pub fn name_at(block: &[u8], at: usize) -> Name
    requires { at + 64 ≤ length block.now }
    ensures { result ≡ name_at block.now at }
{
    let mut bytes = [0; 63];
    bytes.copy_from_slice(&block[at + 1..at + 64]);
    Name {
        len: block[at],
        bytes,
    }
}

fn is_label(l: Label) -> bool
    ensures { IsTrue result ↔ IsLabel l }
{
    if l.guid == 0 {
        return false;
    }
    if l.index >= 32 {
        return false;
    }
    if l.added == 0 {
        return false;
    }
    is_name(&l.name)
}

fn label_words(l: &Label) -> [u8; 48]
    requires { IsLabel l.now }
    ensures { result ≡ label_words l.now }
{
    let words = [1, l.guid, u64::from(l.index), l.added, l.units];
    let mut bytes = [0; 48];
    bytes[..8].copy_from_slice(b"zr-label");
    LittleEndian::write_u64_into(&words, &mut bytes[8..]);
    bytes
}

#[tactic(auto, unfolding(crate::specs::Fields::label_fields))]
fn label_fields(block: &[u8]) -> Label
    requires { length block.now ≡ 4096 }
    ensures { result ≡ label_fields block.now }
{
    Label {
        guid: word_at(block, 16),
        index: (word_at(block, 24) % (1 << 32)) as u32,
        added: word_at(block, 32),
        units: word_at(block, 40),
        name: name_at(block, 48),
    }
}

impl Label {
    /// The label block. It takes no memory, and computes one sum.
    pub fn encode(&self) -> [u8; 4096]
        requires { IsLabel self.now }
        ensures { SpellsLabel result self.now }
    {
        let mut block = zero_block();
        put(&mut block, 0, &label_words(self));
        put(&mut block, 48, &name_field(&self.name));
        seal(&mut block);
        block
    }

    /// The label that a block spells, None exactly where it spells none. It takes no memory, and computes at most one
    /// sum.
    pub fn decode(block: &[u8; 4096]) -> Option<Label>
        ensures { Reads (SpellsLabel block.now) result }
    {
        let l = label_fields(block);
        if !is_label(l) {
            return None;
        }
        if l.encode() != *block {
            return None;
        }
        Some(l)
    }
}
