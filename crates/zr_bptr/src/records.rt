//! Leaves of the directory: sixteen object records.
//!
//! A record of zeros says that there is no object. So a leaf of zeros is a leaf without objects.
ghost use Rattle.std.specs.Prelude.{◌≡◌, ◌≤◌, ◌↔◌, IsTrue, Some, Option, length, drop, take, IfOk, IfSome, option_map};
ghost use Rattle.std.specs.List.{AllByRecursion};
ghost use Rattle.zr_base.specs.Readers.{Reads};
ghost use Rattle.zr_bptr.specs.Spelling.{IsTree, IsObject, SpellsRecord, SpellsEachRecord, SpellsRecords, record_bytes};

use crate::pointer::{decode, encode, is_pointer, word_at};
use crate::{ObjRec, Ptr, Tree};
use byteorder::{ByteOrder, LittleEndian};
use std::alloc::Global;
use zr_base::{NoMemory, is_block_size};

/// The records of a leaf of the directory.
pub const RECORDS: usize = 16;

/// Whether the root of a tree is a hole or a lawful pointer whose level is the height, at most 5.
pub fn is_tree(t: &Tree) -> bool
    ensures { IsTrue result ↔ IsTree t.now }
{
    if t.height > 5 {
        return false;
    }
    match &t.root {
        Ptr::Hole => true,
        Ptr::At(b) => u32::from(b.level) == t.height && is_pointer(b),
    }
}

/// Whether the fields of an object record are lawful.
pub fn is_object(r: &ObjRec) -> bool
    ensures { IsTrue result ↔ IsObject r.now }
{
    is_block_size(u64::from(r.units)) && is_tree(&r.tree)
}

fn spell(r: &ObjRec) -> [u8; 256]
    requires { IsObject r.now }
    ensures { result ≡ record_bytes (Some r.now) }
{
    let words = [u64::from(r.units), u64::from(r.tree.height)];
    let mut bytes = [0; 256];
    LittleEndian::write_u64_into(&words, &mut bytes[..16]);
    bytes[16..144].copy_from_slice(&encode(&r.tree.root));
    bytes
}

fn encode_record(r: &Option<ObjRec>) -> [u8; 256]
    requires { IfSome r.now IsObject }
    ensures { result ≡ record_bytes r.now }
{
    match r {
        None => [0; 256],
        Some(r) => spell(r),
    }
}

/// What stands in the place of the root.
fn root_at(bytes: &[u8]) -> [u8; 128]
    requires { length bytes.now ≡ 256 }
    ensures { result ≡ take 128 (drop 16 bytes.now) }
{
    let mut root = [0; 128];
    root.copy_from_slice(&bytes[16..144]);
    root
}

/// The object record that the bytes spell, `Some(None)` where they say that there is no object, and None exactly where
/// they are neither.
fn decode_record(bytes: &[u8; 256]) -> Option<Option<ObjRec>>
    ensures { Reads (SpellsRecord bytes.now) result }
{
    if *bytes == [0; 256] {
        return Some(None);
    }
    let units = word_at(bytes, 0);
    let height = word_at(bytes, 8);
    if units > 32 {
        return None;
    }
    if height > 5 {
        return None;
    }
    let Some(root) = decode(&root_at(bytes)) else {
        return None;
    };
    let r = ObjRec {
        units: units as u32,
        tree: Tree {
            root,
            height: height as u32,
        },
    };
    if !is_object(&r) {
        return None;
    }
    if spell(&r) != *bytes {
        return None;
    }
    Some(Some(r))
}

/// The bytes of a leaf of the directory.
pub fn encode_records(alloc: Global, records: &[Option<ObjRec>]) -> Result<Vec<u8>, NoMemory>
    requires count { length records.now ≡ 16 }
    requires lawful { AllByRecursion (λ r. IfSome r IsObject) records.now }
    ensures spelling { IfOk result (λ bytes. SpellsRecords bytes.items records.now) }
    ensures size { IfOk result (λ bytes. length bytes.items ≡ 4096) }
{
    let mut bytes = Vec::with_capacity(alloc, 4096)?;
    for r in records {
        bytes.extend_from_slice(&encode_record(r))?;
    }
    Ok(bytes)
}

fn decode_each(alloc: Global, pieces: &[[u8; 256]]) -> Result<Option<Vec<Option<ObjRec>>>, NoMemory>
    ensures { IfOk result (λ read. Reads (SpellsEachRecord pieces.now) (option_map (λ rs. rs.items) read)) }
{
    let mut records = Vec::with_capacity(alloc, pieces.len())?;
    for piece in pieces {
        let Some(r) = decode_record(piece) else {
            return Ok(None);
        };
        records.push(r)?;
    }
    Ok(Some(records))
}

/// The records of a leaf of the directory, None exactly where the bytes are no such leaf.
pub fn decode_records(alloc: Global, bytes: &[u8]) -> Result<Option<Vec<Option<ObjRec>>>, NoMemory>
    ensures { IfOk result (λ read. Reads (SpellsRecords bytes.now) (option_map (λ rs. rs.items) read)) }
{
    if bytes.len() != 4096 {
        return Ok(None);
    }
    let (pieces, _) = bytes.as_chunks::<256>();
    decode_each(alloc, pieces)
}
