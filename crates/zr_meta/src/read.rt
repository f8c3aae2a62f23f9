//! Reading a head.
//!
//! The fields are read from their places, whatever they say, refused where they are no head under the table of the
//! devices, and spelled again: only bytes that come back as they were spell a head.
ghost use Rattle.std.specs.Prelude.{◌≡◌, ℕ, ◌≤◌, ◌+◌, Option, Some, IfSome, IfOk, IfErr, List, length, take, drop, map};
ghost use Rattle.std.specs.List.{AllByRecursion};
ghost use Rattle.zr_base.specs.Words.{words};
ghost use Rattle.zr_base.specs.Readers.{Reads};
ghost use Rattle.zr_meta.specs.declared.Head.{Head};
ghost use Rattle.zr_meta.specs.declared.read.MetaErr.TheVariants.{Grammar};
ghost use Rattle.zr_meta.specs.declared.Stream.{Stream};
ghost use Rattle.zr_meta.specs.Heads.{SpellsHead, IsSaved, IsStream, cond_words, saved_bytes, stream_bytes};
ghost use Rattle.zr_meta.specs.Fields.{IsOnlyHead, IsOnlyDir, IsOnlyCond, IsOnlyBack, AreOnlyStreams, form_at, ckpt_of, level_of, saved_long};

use crate::form::is_head;
use crate::write::encode_head;
use crate::{CondAt, Head, Stream};
use std::alloc::Global;
use zr_base::{Blob, CkptPart, DevRow, Items, NoMemory};
use zr_bptr::{Ptr, Tree, decode, word_at};

/// Why there is no head: the bytes spell none, or memory ran out.
#[derive(Debug, Drop)]
pub enum MetaErr {
    Grammar,
    NoMemory,
}

impl From<NoMemory> for MetaErr {
    ghost use Rattle.std.specs.Prelude.{◌≡◌};
    ghost use Rattle.zr_meta.specs.declared.read.MetaErr.TheVariants as error;

    ghost from_gives = { λ _ e. e ≡ error.NoMemory };

    fn from(_error: NoMemory) -> MetaErr {
        MetaErr::NoMemory
    }
}

/// What stands behind the front of a head.
#[derive(Drop)]
struct Back {
    saved: Option<Blob>,
    cond: Option<CondAt>,
    streams: Items<Stream>,
}

fn form_at(bytes: &[u8]) -> u64
    requires { 8 ≤ length bytes.now }
    ensures { result ≡ form_at bytes.now }
{
    if bytes[7] == 49 { 1 } else { 2 }
}

fn ckpt_of(state: u64, txg: u64) -> CkptPart
    ensures { result ≡ ckpt_of state txg }
{
    if state == 1 {
        CkptPart::Held(txg)
    } else if state == 2 {
        CkptPart::Discarding
    } else {
        CkptPart::Clear
    }
}

/// The 128 bytes from a place on.
fn pointer_at(bytes: &[u8], at: usize) -> [u8; 128]
    requires { at + 128 ≤ length bytes.now }
    ensures { result ≡ take 128 (drop at bytes.now) }
{
    let mut pointer = [0; 128];
    pointer.copy_from_slice(&bytes[at..at + 128]);
    pointer
}

fn dir_of(bytes: &[u8]) -> Option<Tree>
    requires { 160 ≤ length bytes.now }
    ensures { IsOnlyDir bytes.now result }
{
    let Some(root) = decode(&pointer_at(bytes, 32)) else {
        return None;
    };
    let height = (word_at(bytes, 24) % (1 << 32)) as u32;
    Some(Tree { root, height })
}

/// How many bytes the saved root takes.
fn saved_long(ckpt: CkptPart) -> usize
    ensures value { result ≡ saved_long ckpt }
    ensures small { result ≤ 4096 }
{
    match ckpt {
        CkptPart::Held(_) => 4096,
        _ => 0,
    }
}

fn saved_of(alloc: Global, ckpt: CkptPart, bytes: &[u8]) -> Result<Option<Blob>, NoMemory>
    ensures { IfOk result (λ saved. (s : Option (List ℕ)) → IsSaved ckpt s → bytes.now ≡ saved_bytes s → saved ≡ s) }
{
    match ckpt {
        CkptPart::Held(_) => {
            let block = Blob::copy_of(alloc, bytes)?;
            Ok(Some(block))
        }
        _ => Ok(None),
    }
}

fn cond_of(bytes: &[u8]) -> Option<Option<CondAt>>
    requires { 8 ≤ length bytes.now }
    ensures only { IsOnlyCond bytes.now result }
    ensures within { IfSome result (λ cond. length (words (cond_words cond)) ≤ length bytes.now) }
{
    if word_at(bytes, 0) == 0 {
        return Some(None);
    }
    if bytes.len() < 24 {
        return None;
    }
    let dev = (word_at(bytes, 8) % (1 << 32)) as u32;
    let at = word_at(bytes, 16);
    Some(Some(CondAt { dev, at }))
}

/// How many bytes tell of condensing.
fn cond_long(cond: &Option<CondAt>) -> usize
    ensures { result ≡ length (words (cond_words cond.now)) }
{
    match cond {
        None => 8,
        Some(_) => 24,
    }
}

/// The height of the tree of a stream with this root.
fn level_of(root: &Ptr) -> u32
    ensures { result ≡ level_of root.now }
{
    match root {
        Ptr::Hole => 0,
        Ptr::At(b) => u32::from(b.level),
    }
}

fn stream_of(piece: &[u8; 136]) -> Option<Stream>
    ensures { (s : Stream) → IsStream s → piece.now ≡ stream_bytes s → result ≡ Some s }
{
    let Some(root) = decode(&pointer_at(piece, 8)) else {
        return None;
    };
    let height = level_of(&root);
    let words = word_at(piece, 0);
    Some(Stream {
        words,
        tree: Tree { root, height },
    })
}

fn each_of(alloc: Global, pieces: &[[u8; 136]]) -> Result<Option<Items<Stream>>, NoMemory>
    ensures { IfOk result (λ found. (ss : List Stream) → AllByRecursion IsStream ss → pieces.now ≡ map stream_bytes ss → found ≡ Some ss) }
{
    let mut streams = Items::new(alloc);
    for piece in pieces {
        let Some(s) = stream_of(piece) else {
            return Ok(None);
        };
        streams.push(s)?;
    }
    Ok(Some(streams))
}

fn streams_of(alloc: Global, bytes: &[u8]) -> Result<Option<Items<Stream>>, NoMemory>
    ensures { IfOk result (AreOnlyStreams bytes.now) }
{
    let (pieces, _) = bytes.as_chunks::<136>();
    let found = each_of(alloc, pieces)?;
    Ok(found)
}

fn back_of(alloc: Global, ckpt: CkptPart, bytes: &[u8]) -> Result<Option<Back>, NoMemory>
    ensures { IfOk result (IsOnlyBack ckpt bytes.now) }
{
    let held = saved_long(ckpt);
    if bytes.len() < held + 8 {
        return Ok(None);
    }
    let (front, rest) = bytes.split_at(held);
    let saved = saved_of(alloc, ckpt, front)?;
    let Some(cond) = cond_of(rest) else {
        return Ok(None);
    };
    let (_, behind) = rest.split_at(cond_long(&cond));
    let Some(streams) = streams_of(alloc, behind)? else {
        return Ok(None);
    };
    Ok(Some(Back {
        saved,
        cond,
        streams,
    }))
}

/// The one head that the bytes may spell.
fn candidate(alloc: Global, bytes: &[u8]) -> Result<Option<Head>, NoMemory>
    ensures { IfOk result (IsOnlyHead bytes.now) }
{
    if bytes.len() < 160 {
        return Ok(None);
    }
    let Some(dir) = dir_of(bytes) else {
        return Ok(None);
    };
    let ckpt = ckpt_of(word_at(bytes, 8), word_at(bytes, 16));
    let (_, rest) = bytes.split_at(160);
    let Some(back) = back_of(alloc, ckpt, rest)? else {
        return Ok(None);
    };
    Ok(Some(Head {
        form: form_at(bytes),
        dir,
        saved: back.saved,
        ckpt,
        cond: back.cond,
        streams: back.streams,
    }))
}

fn read_head(alloc: Global, bytes: &[u8], table: &[DevRow]) -> Result<Option<Head>, NoMemory>
    ensures { IfOk result (Reads (SpellsHead table.now bytes.now)) }
{
    let Some(h) = candidate(alloc, bytes)? else {
        return Ok(None);
    };
    if !is_head(&h, table) {
        return Ok(None);
    }
    let again = encode_head(alloc, &h, table)?;
    if again.as_slice() != bytes {
        return Ok(None);
    }
    Ok(Some(h))
}

/// The head that the bytes spell for a root with these devices. It answers Grammar exactly where they spell none. The
/// time and the memory are linear in the bytes.
pub fn decode_head(alloc: Global, bytes: &[u8], table: &[DevRow]) -> Result<Head, MetaErr>
    ensures head { IfOk result (SpellsHead table.now bytes.now) }
    ensures grammar { IfErr result (λ e. e ≡ Grammar → (h : Head) → SpellsHead table.now bytes.now h → ⊥) }
{
    match read_head(alloc, bytes, table)? {
        Some(h) => Ok(h),
        None => Err(MetaErr::Grammar),
    }
}
