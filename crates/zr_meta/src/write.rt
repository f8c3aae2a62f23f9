//! The bytes of a head.
ghost use Rattle.std.specs.Prelude.{◌≡◌, ◌++◌, ◌∷◌, [], Some, IfOk, OnOk};
ghost use Rattle.std.specs.List.{AllByRecursion, flat_map};
ghost use Rattle.zr_base.specs.Words.{word, words};
ghost use Rattle.zr_bptr.specs.Spelling.{IsLawful};
ghost use Rattle.zr_meta.specs.Heads.{IsHead, IsStream, SpellsHead, ckpt_words, cond_words, form_bytes, front_bytes, saved_bytes, stream_bytes};

use crate::{CondAt, Head, Stream};
use byteorder::{ByteOrder, LittleEndian};
use std::alloc::Global;
use zr_base::{Blob, CkptPart, DevRow, NoMemory};
use zr_bptr::{Tree, encode};

fn form_bytes(form: u64) -> [u8; 8]
    ensures { result ≡ form_bytes form }
{
    if form == 1 {
        *b"zr-head1"
    } else {
        *b"zr-head2"
    }
}

fn word_bytes(n: u64) -> [u8; 8]
    ensures { result ≡ word n }
{
    let mut bytes = [0; 8];
    LittleEndian::write_u64_into(&[n], &mut bytes);
    bytes
}

fn three_words(first: u64, second: u64, third: u64) -> [u8; 24]
    ensures { result ≡ words (first ∷ second ∷ third ∷ []) }
{
    let mut bytes = [0; 24];
    LittleEndian::write_u64_into(&[first, second, third], &mut bytes);
    bytes
}

/// The words between the first one and the root of the directory.
fn front_words(ckpt: CkptPart, height: u32) -> [u8; 24]
    ensures { result ≡ words (ckpt_words ckpt ++ height ∷ []) }
{
    let height = u64::from(height);
    match ckpt {
        CkptPart::Clear => three_words(0, 0, height),
        CkptPart::Held(txg) => three_words(1, txg, height),
        CkptPart::Discarding => three_words(2, 0, height),
    }
}

#[tactic(auto, unfolding(crate::specs::Heads::front_bytes))]
fn put_front(bytes: &mut Vec<u8>, form: u64, ckpt: CkptPart, dir: &Tree) -> Result<(), NoMemory>
    requires { IsLawful dir.now.root }
    ensures { OnOk result (bytes.new.items ≡ bytes.old.items ++ front_bytes form ckpt dir.now) }
{
    bytes.extend_from_slice(&form_bytes(form))?;
    bytes.extend_from_slice(&front_words(ckpt, dir.height))?;
    bytes.extend_from_slice(&encode(&dir.root))?;
    Ok(())
}

fn put_saved(bytes: &mut Vec<u8>, saved: &Option<Blob>) -> Result<(), NoMemory>
    ensures { OnOk result (bytes.new.items ≡ bytes.old.items ++ saved_bytes saved.now) }
{
    if let Some(block) = saved {
        bytes.extend_from_slice(block.as_slice())?;
    }
    Ok(())
}

fn cond_bytes(c: CondAt) -> [u8; 24]
    ensures { result ≡ words (cond_words (Some c)) }
{
    three_words(1, u64::from(c.dev), c.at)
}

fn put_cond(bytes: &mut Vec<u8>, cond: &Option<CondAt>) -> Result<(), NoMemory>
    ensures { OnOk result (bytes.new.items ≡ bytes.old.items ++ words (cond_words cond.now)) }
{
    match cond {
        None => bytes.extend_from_slice(&word_bytes(0))?,
        Some(c) => bytes.extend_from_slice(&cond_bytes(*c))?,
    }
    Ok(())
}

#[tactic(auto, unfolding(crate::specs::Heads::stream_bytes))]
fn put_stream(bytes: &mut Vec<u8>, s: &Stream) -> Result<(), NoMemory>
    requires { IsLawful s.now.tree.root }
    ensures { OnOk result (bytes.new.items ≡ bytes.old.items ++ stream_bytes s.now) }
{
    bytes.extend_from_slice(&word_bytes(s.words))?;
    bytes.extend_from_slice(&encode(&s.tree.root))?;
    Ok(())
}

fn put_streams(bytes: &mut Vec<u8>, streams: &[Stream]) -> Result<(), NoMemory>
    requires { AllByRecursion IsStream streams.now }
    ensures { OnOk result (bytes.new.items ≡ bytes.old.items ++ flat_map stream_bytes streams.now) }
{
    for s in streams {
        put_stream(bytes, s)?;
    }
    Ok(())
}

/// The bytes of a head of a root with these devices, a whole number of words. The time and the memory are linear in
/// the streams.
pub fn encode_head(alloc: Global, h: &Head, table: &[DevRow]) -> Result<Vec<u8>, NoMemory>
    requires { IsHead table.now h.now }
    ensures { IfOk result (λ bytes. SpellsHead table.now bytes.items h.now) }
{
    let mut bytes = Vec::new(alloc);
    put_front(&mut bytes, h.form, h.ckpt, &h.dir)?;
    put_saved(&mut bytes, &h.saved)?;
    put_cond(&mut bytes, &h.cond)?;
    put_streams(&mut bytes, h.streams.as_slice())?;
    Ok(bytes)
}
