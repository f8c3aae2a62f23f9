//! Which heads there are.
//!
//! The table of the devices says which streams a head has: a device in service has logs of its sets, one that is gone
//! has its mapping, and one that leaves has both.
ghost use Rattle.std.specs.Prelude.{◌≡◌, ◌+◌, ◌<◌, ◌≤◌, ◌^◌, ◌↔◌, IsTrue, IfSome, IfNone, length, sum_by};
ghost use Rattle.std.specs.List.{AllByRecursion};
ghost use Rattle.std.specs.Int.{div_ceil};
ghost use Rattle.zr_base.specs.Trees.{IsHeight};
ghost use Rattle.zr_bptr.specs.declared.Ptr.TheVariants.{At};
ghost use Rattle.zr_meta.specs.Heads.{IsTreeOf, IsStream, IsRootOf, IsSaved, IsCond, IsHead, stream_count, stream_total, cond_count};

use crate::{CondAt, Head, Stream};
use zr_base::{Blob, CkptPart, DevRow, DevState};
use zr_bptr::{Bptr, Ptr, is_pointer};
use zr_owed::height;

/// The most words of a stream: those of a tree of the greatest height.
const MOST_WORDS: u64 = 1 << 34;

pub fn stream_count(form: u64, state: DevState) -> usize
    ensures value { result ≡ stream_count form state }
{
    match state {
        DevState::On => { if form == 1 { 2 } else { 4 } }
        DevState::Leaving => { if form == 1 { 5 } else { 7 } }
        DevState::Gone => 3,
    }
}

fn cond_count(cond: Option<CondAt>) -> usize
    ensures value { result ≡ cond_count cond }
    ensures fits { IsCond cond }
{
    match cond {
        None => 0,
        Some(_) => 2,
    }
}

/// How many of the streams are left behind those of the devices, None where there are fewer.
fn streams_behind(form: u64, table: &[DevRow], streams: usize) -> Option<usize>
    ensures some { IfSome result (λ left. sum_by (λ r. stream_count form r.state) table.now + left ≡ streams) }
    ensures none { IfNone result (streams < sum_by (λ r. stream_count form r.state) table.now) }
{
    let mut left = streams;
    for r in table {
        let n = stream_count(form, r.state);
        if left < n {
            return None;
        }
        left -= n;
    }
    Some(left)
}

fn is_total(form: u64, table: &[DevRow], cond: Option<CondAt>, streams: usize) -> bool
    ensures total { IsTrue result ↔ (streams ≡ stream_total form table.now cond) }
    ensures fits { IsCond cond }
{
    let behind = cond_count(cond);
    let Some(left) = streams_behind(form, table, streams) else {
        return false;
    };
    left == behind
}

/// Whether a height is that of the tree of so many words.
fn is_height_of(tall: u32, words: u64) -> bool
    requires { words ≤ 2 ^ 34 }
    ensures { IsTrue result ↔ IsHeight (div_ceil words 512) tall }
{
    tall == height(words.div_ceil(512))
}

fn is_unit(tall: u32, b: &Bptr) -> bool
    ensures { IsTrue result ↔ IsRootOf tall (At b.now) }
{
    u32::from(b.level) == tall && b.at.len == 1 && is_pointer(b)
}

fn is_tree_at(words: u64, tall: u32, b: &Bptr) -> bool
    ensures { IsTrue result ↔ IsTreeOf words tall (At b.now) }
{
    if words == 0 {
        return false;
    }
    if !is_unit(tall, b) {
        return false;
    }
    if words > MOST_WORDS {
        return false;
    }
    is_height_of(tall, words)
}

fn is_stream(s: &Stream) -> bool
    ensures { IsTrue result ↔ IsStream s.now }
{
    match &s.tree.root {
        Ptr::Hole => s.words == 0 && s.tree.height == 0,
        Ptr::At(b) => is_tree_at(s.words, s.tree.height, b),
    }
}

fn are_streams(streams: &[Stream]) -> bool
    ensures { IsTrue result ↔ AllByRecursion IsStream streams.now }
{
    for s in streams {
        if !is_stream(s) {
            return false;
        }
    }
    true
}

fn is_root_of(tall: u32, root: &Ptr) -> bool
    ensures { IsTrue result ↔ IsRootOf tall root.now }
{
    match root {
        Ptr::Hole => true,
        Ptr::At(b) => is_unit(tall, b),
    }
}

fn is_saved(ckpt: CkptPart, saved: &Option<Blob>) -> bool
    ensures { IsTrue result ↔ IsSaved ckpt saved.now }
{
    match (ckpt, saved) {
        (CkptPart::Held(_), Some(block)) => block.len() == 4096,
        (CkptPart::Held(_), None) => false,
        (_, Some(_)) => false,
        (_, None) => true,
    }
}

/// Whether it is a head of a root with these devices. The time is linear in the streams and the devices.
pub fn is_head(h: &Head, table: &[DevRow]) -> bool
    ensures { IsTrue result ↔ IsHead table.now h.now }
{
    if h.form == 0 {
        return false;
    }
    if h.form > 2 {
        return false;
    }
    if h.dir.height > 3 {
        return false;
    }
    if !is_root_of(h.dir.height, &h.dir.root) {
        return false;
    }
    if !is_saved(h.ckpt, &h.saved) {
        return false;
    }
    if !are_streams(h.streams.as_slice()) {
        return false;
    }
    is_total(h.form, table, h.cond, h.streams.len())
}
