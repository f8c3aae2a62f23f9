//! Reading the head and the streams.
//!
//! A string of bytes fills leaves of 4,096 bytes, with zeros behind its end. Which streams there are, and how many leaves
//! each has, is known from the head before the first of them is read.
ghost use Rattle.std.specs.Prelude.{◌≡◌, ◌+◌, ◌*◌, ◌^◌, ◌<◌, ◌≤◌, ◌↔◌, List, ℕ, length, drop, sum_by, ◌++◌, All, IfOk, OnOk, IsTrue, true};
ghost use Rattle.std.specs.List.{AllByRecursion, flat_map};
ghost use Rattle.std.specs.Int.{div_ceil};
ghost use Rattle.zr_base.specs.Words.{words, zeros};
ghost use Rattle.zr_bptr.specs.Spelling.{IsPointer};
ghost use Rattle.zr_bptr.specs.declared.Ptr.TheVariants.{At};
ghost use Rattle.zr_tree.specs.Trees.{reach, tree_reach};
ghost use Rattle.zr_root.specs.Streams.{HasBytes, HasWords};
ghost use Rattle.zr_import.specs.Units.{MarksAll, Meets};
ghost use Rattle.zr_import.specs.Words.{HaveWords};
ghost use Rattle.zr_label.specs.Blocks.{IsUber};
ghost use Rattle.zr_meta.specs.Heads.{IsHead, IsStream, head_bytes};
ghost use Rattle.zr_store.specs.Causes.{Costs};
ghost use Rattle.zr_store.specs.Store.{Stored};
ghost use Rattle.zr_image.specs.Roots.{concrete_units, head_tree, rows_of};
ghost use Rattle.zr_import.specs.Causes.{HasCause};

use crate::errors::ImportErr;
use crate::marks::Marks;
use crate::walks::read_marked;
use std::alloc::{AllocError, Global};
use zr_base::{DevRow, DevState};
use zr_bptr::{Bptr, Ptr};
use zr_label::Uber;
use zr_meta::{Head, MetaErr, Stream, decode_head};
use zr_store::Blocks;

/// The devices of a root.
pub(crate) fn rows_of(uber: &Uber) -> &[DevRow]
    requires { IsUber uber.now }
    ensures { result.now ≡ rows_of uber.now }
{
    &uber.rows[..uber.count as usize]
}

/// Whether zeros alone stand behind so many bytes.
fn is_padded(bytes: &[u8], len: usize) -> bool
    requires { len ≤ length bytes.now }
    ensures { IsTrue result ↔ (drop len bytes.now ≡ zeros (length (drop len bytes.now))) }
{
    are_zeros(&bytes[len..])
}

fn are_zeros(bytes: &[u8]) -> bool
    ensures { IsTrue result ↔ (bytes.now ≡ zeros (length bytes.now)) }
{
    bytes.iter().all(|b| *b == 0)
}

/// The `len` bytes that stand in the tree with this root.
fn read_bytes<B: Blocks>(
    alloc: Global,
    store: &mut B,
    marks: &mut Marks,
    root: &Bptr,
    len: u64,
    txg: u64,
    met: &mut Vec<Bptr>,
) -> Result<Vec<u8>, ImportErr>
    requires root { IsPointer root.now }
    requires some { 0 < len }
    requires len { len ≤ 2 ^ 50 }
    ensures marks { (s : Stored) → B.holds store.old s → OnOk result (MarksAll Meets txg marks.old marks.new (reach s root.now.level (At root.now))) }
    ensures met { (s : Stored) → B.holds store.old s → OnOk result (met.new.items ≡ met.old.items ++ reach s root.now.level (At root.now)) }
    ensures bytes { (s : Stored) → B.holds store.old s → IfOk result (λ bytes. HasBytes s (record { root = At root.now; height = root.now.level }) bytes.items) }
    ensures follows { (start : B) → B.follows start store.old → B.follows start store.new }
    ensures costs { Costs 0 0 (B.account store.old) (B.account store.new) }
    ensures cause { HasCause (B.account store.old) (B.account store.new) result }
    ensures same { (s : Stored) → B.holds store.old s → B.holds store.new s }
    ensures len { IfOk result (λ bytes. length bytes.items ≡ len) }
{
    let leaves = len.div_ceil(4096);
    let mut bytes = read_marked(alloc, store, marks, root, leaves, txg, met)?;
    let len = len as usize;
    if !is_padded(bytes.as_slice(), len) {
        return Err(ImportErr::Rule(1));
    }
    bytes.truncate(len);
    Ok(bytes)
}

/// The words of bytes.
fn words_of(alloc: Global, bytes: &[u8]) -> Result<Vec<u64>, AllocError>
    ensures words { (n : ℕ) → length bytes.now ≡ 8 * n → IfOk result (λ ns. (words ns.items ≡ bytes.now) × (length ns.items ≡ n)) }
{
    let (pieces, _) = bytes.as_chunks::<8>();
    let mut ns = Vec::new(alloc);
    for piece in pieces {
        ns.push(u64::from_le_bytes(*piece))?;
    }
    Ok(ns)
}

/// The units of the devices that are not gone.
fn concrete_units(rows: &[DevRow]) -> u64
    requires few { length rows.now ≤ 32 }
    requires units { All (λ r. r.units ≤ 2 ^ 36) rows.now }
    ensures { result ≡ concrete_units rows.now }
{
    let mut units = 0;
    for r in rows {
        if r.state != DevState::Gone {
            units += r.units;
        }
    }
    units
}

/// Whether no stream has more leaves than there are units.
fn are_streams_short(streams: &[Stream], units: u64) -> bool
    ensures { IsTrue result ↔ All (λ t. div_ceil t.words 512 ≤ units) streams.now }
{
    streams.iter().all(|t| t.words.div_ceil(512) <= units)
}

/// The head of a root. Rule 1 is broken where its bytes are no head of the form that the root tells, or a stream has more
/// leaves than there are units.
pub(crate) fn read_head<B: Blocks>(
    alloc: Global,
    store: &mut B,
    marks: &mut Marks,
    uber: &Uber,
    met: &mut Vec<Bptr>,
) -> Result<Head, ImportErr>
    requires { IsUber uber.now }
    ensures follows { (start : B) → B.follows start store.old → B.follows start store.new }
    ensures costs { Costs 0 0 (B.account store.old) (B.account store.new) }
    ensures cause { HasCause (B.account store.old) (B.account store.new) result }
    ensures same { (s : Stored) → B.holds store.old s → B.holds store.new s }
    ensures head { IfOk result (IsHead (rows_of uber.now)) }
    ensures form { IfOk result (λ h. (h.form ≡ 1) ↔ (uber.now.reset ≡ 0)) }
    ensures marks { (s : Stored) → B.holds store.old s → OnOk result (MarksAll Meets uber.now.txg marks.old marks.new (tree_reach s (head_tree uber.now))) }
    ensures met { (s : Stored) → B.holds store.old s → OnOk result (met.new.items ≡ met.old.items ++ tree_reach s (head_tree uber.now)) }
    ensures bytes { (s : Stored) → B.holds store.old s → IfOk result (λ h. HasBytes s (head_tree uber.now) (head_bytes h)) }
    ensures fits { IfOk result (λ h. All (λ t. div_ceil t.words 512 ≤ concrete_units (rows_of uber.now)) h.streams) }
{
    let Ptr::At(root) = &uber.root else {
        unreachable!();
    };
    let bytes = read_bytes(alloc, store, marks, root, uber.len, uber.txg, met)?;
    let rows = rows_of(uber);
    let head = match decode_head(alloc, bytes.as_slice(), rows) {
        Ok(head) => head,
        Err(MetaErr::Grammar) => return Err(ImportErr::Rule(1)),
        Err(MetaErr::NoMemory) => return Err(ImportErr::NoMemory),
    };
    if (head.form == 1) != (uber.reset == 0) {
        return Err(ImportErr::Rule(1));
    }
    if !are_streams_short(head.streams.as_slice(), concrete_units(rows)) {
        return Err(ImportErr::Rule(1));
    }
    Ok(head)
}

/// The words of a stream.
fn read_stream<B: Blocks>(
    alloc: Global,
    store: &mut B,
    marks: &mut Marks,
    stream: &Stream,
    txg: u64,
    met: &mut Vec<Bptr>,
) -> Result<Vec<u64>, ImportErr>
    requires { IsStream stream.now }
    ensures follows { (start : B) → B.follows start store.old → B.follows start store.new }
    ensures costs { Costs 0 0 (B.account store.old) (B.account store.new) }
    ensures cause { HasCause (B.account store.old) (B.account store.new) result }
    ensures same { (s : Stored) → B.holds store.old s → B.holds store.new s }
    ensures count { IfOk result (λ ns. length ns.items ≡ stream.now.words) }
    ensures marks { (s : Stored) → B.holds store.old s → OnOk result (MarksAll Meets txg marks.old marks.new (tree_reach s stream.now.tree)) }
    ensures met { (s : Stored) → B.holds store.old s → OnOk result (met.new.items ≡ met.old.items ++ tree_reach s stream.now.tree) }
    ensures words { (s : Stored) → B.holds store.old s → IfOk result (λ ns. HasWords s stream.now ns.items) }
{
    let Ptr::At(root) = &stream.tree.root else {
        return Ok(Vec::new(alloc));
    };
    let bytes = read_bytes(alloc, store, marks, root, 8 * stream.words, txg, met)?;
    let ns = words_of(alloc, bytes.as_slice())?;
    Ok(ns)
}

/// The words of streams, one stream's behind the other's. Each stream is read to its end before the next.
pub(crate) fn read_streams<B: Blocks>(
    alloc: Global,
    store: &mut B,
    marks: &mut Marks,
    streams: &[Stream],
    txg: u64,
    met: &mut Vec<Bptr>,
) -> Result<Vec<u64>, ImportErr>
    requires { AllByRecursion IsStream streams.now }
    ensures follows { (start : B) → B.follows start store.old → B.follows start store.new }
    ensures costs { Costs 0 0 (B.account store.old) (B.account store.new) }
    ensures cause { HasCause (B.account store.old) (B.account store.new) result }
    ensures same { (s : Stored) → B.holds store.old s → B.holds store.new s }
    ensures count { IfOk result (λ ns. length ns.items ≡ sum_by (λ t. t.words) streams.now) }
    ensures marks { (s : Stored) → B.holds store.old s → OnOk result (MarksAll Meets txg marks.old marks.new (flat_map (λ t. tree_reach s t.tree) streams.now)) }
    ensures met { (s : Stored) → B.holds store.old s → OnOk result (met.new.items ≡ met.old.items ++ flat_map (λ t. tree_reach s t.tree) streams.now) }
    ensures words { (s : Stored) → B.holds store.old s → IfOk result (λ ns. HaveWords s streams.now ns.items) }
{
    let mut all = Vec::new(alloc);
    for stream in streams {
        let ns = read_stream(alloc, store, marks, stream, txg, met)?;
        all.extend_from_slice(ns.as_slice())?;
    }
    Ok(all)
}
