//! The root that a checkpoint saved, beside the root that holds it.
//!
//! A saved root is read as any root is, and keeps all rules by itself. Then it must fit the one that holds it: its held units
//! are those of now that no block has which was born behind the checkpoint. This says at once that the kept units are those
//! that the saved root has alone, that what both have was born by the checkpoint, and that what is born later is no unit of
//! the saved root.
ghost use Rattle.std.specs.Prelude.{◌≡◌, ◌↔◌, ◌<◌, ◌≤◌, ◌+◌, ℕ, length, map, All, IfOk, OnOk, IsTrue, true};
ghost use Rattle.zr_base.specs.Readers.{Reads};
ghost use Rattle.zr_bptr.specs.Spelling.{IsTree};
ghost use Rattle.zr_base.specs.declared.space.CkptPart.TheVariants.{Clear};
ghost use Rattle.zr_image.specs.Current.{row_at};
ghost use Rattle.zr_image.specs.Roots as image;
ghost use Rattle.zr_image.specs.Roots.{rows_of, IsRowStill, IsSavedUber};
ghost use Rattle.zr_import.specs.Causes.{HasSavedCause, as_saved};
ghost use Rattle.zr_import.specs.Directories.{IsInPlace};
ghost use Rattle.zr_import.specs.Saved.{IsOlder};
ghost use Rattle.zr_import.specs.Spending.{HaveHeld, MarksHeld};
ghost use Rattle.zr_import.specs.Units.{HasMaximal, MarksServing};
ghost use Rattle.zr_import.specs.Words.{ReadsMeta, meta_reach};
ghost use Rattle.zr_label.specs.Blocks.{IsUber};
ghost use Rattle.zr_meta.specs.Heads.{IsHead};
ghost use Rattle.zr_objset.specs.Records.{all_reach};
ghost use Rattle.zr_store.specs.Causes.{Costs};
ghost use Rattle.zr_store.specs.Store.{Stored};

use crate::errors::ImportErr;
use crate::metadata::{Meta, read_meta};
use crate::roots::{Root, read_root};
use crate::spent::have_held;
use std::alloc::Global;
use zr_base::{CkptPart, DevRow, DevState};
use zr_label::Uber;
use zr_store::Blocks;

// The rule that a root breaks whose saved root is not in order.
const RULE: u8 = 8;

/// Whether a device of the saved root, if it was there, was in service and has the same row now.
fn is_row_still(saved: &DevRow, now: &DevRow) -> bool
    ensures { IsTrue result ↔ IsRowStill saved.now now.now }
{
    match saved.state {
        DevState::Gone => true,
        DevState::Leaving => false,
        DevState::On => *now == *saved,
    }
}

/// Whether all devices of the saved root are still there.
fn are_rows_still(saved: &Uber, now: &Uber) -> bool
    requires { saved.now.count ≤ 32 }
    ensures { IsTrue result ↔ ((d : ℕ) → d < saved.now.count → IsRowStill (row_at saved.now d) (row_at now.now d)) }
{
    for index in 0..saved.count as usize {
        if !is_row_still(&saved.rows[index], &now.rows[index]) {
            return false;
        }
    }
    true
}

/// Whether a root is an older one of the same pool, of the checkpoint's group, whose devices are still there.
fn is_older(saved: &Uber, current: &Uber, ckpt: CkptPart) -> bool
    requires { saved.now.count ≤ 32 }
    ensures { IsTrue result ↔ IsOlder saved.now current.now ckpt }
{
    if saved.guid != current.guid || saved.txg >= current.txg {
        return false;
    }
    ckpt == CkptPart::Held(saved.txg) && are_rows_still(saved, current)
}

/// The root in the block that a head has of a held checkpoint, beside the root of that head. None where the block spells
/// none, or where it is no older root of the same pool, of the checkpoint's group, whose devices are still there.
pub fn saved_uber(current: &Uber, ckpt: CkptPart, block: &[u8]) -> Option<Uber>
    requires { length block.now ≡ 4096 }
    ensures { (r : image.Root) → r.uber ≡ current.now → r.parts.ckpt ≡ ckpt → Reads (IsSavedUber r block.now) result }
{
    let mut bytes = [0; 4096];
    bytes.copy_from_slice(block);
    let saved = Uber::decode(&bytes)?;
    if !is_older(&saved, current, ckpt) {
        return None;
    }
    Some(saved)
}

/// What is wrong with a saved root by itself, as what is wrong with the root that saved it.
fn as_saved(error: ImportErr) -> ImportErr
    ensures { result ≡ as_saved error }
{
    match error {
        ImportErr::Rule(_) => ImportErr::Rule(RULE),
        other => other,
    }
}

/// The metadata of a saved root, as `read_meta` reads it. Rule 8 is broken where it breaks a rule by itself.
pub fn read_saved_meta<B: Blocks>(
    alloc: Global,
    store: &mut B,
    uber: &Uber,
) -> Result<Meta, ImportErr>
    requires uber { IsUber uber.now }
    ensures follows { (start : B) → B.follows start store.old → B.follows start store.new }
    ensures costs { Costs 0 0 (B.account store.old) (B.account store.new) }
    ensures cause { HasSavedCause (B.account store.old) (B.account store.new) result }
    ensures same { (s : Stored) → B.holds store.old s → B.holds store.new s }
    ensures head { IfOk result (λ meta. IsHead (rows_of uber.now) meta.head) }
    ensures held { IfOk result (λ meta. All HasMaximal meta.parts.devs) }
    ensures few { IfOk result (λ meta. length meta.parts.devs ≤ 32) }
    ensures reads { (s : Stored) → B.holds store.old s → IfOk result (λ meta. ReadsMeta s uber.now meta.head meta.parts) }
    ensures marks { (s : Stored) → B.holds store.old s → IfOk result (λ meta. MarksServing uber.now.txg (rows_of uber.now) (meta_reach s uber.now meta.head)) }
    ensures at { (s : Stored) → B.holds store.old s → IfOk result (λ meta. meta.at ≡ map (λ b. b.at) (meta_reach s uber.now meta.head)) }
{
    match read_meta(alloc, store, uber) {
        Ok(meta) => Ok(meta),
        Err(error) => Err(as_saved(error)),
    }
}

/// Reads the directory and all objects of the saved root of a root that holds a checkpoint, as `read_root` reads them. Rule 8
/// is broken where the saved root breaks a rule by itself, where it holds a checkpoint itself, or where it does not fit the
/// root that saved it: it must have just the held units of now that no block has which was born behind the checkpoint.
pub fn read_saved<B: Blocks>(
    alloc: Global,
    store: &mut B,
    current: &Root,
    meta: Meta,
    txg: u64,
) -> Result<Root, ImportErr>
    requires dir { IsTree meta.head.dir }
    ensures root { IfOk result (λ saved. saved ≡ record { head = meta.head; parts = meta.parts; meta = meta.at; older = saved.older }) }
    ensures clear { OnOk result (meta.parts.ckpt ≡ Clear) }
    ensures fits { OnOk result (HaveHeld current.now.older meta.parts.devs) }
    ensures live { (s : Stored) → B.holds store.old s → OnOk result (MarksHeld txg meta.parts meta.at (all_reach s meta.head.dir)) }
    ensures place { (s : Stored) → B.holds store.old s → OnOk result (IsInPlace s meta.head.dir) }
    ensures follows { (start : B) → B.follows start store.old → B.follows start store.new }
    ensures costs { Costs 0 0 (B.account store.old) (B.account store.new) }
    ensures cause { HasSavedCause (B.account store.old) (B.account store.new) result }
    ensures same { (s : Stored) → B.holds store.old s → B.holds store.new s }
{
    let saved = match read_root(alloc, store, meta, txg) {
        Ok(saved) => saved,
        Err(error) => return Err(as_saved(error)),
    };
    if saved.parts.ckpt != CkptPart::Clear {
        return Err(ImportErr::Rule(RULE));
    }
    if !have_held(alloc, &current.older, saved.parts.devs.as_slice())? {
        return Err(ImportErr::Rule(RULE));
    }
    Ok(saved)
}
