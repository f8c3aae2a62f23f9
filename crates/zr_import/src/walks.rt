//! Walks of trees that mark each block before they read it.
//!
//! What stands where is tested as soon as the block above is read: a hole where a leaf must be, a block where none may
//! be, a leaf of another length. Then the pointers are gone below in order, and each is marked before its block is read.
//! Each level ends by its number, so that a walk goes at most five blocks deep.
ghost use Rattle.std.specs.Prelude.{◌≡◌, ◌≢◌, ◌+◌, ◌-◌, ◌*◌, ◌^◌, ◌<◌, ◌≤◌, ◌↔◌, ◌++◌, ◌∷◌, [], List, ℕ, length, true, All, IfOk, IfErr, OnOk, IsTrue, ◌⊎◌};
ghost use Rattle.zr_bptr.specs.Spelling.{IsTree, IsPointer};
ghost use Rattle.zr_bptr.specs.declared.Ptr.TheVariants.{At};
ghost use Rattle.zr_store.specs.Causes.{Costs};
ghost use Rattle.zr_store.specs.Store.{Stored};
ghost use Rattle.zr_tree.specs.Blocks.{FitsAt};
ghost use Rattle.zr_tree.specs.Trees.{kids, reach, leaves_below, tree_reach, IsWhole, IsSoundAt};
ghost use Rattle.zr_import.specs.Causes.{HasCause};
ghost use Rattle.zr_import.specs.declared.errors.ImportErr.TheVariants.{NoMemory, Rule};
ghost use Rattle.zr_import.specs.declared.walks.Kept.TheVariants.{Nothing, Bytes};
ghost use Rattle.zr_import.specs.Units.{MarksAll, Meets};
ghost use Rattle.zr_import.specs.Shapes.{MayStand, StandFrom, StandBelow, HasFirst, AddsLeaves, ReadsTree};

use crate::blocks::{read_pointers, read_unit};
use crate::errors::ImportErr;
use crate::mark::Mark;
use crate::marks::Marks;
use std::alloc::{AllocError, Global};
use zr_bptr::{Bptr, Ptr, Tree};
use zr_store::Blocks;

/// What becomes of the blocks of a walk beside their marks: they are listed and their leaves read, or they are listed, or
/// neither.
#[derive(Clone, Copy, PartialEq, Eq, Debug)]
pub(crate) enum Kept {
    Bytes,
    Pointers,
    Nothing,
}

/// What a walk goes by: the group of its root, the units of a leaf, the index at and behind which no block stands, whether no
/// hole stands before it, and what is kept.
#[derive(Clone, Copy, PartialEq, Eq, Debug)]
pub(crate) struct Shape {
    pub txg: u64,
    pub leaf_units: u32,
    pub leaves: u64,
    pub full: bool,
    pub kept: Kept,
}

/// What a walk met: its blocks, each before what lies below it, and the bytes of its leaves.
#[derive(Drop)]
pub(crate) struct Found {
    pub met: Vec<Bptr>,
    pub bytes: Vec<u8>,
}

impl Found {
    /// Nothing yet.
    pub(crate) fn new(alloc: Global) -> Found
        ensures met { result.met.items ≡ [] }
        ensures bytes { result.bytes.items ≡ [] }
    {
        Found {
            met: Vec::new(alloc),
            bytes: Vec::new(alloc),
        }
    }
}

/// How many leaves are below a block of a level.
fn width_of(level: u32) -> u64
    requires { level ≤ 5 }
    ensures width { result ≡ 32 ^ level }
    ensures small { level < 5 → result ≤ 1048576 }
{
    match level {
        0 => 1,
        1 => 32,
        2 => 1024,
        3 => 32768,
        4 => 1048576,
        _ => 33554432,
    }
}

/// Whether a pointer may stand at an index.
fn may_stand(shape: &Shape, level: u32, index: u64, p: &Ptr) -> bool
    ensures { IsTrue result ↔ MayStand shape.now level index p.now }
{
    match p {
        Ptr::Hole => !shape.full || shape.leaves <= index,
        Ptr::At(b) => index < shape.leaves && (level > 0 || b.at.len == shape.leaf_units),
    }
}

/// Whether the pointers of a block may stand from an index on.
fn are_in_place(shape: &Shape, level: u32, index: u64, pointers: &[Ptr]) -> bool
    requires low { level < 5 }
    requires index { index ≤ 2 ^ 40 }
    requires count { length pointers.now ≡ 32 }
    ensures { IsTrue result ↔ StandFrom shape.now level index pointers.now }
{
    let width = width_of(level);
    let mut at = index;
    for p in pointers {
        if !may_stand(shape, level, at, p) {
            return false;
        }
        at += width;
    }
    true
}

/// Marks a pointer that is not younger than the root.
fn meet<M: Mark>(marks: &mut M, txg: u64, b: &Bptr) -> Result<(), ImportErr>
    ensures marks { OnOk result (MarksAll M.marks txg marks.old marks.new (b.now ∷ [])) }
    ensures birth { OnOk result (b.now.birth ≤ txg) }
    ensures errors { IfErr result (λ e. (e ≡ NoMemory) ⊎ (e ≡ Rule 7)) }
{
    if b.birth > txg {
        return Err(ImportErr::Rule(7));
    }
    if !marks.mark(b)? {
        return Err(ImportErr::Rule(7));
    }
    Ok(())
}

/// Keeps what is kept of a block that was marked.
fn keep<B: Blocks>(
    alloc: Global,
    store: &mut B,
    kept: Kept,
    level: u32,
    b: &Bptr,
    found: &mut Found,
) -> Result<(), ImportErr>
    ensures met { kept ≢ Nothing → OnOk result (found.new.met.items ≡ found.old.met.items ++ b.now ∷ []) }
    ensures leaf { (s : Stored) → B.holds store.old s → kept ≡ Bytes → level ≡ 0 → OnOk result (AddsLeaves s (b.now ∷ []) found.old.bytes.items found.new.bytes.items) }
    ensures block { 0 < level → OnOk result (found.new.bytes.items ≡ found.old.bytes.items) }
    ensures follows { (start : B) → B.follows start store.old → B.follows start store.new }
    ensures costs { Costs 0 0 (B.account store.old) (B.account store.new) }
    ensures cause { HasCause (B.account store.old) (B.account store.new) result }
    ensures same { (s : Stored) → B.holds store.old s → B.holds store.new s }
{
    if kept == Kept::Nothing {
        return Ok(());
    }
    found.met.push(*b)?;
    if kept == Kept::Bytes && level == 0 {
        let bytes = read_unit(alloc, store, b)?;
        found.bytes.extend_from_slice(bytes.as_slice())?;
    }
    Ok(())
}

/// The pointers of a tree block, each of which may stand in its place.
fn pointers_below<B: Blocks>(
    alloc: Global,
    store: &mut B,
    shape: &Shape,
    below: u32,
    index: u64,
    b: &Bptr,
) -> Result<Vec<Ptr>, ImportErr>
    requires low { below < 5 }
    requires index { index ≤ 2 ^ 40 }
    ensures count { IfOk result (λ pointers. length pointers.items ≡ 32) }
    ensures fit { IfOk result (λ pointers. All (FitsAt below) pointers.items) }
    ensures means { (s : Stored) → B.holds store.old s → IfOk result (λ pointers. pointers.items ≡ kids s below b.now) }
    ensures whole { (s : Stored) → B.holds store.old s → b.now.level ≡ below + 1 → IfOk result (λ pointers. IsWhole s b.now) }
    ensures stand { IfOk result (λ pointers. StandFrom shape.now below index pointers.items) }
    ensures follows { (start : B) → B.follows start store.old → B.follows start store.new }
    ensures costs { Costs 0 0 (B.account store.old) (B.account store.new) }
    ensures cause { HasCause (B.account store.old) (B.account store.new) result }
    ensures same { (s : Stored) → B.holds store.old s → B.holds store.new s }
{
    let pointers = read_pointers(alloc, store, below, b)?;
    if !are_in_place(shape, below, index, pointers.as_slice()) {
        return Err(ImportErr::Rule(1));
    }
    Ok(pointers)
}

/// Goes below a pointer of a level whose first leaf has this index.
fn walk_below<B: Blocks, M: Mark>(
    alloc: Global,
    store: &mut B,
    marks: &mut M,
    shape: &Shape,
    level: u32,
    index: u64,
    p: &Ptr,
    found: &mut Found,
) -> Result<(), ImportErr>
    requires tall { level ≤ 5 }
    requires index { index ≤ 2 ^ 26 * (5 - level) }
    ensures met { (s : Stored) → B.holds store.old s → shape.now.kept ≢ Nothing → OnOk result (found.new.met.items ≡ found.old.met.items ++ reach s level p.now) }
    ensures sound { (s : Stored) → B.holds store.old s → FitsAt level p.now → OnOk result (IsSoundAt s level p.now) }
    ensures marks { (s : Stored) → B.holds store.old s → OnOk result (MarksAll M.marks shape.now.txg marks.old marks.new (reach s level p.now)) }
    ensures bytes { (s : Stored) → B.holds store.old s → shape.now.kept ≡ Bytes → OnOk result (AddsLeaves s (leaves_below s level p.now) found.old.bytes.items found.new.bytes.items) }
    ensures stand { (s : Stored) → B.holds store.old s → MayStand shape.now level index p.now → OnOk result (StandBelow s shape.now level index p.now) }
    ensures first { (s : Stored) → B.holds store.old s → shape.now.full ≡ true → MayStand shape.now level index p.now → OnOk result (HasFirst s shape.now.leaves shape.now.leaf_units level index p.now) }
    ensures follows { (start : B) → B.follows start store.old → B.follows start store.new }
    ensures costs { Costs 0 0 (B.account store.old) (B.account store.new) }
    ensures cause { HasCause (B.account store.old) (B.account store.new) result }
    ensures same { (s : Stored) → B.holds store.old s → B.holds store.new s }
{
    let Ptr::At(b) = p else {
        return Ok(());
    };
    meet(marks, shape.txg, b)?;
    keep(alloc, store, shape.kept, level, b, found)?;
    if level == 0 {
        return Ok(());
    }
    let below = level - 1;
    let pointers = pointers_below(alloc, store, shape, below, index, b)?;
    let width = width_of(below);
    let mut at = index;
    for next in pointers.iter() {
        walk_below(alloc, store, marks, shape, below, at, next, found)?;
        at += width;
    }
    Ok(())
}

/// Walks a tree, and adds to what was found.
pub(crate) fn walk_tree<B: Blocks, M: Mark>(
    alloc: Global,
    store: &mut B,
    marks: &mut M,
    shape: &Shape,
    t: &Tree,
    found: &mut Found,
) -> Result<(), ImportErr>
    requires { IsTree t.now }
    ensures met { (s : Stored) → B.holds store.old s → shape.now.kept ≢ Nothing → OnOk result (found.new.met.items ≡ found.old.met.items ++ tree_reach s t.now) }
    ensures sound { (s : Stored) → B.holds store.old s → OnOk result (IsSoundAt s t.now.height t.now.root) }
    ensures stand { (s : Stored) → B.holds store.old s → MayStand shape.now t.now.height 0 t.now.root → OnOk result (StandBelow s shape.now t.now.height 0 t.now.root) }
    ensures marks { (s : Stored) → B.holds store.old s → OnOk result (MarksAll M.marks shape.now.txg marks.old marks.new (tree_reach s t.now)) }
    ensures follows { (start : B) → B.follows start store.old → B.follows start store.new }
    ensures costs { Costs 0 0 (B.account store.old) (B.account store.new) }
    ensures cause { HasCause (B.account store.old) (B.account store.new) result }
    ensures same { (s : Stored) → B.holds store.old s → B.holds store.new s }
{
    walk_below(alloc, store, marks, shape, t.height, 0, &t.root, found)
}

/// The bytes of a tree of so many leaves of one unit, and its blocks behind those that were met before. A pointer that is
/// younger than the group, or that may not be marked, breaks rule 7; a block or a leaf outside its form, a hole before the
/// last leaf and a block behind it rule 1. Each block is marked and then read, by rising index.
pub(crate) fn read_marked<B: Blocks>(
    alloc: Global,
    store: &mut B,
    marks: &mut Marks,
    root: &Bptr,
    leaves: u64,
    txg: u64,
    met: &mut Vec<Bptr>,
) -> Result<Vec<u8>, ImportErr>
    requires root { IsPointer root.now }
    requires some { 0 < leaves }
    requires leaves { leaves ≤ 2 ^ 48 }
    ensures follows { (start : B) → B.follows start store.old → B.follows start store.new }
    ensures costs { Costs 0 0 (B.account store.old) (B.account store.new) }
    ensures cause { HasCause (B.account store.old) (B.account store.new) result }
    ensures same { (s : Stored) → B.holds store.old s → B.holds store.new s }
    ensures len { IfOk result (λ bytes. length bytes.items ≡ 4096 * leaves) }
    ensures met { (s : Stored) → B.holds store.old s → OnOk result (met.new.items ≡ met.old.items ++ reach s root.now.level (At root.now)) }
    ensures sound { (s : Stored) → B.holds store.old s → OnOk result (IsSoundAt s root.now.level (At root.now)) }
    ensures marks { (s : Stored) → B.holds store.old s → OnOk result (MarksAll Meets txg marks.old marks.new (reach s root.now.level (At root.now))) }
    ensures bytes { (s : Stored) → B.holds store.old s → IfOk result (λ bytes. ReadsTree s (record { root = At root.now; height = root.now.level }) leaves bytes.items) }
{
    if root.at.len != 1 {
        return Err(ImportErr::Rule(1));
    }
    let shape = Shape {
        txg,
        leaf_units: 1,
        leaves,
        full: true,
        kept: Kept::Bytes,
    };
    let mut found = Found::new(alloc);
    let level = u32::from(root.level);
    walk_below(
        alloc,
        store,
        marks,
        &shape,
        level,
        0,
        &Ptr::At(*root),
        &mut found,
    )?;
    if found.bytes.len() as u64 != 4096 * leaves {
        return Err(ImportErr::Rule(1));
    }
    met.extend_from_slice(found.met.as_slice())?;
    Ok(found.bytes)
}
