//! The directory and all objects, and the use of each unit.
//!
//! The walk frees each block that it meets of a space of the root. So a pointer that leads to units that are not held, or to
//! which another pointer led, is refused when it is met, and behind the walk all held units must be gone but the kept ones.
ghost use Rattle.std.specs.Prelude.{◌≡◌, ◌+◌, ◌*◌, ◌^◌, ◌<◌, ◌≤◌, ◌↔◌, ◌++◌, [], List, ℕ, length, All, IfOk, IfErr, IfSome, OnOk, IsTrue, ◌⊎◌};
ghost use Rattle.zr_bptr.specs.Spelling.{IsTree, IsObject};
ghost use Rattle.zr_store.specs.Causes.{Costs};
ghost use Rattle.zr_store.specs.Store.{Stored};
ghost use Rattle.zr_image.specs.Roots.{HasRootSize};
ghost use Rattle.zr_import.specs.Causes.{HasCause};
ghost use Rattle.std.specs.List.{flat_map};
ghost use Rattle.zr_tree.specs.Trees.{tree_reach};
ghost use Rattle.zr_objset.specs.Records.{all_reach};
ghost use Rattle.zr_import.specs.Directories.{recorded, objects_in, HasItsLength, IsInPlace};
ghost use Rattle.zr_import.specs.Spending.{HaveKept, SpendsBlock};
ghost use Rattle.zr_import.specs.Units.{MarksAll, young_of};
ghost use Rattle.zr_import.specs.declared.errors.ImportErr.TheVariants.{NoMemory, Rule};

use crate::blocks::read;
use crate::errors::ImportErr;
use crate::mark::Mark;
use crate::spent::{Spent, have_kept};
use crate::walks::{Found, Kept, Shape, walk_tree};
use std::alloc::Global;
use zr_base::SpaceParts;
use zr_bptr::{Bptr, ObjRec, Ptr, Tree, decode_records};
use zr_store::Blocks;

/// Whether an object that is one leaf has a leaf of its block size.
fn has_root_size(r: &ObjRec) -> bool
    ensures { IsTrue result ↔ HasRootSize r.now }
{
    match &r.tree.root {
        Ptr::Hole => true,
        Ptr::At(b) => r.tree.height > 0 || b.at.len == r.units,
    }
}

/// The object of a record, where there is one.
fn add_object(objects: &mut Vec<ObjRec>, record: &Option<ObjRec>) -> Result<(), ImportErr>
    requires lawful { IfSome record.now IsObject }
    requires before { All IsObject objects.old.items }
    requires sizes { All HasRootSize objects.old.items }
    ensures lawful { All IsObject objects.new.items }
    ensures sized { All HasRootSize objects.new.items }
    ensures objects { OnOk result (objects.new.items ≡ objects.old.items ++ recorded record.now) }
    ensures errors { IfErr result (λ e. (e ≡ NoMemory) ⊎ (e ≡ Rule 1)) }
{
    match record {
        None => Ok(()),
        Some(r) => {
            if !has_root_size(r) {
                return Err(ImportErr::Rule(1));
            }
            objects.push(*r)?;
            Ok(())
        }
    }
}

/// The objects of these records.
fn add_objects(objects: &mut Vec<ObjRec>, records: &[Option<ObjRec>]) -> Result<(), ImportErr>
    requires lawful { All (λ r. IfSome r IsObject) records.now }
    requires before { All IsObject objects.old.items }
    requires sizes { All HasRootSize objects.old.items }
    ensures lawful { All IsObject objects.new.items }
    ensures sized { All HasRootSize objects.new.items }
    ensures objects { OnOk result (objects.new.items ≡ objects.old.items ++ flat_map recorded records.now) }
    ensures errors { IfErr result (λ e. (e ≡ NoMemory) ⊎ (e ≡ Rule 1)) }
{
    for record in records {
        add_object(objects, record)?;
    }
    Ok(())
}

/// The objects of a leaf of the directory; a tree block has none.
fn read_objects<B: Blocks>(
    alloc: Global,
    store: &mut B,
    b: &Bptr,
    objects: &mut Vec<ObjRec>,
) -> Result<(), ImportErr>
    requires before { All IsObject objects.old.items }
    requires sizes { All HasRootSize objects.old.items }
    ensures follows { (start : B) → B.follows start store.old → B.follows start store.new }
    ensures costs { Costs 0 0 (B.account store.old) (B.account store.new) }
    ensures cause { HasCause (B.account store.old) (B.account store.new) result }
    ensures same { (s : Stored) → B.holds store.old s → B.holds store.new s }
    ensures lawful { All IsObject objects.new.items }
    ensures sized { All HasRootSize objects.new.items }
    ensures objects { (s : Stored) → B.holds store.old s → OnOk result (objects.new.items ≡ objects.old.items ++ objects_in s b.now) }
{
    if b.level != 0 {
        return Ok(());
    }
    let bytes = read(alloc, store, b)?;
    let Some(records) = decode_records(alloc, bytes.as_slice())? else {
        return Err(ImportErr::Rule(1));
    };
    add_objects(objects, records.as_slice())
}

/// The objects of the leaves of the directory, by rising ID.
fn read_directory<B: Blocks>(
    alloc: Global,
    store: &mut B,
    met: &[Bptr],
) -> Result<Vec<ObjRec>, ImportErr>
    ensures follows { (start : B) → B.follows start store.old → B.follows start store.new }
    ensures costs { Costs 0 0 (B.account store.old) (B.account store.new) }
    ensures cause { HasCause (B.account store.old) (B.account store.new) result }
    ensures same { (s : Stored) → B.holds store.old s → B.holds store.new s }
    ensures lawful { IfOk result (λ objects. All IsObject objects.items) }
    ensures sized { IfOk result (λ objects. All HasRootSize objects.items) }
    ensures objects { (s : Stored) → B.holds store.old s → IfOk result (λ objects. objects.items ≡ flat_map (objects_in s) met.now) }
{
    let mut objects = Vec::new(alloc);
    for b in met {
        read_objects(alloc, store, b, &mut objects)?;
    }
    Ok(objects)
}

/// The tree of an object, whose leaves are marked and not read.
fn walk_object<B: Blocks, M: Mark>(
    alloc: Global,
    store: &mut B,
    marks: &mut M,
    txg: u64,
    r: &ObjRec,
    found: &mut Found,
) -> Result<(), ImportErr>
    requires lawful { IsObject r.now }
    requires sized { HasRootSize r.now }
    ensures length { (s : Stored) → B.holds store.old s → OnOk result (HasItsLength s r.now) }
    ensures marks { (s : Stored) → B.holds store.old s → OnOk result (MarksAll M.marks txg marks.old marks.new (tree_reach s r.now.tree)) }
    ensures follows { (start : B) → B.follows start store.old → B.follows start store.new }
    ensures costs { Costs 0 0 (B.account store.old) (B.account store.new) }
    ensures cause { HasCause (B.account store.old) (B.account store.new) result }
    ensures same { (s : Stored) → B.holds store.old s → B.holds store.new s }
{
    let shape = Shape {
        txg,
        leaf_units: r.units,
        leaves: 1 << 25,
        full: false,
        kept: Kept::Nothing,
    };
    walk_tree(alloc, store, marks, &shape, &r.tree, found)
}

/// The tree of the directory, then its leaves, then the trees of its objects by rising ID.
fn walk_all<B: Blocks, M: Mark>(
    alloc: Global,
    store: &mut B,
    marks: &mut M,
    txg: u64,
    dir: &Tree,
    found: &mut Found,
) -> Result<(), ImportErr>
    requires dir { IsTree dir.now }
    requires first { found.old.met.items ≡ [] }
    ensures marks { (s : Stored) → B.holds store.old s → OnOk result (MarksAll M.marks txg marks.old marks.new (all_reach s dir.now)) }
    ensures place { (s : Stored) → B.holds store.old s → OnOk result (IsInPlace s dir.now) }
    ensures follows { (start : B) → B.follows start store.old → B.follows start store.new }
    ensures costs { Costs 0 0 (B.account store.old) (B.account store.new) }
    ensures cause { HasCause (B.account store.old) (B.account store.new) result }
    ensures same { (s : Stored) → B.holds store.old s → B.holds store.new s }
{
    let shape = Shape {
        txg,
        leaf_units: 1,
        leaves: 4096,
        full: false,
        kept: Kept::Pointers,
    };
    walk_tree(alloc, store, marks, &shape, dir, found)?;
    let objects = read_directory(alloc, store, found.met.as_slice())?;
    for r in objects.iter() {
        walk_object(alloc, store, marks, txg, r, found)?;
    }
    Ok(())
}

/// Walks the directory and all objects of a root with these parts, and frees each block of what is left of its space. Rule 1 is
/// broken where a block or a leaf is outside its form; rule 7 where a pointer is younger than the root, or leads where it may
/// not, or a held unit is neither met nor kept. Leaves of objects are not read. Each block costs what it costs to free it.
pub fn walk_objects<B: Blocks>(
    alloc: Global,
    store: &mut B,
    spent: &mut Spent,
    parts: &SpaceParts,
    dir: &Tree,
    txg: u64,
) -> Result<(), ImportErr>
    requires dir { IsTree dir.now }
    ensures left { (s : Stored) → B.holds store.old s → OnOk result (MarksAll SpendsBlock txg spent.old.left spent.new.left (all_reach s dir.now)) }
    ensures older { (s : Stored) → B.holds store.old s → OnOk result (MarksAll SpendsBlock txg spent.old.older spent.new.older (young_of spent.old.since (all_reach s dir.now))) }
    ensures kept { OnOk result (HaveKept spent.new.left parts.now.devs) }
    ensures place { (s : Stored) → B.holds store.old s → OnOk result (IsInPlace s dir.now) }
    ensures follows { (start : B) → B.follows start store.old → B.follows start store.new }
    ensures costs { Costs 0 0 (B.account store.old) (B.account store.new) }
    ensures cause { HasCause (B.account store.old) (B.account store.new) result }
    ensures same { (s : Stored) → B.holds store.old s → B.holds store.new s }
{
    let mut found = Found::new(alloc);
    walk_all(alloc, store, spent, txg, dir, &mut found)?;
    if !have_kept(alloc, &spent.left, parts.devs.as_slice())? {
        return Err(ImportErr::Rule(7));
    }
    Ok(())
}
