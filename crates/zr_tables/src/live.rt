//! The addresses that the live pointers of a pool have, met by a walk.
//!
//! The open group has its changes beside the directory of the last root. So each object is walked as it is now: a changed
//! block stands for the one in its tree, and the tree blocks are those of the last root until the commit. The tree of the
//! directory is walked for its leaves, so that IDs without a leaf cost no read.
ghost use Rattle.std.specs.Prelude.{◌≡◌, ◌≤◌, ◌<◌, ◌+◌, ◌*◌, ◌++◌, List, OnOk, IfOk, IfSome};
ghost use Rattle.zr_bptr.specs.declared.Bptr.{Bptr};
ghost use Rattle.zr_bptr.specs.declared.Tree.{Tree};
ghost use Rattle.zr_bptr.specs.Spelling.{IsTree, IsObject};
ghost use Rattle.zr_lookup.specs.Groups.{IsLawfulGroup};
ghost use Rattle.zr_lookup.specs.Objects.{HasLeaves};
ghost use Rattle.zr_tree.specs.Trees.{tree_at};
ghost use Rattle.zr_txg.specs.Tables.{IsRising};
ghost use Rattle.zr_store.specs.Causes.{Costs, HasCause};
ghost use Rattle.zr_store.specs.Store.{Stored};
ghost use Rattle.zr_vdev.specs.Stores.{addresses_of};
ghost use Rattle.zr_tables.specs.Walks.{AreBlocksOf, AreMetBelow, AreLiveAddresses};

use std::alloc::{AllocError, Global};
use zr_base::Dva;
use zr_bptr::{Bptr, ObjRec, Tree};
use zr_lookup::{blocks_of, leaves_in, record_by, records_at};
use zr_store::{Blocks, StoreErr};
use zr_tree::walk;
use zr_txg::Group;

// How many leaves a directory may have: each has the records of sixteen objects.
const LEAVES: u32 = 4096;

/// Puts the addresses of pointers behind others.
pub(crate) fn put_addresses(out: &mut Vec<Dva>, pointers: &[Bptr]) -> Result<(), AllocError>
    ensures { OnOk result (out.new.items ≡ out.old.items ++ addresses_of pointers.now) }
{
    for pointer in pointers {
        out.push(pointer.at)?;
    }
    Ok(())
}

// Puts the addresses of an object's blocks behind others; none where it is not there.
fn put_object<B: Blocks>(
    alloc: Global,
    store: &mut B,
    group: &Group,
    id: u32,
    object: &Option<ObjRec>,
    out: &mut Vec<Dva>,
) -> Result<(), StoreErr>
    requires group { IsLawfulGroup group.now }
    requires object { IfSome object.now IsObject }
    ensures follows { (start : B) → B.follows start store.old → B.follows start store.new }
    ensures costs { Costs 0 0 (B.account store.old) (B.account store.new) }
    ensures cause { HasCause 0 (B.account store.old) (B.account store.new) result }
    ensures same { (s : Stored) → B.holds store.old s → B.holds store.new s }
    ensures blocks { (s : Stored) → B.holds store.old s → OnOk result ((blocks : List Bptr) × AreBlocksOf s group.now id object.now blocks × (out.new.items ≡ out.old.items ++ addresses_of blocks)) }
{
    let Some(rec) = object else {
        return Ok(());
    };
    let blocks = blocks_of(alloc, store, group, id, rec)?;
    put_addresses(out, blocks.as_slice())?;
    Ok(())
}

// Puts the addresses of the blocks of the sixteen objects of a leaf of the directory behind others.
fn put_leaf<B: Blocks>(
    alloc: Global,
    store: &mut B,
    leaves: &[(u64, Bptr)],
    group: &Group,
    index: u32,
    out: &mut Vec<Dva>,
) -> Result<(), StoreErr>
    requires leaves { IsRising leaves.now }
    requires group { IsLawfulGroup group.now }
    requires few { index < 4096 }
    ensures follows { (start : B) → B.follows start store.old → B.follows start store.new }
    ensures costs { Costs 0 0 (B.account store.old) (B.account store.new) }
    ensures cause { HasCause 0 (B.account store.old) (B.account store.new) result }
    ensures same { (s : Stored) → B.holds store.old s → B.holds store.new s }
    ensures met { (s : Stored) (dir : Tree) → B.holds store.old s → HasLeaves (tree_at s dir) leaves.now → AreMetBelow s dir group.now (16 * index) out.old.items → OnOk result (AreMetBelow s dir group.now (16 * (index + 1)) out.new.items) }
{
    let records = records_at(alloc, store, leaves, u64::from(index))?;
    for place in 0..16 {
        let id = 16 * index + place;
        let object = record_by(records.as_slice(), group, id);
        put_object(alloc, store, group, id, &object, out)?;
    }
    Ok(())
}

/// The addresses of the blocks of the directory, and then those of each object that is there as the group has it, by
/// rising ID. It reads each tree block of the directory twice, each of its leaves once, and each tree block of an object
/// once. For IDs without a leaf or a change it reads nothing.
pub fn live_addresses<B: Blocks>(
    alloc: Global,
    store: &mut B,
    dir: &Tree,
    group: &Group,
) -> Result<Vec<Dva>, StoreErr>
    requires dir { IsTree dir.now }
    requires low { dir.now.height ≤ 3 }
    requires group { IsLawfulGroup group.now }
    ensures follows { (start : B) → B.follows start store.old → B.follows start store.new }
    ensures costs { Costs 0 0 (B.account store.old) (B.account store.new) }
    ensures cause { HasCause 0 (B.account store.old) (B.account store.new) result }
    ensures same { (s : Stored) → B.holds store.old s → B.holds store.new s }
    ensures live { (s : Stored) → B.holds store.old s → IfOk result (λ live. AreLiveAddresses s dir.now group.now live.items) }
{
    let own = walk(alloc, store, dir)?;
    let leaves = leaves_in(alloc, store, dir)?;
    let mut out = Vec::new(alloc);
    put_addresses(&mut out, own.as_slice())?;
    for index in 0..LEAVES {
        put_leaf(alloc, store, leaves.as_slice(), group, index, &mut out)?;
    }
    Ok(out)
}
