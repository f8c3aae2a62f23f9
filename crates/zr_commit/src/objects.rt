//! Writing a group: the trees of the changed objects, and then the directory.
//!
//! The changed blocks themselves were written at their commands. What is left for the commit are the tree blocks that
//! lead to them, object by object, and the leaves of the directory with the new records.
ghost use Rattle.std.specs.Prelude.{◌≡◌, ◌+◌, ◌*◌, ◌^◌, ◌<◌, ◌≤◌, ◌++◌, List, [], ℕ, length, map, take, All, IfOk, IfSome};
ghost use Rattle.zr_bptr.specs.Spelling.{IsTree, IsObject};
ghost use Rattle.zr_store.specs.Causes.{Costs, HasCause};
ghost use Rattle.zr_store.specs.Store.{Stored, Now, AreStored};
ghost use Rattle.zr_tree.specs.Trees.{AreLeaves, Rises, TellsOf, tree_reach};
ghost use Rattle.zr_objset.specs.Changes.{RisesById};
ghost use Rattle.zr_objset.specs.Errors.{IsNoLeaf, TellsOfLeaves};
ghost use Rattle.zr_txg.specs.Tables.{IsRising};
ghost use Rattle.zr_txg.specs.Changes.{block_count};
ghost use Rattle.zr_lookup.specs.Groups.{IsLawfulGroup};
ghost use Rattle.zr_commit.specs.Objects.{object_blocks, blocks_of, WritesObject, WritesObjects, WritesGroup, entry};

use std::alloc::Global;
use zr_bptr::{ObjRec, Ptr, Tree};
use zr_store::{Blocks, StoreErr};
use zr_tree::set_all;
use zr_txg::Group;

// Writes the tree of an object with its changed blocks, and answers the record. A dropped object has none.
fn write_object<B: Blocks>(
    alloc: Global,
    store: &mut B,
    object: Option<ObjRec>,
    changes: &[(u64, Ptr)],
) -> Result<Option<ObjRec>, StoreErr>
    requires object { IfSome object IsObject }
    requires below { All (λ change. change.0 < 2 ^ 25) changes.now }
    requires leaves { AreLeaves changes.now }
    requires rises { Rises changes.now }
    ensures follows { (start : B) → B.follows start store.old → B.follows start store.new }
    ensures costs { Costs (5 * length changes.now + 4) (5 * length changes.now) (B.account store.old) (B.account store.new) }
    ensures cause { HasCause (5 * length changes.now + 4) (B.account store.old) (B.account store.new) result }
    ensures errors { (s : Stored) → B.holds store.old s → AreStored (object_blocks s object) s → TellsOf s (object_blocks s object) result }
    ensures object { IfOk result (λ r. IfSome r IsObject) }
    ensures writes { (s : Stored) → B.holds store.old s → AreStored (object_blocks s object) s → IfOk result (λ r. Now (B.holds store.new) (λ n. WritesObject changes.now s n object r)) }
{
    let Some(r) = object else {
        return Ok(None);
    };
    let tree = set_all(alloc, store, &r.tree, changes)?;
    Ok(Some(ObjRec {
        units: r.units,
        tree,
    }))
}

// Writes the changed object that has `i` changed ones below it, and answers its ID and its record.
fn write_at<B: Blocks>(
    alloc: Global,
    store: &mut B,
    group: &Group,
    i: u64,
) -> Result<(u32, Option<ObjRec>), StoreErr>
    requires group { IsLawfulGroup group.now }
    requires rising { IsRising group.now.objects }
    requires within { i < length group.now.objects }
    ensures follows { (start : B) → B.follows start store.old → B.follows start store.new }
    ensures costs { Costs (5 * length (entry group.now.objects i).1.blocks + 4) (5 * length (entry group.now.objects i).1.blocks) (B.account store.old) (B.account store.new) }
    ensures cause { HasCause (5 * length (entry group.now.objects i).1.blocks + 4) (B.account store.old) (B.account store.new) result }
    ensures errors { (s : Stored) → B.holds store.old s → AreStored (object_blocks s (entry group.now.objects i).1.object) s → TellsOf s (object_blocks s (entry group.now.objects i).1.object) result }
    ensures id { IfOk result (λ r. r.0 ≡ (entry group.now.objects i).0) }
    ensures object { IfOk result (λ r. IfSome r.1 IsObject) }
    ensures writes { (s : Stored) → B.holds store.old s → AreStored (object_blocks s (entry group.now.objects i).1.object) s → IfOk result (λ r. Now (B.holds store.new) (λ n. WritesObject (entry group.now.objects i).1.blocks s n (entry group.now.objects i).1.object r.1)) }
{
    let id = group.id_at(i);
    let Some(object) = group.object(id) else {
        unreachable!()
    };
    let record = write_object(alloc, store, object, group.changes(id))?;
    Ok((id, record))
}

// Writes the trees of the changed objects by rising ID, and answers their records.
fn write_objects<B: Blocks>(
    alloc: Global,
    store: &mut B,
    group: &Group,
) -> Result<Vec<(u32, Option<ObjRec>)>, StoreErr>
    requires group { IsLawfulGroup group.now }
    ensures follows { (start : B) → B.follows start store.old → B.follows start store.new }
    ensures costs { Costs (5 * block_count group.now.objects + 4 * length group.now.objects) (5 * block_count group.now.objects) (B.account store.old) (B.account store.new) }
    ensures cause { HasCause (5 * block_count group.now.objects + 4 * length group.now.objects) (B.account store.old) (B.account store.new) result }
    ensures errors { (s : Stored) → B.holds store.old s → AreStored (blocks_of s group.now.objects) s → TellsOf s (blocks_of s group.now.objects) result }
    ensures ids { IfOk result (λ records. map (λ r. r.0) records.items ≡ map (λ e. e.0) group.now.objects) }
    ensures objects { IfOk result (λ records. All (λ r. IfSome r.1 IsObject) records.items) }
    ensures writes { (s : Stored) → B.holds store.old s → AreStored (blocks_of s group.now.objects) s → IfOk result (λ records. Now (B.holds store.new) (λ n. WritesObjects s n group.now.objects records.items)) }
{
    let mut records = Vec::new(alloc);
    for i in 0..group.objects() {
        let record = write_at(alloc, store, group, i)?;
        records.push(record)?;
    }
    Ok(records)
}

/// Writes the trees of the objects that a group changed, and the directory with their records; a dropped object's is
/// taken out. The old tree blocks and the old leaves of the directory are given back. The blocks of objects are not
/// touched: those that a command replaced or dropped were freed by it. At most five blocks a changed block and ten a
/// changed object are put, also where the answer is an error.
pub fn write_group<B: Blocks>(
    alloc: Global,
    store: &mut B,
    dir: &Tree,
    group: &Group,
) -> Result<Tree, StoreErr>
    requires dir { IsTree dir.now }
    requires low { dir.now.height ≤ 3 }
    requires group { IsLawfulGroup group.now }
    ensures follows { (start : B) → B.follows start store.old → B.follows start store.new }
    ensures costs { Costs (5 * block_count group.now.objects + 10 * length group.now.objects) (5 * block_count group.now.objects + 4 * length group.now.objects) (B.account store.old) (B.account store.new) }
    ensures cause { HasCause (5 * block_count group.now.objects + 10 * length group.now.objects) (B.account store.old) (B.account store.new) result }
    ensures errors { (s : Stored) → B.holds store.old s → AreStored (blocks_of s group.now.objects ++ tree_reach s dir.now) s → TellsOfLeaves s (blocks_of s group.now.objects ++ tree_reach s dir.now) (tree_reach s dir.now) (IsNoLeaf s) result }
    ensures dir { IfOk result IsTree }
    ensures low { IfOk result (λ u. u.height ≤ 3) }
    ensures writes { (s : Stored) → B.holds store.old s → AreStored (blocks_of s group.now.objects ++ tree_reach s dir.now) s → IfOk result (λ u. Now (B.holds store.new) (λ n. WritesGroup s n group.now dir.now u)) }
{
    if group.objects() == 0 {
        return Ok(*dir);
    }
    let records = write_objects(alloc, store, group)?;
    zr_objset::store(alloc, store, dir, records.as_slice())
}
