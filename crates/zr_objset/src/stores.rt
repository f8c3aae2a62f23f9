//! Storing: the records of changed objects leaf by leaf, and then the directory's tree.
//!
//! The changes are taken in runs that fall into one leaf. Its leaf is written anew for each run, also where no record
//! differs, and one without any object becomes a hole. The old leaves are given back when the new directory stands.
ghost use Rattle.std.specs.Prelude.{◌≡◌, ◌≢◌, ◌+◌, ◌*◌, ◌/◌, ◌%◌, ◌<◌, ◌≤◌, ◌↔◌, List, [], ◌∷◌, ℕ, length, map, take, All, IsTrue, Option, None, IfOk, OnOk, IfSome, slice_index_or};
ghost use Rattle.std.specs.List.{AllByRecursion, flat_map};
ghost use Rattle.zr_bptr.specs.Spelling.{IsTree, IsObject};
ghost use Rattle.zr_bptr.specs.declared.ObjRec.{ObjRec};
ghost use Rattle.zr_store.specs.Causes.{Costs, HasCause};
ghost use Rattle.zr_store.specs.Store.{Stored, Now, AreStored, Swaps};
ghost use Rattle.zr_tree.specs.Blocks.{FitsAt};
ghost use Rattle.zr_tree.specs.Trees.{own, tree_at, tree_reach, AreLeaves, Rises, IsTreeWay, TellsOf};
ghost use Rattle.zr_objset.specs.Records.{record_in};
ghost use Rattle.zr_objset.specs.Errors.{IsNoLeaf, IsRecordLeaf, TellsOfLeaves};
ghost use Rattle.zr_objset.specs.Changes.{changed, RisesById, AllIn, leaves_of, PutsLeaf, ChangesLeaf, PutsLeaves, StoresRecords};

use crate::reads::read_records;
use std::alloc::{AllocError, Global};
use zr_bptr::{ObjRec, Ptr, Tree, encode_records};
use zr_store::{Blocks, StoreErr};
use zr_tree::{get, set_all};

fn no_records(alloc: Global) -> Result<Vec<Option<ObjRec>>, AllocError>
    ensures count { IfOk result (λ records. length records.items ≡ 16) }
    ensures lawful { IfOk result (λ records. AllByRecursion (λ r. IfSome r IsObject) records.items) }
    ensures none { IfOk result (λ records. (k : ℕ) → slice_index_or records.items k None ≡ None) }
{
    Vec::from_slice(alloc, &[None; 16])
}

// The records of a leaf, or of none.
fn open_leaf<B: Blocks>(
    alloc: Global,
    store: &mut B,
    leaf: &Ptr,
) -> Result<Vec<Option<ObjRec>>, StoreErr>
    ensures follows { (start : B) → B.follows start store.old → B.follows start store.new }
    ensures costs { Costs 0 0 (B.account store.old) (B.account store.new) }
    ensures cause { HasCause 0 (B.account store.old) (B.account store.new) result }
    ensures same { (s : Stored) → B.holds store.old s → B.holds store.new s }
    ensures errors { (s : Stored) → B.holds store.old s → TellsOfLeaves s (own leaf.now) (own leaf.now) (IsNoLeaf s) result }
    ensures count { IfOk result (λ records. length records.items ≡ 16) }
    ensures lawful { IfOk result (λ records. AllByRecursion (λ r. IfSome r IsObject) records.items) }
    ensures formed { (s : Stored) → B.holds store.old s → IfOk result (λ records. IsRecordLeaf s leaf.now) }
    ensures means { (s : Stored) → B.holds store.old s → IfOk result (λ records. (k : ℕ) → record_in s leaf.now k ≡ slice_index_or records.items k None) }
{
    match leaf {
        Ptr::Hole => Ok(no_records(alloc)?),
        Ptr::At(b) => Ok(read_records(alloc, store, b)?),
    }
}

// The records of one leaf with the changes.
fn change_records(records: &mut Vec<Option<ObjRec>>, place: u32, run: &[(u32, Option<ObjRec>)])
    requires count { length records.old.items ≡ 16 }
    requires lawful { AllByRecursion (λ r. IfSome r IsObject) records.old.items }
    requires objects { All (λ change. IfSome change.1 IsObject) run.now }
    requires here { AllIn place run.now }
    ensures count { length records.new.items ≡ 16 }
    ensures lawful { AllByRecursion (λ r. IfSome r IsObject) records.new.items }
    ensures records { (id : ℕ) → id / 16 ≡ place → slice_index_or records.new.items (id % 16) None ≡ changed run.now id (slice_index_or records.old.items (id % 16) None) }
{
    for change in run {
        records[(change.0 % 16) as usize] = change.1;
    }
}

fn are_none(records: &[Option<ObjRec>]) -> bool
    ensures { IsTrue result ↔ All (λ r. r ≡ None) records.now }
{
    records.iter().all(|r| r.is_none())
}

// A leaf of these records, or a hole.
fn put_leaf<B: Blocks>(
    alloc: Global,
    store: &mut B,
    records: &[Option<ObjRec>],
) -> Result<Ptr, StoreErr>
    requires count { length records.now ≡ 16 }
    requires lawful { AllByRecursion (λ r. IfSome r IsObject) records.now }
    ensures follows { (start : B) → B.follows start store.old → B.follows start store.new }
    ensures costs { Costs 1 0 (B.account store.old) (B.account store.new) }
    ensures cause { HasCause 1 (B.account store.old) (B.account store.new) result }
    ensures errors { (s : Stored) → TellsOf s [] result }
    ensures fits { IfOk result (FitsAt 0) }
    ensures puts { (s : Stored) → B.holds store.old s → IfOk result (λ p. Now (B.holds store.new) (λ n. PutsLeaf records.now s n p)) }
{
    if are_none(records) {
        return Ok(Ptr::Hole);
    }
    let bytes = encode_records(alloc, records)?;
    let b = store.put(alloc, bytes.as_slice(), 0)?;
    Ok(Ptr::At(b))
}

// A leaf with the changes in place of this one.
fn change_leaf<B: Blocks>(
    alloc: Global,
    store: &mut B,
    old: &Ptr,
    place: u32,
    run: &[(u32, Option<ObjRec>)],
) -> Result<Ptr, StoreErr>
    requires objects { All (λ change. IfSome change.1 IsObject) run.now }
    requires here { AllIn place run.now }
    ensures follows { (start : B) → B.follows start store.old → B.follows start store.new }
    ensures costs { Costs 1 0 (B.account store.old) (B.account store.new) }
    ensures cause { HasCause 1 (B.account store.old) (B.account store.new) result }
    ensures errors { (s : Stored) → B.holds store.old s → TellsOfLeaves s (own old.now) (own old.now) (IsNoLeaf s) result }
    ensures fits { IfOk result (FitsAt 0) }
    ensures changes { (s : Stored) → B.holds store.old s → IfOk result (λ p. Now (B.holds store.new) (λ n. ChangesLeaf place run.now s n old.now p)) }
{
    let mut records = open_leaf(alloc, store, old)?;
    change_records(&mut records, place, run);
    let new = put_leaf(alloc, store, records.as_slice())?;
    Ok(new)
}

// How many changes from the first on fall into this leaf.
fn run_len(rest: &[(u32, Option<ObjRec>)], place: u32) -> usize
    ensures within { result ≤ length rest.now }
    ensures here { AllIn place (take result rest.now) }
    ensures some { (d : ℕ × Option ObjRec) → 0 < length rest.now → (slice_index_or rest.now 0 d).0 / 16 ≡ place → 0 < result }
    ensures past { (d : ℕ × Option ObjRec) → result < length rest.now → (slice_index_or rest.now result d).0 / 16 ≢ place }
{
    for (i, change) in rest.iter().enumerate() {
        if change.0 / 16 != place {
            return i;
        }
    }
    rest.len()
}

// A leaf for each in which there are changes, by its place in the directory; the leaves that stand there go to `olds`.
fn put_leaves<B: Blocks>(
    alloc: Global,
    store: &mut B,
    dir: &Tree,
    changes: &[(u32, Option<ObjRec>)],
    olds: &mut Vec<Ptr>,
) -> Result<Vec<(u64, Ptr)>, StoreErr>
    requires dir { IsTree dir.now }
    requires ids { All (λ change. change.0 < 65536) changes.now }
    requires rises { RisesById changes.now }
    requires objects { All (λ change. IfSome change.1 IsObject) changes.now }
    requires empty { olds.old.items ≡ [] }
    ensures follows { (start : B) → B.follows start store.old → B.follows start store.new }
    ensures costs { Costs (length changes.now) 0 (B.account store.old) (B.account store.new) }
    ensures cause { HasCause (length changes.now) (B.account store.old) (B.account store.new) result }
    ensures errors { (s : Stored) → B.holds store.old s → AreStored (tree_reach s dir.now) s → TellsOfLeaves s (tree_reach s dir.now) (leaves_of s dir.now changes.now) (IsNoLeaf s) result }
    ensures count { IfOk result (λ news. length news.items ≤ length changes.now) }
    ensures places { IfOk result (λ news. All (λ leaf. leaf.0 < 4096) news.items) }
    ensures rises { IfOk result (λ news. Rises news.items) }
    ensures leaves { IfOk result (λ news. AreLeaves news.items) }
    ensures same_count { IfOk result (λ news. length olds.new.items ≡ length news.items) }
    ensures olds { (s : Stored) → B.holds store.old s → AreStored (tree_reach s dir.now) s → IfOk result (λ news. olds.new.items ≡ map (λ leaf. tree_at s dir.now leaf.0) news.items) }
    ensures puts { (s : Stored) → B.holds store.old s → AreStored (tree_reach s dir.now) s → IfOk result (λ news. Now (B.holds store.new) (λ n. PutsLeaves dir.now changes.now s n news.items)) }
{
    let mut news = Vec::new(alloc);
    let mut from = 0;
    while from < changes.len() {
        let rest = &changes[from..];
        let place = rest[0].0 / 16;
        let n = run_len(rest, place);
        let old = get(alloc, store, dir, u64::from(place))?;
        let new = change_leaf(alloc, store, &old, place, &rest[..n])?;
        olds.push(old)?;
        news.push((u64::from(place), new))?;
        from += n;
    }
    Ok(news)
}

// Gives back a leaf.
fn free_leaf<B: Blocks>(alloc: Global, store: &mut B, leaf: &Ptr) -> Result<(), StoreErr>
    ensures follows { (start : B) → B.follows start store.old → B.follows start store.new }
    ensures costs { Costs 0 1 (B.account store.old) (B.account store.new) }
    ensures cause { HasCause 0 (B.account store.old) (B.account store.new) result }
    ensures errors { (s : Stored) → TellsOf s [] result }
    ensures swaps { (s : Stored) → B.holds store.old s → AreStored (own leaf.now) s → OnOk result (Now (B.holds store.new) (λ n. Swaps s n (own leaf.now) [])) }
{
    match leaf {
        Ptr::Hole => Ok(()),
        Ptr::At(b) => store.free(alloc, b),
    }
}

// Gives back leaves.
fn free_leaves<B: Blocks>(alloc: Global, store: &mut B, leaves: &[Ptr]) -> Result<(), StoreErr>
    ensures follows { (start : B) → B.follows start store.old → B.follows start store.new }
    ensures costs { Costs 0 (length leaves.now) (B.account store.old) (B.account store.new) }
    ensures cause { HasCause 0 (B.account store.old) (B.account store.new) result }
    ensures errors { (s : Stored) → TellsOf s [] result }
    ensures swaps { (s : Stored) → B.holds store.old s → AreStored (flat_map own leaves.now) s → OnOk result (Now (B.holds store.new) (λ n. Swaps s n (flat_map own leaves.now) [])) }
{
    for leaf in leaves {
        free_leaf(alloc, store, leaf)?;
    }
    Ok(())
}

/// Changes the records of objects, None for one that is to be gone. The old tree blocks and the old leaves of the changed
/// objects are given back; their own blocks are not touched. At most four blocks a change are put and given back, and two
/// more are put where the directory grows, also where the answer is an error.
pub fn store<B: Blocks>(
    alloc: Global,
    store: &mut B,
    dir: &Tree,
    changes: &[(u32, Option<ObjRec>)],
) -> Result<Tree, StoreErr>
    requires dir { IsTree dir.now }
    requires low { dir.now.height ≤ 3 }
    requires ids { All (λ change. change.0 < 65536) changes.now }
    requires rises { RisesById changes.now }
    requires objects { All (λ change. IfSome change.1 IsObject) changes.now }
    ensures follows { (start : B) → B.follows start store.old → B.follows start store.new }
    ensures costs { Costs (4 * length changes.now + 2) (4 * length changes.now) (B.account store.old) (B.account store.new) }
    ensures cause { HasCause (4 * length changes.now + 2) (B.account store.old) (B.account store.new) result }
    ensures errors { (s : Stored) → B.holds store.old s → AreStored (tree_reach s dir.now) s → TellsOfLeaves s (tree_reach s dir.now) (leaves_of s dir.now changes.now) (IsNoLeaf s) result }
    ensures dir { IfOk result IsTree }
    ensures low { IfOk result (λ u. u.height ≤ 3) }
    ensures way { (s : Stored) → B.holds store.old s → AreStored (tree_reach s dir.now) s → IfOk result (λ u. All (λ change. IsTreeWay s dir.now (change.0 / 16)) changes.now) }
    ensures formed { (s : Stored) → B.holds store.old s → AreStored (tree_reach s dir.now) s → IfOk result (λ u. All (λ change. IsRecordLeaf s (tree_at s dir.now (change.0 / 16))) changes.now) }
    ensures stores { (s : Stored) → B.holds store.old s → AreStored (tree_reach s dir.now) s → IfOk result (λ u. Now (B.holds store.new) (λ n. StoresRecords changes.now s n dir.now u)) }
{
    let mut olds = Vec::new(alloc);
    let news = put_leaves(alloc, store, dir, changes, &mut olds)?;
    let new = set_all(alloc, store, dir, news.as_slice())?;
    free_leaves(alloc, store, olds.as_slice())?;
    Ok(new)
}
