//! Reading: the record of an object, and an object's block.
//!
//! A leaf that is a hole stands for sixteen objects that are not there, or for a block of zeros.
ghost use Rattle.std.specs.Prelude.{◌≡◌, ◌*◌, ◌/◌, ◌<◌, ◌≤◌, ◌∷◌, [], List, ℕ, length, replicate, IfOk, IfSome};
ghost use Rattle.std.specs.List.{AllByRecursion};
ghost use Rattle.zr_store.specs.Causes.{Costs, HasCause};
ghost use Rattle.zr_store.specs.Store.{Stored};
ghost use Rattle.zr_bptr.specs.Spelling.{IsTree, IsObject, SpellsRecords};
ghost use Rattle.zr_tree.specs.Trees.{own, tree_at, tree_reach, IsTreeWay};
ghost use Rattle.zr_objset.specs.Records.{records_in, record_of, block_of};
ghost use Rattle.zr_objset.specs.Errors.{IsNoLeaf, IsOtherSize, IsRecordLeaf, IsOfSize, TellsOfLeaves};

use std::alloc::{AllocError, Global};
use zr_bptr::{Bptr, ObjRec, Ptr, Tree, decode_records};
use zr_store::{Blocks, StoreErr};
use zr_tree::get;

/// The sixteen records of a leaf of the directory. It reads that block.
pub fn read_records<B: Blocks>(
    alloc: Global,
    store: &mut B,
    b: &Bptr,
) -> Result<Vec<Option<ObjRec>>, StoreErr>
    ensures follows { (start : B) → B.follows start store.old → B.follows start store.new }
    ensures costs { Costs 0 0 (B.account store.old) (B.account store.new) }
    ensures cause { HasCause 0 (B.account store.old) (B.account store.new) result }
    ensures same { (s : Stored) → B.holds store.old s → B.holds store.new s }
    ensures errors { (s : Stored) → B.holds store.old s → TellsOfLeaves s (b.now ∷ []) (b.now ∷ []) (IsNoLeaf s) result }
    ensures count { IfOk result (λ records. length records.items ≡ 16) }
    ensures lawful { IfOk result (λ records. AllByRecursion (λ r. IfSome r IsObject) records.items) }
    ensures formed { (s : Stored) → B.holds store.old s → IfOk result (λ records. SpellsRecords (s.bytes b.now) records.items) }
    ensures means { (s : Stored) → B.holds store.old s → IfOk result (λ records. records.items ≡ records_in (s.bytes b.now)) }
{
    let bytes = store.get(alloc, b)?;
    match decode_records(alloc, bytes.as_slice())? {
        None => Err(StoreErr::Malformed {
            at: b.at,
            expected: b.sum,
        }),
        Some(records) => Ok(records),
    }
}

/// The record of an object, None where there is no such object. It reads at most 4 blocks.
pub fn look<B: Blocks>(
    alloc: Global,
    store: &mut B,
    dir: &Tree,
    id: u32,
) -> Result<Option<ObjRec>, StoreErr>
    requires dir { IsTree dir.now }
    requires low { dir.now.height ≤ 3 }
    requires id { id < 65536 }
    ensures follows { (start : B) → B.follows start store.old → B.follows start store.new }
    ensures costs { Costs 0 0 (B.account store.old) (B.account store.new) }
    ensures cause { HasCause 0 (B.account store.old) (B.account store.new) result }
    ensures same { (s : Stored) → B.holds store.old s → B.holds store.new s }
    ensures errors { (s : Stored) → B.holds store.old s → TellsOfLeaves s (tree_reach s dir.now) (own (tree_at s dir.now (id / 16))) (IsNoLeaf s) result }
    ensures lawful { IfOk result (λ r. IfSome r IsObject) }
    ensures way { (s : Stored) → B.holds store.old s → IfOk result (λ r. IsTreeWay s dir.now (id / 16)) }
    ensures formed { (s : Stored) → B.holds store.old s → IfOk result (λ r. IsRecordLeaf s (tree_at s dir.now (id / 16))) }
    ensures record { (s : Stored) → B.holds store.old s → IfOk result (λ r. r ≡ record_of s dir.now id) }
{
    let leaf = get(alloc, store, dir, u64::from(id / 16))?;
    match &leaf {
        Ptr::Hole => Ok(None),
        Ptr::At(b) => {
            let records = read_records(alloc, store, b)?;
            Ok(records[(id % 16) as usize])
        }
    }
}

fn zeros(alloc: Global, units: u32) -> Result<Vec<u8>, AllocError>
    requires { units ≤ 32 }
    ensures { IfOk result (λ bytes. bytes.items ≡ replicate (4096 * units) 0) }
{
    vec![in alloc; 0; 4096 * units as usize]
}

/// The bytes of an object's block: zeros where it is a hole. It reads at most 6 blocks.
pub fn block<B: Blocks>(
    alloc: Global,
    store: &mut B,
    rec: &ObjRec,
    index: u64,
) -> Result<Vec<u8>, StoreErr>
    requires { IsObject rec.now }
    ensures follows { (start : B) → B.follows start store.old → B.follows start store.new }
    ensures costs { Costs 0 0 (B.account store.old) (B.account store.new) }
    ensures cause { HasCause 0 (B.account store.old) (B.account store.new) result }
    ensures same { (s : Stored) → B.holds store.old s → B.holds store.new s }
    ensures errors { (s : Stored) → B.holds store.old s → TellsOfLeaves s (tree_reach s rec.now.tree) (own (tree_at s rec.now.tree index)) (IsOtherSize rec.now.units) result }
    ensures way { (s : Stored) → B.holds store.old s → IfOk result (λ bytes. IsTreeWay s rec.now.tree index) }
    ensures size { (s : Stored) → B.holds store.old s → IfOk result (λ bytes. IsOfSize rec.now.units (tree_at s rec.now.tree index)) }
    ensures bytes { (s : Stored) → B.holds store.old s → IfOk result (λ bytes. bytes.items ≡ block_of s rec.now index) }
{
    let leaf = get(alloc, store, &rec.tree, index)?;
    let b = match &leaf {
        Ptr::Hole => return Ok(zeros(alloc, rec.units)?),
        Ptr::At(b) => b,
    };
    if b.at.len != rec.units {
        return Err(StoreErr::Malformed {
            at: b.at,
            expected: b.sum,
        });
    }
    store.get(alloc, b)
}
