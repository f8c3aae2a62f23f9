//! What calls on a store mean to the objects whose blocks it holds.
//!
//! The calls below say which blocks came and went, and what an object's bytes are by its pointers. Here that is joined to
//! one fact: the store has all blocks of an account, each once, and their bytes are these objects. Each law leads from it to
//! it, by the step that a pool of plain objects takes. Two objects share no block, so what is done to the blocks of one
//! leaves the bytes of all others alone.
#![tactic(auto)]

ghost use Rattle.std.specs.Prelude.{◌≡◌, ◌<◌, ◌+◌, ◌++◌, false, [], ℕ, List, Option, Some, None, All, length, map, slice_index};
ghost use Rattle.std.specs.FinMap as fin;
ghost use Rattle.zr_bptr.specs.declared.Bptr.{Bptr};
ghost use Rattle.zr_bptr.specs.declared.ObjRec.{ObjRec};
ghost use Rattle.zr_change.specs.Changes.{SetsObject};
ghost use Rattle.zr_change.specs.Edits.{byte_put, touched};
ghost use Rattle.zr_change.specs.Plans.{IsChanged, IsPlannedFor, olds_of};
ghost use Rattle.zr_change.specs.declared.plans.Planned.{Planned};
ghost use Rattle.zr_change.specs.declared.ranges.Edit.{Edit};
ghost use Rattle.zr_commit.specs.Objects.{WritesGroup, blocks_of};
ghost use Rattle.zr_tree.specs.Trees.{tree_reach};
ghost use Rattle.zr_lookup.specs.Errors.{IsSoundPointer};
ghost use Rattle.zr_lookup.specs.Groups.{IsLawfulGroup};
ghost use Rattle.zr_lookup.specs.Objects.{record_now, pointer_now, byte_now, AreObjectBlocks, IsTouched};
ghost use Rattle.zr_model.specs.Objects.{Object, Objects, blank, bytes_at, with_bytes, reads_lost, changes_lost, has_lost};
ghost use Rattle.zr_moves.specs.Account.{Account};
ghost use Rattle.zr_moves.specs.Changes.{new_record};
ghost use Rattle.zr_store.specs.Store.{Stored, Swaps, AreStored, IsOnce};
ghost use Rattle.zr_txg.specs.Changes.{IsGroup};
ghost use Rattle.zr_held.specs.Held.{HasObjects, AreAllOf};
ghost use Rattle.zr_held.specs.Steps.{IsObjectOf, no_tree};

/// A store that holds the same pointers holds the same objects, of an account with the same directory and group: the bytes
/// behind a pointer that is stored stay.
pub fn same_objects()
    ensures { (s n : Stored) (a b : Account) (objects : Objects) → Swaps s n [] [] → b.dir ≡ a.dir → b.changes ≡ a.changes → HasObjects s a objects → HasObjects n b objects }
{}

/// A pool with no directory and an empty group has no objects, where no block is stored.
pub fn no_objects()
    ensures { (s : Stored) (a : Account) → a.dir ≡ no_tree → a.changes.objects ≡ [] → s.pointers ≡ [] → IsOnce s → HasObjects s a fin.empty }
{}

/// There is an object exactly where there is a record, and it has the record's units.
pub fn object_found()
    ensures there { (s : Stored) (a : Account) (objects : Objects) (id : ℕ) (r : ObjRec) → HasObjects s a objects → record_now s a.dir a.changes id ≡ Some r → IsObjectOf objects id (λ o. o.units ≡ r.units) }
    ensures missing { (s : Stored) (a : Account) (objects : Objects) (id : ℕ) → HasObjects s a objects → record_now s a.dir a.changes id ≡ None → fin.get objects id ≡ None }
{}

/// What was found of an object is found again in a store that holds the same pointers: its record, its blocks, and what is
/// planned for them.
pub fn found_again()
    ensures record_is { (s n : Stored) (a : Account) (objects : Objects) (id : ℕ) (r : ObjRec) → Swaps s n [] [] → HasObjects s a objects → record_now s a.dir a.changes id ≡ Some r → record_now n a.dir a.changes id ≡ Some r }
    ensures blocks { (s n : Stored) (a : Account) (objects : Objects) (id : ℕ) (r : ObjRec) (blocks : List Bptr) → Swaps s n [] [] → HasObjects s a objects → record_now s a.dir a.changes id ≡ Some r → AreObjectBlocks s a.changes id r blocks → AreObjectBlocks n a.changes id r blocks }
    ensures plan { (s n : Stored) (a : Account) (objects : Objects) (id : ℕ) (r : ObjRec) (e : Edit) (plan : List Planned) → Swaps s n [] [] → HasObjects s a objects → record_now s a.dir a.changes id ≡ Some r → All (IsPlannedFor s a.changes id r e) plan → All (IsPlannedFor n a.changes id r e) plan }
{}

/// Bytes that were read of whole blocks are the object's, and the sum of each block that was read is right.
pub fn bytes_read()
    ensures { (s : Stored) (a : Account) (objects : Objects) (id : ℕ) (r : ObjRec) (off len : ℕ) (bytes : List ℕ) → HasObjects s a objects → record_now s a.dir a.changes id ≡ Some r → 0 < r.units
        → length bytes ≡ len → ((index : ℕ) → IsTouched r.units off len index → IsSoundPointer s r.units (pointer_now s a.changes id r index)) → ((k : ℕ) → k < len → slice_index bytes k ≡ byte_now s a.changes id r (off + k))
        → IsObjectOf objects id (λ o. (bytes ≡ bytes_at o.bytes off len) × (reads_lost o off len ≡ false)) }
{}

/// An object that the group now has without a block is a new one.
pub fn object_made()
    ensures { (s : Stored) (a b : Account) (objects : Objects) (id units : ℕ) → id < 65536 → b.dir ≡ a.dir → record_now s a.dir a.changes id ≡ None → SetsObject id (Some (new_record units)) a.changes b.changes
        → HasObjects s a objects → HasObjects s b (fin.insert objects id (blank units)) }
{}

/// All blocks of an object are stored. Where they went, and the group has the object as dropped, it is gone.
pub fn object_dropped()
    ensures stored { (s : Stored) (a : Account) (objects : Objects) (id : ℕ) (r : ObjRec) (blocks : List Bptr) → HasObjects s a objects → record_now s a.dir a.changes id ≡ Some r → AreObjectBlocks s a.changes id r blocks → AreStored blocks s }
    ensures dropped { (s n : Stored) (a b : Account) (objects : Objects) (id : ℕ) (r : ObjRec) (blocks : List Bptr) → id < 65536 → b.dir ≡ a.dir → record_now s a.dir a.changes id ≡ Some r → AreObjectBlocks s a.changes id r blocks
        → SetsObject id None a.changes b.changes → Swaps s n blocks [] → IsOnce n → HasObjects s a objects → HasObjects n b (fin.remove objects id) }
{}

/// The old blocks of a plan for a range of an object are stored. Where the plan is done, the object has the bytes of the edit
/// in that range, and no lost block was changed in part.
pub fn object_edited()
    ensures stored { (s : Stored) (a : Account) (objects : Objects) (id : ℕ) (r : ObjRec) (e : Edit) (plan : List Planned) → HasObjects s a objects → record_now s a.dir a.changes id ≡ Some r
        → map (λ p. p.index) plan ≡ touched r.units e → All (IsPlannedFor s a.changes id r e) plan → AreStored (olds_of plan) s }
    ensures edited { (s n : Stored) (a b : Account) (objects : Objects) (id : ℕ) (r : ObjRec) (e : Edit) (plan : List Planned) (bytes : List ℕ) → HasObjects s a objects → id < 65536 → record_now s a.dir a.changes id ≡ Some r → 0 < r.units → 0 < e.len
        → map (λ p. p.index) plan ≡ touched r.units e → All (IsPlannedFor s a.changes id r e) plan → b.dir ≡ a.dir → IsChanged id r plan s a.changes n b.changes → IsOnce n
        → length bytes ≡ e.len → ((k : ℕ) → k < e.len → slice_index bytes k ≡ byte_put e.bytes k)
        → IsObjectOf objects id (λ o. (changes_lost o e.off (length bytes) ≡ false) × HasObjects n b (fin.insert objects id (with_bytes o e.off bytes))) }
{}

/// All that a commit of the group gives back is stored. Behind it the objects are the same, and the group has none of them.
pub fn group_committed()
    ensures stored { (s : Stored) (a : Account) (objects : Objects) (count : ℕ) → IsGroup a.changes.objects count → IsLawfulGroup a.changes → HasObjects s a objects → AreStored (blocks_of s a.changes.objects ++ tree_reach s a.dir) s }
    ensures committed { (s n : Stored) (a b : Account) (objects : Objects) (count : ℕ) → IsGroup a.changes.objects count → IsLawfulGroup a.changes → WritesGroup s n a.changes a.dir b.dir → b.changes.objects ≡ [] → IsOnce n
        → HasObjects s a objects → HasObjects n b objects }
{}

/// Nothing else is stored: each block is one of the directory or of an object, as the account has them.
pub fn blocks_are_all()
    ensures { (s : Stored) (a : Account) (objects : Objects) → HasObjects s a objects → AreAllOf s a }
{}
