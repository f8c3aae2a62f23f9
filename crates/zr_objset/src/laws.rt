//! What the reading calls say stays as it is while its blocks stay, so that another tree may be changed meanwhile.
ghost use Rattle.std.specs.Prelude.{◌≡◌, ◌<◌, ◌++◌, ℕ, List};
ghost use Rattle.zr_bptr.specs.declared.Bptr.{Bptr};
ghost use Rattle.zr_bptr.specs.declared.Tree.{Tree};
ghost use Rattle.zr_bptr.specs.declared.ObjRec.{ObjRec};
ghost use Rattle.zr_store.specs.Store.{Stored, Swaps, AreStored, IsOnce, hits};
ghost use Rattle.zr_tree.specs.Trees.{tree_reach};
ghost use Rattle.zr_objset.specs.Records.{record_of, block_of, all_reach, KeepsObjects};

/// Stores that agree on the blocks of a directory and of its objects give it one meaning; so does a store that took in and
/// gave back other blocks. A record needs the directory's own blocks alone, and a block those of its object.
pub fn frame()
    ensures record { (old new : Stored) (dir : Tree) (id : ℕ) → ((b : Bptr) → 0 < hits (tree_reach old dir) b.at → new.bytes b ≡ old.bytes b) → record_of new dir id ≡ record_of old dir id }
    ensures block { (old new : Stored) (r : ObjRec) (index : ℕ) → ((b : Bptr) → 0 < hits (tree_reach old r.tree) b.at → new.bytes b ≡ old.bytes b) → block_of new r index ≡ block_of old r index }
    ensures objects { (old new : Stored) (dir : Tree) → ((b : Bptr) → 0 < hits (all_reach old dir) b.at → new.bytes b ≡ old.bytes b) → KeepsObjects old new dir }
    ensures others { (old new : Stored) (out into : List Bptr) (dir : Tree) → Swaps old new out into → IsOnce old → AreStored (out ++ all_reach old dir) old → KeepsObjects old new dir }
{}
