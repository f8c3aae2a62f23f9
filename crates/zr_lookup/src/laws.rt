//! The group's changes of an object, put over its tree, are what the look-ups answer; so a commit that puts them into the
//! tree changes nothing that is read.
ghost use Rattle.std.specs.Prelude.{◌≡◌, ℕ};
ghost use Rattle.zr_bptr.specs.declared.ObjRec.{ObjRec};
ghost use Rattle.zr_store.specs.Store.{Stored};
ghost use Rattle.zr_tree.specs.Trees.{tree_at, updated};
ghost use Rattle.zr_txg.specs.Tables.{IsRising};
ghost use Rattle.zr_txg.specs.Changes.{Changes, changes_in};
ghost use Rattle.zr_lookup.specs.Objects.{pointer_now};

/// A tree with the changes of the group has at each index the pointer that `pointer_of` answers.
pub fn changes_over_tree()
    ensures { (s : Stored) (g : Changes) (id : ℕ) (r : ObjRec) (index : ℕ) → IsRising (changes_in g id) → updated (changes_in g id) index (tree_at s r.tree index) ≡ pointer_now s g id r index }
{}
