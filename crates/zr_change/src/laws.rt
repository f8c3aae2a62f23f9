//! What a change leaves of an object, block by block.
ghost use Rattle.std.specs.Prelude.{◌≡◌, ◌≢◌, ◌++◌, ℕ, List, All};
ghost use Rattle.zr_bptr.specs.declared.ObjRec.{ObjRec};
ghost use Rattle.zr_store.specs.Store.{Stored, AreStored, IsOnce};
ghost use Rattle.zr_tree.specs.Trees.{own, tree_blocks};
ghost use Rattle.zr_txg.specs.Changes.{Changes};
ghost use Rattle.zr_lookup.specs.Objects.{pointer_now, block_now};
ghost use Rattle.zr_change.specs.declared.ranges.Edit.{Edit};
ghost use Rattle.zr_change.specs.declared.plans.Planned.{Planned};
ghost use Rattle.zr_change.specs.Edits.{IsEdited};
ghost use Rattle.zr_change.specs.Plans.{IsPlannedFor, IsChanged, olds_of};

/// After a change by a plan each planned block is what it was with the edit. Each other block, of any object, is what it
/// was, if it and the tree blocks that lead to it are stored beside the old blocks.
pub fn frame()
    ensures edited { (id : ℕ) (r : ObjRec) (e : Edit) (plan : List Planned) (s : Stored) (g : Changes) (n : Stored) (h : Changes) → All (IsPlannedFor s g id r e) plan → IsChanged id r plan s g n h → All (λ p. IsEdited e r.units p.index (block_now s g id r p.index) (block_now n h id r p.index)) plan }
    ensures others { (id : ℕ) (r : ObjRec) (plan : List Planned) (s : Stored) (g : Changes) (n : Stored) (h : Changes) → IsChanged id r plan s g n h → IsOnce s → (i k : ℕ) (o : ObjRec) → (i ≡ id → All (λ p. p.index ≢ k) plan) → AreStored (olds_of plan ++ (tree_blocks s o.tree ++ own (pointer_now s g i o k))) s → block_now n h i o k ≡ block_now s g i o k }
{}
