//! Writing a head, and giving one back.
//!
//! The head is spelled as a string of bytes and stored as a tree of one-unit leaves. A root has the pointer to that tree
//! and the number of bytes, from which the height of the tree follows.
ghost use Rattle.std.specs.Prelude.{◌≡◌, ◌*◌, ◌^◌, ◌≤◌, List, [], ℕ, length, IfOk, OnOk};
ghost use Rattle.std.specs.Int.{div_ceil};
ghost use Rattle.zr_base.specs.Trees.{tree_units};
ghost use Rattle.zr_bptr.specs.declared.Tree.{Tree};
ghost use Rattle.zr_label.specs.Blocks.{IsMetaRoot};
ghost use Rattle.zr_store.specs.Causes.{Costs, HasCause};
ghost use Rattle.zr_store.specs.Store.{Stored, Now, AreStored, Swaps};
ghost use Rattle.zr_tree.specs.Trees.{tree_reach, tree_blocks, TellsOf};
ghost use Rattle.zr_meta.specs.Heads.{IsHead, head_words};
ghost use Rattle.zr_root.specs.Streams.{IsTreeFor};
ghost use Rattle.zr_commit.specs.Heads.{StoresHead};

use crate::trees::free_tree;
use std::alloc::Global;
use zr_base::DevRow;
use zr_bptr::{Ptr, Tree};
use zr_meta::{Head, encode_head};
use zr_owed::height;
use zr_root::write_root;
use zr_store::{Blocks, StoreErr};

/// Stores the head of a root with these devices. The answer is the root of its tree and its length in bytes, a multiple
/// of eight of at most 35,016. Nothing is given back: the old head is the caller's.
pub fn write_head<B: Blocks>(
    alloc: Global,
    store: &mut B,
    h: &Head,
    table: &[DevRow],
) -> Result<(Ptr, u64), StoreErr>
    requires head { IsHead table.now h.now }
    requires devices { length table.now ≤ 32 }
    ensures follows { (start : B) → B.follows start store.old → B.follows start store.new }
    ensures adds { (start : B) → B.adds start store.old → OnOk result (B.adds start store.new) }
    ensures costs { Costs (tree_units (div_ceil (head_words h.now) 512)) 0 (B.account store.old) (B.account store.new) }
    ensures cause { HasCause (tree_units (div_ceil (head_words h.now) 512)) (B.account store.old) (B.account store.new) result }
    ensures errors { (s : Stored) → TellsOf s [] result }
    ensures root { IfOk result (λ head. IsMetaRoot head.0 head.1) }
    ensures len { IfOk result (λ head. head.1 ≡ 8 * head_words h.now) }
    ensures short { IfOk result (λ head. head.1 ≤ 35016) }
    ensures stores { (s : Stored) → B.holds store.old s → IfOk result (λ head. Now (B.holds store.new) (λ n. StoresHead table.now s n h.now head.0 head.1)) }
{
    let bytes = encode_head(alloc, h, table)?;
    let root = write_root(alloc, store, bytes.as_slice())?;
    Ok((root, bytes.len() as u64))
}

/// Gives back the blocks of a head of so many bytes, as its root names it. Each tree block is read, and no leaf. After an
/// error some of the blocks may have been given back.
pub fn free_head<B: Blocks>(
    alloc: Global,
    store: &mut B,
    root: &Ptr,
    len: u64,
) -> Result<(), StoreErr>
    requires root { IsMetaRoot root.now len }
    requires most { len ≤ 2 ^ 37 }
    ensures follows { (start : B) → B.follows start store.old → B.follows start store.new }
    ensures puts { (frees : ℕ) × Costs 0 frees (B.account store.old) (B.account store.new) }
    ensures costs { (s : Stored) (t : Tree) → B.holds store.old s → IsTreeFor len root.now t → Costs 0 (length (tree_reach s t)) (B.account store.old) (B.account store.new) }
    ensures cause { HasCause 0 (B.account store.old) (B.account store.new) result }
    ensures errors { (s : Stored) (t : Tree) → B.holds store.old s → IsTreeFor len root.now t → TellsOf s (tree_blocks s t) result }
    ensures swaps { (s : Stored) (t : Tree) → B.holds store.old s → IsTreeFor len root.now t → AreStored (tree_reach s t) s → OnOk result (Now (B.holds store.new) (λ n. Swaps s n (tree_reach s t) [])) }
{
    let t = Tree {
        root: *root,
        height: height(len.div_ceil(4096)),
    };
    free_tree(alloc, store, &t)
}
