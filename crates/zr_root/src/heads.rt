//! The string of bytes of a head, whose tree has the height that follows from their number.
ghost use Rattle.std.specs.Prelude.{◌≡◌, ◌+◌, ◌*◌, ◌/◌, ◌^◌, ◌<◌, ◌≤◌, List, [], ℕ, length, map, IfOk};
ghost use Rattle.std.specs.Int.{div_ceil};
ghost use Rattle.zr_base.specs.Trees.{IsHeight};
ghost use Rattle.zr_bptr.specs.declared.Tree.{Tree};
ghost use Rattle.zr_store.specs.Causes.{Costs, HasCause};
ghost use Rattle.zr_store.specs.Store.{Stored};
ghost use Rattle.zr_tree.specs.Trees.{tree_reach, tree_blocks, TellsOf};
ghost use Rattle.zr_root.specs.Streams.{IsRootOf, IsTreeFor, HasBytes};
ghost use Rattle.zr_root.specs.Levels.{TellsOfForm};

use crate::reads::read_bytes;
use crate::streams::addresses;
use std::alloc::Global;
use zr_base::Dva;
use zr_bptr::{Ptr, Tree};
use zr_owed::height;
use zr_store::{Blocks, StoreErr};
use zr_tree::walk;

/// The tree of so many bytes with this root.
fn tree_for(root: &Ptr, len: u64) -> Tree
    requires { len ≤ 2 ^ 37 }
    ensures tree { IsTreeFor len root.now result }
    ensures low { result.height ≤ 5 }
{
    Tree {
        root: *root,
        height: height(len.div_ceil(4096)),
    }
}

/// The `len` bytes of a head.
pub fn read_root<B: Blocks>(
    alloc: Global,
    store: &mut B,
    root: &Ptr,
    len: u64,
) -> Result<Vec<u8>, StoreErr>
    requires some { 0 < len }
    requires most { len ≤ 2 ^ 37 }
    requires root { (t : Tree) → IsTreeFor len root.now t → IsRootOf t.height t.root }
    ensures follows { (start : B) → B.follows start store.old → B.follows start store.new }
    ensures costs { Costs 0 0 (B.account store.old) (B.account store.new) }
    ensures cause { HasCause 0 (B.account store.old) (B.account store.new) result }
    ensures same { (s : Stored) → B.holds store.old s → B.holds store.new s }
    ensures errors { (s : Stored) → B.holds store.old s → (t : Tree) → IsTreeFor len root.now t → TellsOfForm s (tree_reach s t) (λ b. (bytes : List ℕ) → length bytes ≡ len → ¬ HasBytes s t bytes) result }
    ensures len { IfOk result (λ bytes. length bytes.items ≡ len) }
    ensures bytes { (s : Stored) → B.holds store.old s → (t : Tree) → IsTreeFor len root.now t → IfOk result (λ bytes. HasBytes s t bytes.items) }
{
    let t = tree_for(root, len);
    let bytes = read_bytes(alloc, store, &t, len)?;
    Ok(bytes)
}

/// The addresses of the blocks of a head, each block before what lies below it.
pub fn units_of<B: Blocks>(
    alloc: Global,
    store: &mut B,
    root: &Ptr,
    len: u64,
) -> Result<Vec<Dva>, StoreErr>
    requires most { len ≤ 2 ^ 37 }
    requires root { (t : Tree) → IsTreeFor len root.now t → IsRootOf t.height t.root }
    ensures follows { (start : B) → B.follows start store.old → B.follows start store.new }
    ensures costs { Costs 0 0 (B.account store.old) (B.account store.new) }
    ensures cause { HasCause 0 (B.account store.old) (B.account store.new) result }
    ensures same { (s : Stored) → B.holds store.old s → B.holds store.new s }
    ensures errors { (s : Stored) → B.holds store.old s → (t : Tree) → IsTreeFor len root.now t → TellsOf s (tree_blocks s t) result }
    ensures units { (s : Stored) → B.holds store.old s → (t : Tree) → IsTreeFor len root.now t → IfOk result (λ ats. ats.items ≡ map (λ b. b.at) (tree_reach s t)) }
{
    let t = tree_for(root, len);
    let bs = walk(alloc, store, &t)?;
    let ats = addresses(alloc, bs.as_slice())?;
    Ok(ats)
}
