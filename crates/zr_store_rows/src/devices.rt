//! Two stores over one space, shelf and cache, one after the other; and blocks that are read where they were written.
ghost use Rattle.std.specs.Prelude.{◌≡◌, ◌≤◌, ◌<◌, ◌∷◌, [], length, IfOk, IfErr, IsErrOf, Some};
ghost use Rattle.zr_base.specs.declared.space.Policy.{Policy};
ghost use Rattle.zr_shelf.specs.Counts.{NoneFell};
ghost use Rattle.zr_rules.specs.Choices.{AreRuns, IsPick};
ghost use Rattle.zr_rules.specs.Columns.{free_units, uncopied_units};
ghost use Rattle.zr_rules.specs.Equation.{devices_in};
ghost use Rattle.zr_vdev.specs.Mounts.{AreMounted};
ghost use Rattle.zr_vdev.specs.Stores.{Continues};
ghost use Rattle.zr_vdev.specs.declared.copy.Copied.TheVariants.{Fault};
ghost use Rattle.zr_store.specs.declared.StoreErr.TheVariants.{Failed};

use std::alloc::Global;
use std::test::Fail;
use zr_base::{Dva, Extent, NoMemory, Policy};
use zr_bptr::{Bptr, Ptr, Tree};
use zr_cache::Cache;
use zr_choose::{Chooser, pick_first};
use zr_root::write_stream;
use zr_shelf::{Desk, Shelf, SureDesk};
use zr_space::Space;
use zr_store::{Blocks, StoreErr};
use zr_tree::set_all;
use zr_vdev::{Copied, Kind, Mount, NotPut, Place, Vdev, copy_step, get_block, put_block};

const NO_TREE: Tree = Tree {
    root: Ptr::Hole,
    height: 0,
};

// Puts a leaf and sets it in a tree.
fn put_leaf<B: Blocks>(alloc: Global, store: &mut B, bytes: &[u8; 4096]) -> Result<Tree, StoreErr>
    ensures { (start : B) → B.follows start store.old → B.follows start store.new }
{
    let leaf = store.put(alloc, bytes, 0)?;
    set_all(alloc, store, &NO_TREE, &[(0, Ptr::At(leaf))])
}

// The same with a store of its own.
fn put_tree<S: Shelf, P: Place>(
    alloc: Global,
    space: &mut Space,
    shelf: &mut S,
    cache: &mut Cache,
    mount: Mount<P>,
    bytes: &[u8; 4096],
) -> Result<Tree, StoreErr>
    requires mounted { AreMounted (S.sizes shelf.old) mount.slots.now (devices_in space.old) }
    requires group { 1 ≤ mount.txg }
    ensures { Continues mount.entry.kind mount.entry.slots.now (S.sizes shelf.old) (S.sizes shelf.new) (S.counts shelf.old) (S.counts shelf.new) (S.tells shelf.old) (S.tells shelf.new) (S.world shelf.old) (S.world shelf.new) space.old space.new cache.old cache.new }
{
    let mut store = Vdev::new(space, shelf, cache, mount);
    put_leaf(alloc, &mut store, bytes)
}

// Writes a stream, with a store of its own.
fn put_words<S: Shelf, P: Place>(
    alloc: Global,
    space: &mut Space,
    shelf: &mut S,
    cache: &mut Cache,
    mount: Mount<P>,
    words: &[u64; 3],
) -> Result<(), StoreErr>
    requires mounted { AreMounted (S.sizes shelf.old) mount.slots.now (devices_in space.old) }
    requires group { 1 ≤ mount.txg }
    ensures { Continues mount.entry.kind mount.entry.slots.now (S.sizes shelf.old) (S.sizes shelf.new) (S.counts shelf.old) (S.counts shelf.new) (S.tells shelf.old) (S.tells shelf.new) (S.world shelf.old) (S.world shelf.new) space.old space.new cache.old cache.new }
{
    let mut store = Vdev::new(space, shelf, cache, mount);
    let _stream = write_stream(alloc, &mut store, words)?;
    Ok(())
}

// A tree of blocks, and then a stream of metadata.
fn put_both<S: Shelf, P: Place>(
    alloc: Global,
    space: &mut Space,
    shelf: &mut S,
    cache: &mut Cache,
    slots: &[Option<u32>],
    pick: &P,
) -> Result<Tree, StoreErr>
    requires mounted { AreMounted (S.sizes shelf.old) slots.now (devices_in space.old) }
    ensures sizes { S.sizes shelf.new ≡ S.sizes shelf.old }
    ensures none_fell { NoneFell (S.counts shelf.old) (S.counts shelf.new) }
    ensures told { S.tells shelf.old → S.tells shelf.new }
    ensures mounted { AreMounted (S.sizes shelf.new) slots.now (devices_in space.new) }
{
    let blocks = Mount {
        slots,
        pick,
        txg: 2,
        kind: Kind::Block,
    };
    let tree = put_tree(alloc, space, shelf, cache, blocks, &[5; 4096])?;
    let metadata = Mount {
        slots,
        pick,
        txg: 2,
        kind: Kind::Meta,
    };
    put_words(alloc, space, shelf, cache, metadata, &[1, 2, 3])?;
    Ok(tree)
}

// Adds a device with a disk of its own.
fn one_device<D: Desk>(alloc: Global, desk: &mut D) -> Result<Space, Fail>
    requires { D.Shelf.sizes desk.old ≡ [] }
    ensures mounted { IfOk result (λ space. AreMounted (D.Shelf.sizes desk.new) (Some 0 ∷ []) (devices_in space)) }
{
    let slot = desk.attach("a", Some(8388608))?;
    if slot >= desk.slots() || desk.size(slot) < 8388608 {
        return Err(Fail::new("a small disk"));
    }
    let mut space = Space::new(alloc, 2);
    space.add_dev(896, 1)?;
    Ok(space)
}

// Reads a block from a disk that never fails: no answer is that it did.
pub fn read_surely(
    alloc: Global,
    space: &Space,
    desk: &mut SureDesk,
    cache: &mut Cache,
    slots: &[Option<u32>],
    b: &Bptr,
) -> Result<Vec<u8>, StoreErr>
    requires { AreMounted (⟦<SureDesk as Shelf>⟧.sizes desk.old) slots.now (devices_in space.now) }
    ensures never { IsErrOf result Failed → ⊥ }
    ensures mounted { AreMounted (⟦<SureDesk as Shelf>⟧.sizes desk.new) slots.now (devices_in space.now) }
{
    get_block(alloc, space, desk, cache, slots, b)
}

// Puts a block on such a disk, in the same way.
pub fn put_surely<P: Place>(
    alloc: Global,
    space: &mut Space,
    desk: &mut SureDesk,
    cache: &mut Cache,
    mount: &Mount<P>,
    bytes: &[u8; 4096],
) -> Result<Bptr, NotPut>
    requires mounted { AreMounted (⟦<SureDesk as Shelf>⟧.sizes desk.old) mount.now.slots.now (devices_in space.old) }
    requires group { 1 ≤ mount.now.txg }
    ensures never { IfErr result (λ e. e.error ≡ Failed → ⊥) }
{
    put_block(alloc, space, desk, cache, mount, bytes, 0)
}

// And so does a step of a removal, which is never given up.
pub fn copy_surely(
    alloc: Global,
    space: &mut Space,
    desk: &mut SureDesk,
    cache: &mut Cache,
    slots: &[Option<u32>],
    pick: &Chooser,
) -> Result<Copied, NoMemory>
    requires mounted { AreMounted (⟦<SureDesk as Shelf>⟧.sizes desk.old) slots.now (devices_in space.old) }
    requires room { uncopied_units space.old ≤ free_units space.old }
    ensures never { IfOk result (λ c. c ≡ Fault → ⊥) }
{
    copy_step(alloc, space, desk, cache, slots, pick)
}

#[test]
fn blocks_are_read_where_they_were_written(rt: HostRuntime) -> Result<(), Fail> {
    let alloc = rt.alloc();
    let first = Chooser::new(
        String::from_str(alloc, "first")?,
        Policy::First,
        Box::new(
            alloc,
            |want: u64, runs: &[Extent]| -> Option<usize>
                requires { (0 < want) × AreRuns runs.now }
                ensures { IsPick Policy.First want runs.entry.now result }
            { pick_first(want, runs) },
        )?,
    );
    let mut desk = SureDesk::new(alloc, Vec::new(alloc));
    let mut space = one_device(alloc, &mut desk)?;
    let mut cache = Cache::new(alloc, 8)?;
    let slots = [Some(0)];
    let tree = put_both(alloc, &mut space, &mut desk, &mut cache, &slots, &first)?;
    let Ptr::At(a) = tree.root else {
        return Err(Fail::new("no leaf"));
    };
    let moment = desk.moment();
    let mut empty = Cache::new(alloc, 1)?;
    assert_eq!(rt;
        read_surely(alloc, &space, &mut desk, &mut empty, &slots, &a)?.as_slice(),
        [5; 4096].as_slice()
    );
    let read = desk.moment();
    assert_ne!(rt; read, moment);
    assert_eq!(rt;
        get_block(alloc, &space, &mut desk, &mut empty, &slots, &a)?.len(),
        4096
    );
    assert_eq!(rt; desk.moment(), read);
    let other = Bptr { sum: [0; 32], ..a };
    let damaged = get_block(alloc, &space, &mut desk, &mut empty, &slots, &other);
    assert!(rt; matches!(damaged, Err(StoreErr::Damaged { .. })));
    let past = Bptr {
        at: Dva { start: 896, ..a.at },
        ..a
    };
    let nowhere = get_block(alloc, &space, &mut desk, &mut empty, &slots, &past);
    assert!(rt; matches!(nowhere, Err(StoreErr::Unresolved { .. })));
    Ok(())
}
