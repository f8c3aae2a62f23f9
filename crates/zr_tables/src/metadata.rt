//! The addresses of a pool's metadata, met by a walk: its head and the streams that the head leads to, and those of the
//! root that a checkpoint holds, which are units of their own until it is given up.
ghost use Rattle.std.specs.Prelude.{◌≡◌, ◌++◌, All, OnOk, IfOk, IfSome};
ghost use Rattle.std.specs.List.{flat_map};
ghost use Rattle.zr_bptr.specs.Spelling.{IsTree};
ghost use Rattle.zr_store.specs.Causes.{Costs, HasCause};
ghost use Rattle.zr_store.specs.Store.{Stored};
ghost use Rattle.zr_tree.specs.Trees.{tree_reach};
ghost use Rattle.zr_vdev.specs.Stores.{addresses_of};
ghost use Rattle.zr_sync.specs.Pools.{AreCondStreams, AreStreams, IsCheckpoint};
ghost use Rattle.zr_tables.specs.Walks.{cond_trees, metadata_reach, saved_reach, streams_reach, trees_of};

use crate::live::put_addresses;
use std::alloc::Global;
use zr_base::Dva;
use zr_bptr::Tree;
use zr_store::{Blocks, StoreErr};
use zr_sync::{Checkpoint, CondStreams, DeviceStreams};
use zr_tree::walk;

// Puts the addresses of a tree's blocks behind others.
fn put_tree<B: Blocks>(
    alloc: Global,
    store: &mut B,
    tree: &Tree,
    out: &mut Vec<Dva>,
) -> Result<(), StoreErr>
    requires tree { IsTree tree.now }
    ensures follows { (start : B) → B.follows start store.old → B.follows start store.new }
    ensures costs { Costs 0 0 (B.account store.old) (B.account store.new) }
    ensures cause { HasCause 0 (B.account store.old) (B.account store.new) result }
    ensures same { (s : Stored) → B.holds store.old s → B.holds store.new s }
    ensures blocks { (s : Stored) → B.holds store.old s → OnOk result (out.new.items ≡ out.old.items ++ addresses_of (tree_reach s tree.now)) }
{
    let blocks = walk(alloc, store, tree)?;
    put_addresses(out, blocks.as_slice())?;
    Ok(())
}

// Puts the addresses of the blocks of trees behind others, one tree after the other.
fn put_trees<B: Blocks>(
    alloc: Global,
    store: &mut B,
    trees: &[Tree],
    out: &mut Vec<Dva>,
) -> Result<(), StoreErr>
    requires trees { All IsTree trees.now }
    ensures follows { (start : B) → B.follows start store.old → B.follows start store.new }
    ensures costs { Costs 0 0 (B.account store.old) (B.account store.new) }
    ensures cause { HasCause 0 (B.account store.old) (B.account store.new) result }
    ensures same { (s : Stored) → B.holds store.old s → B.holds store.new s }
    ensures blocks { (s : Stored) → B.holds store.old s → OnOk result (out.new.items ≡ out.old.items ++ addresses_of (flat_map (tree_reach s) trees.now)) }
{
    for tree in trees {
        put_tree(alloc, store, tree, out)?;
    }
    Ok(())
}

// The trees of a device's streams, in the order of the head.
fn trees_of(streams: &DeviceStreams) -> [Tree; 7]
    requires streams { AreStreams streams.now }
    ensures trees { result ≡ trees_of streams.now }
    ensures lawful { All IsTree result }
{
    [
        streams.held.tree,
        streams.kept.tree,
        streams.entries.tree,
        streams.counts.tree,
        streams.fresh.tree,
        streams.late1.tree,
        streams.late2.tree,
    ]
}

// The trees of the streams of a condensing.
fn cond_trees(cond: &CondStreams) -> [Tree; 2]
    requires cond { AreCondStreams cond.now }
    ensures trees { result ≡ cond_trees cond.now }
    ensures lawful { All IsTree result }
{
    [cond.entries.tree, cond.counts.tree]
}

// Puts the addresses of a device's streams behind others.
fn put_streams<B: Blocks>(
    alloc: Global,
    store: &mut B,
    streams: &DeviceStreams,
    out: &mut Vec<Dva>,
) -> Result<(), StoreErr>
    requires streams { AreStreams streams.now }
    ensures follows { (start : B) → B.follows start store.old → B.follows start store.new }
    ensures costs { Costs 0 0 (B.account store.old) (B.account store.new) }
    ensures cause { HasCause 0 (B.account store.old) (B.account store.new) result }
    ensures same { (s : Stored) → B.holds store.old s → B.holds store.new s }
    ensures blocks { (s : Stored) → B.holds store.old s → OnOk result (out.new.items ≡ out.old.items ++ addresses_of (streams_reach s streams.now)) }
{
    let trees = trees_of(streams);
    put_trees(alloc, store, &trees, out)
}

// Puts the addresses of the blocks of a head, then of those of each device's streams, and then of those of a condensing
// behind others.
fn put_root<B: Blocks>(
    alloc: Global,
    store: &mut B,
    head: &Tree,
    streams: &[DeviceStreams],
    cond: &CondStreams,
    out: &mut Vec<Dva>,
) -> Result<(), StoreErr>
    requires head { IsTree head.now }
    requires streams { All AreStreams streams.now }
    requires cond { AreCondStreams cond.now }
    ensures follows { (start : B) → B.follows start store.old → B.follows start store.new }
    ensures costs { Costs 0 0 (B.account store.old) (B.account store.new) }
    ensures cause { HasCause 0 (B.account store.old) (B.account store.new) result }
    ensures same { (s : Stored) → B.holds store.old s → B.holds store.new s }
    ensures metadata { (s : Stored) → B.holds store.old s → OnOk result (out.new.items ≡ out.old.items ++ addresses_of (metadata_reach s head.now streams.now cond.now)) }
{
    put_tree(alloc, store, head, out)?;
    for device in streams {
        put_streams(alloc, store, device, out)?;
    }
    let trees = cond_trees(cond);
    put_trees(alloc, store, &trees, out)
}

/// The addresses of the blocks of the head, then those of each device's streams, and then those of the condensing that
/// goes on, each block before what lies below it, and behind them the same of the root that a checkpoint holds. It reads
/// each tree block once.
pub fn metadata_addresses<B: Blocks>(
    alloc: Global,
    store: &mut B,
    head: &Tree,
    streams: &[DeviceStreams],
    cond: &CondStreams,
    saved: &Option<Checkpoint>,
) -> Result<Vec<Dva>, StoreErr>
    requires head { IsTree head.now }
    requires streams { All AreStreams streams.now }
    requires cond { AreCondStreams cond.now }
    requires saved { IfSome saved.now IsCheckpoint }
    ensures follows { (start : B) → B.follows start store.old → B.follows start store.new }
    ensures costs { Costs 0 0 (B.account store.old) (B.account store.new) }
    ensures cause { HasCause 0 (B.account store.old) (B.account store.new) result }
    ensures same { (s : Stored) → B.holds store.old s → B.holds store.new s }
    ensures metadata { (s : Stored) → B.holds store.old s → IfOk result (λ ats. ats.items ≡ addresses_of (metadata_reach s head.now streams.now cond.now) ++ addresses_of (saved_reach s saved.now)) }
{
    let mut out = Vec::new(alloc);
    put_root(alloc, store, head, streams, cond, &mut out)?;
    if let Some(held) = saved {
        put_root(
            alloc,
            store,
            &held.head,
            held.streams.as_slice(),
            &held.cond,
            &mut out,
        )?;
    }
    Ok(out)
}
