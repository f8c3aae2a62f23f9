//! The trees in a commit.
ghost use Rattle.std.specs.Prelude.{◌≡◌, ◌≤◌, IsErrOf, IfOk, OnOk};
ghost use Rattle.zr_base.specs.Counts.{HasRisen};
ghost use Rattle.zr_bptr.specs.Spelling.{IsTree};
ghost use Rattle.zr_store.specs.Store.{Stored};
ghost use Rattle.zr_sync.specs.Holds.{AreTreesStored, HasBlocks, HasWritten};
ghost use Rattle.zr_sync.specs.Pools.{IsDirectory, IsOpen};
ghost use Rattle.zr_sync.specs.Writes.{WritesTrees};
ghost use Rattle.zr_sync.specs.declared.stop.Stop.TheVariants.{DiskFault};
ghost use Rattle.std.specs.Prelude.{ℕ, List};
ghost use Rattle.zr_beside.specs.Beside.{Standing};
ghost use Rattle.zr_sync.specs.Trees.{AreFirst, HoldsStreams, Place, Stage, first_stage};
ghost use Rattle.zr_sync.specs.declared.logs.Logs.{Logs};
ghost use Rattle.zr_sync.specs.declared.mappings.MappingStream.{MappingStream};

use crate::open::OpenPool;
use crate::stop::Stop;
use crate::stores::put_group;
use std::alloc::Global;
use zr_bptr::{Ptr, Tree};
use zr_shelf::Shelf;
use zr_vdev::{Kind, Mount, Place};

// A directory has leaves of one unit. A tree with a longer leaf alone is told as a block that is no spelling of one.
fn directory(t: Tree) -> Result<Tree, Stop>
    requires tree { IsTree t }
    requires low { t.height ≤ 3 }
    ensures directory { IfOk result IsDirectory }
    ensures same { IfOk result (λ u. u ≡ t) }
    ensures fault { ¬ IsErrOf result DiskFault }
{
    match t.root {
        Ptr::At(b) if b.at.len != 1 => {
            let sum = b.sum;
            Err(Stop::Damaged {
                at: b.at,
                expected: sum,
                found: sum,
            })
        }
        _ => Ok(t),
    }
}

/// Writes the trees of the changed objects, and then the directory.
pub fn write_trees<S: Shelf, P: Place>(
    alloc: Global,
    pool: &mut OpenPool,
    shelf: &mut S,
    pick: &P,
) -> Result<(), Stop>
    requires pool { IsOpen (S.sizes shelf.old) pool.old }
    ensures wrote { WritesTrees (S.sizes shelf.old) (S.sizes shelf.new) (S.counts shelf.old) (S.counts shelf.new) (S.tells shelf.old) (S.tells shelf.new) (S.world shelf.old) (S.world shelf.new) pool.old pool.new }
    ensures pool { OnOk result (IsOpen (S.sizes shelf.new) pool.new) }
    ensures fault { IsErrOf result DiskFault → HasRisen (S.counts shelf.old).disk (S.counts shelf.new).disk }
    ensures objects { (s : Stored) → HasBlocks (S.tells shelf.old) (S.world shelf.old).now.seen pool.old s → AreTreesStored pool.old s → OnOk result (HasWritten (S.tells shelf.new) (S.world shelf.new).now.seen pool.old pool.new s) }
    ensures stay { (logs : Logs) (stage : ℕ → Place → Stage) (cond : MappingStream → Stage) (others : List Standing) → AreFirst (first_stage logs) stage cond → HoldsStreams stage cond others (S.tells shelf.old) (S.world shelf.old).now.seen pool.old → OnOk result (HoldsStreams stage cond others (S.tells shelf.new) (S.world shelf.new).now.seen pool.new) }
{
    let mount = Mount {
        slots: &pool.table.slots,
        pick,
        txg: pool.group.txg(),
        kind: Kind::Block,
    };
    let tree = put_group(
        alloc,
        &mut pool.space,
        shelf,
        &mut pool.cache,
        mount,
        &pool.dir,
        &pool.group,
    )?;
    pool.dir = directory(tree)?;
    Ok(())
}
