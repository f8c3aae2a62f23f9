//! The end of a group in an open pool: its root is the last one, and the next group is open.
ghost use Rattle.std.specs.Prelude.{◌≡◌, ◌+◌, ◌<◌, ◌≤◌, ◌^◌, ℕ, List, [], Some};
ghost use Rattle.zr_base.specs.declared.space.Dva.{Dva};
ghost use Rattle.zr_label.specs.Blocks.{IsUber};
ghost use Rattle.zr_rules.specs.Steps.{Commits};
ghost use Rattle.zr_root.specs.Streams.{IsTreeFor};
ghost use Rattle.zr_space.specs.Drops.{IsMeta};
ghost use Rattle.zr_space.specs.Live.{IsLive};
ghost use Rattle.zr_space.specs.Turning.{TurnsParts};
ghost use Rattle.zr_sync.specs.Copies.{HasCopies};
ghost use Rattle.zr_sync.specs.Commits.{IsNextRoot};
ghost use Rattle.zr_sync.specs.Pools.{IsOpen, IsSamePool, none_turned};

use crate::open::{NONE_TURNED, OpenPool};
use std::alloc::Global;
use zr_bptr::Tree;
use zr_label::Uber;
use zr_owed::height;
use zr_txg::Group;

/// Ends the group whose root this is, and opens the next one.
pub fn end_group(alloc: Global, pool: &mut OpenPool, root: Uber, reset: bool)
    requires next { IsNextRoot pool.old reset root }
    requires lawful { IsUber root }
    requires more { pool.old.group.txg + 1 < 2 ^ 64 }
    ensures pool { (sizes : List ℕ) → IsOpen sizes pool.old → IsOpen sizes pool.new }
    ensures same { IsSamePool pool.old pool.new }
    ensures last { pool.new.last ≡ Some root }
    ensures head { pool.new.head.root ≡ root.root }
    ensures table { pool.new.table ≡ pool.old.table }
    ensures cache { pool.new.cache ≡ pool.old.cache }
    ensures dir { pool.new.dir ≡ pool.old.dir }
    ensures streams { pool.new.streams ≡ pool.old.streams }
    ensures cond { pool.new.cond ≡ pool.old.cond }
    ensures turned { pool.new.turned ≡ none_turned }
    ensures saved { pool.new.saved ≡ pool.old.saved }
    ensures live { (a : Dva) → IsLive pool.old.space a → IsLive pool.new.space a }
    ensures metadata { (a : Dva) → IsMeta pool.old.space a → IsMeta pool.new.space a }
    ensures tall { IsTreeFor root.len root.root pool.new.head }
    ensures space { Commits reset pool.old.space pool.new.space }
    ensures parts { TurnsParts reset pool.old.space pool.new.space }
    ensures copies { (disks : List (List ℕ)) → HasCopies disks pool.old → HasCopies disks pool.new }
    ensures empty { pool.new.group.objects ≡ [] }
    ensures txg { pool.new.group.txg ≡ pool.old.group.txg + 1 }
{
    let txg = pool.group.txg();
    pool.space.commit_done(reset);
    pool.head = Tree {
        root: root.root,
        height: height(root.len.div_ceil(4096)),
    };
    pool.last = Some(root);
    pool.group = Group::new(alloc, txg + 1);
    pool.turned = NONE_TURNED;
}
