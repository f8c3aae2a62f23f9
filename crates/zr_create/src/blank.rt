//! A pool without devices, to which the first ones are given.
ghost use Rattle.std.specs.Prelude.{◌≡◌, ◌<◌, ◌⊎◌, ℕ, List, IfOk};
ghost use Rattle.zr_label.specs.Blocks.{IsName};
ghost use Rattle.zr_sync.specs.Pools.{IsPool};
ghost use Rattle.zr_create.specs.Blank.{IsNamed, IsBlank};

use std::alloc::Global;
use zr_base::NoMemory;
use zr_bptr::{Ptr, Tree};
use zr_cache::Cache;
use zr_label::{NO_ROW, Name};
use zr_space::Space;
use zr_sync::{NO_COND, NONE_TURNED, OpenPool, Table};
use zr_txg::Group;

/// How many blocks an open pool has in its cache at most.
pub const CACHED: usize = 256;

/// A pool without devices, of version 1 or 2, whose first group is open and has changed nothing. It takes the memory of
/// an empty cache.
pub fn empty_pool(alloc: Global, name: Name, guid: u64, version: u64) -> Result<OpenPool, NoMemory>
    requires name { IsName name }
    requires guid { 0 < guid }
    requires version { (version ≡ 1) ⊎ (version ≡ 2) }
    ensures pool { (sizes : List ℕ) → IfOk result (IsPool 0 sizes) }
    ensures named { IfOk result (IsNamed name guid version) }
    ensures blank { IfOk result IsBlank }
{
    let none = Tree {
        root: Ptr::Hole,
        height: 0,
    };
    let cache = Cache::new(alloc, CACHED)?;
    Ok(OpenPool {
        name,
        guid,
        version,
        last: None,
        table: Table {
            count: 0,
            rows: [NO_ROW; 32],
            slots: [None; 32],
        },
        space: Space::new(alloc, version),
        cache,
        dir: none,
        head: none,
        streams: Vec::new(alloc),
        cond: NO_COND,
        saved: None,
        group: Group::new(alloc, 1),
        turned: NONE_TURNED,
    })
}
