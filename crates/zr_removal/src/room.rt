//! The room that a removal needs.
ghost use Rattle.std.specs.Prelude.{◌≡◌, ◌<◌, ℕ, List, length};
ghost use Rattle.zr_rules.specs.Owed.{AreSmall};
ghost use Rattle.zr_sync.specs.Pools.{IsOpen};
ghost use Rattle.zr_removal.specs.Refusals.{free_beside, leaving_sizes, removal_needs};
ghost use Rattle.zr_txg.specs.Changes.{block_count};

use zr_base::Sizes;
use zr_owed::owed;
use zr_sync::OpenPool;

// The counts of the space and of the open group, were the device leaving.
fn leaving_sizes(pool: &OpenPool, dev: u32) -> Sizes
    requires pool { (sizes : List ℕ) × IsOpen sizes pool.now }
    requires known { dev < pool.now.table.count }
    ensures counts { result ≡ leaving_sizes pool.now.space dev (block_count pool.now.group.objects) (length pool.now.group.objects) }
    ensures small { AreSmall result }
{
    let counted = pool.space.sizes();
    Sizes {
        blocks: pool.group.blocks(),
        objects: pool.group.objects(),
        streams: counted.streams + 3,
        uncopied: counted.uncopied + pool.space.held(dev).units(),
        turning: counted.turning.saturating_sub(pool.space.turning_on(dev)),
        ..counted
    }
}

/// In units: what is owed once the device is leaving. It costs what `Space::sizes` does.
pub fn needed(pool: &OpenPool, dev: u32) -> u64
    requires pool { (sizes : List ℕ) × IsOpen sizes pool.now }
    requires known { dev < pool.now.table.count }
    ensures { result ≡ removal_needs pool.now dev }
{
    owed(&leaving_sizes(pool, dev))
}

/// The free units of the other devices. It goes over the devices.
pub fn free_beside(pool: &OpenPool, dev: u32) -> u64
    requires pool { (sizes : List ℕ) × IsOpen sizes pool.now }
    requires known { dev < pool.now.table.count }
    ensures { result ≡ free_beside pool.now.space dev }
{
    pool.space
        .free_units()
        .saturating_sub(pool.space.columns(dev).free)
}
