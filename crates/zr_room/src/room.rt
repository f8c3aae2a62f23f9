//! The room of an open pool, computed from what its space counts.
ghost use Rattle.std.specs.Prelude.{◌≡◌, ◌↔◌, ◌≤◌, ◌<◌, ◌^◌, ℕ, List, IsOk, IfErr};
ghost use Rattle.zr_base.specs.declared.refusal.Refusal.TheVariants.{NoRoom};
ghost use Rattle.zr_rules.specs.Columns.{free_units, on_units};
ghost use Rattle.zr_rules.specs.Owed.{AreSmall, metadata_units, owed, slop};
ghost use Rattle.zr_sync.specs.Pools.{IsOpen};
ghost use Rattle.zr_room.specs.Counts.{sizes_with};

use zr_base::{Refusal, Sizes};
use zr_owed::{metadata_units, owed, slop};
use zr_sync::OpenPool;

// The counts of the space with those of a command.
fn counts_with(pool: &OpenPool, blocks: u64, objects: u64, pieces: u64) -> Sizes
    requires pool { (sizes : List ℕ) × IsOpen sizes pool.now }
    requires blocks { blocks ≤ 2 ^ 20 }
    requires objects { objects ≤ 2 ^ 20 }
    requires pieces { pieces ≤ 2 ^ 36 }
    ensures counts { result ≡ sizes_with pool.now.space blocks objects pieces }
    ensures small { AreSmall result }
{
    let counted = pool.space.sizes();
    Sizes {
        blocks,
        objects,
        words: counted.words + 4 * pieces,
        ..counted
    }
}

/// In units: what the commits to come may take once so many blocks and objects are changed and so many pieces were
/// touched, each of which may make four words of metadata. It costs what `Space::sizes` does.
pub fn owed_with(pool: &OpenPool, blocks: u64, objects: u64, pieces: u64) -> u64
    requires pool { (sizes : List ℕ) × IsOpen sizes pool.now }
    requires blocks { blocks ≤ 2 ^ 20 }
    requires objects { objects ≤ 2 ^ 20 }
    requires pieces { pieces ≤ 2 ^ 36 }
    ensures owed { result ≡ owed (sizes_with pool.now.space blocks objects pieces) }
    ensures bound { result < 2 ^ 47 }
{
    owed(&counts_with(pool, blocks, objects, pieces))
}

/// In units: what the next metadata takes at most once so many blocks and objects are changed. It costs what
/// `Space::sizes` does.
pub fn metadata_with(pool: &OpenPool, blocks: u64, objects: u64) -> u64
    requires pool { (sizes : List ℕ) × IsOpen sizes pool.now }
    requires blocks { blocks ≤ 2 ^ 20 }
    requires objects { objects ≤ 2 ^ 20 }
    ensures units { result ≡ metadata_units (sizes_with pool.now.space blocks objects 0) }
    ensures bound { result < 2 ^ 44 }
{
    metadata_units(&counts_with(pool, blocks, objects, 0))
}

/// In units: what new blocks leave free. It goes over the devices.
pub fn slop_now(pool: &OpenPool) -> u64
    requires pool { (sizes : List ℕ) × IsOpen sizes pool.now }
    ensures slop { result ≡ slop (on_units pool.now.space) }
    ensures bound { result ≤ 2 ^ 31 }
{
    slop(pool.space.on_units())
}

/// Refuses what needs more units than are free. It goes over the devices.
pub fn demand(pool: &OpenPool, needed: u64) -> Result<(), Refusal>
    ensures enough { IsOk result ↔ needed ≤ free_units pool.now.space }
    ensures short { IfErr result (λ r. r ≡ NoRoom needed (free_units pool.now.space)) }
{
    let free = pool.space.free_units();
    if needed > free {
        return Err(Refusal::NoRoom { needed, free });
    }
    Ok(())
}
