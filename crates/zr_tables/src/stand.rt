//! How a pool stands.
ghost use Rattle.std.specs.Prelude.{◌≡◌, ℕ, List, IfOk, length};
ghost use Rattle.zr_label.specs.Blocks.{IsName, name_of};
ghost use Rattle.zr_rules.specs.Places.{part_of};
ghost use Rattle.zr_sync.specs.Pools.{IsOpen};
ghost use Rattle.zr_tables.specs.Tables.{IsRemoval, IsStatus, checkpoint_of, condense_of, owed_now};

use std::alloc::Global;
use zr_base::{Blob, CkptPart, NoMemory};
use zr_label::Name;
use zr_room::{owed_with, slop_now};
use zr_script::{CkptLine, StatusLines};
use zr_space::Space;
use zr_sync::OpenPool;

// The bytes of a name.
fn name_bytes(alloc: Global, name: &Name) -> Result<Blob, NoMemory>
    requires { IsName name.now }
    ensures { IfOk result (λ bytes. bytes ≡ name_of name.now) }
{
    Blob::copy_of(alloc, &name.bytes[..name.len as usize])
}

// In units: what is owed as the pool stands.
fn owed_now(pool: &OpenPool) -> u64
    requires { (sizes : List ℕ) × IsOpen sizes pool.now }
    ensures { result ≡ owed_now pool.now }
{
    owed_with(pool, pool.group.blocks(), pool.group.objects(), 0)
}

// Whether a checkpoint is held, or the units that are given back when it is discarded.
fn checkpoint_of(space: &Space) -> CkptLine
    ensures { result ≡ checkpoint_of space.now }
{
    match space.ckpt() {
        CkptPart::Clear => CkptLine::Clear,
        CkptPart::Held(txg) => CkptLine::Held(txg),
        CkptPart::Discarding => CkptLine::Discarding(space.kept_units()),
    }
}

// The device that is leaving, and how many units of it are to be copied yet.
fn removal_of(space: &Space) -> Option<(u32, u64)>
    ensures { IsRemoval space.now result }
{
    match space.leaving() {
        Some(dev) => Some((dev, space.sizes().uncopied)),
        None => None,
    }
}

// How many entries the mapping of a device has.
fn entries_of(space: &Space, dev: u32) -> u64
    ensures { result ≡ length (part_of space.now.parts.devs dev).entries }
{
    if dev >= space.devices() {
        return 0;
    }
    let moves = space.moves(dev);
    moves.lawful();
    match moves.map() {
        Some(map) => map.len() as u64,
        None => 0,
    }
}

// The device whose mapping is condensed, how many of its entries are worked through, and how many it has.
fn condense_of(space: &Space) -> Option<(u32, u64, u64)>
    ensures { result ≡ condense_of space.now }
{
    match space.condensing() {
        Some(cond) => Some((cond.dev(), cond.at(), entries_of(space, cond.dev()))),
        None => None,
    }
}

/// The pool's name, its open group and its room, in units, with the removal and the condensing that go on. It costs what
/// the counts of the room cost.
pub fn status(alloc: Global, pool: &OpenPool) -> Result<StatusLines, NoMemory>
    requires pool { (sizes : List ℕ) × IsOpen sizes pool.now }
    ensures lines { IfOk result (IsStatus pool.now) }
{
    Ok(StatusLines {
        name: name_bytes(alloc, &pool.name)?,
        guid: pool.guid,
        txg: pool.group.txg(),
        removal: removal_of(&pool.space),
        checkpoint: checkpoint_of(&pool.space),
        condense: condense_of(&pool.space),
        free: pool.space.free_units(),
        owed: owed_now(pool),
        slop: slop_now(pool),
    })
}
