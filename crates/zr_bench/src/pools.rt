//! Allocations and frees over the space of a pool that has many extents.
//!
//! The pool has extents of three blocks, each a unit, and behind each extent a unit of metadata, so that none grows into the
//! next. As many units again are free. A block here and a block there is freed and another one taken for it, the lowest that
//! there is, and a group ends behind each 64 of them, so what is freed is free two groups later: the extents stay as many.
ghost use Rattle.std.specs.Prelude.{◌≡◌, ◌+◌, ◌*◌, ◌<◌, ◌≤◌, ◌^◌, length};

use crate::steps::Timed;
use anyhow::Context;
use std::alloc::Global;
use std::time::Instant;
use zr_base::{Dva, NoMemory};
use zr_choose::Chooser;
use zr_space::{Space, SpaceErr};

/// How many blocks an extent has.
const BLOCKS: u64 = 3;

/// How many blocks a group frees and takes.
const GROUP: u64 = 64;

/// How far the next block to free lies from the last, as an index among all.
const STRIDE: u64 = 7_919;

/// A space, and the addresses of its blocks.
#[derive(Drop)]
struct Pool {
    space: Space,
    live: Vec<Dva>,
}

// The address that was taken. A pool that is half free has a place.
fn taken(at: Result<Dva, SpaceErr>) -> Result<Dva, NoMemory> {
    at.map_err(|_| NoMemory)
}

// Takes an extent of blocks, and the metadata behind it.
fn add_extent(pool: &mut Pool, chooser: &Chooser) -> Result<(), NoMemory> {
    for _ in 0..BLOCKS {
        let at = taken(pool.space.alloc(1, chooser))?;
        pool.live.push(at)?;
    }
    taken(pool.space.alloc_meta(1, chooser))?;
    Ok(())
}

// A pool of so many extents.
fn pool_of(alloc: Global, extents: u64, chooser: &Chooser) -> Result<Pool, NoMemory>
    requires { extents < 2 ^ 32 }
{
    let mut pool = Pool {
        space: Space::new(alloc, 2),
        live: Vec::new(alloc),
    };
    pool.space.add_dev(2 * (BLOCKS + 1) * extents, 1)?;
    for _ in 0..extents {
        add_extent(&mut pool, chooser)?;
    }
    pool.space.commit_done(false);
    Ok(pool)
}

// Frees a block that may be freed, and takes another one for it. It answers whether it did.
fn replace(space: &mut Space, at: &mut Dva, chooser: &Chooser) -> Result<bool, NoMemory> {
    if !space.is_freeable(*at)? {
        return Ok(false);
    }
    space.free(*at, 1)?;
    *at = taken(space.alloc(1, chooser))?;
    Ok(true)
}

// Frees so many blocks, a stride apart, and takes others for them. It answers how many they were.
fn replace_all(
    space: &mut Space,
    live: &mut [Dva],
    count: u64,
    chooser: &Chooser,
) -> Result<u64, NoMemory> {
    let blocks = live.len() as u64;
    let mut given: u64 = 0;
    if blocks == 0 {
        return Ok(given);
    }
    for k in 0..count {
        let i = k.wrapping_mul(STRIDE) % blocks;
        let Some(at) = live.get_mut(i as usize) else {
            break;
        };
        if replace(space, at, chooser)? {
            given = given.saturating_add(1);
        }
        if k % GROUP == GROUP - 1 {
            space.commit_done(false);
        }
    }
    Ok(given)
}

/// Frees and takes so many blocks on a pool of so many extents.
pub fn time_pool(
    rt: &HostRuntime,
    extents: u64,
    count: u64,
    chooser: &Chooser,
) -> anyhow::Result<Timed>
    requires { extents < 2 ^ 32 }
{
    let Pool {
        mut space,
        mut live,
    } = pool_of(rt.alloc(), extents, chooser)
        .ok()
        .context("out of memory")?;
    let start = Instant::now(rt)?;
    let given = replace_all(&mut space, live.as_mut_slice(), count, chooser)
        .ok()
        .context("out of memory")?;
    let spent = start.elapsed(rt)?;
    Ok(Timed { given, spent })
}
