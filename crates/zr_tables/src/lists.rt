//! The devices of a pool, with the columns of each.
ghost use Rattle.std.specs.Prelude.{◌≡◌, ◌<◌, ◌≤◌, ℕ, List, IfOk, length};
ghost use Rattle.zr_sync.specs.Pools.{IsOpen};
ghost use Rattle.zr_tables.specs.Tables.{path_at, gone_line, there_line, list_line, list_lines};

use std::alloc::Global;
use zr_base::{Blob, DevState, Items, NoMemory};
use zr_script::ListLine;
use zr_sync::OpenPool;

// The path of a slot, None where there is none.
fn path_of(alloc: Global, paths: &[Blob], slot: Option<u32>) -> Result<Option<Blob>, NoMemory>
    ensures { IfOk result (λ path. path ≡ path_at paths.now slot) }
{
    let Some(slot) = slot else {
        return Ok(None);
    };
    match paths.get(slot as usize) {
        Some(path) => Ok(Some(Blob::copy_of(alloc, path.as_slice())?)),
        None => Ok(None),
    }
}

// A device that is gone has no path and no units.
fn gone_line(index: u32) -> ListLine
    ensures { result ≡ gone_line index }
{
    ListLine {
        index,
        path: None,
        state: DevState::Gone,
        units: 0,
        allocated: 0,
        checkpointed: 0,
        deferred: 0,
        free: 0,
    }
}

// A device that is there, and its columns.
fn there_line(
    alloc: Global,
    pool: &OpenPool,
    paths: &[Blob],
    index: u32,
) -> Result<ListLine, NoMemory>
    requires slots { length pool.now.table.slots ≡ 32 }
    requires few { length pool.now.space.parts.devs ≤ 32 }
    requires there { index < length pool.now.space.parts.devs }
    ensures { IfOk result (λ line. line ≡ there_line pool.now paths.now index) }
{
    let columns = pool.space.columns(index);
    Ok(ListLine {
        index,
        path: path_of(alloc, paths, pool.table.slots[index as usize])?,
        state: pool.space.state(index),
        units: pool.space.units_of(index),
        allocated: columns.allocated,
        checkpointed: columns.checkpointed,
        deferred: columns.deferred,
        free: columns.free,
    })
}

// The line of a device.
fn line_of(alloc: Global, pool: &OpenPool, paths: &[Blob], index: u32) -> Result<ListLine, NoMemory>
    requires slots { length pool.now.table.slots ≡ 32 }
    requires few { length pool.now.space.parts.devs ≤ 32 }
    requires there { index < length pool.now.space.parts.devs }
    ensures { IfOk result (λ line. line ≡ list_line pool.now paths.now index) }
{
    match pool.space.state(index) {
        DevState::On | DevState::Leaving => there_line(alloc, pool, paths, index),
        DevState::Gone => Ok(gone_line(index)),
    }
}

/// A line for each device by its index, in units; one that is gone has neither path nor units. `paths` are those of the
/// slots. It goes over the devices, whose counts are kept.
pub fn list(alloc: Global, pool: &OpenPool, paths: &[Blob]) -> Result<Items<ListLine>, NoMemory>
    requires pool { (sizes : List ℕ) × IsOpen sizes pool.now }
    ensures lines { IfOk result (λ lines. lines ≡ list_lines pool.now paths.now) }
{
    let mut lines = Items::new(alloc);
    for index in 0..pool.space.devices() {
        lines.push(line_of(alloc, pool, paths, index)?)?;
    }
    Ok(lines)
}
