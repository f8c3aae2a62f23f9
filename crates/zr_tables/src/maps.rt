//! The mapping of a device that is leaving or gone.
ghost use Rattle.std.specs.Prelude.{◌≡◌, ◌++◌, ◌<◌, ◌≤◌, IfOk, IsErrOf, OnOk, length, map};
ghost use Rattle.std.specs.List.{range_with_len};
ghost use Rattle.zr_base.specs.declared.refusal.Refusal.{Refusal};
ghost use Rattle.zr_base.specs.declared.refusal.Refusal.TheVariants.{NoSuchDevice};
ghost use Rattle.zr_base.specs.declared.space.DevPart.{DevPart};
ghost use Rattle.zr_rules.specs.Places.{part_of};
ghost use Rattle.zr_script.specs.declared.reply.MapLine.TheVariants.{Fresh};
ghost use Rattle.zr_sync.specs.declared.fault.Fault.TheVariants.{No, Stops};
ghost use Rattle.zr_sync.specs.declared.stop.Stop.{Stop};
ghost use Rattle.zr_sync.specs.declared.stop.Stop.TheVariants as stop;
ghost use Rattle.zr_tables.specs.Tables.{entry_line, map_lines};

use std::alloc::Global;
use zr_base::{Entry, Extent, Items, NoMemory, Refusal};
use zr_indirect::Mapping;
use zr_script::MapLine;
use zr_sync::{Fault, OpenPool};

// Puts a line for each entry with its count behind others.
fn put_entries(
    lines: &mut Items<MapLine>,
    entries: &[Entry],
    counts: &[u32],
) -> Result<(), NoMemory>
    requires { length counts.now ≡ length entries.now }
    ensures { OnOk result ((p : DevPart) → p.entries ≡ entries.now → p.counts ≡ counts.now → lines.new ≡ lines.old ++ map (entry_line p) (range_with_len 0 (length entries.now))) }
{
    for i in 0..entries.len() {
        lines.push(MapLine::Entry {
            entry: entries[i],
            obsolete: counts[i],
        })?;
    }
    Ok(())
}

// Puts a line for each extent behind others.
fn put_fresh(lines: &mut Items<MapLine>, fresh: &[Extent]) -> Result<(), NoMemory>
    ensures { OnOk result (lines.new ≡ lines.old ++ map Fresh fresh.now) }
{
    for e in fresh {
        lines.push(MapLine::Fresh(*e))?;
    }
    Ok(())
}

// The lines of a mapping.
fn lines_of(alloc: Global, moves: &Mapping) -> Result<Items<MapLine>, NoMemory>
    ensures { IfOk result (λ lines. (p : DevPart) → p.entries ≡ moves.now.entries → p.counts ≡ moves.now.counts → p.fresh ≡ moves.now.fresh → lines ≡ map_lines p) }
{
    moves.lawful();
    let entries = moves.entries(alloc)?;
    let counts = moves.counts(alloc)?;
    let fresh = moves.fresh(alloc)?;
    let mut lines = Items::new(alloc);
    put_entries(&mut lines, entries.as_slice(), counts.as_slice())?;
    put_fresh(&mut lines, fresh.as_slice())?;
    Ok(lines)
}

/// The mapping of a device: a line for each entry in order, with the count of its obsolete units, and then one for each
/// extent of those that are not counted yet. While the device is leaving its last entries may be those of the open group. A
/// device in service has no lines. It goes over the entries and the extents.
pub fn map_lines(alloc: Global, pool: &OpenPool, index: u64) -> Result<Items<MapLine>, Fault>
    ensures lines { IfOk result (λ lines. lines ≡ map_lines (part_of pool.now.space.parts.devs index)) }
    ensures known { OnOk result (index < length pool.now.space.parts.devs) }

    // An index that was never given out.
    ensures refused { (r : Refusal) → IsErrOf result (No r) → (r ≡ NoSuchDevice) × (length pool.now.space.parts.devs ≤ index) }
    ensures stops { (s : Stop) → IsErrOf result (Stops s) → s ≡ stop.NoMemory }
{
    if index >= u64::from(pool.space.devices()) {
        return Err(Fault::No(Refusal::NoSuchDevice));
    }
    Ok(lines_of(alloc, pool.space.moves(index as u32))?)
}
