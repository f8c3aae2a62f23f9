//! What a removal is refused for, as far as it can be told of the pool alone, and what it would cost.
ghost use Rattle.std.specs.Prelude.{◌≡◌, ◌*◌, ◌<◌, ◌≤◌, ℕ, List, false, IfErr, IfSome, IfNone, OnOk};
ghost use Rattle.zr_base.specs.Extents.{unit_count};
ghost use Rattle.zr_base.specs.declared.space.CkptPart.TheVariants.{Clear};
ghost use Rattle.zr_rules.specs.Places.{is_leaving, part_of, state_of_dev};
ghost use Rattle.zr_sync.specs.Pools.{IsOpen};
ghost use Rattle.zr_removal.specs.Devices.{IsDeviceOn, copy_pieces};
ghost use Rattle.zr_removal.specs.Refusals.{IsMayRefusal};

use zr_base::{CkptPart, DevState, Refusal};
use zr_paged::UnitSet;
use zr_sync::OpenPool;

/// How many units a step of a removal copies at most.
const MOST: u64 = 256;

/// How many bytes an entry of a mapping takes.
const ENTRY: u64 = 24;

/// Refuses a removal while a root is saved, while what it kept is being discarded, and while another device is leaving. It
/// goes over the devices.
pub fn may_remove(pool: &OpenPool) -> Result<(), Refusal>
    ensures clear { OnOk result (pool.now.space.parts.ckpt ≡ Clear) }
    ensures alone { OnOk result ((d : ℕ) → is_leaving (state_of_dev pool.now.space.parts.devs d) ≡ false) }
    ensures refused { IfErr result (IsMayRefusal pool.now.space pool.now.space.parts.ckpt) }
{
    match pool.space.ckpt() {
        CkptPart::Held(_) => Err(Refusal::CheckpointExists),
        CkptPart::Discarding => Err(Refusal::DiscardingCheckpoint),
        CkptPart::Clear => match pool.space.leaving() {
            Some(_) => Err(Refusal::RemovalInProgress),
            None => Ok(()),
        },
    }
}

/// The device in service whose disk is in this slot, None where there is none. It goes over the devices.
pub fn device_on(pool: &OpenPool, slot: u32) -> Option<u32>
    requires pool { (sizes : List ℕ) × IsOpen sizes pool.now }
    ensures some { IfSome result (IsDeviceOn pool.now slot) }
    ensures none { IfNone result ((d : ℕ) → IsDeviceOn pool.now slot d → ⊥) }
{
    for dev in 0..pool.table.count {
        if pool.table.slots[dev as usize] == Some(slot) && pool.space.state(dev) == DevState::On {
            return Some(dev);
        }
    }
    None
}

// Into how many pieces the size of a step cuts a set.
fn copy_pieces(set: &UnitSet) -> u64
    ensures pieces { result ≡ copy_pieces set.now.extents }
    ensures few { result ≤ unit_count set.now.extents }
{
    let _units = set.units();
    let _lowest = set.first();
    let mut pieces = 0;
    let mut at = 0;
    while let Some(part) = set.first_from(at) {
        pieces += part.len.div_ceil(MOST);
        at = part.start + part.len;
    }
    pieces
}

/// In bytes: what the entries of a removal take, were each extent that the device holds cut into pieces of the size of a
/// step. It goes over the held extents.
pub fn estimate(pool: &OpenPool, dev: u32) -> u64
    requires pool { (sizes : List ℕ) × IsOpen sizes pool.now }
    requires known { dev < pool.now.table.count }
    ensures { result ≡ 24 * copy_pieces (part_of pool.now.space.parts.devs dev).held }
{
    ENTRY * copy_pieces(pool.space.held(dev))
}
