//! How many pieces a free of an address touches.
//!
//! The entries of a mapping rise, so those that meet an extent stand in a row, and a search by halves finds each end of it. No
//! list of parts is made, so it takes no memory.
ghost use Rattle.std.specs.Prelude.{◌≡◌, ℕ, ◌+◌, ◌*◌, ◌^◌, ◌<◌, ◌≤◌, max, length};
ghost use Rattle.zr_rules.specs.Mappings.{IsRising};
ghost use Rattle.zr_rules.specs.Resolve.{IsRanked};
ghost use Rattle.zr_rules.specs.Steps.{pieces};
ghost use Rattle.zr_chain.specs.Touches.{Splits, ends_by, begins_before, moved_by};

use crate::maps::Maps;
use zr_base::{DevState, Entry, Extent};
use zr_imap::Imap;

/// How many entries end at or below a unit, by halves.
pub fn ended_by(map: &Imap, u: u64) -> usize
    ensures { Splits (ends_by u) map.now.entries result }
{
    let mut low = 0;
    let mut high = map.len();
    while low < high {
        let middle = low + (high - low) / 2;
        let entry = map.entry(middle);
        if entry.src + u64::from(entry.len) <= u {
            low = middle + 1;
        } else {
            high = middle;
        }
    }
    low
}

/// Whether an entry begins before the end of an extent.
fn begins_before(entry: Entry, e: Extent) -> bool
    ensures { result ≡ begins_before e.start e.len entry }
{
    entry.src < e.start || entry.src - e.start < e.len
}

/// How many entries begin before the end of an extent, by halves.
pub fn begun_before(map: &Imap, e: Extent) -> usize
    ensures { Splits (begins_before e.start e.len) map.now.entries result }
{
    let mut low = 0;
    let mut high = map.len();
    while low < high {
        let middle = low + (high - low) / 2;
        if begins_before(map.entry(middle), e) {
            low = middle + 1;
        } else {
            high = middle;
        }
    }
    low
}

/// Where the units of an extent went that an entry has.
fn part_by(entry: Entry, e: Extent) -> Extent
    requires ends { e.start < entry.src + entry.len }
    requires begins { entry.src < e.start + e.len }
    requires short { entry.len ≤ 256 }
    requires source { entry.src + entry.len ≤ 2 ^ 62 }
    requires destination { entry.dst + entry.len ≤ 2 ^ 62 }
    ensures part { result ≡ moved_by e entry }
    ensures len { result.len ≤ 256 }
{
    let from = entry.src.max(e.start);
    let end = entry.src + u64::from(entry.len);
    Extent {
        start: entry.dst + (from - entry.src),
        len: (end - from).min(e.len - (from - e.start)),
    }
}

/// How many pieces a free of an extent touches over at most so many devices: each part of a removed device on the way, each
/// part that is there, and on a device that is leaving one more for each entry that meets it. For each part of a removed
/// device it takes two searches by halves of its mapping, and a step for each part that it leads to.
pub fn pieces_in<M: Maps>(devs: &M, hops: usize, dev: u32, e: Extent) -> u64
    requires ranked { IsRanked (M.devices devs.now) }
    requires rising { (d : ℕ) → IsRising ((M.devices devs.now).entries d) }
    requires known { dev < (M.devices devs.now).count }
    requires few { hops ≤ 32 }
    requires short { e.len < 2 ^ 32 }
    ensures pieces { result ≡ pieces hops (M.devices devs.now) dev e.start e.len }
    ensures few { result ≤ 33 * max 1 e.len }
{
    if hops == 0 {
        return 1;
    }
    match devs.row(dev).state {
        DevState::On => 1,
        DevState::Leaving => {
            let map = devs.map(dev);
            1 + (begun_before(map, e) - ended_by(map, e.start)) as u64
        }
        DevState::Gone => {
            let map = devs.map(dev);
            let mut pieces = 1;
            for i in ended_by(map, e.start)..begun_before(map, e) {
                let entry = map.entry(i);
                pieces += pieces_in(devs, hops - 1, entry.dev, part_by(entry, e));
            }
            pieces
        }
    }
}
