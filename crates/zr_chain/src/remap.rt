//! The walk from an address to the places of its units.
ghost use Rattle.std.specs.Prelude.{◌≡◌, ◌+◌, ◌<◌, ◌∷◌, ◌^◌, [], length, OnOk, OnErr, IfOk, IfErr};
ghost use Rattle.zr_rules.specs.Resolve.{IsRanked};
ghost use Rattle.zr_imap.specs.Searches.{IsImage};
ghost use Rattle.zr_chain.specs.Visits.{Begins, IsTold, Follows, whole, Visits, HasGap, PassesGap, LacksEntry};

use crate::devs::is_gone;
use crate::maps::Maps;
use crate::visit::{ChainErr, Visit};
use std::alloc::Global;
use zr_base::{Dva, Extent};
use zr_imap::{Imap, Piece, gap_in, image_of};

/// Where the units of an extent went, by the mapping of their device.
fn parts_of(alloc: Global, map: &Imap, dev: u32, e: Extent) -> Result<Vec<Piece>, ChainErr>
    ensures ok { IfOk result (λ parts. IsImage map.now.entries e parts.items) }
    ensures err { IfErr result (LacksEntry map.now.entries dev e) }
{
    let _count = map.len();
    let found = image_of(alloc, map, e)?;
    match found {
        Some(parts) => Ok(parts),
        None => Err(ChainErr::NoEntry {
            dev,
            unit: gap_in(map, e),
        }),
    }
}

/// Tells of a part of an address, and answers the parts that it leads to: none where it is there, and else where its
/// units went.
fn tell<M: Maps, V: Visit>(
    alloc: Global,
    devs: &M,
    p: Piece,
    v: &mut V,
) -> Result<Vec<Piece>, ChainErr>
    requires { p.dev < (M.devices devs.now).count }
    ensures told { IfOk result (λ parts. IsTold (M.devices devs.now) p parts.items (V.visited v.old) (V.visited v.new)) }
    ensures gap { IfErr result (PassesGap (M.devices devs.now) p) }
    ensures front { OnErr result (Begins (M.devices devs.now) (p ∷ []) (V.visited v.old) (V.visited v.new)) }
{
    if !is_gone(devs.row(p.dev)) {
        v.piece(p.split, p.dev, p.at)?;
        return Ok(Vec::new(alloc));
    }
    v.hop(p.dev, p.at)?;
    parts_of(alloc, devs.map(p.dev), p.dev, p.at)
}

/// Visits a part of an address, and then the parts that it leads to.
fn visit<M: Maps, V: Visit>(alloc: Global, devs: &M, p: Piece, v: &mut V) -> Result<(), ChainErr>
    requires ranked { IsRanked (M.devices devs.now) }
    requires known { p.dev < (M.devices devs.now).count }
    requires bound { p.split + p.at.len < 2 ^ 64 }
    ensures visits { OnOk result (Follows (M.devices devs.now) (p ∷ []) (V.visited v.old) (V.visited v.new)) }
    ensures gap { IfErr result (PassesGap (M.devices devs.now) p) }
    ensures front { OnErr result (Begins (M.devices devs.now) (p ∷ []) (V.visited v.old) (V.visited v.new)) }
{
    let parts = tell(alloc, devs, p, v)?;
    for part in parts.iter() {
        let part = Piece {
            split: p.split + part.split,
            dev: part.dev,
            at: part.at,
        };
        visit(alloc, devs, part, v)?;
    }
    Ok(())
}

/// Visits the parts of an address in the order of its units, each part of a removed device before the parts that it leads
/// to. An address without units has none. For each part of a removed device it takes a search by halves of its mapping, and
/// a step for each part that it leads to. After an error a front of them was visited.
pub fn remap_in<M: Maps, V: Visit>(
    alloc: Global,
    devs: &M,
    d: Dva,
    v: &mut V,
) -> Result<(), ChainErr>
    requires ranked { IsRanked (M.devices devs.now) }
    requires known { d.dev < (M.devices devs.now).count }
    ensures visits { OnOk result (Visits (M.devices devs.now) d (V.visited v.old) (V.visited v.new)) }
    ensures gap { IfErr result (HasGap (M.devices devs.now) d) }
    ensures front { OnErr result (Begins (M.devices devs.now) (whole d) (V.visited v.old) (V.visited v.new)) }
{
    if d.len == 0 {
        return Ok(());
    }
    let at = Extent {
        start: d.start,
        len: d.len as u64,
    };
    let whole = Piece {
        split: 0,
        dev: d.dev,
        at,
    };
    visit(alloc, devs, whole, v)
}
