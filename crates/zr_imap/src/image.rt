//! Where the units of an extent went.
ghost use Rattle.std.specs.Prelude.{◌≡◌, ℕ, ◌+◌, ◌≤◌, ◌<◌, ◌^◌, length, MatchOption, IfOk, IfSome};
ghost use Rattle.zr_rules.specs.Mappings.{IsRising, HasSourceAt};
ghost use Rattle.zr_imap.specs.Searches.{IsImage, MissesUnit, IsFirstGap, IsCheap};

use crate::sorted::{Sorted, search};
use crate::steps::Steps;
use std::alloc::Global;
use std::marker::Brand;
use std::sync::ledger::{Blank, Ledger};
use zr_base::{Extent, NoMemory};

/// Where some of the units of an extent went, those from `split` on.
#[derive(Clone, Copy, PartialEq, Eq, Debug)]
pub struct Piece {
    pub split: u64,
    pub dev: u32,
    pub at: Extent,
}

/// No unit of a mapping is at or above this one.
const END: u64 = 1 << 62;

/// Where the units of an extent went, in their order, or None where one of them has no entry. It takes a search and a
/// step for each piece.
pub fn pieces<O: Sorted, L: Ledger>(
    alloc: Global,
    sorted: &O,
    e: Extent,
    steps: &mut Steps<L>,
) -> Result<Option<Vec<Piece>>, NoMemory>
    requires rising { IsRising (O.entries sorted.now) }
    ensures found { IfOk result (λ found. MatchOption found (MissesUnit (O.entries sorted.now) e) (λ ps. IsImage (O.entries sorted.now) e ps.items)) }
    ensures cost { IfOk result (λ found. IfSome found (λ ps. IsCheap (length (O.entries sorted.now)) (length ps.items) steps.old steps.new)) }
{
    if e.len == 0 {
        return Ok(Some(Vec::new(alloc)));
    }
    if e.start >= END {
        return Ok(None);
    }
    if e.len > END - e.start {
        return Ok(None);
    }
    let Some(first) = search(sorted, e.start, steps) else {
        return Ok(None);
    };
    pieces_from(alloc, sorted, first, e, steps)
}

/// The same from the entry whose source has the first unit.
fn pieces_from<O: Sorted, L: Ledger>(
    alloc: Global,
    sorted: &O,
    first: usize,
    e: Extent,
    steps: &mut Steps<L>,
) -> Result<Option<Vec<Piece>>, NoMemory>
    requires rising { IsRising (O.entries sorted.now) }
    requires index { first < length (O.entries sorted.now) }
    requires holder { HasSourceAt (O.entries sorted.now) first e.start }
    requires bound { e.start + e.len ≤ 2 ^ 62 }
    ensures found { IfOk result (λ found. MatchOption found (MissesUnit (O.entries sorted.now) e) (λ ps. IsImage (O.entries sorted.now) e ps.items)) }
    ensures cost { IfOk result (λ found. IfSome found (λ ps. steps.new ≡ steps.old + length ps.items)) }
{
    let mut pieces = Vec::new(alloc);
    let mut done = 0;
    let mut i = first;
    while done < e.len {
        if i == sorted.len() {
            return Ok(None);
        }
        let entry = sorted.item(i, steps);
        let u = e.start + done;
        if u < entry.src {
            return Ok(None);
        }
        let n = (entry.len as u64 - (u - entry.src)).min(e.len - done);
        let at = Extent {
            start: entry.dst + (u - entry.src),
            len: n,
        };
        pieces.push(Piece {
            split: done,
            dev: entry.dev,
            at,
        })?;
        done += n;
        i += 1;
    }
    Ok(Some(pieces))
}

/// `pieces` with a count that is opened for it.
fn pieces_counted<O: Sorted, L: Ledger>(
    alloc: Global,
    sorted: &O,
    e: Extent,
    blank: Blank,
) -> Result<Option<Vec<Piece>>, NoMemory>
    requires rising { IsRising (O.entries sorted.now) }
    requires name { blank.name ≡ L.name }
    requires parts { blank.parts ≡ L.parts }
    requires some { 0 < L.parts }
    ensures found { IfOk result (λ found. MatchOption found (MissesUnit (O.entries sorted.now) e) (λ ps. IsImage (O.entries sorted.now) e ps.items)) }
{
    let mut steps: Steps<L> = Steps::open(blank);
    pieces(alloc, sorted, e, &mut steps)
}

/// `pieces` for a caller that does not read the count.
pub fn image_of<O: Sorted>(
    alloc: Global,
    sorted: &O,
    e: Extent,
) -> Result<Option<Vec<Piece>>, NoMemory>
    requires rising { IsRising (O.entries sorted.now) }
    ensures found { IfOk result (λ found. MatchOption found (MissesUnit (O.entries sorted.now) e) (λ ps. IsImage (O.entries sorted.now) e ps.items)) }
{
    pieces_counted::<O, Brand>(alloc, sorted, e, Blank::new(1))
}

/// The lowest unit of an extent that has no entry, where one of them has none. It takes a search and a step for each
/// entry before it.
pub fn first_gap<O: Sorted, L: Ledger>(sorted: &O, e: Extent, steps: &mut Steps<L>) -> u64
    requires rising { IsRising (O.entries sorted.now) }
    requires gap { MissesUnit (O.entries sorted.now) e }
    ensures { IsFirstGap (O.entries sorted.now) e result }
{
    let mut u = e.start;
    while let Some(i) = search(sorted, u, steps) {
        let found = sorted.item(i, steps);
        u = found.src + found.len as u64;
    }
    u
}

fn gap_counted<O: Sorted, L: Ledger>(sorted: &O, e: Extent, blank: Blank) -> u64
    requires rising { IsRising (O.entries sorted.now) }
    requires gap { MissesUnit (O.entries sorted.now) e }
    requires name { blank.name ≡ L.name }
    requires parts { blank.parts ≡ L.parts }
    requires some { 0 < L.parts }
    ensures { IsFirstGap (O.entries sorted.now) e result }
{
    let mut steps: Steps<L> = Steps::open(blank);
    first_gap(sorted, e, &mut steps)
}

/// `first_gap` for a caller that does not read the count.
pub fn gap_in<O: Sorted>(sorted: &O, e: Extent) -> u64
    requires rising { IsRising (O.entries sorted.now) }
    requires gap { MissesUnit (O.entries sorted.now) e }
    ensures { IsFirstGap (O.entries sorted.now) e result }
{
    gap_counted::<O, Brand>(sorted, e, Blank::new(1))
}
