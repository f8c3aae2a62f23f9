//! Changes by rising index over leaves by rising index.
ghost use Rattle.std.specs.Prelude.{◌≡◌, ◌+◌, ◌^◌, ◌<◌, ◌≤◌, ℕ, List, All, length, IfOk, IfErr, OnOk};
ghost use Rattle.zr_bptr.specs.declared.Bptr.{Bptr};
ghost use Rattle.zr_bptr.specs.declared.Ptr.{Ptr};
ghost use Rattle.zr_bptr.specs.declared.Ptr.TheVariants.{At};
ghost use Rattle.zr_tree.specs.Blocks.{FitsAt};
ghost use Rattle.zr_txg.specs.Tables.{IsRising, value_at, count_below, HasKeyAt, LacksKeyAt};
ghost use Rattle.zr_lookup.specs.Objects.{block_in};
ghost use Rattle.zr_lookup.specs.Lists.{IsBetween, Fills, overlaid};

use std::alloc::{AllocError, Global};
use zr_bptr::{Bptr, Ptr};

// No tree has an index from here on.
const INDICES: u64 = 1 << 25;

/// Where the leaf with an index is, or else where it would be. Logarithmic in the leaves.
pub(crate) fn place_of(leaves: &[(u64, Bptr)], index: u64) -> Result<usize, usize>
    requires { IsRising leaves.now }
    ensures found { IfOk result (λ i. HasKeyAt leaves.now index i) }
    ensures missing { IfErr result (λ i. LacksKeyAt leaves.now index i) }
{
    leaves.binary_search_by_key(&index, |e| e.0)
}

// How many leaves have a lower index. Logarithmic in the leaves.
fn first_from(leaves: &[(u64, Bptr)], index: u64) -> usize
    requires { IsRising leaves.now }
    ensures place { result ≡ count_below leaves.now index }
    ensures within { result ≤ length leaves.now }
{
    match place_of(leaves, index) {
        Ok(i) => i,
        Err(i) => i,
    }
}

// Where the leaves from an index on begin, and where those from a later one do.
fn places_of(leaves: &[(u64, Bptr)], low: u64, high: u64) -> (usize, usize)
    requires rising { IsRising leaves.now }
    requires order { low ≤ high }
    ensures first { result.0 ≡ count_below leaves.now low }
    ensures last { result.1 ≡ count_below leaves.now high }
    ensures order { result.0 ≤ result.1 }
    ensures within { result.1 ≤ length leaves.now }
{
    (first_from(leaves, low), first_from(leaves, high))
}

// Appends the leaves from an index on, up to another.
fn add_between(
    out: &mut Vec<(u64, Bptr)>,
    leaves: &[(u64, Bptr)],
    low: u64,
    high: u64,
) -> Result<(), AllocError>
    requires out { IsBetween 0 low out.old.items }
    requires leaves { IsBetween 0 (2 ^ 25) leaves.now }
    requires fit { All (λ leaf. FitsAt 0 (At leaf.1)) leaves.now }
    requires out_fit { All (λ leaf. FitsAt 0 (At leaf.1)) out.old.items }
    requires order { low ≤ high }
    ensures between { OnOk result (IsBetween 0 high out.new.items) }
    ensures fit { OnOk result (All (λ leaf. FitsAt 0 (At leaf.1)) out.new.items) }
    ensures fills { OnOk result (Fills low high (value_at leaves.now) out.old.items out.new.items) }
{
    let (from, to) = places_of(leaves, low, high);
    out.extend_from_slice(&leaves[from..to])
}

// Appends the block of a change; nothing for a hole.
fn add_change(out: &mut Vec<(u64, Bptr)>, index: u64, p: &Ptr) -> Result<(), AllocError>
    requires out { IsBetween 0 index out.old.items }
    requires low { index < 2 ^ 25 }
    requires fits { FitsAt 0 p.now }
    requires out_fit { All (λ leaf. FitsAt 0 (At leaf.1)) out.old.items }
    ensures between { OnOk result (IsBetween 0 (index + 1) out.new.items) }
    ensures fit { OnOk result (All (λ leaf. FitsAt 0 (At leaf.1)) out.new.items) }
    ensures fills { OnOk result (Fills index (index + 1) (λ _. block_in p.now) out.old.items out.new.items) }
{
    if let Ptr::At(b) = p {
        out.push((index, *b))?;
    }
    Ok(())
}

/// The leaves with the changes: each changed index has its change, and where that is a hole it has no leaf. The work is
/// logarithmic in the leaves for each change, and then that of copying the leaves.
pub(crate) fn overlay(
    alloc: Global,
    leaves: &[(u64, Bptr)],
    changes: &[(u64, Ptr)],
) -> Result<Vec<(u64, Bptr)>, AllocError>
    requires leaves { IsBetween 0 (2 ^ 25) leaves.now }
    requires changes { IsBetween 0 (2 ^ 25) changes.now }
    requires leaves_fit { All (λ leaf. FitsAt 0 (At leaf.1)) leaves.now }
    requires changes_fit { All (λ change. FitsAt 0 change.1) changes.now }
    ensures between { IfOk result (λ v. IsBetween 0 (2 ^ 25) v.items) }
    ensures fit { IfOk result (λ v. All (λ leaf. FitsAt 0 (At leaf.1)) v.items) }
    ensures each { IfOk result (λ v. (index : ℕ) → value_at v.items index ≡ overlaid (value_at changes.now index) (value_at leaves.now index)) }
{
    let mut out = Vec::new(alloc);
    let mut next = 0;
    for change in changes {
        add_between(&mut out, leaves, next, change.0)?;
        add_change(&mut out, change.0, &change.1)?;
        next = change.0 + 1;
    }
    add_between(&mut out, leaves, next, INDICES)?;
    Ok(out)
}
