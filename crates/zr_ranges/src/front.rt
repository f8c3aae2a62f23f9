//! An array of extents of which the first ones may be dead.
//!
//! The extents from an index on are those of a set. To take out the first one only raises the index, so whoever empties a
//! set from its front moves nothing. The dead ones are room like that behind the last, and are moved away at the next
//! change that needs the array from its beginning.
ghost use Rattle.std.specs.Prelude.{◌≡◌, ℕ, ◌+◌, ◌-◌, ◌^◌, ◌<◌, ◌≤◌, ◌∷◌, drop, take, length, min, vec_len, slice_set};
ghost use Rattle.std.specs.Vec.{vec_capacity};
ghost use Rattle.zr_base.specs.Extents.{IsMaximal, HasAll, RemovesUnits, unit_count, extent_at};

use crate::run_at;
use zr_base::Extent;

/// The extents from an index on.
pub fn live(runs: &Vec<Extent>, from: usize) -> &[Extent]
    requires { from ≤ length runs.now.items }
    ensures { result.now ≡ drop from runs.now.items }
{
    &runs.as_slice()[from..]
}

/// Moves the extents from an index on to the beginning, where the index then is. It costs nothing where it is there.
pub fn settle(runs: &mut Vec<Extent>, from: &mut usize)
    requires { from.old ≤ length runs.old.items }
    ensures items { runs.new.items ≡ drop from.old runs.old.items }
    ensures len { vec_len runs.new + from.old ≡ vec_len runs.old }
    ensures capacity { vec_capacity runs.new ≡ vec_capacity runs.old }
    ensures from { from.new ≡ 0 }
{
    if *from == 0 {
        return;
    }
    let len = runs.len();
    runs.copy_within(*from..len, 0);
    runs.truncate(len - *from);
    *from = 0;
}

/// Takes out the lowest units, `n` or, where the lowest extent has fewer, that extent. It answers them, and the index of
/// the first extent that is left.
pub fn take_first(runs: &mut Vec<Extent>, from: usize, n: u64) -> (Extent, usize)
    requires maximal { IsMaximal (drop from runs.old.items) }
    requires index { from < length runs.old.items }
    requires some { 0 < n }

    ensures start { result.0.start ≡ (extent_at (drop from runs.old.items) 0).start }
    ensures len { result.0.len ≡ min n (extent_at (drop from runs.old.items) 0).len }
    ensures not_empty { 0 < result.0.len }
    ensures in_range { result.0.start + result.0.len ≤ 2 ^ 62 }
    ensures covered { HasAll (drop from runs.old.items) result.0 }
    ensures removed { RemovesUnits (drop from runs.old.items) (drop result.1 runs.new.items) result.0 }
    ensures whole { result.0.len < n → drop from runs.old.items ≡ result.0 ∷ drop result.1 runs.new.items }
    ensures shorter { result.0.len < n → result.1 ≡ from + 1 }
    ensures left { from ≤ result.1 }
    ensures within { result.1 ≤ length runs.new.items }
    ensures not_longer { vec_len runs.new ≡ vec_len runs.old }
    ensures capacity { vec_capacity runs.new ≡ vec_capacity runs.old }
{
    let run = run_at(live(runs, from), 0);
    if run.len <= n {
        return (run, from + 1);
    }
    runs[from] = Extent {
        start: run.start + n,
        len: run.len - n,
    };
    let taken = Extent {
        start: run.start,
        len: n,
    };
    (taken, from)
}

/// How many units the extents have together.
pub fn count_units(runs: &[Extent]) -> u64
    requires { IsMaximal runs.now }
    ensures { result ≡ unit_count runs.now }
{
    let mut units = 0;
    for run in runs {
        units += run.len;
    }
    units
}
