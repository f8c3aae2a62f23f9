//! Extents cut at a unit.
ghost use Rattle.std.specs.Prelude.{◌≡◌, ℕ, ◌&&◌, ◌-◌, nat_le, nat_lt, min, max, IfSome, IfNone};
ghost use Rattle.zr_base.specs.Extents.{in_extent};
ghost use Rattle.zr_rules.specs.Frontiers.{in_part, IsFull};

use zr_base::Extent;

/// The units of an extent below a unit.
pub fn part_below(e: Extent, at: u64) -> Option<Extent>
    ensures units { (u : ℕ) → in_part result u ≡ (in_extent e u && nat_lt u at) }
    ensures full { IsFull result }
    ensures start { IfSome result (λ part. part.start ≡ e.start) }
    ensures len { IfSome result (λ part. part.len ≡ min e.len (at - e.start)) }
    ensures none { IfNone result (min e.len (at - e.start) ≡ 0) }
{
    if e.start >= at {
        return None;
    }
    if e.len == 0 {
        return None;
    }
    Some(Extent {
        start: e.start,
        len: e.len.min(at - e.start),
    })
}

/// The units of an extent from a unit on.
pub fn part_from(e: Extent, at: u64) -> Option<Extent>
    ensures units { (u : ℕ) → in_part result u ≡ (in_extent e u && nat_le at u) }
    ensures full { IsFull result }
    ensures start { IfSome result (λ part. part.start ≡ max e.start at) }
    ensures len { IfSome result (λ part. part.len ≡ e.len - (at - e.start)) }
    ensures none { IfNone result (e.len - (at - e.start) ≡ 0) }
{
    if e.len == 0 {
        return None;
    }
    if e.start >= at {
        return Some(e);
    }
    let below = at - e.start;
    if e.len <= below {
        return None;
    }
    Some(Extent {
        start: at,
        len: e.len - below,
    })
}
