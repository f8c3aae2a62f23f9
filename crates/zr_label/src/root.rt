//! What the labels of a slot show.
ghost use Rattle.std.specs.Prelude.{◌≡◌, ◌↔◌, ◌≤◌, ◌⊎◌, [], Some, IsNone, IfSome, Contains};
ghost use Rattle.std.specs.List.{AllByRecursion};

use zr_base::{DevRow, Items};
use zr_bptr::Ptr;

/// A name of at most 63 bytes, with zeros behind it.
#[derive(Clone, Copy, PartialEq, Eq, Debug)]
pub struct Name {
    pub len: u8,
    pub bytes: [u8; 63],
}

/// Which device of which pool a slot is: the pool's identity, the device's index, the group that added it, its units,
/// and the pool's name.
#[derive(Clone, Copy, PartialEq, Eq, Debug)]
pub struct Label {
    pub guid: u64,
    pub index: u32,
    pub added: u64,
    pub units: u64,
    pub name: Name,
}

/// A root: its group, its metadata of `len` bytes, the rows of its devices, and the group of the last reset or 0.
/// A row at or behind `count` is `On` with three zeros.
#[derive(Clone, Copy, PartialEq, Eq, Debug)]
pub struct Uber {
    pub version: u64,
    pub txg: u64,
    pub guid: u64,
    pub len: u64,
    pub count: u32,
    pub reset: u64,
    pub root: Ptr,
    pub rows: [DevRow; 32],
    pub name: Name,
}

/// A root of a version that this program does not know.
#[derive(Clone, Copy, PartialEq, Eq, Debug)]
pub struct Newer {
    pub version: u64,
    pub txg: u64,
}

/// What a slot shows: its label, the valid uberblocks of its rings, and the newest root there of an unknown version.
#[derive(Drop)]
pub struct Seen {
    pub label: Option<Label>,
    pub ubers: Items<Uber>,
    pub newer: Option<Newer>,
}

/// One of the roots whose group is the highest. The time is linear in the roots.
pub fn best(us: &[Uber]) -> Option<Uber>
    ensures none { IsNone result ↔ (us.now ≡ []) }
    ensures one { IfSome result (Contains us.now) }
    ensures highest { IfSome result (λ u. AllByRecursion (λ v. v.txg ≤ u.txg) us.now) }
{
    let mut found: Option<Uber> = None;
    for u in us {
        found = Some(newer_of(&found, u));
    }
    found
}

/// The root whose group is higher.
fn newer_of(found: &Option<Uber>, u: &Uber) -> Uber
    ensures either { (result ≡ u.now) ⊎ (found.now ≡ Some result) }
    ensures new { u.now.txg ≤ result.txg }
    ensures old { IfSome found.now (λ old. old.txg ≤ result.txg) }
{
    match found {
        Some(old) => { if old.txg < u.txg { *u } else { *old } }
        None => *u,
    }
}
