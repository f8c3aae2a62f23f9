//! What a ring of 32 blocks shows for a label.
//!
//! Most blocks of a ring are zeros. A block that does not begin with the mark of a root is passed over, so no sum of it
//! is computed.
ghost use Rattle.std.specs.Prelude.{◌≡◌, ◌↔◌, ◌≤◌, ◌<◌, ◌*◌, IsTrue, OnOk, IfOk, length, take, codes, Option};
ghost use Rattle.zr_base.specs.Readers.{Reads};
ghost use Rattle.zr_rules.specs.Places.{is_gone};
ghost use Rattle.zr_label.specs.Blocks.{padding};
ghost use Rattle.zr_scan.specs.Scan.{IsRootFor};
ghost use Rattle.zr_scan.specs.Rings.{in_ring, with_root, IsRootAt, AddsRoots, IsNewerAt, IsNewerOf, IsLater};

use std::alloc::{AllocError, Global};
use zr_base::{DevState, Items, NoMemory};
use zr_label::{Label, Newer, Uber, newer_of, slot_of};

/// So many zeros.
pub fn zeros(alloc: Global, n: usize) -> Result<Vec<u8>, AllocError>
    ensures zeros { IfOk result (λ v. v.items ≡ padding n) }
    ensures size { IfOk result (λ v. length v.items ≡ n) }
{
    vec![in alloc; 0; n]
}

/// Whether a block begins as roots of every version do.
fn is_marked(block: &[u8]) -> bool
    requires { length block.now ≡ 4096 }
    ensures { IsTrue result ↔ (take 8 block.now ≡ codes "zr-uber1") }
{
    let mark = *b"zr-uber1";
    block[..8] == mark[..]
}

fn copy_of(block: &[u8]) -> [u8; 4096]
    requires { length block.now ≡ 4096 }
    ensures { result ≡ block.now }
{
    let mut copy = [0; 4096];
    copy.copy_from_slice(block);
    copy
}

/// Block k of a ring.
fn block_in(ring: &[u8], k: u32) -> &[u8]
    requires ring { length ring.now ≡ 131072 }
    requires block { k < 32 }
    ensures block { result.now ≡ in_ring ring.now k }
    ensures size { length result.now ≡ 4096 }
{
    let at = 4096 * k as usize;
    &ring[at..at + 4096]
}

/// Whether a root is of the label's pool and lists its device, in service or leaving.
fn is_root_for(l: &Label, u: &Uber) -> bool
    requires devices { u.now.count ≤ 32 }
    ensures { IsTrue result ↔ IsRootFor l.now u.now }
{
    if u.guid != l.guid {
        return false;
    }
    if l.index >= u.count {
        return false;
    }
    let row = u.rows[l.index as usize];
    row.added == l.added && !is_gone(row.state)
}

fn is_gone(state: DevState) -> bool
    ensures { result ≡ is_gone state }
{
    matches!(state, DevState::Gone)
}

/// The root for the label that a block in slot k of a ring is.
fn root_at(block: &[u8], k: u32, l: &Label) -> Option<Uber>
    requires { length block.now ≡ 4096 }
    ensures { Reads (IsRootAt block.now k l.now) result }
{
    if !is_marked(block) {
        return None;
    }
    let Some(u) = Uber::decode(&copy_of(block)) else {
        return None;
    };
    if slot_of(u.txg) != k {
        return None;
    }
    if !is_root_for(l, &u) {
        return None;
    }
    Some(u)
}

/// Adds a root, if there is one.
fn add(roots: &mut Items<Uber>, found: Option<Uber>) -> Result<(), NoMemory>
    ensures { OnOk result (roots.new ≡ with_root roots.old found) }
{
    match found {
        None => Ok(()),
        Some(u) => roots.push(u),
    }
}

/// Adds the roots for the label that stand in a ring.
pub fn add_roots(ring: &[u8], l: &Label, roots: &mut Items<Uber>) -> Result<(), NoMemory>
    requires { length ring.now ≡ 131072 }
    ensures { OnOk result (AddsRoots ring.now 32 l.now roots.old roots.new) }
{
    for k in 0..32 {
        add(roots, root_at(block_in(ring, k), k, l))?;
    }
    Ok(())
}

/// The root of the pool of an unknown version that a block in slot k of a ring is.
fn newer_at(block: &[u8], k: u32, guid: u64) -> Option<Newer>
    requires { length block.now ≡ 4096 }
    ensures { Reads (IsNewerAt block.now k guid) result }
{
    if !is_marked(block) {
        return None;
    }
    let Some(x) = newer_of(&copy_of(block), guid) else {
        return None;
    };
    if slot_of(x.txg) != k {
        return None;
    }
    Some(x)
}

/// The one whose group is higher, the old one where they are equal.
fn newer(old: Option<Newer>, found: Option<Newer>) -> Option<Newer>
    ensures { IsLater old found result }
{
    match (old, found) {
        (None, _) => found,
        (Some(_), None) => old,
        (Some(a), Some(b)) => { if a.txg < b.txg { found } else { old } }
    }
}

/// The newest root of an unknown version in a ring, or the one seen before where none is newer.
pub fn newest_in(ring: &[u8], guid: u64, old: Option<Newer>) -> Option<Newer>
    requires { length ring.now ≡ 131072 }
    ensures { IsNewerOf ring.now 32 guid old result }
{
    let mut found = old;
    for k in 0..32 {
        found = newer(found, newer_at(block_in(ring, k), k, guid));
    }
    found
}
