//! Pools whose newest root is of an unknown version, and slots that are in use.
ghost use Rattle.std.specs.Prelude.{◌≡◌, ◌<◌, ◌≤◌, ℕ, IsTrue, IsFalse, length, Contains};
ghost use Rattle.zr_base.specs.Readers.{Reads};
ghost use Rattle.zr_label.specs.declared.root.Uber.{Uber};
ghost use Rattle.zr_image.specs.Current.{IsUnknown, IsInUse, IsKnown, IsShown};

use crate::show::{label_at, newer_at, roots_at};
use zr_base::Refusal;
use zr_label::{Newer, Seen, Uber};

/// Whether one of the roots is of the pool, and of this group or a later one.
fn reaches(us: &[Uber], guid: u64, txg: u64) -> bool
    ensures yes { IsTrue result → (u : Uber) × Contains us.now u × (u.guid ≡ guid) × (txg ≤ u.txg) }
    ensures no { IsFalse result → (u : Uber) → Contains us.now u → u.guid ≡ guid → u.txg < txg }
{
    for u in us {
        if u.guid == guid && txg <= u.txg {
            return true;
        }
    }
    false
}

/// Whether one of the roots that are shown is of the pool, and of this group or a later one.
fn is_reached(seen: &[Seen], guid: u64, txg: u64) -> bool
    ensures yes { IsTrue result → (u : Uber) × IsShown seen.now u × (u.guid ≡ guid) × (txg ≤ u.txg) }
    ensures no { IsFalse result → (u : Uber) → IsShown seen.now u → u.guid ≡ guid → u.txg < txg }
{
    for slot in 0..seen.len() {
        if reaches(seen[slot].ubers.as_slice(), guid, txg) {
            return true;
        }
    }
    false
}

/// The root of an unknown version of a slot, if all known roots of its pool are older.
pub fn unknown_at(seen: &[Seen], slot: u32) -> Option<Newer>
    requires { slot < length seen.now }
    ensures { Reads (IsUnknown seen.now slot) result }
{
    let Some(label) = label_at(seen, slot) else {
        return None;
    };
    let Some(newer) = newer_at(seen, slot) else {
        return None;
    };
    if is_reached(seen, label.guid, newer.txg) {
        return None;
    }
    Some(newer)
}

/// Refuses the lowest slot whose pool has its newest root of an unknown version.
pub fn known(seen: &[Seen], slots: u32) -> Result<(), Refusal>
    requires { slots ≡ length seen.now }
    ensures { IsKnown seen.now result }
{
    for slot in 0..slots {
        if let Some(newer) = unknown_at(seen, slot) {
            return Err(Refusal::UnknownVersion {
                found: newer.version,
            });
        }
    }
    Ok(())
}

/// Whether a slot has a label and a root of the label's pool, known or not.
pub fn is_in_use(seen: &[Seen], slot: u32) -> bool
    requires { slot < length seen.now }
    ensures yes { IsTrue result → IsInUse seen.now slot }
    ensures no { IsFalse result → ¬ IsInUse seen.now slot }
{
    if !roots_at(seen, slot).is_empty() {
        return true;
    }
    unknown_at(seen, slot).is_some()
}
