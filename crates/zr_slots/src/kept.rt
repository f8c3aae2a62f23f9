//! Which groups can be gone back to.
//!
//! Behind the current root the rings have older ones. What such a root has is given out again only behind the two groups
//! that follow it, or behind a reset; so the two groups behind the current one are kept, as far as no reset and no change of
//! the devices lies between.
ghost use Rattle.std.specs.Prelude.{◌≡◌, ◌≢◌, Ok, IsTrue, IsFalse, IfOk, IfSome, IfNone, length, Contains};
ghost use Rattle.zr_label.specs.Blocks.{IsUber};
ghost use Rattle.zr_label.specs.declared.root.Uber.{Uber};
ghost use Rattle.zr_image.specs.Current.{FindsCurrent, IsGroup, IsOldest, IsShown, reset_of};
ghost use Rattle.zr_slots.specs.Checks.{AreLawful, IsOther};
ghost use Rattle.zr_slots.specs.Kept.{IsNoGroup, KeepsGroup};

use crate::same::{are_same_rows, is_same};
use zr_base::Refusal;
use zr_label::{Seen, Uber};

/// How many groups behind the current one are kept at most.
const BEHIND: u64 = 2;

/// The group of the last reset at or before the root.
fn reset_of(u: &Uber) -> u64
    ensures { result ≡ reset_of u.now }
{
    if u.reset == 0 { u.txg } else { u.reset }
}

/// The first root of the group in a list.
fn first_in(us: &[Uber], txg: u64) -> Option<Uber>
    ensures some { IfSome result (λ u. Contains us.now u × (u.txg ≡ txg)) }
    ensures none { IfNone result ((u : Uber) → Contains us.now u → u.txg ≢ txg) }
{
    for i in 0..us.len() {
        if us[i].txg == txg {
            return Some(us[i]);
        }
    }
    None
}

/// The first root of the group that some slot shows.
fn first_shown(seen: &[Seen], txg: u64) -> Option<Uber>
    ensures some { IfSome result (λ u. IsShown seen.now u × (u.txg ≡ txg)) }
    ensures none { IfNone result ((u : Uber) → IsShown seen.now u → u.txg ≢ txg) }
{
    for slot in 0..seen.len() {
        if let Some(u) = first_in(seen[slot].ubers.as_slice(), txg) {
            return Some(u);
        }
    }
    None
}

/// Whether a root has another group, or is the same.
fn agrees(v: &Uber, u: &Uber) -> bool
    ensures yes { IsTrue result → v.now.txg ≡ u.now.txg → v.now ≡ u.now }
    ensures no { IsFalse result → IsOther u.now v.now }
{
    v.txg != u.txg || is_same(v, u)
}

/// Whether each root of a list that has the group of this one is the same.
fn agree(us: &[Uber], u: &Uber) -> bool
    ensures yes { IsTrue result → (v : Uber) → Contains us.now v → v.txg ≡ u.now.txg → v ≡ u.now }
    ensures no { IsFalse result → (v : Uber) × Contains us.now v × IsOther u.now v }
{
    for i in 0..us.len() {
        if !agrees(&us[i], u) {
            return false;
        }
    }
    true
}

/// Whether each root that is shown and has the group of this one is the same.
fn all_agree(seen: &[Seen], u: &Uber) -> bool
    ensures yes { IsTrue result → (v : Uber) → IsShown seen.now v → v.txg ≡ u.now.txg → v ≡ u.now }
    ensures no { IsFalse result → (v : Uber) × IsShown seen.now v × IsOther u.now v }
{
    for slot in 0..seen.len() {
        if !agree(seen[slot].ubers.as_slice(), u) {
            return false;
        }
    }
    true
}

/// The root of a group, where each slot that shows one shows the same, with the devices of the current root.
fn root_of_group(seen: &[Seen], current: &Uber, txg: u64) -> Option<Uber>
    requires { length current.now.rows ≡ 32 }
    ensures some { IfSome result (IsGroup seen.now current.now txg) }
    ensures none { IfNone result (IsNoGroup seen.now current.now txg) }
{
    let Some(u) = first_shown(seen, txg) else {
        return None;
    };
    if !all_agree(seen, &u) || !are_same_rows(&u.rows, &current.rows) {
        return None;
    }
    Some(u)
}

/// The oldest group that is kept. It looks at three groups at most, and at each root that is shown twice for each.
fn oldest_kept(seen: &[Seen], current: &Uber) -> u64
    requires lawful { IsUber current.now }
    requires current { FindsCurrent seen.now (Ok current.now) }
    ensures { IsOldest seen.now current.now result }
{
    let since = current.txg - reset_of(current);
    let mut oldest = current.txg;
    for behind in 0..BEHIND + 1 {
        if behind > since || root_of_group(seen, current, current.txg - behind).is_none() {
            return oldest;
        }
        oldest = current.txg - behind;
    }
    oldest
}

/// The root of a group that is kept, or a refusal that tells the oldest group that is. It reads no disk and takes no memory.
pub fn kept_root(seen: &[Seen], current: &Uber, txg: u64) -> Result<Uber, Refusal>
    requires lawful { AreLawful seen.now }
    requires root { IsUber current.now }
    requires current { FindsCurrent seen.now (Ok current.now) }
    ensures keeps { KeepsGroup seen.now current.now txg result }
    ensures root { IfOk result IsUber }
    ensures pool { IfOk result (λ u. u.guid ≡ current.now.guid) }
{
    let oldest = oldest_kept(seen, current);
    if txg < oldest || current.txg < txg {
        return Err(Refusal::GroupNotKept { oldest });
    }
    match root_of_group(seen, current, txg) {
        Some(u) => Ok(u),
        None => unreachable!(),
    }
}
