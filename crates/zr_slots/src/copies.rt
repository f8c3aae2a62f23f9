//! What keeps the slots from being one pool: roots of two pools, two roots of one group, two copies of one device.
ghost use Rattle.std.specs.Prelude.{◌≡◌, ◌≢◌, ◌<◌, ◌≤◌, ℕ, IsTrue, IsFalse, IfSome, IfNone, length, Contains};
ghost use Rattle.zr_base.specs.Readers.{Reads};
ghost use Rattle.zr_label.specs.declared.root.Uber.{Uber};
ghost use Rattle.zr_scan.specs.Scan.{IsRootFor};
ghost use Rattle.zr_image.specs.Current.{AreTwoPools, AreTwoRoots, AreTwoCopies, IsCurrent, IsOnePool, IsShown, IsShownAt, ExcludesSlot};
ghost use Rattle.zr_slots.specs.Checks.{AreLawful, IsSlotOf, IsOther};

use crate::lowest::{Between, Has, exclude_pair, lowest};
use crate::same::is_same;
use crate::show::{label_at, roots_at};
use zr_base::{DevState, Refusal};
use zr_label::{Label, Seen, Uber};

/// The slots of roots of two pools.
#[derive(Drop)]
pub struct Pools<'a> {
    pub seen: &'a [Seen],
}

impl Between for Pools<'_> {
    ghost use Rattle.zr_image.specs.Current.{AreTwoPools};
    ghost use Rattle.zr_slots.specs.Checks.{IsSlotOf};

    ghost shared = { λ s. AreTwoPools s.seen.now };

    ghost known = { λ s. IsSlotOf s.seen.now };

    fn is_shared(&self, a: u32, b: u32) -> bool {
        let Some(one) = pool_at(self.seen, a) else {
            return false;
        };
        let Some(other) = pool_at(self.seen, b) else {
            return false;
        };
        one != other
    }
}

/// The pool of the roots that a slot shows.
fn pool_at(seen: &[Seen], slot: u32) -> Option<u64>
    requires { IsSlotOf seen.now slot }
    ensures some { IfSome result (λ guid. (u : Uber) × IsShownAt seen.now slot u × (u.guid ≡ guid)) }
    ensures one { IfSome result (λ guid. (u : Uber) → IsShownAt seen.now slot u → u.guid ≡ guid) }
    ensures none { IfNone result ((u : Uber) → ¬ IsShownAt seen.now slot u) }
{
    let Some(label) = label_at(seen, slot) else {
        return None;
    };
    if roots_at(seen, slot).is_empty() {
        return None;
    }
    Some(label.guid)
}

/// Whether a root of the same group is not this one.
fn is_other(u: &Uber, v: &Uber) -> bool
    ensures yes { IsTrue result → IsOther u.now v.now }
    ensures no { IsFalse result → ¬ IsOther u.now v.now }
{
    v.txg == u.txg && !is_same(v, u)
}

/// Whether a root of the list has the group of this one and is another.
fn other_in(us: &[Uber], u: &Uber) -> bool
    ensures yes { IsTrue result → (v : Uber) × Contains us.now v × IsOther u.now v }
    ensures no { IsFalse result → (v : Uber) → Contains us.now v → ¬ IsOther u.now v }
{
    for i in 0..us.len() {
        if is_other(u, &us[i]) {
            return true;
        }
    }
    false
}

/// Whether a root is of the group, and a root of the list has the group too and is another.
fn has_other(u: &Uber, vs: &[Uber], txg: u64) -> bool
    ensures yes { IsTrue result → (u.now.txg ≡ txg) × (v : Uber) × Contains vs.now v × IsOther u.now v }
    ensures no { IsFalse result → u.now.txg ≡ txg → (v : Uber) → Contains vs.now v → ¬ IsOther u.now v }
{
    u.txg == txg && other_in(vs, u)
}

/// Whether two roots of a group, one of each list, differ.
fn differ(us: &[Uber], vs: &[Uber], txg: u64) -> bool
    ensures yes { IsTrue result → (u v : Uber) × Contains us.now u × Contains vs.now v × (u.txg ≡ txg) × IsOther u v }
    ensures no { IsFalse result → (u v : Uber) → Contains us.now u → Contains vs.now v → u.txg ≡ txg → ¬ IsOther u v }
{
    for i in 0..us.len() {
        if has_other(&us[i], vs, txg) {
            return true;
        }
    }
    false
}

/// The slots of two roots of the group of the current one.
#[derive(Drop)]
pub struct Roots<'a> {
    pub seen: &'a [Seen],
    pub txg: u64,
}

impl Between for Roots<'_> {
    ghost use Rattle.zr_image.specs.Current.{AreTwoRoots};
    ghost use Rattle.zr_slots.specs.Checks.{IsSlotUpTo};

    ghost shared = { λ s. AreTwoRoots s.seen.now };

    ghost known = { λ s. IsSlotUpTo s.seen.now s.txg };

    fn is_shared(&self, a: u32, b: u32) -> bool {
        differ(roots_at(self.seen, a), roots_at(self.seen, b), self.txg)
    }
}

impl Has for Roots<'_> {
    ghost use Rattle.zr_image.specs.Current.{AreTwoRoots};
    ghost use Rattle.zr_slots.specs.Checks.{IsSlotUpTo};

    ghost has = { λ s slot. AreTwoRoots s.seen.now slot slot };

    ghost asks = { λ s. IsSlotUpTo s.seen.now s.txg };

    fn is_had(&self, slot: u32) -> bool {
        self.is_shared(slot, slot)
    }
}

/// Whether a root is for a label: of its pool, and with its device in service or leaving.
pub fn is_root_for(l: &Label, u: &Uber) -> bool
    requires { u.now.count ≤ 32 }
    ensures yes { IsTrue result → IsRootFor l.now u.now }
    ensures no { IsFalse result → ¬ IsRootFor l.now u.now }
{
    if u.guid != l.guid || l.index >= u.count {
        return false;
    }
    let row = u.rows[l.index as usize];
    row.added == l.added && row.state != DevState::Gone
}

/// The slots of two labels of one device of a root.
#[derive(Drop)]
pub struct Copies<'a> {
    pub seen: &'a [Seen],
    pub root: &'a Uber,
}

impl Between for Copies<'_> {
    ghost use Rattle.zr_image.specs.Current.{AreTwoCopies};
    ghost use Rattle.zr_slots.specs.Checks.{IsSlotOfRoot};

    ghost shared = { λ s. AreTwoCopies s.root.now s.seen.now };

    ghost known = { λ s. IsSlotOfRoot s.seen.now s.root.now };

    fn is_shared(&self, a: u32, b: u32) -> bool {
        let (Some(one), Some(other)) = (label_at(self.seen, a), label_at(self.seen, b)) else {
            return false;
        };
        one.index == other.index && is_root_for(&one, self.root) && is_root_for(&other, self.root)
    }
}

/// Refuses the lowest slot that shows two roots of the group.
fn exclude_twice(seen: &[Seen], txg: u64, slots: u32) -> Result<(), Refusal>
    requires slots { slots ≡ length seen.now }
    requires top { (u : Uber) × IsCurrent seen.now u × (u.txg ≡ txg) }
    ensures { ExcludesSlot (AreTwoRoots seen.now) result }
{
    match lowest(&Roots { seen, txg }, slots) {
        Some(slot) => Err(Refusal::TwoPools {
            first: slot,
            second: slot,
        }),
        None => Ok(()),
    }
}

/// Refuses slots that are not one pool with one current root.
pub fn one_pool(seen: &[Seen], root: &Uber, slots: u32) -> Result<(), Refusal>
    requires slots { slots ≡ length seen.now }
    requires lawful { AreLawful seen.now }
    requires current { IsCurrent seen.now root.now }
    requires devices { root.now.count ≤ 32 }
    ensures { IsOnePool seen.now root.now result }
{
    exclude_pair(&Pools { seen }, slots)?;
    let roots = Roots {
        seen,
        txg: root.txg,
    };
    exclude_pair(&roots, slots)?;
    exclude_twice(seen, root.txg, slots)?;
    exclude_pair(&Copies { seen, root }, slots)
}
