//! The lowest slot, or the lowest pair of slots, of which something is true.
ghost use Rattle.std.specs.Prelude.{◌≡◌, ◌<◌, ℕ, IfSome, IfNone, IsTrue, IsFalse};
ghost use Rattle.zr_base.specs.declared.refusal.Refusal.TheVariants.{TwoPools};
ghost use Rattle.zr_image.specs.Current.{IsPair, IsLowest, IsLowestPair, ExcludesPair};

use zr_base::Refusal;

/// Something that a slot may have.
pub trait Has {
    /// Holds where the slot has it.
    ghost has: { Self → ℕ → Type 0 };

    /// Holds where it can be asked for a slot.
    ghost asks: { Self → ℕ → Type 0 };

    /// Whether the slot has it.
    fn is_had(&self, slot: u32) -> bool
        requires { asks self.now slot }
        ensures yes { IsTrue result → has self.now slot }
        ensures no { IsFalse result → ¬ has self.now slot };
}

/// Something that two slots may have between them.
pub trait Between {
    /// Holds where the two have it.
    ghost shared: { Self → ℕ → ℕ → Type 0 };

    /// Holds where it can be asked for a slot.
    ghost known: { Self → ℕ → Type 0 };

    /// Whether the two slots have it.
    fn is_shared(&self, a: u32, b: u32) -> bool
        requires one { known self.now a }
        requires other { known self.now b }
        ensures yes { IsTrue result → shared self.now a b }
        ensures no { IsFalse result → ¬ shared self.now a b };
}

/// The lowest slot that has it. The time is linear in the slots.
pub fn lowest<H: Has>(it: &H, slots: u32) -> Option<u32>
    requires asks { (slot : ℕ) → slot < slots → H.asks it.now slot }
    requires within { (slot : ℕ) → H.has it.now slot → slot < slots }
    ensures some { IfSome result (IsLowest (H.has it.now)) }
    ensures none { IfNone result ((slot : ℕ) → ¬ H.has it.now slot) }
{
    for slot in 0..slots {
        if it.is_had(slot) {
            return Some(slot);
        }
    }
    None
}

/// The lowest slot behind this one that shares it with this one.
fn partner<B: Between>(it: &B, a: u32, slots: u32) -> Option<u32>
    requires one { a < slots }
    requires known { (slot : ℕ) → slot < slots → B.known it.now slot }
    ensures some { IfSome result (λ b. (a < b) × B.shared it.now a b × ((c : ℕ) → a < c → c < b → ¬ B.shared it.now a c)) }
    ensures none { IfNone result ((c : ℕ) → a < c → c < slots → ¬ B.shared it.now a c) }
{
    for b in a + 1..slots {
        if it.is_shared(a, b) {
            return Some(b);
        }
    }
    None
}

/// Two slots, the lower one first.
#[derive(Clone, Copy, PartialEq, Eq, Debug)]
pub struct Pair {
    pub low: u32,
    pub high: u32,
}

/// The lowest pair of slots that share it. The time is quadratic in the slots.
pub fn lowest_pair<B: Between>(it: &B, slots: u32) -> Option<Pair>
    requires known { (slot : ℕ) → slot < slots → B.known it.now slot }
    requires within { (a b : ℕ) → B.shared it.now a b → b < slots }
    ensures some { IfSome result (λ pair. IsLowestPair (B.shared it.now) (pair.low, pair.high)) }
    ensures none { IfNone result ((p : ℕ × ℕ) → ¬ IsPair (B.shared it.now) p) }
{
    for low in 0..slots {
        if let Some(high) = partner(it, low, slots) {
            return Some(Pair { low, high });
        }
    }
    None
}

/// Refuses the lowest pair of slots that share it.
pub fn exclude_pair<B: Between>(it: &B, slots: u32) -> Result<(), Refusal>
    requires known { (slot : ℕ) → slot < slots → B.known it.now slot }
    requires within { (a b : ℕ) → B.shared it.now a b → b < slots }
    ensures { ExcludesPair (B.shared it.now) result }
{
    match lowest_pair(it, slots) {
        Some(pair) => Err(Refusal::TwoPools {
            first: pair.low,
            second: pair.high,
        }),
        None => Ok(()),
    }
}
