//! Sorted entries, seen by counted calls alone, and the search in them.
ghost use Rattle.std.specs.Prelude.{◌≡◌, ℕ, ◌+◌, ◌-◌, ◌<◌, List, length, false, MatchOption};
ghost use Rattle.zr_base.specs.declared.space.Entry.{Entry};
ghost use Rattle.zr_rules.specs.Mappings.{entry_at, entry_order, has_source, HasSourceAt};
ghost use Rattle.zr_imap.specs.Searches.{IsSearchable, IsLogarithmic};

use crate::steps::Steps;
use std::cmp::Ordering;
use std::sync::ledger::Ledger;
use zr_base::Entry;

/// Entries in an order. Each look at one counts as a step.
pub trait Sorted {
    /// The entries, however they are kept.
    ghost entries: { Self → List Entry };

    fn len(&self) -> usize
        ensures { result ≡ length (entries self.now) };

    /// `Less` where entry `i` ends at or below the unit, `Equal` where its source has it, `Greater` where it begins
    /// above.
    fn compare<L: Ledger>(&self, i: usize, u: u64, steps: &mut Steps<L>) -> Ordering
        requires { i < length (entries self.now) }
        ensures order { result ≡ entry_order (entry_at (entries self.now) i) u }
        ensures step { steps.new ≡ steps.old + 1 };

    /// Entry `i`.
    fn item<L: Ledger>(&self, i: usize, steps: &mut Steps<L>) -> Entry
        requires { i < length (entries self.now) }
        ensures entry { result ≡ entry_at (entries self.now) i }
        ensures step { steps.new ≡ steps.old + 1 };
}

/// The index of the entry whose source has the unit, by halving: over n entries it takes s steps with 2^s at most
/// 2n + 1.
pub fn search<O: Sorted, L: Ledger>(sorted: &O, u: u64, steps: &mut Steps<L>) -> Option<usize>
    requires along { IsSearchable (O.entries sorted.now) u }
    ensures found { MatchOption result (has_source (O.entries sorted.now) u ≡ false) (λ i. (i < length (O.entries sorted.now)) × HasSourceAt (O.entries sorted.now) i u) }
    ensures cost { IsLogarithmic (steps.new - steps.old) (length (O.entries sorted.now)) }
{
    let mut low = 0;
    let mut high = sorted.len();
    while low < high {
        let middle = low + (high - low) / 2;
        match sorted.compare(middle, u, steps) {
            Ordering::Less => low = middle + 1,
            Ordering::Equal => return Some(middle),
            Ordering::Greater => high = middle,
        }
    }
    None
}
