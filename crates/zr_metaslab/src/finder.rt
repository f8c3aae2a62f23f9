//! The first metaslab with a run that is long enough, found again.
//!
//! Wants come one after the other, and mostly the metaslab that served the last one serves the next. So beside the tree
//! of the longest runs stands what the last search found: before the leaf `from` no leaf has `least`. A want of at least
//! so much that this leaf can serve is answered at once; any other goes down the tree.
ghost use Rattle.std.specs.Prelude.{◌≡◌, ℕ, ◌<◌, ◌≤◌, ◌^◌, ◌==◌, length, IfOk, IfSome, IfNone, if◌then◌else◌};
ghost use Rattle.zr_metaslab.specs.Trees.{leaf_at, IsFirstLeaf, HasLeaf};

use crate::Maxima;
use std::alloc::Global;
use std::marker::Model;
use zr_base::NoMemory;

#[derive(Drop)]
pub struct Finder {
    tree: Maxima,
    from: usize,
    least: u64,
}

impl Model for Finder {
    ghost use Rattle.zr_metaslab.specs.Trees.{Tree, HasNoneBefore};

    ghost Value = { Tree };

    ghost view = { λ a. a.tree };

    ghost invariant = { λ a. HasNoneBefore a.tree a.from a.least };
}

impl Finder {
    /// No leaves. It takes no memory.
    pub fn none(alloc: Global) -> Finder
        ensures { (k : ℕ) → leaf_at result k ≡ 0 }
    {
        Finder {
            tree: Maxima::none(alloc),
            from: 0,
            least: 0,
        }
    }

    /// At least so many leaves, all 0.
    pub fn new(alloc: Global, leaves: usize) -> Result<Finder, NoMemory>
        requires { leaves ≤ 2 ^ 40 }
        ensures zero { IfOk result (λ t. (k : ℕ) → leaf_at t k ≡ 0) }
        ensures room { IfOk result (λ t. leaves ≤ t.size) }
        ensures made { IfOk result (λ t. 0 < length t.nodes) }
    {
        Ok(Finder {
            tree: Maxima::new(alloc, leaves)?,
            from: 0,
            least: 0,
        })
    }

    /// The greatest leaf, or 0 where there is none.
    pub fn greatest(&self) -> u64
        ensures most { (k : ℕ) → leaf_at self.now k ≤ result }
        ensures some { 0 < result → HasLeaf self.now result }
    {
        self.tree.greatest()
    }

    /// Writes a leaf. Logarithmic in the leaves at most.
    pub fn set(&mut self, leaf: usize, value: u64)
        requires inside { leaf < self.old.size }
        requires made { 0 < length self.old.nodes }
        ensures leaf { (j : ℕ) → leaf_at self.new j ≡ (if j == leaf then value else leaf_at self.old j) }
        ensures size { self.new.size ≡ self.old.size }
        ensures made { 0 < length self.new.nodes }
    {
        self.tree.set(leaf, value);
        if leaf < self.from && self.least <= value {
            self.from = leaf;
        }
    }

    /// The first leaf of at least so much. It is at hand where the last search found it, and else logarithmic in the
    /// leaves.
    pub fn first(&mut self, want: u64) -> Option<usize>
        requires { 0 < want }
        ensures some { IfSome result (IsFirstLeaf self.old want) }
        ensures none { IfNone result ((j : ℕ) → leaf_at self.old j < want) }
        ensures same { self.new ≡ self.old }
    {
        if self.least <= want && self.tree.has(self.from, want) {
            return Some(self.from);
        }
        let found = self.tree.first(want)?;
        self.from = found;
        self.least = want;
        Some(found)
    }
}
