//! The greatest of many numbers, and the first that is large enough.
//!
//! A device has one number for each metaslab, the length of its longest run. They are the leaves of a binary tree whose
//! nodes have the greater value of their two children, laid out in one array as a heap is. So the root has the greatest
//! of all, and the first leaf of at least so much is found by going down.
ghost use Rattle.std.specs.Prelude.{◌≡◌, ℕ, ◌+◌, ◌*◌, ◌^◌, ◌<◌, ◌≤◌, ◌==◌, nat_le, length, IfOk, IfSome, IfNone, if◌then◌else◌};
ghost use Rattle.zr_metaslab.specs.Trees.{leaf_at, IsFirstLeaf, HasLeaf};

use std::alloc::Global;
use std::marker::Model;
use zr_base::NoMemory;

#[derive(Drop)]
pub struct Maxima {
    height: usize,
    size: usize,
    nodes: Vec<u64>,
}

impl Model for Maxima {
    ghost use Rattle.zr_metaslab.specs.Trees.{Tree, IsTree};

    ghost Value = { Tree };

    ghost view = { λ a. record { size = a.size; nodes = a.nodes.items } };

    ghost invariant = { λ a. IsTree a.height a.size a.nodes.items };
}

impl Maxima {
    /// No leaves. It takes no memory.
    pub fn none(alloc: Global) -> Maxima
        ensures { (k : ℕ) → leaf_at result k ≡ 0 }
    {
        Maxima {
            height: 0,
            size: 1,
            nodes: Vec::new(alloc),
        }
    }

    /// At least so many leaves, all 0.
    pub fn new(alloc: Global, leaves: usize) -> Result<Maxima, NoMemory>
        requires { leaves ≤ 2 ^ 40 }
        ensures zero { IfOk result (λ t. (k : ℕ) → leaf_at t k ≡ 0) }
        ensures room { IfOk result (λ t. leaves ≤ t.size) }
        ensures made { IfOk result (λ t. 0 < length t.nodes) }
    {
        let mut height = 0;
        let mut size = 1;
        while size < leaves {
            height += 1;
            size *= 2;
        }
        let nodes = vec![in alloc; 0; 2 * size]?;
        Ok(Maxima {
            height,
            size,
            nodes,
        })
    }

    /// The greatest leaf, or 0 where there is none.
    #[tactic(auto, using(crate::proofs::Nodes::leaf_below, crate::proofs::Nodes::attained))]
    pub fn greatest(&self) -> u64
        ensures most { (k : ℕ) → leaf_at self.now k ≤ result }
        ensures some { 0 < result → HasLeaf self.now result }
    {
        match self.nodes.get(1) {
            Some(root) => *root,
            None => 0,
        }
    }

    /// Writes a leaf. It goes up as far as a greatest changes, so it is logarithmic in the leaves at most.
    pub fn set(&mut self, leaf: usize, value: u64)
        requires inside { leaf < self.old.size }
        requires made { 0 < length self.old.nodes }
        ensures leaf { (j : ℕ) → leaf_at self.new j ≡ (if j == leaf then value else leaf_at self.old j) }
        ensures size { self.new.size ≡ self.old.size }
        ensures made { 0 < length self.new.nodes }
    {
        let mut n = self.size + leaf;
        self.nodes[n] = value;
        n /= 2;
        while 0 < n {
            let most = self.nodes[2 * n].max(self.nodes[2 * n + 1]);
            if self.nodes[n] == most {
                return;
            }
            self.nodes[n] = most;
            n /= 2;
        }
    }

    /// Whether a leaf has at least so much.
    pub fn has(&self, leaf: usize, want: u64) -> bool
        requires { 0 < want }
        ensures { result ≡ nat_le want (leaf_at self.now leaf) }
    {
        let Some(n) = self.size.checked_add(leaf) else {
            return false;
        };
        match self.nodes.get(n) {
            Some(value) => *value >= want,
            None => false,
        }
    }

    /// The first leaf of at least so much. Logarithmic in the leaves.
    pub fn first(&self, want: u64) -> Option<usize>
        requires { 0 < want }
        ensures some { IfSome result (IsFirstLeaf self.now want) }
        ensures none { IfNone result ((j : ℕ) → leaf_at self.now j < want) }
    {
        if self.greatest() < want {
            return None;
        }
        let mut n = 1;
        for _ in 0..self.height {
            n *= 2;
            if self.nodes[n] >= want {
                continue;
            }
            n += 1;
        }
        Some(n - self.size)
    }
}
