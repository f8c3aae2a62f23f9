//! What an entry of the cache is.
ghost use Rattle.std.specs.Prelude.{◌≡◌, ◌++◌, IsTrue, List, ℕ};
ghost use Rattle.std.proofs.Common.{rules};
ghost use Rattle.std.specs.Hash as fed;
ghost use Rattle.std.specs.Cmp.Rules.{hashing};

use std::hash::{Hash, Hasher};
use zr_bptr::Bptr;
use zr_imap::Piece;

/// A pointer, as a key: two keys are one where their pointers are.
#[derive(Clone, Copy, PartialEq, Eq, Debug)]
pub struct Key {
    pub pointer: Bptr,
}

impl Hash for Key {
    ghost hash_input = { λ k. fed.u32 k.pointer.at.dev ++ fed.u64 k.pointer.at.start };

    ghost respects_eq = { Prim.search (hashing, rules) };

    fn hash<H: Hasher>(&self, state: &mut H) {
        self.pointer.at.dev.hash(state);
        self.pointer.at.start.hash(state);
    }
}

/// The bytes of a block, and the runs of units that have them.
#[derive(Drop, Debug)]
pub struct Block {
    pub bytes: Vec<u8>,
    pub runs: Vec<Piece>,
}
