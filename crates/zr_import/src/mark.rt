//! What a block is marked in.
ghost use Rattle.std.specs.Prelude.{◌≡◌, ◌↔◌, false, IfOk, IsTrue};
ghost use Rattle.zr_bptr.specs.declared.Bptr.{Bptr};

use zr_base::NoMemory;
use zr_bptr::Bptr;

/// What the blocks of a walk are marked in, so that none is met twice. The walk tests the group of a block by itself.
pub trait Mark {
    /// The block may be marked.
    ghost may: { Self → Bptr → Type 0 };

    /// The block is marked.
    ghost marks: { Self → Self → Bptr → Type 0 };

    /// Marks a block, and answers false where it may not be marked.
    fn mark(&mut self, b: &Bptr) -> Result<bool, NoMemory>
        ensures may { IfOk result (λ yes. IsTrue yes ↔ may self.old b.now) }
        ensures marks { IfOk result (λ yes. IsTrue yes → marks self.old self.new b.now) }
        ensures same { IfOk result (λ yes. yes ≡ false → self.new ≡ self.old) };
}
