//! Blocks of 4,096 bytes whose last 32 are the sum of the others.
ghost use Rattle.std.specs.Prelude.{◌≡◌, ◌≤◌, ◌+◌, ◌-◌, ◌++◌, ℕ, List, length};
ghost use Rattle.zr_label.specs.Blocks.{padding, IsFilled, summed};

use zr_bptr::sum_of;

#[tactic(auto, unfolding(crate::specs::Blocks::padding))]
pub fn zero_block() -> [u8; 4096]
    ensures { result ≡ padding 4096 }
{
    [0; 4096]
}

/// Puts a part behind what stands in a block.
pub fn put(block: &mut [u8; 4096], at: usize, part: &[u8])
    requires { at + length part.now ≤ 4096 }
    ensures { (done : List ℕ) → length done ≡ at → IsFilled block.old done → IsFilled block.new (done ++ part.now) }
{
    block[at..at + part.len()].copy_from_slice(part);
}

/// Puts the sum of the others into the last 32 bytes.
pub fn seal(block: &mut [u8; 4096])
    ensures { (content : List ℕ) → length content ≤ 4064 → IsFilled block.old content → block.new ≡ summed content }
{
    let sum = sum_of(&block[..4064]);
    block[4064..].copy_from_slice(&sum);
}
