//! Which ranges of an object a line may change.
ghost use Rattle.std.specs.Prelude.{◌≡◌, ◌+◌, ◌-◌, ◌≤◌, IsTrue, true, false, IfOk, IfErr};
ghost use Rattle.zr_base.specs.Blocks.{is_block_size};
ghost use Rattle.zr_base.specs.declared.refusal.Refusal.TheVariants.{OutOfRange};
ghost use Rattle.zr_lines.specs.Reaches.{most_blocks, is_in_reach, first_block, last_block};

use zr_base::Refusal;
use zr_change::{Edit, MOST_BLOCKS, blocks_touched, fits_object};

/// How far a line reaches: how many blocks it may change, and whether it leaves free what new blocks leave free.
#[derive(Clone, Copy, PartialEq, Eq, Debug)]
pub enum Reach {
    /// At most 64 blocks, and the slop stays free.
    Fill,
    /// As many blocks as its bytes touch, and the slop stays free.
    Write,
    /// At most 64 blocks, and the slop may be used, since it takes bytes away.
    Punch,
}

impl Reach {
    // The most blocks that a line may change.
    fn most_blocks(self) -> u64
        ensures { result ≡ most_blocks self }
    {
        match self {
            Reach::Fill | Reach::Punch => 64,
            Reach::Write => MOST_BLOCKS,
        }
    }
}

/// The first and the last block that the edit touches, where it lies within an object of this block size and touches no
/// more blocks than the line may change. Constant.
pub(crate) fn check_range(units: u32, edit: &Edit<'_>, reach: Reach) -> Result<(u64, u64), Refusal>
    requires { IsTrue (is_block_size units) }
    ensures within { IfOk result (λ ends. is_in_reach reach units edit.now ≡ true) }
    ensures first { IfOk result (λ ends. ends.0 ≡ first_block units edit.now) }
    ensures last { IfOk result (λ ends. ends.1 ≡ last_block units edit.now) }
    ensures refused { IfErr result (λ r. (r ≡ OutOfRange) × (is_in_reach reach units edit.now ≡ false)) }
{
    if !fits_object(units, edit.off, edit.len) {
        return Err(Refusal::OutOfRange);
    }
    let (first, last) = blocks_touched(units, edit.off, edit.len);
    if last - first >= reach.most_blocks() {
        return Err(Refusal::OutOfRange);
    }
    Ok((first, last))
}
