//! The pointers of a tree block and its bytes.
ghost use Rattle.std.specs.Prelude.{◌≡◌, ◌<◌, List, ℕ, length, All, IfOk, IfSome, MatchOption};
ghost use Rattle.zr_bptr.specs.Spelling.{SpellsTreeBlock};
ghost use Rattle.zr_bptr.specs.declared.Ptr.TheVariants.{Hole};
ghost use Rattle.zr_store.specs.Store.{IsBlockOf};
ghost use Rattle.zr_tree.specs.Blocks.{FitsAt, pointers_in, IsNoBlock};

use std::alloc::Global;
use zr_base::NoMemory;
use zr_bptr::{Ptr, decode_block, encode_block};

/// The bytes of a block of these pointers, which are not all holes.
pub(crate) fn encode_pointers(
    alloc: Global,
    below: u32,
    pointers: &[Ptr],
) -> Result<Vec<u8>, NoMemory>
    requires low { below < 5 }
    requires count { length pointers.now ≡ 32 }
    requires fit { All (FitsAt below) pointers.now }
    requires some { ¬ All (λ p. p ≡ Hole) pointers.now }
    ensures size { IfOk result (λ bytes. length bytes.items ≡ 4096) }
    ensures block { IfOk result (λ bytes. IsBlockOf below bytes.items) }
    ensures pointers { IfOk result (λ bytes. pointers_in bytes.items ≡ pointers.now) }
{
    let bytes = encode_block(alloc, below as u8, pointers)?;
    Ok(bytes)
}

/// The pointers of a block, None exactly where the bytes are no tree block of that level with so many leaves.
pub(crate) fn decode_pointers(
    alloc: Global,
    below: u32,
    fill: u64,
    bytes: &[u8],
) -> Result<Option<Vec<Ptr>>, NoMemory>
    requires { below < 5 }
    ensures pointers { IfOk result (λ read. MatchOption read (IsNoBlock below fill bytes.now) (λ ps. pointers_in bytes.now ≡ ps.items)) }
    ensures spelled { IfOk result (λ read. IfSome read (λ ps. SpellsTreeBlock bytes.now below fill ps.items)) }
    ensures count { IfOk result (λ read. IfSome read (λ ps. length ps.items ≡ 32)) }
    ensures fit { IfOk result (λ read. IfSome read (λ ps. All (FitsAt below) ps.items)) }
{
    let Some(pointers) = decode_block(alloc, below as u8, fill, bytes)? else {
        return Ok(None);
    };
    Ok(Some(pointers))
}
