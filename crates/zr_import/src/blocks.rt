//! Reading one block.
ghost use Rattle.std.specs.Prelude.{◌≡◌, ◌+◌, ◌<◌, List, ℕ, length, All, IfOk};
ghost use Rattle.sha2.specs.Sha256.{sha256};
ghost use Rattle.zr_store.specs.Causes.{Costs};
ghost use Rattle.zr_store.specs.Store.{Stored};
ghost use Rattle.zr_tree.specs.Blocks.{FitsAt};
ghost use Rattle.zr_tree.specs.Trees.{kids, IsWhole};
ghost use Rattle.zr_import.specs.Causes.{HasCause};

use crate::errors::{ImportErr, told};
use std::alloc::Global;
use zr_bptr::{Bptr, Ptr, decode_block};
use zr_store::Blocks;

/// The bytes of a block.
pub(crate) fn read<B: Blocks>(alloc: Global, store: &mut B, b: &Bptr) -> Result<Vec<u8>, ImportErr>
    ensures follows { (start : B) → B.follows start store.old → B.follows start store.new }
    ensures costs { Costs 0 0 (B.account store.old) (B.account store.new) }
    ensures cause { HasCause (B.account store.old) (B.account store.new) result }
    ensures same { (s : Stored) → B.holds store.old s → B.holds store.new s }
    ensures sum { IfOk result (λ bytes. sha256 bytes.items ≡ b.now.sum) }
    ensures bytes { (s : Stored) → B.holds store.old s → IfOk result (λ bytes. bytes.items ≡ s.bytes b.now) }
{
    match store.get(alloc, b) {
        Ok(bytes) => Ok(bytes),
        Err(e) => Err(told(&e)),
    }
}

/// The bytes of a leaf of one unit.
pub(crate) fn read_unit<B: Blocks>(
    alloc: Global,
    store: &mut B,
    b: &Bptr,
) -> Result<Vec<u8>, ImportErr>
    ensures follows { (start : B) → B.follows start store.old → B.follows start store.new }
    ensures costs { Costs 0 0 (B.account store.old) (B.account store.new) }
    ensures cause { HasCause (B.account store.old) (B.account store.new) result }
    ensures same { (s : Stored) → B.holds store.old s → B.holds store.new s }
    ensures len { IfOk result (λ bytes. length bytes.items ≡ 4096) }
    ensures sum { IfOk result (λ bytes. sha256 bytes.items ≡ b.now.sum) }
    ensures bytes { (s : Stored) → B.holds store.old s → IfOk result (λ bytes. bytes.items ≡ s.bytes b.now) }
{
    let bytes = read(alloc, store, b)?;
    if bytes.len() != 4096 {
        return Err(ImportErr::Rule(1));
    }
    Ok(bytes)
}

/// The pointers of a tree block.
pub(crate) fn read_pointers<B: Blocks>(
    alloc: Global,
    store: &mut B,
    below: u32,
    b: &Bptr,
) -> Result<Vec<Ptr>, ImportErr>
    requires { below < 5 }
    ensures follows { (start : B) → B.follows start store.old → B.follows start store.new }
    ensures costs { Costs 0 0 (B.account store.old) (B.account store.new) }
    ensures cause { HasCause (B.account store.old) (B.account store.new) result }
    ensures same { (s : Stored) → B.holds store.old s → B.holds store.new s }
    ensures count { IfOk result (λ pointers. length pointers.items ≡ 32) }
    ensures fit { IfOk result (λ pointers. All (FitsAt below) pointers.items) }
    ensures means { (s : Stored) → B.holds store.old s → IfOk result (λ pointers. pointers.items ≡ kids s below b.now) }
    ensures whole { (s : Stored) → B.holds store.old s → b.now.level ≡ below + 1 → IfOk result (λ pointers. IsWhole s b.now) }
{
    let bytes = read(alloc, store, b)?;
    match decode_block(alloc, below as u8, b.fill, bytes.as_slice())? {
        None => Err(ImportErr::Rule(1)),
        Some(pointers) => Ok(pointers),
    }
}
