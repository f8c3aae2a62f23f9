//! What is read where no block is stored.
ghost use Rattle.std.specs.Prelude.{◌≡◌, [], ℕ, List, IsErrOf, IfOk};
ghost use Rattle.sha2.specs.Sha256.{sha256};
ghost use Rattle.zr_base.specs.declared.space.Dva.{Dva};
ghost use Rattle.zr_store.specs.declared.StoreErr.TheVariants.{Malformed, Unresolved, Damaged};
ghost use Rattle.zr_store.specs.Causes.{HasCause, IsOf};
ghost use Rattle.zr_vdev.specs.Runs.{account_of};

use crate::reads::runs_of;
use std::alloc::Global;
use zr_bptr::{Bptr, sum_of};
use zr_space::Space;
use zr_store::StoreErr;

/// What is answered of a pointer at whose address no block is stored: that it leads nowhere, or that no bytes are there.
pub(crate) fn read_nothing(alloc: Global, space: &Space, b: &Bptr) -> Result<Vec<u8>, StoreErr>
    ensures cause { (faults : ℕ) → HasCause 0 (account_of faults space.now) (account_of faults space.now) result }
    ensures unresolved { (at : Dva) (expected : List ℕ) → IsErrOf result (Unresolved at expected) → IsOf b.now at expected }
    ensures damaged { (at : Dva) (expected found : List ℕ) → IsErrOf result (Damaged at expected found) → IsOf b.now at expected }
    ensures found { (at : Dva) (expected found : List ℕ) → IsErrOf result (Damaged at expected found) → found ≡ sha256 [] }
    ensures formed { (at : Dva) (expected : List ℕ) → IsErrOf result (Malformed at expected) → ⊥ }
    ensures sum { IfOk result (λ bytes. sha256 bytes.items ≡ b.now.sum) }
    ensures bytes { IfOk result (λ bytes. bytes.items ≡ []) }
{
    let _runs = runs_of(alloc, space, b)?;
    let bytes = Vec::new(alloc);
    let found = sum_of(bytes.as_slice());
    if found != b.sum {
        return Err(StoreErr::Damaged {
            at: b.at,
            expected: b.sum,
            found,
        });
    }
    Ok(bytes)
}
