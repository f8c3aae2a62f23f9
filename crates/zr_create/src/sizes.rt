//! The sizes of all disks.
ghost use Rattle.std.specs.Prelude.{◌≡◌, IfOk};

use std::alloc::Global;
use zr_base::NoMemory;
use zr_shelf::Shelf;

/// How many bytes each disk has, by slot.
pub fn sizes_of<S: Shelf>(alloc: Global, shelf: &S) -> Result<Vec<u64>, NoMemory>
    ensures { IfOk result (λ sizes. sizes.items ≡ S.sizes shelf.now) }
{
    let mut sizes = Vec::new(alloc);
    for slot in 0..shelf.slots() {
        sizes.push(shelf.size(slot))?;
    }
    Ok(sizes)
}
