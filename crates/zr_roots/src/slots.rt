//! The slots of a root's devices.
ghost use Rattle.std.specs.Prelude.{◌≡◌, ◌≤◌, length};
ghost use Rattle.zr_roots.specs.Devices.{IsCut, is_there};

use zr_base::DevState;
use zr_label::Uber;

// Whether a root has the device with this index, and it is not gone.
fn is_there(u: &Uber, index: usize) -> bool
    requires few { u.now.count ≤ 32 }
    requires rows { length u.now.rows ≡ 32 }
    ensures { result ≡ is_there u.now index }
{
    index < u.count as usize && u.rows[index].state != DevState::Gone
}

/// The slots of the devices of a root that are there, and of no others.
pub fn own_slots(slots: &[Option<u32>; 32], u: &Uber) -> [Option<u32>; 32]
    requires long { length slots.now ≡ 32 }
    requires few { u.now.count ≤ 32 }
    requires rows { length u.now.rows ≡ 32 }
    ensures long { length result ≡ 32 }
    ensures own { IsCut u.now slots.now result }
{
    let mut own = *slots;
    for index in 0..32 {
        if !is_there(u, index) {
            own[index] = None;
        }
    }
    own
}
