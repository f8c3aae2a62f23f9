//! The devices that a root names, and those that it records.
ghost use Rattle.std.specs.Prelude.{◌≤◌, IsTrue};
ghost use Rattle.zr_roots.specs.Devices.{HasRows};

use zr_base::SpaceParts;
use zr_label::Uber;

/// Whether the parts have the devices of the root.
pub fn have_rows(parts: &SpaceParts, u: &Uber) -> bool
    requires { u.now.count ≤ 32 }
    ensures { IsTrue result → HasRows u.now parts.now.devs }
{
    let devs = parts.devs.as_slice();
    if devs.len() != u.count as usize {
        return false;
    }
    for index in 0..u.count as usize {
        if devs[index].row != u.rows[index] {
            return false;
        }
    }
    true
}
