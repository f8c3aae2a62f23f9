//! The name of a pool as labels and roots have it.
ghost use Rattle.std.specs.Prelude.{◌≡◌, ◌≤◌, length};
ghost use Rattle.zr_label.specs.Blocks.{IsName, name_of};

use zr_label::Name;

/// The bytes with zeros behind them, and how many they are.
pub fn name_of(bytes: &[u8]) -> Name
    requires { length bytes.now ≤ 63 }
    ensures lawful { IsName result }
    ensures name { name_of result ≡ bytes.now }
{
    let mut field = [0; 63];
    let (front, _) = field.split_at_mut(bytes.len());
    front.copy_from_slice(bytes);
    Name {
        len: bytes.len() as u8,
        bytes: field,
    }
}
