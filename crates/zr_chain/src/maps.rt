//! Who keeps the rows and the mappings of devices.
ghost use Rattle.std.specs.Prelude.{◌≡◌, ◌<◌, false};
ghost use Rattle.zr_rules.specs.Devices.{Devices, state_at};
ghost use Rattle.zr_rules.specs.Places.{is_on};

use zr_base::DevRow;
use zr_imap::Imap;

/// Devices by their indices, as pointers see them.
pub trait Maps {
    /// The devices.
    ghost devices: { Self → Devices };

    /// The row of a device.
    fn row(&self, dev: u32) -> DevRow
        requires { dev < (devices self.now).count }
        ensures { result ≡ (devices self.now).row dev };

    /// The mapping of a device that is leaving or gone.
    fn map(&self, dev: u32) -> &Imap
        requires known { dev < (devices self.now).count }
        requires moved { is_on (state_at (devices self.now) dev) ≡ false }
        ensures { result.now.entries ≡ (devices self.now).entries dev };
}
