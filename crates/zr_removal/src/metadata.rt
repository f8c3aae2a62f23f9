//! Metadata that is given back before a device goes.
//!
//! The commit that takes a device out of service writes all metadata elsewhere, so none is left there. What a device has of
//! it none the less goes with the device, so it is looked for once more.
ghost use Rattle.std.specs.Prelude.{◌≡◌, ◌<◌, ℕ, [], false, length, OnOk};
ghost use Rattle.zr_rules.specs.Roles.{is_meta_role};
ghost use Rattle.zr_rules.specs.Space.{role_at};
ghost use Rattle.zr_removal.specs.Metadata.{GivesMetadata};

use zr_base::NoMemory;
use zr_space::Space;

// Gives back all metadata of the saved root.
fn give_saved(space: &mut Space) -> Result<(), NoMemory>
    ensures gives { OnOk result (GivesMetadata space.old space.new) }
    ensures none { OnOk result (space.new.saved_meta ≡ []) }
    ensures idle { space.old.saved_meta ≡ [] → OnOk result (space.new ≡ space.old) }
{
    let mut more = true;
    while more {
        more = space.drop_saved()?;
    }
    Ok(())
}

// Gives back all metadata of the current root that lies on a device.
fn give_current(space: &mut Space, dev: u32) -> Result<(), NoMemory>
    requires known { dev < length space.old.parts.devs }
    requires unsaved { space.old.saved_meta ≡ [] }
    ensures gives { OnOk result (GivesMetadata space.old space.new) }
    ensures none { OnOk result ((u : ℕ) → is_meta_role (role_at space.new dev u) ≡ false) }
    ensures idle { ((u : ℕ) → is_meta_role (role_at space.old dev u) ≡ false) → OnOk result (space.new ≡ space.old) }
{
    let mut more = true;
    while more {
        more = space.drop_meta_on(dev)?;
    }
    Ok(())
}

/// Gives back all metadata of a pool without a checkpoint that lies on a device. Where there is none, nothing is changed.
/// It goes over the devices.
pub fn give_metadata(space: &mut Space, dev: u32) -> Result<(), NoMemory>
    requires { dev < length space.old.parts.devs }
    ensures gives { OnOk result (GivesMetadata space.old space.new) }
    ensures none { OnOk result ((u : ℕ) → is_meta_role (role_at space.new dev u) ≡ false) }
    ensures idle { space.old.saved_meta ≡ [] → ((u : ℕ) → is_meta_role (role_at space.old dev u) ≡ false) → OnOk result (space.new ≡ space.old) }
{
    give_saved(space)?;
    give_current(space, dev)
}
