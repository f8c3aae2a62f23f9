//! Whether a pool that is opened can be written: the last rule of a root.
ghost use Rattle.std.specs.Prelude.{◌≤◌, ◌^◌};
ghost use Rattle.zr_base.specs.declared.refusal.Refusal.TheVariants.{BadRoot};
ghost use Rattle.zr_image.specs.Checks.{Demands};
ghost use Rattle.zr_roots.specs.Devices.{HasRows};
ghost use Rattle.zr_open.specs.Opened.{CoversOwed};
ghost use Rattle.zr_label.specs.Blocks.{IsUber};
ghost use Rattle.zr_label.specs.declared.root.Uber.{Uber};

use zr_base::Refusal;
use zr_label::Uber;
use zr_owed::owed;
use zr_space::Space;

// The last rule of a root: that it can be written.
const RULE: u8 = 9;

/// Refuses a space in which less is free than the commits to come may take.
pub(crate) fn has_room(space: &Space) -> Result<(), Refusal>
    requires rows { (u : Uber) × IsUber u × HasRows u space.now.parts.devs }
    ensures { Demands (CoversOwed space.now) (BadRoot 9) result }
{
    if owed(&space.sizes()) > space.free_units() {
        return Err(Refusal::BadRoot { rule: RULE });
    }
    Ok(())
}

/// Refuses a root behind which too few groups are left.
pub(crate) fn has_groups(u: &Uber) -> Result<(), Refusal>
    ensures { Demands (u.now.txg ≤ 2 ^ 63) (BadRoot 9) result }
{
    if u.txg > 1 << 63 {
        return Err(Refusal::BadRoot { rule: RULE });
    }
    Ok(())
}
