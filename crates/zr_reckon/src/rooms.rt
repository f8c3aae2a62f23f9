//! The room, counted by roles.
ghost use Rattle.std.specs.Prelude.{◌≡◌, ℕ, ◌+◌, ◌*◌, ◌≤◌};
ghost use Rattle.zr_reckon.specs.Uses.{room};
ghost use Rattle.zr_rules.specs.Columns.{free_units, sizes};
ghost use Rattle.zr_rules.specs.Space.{Space, IsLawful};

/// The free units and the metadata units that come back are the units of these roles. So what an event does to the room is
/// told by what it does to roles.
pub fn the_room_counts_roles()
    ensures { (s : Space) (blocks objects : ℕ) → IsLawful s → free_units s + (sizes s blocks objects).turning ≡ room s }
{}

/// What comes back is the metadata of the current root and of two late sets, on the devices in service; each is past metadata.
pub fn what_comes_back_is_past()
    ensures { (s : Space) (blocks objects : ℕ) → (sizes s blocks objects).turning ≤ 3 * (sizes s blocks objects).past }
{}
