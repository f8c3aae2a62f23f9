//! What follows from the roles of units: columns add up, and readings that would lose data are excluded.
ghost use Rattle.std.specs.Prelude.{◌≡◌, ◌≢◌, ℕ, ◌+◌, ◌<◌, ◌≤◌, List, length, true, false, Option};
ghost use Rattle.zr_base.specs.declared.space.Dva.{Dva};
ghost use Rattle.zr_base.specs.declared.space.CkptPart.TheVariants as ckpt;
ghost use Rattle.zr_rules.specs.Devices.{devices_of};
ghost use Rattle.zr_rules.specs.Places.{is_gone, is_leaving, is_fresh, state_of_dev, units_of_dev};
ghost use Rattle.zr_rules.specs.Resolve.{leads_to, passes, IsRanked};
ghost use Rattle.zr_rules.specs.Roles.{is_kept_role, is_held_role};
ghost use Rattle.zr_rules.specs.Roles.Role.{Free, Live, FreshLive, FreshCopy, Copy, Kept, DeferredBlock, Late2Block};
ghost use Rattle.zr_rules.specs.Space.{Space, role_at, frontier};
ghost use Rattle.zr_rules.specs.Columns.{columns};
ghost use Rattle.zr_rules.specs.Equation.{Adds, SavedRoot, devices_in, live_hits};
ghost use Rattle.zr_rules.specs.Frees.{Frees, is_copy_of, keeps};
ghost use Rattle.zr_rules.specs.Steps.{Commits, Cancels, Discards, is_among};
ghost use Rattle.zr_laws.specs.Examples.{chain};

/// On each device that is there allocated, checkpointed, deferred and free units are all of its units.
pub fn columns_add_up()
    ensures { (s : Space) (d : ℕ) → d < length s.parts.devs → is_gone (state_of_dev s.parts.devs d) ≡ false
        → (columns s d).allocated + (columns s d).checkpointed + (columns s d).deferred + (columns s d).free ≡ units_of_dev s.parts.devs d }
{}

/// No pointer leads to a unit that is kept, or that is anything but live.
pub fn kept_units_are_not_live()
    ensures kept { (s : Space) (live : List Dva) (saved : Option SavedRoot) (d u : ℕ) → Adds s live saved → role_at s d u ≡ Kept → live_hits (devices_in s) live d u ≡ 0 }
    ensures free { (s : Space) (live : List Dva) (saved : Option SavedRoot) (d u : ℕ) → Adds s live saved → role_at s d u ≡ Free → live_hits (devices_in s) live d u ≡ 0 }
    ensures twice { (s : Space) (live : List Dva) (saved : Option SavedRoot) (d u : ℕ) → Adds s live saved → live_hits (devices_in s) live d u ≤ 1 }
{}

/// A free gives no unit back at once that an earlier group had, or that the checkpoint has.
pub fn frees_are_deferred()
    ensures not_at_once { (old new : Space) (a : Dva) (birth d u : ℕ) → Frees old new a birth → role_at old d u ≡ Live → role_at new d u ≢ Free }
    ensures kept { (old new : Space) (a : Dva) (birth d u : ℕ) → Frees old new a birth → leads_to (devices_in old) a d u ≡ true → keeps old.parts.ckpt birth ≡ true
        → role_at old d u ≡ Live → role_at new d u ≡ Kept }
{}

/// A free of a unit that was copied off a leaving device, in flight or not, marks it obsolete. It frees the copy.
pub fn frees_mark_what_was_copied()
    ensures marked { (old new : Space) (a : Dva) (birth d u : ℕ) → Frees old new a birth → is_leaving (state_of_dev old.parts.devs d) ≡ true
        → leads_to (devices_in old) a d u ≡ true → u < frontier old d → is_fresh new.parts.devs d u ≡ true }
    ensures passed { (old new : Space) (a : Dva) (birth d u : ℕ) → Frees old new a birth → passes (devices_in old) a d u ≡ true → is_fresh new.parts.devs d u ≡ true }
    ensures copy { (old new : Space) (a : Dva) (birth d u : ℕ) → Frees old new a birth → leads_to (devices_in old) a d u ≡ false → is_copy_of old a d u ≡ true
        → role_at old d u ≡ Copy → role_at new d u ≡ DeferredBlock }
{}

/// What a group freed is free after the commits of two groups more, and after a reset.
pub fn commits_free_late_units()
    ensures late { (old new : Space) (d u : ℕ) → Commits false old new → role_at old d u ≡ Late2Block → role_at new d u ≡ Free }
    ensures not_before { (old new : Space) (d u : ℕ) → Commits false old new → role_at old d u ≡ DeferredBlock → role_at new d u ≢ Free }
    ensures reset { (old new : Space) (d u : ℕ) → Commits true old new → role_at old d u ≡ DeferredBlock → role_at new d u ≡ Free }
    ensures kept { (old new : Space) (d u : ℕ) → Commits true old new → role_at old d u ≡ Kept → role_at new d u ≡ Kept }
{}

/// A cancel frees the copies and nothing else.
pub fn cancels_free_copies()
    ensures live { (old new : Space) (device d u : ℕ) → Cancels old new device → role_at old d u ≡ Live → role_at new d u ≡ Live }
    ensures copy { (old new : Space) (device d u : ℕ) → Cancels old new device → role_at old d u ≡ Copy → role_at new d u ≡ DeferredBlock }
    ensures flying { (old new : Space) (device d u : ℕ) → Cancels old new device → role_at old d u ≡ FreshCopy → role_at new d u ≡ Free }
{}

/// A mapping that leads to a device that went earlier breaks the order of removals.
pub fn no_mapping_leads_back()
    ensures { IsRanked (devices_of (chain 4)) → ⊥ }
{}
