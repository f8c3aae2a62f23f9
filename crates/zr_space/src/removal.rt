//! What a removal sees of a device, and what it gives back of it.
//!
//! The lines of a removal write the mapping of a device into its streams, and report it. They also give back the metadata
//! that is left on the device: it leaves no entry behind, so none may be there once the device is gone.
ghost use Rattle.std.specs.Prelude.{◌≡◌, ◌<◌, ℕ, None, Some, [], true, false, length, IfOk, IfSome, IfNone, MatchOption, OnOk, OnErr};
ghost use Rattle.zr_base.specs.Extents.{has_unit};
ghost use Rattle.zr_base.specs.declared.space.CkptPart.TheVariants.{Clear};
ghost use Rattle.zr_rules.specs.Equation.{devices_in};
ghost use Rattle.zr_rules.specs.Mappings.{has_source};
ghost use Rattle.zr_rules.specs.Places.{is_fresh, is_held, is_kept, is_leaving, part_of, state_of_dev};
ghost use Rattle.zr_rules.specs.Resolve.{IsRanked};
ghost use Rattle.zr_rules.specs.Roles.{is_copy_role, is_meta_role};
ghost use Rattle.zr_rules.specs.Space.{frontier, is_uncopied, role_at};
ghost use Rattle.zr_space.specs.Leavings.{HasSource};
ghost use Rattle.zr_space.specs.Metadata.{GivesMeta, HasNoMeta, IsMetaOn, turning_on};

use crate::saved::front_of;
use crate::space::{Space, extent_of};
use zr_base::{Dva, NoMemory};
use zr_condense::Condense;
use zr_indirect::Mapping;
use zr_paged::UnitSet;

impl Space {
    /// What a device has beside its units while it is given up. It costs nothing.
    pub fn moves(&self, dev: u32) -> &Mapping
        requires { dev < length self.now.parts.devs }
        ensures state { result.now.state ≡ state_of_dev self.now.parts.devs dev }
        ensures entries { result.now.entries ≡ (part_of self.now.parts.devs dev).entries }
        ensures counts { result.now.counts ≡ (part_of self.now.parts.devs dev).counts }
        ensures fresh { result.now.fresh ≡ (part_of self.now.parts.devs dev).fresh }
        ensures left { is_leaving (state_of_dev self.now.parts.devs dev) ≡ true → (u : ℕ) → has_unit result.now.left u ≡ is_uncopied self.now dev u }
    {
        &self.devs[dev as usize].moves
    }

    /// At most one device is leaving. It does nothing: a caller learns this by it.
    pub fn one_leaves(&self)
        ensures { (d e : ℕ) → is_leaving (state_of_dev self.now.parts.devs d) ≡ true → is_leaving (state_of_dev self.now.parts.devs e) ≡ true → d ≡ e }
    {
        let _devs = &self.devs;
    }

    /// What a device that is leaving holds below its frontier has an entry each and is not marked, and mappings lead to devices that are
    /// there or went later. Nothing of a device that is leaving is kept, and each copy is of a unit of it that is not marked. It does nothing:
    /// a caller learns this by it.
    pub fn copies_in_order(&self)
        ensures copied { (d u : ℕ) → is_leaving (state_of_dev self.now.parts.devs d) ≡ true → is_held self.now.parts.devs d u ≡ true → u < frontier self.now d → has_source (part_of self.now.parts.devs d).entries u ≡ true }
        ensures unmarked { (d u : ℕ) → is_leaving (state_of_dev self.now.parts.devs d) ≡ true → is_held self.now.parts.devs d u ≡ true → u < frontier self.now d → is_fresh self.now.parts.devs d u ≡ false }
        ensures clear { (d : ℕ) → is_leaving (state_of_dev self.now.parts.devs d) ≡ true → self.now.parts.ckpt ≡ Clear }
        ensures no_copies { (d u : ℕ) → is_leaving (state_of_dev self.now.parts.devs d) ≡ true → is_copy_role (role_at self.now d u) ≡ false }
        ensures ranked { IsRanked (devices_in self.now) }
        ensures unkept { (d u : ℕ) → is_leaving (state_of_dev self.now.parts.devs d) ≡ true → is_kept self.now.parts.devs d u ≡ false }
        ensures sources { (e v : ℕ) → is_copy_role (role_at self.now e v) ≡ true → HasSource self.now e v }
    {
        let _devs = &self.devs;
    }

    /// The condensing that goes on, if there is one. It costs nothing.
    pub fn condensing(&self) -> Option<&Condense>
        ensures { MatchOption result (self.now.parts.cond ≡ None) (λ cond. self.now.parts.cond ≡ Some cond.now) }
    {
        self.whole.cond.as_ref()
    }

    /// The units of a device that have copies of the one that is leaving. It costs nothing.
    pub fn copies(&self, dev: u32) -> &UnitSet
        requires { dev < length self.now.parts.devs }
        ensures { (u : ℕ) → has_unit result.now.extents u ≡ is_copy_role (role_at self.now dev u) }
    {
        self.devs[dev as usize].units.copies()
    }

    /// The metadata of a device that gives way as commits follow, in units: that of the current root and of both late sets.
    /// Counts are kept, and nothing is counted anew.
    pub fn turning_on(&self, dev: u32) -> u64
        requires { dev < length self.now.parts.devs }
        ensures { result ≡ turning_on self.now dev }
    {
        let units = &self.devs[dev as usize].units;
        units.meta().units() + units.late1().meta().units() + units.late2().meta().units()
    }

    /// A run of the current root's metadata on a device, the lowest. It costs nothing.
    pub fn lowest_meta(&self, dev: u32) -> Option<Dva>
        requires { dev < length self.now.parts.devs }
        ensures some { IfSome result (IsMetaOn self.now dev) }
        ensures none { IfNone result (HasNoMeta self.now dev) }
    {
        let device = &self.devs[dev as usize];
        if let Some((e, _rest)) = device.units.meta().extents().split_first() {
            return Some(front_of(dev, *e));
        }
        None
    }

    /// Gives back the lowest run of the current root's metadata on a device, and answers whether there was one. It is free
    /// two commits later, or at the next reset. Logarithmic in the extents of the device.
    pub fn drop_meta_on(&mut self, dev: u32) -> Result<bool, NoMemory>
        requires { dev < length self.old.parts.devs }
        ensures yes { IfOk result (λ b. b ≡ true → GivesMeta self.old self.new dev) }
        ensures no { IfOk result (λ b. b ≡ false → (self.new ≡ self.old) × HasNoMeta self.old dev) }
        ensures last { IfOk result (λ b. b ≡ false → self.old.saved_meta ≡ [] → (u : ℕ) → is_meta_role (role_at self.old dev u) ≡ false) }
        ensures err { OnErr result (self.new ≡ self.old) }
    {
        let Some(at) = self.lowest_meta(dev) else {
            return Ok(false);
        };
        self.drop_meta_run(dev, at)?;
        Ok(true)
    }

    // Gives back a run of the current root's metadata on a device.
    fn drop_meta_run(&mut self, dev: u32, a: Dva) -> Result<(), NoMemory>
        requires meta { IsMetaOn self.old dev a }
        ensures ok { OnOk result (GivesMeta self.old self.new dev) }
        ensures err { OnErr result (self.new ≡ self.old) }
    {
        let e = extent_of(&a);
        let device = &mut self.devs[a.dev as usize];
        device.units.drop_meta(e)?;
        Ok(())
    }
}
