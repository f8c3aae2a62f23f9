//! The removal of a device: how it begins, ends, and is given up.
//!
//! A device that is leaving gives out no more units, and stays as it is otherwise: it is read, and its units keep their
//! roles. What it holds is left to copy, from the lowest unit up.
ghost use Rattle.std.specs.Prelude.{◌≡◌, ◌≢◌, ℕ, ◌<◌, true, false, [], length, IfOk, IfSome, IfNone, OnOk, OnErr};
ghost use Rattle.zr_base.specs.declared.space.CkptPart.TheVariants.{Clear};
ghost use Rattle.zr_base.specs.declared.space.DevState.TheVariants.{On};
ghost use Rattle.zr_rules.specs.Places.{is_gone, is_leaving, part_of, state_of_dev};
ghost use Rattle.zr_rules.specs.Roles.{is_meta_role};
ghost use Rattle.zr_rules.specs.Space.{role_at, was_fresh, was_held, was_kept};
ghost use Rattle.zr_rules.specs.Steps.{Cancels, Finishes, Leaves};
ghost use Rattle.zr_space.specs.Plans.{IsCopied};

use crate::each::{give_up, make_way, take_over};
use crate::space::Space;
use zr_base::NoMemory;
use zr_imap::Imap;
use zr_indirect::Mapping;
use zr_ranges::RangeSet;

impl Space {
    /// The device that is leaving, if there is one. It goes over the devices.
    pub fn leaving(&self) -> Option<u32>
        ensures some { IfSome result (λ d. is_leaving (state_of_dev self.now.parts.devs d) ≡ true) }
        ensures none { IfNone result ((d : ℕ) → is_leaving (state_of_dev self.now.parts.devs d) ≡ false) }
    {
        for dev in 0..self.devs.len() {
            let device = &self.devs[dev];
            if device.is_leaving() {
                return Some(dev as u32);
            }
        }
        None
    }

    /// Takes a device out of service, so that what it holds can be copied elsewhere. It goes over the held extents of the
    /// device.
    pub fn begin_removal(&mut self, dev: u32) -> Result<(), NoMemory>
        requires known { dev < length self.old.parts.devs }
        requires on { state_of_dev self.old.parts.devs dev ≡ On }
        requires alone { (d : ℕ) → is_leaving (state_of_dev self.old.parts.devs d) ≡ false }
        requires clear { self.old.parts.ckpt ≡ Clear }
        requires unkept { (part_of self.old.parts.devs dev).kept ≡ [] }
        ensures ok { OnOk result (Leaves self.old self.new dev) }
        ensures err { OnErr result (self.new ≡ self.old) }
    {
        let map = Imap::new(self.alloc);
        let marks = RangeSet::new(self.alloc);
        let device = &mut self.devs[dev as usize];
        let held = device.units.held().to_set()?;
        let moves = Mapping::leaving(self.alloc, dev, map, marks, &held)?;
        moves.lawful();
        device.leave(moves);
        self.slabs.off(dev);
        Ok(())
    }

    /// Ends the removal once all is copied: the copies are blocks like others, and of the device its mapping is left. It
    /// answers the device's index. `txg` is that of the group in which it goes, above those of all that are gone. It goes over
    /// the devices, and over the entries and the marks.
    pub fn finish(&mut self, txg: u64) -> Result<u32, NoMemory>
        requires leaving { (d : ℕ) × (is_leaving (state_of_dev self.old.parts.devs d) ≡ true) }
        requires copied { IsCopied self.old }
        requires meta { (d u : ℕ) → is_leaving (state_of_dev self.old.parts.devs d) ≡ true → is_meta_role (role_at self.old d u) ≡ false }
        requires later { (d : ℕ) → is_gone (state_of_dev self.old.parts.devs d) ≡ true → (part_of self.old.parts.devs d).row.gone < txg }
        ensures index { IfOk result (λ d. is_leaving (state_of_dev self.old.parts.devs d) ≡ true) }
        ensures ok { IfOk result (λ d. Finishes self.old self.new d txg) }
        ensures err { OnErr result (self.new ≡ self.old) }
        ensures held { IfOk result (λ dev. (d u : ℕ) → d ≢ dev → was_held self.new d u ≡ was_held self.old d u) }
        ensures kept { IfOk result (λ dev. (d u : ℕ) → d ≢ dev → was_kept self.new d u ≡ was_kept self.old d u) }
        ensures marks { OnOk result ((d u : ℕ) → was_fresh self.new d u ≡ was_fresh self.old d u) }
        ensures none_held { IfOk result (λ dev. (u : ℕ) → was_held self.new dev u ≡ false) }
        ensures none_kept { IfOk result (λ dev. (u : ℕ) → was_kept self.new dev u ≡ false) }
        ensures counts { IfOk result (λ dev. (part_of self.new.parts.devs dev).counts ≡ (part_of self.old.parts.devs dev).counts) }
    {
        let Some(dev) = self.leaving() else {
            unreachable!()
        };
        let source = &mut self.devs[dev as usize];
        source.moves.finish(self.alloc)?;
        take_over(&mut self.devs);
        let device = &mut self.devs[dev as usize];
        device.moves.lawful();
        device.vanish(self.alloc, txg);
        self.slabs.forget(dev);
        Ok(dev)
    }

    /// Gives up the removal: the copies are freed, the mapping is gone, and the device is in service again. It answers the
    /// device's index. It goes over the devices, and costs a change of the sets of one for each extent of copies.
    pub fn cancel(&mut self) -> Result<u32, NoMemory>
        requires { (d : ℕ) × (is_leaving (state_of_dev self.old.parts.devs d) ≡ true) }
        ensures index { IfOk result (λ d. is_leaving (state_of_dev self.old.parts.devs d) ≡ true) }
        ensures ok { IfOk result (λ d. Cancels self.old self.new d) }
        ensures err { OnErr result (self.new ≡ self.old) }
        ensures held { OnOk result ((d u : ℕ) → was_held self.new d u ≡ was_held self.old d u) }
        ensures kept { OnOk result ((d u : ℕ) → was_kept self.new d u ≡ was_kept self.old d u) }
        ensures marks { IfOk result (λ dev. (d u : ℕ) → d ≢ dev → was_fresh self.new d u ≡ was_fresh self.old d u) }
        ensures unmarked { IfOk result (λ dev. (u : ℕ) → was_fresh self.new dev u ≡ false) }
    {
        let Some(dev) = self.leaving() else {
            unreachable!()
        };
        make_way(&mut self.devs)?;
        give_up(&mut self.devs, &mut self.slabs);
        let device = &mut self.devs[dev as usize];
        device.come_back();
        self.slabs.on(dev);
        Ok(dev)
    }
}
