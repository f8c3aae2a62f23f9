//! The checkpoint: what is held for the saved root, and how it is given back.
//!
//! While a checkpoint is held its root must stay readable. So its metadata stands apart from that of the current root,
//! and a unit of a block that it may have is not given back when the block is freed: it stays held, as kept. When the
//! checkpoint is discarded no more is kept, and the kept units are given back a few extents at a time, so that no
//! transaction group has to bear them all. The rules are zpool-checkpoint(8)'s.
ghost use Rattle.std.specs.Prelude.{◌≡◌, ◌⊎◌, ◌+◌, ◌++◌, ◌<◌, ◌≤◌, ◌^◌, ◌∷◌, [], ℕ, true, false, length, take, sum_by, ◌==◌, if◌then◌else◌, IfOk, OnOk, OnErr};
ghost use Rattle.zr_base.specs.Extents.{in_extent, IsMaximal};
ghost use Rattle.zr_rules.specs.Places.{is_leaving, state_of_dev};
ghost use Rattle.zr_rules.specs.Space.{role_at};
ghost use Rattle.zr_rules.specs.Roles.{is_kept_role};
ghost use Rattle.zr_rules.specs.Steps.{HoldsCheckpoint, Discards, DiscardsSome, is_among, kept_extents, with_ckpt};
ghost use Rattle.zr_space.specs.Discards.{CanDiscard, DiscardsPart, on_device};

use crate::space::Space;
use zr_base::{CkptPart, Extent, NoMemory};
use zr_paged::UnitSet;

/// How many kept extents a step gives back at most.
const STEP: usize = 64;

// Adds the lowest kept extents of a device, so many or all where there are fewer.
fn push_lowest(
    list: &mut Vec<(u32, Extent)>,
    dev: u32,
    kept: &UnitSet,
    n: usize,
) -> Result<(), NoMemory>
    ensures { OnOk result (list.new.items ≡ list.old.items ++ take n (on_device dev kept.now.extents)) }
{
    let _lowest = kept.first();
    let mut at = 0;
    let mut missing = n;
    while missing > 0 {
        let Some(part) = kept.first_from(at) else {
            return Ok(());
        };
        list.push((dev, part))?;
        at = part.start + part.len;
        missing -= 1;
    }
    Ok(())
}

impl Space {
    /// Whether a checkpoint is held, or is being discarded.
    pub fn ckpt(&self) -> CkptPart
        ensures { result ≡ self.now.parts.ckpt }
    {
        self.whole.ckpt
    }

    /// Holds the root of a transaction group: the metadata of the current root is the saved root's from now on. There was
    /// no saved root, and no device is leaving. It goes over the devices, and takes no memory.
    pub fn hold(&mut self, txg: u64)
        requires none { self.old.saved_meta ≡ [] }
        requires stays { (d : ℕ) → is_leaving (state_of_dev self.old.parts.devs d) ≡ false }
        ensures { HoldsCheckpoint self.old self.new txg }
    {
        for dev in 0..self.devs.len() {
            let device = &mut self.devs[dev];
            device.units.save();
        }
        self.whole.ckpt = CkptPart::Held(txg);
    }

    /// Holds no root any more. What is kept stays so until steps give it back. No device is leaving.
    pub fn discard(&mut self)
        requires stays { (d : ℕ) → is_leaving (state_of_dev self.old.parts.devs d) ≡ false }
        ensures { self.new ≡ with_ckpt self.old CkptPart.Discarding }
    {
        self.whole.ckpt = CkptPart::Discarding;
    }

    /// Gives back the lowest 64 kept extents, or all where there are fewer, those of the lowest device first: they are
    /// free two commits later. It answers how many units, and where there was none it ends the discarding and answers 0.
    /// It costs the devices, and for each extent a change of the sets of its device. After an `Err` some may have been
    /// given back.
    pub fn discard_step(&mut self) -> Result<u64, NoMemory>
        ensures ok { IfOk result (λ units. DiscardsSome self.old units self.new) }
        ensures ended { IfOk result (λ units. self.new.parts.ckpt ≡ (if units == 0 then CkptPart.Clear else self.old.parts.ckpt)) }
        ensures err { OnErr result (DiscardsPart self.old self.new) }
    {
        let list = self.lowest_kept(STEP)?;
        if list.is_empty() {
            self.whole.ckpt = CkptPart::Clear;
            return Ok(0);
        }
        self.discard_each(list.as_slice())
    }

    // The lowest kept extents, at most so many, those of the lowest device first.
    fn lowest_kept(&self, n: usize) -> Result<Vec<(u32, Extent)>, NoMemory>
        ensures lowest { IfOk result (λ list. list.items ≡ take n (kept_extents self.now)) }
        ensures kept { IfOk result (λ list. CanDiscard self.now list.items) }
    {
        let mut list = Vec::new(self.alloc);
        for dev in 0..self.devs.len() {
            let missing = n - list.len();
            let device = &self.devs[dev];
            push_lowest(&mut list, dev as u32, device.units.kept(), missing)?;
        }
        Ok(list)
    }

    // Gives up kept extents, each once. It answers how many units.
    fn discard_each(&mut self, list: &[(u32, Extent)]) -> Result<u64, NoMemory>
        requires can { CanDiscard self.old list.now }
        requires few { length list.now ≤ 64 }
        ensures ok { OnOk result (Discards self.old self.new list.now) }
        ensures units { IfOk result (λ units. units ≡ sum_by (λ (e : ℕ × Extent). e.1.len) list.now) }
        ensures some { 0 < length list.now → IfOk result (λ units. 0 < units) }
        ensures err { OnErr result (DiscardsPart self.old self.new) }
    {
        let mut rest = list;
        let mut units = 0;
        while let Some((first, tail)) = rest.split_first() {
            let (dev, e) = *first;
            self.discard_kept(dev, e)?;
            units += e.len;
            rest = tail;
        }
        Ok(units)
    }

    // Gives up kept units of a device.
    fn discard_kept(&mut self, dev: u32, e: Extent) -> Result<(), NoMemory>
        requires known { dev < length self.old.parts.devs }
        requires not_empty { 0 < e.len }
        requires kept { (u : ℕ) → in_extent e u ≡ true → is_kept_role (role_at self.old dev u) ≡ true }
        ensures ok { OnOk result (Discards self.old self.new ((dev, e) ∷ [])) }
        ensures err { OnErr result (DiscardsPart self.old self.new) }
        ensures small { e.len < 2 ^ 40 }
    {
        let device = &mut self.devs[dev as usize];
        device.units.discard(e)?;
        Ok(())
    }
}
