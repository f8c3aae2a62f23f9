//! Condensing: the mapping of a removed device without the entries that nothing leads through any more.
//!
//! A mapping is condensed once a quarter of it is obsolete, one mapping at a time and 64 entries at a step, so that no
//! transaction group has to bear it all. The first step folds the fresh obsolete units into the counts, and what is marked
//! from then on waits for the next condensing. The old mapping stays in use until the last step puts the new one in its
//! place. No unit changes its role, and what is in use leads where it led.
ghost use Rattle.std.specs.Prelude.{◌≡◌, ℕ, ◌<◌, None, Some, [], true, nat_le, length, IfOk, IfSome, OnOk};
ghost use Rattle.zr_base.specs.declared.space.CondPart.{CondPart};
ghost use Rattle.zr_base.specs.declared.space.DevState.TheVariants.{Gone};
ghost use Rattle.zr_indirect.specs.Mapped.{Mapped};
ghost use Rattle.zr_condense.specs.Condensing.{HasWorked};
ghost use Rattle.zr_rules.specs.Condense.{folded};
ghost use Rattle.zr_rules.specs.Frees.{IsSameRoot};
ghost use Rattle.zr_rules.specs.Mappings.{IsRising};
ghost use Rattle.zr_rules.specs.Places.{part_of, state_of_dev};
ghost use Rattle.zr_rules.specs.Steps.{Condenses, CondensesSome, Remaps, due_device, has_condensing, next_kept, with_cond, worked};
ghost use Rattle.zr_space.specs.Condensing.{IsCondensed, IsUnderWay, LeadsAsBefore};

use crate::space::Space;
use zr_base::{Condensed, NoMemory};
use zr_condense::Condense;
use zr_imap::Imap;
use zr_indirect::Mapping;

/// How many entries a step works through at most.
const STEP: usize = 64;

// What a step of condensing has come to: how many entries it kept, and whether it was the last.
#[derive(Drop)]
struct Step {
    kept: usize,
    last: bool,
}

// Works through the next entries of a mapping.
fn step_on(moves: &Mapping, cond: &mut Condense) -> Result<Step, NoMemory>
    requires gone { moves.now.state ≡ Gone }
    requires worked { HasWorked moves.now.entries moves.now.counts cond.old }
    ensures worked { OnOk result (HasWorked moves.now.entries moves.now.counts cond.new) }
    ensures next { OnOk result (cond.new ≡ worked moves.now.entries moves.now.counts cond.old) }
    ensures kept { IfOk result (λ step. step.kept ≡ length (next_kept moves.now.entries moves.now.counts cond.old)) }
    ensures last { IfOk result (λ step. step.last ≡ nat_le (length moves.now.entries) cond.new.at) }
    ensures each { length moves.now.counts ≡ length moves.now.entries }
    ensures rising { IsRising moves.now.entries }
{
    moves.lawful();
    let map = match moves.map() {
        Some(map) => map,
        None => unreachable!(),
    };
    let kept = cond.step(map, moves.gone_counts(), STEP)?;
    Ok(Step {
        kept,
        last: cond.done(map),
    })
}

impl Space {
    /// Whether there is condensing work: one has begun, or a removed device's mapping is due. It goes over the devices.
    pub fn condense_due(&self) -> bool
        ensures { result ≡ has_condensing self.now }
    {
        match &self.whole.cond {
            Some(_) => true,
            None => self.due().is_some(),
        }
    }

    // The lowest removed device whose mapping is due.
    fn due(&self) -> Option<u32>
        ensures due { result ≡ due_device self.now }
        ensures gone { IfSome result (λ d. state_of_dev self.now.parts.devs d ≡ Gone) }
    {
        for dev in 0..self.devs.len() {
            let device = &self.devs[dev];
            if device.is_gone() && device.moves.is_due() {
                return Some(dev as u32);
            }
        }
        None
    }

    /// Works through 64 entries of the mapping that is condensed, or of the lowest removed device whose mapping is due. It
    /// answers how many of them it kept, or that these were the last, and `Nothing` where there is no work. It costs a step
    /// for each entry, and the first one folds all fresh obsolete units of the mapping. After an `Err` the space serves for
    /// nothing more.
    pub fn condense_step(&mut self) -> Result<Condensed, NoMemory>
        ensures step { IfOk result (λ outcome. CondensesSome self.old outcome self.new) }
        ensures leads { OnOk result (LeadsAsBefore self.old self.new) }
        ensures root { OnOk result (IsSameRoot self.old self.new) }
    {
        if let Some(cond) = self.take_cond() {
            return self.work(cond);
        }
        let Some(dev) = self.due() else {
            return Ok(Condensed::Nothing);
        };
        self.fold(dev)?;
        let cond = Condense::begin(self.alloc, dev);
        self.work(cond)
    }

    /// Of the entries that a condensing has worked through, those with a unit in use are kept, and its device is gone. It does
    /// nothing: a caller learns this by it.
    pub fn condenses_in_order(&self)
        ensures { (c : CondPart) → self.now.parts.cond ≡ Some c → IsUnderWay self.now c }
    {
        let _whole = &self.whole;
    }

    // Takes out the condensing that goes on.
    fn take_cond(&mut self) -> Option<Condense>
        ensures cond { result ≡ self.old.parts.cond }
        ensures taken { self.new ≡ with_cond self.old None }
        ensures under_way { IfSome result (IsUnderWay self.new) }
    {
        self.whole.cond.take()
    }

    // Folds the fresh obsolete units of a removed device into its counts.
    fn fold(&mut self, dev: u32) -> Result<(), NoMemory>
        requires none { self.old.parts.cond ≡ None }
        requires gone { state_of_dev self.old.parts.devs dev ≡ Gone }
        ensures folds { OnOk result (Remaps self.old self.new dev (part_of self.old.parts.devs dev).entries (folded (part_of self.old.parts.devs dev).entries (part_of self.old.parts.devs dev).counts (part_of self.old.parts.devs dev).fresh) [] None) }
        ensures each { length (part_of self.old.parts.devs dev).counts ≡ length (part_of self.old.parts.devs dev).entries }
        ensures root { OnOk result (IsSameRoot self.old self.new) }
    {
        let device = &mut self.devs[dev as usize];
        device.moves.lawful();
        let folded = device.moves.fold();
        device.moves.lawful();
        folded
    }

    // Goes on with a condensing.
    fn work(&mut self, cond: Condense) -> Result<Condensed, NoMemory>
        requires none { self.old.parts.cond ≡ None }
        requires under_way { IsUnderWay self.old cond }
        ensures step { IfOk result (λ outcome. Condenses self.old (part_of self.old.parts.devs cond.dev).counts (part_of self.old.parts.devs cond.dev).fresh cond outcome self.new) }
        ensures leads { OnOk result (LeadsAsBefore self.old self.new) }
        ensures root { OnOk result (IsSameRoot self.old self.new) }
    {
        let mut cond = cond;
        let dev = cond.dev();
        let step = self.step_of(dev, &mut cond)?;
        if !step.last {
            self.put_back(cond);
            return Ok(Condensed::Kept(step.kept as u64));
        }
        let (map, counts) = cond.finish();
        self.put_in(dev, map, counts);
        Ok(Condensed::Done)
    }

    // Works through the next entries of a device's mapping.
    fn step_of(&self, dev: u32, cond: &mut Condense) -> Result<Step, NoMemory>
        requires dev { dev ≡ cond.old.dev }
        requires under_way { IsUnderWay self.now cond.old }
        ensures under_way { OnOk result (IsUnderWay self.now cond.new) }
        ensures next { OnOk result (cond.new ≡ worked (part_of self.now.parts.devs dev).entries (part_of self.now.parts.devs dev).counts cond.old) }
        ensures kept { IfOk result (λ step. step.kept ≡ length (next_kept (part_of self.now.parts.devs dev).entries (part_of self.now.parts.devs dev).counts cond.old)) }
        ensures last { IfOk result (λ step. step.last ≡ nat_le (length (part_of self.now.parts.devs dev).entries) cond.new.at) }
        ensures each { length (part_of self.now.parts.devs dev).counts ≡ length (part_of self.now.parts.devs dev).entries }
        ensures rising { IsRising (part_of self.now.parts.devs dev).entries }
    {
        step_on(&self.devs[dev as usize].moves, cond)
    }

    // Keeps a condensing that goes on.
    fn put_back(&mut self, cond: Condense)
        requires under_way { IsUnderWay self.old cond }
        ensures kept { self.new ≡ with_cond self.old (Some cond) }
        ensures root { IsSameRoot self.old self.new }
    {
        self.whole.cond = Some(cond);
    }

    // Puts the condensed mapping of a device in the old one's place.
    fn put_in(&mut self, dev: u32, map: Imap, counts: Vec<u32>)
        requires none { self.old.parts.cond ≡ None }
        requires gone { state_of_dev self.old.parts.devs dev ≡ Gone }
        requires condensed { IsCondensed (part_of self.old.parts.devs dev) map.entries counts.items }
        ensures remaps { Remaps self.old self.new dev map.entries counts.items (part_of self.old.parts.devs dev).fresh None }
        ensures root { IsSameRoot self.old self.new }
    {
        let device = &mut self.devs[dev as usize];
        device.moves.lawful();
        device.moves.replace(map, counts);
        device.moves.lawful();
    }
}
