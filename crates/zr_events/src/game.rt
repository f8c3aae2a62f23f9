//! A space, the addresses of its blocks and of its metadata, and what happens to it.
use crate::calls::{self, Copied, Taken};
use crate::events::Event;
use crate::tell::where_of;
use std::alloc::{AllocError, Global};
use std::mem;
use zr_base::{Condensed, Dva, NoMemory, Policy};
use zr_choose::Chooser;
use zr_space::Space;

/// A space, the addresses of its blocks, and those of the metadata of its current and of its saved root.
#[derive(Drop)]
pub struct Game {
    alloc: Global,
    pub space: Space,
    pub policy: Policy,
    pub live: Vec<Dva>,
    meta: Vec<Dva>,
    saved: Vec<Dva>,
}

// The addresses without this one.
fn without(alloc: Global, list: &[Dva], at: Dva) -> Result<Vec<Dva>, AllocError> {
    let mut rest = Vec::new(alloc);
    for a in list {
        if *a != at {
            rest.push(*a)?;
        }
    }
    Ok(rest)
}

// A word for what was done, or `no` for what is not allowed.
fn said(alloc: Global, done: bool, word: &str) -> Result<String, AllocError> {
    String::from_str(alloc, if done { word } else { "no" })
}

// What a call is answered that names a device, or `no` where it is not allowed.
fn said_of(alloc: Global, dev: Option<u32>, word: &str) -> Result<String, AllocError> {
    match dev {
        Some(dev) => format!(in alloc; "{word} {dev}"),
        None => String::from_str(alloc, "no"),
    }
}

// What an allocation is answered.
fn said_taken(alloc: Global, taken: Taken) -> Result<String, AllocError> {
    match taken {
        Taken::At(at) => format!(in alloc; "at {} {}", at.dev, at.start),
        Taken::NoRun(longest) => format!(in alloc; "none {longest}"),
        Taken::No => String::from_str(alloc, "no"),
    }
}

// What a step of a removal is answered.
fn said_copied(alloc: Global, copied: Copied, done: bool) -> Result<String, AllocError> {
    let word = if done { "copied" } else { "failed" };
    match copied {
        Copied::Planned(plan) => {
            let (from, to) = (plan.from, plan.to);
            format!(in alloc;
                "{word} {}+{} {} {}",
                from.start, from.len, to.dev, to.start
            )
        }
        Copied::Nothing => String::from_str(alloc, "nothing"),
        Copied::Full => String::from_str(alloc, "full"),
    }
}

impl Game {
    /// A space without devices, in which units are placed by a policy.
    pub fn new(alloc: Global, policy: Policy) -> Game {
        Game {
            alloc,
            space: Space::new(alloc, 2),
            policy,
            live: Vec::new(alloc),
            meta: Vec::new(alloc),
            saved: Vec::new(alloc),
        }
    }

    /// What an event is answered, where units are placed by this chooser.
    pub fn play(&mut self, event: Event, pick: &Chooser) -> Result<String, NoMemory> {
        let alloc = self.alloc;
        match event {
            Event::Begin(policy) => self.begin(policy),
            Event::Add { units, txg } => {
                let dev = calls::add(&mut self.space, units, txg)?;
                Ok(said_of(alloc, dev, "dev")?)
            }
            Event::Alloc(units) => self.alloc(units, pick),
            Event::Meta(units) => self.alloc_meta(units, pick),
            Event::Free { at, birth } => self.free(at, birth),
            Event::Drop(at) => self.give_back(at),
            Event::Commit { reset } => {
                self.space.commit_done(reset);
                Ok(said(alloc, true, "committed")?)
            }
            Event::Reopen => self.reopen(),
            Event::Hold(txg) => self.hold(txg),
            Event::Discard => Ok(said(alloc, calls::discard(&mut self.space), "discarding")?),
            Event::Step => {
                let units = self.space.discard_step()?;
                Ok(format!(in alloc; "given {units}")?)
            }
            Event::Condense => self.condense(),
            Event::Ask(at) => self.ask(at),
            Event::Remove(_) | Event::Copy | Event::Fail | Event::Cancel | Event::Finish(_) =>
                self.remove(event, pick),
        }
    }

    // A step on the way of a device out of service.
    fn remove(&mut self, event: Event, pick: &Chooser) -> Result<String, NoMemory> {
        let alloc = self.alloc;
        match event {
            Event::Remove(dev) => {
                let left = match u32::try_from(dev) {
                    Ok(dev) => calls::leave(&mut self.space, dev)?,
                    Err(_) => false,
                };
                Ok(said(alloc, left, "leaving")?)
            }
            Event::Copy => self.copy(pick, true),
            Event::Fail => self.copy(pick, false),
            Event::Cancel => {
                let dev = calls::cancel(&mut self.space)?;
                Ok(said_of(alloc, dev, "cancelled")?)
            }
            Event::Finish(txg) => {
                let dev = calls::finish(&mut self.space, txg)?;
                Ok(said_of(alloc, dev, "gone")?)
            }
            _ => Ok(said(alloc, false, "")?),
        }
    }

    // A new space, in which units are placed by a policy.
    fn begin(&mut self, policy: Policy) -> Result<String, NoMemory> {
        *self = Game::new(self.alloc, policy);
        Ok(said(self.alloc, true, "pool")?)
    }

    // Takes units for a block.
    fn alloc(&mut self, units: u64, pick: &Chooser) -> Result<String, NoMemory> {
        let taken = calls::alloc(&mut self.space, units, pick)?;
        if let Taken::At(at) = taken {
            self.live.push(at)?;
        }
        Ok(said_taken(self.alloc, taken)?)
    }

    // Takes units for metadata.
    fn alloc_meta(&mut self, units: u64, pick: &Chooser) -> Result<String, NoMemory> {
        let taken = calls::alloc_meta(&mut self.space, units, pick)?;
        if let Taken::At(at) = taken {
            self.meta.push(at)?;
        }
        Ok(said_taken(self.alloc, taken)?)
    }

    fn free(&mut self, at: Dva, birth: u64) -> Result<String, NoMemory> {
        let freed = calls::free(&mut self.space, at, birth)?;
        if freed {
            self.live = without(self.alloc, self.live.as_slice(), at)?;
        }
        Ok(said(self.alloc, freed, "freed")?)
    }

    fn give_back(&mut self, at: Dva) -> Result<String, NoMemory> {
        let dropped = calls::give_back(&mut self.space, at)?;
        if dropped {
            self.meta = without(self.alloc, self.meta.as_slice(), at)?;
            self.saved = without(self.alloc, self.saved.as_slice(), at)?;
        }
        Ok(said(self.alloc, dropped, "dropped")?)
    }

    // The space of what a root records, which is to be as it was.
    fn reopen(&mut self) -> Result<String, NoMemory> {
        let parts = self.space.parts()?;
        let (meta, saved) = (self.meta.as_slice(), self.saved.as_slice());
        let Some(space) = Space::from_parts(self.alloc, &parts, meta, saved)? else {
            return Ok(said(self.alloc, false, "")?);
        };
        self.space = space;
        Ok(said(self.alloc, true, "reopened")?)
    }

    fn copy(&mut self, pick: &Chooser, done: bool) -> Result<String, NoMemory> {
        let alloc = self.alloc;
        let space = mem::replace(&mut self.space, Space::new(alloc, 2));
        let (space, copied) = calls::copy(space, pick, done);
        self.space = space;
        Ok(said_copied(alloc, copied?, done)?)
    }

    fn hold(&mut self, txg: u64) -> Result<String, NoMemory> {
        let held = calls::hold(&mut self.space, txg);
        if held {
            self.saved = mem::replace(&mut self.meta, Vec::new(self.alloc));
        }
        Ok(said(self.alloc, held, "held")?)
    }

    fn condense(&mut self) -> Result<String, NoMemory> {
        let alloc = self.alloc;
        Ok(match self.space.condense_step()? {
            Condensed::Kept(entries) => format!(in alloc; "kept {entries}")?,
            Condensed::Done => said(alloc, true, "done")?,
            Condensed::Nothing => said(alloc, true, "nothing")?,
        })
    }

    fn ask(&self, at: Dva) -> Result<String, NoMemory> {
        let live = if self.space.is_freeable(at)? {
            "live"
        } else {
            "not live"
        };
        let leads = where_of(self.alloc, &self.space, at)?;
        Ok(format!(in self.alloc; "{live} {leads}")?)
    }
}
