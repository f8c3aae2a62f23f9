//! What a root records of one device, out of the words of its streams.
//!
//! A stream that a device does not have counts as one of no words, and no words are the log of the empty set. So one
//! reader serves for devices in service, leaving and gone.
ghost use Rattle.std.specs.Prelude.{◌≡◌, ◌⊎◌, ◌<◌, ◌≤◌, ◌^◌, IfOk, IfErr};
ghost use Rattle.zr_meta.specs.Streams.{SpellsPart, IsPartFault};

use crate::late::late_of;
use crate::log::{log_of, sets_of};
use crate::map::mapping_of;
use std::alloc::Global;
use zr_base::{CkptPart, DevPart, DevRow, Items, NoMemory};

/// Why there are no parts: the number of the rule of a root that is broken, or memory ran out.
#[derive(Debug, Drop)]
pub enum PartsErr {
    Rule(u8),
    NoMemory,
}

impl From<NoMemory> for PartsErr {
    ghost use Rattle.std.specs.Prelude.{◌≡◌};
    ghost use Rattle.zr_meta.specs.declared.part.PartsErr.TheVariants as error;

    ghost from_gives = { λ _ e. e ≡ error.NoMemory };

    fn from(_error: NoMemory) -> PartsErr {
        PartsErr::NoMemory
    }
}

/// A device's row and the words of its streams; of a stream that it does not have, none.
#[derive(Drop)]
pub struct DevWords {
    pub row: DevRow,
    pub held: Items<u64>,
    pub kept: Items<u64>,
    pub entries: Items<u64>,
    pub counts: Items<u64>,
    pub fresh: Items<u64>,
    pub late1: Items<u64>,
    pub late2: Items<u64>,
}

/// What the words of a device's streams record of it. Rule 1 is broken where its mapping is not in its form, and else
/// rule 2 where a log or a late set is not in its form or goes past the device, a kept unit is not held, or one is kept
/// without a checkpoint. The time is that of replaying the logs.
pub fn part_of(
    alloc: Global,
    words: &DevWords,
    ckpt: CkptPart,
    version: u64,
    dev: u32,
) -> Result<DevPart, PartsErr>
    requires version { (version ≡ 1) ⊎ (version ≡ 2) }
    requires dev { dev < 32 }
    requires units { words.now.row.units ≤ 2 ^ 36 }
    ensures part { IfOk result (SpellsPart version dev ckpt words.now) }
    ensures fault { IfErr result (IsPartFault version dev ckpt words.now) }
{
    let units = words.row.units;
    let Some(mapping) = mapping_of(alloc, words.entries.as_slice(), words.counts.as_slice())? else {
        return Err(PartsErr::Rule(1));
    };
    let Some(sets) = sets_of(
        alloc,
        words.held.as_slice(),
        words.kept.as_slice(),
        ckpt,
        version,
        dev,
        units,
    )?
    else {
        return Err(PartsErr::Rule(2));
    };
    let Some(fresh) = log_of(alloc, words.fresh.as_slice(), version, dev, units)? else {
        return Err(PartsErr::Rule(2));
    };
    let Some(late1) = late_of(alloc, words.late1.as_slice(), version, dev, units)? else {
        return Err(PartsErr::Rule(2));
    };
    let Some(late2) = late_of(alloc, words.late2.as_slice(), version, dev, units)? else {
        return Err(PartsErr::Rule(2));
    };
    Ok(DevPart {
        row: words.row,
        held: sets.held,
        kept: sets.kept,
        entries: mapping.entries,
        counts: mapping.counts,
        fresh,
        late1,
        late2,
    })
}
