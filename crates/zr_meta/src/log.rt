//! The words of a log, as the set that they leave.
//!
//! A log grows with each transaction group and is written anew when it is much longer than its set needs, so a longer
//! one is refused, as is one that does not replay or goes past its device.
ghost use Rattle.std.specs.Prelude.{◌≡◌, ◌⊎◌, ◌↔◌, ◌+◌, ◌*◌, ◌<◌, ◌≤◌, ◌^◌, [], IsTrue, IfOk, option_map};
ghost use Rattle.std.specs.List.{AllByRecursion};
ghost use Rattle.zr_base.specs.declared.space.CkptPart.TheVariants.{Clear};
ghost use Rattle.zr_base.specs.Extents.{EndsBy, HasAll};
ghost use Rattle.zr_base.specs.Readers.{Reads};
ghost use Rattle.zr_meta.specs.Streams.{IsLogOf, IsFit, SpellsSets};

use std::alloc::Global;
use zr_base::{CkptPart, Extent, Items, NoMemory};
use zr_ranges::RangeSet;
use zr_smap::{changes_of, condensed, replay};

/// The held units of a device, and those of them that only the checkpoint has.
#[derive(Drop)]
pub struct Sets {
    pub held: Items<Extent>,
    pub kept: Items<Extent>,
}

/// Whether each extent ends within so many units.
pub fn ends_by(extents: &[Extent], units: u64) -> bool
    ensures { IsTrue result ↔ EndsBy units extents.now }
{
    for e in extents {
        if e.len > units {
            return false;
        }
        if e.start > units - e.len {
            return false;
        }
    }
    true
}

/// Whether a log of so many words is not much longer than one that is written anew.
fn is_short(words: usize, anew: usize) -> bool
    ensures { IsTrue result ↔ (words ≤ 2 * anew + 512) }
{
    words.saturating_sub(512).div_ceil(2) <= anew
}

/// Whether a log of so many words may be that of the set.
fn is_fit(
    alloc: Global,
    set: &RangeSet,
    words: usize,
    version: u64,
    dev: u32,
    units: u64,
) -> Result<bool, NoMemory>
    requires version { (version ≡ 1) ⊎ (version ≡ 2) }
    requires dev { dev < 32 }
    requires units { units ≤ 2 ^ 36 }
    ensures { IfOk result (λ fit. IsTrue fit ↔ IsFit version dev units words set.now.extents) }
{
    if !ends_by(set.extents(), units) {
        return Ok(false);
    }
    let anew = condensed(alloc, set, version, dev)?;
    Ok(is_short(words, anew.len()))
}

/// The set of a device of so many units whose log the words are, None exactly where they are that of none.
fn log_set(
    alloc: Global,
    words: &[u64],
    version: u64,
    dev: u32,
    units: u64,
) -> Result<Option<RangeSet>, NoMemory>
    requires version { (version ≡ 1) ⊎ (version ≡ 2) }
    requires dev { dev < 32 }
    requires units { units ≤ 2 ^ 36 }
    ensures { IfOk result (λ found. Reads (IsLogOf version dev units words.now) (option_map (λ s. s.extents) found)) }
{
    let Some(changes) = changes_of(alloc, words, version, dev)? else {
        return Ok(None);
    };
    let Some(set) = replay(alloc, changes.as_slice())? else {
        return Ok(None);
    };
    if !is_fit(alloc, &set, words.len(), version, dev, units)? {
        return Ok(None);
    }
    Ok(Some(set))
}

fn copy_of(alloc: Global, extents: &[Extent]) -> Result<Items<Extent>, NoMemory>
    ensures { IfOk result (λ es. es ≡ extents.now) }
{
    let copy = Vec::from_slice(alloc, extents)?;
    Ok(Items::from_vec(copy))
}

/// The extents of the set of a device of so many units whose log the words are, None exactly where they are that of
/// none.
pub fn log_of(
    alloc: Global,
    words: &[u64],
    version: u64,
    dev: u32,
    units: u64,
) -> Result<Option<Items<Extent>>, NoMemory>
    requires version { (version ≡ 1) ⊎ (version ≡ 2) }
    requires dev { dev < 32 }
    requires units { units ≤ 2 ^ 36 }
    ensures { IfOk result (Reads (IsLogOf version dev units words.now)) }
{
    let Some(set) = log_set(alloc, words, version, dev, units)? else {
        return Ok(None);
    };
    let extents = copy_of(alloc, set.extents())?;
    Ok(Some(extents))
}

/// Whether each extent lies in the set.
fn are_covered(extents: &[Extent], set: &RangeSet) -> bool
    ensures { IsTrue result ↔ AllByRecursion (HasAll set.now.extents) extents.now }
{
    for e in extents {
        if !set.covers(*e) {
            return false;
        }
    }
    true
}

/// Whether no unit may be kept, or none is.
fn is_none_kept(ckpt: CkptPart, kept: &[Extent]) -> bool
    ensures { IsTrue result ↔ (ckpt ≡ Clear → kept.now ≡ []) }
{
    match ckpt {
        CkptPart::Clear => kept.is_empty(),
        _ => true,
    }
}

/// The held and the kept units of a device of so many units that the words of their logs spell, None exactly where one
/// of them is no log, a kept unit is not held, or there is one without a checkpoint.
pub fn sets_of(
    alloc: Global,
    held: &[u64],
    kept: &[u64],
    ckpt: CkptPart,
    version: u64,
    dev: u32,
    units: u64,
) -> Result<Option<Sets>, NoMemory>
    requires version { (version ≡ 1) ⊎ (version ≡ 2) }
    requires dev { dev < 32 }
    requires units { units ≤ 2 ^ 36 }
    ensures { IfOk result (Reads (SpellsSets version dev units ckpt held.now kept.now)) }
{
    let Some(held_set) = log_set(alloc, held, version, dev, units)? else {
        return Ok(None);
    };
    let Some(kept_set) = log_set(alloc, kept, version, dev, units)? else {
        return Ok(None);
    };
    if !are_covered(kept_set.extents(), &held_set) {
        return Ok(None);
    }
    if !is_none_kept(ckpt, kept_set.extents()) {
        return Ok(None);
    }
    let held = copy_of(alloc, held_set.extents())?;
    let kept = copy_of(alloc, kept_set.extents())?;
    Ok(Some(Sets { held, kept }))
}
