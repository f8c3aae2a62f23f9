//! The words of a late set: the units that a transaction group freed, which come back two groups later.
//!
//! First come the extents of blocks and then those of metadata, each kind as a set that is written anew. So a late set
//! has one spelling: what was read is spelled again and compared.
ghost use Rattle.std.specs.Prelude.{◌≡◌, ◌⊎◌, ◌↔◌, ◌++◌, ◌<◌, ◌≤◌, ◌^◌, true, map, IsTrue, IfOk, OnOk};
ghost use Rattle.std.specs.List.{AllByRecursion};
ghost use Rattle.zr_base.specs.Readers.{Reads};
ghost use Rattle.zr_rules.specs.Logs.{IsAnew, IsLate, IsChange, SpellsChanges};
ghost use Rattle.zr_smap.specs.Cuts.{IsInReach, taken};
ghost use Rattle.zr_smap.specs.Spellings.{IsRun};
ghost use Rattle.zr_meta.specs.Streams.{IsLateOf, IsOnlySet, IsFreedAnew, late_list, runs_of_kind};

use crate::log::ends_by;
use std::alloc::Global;
use zr_base::{Change, Extent, Items, LateRun, NoMemory};
use zr_ranges::RangeSet;
use zr_smap::{changes_of, condensed, replay, words_of};

/// The runs of one kind, as changes that take them.
fn taken_of(alloc: Global, changes: &[Change], free: bool) -> Result<Vec<Change>, NoMemory>
    requires { AllByRecursion IsRun changes.now }
    ensures taken { IfOk result (λ ts. ts.items ≡ map taken (runs_of_kind free changes.now)) }
    ensures lawful { IfOk result (λ ts. AllByRecursion IsRun ts.items) }
{
    let mut runs = Vec::new(alloc);
    for c in changes {
        if c.free == free {
            runs.push(Change {
                free: false,
                at: c.at,
            })?;
        }
    }
    Ok(runs)
}

/// The one set that the runs of a kind may be cut from.
fn set_of(alloc: Global, changes: &[Change], free: bool) -> Result<Option<RangeSet>, NoMemory>
    requires { AllByRecursion IsRun changes.now }
    ensures { IfOk result (IsOnlySet (runs_of_kind free changes.now)) }
{
    let runs = taken_of(alloc, changes, free)?;
    let found = replay(alloc, runs.as_slice())?;
    Ok(found)
}

/// The same changes, as changes that give back.
fn freed(alloc: Global, changes: &[Change]) -> Result<Vec<Change>, NoMemory>
    ensures { IfOk result (λ fs. fs.items ≡ map (λ c. record { free = true; at = c.at }) changes.now) }
{
    let mut runs = Vec::with_capacity(alloc, changes.len())?;
    for c in changes {
        runs.push(Change {
            free: true,
            at: c.at,
        })?;
    }
    Ok(runs)
}

/// The words of a set that is written anew, each of which gives back.
fn freed_words(alloc: Global, set: &RangeSet, version: u64, dev: u32) -> Result<Vec<u64>, NoMemory>
    requires version { (version ≡ 1) ⊎ (version ≡ 2) }
    requires dev { dev < 32 }
    requires reach { IsInReach version set.now.extents }
    ensures { IfOk result (λ w. IsFreedAnew version dev set.now.extents w.items) }
{
    let anew = condensed(alloc, set, version, dev)?;
    let spelled = changes_of(alloc, anew.as_slice(), version, dev)?;
    let changes = spelled.unwrap();
    let runs = freed(alloc, changes.as_slice())?;
    words_of(alloc, runs.as_slice(), version, dev)
}

/// The words of a late set, of which these are the units of blocks and those of metadata.
pub fn late_words(
    alloc: Global,
    blocks: &RangeSet,
    meta: &RangeSet,
    version: u64,
    dev: u32,
) -> Result<Vec<u64>, NoMemory>
    requires version { (version ≡ 1) ⊎ (version ≡ 2) }
    requires dev { dev < 32 }
    requires blocks { IsInReach version blocks.now.extents }
    requires meta { IsInReach version meta.now.extents }
    ensures { IfOk result (λ w. IsLate version dev w.items (late_list blocks.now.extents meta.now.extents)) }
{
    let _blocks = blocks.extents();
    let _meta = meta.extents();
    let mut words = condensed(alloc, blocks, version, dev)?;
    let more = freed_words(alloc, meta, version, dev)?;
    words.extend_from_slice(more.as_slice())?;
    Ok(words)
}

fn put_runs(runs: &mut Items<LateRun>, extents: &[Extent], meta: bool) -> Result<(), NoMemory>
    ensures { OnOk result (runs.new ≡ runs.old ++ map (λ e. record { at = e; meta = meta }) extents.now) }
{
    for e in extents {
        runs.push(LateRun { at: *e, meta })?;
    }
    Ok(())
}

fn late_runs(alloc: Global, blocks: &[Extent], meta: &[Extent]) -> Result<Items<LateRun>, NoMemory>
    ensures { IfOk result (λ runs. runs ≡ late_list blocks.now meta.now) }
{
    let mut runs = Items::new(alloc);
    put_runs(&mut runs, blocks, false)?;
    put_runs(&mut runs, meta, true)?;
    Ok(runs)
}

fn is_same(a: &[u64], b: &[u64]) -> bool
    ensures { IsTrue result ↔ (a.now ≡ b.now) }
{
    a == b
}

/// The late set of a device of so many units that the words spell, None exactly where they spell none.
pub fn late_of(
    alloc: Global,
    words: &[u64],
    version: u64,
    dev: u32,
    units: u64,
) -> Result<Option<Items<LateRun>>, NoMemory>
    requires version { (version ≡ 1) ⊎ (version ≡ 2) }
    requires dev { dev < 32 }
    requires units { units ≤ 2 ^ 36 }
    ensures { IfOk result (Reads (IsLateOf version dev units words.now)) }
{
    let Some(changes) = changes_of(alloc, words, version, dev)? else {
        return Ok(None);
    };
    let Some(blocks) = set_of(alloc, changes.as_slice(), false)? else {
        return Ok(None);
    };
    let Some(meta) = set_of(alloc, changes.as_slice(), true)? else {
        return Ok(None);
    };
    if !ends_by(blocks.extents(), units) {
        return Ok(None);
    }
    if !ends_by(meta.extents(), units) {
        return Ok(None);
    }
    let again = late_words(alloc, &blocks, &meta, version, dev)?;
    if !is_same(again.as_slice(), words) {
        return Ok(None);
    }
    let runs = late_runs(alloc, blocks.extents(), meta.extents())?;
    Ok(Some(runs))
}
