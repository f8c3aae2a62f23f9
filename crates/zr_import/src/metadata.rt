//! The metadata of a root: its head, and what its streams record.
ghost use Rattle.std.specs.Prelude.{◌≡◌, ◌+◌, ◌*◌, ◌^◌, ◌<◌, ◌≤◌, ◌↔◌, List, ℕ, length, map, sum_by, [], ◌⊎◌, All, IfOk, IfErr, IsErrOf, OnOk, IsTrue, true};
ghost use Rattle.zr_label.specs.Blocks.{IsUber};
ghost use Rattle.zr_meta.specs.Heads.{IsHead};
ghost use Rattle.zr_meta.specs.Parts.{SpellsParts};
ghost use Rattle.zr_store.specs.Causes.{Costs};
ghost use Rattle.zr_store.specs.Store.{Stored};
ghost use Rattle.zr_image.specs.Roots.{late_counted, rows_of, without_late};
ghost use Rattle.zr_import.specs.Causes.{HasCause};
ghost use Rattle.zr_import.specs.declared.errors.ImportErr.TheVariants as error;
ghost use Rattle.zr_base.specs.declared.space.DevPart.{DevPart};
ghost use Rattle.zr_import.specs.Units.{HasMaximal, MarksServing};
ghost use Rattle.zr_import.specs.Words.{ReadsMeta, meta_reach};

use crate::errors::ImportErr;
use crate::heads::{read_head, read_streams, rows_of};
use crate::marks::{Marks, extent_of};
use std::alloc::{AllocError, Global};
use zr_base::{DevPart, Dva, Items, NoMemory, SpaceParts};
use zr_bptr::Bptr;
use zr_label::Uber;
use zr_meta::{Head, PartsErr, parts_of};
use zr_store::Blocks;

/// The metadata of a root: its head, what its streams record, and the addresses of its blocks.
#[derive(Drop)]
pub struct Meta {
    pub head: Head,
    pub parts: SpaceParts,
    pub at: Items<Dva>,
}

fn copy_of<T: Copy>(alloc: Global, items: &[T]) -> Result<Items<T>, NoMemory>
    ensures { IfOk result (λ copy. copy ≡ items.now) }
{
    let copy = Vec::from_slice(alloc, items)?;
    Ok(Items::from_vec(copy))
}

/// What a root records of a device, but for its late sets.
fn part_without_late(alloc: Global, p: &DevPart) -> Result<DevPart, NoMemory>
    ensures { IfOk result (λ part. part ≡ record p.now { late1 = []; late2 = [] }) }
{
    Ok(DevPart {
        row: p.row,
        held: copy_of(alloc, p.held.as_slice())?,
        kept: copy_of(alloc, p.kept.as_slice())?,
        entries: copy_of(alloc, p.entries.as_slice())?,
        counts: copy_of(alloc, p.counts.as_slice())?,
        fresh: copy_of(alloc, p.fresh.as_slice())?,
        late1: Items::new(alloc),
        late2: Items::new(alloc),
    })
}

fn devs_without_late(alloc: Global, parts: &[DevPart]) -> Result<Items<DevPart>, NoMemory>
    ensures { IfOk result (λ devs. devs ≡ map (λ (p : DevPart). record p { late1 = []; late2 = [] }) parts.now) }
{
    let mut devs = Items::new(alloc);
    for p in parts {
        devs.push(part_without_late(alloc, p)?)?;
    }
    Ok(devs)
}

/// Counts the late sets as empty. It goes over the other sets of the devices.
pub(crate) fn drop_late(alloc: Global, parts: &mut SpaceParts) -> Result<(), NoMemory>
    ensures { OnOk result (parts.new ≡ without_late parts.old) }
{
    let devs = devs_without_late(alloc, parts.devs.as_slice())?;
    parts.devs = devs;
    Ok(())
}

/// The late sets count as empty where the root is a reset, or is of the first form: it has freed all, whatever they say.
fn late_counted(alloc: Global, uber: &Uber, parts: SpaceParts) -> Result<SpaceParts, NoMemory>
    ensures { IfOk result (λ counted. counted ≡ late_counted uber.now parts) }
{
    let mut parts = parts;
    if uber.reset != 0 && uber.reset != uber.txg {
        return Ok(parts);
    }
    drop_late(alloc, &mut parts)?;
    Ok(parts)
}

/// Whether none of the blocks lies on units that are held.
fn are_apart(held: &Marks, met: &[Bptr]) -> bool {
    met.iter()
        .all(|b| held.is_apart(b.at.dev, extent_of(&b.at)))
}

/// What the words of the streams record. The first rule of forms and sets that is broken is told.
fn read_parts(
    alloc: Global,
    uber: &Uber,
    head: &Head,
    words: &[u64],
) -> Result<SpaceParts, ImportErr>
    requires uber { IsUber uber.now }
    requires head { IsHead (rows_of uber.now) head.now }
    requires count { length words.now ≡ sum_by (λ t. t.words) head.now.streams }
    ensures parts { IfOk result (SpellsParts uber.now.version (rows_of uber.now) head.now words.now) }
    ensures rule { (n : ℕ) → IsErrOf result (error.Rule n) → (n ≡ 1) ⊎ (n ≡ 2) }
    ensures memory { IfErr result (λ e. (e ≡ error.NoMemory) ⊎ ((n : ℕ) × (e ≡ error.Rule n))) }
{
    match parts_of(alloc, head, rows_of(uber), words, uber.version) {
        Ok(parts) => Ok(parts),
        Err(PartsErr::Rule(n)) => Err(ImportErr::Rule(n)),
        Err(PartsErr::NoMemory) => Err(ImportErr::NoMemory),
    }
}

fn addresses(alloc: Global, met: &[Bptr]) -> Result<Items<Dva>, NoMemory>
    ensures { IfOk result (λ ats. ats ≡ map (λ b. b.at) met.now) }
{
    let mut ats = Items::new(alloc);
    for b in met {
        ats.push(b.at)?;
    }
    Ok(ats)
}

/// The metadata of a root. Each of its blocks is marked, and then read; rule 7 is broken where one is not on a device in
/// service, was met before, is younger than the root, or is held besides, rule 1 where one is outside its form, and rule 2
/// where a set is. Of a root that is a reset, the late sets count as empty. The time and the memory are linear in the blocks
/// of the metadata.
pub fn read_meta<B: Blocks>(alloc: Global, store: &mut B, uber: &Uber) -> Result<Meta, ImportErr>
    requires uber { IsUber uber.now }
    ensures follows { (start : B) → B.follows start store.old → B.follows start store.new }
    ensures costs { Costs 0 0 (B.account store.old) (B.account store.new) }
    ensures cause { HasCause (B.account store.old) (B.account store.new) result }
    ensures same { (s : Stored) → B.holds store.old s → B.holds store.new s }
    ensures head { IfOk result (λ meta. IsHead (rows_of uber.now) meta.head) }
    ensures held { IfOk result (λ meta. All HasMaximal meta.parts.devs) }
    ensures few { IfOk result (λ meta. length meta.parts.devs ≤ 32) }
    ensures reads { (s : Stored) → B.holds store.old s → IfOk result (λ meta. ReadsMeta s uber.now meta.head meta.parts) }
    ensures marks { (s : Stored) → B.holds store.old s → IfOk result (λ meta. MarksServing uber.now.txg (rows_of uber.now) (meta_reach s uber.now meta.head)) }
    ensures at { (s : Stored) → B.holds store.old s → IfOk result (λ meta. meta.at ≡ map (λ b. b.at) (meta_reach s uber.now meta.head)) }
{
    let mut marks = Marks::of_rows(alloc, rows_of(uber))?;
    let mut met = Vec::new(alloc);
    let head = read_head(alloc, store, &mut marks, uber, &mut met)?;
    let streams = head.streams.as_slice();
    let words = read_streams(alloc, store, &mut marks, streams, uber.txg, &mut met)?;
    let parts = read_parts(alloc, uber, &head, words.as_slice())?;
    let held = Marks::of_held(alloc, parts.devs.as_slice())?;
    if !are_apart(&held, met.as_slice()) {
        return Err(ImportErr::Rule(7));
    }
    let parts = late_counted(alloc, uber, parts)?;
    let at = addresses(alloc, met.as_slice())?;
    Ok(Meta { head, parts, at })
}
