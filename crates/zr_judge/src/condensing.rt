//! What is condensed: the mapping of a device that is gone, worked again as far as the record says, comes to the same.
ghost use Rattle.std.specs.Prelude.{◌≡◌, ◌↔◌, ◌≤◌, All, length, IfOk, IsTrue};
ghost use Rattle.zr_judge.specs.Parts.{HasMapping, MayCondense};
ghost use Rattle.zr_rules.specs.Condense.{IsWorked};

use std::alloc::Global;
use zr_base::{CondPart, DevPart, DevState, Entry, NoMemory};
use zr_condense::Condense;
use zr_imap::Imap;

// Whether two entries are the same.
fn is_same_entry(a: Entry, b: Entry) -> bool
    ensures { IsTrue result ↔ (a ≡ b) }
{
    a.src == b.src && a.dev == b.dev && a.dst == b.dst && a.len == b.len
}

// Whether two mappings are the same.
#[tactic(auto, using(std::proofs::lemmas::List::ext_get_or))]
fn are_same_entries(a: &[Entry], b: &[Entry]) -> bool
    ensures { IsTrue result ↔ (a.now ≡ b.now) }
{
    if a.len() != b.len() {
        return false;
    }
    for i in 0..a.len() {
        if !is_same_entry(a[i], b[i]) {
            return false;
        }
    }
    true
}

// Whether two records of a condensing are the same, but for their device.
fn is_same(a: &CondPart, b: &CondPart) -> bool
    ensures { IsTrue result ↔ ((a.now.at ≡ b.now.at) × (a.now.entries ≡ b.now.entries) × (a.now.counts ≡ b.now.counts)) }
{
    if a.at != b.at {
        return false;
    }
    if !are_same_entries(a.entries.as_slice(), b.entries.as_slice()) {
        return false;
    }
    a.counts.as_slice() == b.counts.as_slice()
}

// What the mapping of a device comes to, worked through as far as that.
#[tactic(auto, using(crate::proofs::Condensed::worked_of))]
fn worked_to(alloc: Global, part: &DevPart, dev: u32, at: usize) -> Result<CondPart, NoMemory>
    requires mapped { HasMapping part.now }
    requires within { at ≤ length part.now.entries }
    ensures worked { IfOk result (IsWorked part.now) }
    ensures at { IfOk result (λ c. c.at ≡ at) }
{
    let map = Imap::from_entries(alloc, part.entries.as_slice())?;
    let mut worked = Condense::begin(alloc, dev);
    worked.step(&map, part.counts.as_slice(), at)?;
    worked.part()
}

// Whether the record is what the mapping of its device comes to.
#[tactic(auto, using(crate::proofs::Condensed::one_mapping, crate::proofs::Condensed::one_count, crate::proofs::Condensed::worked_too))]
fn is_worked(alloc: Global, part: &DevPart, cond: &CondPart) -> Result<bool, NoMemory>
    requires { HasMapping part.now }
    ensures { IfOk result (λ yes. IsTrue yes ↔ IsWorked part.now cond.now) }
{
    if cond.at > part.entries.len() as u64 {
        return Ok(false);
    }
    let worked = worked_to(alloc, part, cond.dev, cond.at as usize)?;
    Ok(is_same(&worked, cond))
}

/// Whether a condensing may have come so far, if one has begun.
pub(crate) fn may_condense(
    alloc: Global,
    parts: &[DevPart],
    cond: &Option<CondPart>,
) -> Result<bool, NoMemory>
    requires { All HasMapping parts.now }
    ensures { IfOk result (λ yes. IsTrue yes ↔ MayCondense parts.now cond.now) }
{
    let Some(cond) = cond else {
        return Ok(true);
    };
    let dev = cond.dev as usize;
    if dev >= parts.len() || parts[dev].row.state != DevState::Gone {
        return Ok(false);
    }
    is_worked(alloc, &parts[dev], cond)
}
