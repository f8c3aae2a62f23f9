//! A root before its space is known: its devices, over which its metadata is read, and which rule its parts break first.
//!
//! What a root records may have been written by anyone. Some of its rules are told by its parts alone: what its mappings are,
//! where they lead, how far a condensing has come, and what a device that is leaving has copied. They are tested in their
//! order over all devices, so that the first that is broken can be told.
#![tactic(auto)]

ghost use Rattle.std.specs.Prelude.{◌≤◌, ◌↔◌, IsTrue, IfOk, IfSome, IfNone, All};
ghost use Rattle.zr_judge.specs.Parts.{BreaksFirst, BreaksNone, HasMapping};
ghost use Rattle.zr_rules.specs.Devices.{devices_of};
ghost use Rattle.zr_rules.specs.Resolve.{IsRanked};

mod blank;
mod condensing;
mod mappings;
mod removal;
mod sets;

pub use blank::blank_space;
use condensing::may_condense;
use mappings::are_mapped;
use removal::may_leave;
use std::alloc::Global;
use zr_base::{DevPart, NoMemory, SpaceParts};
use zr_chain::Devs;

// The rules of mappings, of where they lead, of what is condensed, and of what leaves.
const MAPPINGS: u8 = 3;

const DESTINATIONS: u8 = 4;

const CONDENSING: u8 = 5;

const REMOVAL: u8 = 6;

// Whether each mapping leads to devices that are there or went later. It takes a look at each entry.
fn are_ranked(alloc: Global, parts: &[DevPart]) -> Result<bool, NoMemory>
    requires { All HasMapping parts.now }
    ensures { IfOk result (λ b. IsTrue b ↔ IsRanked (devices_of parts.now)) }
{
    let devs = Devs::new(alloc, parts)?;
    Ok(devs.ranked())
}

/// The first rule that the parts break by themselves, if they break one. It goes over the mappings, over what is condensed, and
/// over what a device that is leaving holds.
pub fn broken_rule(alloc: Global, parts: &SpaceParts) -> Result<Option<u8>, NoMemory>
    ensures broken { IfOk result (λ o. IfSome o (BreaksFirst parts.now)) }
    ensures none { IfOk result (λ o. IfNone o (BreaksNone parts.now)) }
    ensures rule { IfOk result (λ o. IfSome o (λ n. (3 ≤ n) × (n ≤ 6))) }
    ensures mapped { IfOk result (λ o. IfNone o (All HasMapping parts.now.devs)) }
    ensures ranked { IfOk result (λ o. IfNone o (IsRanked (devices_of parts.now.devs))) }
{
    let devs = parts.devs.as_slice();
    if !are_mapped(alloc, devs)? {
        return Ok(Some(MAPPINGS));
    }
    if !are_ranked(alloc, devs)? {
        return Ok(Some(DESTINATIONS));
    }
    if !may_condense(alloc, devs, &parts.cond)? {
        return Ok(Some(CONDENSING));
    }
    if !may_leave(alloc, devs, parts.ckpt)? {
        return Ok(Some(REMOVAL));
    }
    Ok(None)
}
