//! The events of an input, a line each.

use anyhow::{Context, bail};
use std::alloc::Global;
use zr_base::{Dva, Policy};

/// What happens to a space.
#[derive(Clone, Copy, Debug, PartialEq, Eq)]
pub enum Event {
    /// `first` or `best`: the next events are of a new space, in which units are placed by that policy.
    Begin(Policy),
    /// `add UNITS TXG`: a device is added by a transaction group.
    Add { units: u64, txg: u64 },
    /// `alloc UNITS`: units are taken for a block.
    Alloc(u64),
    /// `meta UNITS`: units are taken for metadata.
    Meta(u64),
    /// `free DEVICE START UNITS BIRTH`: a block is freed that was born in a transaction group.
    Free { at: Dva, birth: u64 },
    /// `drop DEVICE START UNITS`: metadata is given back.
    Drop(Dva),
    /// `commit` or `reset`: the transaction group ends.
    Commit { reset: bool },
    /// `reopen`: the space is made anew of what a root records of it. No group has begun.
    Reopen,
    /// `remove DEVICE`: a device begins to leave.
    Remove(u64),
    /// `copy`: the next units of the device that is leaving are copied.
    Copy,
    /// `fail`: the next units are planned, and are not copied.
    Fail,
    /// `cancel`: the removal is given up.
    Cancel,
    /// `finish TXG`: the removal ends in a transaction group.
    Finish(u64),
    /// `hold TXG`: the root of a transaction group is the checkpoint.
    Hold(u64),
    /// `discard`: the checkpoint is given up.
    Discard,
    /// `step`: some of what is kept is given back.
    Step,
    /// `condense`: some entries of a mapping are worked through.
    Condense,
    /// `ask DEVICE START UNITS`: whether an address may be freed, and where it leads.
    Ask(Dva),
}

// The numbers of a line behind its first word.
fn numbers_of(alloc: Global, line: &[u8]) -> anyhow::Result<Vec<u64>> {
    let mut numbers = Vec::new(alloc);
    for word in line.split(|b| *b == b' ').skip(1) {
        numbers.push(std::str::from_utf8(word)?.parse::<u64>()?)?;
    }
    Ok(numbers)
}

// An address.
fn address(dev: u64, start: u64, len: u64) -> anyhow::Result<Dva> {
    Ok(Dva {
        dev: u32::try_from(dev).ok().context("no such device")?,
        start,
        len: u32::try_from(len).ok().context("no such length")?,
    })
}

/// The event of a line.
pub fn event_of(alloc: Global, line: &[u8]) -> anyhow::Result<Event> {
    let name = line.split(|b| *b == b' ').next().unwrap_or(b"");
    let numbers = numbers_of(alloc, line)?;
    Ok(match (name, numbers.as_slice()) {
        (b"first", []) => Event::Begin(Policy::First),
        (b"best", []) => Event::Begin(Policy::Best),
        (b"add", [units, txg]) => Event::Add {
            units: *units,
            txg: *txg,
        },
        (b"alloc", [units]) => Event::Alloc(*units),
        (b"meta", [units]) => Event::Meta(*units),
        (b"free", [dev, start, len, birth]) => Event::Free {
            at: address(*dev, *start, *len)?,
            birth: *birth,
        },
        (b"drop", [dev, start, len]) => Event::Drop(address(*dev, *start, *len)?),
        (b"commit", []) => Event::Commit { reset: false },
        (b"reset", []) => Event::Commit { reset: true },
        (b"reopen", []) => Event::Reopen,
        (b"remove", [dev]) => Event::Remove(*dev),
        (b"copy", []) => Event::Copy,
        (b"fail", []) => Event::Fail,
        (b"cancel", []) => Event::Cancel,
        (b"finish", [txg]) => Event::Finish(*txg),
        (b"hold", [txg]) => Event::Hold(*txg),
        (b"discard", []) => Event::Discard,
        (b"step", []) => Event::Step,
        (b"condense", []) => Event::Condense,
        (b"ask", [dev, start, len]) => Event::Ask(address(*dev, *start, *len)?),
        _ => bail!("no such event"),
    })
}
