//! What is told of a space, as text: its devices, and where the addresses of its blocks lead.
ghost use Rattle.std.specs.Prelude.{◌≡◌, ◌<◌, length};

use std::alloc::{AllocError, Global};
use std::fmt::Write;
use zr_base::{CkptPart, CondPart, DevPart, DevState, Dva, Entry, Extent, LateRun, NoMemory};
use zr_chain::{ChainErr, Collected, Visited};
use zr_space::Space;

/// The units of each device by use.
pub fn columns_of(alloc: Global, space: &Space) -> Result<String, AllocError> {
    let mut text = String::new(alloc);
    for dev in 0..space.devices() {
        let units = space.columns(dev);
        write!(
            text,
            " | {} {} {} {}",
            units.allocated, units.checkpointed, units.deferred, units.free
        )?;
    }
    Ok(text)
}

/// FNV-1a, of 64 bits.
pub fn sum_of(bytes: &[u8]) -> u64 {
    let mut sum: u64 = 0xcbf2_9ce4_8422_2325;
    for byte in bytes {
        sum = (sum ^ u64::from(*byte)).wrapping_mul(0x0000_0100_0000_01b3);
    }
    sum
}

fn put_extents(text: &mut String, extents: &[Extent], mark: &str) -> Result<(), AllocError> {
    for e in extents {
        write!(text, " {mark}{}+{}", e.start, e.len)?;
    }
    Ok(())
}

fn put_late(text: &mut String, runs: &[LateRun]) -> Result<(), AllocError> {
    for run in runs {
        let mark = if run.meta { "m" } else { "" };
        put_extents(text, &[run.at], mark)?;
    }
    Ok(())
}

// Entries, each with how many of its units are obsolete and counted.
fn put_entries(text: &mut String, entries: &[Entry], counts: &[u32]) -> Result<(), AllocError> {
    for (e, count) in entries.iter().zip(counts.iter()) {
        write!(text, " {}+{}:{}:{}*{count}", e.src, e.len, e.dev, e.dst)?;
    }
    Ok(())
}

fn name_of(state: DevState) -> &'static str {
    match state {
        DevState::On => "on",
        DevState::Leaving => "leaving",
        DevState::Gone => "gone",
    }
}

// What a root records of a device.
fn put_part(text: &mut String, part: &DevPart) -> Result<(), AllocError> {
    text.push_str(" held")?;
    put_extents(text, part.held.as_slice(), "")?;
    text.push_str("\n kept")?;
    put_extents(text, part.kept.as_slice(), "")?;
    text.push_str("\n late1")?;
    put_late(text, part.late1.as_slice())?;
    text.push_str("\n late2")?;
    put_late(text, part.late2.as_slice())?;
    text.push_str("\n entries")?;
    put_entries(text, part.entries.as_slice(), part.counts.as_slice())?;
    text.push_str("\n fresh")?;
    put_extents(text, part.fresh.as_slice(), "")
}

// What the open group freed on a device, and which of its units are copies.
fn put_open(text: &mut String, space: &Space, dev: u32) -> Result<(), NoMemory>
    requires { dev < length space.now.parts.devs }
{
    let freed = space.freed(dev);
    let blocks = freed.blocks().to_set()?;
    let meta = freed.meta().to_set()?;
    let copies = space.copies(dev).to_set()?;
    text.push_str("\n freed")?;
    put_extents(text, blocks.extents(), "")?;
    put_extents(text, meta.extents(), "m")?;
    text.push_str("\n copies")?;
    put_extents(text, copies.extents(), "")?;
    text.push_str("\n")?;
    Ok(())
}

// A device.
fn put_device(text: &mut String, space: &Space, dev: u32, part: &DevPart) -> Result<(), NoMemory>
    requires { dev < length space.now.parts.devs }
{
    let row = part.row;
    write!(
        text,
        "dev {dev} {} added {} units {} gone {}\n",
        name_of(row.state),
        row.added,
        row.units,
        row.gone
    )?;
    put_part(text, part)?;
    put_open(text, space, dev)
}

// The checkpoint.
fn put_ckpt(text: &mut String, ckpt: CkptPart) -> Result<(), AllocError> {
    match ckpt {
        CkptPart::Clear => text.push_str("ckpt clear\n"),
        CkptPart::Held(txg) => write!(text, "ckpt held {txg}\n"),
        CkptPart::Discarding => text.push_str("ckpt discarding\n"),
    }
}

// The condensing that goes on.
fn put_cond(text: &mut String, cond: &Option<CondPart>) -> Result<(), AllocError> {
    let Some(part) = cond else {
        return text.push_str("cond none\n");
    };
    write!(text, "cond {} at {}", part.dev, part.at)?;
    put_entries(text, part.entries.as_slice(), part.counts.as_slice())?;
    text.push_str("\n")
}

// Some of the numbers from which the room is computed.
fn put_counts(text: &mut String, space: &Space) -> Result<(), AllocError> {
    let sizes = space.sizes();
    write!(
        text,
        "left {} turning {} past {} kept {} free {}\n",
        sizes.uncopied,
        sizes.turning,
        sizes.past,
        space.kept_units(),
        space.free_units()
    )
}

fn put_visit(text: &mut String, v: &Visited) -> Result<(), AllocError> {
    match v {
        Visited::Hop { dev, at } => write!(text, " hop {dev} {}+{}", at.start, at.len),
        Visited::Piece { split, dev, at } => {
            write!(text, " piece {split} {dev} {}+{}", at.start, at.len)
        }
    }
}

/// Where an address leads, and how many pieces its free would touch.
pub fn where_of(alloc: Global, space: &Space, at: Dva) -> Result<String, NoMemory> {
    let mut told = Collected::new(alloc);
    match space.remap(at, &mut told) {
        Ok(()) => {}
        Err(ChainErr::NoEntry { .. }) => return Ok(String::from_str(alloc, "nowhere")?),
        Err(ChainErr::NoMemory) => return Err(NoMemory),
    }
    let mut text = format!(in alloc; "touch {}", space.touch(at))?;
    for v in told.list.as_slice() {
        put_visit(&mut text, v)?;
    }
    Ok(text)
}

/// All that is told of a space, and where each of these addresses leads.
pub fn text_of(alloc: Global, space: &Space, live: &[Dva]) -> Result<String, NoMemory> {
    let mut text = String::new(alloc);
    let parts = space.parts()?;
    for dev in 0..space.devices() {
        let part = &parts.devs.as_slice()[dev as usize];
        put_device(&mut text, space, dev, part)?;
    }
    put_ckpt(&mut text, parts.ckpt)?;
    put_cond(&mut text, &parts.cond)?;
    put_counts(&mut text, space)?;
    for a in live {
        let leads = where_of(alloc, space, *a)?;
        write!(text, "block {} {}+{} {leads}\n", a.dev, a.start, a.len)?;
    }
    Ok(text)
}
