//! The tables among the replies: one function for each kind of line.
ghost use Rattle.std.specs.Prelude.{◌≡◌, ◌++◌, OnOk};
ghost use Rattle.std.specs.List.{flat_map};
ghost use Rattle.zr_script.specs.ReplyText.{state_word, path_word, list_line, map_line, audit_line, open_line, removal_line, checkpoint_line, condense_line, room_line, status_text, end_line};

use crate::replies::{Word, put_line};
use crate::reply::{AuditLine, CkptLine, ListLine, MapLine, StatusLines};
use std::alloc::Global;
use zr_base::{Blob, DevState, NoMemory};

fn put_end(alloc: Global, text: &mut Vec<u8>) -> Result<(), NoMemory>
    ensures { OnOk result (text.new.items ≡ text.old.items ++ end_line) }
{
    put_line(alloc, text, &[Word::Text(b"end")])
}

fn state_word(state: DevState) -> &'static [u8]
    ensures { result.now ≡ state_word state }
{
    match state {
        DevState::On => b"on",
        DevState::Leaving => b"leaving",
        DevState::Gone => b"gone",
    }
}

fn path_word(path: &Option<Blob>) -> &[u8]
    ensures { result.now ≡ path_word path.now }
{
    match path {
        None => b"-",
        Some(path) => path.as_slice(),
    }
}

fn put_list_line(alloc: Global, text: &mut Vec<u8>, l: &ListLine) -> Result<(), NoMemory>
    ensures { OnOk result (text.new.items ≡ text.old.items ++ list_line l.now) }
{
    put_line(
        alloc,
        text,
        &[
            Word::Text(b"dev"),
            Word::Number(u64::from(l.index)),
            Word::Text(path_word(&l.path)),
            Word::Text(state_word(l.state)),
            Word::Number(l.units),
            Word::Number(l.allocated),
            Word::Number(l.checkpointed),
            Word::Number(l.deferred),
            Word::Number(l.free),
        ],
    )
}

/// Adds the table of `list` at the end of a text.
pub fn put_list(alloc: Global, text: &mut Vec<u8>, lines: &[ListLine]) -> Result<(), NoMemory>
    ensures { OnOk result (text.new.items ≡ text.old.items ++ (flat_map list_line lines.now ++ end_line)) }
{
    for line in lines {
        put_list_line(alloc, text, line)?;
    }
    put_end(alloc, text)
}

fn put_map_line(alloc: Global, text: &mut Vec<u8>, l: &MapLine) -> Result<(), NoMemory>
    ensures { OnOk result (text.new.items ≡ text.old.items ++ map_line l.now) }
{
    match l {
        MapLine::Entry { entry, obsolete } => put_line(
            alloc,
            text,
            &[
                Word::Text(b"entry"),
                Word::Number(entry.src),
                Word::Number(u64::from(entry.len)),
                Word::Number(u64::from(entry.dev)),
                Word::Number(entry.dst),
                Word::Number(u64::from(*obsolete)),
            ],
        ),
        MapLine::Fresh(extent) => put_line(
            alloc,
            text,
            &[
                Word::Text(b"fresh"),
                Word::Number(extent.start),
                Word::Number(extent.len),
            ],
        ),
    }
}

/// Adds the table of `map` at the end of a text.
pub fn put_map(alloc: Global, text: &mut Vec<u8>, lines: &[MapLine]) -> Result<(), NoMemory>
    ensures { OnOk result (text.new.items ≡ text.old.items ++ (flat_map map_line lines.now ++ end_line)) }
{
    for line in lines {
        put_map_line(alloc, text, line)?;
    }
    put_end(alloc, text)
}

fn put_audit_line(alloc: Global, text: &mut Vec<u8>, l: &AuditLine) -> Result<(), NoMemory>
    ensures { OnOk result (text.new.items ≡ text.old.items ++ audit_line l.now) }
{
    put_line(
        alloc,
        text,
        &[
            Word::Text(b"dev"),
            Word::Number(u64::from(l.index)),
            Word::Text(b"walked"),
            Word::Number(l.walked),
            Word::Text(b"allocated"),
            Word::Number(l.allocated),
        ],
    )
}

/// Adds the table of `audit` at the end of a text.
pub fn put_audit(alloc: Global, text: &mut Vec<u8>, lines: &[AuditLine]) -> Result<(), NoMemory>
    ensures { OnOk result (text.new.items ≡ text.old.items ++ (flat_map audit_line lines.now ++ end_line)) }
{
    for line in lines {
        put_audit_line(alloc, text, line)?;
    }
    put_end(alloc, text)
}

fn put_open(alloc: Global, text: &mut Vec<u8>, s: &StatusLines) -> Result<(), NoMemory>
    ensures { OnOk result (text.new.items ≡ text.old.items ++ open_line s.now) }
{
    put_line(
        alloc,
        text,
        &[
            Word::Text(b"open"),
            Word::Text(s.name.as_slice()),
            Word::Number(s.guid),
            Word::Text(b"txg"),
            Word::Number(s.txg),
        ],
    )
}

fn put_removal(
    alloc: Global,
    text: &mut Vec<u8>,
    removal: &Option<(u32, u64)>,
) -> Result<(), NoMemory>
    ensures { OnOk result (text.new.items ≡ text.old.items ++ removal_line removal.now) }
{
    match removal {
        None => put_line(alloc, text, &[Word::Text(b"removal"), Word::Text(b"none")]),
        Some((device, left)) => put_line(
            alloc,
            text,
            &[
                Word::Text(b"removal"),
                Word::Number(u64::from(*device)),
                Word::Text(b"left"),
                Word::Number(*left),
            ],
        ),
    }
}

fn put_checkpoint(alloc: Global, text: &mut Vec<u8>, checkpoint: &CkptLine) -> Result<(), NoMemory>
    ensures { OnOk result (text.new.items ≡ text.old.items ++ checkpoint_line checkpoint.now) }
{
    match checkpoint {
        CkptLine::Clear => put_line(
            alloc,
            text,
            &[Word::Text(b"checkpoint"), Word::Text(b"none")],
        ),
        CkptLine::Held(txg) => put_line(
            alloc,
            text,
            &[Word::Text(b"checkpoint"), Word::Number(*txg)],
        ),
        CkptLine::Discarding(units) => put_line(
            alloc,
            text,
            &[Word::Text(b"discarding"), Word::Number(*units)],
        ),
    }
}

fn put_condense(
    alloc: Global,
    text: &mut Vec<u8>,
    condense: &Option<(u32, u64, u64)>,
) -> Result<(), NoMemory>
    ensures { OnOk result (text.new.items ≡ text.old.items ++ condense_line condense.now) }
{
    match condense {
        None => put_line(alloc, text, &[Word::Text(b"condense"), Word::Text(b"none")]),
        Some((device, at, entries)) => put_line(
            alloc,
            text,
            &[
                Word::Text(b"condense"),
                Word::Number(u64::from(*device)),
                Word::Text(b"at"),
                Word::Number(*at),
                Word::Text(b"of"),
                Word::Number(*entries),
            ],
        ),
    }
}

fn put_room(alloc: Global, text: &mut Vec<u8>, s: &StatusLines) -> Result<(), NoMemory>
    ensures { OnOk result (text.new.items ≡ text.old.items ++ room_line s.now) }
{
    put_line(
        alloc,
        text,
        &[
            Word::Text(b"room"),
            Word::Number(s.free),
            Word::Text(b"owed"),
            Word::Number(s.owed),
            Word::Text(b"slop"),
            Word::Number(s.slop),
        ],
    )
}

/// Adds the table of `status` at the end of a text.
pub fn put_status(alloc: Global, text: &mut Vec<u8>, s: &StatusLines) -> Result<(), NoMemory>
    ensures { OnOk result (text.new.items ≡ text.old.items ++ (status_text s.now ++ end_line)) }
{
    put_open(alloc, text, s)?;
    put_removal(alloc, text, &s.removal)?;
    put_checkpoint(alloc, text, &s.checkpoint)?;
    put_condense(alloc, text, &s.condense)?;
    put_room(alloc, text, s)?;
    put_end(alloc, text)
}
