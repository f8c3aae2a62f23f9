//! The rows of the devices in an uberblock: 32 rows of 32 bytes, zeros where there is no device.
//!
//! Reading a row never fails: what it reads is spelled again with the whole block and compared.
ghost use Rattle.std.specs.Prelude.{◌≡◌, length, map};
ghost use Rattle.std.specs.List.{list_all, list_any};
ghost use Rattle.zr_label.specs.Blocks.{row_words, row_bytes, state_number, most_units, is_going, is_row, is_no_row};
ghost use Rattle.zr_rules.specs.Places.{is_on};
ghost use Rattle.zr_label.specs.Fields.{state_of, row_fields, table_fields};

use byteorder::{ByteOrder, LittleEndian};
use zr_base::{DevRow, DevState};
use zr_bptr::word_at;

/// A row behind the last device.
pub const NO_ROW: DevRow = DevRow {
    state: DevState::On,
    added: 0,
    units: 0,
    gone: 0,
};

fn state_number(state: DevState) -> u64
    ensures { result ≡ state_number state }
{
    match state {
        DevState::On => 1,
        DevState::Leaving => 2,
        DevState::Gone => 3,
    }
}

fn row_words(r: &DevRow) -> [u64; 4]
    ensures { result ≡ row_words r.now }
{
    if r.added == 0 {
        [0; 4]
    } else {
        [state_number(r.state), r.added, r.units, r.gone]
    }
}

#[tactic(auto, unfolding(crate::specs::Blocks::row_bytes))]
pub fn row_bytes(r: &DevRow) -> [u8; 32]
    ensures { result ≡ row_bytes r.now }
{
    let mut bytes = [0; 32];
    LittleEndian::write_u64_into(&row_words(r), &mut bytes);
    bytes
}

/// The state with a number, `On` where there is none.
fn state_of(number: u64) -> DevState
    ensures { result ≡ state_of number }
{
    if number == 2 {
        DevState::Leaving
    } else if number == 3 {
        DevState::Gone
    } else {
        DevState::On
    }
}

/// What stands in the places of a row.
#[tactic(auto, unfolding(crate::specs::Fields::row_fields))]
fn row_fields(piece: &[u8]) -> DevRow
    requires { length piece.now ≡ 32 }
    ensures { result ≡ row_fields piece.now }
{
    DevRow {
        state: state_of(word_at(piece, 0)),
        added: word_at(piece, 8),
        units: word_at(piece, 16),
        gone: word_at(piece, 24),
    }
}

fn rows_of(pieces: &[[u8; 32]]) -> [DevRow; 32]
    requires { length pieces.now ≡ 32 }
    ensures { result ≡ map row_fields pieces.now }
{
    let mut rows = [NO_ROW; 32];
    for (i, piece) in pieces.iter().enumerate() {
        rows[i] = row_fields(piece);
    }
    rows
}

/// What stands in the places of the rows.
pub fn rows_at(bytes: &[u8]) -> [DevRow; 32]
    requires { length bytes.now ≡ 1024 }
    ensures { result ≡ table_fields bytes.now }
{
    let (pieces, _) = bytes.as_chunks::<32>();
    rows_of(pieces)
}

fn most_units(version: u64) -> u64
    ensures { result ≡ most_units version }
{
    if version == 1 { 4193152 } else { 33553280 }
}

fn is_going(r: &DevRow, txg: u64) -> bool
    ensures { result ≡ is_going r.now.state r.now.added r.now.gone txg }
{
    match r.state {
        DevState::Gone => r.added < r.gone && r.gone <= txg,
        _ => r.gone == 0,
    }
}

fn is_row(version: u64, txg: u64, r: &DevRow) -> bool
    ensures { result ≡ is_row version txg r.now }
{
    1 <= r.added
        && r.added <= txg
        && 896 <= r.units
        && r.units <= most_units(version)
        && is_going(r, txg)
}

fn is_on(r: &DevRow) -> bool
    ensures { result ≡ is_on r.now.state }
{
    match r.state {
        DevState::On => true,
        _ => false,
    }
}

fn is_no_row(r: &DevRow) -> bool
    ensures { result ≡ is_no_row r.now }
{
    is_on(r) && r.added == 0 && r.units == 0 && r.gone == 0
}

/// Whether all are rows of devices in a root of the version and group.
pub fn are_devices(version: u64, txg: u64, rows: &[DevRow]) -> bool
    ensures { result ≡ list_all (is_row version txg) rows.now }
{
    rows.iter().all(|r| is_row(version, txg, r))
}

/// Whether one of the devices is in service.
pub fn is_one_on(rows: &[DevRow]) -> bool
    ensures { result ≡ list_any (λ r. is_on r.state) rows.now }
{
    rows.iter().any(|r| is_on(r))
}

/// Whether all are rows behind the last device.
pub fn are_no_rows(rows: &[DevRow]) -> bool
    ensures { result ≡ list_all is_no_row rows.now }
{
    rows.iter().all(|r| is_no_row(r))
}
