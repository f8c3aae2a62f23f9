//! Whether two roots are the same in each field.
//!
//! Two roots of one group that differ anywhere show that the disks went apart, so roots are compared as values.
ghost use Rattle.std.specs.Prelude.{◌≡◌, ◌≢◌, length, IsTrue, IsFalse};
ghost use Rattle.zr_slots.specs.Checks.{HasNumbersOf};

use zr_base::{DevRow, Dva};
use zr_bptr::{Bptr, Ptr};
use zr_label::{Name, Uber};

fn is_same_address(a: &Dva, b: &Dva) -> bool
    ensures same { IsTrue result → a.now ≡ b.now }
    ensures other { IsFalse result → a.now ≢ b.now }
{
    a.dev == b.dev && a.start == b.start && a.len == b.len
}

fn is_same_block(a: &Bptr, b: &Bptr) -> bool
    ensures same { IsTrue result → a.now ≡ b.now }
    ensures other { IsFalse result → a.now ≢ b.now }
{
    is_same_address(&a.at, &b.at)
        && a.level == b.level
        && a.birth == b.birth
        && a.fill == b.fill
        && a.sum == b.sum
}

fn is_same_pointer(a: &Ptr, b: &Ptr) -> bool
    ensures same { IsTrue result → a.now ≡ b.now }
    ensures other { IsFalse result → a.now ≢ b.now }
{
    match (a, b) {
        (Ptr::Hole, Ptr::Hole) => true,
        (Ptr::At(x), Ptr::At(y)) => is_same_block(x, y),
        (Ptr::Hole, Ptr::At(_)) | (Ptr::At(_), Ptr::Hole) => false,
    }
}

fn is_same_row(a: &DevRow, b: &DevRow) -> bool
    ensures same { IsTrue result → a.now ≡ b.now }
    ensures other { IsFalse result → a.now ≢ b.now }
{
    a.state == b.state && a.added == b.added && a.units == b.units && a.gone == b.gone
}

pub fn are_same_rows(a: &[DevRow], b: &[DevRow]) -> bool
    requires { length a.now ≡ length b.now }
    ensures same { IsTrue result → a.now ≡ b.now }
    ensures other { IsFalse result → a.now ≢ b.now }
{
    for i in 0..a.len() {
        if !is_same_row(&a[i], &b[i]) {
            return false;
        }
    }
    true
}

fn is_same_name(a: &Name, b: &Name) -> bool
    ensures same { IsTrue result → a.now ≡ b.now }
    ensures other { IsFalse result → a.now ≢ b.now }
{
    a.len == b.len && a.bytes == b.bytes
}

/// The numbers of two roots.
fn are_same_numbers(a: &Uber, b: &Uber) -> bool
    ensures same { IsTrue result → HasNumbersOf a.now b.now }
    ensures other { IsFalse result → a.now ≢ b.now }
{
    a.version == b.version
        && a.txg == b.txg
        && a.guid == b.guid
        && a.len == b.len
        && a.count == b.count
        && a.reset == b.reset
}

/// Whether two roots are the same in each field.
pub fn is_same(a: &Uber, b: &Uber) -> bool
    ensures same { IsTrue result → a.now ≡ b.now }
    ensures other { IsFalse result → a.now ≢ b.now }
{
    are_same_numbers(a, b)
        && is_same_pointer(&a.root, &b.root)
        && are_same_rows(&a.rows, &b.rows)
        && is_same_name(&a.name, &b.name)
}
