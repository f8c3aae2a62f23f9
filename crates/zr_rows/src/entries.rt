//! Two mappings whose look-ups are known.
ghost use Rattle.std.specs.Prelude.{◌≡◌, ◌<◌};

use std::marker::Brand;
use std::sync::ledger::{Blank, Ledger};
use std::test::Fail;
use zr_base::{Entry, Extent};
use zr_imap::{
    Imap, Piece, Steps, decode_entry, encode_entry, gap_in, image_of, is_writable, pieces,
};

fn find<L: Ledger>(map: &Imap, u: u64, blank: Blank) -> Option<usize>
    requires name { blank.name ≡ L.name }
    requires parts { blank.parts ≡ L.parts }
    requires some { 0 < L.parts }
{
    let mut steps: Steps<L> = Steps::open(blank);
    map.find(u, &mut steps)
}

#[test]
fn two_entries(rt: HostRuntime) -> Result<(), Fail> {
    let mut map = Imap::new(rt.alloc());
    map.reserve(1)?;
    map.push_reserved(Entry {
        src: 10,
        dev: 1,
        dst: 7,
        len: 3,
    });
    map.push(Entry {
        src: 13,
        dev: 2,
        dst: 0,
        len: 2,
    })?;
    assert_eq!(rt; map.len(), 2);
    assert_eq!(rt; map.entry(1).src, 13);
    assert_eq!(rt; find::<Brand>(&map, 11, Blank::new(1)), Some(0));
    assert_eq!(rt; find::<Brand>(&map, 15, Blank::new(1)), None);
    let both = image_of(rt.alloc(), &map, Extent { start: 11, len: 4 })?.ok_or("no pieces")?;
    let first = Piece {
        split: 0,
        dev: 1,
        at: Extent { start: 8, len: 2 },
    };
    let second = Piece {
        split: 2,
        dev: 2,
        at: Extent { start: 0, len: 2 },
    };
    assert_eq!(rt; both.as_slice(), [first, second].as_slice());
    let missing = image_of(rt.alloc(), &map, Extent { start: 14, len: 2 })?;
    assert!(rt; missing.is_none());
    assert_eq!(rt; gap_in(&map, Extent { start: 14, len: 2 }), 15);
    Ok(())
}

#[test]
fn bytes_of_an_entry(rt: HostRuntime) {
    let e = Entry {
        src: 10,
        dev: 1,
        dst: 7,
        len: 3,
    };
    assert!(rt; is_writable(&e));
    let bytes = encode_entry(&e);
    assert_eq!(rt; &bytes[..8], [0x50, 0, 0, 0, 0, 0, 0, 0].as_slice());
    assert_eq!(rt; &bytes[8..16], [0x18, 0, 0, 0, 1, 0, 0, 0].as_slice());
    assert_eq!(rt; &bytes[16..], [0x38, 0, 0, 0, 0, 0, 0, 0].as_slice());
    assert_eq!(rt; decode_entry(&bytes), Some(e));
    let mut odd = bytes;
    odd[0] = 0x51;
    assert_eq!(rt; decode_entry(&odd), None);
    let mut high = bytes;
    high[7] = 0x80;
    assert_eq!(rt; decode_entry(&high), None);
}
