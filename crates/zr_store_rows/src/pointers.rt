//! Spellings as the manual tells them, and values that come back.
ghost use Rattle.std.specs.Prelude.{◌<◌};

use std::test::Fail;
use zr_base::Dva;
use zr_bptr::{
    Bptr, ObjRec, Ptr, Tree, decode, decode_block, decode_records, encode, encode_block,
    encode_records, is_pointer, sum_of,
};

fn leaf(birth: u64) -> Bptr {
    Bptr {
        at: Dva {
            dev: 1,
            start: 7,
            len: 1,
        },
        level: 0,
        birth,
        fill: 1,
        sum: [9; 32],
    }
}

#[test]
fn sum_of_nothing(rt: HostRuntime) {
    let sum = sum_of(b"");
    assert_eq!(rt; &sum[..4], [0xe3, 0xb0, 0xc4, 0x42].as_slice());
    assert_eq!(rt; &sum[28..], [0x78, 0x52, 0xb8, 0x55].as_slice());
}

#[test]
fn bytes_of_a_leaf(rt: HostRuntime) {
    let b = leaf(5);
    assert!(rt; is_pointer(&b));
    let bytes = encode(&Ptr::At(b));
    assert_eq!(rt; &bytes[..8], [8, 0, 0, 0, 1, 0, 0, 0].as_slice());
    assert_eq!(rt; &bytes[8..16], [0x38, 0, 0, 0, 0, 0, 0, 0].as_slice());
    assert_eq!(rt; &bytes[48..56], [7, 0, 7, 0, 2, 8, 0, 0x80].as_slice());
    assert_eq!(rt; decode(&bytes), Some(Ptr::At(b)));
    let mut other = bytes;
    other[16] = 1;
    assert_eq!(rt; decode(&other), None);
    assert_eq!(rt; decode(&[0; 128]), Some(Ptr::Hole));
}

#[test]
fn blocks_come_back(rt: HostRuntime) -> Result<(), Fail> {
    let alloc = rt.alloc();
    let b = leaf(5);
    assert!(rt; is_pointer(&b));
    let mut bytes = Vec::from_slice(alloc, &[0; 4096])?;
    assert!(rt; decode_block(alloc, 0, 0, bytes.as_slice())?.is_none());
    assert!(rt; decode_records(alloc, bytes.as_slice())?.is_some());
    for (at, byte) in encode(&Ptr::At(b)).iter().enumerate() {
        bytes[128 + at] = *byte;
    }
    let read = decode_block(alloc, 0, 1, bytes.as_slice())?.ok_or("a block")?;
    let again = encode_block(alloc, 0, read.as_slice())?;
    assert_eq!(rt; again.as_slice(), bytes.as_slice());
    assert_eq!(rt; read.len(), 32);
    assert_eq!(rt; read[1], Ptr::At(b));
    assert!(rt; decode_block(alloc, 0, 2, bytes.as_slice())?.is_none());
    assert!(rt; decode_block(alloc, 1, 1, bytes.as_slice())?.is_none());
    assert!(rt; decode_records(alloc, bytes.as_slice())?.is_none());
    Ok(())
}

#[test]
fn what_is_written_is_spelled(rt: HostRuntime) -> Result<(), Fail> {
    let alloc = rt.alloc();
    let mut bytes = Vec::from_slice(alloc, &[0; 4096])?;
    bytes[8] = 3;
    assert!(rt; decode_records(alloc, bytes.as_slice())?.is_none());
    bytes[0] = 4;
    let read = decode_records(alloc, bytes.as_slice())?.ok_or("a leaf")?;
    let tree = Tree {
        root: Ptr::Hole,
        height: 3,
    };
    assert_eq!(rt; read.len(), 16);
    assert_eq!(rt; read[0], Some(ObjRec { units: 4, tree }));
    let again = encode_records(alloc, read.as_slice())?;
    assert_eq!(rt; again.as_slice(), bytes.as_slice());
    let mut pointer = [0; 4096];
    pointer[..128].copy_from_slice(&encode(&Ptr::Hole));
    assert!(rt; decode_block(alloc, 4, 1, &pointer)?.is_none());
    Ok(())
}

// Whether the bytes are no pointer once one of them is another.
fn is_none_with(bytes: &[u8; 128], at: usize, byte: u8) -> bool
    requires { at < 128 }
{
    let mut other = *bytes;
    other[at] = byte;
    decode(&other).is_none()
}

#[test]
fn no_pointers(rt: HostRuntime) {
    let b = leaf(5);
    assert!(rt; is_pointer(&b));
    let bytes = encode(&Ptr::At(b));
    // the length in sectors, its high bits, the bits above the device, the place in sectors, the gang bit
    let address = [(0, 9), (0, 0), (3, 1), (7, 1), (8, 0x39), (15, 0x80)];
    // the words of other copies, of padding and of the physical birth
    let unused = [
        (16, 1),
        (24, 1),
        (32, 1),
        (40, 1),
        (56, 1),
        (64, 1),
        (72, 1),
    ];
    // both lengths, the compression, the embedded bit, the sum's kind, the type, level 6, two bits and the byte order
    let properties = [
        (48, 6),
        (50, 6),
        (52, 3),
        (52, 0x82),
        (53, 7),
        (54, 1),
        (55, 0x86),
        (55, 0xa0),
        (55, 0xc0),
        (55, 0),
    ];
    // born in no group, no leaf below it, two leaves in a leaf
    let counts = [(80, 0), (88, 0), (88, 2)];
    for (at, byte) in address {
        assert!(rt; at < 128 && is_none_with(&bytes, at, byte));
    }
    for (at, byte) in unused {
        assert!(rt; at < 128 && is_none_with(&bytes, at, byte));
    }
    for (at, byte) in properties {
        assert!(rt; at < 128 && is_none_with(&bytes, at, byte));
    }
    for (at, byte) in counts {
        assert!(rt; at < 128 && is_none_with(&bytes, at, byte));
    }
    let mut three_units = bytes;
    three_units[0] = 24;
    three_units[48] = 23;
    three_units[50] = 23;
    assert_eq!(rt; decode(&three_units), None);
}
