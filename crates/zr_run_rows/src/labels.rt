//! Places on a disk as the manual tells them, and labels and roots that come back.
ghost use Rattle.std.specs.Prelude.{◌<◌};

use std::test::Fail;
use zr_base::{DevRow, DevState, Dva};
use zr_bptr::{Bptr, Ptr, sum_of};
use zr_label::{
    Label, NO_ROW, Name, Newer, Uber, best, is_uber, label_at, newer_of, slot_of, units_of_size,
};

#[test]
fn places_on_a_disk(rt: HostRuntime) {
    for size in [8388608, 8400000] {
        assert_eq!(rt; units_of_size(size, 1), Some(896));
    }
    assert_eq!(rt; units_of_size(67108864, 2), Some(15232));
    assert_eq!(rt; units_of_size(8388607, 1), None);
    assert_eq!(rt; units_of_size(17179869184, 1), Some(4193152));
    assert_eq!(rt; units_of_size(17180131328, 1), None);
    assert_eq!(rt; units_of_size(137438953472, 2), Some(33553280));
    assert_eq!(rt; units_of_size(137439215616, 2), None);
    assert_eq!(rt; (label_at(8400000, 0), label_at(8400000, 1)), (0, 262144));
    assert_eq!(rt;
        (label_at(8400000, 2), label_at(8400000, 3)),
        (7864320, 8126464)
    );
    assert_eq!(rt; (slot_of(32), slot_of(33)), (0, 1));
}

#[test]
fn labels_come_back(rt: HostRuntime) -> Result<(), Fail> {
    let mut bytes = [0; 63];
    bytes[0] = b'p';
    let label = Label {
        guid: 1,
        index: 0,
        added: 1,
        units: 896,
        name: Name { len: 1, bytes },
    };
    let mut block = label.encode();
    assert_eq!(rt; &block[..8], b"zr-label".as_slice());
    assert_eq!(rt;
        &block[40..50],
        [0x80, 3, 0, 0, 0, 0, 0, 0, 1, b'p'].as_slice()
    );
    assert_eq!(rt; Label::decode(&block), Some(label));
    block[200] = 1;
    assert_eq!(rt; Label::decode(&block), None);
    assert_eq!(rt; Label::decode(&[0; 4096]), None);
    Ok(())
}

#[test]
fn the_newest_root(rt: HostRuntime) {
    let mut root = Uber {
        version: 2,
        txg: 7,
        guid: 1,
        len: 8,
        count: 1,
        reset: 1,
        root: Ptr::Hole,
        rows: [NO_ROW; 32],
        name: Name {
            len: 0,
            bytes: [0; 63],
        },
    };
    let old = root;
    root.txg = 9;
    assert_eq!(rt; best(&[old, root, old]), Some(root));
    assert_eq!(rt; best(&[]), None);
}

#[test]
fn a_root_of_another_version(rt: HostRuntime) {
    let mut block = [0; 4096];
    block[..8].copy_from_slice(b"zr-uber1");
    block[8] = 3;
    block[16] = 40;
    block[24] = 5;
    let sum = zr_bptr::sum_of(&block[..4064]);
    block[4064..].copy_from_slice(&sum);
    let newer = Newer {
        version: 3,
        txg: 40,
    };
    assert_eq!(rt; newer_of(&block, 5), Some(newer));
    assert_eq!(rt; newer_of(&block, 6), None);
    block[8] = 2;
    assert_eq!(rt; newer_of(&block, 5), None);
}

fn root_of_two_devices() -> Uber {
    let at = Dva {
        dev: 1,
        start: 7,
        len: 1,
    };
    let leaf = Bptr {
        at,
        level: 0,
        birth: 7,
        fill: 1,
        sum: [9; 32],
    };
    let mut rows = [NO_ROW; 32];
    rows[0] = DevRow {
        state: DevState::On,
        added: 1,
        units: 896,
        gone: 0,
    };
    rows[1] = DevRow {
        state: DevState::Gone,
        added: 2,
        units: 33553280,
        gone: 6,
    };
    let mut bytes = [0; 63];
    bytes[0] = b'p';
    Uber {
        version: 2,
        txg: 7,
        guid: 1,
        len: 8,
        count: 2,
        reset: 5,
        root: Ptr::At(leaf),
        rows,
        name: Name { len: 1, bytes },
    }
}

#[test]
fn roots_come_back(rt: HostRuntime) {
    let root = root_of_two_devices();
    assert!(rt; is_uber(&root));
    let mut block = root.encode();
    assert_eq!(rt; &block[..10], b"zr-uber1\x02\0".as_slice());
    assert_eq!(rt; &block[40..50], [2, 0, 0, 0, 0, 0, 0, 0, 5, 0].as_slice());
    assert_eq!(rt; &block[272..276], [0x80, 3, 0, 0].as_slice());
    assert_eq!(rt; &block[288..297], [3, 0, 0, 0, 0, 0, 0, 0, 2].as_slice());
    assert_eq!(rt; &block[1280..1283], [1, b'p', 0].as_slice());
    assert_eq!(rt; &block[4064..4068], [3, 217, 226, 250].as_slice());
    assert_eq!(rt; &block[4092..], [217, 22, 155, 78].as_slice());
    assert_eq!(rt; Uber::decode(&block), Some(root));
    block[4095] = 79;
    assert_eq!(rt; Uber::decode(&block), None);
    assert_eq!(rt; Uber::decode(&[0; 4096]), None);
}

// Puts the sum of the others into the last 32 bytes.
fn seal(block: &mut [u8; 4096]) {
    let sum = sum_of(&block[..4064]);
    block[4064..].copy_from_slice(&sum);
}

/// A byte of the block is another, and the sum is right.
fn changed(block: &[u8; 4096], at: usize, byte: u8) -> [u8; 4096]
    requires { at < 4064 }
{
    let mut other = *block;
    other[at] = byte;
    seal(&mut other);
    other
}

#[test]
fn no_roots(rt: HostRuntime) {
    let root = root_of_two_devices();
    assert!(rt; is_uber(&root));
    let block = root.encode();
    let mut longer = root;
    longer.len = 16;
    assert_eq!(rt; Uber::decode(&changed(&block, 32, 16)), Some(longer));
    // version 3, a device too large for version 1, a group before the last reset, padding
    assert_eq!(rt; Uber::decode(&changed(&block, 8, 3)), None);
    assert_eq!(rt; Uber::decode(&changed(&block, 8, 1)), None);
    assert_eq!(rt; Uber::decode(&changed(&block, 16, 4)), None);
    assert_eq!(rt; Uber::decode(&changed(&block, 120, 1)), None);
    // 4,104 bytes need a tree of height 1
    assert_eq!(rt; Uber::decode(&changed(&block, 33, 16)), None);
    // no device in service, a state without a meaning, a device gone too late, a state where there is no device
    assert_eq!(rt; Uber::decode(&changed(&block, 256, 2)), None);
    assert_eq!(rt; Uber::decode(&changed(&block, 288, 4)), None);
    assert_eq!(rt; Uber::decode(&changed(&block, 312, 8)), None);
    assert_eq!(rt; Uber::decode(&changed(&block, 320, 1)), None);
    // a byte behind the name
    assert_eq!(rt; Uber::decode(&changed(&block, 1282, 1)), None);
}

#[test]
fn no_labels(rt: HostRuntime) {
    let mut bytes = [0; 63];
    bytes[0] = b'p';
    let label = Label {
        guid: 1,
        index: 0,
        added: 1,
        units: 896,
        name: Name { len: 1, bytes },
    };
    let block = label.encode();
    let mut last = label;
    last.index = 31;
    assert_eq!(rt; Label::decode(&changed(&block, 24, 31)), Some(last));
    // the magic, the version, no guid, an index past the last, high bytes of it, added by no group
    let fields = [(0, b'y'), (8, 2), (16, 0), (24, 32), (28, 1), (32, 0)];
    // a name of 64 bytes, one behind its end, and padding at its front and end
    let padding = [(48, 64), (50, 1), (111, 1), (112, 1), (4063, 1)];
    for (at, byte) in fields {
        assert!(rt; at < 4064 && Label::decode(&changed(&block, at, byte)).is_none());
    }
    for (at, byte) in padding {
        assert!(rt; at < 4064 && Label::decode(&changed(&block, at, byte)).is_none());
    }
    let mut torn = block;
    torn[4095] ^= 1;
    assert_eq!(rt; Label::decode(&torn), None);
}
