//! Streams in memory: three leaves below one block, none for no words, and a head.
use std::test::Fail;
use zr_bptr::{Ptr, Tree};
use zr_root::{
    append, read_bytes, read_root, read_stream, stream_units, units_of, write_bytes, write_root,
    write_stream,
};
use zr_store::{MemBlocks, StoreErr};
use zr_tree::set_all;

// The SHA-256 of the words 0 to 511, eight bytes each, the lowest first.
const FIRST_LEAF: [u8; 32] = [
    0x57, 0x38, 0x15, 0x3e, 0xc9, 0x75, 0x95, 0xb1, 0xc1, 0xe4, 0xdc, 0x02, 0x7f, 0x7b, 0x7f, 0xb4,
    0x53, 0x4f, 0x19, 0xed, 0x2c, 0xe9, 0xf9, 0xee, 0x71, 0x2e, 0x6d, 0x34, 0xa3, 0x84, 0xcd, 0xe7,
];

#[test]
fn words_are_read_back(rt: HostRuntime) -> Result<(), Fail> {
    let alloc = rt.alloc();
    for n in [0, 1, 511, 512, 513, 20000] {
        let mut ns = Vec::new(alloc);
        for k in 0..n {
            ns.push(k)?;
        }
        if ns.len() > 20000 {
            return Err(Fail::new("too many words"));
        }
        let mut store = MemBlocks::new(alloc, 64);
        let s = write_stream(alloc, &mut store, ns.as_slice())?;
        let back = read_stream(alloc, &mut store, &s)?;
        assert_eq!(rt; back.as_slice(), ns.as_slice());
        if n >= 512 {
            if store.kept.len() == 0 {
                return Err(Fail::new("no leaf"));
            }
            assert_eq!(rt; store.kept[0].at.sum, FIRST_LEAF);
        }
    }
    Ok(())
}

#[test]
fn padding_is_checked(rt: HostRuntime) -> Result<(), Fail> {
    let alloc = rt.alloc();
    let mut store = MemBlocks::new(alloc, 8);
    let t = write_bytes(alloc, &mut store, &[7; 4096])?;
    assert_eq!(rt; read_bytes(alloc, &mut store, &t, 4096)?.len(), 4096);
    if let Ptr::At(b) = t.root {
        let bad = read_bytes(alloc, &mut store, &t, 4095);
        assert_eq!(rt;
            bad.err(),
            Some(StoreErr::Malformed {
                at: b.at,
                expected: b.sum
            })
        );
    }
    let two = write_bytes(alloc, &mut store, &[7; 8192])?;
    if store.kept.len() != 4 {
        return Err(Fail::new("not four blocks"));
    }
    let last = store.kept[2].at;
    let bad = read_bytes(alloc, &mut store, &two, 8191);
    assert_eq!(rt;
        bad.err(),
        Some(StoreErr::Malformed {
            at: last.at,
            expected: last.sum
        })
    );
    Ok(())
}

#[test]
fn a_hole_within_is_told(rt: HostRuntime) -> Result<(), Fail> {
    let alloc = rt.alloc();
    let mut store = MemBlocks::new(alloc, 8);
    let two = write_bytes(alloc, &mut store, &[7; 8192])?;
    let holed = set_all(alloc, &mut store, &two, &[(0, Ptr::Hole)])?;
    let Ptr::At(root) = &holed.root else {
        return Err(Fail::new("no block"));
    };
    if two.height != 1 || holed.height != 1 || root.at.len != 1 {
        return Err(Fail::new("not one block above the leaves"));
    }
    let bad = read_bytes(alloc, &mut store, &holed, 8192);
    assert!(rt; matches!(bad, Err(StoreErr::Malformed { .. })));
    Ok(())
}

#[test]
fn words_stand_in_leaves(rt: HostRuntime) -> Result<(), Fail> {
    let alloc = rt.alloc();
    let mut store = MemBlocks::new(alloc, 8);
    let mut ns = Vec::new(alloc);
    for n in 0..1300 {
        ns.push(n)?;
    }
    if ns.len() != 1300 {
        return Err(Fail::new("not so many words"));
    }
    let s = write_stream(alloc, &mut store, ns.as_slice())?;
    assert_eq!(rt; (s.words, s.tree.height, store.next), (1300, 1, 4));
    if store.kept.len() != 4 || store.kept[2].bytes.len() != 4096 {
        return Err(Fail::new("not four blocks"));
    }
    let last = &store.kept[2].bytes;
    assert_eq!(rt;
        &last[2200..2210],
        [0x13, 0x05, 0, 0, 0, 0, 0, 0, 0, 0].as_slice()
    );
    let at = stream_units(alloc, &mut store, &s)?;
    if at.len() != 4 {
        return Err(Fail::new("not four addresses"));
    }
    assert_eq!(rt; (at[0].start, at[1].start, at[3].start), (3, 0, 2));
    Ok(())
}

#[test]
fn no_words_are_a_hole(rt: HostRuntime) -> Result<(), Fail> {
    let alloc = rt.alloc();
    let mut store = MemBlocks::new(alloc, 8);
    let s = write_stream(alloc, &mut store, &[])?;
    assert_eq!(rt;
        s.tree,
        Tree {
            root: Ptr::Hole,
            height: 0
        }
    );
    assert_eq!(rt; store.next, 0);
    assert_eq!(rt; stream_units(alloc, &mut store, &s)?.len(), 0);
    Ok(())
}

#[test]
fn a_head_and_no_room(rt: HostRuntime) -> Result<(), Fail> {
    let alloc = rt.alloc();
    let mut store = MemBlocks::new(alloc, 3);
    let root = write_root(alloc, &mut store, &[7; 4104])?;
    match root {
        Ptr::Hole => assert!(rt; false),
        Ptr::At(b) => assert_eq!(rt; (b.at.start, b.level, b.fill), (2, 1, 2)),
    }
    assert_eq!(rt; read_root(alloc, &mut store, &root, 4104)?.len(), 4104);
    assert_eq!(rt; units_of(alloc, &mut store, &root, 4104)?.len(), 3);
    let t = write_bytes(alloc, &mut store, &[7; 8]);
    assert_eq!(rt;
        t.err(),
        Some(StoreErr::NoRun {
            needed: 1,
            longest: 0
        })
    );
    Ok(())
}

#[test]
fn words_are_appended(rt: HostRuntime) -> Result<(), Fail> {
    let alloc = rt.alloc();
    let mut store = MemBlocks::new(alloc, 16);
    let mut ns = Vec::new(alloc);
    for n in 0..516 {
        ns.push(n)?;
    }
    let all = ns.as_slice();
    if all.len() != 516 {
        return Err(Fail::new("not so many words"));
    }
    let three = write_stream(alloc, &mut store, &all[..3])?;
    let five = append(alloc, &mut store, &three, &all[3..5])?;
    let s = append(alloc, &mut store, &five, &all[5..])?;
    assert_eq!(rt; (s.words, s.tree.height, store.kept.len()), (516, 1, 3));
    let back = read_stream(alloc, &mut store, &s)?;
    assert_eq!(rt; back.as_slice(), all);
    Ok(())
}
