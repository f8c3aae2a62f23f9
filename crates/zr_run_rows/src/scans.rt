//! A slot in memory, as it is written and scanned.
ghost use Rattle.std.specs.Prelude.{◌≡◌};

use std::alloc::Global;
use std::process::Abort;
use std::test::Fail;
use zr_base::{DevRow, DevState, Dva};
use zr_bptr::{Bptr, Ptr};
use zr_label::{Label, NO_ROW, Name, Newer, Seen, Uber, is_name, is_uber, label_at, units_of_size};
use zr_scan::{ScanErr, clear_rings, put_label, put_uber, scan};
use zr_shelf::{Desk, MemDesk, Shelf};

fn name() -> Name {
    let mut bytes = [0; 63];
    bytes[0] = b'p';
    Name { len: 1, bytes }
}

fn label() -> Label {
    Label {
        guid: 7,
        index: 0,
        added: 1,
        units: 896,
        name: name(),
    }
}

// A root of one device, that of the label.
fn root(txg: u64) -> Uber {
    let at = Dva {
        dev: 0,
        start: 7,
        len: 1,
    };
    let leaf = Bptr {
        at,
        level: 0,
        birth: 1,
        fill: 1,
        sum: [9; 32],
    };
    let mut rows = [NO_ROW; 32];
    rows[0] = DevRow {
        state: DevState::On,
        added: 1,
        units: 896,
        gone: 0,
    };
    Uber {
        version: 2,
        txg,
        guid: 7,
        len: 8,
        count: 1,
        reset: 0,
        root: Ptr::At(leaf),
        rows,
        name: name(),
    }
}

// A desk whose slot 0 has so many zeros, or what the file has.
fn desk_of(alloc: Global, size: u64, rt: &impl Abort) -> MemDesk {
    let mut desk = MemDesk::new(alloc, Vec::new(alloc), Vec::new(alloc));
    assert!(rt; desk.attach("a", Some(size)) == Ok(0));
    desk
}

fn put_at(desk: &mut MemDesk, at: u64, bytes: &[u8], rt: &impl Abort) {
    assert!(rt; desk.slots() == 1);
    let size = desk.size(0);
    assert!(rt; at <= size && bytes.len() as u64 <= size - at);
    assert!(rt; desk.write(0, at, bytes) == Ok(()));
}

fn part_at(desk: &mut MemDesk, at: u64, rt: &impl Abort) -> [u8; 4096] {
    let mut out = [0; 4096];
    assert!(rt; desk.slots() == 1);
    let size = desk.size(0);
    assert!(rt; at <= size && 4096 <= size - at);
    assert!(rt; desk.read(0, at, &mut out) == Ok(()));
    out
}

fn label_block(l: Label, rt: &impl Abort) -> [u8; 4096] {
    assert!(rt; l.guid != 0 && l.index < 32 && l.added != 0 && is_name(&l.name));
    l.encode()
}

fn root_block(u: &Uber, rt: &impl Abort) -> [u8; 4096] {
    assert!(rt; is_uber(u));
    u.encode()
}

fn label_slot(desk: &mut MemDesk, l: Label, rt: &impl Abort) {
    assert!(rt; desk.slots() == 1 && units_of_size(desk.size(0), 2).is_some());
    assert!(rt; l.guid != 0 && l.index < 32 && l.added != 0 && is_name(&l.name));
    for n in 0..4 {
        assert!(rt; desk.slots() == 1 && units_of_size(desk.size(0), 2).is_some());
        assert!(rt; put_label(desk, 0, n, &l) == Ok(()));
    }
}

fn put_root(desk: &mut MemDesk, first: u32, u: &Uber, rt: &impl Abort) {
    assert!(rt; desk.slots() == 1 && units_of_size(desk.size(0), 2).is_some());
    assert!(rt; first < 2 && is_uber(u));
    assert!(rt; put_uber(desk, 0, first, u) == Ok(()));
}

fn clear(alloc: Global, desk: &mut MemDesk, rt: &impl Abort) {
    assert!(rt; desk.slots() == 1 && units_of_size(desk.size(0), 2).is_some());
    assert!(rt; clear_rings(alloc, desk, 0) == Ok(()));
}

fn seen_of(alloc: Global, desk: &mut MemDesk, rt: &impl Abort) -> Seen {
    assert!(rt; desk.slots() == 1);
    scan(alloc, desk, 0).expect(rt, "no fault")
}

#[test]
fn what_was_put_is_seen(rt: HostRuntime) {
    let alloc = rt.alloc();
    let mut desk = desk_of(alloc, 8388608, &rt);
    label_slot(&mut desk, label(), &rt);
    put_root(&mut desk, 0, &root(33), &rt);
    put_root(&mut desk, 1, &root(34), &rt);
    for at in [0, 262144, 7864320, 8126464] {
        assert!(rt; part_at(&mut desk, at + 16384, &rt) == label_block(label(), &rt));
    }
    // group 33 stands in slot 1 of labels 0 and 2, group 34 in slot 2 of labels 1 and 3
    for at in [0, 7864320] {
        assert!(rt; part_at(&mut desk, at + 131072 + 4096, &rt) == root_block(&root(33), &rt));
        assert!(rt; part_at(&mut desk, at + 131072 + 8192, &rt) == [0; 4096]);
    }
    for at in [262144, 8126464] {
        assert!(rt; part_at(&mut desk, at + 131072 + 8192, &rt) == root_block(&root(34), &rt));
    }
    let seen = seen_of(alloc, &mut desk, &rt);
    assert!(rt; seen.label == Some(label()));
    assert!(rt; seen.ubers.as_slice() == [root(33), root(34), root(33), root(34)].as_slice());
    assert!(rt; seen.newer == None);
    clear(alloc, &mut desk, &rt);
    let seen = seen_of(alloc, &mut desk, &rt);
    assert!(rt; seen.label == Some(label()) && seen.ubers.is_empty());
}

#[test]
fn blocks_that_show_nothing(rt: HostRuntime) {
    let alloc = rt.alloc();
    let mut desk = desk_of(alloc, 8388608, &rt);
    put_root(&mut desk, 0, &root(33), &rt);
    // without a label
    let seen = seen_of(alloc, &mut desk, &rt);
    assert!(rt; seen.label == None && seen.ubers.is_empty());
    label_slot(&mut desk, label(), &rt);
    let mut other_pool = root(40);
    other_pool.guid = 8;
    let mut added_later = root(41);
    added_later.rows[0].added = 2;
    let mut gone = root(42);
    gone.count = 2;
    gone.rows[1] = gone.rows[0];
    gone.rows[0].state = DevState::Gone;
    gone.rows[0].gone = 5;
    for u in [other_pool, added_later, gone] {
        put_root(&mut desk, 1, &u, &rt);
    }
    // the root of group 36 stands in slot 3
    put_at(
        &mut desk,
        131072 + 3 * 4096,
        &root_block(&root(36), &rt),
        &rt,
    );
    let seen = seen_of(alloc, &mut desk, &rt);
    assert!(rt; seen.label == Some(label()));
    assert!(rt; seen.ubers.as_slice() == [root(33), root(33)].as_slice());
}

// A root of version 3 of the label's pool.
fn unknown(txg: u8) -> [u8; 4096] {
    let mut block = [0; 4096];
    block[..8].copy_from_slice(b"zr-uber1");
    block[8] = 3;
    block[16] = txg;
    block[24] = 7;
    let sum = zr_bptr::sum_of(&block[..4064]);
    block[4064..].copy_from_slice(&sum);
    block
}

#[test]
fn the_newest_of_an_unknown_version(rt: HostRuntime) {
    let alloc = rt.alloc();
    let mut desk = desk_of(alloc, 8388608, &rt);
    label_slot(&mut desk, label(), &rt);
    put_at(&mut desk, 131072 + 8 * 4096, &unknown(40), &rt);
    put_at(&mut desk, 262144 + 131072 + 10 * 4096, &unknown(42), &rt);
    put_at(&mut desk, 7864320 + 131072 + 9 * 4096, &unknown(41), &rt);
    // group 50 does not stand in slot 5
    put_at(&mut desk, 131072 + 5 * 4096, &unknown(50), &rt);
    let seen = seen_of(alloc, &mut desk, &rt);
    assert!(rt; seen.ubers.is_empty());
    let newest = Newer {
        version: 3,
        txg: 42,
    };
    assert!(rt; seen.newer == Some(newest));
}

#[test]
fn the_first_label_that_names_the_units(rt: HostRuntime) {
    let alloc = rt.alloc();
    // the end of a larger disk is not used
    let mut desk = desk_of(alloc, 8400000, &rt);
    let mut larger = label();
    larger.units = 897;
    put_at(&mut desk, 16384, &label_block(larger, &rt), &rt);
    let mut second = label();
    second.added = 2;
    put_at(&mut desk, 262144 + 16384, &label_block(second, &rt), &rt);
    put_at(&mut desk, 8126464 + 16384, &label_block(label(), &rt), &rt);
    let seen = seen_of(alloc, &mut desk, &rt);
    assert!(rt; seen.label == Some(second));
}

#[test]
fn a_disk_that_is_too_small(rt: HostRuntime) {
    let alloc = rt.alloc();
    let mut desk = desk_of(alloc, 8388607, &rt);
    put_at(&mut desk, 16384, &label_block(label(), &rt), &rt);
    let before = desk.moment();
    let seen = seen_of(alloc, &mut desk, &rt);
    assert!(rt; seen.label == None && seen.ubers.is_empty() && seen.newer == None);
    assert!(rt; desk.moment() == before);
}

#[test]
fn a_fault_is_told(rt: HostRuntime) -> Result<(), Fail> {
    let alloc = rt.alloc();
    // the third write of a label fails, and then the read of the second ring
    let mut desk = MemDesk::new(alloc, Vec::new(alloc), [4, 7].to_vec(alloc)?);
    assert!(rt; desk.attach("a", Some(8388608)) == Ok(0));
    assert!(rt; desk.slots() == 1 && units_of_size(desk.size(0), 2).is_some());
    let l = label();
    assert!(rt; l.guid != 0 && l.index < 32 && l.added != 0 && is_name(&l.name));
    assert!(rt; put_label(&mut desk, 0, 3, &l) == Ok(()));
    assert!(rt; desk.slots() == 1 && units_of_size(desk.size(0), 2).is_some());
    assert!(rt; put_label(&mut desk, 0, 2, &l) == Ok(()));
    assert!(rt; desk.slots() == 1 && units_of_size(desk.size(0), 2).is_some());
    assert!(rt; put_label(&mut desk, 0, 1, &l) == Err(ScanErr::Failed));
    assert!(rt; desk.slots() == 1);
    assert!(rt; matches!(scan(alloc, &mut desk, 0), Err(ScanErr::Failed)));
    assert!(rt; desk.disk_faults == 2);
    Ok(())
}
