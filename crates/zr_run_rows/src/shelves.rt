use std::alloc::Global;
use std::process::Abort;
use std::test::Fail;
use zr_base::NoMemory;
use zr_shelf::{Desk, DeskErr, DiskFile, MemDesk, Shelf, SureDesk};

// A write, where the disk has the range.
fn write_at(desk: &mut MemDesk, slot: u32, at: u64, bytes: &[u8]) -> Result<(), DeskErr> {
    if slot >= desk.slots() || at > desk.size(slot) || bytes.len() as u64 > desk.size(slot) - at {
        return Err(DeskErr::Failed);
    }
    desk.write(slot, at, bytes)
}

// The four bytes of a disk.
fn four_of(desk: &mut MemDesk, slot: u32) -> Option<[u8; 4]> {
    let mut out = [0u8; 4];
    if slot >= desk.slots() || desk.size(slot) != 4 {
        return None;
    }
    match desk.read(slot, 0, &mut out) {
        Ok(()) => Some(out),
        Err(_) => None,
    }
}

// Seven calls: two disks are attached, each is written, the second write fails; after a flush the first is written
// again, and read.
fn two_disks(alloc: Global, rt: &impl Abort) -> Result<MemDesk, NoMemory> {
    let mut desk = MemDesk::new(alloc, Vec::new(alloc), [9, 4].to_vec(alloc)?);
    desk.put_disk("a", [1, 2, 3, 4].to_vec(alloc)?)?;
    desk.put_disk("b", [5, 6, 7, 8].to_vec(alloc)?)?;
    assert!(rt; desk.attach("a", None) == Ok(0));
    assert!(rt; desk.attach("b", Some(9)) == Ok(1));
    assert!(rt; write_at(&mut desk, 0, 0, &[11, 12]) == Ok(()));
    assert!(rt; write_at(&mut desk, 1, 1, &[21, 22, 23]) == Err(DeskErr::Failed));
    assert!(rt; desk.flush() == Ok(()));
    assert!(rt; write_at(&mut desk, 0, 2, &[31, 32]) == Ok(()));
    assert!(rt; four_of(&mut desk, 0) == Some([11, 12, 31, 32]));
    Ok(desk)
}

// Whether the image is the files a and b with these bytes.
fn is_pair(image: &[DiskFile], a: &[u8], b: &[u8]) -> bool {
    match image {
        [first, second] => {
            first.path.as_str() == "a"
                && second.path.as_str() == "b"
                && first.bytes.as_slice() == a
                && second.bytes.as_slice() == b
        }
        _ => false,
    }
}

#[derive(Drop)]
struct Row {
    moment: u64,
    choice: [u8; 2],
    a: [u8; 4],
    b: [u8; 4],
}

fn expected(moment: u64, choice: [u8; 2], a: [u8; 4], b: [u8; 4]) -> Row {
    Row {
        moment,
        choice,
        a,
        b,
    }
}

#[test]
fn each_image_is_the_one_reckoned_by_hand(rt: HostRuntime) -> Result<(), Fail> {
    let alloc = rt.alloc();
    let desk = two_disks(alloc, &rt)?;
    assert_eq!(rt; desk.moment(), 7);
    assert_eq!(rt; desk.disk_faults, 1);
    let rows = [
        expected(0, [1, 1], [1, 2, 3, 4], [5, 6, 7, 8]),
        expected(1, [1, 1], [1, 2, 3, 4], [5, 6, 7, 8]),
        expected(2, [1, 1], [1, 2, 3, 4], [5, 6, 7, 8]),
        expected(3, [0, 1], [1, 2, 3, 4], [5, 6, 7, 8]),
        expected(3, [1, 1], [11, 12, 3, 4], [5, 6, 7, 8]),
        expected(3, [2, 1], [11, 2, 3, 4], [5, 6, 7, 8]),
        expected(4, [0, 0], [1, 2, 3, 4], [5, 6, 7, 8]),
        expected(4, [0, 1], [1, 2, 3, 4], [5, 21, 22, 23]),
        expected(4, [0, 2], [1, 2, 3, 4], [5, 21, 7, 8]),
        expected(4, [1, 0], [11, 12, 3, 4], [5, 6, 7, 8]),
        expected(4, [1, 1], [11, 12, 3, 4], [5, 21, 22, 23]),
        expected(4, [1, 2], [11, 12, 3, 4], [5, 21, 7, 8]),
        expected(4, [2, 0], [11, 2, 3, 4], [5, 6, 7, 8]),
        expected(4, [2, 1], [11, 2, 3, 4], [5, 21, 22, 23]),
        expected(4, [2, 2], [11, 2, 3, 4], [5, 21, 7, 8]),
        expected(4, [3, 1], [1, 2, 3, 4], [5, 21, 22, 23]),
        expected(5, [1, 1], [11, 12, 3, 4], [5, 6, 7, 8]),
        expected(6, [0, 1], [11, 12, 3, 4], [5, 6, 7, 8]),
        expected(6, [1, 1], [11, 12, 31, 32], [5, 6, 7, 8]),
        expected(7, [2, 1], [11, 12, 31, 4], [5, 6, 7, 8]),
        expected(99, [2, 1], [11, 12, 31, 4], [5, 6, 7, 8]),
    ];
    for r in &rows {
        let image = desk.image_at(r.moment, &r.choice)?;
        assert!(rt; is_pair(&image, &r.a, &r.b), "at {}", r.moment);
    }
    Ok(())
}

#[test]
fn an_image_is_a_start(rt: HostRuntime) -> Result<(), Fail> {
    let alloc = rt.alloc();
    let desk = two_disks(alloc, &rt)?;
    let image = desk.image_at(6, &[2])?;
    let mut again = MemDesk::reopen(alloc, image, [7].to_vec(alloc)?)?;
    assert!(rt; again.attach("b", None) == Ok(0));
    assert!(rt; again.attach("a", None) == Ok(1));
    assert!(rt; four_of(&mut again, 1) == Some([11, 12, 31, 4]));
    assert!(rt; again.attach("c", None) == Err(DeskErr::Failed));
    assert!(rt; again.attach("c", Some(4)) == Ok(2));
    assert!(rt; four_of(&mut again, 2) == Some([0, 0, 0, 0]));
    assert_eq!(rt; again.attach_faults, 1);
    Ok(())
}

#[test]
fn the_input_is_taken_in_pieces(rt: HostRuntime) -> Result<(), Fail> {
    let alloc = rt.alloc();
    let mut desk = SureDesk::new(alloc, [1, 2, 3].to_vec(alloc)?);
    let mut out = [0u8; 2];
    assert!(rt; desk.take(&mut out) == Ok(2));
    assert_eq!(rt; out, [1, 2]);
    assert!(rt; desk.give(b"ab") == Ok(()));
    assert!(rt; desk.take(&mut out) == Ok(1));
    assert_eq!(rt; out, [3, 2]);
    assert!(rt; desk.take(&mut out) == Ok(0));
    assert!(rt; desk.give(b"c") == Ok(()));
    assert_eq!(rt; desk.sent(), b"abc".as_slice());
    assert!(rt; desk.attach("new", None) == Ok(0));
    assert_eq!(rt; desk.size(0), 0);
    assert_eq!(rt; desk.moment(), 6);
    Ok(())
}
