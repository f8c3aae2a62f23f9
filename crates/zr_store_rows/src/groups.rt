//! A group of two objects and three blocks, and what its limit allows.
use std::test::Fail;
use zr_base::Dva;
use zr_bptr::{Bptr, ObjRec, Ptr, Tree};
use zr_txg::Group;

fn at(start: u64) -> Ptr {
    Ptr::At(Bptr {
        at: Dva {
            dev: 0,
            start,
            len: 1,
        },
        level: 0,
        birth: 7,
        fill: 1,
        sum: [0; 32],
    })
}

fn object(units: u32) -> Option<ObjRec> {
    Some(ObjRec {
        units,
        tree: Tree {
            root: Ptr::Hole,
            height: 0,
        },
    })
}

fn change(group: &mut Group, id: u32, index: u64, start: u64) -> Result<(), Fail> {
    if let Some(Some(_)) = group.object(id) {
        group.change(id, index, at(start))?;
    }
    Ok(())
}

#[test]
fn two_objects_and_three_blocks(rt: HostRuntime) -> Result<(), Fail> {
    let mut group = Group::new(rt.alloc(), 7);
    assert_eq!(rt; group.txg(), 7);
    assert_eq!(rt; group.object(9), None);
    group.record_object(9, object(2))?;
    group.record_object(4, object(1))?;
    for (id, index, start) in [(9, 5, 10), (9, 3, 11), (4, 8, 12), (9, 5, 13)] {
        change(&mut group, id, index, start)?;
    }
    assert_eq!(rt; group.blocks(), 3);
    assert_eq!(rt; group.objects(), 2);
    assert_eq!(rt; group.find(9, 5), Some(at(13)));
    assert_eq!(rt; group.find(4, 5), None);
    assert_eq!(rt; group.changes(9), [(3, at(11)), (5, at(13))].as_slice());
    assert_eq!(rt; group.object(4), Some(object(1)));
    group.record_object(9, None)?;
    assert_eq!(rt; group.object(9), Some(None));
    assert_eq!(rt; group.changes(9).len(), 0);
    assert_eq!(rt; (group.blocks(), group.objects()), (1, 2));
    if group.objects() == 2 {
        assert_eq!(rt; (group.id_at(0), group.id_at(1)), (4, 9));
    }
    group.clear();
    assert_eq!(rt; (group.txg(), group.blocks(), group.objects()), (7, 0, 0));
    Ok(())
}

#[test]
fn sixty_four_of_each(rt: HostRuntime) -> Result<(), Fail> {
    let mut group = Group::new(rt.alloc(), 1);
    assert!(rt; group.fits(64, 64));
    assert!(rt; !group.fits(65, 0));
    assert!(rt; !group.fits(0, 65));
    assert!(rt; !group.fits(u64::MAX, 1));
    for id in 0..63 {
        group.record_object(id, None)?;
    }
    assert!(rt; group.fits(64, 1));
    assert!(rt; !group.fits(0, 2));
    Ok(())
}
