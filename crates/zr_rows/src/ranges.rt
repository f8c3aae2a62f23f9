//! Sets of units, as lists of extents.
use std::test::Fail;
use zr_base::Extent;
use zr_ranges::RangeSet;

#[test]
fn runs_join_and_split(rt: HostRuntime) -> Result<(), Fail> {
    let mut set = RangeSet::new(rt.alloc());
    set.add(Extent { start: 5, len: 3 })?;
    set.add(Extent { start: 8, len: 2 })?;
    set.remove(Extent { start: 6, len: 1 })?;
    assert_eq!(rt;
        set.extents(),
        [Extent { start: 5, len: 1 }, Extent { start: 7, len: 3 }].as_slice()
    );
    assert_eq!(rt; set.units(), 4);
    assert_eq!(rt; set.longest(), 3);
    assert_eq!(rt; set.first_from(8), Some(Extent { start: 8, len: 2 }));
    assert_eq!(rt; set.first_from(10), None);
    assert!(rt; set.covers(Extent { start: 7, len: 3 }));
    assert_eq!(rt; set.take_front(9), Extent { start: 5, len: 1 });
    set.reserve(2)?;
    set.add_reserved(Extent { start: 20, len: 1 });
    set.remove_reserved(Extent { start: 20, len: 1 });
    assert_eq!(rt; set.extents(), [Extent { start: 7, len: 3 }].as_slice());
    Ok(())
}

#[test]
fn room_below_the_first_run_is_used_again(rt: HostRuntime) -> Result<(), Fail> {
    let mut set = RangeSet::new(rt.alloc());
    set.add(Extent { start: 1, len: 2 })?;
    set.add(Extent { start: 5, len: 2 })?;
    set.drop_front(1);
    assert_eq!(rt; set.units(), 2);
    let low = Extent { start: 0, len: 4 };
    assert!(rt; set.is_apart(low));
    set.add(low)?;
    assert_eq!(rt;
        set.extents(),
        [low, Extent { start: 5, len: 2 }].as_slice()
    );
    set.drop_front(9);
    assert!(rt; set.extents().is_empty());
    Ok(())
}

#[test]
fn front_of_a_middle_run(rt: HostRuntime) -> Result<(), Fail> {
    let mut set = RangeSet::new(rt.alloc());
    set.add(Extent { start: 1, len: 2 })?;
    set.add(Extent { start: 9, len: 6 })?;
    assert!(rt; set.extents().len() == 2);
    assert_eq!(rt; set.take_from(1, 4), Extent { start: 9, len: 4 });
    assert_eq!(rt;
        set.extents(),
        [Extent { start: 1, len: 2 }, Extent { start: 13, len: 2 }].as_slice()
    );
    set.clear();
    assert_eq!(rt; set.units(), 0);
    Ok(())
}
