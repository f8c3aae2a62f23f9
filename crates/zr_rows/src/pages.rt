//! Sets of units in pages.
use std::test::Fail;
use zr_base::{Extent, NoMemory};
use zr_paged::{PagedSet, UnitSet};
use zr_ranges::RangeSet;

#[test]
fn units_go_from_the_front_and_the_middle(rt: HostRuntime) -> Result<(), Fail> {
    let mut set = PagedSet::new(rt.alloc());
    set.push_first(Extent { start: 9, len: 4 })?;
    set.push_first(Extent { start: 2, len: 3 })?;
    set.reserve(1)?;
    set.remove_reserved(Extent { start: 10, len: 1 });
    assert_eq!(rt; set.units(), 6);
    assert_eq!(rt; set.take_front(9), Extent { start: 2, len: 3 });
    assert_eq!(rt; set.first(), Some(Extent { start: 9, len: 1 }));
    Ok(())
}

// Each second of the first 140 units: in pages the highest 64 of them, from 12 up, and below these 6.
fn each_second(rt: &HostRuntime) -> Result<RangeSet, NoMemory> {
    let mut set = RangeSet::new(rt.alloc());
    for k in 0..70 {
        set.add(Extent {
            start: 2 * k,
            len: 1,
        })?;
    }
    Ok(set)
}

#[test]
fn runs_join_across_two_pages(rt: HostRuntime) -> Result<(), Fail> {
    let even = each_second(&rt)?;
    let between = Extent { start: 11, len: 1 };
    assert!(rt; even.is_apart(between));
    let mut set = PagedSet::of(rt.alloc(), &even)?;
    set.reserve(1)?;
    set.add_reserved(between);
    assert_eq!(rt; set.units(), 71);
    assert_eq!(rt; set.first_from(9), Some(Extent { start: 10, len: 3 }));
    assert_eq!(rt; set.first_from(13), Some(Extent { start: 14, len: 1 }));
    assert_eq!(rt; set.first_from(139), None);
    let all = set.to_set()?;
    assert_eq!(rt; all.extents().len(), 69);
    assert!(rt; all.covers(Extent { start: 10, len: 3 }));
    Ok(())
}

#[test]
fn a_set_goes_over_into_one_array_and_back(rt: HostRuntime) -> Result<(), Fail> {
    let even = each_second(&rt)?;
    let between = Extent { start: 11, len: 1 };
    let lowest = Extent { start: 0, len: 1 };
    let mut set = UnitSet::of(rt.alloc(), &even)?;
    assert!(rt; set.is_apart(between));
    set.reserve(10_000)?;
    set.add_reserved(between);
    assert_eq!(rt; set.first_from(9), Some(Extent { start: 10, len: 3 }));
    assert!(rt; set.covers(lowest));
    set.renew()?;
    set.remove_reserved(lowest);
    assert!(rt; !set.is_empty());
    assert_eq!(rt; set.first(), Some(Extent { start: 2, len: 1 }));
    assert_eq!(rt; set.units(), 70);
    let all = set.to_set()?;
    assert_eq!(rt; all.extents().len(), 68);
    Ok(())
}

#[test]
fn words_are_those_of_all_pages(rt: HostRuntime) -> Result<(), Fail> {
    let even = each_second(&rt)?;
    let set = UnitSet::of(rt.alloc(), &even)?;
    assert!(rt; set.units() < 1 << 40);
    assert_eq!(rt; set.words(1), 70);
    assert_eq!(rt; set.words(2), 70);
    Ok(())
}
