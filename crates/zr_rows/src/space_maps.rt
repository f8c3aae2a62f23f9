//! Words of space maps, and the sets that they stand for.
ghost use Rattle.std.specs.Prelude.{◌≡◌, ◌<◌, true, false};
ghost use Rattle.zr_base.specs.declared.space.Change.{Change};

use std::test::Fail;
use zr_base::{Change, Extent};
use zr_ranges::RangeSet;
use zr_smap::{changes_of, condensed, needs_anew, replay, words_of};

fn change(free: bool, start: u64, len: u64) -> Change
    ensures { result ≡ record { free = free; at = record { start = start; len = len } } }
{
    Change {
        free,
        at: Extent { start, len },
    }
}

#[test]
fn a_set_is_spelled_and_read_back(rt: HostRuntime) -> Result<(), Fail> {
    let alloc = rt.alloc();
    let changes = [change(false, 5, 3), change(true, 6, 1)];
    let words = words_of(alloc, &changes, 1, 0)?;
    assert_eq!(rt; words.as_slice(), [327_682, 425_984].as_slice());
    let Some(back) = changes_of(alloc, words.as_slice(), 1, 0)? else {
        panic!(rt; "no changes")
    };
    assert_eq!(rt; back.as_slice(), changes.as_slice());
    let Some(set) = replay(alloc, &changes)? else {
        panic!(rt; "no set")
    };
    assert_eq!(rt;
        set.extents(),
        [Extent { start: 5, len: 1 }, Extent { start: 7, len: 1 }].as_slice()
    );
    Ok(())
}

#[test]
fn a_unit_is_not_taken_twice(rt: HostRuntime) -> Result<(), Fail> {
    let twice = [change(false, 5, 3), change(false, 7, 1)];
    assert!(rt; replay(rt.alloc(), &twice)?.is_none());
    Ok(())
}

#[test]
fn a_long_word_is_no_entry_of_version_1(rt: HostRuntime) -> Result<(), Fail> {
    assert!(rt; changes_of(rt.alloc(), &[1 << 63], 1, 0)?.is_none());
    Ok(())
}

#[test]
fn long_runs_are_cut_by_the_version(rt: HostRuntime) -> Result<(), Fail> {
    let alloc = rt.alloc();
    let mut small = RangeSet::new(alloc);
    small.add(Extent { start: 5, len: 1 })?;
    small.add(Extent { start: 7, len: 1 })?;
    assert_eq!(rt;
        condensed(alloc, &small, 1, 0)?.as_slice(),
        [327_680, 458_752].as_slice()
    );
    let mut long = RangeSet::new(alloc);
    long.add(Extent {
        start: 100,
        len: 40_000,
    })?;
    assert_eq!(rt;
        condensed(alloc, &long, 1, 3)?.as_slice(),
        [6_586_367, 2_154_044_479].as_slice()
    );
    assert_eq!(rt;
        condensed(alloc, &long, 2, 3)?.as_slice(),
        [13_835_058_726_354_026_499, 100].as_slice()
    );
    assert!(rt; needs_anew(512, 3, 1));
    assert!(rt; !needs_anew(512, 2, 1));
    Ok(())
}
