//! A run on the disk of the third device.
use std::test::Fail;
use zr_base::Extent;
use zr_imap::Piece;
use zr_shelf::{Desk, Shelf, SureDesk};
use zr_view::{place_of_unit, read_runs, write_run};

const BYTES: u64 = 8388608;

#[test]
fn what_was_written_is_read(rt: HostRuntime) -> Result<(), Fail> {
    let alloc = rt.alloc();
    assert_eq!(rt; place_of_unit(7), 4222976);
    let mut desk = SureDesk::new(alloc, Vec::new(alloc));
    let slot = desk.attach("a", Some(BYTES))?;
    assert_eq!(rt; (slot, desk.size(0)), (0, BYTES));
    let slots = [None, None, Some(0)];
    let run = Piece {
        split: 0,
        dev: 2,
        at: Extent { start: 7, len: 2 },
    };
    write_run(&mut desk, &slots, &run, &[5; 8192])?;
    let mut out = [9; 8192];
    read_runs(&mut desk, &slots, &[run], &mut out)?;
    assert_eq!(rt; (out[0], out[8191]), (5, 5));
    let mut raw = [9; 2];
    desk.read(0, 4222975, &mut raw)?;
    assert_eq!(rt; raw, [0, 5]);
    Ok(())
}
