//! A store in memory of four units, until it is full.
use std::test::Fail;
use zr_base::Dva;
use zr_bptr::{Bptr, Ptr, encode_block};
use zr_store::{Blocks, MemBlocks, StoreErr};

#[test]
fn blocks_come_and_go(rt: HostRuntime) -> Result<(), Fail> {
    let alloc = rt.alloc();
    let mut store = MemBlocks::new(alloc, 4);
    let zeros = Vec::from_slice(alloc, &[0; 8192])?;
    let a = store.put(alloc, &zeros[..4096], 0)?;
    assert_eq!(rt; &a.sum[..4], [0xad, 0x7f, 0xac, 0xb2].as_slice());
    let b = store.put(alloc, &zeros[..8192], 0)?;
    assert_eq!(rt; (b.at.start, b.at.len, b.fill), (1, 2, 1));
    let refused = store.put(alloc, &zeros[..8192], 0);
    assert_eq!(rt;
        refused,
        Err(StoreErr::NoRun {
            needed: 2,
            longest: 1
        })
    );
    assert_eq!(rt; store.get(alloc, &b)?.len(), 8192);
    store.free(alloc, &b)?;
    assert_eq!(rt; store.get(alloc, &a)?.len(), 4096);
    let past = Dva { start: 3, ..b.at };
    let sum_of_nothing = zr_bptr::sum_of(b"");
    for (pointer, error) in [
        (
            b,
            StoreErr::Damaged {
                at: b.at,
                expected: b.sum,
                found: sum_of_nothing,
            },
        ),
        (
            Bptr { at: past, ..b },
            StoreErr::Unresolved {
                at: past,
                expected: b.sum,
            },
        ),
        (
            Bptr { sum: b.sum, ..a },
            StoreErr::Damaged {
                at: a.at,
                expected: b.sum,
                found: a.sum,
            },
        ),
    ] {
        assert_eq!(rt; store.get(alloc, &pointer).err(), Some(error));
    }
    Ok(())
}
