//! Two blocks in a cache of two, and a third.
use std::alloc::Global;
use std::test::Fail;
use zr_base::{Dva, Extent, NoMemory};
use zr_bptr::{Bptr, sum_of};
use zr_cache::Cache;
use zr_imap::Piece;

fn pointer(start: u64) -> Bptr {
    Bptr {
        at: Dva {
            dev: 0,
            start,
            len: 2,
        },
        level: 0,
        birth: 1,
        fill: 1,
        sum: [0; 32],
    }
}

fn run(dev: u32, start: u64) -> Piece {
    Piece {
        split: 0,
        dev,
        at: Extent { start, len: 2 },
    }
}

// Caches a block of one byte that stands in two units of device 1.
fn keep(
    cache: &mut Cache,
    alloc: Global,
    start: u64,
    byte: u8,
    unit: u64,
) -> Result<Bptr, NoMemory> {
    let bytes = Vec::from_slice(alloc, &[byte])?;
    let b = Bptr {
        sum: sum_of(bytes.as_slice()),
        ..pointer(start)
    };
    let runs = Vec::from_slice(alloc, &[run(1, unit)])?;
    cache.put(&b, bytes, runs)?;
    Ok(b)
}

// Whether the pointer is cached with the one byte.
fn has(cache: &mut Cache, alloc: Global, b: &Bptr, byte: u8) -> Result<bool, NoMemory> {
    let found = cache.get(alloc, b)?;
    Ok(found.is_some_and(|bytes| bytes.as_slice() == [byte].as_slice()))
}

#[test]
fn the_least_recent_block_goes(rt: HostRuntime) -> Result<(), Fail> {
    let alloc = rt.alloc();
    let mut cache = Cache::new(alloc, 2)?;
    let a = keep(&mut cache, alloc, 0, 1, 10)?;
    let b = keep(&mut cache, alloc, 2, 2, 12)?;
    assert!(rt; has(&mut cache, alloc, &a, 1)?);
    let c = keep(&mut cache, alloc, 4, 3, 14)?;
    assert!(rt; !has(&mut cache, alloc, &b, 2)?);
    cache.forget_run(&run(0, 10));
    cache.forget_run(&run(1, 12));
    assert!(rt; has(&mut cache, alloc, &a, 1)?);
    cache.forget_run(&run(1, 11));
    assert!(rt; !has(&mut cache, alloc, &a, 1)?);
    assert!(rt; has(&mut cache, alloc, &c, 3)?);
    cache.forget(&c);
    assert!(rt; !has(&mut cache, alloc, &c, 3)?);
    let d = keep(&mut cache, alloc, 6, 4, 16)?;
    cache.clear();
    assert!(rt; cache.get(alloc, &d)?.is_none());
    Ok(())
}
