//! Heads that come back, a head that another program wrote with the words of its streams, heads that are none, and words
//! that record nothing.
ghost use Rattle.std.specs.Prelude.{◌≡◌, ◌≤◌, ◌+◌, ◌^◌, IfOk, sum_by};

use byteorder::{ByteOrder, LittleEndian};
use std::alloc::Global;
use std::test::Fail;
use zr_base::{Blob, CkptPart, DevRow, DevState, Dva, Extent, Items, LateRun, NoMemory};
use zr_bptr::{Bptr, Ptr, Tree};
use zr_meta::{
    CondAt, DevWords, Head, MetaErr, PartsErr, Stream, decode_head, encode_head, is_head, part_of,
    parts_of,
};

const fn row(state: DevState) -> DevRow {
    DevRow {
        state,
        added: 1,
        units: 896,
        gone: 0,
    }
}

/// The words of the head of a pool on one device, as another program wrote them, without the zeros.
const WRITTEN: [(usize, u64); 40] = [
    (0, 0x32646165682d727a),
    (4, 0x8),
    (5, 0x10),
    (10, 0x8000080200070007),
    (14, 0x2),
    (15, 0x1),
    (16, 0x2bc8e64f01ab1193),
    (17, 0x24ea1e78b0e2b17),
    (18, 0x20905748024de290),
    (19, 0x883fea970a30002d),
    (21, 0x1),
    (22, 0x8),
    (23, 0x18),
    (28, 0x8000080200070007),
    (32, 0x2),
    (33, 0x1),
    (34, 0xff8f2ff30e75f920),
    (35, 0x9922eaf9035ad261),
    (36, 0x8efb500028a635e5),
    (37, 0xf6b1ddd61cd8caf8),
    (55, 0x1),
    (56, 0x8),
    (57, 0x30),
    (62, 0x8000080200070007),
    (66, 0x3),
    (67, 0x1),
    (68, 0x8f293b632647fffa),
    (69, 0x9c1da3918abac3a2),
    (70, 0x84ce877a5b5ffdd9),
    (71, 0x99ffd0f3036083e4),
    (72, 0x1),
    (73, 0x8),
    (74, 0x38),
    (79, 0x8000080200070007),
    (83, 0x3),
    (84, 0x1),
    (85, 0x845404fad3efa1d),
    (86, 0xbfe8704d004b357e),
    (87, 0x4aa45cde7d0f2ee7),
    (88, 0x9929adcf8855bccd),
];

fn written(changed: (usize, u64)) -> [u8; 712] {
    let mut words = [0; 89];
    for (at, word) in WRITTEN {
        if at < 89 {
            words[at] = word;
        }
    }
    let (at, word) = changed;
    if at < 89 {
        words[at] = word;
    }
    let mut bytes = [0; 712];
    LittleEndian::write_u64_into(&words, &mut bytes);
    bytes
}

#[test]
fn what_another_program_wrote(rt: HostRuntime) -> Result<(), Fail> {
    let alloc = rt.alloc();
    let bytes = written((89, 0));
    let table = [row(DevState::On)];
    let h = decode_head(alloc, &bytes, &table)?;
    assert_eq!(rt; h.form, 2);
    assert_eq!(rt; h.ckpt, CkptPart::Clear);
    assert!(rt; h.saved.is_none());
    assert_eq!(rt; h.cond, None);
    assert_eq!(rt; h.dir.height, 0);
    let streams = h.streams.as_slice();
    assert_eq!(rt; streams.len(), 4);
    let starts = [Some(3), None, Some(6), Some(7)];
    for (s, start) in streams.iter().zip(starts) {
        let found = match &s.tree.root {
            Ptr::Hole => None,
            Ptr::At(b) => Some(b.at.start),
        };
        assert_eq!(rt; found, start);
        assert_eq!(rt; s.words, if start.is_some() { 1 } else { 0 });
    }
    let again = encode_head(alloc, &h, &table)?;
    assert_eq!(rt; again.as_slice(), bytes.as_slice());
    Ok(())
}

fn is_refused(alloc: Global, bytes: &[u8], table: &[DevRow]) -> bool {
    matches!(decode_head(alloc, bytes, table), Err(MetaErr::Grammar))
}

#[test]
fn heads_that_are_none(rt: HostRuntime) -> Result<(), Fail> {
    let alloc = rt.alloc();
    let table = [row(DevState::On)];
    let wrong = [
        (0, 0x3364_6165_682d_727a),
        (1, 1),
        (1, 2 + (1 << 32)),
        (1, 3),
        (2, 9),
        (3, 1),
        (3, 4),
        (3, 1 << 32),
        (4, 16),
        (14, 0),
        (20, 1),
        (20, 2),
        (21, 0),
        (21, 513),
        (22, 0),
        (38, 1),
        (67, 2),
    ];
    for (at, word) in wrong {
        assert!(rt;
            is_refused(alloc, &written((at, word)), &table),
            "word {at}"
        );
    }
    let bytes = written((89, 0));
    for state in [DevState::Leaving, DevState::Gone] {
        assert!(rt; is_refused(alloc, &bytes, &[row(state)]));
    }
    assert!(rt; is_refused(alloc, &bytes, &[]));
    let mut other = Vec::from_slice(alloc, &bytes)?;
    other.push(0)?;
    assert!(rt; is_refused(alloc, other.as_slice(), &table));
    for _ in 0..9 {
        let _byte = other.pop();
        assert!(rt; other.len() == 712 || is_refused(alloc, other.as_slice(), &table));
    }
    assert!(rt; is_refused(alloc, &[], &table));
    Ok(())
}

#[test]
fn a_saved_root_and_condensing(rt: HostRuntime) -> Result<(), Fail> {
    let alloc = rt.alloc();
    let hole = Tree {
        root: Ptr::Hole,
        height: 0,
    };
    let mut streams = Items::new(alloc);
    for _ in 0..7 {
        streams.push(Stream {
            words: 0,
            tree: hole,
        })?;
    }
    let h = Head {
        form: 1,
        dir: Tree {
            root: Ptr::Hole,
            height: 3,
        },
        saved: Some(Blob::copy_of(alloc, &[7; 4096])?),
        ckpt: CkptPart::Held(5),
        cond: Some(CondAt { dev: 1, at: 64 }),
        streams,
    };
    let table = [row(DevState::On), row(DevState::Gone)];
    if !is_head(&h, &table) {
        panic!(rt; "no head");
    }
    let bytes = encode_head(alloc, &h, &table)?;
    assert_eq!(rt; bytes.len(), 160 + 4096 + 24 + 7 * 136);
    let back = decode_head(alloc, bytes.as_slice(), &table)?;
    assert_eq!(rt; back.ckpt, h.ckpt);
    assert_eq!(rt; back.cond, h.cond);
    assert_eq!(rt; back.dir, h.dir);
    assert_eq!(rt; back.streams.as_slice(), h.streams.as_slice());
    assert!(rt;
        is_refused(
            alloc,
            bytes.as_slice(),
            &[row(DevState::Gone), row(DevState::Gone)]
        )
    );
    Ok(())
}

fn leaf() -> Ptr {
    Ptr::At(Bptr {
        at: Dva {
            dev: 0,
            start: 3,
            len: 1,
        },
        level: 0,
        birth: 2,
        fill: 1,
        sum: [9; 32],
    })
}

#[test]
fn what_the_streams_record(rt: HostRuntime) -> Result<(), Fail> {
    let alloc = rt.alloc();
    let one = Stream {
        words: 1,
        tree: Tree {
            root: leaf(),
            height: 0,
        },
    };
    let none = Stream {
        words: 0,
        tree: Tree {
            root: Ptr::Hole,
            height: 0,
        },
    };
    let streams = vec![in alloc; one, none, one, one]?;
    let h = Head {
        form: 2,
        dir: none.tree,
        saved: None,
        ckpt: CkptPart::Clear,
        cond: None,
        streams: Items::from_vec(streams),
    };
    let table = [DevRow {
        state: DevState::On,
        added: 1,
        units: 896,
        gone: 0,
    }];
    if !is_head(&h, &table) {
        panic!(rt; "no head");
    }
    let parts = parts_of(alloc, &h, &table, &[65_537, 294_913, 32_768], 2)?;
    assert_eq!(rt; parts.version, 2);
    assert!(rt; parts.cond.is_none());
    for p in parts.devs.as_slice() {
        assert_eq!(rt; p.held.as_slice(), [Extent { start: 1, len: 2 }].as_slice());
        assert!(rt; p.kept.is_empty());
        let late1 = LateRun {
            at: Extent { start: 4, len: 2 },
            meta: true,
        };
        assert_eq!(rt; p.late1.as_slice(), [late1].as_slice());
        let late2 = LateRun {
            at: Extent { start: 0, len: 1 },
            meta: true,
        };
        assert_eq!(rt; p.late2.as_slice(), [late2].as_slice());
    }
    Ok(())
}

/// What a unit of offset adds to a word of a log. A run of one unit adds nothing, and each further one adds 1.
const AT: u64 = 1 << 16;

/// What a word of a log has where it gives back, and a word of a late set where it is of metadata.
const FREE: u64 = 1 << 15;

/// The first word of a run of 40,000 units of device 0 in version 2.
const LONG: u64 = (3 << 62) + (39_999 << 24);

/// The second word of an entry: three units of device 1.
const THREE: u64 = (1 << 32) + 24;

/// The words of the streams of device 0, which leaves and has 40,128 units. Its late 2 has none.
#[derive(Clone, Copy)]
struct Case<'a> {
    version: u64,
    ckpt: CkptPart,
    held: &'a [u64],
    kept: &'a [u64],
    entries: &'a [u64],
    counts: &'a [u64],
    fresh: &'a [u64],
    late1: &'a [u64],
}

/// Words that break no rule: one entry, of which two units are obsolete.
const LAWFUL: Case<'static> = Case {
    version: 1,
    ckpt: CkptPart::Clear,
    held: &[],
    kept: &[],
    entries: &[80, THREE, 56],
    counts: &[2],
    fresh: &[],
    late1: &[],
};

fn items(alloc: Global, words: &[u64]) -> Result<Items<u64>, NoMemory> {
    let copy = Vec::from_slice(alloc, words)?;
    Ok(Items::from_vec(copy))
}

fn leaving(alloc: Global, case: &Case) -> Result<DevWords, NoMemory>
    ensures { IfOk result (λ w. w.row.units ≤ 2 ^ 36) }
{
    Ok(DevWords {
        row: DevRow {
            state: DevState::Leaving,
            added: 1,
            units: 40_128,
            gone: 0,
        },
        held: items(alloc, case.held)?,
        kept: items(alloc, case.kept)?,
        entries: items(alloc, case.entries)?,
        counts: items(alloc, case.counts)?,
        fresh: items(alloc, case.fresh)?,
        late1: items(alloc, case.late1)?,
        late2: Items::new(alloc),
    })
}

/// The rule that the words break, 0 where they break none.
fn broken(alloc: Global, case: &Case) -> Result<u8, NoMemory> {
    let words = leaving(alloc, case)?;
    let version = if case.version == 1 { 1 } else { 2 };
    match part_of(alloc, &words, case.ckpt, version, 0) {
        Ok(_) => Ok(0),
        Err(PartsErr::Rule(rule)) => Ok(rule),
        Err(PartsErr::NoMemory) => Err(NoMemory),
    }
}

#[test]
fn mappings_out_of_form(rt: HostRuntime) -> Result<(), Fail> {
    let alloc = rt.alloc();
    assert_eq!(rt; broken(alloc, &LAWFUL)?, 0);
    // A source, a length and a destination come in units, no bit stands beside them, and no length is 0.
    let wrong = [
        [84, THREE, 56],
        [(1 << 63) + 80, THREE, 56],
        [80, 1 << 32, 56],
        [80, THREE + 1, 56],
        [80, THREE + (1 << 24), 56],
        [80, THREE + (1 << 56), 56],
        [80, THREE, 57],
        [80, THREE, (1 << 63) + 56],
    ];
    for entry in &wrong {
        let case = Case {
            entries: entry,
            ..LAWFUL
        };
        assert_eq!(rt; broken(alloc, &case)?, 1);
    }
    let cases = [
        Case {
            entries: &[80, THREE],
            ..LAWFUL
        },
        Case {
            counts: &[],
            ..LAWFUL
        },
        Case {
            counts: &[2, 0],
            ..LAWFUL
        },
        Case {
            counts: &[1 << 32],
            ..LAWFUL
        },
        // The mapping is told before a log.
        Case {
            counts: &[1 << 32],
            held: &[AT, AT],
            ..LAWFUL
        },
    ];
    for case in &cases {
        assert_eq!(rt; broken(alloc, case)?, 1);
    }
    Ok(())
}

#[test]
fn logs_that_are_none(rt: HostRuntime) -> Result<(), Fail> {
    let alloc = rt.alloc();
    let held = CkptPart::Held(4);
    let rows = [
        (0, held, [AT + 1].as_slice(), [AT].as_slice()),
        (2, CkptPart::Clear, &[AT + 1], &[AT]),
        (2, held, &[AT + 1], &[10 * AT]),
        (2, held, &[AT + 1, AT], &[]),
        (2, held, &[AT + FREE], &[]),
        (2, held, &[1 << 63], &[]),
        (0, held, &[40_127 * AT], &[]),
        (2, held, &[40_127 * AT + 1], &[]),
    ];
    for (rule, ckpt, held, kept) in rows {
        let case = Case {
            ckpt,
            held,
            kept,
            ..LAWFUL
        };
        assert_eq!(rt; broken(alloc, &case)?, rule);
    }
    // The fresh obsolete units: a run is of the version, and of the device.
    let rows = [
        (0, 1, [AT + 1, AT + FREE].as_slice()),
        (2, 1, &[AT, AT]),
        (2, 1, &[AT + FREE]),
        (2, 1, &[LONG, 100]),
        (0, 2, &[LONG, 100]),
        (2, 2, &[LONG, 200]),
        (2, 2, &[LONG]),
        (2, 2, &[LONG + 1, 100]),
        (2, 2, &[LONG + (1 << 60), 100]),
        (2, 2, &[(3 << 62) + (32_767 << 24), 100]),
    ];
    for (rule, version, fresh) in rows {
        let case = Case {
            version,
            fresh,
            ..LAWFUL
        };
        assert_eq!(rt; broken(alloc, &case)?, rule);
    }
    Ok(())
}

#[test]
fn logs_past_their_bound(rt: HostRuntime) -> Result<(), Fail> {
    let alloc = rt.alloc();
    // A set of no unit has no word anew, and one of one unit has one: 512 words and 514 are the most.
    let mut words = Vec::new(alloc);
    for _ in 0..256 {
        words.push(AT)?;
        words.push(AT + FREE)?;
    }
    let rules = [0, 0, 2, 2];
    for rule in rules {
        let case = Case {
            fresh: words.as_slice(),
            ..LAWFUL
        };
        assert_eq!(rt; broken(alloc, &case)?, rule, "{} words", words.len());
        words.push(if words.len() % 2 == 0 { AT } else { AT + FREE })?;
    }
    Ok(())
}

#[test]
fn late_sets_that_are_none(rt: HostRuntime) -> Result<(), Fail> {
    let alloc = rt.alloc();
    // The extents of blocks and then those of metadata, each kind maximal, in order and cut as the version cuts.
    let rows = [
        (0, 1, [AT, 2 * AT + FREE].as_slice()),
        (2, 1, &[2 * AT + FREE, AT]),
        (2, 1, &[4 * AT, AT]),
        (2, 1, &[AT, 2 * AT]),
        (2, 1, &[AT + FREE, 2 * AT + FREE]),
        (2, 1, &[AT + 1, 2 * AT]),
        (2, 1, &[40_127 * AT + 1]),
        (2, 1, &[1 << 63]),
        (0, 1, &[100 * AT + 32_767, 32_868 * AT + 7_231]),
        (2, 1, &[100 * AT + 7_231, 7_332 * AT + 32_767]),
        (2, 2, &[100 * AT + 32_767, 32_868 * AT + 7_231]),
        (0, 2, &[LONG, 100]),
    ];
    for (rule, version, late1) in rows {
        let case = Case {
            version,
            late1,
            ..LAWFUL
        };
        assert_eq!(rt; broken(alloc, &case)?, rule);
    }
    Ok(())
}

fn stream_of(words: u64) -> Stream
    ensures { result.words ≡ words }
{
    let root = if words == 0 { Ptr::Hole } else { leaf() };
    Stream {
        words,
        tree: Tree { root, height: 0 },
    }
}

/// A head on one device in service while a mapping is condensed, whose two streams have so many words.
fn condensing(alloc: Global, entries: u8, counts: u8) -> Result<Head, NoMemory>
    ensures { IfOk result (λ h. sum_by (λ s. s.words) h.streams ≡ entries + counts) }
{
    let none = stream_of(0);
    let entries = stream_of(u64::from(entries));
    let counts = stream_of(u64::from(counts));
    let streams = vec![in alloc; none, none, none, none, entries, counts]?;
    Ok(Head {
        form: 2,
        dir: Tree {
            root: Ptr::Hole,
            height: 0,
        },
        saved: None,
        ckpt: CkptPart::Clear,
        cond: Some(CondAt { dev: 0, at: 64 }),
        streams: Items::from_vec(streams),
    })
}

#[test]
fn what_is_condensed(rt: HostRuntime) -> Result<(), Fail> {
    let alloc = rt.alloc();
    let table = [DevRow {
        state: DevState::On,
        added: 1,
        units: 896,
        gone: 0,
    }];
    let rows = [
        (0, 3, 1, [80, THREE, 56, 2].as_slice()),
        (1, 3, 1, &[84, THREE, 56, 2]),
        (1, 3, 1, &[80, THREE, 56, 1 << 32]),
        (1, 2, 1, &[80, THREE, 2]),
        (1, 3, 0, &[80, THREE, 56]),
        (1, 0, 1, &[2]),
    ];
    for (rule, entries, counts, words) in rows {
        let h = condensing(alloc, entries, counts)?;
        if !is_head(&h, &table) || words.len() != usize::from(entries) + usize::from(counts) {
            panic!(rt; "no head");
        }
        let found = match parts_of(alloc, &h, &table, words, 2) {
            Ok(parts) => { if parts.cond.is_some() { 0 } else { 9 } }
            Err(PartsErr::Rule(broken)) => broken,
            Err(PartsErr::NoMemory) => 8,
        };
        assert_eq!(rt; found, rule);
    }
    Ok(())
}
