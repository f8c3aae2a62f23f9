//! Lines in and out of the grammar, and the texts of replies, as the manual tells them.
use std::alloc::Global;
use std::test::Fail;
use zr_base::{Blob, DevState, Dva, Entry, Extent, Items, NoMemory, Refusal};
use zr_script::{
    CkptLine, Command, ListLine, MapLine, Reply, StatusLines, parse_line, reply_bytes,
};

/// The bytes of a text, and behind them `n` times a byte.
fn padded(alloc: Global, text: &str, byte: u8, n: usize) -> Result<Vec<u8>, NoMemory> {
    let mut line = Vec::from_slice(alloc, text.as_bytes())?;
    for _ in 0..n {
        line.push(byte)?;
    }
    Ok(line)
}

fn is_line(alloc: Global, line: &[u8]) -> Result<bool, NoMemory> {
    Ok(parse_line(alloc, line)?.is_some())
}

#[test]
fn lines_in_the_grammar(rt: HostRuntime) -> Result<(), Fail> {
    let lines = [
        "create p 1 a",
        "create -1 p-1.x 18446744073709551615 /dev/a b",
        "import",
        "import rewind",
        "import txg 7",
        "export",
        "make 1 1",
        "drop 0",
        "write 1 4094 aAbBcC09",
        "fill 1 0 262144 255",
        "punch 1 0 5",
        "read 1 137438953471 1",
        "sum 1",
        "sync",
        "add b",
        "remove a",
        "remove -n a",
        "remove -s",
        "checkpoint",
        "checkpoint -d",
        "step evac",
        "step discard",
        "step condense",
        "list",
        "status",
        "map 31",
        "audit",
        "upgrade",
        "quit",
    ];
    for line in lines {
        assert!(rt; is_line(rt.alloc(), line.as_bytes())?, "{line}");
    }
    Ok(())
}

#[test]
fn lines_outside_the_grammar(rt: HostRuntime) -> Result<(), Fail> {
    let lines = [
        "",
        " ",
        "frob",
        "List",
        "list ",
        " list",
        "create p 1",
        "create p 0 a",
        "create 1p 1 a",
        "create p 1 a a",
        "create p 1 a:4096",
        "create -2 p 1 a",
        "import txg",
        "import txg 7 8",
        "import again",
        "make 1  1",
        "make 01 1",
        "make +1 1",
        "make 1 18446744073709551616",
        "write 1 0 ",
        "write 1 0 0",
        "write 1 0 0g",
        "fill 1 0 1 256",
        "remove -n",
        "remove -x",
        "remove -n -a",
        "remove a b",
        "checkpoint d",
        "step",
        "map",
        "quit quit",
    ];
    for line in lines {
        assert!(rt; !is_line(rt.alloc(), line.as_bytes())?, "{line}");
    }
    Ok(())
}

#[test]
fn bounds_of_words(rt: HostRuntime) -> Result<(), Fail> {
    let alloc = rt.alloc();
    let cases = [
        ("write 1 0 ", b'0', 8192, true),
        ("write 1 0 ", b'0', 8194, false),
        ("drop ", b'9', 19, true),
        ("drop ", b'9', 20, false),
        ("add ", b'a', 255, true),
        ("add ", b'a', 256, false),
    ];
    for (text, byte, n, want) in cases {
        let line = padded(alloc, text, byte, n)?;
        assert_eq!(rt; is_line(alloc, line.as_slice())?, want, "{text}{n}");
    }
    for (n, want) in [(63, true), (64, false)] {
        let mut line = padded(alloc, "create ", b'n', n)?;
        line.extend_from_slice(b" 1 a")?;
        assert_eq!(rt; is_line(alloc, line.as_slice())?, want, "{n}");
    }
    let mut line = padded(alloc, "create p 1", b' ', 0)?;
    for n in 0..33u8 {
        line.extend_from_slice(b" d")?;
        line.push(b'a' + n % 26)?;
        line.push(b'a' + n / 26)?;
        assert_eq!(rt; is_line(alloc, line.as_slice())?, n < 32, "{n}");
    }
    Ok(())
}

#[test]
fn what_a_line_asks(rt: HostRuntime) -> Result<(), Fail> {
    let line = b"write 1 4094 aAbBcC09";
    let command = parse_line(rt.alloc(), line)?;
    match &command {
        Some(Command::Write { id, off, bytes }) => {
            assert_eq!(rt; (*id, *off), (1, 4094));
            assert_eq!(rt; bytes.as_slice(), [0xaa, 0xbb, 0xcc, 9].as_slice());
        }
        _ => assert!(rt; false, "no write"),
    }
    Ok(())
}

#[test]
fn texts_of_replies(rt: HostRuntime) -> Result<(), Fail> {
    let alloc = rt.alloc();
    let at = Dva {
        dev: 1,
        start: 7,
        len: 1,
    };
    let cases = [
        (Reply::Done, "ok\n"),
        (Reply::Data(Blob::copy_of(alloc, b"abc")?), "data 616263\n"),
        (Reply::Synced(2), "synced 2\n"),
        (Reply::Cancelled(0), "cancelled 0\n"),
        (Reply::Kept(14), "kept 14\n"),
        (Reply::Ended, "done\n"),
        (
            Reply::No(Refusal::NoRun {
                needed: 2,
                longest: 1,
            }),
            "refused 6 no run needed 2 longest 1\n",
        ),
        (
            Reply::No(Refusal::CheckpointExists),
            "refused 13 checkpoint exists\n",
        ),
        (
            Reply::No(Refusal::Damaged {
                at,
                expected: [255; 32],
                found: [1; 32],
            }),
            "refused 20 damaged device 1 unit 7 expected ffffffffffffffffffffffffffffffffffffffffffffffffffffffffffffffff found 0101010101010101010101010101010101010101010101010101010101010101\n",
        ),
        (
            Reply::No(Refusal::MissingDevice { index: 1, added: 1 }),
            "refused 21 missing device index 1 txg 1\n",
        ),
        (
            Reply::No(Refusal::UnknownVersion { found: 3 }),
            "refused 26 version found 3\n",
        ),
    ];
    for (reply, text) in cases {
        assert_eq!(rt;
            reply_bytes(alloc, &reply)?.as_slice(),
            text.as_bytes(),
            "{text}"
        );
    }
    Ok(())
}

#[test]
fn tables(rt: HostRuntime) -> Result<(), Fail> {
    let alloc = rt.alloc();
    let mut devices = Items::new(alloc);
    devices.push(ListLine {
        index: 0,
        path: None,
        state: DevState::Gone,
        units: 0,
        allocated: 0,
        checkpointed: 0,
        deferred: 0,
        free: 0,
    })?;
    devices.push(ListLine {
        index: 1,
        path: Some(Blob::copy_of(alloc, b"b")?),
        state: DevState::On,
        units: 896,
        allocated: 1,
        checkpointed: 2,
        deferred: 3,
        free: 890,
    })?;
    let list = reply_bytes(alloc, &Reply::List(devices))?;
    let text = b"dev 0 - gone 0 0 0 0 0\ndev 1 b on 896 1 2 3 890\nend\n";
    assert_eq!(rt; list.as_slice(), text.as_slice());
    let mut lines = Items::new(alloc);
    let entry = Entry {
        src: 0,
        dev: 1,
        dst: 20,
        len: 4,
    };
    lines.push(MapLine::Entry { entry, obsolete: 3 })?;
    lines.push(MapLine::Fresh(Extent { start: 70, len: 1 }))?;
    let map = reply_bytes(alloc, &Reply::Map(lines))?;
    assert_eq!(rt;
        map.as_slice(),
        b"entry 0 4 1 20 3\nfresh 70 1\nend\n".as_slice()
    );
    let status = StatusLines {
        name: Blob::copy_of(alloc, b"p")?,
        guid: 1,
        txg: 5,
        removal: Some((0, 40)),
        checkpoint: CkptLine::Clear,
        condense: Some((2, 64, 100)),
        free: 800,
        owed: 60,
        slop: 64,
    };
    let status = reply_bytes(alloc, &Reply::Status(status))?;
    let text =
        b"open p 1 txg 5\nremoval 0 left 40\ncheckpoint none\ncondense 2 at 64 of 100\nroom 800 owed 60 slop 64\nend\n";
    assert_eq!(rt; status.as_slice(), text.as_slice());
    Ok(())
}
