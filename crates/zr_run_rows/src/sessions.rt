ghost use Rattle.std.specs.Prelude.{◌≡◌, ◌<◌, []};
ghost use Rattle.zr_base.specs.declared.space.Policy.{Policy};
ghost use Rattle.zr_rules.specs.Choices.{AreRuns, IsPick};

use std::alloc::Global;
use std::test::Fail;
use zr_base::{Blob, Dva, Extent, Items, NoMemory, Policy};
use zr_choose::{Chooser, pick_first};
use zr_command::{Pool, Stop};
use zr_model::Actor;
use zr_script::{Command, Reply};
use zr_session::{run_in_memory, run_on};
use zr_shelf::{Desk, DeskErr, MemDesk, Shelf};

// A desk in memory whose input comes byte by byte. It tells nothing.
#[derive(Drop)]
struct SlowDesk {
    desk: MemDesk,
}

impl Shelf for SlowDesk {
    ghost use Rattle.zr_shelf.specs.Counts.{Counts};
    ghost use Rattle.zr_shelf.specs.Memory.{sizes_of, world_of};

    ghost sizes = { λ d. sizes_of d.desk.memory.disks.items };

    ghost counts = { λ d. record { disk = d.desk.disk_faults; attach = d.desk.attach_faults; input = d.desk.input_faults; output = d.desk.output_faults } };

    ghost tells = { λ d. ⊥ };

    ghost moment = { λ d. 0 };

    ghost world = { λ d. world_of d.desk.memory.history };

    ghost sound = { λ d told. absurd told };

    fn slots(&self) -> u32 {
        self.desk.slots()
    }

    fn size(&self, slot: u32) -> u64 {
        self.desk.size(slot)
    }

    fn read(&mut self, slot: u32, at: u64, out: &mut [u8]) -> Result<(), DeskErr> {
        self.desk.read(slot, at, out)
    }

    fn write(&mut self, slot: u32, at: u64, bytes: &[u8]) -> Result<(), DeskErr> {
        self.desk.write(slot, at, bytes)
    }

    fn flush(&mut self) -> Result<(), DeskErr> {
        self.desk.flush()
    }
}

impl Desk for SlowDesk {
    fn attach(&mut self, path: &str, make: Option<u64>) -> Result<u32, DeskErr> {
        self.desk.attach(path, make)
    }

    fn take(&mut self, out: &mut [u8]) -> Result<usize, DeskErr> {
        let most = out.len().min(1);
        self.desk.take(&mut out[..most])
    }

    fn give(&mut self, bytes: &[u8]) -> Result<(), DeskErr> {
        self.desk.give(bytes)
    }
}

// A pool that meets damage at each command.
#[derive(Drop)]
struct DamagedPool {
    paths: Items<Blob>,
}

impl Pool for DamagedPool {
    ghost use Rattle.std.specs.Prelude.{◌≡◌, false, length};

    ghost paths = { λ p. p.paths };

    ghost meaning = { record { State = Unit {0}; none = λ disks. tt; takes = λ p t. ⊥; serves = λ paths state command. Unit {0}; damages = λ p command found. Unit {0}; blames = λ command answer. ⊥; works = λ state actor. false; rests = λ p disks. Unit {0}; within = λ p command disks. Unit {0} } };

    ghost stands = { λ p disks state. Unit {0} };

    ghost rests = { λ p stand state named is. tt };

    ghost fits = { λ p sizes. length sizes ≡ length p.paths };

    fn closed(_alloc: Global, devs: Items<Blob>) -> Result<DamagedPool, NoMemory> {
        Ok(DamagedPool { paths: devs })
    }

    fn command<S: Shelf>(
        &mut self,
        _alloc: Global,
        _shelf: &mut S,
        _pick: &Chooser,
        _command: &Command,
    ) -> Result<Option<Reply>, Stop> {
        Err(Stop::Damaged {
            at: Dva {
                dev: 3,
                start: 70,
                len: 2,
            },
            expected: [1; 32],
            found: [254; 32],
        })
    }

    fn has_work(&self, _actor: Actor) -> bool {
        false
    }
}

// A pool that has so many steps of work left, whichever actor makes them: as many as the GUID of the `create` line.
#[derive(Drop)]
struct BusyPool {
    paths: Items<Blob>,
    left: u64,
}

impl BusyPool {
    fn act(&mut self, command: &Command) -> Reply
        ensures { self.new.paths ≡ self.old.paths }
    {
        match command {
            Command::Create { guid, .. } => self.left = *guid,
            Command::StepEvac | Command::StepDiscard | Command::StepCondense => {
                self.left = self.left.saturating_sub(1);
            }
            _ => {}
        }
        match command {
            Command::StepEvac => Reply::Copied(self.left),
            Command::StepDiscard => Reply::Freed(self.left),
            Command::StepCondense => Reply::Kept(self.left),
            _ => Reply::Synced(self.left),
        }
    }
}

impl Pool for BusyPool {
    ghost use Rattle.std.specs.Prelude.{◌≡◌, Bool, false, nat_lt, length};

    ghost paths = { λ p. p.paths };

    // A state says whether there is work.
    ghost meaning = { record { State = Bool; none = λ disks. false; takes = λ p t. Unit {0}; serves = λ paths state command. Unit {0}; damages = λ p command found. ⊥; blames = λ command answer. ⊥; works = λ state actor. state; rests = λ p disks. Unit {0}; within = λ p command disks. Unit {0} } };

    ghost stands = { λ p disks state. state ≡ nat_lt 0 p.left };

    ghost rests = { λ p stand state named is. tt };

    ghost fits = { λ p sizes. length sizes ≡ length p.paths };

    fn closed(_alloc: Global, devs: Items<Blob>) -> Result<BusyPool, NoMemory> {
        Ok(BusyPool {
            paths: devs,
            left: 0,
        })
    }

    fn command<S: Shelf>(
        &mut self,
        _alloc: Global,
        _shelf: &mut S,
        _pick: &Chooser,
        command: &Command,
    ) -> Result<Option<Reply>, Stop> {
        let reply = self.act(command);
        Ok(Some(reply))
    }

    fn has_work(&self, _actor: Actor) -> bool {
        self.left > 0
    }
}

// Which pool a run is over.
#[derive(Clone, Copy)]
enum Kind {
    Plain,
    Damaged,
    Busy,
}

// The status that the words and the desk come to, with one chooser, over a pool of the kind.
fn status_over<D: Desk>(
    alloc: Global,
    words: &[&str],
    desk: &mut D,
    kind: Kind,
) -> Result<u8, Fail> {
    let first = Chooser::new(
        String::from_str(alloc, "first")?,
        Policy::First,
        Box::new(
            alloc,
            |want: u64, runs: &[Extent]| -> Option<usize>
                requires { (0 < want) × AreRuns runs.now }
                ensures { IsPick Policy.First want runs.entry.now result }
            { pick_first(want, runs) },
        )?,
    );
    let mut strings = Vec::new(alloc);
    for word in words {
        strings.push(String::from_str(alloc, word)?)?;
    }
    if desk.slots() != 0 {
        return Ok(255);
    }
    let choosers = [first];
    Ok(match kind {
        Kind::Plain => run_in_memory(alloc, strings.as_slice(), desk, &choosers),
        Kind::Damaged => run_on::<DamagedPool, D>(alloc, strings.as_slice(), desk, &choosers),
        Kind::Busy => run_on::<BusyPool, D>(alloc, strings.as_slice(), desk, &choosers),
    })
}

fn status<D: Desk>(alloc: Global, words: &[&str], desk: &mut D) -> Result<u8, Fail> {
    status_over(alloc, words, desk, Kind::Plain)
}

// The pool in memory keeps nothing on its devices, so small ones serve.
const WORDS: [&str; 1] = ["a:4096"];

const MADE: &str = "create p 1 a\nmake 1 1\nwrite 1 0 616263\n";

// Whether an input is answered so. Devices are attached, unless the words are no command line.
fn is_answered(
    alloc: Global,
    words: &[&str],
    input: &str,
    sent: &str,
    end: u8,
) -> Result<bool, Fail> {
    let mut desk = MemDesk::new(
        alloc,
        Vec::from_slice(alloc, input.as_bytes())?,
        Vec::new(alloc),
    );
    let status = status(alloc, words, &mut desk)?;
    let attached = desk.slots() > 0;
    Ok(status == end && attached == (end != 1) && desk.sent() == sent.as_bytes())
}

#[test]
fn scripts_are_answered(rt: HostRuntime) -> Result<(), Fail> {
    let rows = [
        (
            format!(in rt.alloc(); "{MADE}read 1 0 3\n")?,
            "ok\nok\nok\ndata 616263\n",
            0,
        ),
        (String::new(rt.alloc()), "", 0),
        (
            format!(in rt.alloc(); "{MADE}read 1 5 4")?,
            "ok\nok\nok\ndata 00000000\n",
            0,
        ),
        (
            format!(in rt.alloc();
                "create p 1 a\nmake 1 1\nwrite 1 137438953471 ff\nread 1 137438953471 1\nwrite 1 137438953472 ff\n"
            )?,
            "ok\nok\nok\ndata ff\nrefused 5 out of range\n",
            0,
        ),
        (
            format!(in rt.alloc(); "{MADE}make 1 1\nread 2 0 1\nmake 2 3\nread 1 0 0\n")?,
            "ok\nok\nok\nrefused 4 object exists\nrefused 3 no such object\nrefused 5 out of range\nrefused 5 out of range\n",
            0,
        ),
        (format!(in rt.alloc(); "frob")?, "bad line 1\n", 5),
        (
            format!(in rt.alloc(); "{MADE}\nread 1 0 3\n")?,
            "ok\nok\nok\nbad line 4\n",
            5,
        ),
        (format!(in rt.alloc(); "make 1 1\n")?, "bad line 1\n", 5),
        (
            format!(in rt.alloc(); "create p 1 a\ncreate p 1 a\n")?,
            "ok\nbad line 2\n",
            5,
        ),
        (
            format!(in rt.alloc(); "create p 1 a\nquit\nfrob\n")?,
            "ok\n",
            0,
        ),
    ];
    for (input, sent, end) in &rows {
        assert!(rt; is_answered(rt.alloc(), &WORDS, input.as_str(), sent, *end)?);
    }
    assert!(rt; is_answered(rt.alloc(), &[], "", "", 1)?);
    assert!(rt; is_answered(rt.alloc(), &["a", "a"], "create p 1 a\n", "", 1)?);
    assert!(rt; is_answered(rt.alloc(), &["a", "b:8388608:1"], "create p 1 a\n", "", 1)?);
    let two = ["a:4096", "b:4096"];
    assert!(rt; is_answered(rt.alloc(), &two, "create p 1 a b\n", "ok\n", 0)?);
    assert!(rt; is_answered(rt.alloc(), &two, "create p 1 a\n", "bad line 1\n", 5)?);
    Ok(())
}

#[test]
fn a_device_that_fails_leaves_those_before_it(rt: HostRuntime) -> Result<(), Fail> {
    let input = Vec::from_slice(rt.alloc(), b"create p 1 a b\n")?;
    let mut desk = MemDesk::new(rt.alloc(), input, Vec::from_slice(rt.alloc(), &[2])?);
    let words = ["a:4096", "b:4096"];
    assert!(rt; status(rt.alloc(), &words, &mut desk)? == 7);
    assert!(rt; desk.slots() == 1);
    assert!(rt; desk.sent().is_empty());
    Ok(())
}

#[test]
fn steps_follow_each_line_while_there_is_work(rt: HostRuntime) -> Result<(), Fail> {
    let input = "create p 4 a\nsync\nquit\n";
    for (option, sent) in [
        ("--auto=0", "synced 4\nsynced 4\n"),
        (
            "--auto=1",
            "synced 4\ncopied 3\nfreed 2\nkept 1\nsynced 1\ncopied 0\n",
        ),
        (
            "--auto=2",
            "synced 4\ncopied 3\nfreed 2\nkept 1\ncopied 0\nsynced 0\n",
        ),
    ] {
        let mut desk = MemDesk::new(
            rt.alloc(),
            Vec::from_slice(rt.alloc(), input.as_bytes())?,
            Vec::new(rt.alloc()),
        );
        assert!(rt; status_over(rt.alloc(), &[option, "a:4096"], &mut desk, Kind::Busy)? == 0);
        assert!(rt; desk.sent() == sent.as_bytes());
    }
    Ok(())
}

#[test]
fn a_run_may_stop_within_a_round(rt: HostRuntime) -> Result<(), Fail> {
    // attach, take, give of the reply, give of the first step's, give of the second's
    let input = Vec::from_slice(rt.alloc(), b"create p 4 a\n")?;
    let mut desk = MemDesk::new(rt.alloc(), input, Vec::from_slice(rt.alloc(), &[5])?);
    let words = ["--auto", "1", "a:4096"];
    assert!(rt; status_over(rt.alloc(), &words, &mut desk, Kind::Busy)? == 3);
    assert!(rt; desk.sent().starts_with(b"synced 4\ncopied 3\n".as_slice()));
    Ok(())
}

const THREE: [&str; 3] = ["a:4096", "b:4096", "c:4096"];

// What a generated run sends, and its status, where these calls of the desk fail.
fn is_generated(
    alloc: Global,
    words: &[&str],
    kind: Kind,
    fails: &[u64],
    sent: &str,
    end: u8,
) -> Result<bool, Fail> {
    let mut all = Vec::from_slice(alloc, words)?;
    all.extend_from_slice(&THREE)?;
    let input = Vec::from_slice(alloc, b"create p 1 a\n")?;
    let mut desk = MemDesk::new(alloc, input, Vec::from_slice(alloc, fails)?);
    let status = status_over(alloc, all.as_slice(), &mut desk, kind)?;
    let mut left = [0u8; 1];
    let untaken = desk.take(&mut left) == Ok(1);
    Ok(status == end && desk.sent() == sent.as_bytes() && untaken)
}

#[test]
fn a_generated_run_tells_one_line(rt: HostRuntime) -> Result<(), Fail> {
    // a pool that is made with one step of work left, which it tells for each sum
    let kept = "fa45b5e72109db39d4e3980213c12b90bbb5f3ab221a7e70f69021efe8872ffe";
    let done = "5cfd77f6456cc606441ecaa414f83f8931cc82ade8d80e4b34c2dc2b6201938c";
    let alloc = rt.alloc();
    let line = format!(in alloc; "gen 4 1 ok 40 refused 0 sums {kept}\n")?;
    assert!(rt; is_generated(alloc, &["--gen=4:1"], Kind::Busy, &[], line.as_str(), 0)?);
    // the step that is put in is not counted
    let line = format!(in alloc; "gen 4 1 ok 40 refused 0 sums {done}\n")?;
    let words = ["--gen=4:1", "--auto=2"];
    assert!(rt; is_generated(alloc, &words, Kind::Busy, &[], line.as_str(), 0)?);
    assert!(rt; is_generated(alloc, &words, Kind::Busy, &[3], "", 7)?);
    // the pool in memory is made on all devices of the words, and not on the first two
    assert!(rt; is_generated(alloc, &words, Kind::Plain, &[], "bad line 1\n", 5)?);
    Ok(())
}

#[test]
fn a_line_that_is_not_sent_is_an_output_fault(rt: HostRuntime) -> Result<(), Fail> {
    // attach, attach, attach, give
    let words = ["--gen=4:1", "a:4096", "b:4096", "c:4096"];
    let none = Vec::new(rt.alloc());
    let mut desk = MemDesk::new(rt.alloc(), none, Vec::from_slice(rt.alloc(), &[4])?);
    assert!(rt; status_over(rt.alloc(), &words, &mut desk, Kind::Busy)? == 3);
    Ok(())
}

#[test]
fn words_say_what_is_run(rt: HostRuntime) -> Result<(), Fail> {
    let made = "create p 1 a\n";
    assert!(rt;
        is_answered(
            rt.alloc(),
            &["--policy", "first", "a:4096"],
            made,
            "ok\n",
            0
        )?
    );
    assert!(rt; is_answered(rt.alloc(), &["a:4096", "--auto=1000"], made, "ok\n", 0)?);
    assert!(rt; is_answered(rt.alloc(), &["--", "a:4096"], made, "ok\n", 0)?);
    assert!(rt; is_answered(rt.alloc(), &["--policy=best", "a:4096"], made, "", 1)?);
    assert!(rt; is_answered(rt.alloc(), &["--auto", "1001", "a:4096"], made, "", 1)?);
    assert!(rt; is_answered(rt.alloc(), &["--auto=1", "--auto=1", "a:4096"], made, "", 1)?);
    assert!(rt; is_answered(rt.alloc(), &["--help"], made, "", 1)?);
    Ok(())
}

#[test]
fn damage_is_told_with_both_sums(rt: HostRuntime) -> Result<(), Fail> {
    let input = Vec::from_slice(rt.alloc(), b"sync\nquit\n")?;
    let mut desk = MemDesk::new(rt.alloc(), input, Vec::new(rt.alloc()));
    assert!(rt; status_over(rt.alloc(), &WORDS, &mut desk, Kind::Damaged)? == 6);
    let expected = "0101010101010101010101010101010101010101010101010101010101010101";
    let found = "fefefefefefefefefefefefefefefefefefefefefefefefefefefefefefefefe";
    let text = format!(in rt.alloc();
        "stopped damaged device 3 unit 70 expected {expected} found {found}\n"
    )?;
    assert!(rt; desk.sent() == text.as_bytes());
    Ok(())
}

#[test]
fn an_input_may_come_byte_by_byte(rt: HostRuntime) -> Result<(), Fail> {
    let input = Vec::from_slice(rt.alloc(), b"create p 1 a\nmake 1 1\nread 1 0 1")?;
    let mut desk = SlowDesk {
        desk: MemDesk::new(rt.alloc(), input, Vec::new(rt.alloc())),
    };
    assert!(rt; status(rt.alloc(), &WORDS, &mut desk)? == 0);
    assert!(rt; desk.desk.sent() == b"ok\nok\ndata 00\n".as_slice());
    Ok(())
}

#[test]
fn each_fault_has_its_status(rt: HostRuntime) -> Result<(), Fail> {
    // attach, take, give, give, give, give, take
    for (call, sent, end) in [
        (1, "", 7),
        (2, "", 2),
        (3, "", 3),
        (5, "ok\nok\n", 3),
        (7, "ok\nok\nok\ndata 616263\n", 2),
    ] {
        let input = format!(in rt.alloc(); "{MADE}read 1 0 3\n")?;
        let mut desk = MemDesk::new(
            rt.alloc(),
            Vec::from_slice(rt.alloc(), input.as_bytes())?,
            Vec::from_slice(rt.alloc(), &[call])?,
        );
        assert!(rt; status(rt.alloc(), &WORDS, &mut desk)? == end);
        assert!(rt; desk.sent().starts_with(sent.as_bytes()));
    }
    Ok(())
}
