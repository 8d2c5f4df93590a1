//! The server in memory: its words, its refusals, and what lines are answered.

ghost use Rattle.std.specs.Prelude.{◌≤◌};

use super::daemon::daemon;
use super::ready::{ReadyDesk, ready};
use super::serve::Worker;
use super::status::Status;
use super::work_end::WorkEnd;
use byte_edges::{MemDoor, MemHarbour, MemLine, MemSink, MemSource};
use net_text::TextFault;
use net_types::NetFault;
use std::alloc::{AllocError, Global};
use std::test::Fail;

pub(crate) const NETWORK: &str =
    "atpg-net 1 4\nbox 1\nport 11 1\nport 12 1\nterm 1 11 send\nterm 2 12 receive\npermit 1 xxxx\nrule 5 1 10 * 1xx0 12\n";

const PLANNED: &[u8] =
    b"opened 1 0\nplanned 1 0\natpg-plan 1 4 16\nentry 1 1 2 1000 1110 1000 5\nprobe 1\nend 1 1 0 0\nbye\n";

pub(crate) fn words_of(alloc: Global, line: &str) -> Result<Vec<String>, AllocError> {
    let mut words = Vec::new(alloc);
    for word in line.split_whitespace() {
        words.push(String::from_str(alloc, word)?)?;
    }
    Ok(words)
}

pub(crate) fn source(alloc: Global, input: &str, fails: &[u64]) -> Result<MemSource, AllocError> {
    let bytes = Vec::from_slice(alloc, input.as_bytes())?;
    let fails = Vec::from_slice(alloc, fails)?;
    Ok(MemSource::new(bytes, 4096, fails))
}

/// A line whose reads and writes fail as listed.
fn failing_line(
    alloc: Global,
    input: &str,
    read_fails: &[u64],
    write_fails: &[u64],
) -> Result<MemLine, AllocError> {
    let sink = MemSink::new(alloc, 4096, Vec::from_slice(alloc, write_fails)?);
    Ok(MemLine::new(source(alloc, input, read_fails)?, sink))
}

pub(crate) fn line(alloc: Global, input: &str) -> Result<MemLine, AllocError> {
    failing_line(alloc, input, &[], &[])
}

/// A door of these lines.
fn door(alloc: Global, inputs: &[&str]) -> Result<MemDoor, AllocError> {
    let mut lines = Vec::new(alloc);
    for input in inputs {
        lines.push(line(alloc, input)?)?;
    }
    Ok(MemDoor::new(alloc, lines, Vec::new(alloc)))
}

/// A harbour of these doors, whose opens fail as listed.
fn harbour(alloc: Global, doors: Vec<MemDoor>, fails: &[u64]) -> Result<MemHarbour, AllocError> {
    Ok(MemHarbour::new(alloc, doors, Vec::from_slice(alloc, fails)?))
}

#[test]
fn words(rt: HostRuntime) -> Result<(), Fail> {
    let alloc = rt.alloc();
    let rows: [(&str, Result<[u64; 6], u64>); 12] = [
        ("--port 4000", Ok([4000, 16, 65_536, 1, 65_536, 4])),
        (
            "--seats 64 --log 4194304 --workers 64 --entries 262144 --hops 255 --port 65535",
            Ok([65_535, 255, 262_144, 64, 4_194_304, 64]),
        ),
        ("", Err(1)),
        ("serve --port 4000", Err(1)),
        ("--port 0", Err(2)),
        ("--port 65536", Err(2)),
        ("--port 1 --hops 256", Err(4)),
        ("--port 1 --entries 262145", Err(4)),
        ("--port 1 --workers 65", Err(4)),
        ("--port 1 --log 4194305", Err(4)),
        ("--seats 65 --port 1", Err(2)),
        ("--hops 3", Err(3)),
    ];
    for (text, expected) in rows {
        let numbers = match super::words::parse(&words_of(alloc, text)?) {
            Ok(o) => Ok([
                u64::from(o.port),
                u64::from(o.hops),
                u64::from(o.entries),
                u64::from(o.workers),
                o.log,
                u64::from(o.seats),
            ]),
            Err(at) => Err(at),
        };
        assert!(rt; numbers == expected, "{text}");
    }
    Ok(())
}

#[test]
fn statuses(rt: HostRuntime) -> Result<(), Fail> {
    let bad_net = Status::BadNet {
        line: 8,
        fault: TextFault::Net(NetFault::Unknown),
    };
    for (status, number, text) in [
        (Status::Done, 0, ""),
        (Status::BadWords { at: 3 }, 2, "bad words at 3\n"),
        (Status::ReadFault, 3, "read fault\n"),
        (Status::TooLong, 5, "input too long\n"),
        (bad_net, 6, "bad network at line 8: unknown\n"),
        (Status::NoMemory, 10, "no memory\n"),
        (Status::DoorFault, 11, "door fault\n"),
    ] {
        assert_eq!(rt; status.number(), number);
        assert_eq!(rt; status.text().as_slice(), text.as_bytes());
    }
    Ok(())
}

#[test]
fn a_desk_that_is_ready(rt: HostRuntime) -> Result<(), Fail> {
    let alloc = rt.alloc();
    let words = words_of(alloc, "--port 4000 --seats 3 --log 7")?;
    let Ok(ready) = ready(alloc, &words, &mut source(alloc, NETWORK, &[])?) else {
        return Err(Fail::from("not ready"));
    };
    let ReadyDesk { opts, desk, passes } = ready;
    assert_eq!(rt; opts.seats, 3);
    assert_eq!(rt; passes.len(), 3);
    let Ok(desk) = desk.close(passes) else {
        return Err(Fail::from("not closed"));
    };
    assert_eq!(rt; [desk.len(), desk.room()], [0, 7]);
    assert_eq!(rt; desk.hops(), 16);
    Ok(())
}

#[test]
fn refusals_in_order(rt: HostRuntime) -> Result<(), Fail> {
    let alloc = rt.alloc();
    let bad_net = Status::BadNet {
        line: 2,
        fault: TextFault::Words,
    };
    let rows: [(&str, &str, &[u64], Status); 4] = [
        ("--port", "bogus", &[1], Status::BadWords { at: 2 }),
        ("--port 1", "bogus", &[1], Status::ReadFault),
        ("--port 1", "atpg-net 1 4\nbogus\n", &[], bad_net),
        ("--port 1 --seats 1", NETWORK, &[], Status::DoorFault),
    ];
    for (text, input, fails, expected) in rows {
        let mut from = source(alloc, input, fails)?;
        let mut doors = harbour(alloc, Vec::new(alloc), &[1])?;
        let words = words_of(alloc, text)?;
        let (status, hosted) = daemon(&rt, alloc, &words, &mut from, &mut doors);
        assert_eq!(rt; status, expected);
        assert!(rt; hosted.is_none());
    }
    Ok(())
}

#[test]
fn serves_one_line(rt: HostRuntime) -> Result<(), Fail> {
    let alloc = rt.alloc();
    let mut doors = Vec::new(alloc);
    doors.push(door(alloc, &["open\nplan 1\nstop\n"])?)?;
    let mut port = harbour(alloc, doors, &[])?;
    let words = words_of(alloc, "--port 4000 --seats 1")?;
    let mut from = source(alloc, NETWORK, &[])?;
    let (status, hosted) = daemon(&rt, alloc, &words, &mut from, &mut port);
    assert_eq!(rt; status, Status::Done);
    let Some(hosted) = hosted else {
        return Err(Fail::from("not served"));
    };
    let Some(worker) = hosted.workers.first() else {
        return Err(Fail::from("no worker"));
    };
    assert_eq!(rt; worker.ended, Some(WorkEnd::Stopped));
    assert!(rt; worker.door.served(0) == Some(PLANNED));
    Ok(())
}

#[test]
fn workers_end_each_by_its_cause(rt: HostRuntime) -> Result<(), Fail> {
    let alloc = rt.alloc();
    let words = words_of(alloc, "--port 4000 --seats 3")?;
    let mut doors = Vec::new(alloc);
    doors.push(door(alloc, &["current\nstop\ncurrent\n", "current\n"])?)?;
    doors.push(door(alloc, &["hello\nquit\n", "current\ncurr"])?)?;
    doors.push(MemDoor::new(alloc, Vec::new(alloc), Vec::from_slice(alloc, &[1])?))?;
    let mut port = harbour(alloc, doors, &[])?;
    let mut from = source(alloc, NETWORK, &[])?;
    let (status, hosted) = daemon(&rt, alloc, &words, &mut from, &mut port);
    assert_eq!(rt; status, Status::DoorFault);
    let Some(hosted) = hosted else {
        return Err(Fail::from("not served"));
    };
    let [stopped, shut, failed] = hosted.workers.as_slice() else {
        return Err(Fail::from("other workers"));
    };
    assert_eq!(rt; stopped.ended, Some(WorkEnd::Stopped));
    assert!(rt; stopped.door.served(0) == Some(b"current 0\nbye\n".as_slice()));
    assert!(rt; stopped.door.served(1).is_none());
    assert_eq!(rt; shut.ended, Some(WorkEnd::Shut));
    assert!(rt; shut.door.served(0) == Some(b"no bad-line words\nbye\n".as_slice()));
    assert!(rt; shut.door.served(1) == Some(b"current 0\nno bad-line words\n".as_slice()));
    assert_eq!(rt; failed.ended, Some(WorkEnd::DoorFault));
    Ok(())
}

#[test]
fn a_worker_goes_on_after_faults_of_lines(rt: HostRuntime) -> Result<(), Fail> {
    let alloc = rt.alloc();
    let words = words_of(alloc, "--port 4000 --seats 1 --log 2")?;
    let mut lines = Vec::new(alloc);
    lines.push(failing_line(alloc, "current\n", &[1], &[])?)?;
    lines.push(failing_line(alloc, "current\nstop\n", &[], &[2])?)?;
    lines.push(line(alloc, "current\ncurrent\n")?)?;
    let mut doors = Vec::new(alloc);
    doors.push(MemDoor::new(alloc, lines, Vec::new(alloc)))?;
    let mut port = harbour(alloc, doors, &[])?;
    let mut from = source(alloc, NETWORK, &[])?;
    let (status, hosted) = daemon(&rt, alloc, &words, &mut from, &mut port);
    assert_eq!(rt; status, Status::Done);
    let Some(hosted) = hosted else {
        return Err(Fail::from("not served"));
    };
    let Some(worker) = hosted.workers.first() else {
        return Err(Fail::from("no worker"));
    };
    assert_eq!(rt; worker.ended, Some(WorkEnd::Shut));
    assert!(rt; worker.door.served(0) == Some(b"".as_slice()));
    assert!(rt; worker.door.served(1) == Some(b"current 0\n".as_slice()));
    assert!(rt; worker.door.served(2) == Some(b"current 0\nno log-full 2\n".as_slice()));
    Ok(())
}

/// So many doors, each of one line of this text.
fn like_doors(alloc: Global, many: u32, input: &str) -> Result<Vec<MemDoor>, AllocError> {
    let mut doors = Vec::new(alloc);
    for _ in 0..many {
        doors.push(door(alloc, &[input])?)?;
    }
    Ok(doors)
}

/// How many workers wrote this to their first line.
fn answered(workers: &[Worker<MemDoor>], reply: &[u8]) -> usize {
    let mut many: usize = 0;
    for worker in workers {
        if worker.door.served(0) == Some(reply) {
            many = many.saturating_add(1);
        }
    }
    many
}

#[test]
fn workers_share_one_log(rt: HostRuntime) -> Result<(), Fail> {
    let alloc = rt.alloc();
    for (text, seats, full, others) in [
        (
            "--port 4000 --seats 2 --log 1",
            2,
            "no log-full 1\nbye\n",
            1,
        ),
        (
            "--port 4000 --seats 64 --log 63",
            64,
            "no log-full 63\nbye\n",
            63,
        ),
    ] {
        let doors = like_doors(alloc, seats, "current\nstop\n")?;
        let mut port = harbour(alloc, doors, &[])?;
        let mut from = source(alloc, NETWORK, &[])?;
        let words = words_of(alloc, text)?;
        let (status, hosted) = daemon(&rt, alloc, &words, &mut from, &mut port);
        assert_eq!(rt; status, Status::Done);
        let Some(hosted) = hosted else {
            return Err(Fail::from("not served"));
        };
        let workers = hosted.workers.as_slice();
        assert_eq!(rt; answered(workers, full.as_bytes()), 1);
        assert_eq!(rt; answered(workers, b"current 0\nbye\n"), others);
    }
    Ok(())
}
