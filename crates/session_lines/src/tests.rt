ghost use Rattle.std.specs.Prelude.{◌≤◌};

use crate::{LineFault, SessionEnd, read_command, reply_text, session};
use byte_edges::{MemLine, MemSink, MemSource};
use desk_core::{Answer, Command, Desk, Event, OwnDesk, Refusal, Reply};
use net_types::{NetFault, Network, RuleId, RuleList};
use rule_cover::{Plan, PlanFault, Planner};
use std::alloc::{AllocError, Global};
use std::sync::Arc;
use std::test::Fail;
use suspect_book::{Report, Verdict};

const NET: &[u8] = b"atpg-net 1 4\nbox 1\nport 11 1\nrule 6 1 20 * 0xxx 11\n";

/// A planner that never finds memory.
#[derive(Drop)]
struct NoPlans;

impl Planner for NoPlans {
    ghost limit = { λ _. 5 };

    fn plan(&mut self, _net: Arc<Network>, _hops: u32) -> Result<Plan, PlanFault> {
        Err(PlanFault::NoMemory)
    }
}

fn mem_line(
    alloc: Global,
    bytes: &[u8],
    most: usize,
    read_fails: &[u64],
    write_fails: &[u64],
) -> Result<MemLine, AllocError>
    requires { 1 ≤ most }
{
    let source = MemSource::new(bytes.to_vec(alloc)?, most, read_fails.to_vec(alloc)?);
    let sink = MemSink::new(alloc, most, write_fails.to_vec(alloc)?);
    Ok(MemLine::new(source, sink))
}

#[test]
fn sessions(rt: HostRuntime) -> Result<(), Fail> {
    let alloc = rt.alloc();
    let rows: [(&[u8], &[u64], &[u64], SessionEnd, &[u8]); 9] = [
        (b"", &[], &[], SessionEnd::Ended { stop: false }, b""),
        (
            b"depart 1 1\nopen\ndepart 1 1\nplan 1\nlocate 1\ncurrent\ncut 9\nhello\nquit\nopen\n",
            &[],
            &[],
            SessionEnd::Ended { stop: false },
            b"no round 1\nopened 1 0\nno plan 1\nno memory\nno plan 1\ncurrent 0\nno unknown\nno bad-line words\nbye\n",
        ),
        (
            b"open\n\n# open\nclose 1 # the end\r\nadd 7 1 3 11 01xx 11 01--\nstop",
            &[],
            &[],
            SessionEnd::Ended { stop: true },
            b"opened 1 0\nclosed 1 suspects - guilty - odd - next -\nversion 1\nbye\n",
        ),
        (
            b"open\ncurrent\n",
            &[2],
            &[],
            SessionEnd::ReadFault,
            b"opened 1 0\n",
        ),
        (
            b"open\n",
            &[],
            &[2],
            SessionEnd::WriteFault { written: 5 },
            b"opene",
        ),
        (
            b"current\nopen\n",
            &[],
            &[4],
            SessionEnd::WriteFault { written: 15 },
            b"current 0\nopene",
        ),
        (b"current", &[3], &[], SessionEnd::ReadFault, b""),
        (
            b"cut 0x\narrive 1 1 lost\ndepart 1\ncut 6\ncut 6",
            &[],
            &[],
            SessionEnd::Ended { stop: false },
            b"no bad-line number\nno bad-line words\nno bad-line words\nversion 1\nno unknown\n",
        ),
        (
            b"add 1 1 1 * 01y 11\n",
            &[],
            &[],
            SessionEnd::Ended { stop: false },
            b"no bad-line letters\n",
        ),
    ];
    for (bytes, read_fails, write_fails, end, text) in rows {
        let net = net_text::read(alloc, NET)?;
        let mut desk = Desk::new(alloc, net, 16, 100)?;
        let mut own = OwnDesk::new(&mut desk, 1);
        let mut line = mem_line(alloc, bytes, 5, read_fails, write_fails)?;
        let answer = session(alloc, &mut own, &mut NoPlans, 16, &mut line);
        assert_eq!(rt; answer, end);
        assert_eq!(rt; line.taken(), text);
    }
    Ok(())
}

#[test]
fn the_longest_line(rt: HostRuntime) -> Result<(), Fail> {
    let alloc = rt.alloc();
    let rows: [(usize, &[u8], SessionEnd, &[u8]); 4] = [
        (
            4_096,
            b"\n",
            SessionEnd::Ended { stop: false },
            b"opened 1 0\nno bad-line words\n",
        ),
        (
            4_096,
            b"",
            SessionEnd::Ended { stop: false },
            b"opened 1 0\nno bad-line words\n",
        ),
        (
            4_097,
            b"\nquit\n",
            SessionEnd::LongLine { line: 2 },
            b"opened 1 0\n",
        ),
        (
            4_097,
            b"",
            SessionEnd::LongLine { line: 2 },
            b"opened 1 0\n",
        ),
    ];
    for (letters, tail, end, text) in rows {
        let net = net_text::read(alloc, NET)?;
        let mut desk = Desk::new(alloc, net, 16, 100)?;
        let mut own = OwnDesk::new(&mut desk, 1);
        let mut bytes = b"open\n".to_vec(alloc)?;
        for _ in 0..letters {
            bytes.push(b'a')?;
        }
        bytes.extend_from_slice(tail)?;
        let source = MemSource::new(bytes, 5_000, Vec::new(alloc));
        let mut line = MemLine::new(source, MemSink::new(alloc, 100, Vec::new(alloc)));
        assert_eq!(rt; session(alloc, &mut own, &mut NoPlans, 16, &mut line), end);
        assert_eq!(rt; line.taken(), text);
    }
    Ok(())
}

#[test]
fn lines_that_say_nothing(rt: HostRuntime) {
    let empty: [&[u8]; 3] = [b"", b" \t\r", b"# quit"];
    for line in empty {
        assert!(rt; matches!(read_command(line), Ok(None)));
    }
    assert!(rt; matches!(read_command(b"quit now"), Err(LineFault::Words)));
}

#[test]
fn texts_of_answers(rt: HostRuntime) -> Result<(), Fail> {
    let alloc = rt.alloc();
    let arrive = Command::Ask(Event::Arrive {
        round: 3,
        entry: 12,
        verdict: Verdict::Pass,
    });
    let rows: [(Answer, &[u8]); 11] = [
        (
            Answer::Replied(Reply::Counted {
                verdict: Verdict::Fail,
            }),
            b"counted 3 12 fail\n",
        ),
        (Answer::Replied(Reply::Departed), b"departed 3 12\n"),
        (
            Answer::Replied(Reply::Changed { version: 7 }),
            b"version 7\n",
        ),
        (
            Answer::Replied(Reply::Refused(Refusal::Moved { pinned: 0, now: 1 })),
            b"no moved 0 1\n",
        ),
        (
            Answer::Replied(Reply::Refused(Refusal::AlreadyCounted {
                verdict: Verdict::Pass,
            })),
            b"no already-counted pass\n",
        ),
        (
            Answer::Replied(Reply::Refused(Refusal::LogFull { at: 4_194_304 })),
            b"no log-full 4194304\n",
        ),
        (
            Answer::Replied(Reply::Refused(Refusal::Rule(NetFault::Width))),
            b"no width\n",
        ),
        (Answer::Replied(Reply::NoMemory), b"no memory\n"),
        (Answer::Replied(Reply::Unkept), b"no journal\n"),
        (Answer::TableFull { limit: 5 }, b"no table-full 5\n"),
        (Answer::Bye, b"bye\n"),
    ];
    for (answer, text) in rows {
        assert_eq!(rt; reply_text(alloc, &arrive, &answer)?.as_slice(), text);
    }
    Ok(())
}

#[test]
fn text_of_a_report(rt: HostRuntime) -> Result<(), Fail> {
    let alloc = rt.alloc();
    let mut suspects = RuleList::new(alloc);
    suspects.push(RuleId::of(5))?;
    suspects.push(RuleId::of(19))?;
    let report = Report {
        suspects,
        guilty: RuleList::new(alloc),
        odd: None,
        next: Some(4),
    };
    let text = reply_text(
        alloc,
        &Command::Ask(Event::Locate { round: 3 }),
        &Answer::Replied(Reply::Located(report)),
    )?;
    assert_eq!(rt;
        text.as_slice(),
        b"found 3 suspects 5,19 guilty - odd - next 4\n".as_slice()
    );
    Ok(())
}
