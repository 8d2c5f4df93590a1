//! Sessions after a network.
ghost use Rattle.std.specs.Prelude.{◌≤◌};

use super::status::Status;
use super::tests::{Ran, TWO_BOXES, run_over, sink, source};
use net_text::TextFault;
use std::alloc::{AllocError, Global};
use std::process::Abort;
use std::test::Fail;
use std::thread::Threads;

/// A box whose rule 5 takes 1xx0.
const ONE_BOX: &str =
    "atpg-net 1 4\nbox 1\nport 11 1\nport 12 1\nterm 1 11 send\nterm 2 12 receive\npermit 1 xxxx\nrule 5 1 10 * 1xx0 12\n";

/// The same with a second terminal that sends.
const TWO_SENDERS: &str =
    "atpg-net 1 4\nbox 1\nport 11 1\nport 12 1\nterm 1 11 send\nterm 2 12 receive\npermit 1 xxxx\nrule 5 1 10 * 1xx0 12\nport 13 1\nterm 3 13 send\npermit 3 xxxx\n";

#[derive(Clone, Copy)]
struct Served {
    words: &'static str,
    net: &'static str,
    lines: &'static str,
    status: Status,
    replies: &'static str,
}

/// A session that is served to its end.
fn done(net: &'static str, lines: &'static str, replies: &'static str) -> Served {
    done_by("run", net, lines, replies)
}

fn done_by(
    words: &'static str,
    net: &'static str,
    lines: &'static str,
    replies: &'static str,
) -> Served {
    Served {
        words,
        net,
        lines,
        status: Status::Done,
        replies,
    }
}

/// A run that is refused before anything is written.
fn refused(words: &'static str, lines: &'static str, status: Status) -> Served {
    Served {
        words,
        net: ONE_BOX,
        lines,
        status,
        replies: "",
    }
}

/// Runs over a source and a sink that never fail.
fn serve<R: Threads + Sync>(
    rt: &R,
    alloc: Global,
    words: &str,
    net: &str,
    lines: &str,
) -> Result<Ran, AllocError> {
    let mut input = String::from_str(alloc, net)?;
    input.push_str(lines)?;
    let input = source(alloc, input.as_str(), 4096, &[])?;
    run_over(rt, alloc, words, input, sink(alloc, 4096, &[])?)
}

fn check<R: Threads + Sync + Abort>(rt: &R, alloc: Global, served: &Served) -> Result<(), Fail> {
    let ended = serve(rt, alloc, served.words, served.net, served.lines)?;
    assert_eq!(rt; ended.status, served.status);
    assert_eq!(rt; ended.taken.as_slice(), served.replies.as_bytes());
    Ok(())
}

fn check_all<R: Threads + Sync + Abort>(
    rt: &R,
    alloc: Global,
    cases: &[Served],
) -> Result<(), Fail> {
    for served in cases {
        check(rt, alloc, served)?;
    }
    Ok(())
}

#[test]
fn rounds_and_changes(rt: HostRuntime) -> Result<(), Fail> {
    let cases = [
        done(ONE_BOX, "", ""),
        done(ONE_BOX, "session", ""),
        done(
            ONE_BOX,
            "session\nopen\nplan 1\ndepart 1 1\nadd 6 1 20 * 0xxx 12\narrive 1 1 pass\nclose 1\n",
            "opened 1 0\nplanned 1 0\natpg-plan 1 4 16\nentry 1 1 2 1000 1110 1000 5\nprobe 1\nend 1 1 0 0\ndeparted 1 1\nversion 1\nno moved 0 1\nclosed 1 suspects - guilty - odd - next -\n",
        ),
        done(
            ONE_BOX,
            "session\nopen\nplan 1\nplan 1\nclose 1\ncurrent\ncut 9\nadd 6 1 20 * 0xxx 12\nplan 1\nquit\n",
            "opened 1 0\nplanned 1 0\natpg-plan 1 4 16\nentry 1 1 2 1000 1110 1000 5\nprobe 1\nend 1 1 0 0\nno already-posted 1\nclosed 1 suspects - guilty - odd - next -\ncurrent 0\nno unknown\nversion 1\nno round 1\nbye\n",
        ),
        done(ONE_BOX, "session\nstop\ncurrent\n", "bye\n"),
    ];
    check_all(&rt, rt.alloc(), &cases)
}

#[test]
fn outcomes_and_findings(rt: HostRuntime) -> Result<(), Fail> {
    let cases = [
        done(
            TWO_SENDERS,
            "session\nopen\nplan 1\ndepart 1 1\narrive 1 1 pass\ndepart 1 2\narrive 1 2 fail\nlocate 1\nclose 1\n",
            "opened 1 0\nplanned 1 0\natpg-plan 1 4 16\nentry 1 1 2 1000 1110 1000 5\nentry 2 3 2 1000 1110 1000 5\nprobe 1\nreserved 2\nend 2 1 1 0\ndeparted 1 1\ncounted 1 1 pass\ndeparted 1 2\ncounted 1 2 fail\nfound 1 suspects - guilty - odd 2 next -\nclosed 1 suspects - guilty - odd 2 next -\n",
        ),
        done(
            ONE_BOX,
            "session\ndepart 1 1\nopen\ndepart 1 1\nplan 1\nplan 1\ndepart 1 0\ndepart 1 2\narrive 1 1 pass\ndepart 1 1\narrive 1 1 fail\narrive 1 1 pass\nlocate 1\ncurrent\ncut 9\nhello\nquit\n",
            "no round 1\nopened 1 0\nno plan 1\nplanned 1 0\natpg-plan 1 4 16\nentry 1 1 2 1000 1110 1000 5\nprobe 1\nend 1 1 0 0\nno already-posted 1\nno entry 0\nno entry 2\nno not-sent\ndeparted 1 1\ncounted 1 1 fail\nno already-counted fail\nfound 1 suspects 5 guilty 5 odd - next -\ncurrent 0\nno unknown\nno bad-line words\nbye\n",
        ),
    ];
    check_all(&rt, rt.alloc(), &cases)
}

#[test]
fn lines_that_are_none(rt: HostRuntime) -> Result<(), Fail> {
    let cases = [
        done(
            ONE_BOX,
            "session # of the lab\r\nopen\r\n\r\n# nothing\r\narrive 1 1 lost\r\nplan\r\ncut 0x\r\nadd 6 1 1 * 0y 12\r\nopen # more\r\n",
            "opened 1 0\nno bad-line words\nno bad-line words\nno bad-line number\nno bad-line letters\nopened 2 0\n",
        ),
        done(
            ONE_BOX,
            "session\nadd 6 1 1 * 0xx 12\nadd 5 1 1 * 0xxx 12\nadd 6 9 1 * 0xxx 12\nsession\ncut 5\n",
            "no width\nno twice\nno unknown\nno bad-line words\nversion 1\n",
        ),
    ];
    check_all(&rt, rt.alloc(), &cases)
}

#[test]
fn limits_of_the_words(rt: HostRuntime) -> Result<(), Fail> {
    let cases = [
        done_by(
            "run --log 2",
            ONE_BOX,
            "session\nopen\ncurrent\ncurrent\nopen\n",
            "opened 1 0\ncurrent 0\nno log-full 2\nno log-full 2\n",
        ),
        done_by(
            "run --log 2",
            ONE_BOX,
            "session\nopen\nplan 1\n",
            "opened 1 0\nno log-full 2\n",
        ),
        done_by(
            "run --entries 1 --workers 2",
            TWO_BOXES,
            "session\nopen\nplan 1\n",
            "opened 1 0\nno table-full 1\n",
        ),
        done_by(
            "run --hops 15",
            ONE_BOX,
            "session\nopen\nplan 1\n",
            "opened 1 0\nplanned 1 0\natpg-plan 1 4 15\nentry 1 1 2 1000 1110 1000 5\nprobe 1\nend 1 1 0 0\n",
        ),
    ];
    check_all(&rt, rt.alloc(), &cases)
}

#[test]
fn refuses_words_and_networks(rt: HostRuntime) -> Result<(), Fail> {
    let bad_net = Status::BadNet {
        line: 9,
        fault: TextFault::Words,
    };
    let cases = [
        refused("run --hops 256", "", Status::BadWords { at: 3 }),
        refused("run --entries 262145", "", Status::BadWords { at: 3 }),
        refused("run --workers 65", "", Status::BadWords { at: 3 }),
        refused("run --log 0", "", Status::BadWords { at: 3 }),
        refused("run --log 4194305", "", Status::BadWords { at: 3 }),
        refused("run --log 2 --log 3", "", Status::BadWords { at: 4 }),
        refused("run --faults 5", "", Status::BadWords { at: 2 }),
        refused("plan --log 2", "", Status::BadWords { at: 2 }),
        refused("run", "session 1\nopen\n", bad_net),
    ];
    check_all(&rt, rt.alloc(), &cases)
}

#[test]
fn no_network_before_the_session(rt: HostRuntime) -> Result<(), Fail> {
    let ended = serve(&rt, rt.alloc(), "run", "\n\n", "session\nopen\n")?;
    let no_head = Status::BadNet {
        line: 3,
        fault: TextFault::NoHead,
    };
    assert_eq!(rt; ended.status, no_head);
    assert_eq!(rt; ended.taken.as_slice(), b"".as_slice());
    Ok(())
}

/// Lines of which the second has so many letters.
fn with_letters(alloc: Global, letters: usize) -> Result<String, AllocError>
    requires { letters ≤ 5000 }
{
    let mut lines = String::from_str(alloc, "session\nopen\n")?;
    for _ in 0..letters {
        lines.push('a')?;
    }
    lines.push_str("\nopen\n")?;
    Ok(lines)
}

#[test]
fn the_longest_line(rt: HostRuntime) -> Result<(), Fail> {
    let alloc = rt.alloc();
    let most = with_letters(alloc, 4096)?;
    let ended = serve(&rt, alloc, "run", ONE_BOX, most.as_str())?;
    assert_eq!(rt; ended.status, Status::Done);
    assert!(rt; ended.wrote("opened 1 0\nno bad-line words\nopened 2 0\n"));
    let more = with_letters(alloc, 4097)?;
    let ended = serve(&rt, alloc, "run", ONE_BOX, more.as_str())?;
    assert_eq!(rt; ended.status, Status::LongLine { line: 2 });
    assert!(rt; ended.wrote("opened 1 0\n"));
    Ok(())
}

const SHORT: &str = "atpg-net 1 4\nsession\nopen\ncurrent\n";

#[test]
fn a_write_fails_in_mid_session(rt: HostRuntime) -> Result<(), Fail> {
    let alloc = rt.alloc();
    let input = source(alloc, SHORT, 4096, &[])?;
    let ended = run_over(&rt, alloc, "run", input, sink(alloc, 16, &[2])?)?;
    assert_eq!(rt; ended.status, Status::WriteFault { written: 11 });
    assert!(rt; ended.wrote("opened 1 0\n"));
    let input = source(alloc, SHORT, 1, &[])?;
    let ended = run_over(&rt, alloc, "run", input, sink(alloc, 5, &[4])?)?;
    assert_eq!(rt; ended.status, Status::WriteFault { written: 11 });
    assert!(rt; ended.wrote("opened 1 0\n"));
    Ok(())
}

#[test]
fn a_read_fails_before_the_session(rt: HostRuntime) -> Result<(), Fail> {
    let alloc = rt.alloc();
    let input = source(alloc, SHORT, 30, &[2])?;
    let ended = run_over(&rt, alloc, "run", input, sink(alloc, 16, &[])?)?;
    assert_eq!(rt; ended.status, Status::ReadFault);
    assert!(rt; ended.wrote(""));
    Ok(())
}
