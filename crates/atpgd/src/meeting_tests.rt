//! Two workers at once: each line waits at its first read until the other is read too.

mod door;
mod harbour;
mod line;
mod place;

use super::daemon::{Hosted, daemon};
use super::serve::Worker;
use super::status::Status;
use super::tests::{NETWORK, line, source, words_of};
use super::work_end::WorkEnd;
use byte_edges::MemSource;
use door::MeetingDoor;
use harbour::MeetingHarbour;
use line::MeetingLine;
use place::Place;
use std::alloc::{AllocError, Global};
use std::process::Abort;
use std::sync::Wait;
use std::sync::atomic::Ordering;
use std::test::Fail;
use std::thread::Threads;

/// A door whose line comes to its own place and waits for the one that comes to the other.
fn waiting_door<'a>(
    alloc: Global,
    own: &'a Place,
    other: &'a Place,
) -> Result<MeetingDoor<'a>, AllocError> {
    let meeting = MeetingLine {
        line: line(alloc, "current\nstop\n")?,
        own,
        other,
        begun: false,
    };
    Ok(MeetingDoor {
        left: Some(meeting),
        back: None,
        given: 0,
        shut: 0,
    })
}

/// The server over two doors whose lines wait for one another.
fn serve_both<'a, R: Threads + Wait + Sync>(
    rt: &R,
    alloc: Global,
    words: &[String],
    from: &mut MemSource,
    port: &mut MeetingHarbour<'a>,
) -> (Status, Option<Hosted<MeetingDoor<'a>>>) {
    daemon(rt, alloc, words, from, port)
}

/// A worker that stopped, and whose line has both replies.
fn check_worker(rt: &impl Abort, worker: &Worker<MeetingDoor<'_>>) -> Result<(), Fail> {
    assert_eq!(rt; worker.ended, Some(WorkEnd::Stopped));
    let Some(back) = &worker.door.back else {
        return Err(Fail::from("not given back"));
    };
    assert_eq!(rt; back.line.taken(), b"current 0\nbye\n".as_slice());
    Ok(())
}

/// A harbour of two doors whose lines come to these places.
fn harbour_of<'a>(
    alloc: Global,
    first: &'a Place,
    second: &'a Place,
) -> Result<MeetingHarbour<'a>, AllocError> {
    Ok(MeetingHarbour {
        next: Some(waiting_door(alloc, first, second)?),
        last: Some(waiting_door(alloc, second, first)?),
    })
}

fn check_hosted(rt: &impl Abort, hosted: &Hosted<MeetingDoor<'_>>) -> Result<(), Fail> {
    assert_eq!(rt; hosted.workers.len(), 2);
    for worker in &hosted.workers {
        check_worker(rt, worker)?;
    }
    Ok(())
}

/// Both workers stop, each after its replies, at the lines that come to these places.
fn check_server<R: Threads + Wait + Sync + Abort>(
    rt: &R,
    alloc: Global,
    first: &Place,
    second: &Place,
) -> Result<(), Fail> {
    let mut port = harbour_of(alloc, first, second)?;
    let words = words_of(alloc, "--port 4000 --seats 2")?;
    let mut from = source(alloc, NETWORK, &[])?;
    let (status, hosted) = serve_both(rt, alloc, &words, &mut from, &mut port);
    assert_eq!(rt; status, Status::Done);
    match &hosted {
        Some(hosted) => check_hosted(rt, hosted),
        None => Err(Fail::from("not served")),
    }
}

#[test]
fn two_workers_meet(rt: HostRuntime) -> Result<(), Fail> {
    let first = Place::new();
    let second = Place::new();
    check_server(&rt, rt.alloc(), &first, &second)?;
    assert!(rt; first.met.load(Ordering::SeqCst));
    assert!(rt; second.met.load(Ordering::SeqCst));
    Ok(())
}
