//! Workers, each of which serves the lines of a door.
ghost use Rattle.std.specs.Prelude.{◌≡◌, ◌≤◌, All, None, Some, IsSome};
ghost use Rattle.std.specs.List.{AllZip};
ghost use Rattle.std.specs.Thread.{IsSync};
ghost use Rattle.atpgd.specs.Doors.{door_side, line_sides};
ghost use Rattle.atpgd.specs.Serving.{serving, IsWorked};
ghost use Rattle.atpgd.specs.Working.{HasWorked};
ghost use Rattle.atpgd.specs.Ends.{end_of};

use crate::serve_one::serve_one;
use crate::words::Options;
use crate::work_end::WorkEnd;
use byte_edges::{Door, EdgeFault};
use desk_turns::{Pass, SharedDesk};
use session_lines::SessionEnd;
use std::alloc::Global;
use std::sync::Wait;
use std::thread;
use std::thread::Threads;

/// A worker: the door whose lines it serves, its pass of the desk, and how it ended, once it did.
#[derive(Drop)]
pub struct Worker<D> {
    pub door: D,
    pub pass: Pass,
    pub ended: Option<WorkEnd>,
}

/// Each worker, in a thread of its own where one can be started, accepts one line after another, serves it by one session with
/// its pass, and gives it back to its door, until a session ends at `stop`, its door is shut or fails, or the door has no memory
/// for a line. A session that ends otherwise lets the worker go on. It may wait.
pub fn serve<R: Threads + Wait + Sync, D: Door + Send>(
    rt: &R,
    alloc: Global,
    desk: &SharedDesk,
    workers: &mut Vec<Worker<D>>,
    opts: &Options,
)
where
    D::Conn: Send,
    requires desk { All (λ w. w.pass.desk.table ≡ desk.now.table) workers.old.items }
    requires workers { (1 ≤ opts.now.workers) × (opts.now.workers ≤ 64) }
    ensures worked { AllZip (IsWorked (door_side D.lines D.back D.faults D.given D.shut)
        (line_sides D.Conn.Source.left D.Conn.Source.given D.Conn.Source.ends D.Conn.Source.faults D.Conn.Sink.taken D.Conn.Sink.faults) opts.now) workers.old.items workers.new.items }
    ensures ended { All (λ w. IsSome w.ended) workers.new.items }
{
    let threads = workers.len().max(1);
    thread::for_each_mut(
        rt,
        workers.as_mut_slice(),
        threads,
        &|_: usize, worker: &mut Worker<D>|
            requires { IsSync R.row × (worker.old.pass.desk.table ≡ desk.now.table) × (1 ≤ opts.now.workers) × (opts.now.workers ≤ 64) }
            ensures { IsWorked (door_side D.lines D.back D.faults D.given D.shut)
                (line_sides D.Conn.Source.left D.Conn.Source.given D.Conn.Source.ends D.Conn.Source.faults D.Conn.Sink.taken D.Conn.Sink.faults) opts.entry.now worker.old worker.new × IsSome worker.new.ended }
        {
            work(rt, alloc, desk, worker, opts);
        },
    );
}

/// Serves one line after another, until the worker ends.
fn work<R: Threads + Wait + Sync, D: Door>(
    rt: &R,
    alloc: Global,
    desk: &SharedDesk,
    worker: &mut Worker<D>,
    opts: &Options,
)
    requires desk { worker.old.pass.desk.table ≡ desk.now.table }
    requires workers { (1 ≤ opts.now.workers) × (opts.now.workers ≤ 64) }
    ensures worked { IsWorked (door_side D.lines D.back D.faults D.given D.shut)
        (line_sides D.Conn.Source.left D.Conn.Source.given D.Conn.Source.ends D.Conn.Source.faults D.Conn.Sink.taken D.Conn.Sink.faults) opts.now worker.old worker.new }
    ensures ended { IsSome worker.new.ended }
{
    for _ in rt.forever() {
        match serve_next(rt, alloc, desk, &mut worker.door, &mut worker.pass, opts) {
            Some(end) => {
                worker.ended = Some(end);
                return;
            }
            None => {}
        }
    }
    unreachable!()
}

/// Serves the next line of a door, and answers how the worker ends, where it does.
fn serve_next<R: Threads + Wait + Sync, D: Door>(
    rt: &R,
    alloc: Global,
    desk: &SharedDesk,
    door: &mut D,
    pass: &mut Pass,
    opts: &Options,
) -> Option<WorkEnd>
    requires desk { pass.old.desk.table ≡ desk.now.table }
    requires workers { (1 ≤ opts.now.workers) × (opts.now.workers ≤ 64) }
    ensures worked { HasWorked (serving (line_sides D.Conn.Source.left D.Conn.Source.given D.Conn.Source.ends D.Conn.Source.faults D.Conn.Sink.taken D.Conn.Sink.faults) opts.now)
        (door_side D.lines D.back D.faults D.given D.shut door.old) (door_side D.lines D.back D.faults D.given D.shut door.new) pass.old pass.new result }
    ensures same_desk { pass.new.desk ≡ pass.old.desk }
{
    match door.accept() {
        Ok(Some(mut line)) => {
            let end = serve_one(rt, alloc, &mut line, desk, pass, opts);
            door.done(line);
            end_of(end)
        }
        Ok(None) => Some(WorkEnd::Shut),
        Err(EdgeFault::Failed) => Some(WorkEnd::DoorFault),
        Err(EdgeFault::NoMemory) => Some(WorkEnd::NoMemory),
    }
}

/// How a worker ends by the end of a session. Only a `stop` whose `bye` was written ends it.
fn end_of(end: SessionEnd) -> Option<WorkEnd>
    ensures { result ≡ end_of end }
{
    match end {
        SessionEnd::Ended { stop: true } => Some(WorkEnd::Stopped),
        _ => None,
    }
}
