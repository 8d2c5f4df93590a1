//! The server as a whole, over what it is given.
ghost use Rattle.std.specs.Prelude.{◌≡◌, map, All, IfOk, OnOk, IfSome, IfNone, IsErrOf};
ghost use Rattle.std.specs.String.{string_bytes};
ghost use Rattle.byte_edges.specs.Counts.{Rose};
ghost use Rattle.atpgd.specs.CommandLine.{AreInRange};
ghost use Rattle.atpgd.specs.Doors.{door_side, line_sides, AreOpened};
ghost use Rattle.atpgd.specs.Hosting.{failure, status_of, HasHosted, NotOpened, IsDaemon};

use crate::ready::{ReadyDesk, ready};
use crate::serve::{Worker, serve};
use crate::status::Status;
use crate::words::Options;
use crate::work_end::WorkEnd;
use byte_edges::{Door, EdgeFault, Harbour, Source};
use desk_turns::{Pass, SharedDesk};
use std::alloc::Global;
use std::sync::Wait;
use std::thread::Threads;

/// What is there after lines were served: the desk, and the workers with its passes.
#[derive(Drop)]
pub struct Hosted<D> {
    pub desk: SharedDesk,
    pub workers: Vec<Worker<D>>,
}

/// Reads a network from the source, opens a desk over it, and serves it at one door of the harbour for each pass, as the words
/// ask. It answers how that ended, and what is there then, where it came to serving.
///
/// The refusals come in the order words, reading, length, network, doors. It may wait.
pub fn daemon<R: Threads + Wait + Sync, S: Source, H: Harbour>(
    rt: &R,
    alloc: Global,
    words: &[String],
    source: &mut S,
    harbour: &mut H,
) -> (Status, Option<Hosted<H::Made>>)
where
    H::Made: Drop,
    <H::Made as Door>::Conn: Send,
    ensures { IsDaemon (map string_bytes words.now) S.left S.given S.ends S.faults H.doors H.faults
        (door_side H.Made.lines H.Made.back H.Made.faults H.Made.given H.Made.shut)
        (line_sides H.Made.Conn.Source.left H.Made.Conn.Source.given H.Made.Conn.Source.ends H.Made.Conn.Source.faults H.Made.Conn.Sink.taken H.Made.Conn.Sink.faults)
        source.old source.new harbour.old harbour.new result.0 result.1 }
{
    match ready(alloc, words, source) {
        Ok(ready) => host(rt, alloc, ready, harbour),
        Err(status) => (status, None),
    }
}

/// Opens the doors and serves.
fn host<R: Threads + Wait + Sync, H: Harbour>(
    rt: &R,
    alloc: Global,
    ready: ReadyDesk,
    harbour: &mut H,
) -> (Status, Option<Hosted<H::Made>>)
where
    H::Made: Drop,
    <H::Made as Door>::Conn: Send,
    requires range { AreInRange ready.opts }
    requires passes { All (λ p. p.desk.table ≡ ready.desk.table) ready.passes.items }
    ensures some { IfSome result.1 (λ hosted. HasHosted
        (door_side H.Made.lines H.Made.back H.Made.faults H.Made.given H.Made.shut)
        (line_sides H.Made.Conn.Source.left H.Made.Conn.Source.given H.Made.Conn.Source.ends H.Made.Conn.Source.faults H.Made.Conn.Sink.taken H.Made.Conn.Sink.faults)
        ready.opts ready.desk ready.passes.items (H.doors harbour.old) (H.doors harbour.new) (H.faults harbour.old) (H.faults harbour.new) result.0 hosted) }
    ensures none { IfNone result.1 (NotOpened (H.faults harbour.old) (H.faults harbour.new) result.0) }
{
    let ReadyDesk { opts, desk, passes } = ready;
    match workers_of(alloc, passes, harbour, opts.port) {
        Ok(mut workers) => {
            serve(rt, alloc, &desk, &mut workers, &opts);
            let status = status_of(&workers);
            (status, Some(Hosted { desk, workers }))
        }
        Err(EdgeFault::Failed) => (Status::DoorFault, None),
        Err(EdgeFault::NoMemory) => (Status::NoMemory, None),
    }
}

/// A worker for each pass, over a door of its own.
fn workers_of<H: Harbour>(
    alloc: Global,
    passes: Vec<Pass>,
    harbour: &mut H,
    port: u16,
) -> Result<Vec<Worker<H::Made>>, EdgeFault>
where
    H::Made: Drop,
    ensures passes { IfOk result (λ workers. map (λ w. w.pass) workers.items ≡ passes.items) }
    ensures doors { IfOk result (λ workers. AreOpened (H.doors harbour.old) (map (λ w. w.door) workers.items) (H.doors harbour.new)) }
    ensures steady { OnOk result (H.faults harbour.new ≡ H.faults harbour.old) }
    ensures failed { IsErrOf result EdgeFault.Failed → Rose (H.faults harbour.old) (H.faults harbour.new) }
{
    let mut workers = Vec::with_capacity(alloc, passes.len())?;
    for pass in passes {
        let door = harbour.open(port)?;
        let worker = Worker {
            door,
            pass,
            ended: None,
        };
        match workers.push(worker) {
            Ok(()) => {}
            Err(_) => return Err(EdgeFault::NoMemory),
        }
    }
    Ok(workers)
}

/// How the server ends, by how its workers ended.
fn status_of<D>(workers: &[Worker<D>]) -> Status
    ensures { result ≡ status_of (map (λ w. w.ended) workers.now) }
{
    for worker in workers {
        match failure(worker.ended) {
            Some(status) => return status,
            None => {}
        }
    }
    Status::Done
}

/// How the server ends where a worker ended so and none before it failed.
fn failure(ended: Option<WorkEnd>) -> Option<Status>
    ensures { result ≡ failure ended }
{
    match ended {
        None | Some(WorkEnd::Stopped | WorkEnd::Shut) => None,
        Some(WorkEnd::DoorFault) => Some(Status::DoorFault),
        Some(WorkEnd::NoMemory) => Some(Status::NoMemory),
    }
}
