//! The whole of the program, over what it is given.
ghost use Rattle.std.specs.Prelude.{◌≡◌};
ghost use Rattle.program_edges.specs.Telling.{IsTold};
ghost use Rattle.atpgd.specs.Doors.{door_side, line_sides};
ghost use Rattle.atpgd.specs.Statuses.{exit_number, status_text};
ghost use Rattle.atpgd.specs.Program.{HasServed};

use crate::daemon::daemon;
use crate::status::Status;
use byte_edges::{Door, Harbour, Sink, Source, Words, WriteWhole};
use program_edges::{arguments, tell};
use std::alloc::Global;
use std::sync::Wait;
use std::thread::Threads;

/// How the program ends.
#[derive(Clone, Copy, Debug)]
pub(crate) struct Ending {
    /// The number with which it ends.
    pub(crate) number: u8,
    /// Whether the text of the status was told.
    pub(crate) told: Result<(), WriteWhole>,
}

/// Serves as the words ask, and tells how that ended on the sink for errors. Where that sink fails too, the number still tells.
pub(crate) fn program<R: Threads + Wait + Sync, W: Words, S: Source, H: Harbour, E: Sink>(
    rt: &R,
    alloc: Global,
    given: &W,
    source: &mut S,
    harbour: &mut H,
    errors: &mut E,
) -> Ending
where
    H::Made: Drop,
    <H::Made as Door>::Conn: Send,
    ensures { (status : Status) × (result.number ≡ exit_number status)
        × IsTold E.taken E.faults errors.old errors.new (status_text status) result.told
        × HasServed (W.words given.now) S.left S.given S.ends S.faults H.doors H.faults
        (door_side H.Made.lines H.Made.back H.Made.faults H.Made.given H.Made.shut)
        (line_sides H.Made.Conn.Source.left H.Made.Conn.Source.given H.Made.Conn.Source.ends H.Made.Conn.Source.faults H.Made.Conn.Sink.taken H.Made.Conn.Sink.faults)
        source.old source.new harbour.old harbour.new status }
{
    let status = serve_given(rt, alloc, given, source, harbour);
    let told = tell(errors, &status.text());
    Ending {
        number: status.number(),
        told,
    }
}

/// Serves as the words ask.
fn serve_given<R: Threads + Wait + Sync, W: Words, S: Source, H: Harbour>(
    rt: &R,
    alloc: Global,
    given: &W,
    source: &mut S,
    harbour: &mut H,
) -> Status
where
    H::Made: Drop,
    <H::Made as Door>::Conn: Send,
    ensures { HasServed (W.words given.now) S.left S.given S.ends S.faults H.doors H.faults
        (door_side H.Made.lines H.Made.back H.Made.faults H.Made.given H.Made.shut)
        (line_sides H.Made.Conn.Source.left H.Made.Conn.Source.given H.Made.Conn.Source.ends H.Made.Conn.Source.faults H.Made.Conn.Sink.taken H.Made.Conn.Sink.faults)
        source.old source.new harbour.old harbour.new result }
{
    match arguments(given, alloc) {
        Ok(words) => {
            let served = daemon(rt, alloc, &words, source, harbour);
            served.0
        }
        Err(_) => Status::NoMemory,
    }
}
