//! The whole of the program, over what it is given.
ghost use Rattle.std.specs.Prelude.{◌≡◌};
ghost use Rattle.program_edges.specs.Telling.{IsTold};
ghost use Rattle.atpg.specs.Statuses.{exit_number, status_text};
ghost use Rattle.atpg.specs.Program.{HasRun};

use crate::run::run;
use crate::status::Status;
use byte_edges::{Sink, Source, Words, WriteWhole};
use program_edges::{arguments, tell};
use std::alloc::Global;
use std::thread::Threads;

/// How the program ends.
#[derive(Clone, Copy, Debug)]
pub(crate) struct Ending {
    /// The number with which it ends.
    pub(crate) number: u8,
    /// Whether the text of the status was told.
    pub(crate) told: Result<(), WriteWhole>,
}

/// Runs as the words ask, and tells how that ended on the sink for errors. Where that sink fails too, the number still tells.
pub(crate) fn program<R: Threads + Sync, W: Words, S: Source, K: Sink, E: Sink>(
    rt: &R,
    alloc: Global,
    given: &W,
    source: &mut S,
    sink: &mut K,
    errors: &mut E,
) -> Ending
    ensures { (status : Status) × (result.number ≡ exit_number status)
        × IsTold E.taken E.faults errors.old errors.new (status_text status) result.told
        × HasRun (W.words given.now) S.left S.given S.ends S.faults K.taken K.faults source.old source.new sink.old sink.new status }
{
    let status = run_given(rt, alloc, given, source, sink);
    let told = tell(errors, &status.text());
    Ending {
        number: status.number(),
        told,
    }
}

/// Runs as the words ask.
fn run_given<R: Threads + Sync, W: Words, S: Source, K: Sink>(
    rt: &R,
    alloc: Global,
    given: &W,
    source: &mut S,
    sink: &mut K,
) -> Status
    ensures { HasRun (W.words given.now) S.left S.given S.ends S.faults K.taken K.faults source.old source.new sink.old sink.new result }
{
    match arguments(given, alloc) {
        Ok(words) => run(rt, alloc, &words, source, sink),
        Err(_) => Status::NoMemory,
    }
}
