//! A line that is served.
ghost use Rattle.std.specs.Prelude.{◌≡◌, ◌+◌, ◌<◌, ◌≤◌, ◌^◌, ℕ, [], ◌∷◌, None, length, OnOk, IfErr, IsErrOf};
ghost use Rattle.byte_edges.specs.Counts.{raised, Rose};
ghost use Rattle.byte_edges.specs.Writing.{Took};
ghost use Rattle.desk_core.specs.declared.performing.Command.TheVariants.{Quit, Stop};
ghost use Rattle.session_lines.specs.Ending.{ending_stop, GoesOnFrom, IsCut};
ghost use Rattle.session_lines.specs.Readings.{line_reading, command_reading};
ghost use Rattle.session_lines.specs.Sessions.{BreaksOff};

use crate::commands::read_command;
use crate::ends::SessionEnd;
use crate::place::Place;
use crate::replies::{Named, answer_text, fault_line};
use byte_edges::{Line, WriteWhole, write_whole};
use desk_core::{Command, Desks, perform};
use rule_cover::Planner;
use std::alloc::Global;

/// How many bytes a line may have without its line feed.
pub(crate) const MOST_LINE_BYTES: usize = 4_096;

/// Serves a line, without its line feed. An `Err` is the end of the session.
pub(crate) fn serve_line<D: Desks, P: Planner, L: Line>(
    alloc: Global,
    desk: &mut D,
    planner: &mut P,
    hops: u32,
    line: &mut L,
    place: &mut Place,
    bytes: &[u8],
) -> Result<(), SessionEnd>
    requires ready { P.ready planner.old }
    requires few { place.old.lines < 2 ^ 63 }
    ensures ok { OnOk result (GoesOnFrom D.asked (P.limit planner.old) hops (line_reading (place.old.lines + 1) bytes.now) desk.old desk.new (L.Sink.taken line.old) (L.Sink.taken line.new) place.old.written place.new.written) }
    ensures lines { OnOk result (place.new.lines ≡ place.old.lines + 1) }
    ensures err { IfErr result (λ end. BreaksOff D.asked (P.limit planner.old) hops (line_reading (place.old.lines + 1) bytes.now) place.old.written desk.old desk.new (L.Sink.taken line.old) (L.Sink.taken line.new) end) }
    ensures failed { (written : ℕ) → IsErrOf result (SessionEnd.WriteFault written) → Rose (L.Sink.faults line.old) (L.Sink.faults line.new) }
    ensures no_fall { L.Sink.faults line.old ≤ L.Sink.faults line.new }
    ensures aside { L.Sink.beside line.new ≡ L.Sink.beside line.old }
    ensures limit { P.limit planner.new ≡ P.limit planner.old }
    ensures ready { P.ready planner.new }
{
    place.lines += 1;
    if bytes.len() > MOST_LINE_BYTES {
        return Err(SessionEnd::LongLine { line: place.lines });
    }
    match read_command(bytes) {
        Ok(None) => Ok(()),
        Ok(Some(command)) => serve_command(
            alloc,
            desk,
            planner,
            hops,
            line,
            &mut place.written,
            command,
        ),
        Err(fault) => write_text(line, &mut place.written, fault_line(fault)),
    }
}

fn serve_command<D: Desks, P: Planner, L: Line>(
    alloc: Global,
    desk: &mut D,
    planner: &mut P,
    hops: u32,
    line: &mut L,
    written: &mut u64,
    command: Command,
) -> Result<(), SessionEnd>
    requires ready { P.ready planner.old }
    ensures ok { OnOk result (GoesOnFrom D.asked (P.limit planner.old) hops (command_reading command) desk.old desk.new (L.Sink.taken line.old) (L.Sink.taken line.new) written.old written.new) }
    ensures err { IfErr result (λ end. BreaksOff D.asked (P.limit planner.old) hops (command_reading command) written.old desk.old desk.new (L.Sink.taken line.old) (L.Sink.taken line.new) end) }
    ensures failed { (written : ℕ) → IsErrOf result (SessionEnd.WriteFault written) → Rose (L.Sink.faults line.old) (L.Sink.faults line.new) }
    ensures no_fall { L.Sink.faults line.old ≤ L.Sink.faults line.new }
    ensures aside { L.Sink.beside line.new ≡ L.Sink.beside line.old }
    ensures limit { P.limit planner.new ≡ P.limit planner.old }
    ensures ready { P.ready planner.new }
{
    let named = Named::by(&command);
    let ending = ending(&command);
    let answer = perform(alloc, desk, planner, hops, command);
    let Ok(text) = answer_text(alloc, named, &answer) else {
        return Err(SessionEnd::NoMemory);
    };
    match write_text(line, written, &text) {
        Err(end) => Err(end),
        Ok(()) => match ending {
            Some(end) => Err(end),
            None => Ok(()),
        },
    }
}

/// The end of the session at a command, where it ends one.
fn ending(command: &Command) -> Option<SessionEnd>
    ensures { result ≡ ending_stop command.now }
{
    match command {
        Command::Quit => Some(SessionEnd::Ended { stop: false }),
        Command::Stop => Some(SessionEnd::Ended { stop: true }),
        _ => None,
    }
}

/// Writes a reply after others of so many bytes.
fn write_text<L: Line>(line: &mut L, written: &mut u64, text: &[u8]) -> Result<(), SessionEnd>
    ensures ok { OnOk result (Took (L.Sink.taken line.old) (L.Sink.taken line.new) text.now) }
    ensures counted { OnOk result (written.new ≡ raised written.old (length text.now)) }
    ensures err { IfErr result (λ end. IsCut (L.Sink.taken line.old) (L.Sink.taken line.new) text.now written.old end) }
    ensures failed { (written : ℕ) → IsErrOf result (SessionEnd.WriteFault written) → Rose (L.Sink.faults line.old) (L.Sink.faults line.new) }
    ensures no_fall { L.Sink.faults line.old ≤ L.Sink.faults line.new }
    ensures aside { L.Sink.beside line.new ≡ L.Sink.beside line.old }
{
    match write_whole(line, text) {
        Ok(()) => {
            *written = written.saturating_add(text.len() as u64);
            Ok(())
        }
        Err(WriteWhole::WriteFault { written: more }) => Err(SessionEnd::WriteFault {
            written: written.saturating_add(more),
        }),
        Err(WriteWhole::NoMemory) => Err(SessionEnd::NoMemory),
    }
}
