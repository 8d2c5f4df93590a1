ghost use Rattle.std.specs.Prelude.{◌≡◌, ◌+◌, ◌<◌, ◌≤◌, ◌^◌, ℕ, false, length, IfOk, IfErr, IsErrOf};
ghost use Rattle.byte_edges.specs.Counts.{Rose};
ghost use Rattle.session_lines.specs.Ending.{ServesFront, IsLast};
ghost use Rattle.session_lines.specs.Readings.{reading, line_reading};
ghost use Rattle.session_lines.specs.Sessions.{BreaksOff, IsSession, lines_for};

use crate::ends::SessionEnd;
use crate::lines::{MOST_LINE_BYTES, serve_line};
use crate::pending::{read_more, remove_front, split_line};
use crate::place::Place;
use byte_edges::{EdgeFault, Line};
use desk_core::Desks;
use rule_cover::Planner;
use std::alloc::Global;

/// How many bytes a session takes at most.
const MOST_BYTES: usize = 1_099_511_627_776;

/// Serves a session: reads lines, asks the desk what they say, and writes the reply of each line in order. The plans are for
/// so many hops. It may read bytes after the line that ends it, which are lost. Events that were asked stay in the desk,
/// however the session ends.
///
/// Each reply is given to `write` in one piece, and then what is left of it. Each read has room for 4,096 bytes, or for what is
/// left of the most that a session takes.
pub fn session<D: Desks, P: Planner, L: Line>(
    alloc: Global,
    desk: &mut D,
    planner: &mut P,
    hops: u32,
    line: &mut L,
) -> SessionEnd
    requires { P.ready planner.old }
    ensures session { IsSession D.asked L.Source.left L.Source.given L.Source.ends L.Sink.taken (P.limit planner.old) hops desk.old desk.new line.old line.new result }

    // A fault is answered only where the line failed.
    ensures read_failed { result ≡ SessionEnd.ReadFault → Rose (L.Source.faults line.old) (L.Source.faults line.new) }
    ensures write_failed { (written : ℕ) → result ≡ SessionEnd.WriteFault written → Rose (L.Sink.faults line.old) (L.Sink.faults line.new) }
    ensures reads_no_fall { L.Source.faults line.old ≤ L.Source.faults line.new }
    ensures writes_no_fall { L.Sink.faults line.old ≤ L.Sink.faults line.new }
    ensures limit { P.limit planner.new ≡ P.limit planner.old }
    ensures ready { P.ready planner.new }
{
    let mut place = Place {
        lines: 0,
        written: 0,
    };
    let mut pending = Vec::new(alloc);
    let mut room = MOST_BYTES;
    while room > 0 {
        match read_more(line, &mut pending, room) {
            Ok(0) => {
                return serve_last(alloc, desk, planner, hops, line, &mut place, &pending);
            }
            Ok(n) => room -= n,
            Err(EdgeFault::Failed) => return SessionEnd::ReadFault,
            Err(EdgeFault::NoMemory) => return SessionEnd::NoMemory,
        }
        match serve_whole(alloc, desk, planner, hops, line, &mut place, &pending) {
            Ok(served) => remove_front(&mut pending, served),
            Err(end) => return end,
        }
    }
    SessionEnd::Spent
}

/// Serves the lines that are ended by a line feed, and answers how many bytes they are. An `Err` is the end of the session.
fn serve_whole<D: Desks, P: Planner, L: Line>(
    alloc: Global,
    desk: &mut D,
    planner: &mut P,
    hops: u32,
    line: &mut L,
    place: &mut Place,
    bytes: &[u8],
) -> Result<usize, SessionEnd>
    requires ready { P.ready planner.old }
    requires few { place.old.lines + length bytes.now < 2 ^ 63 }
    ensures ok { IfOk result (λ served. ServesFront D.asked (P.limit planner.old) hops bytes.now place.old.lines desk.old desk.new (L.Sink.taken line.old) (L.Sink.taken line.new) place.old.written place.new.written served place.new.lines) }
    ensures err { IfErr result (λ end. BreaksOff D.asked (P.limit planner.old) hops (reading (place.old.lines + 1) (lines_for end false bytes.now)) place.old.written desk.old desk.new (L.Sink.taken line.old) (L.Sink.taken line.new) end) }
    ensures failed { (written : ℕ) → IsErrOf result (SessionEnd.WriteFault written) → Rose (L.Sink.faults line.old) (L.Sink.faults line.new) }
    ensures no_fall { L.Sink.faults line.old ≤ L.Sink.faults line.new }
    ensures aside { L.Sink.beside line.new ≡ L.Sink.beside line.old }
    ensures limit { P.limit planner.new ≡ P.limit planner.old }
    ensures ready { P.ready planner.new }
{
    let mut rest = bytes;
    while let Some((first, more)) = split_line(rest) {
        match serve_line(alloc, desk, planner, hops, line, place, first) {
            Ok(()) => rest = more,
            Err(end) => return Err(end),
        }
    }
    if rest.len() > MOST_LINE_BYTES {
        return Err(SessionEnd::LongLine {
            line: place.lines + 1,
        });
    }
    Ok(bytes.len() - rest.len())
}

/// Serves what follows the last line feed at the end of the input.
fn serve_last<D: Desks, P: Planner, L: Line>(
    alloc: Global,
    desk: &mut D,
    planner: &mut P,
    hops: u32,
    line: &mut L,
    place: &mut Place,
    bytes: &[u8],
) -> SessionEnd
    requires ready { P.ready planner.old }
    requires few { place.old.lines < 2 ^ 63 }
    ensures so { IsLast D.asked (P.limit planner.old) hops (line_reading (place.old.lines + 1) bytes.now) place.old.written desk.old desk.new (L.Sink.taken line.old) (L.Sink.taken line.new) result }
    ensures failed { (written : ℕ) → result ≡ SessionEnd.WriteFault written → Rose (L.Sink.faults line.old) (L.Sink.faults line.new) }
    ensures no_fall { L.Sink.faults line.old ≤ L.Sink.faults line.new }
    ensures aside { L.Sink.beside line.new ≡ L.Sink.beside line.old }
    ensures limit { P.limit planner.new ≡ P.limit planner.old }
    ensures ready { P.ready planner.new }
{
    match serve_line(alloc, desk, planner, hops, line, place, bytes) {
        Ok(()) => SessionEnd::Ended { stop: false },
        Err(end) => end,
    }
}
