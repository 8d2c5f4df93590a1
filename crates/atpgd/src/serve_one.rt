//! One line, served by one session.
ghost use Rattle.std.specs.Prelude.{◌≡◌, ◌≤◌};
ghost use Rattle.atpgd.specs.Doors.{line_sides};
ghost use Rattle.atpgd.specs.Serving.{serving};

use crate::words::Options;
use byte_edges::Line;
use desk_turns::{Pass, SeatDesk, SharedDesk};
use plan_build::WavePlanner;
use session_lines::{SessionEnd, session};
use std::alloc::Global;
use std::sync::Wait;
use std::thread::Threads;

/// Serves a session over a line, with a pass of the desk: reads lines, asks the desk what they say, and writes the reply of each
/// line in order. A plan is made while the pass waits for no turn, by so many threads as the options say, and then posted.
///
/// It may wait for other callers of the desk, and for the line.
pub fn serve_one<R: Threads + Wait + Sync, L: Line>(
    rt: &R,
    alloc: Global,
    line: &mut L,
    desk: &SharedDesk,
    pass: &mut Pass,
    opts: &Options,
) -> SessionEnd
    requires desk { pass.old.desk.table ≡ desk.now.table }
    requires workers { (1 ≤ opts.now.workers) × (opts.now.workers ≤ 64) }
    ensures served { serving (line_sides L.Source.left L.Source.given L.Source.ends L.Source.faults L.Sink.taken L.Sink.faults) opts.now pass.old pass.new line.old line.new result }
    ensures same_desk { pass.new.desk ≡ pass.old.desk }
{
    let mut seat = SeatDesk::new(rt, desk, pass);
    let mut planner = WavePlanner::new(rt, alloc, opts.entries, opts.workers);
    session(alloc, &mut seat, &mut planner, opts.hops, line)
}
