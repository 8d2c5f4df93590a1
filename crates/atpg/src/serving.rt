//! A session that is served of an input that was read before.
ghost use Rattle.std.specs.Prelude.{◌≡◌, ◌⊎◌, ◌≤◌, ℕ, List, true, map, length};
ghost use Rattle.std.specs.String.{string_bytes};
ghost use Rattle.byte_edges.specs.Counts.{Rose};
ghost use Rattle.network_model.specs.WellFormed.{IsWellFormed};
ghost use Rattle.session_lines.specs.Readings.{reading};
ghost use Rattle.text_words.specs.Words.{lines_of};
ghost use Rattle.atpg.specs.CommandLine.{begins_with_run, LimitsFit};
ghost use Rattle.program_edges.specs.Input.{ReadWhole};
ghost use Rattle.atpg.specs.SessionRun.{lines_of_session, EndsSession, HasSession, NoNetwork, IsSessionRun};
ghost use Rattle.atpg.specs.Serving.{CanEnd, IsEndedAs, NotNetwork};

use crate::limits::SessionLimits;
use crate::session_line::SessionLine;
use crate::status::Status;
use crate::words::session_limits;
use byte_edges::{ReadAll, Sink, Source, read_all};
use desk_core::{Desk, OwnDesk};
use net_text::ReadNet;
use net_types::Network;
use plan_build::WavePlanner;
use program_edges::MOST_BYTES;
use session_lines::{SessionEnd, session};
use std::alloc::Global;
use std::thread::Threads;
use text_parts::{part_after, part_before};

/// The word of the line before the session.
const SESSION: &[u8] = b"session";

/// Reads a network from the source, and serves the session that follows it at a desk over that network.
pub(crate) fn run_session<R: Threads + Sync, S: Source, K: Sink>(
    rt: &R,
    alloc: Global,
    words: &[String],
    source: &mut S,
    sink: &mut K,
) -> Status
    requires { begins_with_run (map string_bytes words.now) ≡ true }
    ensures { IsSessionRun (map string_bytes words.now) S.left S.given S.ends S.faults K.taken K.faults source.old source.new sink.old sink.new result }
{
    match session_limits(words) {
        Ok(limits) => serve_source(rt, alloc, limits, source, sink),
        Err(at) => Status::BadWords { at },
    }
}

/// The same, once the words are read.
fn serve_source<R: Threads + Sync, S: Source, K: Sink>(
    rt: &R,
    alloc: Global,
    limits: SessionLimits,
    source: &mut S,
    sink: &mut K,
) -> Status
    requires { LimitsFit limits }
    ensures so { (NoNetwork S.left S.given S.ends S.faults source.old source.new result × (sink.new ≡ sink.old))
        ⊎ ((bytes : List ℕ) × ReadWhole S.left S.given S.ends source.old source.new bytes × HasSession limits bytes (K.taken sink.old) (K.taken sink.new) result) }
    ensures write_fault { (written : ℕ) → result ≡ Status.WriteFault written → Rose (K.faults sink.old) (K.faults sink.new) }
{
    match read_all(alloc, source, MOST_BYTES) {
        Ok(bytes) => serve_bytes(rt, alloc, limits, &bytes, sink),
        Err(ReadAll::ReadFault) => Status::ReadFault,
        Err(ReadAll::TooLong) => Status::TooLong,
        Err(ReadAll::NoMemory) => Status::NoMemory,
    }
}

/// Serves the session of an input of these bytes.
fn serve_bytes<R: Threads + Sync, K: Sink>(
    rt: &R,
    alloc: Global,
    limits: SessionLimits,
    bytes: &[u8],
    sink: &mut K,
) -> Status
    requires fits { LimitsFit limits }
    requires few { length bytes.now ≤ 67108864 }
    ensures so { (NotNetwork bytes.now result × (sink.new ≡ sink.old)) ⊎ HasSession limits bytes.now (K.taken sink.old) (K.taken sink.new) result }
    ensures write_fault { (written : ℕ) → result ≡ Status.WriteFault written → Rose (K.faults sink.old) (K.faults sink.new) }
{
    match net_text::read(alloc, part_before(bytes, SESSION)) {
        Ok(net) => serve_net(rt, alloc, limits, net, session_part(bytes), sink),
        Err(ReadNet::BadNet { line, fault }) => Status::BadNet { line, fault },
        Err(ReadNet::NoMemory) => Status::NoMemory,
    }
}

/// What stands after the line `session`. There is nothing where there is no such line.
fn session_part(bytes: &[u8]) -> &[u8]
    ensures lines { reading 1 (lines_of result.now) ≡ reading 1 (lines_of_session bytes.now) }
    ensures few { length result.now ≤ length bytes.now }
{
    match part_after(bytes, SESSION) {
        Some(part) => part,
        None => b"",
    }
}

/// Serves a session at a new desk over this network.
fn serve_net<R: Threads + Sync, K: Sink>(
    rt: &R,
    alloc: Global,
    limits: SessionLimits,
    net: Network,
    part: &[u8],
    sink: &mut K,
) -> Status
    requires fits { LimitsFit limits }
    requires few { length part.now ≤ 67108864 }
    ensures well_formed { IsWellFormed net }
    ensures so { EndsSession net limits (reading 1 (lines_of part.now)) (K.taken sink.old) (K.taken sink.new) result }
    ensures write_fault { (written : ℕ) → result ≡ Status.WriteFault written → Rose (K.faults sink.old) (K.faults sink.new) }
{
    // Asked for what it says of the network as a whole.
    let _bits = net.bits();
    let Ok(mut desk) = Desk::new(alloc, net, limits.hops, limits.log) else {
        return Status::NoMemory;
    };
    let mut own = OwnDesk::new(&mut desk, 1);
    let mut planner = WavePlanner::new(rt, alloc, limits.entries, limits.workers);
    let mut line = SessionLine::new(part, sink);
    let end = session(alloc, &mut own, &mut planner, limits.hops, &mut line);
    status_of(end)
}

/// How the run ends where the session ended so. Its bytes can't fail, and they are fewer than a session takes at most.
fn status_of(end: SessionEnd) -> Status
    requires { CanEnd end }
    ensures { IsEndedAs end result }
{
    match end {
        SessionEnd::Ended { .. } => Status::Done,
        SessionEnd::LongLine { line } => Status::LongLine { line },
        SessionEnd::WriteFault { written } => Status::WriteFault { written },
        SessionEnd::NoMemory => Status::NoMemory,
        SessionEnd::ReadFault | SessionEnd::Spent => unreachable!(),
    }
}
