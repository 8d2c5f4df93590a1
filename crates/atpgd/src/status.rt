//! How the server ends.
ghost use Rattle.std.specs.Prelude.{◌≡◌, ◌+◌, ◌<◌, ◌≤◌, [], ◌∷◌, ◌++◌, length, decimal};
ghost use Rattle.atpgd.specs.Statuses.{exit_number, status_text};

use arrayvec::ArrayVec;
use net_text::TextFault;
use program_edges::{StatusLine, bad_net_line, line, numbered_line};

/// How the server ends. Only `Done` is no failure.
#[derive(Clone, Copy, Debug, PartialEq, Eq)]
pub enum Status {
    /// Every worker ended at `stop`, or since its door was shut.
    Done,
    /// The word at this place, from 1, can't stand there, or one is missing there.
    BadWords { at: u64 },
    /// The source failed.
    ReadFault,
    /// The input is longer than it may be.
    TooLong,
    /// The input is no network, by this fault of this line, counted from 1.
    BadNet { line: u64, fault: TextFault },
    /// A door failed, or the harbour failed to open one.
    DoorFault,
    NoMemory,
}

impl Status {
    /// The number with which the program ends.
    pub fn number(&self) -> u8
        ensures { result ≡ exit_number self.now }
    {
        match *self {
            Status::Done => 0,
            Status::BadWords { .. } => 2,
            Status::ReadFault => 3,
            Status::TooLong => 5,
            Status::BadNet { .. } => 6,
            Status::NoMemory => 10,
            Status::DoorFault => 11,
        }
    }

    /// What is told on standard error: nothing where there is no failure, and else a line.
    pub fn text(&self) -> StatusLine
        ensures { result.items ≡ status_text self.now }
    {
        match *self {
            Status::Done => ArrayVec::new(),
            Status::BadWords { at } => numbered_line("bad words at ", at, ""),
            Status::ReadFault => line("read fault"),
            Status::TooLong => line("input too long"),
            Status::BadNet { line, fault } => bad_net_line(line, fault),
            Status::DoorFault => line("door fault"),
            Status::NoMemory => line("no memory"),
        }
    }
}
