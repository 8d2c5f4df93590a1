//! How a run ends.
ghost use Rattle.std.specs.Prelude.{◌≡◌, ◌≤◌, ◌++◌, codes, length};
ghost use Rattle.atpg.specs.Statuses.{exit_number, policy_word, status_text};

use arrayvec::ArrayVec;
use net_text::TextFault;
use net_types::RuleId;
use policy_text::PolicyFault;
use program_edges::{StatusLine, bad_net_line, line, numbered_line};

/// How a run ends. Only `Done` is no failure.
#[derive(Clone, Copy, Debug, PartialEq, Eq)]
pub enum Status {
    /// The text was written whole.
    Done,
    /// The word at this place, from 1, can't stand there, or one is missing there.
    BadWords { at: u64 },
    /// The source failed.
    ReadFault,
    /// The sink failed after it took so many bytes of the text.
    WriteFault { written: u64 },
    /// The input is longer than it may be.
    TooLong,
    /// The input is no network, by this fault of this line, counted from 1.
    BadNet { line: u64, fault: TextFault },
    /// The network has no such rule, which was listed as one that loses its packets.
    NoSuchRule { id: RuleId },
    /// The table has more entries than this limit.
    TableFull { limit: u32 },
    /// This line of the session, from 1 after the line `session`, is longer than a session's line may be.
    LongLine { line: u64 },
    /// A line is no policy, by this fault. Lines count from 1, after the line `policy`.
    BadPolicy { line: u64, fault: PolicyFault },
    NoMemory,
}

impl Status {
    /// The number with which the program ends.
    pub fn number(&self) -> u8
        ensures { result ≡ exit_number self.now }
    {
        match *self {
            Status::Done => 0,
            Status::BadWords { .. } => 2,
            Status::ReadFault => 3,
            Status::WriteFault { .. } => 4,
            Status::TooLong => 5,
            Status::BadNet { .. } => 6,
            Status::NoSuchRule { .. } => 7,
            Status::TableFull { .. } => 8,
            Status::LongLine { .. } => 9,
            Status::BadPolicy { .. } => 13,
            Status::NoMemory => 10,
        }
    }

    /// What is told on standard error: nothing where there is no failure, and else a line.
    pub fn text(&self) -> StatusLine
        ensures { result.items ≡ status_text self.now }
    {
        match *self {
            Status::Done => ArrayVec::new(),
            Status::BadWords { at } => numbered_line("bad words at ", at, ""),
            Status::ReadFault => line("read fault"),
            Status::WriteFault { written } => numbered_line(
                "write fault after ",
                written,
                " bytes",
            ),
            Status::TooLong => line("input too long"),
            Status::BadNet { line, fault } => bad_net_line(line, fault),
            Status::NoSuchRule { id } => numbered_line("no rule ", u64::from(id.get()), ""),
            Status::TableFull { limit } => numbered_line(
                "more than ",
                u64::from(limit),
                " entries",
            ),
            Status::LongLine { line } => numbered_line("session line ", line, " too long"),
            Status::BadPolicy { line, fault } => numbered_line(
                "bad policy at line ",
                line,
                policy_end(fault),
            ),
            Status::NoMemory => line("no memory"),
        }
    }
}

/// What ends the line of a text that is no policy: the word for its fault.
fn policy_end(fault: PolicyFault) -> &'static str
    ensures end { result.now ≡ codes ": " ++ policy_word fault }
    ensures short { length result.now ≤ 13 }
{
    match fault {
        PolicyFault::Words => ": words",
        PolicyFault::Number => ": number",
        PolicyFault::Letters => ": letters",
        PolicyFault::Unknown => ": unknown",
        PolicyFault::Width => ": width",
    }
}
