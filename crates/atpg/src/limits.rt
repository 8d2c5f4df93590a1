//! The limits of a session, as the words give them.
ghost use Rattle.std.specs.Prelude.{map};
ghost use Rattle.std.specs.String.{string_bytes};
ghost use Rattle.command_line.specs.Table.{IsLine, IsNumberOf};
ghost use Rattle.atpg.specs.CommandLine.{LimitsFit, hops_name, session_entries_name, workers_name, log_name, run_command};

use crate::words::{HOPS, WORKERS};
use command_line::{Name, Value, number_of};

/// The limit on the entries of a table in a session.
pub(crate) const SESSION_ENTRIES: Name<'static> = Name {
    word: "--entries",
    value: Value::Number {
        least: 1,
        most: 262_144,
        usual: Some(65_536),
    },
};

/// How many entries the log of a desk may have.
pub(crate) const LOG: Name<'static> = Name {
    word: "--log",
    value: Value::Number {
        least: 1,
        most: 4_194_304,
        usual: Some(65_536),
    },
};

/// The limits of a session's plans, how many threads search for them, and how many entries the log of its desk may have.
#[derive(Clone, Copy, Debug, PartialEq, Eq)]
pub struct SessionLimits {
    pub hops: u32,
    pub entries: u32,
    pub workers: u32,
    pub log: u64,
}

impl SessionLimits {
    /// The numbers that the words after the command give.
    pub(crate) fn read(rest: &[String]) -> SessionLimits
        requires { IsLine run_command.names (map string_bytes rest.now) }
        ensures hops { IsNumberOf hops_name (map string_bytes rest.now) result.hops }
        ensures entries { IsNumberOf session_entries_name (map string_bytes rest.now) result.entries }
        ensures workers { IsNumberOf workers_name (map string_bytes rest.now) result.workers }
        ensures log { IsNumberOf log_name (map string_bytes rest.now) result.log }
        ensures range { LimitsFit result }
    {
        let hops = number_of(rest, &HOPS);
        let entries = number_of(rest, &SESSION_ENTRIES);
        let workers = number_of(rest, &WORKERS);
        let log = number_of(rest, &LOG);
        SessionLimits {
            hops: hops as u32,
            entries: entries as u32,
            workers: workers as u32,
            log,
        }
    }
}
