//! The words of the command line.
ghost use Rattle.std.specs.Prelude.{◌≡◌, ℕ, map, IfOk, IfErr, OnOk};
ghost use Rattle.std.specs.String.{string_bytes};
ghost use Rattle.command_line.specs.Table.{IsLine, IsNumberOf};
ghost use Rattle.atpgd.specs.CommandLine.{names, port_name, hops_name, entries_name, workers_name, log_name, seats_name, IsAsked, IsBadAt, AreInRange};

use command_line::{Name, Value, judge, number_of};

/// The port of 127.0.0.1 at which the server listens. It must be given.
const PORT: Name<'static> = Name {
    word: "--port",
    value: Value::Number {
        least: 1,
        most: 65_535,
        usual: None,
    },
};

/// The limit on how many rules a header meets.
const HOPS: Name<'static> = Name {
    word: "--hops",
    value: Value::Number {
        least: 1,
        most: 255,
        usual: Some(16),
    },
};

/// The limit on the entries of a table.
const ENTRIES: Name<'static> = Name {
    word: "--entries",
    value: Value::Number {
        least: 1,
        most: 262_144,
        usual: Some(65_536),
    },
};

/// How many threads search for one plan.
const WORKERS: Name<'static> = Name {
    word: "--workers",
    value: Value::Number {
        least: 1,
        most: 64,
        usual: Some(1),
    },
};

/// How many entries the log of the desk may have.
const LOG: Name<'static> = Name {
    word: "--log",
    value: Value::Number {
        least: 1,
        most: 4_194_304,
        usual: Some(65_536),
    },
};

/// How many agents are served at once.
const SEATS: Name<'static> = Name {
    word: "--seats",
    value: Value::Number {
        least: 1,
        most: 64,
        usual: Some(4),
    },
};

/// What the words ask for.
#[derive(Clone, Copy, Debug, PartialEq, Eq)]
pub struct Options {
    /// The port of 127.0.0.1, 1 to 65,535.
    pub port: u16,
    /// How many rules a header may meet, 1 to 255.
    pub hops: u32,
    /// How many entries a table may have, 1 to 262,144.
    pub entries: u32,
    /// How many threads search for one plan, 1 to 64.
    pub workers: u32,
    /// How many entries the log may have, 1 to 4,194,304.
    pub log: u64,
    /// How many agents are served at once, 1 to 64.
    pub seats: u32,
}

/// What the words ask for, or else the place, from 1, of the first word that can't stand there, or one past the last where more
/// are needed.
pub(crate) fn parse(words: &[String]) -> Result<Options, u64>
    ensures ok { IfOk result (λ options. IsAsked (map string_bytes words.now) options) }
    ensures range { IfOk result (λ options. AreInRange options) }
    ensures err { IfErr result (λ at. IsBadAt (map string_bytes words.now) at) }
{
    match judge(words, &[PORT, HOPS, ENTRIES, WORKERS, LOG, SEATS]) {
        Ok(()) => Ok(read(words)),
        Err(at) => Err(at),
    }
}

/// The numbers that good words give, or the usual ones.
fn read(words: &[String]) -> Options
    requires { IsLine names (map string_bytes words.now) }
    ensures asked { IsAsked (map string_bytes words.now) result }
    ensures range { AreInRange result }
{
    let port = number_of(words, &PORT);
    let hops = number_of(words, &HOPS);
    let entries = number_of(words, &ENTRIES);
    let workers = number_of(words, &WORKERS);
    let log = number_of(words, &LOG);
    let seats = number_of(words, &SEATS);
    Options {
        port: port as u16,
        hops: hops as u32,
        entries: entries as u32,
        workers: workers as u32,
        log,
        seats: seats as u32,
    }
}
