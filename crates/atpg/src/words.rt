//! The words of the command line.
ghost use Rattle.std.specs.Prelude.{◌≡◌, ◌≤◌, true, false, map, IfOk, IfErr};
ghost use Rattle.std.specs.String.{string_bytes};
ghost use Rattle.command_line.specs.Table.{IsLine, IsCommandLine, IsNumberOf};
ghost use Rattle.atpg.specs.CommandLine.{commands, command_of, begins_with_run, IsAsked, IsSessionAsked, IsBadAt, LimitsFit, WordsRefused, WorkersFit, HasOptions, hops_name, entries_name, workers_name, check_command};

use crate::faults::{FAULTS, Trial, faults_of};
use crate::limits::{LOG, SESSION_ENTRIES, SessionLimits};
use crate::status::Status;
use command_line::{self, Name, Value, judge_command, number_of};
use std::alloc::Global;

/// The limit on how many rules a header meets.
pub(crate) const HOPS: Name<'static> = Name {
    word: "--hops",
    value: Value::Number {
        least: 1,
        most: 255,
        usual: Some(16),
    },
};

/// The limit on the entries of a table.
const ENTRIES: Name<'static> = Name {
    word: "--entries",
    value: Value::Number {
        least: 1,
        most: 1_048_576,
        usual: Some(65_536),
    },
};

/// How many threads search.
pub(crate) const WORKERS: Name<'static> = Name {
    word: "--workers",
    value: Value::Number {
        least: 1,
        most: 64,
        usual: Some(1),
    },
};

/// From what a network is generated. It must be given.
const SEED: Name<'static> = Name {
    word: "--seed",
    value: Value::Number {
        least: 0,
        most: 18_446_744_073_709_551_615,
        usual: None,
    },
};

/// What the words ask for.
#[derive(Debug, Drop)]
pub enum Request {
    /// A text of the network that is read.
    Read(Command),
    /// A line on the plan of the network that is generated from a seed. Nothing is read.
    Grow(Growth),
}

/// The text that is asked for of a network that is read.
#[derive(Debug, Drop)]
pub enum Command {
    /// The plan of a network.
    Plan(Options),
    /// A trial of a network.
    Trial(Trial),
    /// The text of a network, as it is printed.
    Upgrade,
    /// The answers to the policies after the network, whose packets meet at most so many rules.
    Check { hops: u32 },
}

/// The limits of a plan, and how many threads search for it.
#[derive(Clone, Copy, Debug, PartialEq, Eq)]
pub struct Options {
    pub hops: u32,
    pub entries: u32,
    pub workers: u32,
}

/// The seed of a generated network, and how it is planned.
#[derive(Clone, Copy, Debug, PartialEq, Eq)]
pub struct Growth {
    pub seed: u64,
    pub options: Options,
}

/// A command by its word.
#[derive(Clone, Copy, Debug, PartialEq, Eq)]
pub enum CommandWord {
    Plan,
    Upgrade,
    Check,
    Grow,
    Trial,
    Run,
}

/// Whether the first word is `run`.
pub(crate) fn begins_with_run(words: &[String]) -> bool
    ensures { result ≡ begins_with_run (map string_bytes words.now) }
{
    match words.first() {
        Some(word) => word.as_str() == "run",
        None => false,
    }
}

/// Which command good words ask for, and the words after it, or else the place, from 1, of the first word that can't stand there,
/// or one past the last where more are needed.
fn judged(words: &[String]) -> Result<(CommandWord, &[String]), u64>
    ensures ok { IfOk result (λ asked. IsCommandLine commands (map string_bytes words.now) (command_of asked.0) (map string_bytes asked.1.now)) }
    ensures err { IfErr result (λ at. IsBadAt (map string_bytes words.now) at) }
{
    let commands = [
        command_line::Command {
            word: "plan",
            names: &[HOPS, ENTRIES, WORKERS],
        },
        command_line::Command {
            word: "upgrade",
            names: &[],
        },
        command_line::Command {
            word: "check",
            names: &[HOPS],
        },
        command_line::Command {
            word: "grow",
            names: &[HOPS, ENTRIES, WORKERS, SEED],
        },
        command_line::Command {
            word: "trial",
            names: &[HOPS, ENTRIES, WORKERS, FAULTS],
        },
        command_line::Command {
            word: "run",
            names: &[HOPS, SESSION_ENTRIES, WORKERS, LOG],
        },
    ];
    let (command, rest) = match judge_command(words, &commands) {
        Ok(asked) => asked,
        Err(at) => return Err(at),
    };
    match command.word {
        "plan" => Ok((CommandWord::Plan, rest)),
        "upgrade" => Ok((CommandWord::Upgrade, rest)),
        "check" => Ok((CommandWord::Check, rest)),
        "trial" => Ok((CommandWord::Trial, rest)),
        "run" => Ok((CommandWord::Run, rest)),
        _ => Ok((CommandWord::Grow, rest)),
    }
}

/// What the words of a batch ask for. Only good words want memory.
pub(crate) fn parse(alloc: Global, words: &[String]) -> Result<Request, Status>
    requires { begins_with_run (map string_bytes words.now) ≡ false }
    ensures ok { IfOk result (λ request. IsAsked (map string_bytes words.now) request) }
    ensures workers { IfOk result (λ request. WorkersFit request) }
    ensures err { IfErr result (λ status. WordsRefused (map string_bytes words.now) status) }
{
    let (word, rest) = match judged(words) {
        Ok(asked) => asked,
        Err(at) => return Err(Status::BadWords { at }),
    };
    match word {
        CommandWord::Plan => Ok(Request::Read(Command::Plan(Options::read(rest)))),
        CommandWord::Upgrade => Ok(Request::Read(Command::Upgrade)),
        CommandWord::Check => Ok(Request::Read(Command::Check {
            hops: hops_alone(rest),
        })),
        CommandWord::Trial => match faults_of(alloc, rest) {
            Ok(faults) => Ok(Request::Read(Command::Trial(Trial {
                options: Options::read(rest),
                faults,
            }))),
            Err(_) => Err(Status::NoMemory),
        },
        CommandWord::Grow => Ok(Request::Grow(Growth {
            seed: number_of(rest, &SEED),
            options: Options::read(rest),
        })),
        CommandWord::Run => unreachable!(),
    }
}

/// The session that words ask for which begin with `run`, or else the place of the first that can't stand there.
pub(crate) fn session_limits(words: &[String]) -> Result<SessionLimits, u64>
    requires { begins_with_run (map string_bytes words.now) ≡ true }
    ensures ok { IfOk result (λ limits. IsSessionAsked (map string_bytes words.now) limits) }
    ensures fits { IfOk result (λ limits. LimitsFit limits) }
    ensures err { IfErr result (λ at. IsBadAt (map string_bytes words.now) at) }
{
    let (word, rest) = match judged(words) {
        Ok(asked) => asked,
        Err(at) => return Err(at),
    };
    match word {
        CommandWord::Run => Ok(SessionLimits::read(rest)),
        _ => unreachable!(),
    }
}

impl Options {
    /// The numbers that the words after a command give.
    pub(crate) fn read(rest: &[String]) -> Options
        requires { HasOptions (map string_bytes rest.now) }
        ensures hops { IsNumberOf hops_name (map string_bytes rest.now) result.hops }
        ensures entries { IsNumberOf entries_name (map string_bytes rest.now) result.entries }
        ensures workers { IsNumberOf workers_name (map string_bytes rest.now) result.workers }
        ensures range { (1 ≤ result.workers) × (result.workers ≤ 64) }
    {
        let hops = number_of(rest, &HOPS);
        let entries = number_of(rest, &ENTRIES);
        let workers = number_of(rest, &WORKERS);
        Options {
            hops: hops as u32,
            entries: entries as u32,
            workers: workers as u32,
        }
    }
}

/// The limit on hops that the words after a command give that takes this number alone.
fn hops_alone(rest: &[String]) -> u32
    requires { IsLine check_command.names (map string_bytes rest.now) }
    ensures { IsNumberOf hops_name (map string_bytes rest.now) result }
{
    number_of(rest, &HOPS) as u32
}
