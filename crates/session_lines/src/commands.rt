ghost use Rattle.std.specs.Prelude.{◌≡◌, map};
ghost use Rattle.session_lines.specs.Commands as lines;
ghost use Rattle.session_lines.specs.Commands.{command, command_of, added, alone, one_number, two_numbers, arrived, verdict, numeral};
ghost use Rattle.desk_core.specs.declared.event.Event.TheVariants as events;
ghost use Rattle.desk_core.specs.declared.performing.Command.TheVariants as asks;
ghost use Rattle.net_versions.specs.declared.change.Change.TheVariants as changes;

use crate::fault::{LineFault, fault_of_rule};
use crate::words::first_words;
use desk_core::{Command, Event};
use net_text::read_rule;
use net_types::RuleId;
use net_versions::Change;
use suspect_book::Verdict;
use text_words::number;

/// Reads the command of a line of a session, without its line feed. A line without a word says none. `#` starts a comment.
pub fn read_command(line: &[u8]) -> Result<Option<Command>, LineFault>
    ensures { result ≡ command_of line.now }
{
    let words = first_words(line);
    match words.as_slice() {
        [] => Ok(None),
        [first, rest @ ..] => match command_of_words(first, rest) {
            Ok(command) => Ok(Some(command)),
            Err(fault) => Err(fault),
        },
    }
}

/// Reads a command from the first word of a line and the words after it.
fn command_of_words(first: &[u8], rest: &[&[u8]]) -> Result<Command, LineFault>
    ensures { result ≡ command first.now (map (λ w. w.now) rest.now) }
{
    if first == b"add".as_slice() {
        read_add(rest)
    } else if first == b"cut".as_slice() {
        read_cut(rest)
    } else if first == b"open".as_slice() {
        read_alone(Command::Ask(Event::OpenRound), rest)
    } else if first == b"plan".as_slice() {
        read_plan(rest)
    } else if first == b"depart".as_slice() {
        read_depart(rest)
    } else if first == b"arrive".as_slice() {
        read_arrive(rest)
    } else if first == b"locate".as_slice() {
        read_locate(rest)
    } else if first == b"close".as_slice() {
        read_close(rest)
    } else if first == b"current".as_slice() {
        read_alone(Command::Ask(Event::Current), rest)
    } else if first == b"quit".as_slice() {
        read_alone(Command::Quit, rest)
    } else if first == b"stop".as_slice() {
        read_alone(Command::Stop, rest)
    } else {
        Err(LineFault::Words)
    }
}

fn read_add(words: &[&[u8]]) -> Result<Command, LineFault>
    ensures { result ≡ added (map (λ w. w.now) words.now) }
{
    match read_rule(words) {
        Ok(rule) => Ok(Command::Ask(Event::Change(Change::Add(rule)))),
        Err(fault) => Err(fault_of_rule(fault)),
    }
}

fn read_cut(words: &[&[u8]]) -> Result<Command, LineFault>
    ensures { result ≡ one_number (λ rule. asks.Ask (events.Change (changes.Cut rule))) (map (λ w. w.now) words.now) }
{
    let rule = only_number(words)?;
    Ok(Command::Ask(Event::Change(Change::Cut(RuleId::of(rule)))))
}

fn read_plan(words: &[&[u8]]) -> Result<Command, LineFault>
    ensures { result ≡ one_number asks.Plan (map (λ w. w.now) words.now) }
{
    let round = only_number(words)?;
    Ok(Command::Plan { round })
}

#[tactic(auto, using(net_text::proofs::Shapes::two_words))]
fn read_depart(words: &[&[u8]]) -> Result<Command, LineFault>
    ensures { result ≡ two_numbers (λ round entry. asks.Ask (events.Depart round entry)) (map (λ w. w.now) words.now) }
{
    match words {
        [round, entry] => {
            let round = numeral(round)?;
            let entry = numeral(entry)?;
            Ok(Command::Ask(Event::Depart { round, entry }))
        }
        _ => Err(LineFault::Words),
    }
}

#[tactic(auto, using(net_text::proofs::Shapes::three_words))]
fn read_arrive(words: &[&[u8]]) -> Result<Command, LineFault>
    ensures { result ≡ arrived (map (λ w. w.now) words.now) }
{
    match words {
        [round, entry, verdict] => {
            let round = numeral(round)?;
            let entry = numeral(entry)?;
            let verdict = read_verdict(verdict)?;
            Ok(Command::Ask(Event::Arrive {
                round,
                entry,
                verdict,
            }))
        }
        _ => Err(LineFault::Words),
    }
}

fn read_locate(words: &[&[u8]]) -> Result<Command, LineFault>
    ensures { result ≡ one_number (λ round. asks.Ask (events.Locate round)) (map (λ w. w.now) words.now) }
{
    let round = only_number(words)?;
    Ok(Command::Ask(Event::Locate { round }))
}

fn read_close(words: &[&[u8]]) -> Result<Command, LineFault>
    ensures { result ≡ one_number (λ round. asks.Ask (events.Close round)) (map (λ w. w.now) words.now) }
{
    let round = only_number(words)?;
    Ok(Command::Ask(Event::Close { round }))
}

/// The command, where no word follows.
fn read_alone(command: Command, words: &[&[u8]]) -> Result<Command, LineFault>
    ensures { result ≡ alone command (map (λ w. w.now) words.now) }
{
    if words.is_empty() {
        Ok(command)
    } else {
        Err(LineFault::Words)
    }
}

/// The number of the one word.
fn only_number(words: &[&[u8]]) -> Result<u32, LineFault>
    ensures { result ≡ lines.only_number (map (λ w. w.now) words.now) }
{
    match words {
        [word] => numeral(word),
        _ => Err(LineFault::Words),
    }
}

fn read_verdict(word: &[u8]) -> Result<Verdict, LineFault>
    ensures { result ≡ verdict word.now }
{
    if word == b"pass".as_slice() {
        Ok(Verdict::Pass)
    } else if word == b"fail".as_slice() {
        Ok(Verdict::Fail)
    } else {
        Err(LineFault::Words)
    }
}

fn numeral(word: &[u8]) -> Result<u32, LineFault>
    ensures { result ≡ numeral word.now }
{
    match number(word, 4_294_967_295) {
        Some(number) => Ok(number as u32),
        None => Err(LineFault::Number),
    }
}
