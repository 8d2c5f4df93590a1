//! The texts of answers.
ghost use Rattle.std.specs.Prelude.{◌≡◌, ◌++◌, IfOk, OnOk};
ghost use Rattle.std.specs.Fmt.{decimal};
ghost use Rattle.std.specs.Arc.{arc_value};
ghost use Rattle.text_lines.specs.Lines.{number_list};
ghost use Rattle.session_lines.specs.ReplyTexts as texts;
ghost use Rattle.session_lines.specs.ReplyTexts.{answer_text, text_of, optional_number, report_line, planned_text, bad_line_text, event_round, event_entry};

use crate::fault::LineFault;
use crate::refusals::{put_refusal, verdict_word};
use desk_core::{Answer, Command, Event, Reply};
use net_types::RuleList;
use no_memory::NoMemory;
use rule_cover::Plan;
use std::alloc::Global;
use suspect_book::{Report, Verdict};
use text_lines::{put, put_line, put_next_number, put_number};

/// The text of an answer to a command. Each line ends with a line feed. A network that was pinned and a plan that was posted
/// alone have no text, since no line asks for them.
pub fn reply_text(alloc: Global, command: &Command, answer: &Answer) -> Result<Vec<u8>, NoMemory>
    ensures { IfOk result (λ text. text.items ≡ text_of command.now answer.now) }
{
    answer_text(alloc, Named::by(command), answer)
}

/// The round and the entry that a command names, 0 where it names none.
#[derive(Clone, Copy)]
pub(crate) struct Named {
    pub(crate) round: u32,
    pub(crate) entry: u32,
}

impl Named {
    ghost use Rattle.session_lines.specs.Naming.{IsNamedBy};

    pub(crate) fn by(command: &Command) -> Named
        ensures { IsNamedBy command.now result }
    {
        match command {
            Command::Ask(event) => Named::by_event(event),
            Command::Plan { round } => Named::of(*round, 0),
            Command::Quit | Command::Stop => Named::of(0, 0),
        }
    }

    fn by_event(event: &Event) -> Named
        ensures round { result.round ≡ event_round event.now }
        ensures entry { result.entry ≡ event_entry event.now }
    {
        match event {
            Event::Change(_) | Event::OpenRound | Event::Current => Named::of(0, 0),
            Event::Pin { round } | Event::Post { round, .. } => Named::of(*round, 0),
            Event::Depart { round, entry } | Event::Arrive { round, entry, .. } => Named::of(
                *round, *entry,
            ),
            Event::Locate { round } | Event::Close { round } => Named::of(*round, 0),
        }
    }

    fn of(round: u32, entry: u32) -> Named
        ensures round { result.round ≡ round }
        ensures entry { result.entry ≡ entry }
    {
        Named { round, entry }
    }
}

/// The text of an answer to a command that names these.
pub(crate) fn answer_text(alloc: Global, named: Named, answer: &Answer) -> Result<Vec<u8>, NoMemory>
    ensures { IfOk result (λ text. text.items ≡ answer_text named.round named.entry answer.now) }
{
    let mut text = Vec::new(alloc);
    match answer {
        Answer::Replied(reply) => put_reply(&mut text, named, reply)?,
        Answer::Planned {
            round,
            version,
            plan,
        } => put_planned(alloc, &mut text, *round, *version, plan)?,
        Answer::TableFull { limit } => put_line(&mut text, b"no table-full", &[*limit as usize])?,
        Answer::NoMemory => put(&mut text, b"no memory\n")?,
        Answer::Bye => put(&mut text, b"bye\n")?,
    }
    Ok(text)
}

fn put_planned(
    alloc: Global,
    text: &mut Vec<u8>,
    round: u32,
    version: u32,
    plan: &Plan,
) -> Result<(), NoMemory>
    ensures { OnOk result (text.new.items ≡ text.old.items ++ planned_text round version plan.now) }
{
    put_line(text, b"planned", &[round as usize, version as usize])?;
    let printed = plan_text::print(alloc, plan)?;
    put(text, &printed)
}

fn put_reply(text: &mut Vec<u8>, named: Named, reply: &Reply) -> Result<(), NoMemory>
    ensures { OnOk result (text.new.items ≡ text.old.items ++ texts.reply_text named.round named.entry reply.now) }
{
    let Named { round, entry } = named;
    match reply {
        Reply::Changed { version } => put_line(text, b"version", &[*version as usize]),
        Reply::Opened { round, version } => put_line(
            text,
            b"opened",
            &[*round as usize, *version as usize],
        ),
        Reply::Pinned { .. } | Reply::Posted { .. } => Ok(()),
        Reply::Departed => put_line(text, b"departed", &[round as usize, entry as usize]),
        Reply::Counted { verdict } => put_counted(text, named, *verdict),
        Reply::Located(report) => put_report(text, b"found", round, report),
        Reply::Closed(report) => put_report(text, b"closed", round, report),
        Reply::Now { version } => put_line(text, b"current", &[*version as usize]),
        Reply::Refused(refusal) => put_refusal(text, *refusal),
        Reply::NoMemory => put(text, b"no memory\n"),
        Reply::Unkept => put(text, b"no journal\n"),
    }
}

fn put_counted(text: &mut Vec<u8>, named: Named, verdict: Verdict) -> Result<(), NoMemory>
    ensures { OnOk result (text.new.items ≡ text.old.items ++ texts.reply_text named.round named.entry (Reply.Counted verdict)) }
{
    put(text, b"counted ")?;
    put_number(text, named.round as usize)?;
    put(text, b" ")?;
    put_number(text, named.entry as usize)?;
    put(text, b" ")?;
    put(text, verdict_word(verdict))?;
    put(text, b"\n")
}

fn put_report(text: &mut Vec<u8>, name: &[u8], round: u32, report: &Report) -> Result<(), NoMemory>
    ensures { OnOk result (text.new.items ≡ text.old.items ++ report_line name.now round report.now) }
{
    put(text, name)?;
    put_next_number(text, round as usize)?;
    put_rules(text, b" suspects ", &report.suspects)?;
    put_rules(text, b" guilty ", &report.guilty)?;
    put_entry(text, b" odd ", report.odd)?;
    put_entry(text, b" next ", report.next)?;
    put(text, b"\n")
}

fn put_rules(text: &mut Vec<u8>, before: &[u8], rules: &RuleList) -> Result<(), NoMemory>
    ensures { OnOk result (text.new.items ≡ text.old.items ++ (before.now ++ number_list rules.now)) }
{
    put(text, before)?;
    put_list(text, rules)
}

fn put_entry(text: &mut Vec<u8>, before: &[u8], entry: Option<u32>) -> Result<(), NoMemory>
    ensures { OnOk result (text.new.items ≡ text.old.items ++ (before.now ++ optional_number entry)) }
{
    put(text, before)?;
    put_optional(text, entry)
}

/// The numbers joined by commas, `-` where there is none.
fn put_list(text: &mut Vec<u8>, rules: &RuleList) -> Result<(), NoMemory>
    ensures { OnOk result (text.new.items ≡ text.old.items ++ number_list rules.now) }
{
    let Some((first, rest)) = rules.as_slice().split_first() else {
        return put(text, b"-");
    };
    put_number(text, first.get() as usize)?;
    for rule in rest {
        put(text, b",")?;
        put_number(text, rule.get() as usize)?;
    }
    Ok(())
}

/// The number, `-` where there is none.
fn put_optional(text: &mut Vec<u8>, number: Option<u32>) -> Result<(), NoMemory>
    ensures { OnOk result (text.new.items ≡ text.old.items ++ optional_number number) }
{
    match number {
        Some(number) => put_number(text, number as usize),
        None => put(text, b"-"),
    }
}

/// The text for a line that says no command.
pub(crate) fn fault_line(fault: LineFault) -> &'static [u8]
    ensures { result.now ≡ bad_line_text fault }
{
    match fault {
        LineFault::Words => b"no bad-line words\n",
        LineFault::Number => b"no bad-line number\n",
        LineFault::Letters => b"no bad-line letters\n",
    }
}
