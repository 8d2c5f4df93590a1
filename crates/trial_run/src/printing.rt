//! The text of a trial.
ghost use Rattle.std.specs.Prelude.{◌≡◌, ◌++◌, ◌<◌, ℕ, codes, length, count_by, OnOk, IfOk};
ghost use Rattle.std.specs.List.{flat_map};
ghost use Rattle.std.specs.Arc.{arc_value};
ghost use Rattle.text_lines.specs.Lines.{number_list};
ghost use Rattle.fault_model.specs.Outcomes.{failed, is_fail};
ghost use Rattle.suspect_book.specs.Verdicts.{meaning};
ghost use Rattle.trial_run.specs.Trial.{outcome, outcomes_of};
ghost use Rattle.trial_run.specs.TrialText.{verdict_word, sent_line, list_line, done_line, trial_text};

use crate::done::TrialDone;
use net_types::RuleList;
use no_memory::NoMemory;
use std::alloc::Global;
use suspect_book::Verdict;
use text_lines::{put, put_line, put_next_number, put_number};

/// The text of a trial, version 1: the text of its plan, the packets in the order sent, the suspects and the guilty rules, and
/// how many packets were sent and failed. Each line ends with a line feed.
pub fn trial_text(alloc: Global, trial: &TrialDone) -> Result<Vec<u8>, NoMemory>
    ensures { IfOk result (λ text. text.items ≡ trial_text (arc_value trial.now.plan).net (arc_value trial.now.plan).hops (arc_value trial.now.plan).plan
        (outcomes_of trial.now.sent.items) trial.now.report.suspects trial.now.report.guilty) }
{
    let mut text = plan_text::print(alloc, &trial.plan)?;
    put_sent_lines(&mut text, &trial.sent)?;
    put_list_line(&mut text, b"suspects", &trial.report.suspects)?;
    put_list_line(&mut text, b"guilty", &trial.report.guilty)?;
    put_done_line(&mut text, &trial.sent)?;
    Ok(text)
}

/// Puts a line for each packet.
fn put_sent_lines(text: &mut Vec<u8>, sent: &[(u32, Verdict)]) -> Result<(), NoMemory>
    ensures { OnOk result (text.new.items ≡ text.old.items ++ flat_map sent_line (outcomes_of sent.now)) }
{
    for (entry, verdict) in sent {
        put_sent_line(text, *entry, *verdict)?;
    }
    Ok(())
}

fn put_sent_line(text: &mut Vec<u8>, entry: u32, verdict: Verdict) -> Result<(), NoMemory>
    ensures { OnOk result (text.new.items ≡ text.old.items ++ sent_line (outcome (entry, verdict))) }
{
    put(text, b"sent")?;
    put_next_number(text, entry as usize)?;
    put(text, b" ")?;
    put(text, verdict_word(verdict).as_bytes())?;
    put(text, b"\n")
}

fn verdict_word(verdict: Verdict) -> &'static str
    ensures { result.now ≡ verdict_word (meaning verdict) }
{
    match verdict {
        Verdict::Pass => "pass",
        Verdict::Fail => "fail",
    }
}

/// Puts a line of a word and a list of rules.
fn put_list_line(text: &mut Vec<u8>, name: &[u8], rules: &RuleList) -> Result<(), NoMemory>
    ensures { OnOk result (text.new.items ≡ text.old.items ++ list_line name.now rules.now) }
{
    put(text, name)?;
    put(text, b" ")?;
    put_list(text, rules)?;
    put(text, b"\n")
}

/// The numbers joined by commas, `-` where there is none.
fn put_list(text: &mut Vec<u8>, rules: &RuleList) -> Result<(), NoMemory>
    ensures { OnOk result (text.new.items ≡ text.old.items ++ number_list rules.now) }
{
    let Some((first, rest)) = rules.as_slice().split_first() else {
        return put(text, b"-");
    };
    put_number(text, first.get() as usize)?;
    for rule in rest {
        put(text, b",")?;
        put_number(text, rule.get() as usize)?;
    }
    Ok(())
}

/// Puts how many packets were sent, and how many of them failed.
fn put_done_line(text: &mut Vec<u8>, sent: &[(u32, Verdict)]) -> Result<(), NoMemory>
    ensures { OnOk result (text.new.items ≡ text.old.items ++ done_line (outcomes_of sent.now)) }
{
    put_line(text, b"done", &[sent.len(), failed_count(sent)])
}

/// How many of the packets failed.
fn failed_count(sent: &[(u32, Verdict)]) -> usize
    ensures { result ≡ length (failed (outcomes_of sent.now)) }
{
    count_failed(sent)
}

fn count_failed(sent: &[(u32, Verdict)]) -> usize
    ensures { result ≡ count_by (λ packet. is_fail (meaning packet.1)) sent.now }
{
    sent.iter().filter(|packet| has_failed(packet.1)).count()
}

fn has_failed(verdict: Verdict) -> bool
    ensures { result ≡ is_fail (meaning verdict) }
{
    match verdict {
        Verdict::Pass => false,
        Verdict::Fail => true,
    }
}
