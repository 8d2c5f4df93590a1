//! The texts of refusals.
ghost use Rattle.std.specs.Prelude.{◌≡◌, ◌++◌, OnOk};
ghost use Rattle.session_lines.specs.ReplyTexts.{refusal_text, fault_text, verdict_word};

use desk_core::Refusal;
use net_types::NetFault;
use no_memory::NoMemory;
use suspect_book::Verdict;
use text_lines::{put, put_line};

pub(crate) fn put_refusal(text: &mut Vec<u8>, refusal: Refusal) -> Result<(), NoMemory>
    ensures { OnOk result (text.new.items ≡ text.old.items ++ refusal_text refusal) }
{
    match refusal {
        Refusal::LogFull { at } => put_line(text, b"no log-full", &[at as usize]),
        Refusal::NoRound { round } => put_line(text, b"no round", &[round as usize]),
        Refusal::NoPlan { round } => put_line(text, b"no plan", &[round as usize]),
        Refusal::AlreadyPosted { round } => put_line(text, b"no already-posted", &[round as usize]),
        Refusal::WrongSnapshot { round } => put_line(text, b"no wrong-snapshot", &[round as usize]),
        Refusal::NoEntry { entry } => put_line(text, b"no entry", &[entry as usize]),
        Refusal::Moved { pinned, now } => put_line(
            text,
            b"no moved",
            &[pinned as usize, now as usize],
        ),
        Refusal::AlreadyCounted { verdict } => put_already_counted(text, verdict),
        Refusal::NotSent => put(text, b"no not-sent\n"),
        Refusal::RoundsFull => put(text, b"no rounds-full\n"),
        Refusal::Rule(fault) => put(text, fault_text(fault)),
    }
}

fn put_already_counted(text: &mut Vec<u8>, verdict: Verdict) -> Result<(), NoMemory>
    ensures { OnOk result (text.new.items ≡ text.old.items ++ refusal_text (Refusal.AlreadyCounted verdict)) }
{
    put(text, b"no already-counted ")?;
    put(text, verdict_word(verdict))?;
    put(text, b"\n")
}

/// The line of a change that the network doesn't take.
fn fault_text(fault: NetFault) -> &'static [u8]
    ensures { result.now ≡ fault_text fault }
{
    match fault {
        NetFault::Twice => b"no twice\n",
        NetFault::Unknown => b"no unknown\n",
        NetFault::Limit => b"no limit\n",
        NetFault::Width => b"no width\n",
        _ => b"",
    }
}

pub(crate) fn verdict_word(verdict: Verdict) -> &'static [u8]
    ensures { result.now ≡ verdict_word verdict }
{
    match verdict {
        Verdict::Pass => b"pass",
        Verdict::Fail => b"fail",
    }
}
