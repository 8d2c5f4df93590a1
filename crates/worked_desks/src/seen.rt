//! The kinds of replies.
use crate::asking::{Brief, Few, Told};
use desk_core::Refusal;
use net_types::NetFault;
use suspect_book::Verdict;

/// The kinds of replies where there is memory.
pub(crate) const ALL_KINDS: [&str; 31] = [
    "changed",
    "opened",
    "pinned",
    "posted",
    "departed",
    "passed",
    "failed",
    "located nothing",
    "located suspects",
    "located guilty",
    "located odd",
    "located next",
    "closed nothing",
    "closed suspects",
    "closed guilty",
    "closed odd",
    "closed next",
    "now",
    "log full",
    "no round",
    "no plan",
    "already posted",
    "wrong snapshot",
    "no entry",
    "moved",
    "already counted",
    "not sent",
    "rounds full",
    "twice",
    "unknown",
    "width",
];

fn located(found: &Brief) -> &'static str {
    if found.odd.is_some() {
        "located odd"
    } else if found.next.is_some() {
        "located next"
    } else if found.guilty != Few::NONE {
        "located guilty"
    } else if found.suspects != Few::NONE {
        "located suspects"
    } else {
        "located nothing"
    }
}

fn closed(found: &Brief) -> &'static str {
    match located(found) {
        "located odd" => "closed odd",
        "located next" => "closed next",
        "located guilty" => "closed guilty",
        "located suspects" => "closed suspects",
        _ => "closed nothing",
    }
}

fn refused(refusal: &Refusal) -> &'static str {
    match refusal {
        Refusal::LogFull { .. } => "log full",
        Refusal::NoRound { .. } => "no round",
        Refusal::NoPlan { .. } => "no plan",
        Refusal::AlreadyPosted { .. } => "already posted",
        Refusal::WrongSnapshot { .. } => "wrong snapshot",
        Refusal::NoEntry { .. } => "no entry",
        Refusal::Moved { .. } => "moved",
        Refusal::AlreadyCounted { .. } => "already counted",
        Refusal::NotSent => "not sent",
        Refusal::RoundsFull => "rounds full",
        Refusal::Rule(NetFault::Twice) => "twice",
        Refusal::Rule(NetFault::Unknown) => "unknown",
        Refusal::Rule(NetFault::Width) => "width",
        Refusal::Rule(_) => "another fault",
    }
}

/// The kind of a reply.
pub(crate) fn kind(told: &Told) -> &'static str {
    match told {
        Told::Changed(_) => "changed",
        Told::Opened(..) => "opened",
        Told::Pinned(..) => "pinned",
        Told::Posted(_) => "posted",
        Told::Departed => "departed",
        Told::Counted(Verdict::Pass) => "passed",
        Told::Counted(Verdict::Fail) => "failed",
        Told::Located(found) => located(found),
        Told::Closed(found) => closed(found),
        Told::Now(_) => "now",
        Told::Refused(refusal) => refused(refusal),
        Told::NoMemory => "no memory",
        Told::Unkept => "unkept",
    }
}
