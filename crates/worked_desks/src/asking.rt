//! How the tests ask a desk: events as they will stand in its log, and replies as plain values.
ghost use Rattle.std.specs.Prelude.{◌≤◌};

use desk_core::{Desk, Event, Logged, LoggedEvent, Refusal, Reply};
use frontier_waves::FreeGate;
use net_types::{Network, RuleId, RuleList};
use plan_build::build;
use rule_cover::Plan;
use std::alloc::Global;
use std::process::Abort;
use std::sync::Arc;
use std::test::Fail;
use std::thread::Threads;
use suspect_book::{Report, Verdict};

/// One box with a rule for the even headers of its upper half. Terminal 1 sends into it, and terminal 2 receives.
pub(crate) const ONE_BOX: &[u8] =
    b"atpg-net 1 4\nbox 1\nport 11 1\nport 12 1\nterm 1 11 send\nterm 2 12 receive\npermit 1 xxxx\nrule 5 1 10 * 1xx0 12\n";

/// A plan that fits a round, and one that doesn't.
#[derive(Drop)]
pub(crate) struct Plans {
    pub(crate) fitting: Arc<Plan>,
    pub(crate) other: Arc<Plan>,
}

/// The first rules of a list, up to four.
#[derive(Clone, Copy, Debug, PartialEq, Eq)]
pub(crate) struct Few([Option<RuleId>; 4]);

impl Few {
    pub(crate) const NONE: Few = Few([None; 4]);

    pub(crate) fn of(rules: &RuleList) -> Few {
        Few([rules.get(0), rules.get(1), rules.get(2), rules.get(3)])
    }

    /// Puts a rule at the end, unless there are four.
    pub(crate) fn add(&mut self, rule: u32) {
        for place in &mut self.0 {
            if place.is_none() {
                *place = Some(RuleId::of(rule));
                return;
            }
        }
    }
}

/// A report, of a network that has no more than four rules.
#[derive(Clone, Copy, Debug, PartialEq, Eq)]
pub(crate) struct Brief {
    pub(crate) suspects: Few,
    pub(crate) guilty: Few,
    pub(crate) odd: Option<u32>,
    pub(crate) next: Option<u32>,
}

/// A reply. Of a network that is pinned it has the number of rules.
#[derive(Clone, Copy, Debug, PartialEq, Eq)]
pub(crate) enum Told {
    Changed(u32),
    Opened(u32, u32),
    Pinned(u32, usize),
    Posted(u32),
    Departed,
    Counted(Verdict),
    Located(Brief),
    Closed(Brief),
    Now(u32),
    Refused(Refusal),
    NoMemory,
    Unkept,
}

pub(crate) const NOTHING: Brief = Brief {
    suspects: Few::NONE,
    guilty: Few::NONE,
    odd: None,
    next: None,
};

/// The network of a text in parts.
pub(crate) fn network(alloc: Global, parts: &[&[u8]]) -> Result<Network, Fail> {
    let mut text = Vec::new(alloc);
    for part in parts {
        text.extend_from_slice(part)?;
    }
    Ok(net_text::read(alloc, &text)?)
}

/// The plan of the network of a text in parts.
pub(crate) fn plan_of(
    rt: &(impl Threads + Sync),
    alloc: Global,
    parts: &[&[u8]],
    hops: u32,
) -> Result<Arc<Plan>, Fail> {
    let net = Arc::new(alloc, network(alloc, parts)?)?;
    let plan = build(rt, alloc, net, hops, 9, 1, &FreeGate)?;
    Ok(Arc::new(alloc, plan)?)
}

fn brief_of(report: &Report) -> Brief {
    Brief {
        suspects: Few::of(&report.suspects),
        guilty: Few::of(&report.guilty),
        odd: report.odd,
        next: report.next,
    }
}

pub(crate) fn told_of(reply: &Reply) -> Told {
    match reply {
        Reply::Changed { version } => Told::Changed(*version),
        Reply::Opened { round, version } => Told::Opened(*round, *version),
        Reply::Pinned { version, net } => Told::Pinned(*version, net.rule_count()),
        Reply::Posted { entries } => Told::Posted(*entries),
        Reply::Departed => Told::Departed,
        Reply::Counted { verdict } => Told::Counted(*verdict),
        Reply::Located(report) => Told::Located(brief_of(report)),
        Reply::Closed(report) => Told::Closed(brief_of(report)),
        Reply::Now { version } => Told::Now(*version),
        Reply::Refused(refusal) => Told::Refused(*refusal),
        Reply::NoMemory => Told::NoMemory,
        Reply::Unkept => Told::Unkept,
    }
}

/// The event that is to stand so in the log. A Post posts the plan.
pub(crate) fn event_of(asked: &LoggedEvent, plan: &Arc<Plan>) -> Result<Event, Fail> {
    Ok(match asked {
        LoggedEvent::Change(change) => Event::Change(*change),
        LoggedEvent::OpenRound => Event::OpenRound,
        LoggedEvent::Pin { round } => Event::Pin { round: *round },
        LoggedEvent::Post { round, .. } => Event::Post {
            round: *round,
            plan: plan.clone()?,
        },
        LoggedEvent::Depart { round, entry } => Event::Depart {
            round: *round,
            entry: *entry,
        },
        LoggedEvent::Arrive {
            round,
            entry,
            verdict,
        } => Event::Arrive {
            round: *round,
            entry: *entry,
            verdict: *verdict,
        },
        LoggedEvent::Locate { round } => Event::Locate { round: *round },
        LoggedEvent::Close { round } => Event::Close { round: *round },
        LoggedEvent::Current => Event::Current,
    })
}

/// Asks a desk for an event of a caller. The reply is the one that is wanted, and the event is logged unless the log is full.
pub(crate) fn check_asked(
    rt: &impl Abort,
    desk: &mut Desk,
    caller: u32,
    asked: &LoggedEvent,
    plan: &Arc<Plan>,
    wanted: &Told,
) -> Result<(), Fail> {
    let place = desk.len();
    let reply = desk.apply(caller, event_of(asked, plan)?);
    assert_eq!(rt; told_of(&reply), *wanted, "at {place}");
    if place == desk.room() {
        assert_eq!(rt; desk.len(), place);
        return Ok(());
    }
    let logged = desk.entry(place).expect(rt, "the event is logged");
    assert_eq!(rt; logged.caller, caller);
    assert_eq!(rt; logged.event, *asked);
    assert!(rt; logged.stored);
    assert!(rt; desk.entry(desk.len()).is_none());
    Ok(())
}

/// Asks a desk for one event after another.
pub(crate) fn check_all(
    rt: &impl Abort,
    desk: &mut Desk,
    plans: &Plans,
    cases: &[(u32, LoggedEvent, Told)],
) -> Result<(), Fail> {
    for (caller, asked, wanted) in cases {
        let plan = match asked {
            LoggedEvent::Post { fits: false, .. } => &plans.other,
            _ => &plans.fitting,
        };
        check_asked(rt, desk, *caller, asked, plan, wanted)?;
    }
    Ok(())
}
