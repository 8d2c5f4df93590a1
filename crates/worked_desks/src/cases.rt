//! What desks answer, case by case.
use crate::asking::{Brief, Few, NOTHING, ONE_BOX, Plans, Told, check_all, network, plan_of};
use desk_core::{Desk, LoggedEvent, Refusal};
use net_types::{Action, BoxId, InPort, NetFault, PortId, Rule, RuleId};
use net_versions::Change;
use std::alloc::Global;
use std::test::Fail;
use std::thread::Threads;
use suspect_book::Verdict;
use ternary_bits::{Pattern, Rewrite};

const ONE_MORE_RULE: &[u8] = b"rule 3 1 10 * 11xx 12\n";

const THIRD_TERMINAL: &[u8] = b"port 13 1\nterm 3 13 send\npermit 3 xxxx\n";

fn post(round: u32, fits: bool) -> LoggedEvent {
    LoggedEvent::Post { round, fits }
}

fn depart(round: u32, entry: u32) -> LoggedEvent {
    LoggedEvent::Depart { round, entry }
}

fn arrive(round: u32, entry: u32, verdict: Verdict) -> LoggedEvent {
    LoggedEvent::Arrive {
        round,
        entry,
        verdict,
    }
}

fn no_round(round: u32) -> Told {
    Told::Refused(Refusal::NoRound { round })
}

fn log_full() -> Told {
    Told::Refused(Refusal::LogFull { at: 1 })
}

/// Rule 6, which takes the lower half of the headers of the one box.
pub(crate) fn sixth() -> Result<Rule, Fail> {
    Ok(Rule {
        id: RuleId::of(6),
        at: BoxId::of(1),
        priority: 20,
        inp: InPort::Any,
        pattern: Pattern::read(b"0xxx")?,
        action: Action::Out {
            port: PortId::of(12),
            rewrite: Rewrite::keep(4),
        },
    })
}

// The plan of the one box, and that of it with a rule more.
fn one_box_plans(rt: &(impl Threads + Sync), alloc: Global) -> Result<Plans, Fail> {
    Ok(Plans {
        fitting: plan_of(rt, alloc, &[ONE_BOX], 16)?,
        other: plan_of(rt, alloc, &[ONE_BOX, ONE_MORE_RULE], 16)?,
    })
}

#[test]
fn a_round_and_two_callers(rt: HostRuntime) -> Result<(), Fail> {
    let alloc = rt.alloc();
    let plans = one_box_plans(&rt, alloc)?;
    let mut desk = Desk::new(alloc, network(alloc, &[ONE_BOX])?, 16, 64)?;
    let cases = [
        (1, LoggedEvent::OpenRound, Told::Opened(1, 0)),
        (
            1,
            post(1, false),
            Told::Refused(Refusal::WrongSnapshot { round: 1 }),
        ),
        (1, post(1, true), Told::Posted(1)),
        (1, depart(1, 1), Told::Departed),
        (
            2,
            arrive(1, 1, Verdict::Pass),
            Told::Refused(Refusal::NotSent),
        ),
        (2, depart(1, 1), Told::Departed),
        (
            1,
            arrive(1, 1, Verdict::Pass),
            Told::Refused(Refusal::NotSent),
        ),
        (1, depart(1, 1), Told::Departed),
        (1, arrive(1, 1, Verdict::Pass), Told::Counted(Verdict::Pass)),
    ];
    check_all(&rt, &mut desk, &plans, &cases)?;
    for round in 2..17 {
        let opened = [(1, LoggedEvent::OpenRound, Told::Opened(round, 0))];
        check_all(&rt, &mut desk, &plans, &opened)?;
    }
    let full = [(
        1,
        LoggedEvent::OpenRound,
        Told::Refused(Refusal::RoundsFull),
    )];
    check_all(&rt, &mut desk, &plans, &full)
}

#[test]
fn each_refusal_in_its_turn(rt: HostRuntime) -> Result<(), Fail> {
    let alloc = rt.alloc();
    let plans = one_box_plans(&rt, alloc)?;
    let mut desk = Desk::new(alloc, network(alloc, &[ONE_BOX])?, 16, 64)?;
    let mut fifth = Few::NONE;
    fifth.add(5);
    let guilty = Brief {
        suspects: fifth,
        guilty: fifth,
        odd: None,
        next: None,
    };
    let cut = Change::Cut(RuleId::of(9));
    let unknown = Told::Refused(Refusal::Rule(NetFault::Unknown));
    let cases = [
        (1, depart(1, 1), no_round(1)),
        (1, LoggedEvent::OpenRound, Told::Opened(1, 0)),
        (1, depart(1, 1), Told::Refused(Refusal::NoPlan { round: 1 })),
        (1, post(1, true), Told::Posted(1)),
        (
            1,
            post(1, true),
            Told::Refused(Refusal::AlreadyPosted { round: 1 }),
        ),
        (
            1,
            depart(1, 0),
            Told::Refused(Refusal::NoEntry { entry: 0 }),
        ),
        (
            1,
            depart(1, 2),
            Told::Refused(Refusal::NoEntry { entry: 2 }),
        ),
        (
            1,
            arrive(1, 1, Verdict::Pass),
            Told::Refused(Refusal::NotSent),
        ),
        (1, depart(1, 1), Told::Departed),
        (1, arrive(1, 1, Verdict::Fail), Told::Counted(Verdict::Fail)),
        (
            1,
            arrive(1, 1, Verdict::Pass),
            Told::Refused(Refusal::AlreadyCounted {
                verdict: Verdict::Fail,
            }),
        ),
        (1, LoggedEvent::Locate { round: 1 }, Told::Located(guilty)),
        (1, LoggedEvent::Current, Told::Now(0)),
        (1, LoggedEvent::Change(cut), unknown),
    ];
    check_all(&rt, &mut desk, &plans, &cases)
}

#[test]
fn a_change_moves_a_round(rt: HostRuntime) -> Result<(), Fail> {
    let alloc = rt.alloc();
    let plans = one_box_plans(&rt, alloc)?;
    let mut desk = Desk::new(alloc, network(alloc, &[ONE_BOX])?, 16, 64)?;
    let add = LoggedEvent::Change(Change::Add(sixth()?));
    let moved = Told::Refused(Refusal::Moved { pinned: 0, now: 1 });
    let cases = [
        (1, LoggedEvent::OpenRound, Told::Opened(1, 0)),
        (1, post(1, true), Told::Posted(1)),
        (1, depart(1, 1), Told::Departed),
        (1, add, Told::Changed(1)),
        (1, arrive(1, 1, Verdict::Pass), moved),
        (1, LoggedEvent::Pin { round: 1 }, Told::Pinned(0, 1)),
        (1, LoggedEvent::OpenRound, Told::Opened(2, 1)),
        (1, LoggedEvent::Pin { round: 2 }, Told::Pinned(1, 2)),
        (
            1,
            post(2, false),
            Told::Refused(Refusal::WrongSnapshot { round: 2 }),
        ),
        (1, LoggedEvent::Close { round: 1 }, Told::Closed(NOTHING)),
        (1, LoggedEvent::Close { round: 1 }, no_round(1)),
        (1, post(1, false), no_round(1)),
        (1, LoggedEvent::Close { round: 2 }, Told::Closed(NOTHING)),
        (1, LoggedEvent::OpenRound, Told::Opened(3, 1)),
    ];
    check_all(&rt, &mut desk, &plans, &cases)
}

#[test]
fn an_entry_that_no_rule_explains(rt: HostRuntime) -> Result<(), Fail> {
    let alloc = rt.alloc();
    let plans = Plans {
        fitting: plan_of(&rt, alloc, &[ONE_BOX, THIRD_TERMINAL], 16)?,
        other: plan_of(&rt, alloc, &[ONE_BOX, THIRD_TERMINAL], 15)?,
    };
    let net = network(alloc, &[ONE_BOX, THIRD_TERMINAL])?;
    let mut desk = Desk::new(alloc, net, 16, 64)?;
    let odd = Brief {
        suspects: Few::NONE,
        guilty: Few::NONE,
        odd: Some(2),
        next: None,
    };
    let cases = [
        (1, LoggedEvent::OpenRound, Told::Opened(1, 0)),
        (
            1,
            post(1, false),
            Told::Refused(Refusal::WrongSnapshot { round: 1 }),
        ),
        (1, post(1, true), Told::Posted(2)),
        (1, depart(1, 1), Told::Departed),
        (1, arrive(1, 1, Verdict::Pass), Told::Counted(Verdict::Pass)),
        (1, depart(1, 2), Told::Departed),
        (1, arrive(1, 2, Verdict::Fail), Told::Counted(Verdict::Fail)),
        (1, LoggedEvent::Locate { round: 1 }, Told::Located(odd)),
        (1, LoggedEvent::Close { round: 1 }, Told::Closed(odd)),
    ];
    check_all(&rt, &mut desk, &plans, &cases)
}

#[test]
fn a_log_of_one_entry(rt: HostRuntime) -> Result<(), Fail> {
    let alloc = rt.alloc();
    let plans = one_box_plans(&rt, alloc)?;
    let mut desk = Desk::new(alloc, network(alloc, &[ONE_BOX])?, 16, 1)?;
    let cases = [
        (1, LoggedEvent::OpenRound, Told::Opened(1, 0)),
        (1, LoggedEvent::Current, log_full()),
        (2, LoggedEvent::OpenRound, log_full()),
        (2, post(1, true), log_full()),
        (2, LoggedEvent::Close { round: 7 }, log_full()),
    ];
    check_all(&rt, &mut desk, &plans, &cases)
}
