//! A desk that is asked for a thousand random events, beside a plain search of their history.
use crate::asking::{Plans, Told, check_asked, network, plan_of};
use crate::cases::sixth;
use crate::history::{Asked, History};
use crate::seen::{ALL_KINDS, kind};
use desk_core::{Desk, LoggedEvent, Refusal};
use net_types::{Action, BoxId, InPort, PortId, Rule, RuleId};
use net_versions::Change;
use rand_pcg::Lcg64Xsh32;
use rand_pcg::rand_core::utils::NextWord;
use std::process::Abort;
use std::test::Fail;
use suspect_book::Verdict;
use ternary_bits::{Pattern, Rewrite};

/// Two boxes behind one another. The first has a rule for the upper half of the headers, the second one for either value of
/// the third bit.
const TWO_BOXES: &[u8] =
    b"atpg-net 1 4\nbox 1\nbox 2\nport 11 1\nport 12 1\nport 21 2\nport 22 2\nlink 12 21\nterm 1 11 send\nterm 2 22 receive\npermit 1 xxxx\nrule 5 1 10 * 1xxx 12\nrule 7 2 10 * xx0x 22\nrule 8 2 10 * xx1x 22\n";

const FURTHER_RULE: &[u8] = b"rule 6 1 20 * 0xxx 12\n";

// A rule of another width than the network's.
fn wider() -> Result<Rule, Fail> {
    Ok(Rule {
        id: RuleId::of(3),
        at: BoxId::of(1),
        priority: 1,
        inp: InPort::Any,
        pattern: Pattern::read(b"0xxxx")?,
        action: Action::Out {
            port: PortId::of(12),
            rewrite: Rewrite::keep(4),
        },
    })
}

// One of so many numbers from 0 on.
fn draw(words: &mut Lcg64Xsh32, of: u32) -> u32 {
    words.next_word().checked_rem(of).unwrap_or(0)
}

fn some_verdict(words: &mut Lcg64Xsh32) -> Verdict {
    if draw(words, 2) == 0 {
        Verdict::Pass
    } else {
        Verdict::Fail
    }
}

// Mostly the last round. At times it is one that is not opened yet, or 0.
fn some_round(words: &mut Lcg64Xsh32, history: &History) -> u32 {
    let next = history.rounds().saturating_add(1);
    match draw(words, 16) {
        0 => next,
        1..=5 => draw(words, next),
        _ => history.rounds(),
    }
}

// Mostly the plan that fits, if either does.
fn some_post(words: &mut Lcg64Xsh32, history: &History, round: u32) -> Asked {
    let fits = draw(words, 4) != 0;
    Asked::Post {
        round,
        further: history.fits_now(round, true) == fits,
    }
}

fn some_change(words: &mut Lcg64Xsh32) -> Asked {
    match draw(words, 9) {
        0 => Asked::AddWider,
        1..=4 => Asked::AddFurther,
        _ => Asked::CutFurther,
    }
}

// Any event. The entry may be one that no plan has, or only the greater one.
fn some_event(words: &mut Lcg64Xsh32, history: &History) -> Asked {
    let round = some_round(words, history);
    let entry = draw(words, 6);
    let verdict = some_verdict(words);
    match draw(words, 32) {
        0..=1 => some_change(words),
        2..=4 => Asked::OpenRound,
        5..=6 => Asked::Pin { round },
        7..=10 => some_post(words, history, round),
        11..=17 => Asked::Depart { round, entry },
        18..=24 => Asked::Arrive {
            round,
            entry,
            verdict,
        },
        25..=27 => Asked::Locate { round },
        28..=29 => Asked::Close { round },
        _ => Asked::Current,
    }
}

// An event of a caller that leads on where the last round stands.
fn next_event(words: &mut Lcg64Xsh32, history: &History, caller: u32) -> Asked {
    let round = history.rounds();
    let entry = draw(words, 4).saturating_add(1);
    let arrival = Asked::Arrive {
        round,
        entry,
        verdict: some_verdict(words),
    };
    match (history.reply(caller, arrival), draw(words, 4)) {
        (Told::Refused(Refusal::NoRound { .. } | Refusal::Moved { .. }), 0) => Asked::Close {
            round: draw(words, round),
        },
        (Told::Refused(Refusal::NoRound { .. } | Refusal::Moved { .. }), _) => Asked::OpenRound,
        (Told::Refused(Refusal::NoPlan { .. } | Refusal::NoEntry { .. }), 0) => some_change(words),
        (Told::Refused(Refusal::NoPlan { .. }), _) => some_post(words, history, round),
        (Told::Refused(Refusal::NotSent), _) => Asked::Depart { round, entry },
        (Told::Refused(Refusal::AlreadyCounted { .. }), 0) => Asked::OpenRound,
        (Told::Counted(_), _) => arrival,
        _ => Asked::Locate { round },
    }
}

// The event as it is to stand in the log after the history.
fn logged(asked: Asked, history: &History) -> Result<LoggedEvent, Fail> {
    Ok(match asked {
        Asked::AddFurther => LoggedEvent::Change(Change::Add(sixth()?)),
        Asked::CutFurther => LoggedEvent::Change(Change::Cut(RuleId::of(6))),
        Asked::AddWider => LoggedEvent::Change(Change::Add(wider()?)),
        Asked::OpenRound => LoggedEvent::OpenRound,
        Asked::Pin { round } => LoggedEvent::Pin { round },
        Asked::Post { round, further } => LoggedEvent::Post {
            round,
            fits: history.fits_now(round, further),
        },
        Asked::Depart { round, entry } => LoggedEvent::Depart { round, entry },
        Asked::Arrive {
            round,
            entry,
            verdict,
        } => LoggedEvent::Arrive {
            round,
            entry,
            verdict,
        },
        Asked::Locate { round } => LoggedEvent::Locate { round },
        Asked::Close { round } => LoggedEvent::Close { round },
        Asked::Current => LoggedEvent::Current,
    })
}

// Asks a desk for a caller's event. The reply, which is the one of the history, is given by its kind.
fn check_next(
    rt: &impl Abort,
    desk: &mut Desk,
    plans: &Plans,
    history: &mut History,
    caller: u32,
    asked: Asked,
) -> Result<&'static str, Fail> {
    let plan = match asked {
        Asked::Post { further: true, .. } => &plans.other,
        _ => &plans.fitting,
    };
    let wanted = history.reply(caller, asked);
    check_asked(rt, desk, caller, &logged(asked, history)?, plan, &wanted)?;
    history.push(caller, asked)?;
    Ok(kind(&wanted))
}

#[test]
fn each_reply_is_the_one_of_the_history(rt: HostRuntime) -> Result<(), Fail> {
    let alloc = rt.alloc();
    let plans = Plans {
        fitting: plan_of(&rt, alloc, &[TWO_BOXES], 16)?,
        other: plan_of(&rt, alloc, &[TWO_BOXES, FURTHER_RULE], 16)?,
    };
    let mut desk = Desk::new(alloc, network(alloc, &[TWO_BOXES])?, 16, 1000)?;
    let mut history = History::new(alloc, 1000);
    let mut words = Lcg64Xsh32::new(20, 1);
    let mut kinds = Vec::new(alloc);
    for _ in 0..1010 {
        let caller = draw(&mut words, 3);
        let asked = if draw(&mut words, 3) == 0 {
            some_event(&mut words, &history)
        } else {
            next_event(&mut words, &history, caller)
        };
        kinds.push(check_next(&rt, &mut desk, &plans, &mut history, caller, asked)?)?;
    }
    for kind in ALL_KINDS {
        assert!(rt; kinds.contains(&kind), "{kind}");
    }
    Ok(())
}
