//! Plans of changed networks, from the plans before the change.
ghost use Rattle.std.specs.Prelude.{◌≤◌};

use crate::networks::{HALVES, TWO_BOXES, network};
use frontier_waves::{FreeGate, Gate};
use net_types::{Action, BoxId, InPort, Network, PortId, Rule, RuleId, TermId};
use path_table::Entry;
use plan_build::{build, rebuild};
use rule_cover::{Plan, PlanFault};
use std::alloc::Global;
use std::process::Abort;
use std::sync::Arc;
use std::sync::atomic::{AtomicU64, Ordering};
use std::test::Fail;
use std::thread::Threads;
use ternary_bits::{Pattern, Rewrite};

/// Counts the classes that pass.
#[derive(Drop)]
struct Counter {
    passed: AtomicU64,
}

impl Gate for Counter {
    fn enter(&self, _job: u64) {
        self.passed.fetch_add(1, Ordering::SeqCst);
    }

    fn leave(&self, _job: u64) {}
}

fn check_same_entry(rt: &impl Abort, a: &Entry, b: &Entry) {
    assert_eq!(rt; a.from, b.from);
    assert_eq!(rt; a.to, b.to);
    assert_eq!(rt; a.rules.as_slice(), b.rules.as_slice());
    assert_eq!(rt; a.least, b.least);
    assert_eq!(rt; a.greatest, b.greatest);
    assert_eq!(rt; a.arrives, b.arrives);
}

// The two plans have the same entries, probes, reserved entries and idle rules, and touch the same of ten boxes.
fn check_same(rt: &impl Abort, a: &Plan, b: &Plan) {
    assert_eq!(rt; a.hops(), b.hops());
    assert_eq!(rt; a.table().len(), b.table().len());
    for i in 0..a.table().len() {
        let mine = a.table().entry(i + 1).expect(rt, "there is an entry");
        let other = b.table().entry(i + 1).expect(rt, "there is an entry");
        check_same_entry(rt, mine, other);
    }
    assert_eq!(rt; a.probe_count(), b.probe_count());
    for i in 0..a.probe_count() {
        assert_eq!(rt; a.probe(i), b.probe(i));
    }
    assert_eq!(rt; a.reserved_count(), b.reserved_count());
    assert_eq!(rt; a.idle_count(), b.idle_count());
    for i in 0..a.idle_count() {
        assert_eq!(rt; a.idle(i), b.idle(i));
    }
    for t in 0..10 {
        for at in 0..10 {
            let mine = a.touches(TermId::of(t), BoxId::of(at));
            assert_eq!(rt; mine, b.touches(TermId::of(t), BoxId::of(at)));
        }
    }
}

// The plan of a network for 16 rules at most.
fn planned(rt: &(impl Threads + Sync), alloc: Global, parts: &[&[u8]]) -> Result<Plan, Fail> {
    let net = Arc::new(alloc, network(alloc, parts)?)?;
    Ok(build(rt, alloc, net, 16, 4000, 2, &FreeGate)?)
}

// The plan of a changed network, which is the same from an old plan and without one.
fn replanned<R: Abort + Threads + Sync>(
    rt: &R,
    alloc: Global,
    old: &Plan,
    changed: Network,
    hops: u32,
) -> Result<Plan, Fail> {
    let net = Arc::new(alloc, changed)?;
    let anew = build(rt, alloc, net.clone()?, hops, 4000, 2, &FreeGate)?;
    let plan = rebuild(rt, alloc, old, net, hops, 4000, 2, &FreeGate)?;
    check_same(rt, &plan, &anew);
    Ok(plan)
}

// The network of a plan without a rule.
fn without(rt: &impl Abort, old: &Plan, rule: u32) -> Result<Network, Fail> {
    let mut changed = old.net().copy()?;
    changed
        .cut_rule(RuleId::of(rule))
        .expect(rt, "there is a rule");
    Ok(changed)
}

#[test]
fn without_a_rule(rt: HostRuntime) -> Result<(), Fail> {
    let alloc = rt.alloc();
    let old = planned(&rt, alloc, &[TWO_BOXES, HALVES])?;
    let plan = replanned(&rt, alloc, &old, without(&rt, &old, 2)?, 16)?;
    assert_eq!(rt; plan.table().len(), 2);
    assert_eq!(rt; plan.probe_count(), 2);
    assert!(rt; plan.touches(TermId::of(1), BoxId::of(2)));
    assert!(rt; !plan.touches(TermId::of(2), BoxId::of(2)));
    Ok(())
}

#[test]
fn full_below_what_is_kept_and_found(rt: HostRuntime) -> Result<(), Fail> {
    let alloc = rt.alloc();
    let old = planned(&rt, alloc, &[TWO_BOXES, HALVES])?;
    let net = Arc::new(alloc, without(&rt, &old, 2)?)?;
    match rebuild(&rt, alloc, &old, net, 16, 1, 2, &FreeGate) {
        Err(fault) => assert_eq!(rt; fault, PlanFault::TableFull { limit: 1 }),
        Ok(_) => panic!(&rt; "two entries are more than one"),
    }
    Ok(())
}

#[test]
fn a_rule_at_a_box_that_no_packet_comes_to(rt: HostRuntime) -> Result<(), Fail> {
    let alloc = rt.alloc();
    let old = planned(&rt, alloc, &[TWO_BOXES, b"box 3\n", HALVES])?;
    let changed = network(
        alloc,
        &[TWO_BOXES, b"box 3\n", HALVES, b"rule 9 3 1 * xx drop\n"],
    )?;
    let gate = Counter {
        passed: AtomicU64::new(0),
    };
    let plan = rebuild(&rt, alloc, &old, Arc::new(alloc, changed)?, 16, 3, 2, &gate)?;
    assert_eq!(rt; gate.passed.load(Ordering::SeqCst), 0);
    assert_eq!(rt; plan.table().len(), 3);
    assert_eq!(rt; plan.idle(0), Some(RuleId::of(9)));
    Ok(())
}

// The same two boxes with a link less, and a network of another width.
const UNLINKED: &[u8] =
    b"atpg-net 2 2\nbox 1\nbox 2\nport 11 1\nport 12 1\nport 21 2\nport 22 2\nterm 2 22 receive\npermit 2 xx\nterm 1 11 send\n";

const WIDER: &[u8] =
    b"atpg-net 2 3\nbox 1\nbox 2\nport 11 1\nport 12 1\nport 21 2\nport 22 2\nlink 12 21\nterm 2 22 receive\nterm 1 11 send\npermit 1 0xx\nrule 1 1 1 * 0xx 12\nrule 3 2 1 * xx0 22\n";

#[test]
fn after_other_changes(rt: HostRuntime) -> Result<(), Fail> {
    let alloc = rt.alloc();
    let old = planned(&rt, alloc, &[TWO_BOXES, HALVES])?;
    replanned(&rt, alloc, &old, old.net().copy()?, 1)?;
    replanned(
        &rt,
        alloc,
        &old,
        network(alloc, &[TWO_BOXES, HALVES, b"permit 1 10\n"])?,
        16,
    )?;
    replanned(&rt, alloc, &old, network(alloc, &[UNLINKED, HALVES])?, 16)?;
    replanned(&rt, alloc, &old, network(alloc, &[WIDER])?, 16)?;
    Ok(())
}

/// Four boxes in a ring, with a terminal at each.
const RING: &[u8] =
    b"atpg-net 2 4\nbox 1\nbox 2\nbox 3\nbox 4\nport 11 1\nport 12 1\nport 13 1\nport 21 2\nport 22 2\nport 23 2\nport 31 3\nport 32 3\nport 33 3\nport 41 4\nport 42 4\nport 43 4\nlink 12 21\nlink 22 31\nlink 32 41\nlink 42 11\nterm 1 13 both\nterm 2 23 both\nterm 3 33 both\nterm 4 43 both\npermit 1 xxxx\npermit 2 0xxx\npermit 3 xx1x\npermit 4 1xx0\n";

/// Numbers that look drawn by chance, and are the same each time.
#[derive(Drop)]
struct Draws {
    state: u64,
}

impl Draws {
    // A number below the bound.
    fn below(&mut self, bound: u32) -> u32 {
        self.state = self
            .state
            .wrapping_mul(6364136223846793005)
            .wrapping_add(1442695040888963407);
        let drawn = (self.state >> 33) as u32;
        if bound == 0 { 0 } else { drawn % bound }
    }
}

fn letter(draws: &mut Draws) -> u8 {
    match draws.below(3) {
        0 => b'0',
        1 => b'1',
        _ => b'x',
    }
}

// Cuts a rule, or adds one of that number where there is none.
fn change(rt: &impl Abort, net: &mut Network, draws: &mut Draws) -> Result<(), Fail> {
    let id = RuleId::of(draws.below(24));
    if net.rule(id).is_some() {
        net.cut_rule(id).expect(rt, "there is a rule");
        return Ok(());
    }
    let at = draws.below(4) % 4 + 1;
    let letters = [letter(draws), letter(draws), letter(draws), letter(draws)];
    let out = draws.below(4) % 4;
    let action = match out {
        0 => Action::Drop,
        _ => Action::Out {
            port: PortId::of(10 * at + out),
            rewrite: Rewrite::keep(4),
        },
    };
    let rule = Rule {
        id,
        at: BoxId::of(at),
        priority: draws.below(3),
        inp: InPort::Any,
        pattern: Pattern::read(&letters)?,
        action,
    };
    net.add_rule(rule).expect(rt, "the rule fits");
    Ok(())
}

#[test]
fn after_each_of_two_hundred_changes(rt: HostRuntime) -> Result<(), Fail> {
    let alloc = rt.alloc();
    let mut plan = planned(&rt, alloc, &[RING])?;
    let mut draws = Draws { state: 7 };
    for _ in 0..200 {
        let mut changed = plan.net().copy()?;
        change(&rt, &mut changed, &mut draws)?;
        plan = replanned(&rt, alloc, &plan, changed, 6)?;
    }
    Ok(())
}
