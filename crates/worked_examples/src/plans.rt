//! The plans of small networks.
ghost use Rattle.std.specs.Prelude.{◌≤◌};

use crate::networks::{HALVES, TWO_BOXES, check_rules, network};
use frontier_waves::FreeGate;
use net_types::{BoxId, Network, TermId};
use plan_build::{WavePlanner, build, build_counted};
use rule_cover::{Plan, PlanFault, Planner};
use std::alloc::Global;
use std::process::Abort;
use std::sync::Arc;
use std::test::Fail;
use std::thread::Threads;

#[test]
fn each_rule_is_on_one_of_two_probes(rt: HostRuntime) -> Result<(), Fail> {
    let alloc = rt.alloc();
    let net = Arc::new(alloc, network(alloc, &[TWO_BOXES, HALVES])?)?;
    let (plan, classes) = build_counted(&rt, alloc, net, 16, 3, 2, &FreeGate)?;
    // no rule yet, 1, 2, and the three entries
    assert_eq!(rt; classes, 6);
    assert_eq!(rt; plan.hops(), 16);
    assert_eq!(rt; plan.net().rule_count(), 4);
    assert_eq!(rt; plan.table().len(), 3);
    let cases: [(u32, &[u32], u128); 3] = [(1, &[1, 3], 0), (2, &[1, 4], 1), (3, &[2, 4], 3)];
    for (number, rules, header) in cases {
        let entry = plan.table().entry(number).expect(&rt, "there is an entry");
        assert_eq!(rt; entry.from, TermId::of(1));
        assert_eq!(rt; entry.to, TermId::of(2));
        check_rules(&rt, &entry.rules, rules);
        assert_eq!(rt; entry.least.number(), header);
        assert_eq!(rt; entry.greatest.number(), header);
        assert_eq!(rt; entry.arrives.number(), header);
    }
    assert_eq!(rt; plan.probe_count(), 2);
    assert_eq!(rt; plan.probe(0), Some(1));
    assert_eq!(rt; plan.probe(1), Some(3));
    assert_eq!(rt; plan.reserved_count(), 1);
    assert_eq!(rt; plan.reserved(0), Some(2));
    assert_eq!(rt; plan.idle_count(), 0);
    Ok(())
}

#[test]
fn full_below_the_number_of_entries(rt: HostRuntime) -> Result<(), Fail> {
    let alloc = rt.alloc();
    let net = Arc::new(alloc, network(alloc, &[TWO_BOXES, HALVES])?)?;
    match build(&rt, alloc, net, 16, 2, 2, &FreeGate) {
        Err(fault) => assert_eq!(rt; fault, PlanFault::TableFull { limit: 2 }),
        Ok(_) => panic!(rt; "three entries are more than two"),
    }
    Ok(())
}

// The plan that a planner with this limit gives of the network, the second time from its plan before.
fn planned<R: Threads + Sync>(
    rt: &R,
    alloc: Global,
    limit: u32,
    net: Arc<Network>,
) -> Result<Plan, PlanFault> {
    let mut planner = WavePlanner::new(rt, alloc, limit, 2);
    let _first = planner.plan(Arc::try_clone(&net)?, 16)?;
    planner.plan(net, 16)
}

// The packets of terminal 1 come to both boxes, and terminal 2 sends none.
fn check_touched(rt: &impl Abort, plan: &Plan) {
    for b in 1..4 {
        let is_there = plan.touches(TermId::of(1), BoxId::of(b));
        assert_eq!(rt; is_there, b < 3);
        let is_far = plan.touches(TermId::of(2), BoxId::of(b));
        assert!(rt; !is_far);
    }
}

#[test]
fn a_planner_keeps_its_limit(rt: HostRuntime) -> Result<(), Fail> {
    let alloc = rt.alloc();
    let net = Arc::new(alloc, network(alloc, &[TWO_BOXES, HALVES])?)?;
    let plan = planned(&rt, alloc, 3, Arc::try_clone(&net)?)?;
    assert_eq!(rt; plan.table().len(), 3);
    assert_eq!(rt; plan.probe_count(), 2);
    match planned(&rt, alloc, 2, net) {
        Err(fault) => assert_eq!(rt; fault, PlanFault::TableFull { limit: 2 }),
        Ok(_) => panic!(rt; "three entries are more than two"),
    }
    Ok(())
}

#[test]
fn a_copy_of_a_plan_touches_what_the_plan_does(rt: HostRuntime) -> Result<(), Fail> {
    let alloc = rt.alloc();
    let net = Arc::new(alloc, network(alloc, &[TWO_BOXES, HALVES])?)?;
    let plan = planned(&rt, alloc, 3, net)?;
    check_touched(&rt, &plan);
    let copy = plan.copy()?;
    check_touched(&rt, &copy);
    assert_eq!(rt; copy.hops(), 16);
    assert_eq!(rt; copy.net().rule_count(), 4);
    assert_eq!(rt; copy.table().len(), 3);
    assert_eq!(rt; copy.probe(0), Some(1));
    assert_eq!(rt; copy.probe(1), Some(3));
    assert_eq!(rt; copy.probe(2), None);
    assert_eq!(rt; copy.reserved(0), Some(2));
    assert_eq!(rt; copy.idle_count(), 0);
    Ok(())
}
