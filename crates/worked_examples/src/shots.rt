//! Probes of small plans, fired over fields and over links that fail.
ghost use Rattle.std.specs.Prelude.{◌<◌, ◌≤◌};

use crate::networks::{HALVES, TWO_BOXES, network};
use byte_edges::{EdgeFault, Link};
use field_sim::{FaultLink, Field};
use frontier_waves::FreeGate;
use net_types::{Network, RuleId};
use plan_build::build;
use probe_agents::{Shot, fire, fire_all};
use probe_wire::{Probe, ProbeId, encode};
use rule_cover::Plan;
use std::alloc::Global;
use std::process::Abort;
use std::sync::Arc;
use std::test::Fail;
use std::thread::Threads;
use suspect_book::Verdict;
use ternary_bits::Header;

const ONE_BOX: &[u8] =
    b"atpg-net 1 4\nbox 1\nport 11 1\nport 12 1\nterm 1 11 send\nterm 2 12 receive\npermit 1 xxxx\nrule 5 1 10 * 1xx0 12\n";

const ID: ProbeId = ProbeId {
    round: 1,
    version: 0,
};

const PASS: Shot = Shot::Sure(Verdict::Pass);

const FAIL: Shot = Shot::Sure(Verdict::Fail);

// The plan of a network for 16 rules at most.
fn plan_of<R: Threads + Sync>(rt: &R, alloc: Global, parts: &[&[u8]]) -> Result<Plan, Fail> {
    let net = Arc::new(alloc, network(alloc, parts)?)?;
    Ok(build(rt, alloc, net, 16, 10, 2, &FreeGate)?)
}

// The field of that network, in which some rules lose their packets.
fn field_of(alloc: Global, plan: &Plan, bad: &[RuleId]) -> Result<Field, Fail> {
    Ok(Field::new(alloc, plan.net().clone()?, 16, bad)?)
}

// Sends so many packets of another entry, which arrive at terminal 2.
fn send_strays(link: &mut impl Link, count: usize) -> Result<(), EdgeFault> {
    let stray = encode(&Probe {
        round: 1,
        version: 0,
        entry: 2,
        header: Header::of_number(4, 0b1000),
    });
    for _ in 0..count {
        link.send(1, stray.as_slice())?;
    }
    Ok(())
}

// No packet waits at terminal 2.
fn check_dry(rt: &impl Abort, link: &mut impl Link) {
    let mut into = [0; 64];
    assert_eq!(rt; link.take(2, &mut into), Ok(None));
}

#[test]
fn a_probe_passes_unless_its_rule_is_bad(rt: HostRuntime) -> Result<(), Fail> {
    let alloc = rt.alloc();
    let plan = plan_of(&rt, alloc, &[ONE_BOX])?;
    assert_eq!(rt; plan.table().len(), 1);
    let cases: [(&[u32], Shot); 4] = [(&[], PASS), (&[5], FAIL), (&[4, 5], FAIL), (&[4, 6], PASS)];
    for (numbers, shot) in cases {
        let mut bad = Vec::new(alloc);
        for number in numbers {
            bad.push(RuleId::of(*number))?;
        }
        let mut field = field_of(alloc, &plan, &bad)?;
        assert_eq!(rt; fire(&mut field, &plan, 1, ID), Ok(shot));
        check_dry(&rt, &mut field);
    }
    Ok(())
}

#[test]
fn other_packets_are_passed_over_up_to_64(rt: HostRuntime) -> Result<(), Fail> {
    let alloc = rt.alloc();
    let plan = plan_of(&rt, alloc, &[ONE_BOX])?;
    assert_eq!(rt; plan.table().len(), 1);
    for (count, shot) in [(1, PASS), (63, PASS), (64, Shot::Strays)] {
        let mut field = field_of(alloc, &plan, &[])?;
        assert_eq!(rt; send_strays(&mut field, count), Ok(()));
        assert_eq!(rt; fire(&mut field, &plan, 1, ID), Ok(shot));
    }
    // A packet of another round or version is another packet too.
    for other in [
        ProbeId {
            round: 2,
            version: 0,
        },
        ProbeId {
            round: 1,
            version: 1,
        },
    ] {
        let mut field = field_of(alloc, &plan, &[RuleId::of(5)])?;
        let mut open = field_of(alloc, &plan, &[])?;
        assert_eq!(rt; fire(&mut field, &plan, 1, other), Ok(FAIL));
        assert_eq!(rt; fire(&mut open, &plan, 1, other), Ok(PASS));
    }
    Ok(())
}

#[test]
fn a_call_that_fails_ends_it(rt: HostRuntime) -> Result<(), Fail> {
    let alloc = rt.alloc();
    let plan = plan_of(&rt, alloc, &[ONE_BOX])?;
    assert_eq!(rt; plan.table().len(), 1);
    let cases: [(&[u64], Shot); 5] = [
        (&[1], Shot::Faulted),
        (&[2], Shot::Faulted),
        (&[3], Shot::Faulted),
        (&[4], PASS),
        (&[9, 3, 9], Shot::Faulted),
    ];
    for (fails, shot) in cases {
        let mut field = field_of(alloc, &plan, &[])?;
        assert_eq!(rt; send_strays(&mut field, 1), Ok(()));
        let mut link = FaultLink::new(field, fails.to_vec(alloc)?);
        assert_eq!(rt; fire(&mut link, &plan, 1, ID), Ok(shot));
    }
    // A call that fails leaves what waits.
    let mut link = FaultLink::new(field_of(alloc, &plan, &[])?, [1, 3].to_vec(alloc)?);
    assert_eq!(rt; send_strays(&mut link, 1), Err(EdgeFault::Failed));
    assert_eq!(rt; send_strays(&mut link, 1), Ok(()));
    let mut into = [0; 64];
    assert_eq!(rt; link.take(2, &mut into), Err(EdgeFault::Failed));
    assert_eq!(rt; link.take(2, &mut into), Ok(Some(33)));
    assert_eq!(rt; into[15], 2);
    check_dry(&rt, &mut link);
    Ok(())
}

#[test]
fn probes_are_shared_out_over_fields(rt: HostRuntime) -> Result<(), Fail> {
    let alloc = rt.alloc();
    let plan = plan_of(&rt, alloc, &[TWO_BOXES, HALVES])?;
    assert_eq!(rt; plan.table().len(), 3);
    let bad = [RuleId::of(1)];
    for count in 1..=4usize {
        let mut fields = Vec::new(alloc);
        for _ in 0..count {
            fields.push(field_of(alloc, &plan, &bad)?)?;
        }
        assert_eq!(rt; fields.len(), count);
        let shots = fire_all(&rt, alloc, &mut fields, &plan, &[1, 2, 3], ID)?;
        assert_eq!(rt; shots.as_slice(), [FAIL, FAIL, PASS].as_slice());
        assert_eq!(rt; fields.len(), count);
    }
    Ok(())
}
