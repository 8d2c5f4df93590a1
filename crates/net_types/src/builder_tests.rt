use crate::test_parts::{Part, add, declared, drops, sends};
use crate::{
    BoxId, InPort, NetBuilder, NetFault, Network, Next, Path, PortId, Role, RuleId, TermId,
};
use std::alloc::Global;
use std::process::Abort;
use std::test::Fail;
use ternary_bits::{Pattern, Rewrite};

/// Headers of 4 bits, boxes 1 and 2, ports 10 and 11 of box 1 and 20 and 21 of box 2, a link between 11 and 20, terminal
/// 7 at port 10, and rule 5 of box 1. Port 21 has neither a link nor a terminal.
fn small(alloc: Global) -> Result<NetBuilder, NetFault> {
    declared(
        alloc,
        4,
        &[
            Part::Box(2),
            Part::Box(1),
            Part::Port(20, 2),
            Part::Port(10, 1),
            Part::Port(21, 2),
            Part::Port(11, 1),
            Part::Link(20, 11),
            Part::Term(7, 10, Role::Both),
            Part::Permit(7, Pattern::all(4)),
            Part::Forbid(7, Pattern::all(4)),
            Part::Rule(drops(5, 1, InPort::One(PortId::of(11)))),
        ],
    )
}

/// The parts one by one, with what is answered to each.
fn check_answers(rt: &impl Abort, net: &mut NetBuilder, cases: &[(Part, Result<(), NetFault>)]) {
    for (part, want) in cases {
        assert_eq!(rt; add(net, part), *want);
    }
}

#[test]
fn refuses_widths(rt: HostRuntime) -> Result<(), Fail> {
    for (bits, want) in [
        (0, Some(NetFault::Width)),
        (1, None),
        (128, None),
        (129, Some(NetFault::Width)),
    ] {
        assert_eq!(rt; NetBuilder::new(rt.alloc(), bits).err(), want);
    }
    Ok(())
}

#[test]
fn refuses_places(rt: HostRuntime) -> Result<(), Fail> {
    let mut net = small(rt.alloc())?;
    let cases = [
        (Part::Box(1), Err(NetFault::Twice)),
        (Part::Port(10, 9), Err(NetFault::Twice)),
        (Part::Port(12, 9), Err(NetFault::Unknown)),
        (Part::Port(12, 2), Ok(())),
        (Part::Link(21, 9), Err(NetFault::Unknown)),
        (Part::Link(21, 21), Err(NetFault::LinkTaken)),
        (Part::Link(10, 11), Err(NetFault::LinkTaken)),
        (Part::Link(10, 21), Err(NetFault::EdgeLinked)),
        (Part::Link(12, 21), Ok(())),
    ];
    check_answers(&rt, &mut net, &cases);
    Ok(())
}

#[test]
fn refuses_terminals(rt: HostRuntime) -> Result<(), Fail> {
    let mut net = small(rt.alloc())?;
    let cases = [
        (Part::Term(7, 9, Role::Send), Err(NetFault::Twice)),
        (Part::Term(8, 9, Role::Send), Err(NetFault::Unknown)),
        (Part::Term(8, 10, Role::Send), Err(NetFault::PortTaken)),
        (Part::Term(8, 20, Role::Send), Err(NetFault::EdgeLinked)),
        (Part::Permit(8, Pattern::all(4)), Err(NetFault::Unknown)),
        (Part::Forbid(8, Pattern::all(4)), Err(NetFault::Unknown)),
        (Part::Term(8, 21, Role::Send), Ok(())),
        (Part::Permit(7, Pattern::all(5)), Err(NetFault::Width)),
        (Part::Forbid(7, Pattern::all(5)), Err(NetFault::Width)),
    ];
    check_answers(&rt, &mut net, &cases);
    Ok(())
}

#[test]
fn refuses_rules(rt: HostRuntime) -> Result<(), Fail> {
    let mut net = small(rt.alloc())?;
    let far_port = InPort::One(PortId::of(20));
    let cases = [
        (drops(5, 9, InPort::Any), Err(NetFault::Twice)),
        (drops(6, 9, InPort::Any), Err(NetFault::Unknown)),
        (drops(6, 1, far_port), Err(NetFault::Unknown)),
        (sends(6, 20, Rewrite::keep(4)), Err(NetFault::Unknown)),
        (sends(6, 11, Rewrite::keep(5)), Err(NetFault::Width)),
        (sends(6, 11, Rewrite::keep(4)), Ok(())),
    ];
    for (rule, want) in &cases {
        assert_eq!(rt; net.add_rule(*rule), *want);
    }
    Ok(())
}

/// What there may be only so many of.
#[derive(Clone, Copy)]
enum Kind {
    Box,
    Port,
    Term,
    Permit,
    Forbid,
    Rule,
}

/// A part with this number, or one more pattern of terminal 0.
fn numbered(kind: Kind, id: u32) -> Part {
    match kind {
        Kind::Box => Part::Box(id),
        Kind::Port => Part::Port(id, 0),
        Kind::Term => Part::Term(id, id, Role::Send),
        Kind::Permit => Part::Permit(0, Pattern::all(4)),
        Kind::Forbid => Part::Forbid(0, Pattern::all(4)),
        Kind::Rule => Part::Rule(drops(id, 0, InPort::Any)),
    }
}

/// So many are taken, and one more is past the limit.
fn fill(rt: &impl Abort, net: &mut NetBuilder, kind: Kind, most: u32) {
    for id in 0..most {
        assert_eq!(rt; add(net, &numbered(kind, id)), Ok(()));
    }
    assert_eq!(rt; add(net, &numbered(kind, most)), Err(NetFault::Limit));
}

/// As many of each as there may be.
fn full<R: Abort + AllocGlobal>(rt: &R) -> Result<NetBuilder, NetFault> {
    let mut net = NetBuilder::new(rt.alloc(), 4)?;
    for (kind, most) in [
        (Kind::Box, 4_096),
        (Kind::Port, 16_384),
        (Kind::Term, 256),
        (Kind::Permit, 64),
        (Kind::Forbid, 64),
        (Kind::Rule, 65_536),
    ] {
        fill(rt, &mut net, kind, most);
    }
    assert_eq!(rt; add(&mut net, &Part::Box(4_095)), Err(NetFault::Twice));
    let too_wide = Part::Permit(0, Pattern::all(5));
    assert_eq!(rt; add(&mut net, &too_wide), Err(NetFault::Limit));
    Ok(net)
}

#[test]
fn takes_as_many_as_there_may_be(rt: HostRuntime) -> Result<(), Fail> {
    let mut net = full(&rt)?.finish()?;
    let one_more = drops(65_536, 0, InPort::Any);
    assert_eq!(rt; net.add_rule(one_more), Err(NetFault::Limit));
    net.cut_rule(RuleId::of(0))?;
    assert_eq!(rt; net.add_rule(one_more), Ok(()));
    Ok(())
}

fn check_places(rt: &impl Abort, net: &Network) {
    assert_eq!(rt; (net.bits(), net.box_count(), net.port_count()), (4, 2, 4));
    for (i, id) in [(0, Some(1)), (1, Some(2)), (2, None)] {
        assert_eq!(rt; net.box_at(i), id.map(BoxId::of));
    }
    for (i, id) in [(0, Some(10)), (3, Some(21)), (4, None)] {
        assert_eq!(rt; net.port_at(i), id.map(PortId::of));
    }
    assert_eq!(rt; net.box_of(PortId::of(20)), Some(BoxId::of(2)));
    for (port, far) in [(11, 20), (20, 11)] {
        assert_eq!(rt; net.next(PortId::of(port)), Next::Far(PortId::of(far)));
    }
}

fn check_terminal(rt: &impl Abort, net: &Network) {
    let seven = TermId::of(7);
    assert_eq!(rt; net.term_count(), 1);
    assert_eq!(rt; net.term(seven), Some((PortId::of(10), Role::Both)));
    for (i, want) in [(0, Some(Pattern::all(4))), (1, None)] {
        assert_eq!(rt; net.permit_at(seven, i).copied(), want);
        assert_eq!(rt; net.forbid_at(seven, i).copied(), want);
    }
    assert_eq!(rt; net.permits_of(seven).map(|permits| permits.len()), Some(1));
    assert_eq!(rt; net.forbids_of(seven).map(|forbids| forbids.len()), Some(1));
    assert!(rt; net.permits_of(TermId::of(8)).is_none());
    assert!(rt; net.forbids_of(TermId::of(8)).is_none());
}

#[test]
fn finishes_with_all_parts(rt: HostRuntime) -> Result<(), Fail> {
    let net = small(rt.alloc())?.finish()?;
    check_places(&rt, &net);
    check_terminal(&rt, &net);
    let five = drops(5, 1, InPort::One(PortId::of(11)));
    assert_eq!(rt; net.rule(RuleId::of(5)).copied(), Some(five));
    Ok(())
}

#[test]
fn roles(rt: HostRuntime) {
    for (role, sends, receives) in [
        (Role::Send, true, false),
        (Role::Receive, false, true),
        (Role::Both, true, true),
    ] {
        assert_eq!(rt; (role.sends(), role.receives()), (sends, receives));
    }
}

#[test]
fn keeps_a_path(rt: HostRuntime) -> Result<(), Fail> {
    let path = Path::with_room(rt.alloc(), 2)?;
    assert_eq!(rt; (path.len(), path.get(0)), (0, None));
    Ok(())
}
