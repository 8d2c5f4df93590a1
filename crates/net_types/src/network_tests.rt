//! Walks through a small network, and changes of it.

use crate::test_parts::{Part, network};
use crate::{
    Action, BoxId, End, InPort, NetFault, Network, Next, Path, PortId, Role, Rule, RuleId,
    RuleList, TermId,
};
use std::alloc::Global;
use std::process::Abort;
use std::test::Fail;
use ternary_bits::{Header, Pattern, Rewrite};

fn out(port: u32, rewrite: &[u8]) -> Result<Action, Fail> {
    Ok(Action::Out {
        port: PortId::of(port),
        rewrite: Rewrite::read(rewrite)?,
    })
}

fn rule(id: u32, at: u32, priority: u32, pattern: &[u8], action: Action) -> Result<Rule, Fail> {
    Ok(Rule {
        id: RuleId::of(id),
        at: BoxId::of(at),
        priority,
        inp: InPort::Any,
        pattern: Pattern::read(pattern)?,
        action,
    })
}

fn through(port: u32, rule: Rule) -> Rule {
    Rule {
        inp: InPort::One(PortId::of(port)),
        ..rule
    }
}

// Terminal 1 sends into the box at port 11, and terminal 2 receives at port 12.
fn one_box(alloc: Global) -> Result<Network, Fail> {
    let marked = out(11, b"---1")?;
    network(
        alloc,
        4,
        &[
            Part::Box(1),
            Part::Port(12, 1),
            Part::Port(11, 1),
            Part::Term(1, 11, Role::Send),
            Part::Term(2, 12, Role::Receive),
            Part::Permit(1, Pattern::read(b"xxxx")?),
            Part::Rule(rule(6, 1, 10, b"1xx0", marked)?),
            Part::Rule(rule(5, 1, 10, b"1xx0", out(12, b"---1")?)?),
            Part::Rule(rule(8, 1, 1, b"xx00", marked)?),
            Part::Rule(through(12, rule(2, 1, 90, b"xxxx", Action::Drop)?)),
            Part::Rule(rule(7, 1, 5, b"01xx", Action::Drop)?),
        ],
    )
}

// How the walk from terminal 1 ends, and its path.
fn walked<R: Abort + AllocGlobal>(
    rt: &R,
    net: &Network,
    letters: &[u8],
    hops: u32,
) -> Result<(End, Path), Fail> {
    let from = TermId::of(1);
    let header = Header::read(letters)?;
    let mut path = Path::with_room(rt.alloc(), hops)?;
    assert_eq!(rt; header.bits(), net.bits());
    assert!(rt; net.term(from).is_some());
    let end = net.walk_one(from, &header, hops, &mut path);
    Ok((end, path))
}

fn delivered(term: u32, header: &[u8]) -> Result<End, Fail> {
    Ok(End::Delivered {
        term: TermId::of(term),
        header: Header::read(header)?,
    })
}

#[test]
fn one_hop(rt: HostRuntime) -> Result<(), Fail> {
    let net = one_box(rt.alloc())?;
    let lost = End::Lost {
        port: PortId::of(11),
    };
    let dropped = End::Dropped {
        rule: RuleId::of(7),
    };
    for (letters, end, rules) in [
        (b"1010", delivered(2, b"1011")?, 1),
        (b"1001", End::Unmatched, 0),
        (b"0100", dropped, 0),
        (b"0000", lost, 1),
    ] {
        let (ended, path) = walked(&rt, &net, letters, 16)?;
        assert_eq!(rt; ended, end);
        assert_eq!(rt; path.len(), rules);
    }
    Ok(())
}

#[test]
fn a_rule_more(rt: HostRuntime) -> Result<(), Fail> {
    let before = one_box(rt.alloc())?;
    let mut net = before.copy()?;
    let all = rule(1, 1, 10, b"xxxx", out(12, b"----")?)?;
    net.add_rule(all)?;
    assert!(rt; !net.same(&before));
    assert_eq!(rt; net.add_rule(all), Err(NetFault::Twice));
    assert_eq!(rt; net.rule(all.id).copied(), Some(all));
    let (_, path) = walked(&rt, &net, b"1010", 1)?;
    assert_eq!(rt; path.get(0), Some(RuleId::of(1)));
    Ok(())
}

#[test]
fn a_rule_less(rt: HostRuntime) -> Result<(), Fail> {
    let before = one_box(rt.alloc())?;
    let mut net = before.copy()?;
    let first = RuleId::of(1);
    let all = rule(1, 1, 10, b"xxxx", Action::Drop)?;
    // A rule that is moved whole gets no generated proof.
    net.add_rule(Rule {
        inp: InPort::Any,
        ..all
    })?;
    net.cut_rule(first)?;
    assert!(rt; net.same(&before));
    assert_eq!(rt; net.cut_rule(first), Err(NetFault::Unknown));
    assert_eq!(rt; net.rule_count(), 5);
    for (i, id) in [(0, Some(2)), (1, Some(5)), (4, Some(8)), (5, None)] {
        assert_eq!(rt; net.rule_at(i).map(|rule| rule.id), id.map(RuleId::of));
    }
    Ok(())
}

#[test]
fn links_at_both_ports(rt: HostRuntime) -> Result<(), Fail> {
    let parts = [
        Part::Box(1),
        Part::Port(5, 1),
        Part::Port(2, 1),
        Part::Port(9, 1),
        Part::Port(7, 1),
        Part::Link(9, 2),
    ];
    let net = network(rt.alloc(), 1, &parts)?;
    assert_eq!(rt; net.link_count(), 2);
    assert_eq!(rt; net.link_at(0), Some((PortId::of(2), PortId::of(9))));
    assert_eq!(rt; net.link_at(1), Some((PortId::of(9), PortId::of(2))));
    assert_eq!(rt; net.link_at(2), None);
    Ok(())
}

fn check_hits(rt: &impl Abort, net: &Network) -> Result<(), Fail> {
    for (port, letters, id) in [
        (11, b"1010", Some(5)),
        (12, b"1010", Some(2)),
        (11, b"1100", Some(5)),
        (11, b"0100", Some(7)),
        (11, b"0000", Some(8)),
        (11, b"1001", None),
        (13, b"1010", None),
    ] {
        let header = Header::read(letters)?;
        assert_eq!(rt; header.bits(), net.bits());
        let hit = net.hit(PortId::of(port), &header);
        assert_eq!(rt; hit.map(|rule| rule.id), id.map(RuleId::of));
    }
    Ok(())
}

#[test]
fn hits_in_precedence(rt: HostRuntime) -> Result<(), Fail> {
    let net = one_box(rt.alloc())?;
    let mut met = RuleList::new(rt.alloc());
    for rule in net.rules_at(BoxId::of(1)) {
        met.push(rule.id)?;
    }
    assert_eq!(rt; met.as_slice(), [2, 5, 6, 7, 8].map(RuleId::of).as_slice());
    assert_eq!(rt; net.rules_at(BoxId::of(2)).len(), 0);
    check_hits(&rt, &net)
}

#[test]
fn finds_what_is_there(rt: HostRuntime) -> Result<(), Fail> {
    let net = one_box(rt.alloc())?;
    let two = TermId::of(2);
    for (port, next) in [(11, Next::Nothing), (12, Next::Term(two))] {
        assert_eq!(rt; net.next(PortId::of(port)), next);
    }
    for (i, id) in [(0, Some(1)), (1, Some(2)), (2, None)] {
        assert_eq!(rt; net.term_at(i), id.map(TermId::of));
    }
    assert_eq!(rt; net.term(two), Some((PortId::of(12), Role::Receive)));
    assert_eq!(rt; net.term(TermId::of(3)), None);
    assert_eq!(rt; net.box_of(PortId::of(13)), None);
    Ok(())
}

// Box 2 sends a header that begins with 0 back to box 1, as one that begins with 1.
fn two_boxes(alloc: Global) -> Result<Network, Fail> {
    network(
        alloc,
        2,
        &[
            Part::Box(1),
            Part::Box(2),
            Part::Port(11, 1),
            Part::Port(12, 1),
            Part::Port(13, 1),
            Part::Port(21, 2),
            Part::Port(22, 2),
            Part::Port(23, 2),
            Part::Link(12, 21),
            Part::Link(22, 13),
            Part::Term(1, 11, Role::Send),
            Part::Term(2, 23, Role::Both),
            Part::Rule(rule(1, 1, 1, b"xx", out(12, b"--")?)?),
            Part::Rule(rule(2, 2, 1, b"0x", out(22, b"1-")?)?),
            Part::Rule(through(21, rule(3, 2, 1, b"1x", out(23, b"--")?)?)),
        ],
    )
}

#[test]
fn walks_over_links(rt: HostRuntime) -> Result<(), Fail> {
    let net = two_boxes(rt.alloc())?;
    let rules = [1, 2, 1, 3].map(RuleId::of);
    for (hops, end, met) in [
        (4, delivered(2, b"10")?, 4),
        (3, End::Overlong, 3),
        (1, End::Overlong, 1),
    ] {
        let (ended, path) = walked(&rt, &net, b"00", hops)?;
        assert_eq!(rt; ended, end);
        assert_eq!(rt; path.len(), met);
        for (i, id) in rules.iter().enumerate() {
            let wanted = if i < met { Some(*id) } else { None };
            assert_eq!(rt; path.get(i), wanted);
        }
    }
    Ok(())
}

#[test]
fn a_list_and_its_copy(rt: HostRuntime) -> Result<(), Fail> {
    let mut rules = RuleList::new(rt.alloc());
    assert_eq!(rt; (rules.len(), rules.get(0)), (0, None));
    for number in [7, 0, 7] {
        rules.push(RuleId::of(number))?;
    }
    let copy = rules.copy()?;
    rules.push(RuleId::of(4_294_967_295))?;
    assert_eq!(rt; copy.as_slice(), [7, 0, 7].map(RuleId::of).as_slice());
    assert_eq!(rt;
        (copy.len(), copy.get(1), copy.get(3)),
        (3, Some(RuleId::of(0)), None)
    );
    assert_eq!(rt;
        (rules.len(), rules.get(3)),
        (4, Some(RuleId::of(4_294_967_295)))
    );
    Ok(())
}
