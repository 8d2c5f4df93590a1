//! Which boxes and terminals of two small networks are the same.

use crate::test_parts::{Part, network};
use crate::{Action, BoxId, InPort, Network, PortId, Role, Rule, RuleId, TermId};
use std::alloc::Global;
use std::test::Fail;
use ternary_bits::{Pattern, Rewrite};

fn sends(id: u32, at: u32, letters: &[u8], port: u32) -> Result<Part, Fail> {
    Ok(Part::Rule(Rule {
        id: RuleId::of(id),
        at: BoxId::of(at),
        priority: 1,
        inp: InPort::Any,
        pattern: Pattern::read(letters)?,
        action: Action::Out {
            port: PortId::of(port),
            rewrite: Rewrite::keep(2),
        },
    }))
}

fn permits(letters: &[u8]) -> Result<Part, Fail> {
    Ok(Part::Permit(1, Pattern::read(letters)?))
}

// Terminal 1 sends into box 1, whose rules send all on to box 2, whose rules send all to terminal 2. The part at a place is
// another; past the last, none is.
fn two_boxes(alloc: Global, at: usize, other: Part) -> Result<Network, Fail> {
    let mut parts = [
        Part::Box(1),
        Part::Box(2),
        Part::Port(11, 1),
        Part::Port(12, 1),
        Part::Port(21, 2),
        Part::Port(22, 2),
        Part::Port(23, 2),
        Part::Link(12, 21),
        Part::Term(1, 11, Role::Send),
        Part::Term(2, 22, Role::Receive),
        permits(b"0x")?,
        permits(b"11")?,
        sends(1, 1, b"0x", 12)?,
        sends(2, 1, b"1x", 12)?,
        sends(3, 2, b"x0", 22)?,
        sends(4, 2, b"x1", 22)?,
        Part::Box(9),
    ];
    if let Some(part) = parts.get_mut(at) {
        *part = other;
    }
    network(alloc, 2, &parts)
}

#[test]
fn boxes_of_two_networks(rt: HostRuntime) -> Result<(), Fail> {
    let none = Part::Box(8);
    let before = two_boxes(rt.alloc(), 99, none)?;
    for (at, other, first, second) in [
        (99, none, true, true),
        (13, none, false, true),
        (13, sends(5, 1, b"1x", 12)?, false, true),
        (15, sends(4, 2, b"11", 22)?, true, false),
        (16, sends(0, 2, b"x1", 22)?, true, false),
        (16, Part::Port(13, 1), false, true),
        (7, none, false, false),
        (7, Part::Link(21, 12), true, true),
        (7, Part::Link(12, 23), false, false),
        (9, none, true, false),
        (9, Part::Term(2, 22, Role::Both), true, false),
        (9, Part::Term(3, 22, Role::Receive), true, false),
        (10, none, true, true),
    ] {
        let after = two_boxes(rt.alloc(), at, other)?;
        for (id, same) in [(1, first), (2, second), (3, false)] {
            assert_eq!(rt; before.box_same(&after, BoxId::of(id)), same);
            assert_eq!(rt; after.box_same(&before, BoxId::of(id)), same);
        }
    }
    Ok(())
}

#[test]
fn terminals_of_two_networks(rt: HostRuntime) -> Result<(), Fail> {
    let none = Part::Box(8);
    let ones = Pattern::read(b"11")?;
    let before = two_boxes(rt.alloc(), 99, none)?;
    for (at, other, first, second) in [
        (99, none, true, true),
        (13, none, true, true),
        (11, none, false, true),
        (11, permits(b"1x")?, false, true),
        (16, Part::Permit(2, ones), true, false),
        (16, Part::Forbid(1, ones), false, true),
        (9, Part::Term(2, 22, Role::Both), true, false),
        (9, Part::Term(2, 23, Role::Receive), true, false),
        (9, Part::Term(3, 22, Role::Receive), true, false),
    ] {
        let after = two_boxes(rt.alloc(), at, other)?;
        for (id, same) in [(1, first), (2, second), (3, false)] {
            assert_eq!(rt; before.term_same(&after, TermId::of(id)), same);
            assert_eq!(rt; after.term_same(&before, TermId::of(id)), same);
        }
    }
    Ok(())
}
