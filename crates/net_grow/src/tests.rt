ghost use Rattle.std.specs.Prelude.{◌≤◌};

use crate::grow;
use net_types::{Action, BoxId, InPort, PortId, Role, Rule, RuleId, TermId};
use std::test::Fail;
use ternary_bits::{Pattern, Rewrite};

/// Where a rule stands and what it does. Its pattern is the first letters, and its rewrite the last eight, of 128.
#[derive(Drop)]
struct Row {
    id: u32,
    at: u32,
    priority: u32,
    inp: InPort,
    letters: &'static [u8],
    action: Out,
}

#[derive(Drop)]
enum Out {
    Drop,
    Kept(u32),
    Set(u32, &'static [u8; 8]),
}

/// 128 letters, of which these stand at a place and the others are blank.
fn word(blank: u8, letters: &[u8], at: usize) -> [u8; 128]
    requires { at ≤ 128 }
{
    let mut word = [blank; 128];
    for (place, letter) in word[at..].iter_mut().zip(letters) {
        *place = *letter;
    }
    word
}

fn pattern(letters: &[u8]) -> Result<Pattern, Fail> {
    Ok(Pattern::read(&word(b'x', letters, 0))?)
}

fn action(out: &Out) -> Result<Action, Fail> {
    Ok(match out {
        Out::Drop => Action::Drop,
        Out::Kept(port) => Action::Out {
            port: PortId::of(*port),
            rewrite: Rewrite::keep(128),
        },
        Out::Set(port, bits) => Action::Out {
            port: PortId::of(*port),
            rewrite: Rewrite::read(&word(b'-', *bits, 120))?,
        },
    })
}

fn one(port: u32) -> InPort {
    InPort::One(PortId::of(port))
}

// The words come from another program for the same generator.
fn rows() -> [Row; 7] {
    let row = |id, at, priority, inp, letters, action| Row {
        id,
        at,
        priority,
        inp,
        letters,
        action,
    };
    [
        row(
            1000,
            0,
            24,
            one(100),
            b"000100101100011101010111",
            Out::Drop,
        ),
        row(1002, 0, 5, one(100), b"11001", Out::Kept(200)),
        row(
            2021,
            15,
            19,
            one(115),
            b"0111011110011000110",
            Out::Set(215, b"11000100"),
        ),
        row(1063, 0, 0, one(100), b"", Out::Kept(200)),
        row(3005, 16, 10, InPort::Any, b"0101", Out::Kept(305)),
        row(
            4032,
            1,
            19,
            one(201),
            b"0001011110000110100",
            Out::Kept(101),
        ),
        row(4511, 15, 0, one(215), b"", Out::Kept(115)),
    ]
}

#[test]
fn grows_from_seven(rt: HostRuntime) -> Result<(), Fail> {
    let net = grow(rt.alloc(), 7)?;
    assert_eq!(rt; net.bits(), 128);
    assert_eq!(rt; net.box_count(), 17);
    assert_eq!(rt; net.port_count(), 48);
    assert_eq!(rt; net.link_count(), 32);
    assert_eq!(rt; net.term_count(), 16);
    assert_eq!(rt; net.rule_count(), 1_552);
    assert_eq!(rt;
        net.term(TermId::of(9)),
        Some((PortId::of(109), Role::Both))
    );
    Ok(())
}

#[test]
fn draws_its_rules_in_order(rt: HostRuntime) -> Result<(), Fail> {
    let net = grow(rt.alloc(), 7)?;
    for row in &rows() {
        let want = Rule {
            id: RuleId::of(row.id),
            at: BoxId::of(row.at),
            priority: row.priority,
            inp: row.inp,
            pattern: pattern(row.letters)?,
            action: action(&row.action)?,
        };
        assert_eq!(rt; net.rule(RuleId::of(row.id)).copied(), Some(want));
    }
    Ok(())
}
