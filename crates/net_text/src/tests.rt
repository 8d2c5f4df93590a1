use super::{ReadNet, TextFault, read, read_rule};
use net_types::{Action, BoxId, InPort, NetFault, Network, PortId, Role, Rule, RuleId, TermId};
use std::alloc::{AllocError, Global};
use std::process::Abort;
use std::test::Fail;
use ternary_bits::{Pattern, Rewrite};

const ONE_BOX: &str =
    "atpg-net 1 4\nbox 1\nport 11 1\nport 12 1\nterm 1 11 send\nterm 2 12 receive\npermit 1 xxxx\nrule 5 1 10 * 1xx0 12\n";

/// The text of one box before its permit and its rule, which are lines 7 and 8.
const START: &str =
    "atpg-net 1 4\nbox 1\nport 11 1\nport 12 1\nterm 1 11 send\nterm 2 12 receive\n";

const ONE_BOX_LOOSELY: &str =
    "# lab\n\r\n  atpg-net\t1 4 # four bits\r\nbox 1\r\n\r\nport 11 1\r\nport 12 1\r\nterm 1 11 send\r\nterm 2 12 receive\r\npermit 1 xxxx\r\nrule 5 1 10 * 1xx0 12";

fn error_of(alloc: Global, text: &[u8]) -> Option<ReadNet> {
    match read(alloc, text) {
        Ok(_) => None,
        Err(error) => Some(error),
    }
}

fn joined(alloc: Global, front: &str, back: &[u8]) -> Result<Vec<u8>, AllocError> {
    let mut text = Vec::from_slice(alloc, front.as_bytes())?;
    text.extend_from_slice(back)?;
    Ok(text)
}

fn expect_one_box(rt: &impl Abort, net: &Network) {
    assert_eq!(rt; net.bits(), 4);
    assert_eq!(rt; net.box_count(), 1);
    assert_eq!(rt; net.box_of(PortId::of(12)), Some(BoxId::of(1)));
    assert_eq!(rt; net.term(TermId::of(1)), Some((PortId::of(11), Role::Send)));
    assert_eq!(rt;
        net.term(TermId::of(2)),
        Some((PortId::of(12), Role::Receive))
    );
    assert_eq!(rt;
        net.permit_at(TermId::of(1), 0).copied(),
        Some(Pattern::all(4))
    );
    assert_eq!(rt; net.rule_count(), 1);
    assert_eq!(rt; net.rule(RuleId::of(5)).map(|rule| rule.priority), Some(10));
}

#[test]
fn reads_one_box(rt: HostRuntime) -> Result<(), Fail> {
    expect_one_box(&rt, &read(rt.alloc(), ONE_BOX.as_bytes())?);
    expect_one_box(&rt, &read(rt.alloc(), ONE_BOX_LOOSELY.as_bytes())?);
    let commented = joined(rt.alloc(), ONE_BOX, b"# \xff".as_slice())?;
    expect_one_box(&rt, &read(rt.alloc(), &commented)?);
    Ok(())
}

#[test]
fn names_the_first_fault(rt: HostRuntime) -> Result<(), Fail> {
    let cases = [
        ("", b"".as_slice(), 1, TextFault::NoHead),
        ("", b"\n\n\n".as_slice(), 4, TextFault::NoHead),
        ("", b"atpg-net 1 ".as_slice(), 1, TextFault::NoHead),
        ("", b"atpg-net 3 x".as_slice(), 1, TextFault::Version),
        ("", b"atpg-net 2 x".as_slice(), 1, TextFault::Number),
        ("", b"atpg-net 1 0x4".as_slice(), 1, TextFault::Number),
        (
            "",
            b"atpg-net 1 129".as_slice(),
            1,
            TextFault::Net(NetFault::Width),
        ),
        (
            START,
            b"permit 1 xxx".as_slice(),
            7,
            TextFault::Net(NetFault::Width),
        ),
        (
            START,
            b"\nrule 5 1 10 * 1xx0".as_slice(),
            8,
            TextFault::Words,
        ),
        (
            START,
            b"\nrule 5 1 10 99 1xx0 12\nbogus\n".as_slice(),
            8,
            TextFault::Net(NetFault::Unknown),
        ),
        (ONE_BOX, b"\xff".as_slice(), 9, TextFault::Words),
        (ONE_BOX, b"forbid 1 xx00".as_slice(), 9, TextFault::Words),
        (
            "atpg-net 2 4\nbox 1\nport 11 1\n",
            b"forbid 1 xx00\nterm 1 11 send".as_slice(),
            4,
            TextFault::Net(NetFault::Unknown),
        ),
        (ONE_BOX, b"box 4294967296".as_slice(), 9, TextFault::Number),
        (
            ONE_BOX,
            b"rule 6 1 01 * 1x2x 12".as_slice(),
            9,
            TextFault::Number,
        ),
        (
            ONE_BOX,
            b"rule 6 1 1 * xxxx drop ----".as_slice(),
            9,
            TextFault::Words,
        ),
    ];
    for (front, back, line, fault) in cases {
        let text = joined(rt.alloc(), front, back)?;
        assert_eq!(rt;
            error_of(rt.alloc(), &text),
            Some(ReadNet::BadNet { line, fault })
        );
    }
    Ok(())
}

/// Two boxes with a link between them, and a rule of each.
fn moving(alloc: Global, head: &str, word: &str) -> Result<Vec<u8>, AllocError> {
    let mut text = joined(
        alloc,
        head,
        b"\nbox 1\nbox 2\nport 11 1\nport 12 1\nport 21 2\nport 22 2\nlink 12 21\nrule 2 2 1 * 1x 22\nrule 1 1 1 * xx 12 ",
    )?;
    text.extend_from_slice(word.as_bytes())?;
    Ok(text)
}

#[test]
fn reads_moving_words_in_version_2(rt: HostRuntime) -> Result<(), Fail> {
    let letters = Some(TextFault::Letters);
    let width = Some(TextFault::Net(NetFault::Width));
    let cases = [
        ("atpg-net 2 2", "@b2,b1", None),
        ("atpg-net 2 2", "@b1,b1", None),
        ("atpg-net 2 2", "@b3,b1", letters),
        ("atpg-net 2 2", "@-", width),
        ("atpg-net 2 2", "@b2,b1,-", width),
        ("atpg-net 1 2", "@b2,b1", letters),
    ];
    for (head, word, fault) in cases {
        let text = moving(rt.alloc(), head, word)?;
        let found = match error_of(rt.alloc(), &text) {
            Some(ReadNet::BadNet { line: 10, fault }) => Some(fault),
            _ => None,
        };
        assert_eq!(rt; found, fault);
    }
    Ok(())
}

#[test]
fn refuses_too_long_patterns(rt: HostRuntime) -> Result<(), Fail> {
    let mut text = joined(rt.alloc(), ONE_BOX, b"permit 1 ".as_slice())?;
    for _ in 0..129 {
        text.push(b'x')?;
    }
    let fault = TextFault::Letters;
    assert_eq!(rt;
        error_of(rt.alloc(), &text),
        Some(ReadNet::BadNet { line: 9, fault })
    );
    Ok(())
}

#[test]
fn refuses_too_many_boxes(rt: HostRuntime) -> Result<(), Fail> {
    let mut text = String::from_str(rt.alloc(), "atpg-net 1 4\n")?;
    for number in 0..=4096 {
        text.push_str(format!(in rt.alloc(); "box {number}\n")?.as_str())?;
    }
    let fault = TextFault::Net(NetFault::Limit);
    assert_eq!(rt;
        error_of(rt.alloc(), text.as_bytes()),
        Some(ReadNet::BadNet { line: 4098, fault })
    );
    Ok(())
}

#[test]
fn refuses_a_terminals_65th_forbidden_pattern(rt: HostRuntime) -> Result<(), Fail> {
    let mut text = joined(
        rt.alloc(),
        "atpg-net 2 4\nbox 1\nport 11 1\nterm 1 11 send\n",
        b"",
    )?;
    for _ in 0..64 {
        text.extend_from_slice(b"forbid 1 xx00\n")?;
    }
    assert_eq!(rt; error_of(rt.alloc(), &text), None);
    text.extend_from_slice(b"forbid 1 xx00\n")?;
    let fault = TextFault::Net(NetFault::Limit);
    assert_eq!(rt;
        error_of(rt.alloc(), &text),
        Some(ReadNet::BadNet { line: 69, fault })
    );
    Ok(())
}

#[test]
fn reads_a_rule(rt: HostRuntime) {
    let words = [
        b"5".as_slice(),
        b"1".as_slice(),
        b"10".as_slice(),
        b"11".as_slice(),
        b"xx".as_slice(),
        b"12".as_slice(),
        b"@-,b2".as_slice(),
    ];
    let rule = Rule {
        id: RuleId::of(5),
        at: BoxId::of(1),
        priority: 10,
        inp: InPort::One(PortId::of(11)),
        pattern: Pattern::all(2),
        action: Action::Out {
            port: PortId::of(12),
            rewrite: Rewrite::keep(2),
        },
    };
    assert_eq!(rt; read_rule(words.as_slice()), Ok(rule));
}

#[test]
fn names_the_first_fault_of_a_rule(rt: HostRuntime) -> Result<(), Fail> {
    let cases = [
        ("5 1 10 * xx", TextFault::Words),
        ("5 1 10 * xx 12 01 --", TextFault::Words),
        ("a 1 10 * xx drop --", TextFault::Words),
        ("05 1 10 * xx 12", TextFault::Number),
        ("5 -1 10 * xx 12", TextFault::Number),
        ("5 1 4294967296 * xx 12", TextFault::Number),
        ("5 1 10 any x- 12", TextFault::Number),
        ("5 1 10 11 x- out", TextFault::Letters),
        ("5 1 10 11 xx out", TextFault::Number),
        ("5 1 10 11 xx 12 1x", TextFault::Letters),
        ("5 1 10 11 xx 12 @b3,-", TextFault::Letters),
    ];
    for (text, fault) in cases {
        let mut words = Vec::new(rt.alloc());
        for word in text.as_bytes().split(|b| *b == b' ') {
            words.push(word)?;
        }
        assert_eq!(rt; read_rule(&words), Err(fault));
    }
    Ok(())
}
