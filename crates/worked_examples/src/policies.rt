//! Policies over small networks: the lines that say them, and the headers that break them.
use crate::networks::{HALVES, TWO_BOXES, network};
use net_types::Network;
use policy_check::{PolicyFault, check, read_policy};
use std::alloc::Global;
use std::process::Abort;
use std::test::Fail;

/// A box whose rule with the greater number has the lesser headers: rule 3 takes 11xx, and rule 5 leaves 1000 and 1010.
const COVERED: &[u8] =
    b"atpg-net 1 4\nbox 1\nport 11 1\nport 12 1\nterm 1 11 send\nterm 2 12 receive\npermit 1 xxxx\nrule 5 1 10 * 1xx0 12\nrule 3 1 10 * 11xx 12\n";

/// Two boxes between which a header goes round: 0x comes back to the first box as 1x, and so meets four rules.
const ROUND: &[u8] =
    b"atpg-net 1 2\nbox 1\nport 11 1\nport 12 1\nport 13 1\nbox 2\nport 21 2\nport 22 2\nport 23 2\nlink 12 21\nlink 22 13\nterm 1 11 send\npermit 1 xx\nterm 2 23 receive\nrule 1 1 1 * xx 12\nrule 2 2 1 * 0x 22 1-\nrule 3 2 1 * 1x 23\n";

/// The header that breaks the policy of each line, as a number.
fn check_lines(
    rt: &impl Abort,
    alloc: Global,
    net: &Network,
    hops: u32,
    cases: &[(&[u8], Option<u128>)],
) -> Result<(), Fail> {
    for (line, expected) in cases {
        let Ok(Some(policy)) = read_policy(net, line) else {
            panic!(rt; "the line says a policy")
        };
        let found = check(alloc, net, hops, &policy)?;
        assert_eq!(rt; found.map(|header| header.number()), *expected);
    }
    Ok(())
}

#[test]
fn the_least_header_that_breaks_a_policy(rt: HostRuntime) -> Result<(), Fail> {
    let alloc = rt.alloc();
    let net = network(alloc, &[TWO_BOXES, HALVES, b"box 3\n"])?;
    let cases: [(&[u8], Option<u128>); 10] = [
        (b"never 1 2 11", Some(3)),
        (b"must 1 2 xx", None),
        (b"via 1 2 1 xx", None),
        (b"never 1 2 10", None),
        (b"never 1 2 x1", Some(1)),
        (b"never 1 1 xx", None),
        (b"must 1 1 xx", Some(0)),
        // passed by the last rule alone, and by none
        (b"via 1 2 2 xx", None),
        (b"via 1 2 3 1x", Some(3)),
        // the second terminal only receives
        (b"must 2 1 xx", None),
    ];
    check_lines(&rt, alloc, &net, 16, &cases)
}

#[test]
fn packets_that_no_rule_takes_or_too_many(rt: HostRuntime) -> Result<(), Fail> {
    let alloc = rt.alloc();
    let net = network(alloc, &[COVERED])?;
    let cases: [(&[u8], Option<u128>); 5] = [
        (b"must 1 2 xxxx", Some(0)),
        (b"must 1 2 1xxx", Some(9)),
        (b"must 1 2 11xx", None),
        (b"never 1 2 xxxx", Some(8)),
        (b"via 1 2 1 xxxx", None),
    ];
    check_lines(&rt, alloc, &net, 16, &cases)?;
    let net = network(alloc, &[ROUND])?;
    check_lines(&rt, alloc, &net, 4, &[(b"must 1 2 xx", None)])?;
    check_lines(
        &rt,
        alloc,
        &net,
        3,
        &[(b"must 1 2 xx", Some(0)), (b"must 1 2 1x", None)],
    )
}

#[test]
fn faults_of_policy_lines(rt: HostRuntime) -> Result<(), Fail> {
    let net = network(rt.alloc(), &[TWO_BOXES, HALVES])?;
    for line in [b"".as_slice(), b" \t# never 1 2 xx"] {
        assert_eq!(rt; read_policy(&net, line), Ok(None));
    }
    let cases: [(&[u8], PolicyFault); 12] = [
        (b"allow 1 2 xx", PolicyFault::Words),
        (b"never 1 2", PolicyFault::Words),
        (b"must 1 2 1 xx", PolicyFault::Words),
        (b"via 1 2 xx", PolicyFault::Words),
        (b"via 1 2 1 xx xx", PolicyFault::Words),
        (b"never 01 2 xx", PolicyFault::Number),
        (b"via 1 2 x z", PolicyFault::Number),
        (b"never 1 2 xz # xx", PolicyFault::Letters),
        (b"via 1 2 9 xz", PolicyFault::Letters),
        (b"via 1 2 9 xx", PolicyFault::Unknown),
        (b"must 3 2 xxx", PolicyFault::Unknown),
        (b"must 1 2 xxx", PolicyFault::Width),
    ];
    for (line, fault) in cases {
        assert_eq!(rt; read_policy(&net, line), Err(fault));
    }
    Ok(())
}
