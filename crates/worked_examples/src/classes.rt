//! What the classes of small networks grow to.
ghost use Rattle.std.specs.Prelude.{◌≤◌};

use crate::networks::{HALVES, TWO_BOXES, check_rules, network};
use class_tree::{Class, GrowFault, Grown, grow, roots};
use net_types::{Network, PortId, TermId};
use std::alloc::Global;
use std::process::Abort;
use std::test::Fail;
use ternary_bits::Header;

/// The first box changes what begins with 0, drops 11, and sends 10 where nothing is.
const ENDS: &[u8] =
    b"port 13 1\npermit 1 xx\nrule 1 1 1 * 0x 12 1-\nrule 2 1 1 * 11 drop\nrule 3 1 1 * 10 13\nrule 4 2 1 * xx 22 -1\n";

/// The second box sends 11 to terminal 2, and 10 back to the first, which sends it there again.
const RETURNING: &[u8] =
    b"permit 1 xx\nrule 1 1 1 * 1x 12\nrule 2 2 1 * x1 22\nrule 3 2 1 * 10 21\n";

// The class has just the headers with these numbers.
fn check_headers(rt: &impl Abort, class: &Class, numbers: &[u8]) {
    assert_eq!(rt; class.space.bits(), 2);
    for number in 0..4u8 {
        let header = Header::of_number(2, u128::from(number));
        assert_eq!(rt; class.space.has(&header), numbers.contains(&number));
    }
}

#[test]
fn a_terminal_has_a_root_where_it_sends_a_header(rt: HostRuntime) -> Result<(), Fail> {
    let alloc = rt.alloc();
    // 9 sends nothing, all that 8 may send is forbidden, and 7 may send 00 alone
    let net = network(
        alloc,
        &[
            TWO_BOXES,
            b"permit 1 11\npermit 1 0x\nport 19 1\nterm 9 19 both\nport 18 1\nterm 8 18 both\npermit 8 1x\n",
            b"forbid 8 10\nforbid 8 x1\nport 17 1\nterm 7 17 both\npermit 7 0x\nforbid 7 x1\n",
        ],
    )?;
    let classes = roots(alloc, &net)?;
    assert_eq!(rt; classes.len(), 2);
    let cases: [(u32, u32, &[u8]); 2] = [(1, 11, &[0, 1, 3]), (7, 17, &[0])];
    for (class, (terminal, port, headers)) in classes.iter().zip(cases) {
        assert_eq!(rt; class.from, TermId::of(terminal));
        assert_eq!(rt; class.port, PortId::of(port));
        check_rules(&rt, &class.rules, &[]);
        check_headers(&rt, class, headers);
    }
    Ok(())
}

// What the first root comes to.
fn grown(
    rt: &impl Abort,
    alloc: Global,
    net: &Network,
    hops: u32,
    depth: u32,
    limit: u32,
) -> Result<Grown, GrowFault>
    requires { 1 ≤ depth }
{
    let classes = roots(alloc, net)?;
    let root = classes.first().expect(rt, "a terminal sends");
    grow(alloc, net, root, hops, depth, limit)
}

// How many entries and classes, what was made, and which boxes were touched.
fn check_counts(
    rt: &impl Abort,
    grown: &Grown,
    found: usize,
    rest: usize,
    made: u64,
    boxes: &[u32],
) {
    assert_eq!(rt; grown.found.len(), found);
    assert_eq!(rt; grown.rest.len(), rest);
    assert_eq!(rt; grown.made, made);
    assert_eq!(rt; grown.touched.len(), boxes.len());
    for (own, number) in grown.touched.iter().zip(boxes) {
        assert_eq!(rt; own.get(), *number);
    }
}

#[test]
fn classes_grow_rule_by_rule(rt: HostRuntime) -> Result<(), Fail> {
    let alloc = rt.alloc();
    let net = network(alloc, &[TWO_BOXES, HALVES])?;
    let one = grown(&rt, alloc, &net, 16, 1, 10)?;
    check_counts(&rt, &one, 0, 2, 2, &[1]);
    let cases: [(&[u32], &[u8]); 2] = [(&[1], &[0, 1]), (&[2], &[3])];
    for (class, (rules, headers)) in one.rest.iter().zip(cases) {
        assert_eq!(rt; class.from, TermId::of(1));
        assert_eq!(rt; class.port, PortId::of(21));
        check_rules(&rt, &class.rules, rules);
        check_headers(&rt, class, headers);
    }
    let two = grown(&rt, alloc, &net, 16, 2, 3)?;
    check_counts(&rt, &two, 3, 0, 5, &[1, 2]);
    let lists: [&[u32]; 3] = [&[1, 3], &[1, 4], &[2, 4]];
    for (entry, rules) in two.found.iter().zip(lists) {
        check_rules(&rt, &entry.rules, rules);
    }
    // more rules than there are on any way
    check_counts(&rt, &grown(&rt, alloc, &net, 16, 9, 3)?, 3, 0, 5, &[1, 2]);
    // the hop limit ends the ways
    check_counts(&rt, &grown(&rt, alloc, &net, 1, 2, 3)?, 0, 0, 2, &[1]);
    match grown(&rt, alloc, &net, 16, 2, 2) {
        Err(fault) => assert_eq!(rt; fault, GrowFault::Full { limit: 2 }),
        Ok(_) => panic!(rt; "three entries are more than two"),
    }
    Ok(())
}

#[test]
fn what_is_dropped_is_not_made(rt: HostRuntime) -> Result<(), Fail> {
    let alloc = rt.alloc();
    let net = network(alloc, &[TWO_BOXES, ENDS])?;
    let grown = grown(&rt, alloc, &net, 16, 16, 10)?;
    check_counts(&rt, &grown, 1, 0, 3, &[1, 2]);
    let entry = grown.found.first().expect(&rt, "there is an entry");
    assert_eq!(rt; entry.from, TermId::of(1));
    assert_eq!(rt; entry.to, TermId::of(2));
    check_rules(&rt, &entry.rules, &[1, 4]);
    assert_eq!(rt; entry.least, Header::of_number(2, 0));
    assert_eq!(rt; entry.greatest, Header::of_number(2, 1));
    assert_eq!(rt; entry.arrives, Header::of_number(2, 3));
    Ok(())
}

#[test]
fn a_way_that_returns_ends_at_the_hop_limit(rt: HostRuntime) -> Result<(), Fail> {
    let alloc = rt.alloc();
    let net = network(alloc, &[TWO_BOXES, RETURNING])?;
    // Hop limit and depth; then the entries, the rules of the class that goes on, the classes made, and the boxes.
    let cases: [(u32, u32, usize, &[u32], u64, &[u32]); 6] = [
        (9, 1, 0, &[1], 1, &[1]),
        (9, 2, 1, &[1, 3], 3, &[1, 2]),
        (9, 3, 1, &[1, 3, 1], 4, &[1, 2]),
        (1, 9, 0, &[], 1, &[1]),
        (2, 2, 1, &[], 3, &[1, 2]),
        (4, 9, 1, &[], 5, &[1, 2]),
    ];
    for (hops, depth, found, onward, made, boxes) in cases {
        let grown = grown(&rt, alloc, &net, hops, depth, 1)?;
        check_counts(
            &rt,
            &grown,
            found,
            usize::from(!onward.is_empty()),
            made,
            boxes,
        );
        for class in &grown.rest {
            check_rules(&rt, &class.rules, onward);
        }
    }
    Ok(())
}
