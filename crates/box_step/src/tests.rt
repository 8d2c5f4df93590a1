ghost use Rattle.std.specs.Prelude.{◌≡◌, length};

use super::{Branch, Overlaps, split, split_sent, split_with};
use header_sets::Space;
use net_types::{Action, BoxId, InPort, NetBuilder, Network, PortId, Rule, RuleId};
use std::alloc::Global;
use std::process::Abort;
use std::test::Fail;
use ternary_bits::{Header, Pattern, Rewrite};

fn pattern(rt: &impl Abort, text: &[u8]) -> Pattern
    ensures { length result ≡ 4 }
{
    let pattern = Pattern::read(text).expect(rt, "a pattern");
    assert_eq!(rt; pattern.bits(), 4);
    pattern
}

fn rewrite(rt: &impl Abort, text: &[u8]) -> Rewrite
    ensures { length result ≡ 4 }
{
    let rewrite = Rewrite::read(text).expect(rt, "a rewrite");
    assert_eq!(rt; rewrite.bits(), 4);
    rewrite
}

fn rule(rt: &impl Abort, id: u32, text: &[u8]) -> Rule {
    Rule {
        id: RuleId::of(id),
        at: BoxId::of(1),
        priority: 10,
        inp: InPort::Any,
        pattern: pattern(rt, text),
        action: Action::Out {
            port: PortId::of(12),
            rewrite: Rewrite::keep(4),
        },
    }
}

// One box with two rules of equal priority.
fn network(rt: &impl Abort, alloc: Global) -> Result<Network, Fail> {
    network_of(alloc, rule(rt, 5, b"1xx0"), rule(rt, 3, b"11xx"))
}

fn network_of(alloc: Global, one: Rule, other: Rule) -> Result<Network, Fail> {
    let mut builder = NetBuilder::new(alloc, 4)?;
    builder.add_box(BoxId::of(1))?;
    builder.add_port(PortId::of(11), BoxId::of(1))?;
    builder.add_port(PortId::of(12), BoxId::of(1))?;
    builder.add_rule(one)?;
    builder.add_rule(other)?;
    Ok(builder.finish()?)
}

fn check_branch(rt: &impl Abort, branch: &Branch, id: u32, headers: &[u8], so_far: &Rewrite) {
    assert_eq!(rt; branch.rule, RuleId::of(id));
    assert_eq!(rt; branch.rewrite, *so_far);
    assert_eq!(rt; branch.space.bits(), 4);
    for number in 0..16u8 {
        let header = Header::of_number(4, u128::from(number));
        assert_eq!(rt; branch.space.has(&header), headers.contains(&number));
    }
}

#[test]
fn branches(rt: HostRuntime) -> Result<(), Fail> {
    let alloc = rt.alloc();
    let net = network(&rt, alloc)?;
    assert_eq!(rt; net.bits(), 4);
    let space = Space::of_patterns(alloc, 4, &[pattern(&rt, b"xxxx")])?;
    let cases: [(&[u8], &[u8], &[u8]); 2] = [
        (b"----", &[12, 13, 14, 15], &[8, 10]),
        (b"1---", &[4, 5, 6, 7, 12, 13, 14, 15], &[0, 2, 8, 10]),
    ];
    for (text, third, fifth) in cases {
        let so_far = rewrite(&rt, text);
        let branches = split(alloc, &net, PortId::of(11), &space, &so_far)?;
        assert_eq!(rt; branches.len(), 2);
        check_branch(&rt, &branches[0], 3, third, &so_far);
        check_branch(&rt, &branches[1], 5, fifth, &so_far);
    }
    assert_eq!(rt;
        split(alloc, &net, PortId::of(13), &space, &Rewrite::keep(4))?.len(),
        0
    );
    Ok(())
}

fn check_list(rt: &impl Abort, over: &Overlaps, id: u32, numbers: &[RuleId]) -> Result<(), Fail> {
    let list = over
        .preceding(RuleId::of(id))
        .ok_or("a rule of the network")?;
    assert_eq!(rt; list.as_slice(), numbers);
    Ok(())
}

#[test]
fn overlaps(rt: HostRuntime) -> Result<(), Fail> {
    let alloc = rt.alloc();
    let net = network(&rt, alloc)?;
    assert_eq!(rt; net.bits(), 4);
    let over = Overlaps::of(alloc, &net)?;
    check_list(&rt, &over, 3, &[])?;
    check_list(&rt, &over, 5, &[RuleId::of(3)])?;
    assert!(rt; over.preceding(RuleId::of(4)).is_none());
    assert!(rt; Overlaps::at_most(alloc, &net, 0)?.is_none());
    assert!(rt; Overlaps::at_most(alloc, &net, 1)?.is_some());
    let space = Space::of_patterns(alloc, 4, &[pattern(&rt, b"xxxx")])?;
    let so_far = rewrite(&rt, b"----");
    let branches = split_with(alloc, &net, &over, PortId::of(11), &space, &so_far)?;
    assert_eq!(rt; branches.len(), 2);
    check_branch(&rt, &branches[0], 3, &[12, 13, 14, 15], &so_far);
    check_branch(&rt, &branches[1], 5, &[8, 10], &so_far);
    Ok(())
}

#[test]
fn headers_of_a_dropping_rule(rt: HostRuntime) -> Result<(), Fail> {
    let alloc = rt.alloc();
    let drops = Rule {
        action: Action::Drop,
        ..rule(&rt, 3, b"11xx")
    };
    let net = network_of(alloc, rule(&rt, 5, b"1xx0"), drops)?;
    assert_eq!(rt; net.bits(), 4);
    let over = Overlaps::of(alloc, &net)?;
    let space = Space::of_patterns(alloc, 4, &[pattern(&rt, b"xxxx")])?;
    let so_far = rewrite(&rt, b"----");
    let known = split_sent(alloc, &net, Some(&over), PortId::of(11), &space, &so_far)?;
    assert_eq!(rt; known.len(), 1);
    check_branch(&rt, &known[0], 5, &[8, 10], &so_far);
    let unknown = split_sent(alloc, &net, None, PortId::of(11), &space, &so_far)?;
    assert_eq!(rt; unknown.len(), 1);
    check_branch(&rt, &unknown[0], 5, &[8, 10], &so_far);
    Ok(())
}
