use super::{Change, Versions};
use net_types::{
    Action, BoxId, InPort, NetBuilder, NetFault, Network, PortId, Role, Rule, RuleId, TermId,
};
use std::alloc::Global;
use std::test::Fail;
use ternary_bits::{Pattern, Rewrite};

fn rule(id: u32, priority: u32, pattern: Pattern) -> Rule {
    Rule {
        id: RuleId::of(id),
        at: BoxId::of(1),
        priority,
        inp: InPort::Any,
        pattern,
        action: Action::Out {
            port: PortId::of(12),
            rewrite: Rewrite::keep(4),
        },
    }
}

// Terminal 1 sends into a box at port 11, and terminal 2 receives at port 12.
fn one_box(alloc: Global) -> Result<Network, Fail> {
    let mut net = NetBuilder::new(alloc, 4)?;
    net.add_box(BoxId::of(1))?;
    net.add_port(PortId::of(11), BoxId::of(1))?;
    net.add_port(PortId::of(12), BoxId::of(1))?;
    net.add_term(TermId::of(1), PortId::of(11), Role::Send)?;
    net.add_term(TermId::of(2), PortId::of(12), Role::Receive)?;
    net.permit(TermId::of(1), Pattern::read(b"xxxx")?)?;
    net.add_rule(rule(5, 10, Pattern::read(b"1xx0")?))?;
    Ok(net.finish()?)
}

#[test]
fn a_pin_keeps_its_network(rt: HostRuntime) -> Result<(), Fail> {
    let alloc = rt.alloc();
    let mut versions = Versions::new(alloc, one_box(alloc)?)?;
    let pin = versions.pin()?;
    assert_eq!(rt; pin.version, 0);

    let sixth = Change::Add(rule(6, 9, Pattern::read(b"1x00")?));
    assert_eq!(rt; versions.change(sixth), Ok(1));
    assert_eq!(rt; pin.net.same(&one_box(alloc)?), true);
    assert_eq!(rt; versions.change(sixth), Err(NetFault::Twice));
    assert_eq!(rt; versions.version(), 1);

    let later = versions.pin()?;
    assert_eq!(rt; later.version, 1);
    assert_eq!(rt; later.net.rule_count(), 2);
    versions.unpin(pin);
    versions.unpin(later);

    assert_eq!(rt; versions.change(Change::Cut(RuleId::of(5))), Ok(2));
    assert_eq!(rt;
        versions.change(Change::Cut(RuleId::of(5))),
        Err(NetFault::Unknown)
    );
    assert_eq!(rt; versions.change(Change::Cut(RuleId::of(6))), Ok(3));
    let last = versions.pin()?;
    assert_eq!(rt; last.version, 3);
    assert_eq!(rt; last.net.rule_count(), 0);
    Ok(())
}
