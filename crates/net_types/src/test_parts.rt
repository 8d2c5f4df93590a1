//! Parts of a network as rows of a table, for tests.

use crate::{
    Action, BoxId, InPort, NetBuilder, NetFault, Network, PortId, Role, Rule, RuleId, TermId,
};
use std::alloc::Global;
use std::test::Fail;
use ternary_bits::{Pattern, Rewrite};

/// A part by its numbers.
#[derive(Clone, Copy)]
pub enum Part {
    Box(u32),
    /// A port and its box.
    Port(u32, u32),
    Link(u32, u32),
    /// A terminal and its port.
    Term(u32, u32, Role),
    /// At a terminal.
    Permit(u32, Pattern),
    /// At a terminal.
    Forbid(u32, Pattern),
    Rule(Rule),
}

pub fn add(net: &mut NetBuilder, part: &Part) -> Result<(), NetFault> {
    match part {
        Part::Box(id) => net.add_box(BoxId::of(*id)),
        Part::Port(id, at) => net.add_port(PortId::of(*id), BoxId::of(*at)),
        Part::Link(a, b) => net.add_link(PortId::of(*a), PortId::of(*b)),
        Part::Term(id, at, role) => net.add_term(TermId::of(*id), PortId::of(*at), *role),
        Part::Permit(id, pattern) => net.permit(TermId::of(*id), *pattern),
        Part::Forbid(id, pattern) => net.forbid(TermId::of(*id), *pattern),
        Part::Rule(rule) => net.add_rule(*rule),
    }
}

/// A network so far, of these parts.
pub fn declared(alloc: Global, bits: u32, parts: &[Part]) -> Result<NetBuilder, NetFault> {
    let mut net = NetBuilder::new(alloc, bits)?;
    for part in parts {
        add(&mut net, part)?;
    }
    Ok(net)
}

pub fn network(alloc: Global, bits: u32, parts: &[Part]) -> Result<Network, Fail> {
    Ok(declared(alloc, bits, parts)?.finish()?)
}

/// A rule for all headers of 4 bits.
pub fn drops(id: u32, at: u32, inp: InPort) -> Rule {
    Rule {
        id: RuleId::of(id),
        at: BoxId::of(at),
        priority: 1,
        inp,
        pattern: Pattern::all(4),
        action: Action::Drop,
    }
}

pub fn sends(id: u32, port: u32, rewrite: Rewrite) -> Rule {
    Rule {
        action: Action::Out {
            port: PortId::of(port),
            rewrite,
        },
        ..drops(id, 1, InPort::Any)
    }
}
