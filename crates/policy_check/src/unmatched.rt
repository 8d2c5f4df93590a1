//! The packets that no rule takes.
ghost use Rattle.std.specs.Prelude.{◌≡◌, ◌&&◌, false, is_none, IfOk, IfSome, IfNone, length};
ghost use Rattle.network_model.specs.Bits.{Header, matches};
ghost use Rattle.network_model.specs.Rewrites.{rewritten};
ghost use Rattle.network_model.specs.Network.{port_fits, hit};
ghost use Rattle.net_types.specs.Rules.{in_port};
ghost use Rattle.box_step.specs.Taking.{takes_sent};
ghost use Rattle.header_sets.specs.Spaces.{holds};

use crate::search::Part;
use header_sets::Space;
use net_types::{InPort, Network, PortId, Rule};
use no_memory::NoMemory;
use std::alloc::Global;
use ternary_bits::{Pattern, Rewrite};

/// The headers of the part whose packets no rule takes.
pub(crate) fn unmatched(alloc: Global, net: &Network, part: &Part) -> Result<Space, NoMemory>
    requires space { part.now.space.width ≡ net.now.width }
    requires rewrite { length part.now.rewrite ≡ net.now.width }
    ensures width { IfOk result (λ space. space.width ≡ net.now.width) }
    ensures set { IfOk result (λ space. (h : Header) →
        holds space h ≡ (holds part.now.space h && is_none (hit net.now part.now.port (rewritten part.now.rewrite h)))) }
{
    // The headers of a set are as wide as the set.
    prove_eq!(part.space.bits(), net.bits());
    let mut taken = Vec::new(alloc);
    if let Some(at) = net.box_of(part.port) {
        for rule in net.rules_at(at) {
            if let Some(sources) = sources_of(rule, part.port, &part.rewrite) {
                taken.push(sources)?;
            }
        }
    }
    part.space.meet_without(&Pattern::all(net.bits()), &taken)
}

/// The headers with which packets were sent that the rule takes at the port.
fn sources_of(rule: &Rule, port: PortId, rewrite: &Rewrite) -> Option<Pattern>
    requires { length rule.now.pattern ≡ length rewrite.now }
    ensures width { IfSome result (λ sources. length sources ≡ length rewrite.now) }
    ensures some { IfSome result (λ sources. (h : Header) → length h ≡ length rewrite.now → matches sources h ≡ takes_sent port rewrite.now rule.now h) }
    ensures none { IfNone result ((h : Header) → length h ≡ length rewrite.now → takes_sent port rewrite.now rule.now h ≡ false) }
{
    if !fits(rule.inp, port) {
        return None;
    }
    rewrite.before(&rule.pattern)
}

fn fits(inp: InPort, port: PortId) -> bool
    ensures { result ≡ port_fits (in_port inp) port }
{
    match inp {
        InPort::Any => true,
        InPort::One(own) => own == port,
    }
}
