ghost use Rattle.std.specs.Prelude.{◌≡◌, ◌&&◌, true, false, IfOk, IfSome, IfNone, IsTrue, length, All};
ghost use Rattle.network_model.specs.Bits.{Header, matches};
ghost use Rattle.network_model.specs.Network.{port_fits};
ghost use Rattle.net_types.specs.Rules.{in_port, action, numbered, IsAsWide};
ghost use Rattle.header_sets.specs.Spaces.{holds};
ghost use Rattle.box_step.specs.Branches.{onward, IsSplit, IsSplitOf};
ghost use Rattle.box_step.specs.Branches.{is_wanted as is_wanted_of};
ghost use Rattle.box_step.specs.Taking.{takes_sent, is_left, IsTaken};

use header_sets::{IndexedSpace, Space};
use net_types::{Action, InPort, Network, PortId, Rule, RuleId};
use no_memory::NoMemory;
use std::alloc::Global;
use ternary_bits::{Pattern, Rewrite};

/// The packets of a set that one rule takes.
#[derive(Debug, Drop)]
pub struct Branch {
    pub rule: RuleId,
    /// Their headers as they were where they came in.
    pub space: Space,
    /// What becomes of those headers up to and with the rule.
    pub rewrite: Rewrite,
}

/// The branches of the packets that came in with the headers of the set, were rewritten so far as `rewrite` says, and
/// now come to the port.
pub fn split(
    alloc: Global,
    net: &Network,
    port: PortId,
    space: &Space,
    rewrite: &Rewrite,
) -> Result<Vec<Branch>, NoMemory>
    requires space { space.now.width ≡ net.now.width }
    requires rewrite { length rewrite.now ≡ net.now.width }
    ensures { IfOk result (λ branches. IsSplit net.now port space.now rewrite.now branches.items) }
{
    split_wanted(alloc, net, port, space, rewrite, true)
}

/// The same with no branches of rules that drop, unless those are wanted.
pub(super) fn split_wanted(
    alloc: Global,
    net: &Network,
    port: PortId,
    space: &Space,
    rewrite: &Rewrite,
    drops: bool,
) -> Result<Vec<Branch>, NoMemory>
    requires space { space.now.width ≡ net.now.width }
    requires rewrite { length rewrite.now ≡ net.now.width }
    ensures { IfOk result (λ branches. IsSplitOf (is_wanted_of drops) net.now port space.now rewrite.now branches.items) }
{
    prove_eq!(space.bits(), rewrite.bits());
    let mut branches = Vec::new(alloc);
    let Some(at) = net.box_of(port) else {
        return Ok(branches);
    };
    // What rules so far have taken.
    let mut earlier = Vec::new(alloc);
    for rule in net.rules_at(at) {
        if is_wanted(rule, drops) {
            // A rule that takes nothing more is not among the earlier ones.
            if let Some((branch, sources)) = branch_of(rule, port, space, &earlier, rewrite)? {
                branches.push(branch)?;
                earlier.push(sources)?;
            }
        } else if let Some(sources) = sources_of(rule, port, rewrite) {
            earlier.push(sources)?;
        }
    }
    Ok(branches)
}

/// Whether the branch of the rule is wanted: it sends packets on, or drops them and such rules are wanted too.
pub(super) fn is_wanted(rule: &Rule, drops: bool) -> bool
    ensures { result ≡ is_wanted_of drops (numbered rule.now) }
{
    match rule.action {
        Action::Drop => drops,
        Action::Out { .. } => true,
    }
}

/// The branch of a rule out of what earlier rules have left, and the headers that the rule takes.
pub(super) fn branch_of(
    rule: &Rule,
    port: PortId,
    space: &Space,
    earlier: &[Pattern],
    rewrite: &Rewrite,
) -> Result<Option<(Branch, Pattern)>, NoMemory>
    requires headers { (h : Header) → IsTrue (holds space.now h) → length h ≡ length rewrite.now }
    requires width { space.now.width ≡ length rewrite.now }
    requires earlier { All (λ sources. length sources ≡ length rewrite.now) earlier.now }
    requires pattern { length rule.now.pattern ≡ length rewrite.now }
    requires action { IsAsWide (length rewrite.now) (action rule.now.action) }
    ensures some { IfOk result (λ taken. IfSome taken (λ (branch, sources). IsTaken port rewrite.now rule.now space.now earlier.now branch sources)) }
    ensures none { IfOk result (λ taken. IfNone taken ((h : Header) → (is_left space.now earlier.now h && takes_sent port rewrite.now rule.now h) ≡ false)) }
{
    let Some(sources) = sources_of(rule, port, rewrite) else {
        return Ok(None);
    };
    let own = space.meet_without(&sources, earlier)?;
    Ok(branch_with(rule, own, sources, rewrite))
}

/// The same of a set with an index.
pub(super) fn branch_of_indexed(
    rule: &Rule,
    port: PortId,
    space: &IndexedSpace,
    earlier: &[Pattern],
    rewrite: &Rewrite,
) -> Result<Option<(Branch, Pattern)>, NoMemory>
    requires headers { (h : Header) → IsTrue (holds space.now h) → length h ≡ length rewrite.now }
    requires width { space.now.width ≡ length rewrite.now }
    requires earlier { All (λ sources. length sources ≡ length rewrite.now) earlier.now }
    requires pattern { length rule.now.pattern ≡ length rewrite.now }
    requires action { IsAsWide (length rewrite.now) (action rule.now.action) }
    ensures some { IfOk result (λ taken. IfSome taken (λ (branch, sources). IsTaken port rewrite.now rule.now space.now earlier.now branch sources)) }
    ensures none { IfOk result (λ taken. IfNone taken ((h : Header) → (is_left space.now earlier.now h && takes_sent port rewrite.now rule.now h) ≡ false)) }
{
    let Some(sources) = sources_of(rule, port, rewrite) else {
        return Ok(None);
    };
    let own = space.meet_without(&sources, earlier)?;
    Ok(branch_with(rule, own, sources, rewrite))
}

/// The branch of a rule with the headers that it takes, unless there are none, and those that it would take of all.
fn branch_with(
    rule: &Rule,
    own: Space,
    sources: Pattern,
    rewrite: &Rewrite,
) -> Option<(Branch, Pattern)>
    requires { IsAsWide (length rewrite.now) (action rule.now.action) }
    ensures some { IfSome result (λ (branch, kept). (branch.rule ≡ rule.now.id) × (branch.space ≡ own) × (kept ≡ sources)
        × (branch.rewrite ≡ onward rewrite.now (action rule.now.action)) × ((h : Header) × IsTrue (holds own h))) }
    ensures none { IfNone result ((h : Header) → holds own h ≡ false) }
{
    if own.is_empty() {
        return None;
    }
    let branch = Branch {
        rule: rule.id,
        space: own,
        rewrite: behind(rule.action, rewrite),
    };
    Some((branch, sources))
}

/// The headers with which a packet came in that the rule takes.
pub(super) fn sources_of(rule: &Rule, port: PortId, rewrite: &Rewrite) -> Option<Pattern>
    requires { length rule.now.pattern ≡ length rewrite.now }
    ensures width { IfSome result (λ sources. length sources ≡ length rewrite.now) }
    ensures some { IfSome result (λ sources. (h : Header) → length h ≡ length rewrite.now → matches sources h ≡ takes_sent port rewrite.now rule.now h) }
    ensures none { IfNone result ((h : Header) → length h ≡ length rewrite.now → takes_sent port rewrite.now rule.now h ≡ false) }
{
    if !fits(rule.inp, port) {
        return None;
    }
    rewrite.before(&rule.pattern)
}

fn fits(inp: InPort, port: PortId) -> bool
    ensures { result ≡ port_fits (in_port inp) port }
{
    match inp {
        InPort::Any => true,
        InPort::One(own) => own == port,
    }
}

/// The rewrite of a packet that a rule took.
fn behind(taken: Action, rewrite: &Rewrite) -> Rewrite
    requires { IsAsWide (length rewrite.now) (action taken) }
    ensures { result ≡ onward rewrite.now (action taken) }
{
    match taken {
        Action::Drop => *rewrite,
        Action::Out { rewrite: later, .. } => rewrite.then(&later),
    }
}
