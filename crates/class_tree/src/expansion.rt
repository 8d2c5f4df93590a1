//! One rule further from a class.
ghost use Rattle.std.specs.Prelude.{◌≡◌, length, IfOk, IsTrue};
ghost use Rattle.network_model.specs.Bits.{Header};
ghost use Rattle.network_model.specs.Walk.{next};
ghost use Rattle.header_sets.specs.Spaces.{holds};
ghost use Rattle.class_tree.specs.Following.{exit_of, class_behind, IsEntryOf, LiesBehind};

use crate::class::Class;
use box_step::Branch;
use net_types::{Action, Network, Next, PortId, RuleId, TermId};
use no_memory::NoMemory;
use path_table::Entry;

/// What lies behind a rule that sends packets of a class on.
#[derive(Debug, Drop)]
pub(crate) enum Behind {
    /// A terminal, at which they are delivered.
    Arrival(Entry),
    /// A link. The class comes to its other end.
    Onward(Class),
    Nothing,
}

/// The packets of a class that one rule sends on.
#[derive(Debug, Drop)]
pub(crate) struct Step {
    pub(crate) rule: RuleId,
    pub(crate) behind: Behind,
}

/// The port by which a rule sends packets on.
pub(crate) fn out_port(net: &Network, rule: RuleId) -> Option<PortId>
    ensures { result ≡ exit_of net.now rule }
{
    match net.rule(rule)?.action {
        Action::Drop => None,
        Action::Out { port, .. } => Some(port),
    }
}

/// The step of the packets that leave by the port.
pub(crate) fn follow(
    net: &Network,
    class: &Class,
    branch: Branch,
    port: PortId,
) -> Result<Step, NoMemory>
    requires member { (h : Header) × IsTrue (holds branch.space h) }
    requires width { length branch.rewrite ≡ branch.space.width }
    ensures rule { IfOk result (λ step. step.rule ≡ branch.rule) }
    ensures behind { IfOk result (λ step. LiesBehind class.now branch (next net.now port) step.behind) }
{
    let rule = branch.rule;
    let behind = match net.next(port) {
        Next::Term(to) => Behind::Arrival(arrival(class, &branch, to)?),
        Next::Far(far) => Behind::Onward(onward(class, branch, far)?),
        Next::Nothing => Behind::Nothing,
    };
    Ok(Step { rule, behind })
}

/// The entry of the packets that are delivered at the terminal.
fn arrival(class: &Class, branch: &Branch, to: TermId) -> Result<Entry, NoMemory>
    requires member { (h : Header) × IsTrue (holds branch.now.space h) }
    requires width { length branch.now.rewrite ≡ branch.now.space.width }
    ensures { IfOk result (λ entry. IsEntryOf class.now branch.now to entry) }
{
    prove_eq!(branch.space.bits(), branch.rewrite.bits());
    let (Some(least), Some(greatest)) = (branch.space.least(), branch.space.greatest()) else {
        unreachable!()
    };
    Ok(Entry {
        from: class.from,
        to,
        rules: class.rules.copy_with(branch.rule)?,
        least,
        greatest,
        arrives: branch.rewrite.apply(&least),
    })
}

/// The class of the packets that come to the port over a link.
fn onward(class: &Class, branch: Branch, port: PortId) -> Result<Class, NoMemory>
    ensures { IfOk result (λ next. next ≡ class_behind class.now branch port) }
{
    Ok(Class {
        from: class.from,
        port,
        rules: class.rules.copy_with(branch.rule)?,
        space: branch.space,
        rewrite: branch.rewrite,
    })
}
