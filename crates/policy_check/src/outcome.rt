//! What a rule leads to, for the packets that it takes.
ghost use Rattle.std.specs.Prelude.{◌≡◌};
ghost use Rattle.network_model.specs.Walk as model;
ghost use Rattle.policy_check.specs.Outcomes.{undelivered, delivered, at_terminal, behind_port, is_asked, outcome_of};

use crate::policy::{Demand, Policy};
use net_types::{Action, BoxId, Network, Next, PortId, RuleId, TermId};

/// What a rule leads to.
#[derive(Clone, Copy, Debug, PartialEq, Eq)]
pub(crate) enum Outcome {
    /// Its packets meet the demand, wherever they go.
    Obeys,
    /// None of them does.
    Breaks,
    /// They come to this port, and what they do there tells.
    GoesOn(PortId),
}

/// What the rule leads to, for packets that have met no box that is asked for.
pub(crate) fn behind_rule(net: &Network, policy: &Policy, rule: RuleId) -> Outcome
    ensures { result ≡ outcome_of net.now policy.now rule }
{
    let Some(rule) = net.rule(rule) else {
        return Outcome::Obeys;
    };
    if is_asked(policy.demand, rule.at) {
        return Outcome::Obeys;
    }
    match rule.action {
        Action::Drop => undelivered(policy.demand),
        Action::Out { port, .. } => behind_port(net, policy, port),
    }
}

/// What becomes of packets that leave by the port.
fn behind_port(net: &Network, policy: &Policy, port: PortId) -> Outcome
    ensures { result ≡ behind_port policy.now.demand policy.now.to (model.next net.now port) }
{
    match net.next(port) {
        Next::Term(terminal) => at_terminal(policy, terminal),
        Next::Far(far) => Outcome::GoesOn(far),
        Next::Nothing => undelivered(policy.demand),
    }
}

/// What becomes of packets that are delivered at this terminal.
fn at_terminal(policy: &Policy, terminal: TermId) -> Outcome
    ensures { result ≡ at_terminal policy.now.demand policy.now.to terminal }
{
    if terminal == policy.to {
        delivered(policy.demand)
    } else {
        undelivered(policy.demand)
    }
}

/// What becomes of packets that are delivered where the policy says.
fn delivered(demand: Demand) -> Outcome
    ensures { result ≡ delivered demand }
{
    match demand {
        Demand::Must => Outcome::Obeys,
        Demand::Never | Demand::Via(_) => Outcome::Breaks,
    }
}

/// What becomes of all others.
pub(crate) fn undelivered(demand: Demand) -> Outcome
    ensures { result ≡ undelivered demand }
{
    match demand {
        Demand::Must => Outcome::Breaks,
        Demand::Never | Demand::Via(_) => Outcome::Obeys,
    }
}

/// Whether the demand asks for this box.
fn is_asked(demand: Demand, at: BoxId) -> bool
    ensures { result ≡ is_asked demand at }
{
    match demand {
        Demand::Via(asked) => at == asked,
        Demand::Never | Demand::Must => false,
    }
}
