//! Rules that a network doesn't have.
ghost use Rattle.std.specs.Prelude.{◌≡◌, not};
ghost use Rattle.trial_run.specs.Trial.{is_in, first_unknown};

use net_types::{Network, RuleId};

/// The first of the rules that the network doesn't have.
pub(crate) fn first_unknown(net: &Network, rules: &[RuleId]) -> Option<RuleId>
    ensures { result ≡ first_unknown net.now rules.now }
{
    for rule in rules {
        if is_unknown(net, *rule) {
            return Some(*rule);
        }
    }
    None
}

fn is_unknown(net: &Network, rule: RuleId) -> bool
    ensures { result ≡ not (is_in net.now rule) }
{
    net.rule(rule).is_none()
}
