ghost use Rattle.std.specs.Prelude.{◌≡◌, OnOk, OnErr};
ghost use Rattle.net_types.specs.Refusals.{Answers};
ghost use Rattle.net_versions.specs.Changes.{change_refusal, changed};

use net_types::{NetFault, Network, Rule, RuleId};

/// A change of a network's rules.
#[derive(Clone, Copy, Debug, PartialEq, Eq)]
pub enum Change {
    /// One rule more.
    Add(Rule),
    /// The rule of this number goes.
    Cut(RuleId),
}

/// Changes a network. A change that is refused leaves it as it was.
pub(crate) fn apply(net: &mut Network, change: Change) -> Result<(), NetFault>
    ensures answer { Answers result (change_refusal net.old change) }
    ensures ok { OnOk result (net.new ≡ changed net.old change) }
    ensures err { OnErr result (net.new ≡ net.old) }
{
    match change {
        Change::Add(rule) => net.add_rule(rule),
        Change::Cut(id) => net.cut_rule(id),
    }
}
