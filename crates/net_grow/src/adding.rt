ghost use Rattle.std.specs.Prelude.{◌≡◌, ◌+◌, ◌<◌, ◌++◌, [], ◌∷◌, Ok, None, IfOk, OnOk};
ghost use Rattle.net_types.specs.Refusals.{Answers};
ghost use Rattle.net_types.specs.Rules.{model_of, numbered};
ghost use Rattle.net_grow.specs.Adding.{TakesFrom, Fits};

use net_types::{NetBuilder, NetFault, Rule};
use no_memory::NoMemory;

/// What a builder answers to a part that it takes: no refusal is left but want of memory.
pub(crate) fn taken<T>(answer: Result<T, NetFault>) -> Result<T, NoMemory>
    requires { Answers answer None }
    ensures { IfOk result (λ value. answer ≡ Ok value) }
{
    match answer {
        Ok(value) => Ok(value),
        Err(NetFault::NoMemory) => Err(NoMemory),
        Err(_) => unreachable!(),
    }
}

/// One more rule, whose number is above those of the rules before it.
pub(crate) fn add(net: &mut NetBuilder, rule: Rule) -> Result<(), NoMemory>
    requires number { rule.id < 65536 }
    requires takes { TakesFrom net.old rule.id }
    requires fits { Fits (model_of rule) }
    ensures rules { OnOk result (net.new.rules ≡ net.old.rules ++ numbered rule ∷ []) }
    ensures takes { OnOk result (TakesFrom net.new (rule.id + 1)) }
{
    taken(net.add_rule(rule))
}
