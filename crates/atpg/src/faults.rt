//! The rules that lose their packets in a trial, as the words name them.
ghost use Rattle.std.specs.Prelude.{◌≡◌, ◌≤◌, map, All, IfOk};
ghost use Rattle.std.specs.String.{string_bytes};
ghost use Rattle.command_line.specs.Table.{AreNumbersOf};
ghost use Rattle.atpg.specs.CommandLine.{HasFaults, faults_name};

use crate::words::Options;
use command_line::{Name, Value, numbers_of};
use net_types::{RuleId, RuleList};
use no_memory::NoMemory;
use std::alloc::Global;

/// The rules that lose their packets. There are none where it isn't given.
pub(crate) const FAULTS: Name<'static> = Name {
    word: "--faults",
    value: Value::Numbers {
        most: 4_294_967_295,
    },
};

/// How a network is planned for a trial, and the rules that lose all their packets in it, as they are listed.
#[derive(Debug, Drop)]
pub struct Trial {
    pub options: Options,
    pub faults: RuleList,
}

/// The rules that the words after a command list.
pub(crate) fn faults_of(alloc: Global, rest: &[String]) -> Result<RuleList, NoMemory>
    requires { HasFaults (map string_bytes rest.now) }
    ensures { IfOk result (λ faults. AreNumbersOf faults_name (map string_bytes rest.now) faults) }
{
    let numbers = numbers_of(alloc, rest, &FAULTS)?;
    rules_of(alloc, &numbers)
}

/// The rules of these numbers.
fn rules_of(alloc: Global, numbers: &[u64]) -> Result<RuleList, NoMemory>
    requires { All (λ n. n ≤ 4294967295) numbers.now }
    ensures { IfOk result (λ rules. rules ≡ numbers.now) }
{
    let mut rules = RuleList::new(alloc);
    for number in numbers {
        rules.push(RuleId::of(*number as u32))?;
    }
    Ok(rules)
}
