//! All rules of a network by box, and those of a box in the order in which it tries them.

ghost use Rattle.std.specs.Prelude.{◌≡◌, true, map, IfOk, AllPairs, length};
ghost use Rattle.std.specs.List.Sorted.{IsStrictlyIncreasing};
ghost use Rattle.net_types.specs.Tables.{IsInPrecedence, IsPlaceInPrecedence, comes_before, precedence_cmp};

use crate::rule::Rule;
use no_memory::NoMemory;
use std::alloc::Global;
use std::cmp::{Ordering, Reverse};

/// The rules in that order.
pub fn in_precedence(alloc: Global, rules: &[Rule]) -> Result<Vec<Rule>, NoMemory>
    requires { IsStrictlyIncreasing (map (λ rule. rule.id) rules.now) }
    ensures order { IfOk result (λ ordered. IsInPrecedence rules.now ordered.items) }
    ensures as_many { IfOk result (λ ordered. length ordered.items ≡ length rules.now) }
{
    let mut ordered = Vec::from_slice(alloc, rules)?;
    // The keys are sorted, and each rule, of some hundred bytes, moves once.
    ordered.sort_by_cached_key(key)?;
    Ok(ordered)
}

/// Where a rule stands in that order, or would go.
pub fn place_in_precedence(ordered: &[Rule], rule: &Rule) -> usize
    requires { AllPairs (λ a b. comes_before a b ≡ true) ordered.now }
    ensures { IsPlaceInPrecedence rule.now ordered.now result }
{
    ordered.partition_point(|other| precedence(other, rule).is_lt())
}

/// By what a rule is placed in that order.
fn key(rule: &Rule) -> (u32, Reverse<u32>, u32)
    ensures { result ≡ (rule.now.«at», record { 0 = rule.now.priority }, rule.now.id) }
{
    (rule.at.get(), Reverse(rule.priority), rule.id.get())
}

fn precedence(a: &Rule, b: &Rule) -> Ordering
    ensures { result ≡ precedence_cmp a.now b.now }
{
    a.at.get()
        .cmp(&b.at.get())
        .then(b.priority.cmp(&a.priority))
        .then(a.id.get().cmp(&b.id.get()))
}
