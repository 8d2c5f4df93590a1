//! The least header that breaks a policy.
ghost use Rattle.std.specs.Prelude.{◌≡◌, ◌↔◌, None, Some, length, IfOk, IfSome, OnOk, IsTrue};
ghost use Rattle.network_model.specs.Bits.{Header};
ghost use Rattle.header_sets.specs.Spaces.{holds};
ghost use Rattle.policy_check.specs.Policies.{AllObey, IsLeastBreach, is_of};
ghost use Rattle.policy_check.specs.Narrowing.{IsNarrowed};
ghost use Rattle.policy_check.specs.Outcomes.{BreaksFrom, IsUnmatchedBreach, undelivered};
ghost use Rattle.policy_check.specs.declared.outcome.Outcome.TheVariants.{Breaks};

use crate::narrowing::{has_lesser, lower};
use crate::outcome::{Outcome, behind_rule, undelivered};
use crate::policy::{Demand, Policy};
use crate::unmatched::unmatched;
use box_step::split;
use class_tree::permitted_headers;
use header_sets::Space;
use net_types::{Network, PortId};
use no_memory::NoMemory;
use std::alloc::Global;
use ternary_bits::{Header, Rewrite};

/// Packets that have come to the same port in the same way.
#[derive(Debug, Drop)]
pub(crate) struct Part {
    /// Where they are about to enter.
    pub(crate) port: PortId,
    /// Their headers as they were sent.
    pub(crate) space: Space,
    /// What has become of those headers so far.
    pub(crate) rewrite: Rewrite,
}

/// The least header of the policy that does not obey it, where packets meet at most so many rules. It propagates sets of
/// headers, depth first, and keeps only the least header found: a part of a set that holds no lesser one is not followed.
pub fn check(
    alloc: Global,
    net: &Network,
    hops: u32,
    policy: &Policy,
) -> Result<Option<Header>, NoMemory>
    requires { length policy.now.pattern ≡ net.now.width }
    ensures none { IfOk result (λ found. (found ≡ None) ↔ AllObey net.now hops policy.now) }
    ensures least { IfOk result (λ found. (h : Header) → (found ≡ Some h) ↔ IsLeastBreach net.now hops policy.now h) }
{
    let Some(place) = net.term(policy.from) else {
        return Ok(None);
    };
    let part = Part {
        port: place.0,
        space: headers_of(alloc, net, policy)?,
        rewrite: Rewrite::keep(net.bits()),
    };
    let mut least = None;
    lower_part(alloc, net, policy, hops, &mut least, &part)?;
    Ok(least)
}

/// The headers of the policy.
fn headers_of(alloc: Global, net: &Network, policy: &Policy) -> Result<Space, NoMemory>
    requires { length policy.now.pattern ≡ net.now.width }
    ensures width { IfOk result (λ space. space.width ≡ net.now.width) }
    ensures set { IfOk result (λ space. (h : Header) → holds space h ≡ is_of net.now policy.now h) }
{
    permitted_headers(alloc, net, policy.from)?.meet(&policy.pattern)
}

/// Puts in the least header of the part, where it is less, and where packets that are not delivered break the demand.
fn lower_undelivered(demand: Demand, least: &mut Option<Header>, space: &Space)
    requires { IfSome least.old (λ h. length h ≡ space.now.width) }
    ensures width { IfSome least.new (λ h. length h ≡ space.now.width) }
    ensures narrowed { IsNarrowed (λ h. IsTrue (holds space.now h) × (undelivered demand ≡ Breaks)) least.old least.new }
{
    if let Outcome::Breaks = undelivered(demand) {
        lower(least, space);
    }
}

/// The same for the headers of the part that no rule takes.
fn lower_unmatched(
    alloc: Global,
    net: &Network,
    demand: Demand,
    least: &mut Option<Header>,
    part: &Part,
) -> Result<(), NoMemory>
    requires space { part.now.space.width ≡ net.now.width }
    requires rewrite { length part.now.rewrite ≡ net.now.width }
    requires found { IfSome least.old (λ h. length h ≡ net.now.width) }
    ensures width { OnOk result (IfSome least.new (λ h. length h ≡ net.now.width)) }
    ensures narrowed { OnOk result (IsNarrowed (IsUnmatchedBreach net.now demand part.now) least.old least.new) }
{
    if let Outcome::Breaks = undelivered(demand) {
        lower(least, &unmatched(alloc, net, part)?);
    }
    Ok(())
}

/// Puts in the least header of the part that breaks the policy within so many more rules, where it is less than the one
/// found before. It goes through the branches of the part, depth first; one that has no lesser header is not followed.
fn lower_part(
    alloc: Global,
    net: &Network,
    policy: &Policy,
    left: u32,
    least: &mut Option<Header>,
    part: &Part,
) -> Result<(), NoMemory>
    requires space { part.now.space.width ≡ net.now.width }
    requires rewrite { length part.now.rewrite ≡ net.now.width }
    requires found { IfSome least.old (λ h. length h ≡ net.now.width) }
    ensures width { OnOk result (IfSome least.new (λ h. length h ≡ net.now.width)) }
    ensures narrowed { OnOk result (IsNarrowed (BreaksFrom net.now policy.now left part.now) least.old least.new) }
{
    if left == 0 {
        lower_undelivered(policy.demand, least, &part.space);
        return Ok(());
    }
    // The rewrites of a well-formed network are as wide as its headers.
    prove_eq!(part.space.bits(), net.bits());
    lower_unmatched(alloc, net, policy.demand, least, part)?;
    for branch in split(alloc, net, part.port, &part.space, &part.rewrite)? {
        match behind_rule(net, policy, branch.rule) {
            Outcome::Obeys => {}
            Outcome::Breaks => lower(least, &branch.space),
            Outcome::GoesOn(port) => {
                if has_lesser(&branch.space, least) {
                    let onward = Part {
                        port,
                        space: branch.space,
                        rewrite: branch.rewrite,
                    };
                    lower_part(alloc, net, policy, left - 1, least, &onward)?;
                }
            }
        }
    }
    Ok(())
}
