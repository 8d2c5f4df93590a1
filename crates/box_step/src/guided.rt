//! The branches of a set at a box whose overlaps are known: only rules that may take some of its packets are looked at.
ghost use Rattle.std.specs.Prelude.{◌≡◌, ◌&&◌, ◌⊎◌, ℕ, true, false, Some, IfOk, IfSome, IfNone, IsTrue, length, slice_get, All, Contains};
ghost use Rattle.std.specs.List.Sorted.{IsStrictlyIncreasing};
ghost use Rattle.std.specs.Option.{ForSome, option_copied};
ghost use Rattle.network_model.specs.Bits.{Header, matches};
ghost use Rattle.network_model.specs.Rewrites.{rewritten};
ghost use Rattle.net_types.specs.declared.rule.Rule as declared;
ghost use Rattle.network_model.specs.Network.{value_at};
ghost use Rattle.net_types.specs.Rules.{numbered, action, IsAsWide};
ghost use Rattle.header_sets.specs.Spaces.{holds};
ghost use Rattle.box_step.specs.Branches.{IsSplit, IsSplitOf, IsSent};
ghost use Rattle.box_step.specs.Branches.{is_wanted as is_wanted_of};
ghost use Rattle.box_step.specs.Guides.{IsGuide};
ghost use Rattle.box_step.specs.Overlaps.{IsOverlaps};
ghost use Rattle.box_step.specs.Taking.{takes_sent, is_left, IsTaken, Recalls};

use super::branches::{Branch, branch_of, branch_of_indexed, is_wanted, sources_of, split_wanted};
use super::guide::{Guide, rule_in};
use super::overlaps::Overlaps;
use super::taken::Taken;
use header_sets::{IndexedSpace, Space};
use net_types::{Network, PortId, Rule};
use no_memory::NoMemory;
use std::alloc::Global;
use ternary_bits::{Pattern, Rewrite};

/// Up to how many rules that may take something what each took is gone through for the next, without a look at its overlaps.
const FEW: usize = 64;

/// What `split` gives, by the overlaps of the network.
pub fn split_with(
    alloc: Global,
    net: &Network,
    over: &Overlaps,
    port: PortId,
    space: &Space,
    rewrite: &Rewrite,
) -> Result<Vec<Branch>, NoMemory>
    requires over { IsOverlaps net.now over.now }
    requires space { space.now.width ≡ net.now.width }
    requires rewrite { length rewrite.now ≡ net.now.width }
    ensures { IfOk result (λ branches. IsSplit net.now port space.now rewrite.now branches.items) }
{
    split_guided(alloc, net, over, port, space, rewrite, true)
}

/// The branches of the rules that send packets on: what `split` gives but for rules that drop. What such a rule takes is only taken
/// out of what comes behind it.
pub fn split_sent(
    alloc: Global,
    net: &Network,
    over: Option<&Overlaps>,
    port: PortId,
    space: &Space,
    rewrite: &Rewrite,
) -> Result<Vec<Branch>, NoMemory>
    requires over { ForSome (option_copied over) (IsOverlaps net.now) }
    requires space { space.now.width ≡ net.now.width }
    requires rewrite { length rewrite.now ≡ net.now.width }
    ensures { IfOk result (λ branches. IsSent net.now port space.now rewrite.now branches.items) }
{
    match over {
        Some(over) => split_guided(alloc, net, over, port, space, rewrite, false),
        None => split_wanted(alloc, net, port, space, rewrite, false),
    }
}

/// The branches by the overlaps of the network, with those of rules that drop if they are wanted.
fn split_guided(
    alloc: Global,
    net: &Network,
    over: &Overlaps,
    port: PortId,
    space: &Space,
    rewrite: &Rewrite,
    drops: bool,
) -> Result<Vec<Branch>, NoMemory>
    requires over { IsOverlaps net.now over.now }
    requires space { space.now.width ≡ net.now.width }
    requires rewrite { length rewrite.now ≡ net.now.width }
    ensures { IfOk result (λ branches. IsSplitOf (is_wanted_of drops) net.now port space.now rewrite.now branches.items) }
{
    if let Some(at) = net.box_of(port) {
        if let Some(guide) = over.guide_at(at) {
            return split_by(alloc, net, over, guide, port, space, rewrite, drops);
        }
    }
    split_wanted(alloc, net, port, space, rewrite, drops)
}

/// The branches at the box of a guide.
fn split_by(
    alloc: Global,
    net: &Network,
    over: &Overlaps,
    guide: &Guide,
    port: PortId,
    space: &Space,
    rewrite: &Rewrite,
    drops: bool,
) -> Result<Vec<Branch>, NoMemory>
    requires over { IsOverlaps net.now over.now }
    requires guide { IsGuide net.now guide.now }
    requires port { value_at net.now.ports port ≡ Some guide.now.«at» }
    requires space { space.now.width ≡ net.now.width }
    requires rewrite { length rewrite.now ≡ net.now.width }
    ensures { IfOk result (λ branches. IsSplitOf (is_wanted_of drops) net.now port space.now rewrite.now branches.items) }
{
    let places = guide.places_met(alloc, space, rewrite)?;
    if places.len() <= FEW {
        return split_few(alloc, net, guide, &places, port, space, rewrite, drops);
    }
    split_many(
        alloc, net, over, guide, &places, port, space, rewrite, drops,
    )
}

/// The branches of the rules at these places, where no other rule takes a header of the set.
fn split_few(
    alloc: Global,
    net: &Network,
    guide: &Guide,
    places: &[usize],
    port: PortId,
    space: &Space,
    rewrite: &Rewrite,
    drops: bool,
) -> Result<Vec<Branch>, NoMemory>
    requires guide { IsGuide net.now guide.now }
    requires port { value_at net.now.ports port ≡ Some guide.now.«at» }
    requires space { space.now.width ≡ net.now.width }
    requires rewrite { length rewrite.now ≡ net.now.width }
    requires rise { IsStrictlyIncreasing places.now }
    requires met { (place : ℕ) (rule : declared.Rule) → slice_get guide.now.rules.items place ≡ Some rule →
        Contains places.now place ⊎ ((h : Header) → (holds space.now h && matches rule.pattern (rewritten rewrite.now h)) ≡ false) }
    ensures { IfOk result (λ branches. IsSplitOf (is_wanted_of drops) net.now port space.now rewrite.now branches.items) }
{
    prove_eq!(space.bits(), rewrite.bits());
    let mut branches = Vec::with_capacity(alloc, places.len())?;
    // What rules so far have taken. A rule that has a branch only if it takes something more is else not among them.
    let mut earlier = Vec::with_capacity(alloc, places.len())?;
    for place in places {
        if let Some(rule) = rule_in(&guide.rules, *place) {
            if is_wanted(rule, drops) {
                let found = branch_of(rule, port, space, &earlier, rewrite)?;
                if let Some((branch, sources)) = found {
                    branches.push(branch)?;
                    earlier.push(sources)?;
                }
            } else if let Some(sources) = sources_of(rule, port, rewrite) {
                earlier.push(sources)?;
            }
        }
    }
    Ok(branches)
}

/// The same where the places are many.
fn split_many(
    alloc: Global,
    net: &Network,
    over: &Overlaps,
    guide: &Guide,
    places: &[usize],
    port: PortId,
    space: &Space,
    rewrite: &Rewrite,
    drops: bool,
) -> Result<Vec<Branch>, NoMemory>
    requires over { IsOverlaps net.now over.now }
    requires guide { IsGuide net.now guide.now }
    requires port { value_at net.now.ports port ≡ Some guide.now.«at» }
    requires space { space.now.width ≡ net.now.width }
    requires rewrite { length rewrite.now ≡ net.now.width }
    requires rise { IsStrictlyIncreasing places.now }
    requires met { (place : ℕ) (rule : declared.Rule) → slice_get guide.now.rules.items place ≡ Some rule →
        Contains places.now place ⊎ ((h : Header) → (holds space.now h && matches rule.pattern (rewritten rewrite.now h)) ≡ false) }
    ensures { IfOk result (λ branches. IsSplitOf (is_wanted_of drops) net.now port space.now rewrite.now branches.items) }
{
    prove_eq!(space.bits(), rewrite.bits());
    let rises = net.bits() >= 1;
    prove!(rises);
    let indexed = IndexedSpace::of(alloc, space)?;
    let mut branches = Vec::new(alloc);
    let mut taken = Taken::new(alloc);
    for place in places {
        if let Some(rule) = rule_in(&guide.rules, *place) {
            if is_wanted(rule, drops) {
                let found = branch_past(net, over, rule, port, &indexed, &taken, rewrite)?;
                if let Some((branch, sources)) = found {
                    branches.push(branch)?;
                    taken.add(rule.id, sources)?;
                }
            } else if let Some(sources) = sources_of(rule, port, rewrite) {
                taken.add(rule.id, sources)?;
            }
        }
    }
    Ok(branches)
}

/// The branch of a rule out of what earlier rules have left, and the headers that the rule takes. Where few rules
/// precede the rule and meet it, only these are asked what they took.
fn branch_past(
    net: &Network,
    over: &Overlaps,
    rule: &Rule,
    port: PortId,
    space: &IndexedSpace,
    taken: &Taken,
    rewrite: &Rewrite,
) -> Result<Option<(Branch, Pattern)>, NoMemory>
    requires over { IsOverlaps net.now over.now }
    requires among { Contains net.now.rules (numbered rule.now) }
    requires headers { (h : Header) → IsTrue (holds space.now h) → length h ≡ length rewrite.now }
    requires width { space.now.width ≡ length rewrite.now }
    requires earlier { All (λ sources. length sources ≡ length rewrite.now) taken.now.patterns.items }
    requires recalls { Recalls net.now port rewrite.now space.now taken.now rule.now }
    requires pattern { length rule.now.pattern ≡ length rewrite.now }
    requires action { IsAsWide (length rewrite.now) (action rule.now.action) }
    ensures some { IfOk result (λ found. IfSome found (λ (branch, sources). IsTaken port rewrite.now rule.now space.now taken.now.patterns.items branch sources)) }
    ensures none { IfOk result (λ found. IfNone found ((h : Header) → (is_left space.now taken.now.patterns.items h && takes_sent port rewrite.now rule.now h) ≡ false)) }
{
    let rises = net.bits() >= 1;
    prove!(rises);
    if taken.patterns.len() <= FEW {
        return branch_of_indexed(rule, port, space, &taken.patterns, rewrite);
    }
    if let Some(preceding) = over.preceding(rule.id) {
        if preceding.len() < taken.patterns.len() {
            let own = taken.of_rules(preceding.as_slice())?;
            return branch_of_indexed(rule, port, space, &own, rewrite);
        }
    }
    branch_of_indexed(rule, port, space, &taken.patterns, rewrite)
}
