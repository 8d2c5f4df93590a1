//! For each rule of a network the rules that precede it and meet it.
ghost use Rattle.std.specs.Prelude.{◌≡◌, ◌==◌, ◌≤◌, ◌<◌, true, Some, IfOk, IfSome, IfNone, length, map, All, Contains};
ghost use Rattle.std.specs.Option.{option_copied};
ghost use Rattle.network_model.specs.Network.{value_at};
ghost use Rattle.network_model.specs.Network.{precedes as does_precede};
ghost use Rattle.net_types.specs.Rules.{numbered, model_of, in_port};
ghost use Rattle.pattern_index.specs.Trees.{IsIndexOf};
ghost use Rattle.box_step.specs.Guides.{IsGuide};
ghost use Rattle.box_step.specs.Overlaps.{ports_meet as do_ports_meet};
ghost use Rattle.box_step.specs.Overlaps.{listed, lists_of, pair_count, preceding_of, comes_first, rules_meet, AreFirst, AreFirstAt, AreFirstIn, IsOverlaps};

use super::guide::{Guide, guide_of, rule_in};
use super::lists::{Listed, Lists};
use net_types::{BoxId, InPort, Network, Rule, RuleId, RuleList};
use no_memory::NoMemory;
use std::alloc::Global;

/// From how many rules on a box has a guide: with fewer, a look at each costs less.
const GUIDED: usize = 32;

/// For each rule of a network the rules that precede it and meet it. One rule meets another where both are of one box,
/// one of them takes all ports or both take the same port, and some header matches both patterns.
#[derive(Debug, Drop)]
pub struct Overlaps {
    lists: Lists,
    /// Those of boxes with many rules.
    guides: Vec<Guide>,
}

impl Overlaps {
    pub fn of(alloc: Global, net: &Network) -> Result<Overlaps, NoMemory>
        ensures { IfOk result (IsOverlaps net.now) }
    {
        let guides = guides_of(alloc, net)?;
        let mut rows = Vec::new(alloc);
        for place in 0..net.rule_count() {
            if let Some(rule) = net.rule_at(place) {
                rows.push(list_of(alloc, net, &guides, rule)?)?;
            }
        }
        Ok(Overlaps {
            lists: sorted(net, rows),
            guides,
        })
    }

    /// What `of` gives, unless its lists have together more members than this.
    pub fn at_most(alloc: Global, net: &Network, pairs: u64) -> Result<Option<Overlaps>, NoMemory>
        ensures some { IfOk result (λ found. IfSome found (λ over. IsOverlaps net.now over × (pair_count net.now ≤ pairs))) }
        ensures none { IfOk result (λ found. IfNone found (pairs < pair_count net.now)) }
    {
        let guides = guides_of(alloc, net)?;
        let mut rows = Vec::new(alloc);
        // How many members may still come.
        let mut left = pairs;
        for place in 0..net.rule_count() {
            if let Some(rule) = net.rule_at(place) {
                let list = list_of(alloc, net, &guides, rule)?;
                let members = list.preceding.len() as u64;
                if members > left {
                    return Ok(None);
                }
                left -= members;
                rows.push(list)?;
            }
        }
        Ok(Some(Overlaps {
            lists: sorted(net, rows),
            guides,
        }))
    }

    /// The numbers of the rules that precede this rule and meet it, rising.
    pub fn preceding(&self, id: RuleId) -> Option<&RuleList>
        ensures { option_copied result ≡ value_at (listed self.now) id }
    {
        match self.lists.of_rule(id) {
            Some(list) => Some(&list.preceding),
            None => None,
        }
    }

    /// The guide of a box, where it has one.
    pub(super) fn guide_at(&self, at: BoxId) -> Option<&Guide>
        ensures { IfSome (option_copied result) (λ guide. Contains self.now.guides.items guide × (guide.«at» ≡ at)) }
    {
        guide_in(&self.guides, at)
    }
}

/// The lists of all rules of the network, which stand by rising numbers as those do.
fn sorted(net: &Network, rows: Vec<Listed>) -> Lists
    requires { map (λ row. (row.rule, row.preceding)) rows.items ≡ lists_of net.now }
    ensures { result.rows.items ≡ rows.items }
{
    let rises = net.bits() >= 1;
    prove!(rises);
    Lists { rows }
}

/// The guide of a box among these, which stand by rising numbers of boxes.
fn guide_in(guides: &[Guide], at: BoxId) -> Option<&Guide>
    ensures { IfSome (option_copied result) (λ guide. Contains guides.now guide × (guide.«at» ≡ at)) }
{
    let place = guides
        .binary_search_by_key(&at.get(), |guide| guide.at.get())
        .ok()?;
    let guide = guides.get(place)?;
    if guide.at == at { Some(guide) } else { None }
}

/// The guides of the boxes that have many rules.
fn guides_of(alloc: Global, net: &Network) -> Result<Vec<Guide>, NoMemory>
    ensures { IfOk result (λ guides. All (IsGuide net.now) guides.items) }
{
    let mut guides = Vec::new(alloc);
    for place in 0..net.box_count() {
        if let Some(at) = net.box_at(place) {
            if net.rules_at(at).len() >= GUIDED {
                guides.push(guide_of(alloc, net, at)?)?;
            }
        }
    }
    Ok(guides)
}

/// The list of a rule of the network.
fn list_of(alloc: Global, net: &Network, guides: &[Guide], rule: &Rule) -> Result<Listed, NoMemory>
    requires guides { All (IsGuide net.now) guides.now }
    requires rule { Contains net.now.rules (numbered rule.now) }
    ensures rule { IfOk result (λ list. list.rule ≡ rule.now.id) }
    ensures preceding { IfOk result (λ list. list.preceding ≡ preceding_of net.now (numbered rule.now)) }
{
    let rises = net.bits() >= 1;
    prove!(rises);
    let mut numbers = first_numbers(alloc, net, guides, rule)?;
    numbers.sort()?;
    numbers.dedup();
    let mut preceding = RuleList::new(alloc);
    for number in &numbers {
        preceding.push(RuleId::of(*number))?;
    }
    Ok(Listed {
        rule: rule.id,
        preceding,
    })
}

/// The numbers of the rules that precede the rule and meet it.
fn first_numbers(
    alloc: Global,
    net: &Network,
    guides: &[Guide],
    rule: &Rule,
) -> Result<Vec<u32>, NoMemory>
    requires guides { All (IsGuide net.now) guides.now }
    requires rule { Contains net.now.rules (numbered rule.now) }
    ensures { IfOk result (λ numbers. AreFirstIn net.now (numbered rule.now) numbers.items) }
{
    let rises = net.bits() >= 1;
    prove!(rises);
    match guide_in(guides, rule.at) {
        Some(guide) => first_of_guide(alloc, guide, rule),
        None => first_among(alloc, net.rules_at(rule.at), rule),
    }
}

/// The numbers of those of the rules that precede the rule and meet it.
fn first_among(alloc: Global, rules: &[Rule], rule: &Rule) -> Result<Vec<u32>, NoMemory>
    requires { All (λ other. length other.pattern ≡ length rule.now.pattern) rules.now }
    ensures { IfOk result (λ numbers. AreFirst rules.now rule.now numbers.items) }
{
    let mut numbers = Vec::new(alloc);
    for other in rules {
        if is_first(other, rule) {
            numbers.push(other.id.get())?;
        }
    }
    Ok(numbers)
}

/// The same of the rules of a guide, with no look at those that its index passes by.
fn first_of_guide(alloc: Global, guide: &Guide, rule: &Rule) -> Result<Vec<u32>, NoMemory>
    requires widths { All (λ other. length other.pattern ≡ length rule.now.pattern) guide.now.rules.items }
    requires width { guide.now.index.width ≡ length rule.now.pattern }
    requires index { IsIndexOf guide.now.index (map (λ own. own.pattern) guide.now.rules.items) }
    ensures { IfOk result (λ numbers. AreFirst guide.now.rules.items rule.now numbers.items) }
{
    let mut places = Vec::new(alloc);
    guide.index.add_meeting(&rule.pattern, &mut places)?;
    first_at(alloc, &guide.rules, &places, rule)
}

/// The numbers of those of the rules at these places that precede the rule and meet it.
fn first_at(
    alloc: Global,
    rules: &[Rule],
    places: &[usize],
    rule: &Rule,
) -> Result<Vec<u32>, NoMemory>
    requires { All (λ other. length other.pattern ≡ length rule.now.pattern) rules.now }
    ensures { IfOk result (λ numbers. AreFirstAt rules.now places.now rule.now numbers.items) }
{
    let mut numbers = Vec::new(alloc);
    for place in places {
        if let Some(other) = rule_in(rules, *place) {
            if is_first(other, rule) {
                numbers.push(other.id.get())?;
            }
        }
    }
    Ok(numbers)
}

/// Whether the other rule precedes the rule and meets it.
fn is_first(other: &Rule, rule: &Rule) -> bool
    requires { length other.now.pattern ≡ length rule.now.pattern }
    ensures { result ≡ comes_first (numbered rule.now) (numbered other.now) }
{
    precedes(other, rule) && meet(other, rule)
}

fn precedes(a: &Rule, b: &Rule) -> bool
    ensures { result ≡ does_precede (numbered a.now) (numbered b.now) }
{
    b.priority < a.priority || (a.priority == b.priority && a.id.get() < b.id.get())
}

fn meet(a: &Rule, b: &Rule) -> bool
    requires { length a.now.pattern ≡ length b.now.pattern }
    ensures { result ≡ rules_meet (model_of a.now) (model_of b.now) }
{
    a.at == b.at && ports_meet(a.inp, b.inp) && a.pattern.meets(&b.pattern)
}

fn ports_meet(a: InPort, b: InPort) -> bool
    ensures { result ≡ do_ports_meet (in_port a) (in_port b) }
{
    match a {
        InPort::Any => true,
        InPort::One(own) => match b {
            InPort::Any => true,
            InPort::One(other) => own == other,
        },
    }
}
