//! The rules on each entry by their places among the rules of the network: a rule's place is looked for once for each
//! entry that it stands on, and a look at the entry then takes no search.
ghost use Rattle.std.specs.Prelude.{◌≡◌, ◌++◌, ◌<◌, ◌≤◌, ◌^◌, ℕ, List, [], ◌∷◌, length, slice_index, nat_eq, IfOk, IfSome, OnOk, Contains};
ghost use Rattle.std.specs.List.Sorted.{IsStrictlyIncreasing};
ghost use Rattle.network_model.specs.Cover.{rules_at, entry_at};
ghost use Rattle.rule_cover.specs.Places.{rules_there, numbers_of, ArePlaces, AreLists, Tells};

use super::lists::PlaceLists;
use net_types::{Network, RuleId};
use no_memory::NoMemory;
use path_table::Table;
use std::alloc::Global;

/// A table, the numbers of the network's rules in rising order, and for each entry the places of its different rules.
#[derive(Drop)]
pub(crate) struct RuleLists<'a> {
    pub(crate) table: &'a Table,
    pub(crate) numbers: Vec<RuleId>,
    pub(crate) lists: PlaceLists,
}

/// The numbers of the network's rules, in rising order. A rule's place among them stands for it.
pub fn rule_numbers(alloc: Global, net: &Network) -> Result<Vec<RuleId>, NoMemory>
    ensures { IfOk result (λ numbers. numbers.items ≡ numbers_of net.now) }
{
    let mut numbers = Vec::new(alloc);
    for i in 0..net.rule_count() {
        if let Some(rule) = net.rule_at(i) {
            numbers.push(rule.id)?;
        }
    }
    Ok(numbers)
}

/// The place of a rule among rules that rise, counted from 0.
pub fn place_of(numbers: &[RuleId], rule: RuleId) -> usize
    requires rises { IsStrictlyIncreasing numbers.now }
    requires among { Contains numbers.now rule }
    ensures inside { result < length numbers.now }
    ensures found { slice_index numbers.now result ≡ rule }
{
    match numbers.binary_search(&rule) {
        Ok(place) => place,
        Err(_) => unreachable!(),
    }
}

/// At each number the place at which that rule stands, for numbers up to four times as many as there are rules. Numbers of no
/// rule have a place too, so whoever takes a hint looks whether the rule stands there.
fn hints_of(alloc: Global, numbers: &[RuleId]) -> Result<Vec<u32>, NoMemory>
    requires { length numbers.now < 2 ^ 32 }
{
    let mut hints = vec![in alloc; 0; 4 * numbers.len()]?;
    for (place, rule) in numbers.iter().enumerate() {
        if let Some(hint) = hints.get_mut(rule.get() as usize) {
            *hint = place as u32;
        }
    }
    Ok(hints)
}

/// The place that is a rule's by the hints, if it stands there.
fn hinted(numbers: &[RuleId], hints: &[u32], rule: RuleId) -> Option<usize>
    ensures { IfSome result (λ place. (place < length numbers.now) × (slice_index numbers.now place ≡ rule)) }
{
    let place = *hints.get(rule.get() as usize)? as usize;
    if *numbers.get(place)? != rule {
        return None;
    }
    Some(place)
}

/// The place of a rule, by the hints where they are right.
fn place_by(numbers: &[RuleId], hints: &[u32], rule: RuleId) -> usize
    requires rises { IsStrictlyIncreasing numbers.now }
    requires among { Contains numbers.now rule }
    ensures inside { result < length numbers.now }
    ensures found { slice_index numbers.now result ≡ rule }
{
    match hinted(numbers, hints, rule) {
        Some(place) => place,
        None => place_of(numbers, rule),
    }
}

/// Adds the place of one more rule to the list of an entry, unless it is there. At each place stands the number of the
/// latest entry with the rule.
fn add_rule(
    numbers: &[RuleId],
    hints: &[u32],
    latest: &mut [u32],
    number: u32,
    rule: RuleId,
    list: &mut Vec<u32>,
) -> Result<(), NoMemory>
    requires rises { IsStrictlyIncreasing numbers.now }
    requires few { length numbers.now < 2 ^ 32 }
    requires among { Contains numbers.now rule }
    requires room { length latest.old ≡ length numbers.now }
    ensures places { OnOk result ((rules : List ℕ) → ArePlaces numbers.now rules list.old.items → Tells numbers.now (rules_there numbers.now list.old.items) (λ p. nat_eq number (slice_index latest.old p))
        → ArePlaces numbers.now (rules ++ rule ∷ []) list.new.items) }
    ensures told { OnOk result (Tells numbers.now (rules_there numbers.now list.old.items) (λ p. nat_eq number (slice_index latest.old p))
        → Tells numbers.now (rules_there numbers.now list.new.items) (λ p. nat_eq number (slice_index latest.new p))) }
    ensures latest { ((p : ℕ) → slice_index latest.old p ≤ number) → (p : ℕ) → slice_index latest.new p ≤ number }
{
    let place = place_by(numbers, hints, rule);
    if latest[place] != number {
        latest[place] = number;
        list.push(place as u32)?;
    }
    Ok(())
}

/// Makes the list that of the places of the different rules on the entry of this number. At each place of `latest` stands a lower
/// number.
fn list_places(
    numbers: &[RuleId],
    hints: &[u32],
    latest: &mut [u32],
    number: u32,
    rules: &[RuleId],
    list: &mut Vec<u32>,
) -> Result<(), NoMemory>
    requires rises { IsStrictlyIncreasing numbers.now }
    requires few { length numbers.now < 2 ^ 32 }
    requires among { (i : ℕ) → i < length rules.now → Contains numbers.now (slice_index rules.now i) }
    requires room { length latest.old ≡ length numbers.now }
    requires latest { (p : ℕ) → slice_index latest.old p < number }
    ensures places { OnOk result (ArePlaces numbers.now rules.now list.new.items) }
    ensures latest { OnOk result ((p : ℕ) → slice_index latest.new p ≤ number) }
{
    list.clear();
    for rule in rules {
        add_rule(numbers, hints, latest, number, *rule, list)?;
    }
    Ok(())
}

/// The rules on each entry.
pub(crate) fn rule_lists<'a>(
    alloc: Global,
    net: &Network,
    table: &'a Table,
) -> Result<RuleLists<'a>, NoMemory>
    requires { (n r : ℕ) → Contains (rules_at (entry_at table.now n)) r → Contains (numbers_of net.now) r }
    ensures table { IfOk result (λ lists. lists.table.now ≡ table.now) }
    ensures numbers { IfOk result (λ lists. lists.numbers.items ≡ numbers_of net.now) }
    ensures lists { IfOk result (λ lists. AreLists (numbers_of net.now) table.now lists.lists) }
{
    let _bits = net.bits();
    let numbers = rule_numbers(alloc, net)?;
    let hints = hints_of(alloc, &numbers)?;
    let mut latest = vec![in alloc; 0; numbers.len()]?;
    let mut lists = PlaceLists::new(alloc);
    let mut list = Vec::new(alloc);
    for row in 0..table.len() {
        if let Some(entry) = table.entry(row + 1) {
            let rules = entry.rules.as_slice();
            list_places(&numbers, &hints, &mut latest, row + 1, rules, &mut list)?;
            lists.push(&list)?;
        }
    }
    Ok(RuleLists {
        table,
        numbers,
        lists,
    })
}
