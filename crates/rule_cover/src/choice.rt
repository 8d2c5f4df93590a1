//! The choice of the probes, one after another.
//!
//! A gain never rises as probes are added. So each entry keeps the gain that it had at the last look, and only those that
//! keep the greatest are looked at again, in table order: one that still has its kept gain is the first with the greatest.
//! The kept gains are gone through once for each gain that some entry keeps, so no more often than an entry has rules.
ghost use Rattle.std.specs.Prelude.{◌≡◌, ℕ, ◌+◌, ◌<◌, ◌≤◌, ◌^◌, false, List, ◌++◌, length, slice_index, slice_index_or, slice_set, IfOk, OnOk, Contains};
ghost use Rattle.std.specs.List.Sorted.{IsStrictlyIncreasing};
ghost use Rattle.network_model.specs.Cover.{fresh, rules_at, entry_at, rules_of, IsGreedy};
ghost use Rattle.rule_cover.specs.Places.{numbers_of, ArePlaces, AreLists, Tells};
ghost use Rattle.rule_cover.specs.Choices.{IsUnderway};

use super::places::{RuleLists, rule_lists};
use net_types::Network;
use no_memory::NoMemory;
use path_table::Table;
use std::alloc::Global;

/// The probes in order of choice, whether the rule at a place is on one, and the gain that is kept for each entry.
#[derive(Drop)]
pub(crate) struct Choice {
    pub(crate) probes: Vec<u32>,
    pub(crate) covered: Vec<bool>,
    kept: Vec<usize>,
}

/// How many of the rules at these places are not covered.
fn gain_of(covered: &[bool], places: &[u32]) -> usize
    requires { (i : ℕ) → i < length places.now → slice_index places.now i < length covered.now }
    ensures { (numbers rules known : List ℕ) → ArePlaces numbers rules places.now → Tells numbers known (λ p. slice_index_or covered.now p false) → result ≡ fresh known rules }
{
    let mut gain = 0;
    for place in places {
        if !covered[*place as usize] {
            gain += 1;
        }
    }
    gain
}

/// Covers the rules at these places.
fn cover_rules(covered: &mut [bool], places: &[u32])
    requires { (i : ℕ) → i < length places.now → slice_index places.now i < length covered.old }
    ensures { (numbers rules known : List ℕ) → IsStrictlyIncreasing numbers → ArePlaces numbers rules places.now → Tells numbers known (λ p. slice_index_or covered.old p false)
        → Tells numbers (known ++ rules) (λ p. slice_index_or covered.new p false) }
{
    for place in places {
        covered[*place as usize] = true;
    }
}

/// Looks again at the first entry that keeps the greatest gain. It is the next probe if it still has that gain, otherwise
/// it keeps the one that it has now.
fn look_again(lists: &RuleLists, choice: &mut Choice, row: usize) -> Result<(), NoMemory>
    requires lists { AreLists lists.now.numbers.items lists.now.table.now lists.now.lists }
    requires underway { IsUnderway lists.now.numbers.items lists.now.table.now choice.old.probes.items choice.old.covered.items choice.old.kept.items }
    requires inside { row < length lists.now.table.now }
    requires number { row + 1 < 2 ^ 32 }
    requires positive { 0 < slice_index choice.old.kept.items row }
    requires greatest { (k : ℕ) → slice_index choice.old.kept.items k ≤ slice_index choice.old.kept.items row }
    requires first { (k : ℕ) → k < row → slice_index choice.old.kept.items k < slice_index choice.old.kept.items row }
    ensures underway { OnOk result (IsUnderway lists.now.numbers.items lists.now.table.now choice.new.probes.items choice.new.covered.items choice.new.kept.items) }
    ensures kept { OnOk result (choice.new.kept.items ≡ slice_set choice.old.kept.items row (slice_index choice.new.kept.items row)) }
    ensures less { OnOk result (slice_index choice.new.kept.items row < slice_index choice.old.kept.items row) }
{
    let places = lists.lists.list(row);
    let gain = gain_of(&choice.covered, places);
    if gain < choice.kept[row] {
        choice.kept[row] = gain;
        return Ok(());
    }
    cover_rules(&mut choice.covered, places);
    choice.kept[row] = 0;
    choice.probes.push(row as u32 + 1)?;
    Ok(())
}

/// Looks again at each entry that keeps this gain, the greatest one. The answer is a lower one that no entry exceeds then.
fn look_at_greatest(lists: &RuleLists, choice: &mut Choice, most: usize) -> Result<usize, NoMemory>
    requires lists { AreLists lists.now.numbers.items lists.now.table.now lists.now.lists }
    requires underway { IsUnderway lists.now.numbers.items lists.now.table.now choice.old.probes.items choice.old.covered.items choice.old.kept.items }
    requires positive { 0 < most }
    requires greatest { (k : ℕ) → slice_index choice.old.kept.items k ≤ most }
    ensures underway { OnOk result (IsUnderway lists.now.numbers.items lists.now.table.now choice.new.probes.items choice.new.covered.items choice.new.kept.items) }
    ensures less { IfOk result (λ next. next < most) }
    ensures greatest { IfOk result (λ next. (k : ℕ) → slice_index choice.new.kept.items k ≤ next) }
{
    let mut next = 0;
    for row in 0..lists.table.len() as usize {
        if choice.kept[row] == most {
            look_again(lists, choice, row)?;
        }
        next = next.max(choice.kept[row]);
    }
    Ok(next)
}

/// No probe yet, and each entry keeps the number of its rules.
fn start(alloc: Global, lists: &RuleLists) -> Result<Choice, NoMemory>
    requires { AreLists lists.now.numbers.items lists.now.table.now lists.now.lists }
    ensures { IfOk result (λ choice. IsUnderway lists.now.numbers.items lists.now.table.now choice.probes.items choice.covered.items choice.kept.items) }
{
    let mut kept = Vec::new(alloc);
    for row in 0..lists.lists.len() {
        kept.push(lists.lists.list(row).len())?;
    }
    Ok(Choice {
        probes: Vec::new(alloc),
        covered: vec![in alloc; false; lists.numbers.len()]?,
        kept,
    })
}

/// The greatest of these gains.
fn greatest(gains: &[usize]) -> usize
    ensures above { (k : ℕ) → slice_index gains.now k ≤ result }
    ensures least { (bound : ℕ) → ((k : ℕ) → slice_index gains.now k ≤ bound) → result ≤ bound }
{
    let mut most = 0;
    for gain in gains {
        if *gain > most {
            most = *gain;
        }
    }
    most
}

/// Chooses probes until no entry adds a rule.
pub(crate) fn choose(alloc: Global, net: &Network, table: &Table) -> Result<Choice, NoMemory>
    requires { (n r : ℕ) → Contains (rules_at (entry_at table.now n)) r → Contains (numbers_of net.now) r }
    ensures greedy { IfOk result (λ choice. IsGreedy table.now choice.probes.items) }
    ensures flags { IfOk result (λ choice. length choice.covered.items ≡ length (numbers_of net.now)) }
    ensures told { IfOk result (λ choice. Tells (numbers_of net.now) (rules_of table.now choice.probes.items) (λ p. slice_index_or choice.covered.items p false)) }
{
    let lists = rule_lists(alloc, net, table)?;
    let mut choice = start(alloc, &lists)?;
    let mut most = greatest(&choice.kept);
    while most > 0 {
        most = look_at_greatest(&lists, &mut choice, most)?;
    }
    Ok(choice)
}
