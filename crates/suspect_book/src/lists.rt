//! The entries of a table by the rules that stand on them, and by whether they are reserved.
ghost use Rattle.std.specs.Prelude.{◌≡◌, ◌<◌, ◌≤◌, ◌||◌, ◌&&◌, ℕ, suc, false, List, [], length, replicate, slice_index, slice_index_or, nat_eq, IfOk, OnOk, Contains};
ghost use Rattle.std.specs.List.Sorted.{IsStrictlyIncreasing};
ghost use Rattle.network_model.specs.Cover.{rules_at, entry_at};
ghost use Rattle.network_model.specs.Plan.{reserved};
ghost use Rattle.fault_model.specs.Outcomes.{has};
ghost use Rattle.suspect_book.specs.Standings.{AreRising, AreBelow, AreStandings};

use super::standing::Standing;
use net_types::RuleId;
use no_memory::NoMemory;
use path_table::Table;
use rule_cover::{Plan, place_of};
use std::alloc::Global;

/// No entry, for so many rules.
fn no_entries(alloc: Global, count: usize) -> Result<Vec<Standing>, NoMemory>
    ensures { IfOk result (λ lists. lists.items ≡ replicate count []) }
{
    let mut lists = Vec::new(alloc);
    for _place in 0..count {
        lists.push(Standing::new(alloc))?;
    }
    Ok(lists)
}

/// Adds an entry, by its place, to the lists of its rules. It stands behind all others there.
fn add_entry(
    numbers: &[RuleId],
    lists: &mut [Standing],
    place: u32,
    rules: &[RuleId],
) -> Result<(), NoMemory>
    requires rises { IsStrictlyIncreasing numbers.now }
    requires among { (i : ℕ) → i < length rules.now → Contains numbers.now (slice_index rules.now i) }
    requires room { length lists.old ≡ length numbers.now }
    requires rising { AreRising lists.old }
    requires last { AreBelow (suc place) lists.old }
    ensures rising { OnOk result (AreRising lists.new) }
    ensures last { OnOk result (AreBelow (suc place) lists.new) }
    ensures has { OnOk result ((p k : ℕ) → p < length numbers.now
        → has (slice_index_or lists.new p []) k ≡ ((nat_eq k place && has rules.now (slice_index numbers.now p)) || has (slice_index_or lists.old p []) k)) }
{
    for rule in rules {
        lists[place_of(numbers, *rule)].add(place)?;
    }
    Ok(())
}

/// The entries on which each rule stands, by their places.
pub(crate) fn standings(
    alloc: Global,
    numbers: &[RuleId],
    table: &Table,
) -> Result<Vec<Standing>, NoMemory>
    requires rises { IsStrictlyIncreasing numbers.now }
    requires among { (n r : ℕ) → Contains (rules_at (entry_at table.now n)) r → Contains numbers.now r }
    ensures { IfOk result (λ lists. AreStandings numbers.now table.now lists.items) }
{
    let mut lists = no_entries(alloc, numbers.len())?;
    for row in 0..table.len() {
        if let Some(entry) = table.entry(row + 1) {
            add_entry(numbers, &mut lists, row, entry.rules.as_slice())?;
        }
    }
    Ok(lists)
}

/// Which entries are reserved, by their places.
pub(crate) fn reserved_rows(alloc: Global, plan: &Plan) -> Result<Vec<bool>, NoMemory>
    ensures room { IfOk result (λ rows. length rows.items ≡ length plan.now.plan.table) }
    ensures told { IfOk result (λ rows. (k : ℕ) → k < length plan.now.plan.table → slice_index_or rows.items k false ≡ has (reserved plan.now.plan) (suc k)) }
{
    let mut rows = vec![in alloc; false; plan.table().len() as usize]?;
    for i in 0..plan.reserved_count() {
        if let Some(entry) = plan.reserved(i) {
            rows[entry as usize - 1] = true;
        }
    }
    Ok(rows)
}
