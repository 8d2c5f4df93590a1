//! Entries copied for twins.
ghost use Rattle.std.specs.Prelude.{◌≡◌, ◌+◌, ◌-◌, ◌^◌, ◌<◌, ◌≤◌, ◌++◌, ℕ, length, map, min, nat_eq, IfOk, IsErrOf, OnOk, IsPermutation};
ghost use Rattle.std.specs.List.{filter};
ghost use Rattle.std.specs.List.Sorted.{IsNonDecreasingBy};
ghost use Rattle.path_table.specs.Entries.{entry_of};
ghost use Rattle.twin_laws.specs.Twins.{as_from};
ghost use Rattle.twin_laws.specs.Shared.{weight_of, entries_of_twins};
ghost use Rattle.twin_groups.specs.Copies.{copies_by_twin};

use net_types::TermId;
use no_memory::NoMemory;
use path_table::{Entry, TableFault, table_order};
use std::alloc::Global;

/// How many terminals this one stands for: itself and its twins.
pub fn stands_for(twins: &[(TermId, TermId)], first: TermId) -> u64
    ensures { result ≡ weight_of twins.now first }
{
    let mut count = 1;
    for twin in twins {
        if twin.0 == first {
            count += 1;
        }
    }
    count
}

/// The entries and, for each twin of a terminal at which they begin, a copy of each, in any order.
pub fn with_copies(
    alloc: Global,
    entries: Vec<Entry>,
    twins: &[(TermId, TermId)],
    limit: u32,
) -> Result<Vec<Entry>, TableFault>
    ensures all { IfOk result (λ all. IsPermutation (entries_of_twins twins.now (map entry_of entries.items) ++ map entry_of entries.items) (map entry_of all.items)) }
    ensures within { IfOk result (λ all. length all.items ≤ limit) }
    ensures full { (most : ℕ) → IsErrOf result (TableFault.TableFull most)
        → (most ≡ limit) × (limit < length (entries_of_twins twins.now (map entry_of entries.items) ++ map entry_of entries.items)) }
{
    let count = count_all(&entries, twins);
    if count > u64::from(limit) {
        return Err(TableFault::TableFull { limit });
    }
    Ok(joined(alloc, entries, twins, count as usize)?)
}

/// So many entries: the copies, and those that were there. Without twins nothing is moved; otherwise both stand in the table's
/// order where the twins rise, so that two runs are left to be merged.
fn joined(
    alloc: Global,
    entries: Vec<Entry>,
    twins: &[(TermId, TermId)],
    count: usize,
) -> Result<Vec<Entry>, NoMemory>
    ensures { IfOk result (λ all. IsPermutation (entries_of_twins twins.now (map entry_of entries.items) ++ map entry_of entries.items) (map entry_of all.items)) }
{
    if twins.is_empty() {
        return Ok(entries);
    }
    let mut entries = entries;
    entries.sort_unstable_by(|a, b| table_order(a, b));
    let mut all = copies(alloc, &entries, twins, count)?;
    all.append(&mut entries)?;
    Ok(all)
}

/// How many entries these and their copies are. It stays at the largest number.
fn count_all(entries: &[Entry], twins: &[(TermId, TermId)]) -> u64
    ensures { result ≡ min (length (entries_of_twins twins.now (map entry_of entries.now)) + length entries.now) (2 ^ 64 - 1) }
{
    let mut count: u64 = 0;
    for entry in entries {
        count = count.saturating_add(stands_for(twins, entry.from));
    }
    count
}

/// The copies of all entries, in a list that has room for so many: for each twin those of its terminal's entries.
fn copies(
    alloc: Global,
    entries: &[Entry],
    twins: &[(TermId, TermId)],
    room: usize,
) -> Result<Vec<Entry>, NoMemory>
    requires { IsNonDecreasingBy (λ entry. entry.from) entries.now }
    ensures { IfOk result (λ more. map entry_of more.items ≡ copies_by_twin twins.now (map entry_of entries.now)) }
{
    let mut more = Vec::with_capacity(alloc, room)?;
    for twin in twins {
        add_copies(&mut more, beginning_at(entries, twin.0), twin.1)?;
    }
    Ok(more)
}

/// The entries that begin at the terminal, of entries that stand by their terminals.
fn beginning_at(entries: &[Entry], terminal: TermId) -> &[Entry]
    requires { IsNonDecreasingBy (λ entry. entry.from) entries.now }
    ensures { result.now ≡ filter (λ entry. nat_eq terminal entry.from) entries.now }
{
    let first = entries.partition_point(|entry| entry.from < terminal);
    let rest = &entries[first..];
    let count = rest.partition_point(|entry| entry.from <= terminal);
    &rest[..count]
}

/// Adds a copy of each entry as it begins at another terminal.
fn add_copies(more: &mut Vec<Entry>, entries: &[Entry], start: TermId) -> Result<(), NoMemory>
    ensures { OnOk result (map entry_of more.new.items ≡ map entry_of more.old.items ++ map (as_from start) (map entry_of entries.now)) }
{
    for entry in entries {
        more.push(copy_from(entry, start)?)?;
    }
    Ok(())
}

/// The entry as it begins at another terminal.
fn copy_from(entry: &Entry, start: TermId) -> Result<Entry, NoMemory>
    ensures { IfOk result (λ copy. entry_of copy ≡ as_from start (entry_of entry.now)) }
{
    let mut copy = entry.copy()?;
    copy.from = start;
    Ok(copy)
}
