//! What the probes leave: the entries that are none, and the rules that are on no probe.
ghost use Rattle.std.specs.Prelude.{◌≡◌, ◌+◌, ◌<◌, ◌^◌, ℕ, List, IfOk, false, not, length, nat_eq, slice_index_or};
ghost use Rattle.std.specs.List.{filter, list_any, range_with_len};
ghost use Rattle.rule_cover.specs.Places.{numbers_of, Tells};

use net_types::{Network, RuleId};
use no_memory::NoMemory;
use path_table::Table;
use std::alloc::Global;

/// The numbers of the entries that are no probe, in table order.
pub(crate) fn unchosen(alloc: Global, table: &Table, probes: &[u32]) -> Result<Vec<u32>, NoMemory>
    ensures { IfOk result (λ rest. rest.items ≡ filter (λ n. not (list_any (nat_eq n) probes.now)) (range_with_len 1 (length table.now))) }
{
    let chosen = flags_of(alloc, table.len(), probes)?;
    let mut rest = Vec::new(alloc);
    for row in 0..table.len() {
        if !chosen[row as usize] {
            let n = row + 1;
            rest.push(n)?;
        }
    }
    Ok(rest)
}

/// Whether each number from 1 up to this one is listed.
fn flags_of(alloc: Global, most: u32, listed: &[u32]) -> Result<Vec<bool>, NoMemory>
    ensures count { IfOk result (λ flags. length flags.items ≡ most) }
    ensures told { IfOk result (λ flags. (i : ℕ) → i < most → slice_index_or flags.items i false ≡ list_any (nat_eq (i + 1)) listed.now) }
{
    let mut flags = vec![in alloc; false; most as usize]?;
    for number in listed {
        if 1 <= *number && *number <= most {
            flags[*number as usize - 1] = true;
        }
    }
    Ok(flags)
}

/// The rules of the network that are not covered, in number order.
pub(crate) fn uncovered(
    alloc: Global,
    net: &Network,
    covered: &[bool],
) -> Result<Vec<RuleId>, NoMemory>
    requires { length covered.now ≡ length (numbers_of net.now) }
    ensures { (known : List ℕ) → Tells (numbers_of net.now) known (λ p. slice_index_or covered.now p false)
        → IfOk result (λ rest. rest.items ≡ filter (λ r. not (list_any (nat_eq r) known)) (numbers_of net.now)) }
{
    let mut rest = Vec::new(alloc);
    for (i, is_covered) in covered.iter().enumerate() {
        if let Some(rule) = net.rule_at(i) {
            if !*is_covered {
                rest.push(rule.id)?;
            }
        }
    }
    Ok(rest)
}
