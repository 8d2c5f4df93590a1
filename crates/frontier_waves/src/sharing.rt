//! Terminals that can't be told apart: one is searched, and what is found is copied for the others.
ghost use Rattle.std.specs.Prelude.{◌≡◌, ◌≤◌, ℕ, List, length, map, IfOk, IsErrOf};
ghost use Rattle.std.specs.List.{filter};
ghost use Rattle.network_model.specs.Table.{HasMore};
ghost use Rattle.path_table.specs.Entries.{entry_of};
ghost use Rattle.twin_laws.specs.Shared.{is_first, AreTwinned};
ghost use Rattle.class_tree.specs.Searched.{StartsAmong, IsSearched};
ghost use Rattle.frontier_waves.specs.Starts.{starts_of, leads, AreStarts};
ghost use Rattle.frontier_waves.specs.Waves.{IsSearchedFor, TouchedBy};

use crate::frontier::Found;
use class_tree::Class;
use net_types::{Network, TermId};
use no_memory::NoMemory;
use path_table::TableFault;
use std::alloc::Global;
use twin_groups::{twins_among, with_copies, with_twins, worthwhile};

/// The terminals of these classes for which others are searched, each behind the one that is.
pub(crate) fn twins_of(
    alloc: Global,
    net: &Network,
    starts: &[Class],
    workers: u32,
) -> Result<Vec<(TermId, TermId)>, NoMemory>
    requires { AreStarts net.now starts.now }
    ensures { IfOk result (λ twins. AreTwinned net.now (starts_of starts.now) twins.items) }
{
    let terminals = terminals_of(alloc, starts)?;
    let twins = twins_among(alloc, net, &terminals)?;
    worthwhile(alloc, twins, terminals.len(), workers)
}

fn terminals_of(alloc: Global, starts: &[Class]) -> Result<Vec<TermId>, NoMemory>
    ensures { IfOk result (λ terminals. terminals.items ≡ starts_of starts.now) }
{
    Ok(starts.iter().map(|start| start.from).collect(alloc)?)
}

/// The classes of those terminals that are searched themselves.
pub(crate) fn without(mut classes: Vec<Class>, twins: &[(TermId, TermId)]) -> Vec<Class>
    ensures { result.items ≡ filter (leads twins.now) classes.items }
{
    classes.retain(|class| is_searched(twins, class.from));
    classes
}

/// Whether no other terminal is searched for this one.
fn is_searched(twins: &[(TermId, TermId)], terminal: TermId) -> bool
    ensures { result ≡ is_first twins.now terminal }
{
    !twins.iter().any(|twin| twin.1 == terminal)
}

/// What was found from the terminals that were searched, and the same for those for which they were.
pub(crate) fn for_all(
    alloc: Global,
    net: &Network,
    twins: &[(TermId, TermId)],
    found: Found,
    limit: u32,
) -> Result<Found, TableFault>
    ensures searched { (hops : ℕ) (all : List ℕ) → AreTwinned net.now all twins.now
        → IsSearchedFor net.now hops (filter (is_first twins.now) all) twins.now (map entry_of found.entries.items) found.classes
        → IfOk result (λ more. IsSearched net.now hops all (map entry_of more.entries.items) more.classes) }
    ensures touched { (hops : ℕ) (all : List ℕ) → AreTwinned net.now all twins.now → TouchedBy net.now hops (filter (is_first twins.now) all) found.touched
        → IfOk result (λ more. TouchedBy net.now hops all more.touched) }
    ensures within { IfOk result (λ more. length more.entries.items ≤ limit) }
    ensures full { (most : ℕ) → IsErrOf result (TableFault.TableFull most) → (most ≡ limit)
        × ((hops : ℕ) (all : List ℕ) → AreTwinned net.now all twins.now
        → IsSearchedFor net.now hops (filter (is_first twins.now) all) twins.now (map entry_of found.entries.items) found.classes → HasMore net.now hops (StartsAmong all) limit) }
{
    let _bits = net.bits();
    let Found {
        entries,
        classes,
        touched,
    } = found;
    let entries = with_copies(alloc, entries, twins, limit)?;
    let touched = with_twins(net, touched, twins)?;
    Ok(Found {
        entries,
        classes,
        touched,
    })
}
