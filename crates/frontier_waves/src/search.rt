//! The search through the classes of all terminals, or of some.
ghost use Rattle.std.specs.Prelude.{◌≡◌, ◌≤◌, ◌<◌, ◌+◌, ◌↔◌, ℕ, List, All, Contains, length, map, IfOk, IsErrOf};
ghost use Rattle.network_model.specs.Prefixes.{IsPrefixNumber, Touches};
ghost use Rattle.network_model.specs.Table.{HasMore, IsOver};
ghost use Rattle.path_table.specs.Entries.{entry_of, IsFound};
ghost use Rattle.std.specs.Option.{ForSome, option_copied};
ghost use Rattle.box_step.specs.Overlaps.{IsOverlaps};
ghost use Rattle.class_tree.specs.Belonging.{Belongs};
ghost use Rattle.class_tree.specs.Searched.{StartsAmong, IsSearched};
ghost use Rattle.std.specs.List.{filter};
ghost use Rattle.frontier_waves.specs.Starts.{starts_of, is_listed, AreStarts, ArePicked};
ghost use Rattle.frontier_waves.specs.Waves.{HasSearched, IsSearchedFor, TouchedBy};

use crate::frontier::{Found, Frontier, begin};
use crate::gate::Gate;
use crate::gathering::gather;
use crate::sharing::{for_all, twins_of, without};
use crate::workers::grow_wave;
use box_step::Overlaps;
use class_tree::{Class, roots};
use net_types::{Network, TermId};
use no_memory::NoMemory;
use path_table::TableFault;
use std::alloc::Global;
use std::thread::Threads;

/// How many pairs of rules that meet are kept at most.
const MOST_PAIRS: u64 = 16_777_216;

/// By how many rules a class of a wave is grown at most before it's handed on. What a class comes to in between is near at
/// hand, where a whole wave is not.
const STRIDE: u32 = 16;

/// How many classes a wave has at least for each worker where they are grown by more than one rule.
const SHARES: usize = 8;

/// Grows the classes of all terminals to their ends, by so many workers.
///
/// The entries stand in any order. They, the number of classes and the pairs are the same for any number of workers.
pub fn all_entries<R: Threads + Sync, G: Gate>(
    rt: &R,
    alloc: Global,
    net: &Network,
    hops: u32,
    limit: u32,
    workers: u32,
    gate: &G,
) -> Result<Found, TableFault>
    requires { (1 ≤ workers) × (workers ≤ 64) }
    ensures entries { IfOk result (λ found. IsFound net.now hops (map entry_of found.entries.items)) }
    ensures classes { IfOk result (λ found. IsPrefixNumber net.now hops (λ start rules. Unit {0}) found.classes) }
    ensures touched { IfOk result (λ found. (terminal box : ℕ) → Contains found.touched (terminal, box) ↔ Touches net.now hops terminal box) }
    ensures within { IfOk result (λ found. length found.entries.items ≤ limit) }
    ensures full { (most : ℕ) → IsErrOf result (TableFault.TableFull most) → (most ≡ limit) × IsOver net.now hops limit }
{
    let starts = roots(alloc, net)?;
    search(rt, alloc, net, starts, hops, limit, workers, gate)
}

/// Grows the classes of some terminals to their ends: what `all_entries` gives, of these terminals alone.
pub fn entries_from<R: Threads + Sync, G: Gate>(
    rt: &R,
    alloc: Global,
    net: &Network,
    from: &[TermId],
    hops: u32,
    limit: u32,
    workers: u32,
    gate: &G,
) -> Result<Found, TableFault>
    requires { (1 ≤ workers) × (workers ≤ 64) }
    ensures searched { IfOk result (λ found. IsSearched net.now hops from.now (map entry_of found.entries.items) found.classes) }
    ensures touched { IfOk result (λ found. TouchedBy net.now hops from.now found.touched) }
    ensures within { IfOk result (λ found. length found.entries.items ≤ limit) }
    ensures full { (most : ℕ) → IsErrOf result (TableFault.TableFull most) → (most ≡ limit) × HasMore net.now hops (StartsAmong from.now) limit }
{
    let starts = picked(alloc, net, from)?;
    search(rt, alloc, net, starts, hops, limit, workers, gate)
}

/// The classes of the terminals that are listed.
fn picked(alloc: Global, net: &Network, from: &[TermId]) -> Result<Vec<Class>, NoMemory>
    ensures { IfOk result (λ starts. ArePicked net.now from.now starts.items) }
{
    let all = roots(alloc, net)?;
    Ok(listed(all, from))
}

/// Those whose terminal is listed.
fn listed(mut classes: Vec<Class>, from: &[TermId]) -> Vec<Class>
    ensures { result.items ≡ filter (is_listed from.now) classes.items }
{
    classes.retain(|class| from.contains(&class.from));
    classes
}

/// Grows these classes to their ends. Of terminals that can't be told apart one is searched for all.
fn search<R: Threads + Sync, G: Gate>(
    rt: &R,
    alloc: Global,
    net: &Network,
    starts: Vec<Class>,
    hops: u32,
    limit: u32,
    workers: u32,
    gate: &G,
) -> Result<Found, TableFault>
    requires workers { (1 ≤ workers) × (workers ≤ 64) }
    requires starts { AreStarts net.now starts.items }
    ensures searched { IfOk result (λ found. IsSearched net.now hops (starts_of starts.items) (map entry_of found.entries.items) found.classes) }
    ensures touched { IfOk result (λ found. TouchedBy net.now hops (starts_of starts.items) found.touched) }
    ensures within { IfOk result (λ found. length found.entries.items ≤ limit) }
    ensures full { (most : ℕ) → IsErrOf result (TableFault.TableFull most) → (most ≡ limit) × HasMore net.now hops (StartsAmong (starts_of starts.items)) limit }
{
    let twins = twins_of(alloc, net, &starts, workers)?;
    let shared = twins.as_slice();
    let firsts = without(starts, shared);
    let found = grow_out(rt, alloc, net, shared, firsts, hops, limit, workers, gate)?;
    for_all(alloc, net, shared, found, limit)
}

/// Grows these classes to their ends. Each counts for all terminals for which its own is searched.
fn grow_out<R: Threads + Sync, G: Gate>(
    rt: &R,
    alloc: Global,
    net: &Network,
    twins: &[(TermId, TermId)],
    starts: Vec<Class>,
    hops: u32,
    limit: u32,
    workers: u32,
    gate: &G,
) -> Result<Found, TableFault>
    requires workers { (1 ≤ workers) × (workers ≤ 64) }
    requires starts { AreStarts net.now starts.items }
    ensures searched { IfOk result (λ found. IsSearchedFor net.now hops (starts_of starts.items) twins.now (map entry_of found.entries.items) found.classes) }
    ensures touched { IfOk result (λ found. TouchedBy net.now hops (starts_of starts.items) found.touched) }
    ensures within { IfOk result (λ found. length found.entries.items ≤ limit) }
    ensures full { (most : ℕ) → IsErrOf result (TableFault.TableFull most) → (most ≡ limit) × HasMore net.now hops (StartsAmong (starts_of starts.items)) limit }
{
    // With more pairs of rules that meet, their lists would take more than 64 MiB.
    let kept = Overlaps::at_most(alloc, net, MOST_PAIRS)?;
    let over = kept.as_ref();
    let mut frontier = begin(alloc, starts, twins);
    // How many rules the classes of the wave have.
    let mut depth = 0;
    while depth < hops {
        if frontier.wave.is_empty() {
            return Ok(frontier.found);
        }
        let stride = stride_of(frontier.wave.len(), workers, hops - depth);
        frontier = one_wave(
            rt, alloc, net, twins, over, frontier, hops, stride, limit, workers, gate,
        )?;
        depth += stride;
    }
    Ok(frontier.found)
}

/// By how many rules the classes of a wave are grown at one time, where so many are left before the hop limit.
fn stride_of(classes: usize, workers: u32, left: u32) -> u32
    requires { 1 ≤ left }
    ensures { (1 ≤ result) × (result ≤ left) }
{
    // A few classes would not give work to all workers, so they are first grown to more.
    if workers > 1 && classes < workers as usize * SHARES {
        return 1;
    }
    left.min(STRIDE)
}

/// Grows all classes of a wave by at most so many rules.
fn one_wave<R: Threads + Sync, G: Gate>(
    rt: &R,
    alloc: Global,
    net: &Network,
    twins: &[(TermId, TermId)],
    over: Option<&Overlaps>,
    frontier: Frontier,
    hops: u32,
    stride: u32,
    limit: u32,
    workers: u32,
    gate: &G,
) -> Result<Frontier, TableFault>
    requires over { ForSome (option_copied over) (IsOverlaps net.now) }
    requires stride { 1 ≤ stride }
    requires workers { (1 ≤ workers) × (workers ≤ 64) }
    requires some { 0 < length frontier.wave.items }
    requires belong { All (Belongs net.now) frontier.wave.items }
    requires within { length frontier.found.entries.items ≤ limit }
    ensures further { IfOk result (λ next. (terminals : List ℕ) (depth : ℕ) → depth + stride ≤ hops → HasSearched net.now hops twins.now terminals depth frontier.found frontier.wave.items
        → HasSearched net.now hops twins.now terminals (depth + stride) next.found next.wave.items) }
    ensures within { IfOk result (λ next. length next.found.entries.items ≤ limit) }
    ensures full { (most : ℕ) → IsErrOf result (TableFault.TableFull most) → (most ≡ limit)
        × ((terminals : List ℕ) (depth : ℕ) → depth + stride ≤ hops → HasSearched net.now hops twins.now terminals depth frontier.found frontier.wave.items → HasMore net.now hops (StartsAmong terminals) limit) }
{
    let Frontier { found, wave } = frontier;
    let ready = grow_wave(
        rt,
        alloc,
        net,
        over,
        wave.as_slice(),
        hops,
        stride,
        limit,
        workers,
        gate,
    )?;
    gather(
        alloc,
        net,
        twins,
        found,
        wave.as_slice(),
        ready,
        hops,
        stride,
        limit,
    )
}
