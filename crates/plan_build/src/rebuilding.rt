ghost use Rattle.std.specs.Prelude.{◌≡◌, ◌+◌, ◌≤◌, ◌↔◌, ℕ, IsTrue, length, map, IfOk, IsErrOf};
ghost use Rattle.std.specs.Arc.{arc_value};
ghost use Rattle.network_model.specs.Plan.{IsPlan};
ghost use Rattle.network_model.specs.Table.{IsOver};
ghost use Rattle.network_model.specs.WellFormed.{IsWellFormed};
ghost use Rattle.path_table.specs.Entries.{entry_of};
ghost use Rattle.class_tree.specs.Searched.{IsSearched};
ghost use Rattle.frontier_waves.specs.Waves.{TouchedBy};
ghost use Rattle.change_laws.specs.Unchanged.{IsUnchanged};
ghost use Rattle.plan_build.specs.Keeping.{numbers_of, IsKept, AreChanged, AreParted, Overflows};

use frontier_waves::{Found, Gate, entries_from};
use net_types::{BoxId, Network, TermId};
use no_memory::NoMemory;
use path_table::{Table, TableFault};
use rule_cover::{Plan, PlanFault, cover};
use std::alloc::Global;
use std::sync::Arc;
use std::thread::Threads;

/// The plan of a network and a hop limit, as `build` gives it, from a plan of another network, as it was before a change.
///
/// It takes over what the old plan has of the terminals that are the same in both networks, and whose packets come in the
/// old one to boxes alone that are the same in both. It searches the others alone, so that no class passes the gate where
/// none of them sends.
pub fn rebuild<R: Threads + Sync, G: Gate>(
    rt: &R,
    alloc: Global,
    old: &Plan,
    net: Arc<Network>,
    hops: u32,
    limit: u32,
    workers: u32,
    gate: &G,
) -> Result<Plan, PlanFault>
    requires { (1 ≤ workers) × (workers ≤ 64) }
    ensures net { IfOk result (λ plan. plan.net ≡ arc_value net) }
    ensures hops { IfOk result (λ plan. plan.hops ≡ hops) }
    ensures plan { IfOk result (λ plan. IsPlan plan.net plan.hops plan.plan) }
    ensures within { IfOk result (λ plan. length plan.plan.table ≤ limit) }
    ensures full { (most : ℕ) → IsErrOf result (PlanFault.TableFull most) → (most ≡ limit) × IsOver (arc_value net) hops limit }
{
    let terminals = part(alloc, old, &net, hops)?;
    let kept = old.table().starting_at(&terminals.kept)?;
    let found = search_others(
        rt,
        alloc,
        &net,
        &terminals.others,
        hops,
        kept.len(),
        limit,
        workers,
        gate,
    )?;
    let pairs = old.touched().copy()?.of_terminals(&terminals.kept);
    let touched = pairs.joined(found.touched)?;
    let table = Table::merged(kept, found.entries, limit)?;
    Ok(cover(alloc, net, hops, table, touched)?)
}

/// The terminals of a network: those of which an old plan is kept, and the others.
#[derive(Drop)]
struct Parted {
    kept: Vec<TermId>,
    others: Vec<TermId>,
}

/// The terminals of the network, in number order.
fn part(alloc: Global, old: &Plan, net: &Network, hops: u32) -> Result<Parted, NoMemory>
    ensures parted { IfOk result (λ terminals. AreParted old.now net.now hops (numbers_of net.now) terminals.kept.items terminals.others.items) }
    ensures fit { IfOk result (λ terminals. IsWellFormed old.now.net × IsWellFormed net.now) }
{
    let is_as_wide = old.net().bits() == net.bits();
    let changed = changed_boxes(alloc, old.net(), net)?;
    let mut kept = Vec::new(alloc);
    let mut others = Vec::new(alloc);
    for place in 0..net.term_count() {
        let terminal = net.term_at(place).unwrap();
        if old.hops() == hops && is_as_wide && is_unchanged(old, net, &changed, terminal) {
            kept.push(terminal)?;
        } else {
            others.push(terminal)?;
        }
    }
    Ok(Parted { kept, others })
}

/// The boxes of the old network that are not the same in the other. A box that isn't there is not the same.
fn changed_boxes(alloc: Global, old: &Network, net: &Network) -> Result<Vec<BoxId>, NoMemory>
    ensures { IfOk result (λ changed. AreChanged old.now net.now old.now.boxes changed.items) }
{
    let mut changed = Vec::new(alloc);
    for place in 0..old.box_count() {
        let at = old.box_at(place).unwrap();
        if !old.box_same(net, at) {
            changed.push(at)?;
        }
    }
    Ok(changed)
}

/// Whether a change of these boxes left the terminal as it was.
fn is_unchanged(old: &Plan, net: &Network, changed: &[BoxId], t: TermId) -> bool
    requires fits { IsWellFormed old.now.net }
    requires changed { AreChanged old.now.net net.now old.now.net.boxes changed.now }
    ensures { IsTrue result ↔ IsUnchanged old.now.net net.now old.now.hops t }
{
    if !old.net().term_same(net, t) {
        return false;
    }
    for at in changed {
        if old.touches(t, *at) {
            return false;
        }
    }
    true
}

/// What begins at these terminals, where so many other entries are kept.
fn search_others<R: Threads + Sync, G: Gate>(
    rt: &R,
    alloc: Global,
    net: &Network,
    others: &[TermId],
    hops: u32,
    kept: usize,
    limit: u32,
    workers: u32,
    gate: &G,
) -> Result<Found, PlanFault>
    requires { (1 ≤ workers) × (workers ≤ 64) }
    ensures searched { IfOk result (λ found. IsSearched net.now hops others.now (map entry_of found.entries.items) found.classes) }
    ensures touched { IfOk result (λ found. TouchedBy net.now hops others.now found.touched) }
    ensures full { (most : ℕ) → IsErrOf result (PlanFault.TableFull most) → (most ≡ limit) × Overflows net.now hops others.now kept limit }
{
    let left = (limit as usize).saturating_sub(kept) as u32;
    match entries_from(rt, alloc, net, others, hops, left, workers, gate) {
        Ok(found) => Ok(found),
        Err(TableFault::TableFull { limit: _ }) => Err(PlanFault::TableFull { limit }),
        Err(TableFault::NoMemory) => Err(PlanFault::NoMemory),
    }
}
