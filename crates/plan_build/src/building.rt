ghost use Rattle.std.specs.Prelude.{◌≡◌, ◌≤◌, ℕ, length, IfOk, IsErrOf};
ghost use Rattle.std.specs.Arc.{arc_value};
ghost use Rattle.network_model.specs.Plan.{IsPlan};
ghost use Rattle.network_model.specs.Prefixes.{IsPrefixNumber};
ghost use Rattle.network_model.specs.Table.{IsOver};

use frontier_waves::{Gate, all_entries};
use net_types::Network;
use path_table::Table;
use rule_cover::{Plan, PlanFault, cover};
use std::alloc::Global;
use std::sync::Arc;
use std::thread::Threads;

/// The plan of a network and a hop limit, which is the same for any number of workers.
pub fn build<R: Threads + Sync, G: Gate>(
    rt: &R,
    alloc: Global,
    net: Arc<Network>,
    hops: u32,
    limit: u32,
    workers: u32,
    gate: &G,
) -> Result<Plan, PlanFault>
    requires { (1 ≤ workers) × (workers ≤ 64) }
    ensures net { IfOk result (λ plan. plan.net ≡ arc_value net) }
    ensures hops { IfOk result (λ plan. plan.hops ≡ hops) }
    ensures plan { IfOk result (λ plan. IsPlan plan.net plan.hops plan.plan) }
    ensures within { IfOk result (λ plan. length plan.plan.table ≤ limit) }
    ensures full { (most : ℕ) → IsErrOf result (PlanFault.TableFull most) → (most ≡ limit) × IsOver (arc_value net) hops limit }
{
    let (plan, _) = build_counted(rt, alloc, net, hops, limit, workers, gate)?;
    Ok(plan)
}

/// The same, and how many classes of headers the search went through: one for each list of rules that the walk of some
/// permitted header begins with. The number stays at the largest.
pub fn build_counted<R: Threads + Sync, G: Gate>(
    rt: &R,
    alloc: Global,
    net: Arc<Network>,
    hops: u32,
    limit: u32,
    workers: u32,
    gate: &G,
) -> Result<(Plan, u64), PlanFault>
    requires { (1 ≤ workers) × (workers ≤ 64) }
    ensures net { IfOk result (λ (plan, _). plan.net ≡ arc_value net) }
    ensures hops { IfOk result (λ (plan, _). plan.hops ≡ hops) }
    ensures plan { IfOk result (λ (plan, _). IsPlan plan.net plan.hops plan.plan) }
    ensures within { IfOk result (λ (plan, _). length plan.plan.table ≤ limit) }
    ensures classes { IfOk result (λ (_, classes). IsPrefixNumber (arc_value net) hops (λ start rules. Unit {0}) classes) }
    ensures full { (most : ℕ) → IsErrOf result (PlanFault.TableFull most) → (most ≡ limit) × IsOver (arc_value net) hops limit }
{
    let found = all_entries(rt, alloc, &net, hops, limit, workers, gate)?;
    let table = Table::of_found(alloc, found.entries, limit)?;
    let plan = cover(alloc, net, hops, table, found.touched)?;
    Ok((plan, found.classes))
}
