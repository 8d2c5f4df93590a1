ghost use Rattle.std.specs.Prelude.{◌≡◌, IfOk};
ghost use Rattle.std.specs.Arc.{arc_value};
ghost use Rattle.network_model.specs.Table.{IsTable};
ghost use Rattle.network_model.specs.Plan.{IsPlan};
ghost use Rattle.path_table.specs.Touching.{AreTouched};

use super::choice::choose;
use super::plan::Plan;
use super::rest::{unchosen, uncovered};
use net_types::Network;
use no_memory::NoMemory;
use path_table::{Table, Touched};
use std::alloc::Global;
use std::sync::Arc;

/// The plan over this table, with the pairs of a terminal and a box that it touches.
///
/// Each probe is the first entry with the most rules that are on no earlier probe; ties go to the earlier row.
/// The idea is the greedy set cover of ATPG (Zeng, Kazemian, Varghese, McKeown, CoNEXT 2012).
pub fn cover(
    alloc: Global,
    net: Arc<Network>,
    hops: u32,
    table: Table,
    touched: Touched,
) -> Result<Plan, NoMemory>
    requires table { IsTable (arc_value net) hops table }
    requires touched { AreTouched (arc_value net) hops touched }
    ensures net { IfOk result (λ plan. plan.net ≡ arc_value net) }
    ensures hops { IfOk result (λ plan. plan.hops ≡ hops) }
    ensures table { IfOk result (λ plan. plan.plan.table ≡ table) }
    ensures touched { IfOk result (λ plan. plan.touched ≡ touched) }
    ensures plan { IfOk result (λ plan. IsPlan plan.net plan.hops plan.plan) }
{
    let choice = choose(alloc, &net, &table)?;
    let reserved = unchosen(alloc, &table, &choice.probes)?;
    // Each rule on an entry is on a probe, so that the others are idle.
    let idle = uncovered(alloc, &net, &choice.covered)?;
    Ok(Plan::of(net, hops, table, touched, choice.probes, reserved, idle))
}
