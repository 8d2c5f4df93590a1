ghost use Rattle.std.specs.Prelude.{◌≡◌, ◌≤◌, ℕ, length, IfOk, IsErrOf};
ghost use Rattle.std.specs.Arc.{arc_value};
ghost use Rattle.network_model.specs.Table.{IsOver};

use crate::building::build;
use crate::rebuilding::rebuild;
use frontier_waves::FreeGate;
use net_types::Network;
use rule_cover::{Plan, PlanFault, Planner};
use std::alloc::Global;
use std::marker::Model;
use std::sync::Arc;
use std::thread::Threads;

/// Makes plans by so many workers, each from the one before it. It is seen as its limit on the entries of a table.
pub struct WavePlanner<'a, R: Threads + Sync> {
    rt: &'a R,
    alloc: Global,
    limit: u32,
    workers: u32,
    /// The last plan that it gave. Where there was no memory for the copy it has none.
    last: Option<Plan>,
}

impl<'a, R: Threads + Sync> Model for WavePlanner<'a, R> {
    ghost use Rattle.std.specs.Prelude.{◌≤◌, ℕ};

    ghost Value = { ℕ };

    ghost view = { λ planner. planner.limit };

    ghost invariant = { λ planner. (1 ≤ planner.workers) × (planner.workers ≤ 64) };
}

impl<'a, R: Threads + Sync> WavePlanner<'a, R> {
    /// A planner whose tables have at most so many entries, by 1 to 64 workers.
    pub fn new(rt: &'a R, alloc: Global, limit: u32, workers: u32) -> Self
        requires { (1 ≤ workers) × (workers ≤ 64) }
        ensures { result ≡ limit }
    {
        WavePlanner {
            rt,
            alloc,
            limit,
            workers,
            last: None,
        }
    }
}

impl<R: Threads + Sync> Drop for WavePlanner<'_, R> {
    fn drop(self) {
        let WavePlanner {
            rt: _,
            alloc: _,
            limit: _,
            workers: _,
            last: _,
        } = self;
    }
}

impl<R: Threads + Sync> Planner for WavePlanner<'_, R> {
    ghost use Rattle.std.specs.Thread.{IsSync};

    ghost limit = { λ planner. planner };

    // That the runtime may be shared by threads, which no code in an impl of a trait knows of a type parameter.
    ghost ready = { λ _. IsSync R.row };

    fn plan(&mut self, net: Arc<Network>, hops: u32) -> Result<Plan, PlanFault> {
        // Asked for what it says of the network as a whole.
        let _bits = net.bits();
        let plan = plan_from(
            self.rt,
            self.alloc,
            &self.last,
            net,
            hops,
            self.limit,
            self.workers,
        )?;
        self.last = plan.copy().ok();
        Ok(plan)
    }
}

/// The plan of the network, from the last plan where there is one.
fn plan_from<R: Threads + Sync>(
    rt: &R,
    alloc: Global,
    last: &Option<Plan>,
    net: Arc<Network>,
    hops: u32,
    limit: u32,
    workers: u32,
) -> Result<Plan, PlanFault>
    requires { (1 ≤ workers) × (workers ≤ 64) }
    ensures net { IfOk result (λ plan. plan.net ≡ arc_value net) }
    ensures hops { IfOk result (λ plan. plan.hops ≡ hops) }
    ensures within { IfOk result (λ plan. length plan.plan.table ≤ limit) }
    ensures full { (most : ℕ) → IsErrOf result (PlanFault.TableFull most) → (most ≡ limit) × IsOver (arc_value net) hops limit }
{
    match last {
        Some(old) => rebuild(rt, alloc, old, net, hops, limit, workers, &FreeGate),
        None => build(rt, alloc, net, hops, limit, workers, &FreeGate),
    }
}
