ghost use Rattle.std.specs.Prelude.{◌≡◌, ◌<◌, ◌≤◌, ℕ, List, length, IfOk, IsErrOf};
ghost use Rattle.std.specs.Arc.{arc_value};
ghost use Rattle.network_model.specs.Table.{Entry, IsTable};

use super::fault::PlanFault;
use super::plan::Plan;
use net_types::Network;
use std::sync::Arc;

/// What makes plans of networks, up to a limit on the entries of a table.
pub trait Planner {
    /// How many entries a table may have.
    ghost limit: { Self → ℕ };

    /// What has to hold before a plan is asked for. Most planners need nothing.
    ghost ready: { Self → Type 0 } = { λ _. Unit {0} };

    fn plan(&mut self, net: Arc<Network>, hops: u32) -> Result<Plan, PlanFault>
        requires { ready self.old }
        ensures net { IfOk result (λ plan. plan.net ≡ arc_value net) }
        ensures hops { IfOk result (λ plan. plan.hops ≡ hops) }
        ensures within { IfOk result (λ plan. length plan.plan.table ≤ limit self.old) }
        ensures full { (most : ℕ) → IsErrOf result (PlanFault.TableFull most) →
            (most ≡ limit self.old) × ((table : List Entry) × IsTable (arc_value net) hops table × (most < length table)) }
        ensures stays { limit self.new ≡ limit self.old }
        ensures ready { ready self.new };
}
