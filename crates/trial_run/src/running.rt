//! A trial of a network.
ghost use Rattle.std.specs.Prelude.{◌≡◌, ◌↔◌, ◌≤◌, ℕ, None, Some, length, IfOk, OnOk, IsErrOf};
ghost use Rattle.std.specs.Arc.{arc_value};
ghost use Rattle.network_model.specs.Plan.{IsPlan};
ghost use Rattle.network_model.specs.Table.{IsOver};
ghost use Rattle.fault_model.specs.Follow.{follow};
ghost use Rattle.fault_model.specs.Findings as model;
ghost use Rattle.suspect_book.specs.Reports.{findings_of};
ghost use Rattle.trial_run.specs.Trial.{outcomes_of, first_unknown};

use crate::done::TrialDone;
use crate::fault::TrialFault;
use crate::following::followed;
use crate::unknown::first_unknown;
use frontier_waves::FreeGate;
use net_types::{Network, RuleId};
use plan_build::build;
use rule_cover::{Plan, PlanFault};
use std::alloc::Global;
use std::sync::Arc;
use std::thread::Threads;

/// Plans a network, and sends the packets of the plan through a field of it in which the rules of `bad` lose all theirs: all
/// probes, and then each entry that tells, until there is none.
///
/// The search for the plan is by so many workers, and the probes go through as many fields beside each other. The errors are a
/// rule of `bad` that the network doesn't have, and then a table of more entries than the limit.
pub fn trial<R: Threads + Sync>(
    rt: &R,
    alloc: Global,
    net: Arc<Network>,
    hops: u32,
    limit: u32,
    workers: u32,
    bad: &[RuleId],
) -> Result<TrialDone, TrialFault>
    requires { (1 ≤ workers) × (workers ≤ 64) }
    ensures net { IfOk result (λ done. (arc_value done.plan).net ≡ arc_value net) }
    ensures hops { IfOk result (λ done. (arc_value done.plan).hops ≡ hops) }
    ensures plan { IfOk result (λ done. IsPlan (arc_value net) hops (arc_value done.plan).plan) }
    ensures within { IfOk result (λ done. length (arc_value done.plan).plan.table ≤ limit) }

    // What the packets came to is what following the bad rules gives, and the report is what that tells.
    ensures sent { IfOk result (λ done. outcomes_of done.sent.items ≡ follow (arc_value net) hops (arc_value done.plan).plan bad.now) }
    ensures report { IfOk result (λ done. findings_of done.report ≡ model.findings (arc_value done.plan).plan (follow (arc_value net) hops (arc_value done.plan).plan bad.now)) }
    ensures none_left { IfOk result (λ done. done.report.next ≡ None) }

    // A rule that the network doesn't have comes before all else.
    ensures known { OnOk result (first_unknown (arc_value net) bad.now ≡ None) }
    ensures no_such_rule { (id : ℕ) → IsErrOf result (TrialFault.NoSuchRule id) ↔ (first_unknown (arc_value net) bad.now ≡ Some id) }
    ensures first { (id : ℕ) → IsErrOf result (TrialFault.NoSuchRule id) → first_unknown (arc_value net) bad.now ≡ Some id }
    ensures full { (most : ℕ) → IsErrOf result (TrialFault.TableFull most) → (most ≡ limit) × IsOver (arc_value net) hops limit × (first_unknown (arc_value net) bad.now ≡ None) }
{
    if let Some(id) = first_unknown(&net, bad) {
        return Err(TrialFault::NoSuchRule { id });
    }
    let plan = planned(rt, alloc, net, hops, limit, workers)?;
    let (sent, report) = followed(rt, alloc, &plan, bad, workers)?;
    Ok(TrialDone { plan, sent, report })
}

/// The plan of a network.
fn planned<R: Threads + Sync>(
    rt: &R,
    alloc: Global,
    net: Arc<Network>,
    hops: u32,
    limit: u32,
    workers: u32,
) -> Result<Arc<Plan>, TrialFault>
    requires { (1 ≤ workers) × (workers ≤ 64) }
    ensures net { IfOk result (λ plan. (arc_value plan).net ≡ arc_value net) }
    ensures hops { IfOk result (λ plan. (arc_value plan).hops ≡ hops) }
    ensures plan { IfOk result (λ plan. IsPlan (arc_value net) hops (arc_value plan).plan) }
    ensures within { IfOk result (λ plan. length (arc_value plan).plan.table ≤ limit) }
    ensures full { (most : ℕ) → IsErrOf result (TrialFault.TableFull most) → (most ≡ limit) × IsOver (arc_value net) hops limit }
    ensures known { (id : ℕ) → IsErrOf result (TrialFault.NoSuchRule id) → ⊥ }
{
    match build(rt, alloc, net, hops, limit, workers, &FreeGate) {
        Ok(plan) => match Arc::new(alloc, plan) {
            Ok(plan) => Ok(plan),
            Err(_) => Err(TrialFault::NoMemory),
        },
        Err(PlanFault::TableFull { limit }) => Err(TrialFault::TableFull { limit }),
        Err(PlanFault::NoMemory) => Err(TrialFault::NoMemory),
    }
}
