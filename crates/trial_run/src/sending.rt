//! Packets sent through fields.
ghost use Rattle.std.specs.Prelude.{◌≡◌, ◌<◌, ◌≤◌, ℕ, List, length, All, IfOk};
ghost use Rattle.network_model.specs.Cover.{entry_at};
ghost use Rattle.fault_model.specs.Follow.{verdict_of};
ghost use Rattle.suspect_book.specs.declared.verdict.Verdict.{Verdict};
ghost use Rattle.probe_agents.specs.Firing.{sure};
ghost use Rattle.probe_agents.specs.Sharing.{AreSure};
ghost use Rattle.trial_run.specs.Underway.{IsFieldOf};

use field_sim::Field;
use net_types::RuleId;
use no_memory::NoMemory;
use probe_agents::{ProbeId, Shot, fire, fire_all};
use rule_cover::Plan;
use std::alloc::Global;
use std::sync::Arc;
use std::thread::Threads;
use suspect_book::Verdict;

/// The round and version of each packet of a trial.
const ID: ProbeId = ProbeId {
    round: 0,
    version: 0,
};

/// A field of the plan's network and hop limit, in which these rules lose their packets.
pub(crate) fn field_of(alloc: Global, plan: &Plan, bad: &[RuleId]) -> Result<Field, NoMemory>
    ensures { IfOk result (λ field. IsFieldOf plan.now.net plan.now.hops bad.now field) }
{
    Field::new(alloc, Arc::try_clone(plan.net())?, plan.hops(), bad)
}

/// So many such fields.
fn fields_of(alloc: Global, plan: &Plan, bad: &[RuleId], count: u32) -> Result<Vec<Field>, NoMemory>
    ensures fields { IfOk result (λ fields. All (IsFieldOf plan.now.net plan.now.hops bad.now) fields.items) }
    ensures count { IfOk result (λ fields. length fields.items ≡ count) }
{
    let mut fields = Vec::new(alloc);
    for _field in 0..count {
        fields.push(field_of(alloc, plan, bad)?)?;
    }
    Ok(fields)
}

/// What the packets of these entries come to, shared out over so many fields.
pub(crate) fn send_all<R: Threads + Sync>(
    rt: &R,
    alloc: Global,
    plan: &Plan,
    bad: &[RuleId],
    entries: &[u32],
    count: u32,
) -> Result<Vec<Shot>, NoMemory>
    requires some { 0 < count }
    requires inside { All (λ n. (0 < n) × (n ≤ length plan.now.plan.table)) entries.now }
    ensures { IfOk result (λ shots. AreSure plan.now.net plan.now.hops bad.now plan.now.plan.table entries.now shots.items) }
{
    let mut fields = fields_of(alloc, plan, bad, count)?;
    fire_all(rt, alloc, &mut fields, plan, entries, ID)
}

/// What the packet of an entry comes to in a field.
pub(crate) fn send_one(field: &mut Field, plan: &Plan, entry: u32) -> Result<Shot, NoMemory>
    requires some { 0 < entry }
    requires inside { entry ≤ length plan.now.plan.table }
    ensures { (bad : List ℕ) → IsFieldOf plan.now.net plan.now.hops bad field.old →
        IfOk result (λ shot. (shot ≡ sure (verdict_of plan.now.net plan.now.hops bad (entry_at plan.now.plan.table entry)))
        × IsFieldOf plan.now.net plan.now.hops bad field.new) }
{
    fire(field, plan, entry, ID)
}

/// The verdict of a shot that is sure.
pub(crate) fn verdict_of_shot(shot: Shot) -> Verdict
    requires { (verdict : Verdict) × (shot ≡ Shot.Sure verdict) }
    ensures { shot ≡ Shot.Sure result }
{
    match shot {
        Shot::Sure(verdict) => verdict,
        Shot::Faulted => unreachable!(),
        Shot::Strays => unreachable!(),
    }
}
