//! The packets of a trial, in the order in which they are sent.
ghost use Rattle.std.specs.Prelude.{◌≡◌, ◌++◌, ◌∷◌, [], ◌<◌, ◌≤◌, None, map, length, OnOk, IfOk};
ghost use Rattle.std.specs.Arc.{arc_value};
ghost use Rattle.rule_cover.specs.PlanValue.{PlanValue};
ghost use Rattle.fault_model.specs.Follow.{outcome_of, follow};
ghost use Rattle.fault_model.specs.Findings as model;
ghost use Rattle.suspect_book.specs.Reports.{findings_of};
ghost use Rattle.suspect_book.specs.Verdicts.{verdict_at};
ghost use Rattle.probe_agents.specs.Sharing.{AreSure};
ghost use Rattle.trial_run.specs.Trial.{outcomes_of};
ghost use Rattle.trial_run.specs.Underway.{IsNoted};

use crate::entries::probes_of;
use crate::sending::{field_of, send_all, send_one, verdict_of_shot};
use net_types::RuleId;
use no_memory::NoMemory;
use probe_agents::Shot;
use rule_cover::Plan;
use std::alloc::Global;
use std::sync::Arc;
use std::thread::Threads;
use suspect_book::{Book, Report, Verdict};

/// The packets that are sent where these rules lose theirs, with what each came to, and what that tells of the rules.
pub(crate) fn followed<R: Threads + Sync>(
    rt: &R,
    alloc: Global,
    plan: &Arc<Plan>,
    bad: &[RuleId],
    workers: u32,
) -> Result<(Vec<(u32, Verdict)>, Report), NoMemory>
    requires { 1 ≤ workers }
    ensures sent { IfOk result (λ (sent, _). outcomes_of sent.items ≡ follow (arc_value plan.now).net (arc_value plan.now).hops (arc_value plan.now).plan bad.now) }
    ensures report { IfOk result (λ (_, report). findings_of report ≡ model.findings (arc_value plan.now).plan
        (follow (arc_value plan.now).net (arc_value plan.now).hops (arc_value plan.now).plan bad.now)) }
{
    let mut book = Book::new(alloc, Arc::try_clone(plan)?)?;
    let mut sent = Vec::new(alloc);
    send_probes(rt, alloc, plan, bad, workers, &mut book, &mut sent)?;
    send_telling(alloc, plan, bad, &mut book, &mut sent)?;
    let report = book.findings(alloc)?;
    Ok((sent, report))
}

/// Sends all probes and notes what they come to.
fn send_probes<R: Threads + Sync>(
    rt: &R,
    alloc: Global,
    plan: &Plan,
    bad: &[RuleId],
    workers: u32,
    book: &mut Book,
    sent: &mut Vec<(u32, Verdict)>,
) -> Result<(), NoMemory>
    requires some { 1 ≤ workers }
    requires none { sent.old.items ≡ [] }
    requires noted { IsNoted plan.now book.old sent.old.items }
    ensures sent { OnOk result (outcomes_of sent.new.items ≡ map (outcome_of plan.now.net plan.now.hops bad.now plan.now.plan.table) plan.now.plan.probes) }
    ensures noted { OnOk result (IsNoted plan.now book.new sent.new.items) }
{
    // Asked for what it says of the plan as a whole.
    let _hops = plan.hops();
    let probes = probes_of(alloc, plan)?;
    let shots = send_all(rt, alloc, plan, bad, &probes, workers)?;
    note_all(plan, bad, &probes, &shots, book, sent)
}

/// Notes what the probes came to.
fn note_all(
    plan: &Plan,
    bad: &[RuleId],
    probes: &[u32],
    shots: &[Shot],
    book: &mut Book,
    sent: &mut Vec<(u32, Verdict)>,
) -> Result<(), NoMemory>
    requires probes { probes.now ≡ plan.now.plan.probes }
    requires sure { AreSure plan.now.net plan.now.hops bad.now plan.now.plan.table probes.now shots.now }
    requires none { sent.old.items ≡ [] }
    requires noted { IsNoted plan.now book.old sent.old.items }
    ensures sent { OnOk result (outcomes_of sent.new.items ≡ map (outcome_of plan.now.net plan.now.hops bad.now plan.now.plan.table) plan.now.plan.probes) }
    ensures noted { OnOk result (IsNoted plan.now book.new sent.new.items) }
{
    // Asked for what it says of the plan as a whole.
    let _hops = plan.hops();
    for i in 0..probes.len() {
        note(book, sent, probes[i], verdict_of_shot(shots[i]))?;
    }
    Ok(())
}

/// Sends the packet of the entry that tells, and notes what it comes to, until none tells.
fn send_telling(
    alloc: Global,
    plan: &Plan,
    bad: &[RuleId],
    book: &mut Book,
    sent: &mut Vec<(u32, Verdict)>,
) -> Result<(), NoMemory>
    requires begun { outcomes_of sent.old.items ≡ map (outcome_of plan.now.net plan.now.hops bad.now plan.now.plan.table) plan.now.plan.probes }
    requires noted { IsNoted plan.now book.old sent.old.items }
    ensures sent { OnOk result (outcomes_of sent.new.items ≡ follow plan.now.net plan.now.hops plan.now.plan bad.now) }
    ensures noted { OnOk result (IsNoted plan.now book.new sent.new.items) }
{
    let mut field = field_of(alloc, plan, bad)?;
    while let Some(entry) = book.telling() {
        let shot = send_one(&mut field, plan, entry)?;
        note(book, sent, entry, verdict_of_shot(shot))?;
    }
    Ok(())
}

/// Notes what the packet of an entry came to.
fn note(
    book: &mut Book,
    sent: &mut Vec<(u32, Verdict)>,
    entry: u32,
    verdict: Verdict,
) -> Result<(), NoMemory>
    requires some { 0 < entry }
    requires inside { entry ≤ length book.old.plan.plan.table }
    requires free { verdict_at book.old.verdicts entry ≡ None }
    ensures sent { OnOk result (sent.new.items ≡ sent.old.items ++ (entry, verdict) ∷ []) }
    ensures plan { book.new.plan ≡ book.old.plan }
    ensures noted { OnOk result ((plan : PlanValue) → IsNoted plan book.old sent.old.items → IsNoted plan book.new sent.new.items) }
{
    sent.push((entry, verdict))?;
    let _first = book.count(entry, verdict);
    Ok(())
}
