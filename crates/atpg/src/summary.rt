//! What the plan of a generated network comes to.
ghost use Rattle.std.specs.Prelude.{◌≡◌, ◌⊎◌, ◌<◌, ◌≤◌, ◌++◌, ℕ, List, length, take, IfOk, IfErr, OnOk};
ghost use Rattle.byte_edges.specs.Counts.{Rose};
ghost use Rattle.byte_edges.specs.Writing.{Took};
ghost use Rattle.network_model.specs.Plan.{IsPlan};
ghost use Rattle.network_model.specs.Prefixes.{IsPrefixNumber};
ghost use Rattle.net_grow.specs.Generated.{grown};
ghost use Rattle.atpg.specs.Run.{IsSummary, PlanRefused, RefusesInput, summary_line};

use crate::run::write_text;
use crate::status::Status;
use crate::words::Growth;
use byte_edges::Sink;
use frontier_waves::FreeGate;
use net_grow::grow;
use no_memory::NoMemory;
use plan_build::build_counted;
use rule_cover::{Plan, PlanFault};
use std::alloc::Global;
use std::sync::Arc;
use std::thread::Threads;
use text_lines::put_line;

/// Generates a network, plans it and writes a line on it.
pub(crate) fn run_growth<R: Threads + Sync, K: Sink>(
    rt: &R,
    alloc: Global,
    growth: Growth,
    sink: &mut K,
) -> Status
    requires { (1 ≤ growth.options.workers) × (growth.options.workers ≤ 64) }
    ensures refused { RefusesInput result → PlanRefused (grown growth.seed) growth.options result × (sink.new ≡ sink.old) }
    ensures write_fault { (written : ℕ) → result ≡ Status.WriteFault written → Rose (K.faults sink.old) (K.faults sink.new)
        × ((text : List ℕ) × IsSummary growth text × (written < length text) × Took (K.taken sink.old) (K.taken sink.new) (take written text)) }
    ensures no_memory { result ≡ Status.NoMemory → (K.taken sink.new ≡ K.taken sink.old)
        ⊎ ((text : List ℕ) × IsSummary growth text × ((n : ℕ) × (n < length text) × Took (K.taken sink.old) (K.taken sink.new) (take n text))) }
    ensures done { result ≡ Status.Done → (text : List ℕ) × IsSummary growth text × Took (K.taken sink.old) (K.taken sink.new) text }
    ensures good_words { (at : ℕ) → result ≡ Status.BadWords at → ⊥ }
{
    match summary(rt, alloc, growth) {
        Ok(text) => write_text(sink, &text),
        Err(status) => status,
    }
}

/// The line on the network of a seed.
fn summary<R: Threads + Sync>(rt: &R, alloc: Global, growth: Growth) -> Result<Vec<u8>, Status>
    requires { (1 ≤ growth.options.workers) × (growth.options.workers ≤ 64) }
    ensures ok { IfOk result (λ text. IsSummary growth text.items) }
    ensures err { IfErr result (λ status. PlanRefused (grown growth.seed) growth.options status) }
{
    let (plan, classes) = plan_of(rt, alloc, growth)?;
    let mut text = Vec::new(alloc);
    match put_summary(&mut text, growth.seed, &plan, classes) {
        Ok(()) => Ok(text),
        Err(NoMemory) => Err(Status::NoMemory),
    }
}

/// The plan of the network of a seed, and how many classes of headers the search for it went through.
fn plan_of<R: Threads + Sync>(rt: &R, alloc: Global, growth: Growth) -> Result<(Plan, u64), Status>
    requires { (1 ≤ growth.options.workers) × (growth.options.workers ≤ 64) }
    ensures net { IfOk result (λ (plan, _). plan.net ≡ grown growth.seed) }
    ensures plan { IfOk result (λ (plan, _). IsPlan (grown growth.seed) growth.options.hops plan.plan) }
    ensures within { IfOk result (λ (plan, _). length plan.plan.table ≤ growth.options.entries) }
    ensures classes { IfOk result (λ (_, classes). IsPrefixNumber (grown growth.seed) growth.options.hops (λ start rules. Unit {0}) classes) }
    ensures err { IfErr result (λ status. PlanRefused (grown growth.seed) growth.options status) }
{
    let Ok(net) = grow(alloc, growth.seed) else {
        return Err(Status::NoMemory);
    };
    let Ok(net) = Arc::new(alloc, net) else {
        return Err(Status::NoMemory);
    };
    let options = growth.options;
    match build_counted(
        rt,
        alloc,
        net,
        options.hops,
        options.entries,
        options.workers,
        &FreeGate,
    ) {
        Ok(counted) => Ok(counted),
        Err(PlanFault::TableFull { limit }) => Err(Status::TableFull { limit }),
        Err(PlanFault::NoMemory) => Err(Status::NoMemory),
    }
}

/// Puts the line of a network and its plan at the end of the text.
fn put_summary(text: &mut Vec<u8>, seed: u64, plan: &Plan, classes: u64) -> Result<(), NoMemory>
    ensures { OnOk result (text.new.items ≡ text.old.items ++ summary_line seed plan.now.net plan.now.plan classes) }
{
    let net = plan.net();
    let numbers = [
        seed as usize,
        net.box_count(),
        net.rule_count(),
        plan.table().len() as usize,
        plan.probe_count(),
        plan.reserved_count(),
        plan.idle_count(),
        classes as usize,
    ];
    put_line(text, b"grown", &numbers)
}
