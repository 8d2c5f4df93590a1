//! A trial of a network that was read.
ghost use Rattle.std.specs.Prelude.{◌≤◌, IfOk, IfErr};
ghost use Rattle.std.specs.Arc.{arc_value};
ghost use Rattle.network_model.specs.WellFormed.{IsWellFormed};
ghost use Rattle.atpg.specs.Run.{IsTried, TrialRefused};

use crate::faults::Trial;
use crate::status::Status;
use net_types::{Network, RuleId};
use std::alloc::Global;
use std::sync::Arc;
use std::thread::Threads;
use trial_run::{Refusal, tried_text};

/// The text of a trial of a network.
pub(crate) fn text_of_trial<R: Threads + Sync>(
    rt: &R,
    alloc: Global,
    asked: &Trial,
    net: Network,
) -> Result<Vec<u8>, Status>
    requires { (1 ≤ asked.now.options.workers) × (asked.now.options.workers ≤ 64) }
    ensures ok { IfOk result (λ text. IsWellFormed net × IsTried net asked.now text.items) }
    ensures err { IfErr result (λ status. TrialRefused net asked.now status) }
{
    // Asked for what it says of the network as a whole.
    let _bits = net.bits();
    match Arc::new(alloc, net) {
        Ok(net) => text_tried(rt, alloc, asked, net),
        Err(_) => Err(Status::NoMemory),
    }
}

fn text_tried<R: Threads + Sync>(
    rt: &R,
    alloc: Global,
    asked: &Trial,
    net: Arc<Network>,
) -> Result<Vec<u8>, Status>
    requires { (1 ≤ asked.now.options.workers) × (asked.now.options.workers ≤ 64) }
    ensures ok { IfOk result (λ text. IsTried (arc_value net) asked.now text.items) }
    ensures err { IfErr result (λ status. TrialRefused (arc_value net) asked.now status) }
{
    let options = asked.options;
    match tried_text(
        rt,
        alloc,
        net,
        options.hops,
        options.entries,
        options.workers,
        &asked.faults,
    ) {
        Ok(text) => Ok(text),
        Err(Refusal::NoSuchRule { number }) => Err(Status::NoSuchRule {
            id: RuleId::of(number),
        }),
        Err(Refusal::TableFull { limit }) => Err(Status::TableFull { limit }),
        Err(Refusal::NoMemory) => Err(Status::NoMemory),
    }
}
