//! The text of a trial of a network.
ghost use Rattle.std.specs.Prelude.{◌≡◌, ◌≤◌, ℕ, None, Some, IfOk, OnOk, IsErrOf};
ghost use Rattle.std.specs.Arc.{arc_value};
ghost use Rattle.network_model.specs.Table.{IsOver};
ghost use Rattle.trial_run.specs.Trial.{first_unknown};
ghost use Rattle.trial_run.specs.TriedText.{IsTriedText};

use crate::fault::TrialFault;
use crate::printing::trial_text;
use crate::running::trial;
use net_types::{Network, RuleList};
use std::alloc::Global;
use std::sync::Arc;
use std::thread::Threads;

/// Why there is no text of a trial. The rule is told by its number.
#[derive(Clone, Copy, Debug, PartialEq, Eq)]
pub enum Refusal {
    /// The network has no such rule.
    NoSuchRule { number: u32 },
    /// The table has more entries than this limit.
    TableFull { limit: u32 },
    NoMemory,
}

/// The text of a trial of a network, in which these rules lose their packets.
pub fn tried_text<R: Threads + Sync>(
    rt: &R,
    alloc: Global,
    net: Arc<Network>,
    hops: u32,
    limit: u32,
    workers: u32,
    bad: &RuleList,
) -> Result<Vec<u8>, Refusal>
    requires { (1 ≤ workers) × (workers ≤ 64) }
    ensures text { IfOk result (λ text. IsTriedText (arc_value net) hops limit bad.now text.items) }
    ensures known { OnOk result (first_unknown (arc_value net) bad.now ≡ None) }
    ensures no_such_rule { (number : ℕ) → IsErrOf result (Refusal.NoSuchRule number) → first_unknown (arc_value net) bad.now ≡ Some number }
    ensures full { (most : ℕ) → IsErrOf result (Refusal.TableFull most) → (most ≡ limit) × IsOver (arc_value net) hops limit × (first_unknown (arc_value net) bad.now ≡ None) }
{
    match trial(rt, alloc, net, hops, limit, workers, bad.as_slice()) {
        Ok(done) => match trial_text(alloc, &done) {
            Ok(text) => Ok(text),
            Err(_) => Err(Refusal::NoMemory),
        },
        Err(fault) => Err(told(fault)),
    }
}

fn told(fault: TrialFault) -> Refusal
    ensures no_such_rule { (number : ℕ) → result ≡ Refusal.NoSuchRule number → fault ≡ TrialFault.NoSuchRule number }
    ensures full { (most : ℕ) → result ≡ Refusal.TableFull most → fault ≡ TrialFault.TableFull most }
{
    match fault {
        TrialFault::NoSuchRule { id } => Refusal::NoSuchRule { number: id.get() },
        TrialFault::TableFull { limit } => Refusal::TableFull { limit },
        TrialFault::NoMemory => Refusal::NoMemory,
    }
}
