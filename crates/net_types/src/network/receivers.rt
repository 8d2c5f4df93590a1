//! The terminals of a network that receive, by port.

ghost use Rattle.std.specs.Prelude.{◌≢◌, AllPairs, IfOk};
ghost use Rattle.net_types.specs.Tables.{IsByPort};

use super::Receiver;
use crate::parts::Terminal;
use no_memory::NoMemory;
use std::alloc::Global;

/// The terminals that receive, by rising ports.
pub fn receivers_of(alloc: Global, terminals: &[Terminal]) -> Result<Vec<Receiver>, NoMemory>
    requires { AllPairs (λ s t. s.port ≢ t.port) terminals.now }
    ensures { IfOk result (λ receivers. IsByPort terminals.now receivers.items) }
{
    let mut receivers = Vec::new(alloc);
    for terminal in terminals {
        if terminal.role.receives() {
            receivers.push(Receiver {
                port: terminal.port,
                term: terminal.id,
            })?;
        }
    }
    receivers.sort_by_key(|receiver| receiver.port.get())?;
    Ok(receivers)
}
