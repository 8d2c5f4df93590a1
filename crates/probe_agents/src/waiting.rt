//! The wait for a packet.
ghost use Rattle.std.specs.Prelude.{◌≡◌, ◌≢◌, ℕ, ◌≤◌, List, length, IfOk, OnErr, MatchOption};
ghost use Rattle.probe_agents.specs.Seeing.{seen, Gave};
ghost use Rattle.probe_agents.specs.Firing.{EndsAs, HasWaited, HasTaken};
ghost use Rattle.probe_agents.specs.Sharing.{IsKept};

use crate::Shot;
use byte_edges::{EdgeFault, Link};
use no_memory::NoMemory;
use suspect_book::Verdict;

/// How many other packets are taken at most.
const MOST_STRAYS: usize = 64;

/// Takes packets at the terminal until one is the packet that is awaited, none is left or too many were others.
pub(crate) fn wait_for<L: Link>(link: &mut L, term: u32, awaited: &[u8]) -> Result<Shot, NoMemory>
    requires { length awaited.now ≤ 64 }
    ensures waited { IfOk result (HasWaited term awaited.now (seen L.waiting L.adds L.faults L.sent L.given L.dry link.old) (seen L.waiting L.adds L.faults L.sent L.given L.dry link.new)) }
    ensures taken { OnErr result (HasTaken term awaited.now (seen L.waiting L.adds L.faults L.sent L.given L.dry link.old) (seen L.waiting L.adds L.faults L.sent L.given L.dry link.new)) }
{
    for _stray in 0..MOST_STRAYS {
        if let Some(shot) = take_one(link, term, awaited)? {
            return Ok(shot);
        }
    }
    Ok(Shot::Strays)
}

/// Takes one packet. `None` is for another packet than the one that is awaited.
fn take_one<L: Link>(link: &mut L, term: u32, awaited: &[u8]) -> Result<Option<Shot>, NoMemory>
    ensures ends { IfOk result (λ answer. MatchOption answer
        ((bytes : List ℕ) × (bytes ≢ awaited.now) × Gave term bytes (seen L.waiting L.adds L.faults L.sent L.given L.dry link.old) (seen L.waiting L.adds L.faults L.sent L.given L.dry link.new))
        (EndsAs term awaited.now 0 (seen L.waiting L.adds L.faults L.sent L.given L.dry link.old) (seen L.waiting L.adds L.faults L.sent L.given L.dry link.new))) }
    ensures stays { OnErr result (seen L.waiting L.adds L.faults L.sent L.given L.dry link.new ≡ seen L.waiting L.adds L.faults L.sent L.given L.dry link.old) }
{
    let mut into = [0; 64];
    match link.take(term, &mut into) {
        Ok(Some(n)) => Ok(judged(&into[..n], awaited)),
        Ok(None) => Ok(Some(Shot::Sure(Verdict::Fail))),
        Err(EdgeFault::Failed) => Ok(Some(Shot::Faulted)),
        Err(EdgeFault::NoMemory) => Err(NoMemory),
    }
}

/// What a packet that was taken says of the one that is awaited.
fn judged(bytes: &[u8], awaited: &[u8]) -> Option<Shot>
    ensures same { bytes.now ≡ awaited.now → result ≡ Some (Shot.Sure Verdict.Pass) }
    ensures other { bytes.now ≢ awaited.now → result ≡ None }
{
    if bytes == awaited {
        Some(Shot::Sure(Verdict::Pass))
    } else {
        None
    }
}
