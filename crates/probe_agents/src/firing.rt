//! One probe over one link.
ghost use Rattle.std.specs.Prelude.{◌≡◌, ◌≢◌, ℕ, ◌<◌, ◌≤◌, List, [], length, IfOk, OnErr, Some};
ghost use Rattle.byte_edges.specs.Counts.{Rose};
ghost use Rattle.network_model.specs.Cover.{entry_at};
ghost use Rattle.network_model.specs.Plan.{IsPlan};
ghost use Rattle.network_model.specs.WellFormed.{IsWellFormed};
ghost use Rattle.fault_model.specs.Follow.{verdict_of};
ghost use Rattle.probe_agents.specs.Seeing.{seen};
ghost use Rattle.probe_agents.specs.Firing.{Fires, GivesUp, FiresEntry, GivesUpEntry, sure};
ghost use Rattle.probe_agents.specs.Sharing.{IsField, IsKept};

use crate::Shot;
use crate::waiting::wait_for;
use byte_edges::{EdgeFault, Link};
use no_memory::NoMemory;
use path_table::Entry;
use probe_wire::{Probe, ProbeId, encode};
use rule_cover::Plan;

/// Sends the probe of an entry, with its least header, where the entry begins, and waits for it where the entry ends.
///
/// It is sure to have passed where a packet of this round, version and entry came there with the header with which it is to
/// arrive, and sure to have failed where none was left. The only other errors are those of the link.
pub fn fire<L: Link>(link: &mut L, plan: &Plan, entry: u32, id: ProbeId) -> Result<Shot, NoMemory>
    requires some { 0 < entry }
    requires inside { entry ≤ length plan.now.plan.table }
    ensures fires { IfOk result (FiresEntry plan.now.plan.table id entry (seen L.waiting L.adds L.faults L.sent L.given L.dry link.old) (seen L.waiting L.adds L.faults L.sent L.given L.dry link.new)) }
    ensures gives_up { OnErr result (GivesUpEntry plan.now.plan.table id entry (seen L.waiting L.adds L.faults L.sent L.given L.dry link.old) (seen L.waiting L.adds L.faults L.sent L.given L.dry link.new)) }
    ensures kept { IsKept (seen L.waiting L.adds L.faults L.sent L.given L.dry link.old) (seen L.waiting L.adds L.faults L.sent L.given L.dry link.new) }

    // It is faulted only where the link failed.
    ensures faulted { IfOk result (λ shot. shot ≡ Shot.Faulted → Rose (L.faults link.old) (L.faults link.new)) }

    // Over a field of the network, where nothing waits and nothing fails, it is what the bad rules make of it.
    ensures field { (bad : List ℕ) → IsField plan.now.net plan.now.hops bad (seen L.waiting L.adds L.faults L.sent L.given L.dry link.old) →
        IfOk result (λ shot. shot ≢ Shot.Faulted → (shot ≡ sure (verdict_of plan.now.net plan.now.hops bad (entry_at plan.now.plan.table entry))) × (L.waiting link.new ≡ Some [])) }
{
    fire_one(link, plan, entry, id)
}

/// The same, with what the plan says of itself.
fn fire_one<L: Link>(link: &mut L, plan: &Plan, entry: u32, id: ProbeId) -> Result<Shot, NoMemory>
    requires some { 0 < entry }
    requires inside { entry ≤ length plan.now.plan.table }
    ensures fires { IfOk result (FiresEntry plan.now.plan.table id entry (seen L.waiting L.adds L.faults L.sent L.given L.dry link.old) (seen L.waiting L.adds L.faults L.sent L.given L.dry link.new)) }
    ensures gives_up { OnErr result (GivesUpEntry plan.now.plan.table id entry (seen L.waiting L.adds L.faults L.sent L.given L.dry link.old) (seen L.waiting L.adds L.faults L.sent L.given L.dry link.new)) }
    ensures plan { IsPlan plan.now.net plan.now.hops plan.now.plan }
    ensures well_formed { IsWellFormed plan.now.net }
{
    let Some(row) = plan.table().entry(entry) else {
        unreachable!()
    };
    // A field carries what is as wide as its network.
    prove_eq!(row.least.bits(), plan.net().bits());
    let packet = encode(&Probe {
        round: id.round,
        version: id.version,
        entry,
        header: row.least,
    });
    let awaited = encode(&Probe {
        round: id.round,
        version: id.version,
        entry,
        header: row.arrives,
    });
    shoot(
        link,
        row.from.get(),
        row.to.get(),
        packet.as_slice(),
        awaited.as_slice(),
    )
}

/// Sends a packet at one terminal and waits for another at another.
fn shoot<L: Link>(
    link: &mut L,
    sender: u32,
    receiver: u32,
    packet: &[u8],
    awaited: &[u8],
) -> Result<Shot, NoMemory>
    requires { length awaited.now ≤ 64 }
    ensures fires { IfOk result (Fires sender receiver packet.now awaited.now (seen L.waiting L.adds L.faults L.sent L.given L.dry link.old) (seen L.waiting L.adds L.faults L.sent L.given L.dry link.new)) }
    ensures gives_up { OnErr result (GivesUp sender receiver packet.now awaited.now (seen L.waiting L.adds L.faults L.sent L.given L.dry link.old) (seen L.waiting L.adds L.faults L.sent L.given L.dry link.new)) }
{
    match link.send(sender, packet) {
        Ok(()) => wait_for(link, receiver, awaited),
        Err(EdgeFault::Failed) => Ok(Shot::Faulted),
        Err(EdgeFault::NoMemory) => Err(NoMemory),
    }
}
