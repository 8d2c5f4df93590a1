ghost use Rattle.std.specs.Prelude.{◌≡◌, ◌+◌, ◌^◌, ◌<◌, IfOk, OnErr};
ghost use Rattle.std.specs.Arc.{arc_value};
ghost use Rattle.net_types.specs.Refusals.{Answers};
ghost use Rattle.net_versions.specs.Changes.{change_refusal, changed};

use super::change::{Change, apply};
use super::pin::Pin;
use net_types::{NetFault, Network};
use no_memory::NoMemory;
use std::alloc::Global;
use std::marker::Model;
use std::sync::Arc;

/// A network that changes, and the number of its changes so far. While nobody holds a pin of the network as it is now, a
/// change is made in place; otherwise one copy is made, which the next changes find.
#[derive(Drop)]
pub struct Versions {
    alloc: Global,
    version: u32,
    net: Arc<Network>,
}

impl Model for Versions {
    ghost use Rattle.std.specs.Arc.{arc_value};
    ghost use Rattle.net_versions.specs.VersionsValue.{VersionsValue};

    ghost Value = { VersionsValue };

    ghost view = { λ v. record { version = v.version; net = arc_value v.net } };
}

impl Versions {
    /// Version 0 of this network.
    pub fn new(alloc: Global, net: Network) -> Result<Versions, NoMemory>
        ensures { IfOk result (λ versions. versions ≡ record { version = 0; net = net }) }
    {
        Ok(Versions {
            alloc,
            version: 0,
            net: Arc::new(alloc, net)?,
        })
    }

    /// How many changes there were.
    pub fn version(&self) -> u32
        ensures { result ≡ self.now.version }
    {
        self.version
    }

    /// Changes the network, and gives the version after it. A change that is refused leaves all as it was.
    pub fn change(&mut self, change: Change) -> Result<u32, NetFault>
        requires few { self.old.version + 1 < 2 ^ 32 }
        ensures answer { Answers result (change_refusal self.old.net change) }
        ensures ok { IfOk result (λ version. (version ≡ self.old.version + 1) × (self.new ≡ record { version = version; net = changed self.old.net change })) }
        ensures err { OnErr result (self.new ≡ self.old) }
    {
        change_shared(self.alloc, &mut self.net, change)?;
        self.version += 1;
        Ok(self.version)
    }

    /// The network as it is now, with its version.
    pub fn pin(&mut self) -> Result<Pin, NoMemory>
        ensures pin { IfOk result (λ pin. (pin.version ≡ self.old.version) × (arc_value pin.net ≡ self.old.net)) }
        ensures stays { self.new ≡ self.old }
    {
        Ok(Pin {
            version: self.version,
            net: self.net.clone()?,
        })
    }

    /// Gives a pin back. Its network is let go where nobody else has it.
    pub fn unpin(&mut self, pin: Pin)
        ensures { self.new ≡ self.old }
    {
        drop(pin);
    }
}

/// Changes the network in place where it has no other owner, and otherwise a copy that takes its place.
fn change_shared(alloc: Global, net: &mut Arc<Network>, change: Change) -> Result<(), NetFault>
    ensures answer { Answers result (change_refusal (arc_value net.old) change) }
    ensures value { IfOk result (λ _. arc_value net.new ≡ changed (arc_value net.old) change) }
    ensures err { OnErr result (arc_value net.new ≡ arc_value net.old) }
{
    if let Some(own) = Arc::get_mut(net) {
        return apply(own, change);
    }
    let mut copy = net.copy()?;
    let outcome = apply(&mut copy, change);
    // The copy stays also where the change was refused, so that the next one finds it.
    *net = Arc::new(alloc, copy)?;
    outcome
}
