ghost use Rattle.std.specs.Prelude.{◌≡◌};
ghost use Rattle.net_types.specs.declared.fault.NetFault.TheVariants as faults;

use no_memory::NoMemory;
use std::alloc::{AllocError, AllocFailed};

/// Why a network doesn't take a part.
#[derive(Clone, Copy, Debug, PartialEq, Eq)]
pub enum NetFault {
    /// The number is in use for such a thing already.
    Twice,
    /// What is named isn't there.
    Unknown,
    /// There are as many already as there may be.
    Limit,
    /// It isn't as wide as the network.
    Width,
    /// The port has a terminal.
    PortTaken,
    /// One of the ports has a link, or both are one port.
    LinkTaken,
    /// A link would meet a terminal at a port.
    EdgeLinked,
    /// There was no memory left.
    NoMemory,
}

impl From<NoMemory> for NetFault {
    ghost from_gives = { λ _ fault. fault ≡ faults.NoMemory };

    fn from(_: NoMemory) -> Self {
        NetFault::NoMemory
    }
}

impl From<AllocError> for NetFault {
    ghost from_gives = { λ _ fault. fault ≡ faults.NoMemory };

    fn from(_: AllocError) -> Self {
        NetFault::NoMemory
    }
}

impl<T: Drop> From<AllocFailed<T>> for NetFault {
    ghost from_gives = { λ _ fault. fault ≡ faults.NoMemory };

    fn from(_: AllocFailed<T>) -> Self {
        NetFault::NoMemory
    }
}
