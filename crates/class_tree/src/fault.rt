ghost use Rattle.std.specs.Prelude.{◌≡◌};
ghost use Rattle.class_tree.specs.declared.fault.GrowFault.TheVariants as faults;

use no_memory::NoMemory;
use std::alloc::{AllocError, AllocFailed};

/// Why a class was not grown.
#[derive(Clone, Copy, Debug, PartialEq, Eq)]
pub enum GrowFault {
    /// More entries would be found than this limit.
    Full { limit: u32 },
    NoMemory,
}

impl From<NoMemory> for GrowFault {
    ghost from_gives = { λ _ fault. fault ≡ faults.NoMemory };

    fn from(_: NoMemory) -> Self {
        GrowFault::NoMemory
    }
}

impl From<AllocError> for GrowFault {
    ghost from_gives = { λ _ fault. fault ≡ faults.NoMemory };

    fn from(_: AllocError) -> Self {
        GrowFault::NoMemory
    }
}

impl<T: Drop> From<AllocFailed<T>> for GrowFault {
    ghost from_gives = { λ _ fault. fault ≡ faults.NoMemory };

    fn from(_: AllocFailed<T>) -> Self {
        GrowFault::NoMemory
    }
}
