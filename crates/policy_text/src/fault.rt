ghost use Rattle.std.specs.Prelude.{◌≡◌};
ghost use Rattle.policy_text.specs.declared.fault.CheckFault.TheVariants as faults;

use no_memory::NoMemory;
use policy_check::PolicyFault;
use std::alloc::{AllocError, AllocFailed};

/// Why policies were not checked.
#[derive(Clone, Copy, Debug, PartialEq, Eq)]
pub enum CheckFault {
    /// A line is no policy of the network. Lines count from 1, after the line `policy`.
    BadPolicy { line: u64, fault: PolicyFault },
    NoMemory,
}

impl From<NoMemory> for CheckFault {
    ghost from_gives = { λ _ fault. fault ≡ faults.NoMemory };

    fn from(_: NoMemory) -> Self {
        CheckFault::NoMemory
    }
}

impl From<AllocError> for CheckFault {
    ghost from_gives = { λ _ fault. fault ≡ faults.NoMemory };

    fn from(_: AllocError) -> Self {
        CheckFault::NoMemory
    }
}

impl<T: Drop> From<AllocFailed<T>> for CheckFault {
    ghost from_gives = { λ _ fault. fault ≡ faults.NoMemory };

    fn from(_: AllocFailed<T>) -> Self {
        CheckFault::NoMemory
    }
}
