ghost use Rattle.std.specs.Prelude.{◌≡◌};
ghost use Rattle.trial_run.specs.declared.fault.TrialFault.TheVariants as faults;

use net_types::RuleId;
use no_memory::NoMemory;
use std::alloc::AllocError;

/// Why there is no trial.
#[derive(Clone, Copy, Debug, PartialEq, Eq)]
pub enum TrialFault {
    /// The network has no such rule.
    NoSuchRule { id: RuleId },
    /// The table has more entries than this limit.
    TableFull { limit: u32 },
    NoMemory,
}

impl From<NoMemory> for TrialFault {
    ghost from_gives = { λ _ fault. fault ≡ faults.NoMemory };

    fn from(_: NoMemory) -> Self {
        TrialFault::NoMemory
    }
}

impl From<AllocError> for TrialFault {
    ghost from_gives = { λ _ fault. fault ≡ faults.NoMemory };

    fn from(_: AllocError) -> Self {
        TrialFault::NoMemory
    }
}
