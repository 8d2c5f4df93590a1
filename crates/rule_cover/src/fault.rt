ghost use Rattle.std.specs.Prelude.{◌≡◌};
ghost use Rattle.rule_cover.specs.declared.fault.PlanFault.TheVariants as faults;

use no_memory::NoMemory;
use path_table::TableFault;
use std::alloc::AllocError;

/// Why there is no plan.
#[derive(Clone, Copy, Debug, PartialEq, Eq)]
pub enum PlanFault {
    /// The table has more entries than this limit.
    TableFull { limit: u32 },
    NoMemory,
}

impl From<NoMemory> for PlanFault {
    ghost from_gives = { λ _ fault. fault ≡ faults.NoMemory };

    fn from(_: NoMemory) -> Self {
        PlanFault::NoMemory
    }
}

impl From<AllocError> for PlanFault {
    ghost from_gives = { λ _ fault. fault ≡ faults.NoMemory };

    fn from(_: AllocError) -> Self {
        PlanFault::NoMemory
    }
}

impl From<TableFault> for PlanFault {
    ghost use Rattle.rule_cover.specs.Faults.{without_table};

    ghost from_gives = { λ table fault. fault ≡ without_table table };

    fn from(fault: TableFault) -> Self {
        match fault {
            TableFault::TableFull { limit } => PlanFault::TableFull { limit },
            TableFault::NoMemory => PlanFault::NoMemory,
        }
    }
}
