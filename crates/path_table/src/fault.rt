ghost use Rattle.std.specs.Prelude.{◌≡◌};
ghost use Rattle.path_table.specs.declared.fault.TableFault.TheVariants as faults;

use no_memory::NoMemory;
use std::alloc::AllocError;

/// Why there is no table.
#[derive(Clone, Copy, Debug, PartialEq, Eq)]
pub enum TableFault {
    /// It would have more entries than this limit.
    TableFull { limit: u32 },
    NoMemory,
}

impl From<NoMemory> for TableFault {
    ghost from_gives = { λ _ fault. fault ≡ faults.NoMemory };

    fn from(_: NoMemory) -> Self {
        TableFault::NoMemory
    }
}

impl From<AllocError> for TableFault {
    ghost from_gives = { λ _ fault. fault ≡ faults.NoMemory };

    fn from(_: AllocError) -> Self {
        TableFault::NoMemory
    }
}
