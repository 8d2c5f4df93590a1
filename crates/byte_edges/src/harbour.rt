//! Where doors come from.
ghost use Rattle.std.specs.Prelude.{◌≡◌, ℕ, ◌≤◌, List, Option, IfOk, OnOk, OnErr, IsErrOf};
ghost use Rattle.byte_edges.specs.Counts.{Rose};
ghost use Rattle.byte_edges.specs.Opening.{GivesNext};

use crate::{Door, EdgeFault};

/// Opens doors.
pub trait Harbour {
    type Made: Door + Send;

    /// The doors that are left, where the harbour tells them.
    ghost doors: { Self → Option (List Self.Made) };

    /// How often it has failed.
    ghost faults: { Self → ℕ };

    /// A door for that port.
    fn open(&mut self, port: u16) -> Result<Self::Made, EdgeFault>
        ensures first { IfOk result (λ door. GivesNext (doors self.old) (doors self.new) door) }
        ensures kept { OnErr result (doors self.new ≡ doors self.old) }

        // `Failed` is answered only where the harbour failed, and every other answer only where it did not.
        ensures failed { IsErrOf result EdgeFault.Failed → Rose (faults self.old) (faults self.new) }
        ensures steady { OnOk result (faults self.new ≡ faults self.old) }
        ensures steady_memory { IsErrOf result EdgeFault.NoMemory → faults self.new ≡ faults self.old }
        ensures no_fall { faults self.old ≤ faults self.new };
}
