//! Where bytes go.
ghost use Rattle.std.specs.Prelude.{◌≡◌, None, ℕ, ◌<◌, ◌≤◌, List, Option, length, take, IfOk, OnOk, OnErr, IsErrOf};
ghost use Rattle.byte_edges.specs.Sides.{SourceSide};
ghost use Rattle.byte_edges.specs.Counts.{Rose};
ghost use Rattle.byte_edges.specs.Writing.{Took};

use crate::EdgeFault;

/// What takes bytes in order.
pub trait Sink {
    /// The bytes that it took, where the sink tells them.
    ghost taken: { Self → Option (List ℕ) };

    /// How often it has failed.
    ghost faults: { Self → ℕ };

    /// What it is besides a sink, as a line is a source too. A write leaves that as it is.
    ghost beside: { Self → SourceSide } = { λ _. record { left = None; faults = 0; given = 0; ends = 0 } };

    /// Takes the first bytes of `piece`, at least one unless it is empty, and answers how many.
    fn write(&mut self, piece: &[u8]) -> Result<usize, EdgeFault>
        ensures within { IfOk result (λ n. n ≤ length piece.now) }
        ensures some { IfOk result (λ n. 0 < length piece.now → 0 < n) }
        ensures took { IfOk result (λ n. Took (taken self.old) (taken self.new) (take n piece.now)) }

        // A fault takes nothing.
        ensures kept { OnErr result (taken self.new ≡ taken self.old) }

        // `Failed` is answered only where the sink failed, and every other answer only where it did not.
        ensures failed { IsErrOf result EdgeFault.Failed → Rose (faults self.old) (faults self.new) }
        ensures steady { OnOk result (faults self.new ≡ faults self.old) }
        ensures steady_memory { IsErrOf result EdgeFault.NoMemory → faults self.new ≡ faults self.old }
        ensures no_fall { faults self.old ≤ faults self.new }
        ensures aside { beside self.new ≡ beside self.old };
}
