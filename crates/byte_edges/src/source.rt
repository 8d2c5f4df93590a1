//! Where bytes come from.
ghost use Rattle.std.specs.Prelude.{◌≡◌, ◌↔◌, None, ℕ, ◌<◌, ◌≤◌, ◌⊎◌, List, [], Option, length, take, IfOk, OnOk, OnErr, IfSome, IsErrOf};
ghost use Rattle.byte_edges.specs.Sides.{SinkSide};
ghost use Rattle.byte_edges.specs.Counts.{raised, Rose};
ghost use Rattle.byte_edges.specs.Reading.{Gave};

use crate::EdgeFault;

/// Bytes that come in order, at most once each, until their end.
pub trait Source {
    /// The bytes that are left, where the source tells them.
    ghost left: { Self → Option (List ℕ) };

    /// How often it has failed.
    ghost faults: { Self → ℕ };

    /// How many bytes its reads gave.
    ghost given: { Self → ℕ };

    /// How often it answered `Ok(0)` for some room, which is its end.
    ghost ends: { Self → ℕ };

    /// What it is besides a source, as a line is a sink too. A read leaves that as it is.
    ghost beside: { Self → SinkSide } = { λ _. record { taken = None; faults = 0 } };

    /// Moves the first bytes that are left to the front of `into`, and answers how many. `Ok(0)` for some room is the end.
    fn read(&mut self, into: &mut [u8]) -> Result<usize, EdgeFault>
        ensures room { IfOk result (λ n. n ≤ length into.old) }
        ensures gave { IfOk result (λ n. Gave left given self.old self.new (take n into.new)) }
        ensures end { IfOk result (λ n. 0 < length into.old → IfSome (left self.old) (λ told. (n ≡ 0) ↔ (told ≡ []))) }

        // An answer `Ok(0)` for some room is counted as an end, and no other answer.
        ensures ended { IfOk result (λ n. n ≡ 0 → 0 < length into.old → ends self.new ≡ raised (ends self.old) 1) }
        ensures not_ended { IfOk result (λ n. (0 < n) ⊎ (length into.old ≡ 0) → ends self.new ≡ ends self.old) }

        // A fault takes nothing.
        ensures kept { OnErr result (left self.new ≡ left self.old) }
        ensures none_given { OnErr result (given self.new ≡ given self.old) }
        ensures no_end { OnErr result (ends self.new ≡ ends self.old) }

        // `Failed` is answered only where the source failed, and every other answer only where it did not.
        ensures failed { IsErrOf result EdgeFault.Failed → Rose (faults self.old) (faults self.new) }
        ensures steady { OnOk result (faults self.new ≡ faults self.old) }
        ensures steady_memory { IsErrOf result EdgeFault.NoMemory → faults self.new ≡ faults self.old }
        ensures no_fall { faults self.old ≤ faults self.new }
        ensures aside { beside self.new ≡ beside self.old };
}
