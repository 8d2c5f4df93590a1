//! A network that carries packets between terminals.
ghost use Rattle.std.specs.Prelude.{◌≡◌, ℕ, ◌≤◌, List, Option, length, IfOk, OnOk, OnErr, IfSome, MatchOption, IsErrOf};
ghost use Rattle.byte_edges.specs.Counts.{raised, Rose};
ghost use Rattle.byte_edges.specs.Links.{TakesAt, with_sent};

use crate::EdgeFault;

/// Carries packets between terminals. A packet waits at a terminal until it is taken there.
pub trait Link {
    /// The packets that wait, each with its terminal, in order, where the link tells them.
    ghost waiting: { Self → Option (List (ℕ × List ℕ)) };

    /// The packets that wait in addition after a send of these bytes at this terminal. The rule stays what it is.
    ghost adds: { Self → ℕ → List ℕ → List (ℕ × List ℕ) };

    /// How often it has failed.
    ghost faults: { Self → ℕ };

    /// How many of its sends answered `Ok`.
    ghost sent: { Self → ℕ };

    /// How many packets its takes gave.
    ghost given: { Self → ℕ };

    /// How often it answered `None`.
    ghost dry: { Self → ℕ };

    /// Sends a packet from a terminal.
    fn send(&mut self, term: u32, packet: &[u8]) -> Result<(), EdgeFault>
        ensures added { OnOk result (waiting self.new ≡ with_sent (waiting self.old) (adds self.old term packet.now)) }
        ensures kept { OnErr result (waiting self.new ≡ waiting self.old) }
        ensures rule { adds self.new ≡ adds self.old }

        // A send that answers `Ok` is counted, and nothing else.
        ensures sent { OnOk result (sent self.new ≡ raised (sent self.old) 1) }
        ensures not_sent { OnErr result (sent self.new ≡ sent self.old) }
        ensures given { given self.new ≡ given self.old }
        ensures dry { dry self.new ≡ dry self.old }

        // `Failed` is answered only where the link failed, and every other answer only where it did not.
        ensures failed { IsErrOf result EdgeFault.Failed → Rose (faults self.old) (faults self.new) }
        ensures steady { OnOk result (faults self.new ≡ faults self.old) }
        ensures steady_memory { IsErrOf result EdgeFault.NoMemory → faults self.new ≡ faults self.old }
        ensures no_fall { faults self.old ≤ faults self.new };

    /// Moves the first 64 bytes at most of the first packet that waits at a terminal to the front of `into`, and answers how
    /// many, or `None` where no packet waits there.
    fn take(&mut self, term: u32, into: &mut [u8]) -> Result<Option<usize>, EdgeFault>
        requires { length into.old ≡ 64 }
        ensures taken { IfOk result (λ answer. TakesAt term (waiting self.old) (waiting self.new) answer into.new) }
        ensures room { IfOk result (λ answer. IfSome answer (λ n. n ≤ 64)) }
        ensures kept { OnErr result (waiting self.new ≡ waiting self.old) }
        ensures rule { adds self.new ≡ adds self.old }

        // A packet and a `None` are counted, each by its own count.
        ensures given { IfOk result (λ answer. MatchOption answer (given self.new ≡ given self.old) (λ _. given self.new ≡ raised (given self.old) 1)) }
        ensures dry { IfOk result (λ answer. MatchOption answer (dry self.new ≡ raised (dry self.old) 1) (λ _. dry self.new ≡ dry self.old)) }
        ensures none_given { OnErr result (given self.new ≡ given self.old) }
        ensures not_dry { OnErr result (dry self.new ≡ dry self.old) }
        ensures sent { sent self.new ≡ sent self.old }

        // `Failed` is answered only where the link failed, and every other answer only where it did not.
        ensures failed { IsErrOf result EdgeFault.Failed → Rose (faults self.old) (faults self.new) }
        ensures steady { OnOk result (faults self.new ≡ faults self.old) }
        ensures steady_memory { IsErrOf result EdgeFault.NoMemory → faults self.new ≡ faults self.old }
        ensures no_fall { faults self.old ≤ faults self.new };
}
