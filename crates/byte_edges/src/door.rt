//! Where lines come from.
ghost use Rattle.std.specs.Prelude.{◌≡◌, ℕ, ◌≤◌, List, Option, IfOk, OnOk, OnErr, OnSome, MatchOption, IsErrOf};
ghost use Rattle.byte_edges.specs.Counts.{raised, Rose};
ghost use Rattle.byte_edges.specs.Opening.{GivesFirst, with_last};

use crate::{EdgeFault, Line};

/// Gives lines in order until it is shut, and takes each of them back once it is served.
pub trait Door {
    type Conn: Line;

    /// The lines that are left, where the door tells them.
    ghost lines: { Self → Option (List Self.Conn) };

    /// The lines that were given back, in order, where the door tells them.
    ghost back: { Self → Option (List Self.Conn) };

    /// The latest accept gave a line, which was not given back since.
    ghost lent: { Self → Type 0 };

    /// How often it has failed.
    ghost faults: { Self → ℕ };

    /// How many lines its accepts gave.
    ghost given: { Self → ℕ };

    /// How often it answered `None`.
    ghost shut: { Self → ℕ };

    /// The next line, or `None` where the door is shut.
    fn accept(&mut self) -> Result<Option<Self::Conn>, EdgeFault>
        ensures first { IfOk result (λ answer. GivesFirst (lines self.old) (lines self.new) answer) }
        ensures back { back self.new ≡ back self.old }
        ensures lent { IfOk result (λ answer. OnSome answer (lent self.new)) }

        // A line and a `None` are counted, each by its own count.
        ensures given { IfOk result (λ answer. MatchOption answer (given self.new ≡ given self.old) (λ _. given self.new ≡ raised (given self.old) 1)) }
        ensures shut { IfOk result (λ answer. MatchOption answer (shut self.new ≡ raised (shut self.old) 1) (λ _. shut self.new ≡ shut self.old)) }

        // A fault gives nothing.
        ensures kept { OnErr result (lines self.new ≡ lines self.old) }
        ensures none_given { OnErr result (given self.new ≡ given self.old) }
        ensures not_shut { OnErr result (shut self.new ≡ shut self.old) }

        // `Failed` is answered only where the door failed, and every other answer only where it did not.
        ensures failed { IsErrOf result EdgeFault.Failed → Rose (faults self.old) (faults self.new) }
        ensures steady { OnOk result (faults self.new ≡ faults self.old) }
        ensures steady_memory { IsErrOf result EdgeFault.NoMemory → faults self.new ≡ faults self.old }
        ensures no_fall { faults self.old ≤ faults self.new };

    /// Gives back the line of the latest accept. A real door closes it.
    fn done(&mut self, conn: Self::Conn)
        requires { lent self.old }
        ensures back { back self.new ≡ with_last (back self.old) conn }
        ensures lines { lines self.new ≡ lines self.old }
        ensures faults { faults self.new ≡ faults self.old }
        ensures given { given self.new ≡ given self.old }
        ensures shut { shut self.new ≡ shut self.old };
}
