//! A sink over a writer of std.
ghost use Rattle.std.specs.Prelude.{◌≡◌, ◌≤◌, ◌<◌, None, length, take, IfOk, OnOk, OnErr, IsErrOf};
ghost use Rattle.std.specs.Io.KnownBytes.{WriteAppends};
ghost use Rattle.byte_edges.specs.Counts.{raised};

use crate::counts::count_fault;
use crate::fault::{TRIES, settled};
use crate::{EdgeFault, Sink};
use std::io::Write;
use std::marker::Model;

/// A writer of std as a sink. It does not tell what it took.
#[derive(Drop)]
pub struct StdSink<W: Write> {
    inner: W,
    faults: u64,
}

impl<W: Write> Model for StdSink<W> {
    ghost use Rattle.byte_edges.specs.OverStd.{SinkOverWriter};

    ghost Value = { SinkOverWriter };

    ghost view = { λ s. record { contents = W.contents s.inner; faults = s.faults } };
}

impl<W: Write> StdSink<W> {
    pub fn new(inner: W) -> Self
        ensures contents { result.contents ≡ W.contents inner }
        ensures faults { result.faults ≡ 0 }
    {
        StdSink { inner, faults: 0 }
    }
}

impl<W: Write> Sink for StdSink<W> {
    ghost taken = { λ _. None };

    ghost faults = { λ s. s.faults };

    fn write(&mut self, piece: &[u8]) -> Result<usize, EdgeFault>
        ensures within { IfOk result (λ n. n ≤ length piece.now) }
        ensures some { IfOk result (λ n. 0 < length piece.now → 0 < n) }

        // A failure is counted once.
        ensures failed { IsErrOf result EdgeFault.Failed → self.new.faults ≡ raised self.old.faults 1 }
        ensures steady { OnOk result (self.new.faults ≡ self.old.faults) }
        ensures steady_memory { IsErrOf result EdgeFault.NoMemory → self.new.faults ≡ self.old.faults }

        // The writer holds the first bytes of the piece in addition, and none of them after a fault.
        ensures passed { WriteAppends self.old.contents self.new.contents result piece.now }
    {
        let answer = write_through(&mut self.inner, piece);
        self.faults = count_fault(self.faults, &answer);
        answer
    }
}

/// One write, tried again a few times where a signal interrupts it. To take nothing of some bytes is a failure.
pub(crate) fn write_through<W: Write>(writer: &mut W, piece: &[u8]) -> Result<usize, EdgeFault>
    ensures within { IfOk result (λ n. n ≤ length piece.now) }
    ensures some { IfOk result (λ n. 0 < length piece.now → 0 < n) }
    ensures passed { WriteAppends (W.contents writer.old) (W.contents writer.new) result piece.now }
{
    for _ in 0..TRIES {
        match settled(writer.write(piece)) {
            Some(Ok(0)) if !piece.is_empty() => return Err(EdgeFault::Failed),
            Some(answer) => return answer,
            None => {}
        }
    }
    Err(EdgeFault::Failed)
}

#[cfg(test)]
mod tests;
