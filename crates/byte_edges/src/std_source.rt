//! A source over a reader of std.
ghost use Rattle.std.specs.Prelude.{◌≡◌, ◌≤◌, ◌<◌, ◌⊎◌, None, length, take, IfOk, OnOk, OnErr, IsErrOf};
ghost use Rattle.std.specs.Io.KnownBytes.{ReadConsumes};
ghost use Rattle.byte_edges.specs.Counts.{raised};
ghost use Rattle.byte_edges.specs.OverStd.{SourceOverReader};
ghost use Rattle.byte_edges.specs.Reading.{Gave};

use crate::counts::Reads;
use crate::fault::{TRIES, settled};
use crate::{EdgeFault, Source};
use std::io::Read;
use std::marker::Model;

/// A reader of std as a source. It does not tell what is left.
#[derive(Drop)]
pub struct StdSource<R: Read> {
    inner: R,
    reads: Reads,
}

impl<R: Read> Model for StdSource<R> {
    ghost use Rattle.byte_edges.specs.OverStd.{SourceOverReader};

    ghost Value = { SourceOverReader };

    ghost view = { λ s. record { remaining = R.remaining s.inner; faults = s.reads.faults; given = s.reads.given; ends = s.reads.ends } };
}

impl<R: Read> StdSource<R> {
    pub fn new(inner: R) -> Self
        ensures remaining { result.remaining ≡ R.remaining inner }
        ensures faults { result.faults ≡ 0 }
        ensures given { result.given ≡ 0 }
        ensures ends { result.ends ≡ 0 }
    {
        StdSource {
            inner,
            reads: Reads::NONE,
        }
    }
}

impl<R: Read> Source for StdSource<R> {
    ghost left = { λ _. None };

    ghost faults = { λ s. s.faults };

    ghost given = { λ s. s.given };

    ghost ends = { λ s. s.ends };

    fn read(&mut self, into: &mut [u8]) -> Result<usize, EdgeFault>
        ensures room { IfOk result (λ n. n ≤ length into.old) }
        ensures gave { IfOk result (λ n. Gave (λ (_ : SourceOverReader). None) (λ s. s.given) self.old self.new (take n into.new)) }
        ensures ended { IfOk result (λ n. n ≡ 0 → 0 < length into.old → self.new.ends ≡ raised self.old.ends 1) }
        ensures not_ended { IfOk result (λ n. (0 < n) ⊎ (length into.old ≡ 0) → self.new.ends ≡ self.old.ends) }
        ensures none_given { OnErr result (self.new.given ≡ self.old.given) }
        ensures no_end { OnErr result (self.new.ends ≡ self.old.ends) }

        // A failure is counted once.
        ensures failed { IsErrOf result EdgeFault.Failed → self.new.faults ≡ raised self.old.faults 1 }
        ensures steady { OnOk result (self.new.faults ≡ self.old.faults) }
        ensures steady_memory { IsErrOf result EdgeFault.NoMemory → self.new.faults ≡ self.old.faults }

        // The bytes are the next ones of the reader, and a fault takes none of them.
        ensures passed { ReadConsumes self.old.remaining self.new.remaining result into.new }
    {
        let answer = read_through(&mut self.inner, into);
        self.reads.count(&answer, into.len());
        answer
    }
}

/// One read, tried again a few times where a signal interrupts it.
pub(crate) fn read_through<R: Read>(reader: &mut R, into: &mut [u8]) -> Result<usize, EdgeFault>
    ensures room { IfOk result (λ n. n ≤ length into.old) }
    ensures passed { ReadConsumes (R.remaining reader.old) (R.remaining reader.new) result into.new }
{
    for _ in 0..TRIES {
        if let Some(answer) = settled(reader.read(into)) {
            return answer;
        }
    }
    Err(EdgeFault::Failed)
}

#[cfg(test)]
mod tests;
