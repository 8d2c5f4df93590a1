//! A line over a connection of the system.
ghost use Rattle.std.specs.Prelude.{◌≡◌, ◌≤◌, ◌<◌, ◌⊎◌, None, length, take, refl, IfOk, OnOk, OnErr, IsErrOf};
ghost use Rattle.byte_edges.specs.Counts.{raised};
ghost use Rattle.byte_edges.specs.OverStd.{LineOverSocket, untouched_line};
ghost use Rattle.byte_edges.specs.Reading.{Gave};

use crate::counts::{Reads, count_fault};
use crate::std_sink::write_through;
use crate::std_source::read_through;
use crate::{EdgeFault, Line, Sink, Source};
use std::marker::Model;
use std::net::TcpStream;

/// A TCP connection that a `TcpDoor` accepted. It tells neither what is left nor what it took.
#[derive(Drop)]
pub struct TcpLine {
    stream: TcpStream,
    reads: Reads,
    write_faults: u64,
}

impl Model for TcpLine {
    ghost use Rattle.byte_edges.specs.OverStd.{LineOverSocket};

    ghost Value = { LineOverSocket };

    ghost view = { λ line. record { faults = line.reads.faults; given = line.reads.given; ends = line.reads.ends; write_faults = line.write_faults } };
}

impl TcpLine {
    pub(crate) fn new(stream: TcpStream) -> Self
        ensures { result ≡ untouched_line }
    {
        TcpLine {
            stream,
            reads: Reads::NONE,
            write_faults: 0,
        }
    }
}

impl Source for TcpLine {
    ghost left = { λ _. None };

    ghost faults = { λ line. line.faults };

    ghost given = { λ line. line.given };

    ghost ends = { λ line. line.ends };

    ghost beside = { λ line. record { taken = None; faults = line.write_faults } };

    fn read(&mut self, into: &mut [u8]) -> Result<usize, EdgeFault>
        ensures room { IfOk result (λ n. n ≤ length into.old) }
        ensures gave { IfOk result (λ n. Gave (λ (_ : LineOverSocket). None) (λ line. line.given) self.old self.new (take n into.new)) }
        ensures ended { IfOk result (λ n. n ≡ 0 → 0 < length into.old → self.new.ends ≡ raised self.old.ends 1) }
        ensures not_ended { IfOk result (λ n. (0 < n) ⊎ (length into.old ≡ 0) → self.new.ends ≡ self.old.ends) }
        ensures none_given { OnErr result (self.new.given ≡ self.old.given) }
        ensures no_end { OnErr result (self.new.ends ≡ self.old.ends) }

        // A failure is counted once, among those of the reads.
        ensures failed { IsErrOf result EdgeFault.Failed → self.new.faults ≡ raised self.old.faults 1 }
        ensures steady { OnOk result (self.new.faults ≡ self.old.faults) }
        ensures steady_memory { IsErrOf result EdgeFault.NoMemory → self.new.faults ≡ self.old.faults }
        ensures aside { self.new.write_faults ≡ self.old.write_faults }
    {
        let answer = read_through(&mut self.stream, into);
        self.reads.count(&answer, into.len());
        answer
    }
}

impl Sink for TcpLine {
    ghost taken = { λ _. None };

    ghost faults = { λ line. line.write_faults };

    ghost beside = { λ line. record { left = None; faults = line.faults; given = line.given; ends = line.ends } };

    fn write(&mut self, piece: &[u8]) -> Result<usize, EdgeFault>
        ensures within { IfOk result (λ n. n ≤ length piece.now) }
        ensures some { IfOk result (λ n. 0 < length piece.now → 0 < n) }

        // A failure is counted once, among those of the writes.
        ensures failed { IsErrOf result EdgeFault.Failed → self.new ≡ record self.old { write_faults = raised self.old.write_faults 1 } }
        ensures steady { OnOk result (self.new ≡ self.old) }
        ensures steady_memory { IsErrOf result EdgeFault.NoMemory → self.new ≡ self.old }
    {
        let answer = write_through(&mut self.stream, piece);
        self.write_faults = count_fault(self.write_faults, &answer);
        answer
    }
}

impl Line for TcpLine {
    ghost read_keeps = { λ _. refl };

    ghost write_keeps = { λ _. refl };
}

#[cfg(test)]
mod tests;
