//! A line in memory, for tests of what serves one.
ghost use Rattle.std.specs.Prelude.{◌≡◌, ◌↔◌, ℕ, ◌<◌, ◌≤◌, ◌⊎◌, [], Some, length, take, min, refl, IfOk, OnOk, OnErr, IsErr, IfSome, IsErrOf};
ghost use Rattle.byte_edges.specs.Counts.{raised, Rose};
ghost use Rattle.byte_edges.specs.Reading.{Gave};
ghost use Rattle.byte_edges.specs.Writing.{Took};
ghost use Rattle.byte_edges.specs.InMemory.{LineInMemory};
ghost use Rattle.byte_edges.specs.Scheduled.{failed, called, NextFails};

use crate::{EdgeFault, Line, MemSink, MemSource, Sink, Source};
use std::marker::Model;

/// A source and a sink in memory as one line.
#[derive(Drop)]
pub struct MemLine {
    source: MemSource,
    sink: MemSink,
}

impl Model for MemLine {
    ghost use Rattle.byte_edges.specs.InMemory.{LineInMemory};

    ghost Value = { LineInMemory };

    ghost view = { λ line. record { source = line.source; sink = line.sink } };
}

impl MemLine {
    pub fn new(source: MemSource, sink: MemSink) -> Self
        ensures source { result.source ≡ source }
        ensures sink { result.sink ≡ sink }
    {
        MemLine { source, sink }
    }

    /// All the bytes that it took.
    pub fn taken(&self) -> &[u8]
        ensures { result.now ≡ self.now.sink.taken }
    {
        self.sink.taken()
    }
}

impl Source for MemLine {
    ghost left = { λ line. Some line.source.left };

    ghost faults = { λ line. failed line.source.plan };

    ghost given = { λ line. line.source.given };

    ghost ends = { λ line. line.source.ends };

    ghost beside = { λ line. record { taken = Some line.sink.taken; faults = failed line.sink.plan } };

    fn read(&mut self, into: &mut [u8]) -> Result<usize, EdgeFault>
        ensures room { IfOk result (λ n. n ≤ length into.old) }
        ensures gave { IfOk result (λ n. Gave (λ (line : LineInMemory). Some line.source.left) (λ line. line.source.given) self.old self.new (take n into.new)) }
        ensures end { IfOk result (λ n. 0 < length into.old → IfSome (Some self.old.source.left) (λ told. (n ≡ 0) ↔ (told ≡ []))) }
        ensures ended { IfOk result (λ n. n ≡ 0 → 0 < length into.old → self.new.source.ends ≡ raised self.old.source.ends 1) }
        ensures not_ended { IfOk result (λ n. (0 < n) ⊎ (length into.old ≡ 0) → self.new.source.ends ≡ self.old.source.ends) }
        ensures kept { OnErr result (Some self.new.source.left ≡ Some self.old.source.left) }
        ensures none_given { OnErr result (self.new.source.given ≡ self.old.source.given) }
        ensures no_end { OnErr result (self.new.source.ends ≡ self.old.source.ends) }
        ensures failed { IsErrOf result EdgeFault.Failed → Rose (failed self.old.source.plan) (failed self.new.source.plan) }
        ensures steady { OnOk result (failed self.new.source.plan ≡ failed self.old.source.plan) }
        ensures steady_memory { IsErrOf result EdgeFault.NoMemory → failed self.new.source.plan ≡ failed self.old.source.plan }
        ensures no_fall { failed self.old.source.plan ≤ failed self.new.source.plan }
        ensures aside { self.new.sink ≡ self.old.sink }

        // It reads its source.
        ensures fails { IsErr result ↔ NextFails self.old.source.plan }
        ensures into { OnErr result (into.new ≡ into.old) }
        ensures ample { IfOk result (λ n. n ≡ min self.old.source.most (min (length into.old) (length self.old.source.left))) }
        ensures called { self.new.source.plan ≡ called self.old.source.plan }
        ensures most { self.new.source.most ≡ self.old.source.most }
    {
        self.source.read(into)
    }
}

impl Sink for MemLine {
    ghost taken = { λ line. Some line.sink.taken };

    ghost faults = { λ line. failed line.sink.plan };

    ghost beside = { λ line. record { left = Some line.source.left; faults = failed line.source.plan; given = line.source.given; ends = line.source.ends } };

    fn write(&mut self, piece: &[u8]) -> Result<usize, EdgeFault>
        ensures within { IfOk result (λ n. n ≤ length piece.now) }
        ensures some { IfOk result (λ n. 0 < length piece.now → 0 < n) }
        ensures took { IfOk result (λ n. Took (Some self.old.sink.taken) (Some self.new.sink.taken) (take n piece.now)) }
        ensures kept { OnErr result (Some self.new.sink.taken ≡ Some self.old.sink.taken) }
        ensures failed { IsErrOf result EdgeFault.Failed → Rose (failed self.old.sink.plan) (failed self.new.sink.plan) }
        ensures steady { OnOk result (failed self.new.sink.plan ≡ failed self.old.sink.plan) }
        ensures steady_memory { IsErrOf result EdgeFault.NoMemory → failed self.new.sink.plan ≡ failed self.old.sink.plan }
        ensures no_fall { failed self.old.sink.plan ≤ failed self.new.sink.plan }
        ensures aside { self.new.source ≡ self.old.source }

        // It writes to its sink.
        ensures fails { IsErrOf result EdgeFault.Failed ↔ NextFails self.old.sink.plan }
        ensures ample { IfOk result (λ n. n ≡ min self.old.sink.most (length piece.now)) }
        ensures called { self.new.sink.plan ≡ called self.old.sink.plan }
        ensures most { self.new.sink.most ≡ self.old.sink.most }
    {
        self.sink.write(piece)
    }
}

impl Line for MemLine {
    ghost read_keeps = { λ _. refl };

    ghost write_keeps = { λ _. refl };
}
