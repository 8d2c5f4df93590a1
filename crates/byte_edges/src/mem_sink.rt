//! A sink in memory, for tests of what writes to one.
ghost use Rattle.std.specs.Prelude.{◌≡◌, ◌↔◌, ℕ, ◌<◌, ◌≤◌, [], Some, length, take, min, IfOk, OnOk, OnErr, IsErrOf, IsPermutation};
ghost use Rattle.byte_edges.specs.Counts.{Rose};
ghost use Rattle.byte_edges.specs.Writing.{Took};
ghost use Rattle.byte_edges.specs.Scheduled.{failed, called, NextFails};

use crate::schedule::Schedule;
use crate::{EdgeFault, Sink};
use std::alloc::Global;
use std::marker::Model;

/// Keeps what it takes in memory. It takes pieces of a bounded size, and its writes fail as listed.
#[derive(Drop)]
pub struct MemSink {
    taken: Vec<u8>,
    most: usize,
    schedule: Schedule,
}

impl Model for MemSink {
    ghost use Rattle.std.specs.Prelude.{◌≤◌};
    ghost use Rattle.byte_edges.specs.InMemory.{SinkInMemory};

    ghost Value = { SinkInMemory };

    ghost view = { λ s. record { taken = s.taken.items; most = s.most; plan = s.schedule } };

    ghost invariant = { λ s. 1 ≤ s.most };
}

impl MemSink {
    /// A sink that has taken nothing. A write takes at most `most` bytes, and `fails` lists the numbers of the writes that
    /// fail, counted from 1.
    pub fn new(alloc: Global, most: usize, fails: Vec<u64>) -> Self
        requires { 1 ≤ most }
        ensures taken { result.taken ≡ [] }
        ensures most { result.most ≡ most }
        ensures fails { IsPermutation fails.items result.plan.fails }
        ensures never { fails.items ≡ [] → result.plan.fails ≡ [] }
        ensures calls { result.plan.calls ≡ 0 }
        ensures faults { failed result.plan ≡ 0 }
    {
        MemSink {
            taken: Vec::new(alloc),
            most,
            schedule: Schedule::new(fails),
        }
    }

    /// All the bytes that it took.
    pub fn taken(&self) -> &[u8]
        ensures { result.now ≡ self.now.taken }
    {
        &self.taken
    }
}

impl Sink for MemSink {
    ghost taken = { λ s. Some s.taken };

    ghost faults = { λ s. failed s.plan };

    fn write(&mut self, piece: &[u8]) -> Result<usize, EdgeFault>
        ensures within { IfOk result (λ n. n ≤ length piece.now) }
        ensures some { IfOk result (λ n. 0 < length piece.now → 0 < n) }
        ensures took { IfOk result (λ n. Took (Some self.old.taken) (Some self.new.taken) (take n piece.now)) }
        ensures kept { OnErr result (Some self.new.taken ≡ Some self.old.taken) }
        ensures failed { IsErrOf result EdgeFault.Failed → Rose (failed self.old.plan) (failed self.new.plan) }
        ensures steady { OnOk result (failed self.new.plan ≡ failed self.old.plan) }
        ensures steady_memory { IsErrOf result EdgeFault.NoMemory → failed self.new.plan ≡ failed self.old.plan }
        ensures no_fall { failed self.old.plan ≤ failed self.new.plan }

        // It fails exactly where this write is listed, and otherwise takes as many bytes as it can, or finds no memory.
        ensures fails { IsErrOf result EdgeFault.Failed ↔ NextFails self.old.plan }
        ensures ample { IfOk result (λ n. n ≡ min self.old.most (length piece.now)) }
        ensures called { self.new.plan ≡ called self.old.plan }
        ensures most { self.new.most ≡ self.old.most }
    {
        if self.schedule.next_fails() {
            return Err(EdgeFault::Failed);
        }
        let n = self.most.min(piece.len());
        self.taken.extend_from_slice(&piece[..n])?;
        Ok(n)
    }
}
