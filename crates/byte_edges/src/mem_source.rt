//! A source in memory, for tests of what reads one.
ghost use Rattle.std.specs.Prelude.{◌≡◌, ◌↔◌, ℕ, ◌<◌, ◌≤◌, ◌⊎◌, [], Some, length, take, min, IfOk, OnOk, OnErr, IsErr, IfSome, IsErrOf, IsPermutation};
ghost use Rattle.byte_edges.specs.Counts.{raised, Rose};
ghost use Rattle.byte_edges.specs.Reading.{Gave};
ghost use Rattle.byte_edges.specs.Scheduled.{failed, called, NextFails};
ghost use Rattle.byte_edges.specs.InMemory.{SourceInMemory};

use crate::counts::count_end;
use crate::schedule::Schedule;
use crate::{EdgeFault, Source};
use std::marker::Model;

/// Bytes in memory, given in pieces of a bounded size, with reads that fail as listed.
#[derive(Drop)]
pub struct MemSource {
    bytes: Vec<u8>,
    at: usize,
    most: usize,
    schedule: Schedule,
    ends: u64,
}

impl Model for MemSource {
    ghost use Rattle.std.specs.Prelude.{◌≤◌, drop, length};
    ghost use Rattle.byte_edges.specs.InMemory.{SourceInMemory};

    ghost Value = { SourceInMemory };

    ghost view = { λ s. record { left = drop s.at s.bytes.items; most = s.most; plan = s.schedule; given = s.at; ends = s.ends } };

    ghost invariant = { λ s. (s.at ≤ length s.bytes.items) × (1 ≤ s.most) };
}

impl MemSource {
    /// A source of these bytes. A read gives at most `most` of them, and `fails` lists the numbers of the reads that fail,
    /// counted from 1.
    pub fn new(bytes: Vec<u8>, most: usize, fails: Vec<u64>) -> Self
        requires { 1 ≤ most }
        ensures left { result.left ≡ bytes.items }
        ensures most { result.most ≡ most }
        ensures fails { IsPermutation fails.items result.plan.fails }
        ensures never { fails.items ≡ [] → result.plan.fails ≡ [] }
        ensures calls { result.plan.calls ≡ 0 }
        ensures faults { failed result.plan ≡ 0 }
        ensures given { result.given ≡ 0 }
        ensures ends { result.ends ≡ 0 }
    {
        MemSource {
            bytes,
            at: 0,
            most,
            schedule: Schedule::new(fails),
            ends: 0,
        }
    }
}

impl Source for MemSource {
    ghost left = { λ s. Some s.left };

    ghost faults = { λ s. failed s.plan };

    ghost given = { λ s. s.given };

    ghost ends = { λ s. s.ends };

    fn read(&mut self, into: &mut [u8]) -> Result<usize, EdgeFault>
        ensures room { IfOk result (λ n. n ≤ length into.old) }
        ensures gave { IfOk result (λ n. Gave (λ (s : SourceInMemory). Some s.left) (λ s. s.given) self.old self.new (take n into.new)) }
        ensures end { IfOk result (λ n. 0 < length into.old → IfSome (Some self.old.left) (λ told. (n ≡ 0) ↔ (told ≡ []))) }
        ensures ended { IfOk result (λ n. n ≡ 0 → 0 < length into.old → self.new.ends ≡ raised self.old.ends 1) }
        ensures not_ended { IfOk result (λ n. (0 < n) ⊎ (length into.old ≡ 0) → self.new.ends ≡ self.old.ends) }
        ensures kept { OnErr result (Some self.new.left ≡ Some self.old.left) }
        ensures none_given { OnErr result (self.new.given ≡ self.old.given) }
        ensures no_end { OnErr result (self.new.ends ≡ self.old.ends) }
        ensures failed { IsErrOf result EdgeFault.Failed → Rose (failed self.old.plan) (failed self.new.plan) }
        ensures steady { OnOk result (failed self.new.plan ≡ failed self.old.plan) }
        ensures steady_memory { IsErrOf result EdgeFault.NoMemory → failed self.new.plan ≡ failed self.old.plan }
        ensures no_fall { failed self.old.plan ≤ failed self.new.plan }

        // It fails exactly where this read is listed, and otherwise gives as many bytes as it can.
        ensures fails { IsErr result ↔ NextFails self.old.plan }
        ensures into { OnErr result (into.new ≡ into.old) }
        ensures ample { IfOk result (λ n. n ≡ min self.old.most (min (length into.old) (length self.old.left))) }
        ensures called { self.new.plan ≡ called self.old.plan }
        ensures most { self.new.most ≡ self.old.most }
    {
        if self.schedule.next_fails() {
            return Err(EdgeFault::Failed);
        }
        let left = &self.bytes[self.at..];
        let n = self.most.min(into.len()).min(left.len());
        into[..n].copy_from_slice(&left[..n]);
        self.at += n;
        self.ends = count_end(self.ends, n, into.len());
        Ok(n)
    }
}
