//! A link whose calls fail as listed.
ghost use Rattle.std.specs.Prelude.{◌≡◌, ◌≤◌, ℕ, length, OnOk, OnErr, IfOk, IfSome, MatchOption, IsErrOf, IsPermutation};
ghost use Rattle.byte_edges.specs.Counts.{raised, Rose};
ghost use Rattle.byte_edges.specs.Links.{TakesAt, with_sent};
ghost use Rattle.byte_edges.specs.Scheduled.{called, NextFails};
ghost use Rattle.field_sim.specs.Faulty.{Faulty, all_faults};

use crate::schedule::Schedule;
use byte_edges::{EdgeFault, Link};
use std::marker::Model;

/// A link over another one, of which some calls fail.
#[derive(Drop)]
pub struct FaultLink<L: Link> {
    inner: L,
    schedule: Schedule,
}

impl<L: Link> Model for FaultLink<L> {
    ghost use Rattle.field_sim.specs.Faulty.{Faulty};

    ghost Value = { Faulty L };

    ghost view = { λ link. record { inner = link.inner; calls = link.schedule } };
}

impl<L: Link> FaultLink<L> {
    /// The calls whose numbers, counted from 1, are listed fail and don't come to the link.
    pub fn new(inner: L, fails: Vec<u64>) -> Self
        ensures inner { result.inner ≡ inner }
        ensures fails { IsPermutation fails.items result.calls.plan.fails }
        ensures calls { result.calls.plan.calls ≡ 0 }
        ensures failed { result.calls.failed ≡ 0 }
    {
        FaultLink {
            inner,
            schedule: Schedule::new(fails),
        }
    }
}

impl<L: Link> Link for FaultLink<L> {
    ghost waiting = { λ link. L.waiting link.inner };

    ghost adds = { λ link. L.adds link.inner };

    ghost faults = { λ link. all_faults link.calls.failed (L.faults link.inner) };

    ghost sent = { λ link. L.sent link.inner };

    ghost given = { λ link. L.given link.inner };

    ghost dry = { λ link. L.dry link.inner };

    fn send(&mut self, term: u32, packet: &[u8]) -> Result<(), EdgeFault>
        ensures added { OnOk result (L.waiting self.new.inner ≡ with_sent (L.waiting self.old.inner) (L.adds self.old.inner term packet.now)) }
        ensures kept { OnErr result (L.waiting self.new.inner ≡ L.waiting self.old.inner) }
        ensures rule { L.adds self.new.inner ≡ L.adds self.old.inner }
        ensures sent { OnOk result (L.sent self.new.inner ≡ raised (L.sent self.old.inner) 1) }
        ensures not_sent { OnErr result (L.sent self.new.inner ≡ L.sent self.old.inner) }
        ensures given { L.given self.new.inner ≡ L.given self.old.inner }
        ensures dry { L.dry self.new.inner ≡ L.dry self.old.inner }
        ensures failed { IsErrOf result EdgeFault.Failed → Rose (all_faults self.old.calls.failed (L.faults self.old.inner)) (all_faults self.new.calls.failed (L.faults self.new.inner)) }
        ensures steady { OnOk result (all_faults self.new.calls.failed (L.faults self.new.inner) ≡ all_faults self.old.calls.failed (L.faults self.old.inner)) }
        ensures steady_memory { IsErrOf result EdgeFault.NoMemory → all_faults self.new.calls.failed (L.faults self.new.inner) ≡ all_faults self.old.calls.failed (L.faults self.old.inner) }
        ensures no_fall { all_faults self.old.calls.failed (L.faults self.old.inner) ≤ all_faults self.new.calls.failed (L.faults self.new.inner) }

        // A listed call fails, and no other does unless the link within did.
        ensures fails { NextFails self.old.calls.plan → (result ≡ Err EdgeFault.Failed) × (self.new.inner ≡ self.old.inner) × (self.new.calls.failed ≡ raised self.old.calls.failed 1) }
        ensures passes { (NextFails self.old.calls.plan → ⊥) → (self.new.calls.failed ≡ self.old.calls.failed) × (IsErrOf result EdgeFault.Failed → Rose (L.faults self.old.inner) (L.faults self.new.inner)) }
        ensures called { self.new.calls.plan ≡ called self.old.calls.plan }
    {
        if self.schedule.next_fails() {
            return Err(EdgeFault::Failed);
        }
        self.inner.send(term, packet)
    }

    fn take(&mut self, term: u32, into: &mut [u8]) -> Result<Option<usize>, EdgeFault>
        requires { length into.old ≡ 64 }
        ensures taken { IfOk result (λ answer. TakesAt term (L.waiting self.old.inner) (L.waiting self.new.inner) answer into.new) }
        ensures room { IfOk result (λ answer. IfSome answer (λ n. n ≤ 64)) }
        ensures kept { OnErr result (L.waiting self.new.inner ≡ L.waiting self.old.inner) }
        ensures rule { L.adds self.new.inner ≡ L.adds self.old.inner }
        ensures given { IfOk result (λ answer. MatchOption answer (L.given self.new.inner ≡ L.given self.old.inner) (λ _. L.given self.new.inner ≡ raised (L.given self.old.inner) 1)) }
        ensures dry { IfOk result (λ answer. MatchOption answer (L.dry self.new.inner ≡ raised (L.dry self.old.inner) 1) (λ _. L.dry self.new.inner ≡ L.dry self.old.inner)) }
        ensures none_given { OnErr result (L.given self.new.inner ≡ L.given self.old.inner) }
        ensures not_dry { OnErr result (L.dry self.new.inner ≡ L.dry self.old.inner) }
        ensures sent { L.sent self.new.inner ≡ L.sent self.old.inner }
        ensures failed { IsErrOf result EdgeFault.Failed → Rose (all_faults self.old.calls.failed (L.faults self.old.inner)) (all_faults self.new.calls.failed (L.faults self.new.inner)) }
        ensures steady { OnOk result (all_faults self.new.calls.failed (L.faults self.new.inner) ≡ all_faults self.old.calls.failed (L.faults self.old.inner)) }
        ensures steady_memory { IsErrOf result EdgeFault.NoMemory → all_faults self.new.calls.failed (L.faults self.new.inner) ≡ all_faults self.old.calls.failed (L.faults self.old.inner) }
        ensures no_fall { all_faults self.old.calls.failed (L.faults self.old.inner) ≤ all_faults self.new.calls.failed (L.faults self.new.inner) }

        // A listed call fails, and no other does unless the link within did.
        ensures fails { NextFails self.old.calls.plan → (result ≡ Err EdgeFault.Failed) × (self.new.inner ≡ self.old.inner) × (self.new.calls.failed ≡ raised self.old.calls.failed 1) }
        ensures passes { (NextFails self.old.calls.plan → ⊥) → (self.new.calls.failed ≡ self.old.calls.failed) × (IsErrOf result EdgeFault.Failed → Rose (L.faults self.old.inner) (L.faults self.new.inner)) }
        ensures called { self.new.calls.plan ≡ called self.old.calls.plan }
    {
        if self.schedule.next_fails() {
            return Err(EdgeFault::Failed);
        }
        self.inner.take(term, into)
    }
}
