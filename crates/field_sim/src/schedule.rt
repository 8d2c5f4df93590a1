//! Which calls on a link fail.
ghost use Rattle.std.specs.Prelude.{◌≡◌, ◌↔◌, [], IsTrue, IsFalse, IsPermutation, Contains};
ghost use Rattle.std.specs.List.Sorted.{IsNonDecreasing};
ghost use Rattle.byte_edges.specs.Counts.{raised};
ghost use Rattle.byte_edges.specs.Scheduled.{called, NextFails};

use crate::counts::one_more;
use std::marker::Model;

/// The numbers of the calls that fail, counted from 1, in ascending order, the number of calls so far, and how many of them
/// failed.
#[derive(Drop)]
pub(crate) struct Schedule {
    fails: Vec<u64>,
    calls: u64,
    failed: u64,
}

impl Model for Schedule {
    ghost use Rattle.std.specs.List.Sorted.{IsNonDecreasing};
    ghost use Rattle.field_sim.specs.Faulty.{Calls};

    ghost Value = { Calls };

    ghost view = { λ s. record { plan = record { fails = s.fails.items; calls = s.calls }; failed = s.failed } };

    ghost invariant = { λ s. IsNonDecreasing s.fails.items };
}

impl Schedule {
    pub(crate) fn new(mut fails: Vec<u64>) -> Self
        ensures fails { IsPermutation fails.items result.plan.fails }
        ensures calls { result.plan.calls ≡ 0 }
        ensures none_failed { result.failed ≡ 0 }
    {
        fails.sort_unstable();
        Schedule {
            fails,
            calls: 0,
            failed: 0,
        }
    }

    /// Counts a call, and answers whether it is to fail.
    pub(crate) fn next_fails(&mut self) -> bool
        ensures called { self.new.plan ≡ called self.old.plan }
        ensures listed { IsTrue result ↔ NextFails self.old.plan }
        ensures failed { IsTrue result → self.new.failed ≡ raised self.old.failed 1 }
        ensures steady { IsFalse result → self.new.failed ≡ self.old.failed }
    {
        if self.calls == u64::MAX {
            return false;
        }
        self.calls += 1;
        let fails = lists(&self.fails, self.calls);
        if fails {
            self.failed = one_more(self.failed);
        }
        fails
    }
}

fn lists(fails: &[u64], call: u64) -> bool
    requires { IsNonDecreasing fails.now }
    ensures { IsTrue result ↔ Contains fails.now call }
{
    fails.binary_search(&call).is_ok()
}
