//! Which calls on a form in memory fail.
ghost use Rattle.std.specs.Prelude.{◌≡◌, [], ◌↔◌, ◌≤◌, IsTrue, IsFalse, IsPermutation, Contains};
ghost use Rattle.std.specs.List.Sorted.{IsNonDecreasing};
ghost use Rattle.byte_edges.specs.Counts.{Rose};
ghost use Rattle.byte_edges.specs.Scheduled.{Plan, failed, called, NextFails};

use std::marker::Model;

/// The numbers of the calls that fail, counted from 1, in ascending order, and the number of calls so far.
#[derive(Drop)]
pub(crate) struct Schedule {
    fails: Vec<u64>,
    calls: u64,
}

impl Model for Schedule {
    ghost use Rattle.std.specs.List.Sorted.{IsNonDecreasing};
    ghost use Rattle.byte_edges.specs.Scheduled.{Plan};

    ghost Value = { Plan };

    ghost view = { λ schedule. record { fails = schedule.fails.items; calls = schedule.calls } };

    ghost invariant = { λ schedule. IsNonDecreasing schedule.fails.items };
}

impl Schedule {
    pub(crate) fn new(mut fails: Vec<u64>) -> Self
        ensures fails { IsPermutation fails.items result.fails }
        ensures never { fails.items ≡ [] → result.fails ≡ [] }
        ensures calls { result.calls ≡ 0 }
        ensures none_failed { failed result ≡ 0 }
    {
        fails.sort_unstable();
        Schedule { fails, calls: 0 }
    }

    /// Counts a call, and answers whether it is to fail.
    pub(crate) fn next_fails(&mut self) -> bool
        ensures called { self.new ≡ called self.old }
        ensures listed { IsTrue result ↔ NextFails self.old }
        ensures rose { IsTrue result → Rose (failed self.old) (failed self.new) }
        ensures steady { IsFalse result → failed self.new ≡ failed self.old }
        ensures no_fall { failed self.old ≤ failed self.new }
    {
        if self.calls == u64::MAX {
            return false;
        }
        self.calls += 1;
        lists(&self.fails, self.calls)
    }
}

fn lists(fails: &[u64], call: u64) -> bool
    requires { IsNonDecreasing fails.now }
    ensures { IsTrue result ↔ Contains fails.now call }
{
    fails.binary_search(&call).is_ok()
}
