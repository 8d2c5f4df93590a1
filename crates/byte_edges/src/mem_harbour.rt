//! A harbour in memory, for tests of what opens doors.
ghost use Rattle.std.specs.Prelude.{◌≡◌, ◌↔◌, ◌≤◌, [], Some, IfOk, OnOk, OnErr, IsErr, IsErrOf, IsPermutation};
ghost use Rattle.byte_edges.specs.Counts.{Rose};
ghost use Rattle.byte_edges.specs.InMemory.{empty_door};
ghost use Rattle.byte_edges.specs.Opening.{GivesNext};
ghost use Rattle.byte_edges.specs.Scheduled.{failed, called, NextFails};

use crate::schedule::Schedule;
use crate::{EdgeFault, Harbour, MemDoor};
use std::alloc::Global;
use std::marker::Model;

/// Doors in memory, with opens that fail as listed.
#[derive(Drop)]
pub struct MemHarbour {
    // The next door stands last.
    left: Vec<MemDoor>,
    schedule: Schedule,
    alloc: Global,
}

impl Model for MemHarbour {
    ghost use Rattle.std.specs.Prelude.{reverse};
    ghost use Rattle.byte_edges.specs.InMemory.{HarbourInMemory};

    ghost Value = { HarbourInMemory };

    ghost view = { λ harbour. record { left = reverse harbour.left.items; plan = harbour.schedule } };
}

impl MemHarbour {
    /// A harbour of these doors, in order. `fails` lists the numbers of the opens that fail, counted from 1.
    pub fn new(alloc: Global, mut doors: Vec<MemDoor>, fails: Vec<u64>) -> Self
        ensures left { result.left ≡ doors.items }
        ensures fails { IsPermutation fails.items result.plan.fails }
        ensures never { fails.items ≡ [] → result.plan.fails ≡ [] }
        ensures calls { result.plan.calls ≡ 0 }
        ensures faults { failed result.plan ≡ 0 }
    {
        doors.reverse();
        MemHarbour {
            left: doors,
            schedule: Schedule::new(fails),
            alloc,
        }
    }
}

impl Harbour for MemHarbour {
    type Made = MemDoor;

    ghost doors = { λ harbour. Some harbour.left };

    ghost faults = { λ harbour. failed harbour.plan };

    fn open(&mut self, _port: u16) -> Result<MemDoor, EdgeFault>
        ensures first { IfOk result (λ door. GivesNext (Some self.old.left) (Some self.new.left) door) }
        ensures kept { OnErr result (Some self.new.left ≡ Some self.old.left) }
        ensures failed { IsErrOf result EdgeFault.Failed → Rose (failed self.old.plan) (failed self.new.plan) }
        ensures steady { OnOk result (failed self.new.plan ≡ failed self.old.plan) }
        ensures steady_memory { IsErrOf result EdgeFault.NoMemory → failed self.new.plan ≡ failed self.old.plan }
        ensures no_fall { failed self.old.plan ≤ failed self.new.plan }

        // It fails exactly where this open is listed, and takes no memory.
        ensures fails { IsErr result ↔ NextFails self.old.plan }
        ensures called { self.new.plan ≡ called self.old.plan }

        // Where no door is left it gives one without lines, which never fails.
        ensures spare { IfOk result (λ door. self.old.left ≡ [] → door ≡ empty_door) }
    {
        if self.schedule.next_fails() {
            return Err(EdgeFault::Failed);
        }
        match self.left.pop() {
            Some(door) => Ok(door),
            None => Ok(MemDoor::new(self.alloc, Vec::new(self.alloc), Vec::new(self.alloc))),
        }
    }
}
