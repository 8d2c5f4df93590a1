//! A door in memory, for tests of what serves one.
ghost use Rattle.std.specs.Prelude.{◌≡◌, ◌↔◌, ℕ, ◌-◌, ◌≤◌, [], ◌∷◌, ◌++◌, None, Some, length, take, IfOk, OnOk, OnErr, OnSome, MatchOption, IsErrOf, IsPermutation, option_copied};
ghost use Rattle.byte_edges.specs.Counts.{raised, Rose};
ghost use Rattle.byte_edges.specs.Opening.{GivesFirst, with_last};
ghost use Rattle.byte_edges.specs.Scheduled.{failed, called, NextFails};
ghost use Rattle.byte_edges.specs.InMemory.{given_back, served_bytes, LatestIsOut};

use crate::counts::raise;
use crate::schedule::Schedule;
use crate::{Door, EdgeFault, MemLine};
use std::alloc::Global;
use std::marker::Model;

/// Lines in memory, with accepts that fail as listed. It keeps the lines that are given back.
#[derive(Drop)]
pub struct MemDoor {
    // The next line stands last.
    left: Vec<MemLine>,
    // A slot for each line that was given, empty until that line is given back.
    slots: Vec<Option<MemLine>>,
    schedule: Schedule,
    shut: u64,
}

impl Model for MemDoor {
    ghost use Rattle.std.specs.Prelude.{reverse};
    ghost use Rattle.byte_edges.specs.InMemory.{DoorInMemory};

    ghost Value = { DoorInMemory };

    ghost view = { λ door. record { left = reverse door.left.items; slots = door.slots.items; plan = door.schedule; shut = door.shut } };
}

impl MemDoor {
    /// A door of these lines, in order. `fails` lists the numbers of the accepts that fail, counted from 1.
    pub fn new(alloc: Global, mut lines: Vec<MemLine>, fails: Vec<u64>) -> Self
        ensures left { result.left ≡ lines.items }
        ensures slots { result.slots ≡ [] }
        ensures fails { IsPermutation fails.items result.plan.fails }
        ensures never { fails.items ≡ [] → result.plan.fails ≡ [] }
        ensures calls { result.plan.calls ≡ 0 }
        ensures faults { failed result.plan ≡ 0 }
        ensures shut { result.shut ≡ 0 }
    {
        lines.reverse();
        MemDoor {
            left: lines,
            slots: Vec::new(alloc),
            schedule: Schedule::new(fails),
            shut: 0,
        }
    }

    /// The bytes that line `i` took, counted from 0, once it was given back.
    pub fn served(&self, i: usize) -> Option<&[u8]>
        ensures { option_copied result ≡ served_bytes self.now.slots i }
    {
        match self.slots.get(i) {
            Some(Some(line)) => Some(line.taken()),
            _ => None,
        }
    }
}

impl Door for MemDoor {
    type Conn = MemLine;

    ghost lines = { λ door. Some door.left };

    ghost back = { λ door. Some (given_back door.slots) };

    ghost lent = { λ door. LatestIsOut door.slots };

    ghost faults = { λ door. failed door.plan };

    ghost given = { λ door. length door.slots };

    ghost shut = { λ door. door.shut };

    fn accept(&mut self) -> Result<Option<MemLine>, EdgeFault>
        ensures first { IfOk result (λ answer. GivesFirst (Some self.old.left) (Some self.new.left) answer) }
        ensures back { Some (given_back self.new.slots) ≡ Some (given_back self.old.slots) }
        ensures lent { IfOk result (λ answer. OnSome answer (LatestIsOut self.new.slots)) }
        ensures given { IfOk result (λ answer. MatchOption answer (length self.new.slots ≡ length self.old.slots) (λ _. length self.new.slots ≡ raised (length self.old.slots) 1)) }
        ensures shut { IfOk result (λ answer. MatchOption answer (self.new.shut ≡ raised self.old.shut 1) (λ _. self.new.shut ≡ self.old.shut)) }
        ensures kept { OnErr result (Some self.new.left ≡ Some self.old.left) }
        ensures none_given { OnErr result (length self.new.slots ≡ length self.old.slots) }
        ensures not_shut { OnErr result (self.new.shut ≡ self.old.shut) }
        ensures failed { IsErrOf result EdgeFault.Failed → Rose (failed self.old.plan) (failed self.new.plan) }
        ensures steady { OnOk result (failed self.new.plan ≡ failed self.old.plan) }
        ensures steady_memory { IsErrOf result EdgeFault.NoMemory → failed self.new.plan ≡ failed self.old.plan }
        ensures no_fall { failed self.old.plan ≤ failed self.new.plan }

        // It fails exactly where this accept is listed.
        ensures fails { IsErrOf result EdgeFault.Failed ↔ NextFails self.old.plan }
        ensures called { self.new.plan ≡ called self.old.plan }

        // A line that is given has an empty slot from then on.
        ensures slot { IfOk result (λ answer. MatchOption answer (self.new.slots ≡ self.old.slots) (λ _. self.new.slots ≡ self.old.slots ++ None ∷ [])) }
        ensures no_slot { OnErr result (self.new.slots ≡ self.old.slots) }
    {
        if self.schedule.next_fails() {
            return Err(EdgeFault::Failed);
        }
        self.slots.reserve(1)?;
        match self.left.pop() {
            Some(line) => {
                self.slots.push_reserved(None);
                Ok(Some(line))
            }
            None => {
                self.shut = raise(self.shut, 1);
                Ok(None)
            }
        }
    }

    fn done(&mut self, conn: MemLine)
        requires { LatestIsOut self.old.slots }
        ensures back { Some (given_back self.new.slots) ≡ with_last (Some (given_back self.old.slots)) conn }
        ensures lines { Some self.new.left ≡ Some self.old.left }
        ensures faults { failed self.new.plan ≡ failed self.old.plan }
        ensures given { length self.new.slots ≡ length self.old.slots }
        ensures shut { self.new.shut ≡ self.old.shut }

        // The line fills its slot.
        ensures slot { self.new.slots ≡ take (length self.old.slots - 1) self.old.slots ++ Some conn ∷ [] }
        ensures plan { self.new.plan ≡ self.old.plan }
    {
        self.slots.pop();
        self.slots.push_reserved(Some(conn));
    }
}
