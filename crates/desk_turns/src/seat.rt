//! A seat at a shared desk, as a desk of any kind.
ghost use Rattle.std.specs.Prelude.{◌≡◌};
ghost use Rattle.desk_turns.specs.Ids.{TableId-set};

use crate::pass::Pass;
use crate::shared::{Called, SharedDesk};
use desk_core::{Desks, Event, Refusal, Reply};
use std::sync::Wait;

/// A pass at its desk. What it is asked is called there, and its place in a full log is that of the pass.
pub struct SeatDesk<'a, R: Wait> {
    pub rt: &'a R,
    pub desk: &'a SharedDesk,
    pub pass: &'a mut Pass,
    ghost same_desk: { pass.now.desk.table ≡ desk.now.table } by { TableId-set _ _ },
}

impl<'a, R: Wait> SeatDesk<'a, R> {
    /// A pass at its desk. Asking may wait for other callers.
    pub fn new(rt: &'a R, desk: &'a SharedDesk, pass: &'a mut Pass) -> SeatDesk<'a, R>
        requires { pass.old.desk.table ≡ desk.now.table }
        ensures pass { result.pass.now ≡ pass.entry.now }
        ensures same_reference { result.pass.ghost_name ≡ pass.entry.ghost_name }
    {
        SeatDesk { rt, desk, pass }
    }
}

impl<R: Wait> Drop for SeatDesk<'_, R> {
    fn drop(self)
        ensures { self.exit.1.1.0.now ≡ self.entry.pass.now }
    {
        let SeatDesk {
            rt: _,
            desk: _,
            pass: _,
        } = self;
    }
}

impl<R: Wait> Desks for SeatDesk<'_, R> {
    ghost use Rattle.std.specs.Prelude.{◌≡◌};
    ghost use Rattle.desk_turns.specs.Shared.{Asked};

    ghost faults = { λ _. 0 };

    ghost asked = { λ before event reply after. (after.pass.ghost_name ≡ before.pass.ghost_name)
        × Asked before.pass.now event reply after.pass.now };

    fn ask(&mut self, event: Event) -> Reply {
        match self.desk.call(self.rt, self.pass, event) {
            Ok(Called { reply, place: _ }) => reply,
            Err(full) => Reply::Refused(Refusal::LogFull { at: full.place }),
        }
    }
}
