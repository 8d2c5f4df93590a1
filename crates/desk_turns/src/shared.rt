//! The shared desk, and the calls on it.
ghost use Rattle.std.specs.Prelude.{◌≡◌, ◌≤◌, IfOk, IfErr, IsOk, map, vec_len};
ghost use Rattle.std.specs.List.{All, range_with_len};
ghost use Rattle.desk_turns.specs.Shared.{most_seats, fresh, IsAnswered, IsFull, IsClosed};

use crate::closing::{gather, taken};
use crate::dealing::{deal, found};
use crate::pass::Pass;
use crate::rule::{Draws, Opened, TurnTable};
use crate::turns::{answer, wait};
use desk_core::{Desk, Event, Reply};
use no_memory::NoMemory;
use std::alloc::Global;
use std::marker::Model;
use std::sync::Wait;

/// The most passes that a desk may have.
pub const MOST_SEATS: u32 = 64;

/// It is the number of the definitions, in which this constant doesn't stand.
pub fn at_most_64_seats()
    ensures { MOST_SEATS ≡ 64 }
{}

/// A desk that threads share by reference.
#[derive(Drop)]
pub struct SharedDesk {
    table: TurnTable,
}

impl Model for SharedDesk {
    ghost use Rattle.desk_turns.specs.Shared.{DeskId};

    ghost Value = { DeskId };

    ghost use Rattle.desk_turns.specs.Fields.{id_of, IsShared};

    ghost view = { id_of };

    ghost invariant = { IsShared };
}

/// The answer of a call.
#[derive(Drop)]
pub struct Called {
    pub reply: Reply,
    /// The place of its entry in the history, counted from 0.
    pub place: u64,
}

/// The desk's log is full: the place that was drawn is at or past its room.
#[derive(Clone, Copy, Debug, PartialEq, Eq)]
pub struct Full {
    pub place: u64,
}

impl SharedDesk {
    /// The desk, shared, and its passes, numbered from 1 in order. A pass's number is its caller's.
    pub fn of_desk(
        alloc: Global,
        desk: Desk,
        seats: u32,
    ) -> Result<(SharedDesk, Vec<Pass>), NoMemory>
        requires seats { (1 ≤ seats) × (seats ≤ most_seats) }
        ensures desk { IfOk result (λ r. (r.0.opening ≡ desk) × (r.0.seats ≡ seats)) }
        ensures passes { IfOk result (λ r. r.1.items ≡ map (fresh r.0) (range_with_len 1 seats)) }
        ensures len { IfOk result (λ r. vec_len r.1 ≡ seats) }
    {
        let len = desk.len();
        let room = desk.room();
        let of = Opened { desk, seats };
        let (table, first) = TurnTable::vacant(alloc, &[len, len], 1, &of)?;
        let Opened { desk, seats: _ } = of;
        let first = found(&table.shared, first, desk);
        let passes = deal(alloc, &table.shared, first, seats, room)?;
        Ok((SharedDesk { table }, passes))
    }

    /// Draws the next place, waits for its turn, and answers the event there. It may wait for other callers.
    ///
    /// Full is for a place past the room. The pass answers the same Full from then on, and draws no more.
    pub fn call<R: Wait>(&self, rt: &R, pass: &mut Pass, event: Event) -> Result<Called, Full>
        requires { pass.old.desk.table ≡ self.now.table }
        ensures answered { IfOk result (λ c. IsAnswered pass.old event c.reply c.place pass.new) }
        ensures full { IfErr result (λ f. IsFull pass.old f.place pass.new) }
    {
        if let Some(place) = pass.full {
            return Err(Full { place });
        }
        let place = self.table.shared.fetch_add::<Draws>(&mut pass.seat, 0, 1);
        if place >= pass.room {
            pass.full = Some(place);
            return Err(Full { place });
        }
        wait(rt, &self.table.shared, &mut pass.seat, place);
        let reply = answer(
            &self.table.shared,
            &mut pass.seat,
            pass.number,
            event,
            place,
        );
        Ok(Called { reply, place })
    }

    /// Takes all passes back, and gives the desk with all that was called. It needs no memory, so it is always Ok.
    pub fn close(self, mut passes: Vec<Pass>) -> Result<Desk, (SharedDesk, Vec<Pass>)>
        requires count { vec_len passes ≡ self.seats }
        requires desk { All (λ p. p.desk.table ≡ self.table) passes.items }
        ensures ok { IsOk result }
        ensures closed { IfOk result (λ desk. IsClosed self passes.items desk) }
    {
        let SharedDesk { table } = self;
        let Some(last) = passes.pop() else {
            unreachable!()
        };
        let whole = gather(&table.shared, last, passes);
        Ok(taken(table, whole))
    }
}
