//! The passes of a shared desk.
ghost use Rattle.std.specs.Prelude.{◌≡◌, ◌<◌, ◌≤◌, [], ◌∷◌};
ghost use Rattle.desk_turns.specs.Shared.{most_seats, most_room, fresh};
ghost use Rattle.desk_turns.specs.Rule.{fresh_known};
ghost use Rattle.desk_turns.specs.declared.rule.Opened.{Opened};

use crate::rule::TableSeat;
use std::marker::Model;

/// The right of one thread to call its shared desk. It may be sent to another thread.
#[derive(Drop)]
pub struct Pass {
    pub(crate) seat: TableSeat,
    pub(crate) number: u32,
    /// How many entries the desk's log may have.
    pub(crate) room: u64,
    /// The place of the Full that it was answered.
    pub(crate) full: Option<u64>,
}

impl Model for Pass {
    ghost use Rattle.desk_turns.specs.Shared.{PassValue};

    ghost Value = { PassValue };

    ghost use Rattle.desk_turns.specs.Fields.{pass_of, IsOnePass};

    ghost view = { pass_of };

    ghost invariant = { IsOnePass };
}

impl Pass {
    /// Its number, from 1, which is that of the caller.
    pub fn number(&self) -> u32
        ensures { result ≡ self.now.number }
    {
        self.number
    }
}

impl Pass {
    ghost use Rattle.desk_turns.specs.Passes.{desk_id};

    pub(crate) fn new(seat: TableSeat, number: u32, room: u64) -> Pass
        requires seat { (of : Opened) × (seat.me ≡ (fresh_known of number ∷ [], [])) × (of.desk.room ≡ room) × (of.seats ≤ most_seats) }
        requires number { 0 < number }
        requires room { room ≤ most_room }
        ensures { (of : Opened) → seat.me ≡ (fresh_known of number ∷ [], []) → result ≡ fresh (desk_id seat.table_id of) number }
    {
        Pass {
            seat,
            number,
            room,
            full: None,
        }
    }
}
