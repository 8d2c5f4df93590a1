//! A call after its draw: it waits until its place is served, and answers its event there.
ghost use Rattle.std.specs.Prelude.{◌≡◌, ◌+◌, ◌<◌, ◌≤◌, true, [], ◌∷◌, List, Some, length};
ghost use Rattle.desk_core.specs.declared.event.Logged.{Logged};
ghost use Rattle.desk_core.specs.Past.{past_of};
ghost use Rattle.desk_core.specs.Legal.{IsLegal};
ghost use Rattle.desk_core.specs.Applying.{IsEntered};
ghost use Rattle.desk_turns.specs.Shared.{desk_at, most_room};
ghost use Rattle.desk_turns.specs.Rule.{serving, served, TakesTurn, Waits, HasTurn, Answers};
ghost use Rattle.desk_turns.specs.declared.rule.Known.{Known};

use crate::rule::{Looks, Serves, SharedTurns, TableSeat};
use desk_core::{Event, Reply};
use std::sync::Wait;
use std::thread;

/// Waits until the place that was drawn is served, and takes the desk.
pub(crate) fn wait<R: Wait>(rt: &R, shared: &SharedTurns, seat: &mut TableSeat, place: u64)
    requires table { (seat.old.table_id ≡ shared.now.table_id) × (shared.now.table_id.words ≡ 2) × (shared.now.table_id.slots ≡ 1) }
    requires waits { Waits seat.old.me place }
    ensures table { seat.new.table_id ≡ seat.old.table_id }
    ensures turn { (k : Known) → seat.old.me ≡ (k ∷ [], []) → TakesTurn k place seat.new.me }
{
    for _ in rt.forever() {
        if shared.load::<Looks>(seat, 1) == place {
            return;
        }
        thread::yield_now();
    }
    unreachable!()
}

/// Answers an event on the desk that the seat has taken, and gives it back.
pub(crate) fn answer(
    shared: &SharedTurns,
    seat: &mut TableSeat,
    caller: u32,
    event: Event,
    place: u64,
) -> Reply
    requires table { (seat.old.table_id ≡ shared.now.table_id) × (shared.now.table_id.words ≡ 2) × (shared.now.table_id.slots ≡ 1) }
    requires turn { HasTurn seat.old.me caller place }
    ensures table { seat.new.table_id ≡ seat.old.table_id }
    ensures answered { (k : Known) (history : List Logged) → seat.old.me ≡ (serving history k ∷ [], (0, Some (desk_at k.of.desk history)) ∷ []) → Answers k history caller event result seat.new.me }
{
    let Some(mut desk) = shared.exchange(seat, 0, None) else {
        unreachable!()
    };
    let reply = desk.apply(caller, event);
    shared.exchange(seat, 0, Some(desk));
    shared.store::<Serves>(seat, 1, place + 1);
    reply
}
