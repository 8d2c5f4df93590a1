//! The end of a shared desk: its passes are joined to one seat, and the desk is taken out of its slot.
ghost use Rattle.std.specs.Prelude.{◌≡◌, ◌<◌, List, [], ◌∷◌, map};
ghost use Rattle.std.specs.List.{All};
ghost use Rattle.desk_turns.specs.Passes.{known_of, desk_id, HasOwnCalls, AreAll};
ghost use Rattle.desk_turns.specs.Shared.{PassValue, IsClosed};

use crate::pass::Pass;
use crate::rule::{Gathers, SharedTurns, TableSeat, TurnTable};
use desk_core::Desk;

/// One seat in place of all passes, which knows all that they know.
pub(crate) fn gather(shared: &SharedTurns, last: Pass, others: Vec<Pass>) -> TableSeat
    requires { (shared.now.table_id.words ≡ 2) × (last.desk.table ≡ shared.now.table_id) × All (λ p. p.desk.table ≡ shared.now.table_id) others.items }
    ensures table { result.table_id ≡ shared.now.table_id }
    ensures known { result.me ≡ (map known_of (last ∷ others.items), []) }
    ensures own { All HasOwnCalls (last ∷ others.items) }
    ensures numbered { 0 < last.number }
{
    let Pass {
        seat: mut whole,
        number: _,
        room: _,
        full: _,
    } = last;
    for other in others {
        let Pass {
            seat,
            number: _,
            room: _,
            full: _,
        } = other;
        shared.join_seat::<Gathers>(&mut whole, seat);
    }
    whole
}

/// The desk out of its slot.
pub(crate) fn taken(table: TurnTable, whole: TableSeat) -> Desk
    requires table { (whole.table_id ≡ table.shared.table_id) × (table.shared.table_id.words ≡ 2) × (table.shared.table_id.slots ≡ 1) }
    requires whole { (last : PassValue) × (others : List PassValue) × (whole.me ≡ (map known_of (last ∷ others), [])) × AreAll last others table.shared.key }
    ensures { (last : PassValue) (others : List PassValue) → whole.me ≡ (map known_of (last ∷ others), []) → AreAll last others table.shared.key → IsClosed (desk_id table.shared.table_id table.shared.key) (last ∷ others) result }
{
    let mut closed = table.close_with(whole);
    let desk = closed.take(0);
    closed.free();
    let Some(desk) = desk else { unreachable!() };
    desk
}
