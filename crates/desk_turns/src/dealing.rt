//! How the desk comes into its slot, and how its passes are dealt out.
ghost use Rattle.std.specs.Prelude.{◌≡◌, ◌≤◌, [], IfOk, length, map};
ghost use Rattle.std.specs.List.{range_with_len};
ghost use Rattle.desk_core.specs.Past.{past_of};
ghost use Rattle.desk_core.specs.Legal.{IsLegal};
ghost use Rattle.desk_turns.specs.Shared.{most_seats, most_room, fresh};
ghost use Rattle.desk_turns.specs.Rule.{opened, dealt};
ghost use Rattle.desk_turns.specs.Passes.{desk_id};

use crate::pass::Pass;
use crate::rule::{Deals, Founds, Lifts, SharedTurns, TableSeat};
use desk_core::Desk;
use no_memory::NoMemory;
use std::alloc::Global;

/// The desk comes into its slot, by the first seat, which keeps all numbers then.
pub(crate) fn found(shared: &SharedTurns, mut first: TableSeat, desk: Desk) -> TableSeat
    requires table { (first.table_id ≡ shared.now.table_id) × (shared.now.table_id.words ≡ 2) × (shared.now.table_id.slots ≡ 1) }
    requires first { first.me ≡ (opened shared.now.key, []) }
    requires desk { desk ≡ shared.now.key.desk }
    requires legal { IsLegal (past_of desk.log) }
    requires within { length desk.log ≤ desk.room }
    ensures { (result.table_id ≡ first.table_id) × (result.me ≡ (dealt shared.now.key 1 shared.now.key.seats, [])) }
{
    shared.load::<Lifts>(&mut first, 0);
    shared.exchange(&mut first, 0, Some(desk));
    shared.load::<Founds>(&mut first, 0);
    first
}

/// Deals out a pass for each number.
pub(crate) fn deal(
    alloc: Global,
    shared: &SharedTurns,
    mut first: TableSeat,
    seats: u32,
    room: u64,
) -> Result<Vec<Pass>, NoMemory>
    requires table { (first.table_id ≡ shared.now.table_id) × (shared.now.table_id.words ≡ 2) }
    requires first { first.me ≡ (dealt shared.now.key 1 seats, []) }
    requires seats { (1 ≤ seats) × (seats ≤ most_seats) × (shared.now.key.seats ≡ seats) }
    requires room { (shared.now.key.desk.room ≡ room) × (room ≤ most_room) }
    ensures { IfOk result (λ v. v.items ≡ map (fresh (desk_id shared.now.table_id shared.now.key)) (range_with_len 1 seats)) }
{
    let mut dealt = Vec::with_capacity(alloc, seats as usize)?;
    for number in 1..seats {
        let seat = shared.split_seat::<Deals>(&mut first);
        dealt.push(Pass::new(seat, number, room))?;
    }
    dealt.push(Pass::new(first, seats, room))?;
    Ok(dealt)
}
