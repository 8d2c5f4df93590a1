//! The seats of a board: how they are dealt out, and how they are gathered again.
ghost use Rattle.std.specs.Prelude.{◌≡◌, ◌+◌, ◌<◌, ◌≤◌, [], ◌∷◌, IfOk, replicate, vec_len};
ghost use Rattle.std.specs.List.{All, count_by};
ghost use Rattle.claim_board.specs.Claims.{board_id, fresh, drawn_by};
ghost use Rattle.claim_board.specs.Fair.{opened};

use crate::rule::{Deals, Gathers, SharedClaims, TableSeat};
use no_memory::NoMemory;
use std::alloc::Global;
use std::marker::Model;

/// The right of one thread to draw from its board. It may be sent to another thread.
#[derive(Drop)]
pub struct ClaimSeat {
    pub(crate) seat: TableSeat,
    pub(crate) spent: bool,
}

impl Model for ClaimSeat {
    ghost use Rattle.claim_board.specs.Claims.{Claims};

    ghost Value = { Claims };

    ghost use Rattle.claim_board.specs.Fields.{claims_of, IsOneSeat};

    ghost view = { claims_of };

    ghost invariant = { IsOneSeat };
}

impl ClaimSeat {
    fn new(seat: TableSeat) -> ClaimSeat
        requires { (seat.me.1 ≡ []) × (seat.me.0.seats ≡ 1) × (seat.me.0.ended ≡ 0) × (seat.me.0.drawn ≡ []) }
        ensures { result ≡ fresh (board_id seat.table_id seat.me.0.of.numbers seat.me.0.of.seats) }
    {
        ClaimSeat { seat, spent: false }
    }
}

/// Deals out as many seats as the first one stands for.
pub(crate) fn deal(
    alloc: Global,
    shared: &SharedClaims,
    mut first: TableSeat,
    seats: u32,
) -> Result<Vec<ClaimSeat>, NoMemory>
    requires { (first.table_id ≡ shared.now.table_id) × (shared.now.table_id.words ≡ 1) × (0 < seats) × (shared.now.key.seats ≡ seats) × (first.me ≡ (opened shared.now.key, [])) }
    ensures { IfOk result (λ v. v.items ≡ replicate seats (fresh (board_id shared.now.table_id shared.now.key.numbers shared.now.key.seats))) }
{
    let mut dealt = Vec::with_capacity(alloc, seats as usize)?;
    for _ in 1..seats {
        dealt.push(ClaimSeat::new(shared.split_seat::<Deals>(&mut first)))?;
    }
    dealt.push(ClaimSeat::new(first))?;
    Ok(dealt)
}

/// One seat in place of them all, which knows all that they drew and how many of them are spent.
pub(crate) fn gather(shared: &SharedClaims, last: ClaimSeat, others: Vec<ClaimSeat>) -> TableSeat
    requires { (shared.now.table_id.words ≡ 1) × (last.board.table ≡ shared.now.table_id) × All (λ s. s.board.table ≡ shared.now.table_id) others.items }
    ensures table { result.table_id ≡ shared.now.table_id }
    ensures seats { result.me.0.seats ≡ vec_len others + 1 }
    ensures ended { result.me.0.ended ≡ count_by (λ s. s.spent) (last ∷ others.items) }
    ensures drawn { result.me.0.drawn ≡ drawn_by (last ∷ others.items) }
{
    let ClaimSeat {
        seat: mut whole,
        spent: _,
    } = last;
    for other in others {
        let ClaimSeat { seat, spent: _ } = other;
        shared.join_seat::<Gathers>(&mut whole, seat);
    }
    whole
}
