//! The board, and the draws from it.
ghost use Rattle.std.specs.Prelude.{◌≡◌, ◌<◌, ◌≤◌, ◌^◌, true, false, ◌∷◌, [], ◌++◌, IfOk, IfSome, IfNone, IsOk, IsPermutation, length, replicate, vec_len};
ghost use Rattle.std.specs.List.{All, Any};
ghost use Rattle.claim_board.specs.Claims.{most_seats, fresh, numbers_below, drawn_by};

use crate::rule::{ClaimTable, Draws, Size};
use crate::seats::{ClaimSeat, deal, gather};
use no_memory::NoMemory;
use std::alloc::Global;
use std::marker::Model;

/// The most seats that a board may have.
pub const MOST_SEATS: u32 = 64;

/// It is the number of the definitions, in which this constant doesn't stand.
pub fn at_most_64_seats()
    ensures { MOST_SEATS ≡ 64 }
{}

/// The numbers below n, for its seats to draw. Threads share it by reference.
#[derive(Drop)]
pub struct Board {
    table: ClaimTable,
    n: u64,
}

impl Model for Board {
    ghost use Rattle.claim_board.specs.Claims.{BoardId};

    ghost Value = { BoardId };

    ghost use Rattle.claim_board.specs.Fields.{id_of, IsBoard};

    ghost view = { id_of };

    ghost invariant = { IsBoard };
}

/// What was drawn from a board.
#[derive(Clone, Copy, Debug, PartialEq, Eq)]
pub struct Drawn {
    /// How many numbers: those below it, each once.
    pub count: u64,
}

impl Board {
    /// A board of the numbers below `n`, and its seats, one for each thread that will draw.
    pub fn new(alloc: Global, n: u64, seats: u32) -> Result<(Board, Vec<ClaimSeat>), NoMemory>
        requires numbers { n < 2 ^ 63 }
        requires seats { (1 ≤ seats) × (seats ≤ most_seats) }
        ensures board { IfOk result (λ r. (r.0.n ≡ n) × (r.0.seats ≡ seats)) }
        ensures seats { IfOk result (λ r. r.1.items ≡ replicate seats (fresh r.0)) }
        ensures len { IfOk result (λ r. vec_len r.1 ≡ seats) }
    {
        let size = Size { numbers: n, seats };
        let (table, first) = ClaimTable::of_words(alloc, &[0], &size)?;
        let dealt = deal(alloc, &table.shared, first, seats)?;
        Ok((Board { table, n }, dealt))
    }

    /// The next number, which no other draw of this board gives. The numbers of one seat ascend.
    ///
    /// None is for a draw past the last number. From then on the seat answers None and leaves the word alone.
    pub fn draw(&self, seat: &mut ClaimSeat) -> Option<u64>
        requires { seat.old.board ≡ self.now }
        ensures board { seat.new.board ≡ seat.old.board }
        ensures number { IfSome result (λ x. (x < self.now.n) × All (λ y. y < x) seat.old.drawn × (seat.new.drawn ≡ seat.old.drawn ++ x ∷ []) × (seat.new.spent ≡ false)) }
        ensures none { IfNone result ((seat.new.drawn ≡ seat.old.drawn) × (seat.new.spent ≡ true)) }
        ensures spent { seat.old.spent ≡ true → (result ≡ None) × (seat.new ≡ seat.old) }
        ensures room { length seat.new.drawn ≤ self.now.n }
    {
        if seat.spent {
            return None;
        }
        let number = self.table.shared.fetch_add::<Draws>(&mut seat.seat, 0, 1);
        if number < self.n {
            return Some(number);
        }
        seat.spent = true;
        None
    }

    /// Takes all seats back and counts what they drew. It needs no memory, so it is always Ok.
    pub fn close(self, mut seats: Vec<ClaimSeat>) -> Result<Drawn, NoMemory>
        requires count { vec_len seats ≡ self.seats }
        requires board { All (λ s. s.board ≡ self) seats.items }
        ensures ok { IsOk result }
        ensures drawn { IfOk result (λ d. IsPermutation (numbers_below d.count) (drawn_by seats.items)) }
        ensures bound { IfOk result (λ d. d.count ≤ self.n) }
        ensures ended { IfOk result (λ d. Any (λ s. s.spent ≡ true) seats.items → d.count ≡ self.n) }
    {
        let Board { table, n } = self;
        let Some(last) = seats.pop() else {
            unreachable!()
        };
        let whole = gather(&table.shared, last, seats);
        let closed = table.close_with(whole);
        let next = closed.word(0);
        closed.free();
        Ok(Drawn { count: next.min(n) })
    }
}
