//! What is true of the board's word and of its seats between any two steps.
//! The word is the next number, and each draw raises it by one, also past the last number.
use atomic_table::{Join, Play, Seat, Shared, Split, Table, TableRule};
use std::alloc::Global;
use std::collections::LinkedList;

/// How many numbers a board gives out, and how many seats were made for it.
#[derive(Drop)]
pub(crate) struct Size {
    pub numbers: u64,
    pub seats: u32,
}

/// What a seat of the table knows. No value of it is made.
pub(crate) struct Tally {
    pub of: Size,
    /// How many seats of the board it stands for.
    pub seats: u64,
    /// How many of these have drawn past the last number.
    pub ended: u64,
    pub drawn: LinkedList<u64>,
}

pub(crate) struct Fair;

impl TableRule<(), Tally, Size> for Fair {
    ghost use Rattle.claim_board.specs.Fair.{IsFair, opened};

    ghost holds = { λ of s. IsFair of s.words s.views };

    ghost first = { opened };
}

/// The next number is drawn.
pub(crate) struct Draws;

impl Play<(), Tally> for Draws {
    ghost use Rattle.claim_board.specs.Fair.{DrawsNext};
    ghost use Rattle.std.specs.Prelude.{◌≡◌};

    ghost then = { λ _ before found after. (after.1 ≡ before.1) × DrawsNext before.0 found after.0 };
}

/// One seat more is dealt out.
pub(crate) struct Deals;

impl Split<Tally> for Deals {
    ghost use Rattle.claim_board.specs.Fair.{one_less, one_seat};

    ghost left = { one_less };

    ghost right = { λ v. one_seat v.of };
}

/// A seat is handed back.
pub(crate) struct Gathers;

impl Join<Tally> for Gathers {
    ghost use Rattle.claim_board.specs.Fair.{together, no_seat};

    ghost both = { together };

    ghost spent = { no_seat };
}

pub(crate) type ClaimTable = Table<(), Tally, Size, Fair, Global>;

pub(crate) type SharedClaims = Shared<(), Tally, Size, Fair>;

pub(crate) type TableSeat = Seat<(), Tally>;
