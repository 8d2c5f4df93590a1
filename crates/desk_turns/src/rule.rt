//! What is true of the desk's words, its slot and its passes between any two steps.
//! A draw raises the first word by one, and who has answered its call raises the second one.
use atomic_table::{Join, Play, Seat, Shared, Split, Table, TableRule};
use desk_core::{Desk, Logged};
use std::alloc::Global;
use std::collections::LinkedList;

/// The desk that a shared desk is made of, and how many passes are made.
#[derive(Drop)]
pub(crate) struct Opened {
    pub desk: Desk,
    pub seats: u32,
}

/// What is known of a pass number. No value of it is made.
pub(crate) struct Known {
    pub of: Opened,
    pub number: u32,
    pub seen: LinkedList<Logged>,
    /// The place that it waits for.
    pub waits: Option<u64>,
    /// Whether its place is served, and it has the desk.
    pub holds: bool,
    /// The place past the room that it drew.
    pub past: Option<u64>,
}

pub(crate) struct Turns;

impl TableRule<Option<Desk>, LinkedList<Known>, Opened> for Turns {
    ghost use Rattle.desk_turns.specs.Rule.{IsTurns, opened};

    ghost holds = { IsTurns };

    ghost first = { opened };
}

/// The first seat takes the slot, in which there is no desk yet.
pub(crate) struct Lifts;

impl Play<Option<Desk>, LinkedList<Known>> for Lifts {
    ghost use Rattle.desk_turns.specs.Rule.{lifted};
    ghost use Rattle.std.specs.Prelude.{◌≡◌, ◌∷◌, [], None};

    ghost then = { λ _ before _ after. after ≡ (lifted before.0, (0, None) ∷ []) };
}

/// It gives the slot back with the desk in it, and keeps all numbers.
pub(crate) struct Founds;

impl Play<Option<Desk>, LinkedList<Known>> for Founds {
    ghost use Rattle.desk_turns.specs.Rule.{founded};
    ghost use Rattle.std.specs.Prelude.{◌≡◌, []};

    ghost then = { λ _ before _ after. after ≡ (founded before.0, []) };
}

/// A place is drawn.
pub(crate) struct Draws;

impl Play<Option<Desk>, LinkedList<Known>> for Draws {
    ghost use Rattle.desk_turns.specs.Rule.{drawn};
    ghost use Rattle.std.specs.Prelude.{◌≡◌, map};

    ghost then = { λ _ before found after. after ≡ (map (drawn found) before.0, before.1) };
}

/// The place that is served is looked at. Whose turn it is takes the desk.
pub(crate) struct Looks;

impl Play<Option<Desk>, LinkedList<Known>> for Looks {
    ghost use Rattle.desk_turns.specs.Rule.{LooksOf};

    ghost then = { λ _ before found after. LooksOf before before.0 found after };
}

/// The desk is given back, and the next place is served.
pub(crate) struct Serves;

impl Play<Option<Desk>, LinkedList<Known>> for Serves {
    ghost use Rattle.desk_turns.specs.Rule.{served, carried_log};
    ghost use Rattle.std.specs.Prelude.{◌≡◌, map, []};

    ghost then = { λ _ before _ after. after ≡ (map (served (carried_log before.1)) before.0, []) };
}

/// One pass more is dealt out.
pub(crate) struct Deals;

impl Split<LinkedList<Known>> for Deals {
    ghost use Rattle.desk_turns.specs.Rule.{first_only, without_first};

    ghost left = { without_first };

    ghost right = { first_only };
}

/// A pass is handed back.
pub(crate) struct Gathers;

impl Join<LinkedList<Known>> for Gathers {
    ghost use Rattle.std.specs.Prelude.{[], ◌++◌};

    ghost both = { λ v w. v ++ w };

    ghost spent = { [] };
}

pub(crate) type TurnTable = Table<Option<Desk>, LinkedList<Known>, Opened, Turns, Global>;

pub(crate) type SharedTurns = Shared<Option<Desk>, LinkedList<Known>, Opened, Turns>;

pub(crate) type TableSeat = Seat<Option<Desk>, LinkedList<Known>>;
