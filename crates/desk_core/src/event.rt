ghost use Rattle.std.specs.Prelude.{◌≡◌};

use net_versions::Change;
use rule_cover::Plan;
use std::sync::Arc;
use suspect_book::Verdict;

/// What a desk is asked. Rounds are numbered from 1 in order of opening, entries from 1 in the order of the round's table.
#[derive(Drop)]
pub enum Event {
    /// A rule more or less.
    Change(Change),
    /// A round more. It keeps the network as it is now.
    OpenRound,
    /// The network that a round keeps.
    Pin {
        round: u32,
    },
    /// The plan of a round.
    Post {
        round: u32,
        plan: Arc<Plan>,
    },
    /// The packet of an entry is about to be sent.
    Depart {
        round: u32,
        entry: u32,
    },
    /// The packet of an entry came to this.
    Arrive {
        round: u32,
        entry: u32,
        verdict: Verdict,
    },
    /// What a round has found so far.
    Locate {
        round: u32,
    },
    /// What a round has found, and its end.
    Close {
        round: u32,
    },
    /// How often the network changed.
    Current,
}

/// An event as it stands in a log: of a plan that was posted, whether it fitted its round.
#[derive(Clone, Copy, Debug, PartialEq, Eq)]
pub enum LoggedEvent {
    Change(Change),
    OpenRound,
    Pin {
        round: u32,
    },
    Post {
        round: u32,
        fits: bool,
    },
    Depart {
        round: u32,
        entry: u32,
    },
    Arrive {
        round: u32,
        entry: u32,
        verdict: Verdict,
    },
    Locate {
        round: u32,
    },
    Close {
        round: u32,
    },
    Current,
}

/// An entry of a log.
#[derive(Clone, Copy, Debug, PartialEq, Eq)]
pub struct Logged {
    pub caller: u32,
    pub event: LoggedEvent,
    /// Whether there was memory for it. One that is not stored changed nothing.
    pub stored: bool,
}

impl Event {
    ghost use Rattle.desk_core.specs.Applying.{logged_with};

    /// The event as it stands in a log. Of a plan it is told whether it fits.
    pub(crate) fn logged(&self, fits: bool) -> LoggedEvent
        ensures { result ≡ logged_with self.now fits }
    {
        match self {
            Event::Change(change) => LoggedEvent::Change(*change),
            Event::OpenRound => LoggedEvent::OpenRound,
            Event::Pin { round } => LoggedEvent::Pin { round: *round },
            Event::Post { round, .. } => LoggedEvent::Post {
                round: *round,
                fits,
            },
            Event::Depart { round, entry } => LoggedEvent::Depart {
                round: *round,
                entry: *entry,
            },
            Event::Arrive {
                round,
                entry,
                verdict,
            } => LoggedEvent::Arrive {
                round: *round,
                entry: *entry,
                verdict: *verdict,
            },
            Event::Locate { round } => LoggedEvent::Locate { round: *round },
            Event::Close { round } => LoggedEvent::Close { round: *round },
            Event::Current => LoggedEvent::Current,
        }
    }
}
