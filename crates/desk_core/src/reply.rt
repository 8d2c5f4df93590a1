ghost use Rattle.std.specs.Prelude.{◌≡◌};

use net_types::{NetFault, Network};
use std::sync::Arc;
use suspect_book::{Report, Verdict};

/// Why an event is refused.
#[derive(Clone, Copy, Debug, PartialEq, Eq)]
pub enum Refusal {
    /// The log has as many entries as it may have.
    LogFull { at: u64 },
    /// The round is not open.
    NoRound { round: u32 },
    /// No plan is posted for the round.
    NoPlan { round: u32 },
    AlreadyPosted { round: u32 },
    /// The plan is of another network or hop limit.
    WrongSnapshot { round: u32 },
    /// The table has no entry of this number.
    NoEntry { entry: u32 },
    /// The network changed since the round was opened.
    Moved { pinned: u32, now: u32 },
    /// The entry has this verdict already.
    AlreadyCounted { verdict: Verdict },
    /// The latest departure of the entry is not this caller's.
    NotSent,
    /// As many rounds are open as may be.
    RoundsFull,
    /// The network doesn't take the change.
    Rule(NetFault),
}

/// What a desk answers.
#[derive(Drop)]
pub enum Reply {
    Changed { version: u32 },
    Opened { round: u32, version: u32 },
    Pinned { version: u32, net: Arc<Network> },
    Posted { entries: u32 },
    Departed,
    Counted { verdict: Verdict },
    Located(Report),
    Closed(Report),
    Now { version: u32 },
    Refused(Refusal),
    NoMemory,
    /// The event could not be kept. A desk alone never answers this.
    Unkept,
}

impl Reply {
    ghost use Rattle.desk_core.specs.Replies.{is_kept, reply_value};

    /// Whether there was memory for it.
    pub(crate) fn is_kept(&self) -> bool
        ensures { result ≡ is_kept (reply_value self.now) }
    {
        !matches!(self, Reply::NoMemory)
    }
}
