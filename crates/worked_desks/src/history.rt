//! The reply to an event, by searching the history before it. The network has two boxes behind one another, with a rule in the
//! first and two in the second. A further rule in the first comes and goes. There is memory for all that is asked.
use crate::asking::{NOTHING, Told};
use crate::findings::{Row, brief};
use desk_core::Refusal;
use net_types::NetFault;
use no_memory::NoMemory;
use std::alloc::Global;
use suspect_book::Verdict;

/// What is asked. A plan is that of the network with the further rule, or without it.
#[derive(Clone, Copy)]
pub(crate) enum Asked {
    AddFurther,
    CutFurther,
    /// A rule of another width.
    AddWider,
    OpenRound,
    Pin {
        round: u32,
    },
    Post {
        round: u32,
        further: bool,
    },
    Depart {
        round: u32,
        entry: u32,
    },
    Arrive {
        round: u32,
        entry: u32,
        verdict: Verdict,
    },
    Locate {
        round: u32,
    },
    Close {
        round: u32,
    },
    Current,
}

#[derive(Clone, Copy)]
struct Moment {
    caller: u32,
    asked: Asked,
}

/// How often the network has changed, and whether it has the further rule.
#[derive(Clone, Copy)]
struct State {
    version: u32,
    further: bool,
}

/// All that was asked, the places at which rounds were opened, and how many events there may be.
#[derive(Drop)]
pub(crate) struct History {
    log: Vec<Moment>,
    opened: Vec<usize>,
    room: usize,
}

impl History {
    pub(crate) fn new(alloc: Global, room: usize) -> History {
        History {
            log: Vec::new(alloc),
            opened: Vec::new(alloc),
            room,
        }
    }

    /// How many rounds were opened.
    pub(crate) fn rounds(&self) -> u32 {
        u32::try_from(self.opened.len()).unwrap_or(u32::MAX)
    }

    pub(crate) fn is_full(&self) -> bool {
        self.log.len() == self.room
    }

    /// Adds an event, unless there are as many as there may be.
    pub(crate) fn push(&mut self, caller: u32, asked: Asked) -> Result<(), NoMemory> {
        let place = self.log.len();
        if self.is_full() {
            return Ok(());
        }
        if matches!(asked, Asked::OpenRound) && self.open_rounds(place) < 16 {
            self.opened.push(place)?;
        }
        self.log.push(Moment { caller, asked })?;
        Ok(())
    }

    fn state(&self, place: usize) -> State {
        let mut version: u32 = 0;
        let mut further = false;
        for moment in self.log.iter().take(place) {
            let changed = match moment.asked {
                Asked::AddFurther => !further,
                Asked::CutFurther => further,
                _ => false,
            };
            if changed {
                version = version.saturating_add(1);
                further = !further;
            }
        }
        State { version, further }
    }

    // Where a round was opened, if that was before a place.
    fn opening(&self, place: usize, round: u32) -> Option<usize> {
        let at = *self.opened.get(round.checked_sub(1)? as usize)?;
        if at < place { Some(at) } else { None }
    }

    fn is_open(&self, place: usize, round: u32) -> bool {
        let Some(at) = self.opening(place, round) else {
            return false;
        };
        for moment in self.log.iter().take(place).skip(at) {
            if matches!(moment.asked, Asked::Close { round: closed } if closed == round) {
                return false;
            }
        }
        true
    }

    fn open_rounds(&self, place: usize) -> u32 {
        let mut open: u32 = 0;
        for round in 1..=self.rounds() {
            if self.is_open(place, round) {
                open = open.saturating_add(1);
            }
        }
        open
    }

    fn at_opening(&self, place: usize, round: u32) -> State {
        self.state(self.opening(place, round).unwrap_or(0))
    }

    /// Whether the plan of the network with the further rule, or without it, fits a round now.
    pub(crate) fn fits_now(&self, round: u32, further: bool) -> bool {
        self.fits(self.log.len(), round, further)
    }

    fn fits(&self, place: usize, round: u32, further: bool) -> bool {
        self.is_open(place, round) && self.at_opening(place, round).further == further
    }

    fn is_posted(&self, place: usize, round: u32) -> bool {
        for (i, moment) in self.log.iter().take(place).enumerate() {
            if let Asked::Post {
                round: posted,
                further,
            } = moment.asked
                && posted == round
                && self.fits(i, round, further)
            {
                return true;
            }
        }
        false
    }

    // The plan has an entry for each pair of a rule of the first box and one of the second.
    fn entries(&self, place: usize, round: u32) -> u32 {
        if self.at_opening(place, round).further {
            4
        } else {
            2
        }
    }

    fn is_live(&self, place: usize, round: u32, entry: u32) -> bool {
        1 <= entry
            && entry <= self.entries(place, round)
            && self.is_open(place, round)
            && self.is_posted(place, round)
            && self.at_opening(place, round).version == self.state(place).version
    }

    // Who noted the latest departure of an entry that was one.
    fn sender(&self, place: usize, round: u32, entry: u32) -> Option<u32> {
        for i in (0..place).rev() {
            if let Some(moment) = self.log.get(i)
                && matches!(moment.asked, Asked::Depart { round: r, entry: e } if r == round && e == entry)
                && self.is_live(i, round, entry)
            {
                return Some(moment.caller);
            }
        }
        None
    }

    // The verdict of the first arrival of an entry that counts.
    fn counted(&self, place: usize, round: u32, entry: u32) -> Option<Verdict> {
        for (i, moment) in self.log.iter().take(place).enumerate() {
            if let Asked::Arrive {
                round: r,
                entry: e,
                verdict,
            } = moment.asked
                && r == round
                && e == entry
                && self.is_live(i, round, entry)
                && self.sender(i, round, entry) == Some(moment.caller)
            {
                return Some(verdict);
            }
        }
        None
    }

    // An entry of the plan of a round, or one that came to nothing.
    fn row(&self, place: usize, round: u32, entry: u32, rules: [u32; 2], reserved: bool) -> Row {
        Row {
            entry,
            rules,
            verdict: self.counted(place, round, entry),
            reserved: reserved && entry <= self.entries(place, round),
        }
    }

    // Of the four entries the first and the last take all rules.
    fn rows(&self, place: usize, round: u32) -> [Row; 4] {
        [
            self.row(place, round, 1, [5, 7], false),
            self.row(place, round, 2, [5, 8], self.entries(place, round) == 4),
            self.row(place, round, 3, [6, 7], true),
            self.row(place, round, 4, [6, 8], false),
        ]
    }

    fn refused_packet(&self, place: usize, round: u32, entry: u32) -> Option<Refusal> {
        if !self.is_open(place, round) {
            return Some(Refusal::NoRound { round });
        }
        if !self.is_posted(place, round) {
            return Some(Refusal::NoPlan { round });
        }
        if entry == 0 || self.entries(place, round) < entry {
            return Some(Refusal::NoEntry { entry });
        }
        let pinned = self.at_opening(place, round).version;
        let now = self.state(place).version;
        if pinned != now {
            return Some(Refusal::Moved { pinned, now });
        }
        let verdict = self.counted(place, round, entry)?;
        Some(Refusal::AlreadyCounted { verdict })
    }

    /// The reply to a caller's event now.
    pub(crate) fn reply(&self, caller: u32, asked: Asked) -> Told {
        let place = self.log.len();
        if self.is_full() {
            return Told::Refused(Refusal::LogFull {
                at: self.room as u64,
            });
        }
        match asked {
            Asked::AddFurther | Asked::CutFurther | Asked::AddWider => self.changed(place, asked),
            Asked::OpenRound => self.opened(place),
            Asked::Depart { round, entry } => match self.refused_packet(place, round, entry) {
                Some(refusal) => Told::Refused(refusal),
                None => Told::Departed,
            },
            Asked::Arrive {
                round,
                entry,
                verdict,
            } => self.arrived(place, caller, round, entry, verdict),
            Asked::Current => Told::Now(self.state(place).version),
            Asked::Pin { round }
            | Asked::Post { round, .. }
            | Asked::Locate { round }
            | Asked::Close { round } => {
                if self.is_open(place, round) {
                    self.of_round(place, round, asked)
                } else {
                    Told::Refused(Refusal::NoRound { round })
                }
            }
        }
    }

    fn changed(&self, place: usize, asked: Asked) -> Told {
        let State { version, further } = self.state(place);
        match (asked, further) {
            (Asked::AddWider, _) => Told::Refused(Refusal::Rule(NetFault::Width)),
            (Asked::AddFurther, true) => Told::Refused(Refusal::Rule(NetFault::Twice)),
            (Asked::CutFurther, false) => Told::Refused(Refusal::Rule(NetFault::Unknown)),
            _ => Told::Changed(version.saturating_add(1)),
        }
    }

    fn opened(&self, place: usize) -> Told {
        if self.open_rounds(place) < 16 {
            Told::Opened(self.rounds().saturating_add(1), self.state(place).version)
        } else {
            Told::Refused(Refusal::RoundsFull)
        }
    }

    fn arrived(&self, place: usize, caller: u32, round: u32, entry: u32, verdict: Verdict) -> Told {
        if let Some(refusal) = self.refused_packet(place, round, entry) {
            return Told::Refused(refusal);
        }
        if self.sender(place, round, entry) == Some(caller) {
            Told::Counted(verdict)
        } else {
            Told::Refused(Refusal::NotSent)
        }
    }

    // The reply to an event of an open round that is no packet's.
    fn of_round(&self, place: usize, round: u32, asked: Asked) -> Told {
        let pinned = self.at_opening(place, round);
        let posted = self.is_posted(place, round);
        match asked {
            Asked::Post { .. } if posted => Told::Refused(Refusal::AlreadyPosted { round }),
            Asked::Post { further, .. } if further != pinned.further => {
                Told::Refused(Refusal::WrongSnapshot { round })
            }
            Asked::Post { .. } => Told::Posted(self.entries(place, round)),
            Asked::Locate { .. } if posted => Told::Located(brief(&self.rows(place, round))),
            Asked::Locate { .. } => Told::Refused(Refusal::NoPlan { round }),
            Asked::Close { .. } if posted => Told::Closed(brief(&self.rows(place, round))),
            Asked::Close { .. } => Told::Closed(NOTHING),
            _ => Told::Pinned(pinned.version, if pinned.further { 4 } else { 3 }),
        }
    }
}
