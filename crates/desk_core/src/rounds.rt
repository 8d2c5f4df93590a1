ghost use Rattle.std.specs.Prelude.{◌≡◌, ℕ, [], ◌+◌, ◌^◌, ◌<◌, ◌↔◌, ◌==◌, IsTrue, IfOk};
ghost use Rattle.std.specs.Arc.{arc_value};
ghost use Rattle.std.specs.List.{position};
ghost use Rattle.network_model.specs.Network.{Network as Net};
ghost use Rattle.desk_core.specs.declared.event.LoggedEvent.TheVariants as logged;
ghost use Rattle.desk_core.specs.Past.{Past};
ghost use Rattle.desk_core.specs.Replies.{reply_value};
ghost use Rattle.desk_core.specs.Applying.{Fits, IsFit, logged_with};
ghost use Rattle.desk_core.specs.RoundsValue.{RoundValue};
ghost use Rattle.desk_core.specs.Keeping.{Mirrors, Stepped, fault_reply};

use super::event::Event;
use super::reply::{Refusal, Reply};
use super::round::Round;
use net_types::{NetFault, Network};
use net_versions::{Change, Versions};
use no_memory::NoMemory;
use rule_cover::Plan;
use std::alloc::Global;
use std::marker::Model;
use std::sync::Arc;
use suspect_book::Verdict;

/// How many rounds may be open.
pub const OPEN_ROUNDS: usize = 16;

/// The network as it is now, how many rounds were opened, and those that are open, in order of number.
#[derive(Drop)]
pub(crate) struct Rounds {
    alloc: Global,
    versions: Versions,
    opened: u32,
    rounds: Vec<Round>,
}

impl Model for Rounds {
    ghost use Rattle.desk_core.specs.RoundsValue.{RoundsValue};

    ghost Value = { RoundsValue };

    ghost view = { λ r. record { now = r.versions; opened = r.opened; open_rounds = r.rounds.items } };
}

/// Where the round of this number stands among these.
fn place_of(rounds: &[Round], number: u32) -> Option<usize>
    ensures { result ≡ position (λ (r : RoundValue). r.number == number) rounds.now }
{
    rounds.iter().position(|round| round.number() == number)
}

/// The reply to a change that was not made.
fn refused(fault: NetFault) -> Reply
    ensures { reply_value result ≡ fault_reply fault }
{
    match fault {
        NetFault::NoMemory => Reply::NoMemory,
        _ => Reply::Refused(Refusal::Rule(fault)),
    }
}

impl Rounds {
    /// No round, and this network.
    pub(crate) fn new(alloc: Global, net: Network) -> Result<Rounds, NoMemory>
        ensures mirrors { IfOk result (λ rounds. (hops : ℕ) → Mirrors net hops [] rounds) }
        ensures net { IfOk result (λ rounds. rounds.now.net ≡ net) }
    {
        Ok(Rounds {
            alloc,
            versions: Versions::new(alloc, net)?,
            opened: 0,
            rounds: Vec::new(alloc),
        })
    }

    /// The network as it is now.
    pub(crate) fn network(&mut self) -> Result<Arc<Network>, NoMemory>
        ensures net { IfOk result (λ net. arc_value net ≡ self.old.now.net) }
        ensures stays { self.new ≡ self.old }
    {
        Ok(self.versions.pin()?.net)
    }

    fn change(&mut self, caller: u32, change: Change) -> Reply
        requires few { self.old.now.version + 1 < 2 ^ 32 }
        ensures { (opening : Net) (hops : ℕ) (past : Past) → Mirrors opening hops past self.old
            → Stepped opening hops past caller (logged.Change change) (reply_value result) self.new }
    {
        match self.versions.change(change) {
            Ok(version) => Reply::Changed { version },
            Err(fault) => refused(fault),
        }
    }

    fn open_round(&mut self, caller: u32) -> Reply
        requires few { self.old.opened + 1 < 2 ^ 32 }
        ensures { (opening : Net) (hops : ℕ) (past : Past) → Mirrors opening hops past self.old
            → Stepped opening hops past caller logged.OpenRound (reply_value result) self.new }
    {
        if self.rounds.len() >= OPEN_ROUNDS {
            return Reply::Refused(Refusal::RoundsFull);
        }
        let Ok(pin) = self.versions.pin() else {
            return Reply::NoMemory;
        };
        let round = self.opened + 1;
        let version = pin.version;
        if self.rounds.push(Round::open(round, pin)).is_err() {
            return Reply::NoMemory;
        }
        self.opened = round;
        Reply::Opened { round, version }
    }

    fn pin(&self, caller: u32, round: u32) -> Reply
        ensures { (opening : Net) (hops : ℕ) (past : Past) → Mirrors opening hops past self.now
            → Stepped opening hops past caller (logged.Pin round) (reply_value result) self.now }
    {
        match place_of(&self.rounds, round) {
            Some(i) => self.rounds[i].pinned(),
            None => Reply::Refused(Refusal::NoRound { round }),
        }
    }

    /// Whether an event posts a plan of the network of an open round, and of this hop limit.
    pub(crate) fn fits(&self, hops: u32, event: &Event) -> bool
        ensures { (opening : Net) (past : Past) → Mirrors opening hops past self.now → IsFit opening hops past event.now result }
    {
        match event {
            Event::Post { round, plan } => self.fits_round(hops, *round, plan),
            _ => false,
        }
    }

    fn fits_round(&self, hops: u32, round: u32, plan: &Plan) -> bool
        ensures { (opening : Net) (past : Past) → Mirrors opening hops past self.now
            → IsTrue result ↔ Fits opening hops past round plan.now }
    {
        match place_of(&self.rounds, round) {
            Some(i) => self.rounds[i].fits(plan, hops),
            None => false,
        }
    }

    fn post(&mut self, caller: u32, round: u32, plan: Arc<Plan>, fits: bool) -> Reply
        ensures { (opening : Net) (hops : ℕ) (past : Past) → Mirrors opening hops past self.old
            → (IsTrue fits ↔ Fits opening hops past round (arc_value plan))
            → Stepped opening hops past caller (logged.Post round fits) (reply_value result) self.new }
    {
        let Some(i) = place_of(&self.rounds, round) else {
            return Reply::Refused(Refusal::NoRound { round });
        };
        let round = &mut self.rounds[i];
        round.post(self.alloc, plan, fits)
    }

    fn depart(&mut self, caller: u32, round: u32, entry: u32) -> Reply
        ensures { (opening : Net) (hops : ℕ) (past : Past) → Mirrors opening hops past self.old
            → Stepped opening hops past caller (logged.Depart round entry) (reply_value result) self.new }
    {
        let now = self.versions.version();
        let Some(i) = place_of(&self.rounds, round) else {
            return Reply::Refused(Refusal::NoRound { round });
        };
        let round = &mut self.rounds[i];
        round.depart(caller, now, entry)
    }

    fn arrive(&mut self, caller: u32, round: u32, entry: u32, verdict: Verdict) -> Reply
        ensures { (opening : Net) (hops : ℕ) (past : Past) → Mirrors opening hops past self.old
            → Stepped opening hops past caller (logged.Arrive round entry verdict) (reply_value result) self.new }
    {
        let now = self.versions.version();
        let Some(i) = place_of(&self.rounds, round) else {
            return Reply::Refused(Refusal::NoRound { round });
        };
        let round = &mut self.rounds[i];
        round.arrive(caller, now, entry, verdict)
    }

    fn locate(&self, caller: u32, round: u32) -> Reply
        ensures { (opening : Net) (hops : ℕ) (past : Past) → Mirrors opening hops past self.now
            → Stepped opening hops past caller (logged.Locate round) (reply_value result) self.now }
    {
        match place_of(&self.rounds, round) {
            Some(i) => self.rounds[i].locate(self.alloc),
            None => Reply::Refused(Refusal::NoRound { round }),
        }
    }

    /// A round that can't tell for want of memory stays open.
    fn close(&mut self, caller: u32, round: u32) -> Reply
        ensures { (opening : Net) (hops : ℕ) (past : Past) → Mirrors opening hops past self.old
            → Stepped opening hops past caller (logged.Close round) (reply_value result) self.new }
    {
        let Some(i) = place_of(&self.rounds, round) else {
            return Reply::Refused(Refusal::NoRound { round });
        };
        let Ok(report) = self.rounds[i].report(self.alloc) else {
            return Reply::NoMemory;
        };
        let _closed = self.rounds.remove(i);
        Reply::Closed(report)
    }

    fn current(&self, caller: u32) -> Reply
        ensures { (opening : Net) (hops : ℕ) (past : Past) → Mirrors opening hops past self.now
            → Stepped opening hops past caller logged.Current (reply_value result) self.now }
    {
        Reply::Now {
            version: self.versions.version(),
        }
    }

    /// Answers a caller's event. Of a plan it is told whether it fits.
    pub(crate) fn answer(&mut self, caller: u32, event: Event, fits: bool) -> Reply
        requires versions { self.old.now.version + 1 < 2 ^ 32 }
        requires rounds { self.old.opened + 1 < 2 ^ 32 }
        ensures { (opening : Net) (hops : ℕ) (past : Past) → Mirrors opening hops past self.old → IsFit opening hops past event fits
            → Stepped opening hops past caller (logged_with event fits) (reply_value result) self.new }
    {
        match event {
            Event::Change(change) => self.change(caller, change),
            Event::OpenRound => self.open_round(caller),
            Event::Pin { round } => self.pin(caller, round),
            Event::Post { round, plan } => self.post(caller, round, plan, fits),
            Event::Depart { round, entry } => self.depart(caller, round, entry),
            Event::Arrive {
                round,
                entry,
                verdict,
            } => self.arrive(caller, round, entry, verdict),
            Event::Locate { round } => self.locate(caller, round),
            Event::Close { round } => self.close(caller, round),
            Event::Current => self.current(caller),
        }
    }
}
