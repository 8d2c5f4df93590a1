ghost use Rattle.std.specs.Prelude.{◌≡◌, ◌≤◌, [], length, IfOk, slice_get};
ghost use Rattle.std.specs.Option.{option_copied};
ghost use Rattle.desk_core.specs.Past.{past_of};
ghost use Rattle.desk_core.specs.Legal.{IsLegal};
ghost use Rattle.desk_core.specs.Applying.{Applied};

use super::event::{Event, Logged};
use super::reply::{Refusal, Reply};
use super::rounds::Rounds;
use net_types::Network;
use no_memory::NoMemory;
use std::alloc::Global;
use std::marker::Model;
use std::sync::Arc;

/// The desk: it answers events, and logs each of them with its caller. Contracts see it as the network that it began with,
/// the hop limit of its plans, how many entries its log may have, and the log.
#[derive(Drop)]
pub struct Desk {
    rounds: Rounds,
    hops: u32,
    room: u64,
    log: Vec<Logged>,
    /// The network that it began with.
    opening: Arc<Network>,
}

impl Model for Desk {
    ghost use Rattle.std.specs.Arc.{arc_value};
    ghost use Rattle.desk_core.specs.DeskValue.{DeskValue};

    ghost Value = { DeskValue };

    ghost use Rattle.desk_core.specs.Standing.{Stands};

    ghost view = { λ d. record { opening = arc_value d.opening; hops = d.hops; room = d.room; log = d.log.items } };

    ghost invariant = { Stands };
}

impl Desk {
    /// A desk over this network, for plans of this hop limit, whose log may have so many entries. It takes their memory.
    pub fn new(alloc: Global, net: Network, hops: u32, room: u64) -> Result<Desk, NoMemory>
        requires hops { (1 ≤ hops) × (hops ≤ 255) }
        requires room { (1 ≤ room) × (room ≤ 4194304) }
        ensures { IfOk result (λ desk. desk ≡ record { opening = net; hops = hops; room = room; log = [] }) }
    {
        let mut rounds = Rounds::new(alloc, net)?;
        Ok(Desk {
            opening: rounds.network()?,
            rounds,
            hops,
            room,
            log: Vec::with_capacity(alloc, room as usize)?,
        })
    }

    /// How many entries the log has.
    pub fn len(&self) -> u64
        ensures length { result ≡ length self.now.log }
        ensures legal { IsLegal (past_of self.now.log) }
        ensures within { result ≤ self.now.room }
        ensures most { self.now.room ≤ 4194304 }
    {
        self.log.len() as u64
    }

    /// How many entries the log may have.
    pub fn room(&self) -> u64
        ensures { result ≡ self.now.room }
    {
        self.room
    }

    /// The hop limit of its plans.
    pub fn hops(&self) -> u32
        ensures { result ≡ self.now.hops }
    {
        self.hops
    }

    /// The entry at a place, counted from 0.
    pub fn entry(&self, place: u64) -> Option<&Logged>
        ensures { option_copied result ≡ slice_get self.now.log place }
    {
        self.log.get(place as usize)
    }

    /// Answers a caller's event.
    pub fn apply(&mut self, caller: u32, event: Event) -> Reply
        ensures applied { Applied self.old caller event result self.new }
        ensures legal { IsLegal (past_of self.new.log) }
    {
        if self.len() == self.room {
            return Reply::Refused(Refusal::LogFull { at: self.room });
        }
        let fits = self.rounds.fits(self.hops, &event);
        let logged = event.logged(fits);
        let reply = self.rounds.answer(caller, event, fits);
        self.log.push_reserved(Logged {
            caller,
            event: logged,
            stored: reply.is_kept(),
        });
        reply
    }
}
