ghost use Rattle.std.specs.Prelude.{◌≡◌, ◌↔◌, ◌⊎◌, None, Some, true, IsTrue, IfOk, length};
ghost use Rattle.std.specs.Arc.{arc_value};
ghost use Rattle.std.specs.Option.{option_map};
ghost use Rattle.network_model.specs.Plan.{IsPlan};
ghost use Rattle.suspect_book.specs.Reports.{findings_of};
ghost use Rattle.desk_core.specs.declared.reply.Refusal.{Refusal as Why};
ghost use Rattle.desk_core.specs.Replies.{reply_value, unless_refused, pinned, NoMemory as NoRoom, Departed as HasDeparted, Counted as HasCounted, Posted as HasPosted, Located as HasLocated, Refused as HasRefused};
ghost use Rattle.desk_core.specs.Counting.{is_entry, is_caller};
ghost use Rattle.desk_core.specs.RoundsValue.{sender_at};
ghost use Rattle.desk_core.specs.Keeping.{depart_refusal, arrive_refusal, no_posted, entries_of, senders_of};
ghost use Rattle.desk_core.specs.Posting.{post_refusal, unsent, with_sender, with_verdict, found_in};

use super::posted::Posted;
use super::reply::{Refusal, Reply};
use net_types::RuleList;
use net_versions::Pin;
use no_memory::NoMemory;
use rule_cover::Plan;
use std::alloc::Global;
use std::marker::Model;
use std::sync::Arc;
use suspect_book::{Report, Verdict};

/// An open round: the network as it was at its opening, and its plan, if one is posted.
#[derive(Drop)]
pub(crate) struct Round {
    number: u32,
    pin: Pin,
    posted: Option<Posted>,
}

impl Model for Round {
    ghost use Rattle.std.specs.Arc.{arc_value};
    ghost use Rattle.desk_core.specs.RoundsValue.{RoundValue};

    ghost Value = { RoundValue };

    ghost view = { λ r. record { number = r.number; pinned = record { version = r.pin.version; net = arc_value r.pin.net }; posted = r.posted } };
}

impl Round {
    /// A round that is opened now.
    pub(crate) fn open(number: u32, pin: Pin) -> Round
        ensures { result ≡ record { number = number; pinned = record { version = pin.version; net = arc_value pin.net }; posted = None } }
    {
        Round {
            number,
            pin,
            posted: None,
        }
    }

    pub(crate) fn number(&self) -> u32
        ensures { result ≡ self.now.number }
    {
        self.number
    }

    /// Whether a plan is of its network and of this hop limit.
    pub(crate) fn fits(&self, plan: &Plan, hops: u32) -> bool
        ensures { IsTrue result ↔ ((plan.now.net ≡ self.now.pinned.net) × (plan.now.hops ≡ hops)) }
    {
        plan.net().same(&self.pin.net) && plan.hops() == hops
    }

    /// Its network and version.
    pub(crate) fn pinned(&self) -> Reply
        ensures { (reply_value result ≡ pinned self.now.pinned) ⊎ (reply_value result ≡ NoRoom) }
    {
        match self.pin.net.clone() {
            Ok(net) => Reply::Pinned {
                version: self.pin.version,
                net,
            },
            Err(_) => Reply::NoMemory,
        }
    }

    /// Takes a plan, which fits or doesn't.
    pub(crate) fn post(&mut self, alloc: Global, plan: Arc<Plan>, fits: bool) -> Reply
        ensures refused { (why : Why) → post_refusal self.old fits ≡ Some why → (reply_value result ≡ HasRefused why) × (self.new ≡ self.old) }
        ensures taken { post_refusal self.old fits ≡ None →
            ((reply_value result ≡ HasPosted (length (arc_value plan).plan.table)) × (self.new ≡ record self.old { posted = Some (unsent (arc_value plan)) })
            × IsPlan (arc_value plan).net (arc_value plan).hops (arc_value plan).plan)
            ⊎ ((reply_value result ≡ NoRoom) × (self.new ≡ self.old)) }
    {
        if self.posted.is_some() {
            return Reply::Refused(Refusal::AlreadyPosted { round: self.number });
        }
        if !fits {
            return Reply::Refused(Refusal::WrongSnapshot { round: self.number });
        }
        match Posted::new(alloc, plan) {
            Ok(posted) => {
                let entries = posted.len();
                self.posted = Some(posted);
                Reply::Posted { entries }
            }
            Err(_) => Reply::NoMemory,
        }
    }

    /// Why a packet of the entry may not depart.
    fn depart_refusal(&self, now: u32, entry: u32) -> Option<Refusal>
        ensures { result ≡ depart_refusal self.now now entry }
    {
        let Some(posted) = &self.posted else {
            return Some(Refusal::NoPlan { round: self.number });
        };
        if !posted.has(entry) {
            return Some(Refusal::NoEntry { entry });
        }
        let pinned = self.pin.version;
        if pinned != now {
            return Some(Refusal::Moved { pinned, now });
        }
        let verdict = posted.verdict(entry)?;
        Some(Refusal::AlreadyCounted { verdict })
    }

    /// Notes that a packet of the entry departs.
    pub(crate) fn depart(&mut self, caller: u32, now: u32, entry: u32) -> Reply
        ensures reply { reply_value result ≡ unless_refused (depart_refusal self.old now entry) HasDeparted }
        ensures refused { (why : Why) → depart_refusal self.old now entry ≡ Some why → self.new ≡ self.old }
        ensures noted { depart_refusal self.old now entry ≡ None → self.new ≡ record self.old { posted = option_map (with_sender entry caller) self.old.posted } }
    {
        if let Some(refusal) = self.depart_refusal(now, entry) {
            return Reply::Refused(refusal);
        }
        if let Some(posted) = &mut self.posted {
            posted.depart(entry, caller);
        }
        Reply::Departed
    }

    /// Whether the latest departure of the entry is this caller's.
    fn is_sender(&self, caller: u32, entry: u32) -> bool
        requires { is_entry (entries_of self.now.posted) entry ≡ true }
        ensures { result ≡ is_caller (sender_at (senders_of self.now.posted) entry) caller }
    {
        match &self.posted {
            Some(posted) => posted.sender(entry) == Some(caller),
            None => false,
        }
    }

    /// Counts what a packet of the entry came to.
    pub(crate) fn arrive(&mut self, caller: u32, now: u32, entry: u32, verdict: Verdict) -> Reply
        ensures reply { reply_value result ≡ unless_refused (arrive_refusal self.old now caller entry) (HasCounted verdict) }
        ensures refused { (why : Why) → arrive_refusal self.old now caller entry ≡ Some why → self.new ≡ self.old }
        ensures counted { arrive_refusal self.old now caller entry ≡ None → self.new ≡ record self.old { posted = option_map (with_verdict entry verdict) self.old.posted } }
    {
        if let Some(refusal) = self.depart_refusal(now, entry) {
            return Reply::Refused(refusal);
        }
        if !self.is_sender(caller, entry) {
            return Reply::Refused(Refusal::NotSent);
        }
        if let Some(posted) = &mut self.posted {
            posted.count(entry, verdict);
        }
        Reply::Counted { verdict }
    }

    /// What its packets have told so far.
    pub(crate) fn locate(&self, alloc: Global) -> Reply
        ensures refused { (why : Why) → no_posted self.now ≡ Some why → reply_value result ≡ HasRefused why }
        ensures found { no_posted self.now ≡ None → (reply_value result ≡ HasLocated (found_in self.now.posted)) ⊎ (reply_value result ≡ NoRoom) }
    {
        if self.posted.is_none() {
            return Reply::Refused(Refusal::NoPlan { round: self.number });
        }
        match self.report(alloc) {
            Ok(report) => Reply::Located(report),
            Err(_) => Reply::NoMemory,
        }
    }

    /// What its packets have told; nothing where it has no plan.
    pub(crate) fn report(&self, alloc: Global) -> Result<Report, NoMemory>
        ensures { IfOk result (λ report. findings_of report ≡ found_in self.now.posted) }
    {
        match &self.posted {
            Some(posted) => posted.findings(alloc),
            None => Ok(Report {
                suspects: RuleList::new(alloc),
                guilty: RuleList::new(alloc),
                odd: None,
                next: None,
            }),
        }
    }
}
