ghost use Rattle.std.specs.Prelude.{◌≡◌, ◌-◌, ◌<◌, ◌≤◌, ◌↔◌, ◌&&◌, None, Some, true, IfOk, OnOk, length, nat_le, replicate, slice_set};
ghost use Rattle.std.specs.Arc.{arc_value};
ghost use Rattle.network_model.specs.Plan.{IsPlan};
ghost use Rattle.fault_model.specs.Findings as model;
ghost use Rattle.suspect_book.specs.Reports.{findings_of};
ghost use Rattle.suspect_book.specs.Verdicts.{verdict_at, outcomes};
ghost use Rattle.desk_core.specs.Counting.{is_entry};
ghost use Rattle.desk_core.specs.RoundsValue.{sender_at};

use no_memory::NoMemory;
use rule_cover::Plan;
use std::alloc::Global;
use std::marker::Model;
use std::sync::Arc;
use suspect_book::{Book, Report, Verdict};

/// The plan of a round, the verdicts on its entries, and who noted the latest departure of each.
#[derive(Drop)]
pub(crate) struct Posted {
    plan: Arc<Plan>,
    book: Book,
    senders: Vec<Option<u32>>,
}

impl Model for Posted {
    ghost use Rattle.std.specs.Prelude.{◌≡◌, length};
    ghost use Rattle.std.specs.Arc.{arc_value};
    ghost use Rattle.desk_core.specs.RoundsValue.{PostedValue};

    ghost Value = { PostedValue };

    ghost view = { λ p. record { plan = p.book.plan; verdicts = p.book.verdicts; senders = p.senders.items } };

    ghost invariant = { λ p. (p.book.plan ≡ arc_value p.plan) × (length p.senders.items ≡ length (arc_value p.plan).plan.table) };
}

impl Posted {
    /// A plan of which nothing is known yet.
    pub(crate) fn new(alloc: Global, plan: Arc<Plan>) -> Result<Posted, NoMemory>
        ensures plan { OnOk result (IsPlan (arc_value plan).net (arc_value plan).hops (arc_value plan).plan) }
        ensures value { IfOk result (λ posted. posted ≡ record {
          plan = arc_value plan;
          verdicts = replicate (length (arc_value plan).plan.table) None;
          senders = replicate (length (arc_value plan).plan.table) None;
        }) }
    {
        let senders = vec![in alloc; None; plan.table().len() as usize]?;
        let book = Book::new(alloc, plan.clone()?)?;
        Ok(Posted {
            plan,
            book,
            senders,
        })
    }

    /// How many entries its table has.
    pub(crate) fn len(&self) -> u32
        ensures entries { result ≡ length self.now.plan.plan.table }
        ensures plan { IsPlan self.now.plan.net self.now.plan.hops self.now.plan.plan }
    {
        self.plan.table().len()
    }

    /// Whether its table has an entry of this number.
    pub(crate) fn has(&self, entry: u32) -> bool
        ensures { result ≡ is_entry (length self.now.plan.plan.table) entry }
    {
        1 <= entry && entry <= self.len()
    }

    /// The verdict on an entry.
    pub(crate) fn verdict(&self, entry: u32) -> Option<Verdict>
        ensures { result ≡ verdict_at self.now.verdicts entry }
    {
        self.book.verdict(entry)
    }

    /// Who noted the latest departure of an entry.
    pub(crate) fn sender(&self, entry: u32) -> Option<u32>
        requires { is_entry (length self.now.plan.plan.table) entry ≡ true }
        ensures { result ≡ sender_at self.now.senders entry }
    {
        self.senders[entry as usize - 1]
    }

    /// Notes a departure.
    pub(crate) fn depart(&mut self, entry: u32, caller: u32)
        requires { is_entry (length self.old.plan.plan.table) entry ≡ true }
        ensures { self.new ≡ record self.old { senders = slice_set self.old.senders (entry - 1) (Some caller) } }
    {
        self.senders[entry as usize - 1] = Some(caller);
    }

    /// Gives an entry that has none its verdict.
    pub(crate) fn count(&mut self, entry: u32, verdict: Verdict)
        requires entry { is_entry (length self.old.plan.plan.table) entry ≡ true }
        requires none { verdict_at self.old.verdicts entry ≡ None }
        ensures { self.new ≡ record self.old { verdicts = slice_set self.old.verdicts (entry - 1) (Some verdict) } }
    {
        let _ = self.book.count(entry, verdict);
    }

    /// What the verdicts tell.
    pub(crate) fn findings(&self, alloc: Global) -> Result<Report, NoMemory>
        ensures { IfOk result (λ report. findings_of report ≡ model.findings self.now.plan.plan (outcomes self.now.verdicts)) }
    {
        self.book.findings(alloc)
    }
}
