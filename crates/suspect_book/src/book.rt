ghost use Rattle.std.specs.Prelude.{◌≡◌, ◌-◌, ◌<◌, ◌≤◌, ◌↔◌, ℕ, None, Some, length, replicate, slice_set, IfOk, IsErrOf, OnOk, OnErr};
ghost use Rattle.std.specs.Arc.{arc_value};
ghost use Rattle.rule_cover.specs.Places.{numbers_of};
ghost use Rattle.fault_model.specs.Outcomes.{AreOutcomes, failed, has};
ghost use Rattle.fault_model.specs.Findings as model;
ghost use Rattle.suspect_book.specs.Fewness.{IsFew};
ghost use Rattle.suspect_book.specs.Marked.{Tells, is_rule, is_lone};
ghost use Rattle.suspect_book.specs.Reports.{findings_of};
ghost use Rattle.suspect_book.specs.Verdicts.{verdict_at, outcomes};

use super::few::Few;
use super::lists::{reserved_rows, standings};
use super::marks::{few_left, mark, mark_failed, mark_passed, rules_left};
use super::report::Report;
use super::sheet::Sheet;
use super::verdict::{Counted, Verdict};
use net_types::RuleId;
use no_memory::NoMemory;
use rule_cover::{Plan, rule_numbers};
use std::alloc::Global;
use std::marker::Model;
use std::sync::Arc;

/// The verdicts on the entries of a plan, and what they tell of its rules.
#[derive(Drop)]
pub struct Book {
    plan: Arc<Plan>,
    /// The numbers of the network's rules. A rule's place here is that of its marks.
    numbers: Vec<RuleId>,
    /// The verdict of each entry, in table order.
    verdicts: Vec<Option<Verdict>>,
    /// Which rules are on passed and on failed entries, and which reserved entries have no verdict.
    sheet: Sheet,
}

impl Model for Book {
    ghost use Rattle.std.specs.Prelude.{◌≡◌};
    ghost use Rattle.std.specs.Arc.{arc_value};
    ghost use Rattle.suspect_book.specs.BookValue.{BookValue, IsBook};

    ghost Value = { BookValue };

    ghost view = { λ b. record { plan = arc_value b.plan; verdicts = b.verdicts.items } };

    ghost invariant = { λ b. IsBook (arc_value b.plan) b.numbers.items b.verdicts.items b.sheet };
}

/// No verdict, so many times.
fn no_verdicts(alloc: Global, count: u32) -> Result<Vec<Option<Verdict>>, NoMemory>
    ensures { IfOk result (λ verdicts. verdicts.items ≡ replicate count None) }
{
    let mut verdicts = Vec::new(alloc);
    for _row in 0..count {
        verdicts.push(None)?;
    }
    Ok(verdicts)
}

impl Book {
    /// The book of a plan, with no verdict.
    pub fn new(alloc: Global, plan: Arc<Plan>) -> Result<Book, NoMemory>
        ensures plan { IfOk result (λ book. book.plan ≡ arc_value plan) }
        ensures empty { IfOk result (λ book. book.verdicts ≡ replicate (length (arc_value plan).plan.table) None) }
    {
        let _bits = plan.net().bits();
        let numbers = rule_numbers(alloc, plan.net())?;
        let verdicts = no_verdicts(alloc, plan.table().len())?;
        let lists = standings(alloc, &numbers, plan.table())?;
        let sheet = Sheet::new(alloc, lists, reserved_rows(alloc, &plan)?)?;
        Ok(Book {
            plan,
            numbers,
            verdicts,
            sheet,
        })
    }

    /// Gives an entry its verdict, unless it has one, which is given and stays. Takes no memory.
    pub fn count(&mut self, entry: u32, verdict: Verdict) -> Result<(), Counted>
        requires some { 0 < entry }
        requires inside { entry ≤ length self.old.plan.plan.table }
        ensures ok { OnOk result (self.new ≡ record self.old { verdicts = slice_set self.old.verdicts (entry - 1) (Some verdict) }) }
        ensures counted { (given : Verdict) → IsErrOf result (record { verdict = given }) ↔ (verdict_at self.old.verdicts entry ≡ Some given) }
        ensures stays { OnErr result (self.new ≡ self.old) }
    {
        match self.verdicts[entry as usize - 1] {
            Some(given) => Err(Counted { verdict: given }),
            None => {
                self.note(entry, verdict);
                Ok(())
            }
        }
    }

    /// Notes the verdict of an entry that has none, and marks its rules.
    fn note(&mut self, entry: u32, verdict: Verdict)
        requires some { 0 < entry }
        requires inside { entry ≤ length self.old.plan.plan.table }
        requires free { verdict_at self.old.verdicts entry ≡ None }
        ensures { self.new ≡ record self.old { verdicts = slice_set self.old.verdicts (entry - 1) (Some verdict) } }
    {
        let row = entry as usize - 1;
        self.verdicts[row] = Some(verdict);
        self.sheet.close(row);
        if let Some(tried) = self.plan.table().entry(entry) {
            let rules = tried.rules.as_slice();
            match verdict {
                Verdict::Pass => mark_passed(&self.numbers, &mut self.sheet, rules),
                Verdict::Fail => mark_failed(&self.numbers, &mut self.sheet, rules),
            }
        }
    }

    /// The verdict of an entry.
    pub fn verdict(&self, entry: u32) -> Option<Verdict>
        ensures { result ≡ verdict_at self.now.verdicts entry }
    {
        match entry {
            0 => None,
            _ => self.verdicts.get(entry as usize - 1).copied().flatten(),
        }
    }

    /// What the verdicts tell of the rules.
    pub fn findings(&self, alloc: Global) -> Result<Report, NoMemory>
        ensures outcomes { AreOutcomes self.now.plan.plan.table (outcomes self.now.verdicts) }
        ensures report { IfOk result (λ report. findings_of report ≡ model.findings self.now.plan.plan (outcomes self.now.verdicts)) }
    {
        let _ = &self.plan;
        self.report(alloc)
    }

    fn report(&self, alloc: Global) -> Result<Report, NoMemory>
        ensures { IfOk result (λ report. findings_of report ≡ model.findings self.now.plan.plan (outcomes self.now.verdicts)) }
    {
        let suspects = rules_left(
            alloc,
            &self.numbers,
            self.sheet.failed(),
            self.sheet.passed(),
        )?;
        let alone = self.alone(alloc)?;
        Ok(Report {
            suspects,
            guilty: rules_left(alloc, &self.numbers, &alone, self.sheet.passed())?,
            odd: self.odd(),
            next: self.telling(),
        })
    }

    /// The first reserved entry without a verdict that has exactly one different suspect rule. Takes no memory.
    pub fn telling(&self) -> Option<u32>
        ensures { result ≡ model.telling self.now.plan.plan (outcomes self.now.verdicts) }
    {
        let _count = self.plan.table().len();
        match self.sheet.first() {
            Some(row) => Some(row as u32 + 1),
            None => None,
        }
    }

    /// Whether an entry failed.
    fn has_failed(&self, entry: u32) -> bool
        ensures { result ≡ has (failed (outcomes self.now.verdicts)) entry }
    {
        match self.verdict(entry) {
            Some(Verdict::Fail) => true,
            Some(Verdict::Pass) => false,
            None => false,
        }
    }

    /// Whether an entry failed and has no suspect rule.
    fn is_odd(&self, entry: u32) -> bool
        ensures { result ≡ model.is_odd self.now.plan.plan.table (outcomes self.now.verdicts) entry }
    {
        self.has_failed(entry) && self.suspects_on(entry).is_nothing()
    }

    /// The only suspect rule of an entry that failed.
    fn lone(&self, entry: u32) -> Option<RuleId>
        ensures { (rule : ℕ) → is_rule result rule ≡ is_lone self.now.plan.plan.table (outcomes self.now.verdicts) entry rule }
    {
        if self.has_failed(entry) {
            self.suspects_on(entry).only()
        } else {
            None
        }
    }

    /// How many different suspect rules an entry has.
    fn suspects_on(&self, entry: u32) -> Few
        ensures { IsFew (model.suspects_on self.now.plan.plan.table (outcomes self.now.verdicts) entry) result }
    {
        match self.plan.table().entry(entry) {
            Some(tried) => few_left(
                &self.numbers,
                self.sheet.failed(),
                self.sheet.passed(),
                tried.rules.as_slice(),
            ),
            None => Few::Nothing,
        }
    }

    /// The first failed entry that has no suspect rule.
    fn odd(&self) -> Option<u32>
        ensures { result ≡ model.odd self.now.plan.plan.table (outcomes self.now.verdicts) }
    {
        for row in 0..self.plan.table().len() {
            if self.is_odd(row + 1) {
                return Some(row + 1);
            }
        }
        None
    }

    /// Which rules are the only suspect rule of some failed entry.
    fn alone(&self, alloc: Global) -> Result<Vec<bool>, NoMemory>
        ensures room { IfOk result (λ marks. length marks.items ≡ length (numbers_of self.now.plan.net)) }
        ensures alone { IfOk result (λ marks. Tells (numbers_of self.now.plan.net) (model.is_alone self.now.plan.plan.table (outcomes self.now.verdicts)) marks.items) }
    {
        let mut marks = vec![in alloc; false; self.numbers.len()]?;
        for row in 0..self.plan.table().len() {
            if let Some(rule) = self.lone(row + 1) {
                mark(&self.numbers, &mut marks, &[rule]);
            }
        }
        Ok(marks)
    }
}
