//! Failed and passed rules, and how many rules that failed and did not pass stand on each entry.
//!
//! A rule comes to these once at most, and leaves them once at most. Only then the counts of the entries on which it stands
//! change.
ghost use Rattle.std.specs.Prelude.{◌≡◌, ◌==◌, ◌&&◌, ◌<◌, ℕ, Bool, false, true, List, [], length, replicate, slice_set, slice_index, slice_index_or, IfOk};
ghost use Rattle.std.specs.List.Sorted.{IsStrictlyIncreasing};
ghost use Rattle.suspect_book.specs.Flagged.{IsFirst};
ghost use Rattle.suspect_book.specs.Sheets.{tally};

use super::standing::Standing;
use super::tally::Tally;
use no_memory::NoMemory;
use std::alloc::Global;
use std::marker::Model;

/// For each rule, by its place, the entries on which it stands, and whether it failed and passed.
#[derive(Drop)]
pub(crate) struct Sheet {
    lists: Vec<Standing>,
    failed: Vec<bool>,
    passed: Vec<bool>,
    tally: Tally,
}

impl Model for Sheet {
    ghost use Rattle.suspect_book.specs.Sheets.{SheetValue, IsSheet};

    ghost Value = { SheetValue };

    ghost view = { λ s. record { lists = s.lists.items; failed = s.failed.items; passed = s.passed.items; opens = s.tally.opens } };

    ghost invariant = { λ s. IsSheet s.lists.items s.failed.items s.passed.items s.tally.opens s.tally.counts };
}

impl Sheet {
    /// No rule failed or passed.
    pub(crate) fn new(
        alloc: Global,
        lists: Vec<Standing>,
        opens: Vec<bool>,
    ) -> Result<Sheet, NoMemory>
        requires rises { (p : ℕ) → p < length lists.items → IsStrictlyIncreasing (slice_index_or lists.items p []) }
        requires inside { (p i : ℕ) → p < length lists.items → i < length (slice_index_or lists.items p []) → slice_index (slice_index_or lists.items p []) i < length opens.items }
        ensures { IfOk result (λ sheet. sheet ≡ record {
          lists = lists.items;
          failed = replicate (length lists.items) false;
          passed = replicate (length lists.items) false;
          opens = opens.items;
        }) }
    {
        let failed = vec![in alloc; false; lists.len()]?;
        let passed = vec![in alloc; false; lists.len()]?;
        let tally = Tally::new(alloc, opens)?;
        Ok(Sheet {
            lists,
            failed,
            passed,
            tally,
        })
    }

    /// Which rules failed.
    pub(crate) fn failed(&self) -> &[bool]
        ensures { result.now ≡ self.now.failed }
    {
        &self.failed
    }

    /// Which rules passed.
    pub(crate) fn passed(&self) -> &[bool]
        ensures { result.now ≡ self.now.passed }
    {
        &self.passed
    }

    /// The rule at this place failed.
    pub(crate) fn fail(&mut self, place: usize)
        requires { place < length self.old.failed }
        ensures { self.new ≡ record self.old { failed = slice_set self.old.failed place true } }
    {
        if !self.failed[place] {
            self.failed[place] = true;
            if !self.passed[place] {
                self.tally.raise(self.lists[place].as_slice());
            }
        }
    }

    /// The rule at this place passed.
    pub(crate) fn pass(&mut self, place: usize)
        requires { place < length self.old.passed }
        ensures { self.new ≡ record self.old { passed = slice_set self.old.passed place true } }
    {
        if !self.passed[place] {
            self.passed[place] = true;
            if self.failed[place] {
                self.tally.lower(self.lists[place].as_slice());
            }
        }
    }

    /// The entry at this place is open no more.
    pub(crate) fn close(&mut self, place: usize)
        requires { place < length self.old.opens }
        ensures { self.new ≡ record self.old { opens = slice_set self.old.opens place false } }
    {
        self.tally.close(place);
    }

    /// The place of the first open entry with one rule that failed and did not pass.
    pub(crate) fn first(&self) -> Option<usize>
        ensures { IsFirst (λ k. slice_index_or self.now.opens k false && (tally self.now.failed self.now.passed self.now.lists k == 1)) (length self.now.opens) result }
    {
        self.tally.first()
    }
}
