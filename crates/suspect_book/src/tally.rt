//! Counts of entries by their places, and the first open one whose count is one.
ghost use Rattle.std.specs.Prelude.{◌≡◌, ◌<◌, ◌+◌, ◌-◌, ◌≤◌, ◌^◌, ℕ, Bool, false, List, length, replicate, slice_set, slice_index, IfOk};
ghost use Rattle.suspect_book.specs.Flagged.{IsFirst};
ghost use Rattle.suspect_book.specs.Tallied.{is_one_at, times};

use super::firsts::Firsts;
use no_memory::NoMemory;
use std::alloc::Global;
use std::marker::Model;

/// Whether each entry is open, its count, and marks at the open ones whose count is one.
#[derive(Drop)]
pub(crate) struct Tally {
    opens: Vec<bool>,
    counts: Vec<usize>,
    ones: Firsts,
}

impl Model for Tally {
    ghost use Rattle.suspect_book.specs.Tallied.{TallyValue, IsTally};

    ghost Value = { TallyValue };

    ghost view = { λ t. record { opens = t.opens.items; counts = t.counts.items } };

    ghost invariant = { λ t. IsTally t.opens.items t.counts.items t.ones };
}

impl Tally {
    /// Counts of zero.
    pub(crate) fn new(alloc: Global, opens: Vec<bool>) -> Result<Tally, NoMemory>
        ensures opens { IfOk result (λ tally. tally.opens ≡ opens.items) }
        ensures zero { IfOk result (λ tally. tally.counts ≡ replicate (length opens.items) 0) }
    {
        let count = opens.len();
        let counts = vec![in alloc; 0; count]?;
        let ones = Firsts::new(alloc, count)?;
        Ok(Tally {
            opens,
            counts,
            ones,
        })
    }

    fn set_count(&mut self, place: usize, count: usize)
        requires { place < length self.old.counts }
        ensures { self.new ≡ record self.old { counts = slice_set self.old.counts place count } }
    {
        self.counts[place] = count;
        let one = self.opens[place] && count == 1;
        self.ones.set(place, one);
    }

    /// The entry at this place is open no more.
    pub(crate) fn close(&mut self, place: usize)
        requires { place < length self.old.counts }
        ensures { self.new ≡ record self.old { opens = slice_set self.old.opens place false } }
    {
        self.opens[place] = false;
        self.ones.set(place, false);
    }

    /// One more for each entry at these places.
    pub(crate) fn raise(&mut self, places: &[u32])
        requires inside { (i : ℕ) → i < length places.now → slice_index places.now i < length self.old.counts }
        requires fits { (k : ℕ) → slice_index self.old.counts k + times places.now k < 2 ^ 64 }
        ensures counts { (k : ℕ) → slice_index self.new.counts k ≡ slice_index self.old.counts k + times places.now k }
        ensures room { length self.new.counts ≡ length self.old.counts }
        ensures opens { self.new.opens ≡ self.old.opens }
    {
        for place in places {
            let count = self.counts[*place as usize] + 1;
            self.set_count(*place as usize, count);
        }
    }

    /// One less for each entry at these places.
    pub(crate) fn lower(&mut self, places: &[u32])
        requires inside { (i : ℕ) → i < length places.now → slice_index places.now i < length self.old.counts }
        requires fits { (k : ℕ) → times places.now k ≤ slice_index self.old.counts k }
        ensures counts { (k : ℕ) → slice_index self.new.counts k + times places.now k ≡ slice_index self.old.counts k }
        ensures room { length self.new.counts ≡ length self.old.counts }
        ensures opens { self.new.opens ≡ self.old.opens }
    {
        for place in places {
            let count = self.counts[*place as usize] - 1;
            self.set_count(*place as usize, count);
        }
    }

    /// The place of the first open entry whose count is one.
    pub(crate) fn first(&self) -> Option<usize>
        ensures { IsFirst (is_one_at self.now.opens self.now.counts) (length self.now.counts) result }
    {
        self.ones.first()
    }
}
