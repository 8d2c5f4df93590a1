//! The entries on which a rule stands.
ghost use Rattle.std.specs.Prelude.{◌≡◌, ◌<◌, ◌≤◌, ◌||◌, ℕ, List, [], length, slice_index, nat_eq, OnOk};
ghost use Rattle.std.specs.List.Sorted.{IsStrictlyIncreasing};
ghost use Rattle.fault_model.specs.Outcomes.{has};

use no_memory::NoMemory;
use std::alloc::Global;
use std::marker::Model;

/// The places of the entries on which a rule stands, in rising order.
#[derive(Drop)]
pub(crate) struct Standing {
    places: Vec<u32>,
}

impl Model for Standing {
    ghost Value = { List ℕ };

    ghost view = { λ s. s.places.items };
}

impl Standing {
    /// No entry.
    pub(crate) fn new(alloc: Global) -> Standing
        ensures { result ≡ [] }
    {
        Standing {
            places: Vec::new(alloc),
        }
    }

    pub(crate) fn as_slice(&self) -> &[u32]
        ensures { result.now ≡ self.now }
    {
        &self.places
    }

    /// Adds an entry that stands behind all others, or is the last one.
    pub(crate) fn add(&mut self, place: u32) -> Result<(), NoMemory>
        requires rises { IsStrictlyIncreasing self.old }
        requires last { (i : ℕ) → i < length self.old → slice_index self.old i ≤ place }
        ensures rises { OnOk result (IsStrictlyIncreasing self.new) }
        ensures last { OnOk result ((i : ℕ) → i < length self.new → slice_index self.new i ≤ place) }
        ensures has { OnOk result ((k : ℕ) → has self.new k ≡ (nat_eq k place || has self.old k)) }
    {
        let count = self.places.len();
        if count == 0 || self.places[count - 1] != place {
            self.places.push(place)?;
        }
        Ok(())
    }
}
