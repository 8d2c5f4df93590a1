ghost use Rattle.std.specs.Prelude.{◌≡◌, ◌↔◌, ◌⊎◌, ℕ, [], IfOk, OnOk, OnErr, IsTrue, Contains};

use net_types::{BoxId, TermId};
use no_memory::NoMemory;
use std::alloc::Global;
use std::collections::BTreeSet;
use std::marker::Model;

/// Pairs of a terminal and a box, each once: which terminals have packets that come to which boxes.
#[derive(Debug, Drop)]
pub struct Touched {
    pairs: BTreeSet<(TermId, BoxId)>,
}

impl Model for Touched {
    ghost use Rattle.std.specs.Prelude.{ℕ, List};

    ghost Value = { List (ℕ × ℕ) };

    ghost view = { λ touched. touched.pairs.keys };
}

impl Touched {
    /// It has no pair and takes no memory.
    pub fn new(alloc: Global) -> Touched
        ensures { result ≡ [] }
    {
        Touched {
            pairs: BTreeSet::new(alloc),
        }
    }

    /// Adds a pair. Where memory runs out nothing changes.
    pub fn add(&mut self, t: TermId, b: BoxId) -> Result<(), NoMemory>
        ensures added { OnOk result ((terminal box : ℕ) → Contains self.new (terminal, box) ↔ (Contains self.old (terminal, box) ⊎ ((terminal ≡ t) × (box ≡ b)))) }
        ensures unchanged { OnErr result (self.new ≡ self.old) }
    {
        self.pairs.insert((t, b))?;
        Ok(())
    }

    /// Whether it has the pair.
    pub fn has(&self, t: TermId, b: BoxId) -> bool
        ensures { IsTrue result ↔ Contains self.now (t, b) }
    {
        self.pairs.contains(&(t, b))
    }

    /// The same pairs once more.
    pub fn copy(&self) -> Result<Touched, NoMemory>
        ensures { IfOk result (λ copy. copy ≡ self.now) }
    {
        Ok(Touched {
            pairs: self.pairs.clone()?,
        })
    }

    /// The pairs of these terminals.
    pub fn of_terminals(self, terminals: &[TermId]) -> Touched
        ensures { (terminal box : ℕ) → Contains result (terminal, box) ↔ (Contains self (terminal, box) × Contains terminals.now terminal) }
    {
        let mut pairs = self.pairs;
        pairs.retain(|pair| terminals.contains(&pair.0));
        Touched { pairs }
    }

    /// The pairs of both.
    pub fn joined(self, other: Touched) -> Result<Touched, NoMemory>
        ensures { IfOk result (λ all. (terminal box : ℕ) → Contains all (terminal, box) ↔ (Contains self (terminal, box) ⊎ Contains other (terminal, box))) }
    {
        let mut pairs = self.pairs;
        let mut more = other.pairs;
        pairs.append(&mut more)?;
        Ok(Touched { pairs })
    }
}
