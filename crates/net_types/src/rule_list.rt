ghost use Rattle.std.specs.Prelude.{◌≡◌, ℕ, List, [], ◌∷◌, ◌++◌, length, slice_get, IfOk, OnOk, OnErr};

use super::ids::RuleId;
use no_memory::NoMemory;
use std::alloc::Global;
use std::marker::Model;

/// A list of rule numbers.
#[derive(Debug, Drop)]
pub struct RuleList {
    rules: Vec<RuleId>,
}

impl Model for RuleList {
    ghost Value = { List ℕ };

    ghost view = { λ l. l.rules.items };
}

impl RuleList {
    pub fn new(alloc: Global) -> Self
        ensures { result ≡ [] }
    {
        RuleList {
            rules: Vec::new(alloc),
        }
    }

    pub fn push(&mut self, id: RuleId) -> Result<(), NoMemory>
        ensures ok { OnOk result (self.new ≡ self.old ++ id ∷ []) }
        ensures err { OnErr result (self.new ≡ self.old) }
    {
        self.rules.push(id)?;
        Ok(())
    }

    pub fn copy(&self) -> Result<RuleList, NoMemory>
        ensures { IfOk result (λ copy. copy ≡ self.now) }
    {
        Ok(RuleList {
            rules: Vec::from_slice(*self.rules.allocator(), &self.rules)?,
        })
    }

    /// The list with one more number at its end, in just the memory that it needs.
    pub fn copy_with(&self, id: RuleId) -> Result<RuleList, NoMemory>
        ensures { IfOk result (λ longer. longer ≡ self.now ++ id ∷ []) }
    {
        let room = self.rules.len().saturating_add(1);
        let mut rules = Vec::with_capacity(*self.rules.allocator(), room)?;
        rules.extend_from_slice(&self.rules)?;
        rules.push(id)?;
        Ok(RuleList { rules })
    }

    /// The numbers in order.
    pub fn as_slice(&self) -> &[RuleId]
        ensures { result.now ≡ self.now }
    {
        &self.rules
    }

    pub fn len(&self) -> usize
        ensures { result ≡ length self.now }
    {
        self.rules.len()
    }

    /// The number at a place, counted from 0.
    pub fn get(&self, i: usize) -> Option<RuleId>
        ensures { result ≡ slice_get self.now i }
    {
        self.rules.get(i).copied()
    }
}
