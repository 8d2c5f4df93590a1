//! What rules have taken of a set so far.
ghost use Rattle.std.specs.Prelude.{◌≡◌, ◌≢◌, ◌++◌, ◌∷◌, [], ℕ, List, None, Some, length, IfOk, OnOk, Contains};
ghost use Rattle.std.specs.Ordering.{nat_cmp};
ghost use Rattle.std.specs.BTreeMap.{get};
ghost use Rattle.network_model.specs.Bits.{Pattern as Taking};

use net_types::RuleId;
use no_memory::NoMemory;
use std::alloc::Global;
use std::collections::BTreeMap;
use ternary_bits::Pattern;

/// The headers that each of some rules took.
#[derive(Debug, Drop)]
pub(super) struct Taken {
    pub(super) patterns: Vec<Pattern>,
    /// The same, each under the number of its rule.
    pub(super) by_number: BTreeMap<u32, Pattern>,
}

impl Taken {
    pub(super) fn new(alloc: Global) -> Self
        ensures patterns { result.patterns.items ≡ [] }
        ensures by_number { (number : ℕ) → get nat_cmp result.by_number number ≡ None }
    {
        Taken {
            patterns: Vec::new(alloc),
            by_number: BTreeMap::new(alloc),
        }
    }

    pub(super) fn add(&mut self, rule: RuleId, sources: Pattern) -> Result<(), NoMemory>
        ensures patterns { OnOk result (self.new.patterns.items ≡ self.old.patterns.items ++ sources ∷ []) }
        ensures here { OnOk result (get nat_cmp self.new.by_number rule ≡ Some sources) }
        ensures others { OnOk result ((number : ℕ) → number ≢ rule →
            get nat_cmp self.new.by_number number ≡ get nat_cmp self.old.by_number number) }
    {
        self.patterns.push(sources)?;
        self.by_number.insert(rule.get(), sources)?;
        Ok(())
    }

    /// Those of the rules of these numbers.
    pub(super) fn of_rules(&self, numbers: &[RuleId]) -> Result<Vec<Pattern>, NoMemory>
        ensures all { IfOk result (λ own. (sources : Taking) → Contains own.items sources →
            (number : ℕ) × (get nat_cmp self.now.by_number number ≡ Some sources)) }
        ensures every { IfOk result (λ own. (number : ℕ) (sources : Taking) → Contains numbers.now number →
            get nat_cmp self.now.by_number number ≡ Some sources → Contains own.items sources) }
    {
        let mut own = Vec::new(*self.patterns.allocator());
        for number in numbers {
            if let Some(sources) = self.by_number.get(&number.get()) {
                own.push(*sources)?;
            }
        }
        Ok(own)
    }
}
