ghost use Rattle.std.specs.Prelude.{◌≡◌, ◌<◌, ℕ, [], ◌∷◌, ◌++◌, length, slice_get, IfOk};

use super::ids::RuleId;
use no_memory::NoMemory;
use std::alloc::Global;
use std::marker::Model;

/// The rules that a walk met, with room for as many as the hop limit allows.
#[derive(Debug, Drop)]
pub struct Path {
    rules: Vec<RuleId>,
}

impl Model for Path {
    ghost use Rattle.std.specs.Prelude.{vec_capacity};
    ghost use Rattle.net_types.specs.PathValue.{PathValue};

    ghost Value = { PathValue };

    ghost view = { λ p. record { rules = p.rules.items; room = vec_capacity p.rules } };
}

impl Path {
    /// A path with no rules and room for so many.
    pub fn with_room(alloc: Global, hops: u32) -> Result<Path, NoMemory>
        ensures empty { IfOk result (λ path. path.rules ≡ []) }
        ensures room { IfOk result (λ path. path.room ≡ hops) }
    {
        Ok(Path {
            rules: Vec::with_capacity(alloc, hops as usize)?,
        })
    }

    pub fn len(&self) -> usize
        ensures { result ≡ length self.now.rules }
    {
        self.rules.len()
    }

    /// The number at a place, counted from 0.
    pub fn get(&self, i: usize) -> Option<RuleId>
        ensures { result ≡ slice_get self.now.rules i }
    {
        self.rules.get(i).copied()
    }

    /// Takes all rules out. The room stays.
    pub(crate) fn clear(&mut self)
        ensures rules { self.new.rules ≡ [] }
        ensures room { self.new.room ≡ self.old.room }
    {
        self.rules.clear();
    }

    /// A further rule.
    pub(crate) fn add(&mut self, id: RuleId)
        requires { length self.old.rules < self.old.room }
        ensures rules { self.new.rules ≡ self.old.rules ++ id ∷ [] }
        ensures room { self.new.room ≡ self.old.room }
    {
        self.rules.push_reserved(id);
    }
}
