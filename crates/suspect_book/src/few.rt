ghost use Rattle.std.specs.Prelude.{◌≡◌, ℕ, List, [], ◌∷◌, ◌++◌};
ghost use Rattle.fault_model.specs.Findings.{is_none, is_only};
ghost use Rattle.suspect_book.specs.Fewness.{IsFew};
ghost use Rattle.suspect_book.specs.Marked.{is_rule};

use net_types::RuleId;

/// How many different rules there are.
#[derive(Clone, Copy, Debug)]
pub(crate) enum Few {
    Nothing,
    One(RuleId),
    More,
}

impl Few {
    /// With one more rule, which may be there already.
    pub(crate) fn with(self, rule: RuleId) -> Few
        ensures { (rules : List ℕ) → IsFew rules self → IsFew (rules ++ rule ∷ []) result }
    {
        match self {
            Few::Nothing => Few::One(rule),
            Few::One(first) => {
                if first == rule {
                    Few::One(first)
                } else {
                    Few::More
                }
            }
            Few::More => Few::More,
        }
    }

    pub(crate) fn is_nothing(self) -> bool
        ensures { (rules : List ℕ) → IsFew rules self → result ≡ is_none rules }
    {
        match self {
            Few::Nothing => true,
            Few::One(_) => false,
            Few::More => false,
        }
    }

    /// The only rule.
    pub(crate) fn only(self) -> Option<RuleId>
        ensures { (rules : List ℕ) → IsFew rules self → (rule : ℕ) → is_rule result rule ≡ is_only rules rule }
    {
        match self {
            Few::Nothing => None,
            Few::One(rule) => Some(rule),
            Few::More => None,
        }
    }
}
