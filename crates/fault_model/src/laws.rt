ghost use Rattle.std.specs.Prelude.{◌≡◌, ℕ, ◌≤◌, ◌↔◌, List, [], ◌∷◌, ◌++◌, length, None, Contains};
ghost use Rattle.std.specs.List.Sorted.{IsStrictlyIncreasing};
ghost use Rattle.network_model.specs.Network.{Network};
ghost use Rattle.network_model.specs.Table.{Entry};
ghost use Rattle.network_model.specs.Cover.{IsExercised, rules_of};
ghost use Rattle.network_model.specs.Plan.{Plan, IsPlan};
ghost use Rattle.fault_model.specs.Outcomes.{Outcome, Pass, Fail, AreOutcomes, entries_of, Explains};
ghost use Rattle.fault_model.specs.Findings.{suspects, guilty, odd, telling, IsOneSuspect};
ghost use Rattle.fault_model.specs.Follow.{follow};

/// Suspects and guilty rules are listed in number order, each once.
pub fn findings_in_order()
    ensures suspects { (table : List Entry) (outcomes : List Outcome) → IsStrictlyIncreasing (suspects table outcomes) }
    ensures guilty { (table : List Entry) (outcomes : List Outcome) → IsStrictlyIncreasing (guilty table outcomes) }
{}

/// No entry is odd exactly where some set of rules explains the outcomes.
pub fn odd_unexplained()
    ensures { (table : List Entry) (outcomes : List Outcome) → AreOutcomes table outcomes → (odd table outcomes ≡ None) ↔ ((bad : List ℕ) × Explains table outcomes bad) }
{}

/// Wherever some set explains the outcomes, the suspects are exactly the rules on their entries that are in some explanation.
pub fn suspects_in_some()
    ensures { (table : List Entry) (outcomes : List Outcome) → AreOutcomes table outcomes → (bad : List ℕ) → Explains table outcomes bad → (rule : ℕ) →
        Contains (suspects table outcomes) rule ↔ (Contains (rules_of table (entries_of outcomes)) rule × ((other : List ℕ) × Explains table outcomes other × Contains other rule)) }
{}

/// Wherever some set explains the outcomes, the guilty rules are exactly those in every explanation.
pub fn guilty_in_each()
    ensures { (table : List Entry) (outcomes : List Outcome) → AreOutcomes table outcomes → (bad : List ℕ) → Explains table outcomes bad → (rule : ℕ) →
        Contains (guilty table outcomes) rule ↔ ((other : List ℕ) → Explains table outcomes other → Contains other rule) }
{}

/// Following gives outcomes of different entries, begins with the probes, and ends where no entry tells more.
pub fn following_ends()
    ensures different { (net : Network) (hops : ℕ) (plan : Plan) (bad : List ℕ) → IsPlan net hops plan → AreOutcomes plan.table (follow net hops plan bad) }
    ensures probes { (net : Network) (hops : ℕ) (plan : Plan) (bad : List ℕ) → (rest : List ℕ) × (entries_of (follow net hops plan bad) ≡ plan.probes ++ rest) }
    ensures ends { (net : Network) (hops : ℕ) (plan : Plan) (bad : List ℕ) → telling plan (follow net hops plan bad) ≡ None }
{}

/// The bad rules explain what following them gives.
pub fn bad_rules_explain()
    ensures { (net : Network) (hops : ℕ) (plan : Plan) (bad : List ℕ) → IsPlan net hops plan → Explains plan.table (follow net hops plan bad) bad }
{}

/// Each exercised bad rule is a suspect after following.
pub fn exercised_bad_suspected()
    ensures { (net : Network) (hops : ℕ) (plan : Plan) (bad : List ℕ) → IsPlan net hops plan → (rule : ℕ) → IsExercised net hops rule → Contains bad rule →
        Contains (suspects plan.table (follow net hops plan bad)) rule }
{}

/// Each rule that is guilty after following is bad.
pub fn guilty_are_bad()
    ensures { (net : Network) (hops : ℕ) (plan : Plan) (bad : List ℕ) → IsPlan net hops plan → (rule : ℕ) → Contains (guilty plan.table (follow net hops plan bad)) rule → Contains bad rule }
{}

/// Each entry that is sent after the probes has one suspect rule then. Where it fails that rule is guilty, at once and in the
/// end, and where it passes that rule is no suspect any more.
pub fn sent_entries_tell()
    ensures one { (net : Network) (hops : ℕ) (plan : Plan) (bad : List ℕ) → IsPlan net hops plan → (sent later : List Outcome) (o : Outcome) →
        follow net hops plan bad ≡ sent ++ o ∷ later → length plan.probes ≤ length sent → (rule : ℕ) × IsOneSuspect plan.table sent o.entry rule }
    ensures fails { (net : Network) (hops : ℕ) (plan : Plan) (bad : List ℕ) → IsPlan net hops plan → (sent later : List Outcome) (o : Outcome) →
        follow net hops plan bad ≡ sent ++ o ∷ later → length plan.probes ≤ length sent → (rule : ℕ) → IsOneSuspect plan.table sent o.entry rule → o.verdict ≡ Fail →
        Contains (guilty plan.table (sent ++ o ∷ [])) rule × Contains (guilty plan.table (follow net hops plan bad)) rule }
    ensures passes { (net : Network) (hops : ℕ) (plan : Plan) (bad : List ℕ) → IsPlan net hops plan → (sent later : List Outcome) (o : Outcome) →
        follow net hops plan bad ≡ sent ++ o ∷ later → length plan.probes ≤ length sent → (rule : ℕ) → IsOneSuspect plan.table sent o.entry rule → o.verdict ≡ Pass →
        (Contains (suspects plan.table (sent ++ o ∷ [])) rule → ⊥) × (Contains (suspects plan.table (follow net hops plan bad)) rule → ⊥) }
{}
