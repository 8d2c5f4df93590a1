ghost use Rattle.std.specs.Prelude.{◌≡◌, ◌≢◌, ℕ, ◌<◌, ◌≤◌, ◌^◌, ◌↔◌, List, map, length, All, AllPairs, Contains, IsTrue};
ghost use Rattle.std.specs.Cmp.{IsTotalOrder};
ghost use Rattle.std.specs.Ordering.{nat_cmp};
ghost use Rattle.std.specs.declared.cmp.Ordering.TheVariants.{Equal};
ghost use Rattle.network_model.specs.Bits.{Header, header_cmp, number_of};
ghost use Rattle.network_model.specs.Rewrites.{Rewrite, rewritten, kept, composed};
ghost use Rattle.network_model.specs.Network.{Network, Numbered};
ghost use Rattle.network_model.specs.Walk.{Delivered};
ghost use Rattle.network_model.specs.Classes.{permits, walk_from};
ghost use Rattle.network_model.specs.Table.{Entry, IsClass, AreApart, IsTable, IsOver};
ghost use Rattle.network_model.specs.WellFormed.{IsWellFormed};
ghost use Rattle.network_model.specs.Cover.{IsExercised, rules_at, entry_at, rules_of, IsGreedy};
ghost use Rattle.network_model.specs.Plan.{Plan, idle, IsPlan};

/// Headers are totally ordered, and those of one width are ordered as their numbers are.
pub fn headers_in_order()
    ensures total { IsTotalOrder header_cmp }
    ensures exact { (a b : Header) → header_cmp a b ≡ Equal → a ≡ b }
    ensures numbers { (a b : Header) → length a ≡ length b → header_cmp a b ≡ nat_cmp (number_of a) (number_of b) }
{}

/// A header of n bits has a number below 2 ^ n, and no other header of n bits has that number.
pub fn one_number()
    ensures below { (header : Header) → number_of header < 2 ^ length header }
    ensures exact { (a b : Header) → length a ≡ length b → number_of a ≡ number_of b → a ≡ b }
{}

/// A composed rewrite does what the first rewrite and then the later one do.
pub fn one_rewrite()
    ensures { (first later : Rewrite) (header : Header) → rewritten (composed first later) header ≡ rewritten later (rewritten first header) }
{}

/// The rewrite that keeps each bit leaves a header of its width as it is.
pub fn kept_changes_nothing()
    ensures { (header : Header) → rewritten (kept (length header)) header ≡ header }
{}

/// A well-formed network and a hop limit have a table.
pub fn some_table()
    ensures { (net : Network) (hops : ℕ) → IsWellFormed net → (table : List Entry) × IsTable net hops table }
{}

/// A network and a hop limit have at most one table.
pub fn one_table()
    ensures { (net : Network) (hops : ℕ) (a b : List Entry) → IsTable net hops a → IsTable net hops b → a ≡ b }
{}

/// Different classes are no more than the entries of a table.
pub fn classes_fit()
    ensures { (net : Network) (hops : ℕ) (table classes : List Entry) → IsTable net hops table → AreApart classes → All (IsClass net hops) classes → length classes ≤ length table }
{}

/// There are more entries than a limit exactly where the table is longer than that.
pub fn over_the_limit()
    ensures { (net : Network) (hops limit : ℕ) (table : List Entry) → IsTable net hops table → IsOver net hops limit ↔ (limit < length table) }
{}

/// A table has at most one greedy cover.
pub fn one_cover()
    ensures { (table : List Entry) (a b : List ℕ) → IsGreedy table a → IsGreedy table b → a ≡ b }
{}

/// A network and a hop limit have at most one plan.
pub fn one_plan()
    ensures { (net : Network) (hops : ℕ) (a b : Plan) → IsPlan net hops a → IsPlan net hops b → a ≡ b }
{}

/// The packet of an entry may be sent, meets the entry's rules and no others, and is delivered as the entry says.
pub fn packets_travel()
    ensures permitted { (net : Network) (hops : ℕ) (table : List Entry) → IsTable net hops table → All (λ (e : Entry). IsTrue (permits net e.from e.least)) table }
    ensures travels { (net : Network) (hops : ℕ) (table : List Entry) → IsTable net hops table → All (λ (e : Entry). walk_from net hops e.from e.least ≡ record { rules = e.rules; end = Delivered e.to e.arrives }) table }
{}

/// Each rule that some permitted header meets before it is delivered is on a probe.
pub fn exercised_on_probe()
    ensures { (net : Network) (hops : ℕ) (plan : Plan) → IsPlan net hops plan → (rule : ℕ) → IsExercised net hops rule → Contains (rules_of plan.table plan.probes) rule }
{}

/// An idle rule is on no entry, and the idle rules are those rules of the network that are not exercised.
pub fn idle_never_met()
    ensures absent { (net : Network) (plan : Plan) (rule n : ℕ) → Contains (idle net plan) rule → Contains (rules_at (entry_at plan.table n)) rule → ⊥ }
    ensures exact { (net : Network) (hops : ℕ) (plan : Plan) → IsPlan net hops plan → (rule : ℕ) → Contains (idle net plan) rule ↔ (Contains (map (λ (r : Numbered). r.0) net.rules) rule × (IsExercised net hops rule → ⊥)) }
{}
