ghost use Rattle.std.specs.Prelude.{◌↔◌, ℕ};
ghost use Rattle.network_model.specs.Network.{Network};
ghost use Rattle.network_model.specs.Prefixes.{Touches};
ghost use Rattle.network_model.specs.Table.{Entry, IsClass};
ghost use Rattle.network_model.specs.WellFormed.{IsWellFormed};
ghost use Rattle.change_laws.specs.Unchanged.{IsUnchanged};

/// A terminal that is the same in two networks, and whose packets come in the old one to boxes alone that are the same in both, has the
/// same entries in both, and its packets come to the same boxes, whatever else differs.
pub fn unchanged_terminal()
    ensures entries { (old new : Network) (hops : ℕ) (e : Entry) → IsWellFormed old → IsWellFormed new → IsUnchanged old new hops e.«from» → IsClass old hops e ↔ IsClass new hops e }
    ensures boxes { (old new : Network) (hops terminal box : ℕ) → IsWellFormed old → IsWellFormed new → IsUnchanged old new hops terminal → Touches old hops terminal box ↔ Touches new hops terminal box }
{}
