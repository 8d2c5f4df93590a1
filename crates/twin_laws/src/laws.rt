ghost use Rattle.std.specs.Prelude.{◌≡◌, ◌↔◌, ℕ, List};
ghost use Rattle.network_model.specs.Bits.{Header};
ghost use Rattle.network_model.specs.Network.{Network, hit};
ghost use Rattle.network_model.specs.Classes.{permits, walk_from, Member};
ghost use Rattle.network_model.specs.Prefixes.{IsPrefix, Touches};
ghost use Rattle.network_model.specs.Table.{Entry, IsClass};
ghost use Rattle.twin_laws.specs.Twins.{AreTwins, as_from};

/// Two terminals that send the same headers into one box, at ports that no rule of it names, can't be told apart: at both ports the
/// same rule takes a header, so their headers walk alike, begin with the same lists of rules, and come to the same boxes. The entries
/// of the one are those of the other, but for where they begin.
pub fn twin_terminals()
    ensures hits { (net : Network) (a b : ℕ) (header : Header) (t : AreTwins net a b) → hit net t.first.port header ≡ hit net t.second.port header }
    ensures sent { (net : Network) (a b : ℕ) (header : Header) → AreTwins net a b → permits net a header ≡ permits net b header }
    ensures walks { (net : Network) (hops a b : ℕ) (header : Header) → AreTwins net a b → walk_from net hops a header ≡ walk_from net hops b header }
    ensures members { (net : Network) (hops a b to : ℕ) (rules : List ℕ) (header arrives : Header) → AreTwins net a b
        → Member net hops a rules to header arrives ↔ Member net hops b rules to header arrives }
    ensures prefixes { (net : Network) (hops a b : ℕ) (rules : List ℕ) → AreTwins net a b → IsPrefix net hops a rules ↔ IsPrefix net hops b rules }
    ensures boxes { (net : Network) (hops a b box : ℕ) → AreTwins net a b → Touches net hops a box ↔ Touches net hops b box }
    ensures entries { (net : Network) (hops b : ℕ) (e : Entry) → AreTwins net e.«from» b → IsClass net hops e ↔ IsClass net hops (as_from b e) }
{}
